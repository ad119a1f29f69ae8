//! The rows that stand, and the lists that find them.

ghost use Rattle.std.specs.Prelude.{◌≡◌, ◌≢◌, ℕ, ◌+◌, ◌<◌, ◌≤◌, ◌↔◌, [], ◌∷◌, ◌++◌, length, option_copied, replicate, true, false, not, filter, AllPairs, Contains, Option, Some, None, IfNone, IfOk, IfSome, IsSome, OnErr, OnOk};
ghost use Rattle.std.specs.Bool.{OnFalse, OnTrue};
ghost use Rattle.std.specs.Fn.{FnOnceReturnsAtMut};
ghost use Rattle.std.specs.Option.{option_map};
ghost use Rattle.cache_ident.specs.Rolls.{departed, just_issued};
ghost use Rattle.cache_ident.specs.declared.idents.Ident.{Ident};
ghost use Rattle.cache_ident.specs.declared.idents.Kind.TheVariants.{Mapping};
ghost use Rattle.cache_ident.specs.declared.names.Frame.{Frame};
ghost use Rattle.cache_ident.specs.declared.names.KernelNo.{KernelNo};
ghost use Rattle.cache_ident.specs.declared.names.Name.{Name};
ghost use Rattle.phys_groups.specs.declared.rows.Row.{Row};
ghost use Rattle.sorted_list.specs.Sorted.{IsAdded};
ghost use Rattle.slot_cache.specs.Cells.{changed, just_loaded, loaded_in, with_lock, with_value, HasExactlyLoaded, HasNoName, IsContent, IsFoundAs, IsFull, IsInOrderOfSlot, IsLoaded, IsLowestFree, IsVictim, LockIs, NameIs, NoneMayGo};
ghost use Rattle.slot_cache.specs.Rows.{row_name};
ghost use Rattle.row_store.specs.Frames.{rows_of, FlagsAre, FrameIs, IsRowOf};
ghost use Rattle.kind_store.specs.owner_shelf.specs.Rows.{content_under, row_under, rows_without, LeavesName};
ghost use Rattle.kind_store.specs.Kept.{content_of, AreOwned, IsExactlyOne};
ghost use Rattle.kind_store.specs.Rolls.{all_but, in_order, AreEnrolled, ChangesOne, StaysEnrolled};
ghost use Rattle.kind_store.specs.Changes.{is_name, HasContent, HasNoContent, IsLeaving, IsLoading, IsUpdatingNamed, KeepsContents};
ghost use Rattle.row_store.specs.Kept.{signal_names, AreNamed, LeavesFlags, LeavesFrame, LeavesReceiver, ReceiverIs};

use super::frames::{RowsOf, rows_with};
use super::iter::SignalRows;
use super::signals::{self, Signals};
use cache_ident::{Frame, Ident, KernelNo, Name, NoMemory, Roll};
use declared_names::DeclaredNames;
use growing_list::{GrowingList, Values};
use kind_store::{Found, KindStore};
use phys_groups::Row;
use slot_cache::{Descriptor, Iter};
use sorted_list::{Run, SortedList};
use std::alloc::Global;
use std::marker::Model;

/// The rows that stand, each name in one place at most, as in any `KindStore`. Beside these it lists their names in
/// declared order, the signal rows of each frame, loaded or not, and the loaded rows of each frame, its message rows apart from
/// its others.
///
/// A contract sees what `KindStore` shows, the `names` of all rows in declared order, and the `room`, which is how many
/// more rows there can be without memory. Only `new` and `make_room` take memory. Unless it says otherwise, a call takes
/// a time logarithmic in the rows that stand.
#[derive(Drop)]
pub struct RowStore {
    // No more than any of the four lists has room for.
    room: usize,
    rows: KindStore<Row>,
    order: DeclaredNames,
    signals: Signals,
    // The identifiers of all loaded rows, the message rows of each frame apart from its others.
    by_frame: SortedList<RowsOf, Ident>,
}

impl Model for RowStore {
    ghost use Rattle.declared_names.specs.Order.{names_in};
    ghost use Rattle.row_store.specs.Kept.{KeptRows};
    ghost use Rattle.row_store.specs.Layout.{IsSound};

    ghost Value = { KeptRows };

    ghost view = { λ store. record { kept = store.rows; names = names_in store.order; room = store.room } };

    ghost invariant = { λ store. IsSound store.room store.rows store.order store.signals store.by_frame };
}

impl RowStore {
    /// No rows, no room for any, and as many free slots as `cap`.
    pub fn new(alloc: Global, cap: u32) -> Result<RowStore, NoMemory>
        ensures { IfOk result (λ all. all ≡ record { kept = record { cells = replicate cap None; rows = []; room = 0 }; names = []; room = 0 }) }
    {
        Ok(RowStore {
            room: 0,
            rows: KindStore::new(alloc, cap)?,
            order: DeclaredNames::new(alloc),
            signals: GrowingList::new(alloc),
            by_frame: SortedList::new(alloc, cap as usize)?,
        })
    }

    /// Makes `room` at least one more than it was. Where memory is wanted nothing changes. It doubles the room of each list
    /// that has no more than `room`, so that its time, which grows with the rows that stand, is constant for each row that
    /// it makes room for: call it only where `room` is too small.
    pub fn make_room(&mut self) -> Result<(), NoMemory>
        ensures cells { self.new.kept.cells ≡ self.old.kept.cells }
        ensures rows { self.new.kept.rows ≡ self.old.kept.rows }
        ensures names { self.new.names ≡ self.old.names }
        ensures ok { OnOk result (self.old.room < self.new.room) }
        ensures err { OnErr result (self.new ≡ self.old) }
    {
        let room = self.room;
        make_names_room(&mut self.order, room)?;
        signals::make_room(&mut self.signals, room)?;
        make_rows_room(&mut self.rows, room)?;
        self.room = room_in(&self.rows, &self.order, &self.signals);
        Ok(())
    }

    /// How many more rows there can be without memory. Constant time.
    pub fn room(&self) -> usize
        ensures room { result ≡ self.now.room }
        ensures one { IsExactlyOne row_name Mapping self.now.kept }
        ensures named { AreNamed self.now }
    {
        self.rows.each_is_one();
        self.room
    }

    /// Puts a new row on the shelf, under its owner, and its name last in declared order.
    pub fn declare(&mut self, owner: KernelNo, value: Row)
        requires room { 0 < self.old.room }
        requires absent { content_of row_name self.old.kept (row_name value) ≡ None }
        ensures cells { self.new.kept.cells ≡ self.old.kept.cells }
        ensures rows { IsAdded self.old.kept.rows self.new.kept.rows (record { owner = owner; content = value }) }
        ensures names { self.new.names ≡ self.old.names ++ row_name value ∷ [] }
        ensures room { self.new.room + 1 ≡ self.old.room }
        ensures contents { HasContent row_name self.old.kept self.new.kept (row_name value) value }
        ensures owned { (owner_of : Name → Option KernelNo) → owner_of (row_name value) ≡ Some owner → AreOwned row_name owner_of self.old.kept.rows → AreOwned row_name owner_of self.new.kept.rows }
    {
        let name = value.name();
        let stamp = self.order.push(name);
        signals::list(&mut self.signals, &value, (stamp, name));
        self.rows.declare(owner, value);
        self.room -= 1;
    }

    /// What holds of any rows: each name is in one place, and is that of a row where it was declared. It does nothing.
    pub fn each_is_one(&self)
        ensures one { IsExactlyOne row_name Mapping self.now.kept }
        ensures named { AreNamed self.now }
    {
        self.rows.each_is_one();
    }

    /// The row of a name, wherever it is, and the identifier with which the name is loaded, if it is; `None` where there is
    /// no row. One search where it is loaded.
    pub fn found(&self, name: Name) -> Option<Found<'_, Row>>
        ensures content { option_map (λ found. found.value.now) result ≡ content_of row_name self.now.kept name }
        ensures loaded { IfSome result (λ found. IfSome found.ident (IsFoundAs row_name self.now.kept.cells name)) }
        ensures shelved { IfSome result (λ found. IfNone found.ident (HasNoName row_name self.now.kept.cells name)) }
        ensures one { IsExactlyOne row_name Mapping self.now.kept }
        ensures named { AreNamed self.now }
    {
        self.rows.found(name)
    }

    /// The row of a name, wherever it is; `None` where there is none.
    pub fn item(&self, name: Name) -> Option<&Row>
        ensures content { option_copied result ≡ content_of row_name self.now.kept name }
        ensures one { IsExactlyOne row_name Mapping self.now.kept }
        ensures named { AreNamed self.now }
    {
        self.rows.item(name)
    }

    /// As `item`. Where the name is loaded with the identifier `near`, that takes constant time.
    #[inline(always)]
    pub fn item_near(&self, name: Name, near: Option<Ident>) -> Option<&Row>
        ensures content { option_copied result ≡ content_of row_name self.now.kept name }
        ensures one { IsExactlyOne row_name Mapping self.now.kept }
        ensures named { AreNamed self.now }
    {
        self.rows.item_near(name, near)
    }

    /// The owner under which a row stands on the shelf; `None` where it isn't there.
    pub fn owner_of(&self, name: Name) -> Option<KernelNo>
        ensures { result ≡ option_map (λ row. row.owner) (row_under row_name self.now.kept.rows name) }
    {
        self.rows.owner_of(name)
    }

    /// The identifier with which a name is loaded; `None` where it isn't.
    pub fn resident(&self, name: Name) -> Option<Ident>
        ensures found { IfSome result (IsFoundAs row_name self.now.kept.cells name) }
        ensures absent { IfNone result (HasNoName row_name self.now.kept.cells name) }
        ensures one { IsExactlyOne row_name Mapping self.now.kept }
        ensures named { AreNamed self.now }
    {
        self.rows.resident(name)
    }

    /// As `resident`. Where the name is loaded with the identifier `near`, that takes constant time.
    #[inline(always)]
    pub fn resident_near(&self, name: Name, near: Option<Ident>) -> Option<Ident>
        ensures found { IfSome result (IsFoundAs row_name self.now.kept.cells name) }
        ensures absent { IfNone result (HasNoName row_name self.now.kept.cells name) }
        ensures one { IsExactlyOne row_name Mapping self.now.kept }
        ensures named { AreNamed self.now }
    {
        self.rows.resident_near(name, near)
    }

    /// The row that is loaded with an identifier; `None` where it isn't loaded. Constant time.
    #[inline(always)]
    pub fn get(&self, ident: Ident) -> Option<&Row>
        ensures content { IfSome result (λ value. IsContent self.now.kept.cells ident value.now) }
        ensures absent { IfNone result (IsLoaded self.now.kept.cells ident → ⊥) }
        ensures one { IsExactlyOne row_name Mapping self.now.kept }
        ensures named { AreNamed self.now }
    {
        self.rows.get(ident)
    }

    /// Whether a loaded row is locked. Constant time.
    pub fn is_locked(&self, ident: Ident) -> bool
        requires { IsLoaded self.now.kept.cells ident }
        ensures { LockIs self.now.kept.cells ident.slot result }
    {
        self.rows.is_locked(ident)
    }

    /// The lowest free slot; `None` where all are taken.
    pub fn free(&self) -> Option<u32>
        ensures lowest { IfSome result (IsLowestFree self.now.kept.cells) }
        ensures full { IfNone result (IsFull self.now.kept.cells) }
    {
        self.rows.free()
    }

    /// Of the loaded identifiers that are neither locked nor in `keep`, the one with the smallest serial; `None` where
    /// each is locked or kept. It passes over kept ones, and over no others.
    pub fn victim(&self, keep: &[Ident]) -> Option<Ident>
        ensures victim { IfSome result (IsVictim self.now.kept.cells keep.now) }
        ensures none { IfNone result (NoneMayGo self.now.kept.cells keep.now) }
    {
        self.rows.victim(keep)
    }

    /// What is loaded, in order of slot. Going over it takes as many steps as the highest slot that was ever used.
    pub fn loaded(&self) -> Iter<'_, Row>
        ensures loaded { result ≡ loaded_in self.now.kept.cells }
        ensures exact { HasExactlyLoaded self.now.kept.cells result }
        ensures order { IsInOrderOfSlot result }
    {
        self.rows.loaded()
    }

    /// The names of all rows, loaded or not, in declared order.
    pub fn names(&self) -> Values<'_, u64, Name>
        ensures names { result ≡ self.now.names }
        ensures named { AreNamed self.now }
    {
        self.order.iter()
    }

    /// The names of the rows of a frame that have a receiver, loaded or not, in declared order. Two searches in the
    /// signal rows, and one for each that it gives.
    pub fn signal_rows(&self, frame: Frame) -> SignalRows<'_>
        ensures { result ≡ signal_names self.now frame }
    {
        SignalRows {
            stamped: self.signals.run(&frame),
        }
    }

    /// Whether some row, loaded or not, has a receiver. Constant time.
    pub fn has_signal_rows(&self) -> bool
        ensures some { OnTrue result ((frame : Frame) × (name : Name) × Contains (signal_names self.now frame) name) }
        ensures none { OnFalse result ((frame : Frame) → signal_names self.now frame ≡ []) }
    {
        self.signals.len() > 0
    }

    /// The identifiers of the loaded message rows of a frame, each once, in no order that a caller may rest on. Two searches
    /// in what is loaded, and one for each that it gives.
    pub fn message_rows(&self, frame: Frame) -> Run<'_, RowsOf, Ident>
        ensures rows { (ident : Ident) → Contains result ident ↔ IsRowOf self.now.kept.cells frame true ident }
        ensures once { AllPairs (λ a b. a ≢ b) result }
    {
        self.by_frame.run(&RowsOf {
            frame,
            message: true,
        })
    }

    /// The identifiers of the loaded rows of a frame that are no message rows, as `message_rows` gives those that are.
    pub fn other_rows(&self, frame: Frame) -> Run<'_, RowsOf, Ident>
        ensures rows { (ident : Ident) → Contains result ident ↔ IsRowOf self.now.kept.cells frame false ident }
        ensures once { AllPairs (λ a b. a ≢ b) result }
    {
        self.by_frame.run(&RowsOf {
            frame,
            message: false,
        })
    }

    /// Loads a row from the shelf into the lowest free slot, with an identifier that the roll issues now. It isn't
    /// locked.
    pub fn load(&mut self, name: Name, roll: &mut Roll) -> Ident
        requires shelved { IsSome (content_under row_name self.old.kept.rows name) }
        requires place { IsFull self.old.kept.cells → ⊥ }
        requires spare { 0 < roll.old.spare }
        requires enrolled { AreEnrolled Mapping roll.old.issued self.old.kept.cells }

        ensures ident { result ≡ record { kind = Mapping; slot = result.slot; serial = length roll.old.issued } }
        ensures lowest { IsLowestFree self.old.kept.cells result.slot }
        ensures moved { IsLoading row_name self.old.kept self.new.kept name result }
        ensures names { self.new.names ≡ self.old.names }
        ensures room { self.new.room ≡ self.old.room }
        ensures contents { KeepsContents row_name self.old.kept self.new.kept }
        ensures owned { (owner_of : Name → Option KernelNo) → AreOwned row_name owner_of self.old.kept.rows → AreOwned row_name owner_of self.new.kept.rows }

        ensures issued { roll.new.issued ≡ roll.old.issued ++ just_issued result ∷ [] }
        ensures spare { roll.old.spare ≡ roll.new.spare + 1 }
        ensures last { (value : Row) → content_under row_name self.old.kept.rows name ≡ Some value → in_order roll.new.issued self.new.kept.cells ≡ in_order roll.old.issued self.old.kept.cells ++ just_loaded result value ∷ [] }
        ensures enrolled { AreEnrolled Mapping roll.new.issued self.new.kept.cells }
    {
        let ident = self.rows.load(name, roll);
        let Some(row) = self.rows.get(ident) else {
            unreachable!()
        };
        self.by_frame.insert(rows_with(row), ident);
        ident
    }

    /// Takes a loaded row out of its slot and puts it on the shelf, under its owner, as it is now. Its lock ends. In the
    /// roll its identifier has left, at the place `at` of the journal.
    pub fn leave(&mut self, ident: Ident, owner: KernelNo, roll: &mut Roll, at: u64)
        requires loaded { IsLoaded self.old.kept.cells ident }
        requires enrolled { AreEnrolled Mapping roll.old.issued self.old.kept.cells }

        ensures moved { IsLeaving self.old.kept self.new.kept ident owner }
        ensures names { self.new.names ≡ self.old.names }
        ensures room { self.new.room ≡ self.old.room }
        ensures contents { KeepsContents row_name self.old.kept self.new.kept }
        ensures owned { (owner_of : Name → Option KernelNo) → ((value : Row) → IsContent self.old.kept.cells ident value → owner_of (row_name value) ≡ Some owner) → AreOwned row_name owner_of self.old.kept.rows → AreOwned row_name owner_of self.new.kept.rows }

        ensures departed { roll.new ≡ record roll.old { issued = departed roll.old.issued ident at } }
        ensures order { in_order roll.new.issued self.new.kept.cells ≡ all_but ident (in_order roll.old.issued self.old.kept.cells) }
        ensures enrolled { AreEnrolled Mapping roll.new.issued self.new.kept.cells }
    {
        let Some(row) = self.rows.get(ident) else {
            unreachable!()
        };
        self.by_frame.remove(rows_with(row), ident);
        self.rows.leave(ident, owner, roll, at);
    }

    /// Locks a loaded row, so that it is no victim.
    pub fn lock(&mut self, ident: Ident)
        requires { IsLoaded self.old.kept.cells ident }
        ensures cells { self.new.kept ≡ record self.old.kept { cells = changed self.old.kept.cells ident.slot (with_lock true) } }
        ensures names { self.new.names ≡ self.old.names }
        ensures room { self.new.room ≡ self.old.room }
        ensures contents { KeepsContents row_name self.old.kept self.new.kept }
        ensures order { ChangesOne ident (with_lock true) self.old.kept.cells self.new.kept.cells }
        ensures enrolled { StaysEnrolled Mapping self.old.kept.cells self.new.kept.cells }
    {
        self.rows.lock(ident);
    }

    /// Ends the lock of a loaded row.
    pub fn unlock(&mut self, ident: Ident)
        requires { IsLoaded self.old.kept.cells ident }
        ensures cells { self.new.kept ≡ record self.old.kept { cells = changed self.old.kept.cells ident.slot (with_lock false) } }
        ensures names { self.new.names ≡ self.old.names }
        ensures room { self.new.room ≡ self.old.room }
        ensures contents { KeepsContents row_name self.old.kept self.new.kept }
        ensures order { ChangesOne ident (with_lock false) self.old.kept.cells self.new.kept.cells }
        ensures enrolled { StaysEnrolled Mapping self.old.kept.cells self.new.kept.cells }
    {
        self.rows.unlock(ident);
    }

    /// Puts a row of the same name, frame, flags and receiver in the place of the one that is loaded with an identifier, and
    /// gives the old one back. Constant time.
    pub fn change(&mut self, ident: Ident, value: Row) -> Row
        requires loaded { IsLoaded self.old.kept.cells ident }
        requires name { NameIs row_name self.old.kept.cells ident.slot (row_name value) }
        requires frame { FrameIs self.old.kept.cells ident.slot value.frame }
        requires flags { FlagsAre self.old.kept.cells ident.slot value.flags }
        requires receiver { ReceiverIs self.old.kept.cells ident.slot value.receiver }
        ensures content { IsContent self.old.kept.cells ident result }
        ensures after { self.new.kept ≡ record self.old.kept { cells = changed self.old.kept.cells ident.slot (with_value value) } }
        ensures names { self.new.names ≡ self.old.names }
        ensures room { self.new.room ≡ self.old.room }
        ensures contents { HasContent row_name self.old.kept self.new.kept (row_name value) value }
        ensures order { ChangesOne ident (with_value value) self.old.kept.cells self.new.kept.cells }
        ensures enrolled { StaysEnrolled Mapping self.old.kept.cells self.new.kept.cells }
    {
        self.rows.each_is_one();
        self.rows.change(ident, value)
    }

    /// Changes the row of a name where it stands, in its slot or on the shelf, but for its name, frame, flags and
    /// receiver, and gives what the change gives. The row isn't moved. Where the name is loaded with the identifier `near`,
    /// that takes constant time.
    pub fn update_named<R, F: FnOnce(&mut Row) -> R>(
        &mut self,
        name: Name,
        near: Option<Ident>,
        change: F,
    ) -> R
        requires there { IsSome (content_of row_name self.old.kept name) }
        requires callable { F.IsAlwaysCallable change }
        requires named { LeavesName row_name (FnOnceReturnsAtMut F.FnOnce change) (content_of row_name self.old.kept name) }
        requires frame { LeavesFrame (FnOnceReturnsAtMut F.FnOnce change) (content_of row_name self.old.kept name) }
        requires flags { LeavesFlags (FnOnceReturnsAtMut F.FnOnce change) (content_of row_name self.old.kept name) }
        requires receiver { LeavesReceiver (FnOnceReturnsAtMut F.FnOnce change) (content_of row_name self.old.kept name) }
        ensures updated { IsUpdatingNamed row_name (FnOnceReturnsAtMut F.FnOnce change) self.old.kept self.new.kept name result }
        ensures names { self.new.names ≡ self.old.names }
        ensures room { self.new.room ≡ self.old.room }
        ensures owned { (owner_of : Name → Option KernelNo) → AreOwned row_name owner_of self.old.kept.rows → AreOwned row_name owner_of self.new.kept.rows }
        ensures enrolled { StaysEnrolled Mapping self.old.kept.cells self.new.kept.cells }
    {
        self.rows.each_is_one();
        self.rows.update_named(name, near, change)
    }

    /// Takes a row off the shelf for good, with its name, and gives it. The room stays as it is; what the row leaves free is
    /// found by the next `make_room`.
    pub fn retract(&mut self, name: Name) -> Row
        requires { IsSome (content_under row_name self.old.kept.rows name) }
        ensures content { content_under row_name self.old.kept.rows name ≡ Some result }
        ensures cells { self.new.kept.cells ≡ self.old.kept.cells }
        ensures rows { self.new.kept.rows ≡ rows_without row_name self.old.kept.rows name }
        ensures names { self.new.names ≡ filter (λ other. not (is_name other name)) self.old.names }
        ensures room { self.new.room ≡ self.old.room }
        ensures contents { HasNoContent row_name self.old.kept self.new.kept name }
    {
        let Some(row) = self.rows.item(name) else {
            unreachable!()
        };
        let row = *row;
        let stamp = self.order.remove(name);
        signals::unlist(&mut self.signals, &row, (stamp, name));
        self.rows.retract(name)
    }
}

// Makes the room for names more than that.
fn make_names_room(order: &mut DeclaredNames, room: usize) -> Result<(), NoMemory>
    requires { room ≤ order.old.room }
    ensures entries { order.new.entries ≡ order.old.entries }
    ensures kept { order.old.room ≤ order.new.room }
    ensures ok { OnOk result (room < order.new.room) }
{
    if order.room() > room {
        return Ok(());
    }
    order.make_room()?;
    Ok(())
}

// Makes the room of the cache and the shelf more than that.
fn make_rows_room(rows: &mut KindStore<Row>, room: usize) -> Result<(), NoMemory>
    requires { room ≤ rows.old.room }
    ensures cells { rows.new.cells ≡ rows.old.cells }
    ensures rows { rows.new.rows ≡ rows.old.rows }
    ensures ok { OnOk result (room < rows.new.room) }
    ensures err { OnErr result (rows.new ≡ rows.old) }
{
    if rows.room() > room {
        return Ok(());
    }
    rows.make_room()?;
    Ok(())
}

// For how many more rows there is room in each.
fn room_in(rows: &KindStore<Row>, order: &DeclaredNames, signals: &Signals) -> usize
    ensures rows { result ≤ rows.now.room }
    ensures order { result ≤ order.now.room }
    ensures signals { result + length signals.now.entries ≤ signals.now.room }
    ensures most { (room : ℕ) → room ≤ rows.now.room → room ≤ order.now.room → room + length signals.now.entries ≤ signals.now.room → room ≤ result }
{
    let left = signals.room() - signals.len();
    rows.room().min(order.room()).min(left)
}
