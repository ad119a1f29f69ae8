//! The stores of the four kinds, and the roll, as one.

ghost use Rattle.std.specs.Prelude.{◌≡◌, ◌≢◌, ◌+◌, ◌<◌, ◌≤◌, [], ◌∷◌, ◌++◌, length, true, false, not, filter, AllPairs, Contains, Option, Some, None, IfNone, IfOk, IfSome, IsOk, IsSome, OnErr, OnOk, ◌↔◌};
ghost use Rattle.std.specs.Bool.{OnFalse, OnTrue};
ghost use Rattle.std.specs.Fn.{FnOnceReturnsAtMut};
ghost use Rattle.std.specs.Option.{option_map};
ghost use Rattle.cache_ident.specs.declared.idents.Ident.{Ident};
ghost use Rattle.cache_ident.specs.declared.idents.Kind.TheVariants.{Mapping};
ghost use Rattle.cache_ident.specs.declared.idents.Standing.TheVariants.{Live};
ghost use Rattle.cache_ident.specs.declared.names.Frame.{Frame};
ghost use Rattle.cache_ident.specs.declared.names.KernelNo.{KernelNo};
ghost use Rattle.cache_ident.specs.declared.names.Name.{Name};
ghost use Rattle.cache_ident.specs.Names.{kind_of};
ghost use Rattle.cache_ident.specs.Residents.{with_loaded, with_lock, without, Resident};
ghost use Rattle.cache_ident.specs.Rolls.{departed, just_issued, standing_in};
ghost use Rattle.row_store.specs.Frames.{IsRowOf};
ghost use Rattle.phys_groups.specs.declared.rows.Row.{Row};
ghost use Rattle.thread_cache.specs.declared.ThreadRec.{ThreadRec};
ghost use Rattle.slot_cache.specs.Cells.{loaded_in, HasExactlyLoaded, IsInOrderOfSlot};
ghost use Rattle.slot_cache.specs.Rows.{row_name};
ghost use Rattle.kind_store.specs.owner_shelf.specs.Rows.{content_under};
ghost use Rattle.kind_store.specs.Changes.{is_name};
ghost use Rattle.row_store.specs.Kept.{signal_names};
ghost use Rattle.desc_stores.specs.declared.items.Item.{Item};
ghost use Rattle.desc_stores.specs.Items.{name_of, shown, Agrees};
ghost use Rattle.desc_stores.specs.Contents.{content_of, item_as, names_of, resident_as, residents_of, shelf_owner, HasNoResident, IsFullOf, IsLowestFreeOf, IsResidentAs, IsShelved, IsVictimOf, LockIs, NoneMayGoOf};
ghost use Rattle.desc_stores.specs.Sound.{AreOwned, IsExactlyOne};
ghost use Rattle.desc_stores.specs.Changes.{relocked, room_of, with_item, HasContent, HasNoContent, IsDeclaring, IsLeavingOf, IsLoadingOf, IsNext, IsNothing, IsUpdatingNamed, KeepsContents, LeavesWhatHasRoom, OnlyMakesRoom};

use super::items::{FoundItem, Item, ItemRef};
use cache_ident::{Caps, Frame, Ident, KernelNo, Kind, Name, NoMemory, Roll, Standing};
use growing_list::Values;
use kernel_cache::KernelRec;
use kind_store::KindStore;
use phys_groups::Row;
use row_store::{RowStore, RowsOf, SignalRows};
use slot_cache::{Descriptor, Iter};
use sorted_list::Run;
use space_cache::SpaceRec;
use std::alloc::Global;
use std::marker::Model;
use thread_cache::ThreadRec;

/// All descriptors that stand, each in one place: in a slot of the cache of its kind, or on the shelf of its owner.
///
/// A contract sees what stands where (`Contents`), and says of a call which content a name has then (`content_of`) and
/// what is loaded, in order of loading (`residents_of`). Only `new`, `make_room` and `reserve` take memory. Unless it
/// says otherwise, a call takes a time logarithmic in what is there.
#[derive(Drop)]
pub struct Stores {
    kernels: KindStore<KernelRec>,
    spaces: KindStore<SpaceRec>,
    threads: KindStore<ThreadRec>,
    rows: RowStore,
    // How many were declared. They never go, and have the numbers below.
    kernel_count: u32,
    space_count: u32,
    thread_count: u32,
    roll: Roll,
}

impl Model for Stores {
    ghost use Rattle.desc_stores.specs.Contents.{Contents};
    ghost use Rattle.desc_stores.specs.Sound.{AreSound};

    ghost Value = { Contents };

    ghost view = { λ s. record { kernels = s.kernels; spaces = s.spaces; threads = s.threads; rows = s.rows; kernel_count = s.kernel_count; space_count = s.space_count; thread_count = s.thread_count; issued = s.roll.issued; spare = s.roll.spare } };

    ghost invariant = { λ s. AreSound (record { kernels = s.kernels; spaces = s.spaces; threads = s.threads; rows = s.rows; kernel_count = s.kernel_count; space_count = s.space_count; thread_count = s.thread_count; issued = s.roll.issued; spare = s.roll.spare }) };
}

impl Stores {
    /// Nothing, no room, and as many slots of each kind as `caps` say.
    pub fn new(alloc: Global, caps: Caps) -> Result<Stores, NoMemory>
        ensures { IfOk result (IsNothing caps) }
    {
        Ok(Stores {
            kernels: KindStore::new(alloc, caps.kernels)?,
            spaces: KindStore::new(alloc, caps.spaces)?,
            threads: KindStore::new(alloc, caps.threads)?,
            rows: RowStore::new(alloc, caps.mappings)?,
            kernel_count: 0,
            space_count: 0,
            thread_count: 0,
            roll: Roll::new(alloc),
        })
    }

    /// Makes room for one more of each kind that has none. Nothing else changes, and where memory is wanted no room falls.
    /// Where there is room of each kind it takes constant time. Otherwise its time, which grows with what is there, is
    /// constant for each descriptor that it makes room for.
    pub fn make_room(&mut self) -> Result<(), NoMemory>
        ensures only { OnlyMakesRoom self.old self.new }
        ensures left { LeavesWhatHasRoom self.old self.new }
        ensures ok { OnOk result (0 < room_of self.new) }
    {
        make_room_of(&mut self.kernels)?;
        make_room_of(&mut self.spaces)?;
        make_room_of(&mut self.threads)?;
        make_row_room(&mut self.rows)
    }

    /// How many more descriptors there can be without memory, whatever their kinds. Constant time.
    pub fn room(&self) -> usize
        ensures room { result ≡ room_of self.now }
        ensures one { IsExactlyOne self.now }
    {
        let numbered = self.kernels.room().min(self.spaces.room());
        numbered.min(self.threads.room().min(self.rows.room()))
    }

    /// Makes `spare` at least `n`. Where memory is wanted nothing changes.
    pub fn reserve(&mut self, n: usize) -> Result<(), NoMemory>
        ensures stays { self.new ≡ record self.old { spare = self.new.spare } }
        ensures grows { self.old.spare ≤ self.new.spare }
        ensures ok { OnOk result (n ≤ self.new.spare) }
        ensures enough { n ≤ self.old.spare → IsOk result }
        ensures err { OnErr result (self.new ≡ self.old) }
    {
        self.roll.reserve(n)
    }

    /// How many identifiers can be issued without memory. Constant time.
    pub fn spare(&self) -> usize
        ensures { result ≡ self.now.spare }
    {
        self.roll.spare()
    }

    /// How many kernels were declared. They have the numbers below. Constant time.
    pub fn kernel_count(&self) -> u32
        ensures { result ≡ self.now.kernel_count }
    {
        self.kernel_count
    }

    /// How many spaces were declared. They have the numbers below. Constant time.
    pub fn space_count(&self) -> u32
        ensures { result ≡ self.now.space_count }
    {
        self.space_count
    }

    /// How many threads were declared. They have the numbers below. Constant time.
    pub fn thread_count(&self) -> u32
        ensures { result ≡ self.now.thread_count }
    {
        self.thread_count
    }

    /// Puts a new descriptor on the shelf, under its owner. Kernels, spaces and threads come in the order of their
    /// numbers, from 0.
    pub fn declare(&mut self, owner: KernelNo, item: Item)
        requires room { 0 < room_of self.old }
        requires absent { content_of self.old (name_of item) ≡ None }
        requires next { IsNext self.old item }
        ensures contents { HasContent self.old self.new item }
        ensures residents { residents_of self.new ≡ residents_of self.old }
        ensures owned { (owner_of : Name → Option KernelNo) → owner_of (name_of item) ≡ Some owner → AreOwned owner_of self.old → AreOwned owner_of self.new }
        ensures after { IsDeclaring self.old self.new owner item }
    {
        match item {
            Item::Kernel(kernel) => {
                self.kernels.declare(owner, kernel);
                self.kernel_count += 1;
            }
            Item::Space(space) => {
                self.spaces.declare(owner, space);
                self.space_count += 1;
            }
            Item::Thread(thread) => {
                self.threads.declare(owner, thread);
                self.thread_count += 1;
            }
            Item::Mapping(row) => self.rows.declare(owner, row),
        }
    }

    /// What holds of any stores: each name is in one place, and the names that stand are those that were declared and not
    /// retracted. It does nothing.
    pub fn each_is_one(&self)
        ensures { IsExactlyOne self.now }
    {
        self.kernels.each_is_one();
        self.spaces.each_is_one();
        self.threads.each_is_one();
        self.rows.each_is_one();
    }

    /// The content of a name, wherever it is, and the identifier with which the name is loaded, if it is; `None` where it has
    /// no content. One search where it is loaded.
    pub fn found(&self, name: Name) -> Option<FoundItem<'_>>
        ensures content { option_map (λ found. shown found.item) result ≡ content_of self.now name }
        ensures loaded { IfSome result (λ found. IfSome found.ident (IsResidentAs self.now name)) }
        ensures shelved { IfSome result (λ found. IfNone found.ident (HasNoResident self.now name)) }
    {
        match name {
            Name::Kernel(_) => {
                let found = self.kernels.found(name)?;
                let item = ItemRef::Kernel(found.value);
                let ident = found.ident;
                Some(FoundItem { item, ident })
            }
            Name::Space(_) => {
                let found = self.spaces.found(name)?;
                let item = ItemRef::Space(found.value);
                let ident = found.ident;
                Some(FoundItem { item, ident })
            }
            Name::Thread(_) => {
                let found = self.threads.found(name)?;
                let item = ItemRef::Thread(found.value);
                let ident = found.ident;
                Some(FoundItem { item, ident })
            }
            Name::Mapping(_, _) => {
                let found = self.rows.found(name)?;
                let item = ItemRef::Mapping(found.value);
                let ident = found.ident;
                Some(FoundItem { item, ident })
            }
        }
    }

    /// The content of a name, wherever it is; `None` where there is none. One search where it is loaded.
    pub fn item(&self, name: Name) -> Option<ItemRef<'_>>
        ensures { option_map shown result ≡ content_of self.now name }
    {
        self.item_near(name, None)
    }

    /// As `item`. Where the name is loaded with the identifier `near`, that takes constant time.
    #[inline(always)]
    pub fn item_near(&self, name: Name, near: Option<Ident>) -> Option<ItemRef<'_>>
        ensures { option_map shown result ≡ content_of self.now name }
    {
        match name {
            Name::Kernel(_) => Some(ItemRef::Kernel(self.kernels.item_near(name, near)?)),
            Name::Space(_) => Some(ItemRef::Space(self.spaces.item_near(name, near)?)),
            Name::Thread(_) => Some(ItemRef::Thread(self.threads.item_near(name, near)?)),
            Name::Mapping(_, _) => Some(ItemRef::Mapping(self.rows.item_near(name, near)?)),
        }
    }

    /// The content that is loaded with an identifier; `None` where it isn't loaded. Constant time.
    #[inline(always)]
    pub fn get(&self, ident: Ident) -> Option<ItemRef<'_>>
        ensures { option_map shown result ≡ item_as self.now ident }
    {
        match ident.kind {
            Kind::Kernel => Some(ItemRef::Kernel(self.kernels.get(ident)?)),
            Kind::Space => Some(ItemRef::Space(self.spaces.get(ident)?)),
            Kind::Thread => Some(ItemRef::Thread(self.threads.get(ident)?)),
            Kind::Mapping => Some(ItemRef::Mapping(self.rows.get(ident)?)),
        }
    }

    /// The owner under which a name stands on the shelf; `None` where it isn't there.
    pub fn owner_of(&self, name: Name) -> Option<KernelNo>
        ensures { result ≡ shelf_owner self.now name }
    {
        match name {
            Name::Kernel(_) => self.kernels.owner_of(name),
            Name::Space(_) => self.spaces.owner_of(name),
            Name::Thread(_) => self.threads.owner_of(name),
            Name::Mapping(_, _) => self.rows.owner_of(name),
        }
    }

    /// Where an identifier stands. Constant time.
    pub fn standing(&self, ident: Ident) -> Standing
        ensures standing { result ≡ standing_in self.now.issued ident }
        ensures live { (result ≡ Live) ↔ IsSome (resident_as self.now ident) }
    {
        self.roll.find(ident)
    }

    /// The identifier with which a name is loaded; `None` where it isn't.
    pub fn resident(&self, name: Name) -> Option<Ident>
        ensures found { IfSome result (IsResidentAs self.now name) }
        ensures absent { IfNone result (HasNoResident self.now name) }
    {
        self.resident_near(name, None)
    }

    /// As `resident`. Where the name is loaded with the identifier `near`, that takes constant time.
    #[inline(always)]
    pub fn resident_near(&self, name: Name, near: Option<Ident>) -> Option<Ident>
        ensures found { IfSome result (IsResidentAs self.now name) }
        ensures absent { IfNone result (HasNoResident self.now name) }
    {
        match name {
            Name::Kernel(_) => self.kernels.resident_near(name, near),
            Name::Space(_) => self.spaces.resident_near(name, near),
            Name::Thread(_) => self.threads.resident_near(name, near),
            Name::Mapping(_, _) => self.rows.resident_near(name, near),
        }
    }

    /// Whether a live identifier is locked. Constant time.
    pub fn is_locked(&self, ident: Ident) -> bool
        requires { standing_in self.now.issued ident ≡ Live }
        ensures { LockIs self.now ident result }
    {
        match ident.kind {
            Kind::Kernel => self.kernels.is_locked(ident),
            Kind::Space => self.spaces.is_locked(ident),
            Kind::Thread => self.threads.is_locked(ident),
            Kind::Mapping => self.rows.is_locked(ident),
        }
    }

    /// The lowest free slot of a kind; `None` where all are taken.
    pub fn free(&self, kind: Kind) -> Option<u32>
        ensures lowest { IfSome result (IsLowestFreeOf self.now kind) }
        ensures full { IfNone result (IsFullOf self.now kind) }
    {
        match kind {
            Kind::Kernel => self.kernels.free(),
            Kind::Space => self.spaces.free(),
            Kind::Thread => self.threads.free(),
            Kind::Mapping => self.rows.free(),
        }
    }

    /// Of the loaded identifiers of a kind that are neither locked nor in `keep`, the one with the smallest serial;
    /// `None` where each is locked or kept. It passes over kept ones, and over no others.
    pub fn victim(&self, kind: Kind, keep: &[Ident]) -> Option<Ident>
        ensures victim { IfSome result (IsVictimOf self.now kind keep.now) }
        ensures none { IfNone result (NoneMayGoOf self.now kind keep.now) }
    {
        match kind {
            Kind::Kernel => self.kernels.victim(keep),
            Kind::Space => self.spaces.victim(keep),
            Kind::Thread => self.threads.victim(keep),
            Kind::Mapping => self.rows.victim(keep),
        }
    }

    /// The threads that are loaded, in order of slot. Going over them takes as many steps as the highest slot that a thread
    /// ever had.
    pub fn loaded_threads(&self) -> Iter<'_, ThreadRec>
        ensures loaded { result ≡ loaded_in self.now.threads.cells }
        ensures exact { HasExactlyLoaded self.now.threads.cells result }
        ensures order { IsInOrderOfSlot result }
    {
        self.threads.loaded()
    }

    /// The names of all rows, loaded or not, in declared order.
    pub fn row_names(&self) -> Values<'_, u64, Name>
        ensures { result ≡ names_of self.now Mapping }
    {
        self.rows.names()
    }

    /// The names of the rows of a frame that have a receiver, loaded or not, in declared order. Two searches in the
    /// signal rows, and one for each that it gives.
    pub fn signal_rows(&self, frame: Frame) -> SignalRows<'_>
        ensures { result ≡ signal_names self.now.rows frame }
    {
        self.rows.signal_rows(frame)
    }

    /// Whether some row, loaded or not, has a receiver. Constant time.
    pub fn has_signal_rows(&self) -> bool
        ensures some { OnTrue result ((frame : Frame) × (name : Name) × Contains (signal_names self.now.rows frame) name) }
        ensures none { OnFalse result ((frame : Frame) → signal_names self.now.rows frame ≡ []) }
    {
        self.rows.has_signal_rows()
    }

    /// The identifiers of the loaded message rows of a frame, each once, in no order that a caller may rest on. Two searches
    /// in what is loaded, and one for each that it gives.
    pub fn message_rows(&self, frame: Frame) -> Run<'_, RowsOf, Ident>
        ensures rows { (ident : Ident) → Contains result ident ↔ IsRowOf self.now.rows.kept.cells frame true ident }
        ensures once { AllPairs (λ a b. a ≢ b) result }
    {
        self.rows.message_rows(frame)
    }

    /// The identifiers of the loaded rows of a frame that are no message rows, as `message_rows` gives those that are.
    pub fn other_rows(&self, frame: Frame) -> Run<'_, RowsOf, Ident>
        ensures rows { (ident : Ident) → Contains result ident ↔ IsRowOf self.now.rows.kept.cells frame false ident }
        ensures once { AllPairs (λ a b. a ≢ b) result }
    {
        self.rows.other_rows(frame)
    }

    /// Loads a descriptor from the shelf into the lowest free slot of its kind, with an identifier that is issued now. It
    /// isn't locked.
    pub fn load(&mut self, name: Name) -> Ident
        requires shelved { IsShelved self.old name }
        requires place { IsFullOf self.old (kind_of name) → ⊥ }
        requires spare { 0 < self.old.spare }
        ensures ident { result ≡ record { kind = kind_of name; slot = result.slot; serial = length self.old.issued } }
        ensures lowest { IsLowestFreeOf self.old (kind_of name) result.slot }
        ensures contents { KeepsContents self.old self.new }
        ensures residents { residents_of self.new ≡ with_loaded result name (residents_of self.old) }
        ensures issued { self.new.issued ≡ self.old.issued ++ just_issued result ∷ [] }
        ensures spare { self.old.spare ≡ self.new.spare + 1 }
        ensures owned { (owner_of : Name → Option KernelNo) → AreOwned owner_of self.old → AreOwned owner_of self.new }
        ensures after { IsLoadingOf self.old self.new name result }
    {
        match name {
            Name::Kernel(_) => self.kernels.load(name, &mut self.roll),
            Name::Space(_) => self.spaces.load(name, &mut self.roll),
            Name::Thread(_) => self.threads.load(name, &mut self.roll),
            Name::Mapping(_, _) => self.rows.load(name, &mut self.roll),
        }
    }

    /// Takes a loaded descriptor out of its slot and puts it on the shelf, under its owner, with the content that it has
    /// now. Its lock ends. Its identifier has left then, at the place `at` of the journal.
    pub fn leave(&mut self, ident: Ident, owner: KernelNo, at: u64)
        requires { standing_in self.old.issued ident ≡ Live }
        ensures contents { KeepsContents self.old self.new }
        ensures residents { residents_of self.new ≡ without ident (residents_of self.old) }
        ensures issued { self.new.issued ≡ departed self.old.issued ident at }
        ensures owned { (owner_of : Name → Option KernelNo) → ((resident : Resident) → resident_as self.old ident ≡ Some resident → owner_of resident.name ≡ Some owner) → AreOwned owner_of self.old → AreOwned owner_of self.new }
        ensures after { IsLeavingOf self.old self.new ident owner }
    {
        match ident.kind {
            Kind::Kernel => self.kernels.leave(ident, owner, &mut self.roll, at),
            Kind::Space => self.spaces.leave(ident, owner, &mut self.roll, at),
            Kind::Thread => self.threads.leave(ident, owner, &mut self.roll, at),
            Kind::Mapping => self.rows.leave(ident, owner, &mut self.roll, at),
        }
    }

    /// Locks a loaded descriptor, so that it is no victim.
    pub fn lock(&mut self, ident: Ident)
        requires { standing_in self.old.issued ident ≡ Live }
        ensures contents { KeepsContents self.old self.new }
        ensures residents { residents_of self.new ≡ with_lock ident true (residents_of self.old) }
        ensures after { self.new ≡ relocked self.old ident true }
    {
        match ident.kind {
            Kind::Kernel => self.kernels.lock(ident),
            Kind::Space => self.spaces.lock(ident),
            Kind::Thread => self.threads.lock(ident),
            Kind::Mapping => self.rows.lock(ident),
        }
    }

    /// Ends the lock of a loaded descriptor.
    pub fn unlock(&mut self, ident: Ident)
        requires { standing_in self.old.issued ident ≡ Live }
        ensures contents { KeepsContents self.old self.new }
        ensures residents { residents_of self.new ≡ with_lock ident false (residents_of self.old) }
        ensures after { self.new ≡ relocked self.old ident false }
    {
        match ident.kind {
            Kind::Kernel => self.kernels.unlock(ident),
            Kind::Space => self.spaces.unlock(ident),
            Kind::Thread => self.threads.unlock(ident),
            Kind::Mapping => self.rows.unlock(ident),
        }
    }

    /// Puts a content of the same name, and of the same frame, flags and receiver if it is a row, in the place of the one
    /// that is loaded with an identifier, and gives the old one back. Constant time.
    pub fn change(&mut self, ident: Ident, item: Item) -> Item
        requires live { standing_in self.old.issued ident ≡ Live }
        requires agrees { (was : Item) → item_as self.old ident ≡ Some was → Agrees was item }
        ensures was { item_as self.old ident ≡ Some result }
        ensures contents { HasContent self.old self.new item }
        ensures residents { residents_of self.new ≡ residents_of self.old }
        ensures after { self.new ≡ with_item self.old ident item }
    {
        match item {
            Item::Kernel(kernel) => Item::Kernel(self.kernels.change(ident, kernel)),
            Item::Space(space) => Item::Space(self.spaces.change(ident, space)),
            Item::Thread(thread) => Item::Thread(self.threads.change(ident, thread)),
            Item::Mapping(row) => Item::Mapping(self.rows.change(ident, row)),
        }
    }

    /// Changes the thread of a name where it stands, in its slot or on the shelf, but for its number, and gives what the
    /// change gives. The record isn't moved. Where the name is loaded with the identifier `near`, that takes constant time.
    pub fn update_thread_named<R, F: FnOnce(&mut ThreadRec) -> R>(
        &mut self,
        name: Name,
        near: Option<Ident>,
        change: F,
    ) -> R
        requires thread { kind_of name ≡ Kind.Thread }
        requires there { IsSome (content_of self.old name) }
        requires callable { F.IsAlwaysCallable change }
        requires agrees { (thread left : ThreadRec) (result : R) → content_of self.old name ≡ Some (Item.Thread thread) → FnOnceReturnsAtMut F.FnOnce change thread result left → Agrees (Item.Thread thread) (Item.Thread left) }
        ensures updated { IsUpdatingNamed Item.Thread (FnOnceReturnsAtMut F.FnOnce change) self.old self.new name result }
        ensures residents { residents_of self.new ≡ residents_of self.old }
        ensures owned { (owner_of : Name → Option KernelNo) → AreOwned owner_of self.old → AreOwned owner_of self.new }
    {
        self.threads.update_named(name, near, change)
    }

    /// Changes the row of a name where it stands, in its slot or on the shelf, but for its name, frame, flags and
    /// receiver, and gives what the change gives. The row isn't moved. Where the name is loaded with the identifier `near`,
    /// that takes constant time.
    pub fn update_row_named<R, F: FnOnce(&mut Row) -> R>(
        &mut self,
        name: Name,
        near: Option<Ident>,
        change: F,
    ) -> R
        requires row { kind_of name ≡ Kind.Mapping }
        requires there { IsSome (content_of self.old name) }
        requires callable { F.IsAlwaysCallable change }
        requires agrees { (row left : Row) (result : R) → content_of self.old name ≡ Some (Item.Mapping row) → FnOnceReturnsAtMut F.FnOnce change row result left → Agrees (Item.Mapping row) (Item.Mapping left) }
        ensures updated { IsUpdatingNamed Item.Mapping (FnOnceReturnsAtMut F.FnOnce change) self.old self.new name result }
        ensures residents { residents_of self.new ≡ residents_of self.old }
        ensures owned { (owner_of : Name → Option KernelNo) → AreOwned owner_of self.old → AreOwned owner_of self.new }
    {
        self.rows.update_named(name, near, change)
    }

    /// Puts a record of a kernel in the place of the one that stands, in its slot or on the shelf, and gives the old one
    /// back.
    pub fn put_kernel(&mut self, kernel: KernelRec) -> KernelRec
        requires { IsSome (content_of self.old (name_of (Item.Kernel kernel))) }
        ensures was { content_of self.old (name_of (Item.Kernel kernel)) ≡ Some (Item.Kernel result) }
        ensures contents { HasContent self.old self.new (Item.Kernel kernel) }
        ensures residents { residents_of self.new ≡ residents_of self.old }
        ensures owned { (owner_of : Name → Option KernelNo) → AreOwned owner_of self.old → AreOwned owner_of self.new }
        ensures slots { length self.new.kernels.cells ≡ length self.old.kernels.cells }
        ensures room { room_of self.new ≡ room_of self.old }
        ensures only { self.new ≡ record self.old { kernels = self.new.kernels } }
    {
        match self.kernels.resident(kernel.name()) {
            Some(ident) => self.kernels.change(ident, kernel),
            None => self.kernels.exchange(kernel),
        }
    }

    /// Takes a row off the shelf for good, with its name, and gives it. All room stays as it is.
    pub fn retract(&mut self, name: Name) -> Row
        requires row { kind_of name ≡ Mapping }
        requires shelved { IsShelved self.old name }
        ensures was { content_under row_name self.old.rows.kept.rows name ≡ Some result }
        ensures contents { HasNoContent self.old self.new name }
        ensures residents { residents_of self.new ≡ residents_of self.old }
        ensures names { names_of self.new Mapping ≡ filter (λ other. not (is_name other name)) (names_of self.old Mapping) }
        ensures owned { (owner_of : Name → Option KernelNo) → AreOwned owner_of self.old → AreOwned owner_of self.new }
        ensures room { room_of self.new ≡ room_of self.old }
        ensures only { self.new ≡ record self.old { rows = self.new.rows } }
        ensures cells { self.new.rows.kept.cells ≡ self.old.rows.kept.cells }
    {
        self.rows.retract(name)
    }
}

// Makes room for one more of a kind, if there is none.
fn make_room_of<T: Descriptor + Drop>(kept: &mut KindStore<T>) -> Result<(), NoMemory>
    ensures cells { kept.new.cells ≡ kept.old.cells }
    ensures rows { kept.new.rows ≡ kept.old.rows }
    ensures grows { kept.old.room ≤ kept.new.room }
    ensures enough { 0 < kept.old.room → kept.new ≡ kept.old }
    ensures ok { OnOk result (0 < kept.new.room) }
{
    if kept.room() > 0 {
        return Ok(());
    }
    kept.make_room()?;
    Ok(())
}

// The same of rows.
fn make_row_room(rows: &mut RowStore) -> Result<(), NoMemory>
    ensures cells { rows.new.kept.cells ≡ rows.old.kept.cells }
    ensures rows { rows.new.kept.rows ≡ rows.old.kept.rows }
    ensures names { rows.new.names ≡ rows.old.names }
    ensures grows { rows.old.room ≤ rows.new.room }
    ensures enough { 0 < rows.old.room → rows.new ≡ rows.old }
    ensures ok { OnOk result (0 < rows.new.room) }
{
    if rows.room() > 0 {
        return Ok(());
    }
    rows.make_room()?;
    Ok(())
}
