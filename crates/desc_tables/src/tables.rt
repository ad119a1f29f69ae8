//! Caches, shelves and what depends on what, as one.

ghost use Rattle.std.specs.Prelude.{◌≡◌, ◌≢◌, AllPairs, ◌+◌, ◌<◌, ◌≤◌, ◌^◌, ◌∷◌, [], ◌++◌, ◌↔◌, ℕ, length, filter, not, true, false, List, Option, Some, IsSome, IfOk, IfSome, IfNone, OnOk, OnErr, IsOk, IsTrue, Contains, vec_capacity};
ghost use Rattle.desc_tables.specs.Tables.{AreSound};
ghost use Rattle.std.specs.Bool.{OnFalse, OnTrue};
ghost use Rattle.std.specs.Fn.{FnOnceReturnsAtMut};
ghost use Rattle.std.specs.Option.{option_map};
ghost use Rattle.cache_ident.specs.Rolls.{standing_in, just_issued};
ghost use Rattle.cache_ident.specs.declared.idents.Standing.TheVariants.{Live};
ghost use Rattle.cache_ident.specs.declared.idents.Cause.TheVariants.{Displaced, Unloaded};
ghost use Rattle.cache_ident.specs.declared.idents.Kind.TheVariants.{Mapping, Thread};
ghost use Rattle.cache_ident.specs.declared.names.Frame.{Frame};
ghost use Rattle.cache_ident.specs.declared.names.KernelNo.{KernelNo};
ghost use Rattle.cache_ident.specs.declared.names.Name.{Name};
ghost use Rattle.cache_ident.specs.Names.{kind_of, amount_of};
ghost use Rattle.cache_ident.specs.Residents.{Resident, with_loaded, with_lock, IsIdentResident, IsNameResident, IsResident};
ghost use Rattle.depend_lists.specs.Pairs.{count_of};
ghost use Rattle.depend_lists.specs.declared.nodes.Node.{Node};
ghost use Rattle.cache_ident.specs.declared.idents.Ident.{Ident};
ghost use Rattle.desc_groups.specs.flat_state.specs.Dependence.{owner};
ghost use Rattle.desc_groups.specs.flat_state.specs.declared.events.Machine.{Machine};
ghost use Rattle.desc_groups.specs.run_journal.specs.Groups.{IsGroup};
ghost use Rattle.desc_groups.specs.run_journal.specs.Legal.{AreGood, IsTaken};
ghost use Rattle.phys_groups.specs.declared.rows.Row.{Row};
ghost use Rattle.slot_cache.specs.Cells.{loaded_in, HasExactlyLoaded, IsInOrderOfSlot};
ghost use Rattle.thread_cache.specs.declared.ThreadRec.{ThreadRec};
ghost use Rattle.kernel_cache.specs.declared.KernelRec.{KernelRec};
ghost use Rattle.desc_groups.specs.desc_stores.specs.Contents.{content_of, residents_of, item_as, names_of, IsShelved, IsFullOf, LockIs};
ghost use Rattle.desc_groups.specs.desc_stores.specs.Items as items;
ghost use Rattle.desc_groups.specs.desc_stores.specs.Changes.{HasContent, HasNoContent, room_of, OnlyMakesRoom, IsNothing, with_item};
ghost use Rattle.desc_groups.specs.desc_stores.specs.Sound.{AreOwned};
ghost use Rattle.desc_groups.specs.shown_state.specs.Shown.{shown};
ghost use Rattle.desc_groups.specs.shown_state.specs.Edits.{with_new, with_changed};
ghost use Rattle.desc_groups.specs.store_residents.specs.Frames.{IsResidentOn};
ghost use Rattle.desc_groups.specs.store_residents.specs.Victims.{IsOldest};
ghost use Rattle.desc_groups.specs.group_laws.specs.Leaving.{without_all};
ghost use Rattle.desc_groups.specs.desc_parents.specs.Seen.{seen};
ghost use Rattle.desc_groups.specs.resident_pairs.specs.Among.{AreParents};
ghost use Rattle.desc_groups.specs.Moves.{AreNamed, HasPlaces, but_for_counts, KeepsButCounts, MayBeLocked, MayEnter, gone_as, departed_all, idents_of};
ghost use Rattle.desc_tables.specs.May.{MayBeDeclared, MayBeLoaded};
ghost use Rattle.desc_tables.specs.Calls.{HasPlacesFor, IsLike, IsUpdated, with_right, with_rights, IsOfWhatStands, OwnsNew};
ghost use Rattle.row_store.specs.Kept.{signal_names};
ghost use Rattle.row_store.specs.kind_store.specs.Changes.{is_name};

use crate::names::Names;
use cache_ident::{Caps, Cause, Frame, Ident, KernelNo, Kind, Name, NoMemory, SpaceNo, Standing};
use depend_lists::most_loaded;
use desc_groups::{
    FoundItem, Gone, Item, ItemRef, Parents, ResidentPairs, Stores, enter, kernel_of, leave, lock,
    parents_of, unlock,
};
use growing_list::Values;
use kernel_cache::KernelRec;
use phys_groups::Row;
use row_store::{RowsOf, SignalRows};
use slot_cache::Iter;
use sorted_list::Run;
use std::alloc::Global;
use std::marker::Model;
use thread_cache::ThreadRec;

/// All descriptors that stand, each loaded in the cache of its kind or on the shelf of its owner.
///
/// A contract sees the capacities, the contents (`content_of` a name, what is loaded in `residents_of`, the identifiers that
/// were issued), and what left at the last load or unload. What is loaded is fit and has all that it depends on, each
/// kernel's counts of locks are right, and what is on a shelf stands under its owner.
///
/// No call but `new`, `declare`, `make_room` and `reserve` takes memory. Unless it says otherwise, a call takes a time
/// logarithmic in what is there.
#[derive(Drop)]
pub struct Tables {
    // Those of the pairs.
    caps: Caps,
    stores: Stores,
    pairs: ResidentPairs,
    // In both there is room for all that the capacities allow.
    gone: Vec<Gone>,
    left: Vec<Name>,
}

impl Model for Tables {
    ghost use Rattle.std.specs.Prelude.{◌≡◌, ◌≤◌, vec_capacity};
    ghost use Rattle.depend_lists.specs.Pairs.{count_of};
    ghost use Rattle.desc_tables.specs.Tables.{AreSound, Held};

    ghost Value = { Held };

    ghost view = { λ t. record { caps = t.pairs.caps; contents = t.stores; gone = t.gone.items; left = t.left.items } };

    ghost invariant = { λ t. AreSound (record { caps = t.pairs.caps; contents = t.stores; gone = t.gone.items; left = t.left.items }) t.pairs.pairs × (count_of t.pairs.caps ≤ vec_capacity t.gone) × (count_of t.pairs.caps ≤ vec_capacity t.left) × (t.caps ≡ t.pairs.caps) };
}

impl Tables {
    /// Nothing, with as many slots of each kind as `caps` say, and no room on the shelves.
    pub fn new(alloc: Global, caps: Caps) -> Result<Tables, NoMemory>
        ensures caps { IfOk result (λ tables. tables.caps ≡ caps) }
        ensures nothing { IfOk result (λ tables. IsNothing caps tables.contents) }
        ensures gone { IfOk result (λ tables. tables.gone ≡ []) }
        ensures left { IfOk result (λ tables. tables.left ≡ []) }
    {
        let gone = room_for_all(alloc, caps)?;
        let left = room_for_all(alloc, caps)?;
        let pairs = ResidentPairs::new(alloc, caps)?;
        let stores = Stores::new(alloc, caps)?;
        stores.each_is_one();
        Ok(Tables {
            caps,
            stores,
            pairs,
            gone,
            left,
        })
    }

    /// Makes room for one more descriptor of each kind. Nothing else changes, and no room falls, also where memory is
    /// wanted. Its time, which grows with what is there, is constant for each descriptor that it makes room for; where
    /// there is room it is constant.
    pub fn make_room(&mut self) -> Result<(), NoMemory>
        ensures only { OnlyMakesRoom self.old.contents self.new.contents }
        ensures rest { self.new ≡ record self.old { contents = self.new.contents } }
        ensures ok { OnOk result (0 < room_of self.new.contents) }
        ensures enough { 0 < room_of self.old.contents → IsOk result }
    {
        if self.stores.room() > 0 {
            return Ok(());
        }
        let made = self.stores.make_room();
        self.stores.each_is_one();
        made
    }

    /// How many more descriptors can be declared without memory, whatever their kinds. Constant time.
    pub fn room(&self) -> usize
        ensures { result ≡ room_of self.now.contents }
    {
        self.stores.room()
    }

    /// What holds of the tables whenever a caller sees them: for some pairs of what depends on what they are sound, and there
    /// are places in the journal for each group that can leave. It does nothing.
    pub fn are_sound(&self)
        ensures sound { (pairs : List (Ident × Node)) × AreSound self.now pairs }
        ensures places { (root : Ident) (at : ℕ) → at + count_of self.now.caps ≤ 2 ^ 64 → HasPlaces self.now.contents root at }
    {
        let _ = &self.pairs;
    }

    /// Puts a new descriptor on its owner's shelf, after `make_room`. It takes the room of one.
    pub fn declare(&mut self, item: Item) -> Result<(), NoMemory>
        requires { MayBeDeclared self.old.caps self.old.contents item }
        ensures rest { self.new ≡ record self.old { contents = self.new.contents } }
        ensures contents { OnOk result (HasContent self.old.contents self.new.contents item) }
        ensures residents { residents_of self.new.contents ≡ residents_of self.old.contents }
        ensures issued { self.new.contents.issued ≡ self.old.contents.issued }
        ensures spare { self.new.contents.spare ≡ self.old.contents.spare }
        ensures shows { OnOk result ((machine : Option Machine) (memory : List ℕ) → shown machine memory self.new.contents ≡ with_new (shown machine memory self.old.contents) item) }
        ensures enough { 0 < room_of self.old.contents → IsOk result }
        ensures room { room_of self.old.contents ≤ room_of self.new.contents + 1 }
        ensures err { OnErr result (OnlyMakesRoom self.old.contents self.new.contents) }
    {
        self.make_room()?;
        self.put(item);
        Ok(())
    }

    // Puts a new descriptor on its owner's shelf, where there is room for it.
    fn put(&mut self, item: Item)
        requires room { 0 < room_of self.old.contents }
        requires may { MayBeDeclared self.old.caps self.old.contents item }
        ensures rest { self.new ≡ record self.old { contents = self.new.contents } }
        ensures contents { HasContent self.old.contents self.new.contents item }
        ensures residents { residents_of self.new.contents ≡ residents_of self.old.contents }
        ensures issued { self.new.contents.issued ≡ self.old.contents.issued }
        ensures spare { self.new.contents.spare ≡ self.old.contents.spare }
        ensures room { room_of self.old.contents ≤ room_of self.new.contents + 1 }
        ensures shows { (machine : Option Machine) (memory : List ℕ) → shown machine memory self.new.contents ≡ with_new (shown machine memory self.old.contents) item }
    {
        let owner = owner_of_new(&self.stores, &item);
        self.stores.declare(owner, item);
        self.stores.each_is_one();
    }

    /// Makes `spare` at least `n`. Where memory is wanted nothing changes.
    pub fn reserve(&mut self, n: usize) -> Result<(), NoMemory>
        ensures stays { self.new ≡ record self.old { contents = record self.old.contents { spare = self.new.contents.spare } } }
        ensures grows { self.old.contents.spare ≤ self.new.contents.spare }
        ensures ok { OnOk result (n ≤ self.new.contents.spare) }
        ensures enough { n ≤ self.old.contents.spare → IsOk result }
        ensures err { OnErr result (self.new ≡ self.old) }
    {
        let reserved = self.stores.reserve(n);
        self.stores.each_is_one();
        reserved
    }

    /// The capacities, with which it was made. Constant time.
    pub fn caps(&self) -> Caps
        ensures { result ≡ self.now.caps }
    {
        self.caps
    }

    /// How many identifiers can be issued without memory. Constant time.
    pub fn spare(&self) -> usize
        ensures { result ≡ self.now.contents.spare }
    {
        self.stores.spare()
    }

    /// Loads a descriptor from the shelf, with an identifier that is issued now, into the lowest slot of its kind that is
    /// free. Where none is, the victim leaves first, with all that depends on it: of the loaded ones of the kind that are
    /// neither locked nor in `keep`, the one that was loaded first. What leaves does so from the place `at` of the journal on.
    ///
    /// It takes a time logarithmic in what is there for each descriptor that comes or leaves, and searches the victim past the
    /// kept ones alone.
    pub fn load(&mut self, name: Name, keep: &[Ident], at: u64) -> Ident
        requires may { MayBeLoaded self.old.contents name keep.now }
        requires places { HasPlacesFor self.old.contents name keep.now at }
        requires spare { 0 < self.old.contents.spare }
        ensures caps { self.new.caps ≡ self.old.caps }
        ensures displaced { IsFullOf self.old.contents (kind_of name) → (r : Resident) × IsOldest (residents_of self.old.contents) (kind_of name) keep.now r × IsGroup (seen self.old.contents) (residents_of self.old.contents) r (idents_of self.new.gone) }
        ensures nothing { (IsFullOf self.old.contents (kind_of name) → ⊥) → self.new.gone ≡ [] }
        ensures causes { self.new.gone ≡ gone_as Displaced (idents_of self.new.gone) }
        ensures named { AreNamed (residents_of self.old.contents) (idents_of self.new.gone) self.new.left }
        ensures ident { result ≡ record { kind = kind_of name; slot = result.slot; serial = length self.old.contents.issued } }
        ensures free { IsTaken (without_all (idents_of self.new.gone) (residents_of self.old.contents)) (kind_of name) result.slot → ⊥ }
        ensures lowest { (slot : ℕ) → slot < result.slot → IsTaken (without_all (idents_of self.new.gone) (residents_of self.old.contents)) (kind_of name) slot }
        ensures within { result.slot < amount_of self.new.caps (kind_of name) }
        ensures residents { residents_of self.new.contents ≡ with_loaded result name (without_all (idents_of self.new.gone) (residents_of self.old.contents)) }
        ensures issued { self.new.contents.issued ≡ departed_all self.old.contents.issued (idents_of self.new.gone) at ++ just_issued result ∷ [] }
        ensures contents { (other : Name) → option_map but_for_counts (content_of self.new.contents other) ≡ option_map but_for_counts (content_of self.old.contents other) }
        ensures shows { (machine : Option Machine) (memory : List ℕ) → shown machine memory self.new.contents ≡ shown machine memory self.old.contents }
        ensures room { room_of self.new.contents ≡ room_of self.old.contents }
        ensures spare { self.old.contents.spare ≡ self.new.contents.spare + 1 }
    {
        self.make_place(name, keep, at);
        enter(&mut self.stores, &mut self.pairs, name)
    }

    // Sees to a free slot. Where each slot of the kind is taken, the victim leaves, with all that depends on it.
    fn make_place(&mut self, name: Name, keep: &[Ident], at: u64)
        requires may { MayBeLoaded self.old.contents name keep.now }
        requires places { HasPlacesFor self.old.contents name keep.now at }
        ensures caps { self.new.caps ≡ self.old.caps }
        ensures displaced { IsFullOf self.old.contents (kind_of name) → (r : Resident) × IsOldest (residents_of self.old.contents) (kind_of name) keep.now r × IsGroup (seen self.old.contents) (residents_of self.old.contents) r (idents_of self.new.gone) }
        ensures nothing { (IsFullOf self.old.contents (kind_of name) → ⊥) → self.new.gone ≡ [] }
        ensures causes { self.new.gone ≡ gone_as Displaced (idents_of self.new.gone) }
        ensures named { AreNamed (residents_of self.old.contents) (idents_of self.new.gone) self.new.left }
        ensures residents { residents_of self.new.contents ≡ without_all (idents_of self.new.gone) (residents_of self.old.contents) }
        ensures issued { self.new.contents.issued ≡ departed_all self.old.contents.issued (idents_of self.new.gone) at }
        ensures contents { KeepsButCounts self.old.contents self.new.contents }
        ensures ready { MayEnter self.new.contents name }
    {
        match self.stores.free(name.kind()) {
            Some(_) => {
                self.gone.clear();
                self.left.clear();
            }
            None => self.displace(name, keep, at),
        }
    }

    // Takes out the victim of a full cache, with all that depends on it.
    fn displace(&mut self, name: Name, keep: &[Ident], at: u64)
        requires full { IsFullOf self.old.contents (kind_of name) }
        requires may { MayBeLoaded self.old.contents name keep.now }
        requires places { HasPlacesFor self.old.contents name keep.now at }
        ensures caps { self.new.caps ≡ self.old.caps }
        ensures victim { (r : Resident) × IsOldest (residents_of self.old.contents) (kind_of name) keep.now r × IsGroup (seen self.old.contents) (residents_of self.old.contents) r (idents_of self.new.gone) }
        ensures causes { self.new.gone ≡ gone_as Displaced (idents_of self.new.gone) }
        ensures named { AreNamed (residents_of self.old.contents) (idents_of self.new.gone) self.new.left }
        ensures residents { residents_of self.new.contents ≡ without_all (idents_of self.new.gone) (residents_of self.old.contents) }
        ensures issued { self.new.contents.issued ≡ departed_all self.old.contents.issued (idents_of self.new.gone) at }
        ensures contents { KeepsButCounts self.old.contents self.new.contents }
        ensures ready { MayEnter self.new.contents name }
    {
        let Some(victim) = self.stores.victim(name.kind(), keep) else {
            unreachable!()
        };
        leave(
            &mut self.stores,
            &mut self.pairs,
            victim,
            Cause::Displaced,
            at,
            &mut self.gone,
            &mut self.left,
        );
    }

    /// Takes a loaded descriptor out of its cache, and before it all that depends on it, from the place `at` of the journal
    /// on. It takes a time logarithmic in what is there for each descriptor that leaves.
    pub fn unload(&mut self, ident: Ident, at: u64)
        requires live { standing_in self.old.contents.issued ident ≡ Live }
        requires places { HasPlaces self.old.contents ident at }
        ensures caps { self.new.caps ≡ self.old.caps }
        ensures group { (r : Resident) → Contains (residents_of self.old.contents) r → r.ident ≡ ident → IsGroup (seen self.old.contents) (residents_of self.old.contents) r (idents_of self.new.gone) }
        ensures causes { self.new.gone ≡ gone_as Unloaded (idents_of self.new.gone) }
        ensures named { AreNamed (residents_of self.old.contents) (idents_of self.new.gone) self.new.left }
        ensures residents { residents_of self.new.contents ≡ without_all (idents_of self.new.gone) (residents_of self.old.contents) }
        ensures issued { self.new.contents.issued ≡ departed_all self.old.contents.issued (idents_of self.new.gone) at }
        ensures contents { KeepsButCounts self.old.contents self.new.contents }
    {
        leave(
            &mut self.stores,
            &mut self.pairs,
            ident,
            Cause::Unloaded,
            at,
            &mut self.gone,
            &mut self.left,
        );
    }

    /// Locks a loaded descriptor, so that it is no victim. Nothing changes where it is locked already.
    pub fn lock(&mut self, ident: Ident)
        requires live { standing_in self.old.contents.issued ident ≡ Live }
        requires may { MayBeLocked self.old.contents ident }
        ensures rest { self.new ≡ record self.old { contents = self.new.contents } }
        ensures residents { residents_of self.new.contents ≡ with_lock ident true (residents_of self.old.contents) }
        ensures issued { self.new.contents.issued ≡ self.old.contents.issued }
        ensures contents { KeepsButCounts self.old.contents self.new.contents }
    {
        lock(&mut self.stores, ident);
    }

    /// Ends the lock of a loaded descriptor. Nothing changes where it isn't locked.
    pub fn unlock(&mut self, ident: Ident)
        requires live { standing_in self.old.contents.issued ident ≡ Live }
        ensures rest { self.new ≡ record self.old { contents = self.new.contents } }
        ensures residents { residents_of self.new.contents ≡ with_lock ident false (residents_of self.old.contents) }
        ensures issued { self.new.contents.issued ≡ self.old.contents.issued }
        ensures contents { KeepsButCounts self.old.contents self.new.contents }
    {
        unlock(&mut self.stores, ident);
    }

    /// What left at the last load or unload, in the order in which it left. Constant time.
    pub fn gone(&self) -> &[Gone]
        ensures { result.now ≡ self.now.gone }
    {
        &self.gone
    }

    /// The name of each that left at the last load or unload, in the order of `gone`. Constant time.
    pub fn left_names(&self) -> &[Name]
        ensures { result.now ≡ self.now.left }
    {
        &self.left
    }

    /// Where an identifier stands. Constant time.
    pub fn standing(&self, ident: Ident) -> Standing
        ensures standing { result ≡ standing_in self.now.contents.issued ident }
        ensures live { (result ≡ Live) ↔ IsIdentResident (residents_of self.now.contents) ident }
    {
        self.stores.standing(ident)
    }

    /// Whether a loaded descriptor is locked. Constant time.
    pub fn is_locked(&self, ident: Ident) -> bool
        requires { standing_in self.now.contents.issued ident ≡ Live }
        ensures { LockIs self.now.contents ident result }
    {
        self.stores.is_locked(ident)
    }

    /// The identifier with which a name is loaded; `None` where it isn't.
    pub fn resident(&self, name: Name) -> Option<Ident>
        ensures found { IfSome result (λ ident. IsResident (residents_of self.now.contents) ident name) }
        ensures absent { IfNone result (IsNameResident (residents_of self.now.contents) name → ⊥) }
    {
        self.stores.resident(name)
    }

    /// As `resident`. Where the name is loaded with the identifier `near`, that takes constant time.
    #[inline(always)]
    pub fn resident_near(&self, name: Name, near: Option<Ident>) -> Option<Ident>
        ensures found { IfSome result (λ ident. IsResident (residents_of self.now.contents) ident name) }
        ensures absent { IfNone result (IsNameResident (residents_of self.now.contents) name → ⊥) }
    {
        self.stores.resident_near(name, near)
    }

    /// The content of a name, wherever it is; `None` where there is none. One search where it is loaded.
    pub fn item(&self, name: Name) -> Option<ItemRef<'_>>
        ensures { option_map items.shown result ≡ content_of self.now.contents name }
    {
        self.stores.item(name)
    }

    /// The content of a name with the identifier with which it is loaded, if it is; `None` where there is no such content. One
    /// search where it is loaded, and two where it isn't.
    pub fn found(&self, name: Name) -> Option<FoundItem<'_>>
        ensures content { option_map (λ found. items.shown found.item) result ≡ content_of self.now.contents name }
        ensures loaded { IfSome result (λ found. IfSome found.ident (λ ident. IsResident (residents_of self.now.contents) ident name)) }
        ensures shelved { IfSome result (λ found. IfNone found.ident (IsNameResident (residents_of self.now.contents) name → ⊥)) }
    {
        self.stores.found(name)
    }

    /// As `item`. Where the name is loaded with the identifier `near`, that takes constant time.
    #[inline(always)]
    pub fn item_near(&self, name: Name, near: Option<Ident>) -> Option<ItemRef<'_>>
        ensures { option_map items.shown result ≡ content_of self.now.contents name }
    {
        self.stores.item_near(name, near)
    }

    /// The content that is loaded with an identifier; `None` where it isn't loaded. Constant time.
    #[inline(always)]
    pub fn get(&self, ident: Ident) -> Option<ItemRef<'_>>
        ensures { option_map items.shown result ≡ item_as self.now.contents ident }
    {
        self.stores.get(ident)
    }

    /// The identifiers of all that a descriptor depends on, as far as it is loaded, each once. A search for the descriptor, one
    /// for each that it depends on, and for a message row four more for each signal row of its frame.
    pub fn parents(&self, name: Name) -> Parents
        ensures parents { AreParents (seen self.now.contents) (residents_of self.now.contents) name result.items }
        ensures apart { AllPairs ◌≢◌ result.items }
    {
        self.stores.each_is_one();
        match self.stores.item(name) {
            Some(item) => parents_of(&self.stores, item),
            None => Parents::new(),
        }
    }

    /// Puts a content in the place of the one that is loaded with an identifier, and gives the old one back. The two may
    /// differ in a thread's registers, status, priority, queue, output, processor and last checkout, and in a row's marks.
    /// Constant time.
    pub fn change(&mut self, ident: Ident, item: Item) -> Item
        requires live { standing_in self.old.contents.issued ident ≡ Live }
        requires like { (was : Item) → item_as self.old.contents ident ≡ Some was → IsLike was item }
        ensures was { item_as self.old.contents ident ≡ Some result }
        ensures rest { self.new ≡ record self.old { contents = self.new.contents } }
        ensures contents { HasContent self.old.contents self.new.contents item }
        ensures residents { residents_of self.new.contents ≡ residents_of self.old.contents }
        ensures shows { (machine : Option Machine) (memory : List ℕ) → shown machine memory self.new.contents ≡ with_changed (shown machine memory self.old.contents) item }
        ensures only { self.new.contents ≡ with_item self.old.contents ident item }
    {
        let was = self.stores.change(ident, item);
        self.stores.each_is_one();
        was
    }

    /// Changes the thread of a name where it stands, in its slot or on the shelf, but for its number and its space, and gives
    /// what the change gives. The record isn't moved. Where the name is loaded with the identifier `near`, that takes constant
    /// time.
    pub fn update_thread_named<R, F: FnOnce(&mut ThreadRec) -> R>(
        &mut self,
        name: Name,
        near: Option<Ident>,
        change: F,
    ) -> R
        requires thread { kind_of name ≡ Thread }
        requires there { IsSome (content_of self.old.contents name) }
        requires callable { F.IsAlwaysCallable change }
        requires like { (thread left : ThreadRec) (result : R) → content_of self.old.contents name ≡ Some (Item.Thread thread) → FnOnceReturnsAtMut F.FnOnce change thread result left → IsLike (Item.Thread thread) (Item.Thread left) }
        ensures updated { IsUpdated Item.Thread (FnOnceReturnsAtMut F.FnOnce change) self.old.contents self.new.contents name result }
        ensures rest { self.new ≡ record self.old { contents = self.new.contents } }
        ensures residents { residents_of self.new.contents ≡ residents_of self.old.contents }
        ensures issued { self.new.contents.issued ≡ self.old.contents.issued }
        ensures room { room_of self.new.contents ≡ room_of self.old.contents }
        ensures spare { self.new.contents.spare ≡ self.old.contents.spare }
    {
        let result = self.stores.update_thread_named(name, near, change);
        self.stores.each_is_one();
        result
    }

    /// Changes the marks of the row of a name where it stands, in its slot or on the shelf, and gives what the change gives.
    /// The row isn't moved. Where the name is loaded with the identifier `near`, that takes constant time.
    pub fn update_row_named<R, F: FnOnce(&mut Row) -> R>(
        &mut self,
        name: Name,
        near: Option<Ident>,
        change: F,
    ) -> R
        requires row { kind_of name ≡ Mapping }
        requires there { IsSome (content_of self.old.contents name) }
        requires callable { F.IsAlwaysCallable change }
        requires like { (row left : Row) (result : R) → content_of self.old.contents name ≡ Some (Item.Mapping row) → FnOnceReturnsAtMut F.FnOnce change row result left → IsLike (Item.Mapping row) (Item.Mapping left) }
        ensures updated { IsUpdated Item.Mapping (FnOnceReturnsAtMut F.FnOnce change) self.old.contents self.new.contents name result }
        ensures rest { self.new ≡ record self.old { contents = self.new.contents } }
        ensures residents { residents_of self.new.contents ≡ residents_of self.old.contents }
        ensures issued { self.new.contents.issued ≡ self.old.contents.issued }
        ensures room { room_of self.new.contents ≡ room_of self.old.contents }
        ensures spare { self.new.contents.spare ≡ self.old.contents.spare }
    {
        let result = self.stores.update_row_named(name, near, change);
        self.stores.each_is_one();
        result
    }

    /// Sets the two rights of a kernel on a page group. Afterwards what is loaded is fit and has all that it depends on, as
    /// before.
    pub fn set_rights(&mut self, kernel: KernelNo, group: u32, read: bool, write: bool)
        requires there { IsSome (content_of self.old.contents (Name.Kernel kernel)) }
        requires group { group < 16 }
        requires good { AreGood (with_rights (seen self.old.contents) kernel group (read, write)) (residents_of self.old.contents) }
        ensures rest { self.new ≡ record self.old { contents = self.new.contents } }
        ensures contents { (was : KernelRec) → content_of self.old.contents (Name.Kernel kernel) ≡ Some (Item.Kernel was) → HasContent self.old.contents self.new.contents (Item.Kernel (with_right group (read, write) was)) }
        ensures residents { residents_of self.new.contents ≡ residents_of self.old.contents }
        ensures issued { self.new.contents.issued ≡ self.old.contents.issued }
        ensures room { room_of self.new.contents ≡ room_of self.old.contents }
        ensures spare { self.new.contents.spare ≡ self.old.contents.spare }
        ensures shows { (machine : Option Machine) (memory : List ℕ) → shown machine memory self.new.contents ≡ with_rights (shown machine memory self.old.contents) kernel group (read, write) }
    {
        grant(&mut self.stores, kernel, group, (read, write));
        self.stores.each_is_one();
    }

    /// Takes a row that isn't loaded off its shelf for good, with its name.
    pub fn retract(&mut self, name: Name) -> Row
        requires row { kind_of name ≡ Mapping }
        requires shelved { IsShelved self.old.contents name }
        ensures was { content_of self.old.contents name ≡ Some (Item.Mapping result) }
        ensures rest { self.new ≡ record self.old { contents = self.new.contents } }
        ensures contents { HasNoContent self.old.contents self.new.contents name }
        ensures names { names_of self.new.contents Mapping ≡ filter (λ other. not (is_name other name)) (names_of self.old.contents Mapping) }
        ensures residents { residents_of self.new.contents ≡ residents_of self.old.contents }
        ensures room { room_of self.new.contents ≡ room_of self.old.contents }
        ensures only { self.new.contents ≡ record self.old.contents { rows = self.new.contents.rows } }
    {
        let row = self.stores.retract(name);
        self.stores.each_is_one();
        row
    }

    /// How many kernels were declared. They have the numbers below. Constant time.
    pub fn kernel_count(&self) -> u32
        ensures { result ≡ self.now.contents.kernel_count }
    {
        self.stores.kernel_count()
    }

    /// How many spaces were declared. They have the numbers below. Constant time.
    pub fn space_count(&self) -> u32
        ensures { result ≡ self.now.contents.space_count }
    {
        self.stores.space_count()
    }

    /// How many threads were declared. They have the numbers below. Constant time.
    pub fn thread_count(&self) -> u32
        ensures { result ≡ self.now.contents.thread_count }
    {
        self.stores.thread_count()
    }

    /// The names of all of a kind, loaded or not, in declared order.
    pub fn names(&self, kind: Kind) -> Names<'_>
        ensures { result ≡ names_of self.now.contents kind }
    {
        match kind {
            Kind::Kernel => Names::of_kernels(self.stores.kernel_count()),
            Kind::Space => Names::of_spaces(self.stores.space_count()),
            Kind::Thread => Names::of_threads(self.stores.thread_count()),
            Kind::Mapping => Names::of_rows(self.stores.row_names()),
        }
    }

    /// The threads that are loaded, each with its identifier, in order of slot. Going over them takes as many steps as the
    /// highest slot that a thread ever had.
    pub fn loaded_threads(&self) -> Iter<'_, ThreadRec>
        ensures loaded { result ≡ loaded_in self.now.contents.threads.cells }
        ensures exact { HasExactlyLoaded self.now.contents.threads.cells result }
        ensures order { IsInOrderOfSlot result }
    {
        self.stores.loaded_threads()
    }

    /// The names of all rows, loaded or not, in declared order.
    pub fn row_names(&self) -> Values<'_, u64, Name>
        ensures { result ≡ names_of self.now.contents Mapping }
    {
        self.stores.row_names()
    }

    /// The names of the rows of a frame that have a receiver, loaded or not, in declared order.
    pub fn signal_rows(&self, frame: Frame) -> SignalRows<'_>
        ensures { result ≡ signal_names self.now.contents.rows frame }
    {
        self.stores.signal_rows(frame)
    }

    /// Whether some row, loaded or not, has a receiver. Constant time.
    pub fn has_signal_rows(&self) -> bool
        ensures some { OnTrue result ((frame : Frame) × (name : Name) × Contains (signal_names self.now.contents.rows frame) name) }
        ensures none { OnFalse result ((frame : Frame) → signal_names self.now.contents.rows frame ≡ []) }
    {
        self.stores.has_signal_rows()
    }

    /// The identifiers of the loaded message rows of a frame, each once, in no order that a caller may rest on. Two searches in
    /// what is loaded, and one for each that it gives.
    pub fn message_rows(&self, frame: Frame) -> Run<'_, RowsOf, Ident>
        ensures rows { (ident : Ident) → Contains result ident ↔ IsResidentOn self.now.contents frame true ident }
        ensures once { AllPairs (λ a b. a ≢ b) result }
    {
        self.stores.message_rows(frame)
    }

    /// The same of the loaded rows of a frame that are no message rows.
    pub fn other_rows(&self, frame: Frame) -> Run<'_, RowsOf, Ident>
        ensures rows { (ident : Ident) → Contains result ident ↔ IsResidentOn self.now.contents frame false ident }
        ensures once { AllPairs (λ a b. a ≢ b) result }
    {
        self.stores.other_rows(frame)
    }
}

// The kernel that will own a new descriptor: the first one owns kernels, and a kernel its spaces and what is in them.
fn owner_of_new(stores: &Stores, item: &Item) -> KernelNo
    requires { IsOfWhatStands stores.now item.now }
    ensures { OwnsNew stores.now item.now result }
{
    match item {
        Item::Kernel(_) => KernelNo(0),
        Item::Space(space) => space.kernel,
        Item::Thread(thread) => kernel_of_space(stores, thread.space),
        Item::Mapping(row) => kernel_of_space(stores, row.space),
    }
}

// The kernel of a space that stands.
fn kernel_of_space(stores: &Stores, space: SpaceNo) -> KernelNo
    requires { IsSome (content_of stores.now (Name.Space space)) }
    ensures { owner (seen stores.now) (Name.Space space) ≡ Some result }
{
    stores.each_is_one();
    let Some(kernel) = kernel_of(stores, space) else {
        unreachable!()
    };
    kernel
}

// Sets the two rights on a group in the record of a kernel.
fn grant(stores: &mut Stores, kernel: KernelNo, group: u32, right: (bool, bool))
    requires there { IsSome (content_of stores.old (Name.Kernel kernel)) }
    requires group { group < 16 }
    ensures contents { (was : KernelRec) → content_of stores.old (Name.Kernel kernel) ≡ Some (Item.Kernel was) → HasContent stores.old stores.new (Item.Kernel (with_right group right was)) }
    ensures residents { residents_of stores.new ≡ residents_of stores.old }
    ensures owned { (owner_of : Name → Option KernelNo) → AreOwned owner_of stores.old → AreOwned owner_of stores.new }
    ensures slots { length stores.new.kernels.cells ≡ length stores.old.kernels.cells }
    ensures room { room_of stores.new ≡ room_of stores.old }
    ensures only { stores.new ≡ record stores.old { kernels = stores.new.kernels } }
{
    if let Some(ItemRef::Kernel(&found)) = stores.item(Name::Kernel(kernel)) {
        let mut granted: KernelRec = found;
        granted.rights.set(group, right.0, right.1);
        stores.put_kernel(granted);
    }
}

// An empty list, with room for all that can be loaded.
fn room_for_all<T>(alloc: Global, caps: Caps) -> Result<Vec<T>, NoMemory>
    ensures empty { IfOk result (λ all. all.items ≡ []) }
    ensures room { IfOk result (λ all. count_of caps ≤ vec_capacity all) }
{
    Ok(Vec::with_capacity(alloc, most_loaded(caps))?)
}
