//! Laws of what is loaded, as a list of residents and as contents of the stores.

ghost use Rattle.std.specs.Prelude.{◌≡◌, ◌↔◌, ◌⊎◌, ℕ, ◌<◌, ◌≤◌, Bool, true, List, Some, AllPairs, Contains, IsSome, length};
ghost use Rattle.cache_ident.specs.Names.{kind_of};
ghost use Rattle.cache_ident.specs.Residents.{Resident, IsIdentResident, IsNameResident, IsResident};
ghost use Rattle.cache_ident.specs.Rolls.{standing_in};
ghost use Rattle.cache_ident.specs.declared.idents.Ident.{Ident};
ghost use Rattle.cache_ident.specs.declared.idents.Kind.{Kind};
ghost use Rattle.cache_ident.specs.declared.idents.Standing.TheVariants.{Live};
ghost use Rattle.cache_ident.specs.declared.names.Caps.{Caps};
ghost use Rattle.cache_ident.specs.declared.names.Frame.{Frame};
ghost use Rattle.cache_ident.specs.declared.names.KernelNo.{KernelNo};
ghost use Rattle.cache_ident.specs.declared.names.Name.{Name};
ghost use Rattle.desc_stores.specs.Changes.{relocked, with_item, IsDeclaring, IsLeavingOf, IsLoadingOf, IsNothing, OnlyMakesRoom};
ghost use Rattle.desc_stores.specs.Contents.{content_of, item_as, resident_as, residents_of, Contents, HasNoResident, IsFullOf, IsLowestFreeOf, IsResidentAs, IsShelved, IsVictimOf, LockIs, NoneMayGoOf};
ghost use Rattle.desc_stores.specs.Sound.{IsExactlyOne};
ghost use Rattle.desc_stores.specs.declared.items.Item.{Item};
ghost use Rattle.desc_stores.specs.row_store.specs.Frames.{IsRowOf};
ghost use Rattle.resident_pairs.specs.run_journal.specs.Legal.{count_of, IsTaken};
ghost use Rattle.resident_pairs.specs.journal_laws.specs.Leaving.{HaveOneEach};
ghost use Rattle.resident_pairs.specs.Among.{AreFew, HasNoIdent};
ghost use Rattle.store_residents.specs.Frames.{IsResidentOn};
ghost use Rattle.store_residents.specs.Slots.{resident_at, slots_of, HasSlots, KeepsSlots};
ghost use Rattle.store_residents.specs.Victims.{IsOldest};

/// What is resident is what is loaded, with the same identifier, name and lock; and its identifier is of the kind of its name.
pub fn residents_are_what_is_loaded()
    ensures loaded { (c : Contents) (r : Resident) → IsExactlyOne c → Contains (residents_of c) r ↔ (resident_as c r.ident ≡ Some r) }
    ensures named { (c : Contents) (name : Name) (ident : Ident) → IsExactlyOne c → IsResidentAs c name ident ↔ IsResident (residents_of c) ident name }
    ensures absent { (c : Contents) (name : Name) → IsExactlyOne c → HasNoResident c name ↔ (IsNameResident (residents_of c) name → ⊥) }
    ensures live { (c : Contents) (ident : Ident) → IsExactlyOne c → (standing_in c.issued ident ≡ Live) ↔ IsIdentResident (residents_of c) ident }
    ensures lock { (c : Contents) (ident : Ident) (locked : Bool) → IsExactlyOne c → LockIs c ident locked ↔ ((r : Resident) → Contains (residents_of c) r → r.ident ≡ ident → r.locked ≡ locked) }
    ensures kind { (c : Contents) (r : Resident) → IsExactlyOne c → Contains (residents_of c) r → r.ident.kind ≡ kind_of r.name }
{}

/// Each resident has an identifier and a name of its own, and the list has them in order of loading: their serials rise.
pub fn each_resident_is_one()
    ensures one { (c : Contents) → IsExactlyOne c → HaveOneEach (residents_of c) }
    ensures rising { (c : Contents) → IsExactlyOne c → AllPairs (λ a b. a.ident.serial < b.ident.serial) (residents_of c) }
{}

/// A slot of a kind is taken where something stands in it, which is the resident whose identifier has that slot. So there are
/// no more residents of a kind than slots, and as many where each slot is taken; and the next serial is that of none.
pub fn slots_are_those_of_residents()
    ensures taken { (c : Contents) (kind : Kind) (slot : ℕ) → IsExactlyOne c → IsTaken (residents_of c) kind slot ↔ IsSome (resident_at c kind slot) }
    ensures lowest { (c : Contents) (kind : Kind) (slot : ℕ) → IsExactlyOne c → IsLowestFreeOf c kind slot → (slot < slots_of c kind) × (IsTaken (residents_of c) kind slot → ⊥) × ((other : ℕ) → other < slot → IsTaken (residents_of c) kind other) }
    ensures few { (c : Contents) (kind : Kind) → IsExactlyOne c → count_of (residents_of c) kind ≤ slots_of c kind }
    ensures full { (c : Contents) (kind : Kind) → IsExactlyOne c → IsFullOf c kind ↔ (count_of (residents_of c) kind ≡ slots_of c kind) }
    ensures within { (c : Contents) (caps : Caps) → IsExactlyOne c → HasSlots caps c → AreFew caps (residents_of c) }
    ensures next { (c : Contents) (ident : Ident) → IsExactlyOne c → ident.serial ≡ length c.issued → HasNoIdent (residents_of c) ident }
{}

/// The victim of a kind is the resident with the lowest serial of those that are neither locked nor kept; and where there is no
/// victim, each resident of the kind is locked or kept.
pub fn a_victim_is_a_resident()
    ensures victim { (c : Contents) (kind : Kind) (keep : List Ident) (ident : Ident) → IsExactlyOne c → IsVictimOf c kind keep ident → (r : Resident) × (r.ident ≡ ident) × IsOldest (residents_of c) kind keep r }
    ensures none { (c : Contents) (kind : Kind) (keep : List Ident) (r : Resident) → IsExactlyOne c → NoneMayGoOf c kind keep → Contains (residents_of c) r → r.ident.kind ≡ kind → (r.locked ≡ true) ⊎ Contains keep r.ident }
{}

/// A resident's content is the one of its name. What has a content and isn't resident is shelved, and nothing is both.
pub fn a_resident_has_a_content()
    ensures there { (c : Contents) (r : Resident) → IsExactlyOne c → Contains (residents_of c) r → IsSome (content_of c r.name) }
    ensures same { (c : Contents) (r : Resident) → IsExactlyOne c → Contains (residents_of c) r → item_as c r.ident ≡ content_of c r.name }
    ensures shelved { (c : Contents) (name : Name) → IsExactlyOne c → IsShelved c name ↔ (IsSome (content_of c name) × (IsNameResident (residents_of c) name → ⊥)) }
{}

/// A row that is listed under a frame, among its message rows or its others, is a resident, whose content is such a row of the
/// frame, and each such resident is listed.
pub fn rows_of_a_frame_are_residents()
    ensures { (c : Contents) (frame : Frame) (message : Bool) (ident : Ident) → IsExactlyOne c → IsRowOf c.rows.kept.cells frame message ident ↔ IsResidentOn c frame message ident }
{}

/// Nothing that happens to the contents changes how many slots of a kind there are, which are at first those of the capacities.
pub fn slots_stay()
    ensures first { (caps : Caps) (c : Contents) → IsNothing caps c → HasSlots caps c }
    ensures kept { (caps : Caps) (old new : Contents) → HasSlots caps old → KeepsSlots old new → HasSlots caps new }
    ensures loading { (old new : Contents) (name : Name) (ident : Ident) → IsLoadingOf old new name ident → KeepsSlots old new }
    ensures leaving { (old new : Contents) (ident : Ident) (owner : KernelNo) → IsLeavingOf old new ident owner → KeepsSlots old new }
    ensures locking { (old new : Contents) (ident : Ident) (on : Bool) → new ≡ relocked old ident on → KeepsSlots old new }
    ensures changing { (old new : Contents) (ident : Ident) (item : Item) → new ≡ with_item old ident item → KeepsSlots old new }
    ensures declaring { (old new : Contents) (owner : KernelNo) (item : Item) → IsDeclaring old new owner item → KeepsSlots old new }
    ensures retracting { (old new : Contents) → new ≡ record old { rows = new.rows } → new.rows.kept.cells ≡ old.rows.kept.cells → KeepsSlots old new }
    ensures roomier { (old new : Contents) → OnlyMakesRoom old new → KeepsSlots old new }
    ensures reserving { (old new : Contents) → new ≡ record old { spare = new.spare } → KeepsSlots old new }
{}
