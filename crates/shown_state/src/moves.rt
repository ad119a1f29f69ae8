//! What shows nothing new.

ghost use Rattle.std.specs.Prelude.{◌≡◌, Bool};
ghost use Rattle.cache_ident.specs.declared.idents.Ident.{Ident};
ghost use Rattle.cache_ident.specs.declared.names.KernelNo.{KernelNo};
ghost use Rattle.cache_ident.specs.declared.names.Name.{Name};
ghost use Rattle.desc_stores.specs.declared.items.Item.{Item};
ghost use Rattle.desc_stores.specs.Changes.{relocked, with_item, IsLeavingOf, IsLoadingOf, KeepsContents, OnlyMakesRoom};
ghost use Rattle.desc_stores.specs.Contents.{Contents};
ghost use Rattle.shown_state.specs.Shown.{HasSameNames, ShowsAlike};

/// Room, a load, a displacement and a lock show nothing new.
pub fn what_only_moves_shows_alike()
    ensures room { (old new : Contents) → OnlyMakesRoom old new → ShowsAlike old new }
    ensures spare { (old new : Contents) → new ≡ record old { spare = new.spare } → ShowsAlike old new }
    ensures loading { (old new : Contents) (name : Name) (ident : Ident) → KeepsContents old new → IsLoadingOf old new name ident → ShowsAlike old new }
    ensures leaving { (old new : Contents) (ident : Ident) (owner : KernelNo) → KeepsContents old new → IsLeavingOf old new ident owner → ShowsAlike old new }
    ensures locking { (old new : Contents) (ident : Ident) (on : Bool) → KeepsContents old new → new ≡ relocked old ident on → ShowsAlike old new }
{}

/// A change of what is loaded leaves the names that stand, and so does one of the store of one kind.
pub fn a_change_keeps_the_names()
    ensures loaded { (old new : Contents) (ident : Ident) (content : Item) → new ≡ with_item old ident content → HasSameNames old new }
    ensures kernels { (old new : Contents) → new ≡ record old { kernels = new.kernels } → HasSameNames old new }
    ensures spaces { (old new : Contents) → new ≡ record old { spaces = new.spaces } → HasSameNames old new }
    ensures threads { (old new : Contents) → new ≡ record old { threads = new.threads } → HasSameNames old new }
    ensures rows { (old new : Contents) → new ≡ record old { rows = record old.rows { kept = new.rows.kept } } → HasSameNames old new }
{}
