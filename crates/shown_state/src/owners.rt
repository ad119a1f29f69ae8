//! Who owns what, once one descriptor changed, came or went.

ghost use Rattle.std.specs.Prelude.{◌≡◌, ℕ, Bool, List, Option, Some, slice_get};
ghost use Rattle.cache_ident.specs.declared.names.KernelNo.{KernelNo};
ghost use Rattle.cache_ident.specs.declared.names.Name.{Name};
ghost use Rattle.cache_ident.specs.declared.names.Name.TheVariants as name;
ghost use Rattle.cache_ident.specs.declared.names.SpaceNo.{SpaceNo};
ghost use Rattle.cache_ident.specs.declared.names.Vpn.{Vpn};
ghost use Rattle.phys_groups.specs.declared.rows.Row.{Row};
ghost use Rattle.desc_stores.specs.kernel_cache.specs.declared.KernelRec.{KernelRec};
ghost use Rattle.desc_stores.specs.thread_cache.specs.declared.ThreadRec.{ThreadRec};
ghost use Rattle.flat_state.specs.declared.events.Machine.{Machine};
ghost use Rattle.flat_state.specs.declared.records.FlatThread.{FlatThread};
ghost use Rattle.flat_state.specs.Dependence.{owner};
ghost use Rattle.flat_state.specs.State.{FlatState};
ghost use Rattle.desc_stores.specs.declared.items.Item.{Item};
ghost use Rattle.desc_stores.specs.declared.items.Item.TheVariants as item;
ghost use Rattle.desc_stores.specs.Contents.{Contents};
ghost use Rattle.desc_stores.specs.Sound.{AreOwned, IsExactlyOne};
ghost use Rattle.shown_state.specs.Shown.{shown};
ghost use Rattle.shown_state.specs.Edits.{with_changed, with_mark, with_new, without_row};
ghost use Rattle.shown_state.specs.Owning.{owner_in, OtherOwnersStay, OwnersStay, OwnsAlike};

/// Who owns a descriptor is found by its content and that of its space.
pub fn an_owner_is_found_by_name()
    ensures { (machine : Option Machine) (memory : List ℕ) (c : Contents) → IsExactlyOne c → (name : Name) → owner (shown machine memory c) name ≡ owner_in c name }
{}

/// Who owns a descriptor owns it still once another one came or went, once a kernel, a row or a mark changed, and once a
/// thread changed that stays in its space.
pub fn owners_stay()
    ensures declared { (s : FlatState) (content : Item) → OwnersStay s (with_new s content) }
    ensures kernel { (s : FlatState) (kernel : KernelRec) → OwnersStay s (with_changed s (item.Kernel kernel)) }
    ensures thread { (s : FlatState) (thread : ThreadRec) (was : FlatThread) → slice_get s.threads thread.no.0 ≡ Some was → was.space ≡ thread.space → OwnersStay s (with_changed s (item.Thread thread)) }
    ensures row { (s : FlatState) (row : Row) → OwnersStay s (with_changed s (item.Mapping row)) }
    ensures mark { (s : FlatState) (space : SpaceNo) (vpn : Vpn) (written : Bool) → OwnersStay s (with_mark s space vpn written) }
    ensures retracted { (s : FlatState) (space : SpaceNo) (vpn : Vpn) → OtherOwnersStay (name.Mapping space vpn) s (without_row s space vpn) }
{}

/// Where each row of a shelf stands under its owner, it does so by whatever gives the same owners to what has a content.
pub fn what_is_owned_stays_owned()
    ensures { (c : Contents) (before after : Name → Option KernelNo) → OwnsAlike c before after → AreOwned before c → AreOwned after c }
{}
