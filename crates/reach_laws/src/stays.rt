//! What a load keeps.

ghost use Rattle.std.specs.Prelude.{◌≡◌, ℕ, false, None, Some};
ghost use Rattle.cache_ident.specs.declared.idents.Ident.{Ident};
ghost use Rattle.cache_ident.specs.declared.names.Name.{Name};
ghost use Rattle.cache_ident.specs.declared.names.Name.TheVariants as name;
ghost use Rattle.cache_ident.specs.declared.names.SpaceNo.{SpaceNo};
ghost use Rattle.cache_ident.specs.declared.names.ThreadNo.{ThreadNo};
ghost use Rattle.cache_ident.specs.declared.names.Vpn.{Vpn};
ghost use Rattle.cache_ident.specs.Residents.{IsResident};
ghost use Rattle.phys_groups.specs.declared.rows.Row.{Row};
ghost use Rattle.phys_groups.specs.Translation.{row_of};
ghost use Rattle.board_calls.specs.flat_state.specs.Dependence.{DependsFar};
ghost use Rattle.board_calls.specs.desc_stores.specs.Contents.{residents_of};
ghost use Rattle.board_calls.specs.desc_parents.specs.Seen.{seen};
ghost use Rattle.board_calls.specs.cached_machine.specs.Cached.{state_of};
ghost use Rattle.board_calls.specs.board_core.specs.Core.{contents_of, IsSound, Recorded};
ghost use Rattle.board_calls.specs.board_loads.specs.Loads.{IsLoadedAs};
ghost use Rattle.owner_laws.specs.owners.specs.Owning.{IsThreadOf};

/// What a name depends on, over any number of steps, stays loaded with its identifier as the name is loaded. No step is taken.
pub fn a_load_keeps_what_is_reached()
    ensures live { (cpu : ℕ) (n : Name) (ident : Ident) (old new : Recorded) → IsSound old → IsLoadedAs cpu n ident old new
        → (its : Ident) (m : Name) → IsResident (residents_of (contents_of old)) its m → DependsFar (seen (contents_of old)) n m → IsResident (residents_of (contents_of new)) its m }
    ensures steps { (cpu : ℕ) (n : Name) (ident : Ident) (old new : Recorded) → IsSound old → IsLoadedAs cpu n ident old new → IsSound new → new.steps ≡ old.steps }
{}

/// A row with neither receiver nor flag m stays loaded as a thread of its space is loaded.
pub fn a_plain_row_stays()
    ensures { (cpu : ℕ) (thread : ThreadNo) (ident : Ident) (old new : Recorded) → IsSound old → IsLoadedAs cpu (name.Thread thread) ident old new
        → (space : SpaceNo) → IsThreadOf (state_of old.machine) space thread → (vpn : Vpn) (row : Row) → row_of (state_of old.machine).rows space vpn.0 ≡ Some row → row.receiver ≡ None → row.flags.m ≡ false
        → (its : Ident) → IsResident (residents_of (contents_of old)) its (name.Mapping space vpn) → IsResident (residents_of (contents_of new)) its (name.Mapping space vpn) }
{}
