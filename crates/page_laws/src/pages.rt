//! What comes of pages whose row is to be loaded, and of pages of which nothing is.

ghost use Rattle.std.specs.Prelude.{◌≡◌, Err, IfErr, IfOk, Option, Result, Some};
ghost use Rattle.cache_ident.specs.declared.idents.Ident.{Ident};
ghost use Rattle.cache_ident.specs.declared.names.Name.TheVariants as name;
ghost use Rattle.cache_ident.specs.declared.names.SpaceNo.{SpaceNo};
ghost use Rattle.cache_ident.specs.declared.names.Vpn.{Vpn};
ghost use Rattle.cache_ident.specs.Residents.{IsNameResident};
ghost use Rattle.phys_groups.specs.declared.rows.Row.{Row};
ghost use Rattle.reach_laws.specs.flat_state.specs.declared.records.FlatThread.{FlatThread};
ghost use Rattle.reach_laws.specs.flat_state.specs.NextSteps.{fetch_row};
ghost use Rattle.reach_laws.specs.flat_state.specs.State.{FlatState};
ghost use Rattle.reach_laws.specs.desc_stores.specs.Contents.{residents_of};
ghost use Rattle.reach_laws.specs.board_ops.specs.declared.refusals.Refused.{Refused};
ghost use Rattle.reach_laws.specs.board_ops.specs.declared.refusals.Refused.TheVariants as why;
ghost use Rattle.reach_laws.specs.cached_machine.specs.Cached.{state_of};
ghost use Rattle.reach_laws.specs.board_core.specs.Answers.{IsRefused};
ghost use Rattle.reach_laws.specs.board_core.specs.Core.{contents_of, IsSound, Recorded};
ghost use Rattle.reach_laws.specs.board_core.specs.Growth.{IsRoomMade};
ghost use Rattle.reach_laws.specs.board_checks.specs.Identifiers.{space_as};
ghost use Rattle.reach_laws.specs.board_checks.specs.Refusals.{refusal_of_load_mapping};
ghost use Rattle.reach_laws.specs.board_loads.specs.Loads.{IsLoadedAs};
ghost use Rattle.reach_laws.specs.owners.specs.Known.{ident_of, Known};
ghost use Rattle.page_laws.specs.Keeping.{BringsNoRow, KeepsRows};
ghost use Rattle.reach_laws.specs.Filling.{IsFillable, IsUnfillable};
ghost use Rattle.reach_laws.specs.Reaching.{IsLoadAnswer, IsOwned, IsPlainLoaded, IsReached};

/// Where the machine shows the same and no row comes, a page whose row is to be loaded stays so. Where the loaded rows stay that have
/// neither receiver nor flag m, a page of which nothing is to be loaded stays so.
pub fn pages_stay_as_they_are()
    ensures fillable { (b c : Recorded) (space : SpaceNo) (vpn : Vpn) → state_of c.machine ≡ state_of b.machine → BringsNoRow b c → IsFillable b space vpn → IsFillable c space vpn }
    ensures unfillable { (b c : Recorded) (space : SpaceNo) (vpn : Vpn) → state_of c.machine ≡ state_of b.machine → KeepsRows space b c → IsUnfillable b space vpn → IsUnfillable c space vpn }
{}

/// The row of a page of which nothing is to be loaded, asked for by what is noted for its space, is refused, and not since signal rows
/// are missing.
pub fn an_unfillable_page_is_refused()
    ensures { (b : Recorded) (o : Known) → IsOwned b o → (caller parent : Ident) (space : SpaceNo) → ident_of o (name.Space space) ≡ Some parent → (vpn : Vpn) (receiver : Option Ident) → IsUnfillable b space vpn
        → (c : Recorded) (r : Result Ident Refused) → IfErr r (IsRefused (refusal_of_load_mapping (contents_of b) caller parent vpn receiver) b c)
        → IfOk r (λ ident. (other : SpaceNo) × (space_as (contents_of b) parent ≡ Some other) × IsLoadedAs 0 (name.Mapping other vpn) ident b c)
        → (w : Refused) × (r ≡ Err w) × IsRoomMade b c × ((other : SpaceNo) (page : Vpn) → w ≡ why.ReceiversAbsent other page → ⊥) }
{}

/// Whatever a row is answered that is asked for in a space that is reached, the space is reached still.
pub fn a_row_call_keeps_what_is_reached()
    ensures { (b c : Recorded) (o : Known) → IsOwned b o → (space : SpaceNo) (reached : IsReached b o space) (vpn : Vpn) (refusal : Option Refused)
        → (r : Result Ident Refused) → IsLoadAnswer refusal (name.Mapping space vpn) b c r → IsReached c o space }
{}

/// The row that a thread fetches through is one of its space, and since that has flag x it has neither receiver nor flag m.
pub fn a_fetch_goes_through_a_plain_row_of_its_space()
    ensures space { (s : FlatState) (t : FlatThread) (row : Row) → fetch_row s t ≡ Some row → row.space ≡ t.space }
    ensures plain { (b : Recorded) → IsSound b → (t : FlatThread) (row : Row) → fetch_row (state_of b.machine) t ≡ Some row → (space : SpaceNo) → t.space ≡ space
        → IsNameResident (residents_of (contents_of b)) (name.Mapping space row.vpn) → IsPlainLoaded b space row.vpn }
{}
