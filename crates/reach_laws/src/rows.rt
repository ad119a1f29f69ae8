//! Pages whose row is to be loaded, and pages of which nothing is.

ghost use Rattle.std.specs.Prelude.{◌≡◌, ◌≢◌, ◌⊎◌, Err, IfErr, IfOk, Option, Result, Some};
ghost use Rattle.cache_ident.specs.declared.idents.Ident.{Ident};
ghost use Rattle.cache_ident.specs.declared.names.Name.{Name};
ghost use Rattle.cache_ident.specs.declared.names.Name.TheVariants as name;
ghost use Rattle.cache_ident.specs.declared.names.SpaceNo.{SpaceNo};
ghost use Rattle.cache_ident.specs.declared.names.ThreadNo.{ThreadNo};
ghost use Rattle.cache_ident.specs.declared.names.Vpn.{Vpn};
ghost use Rattle.phys_groups.specs.declared.rows.Row.{Row};
ghost use Rattle.phys_groups.specs.Translation.{row_of};
ghost use Rattle.board_calls.specs.board_ops.specs.declared.refusals.Refused.{Refused};
ghost use Rattle.board_calls.specs.board_ops.specs.declared.refusals.Refused.TheVariants as why;
ghost use Rattle.board_calls.specs.cached_machine.specs.Cached.{state_of};
ghost use Rattle.board_calls.specs.board_core.specs.Answers.{IsRefused};
ghost use Rattle.board_calls.specs.board_core.specs.Core.{contents_of, IsSound, Recorded};
ghost use Rattle.board_calls.specs.board_checks.specs.Identifiers.{space_as};
ghost use Rattle.board_calls.specs.board_checks.specs.Refusals.{refusal_of_load_mapping};
ghost use Rattle.board_calls.specs.board_loads.specs.Loads.{IsLoadedAs};
ghost use Rattle.owner_laws.specs.answer_laws.specs.Given.{IsGiven};
ghost use Rattle.owner_laws.specs.owners.specs.Known.{ident_of, Known};
ghost use Rattle.reach_laws.specs.Filling.{IsElse, IsFillable, IsNothingToLoad, IsUnfillable};
ghost use Rattle.reach_laws.specs.Reaching.{IsGot, IsLoadAnswer, IsOwned, IsReached};

/// A page whose row is to be loaded stays so over each load of another name, and is refused, by what is noted for its space, for no
/// reason that there is nothing to load or that signal rows are wanted; so it stays to be loaded then. Asked for in a space that is reached, with the receiver that it has, its row is loaded,
/// or memory is wanted.
pub fn a_fillable_page_is_filled()
    ensures stays { (refusal : Option Refused) (n : Name) (old new : Recorded) → IsSound old → (space : SpaceNo) (vpn : Vpn) → IsFillable old space vpn → name.Mapping space vpn ≢ n
        → (answer : Result Ident Refused) → IsLoadAnswer refusal n old new answer → IsFillable new space vpn }
    ensures noted { (b : Recorded) (o : Known) → IsOwned b o → (caller parent : Ident) (space : SpaceNo) → ident_of o (name.Space space) ≡ Some parent → (vpn : Vpn) (receiver : Option Ident) → IsFillable b space vpn
        → (w : Refused) → refusal_of_load_mapping (contents_of b) caller parent vpn receiver ≡ Some w → IsNothingToLoad w → ⊥ }
    ensures waits { (b : Recorded) (o : Known) → IsOwned b o → (caller parent : Ident) (space : SpaceNo) → ident_of o (name.Space space) ≡ Some parent → (vpn : Vpn) (receiver : Option Ident)
        → (c : Recorded) (r : Result Ident Refused) → IfErr r (IsRefused (refusal_of_load_mapping (contents_of b) caller parent vpn receiver) b c)
        → IfOk r (λ ident. (other : SpaceNo) × (space_as (contents_of b) parent ≡ Some other) × IsLoadedAs 0 (name.Mapping other vpn) ident b c)
        → IsFillable b space vpn → (w : Refused) → r ≡ Err w → IsFillable c space vpn × IsElse w }
    ensures reached { (b c : Recorded) (o : Known) → IsOwned b o → (space : SpaceNo) (reached : IsReached b o space) (vpn : Vpn) (receiver : Option Ident) (named : Option ThreadNo) → IsGiven (contents_of b) receiver named
        → ((row : Row) → row_of (state_of b.machine).rows space vpn.0 ≡ Some row → named ≡ row.receiver) → IsFillable b space vpn
        → (r : Result Ident Refused) → IsLoadAnswer (refusal_of_load_mapping (contents_of b) reached.caller reached.parent vpn receiver) (name.Mapping space vpn) b c r → IsGot c (name.Mapping space vpn) r }
{}

/// Of a page of which nothing is to be loaded nothing is, and asked for in a space that is reached, with the receiver that its row
/// has, this is told, or memory is wanted.
pub fn an_unfillable_page_is_told()
    ensures { (b c : Recorded) (o : Known) → IsOwned b o → (space : SpaceNo) (reached : IsReached b o space) (vpn : Vpn) (receiver : Option Ident) (named : Option ThreadNo) → IsGiven (contents_of b) receiver named
        → ((row : Row) → row_of (state_of b.machine).rows space vpn.0 ≡ Some row → named ≡ row.receiver) → IsUnfillable b space vpn
        → (r : Result Ident Refused) → IsLoadAnswer (refusal_of_load_mapping (contents_of b) reached.caller reached.parent vpn receiver) (name.Mapping space vpn) b c r
        → (w : Refused) × (r ≡ Err w) × ((w ≡ why.NoMemory) ⊎ IsNothingToLoad w) }
{}
