//! What loads keep of rows.

ghost use Rattle.std.specs.Prelude.{◌≡◌, Option, Result, Some, slice_get};
ghost use Rattle.cache_ident.specs.declared.idents.Ident.{Ident};
ghost use Rattle.cache_ident.specs.declared.names.KernelNo.{KernelNo};
ghost use Rattle.cache_ident.specs.declared.names.Name.TheVariants as name;
ghost use Rattle.cache_ident.specs.declared.names.SpaceNo.{SpaceNo};
ghost use Rattle.cache_ident.specs.declared.names.ThreadNo.{ThreadNo};
ghost use Rattle.reach_laws.specs.board_ops.specs.declared.refusals.Refused.{Refused};
ghost use Rattle.reach_laws.specs.cached_machine.specs.Cached.{state_of};
ghost use Rattle.reach_laws.specs.board_core.specs.Core.{contents_of, IsSound, Recorded};
ghost use Rattle.reach_laws.specs.board_core.specs.Growth.{IsRoomMade};
ghost use Rattle.reach_laws.specs.board_checks.specs.Refusals.{refusal_of_load_thread};
ghost use Rattle.reach_laws.specs.owners.specs.Known.{ident_of, Known};
ghost use Rattle.page_laws.specs.Keeping.{KeepsRows};
ghost use Rattle.reach_laws.specs.Reaching.{IsLoadAnswer, IsOwned};

/// As the kernel of a space, the space, or a thread that is asked for by what is noted for the space is loaded, no row comes, and the
/// rows of the space that are loaded and have neither receiver nor flag m stay so.
pub fn loads_in_a_space_keep_its_rows()
    ensures same { (space : SpaceNo) (b : Recorded) → KeepsRows space b b }
    ensures further { (space : SpaceNo) (a b c : Recorded) → KeepsRows space a b → KeepsRows space b c → KeepsRows space a c }
    ensures room { (space : SpaceNo) (old new : Recorded) → IsRoomMade old new → KeepsRows space old new }
    ensures kernel { (space : SpaceNo) (refusal : Option Refused) (old new : Recorded) → IsSound old → (r : Result Ident Refused) (kernel : KernelNo) → ((its : KernelNo) → slice_get (state_of old.machine).spaces space.0 ≡ Some its → kernel ≡ its)
        → IsLoadAnswer refusal (name.Kernel kernel) old new r → KeepsRows space old new }
    ensures space { (space : SpaceNo) (refusal : Option Refused) (old new : Recorded) → IsSound old → (r : Result Ident Refused) → IsLoadAnswer refusal (name.Space space) old new r → KeepsRows space old new }
    ensures thread { (space : SpaceNo) (b c : Recorded) (o : Known) → IsOwned b o → (caller parent : Ident) → ident_of o (name.Space space) ≡ Some parent → (thread : ThreadNo) (r : Result Ident Refused)
        → IsLoadAnswer (refusal_of_load_thread (contents_of b) caller parent thread) (name.Thread thread) b c r → KeepsRows space b c }
{}
