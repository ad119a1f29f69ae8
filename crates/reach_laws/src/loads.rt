//! What loads are answered.

ghost use Rattle.std.specs.Prelude.{◌≡◌, ◌/◌, ◌⊎◌, true, false, Option, Some, None, Ok, Err, Result, slice_get};
ghost use Rattle.std.specs.Option.{option_map};
ghost use Rattle.cache_ident.specs.declared.idents.Ident.{Ident};
ghost use Rattle.cache_ident.specs.declared.names.KernelNo.{KernelNo};
ghost use Rattle.cache_ident.specs.declared.names.Name.TheVariants as name;
ghost use Rattle.cache_ident.specs.declared.names.SpaceNo.{SpaceNo};
ghost use Rattle.cache_ident.specs.declared.names.ThreadNo.{ThreadNo};
ghost use Rattle.cache_ident.specs.declared.names.Vpn.{Vpn};
ghost use Rattle.cache_ident.specs.Residents.{IsResident};
ghost use Rattle.phys_groups.specs.declared.rows.Row.{Row};
ghost use Rattle.phys_groups.specs.Translation.{row_of};
ghost use Rattle.board_calls.specs.flat_state.specs.declared.records.FlatKernel.{FlatKernel};
ghost use Rattle.board_calls.specs.flat_state.specs.Translation.{is_fit_row};
ghost use Rattle.board_calls.specs.run_journal.specs.Legal.{first_ident};
ghost use Rattle.board_calls.specs.desc_stores.specs.Contents.{residents_of};
ghost use Rattle.board_calls.specs.board_ops.specs.declared.refusals.Refused.{Refused};
ghost use Rattle.board_calls.specs.board_ops.specs.declared.refusals.Refused.TheVariants as why;
ghost use Rattle.board_calls.specs.cached_machine.specs.Cached.{state_of};
ghost use Rattle.board_calls.specs.board_core.specs.Core.{contents_of, Recorded};
ghost use Rattle.board_calls.specs.board_checks.specs.Refusals.{refusal_of_load_kernel, refusal_of_load_mapping, refusal_of_load_space, refusal_of_load_thread};
ghost use Rattle.owner_laws.specs.answer_laws.specs.Given.{IsGiven};
ghost use Rattle.owner_laws.specs.owners.specs.Known.{Known};
ghost use Rattle.owner_laws.specs.owners.specs.Owning.{IsThreadOf};
ghost use Rattle.reach_laws.specs.Reaching.{loaded_as, IsGot, IsLoadAnswer, IsOwned, IsReached};
ghost use Rattle.reach_laws.specs.Searching.{space_told, IsNearer};

/// A kernel that there is, asked for by the first: it is loaded, or memory is wanted.
pub fn a_kernel_is_got()
    ensures { (b c : Recorded) (o : Known) → IsOwned b o → (kernel : KernelNo) (k : FlatKernel) → slice_get (state_of b.machine).kernels kernel.0 ≡ Some k
        → (r : Result Ident Refused) → IsLoadAnswer (refusal_of_load_kernel (contents_of b) first_ident kernel) (name.Kernel kernel) b c r
        → IsGot c (name.Kernel kernel) (loaded_as r) }
{}

/// A space, asked for by its kernel: it is loaded, or memory is wanted, and the kernel is loaded still.
pub fn a_space_is_got()
    ensures { (b c : Recorded) (o : Known) → IsOwned b o → (space : SpaceNo) (kernel : KernelNo) (caller : Ident) → slice_get (state_of b.machine).spaces space.0 ≡ Some kernel
        → IsResident (residents_of (contents_of b)) caller (name.Kernel kernel)
        → (r : Result Ident Refused) → IsLoadAnswer (refusal_of_load_space (contents_of b) caller space) (name.Space space) b c r
        → IsGot c (name.Space space) (loaded_as r) × IsResident (residents_of (contents_of c)) caller (name.Kernel kernel) }
{}

/// A thread of a space that is reached: it is loaded, or memory is wanted, and the space is reached still.
pub fn a_thread_is_got()
    ensures { (b c : Recorded) (o : Known) → IsOwned b o → (space : SpaceNo) (reached : IsReached b o space) (thread : ThreadNo) → IsThreadOf (state_of b.machine) space thread
        → (r : Result Ident Refused) → IsLoadAnswer (refusal_of_load_thread (contents_of b) reached.caller reached.parent thread) (name.Thread thread) b c r
        → IsGot c (name.Thread thread) (loaded_as r) × IsReached c o space }
{}

/// A thread that is asked for in a space that is reached: it is loaded, and of this space; or memory is wanted; or a space is told
/// that is nearer to its own.
pub fn a_thread_is_found()
    ensures its { (b c : Recorded) (o : Known) → IsOwned b o → (space : SpaceNo) (reached : IsReached b o space) (thread : ThreadNo) (its : SpaceNo) → IsThreadOf (state_of b.machine) its thread
        → (r : Result Ident Refused) → IsLoadAnswer (refusal_of_load_thread (contents_of b) reached.caller reached.parent thread) (name.Thread thread) b c r
        → (ident : Ident) → loaded_as r ≡ Ok ident → its ≡ space }
    ensures told { (b c : Recorded) (o : Known) → IsOwned b o → (space : SpaceNo) (reached : IsReached b o space) (thread : ThreadNo) (its : SpaceNo) → IsThreadOf (state_of b.machine) its thread
        → (r : Result Ident Refused) → IsLoadAnswer (refusal_of_load_thread (contents_of b) reached.caller reached.parent thread) (name.Thread thread) b c r
        → (w : Refused) → loaded_as r ≡ Err w → (w ≡ why.NoMemory) ⊎ ((next : SpaceNo) × (space_told o w ≡ Some next) × IsNearer o its space next) }
{}

/// The row of a page in a space that is reached, asked for with the thread that its receiver is believed to be, or none. A page
/// without a row is told so, another receiver is told, and then a row that isn't fit. A row that is fit and no message row is
/// loaded, or memory is wanted. Whatever is answered, the space is reached still.
pub fn a_row_is_got()
    ensures none { (b : Recorded) (o : Known) → IsOwned b o → (space : SpaceNo) (reached : IsReached b o space) (vpn : Vpn) (receiver : Option Ident) (named : Option ThreadNo) → IsGiven (contents_of b) receiver named
        → row_of (state_of b.machine).rows space vpn.0 ≡ None
        → refusal_of_load_mapping (contents_of b) reached.caller reached.parent vpn receiver ≡ Some (why.NotDeclared (name.Mapping space vpn)) }
    ensures receiver { (b : Recorded) (o : Known) → IsOwned b o → (space : SpaceNo) (reached : IsReached b o space) (vpn : Vpn) (receiver : Option Ident) (named : Option ThreadNo) → IsGiven (contents_of b) receiver named
        → (row : Row) → row_of (state_of b.machine).rows space vpn.0 ≡ Some row
        → (named ≡ row.receiver) ⊎ (refusal_of_load_mapping (contents_of b) reached.caller reached.parent vpn receiver ≡ Some (why.WrongParent (option_map name.Thread named) (option_map name.Thread row.receiver))) }
    ensures unfit { (b : Recorded) (o : Known) → IsOwned b o → (space : SpaceNo) (reached : IsReached b o space) (vpn : Vpn) (receiver : Option Ident) (named : Option ThreadNo) → IsGiven (contents_of b) receiver named
        → (row : Row) → row_of (state_of b.machine).rows space vpn.0 ≡ Some row → named ≡ row.receiver → is_fit_row (state_of b.machine) row ≡ false
        → refusal_of_load_mapping (contents_of b) reached.caller reached.parent vpn receiver ≡ Some (why.Rights row.frame (row.frame.0 / 128)) }
    ensures loaded { (b : Recorded) (o : Known) → IsOwned b o → (space : SpaceNo) (reached : IsReached b o space) (vpn : Vpn) (receiver : Option Ident) (named : Option ThreadNo) → IsGiven (contents_of b) receiver named
        → (row : Row) → row_of (state_of b.machine).rows space vpn.0 ≡ Some row → named ≡ row.receiver → (ident : Ident) → IsResident (residents_of (contents_of b)) ident (name.Mapping space vpn)
        → refusal_of_load_mapping (contents_of b) reached.caller reached.parent vpn receiver ≡ Some (why.AlreadyLoaded ident) }
    ensures got { (b c : Recorded) (o : Known) → IsOwned b o → (space : SpaceNo) (reached : IsReached b o space) (vpn : Vpn) (receiver : Option Ident) (named : Option ThreadNo) → IsGiven (contents_of b) receiver named
        → (row : Row) → row_of (state_of b.machine).rows space vpn.0 ≡ Some row → named ≡ row.receiver → is_fit_row (state_of b.machine) row ≡ true → row.flags.m ≡ false
        → (r : Result Ident Refused) → IsLoadAnswer (refusal_of_load_mapping (contents_of b) reached.caller reached.parent vpn receiver) (name.Mapping space vpn) b c r
        → IsGot c (name.Mapping space vpn) (loaded_as r) }
    ensures kept { (b c : Recorded) (o : Known) → IsOwned b o → (space : SpaceNo) (reached : IsReached b o space) (vpn : Vpn) (receiver : Option Ident) (named : Option ThreadNo) → IsGiven (contents_of b) receiver named
        → (row : Row) → row_of (state_of b.machine).rows space vpn.0 ≡ Some row
        → (r : Result Ident Refused) → IsLoadAnswer (refusal_of_load_mapping (contents_of b) reached.caller reached.parent vpn receiver) (name.Mapping space vpn) b c r
        → IsReached c o space }
{}
