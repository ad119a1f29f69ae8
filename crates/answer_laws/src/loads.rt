//! What a load is answered.

ghost use Rattle.std.specs.Prelude.{◌≡◌, ◌/◌, true, false, Contains, Option, Some, None, slice_get};
ghost use Rattle.std.specs.Option.{option_map, option_or};
ghost use Rattle.cache_ident.specs.declared.idents.Ident.{Ident};
ghost use Rattle.cache_ident.specs.declared.names.KernelNo.{KernelNo};
ghost use Rattle.cache_ident.specs.declared.names.Name.{Name};
ghost use Rattle.cache_ident.specs.declared.names.Name.TheVariants as name;
ghost use Rattle.cache_ident.specs.declared.names.SpaceNo.{SpaceNo};
ghost use Rattle.cache_ident.specs.declared.names.ThreadNo.{ThreadNo};
ghost use Rattle.cache_ident.specs.declared.names.Vpn.{Vpn};
ghost use Rattle.cache_ident.specs.Names.{first_name};
ghost use Rattle.cache_ident.specs.Residents.{IsNameResident, IsResident};
ghost use Rattle.phys_groups.specs.declared.rows.Row.{Row};
ghost use Rattle.phys_groups.specs.Rows.{row_name};
ghost use Rattle.phys_groups.specs.Translation.{row_of};
ghost use Rattle.board_loads.specs.flat_state.specs.declared.records.FlatKernel.{FlatKernel};
ghost use Rattle.board_loads.specs.flat_state.specs.declared.records.FlatThread.{FlatThread};
ghost use Rattle.board_loads.specs.flat_state.specs.Dependence.{signal_rows_of};
ghost use Rattle.board_loads.specs.flat_state.specs.Translation.{is_fit_row};
ghost use Rattle.board_threads.specs.desc_stores.specs.Contents.{residents_of, Contents};
ghost use Rattle.board_threads.specs.desc_stores.specs.Sound.{IsExactlyOne};
ghost use Rattle.board_loads.specs.desc_parents.specs.Seen.{seen};
ghost use Rattle.board_threads.specs.board_ops.specs.declared.refusals.Refused.{Refused};
ghost use Rattle.board_threads.specs.board_ops.specs.declared.refusals.Refused.TheVariants as why;
ghost use Rattle.board_threads.specs.board_checks.specs.Refusals.{already_loaded, beyond_rights, not_owner, receivers_absent, refusal_of_load_kernel, refusal_of_load_mapping, refusal_of_load_space, refusal_of_load_thread, wrong_parent};
ghost use Rattle.answer_laws.specs.Given.{IsGiven};

/// A name is refused as loaded exactly where it is loaded, and the identifier that is told is the one with which it is.
pub fn what_is_refused_as_loaded()
    ensures told { (c : Contents) (n : Name) (refused : Refused) → already_loaded c n ≡ Some refused → (ident : Ident) × (refused ≡ why.AlreadyLoaded ident) × IsResident (residents_of c) ident n }
    ensures loaded { (c : Contents) → IsExactlyOne c → (ident : Ident) (n : Name) → IsResident (residents_of c) ident n → already_loaded c n ≡ Some (why.AlreadyLoaded ident) }
    ensures absent { (c : Contents) (n : Name) → (IsNameResident (residents_of c) n → ⊥) → already_loaded c n ≡ None }
{}

/// A kernel that there is: its load is refused where the caller isn't the first kernel, or it is loaded, and else done.
pub fn a_kernel_is_loaded()
    ensures answer { (c : Contents) → IsExactlyOne c → (caller : Ident) (given kernel : KernelNo) (k : FlatKernel)
        → IsResident (residents_of c) caller (name.Kernel given) → slice_get (seen c).kernels kernel.0 ≡ Some k
        → refusal_of_load_kernel c caller kernel ≡ option_or (not_owner given (record { 0 = 0 })) (already_loaded c (name.Kernel kernel)) }
    ensures right { (c : Contents) → IsExactlyOne c → (caller : Ident) (kernel : KernelNo) (k : FlatKernel)
        → IsResident (residents_of c) caller first_name → slice_get (seen c).kernels kernel.0 ≡ Some k
        → refusal_of_load_kernel c caller kernel ≡ already_loaded c (name.Kernel kernel) }
{}

/// A space that there is: its load is refused where the caller isn't its kernel, or it is loaded, and else done.
pub fn a_space_is_loaded()
    ensures answer { (c : Contents) → IsExactlyOne c → (caller : Ident) (given kernel : KernelNo) (space : SpaceNo)
        → IsResident (residents_of c) caller (name.Kernel given) → slice_get (seen c).spaces space.0 ≡ Some kernel
        → refusal_of_load_space c caller space ≡ option_or (not_owner given kernel) (already_loaded c (name.Space space)) }
    ensures right { (c : Contents) → IsExactlyOne c → (caller : Ident) (kernel : KernelNo) (space : SpaceNo)
        → IsResident (residents_of c) caller (name.Kernel kernel) → slice_get (seen c).spaces space.0 ≡ Some kernel
        → refusal_of_load_space c caller space ≡ already_loaded c (name.Space space) }
{}

/// A thread that there is: its load is refused where the caller isn't the kernel of its space, the parent isn't its space, or
/// it is loaded, by the first of these, and else done.
pub fn a_thread_is_loaded()
    ensures answer { (c : Contents) → IsExactlyOne c → (caller parent : Ident) (given kernel : KernelNo) (space : SpaceNo) (thread : ThreadNo) (t : FlatThread)
        → IsResident (residents_of c) caller (name.Kernel given) → IsResident (residents_of c) parent (name.Space space)
        → slice_get (seen c).threads thread.0 ≡ Some t → slice_get (seen c).spaces t.space.0 ≡ Some kernel
        → refusal_of_load_thread c caller parent thread ≡ option_or (not_owner given kernel) (option_or (wrong_parent (Some (name.Space space)) (Some (name.Space t.space))) (already_loaded c (name.Thread thread))) }
    ensures right { (c : Contents) → IsExactlyOne c → (caller parent : Ident) (kernel : KernelNo) (thread : ThreadNo) (t : FlatThread)
        → IsResident (residents_of c) caller (name.Kernel kernel) → IsResident (residents_of c) parent (name.Space t.space)
        → slice_get (seen c).threads thread.0 ≡ Some t → slice_get (seen c).spaces t.space.0 ≡ Some kernel
        → refusal_of_load_thread c caller parent thread ≡ already_loaded c (name.Thread thread) }
{}

/// The row of a page: its load is refused where the caller isn't the kernel of the space, the receiver isn't the row's, it is
/// loaded, the rights don't cover it, or a fit signal row of its frame isn't loaded, by the first of these, and else done. Only
/// a message row wants signal rows, and the one that is told is such a row.
pub fn a_row_is_loaded()
    ensures answer { (c : Contents) → IsExactlyOne c → (caller parent : Ident) (receiver : Option Ident) (given kernel : KernelNo) (space : SpaceNo) (named : Option ThreadNo) (vpn : Vpn) (row : Row)
        → IsResident (residents_of c) caller (name.Kernel given) → IsResident (residents_of c) parent (name.Space space) → IsGiven c receiver named
        → slice_get (seen c).spaces space.0 ≡ Some kernel → row_of (seen c).rows space vpn.0 ≡ Some row
        → refusal_of_load_mapping c caller parent vpn receiver
        ≡ option_or (not_owner given kernel) (option_or (wrong_parent (option_map name.Thread named) (option_map name.Thread row.receiver)) (option_or (already_loaded c (name.Mapping space vpn)) (option_or (beyond_rights c row) (receivers_absent c row)))) }
    ensures right { (c : Contents) → IsExactlyOne c → (caller parent : Ident) (receiver : Option Ident) (kernel : KernelNo) (space : SpaceNo) (vpn : Vpn) (row : Row)
        → IsResident (residents_of c) caller (name.Kernel kernel) → IsResident (residents_of c) parent (name.Space space) → IsGiven c receiver row.receiver
        → slice_get (seen c).spaces space.0 ≡ Some kernel → row_of (seen c).rows space vpn.0 ≡ Some row
        → refusal_of_load_mapping c caller parent vpn receiver ≡ option_or (already_loaded c (name.Mapping space vpn)) (option_or (beyond_rights c row) (receivers_absent c row)) }
    ensures fit { (c : Contents) (row : Row) → is_fit_row (seen c) row ≡ true → beyond_rights c row ≡ None }
    ensures unfit { (c : Contents) (row : Row) → is_fit_row (seen c) row ≡ false → beyond_rights c row ≡ Some (why.Rights row.frame (row.frame.0 / 128)) }
    ensures plain { (c : Contents) (row : Row) → row.flags.m ≡ false → receivers_absent c row ≡ None }
    ensures wanted { (c : Contents) → IsExactlyOne c → (row : Row) (refused : Refused) → receivers_absent c row ≡ Some refused
        → (other : Row) × (refused ≡ why.ReceiversAbsent other.space other.vpn) × Contains (signal_rows_of (seen c) row) other × (IsNameResident (residents_of c) (row_name other) → ⊥) }
{}

/// A page of a loaded space without a row is told as one that isn't declared, whoever asks for it and whichever receiver is
/// given.
pub fn a_page_without_a_row()
    ensures { (c : Contents) → IsExactlyOne c → (caller parent : Ident) (receiver : Option Ident) (given : KernelNo) (space : SpaceNo) (named : Option ThreadNo) (vpn : Vpn)
        → IsResident (residents_of c) caller (name.Kernel given) → IsResident (residents_of c) parent (name.Space space) → IsGiven c receiver named
        → row_of (seen c).rows space vpn.0 ≡ None
        → refusal_of_load_mapping c caller parent vpn receiver ≡ Some (why.NotDeclared (name.Mapping space vpn)) }
{}
