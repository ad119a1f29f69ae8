//! What owners of a board have, and keep.

ghost use Rattle.std.specs.Prelude.{◌≡◌, IfSome, Option, Some, slice_get};
ghost use Rattle.cache_ident.specs.declared.idents.Ident.{Ident};
ghost use Rattle.cache_ident.specs.declared.names.KernelNo.{KernelNo};
ghost use Rattle.cache_ident.specs.declared.names.Name.{Name};
ghost use Rattle.cache_ident.specs.declared.names.SpaceNo.{SpaceNo};
ghost use Rattle.cache_ident.specs.declared.names.ThreadNo.{ThreadNo};
ghost use Rattle.cache_ident.specs.declared.names.Vpn.{Vpn};
ghost use Rattle.cache_ident.specs.Names.{first_name};
ghost use Rattle.cache_ident.specs.Residents.{IsResident};
ghost use Rattle.board_calls.specs.flat_state.specs.declared.records.FlatKernel.{FlatKernel};
ghost use Rattle.board_calls.specs.run_journal.specs.Legal.{first_ident};
ghost use Rattle.board_calls.specs.desc_stores.specs.Contents.{residents_of};
ghost use Rattle.board_calls.specs.cached_machine.specs.Cached.{state_of};
ghost use Rattle.board_calls.specs.board_core.specs.Core.{contents_of, IsSound, Recorded};
ghost use Rattle.board_calls.specs.board_core.specs.Going.{Grew};
ghost use Rattle.board_calls.specs.board_core.specs.Growth.{IsRoomMade};
ghost use Rattle.owner_laws.specs.owners.specs.Known.{receiver_of, space_of, IsNoted, IsReceiverLearnt, IsSpaceLearnt, Known};
ghost use Rattle.owner_laws.specs.owners.specs.Owning.{IsThreadOf};
ghost use Rattle.reach_laws.specs.Reaching.{IsOwned, IsReached};

/// What owners of a board believe is so of the machine that it shows, and the first kernel is loaded. The kernel of each space
/// stands, and each thread is of a space that does.
pub fn what_owners_believe_is_shown()
    ensures first { (b : Recorded) (o : Known) → IsOwned b o → IsResident (residents_of (contents_of b)) first_ident first_name }
    ensures spaces { (b : Recorded) (o : Known) → IsOwned b o → o.spaces ≡ (state_of b.machine).spaces }
    ensures threads { (b : Recorded) (o : Known) → IsOwned b o → (thread : ThreadNo) (space : SpaceNo) → space_of o thread ≡ Some space → IsThreadOf (state_of b.machine) space thread }
    ensures receivers { (b : Recorded) (o : Known) → IsOwned b o → (space : SpaceNo) (vpn : Vpn) (receiver : ThreadNo) → receiver_of o (space, vpn) ≡ Some receiver → IsThreadOf (state_of b.machine) space receiver }
    ensures kernel { (b : Recorded) → IsSound b → (space : SpaceNo) (kernel : KernelNo) → slice_get (state_of b.machine).spaces space.0 ≡ Some kernel → (k : FlatKernel) × (slice_get (state_of b.machine).kernels kernel.0 ≡ Some k) }
    ensures space { (b : Recorded) → IsSound b → (space : SpaceNo) (thread : ThreadNo) → IsThreadOf (state_of b.machine) space thread → (kernel : KernelNo) × (slice_get (state_of b.machine).spaces space.0 ≡ Some kernel) }
{}

/// Owners of a board stay so as it grows, as they note what is loaded, and as they learn what is so.
pub fn owners_of_a_board_stay_owners()
    ensures grown { (b : Recorded) (o : Known) → IsOwned b o → (c : Recorded) → Grew 0 b c → IsSound c → IsOwned c o }
    ensures noted { (b : Recorded) (o : Known) → IsOwned b o → (new : Known) (n : Name) (ident : Ident) → IsResident (residents_of (contents_of b)) ident n → IsNoted n ident o new → IsOwned b new }
    ensures space { (b : Recorded) (o : Known) → IsOwned b o → (new : Known) (thread : ThreadNo) (space : SpaceNo) → IsThreadOf (state_of b.machine) space thread → IsSpaceLearnt thread space o new → IsOwned b new }
    ensures receiver { (b : Recorded) (o : Known) → IsOwned b o → (new : Known) (space : SpaceNo) (vpn : Vpn) (receiver : Option ThreadNo) → IfSome receiver (IsThreadOf (state_of b.machine) space) → IsReceiverLearnt (space, vpn) receiver o new → IsOwned b new }
{}

/// A space that is reached stays so as room is made, as what is loaded is noted, and as anything but identifiers is learnt.
pub fn what_is_reached_stays()
    ensures room { (old new : Recorded) → IsRoomMade old new → (o : Known) (space : SpaceNo) → IsReached old o space → IsReached new o space }
    ensures noted { (b : Recorded) (old new : Known) (n : Name) (ident : Ident) → IsNoted n ident old new → IsResident (residents_of (contents_of b)) ident n → (space : SpaceNo) → IsReached b old space → IsReached b new space }
    ensures learnt { (b : Recorded) (old new : Known) (space : SpaceNo) → new.idents ≡ old.idents → IsReached b old space → IsReached b new space }
{}
