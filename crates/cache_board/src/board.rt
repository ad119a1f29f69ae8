//! The board and its calls.

ghost use Rattle.std.specs.Prelude.{◌≡◌, ◌≢◌, ℕ, List, ◌+◌, ◌<◌, ◌≤◌, ◌∷◌, ◌⊎◌, [], false, true, min, None, Some, IfErr, IfNone, IfOk, IfSome, IsOk, IsTrue, OnErr, OnOk, option_copied, slice_get};
ghost use Rattle.std.specs.Option.{option_map};
ghost use Rattle.std.specs.Result.{result_err};
ghost use Rattle.cache_ident.specs.Names.{first_name};
ghost use Rattle.cache_ident.specs.Residents.{IsResident};
ghost use Rattle.cache_ident.specs.declared.idents.Ident.{Ident};
ghost use Rattle.cache_ident.specs.declared.names.Name.{Name};
ghost use Rattle.cache_ident.specs.declared.names.SpaceNo.{SpaceNo};
ghost use Rattle.cache_ident.specs.declared.names.ThreadNo.{ThreadNo};
ghost use Rattle.phys_groups.specs.Translation.{row_of};
ghost use Rattle.flat_state.specs.declared.events.Decl.TheVariants as decls;
ghost use Rattle.flat_state.specs.Declaration.{rule_of_machine};
ghost use Rattle.flat_state.specs.Settling.{settled_of};
ghost use Rattle.run_journal.specs.Legal.{first_ident};
ghost use Rattle.run_journal.specs.declared.entries.Entry.TheVariants.{Declared};
ghost use Rattle.board_core.specs.page_views.specs.Views.{can_fill};
ghost use Rattle.ready_queue.specs.declared.Candidate.{Candidate};
ghost use Rattle.board_core.specs.board_ops.specs.declared.refusals.Refused.TheVariants.{NoMemory};
ghost use Rattle.board_core.specs.desc_stores.specs.Contents.{names_of, residents_of};
ghost use Rattle.board_core.specs.shown_state.specs.Shown.{flat_thread};
ghost use Rattle.board_core.specs.cached_machine.specs.Cached.{is_loaded, state_of};
ghost use Rattle.board_core.specs.cached_machine.specs.Posts.{last_of, mark_of};
ghost use Rattle.board_commits.specs.board_checks.specs.Identifiers.{space_as};
ghost use Rattle.board_commits.specs.board_checks.specs.Refusals.{refusal_of_complete, refusal_of_load_kernel, refusal_of_load_mapping, refusal_of_load_space, refusal_of_load_thread, refusal_of_lock, refusal_of_unload, refusal_of_unlock};
ghost use Rattle.board_core.specs.Answers.{HasCallRoom, IsRefused};
ghost use Rattle.board_core.specs.Core.{contents_of, IsSound};
ghost use Rattle.board_core.specs.Going.{GoesOn, IsOneEvent};
ghost use Rattle.board_core.specs.Growth.{count_loaded, IsRoomMade};
ghost use Rattle.board_core.specs.Places.{IsInOnePlace};
ghost use Rattle.board_loads.specs.Holds.{IsLockedAs, IsUnloadedAs};
ghost use Rattle.board_loads.specs.Loads.{IsLoadedAs};
ghost use Rattle.board_commits.specs.board_threads.specs.Faults.{HasEnded};
ghost use Rattle.board_commits.specs.board_threads.specs.Posts.{HasComeBack, IsCheckedOut, IsOutWith, IsTicketFor, OnlyMarks};
ghost use Rattle.board_commits.specs.board_threads.specs.Refusals.{refusal_of_fault};
ghost use Rattle.board_commits.specs.board_threads.specs.Tests.{IsWanted};
ghost use Rattle.board_commits.specs.board_threads.specs.Waiting.{IsChosenOf, IsWaiting};
ghost use Rattle.board_commits.specs.Commits.{IsCommitted, IsPaged};
ghost use Rattle.board_commits.specs.Refusals.{refusal_of_commit, refusal_of_page};
ghost use Rattle.board_commits.specs.Tickets.{AreAllAsOf, AreOfTicket};
ghost use Rattle.board_calls.specs.Calls.{refusal_of_declare, refusal_of_seal, IsCompletion, IsDeclaring, IsSealing};
ghost use Rattle.board_heal.specs.Healed.{IsHealed};
ghost use Rattle.board_heal.specs.Promise.{HasStepped, IsHealable};
ghost use Rattle.board_heal.specs.Refusals.{refusal_of_heal};
ghost use Rattle.cache_board.specs.Boards.{refusal_of_machine};

use board_commits::{Core, Names, Quantum, Refused, Ticket, threads};
use board_core::{CachedMachine, each_descriptor_is_in_one_place};
use cache_ident::{Ident, KernelNo, Kind, NoMemory, SpaceNo, ThreadNo, Vpn};
use flat_rules::{Records, rule_of_machine};
use flat_state::{Decl, Machine, Settled};
use legal_laws::the_first_kernel_stays_loaded;
use phys_groups::Row;
use run_journal::Journal;
use std::alloc::Global;
use std::marker::Model;
use thread_cache::ThreadRec;

/// A machine with caches, and the journal of all that happened to it.
///
/// Kernels own spaces, and spaces threads and rows. What is loaded has an identifier, by which calls name it, and calls are
/// made for a loaded kernel, their `caller`. What isn't loaded is with its owner. `cpu` is the processor that calls, below 8.
///
/// A refused call leaves the board as it was, but perhaps for room. `NoMemory` comes before all other refusals; then the
/// identifiers of the arguments are tested one after the other, each for all that can be wrong with it, and then the call in
/// the order of `Refused`. Where `spare()` is at least `loaded() + 22`, no call but `declare`, `complete` and `reserve` wants
/// memory.
///
/// A contract sees what it sees of the core: the machine, the journal, whether that is sealed, how many steps may be taken and
/// were. What holds of every board (`IsSound`) is given out by `holds`. It moves as one pointer.
#[derive(Drop)]
pub struct Board {
    alloc: Global,
    core: Box<Core>,
}

impl Model for Board {
    ghost use Rattle.board_core.specs.Core.{Recorded};

    ghost Value = { Recorded };

    ghost view = { λ b. b.core.value };
}

// How it is made, and what is declared.
impl Board {
    /// The board of a machine on which nothing else is declared, and which takes at most so many steps. Refused with the rule
    /// that the machine breaks (`BadDecl`).
    pub fn new(alloc: Global, machine: Machine, steps: u64) -> Result<Board, Refused>
        ensures refused { IfErr result (λ why. (why ≡ NoMemory) ⊎ (refusal_of_machine machine ≡ Some why)) }
        ensures done { OnOk result (refusal_of_machine machine ≡ None) }
        ensures entries { IfOk result (λ board. board.journal.entries ≡ Declared (decls.Machine machine) ∷ []) }
        ensures sound { IfOk result IsSound }
        ensures begins { IfOk result (λ board. (board.sealed ≡ false) × (board.limit ≡ steps) × (board.checkouts ≡ 0) × (board.machine.machine ≡ machine)) }
    {
        if let Err(rule) = rule_of_machine(machine) {
            return Err(Refused::BadDecl { rule });
        }
        let core = Box::new(alloc, Core::new(alloc, machine, steps)?)?;
        core.holds();
        Ok(Board { alloc, core })
    }

    /// Does nothing. A proof has from it what holds of every board: its journal is legal, and tells what the machine shows and
    /// what is loaded; only loaded threads are on processors; and the tables are sound. So each descriptor is in its cache or with
    /// its owner, never in both, and behind the seal the first kernel is loaded.
    pub fn holds(&self)
        ensures sound { IsSound self.now }
        ensures places { IsInOnePlace self.now }
        ensures first { self.now.sealed ≡ true → IsResident (residents_of (contents_of self.now)) first_ident first_name }
    {
        self.core.holds();
        each_descriptor_is_in_one_place();
        the_first_kernel_stays_loaded();
    }

    /// Makes a declaration, before the seal (`Sealed`), with the first rule that it breaks as its refusal (`BadDecl`).
    pub fn declare(&mut self, decl: &Decl) -> Result<(), Refused>
        ensures refused { IfErr result (IsRefused (refusal_of_declare self.old decl.now) self.old self.new) }
        ensures done { OnOk result (refusal_of_declare self.old decl.now ≡ None) }
        ensures declared { OnOk result (IsDeclaring decl.now self.old self.new) }
        ensures event { IsOneEvent 0 self.old self.new }
    {
        self.holds();
        let declared = board_calls::declare(&mut self.core, decl);
        self.holds();
        declared
    }

    /// Ends the declarations, loads the first kernel and locks it. Refused where there is none (`NotDeclared`), and a second
    /// time (`Sealed`).
    pub fn seal(&mut self) -> Result<Ident, Refused>
        ensures refused { IfErr result (IsRefused (refusal_of_seal self.old) self.old self.new) }
        ensures done { OnOk result (refusal_of_seal self.old ≡ None) }
        ensures enough { HasCallRoom self.old → IfErr result (λ why. why ≢ NoMemory) }
        ensures sealed { IfOk result (IsSealing self.old self.new) }
        ensures event { IsOneEvent 0 self.old self.new }
    {
        self.holds();
        let sealed = board_calls::seal(&mut self.core);
        self.holds();
        sealed
    }
}

// Loads, unloads and locks.
impl Board {
    /// Loads a kernel. Only the first kernel may (`NotOwner`).
    pub fn load_kernel(
        &mut self,
        cpu: u32,
        caller: Ident,
        kernel: KernelNo,
    ) -> Result<Ident, Refused>
        requires processor { cpu < 8 }
        ensures refused { IfErr result (IsRefused (refusal_of_load_kernel (contents_of self.old) caller kernel) self.old self.new) }
        ensures done { OnOk result (refusal_of_load_kernel (contents_of self.old) caller kernel ≡ None) }
        ensures loaded { IfOk result (λ ident. IsLoadedAs cpu (Name.Kernel kernel) ident self.old self.new) }
        ensures enough { HasCallRoom self.old → IfErr result (λ why. why ≢ NoMemory) }
        ensures on { GoesOn cpu self.old self.new }
        ensures event { IsOneEvent cpu self.old self.new }
    {
        self.holds();
        let loaded = board_loads::load_kernel(&mut self.core, cpu, caller, kernel);
        self.holds();
        loaded
    }

    /// Loads a space of the caller.
    pub fn load_space(&mut self, cpu: u32, caller: Ident, space: SpaceNo) -> Result<Ident, Refused>
        requires processor { cpu < 8 }
        ensures refused { IfErr result (IsRefused (refusal_of_load_space (contents_of self.old) caller space) self.old self.new) }
        ensures done { OnOk result (refusal_of_load_space (contents_of self.old) caller space ≡ None) }
        ensures loaded { IfOk result (λ ident. IsLoadedAs cpu (Name.Space space) ident self.old self.new) }
        ensures enough { HasCallRoom self.old → IfErr result (λ why. why ≢ NoMemory) }
        ensures on { GoesOn cpu self.old self.new }
        ensures event { IsOneEvent cpu self.old self.new }
    {
        self.holds();
        let loaded = board_loads::load_space(&mut self.core, cpu, caller, space);
        self.holds();
        loaded
    }

    /// Loads a thread of the loaded space `parent` (`WrongParent`).
    pub fn load_thread(
        &mut self,
        cpu: u32,
        caller: Ident,
        parent: Ident,
        thread: ThreadNo,
    ) -> Result<Ident, Refused>
        requires processor { cpu < 8 }
        ensures refused { IfErr result (IsRefused (refusal_of_load_thread (contents_of self.old) caller parent thread) self.old self.new) }
        ensures done { OnOk result (refusal_of_load_thread (contents_of self.old) caller parent thread ≡ None) }
        ensures loaded { IfOk result (λ ident. IsLoadedAs cpu (Name.Thread thread) ident self.old self.new) }
        ensures enough { HasCallRoom self.old → IfErr result (λ why. why ≢ NoMemory) }
        ensures on { GoesOn cpu self.old self.new }
        ensures event { IsOneEvent cpu self.old self.new }
    {
        self.holds();
        let loaded = board_loads::load_thread(&mut self.core, cpu, caller, parent, thread);
        self.holds();
        loaded
    }

    /// Loads the row of a page of the loaded space `parent`. The thread that receives its signals is loaded and given, if it
    /// has one (`WrongParent`); the row is fit (`Rights`); and a message row's fit signal rows are loaded
    /// (`ReceiversAbsent`).
    pub fn load_mapping(
        &mut self,
        cpu: u32,
        caller: Ident,
        parent: Ident,
        vpn: Vpn,
        receiver: Option<Ident>,
    ) -> Result<Ident, Refused>
        requires processor { cpu < 8 }
        ensures refused { IfErr result (IsRefused (refusal_of_load_mapping (contents_of self.old) caller parent vpn receiver) self.old self.new) }
        ensures done { OnOk result (refusal_of_load_mapping (contents_of self.old) caller parent vpn receiver ≡ None) }
        ensures loaded { IfOk result (λ ident. (space : SpaceNo) × (space_as (contents_of self.old) parent ≡ Some space) × IsLoadedAs cpu (Name.Mapping space vpn) ident self.old self.new) }
        ensures enough { HasCallRoom self.old → IfErr result (λ why. why ≢ NoMemory) }
        ensures on { GoesOn cpu self.old self.new }
        ensures event { IsOneEvent cpu self.old self.new }
    {
        self.holds();
        let loaded = board_loads::load_mapping(&mut self.core, cpu, caller, parent, vpn, receiver);
        self.holds();
        loaded
    }

    /// Unloads what is loaded with an identifier, and before it all that depends on it. It may be locked, but isn't the first
    /// kernel (`FirstKernel`).
    pub fn unload(&mut self, cpu: u32, caller: Ident, ident: Ident) -> Result<(), Refused>
        requires processor { cpu < 8 }
        ensures refused { IfErr result (IsRefused (refusal_of_unload (contents_of self.old) caller ident) self.old self.new) }
        ensures done { OnOk result (refusal_of_unload (contents_of self.old) caller ident ≡ None) }
        ensures unloaded { OnOk result (IsUnloadedAs cpu ident self.old self.new) }
        ensures enough { HasCallRoom self.old → IfErr result (λ why. why ≢ NoMemory) }
        ensures on { GoesOn cpu self.old self.new }
        ensures event { IsOneEvent cpu self.old self.new }
    {
        self.holds();
        let unloaded = board_loads::unload(&mut self.core, cpu, caller, ident);
        self.holds();
        unloaded
    }

    /// Locks what is loaded with an identifier, so that it doesn't leave for a load but as a dependent, unless its owner has
    /// locked as many as it may (`LimitReached`). What is locked stays so, without an entry. It costs a logarithm of what is loaded.
    pub fn lock(&mut self, cpu: u32, caller: Ident, ident: Ident) -> Result<(), Refused>
        requires processor { cpu < 8 }
        ensures refused { IfErr result (IsRefused (refusal_of_lock (contents_of self.old) caller ident) self.old self.new) }
        ensures done { OnOk result (refusal_of_lock (contents_of self.old) caller ident ≡ None) }
        ensures locked { OnOk result (IsLockedAs cpu ident true self.old self.new) }
        ensures enough { HasCallRoom self.old → IfErr result (λ why. why ≢ NoMemory) }
        ensures on { GoesOn cpu self.old self.new }
        ensures event { IsOneEvent cpu self.old self.new }
    {
        self.holds();
        let locked = board_loads::lock(&mut self.core, cpu, caller, ident);
        self.holds();
        locked
    }

    /// Ends the lock of what is loaded with an identifier, and isn't the first kernel (`FirstKernel`). What isn't locked stays
    /// so, without an entry.
    pub fn unlock(&mut self, cpu: u32, caller: Ident, ident: Ident) -> Result<(), Refused>
        requires processor { cpu < 8 }
        ensures refused { IfErr result (IsRefused (refusal_of_unlock (contents_of self.old) caller ident) self.old self.new) }
        ensures done { OnOk result (refusal_of_unlock (contents_of self.old) caller ident ≡ None) }
        ensures unlocked { OnOk result (IsLockedAs cpu ident false self.old self.new) }
        ensures enough { HasCallRoom self.old → IfErr result (λ why. why ≢ NoMemory) }
        ensures on { GoesOn cpu self.old self.new }
        ensures event { IsOneEvent cpu self.old self.new }
    {
        self.holds();
        let unlocked = board_loads::unlock(&mut self.core, cpu, caller, ident);
        self.holds();
        unlocked
    }
}

// Threads on processors, and their steps.
impl Board {
    /// Takes the next thread to a processor: of the loaded runnable ones that are on none, the one of the highest priority;
    /// among those the one that was checked out the longest ago; among those the one with the lowest number. None where there
    /// is none.
    #[inline(always)]
    pub fn checkout(&mut self, cpu: u32) -> Option<Ticket>
        requires processor { cpu < 8 }
        ensures nobody { IfNone result ((candidate : Candidate) → IsWaiting self.old candidate → ⊥) }
        ensures nothing { IfNone result (self.new ≡ self.old) }
        ensures chosen { IfSome result (λ ticket. IsChosenOf self.old ticket.no) }
        ensures ticket { IfSome result (IsTicketFor self.old cpu) }
        ensures out { IfSome result (λ ticket. IsCheckedOut ticket.no cpu self.old self.new) }
        ensures event { IsOneEvent cpu self.old self.new }
    {
        self.holds();
        let ticket = threads::checkout(&mut self.core, cpu);
        self.holds();
        ticket
    }

    /// Copies the page of a loaded row of the ticket's thread into a quantum that has room for it, whatever the row's flags.
    /// Refused where no row of that page is loaded (`NotLoaded`). What carries a place in the quantum must be of this board's
    /// journal: of a new quantum, of one that was only used with this board, or of one that forgot what it had.
    pub fn page(&self, ticket: &Ticket, vpn: Vpn, quantum: &mut Quantum) -> Result<(), Refused>
        requires room { IsTrue (can_fill quantum.old.most quantum.old.views vpn) }
        requires kept { AreAllAsOf self.now.journal.entries quantum.old }
        ensures exact { result_err result ≡ refusal_of_page (contents_of self.now) ticket.now vpn }
        ensures refused { OnErr result (quantum.new ≡ quantum.old) }
        ensures filled { OnOk result (IsPaged self.now ticket.now vpn quantum.old quantum.new) }
        ensures views { AreOfTicket self.now.journal.entries ticket.now.thread quantum.old → AreOfTicket self.now.journal.entries ticket.now.thread quantum.new }
        ensures kept { AreAllAsOf self.now.journal.entries quantum.new }
    {
        board_commits::page(&self.core, ticket, vpn, quantum)
    }

    /// Makes the steps of a quantum happen now, gives the thread back, and answers how many they are. Refused where the thread
    /// isn't where it was (`Moved`), the row of a view isn't loaded (`NotLoaded`), a touched view isn't any more what memory
    /// holds (`Changed`), or fewer steps are left (`Over`).
    pub fn commit(&mut self, ticket: &Ticket, quantum: &Quantum) -> Result<u32, Refused>
        requires views { AreOfTicket self.old.journal.entries ticket.now.thread quantum.now }
        ensures refused { IfErr result (IsRefused (refusal_of_commit self.old ticket.now quantum.now) self.old self.new) }
        ensures done { OnOk result (refusal_of_commit self.old ticket.now quantum.now ≡ None) }
        ensures steps { IfOk result (λ steps. steps ≡ quantum.now.steps) }
        ensures committed { OnOk result (IsCommitted ticket.now quantum.now self.old self.new) }
        ensures enough { HasCallRoom self.old → IfErr result (λ why. why ≢ NoMemory) }
        ensures event { IsOneEvent ticket.now.cpu self.old self.new }
    {
        self.holds();
        let committed = board_commits::commit(&mut self.core, ticket, quantum);
        self.holds();
        committed
    }

    /// Gives a thread back, where it is still loaded under the ticket's identifier and on the ticket's processor; else it does
    /// nothing.
    pub fn leave(&mut self, ticket: &Ticket)
        ensures only { OnlyMarks self.old self.new }
        ensures back { (whom : ThreadNo) → IsOutWith self.old ticket.now whom → HasComeBack whom self.old self.new }
        ensures stays { ((whom : ThreadNo) → IsOutWith self.old ticket.now whom → ⊥) → self.new ≡ self.old }
        ensures event { IsOneEvent ticket.now.cpu self.old self.new }
    {
        self.holds();
        threads::leave(&mut self.core, ticket);
        self.holds();
    }

    /// No thread is on a processor any more.
    pub fn clear_marks(&mut self)
        ensures only { OnlyMarks self.old self.new }
        ensures none { (whom : ThreadNo) → mark_of (contents_of self.new) whom ≡ None }
        ensures event { (cpu : ℕ) → IsOneEvent cpu self.old self.new }
    {
        self.holds();
        threads::clear_marks(&mut self.core);
        self.holds();
    }

    /// Completes the call that a loaded thread is in (`NotTrapped`, `WaitEmpty`). What is loaded and would then no longer
    /// stand, not be fit or depend on what isn't loaded leaves first.
    pub fn complete(&mut self, cpu: u32, caller: Ident, thread: Ident) -> Result<(), Refused>
        requires processor { cpu < 8 }
        ensures refused { IfErr result (IsRefused (refusal_of_complete (contents_of self.old) caller thread) self.old self.new) }
        ensures done { OnOk result (refusal_of_complete (contents_of self.old) caller thread ≡ None) }
        ensures completed { OnOk result (IsCompletion cpu thread self.old self.new) }
        ensures on { GoesOn cpu self.old self.new }
        ensures event { IsOneEvent cpu self.old self.new }
    {
        self.holds();
        let completed = board_calls::complete(&mut self.core, self.alloc, cpu, caller, thread);
        self.holds();
        completed
    }

    /// Takes the next step of a loaded thread, which faults and ends it. Refused where the thread takes no steps
    /// (`NotRunnable`), is on a processor (`OnCpu`), doesn't fault (`Mapped`), fetches through a row that isn't loaded
    /// (`NotLoaded`), or no step is left (`Over`).
    pub fn confirm_fault(&mut self, cpu: u32, caller: Ident, thread: Ident) -> Result<(), Refused>
        requires processor { cpu < 8 }
        ensures refused { IfErr result (IsRefused (refusal_of_fault self.old caller thread) self.old self.new) }
        ensures done { OnOk result (refusal_of_fault self.old caller thread ≡ None) }
        ensures enough { HasCallRoom self.old → IfErr result (λ why. why ≢ NoMemory) }
        ensures ended { OnOk result (HasEnded thread cpu self.old self.new) }
        ensures on { GoesOn cpu self.old self.new }
        ensures event { IsOneEvent cpu self.old self.new }
    {
        self.holds();
        let confirmed = threads::confirm_fault(&mut self.core, cpu, caller, thread);
        self.holds();
        confirmed
    }

    /// Loads all that the next step of a thread needs, and takes it. Refused where there is no such thread (`NotDeclared`), it
    /// takes no steps (`NotRunnable`), is on a processor (`OnCpu`), no step is left (`Over`), the step would signal a thread
    /// without room (`Held`), or the board isn't sealed (`NotSealed`).
    pub fn heal_step(&mut self, cpu: u32, thread: ThreadNo) -> Result<(), Refused>
        requires processor { cpu < 8 }
        ensures refused { IfErr result (IsRefused (refusal_of_heal self.old thread) self.old self.new) }
        ensures done { OnOk result (refusal_of_heal self.old thread ≡ None) }
        ensures healed { OnOk result (IsHealed cpu thread self.old self.new) }
        ensures promised { IsHealable self.old thread → IfErr result (λ why. why ≡ NoMemory) × OnOk result (HasStepped thread self.old self.new) }
        ensures enough { HasCallRoom self.old → IfErr result (λ why. why ≢ NoMemory) }
        ensures event { IsOneEvent cpu self.old self.new }
    {
        self.holds();
        let healed = board_heal::heal_step(&mut self.core, cpu, thread);
        self.holds();
        healed
    }
}

// What is read of it.
impl Board {
    /// The lowest-numbered thread whose call can be completed; else the lowest-numbered runnable thread that isn't loaded; else
    /// none.
    pub fn want(&self) -> Option<ThreadNo>
        ensures { IsWanted self.now result }
    {
        threads::want(&self.core)
    }

    /// Whether the run is over.
    pub fn settled(&self) -> Settled
        ensures { result ≡ settled_of (state_of self.now.machine) self.now.steps self.now.limit }
    {
        threads::settled(&self.core)
    }

    /// How many steps the journal has.
    pub fn steps(&self) -> u64
        ensures { result ≡ self.now.steps }
    {
        self.core.steps()
    }

    /// How many descriptors are loaded.
    pub fn loaded(&self) -> usize
        ensures { result ≡ count_loaded self.now }
    {
        self.core.loaded()
    }

    /// How many identifiers and entries more take no memory.
    pub fn spare(&self) -> usize
        ensures { result ≡ min self.now.journal.spare (contents_of self.now).spare }
    {
        self.core.spare()
    }

    /// Makes `spare` at least `n`, at once where it is so already. Where memory is wanted `spare` is what it was.
    pub fn reserve(&mut self, n: usize) -> Result<(), NoMemory>
        ensures only { IsRoomMade self.old self.new }
        ensures room { OnOk result ((n ≤ self.new.journal.spare) × (n ≤ (contents_of self.new).spare)) }
        ensures enough { n ≤ self.old.journal.spare → n ≤ (contents_of self.old).spare → IsOk result }
        ensures same { OnErr result (min self.new.journal.spare (contents_of self.new).spare ≡ min self.old.journal.spare (contents_of self.old).spare) }
        ensures event { (cpu : ℕ) → IsOneEvent cpu self.old self.new }
    {
        self.holds();
        let reserved = self.core.reserve(n);
        self.holds();
        reserved
    }

    /// All that happened.
    pub fn journal(&self) -> &Journal
        ensures { result.now ≡ self.now.journal }
    {
        self.core.journal()
    }

    /// The journal, without the rest of the board.
    pub fn into_journal(self) -> Journal
        ensures { result ≡ self.journal }
    {
        let Board { alloc: _, core } = self;
        Box::into_inner(core).into_journal()
    }

    /// The record of a thread, loaded or not, and none where there is none of that number. Its processor is the one that has it,
    /// which none has of a thread that isn't loaded; its last checkout it has on the shelf too.
    pub fn flat_thread(&self, no: ThreadNo) -> Option<&ThreadRec>
        ensures state { option_map flat_thread (option_copied result) ≡ slice_get (state_of self.now.machine).threads no.0 }
        ensures post { IfSome result (λ t. (t.now.on_cpu ≡ mark_of (contents_of self.now) no) × (t.now.last ≡ last_of (contents_of self.now) no)) }
        ensures unloaded { IfSome result (λ t. is_loaded (contents_of self.now) (Name.Thread no) ≡ false → t.now.on_cpu ≡ None) }
    {
        self.core.holds();
        threads::record_of(&self.core, no)
    }

    /// The machine, for whoever reads it by the rules or makes its report.
    pub fn machine(&self) -> &CachedMachine
        ensures { result.now ≡ self.now.machine }
    {
        self.core.machine()
    }

    /// The row of a page, loaded or not, and none where there is none.
    pub fn flat_row(&self, space: SpaceNo, vpn: Vpn) -> Option<&Row>
        ensures { option_copied result ≡ row_of (state_of self.now.machine).rows space vpn.0 }
    {
        self.core.machine().row(space, vpn)
    }

    /// The names of the kind that stand, in declared order.
    pub fn names(&self, kind: Kind) -> Names<'_>
        ensures { result ≡ names_of (contents_of self.now) kind }
    {
        self.core.machine().tables().names(kind)
    }
}
