//! Steps, and calls that are completed.

ghost use Rattle.std.specs.Prelude.{◌≡◌, ◌≢◌, ◌+◌, ◌<◌, ◌≤◌, ◌∷◌, [], true, None, Some, IsOk, OnErr, OnOk};
ghost use Rattle.cache_ident.specs.declared.names.ThreadNo.{ThreadNo};
ghost use Rattle.cache_ident.specs.Residents.{IsNameResident};
ghost use Rattle.flat_state.specs.declared.events.Event.TheVariants.{Complete};
ghost use Rattle.flat_state.specs.Call.{is_completable};
ghost use Rattle.flat_state.specs.Events.{applied};
ghost use Rattle.flat_state.specs.NextSteps.{next_step as next_step_def};
ghost use Rattle.flat_rules.specs.Readings.{OfThread};
ghost use Rattle.cached_machine.specs.flat_events.specs.declared.asked.Asked.TheVariants.{Nothing};
ghost use Rattle.cached_machine.specs.flat_events.specs.Asked.{asked_of};
ghost use Rattle.cached_machine.specs.quantum.specs.LocalRun.{touched_views, CouldRun};
ghost use Rattle.run_journal.specs.Legal.{AreGood, MayStep};
ghost use Rattle.run_journal.specs.declared.entries.Entry.TheVariants.{Completed, Ran};
ghost use Rattle.cached_machine.specs.desc_stores.specs.Contents.{residents_of};
ghost use Rattle.cached_machine.specs.desc_stores.specs.Changes.{room_of};
ghost use Rattle.cached_machine.specs.board_laws.specs.Moves.{KeepsLoaded};
ghost use Rattle.cached_machine.specs.Cached.{state_of};
ghost use Rattle.cached_machine.specs.Posts.{but_at, last_of, mark_of};
ghost use Rattle.board_core.specs.Core.{contents_of};
ghost use Rattle.board_core.specs.Growth.{entries_of_run, entry_of_step as entry_of_step_def, AreHeld, AreOfLoaded, GrowsBy, IsRoomMade, KeepsPlaces, MayWrite};
ghost use Rattle.board_core.specs.Stamps.{frame_stored as frame_stored_def};

use crate::core_record::{Core, known, note, put_stamp};
use crate::taking_over::take_over;
use cache_ident::{Frame, Ident, Name, NoMemory, ThreadNo};
use cached_machine::{CachedMachine, Quantum};
use flat_rules::{Records, next_step};
use flat_state::NextStep;
use run_journal::Entry;

impl Core {
    /// What can be said of a thread's next step, and none where there is no such thread.
    pub fn next_step(&self, no: ThreadNo) -> Option<NextStep>
        ensures { result ≡ next_step_def (state_of self.now.machine) no.0 }
    {
        next_step(&self.machine, no)
    }

    /// Takes the next step of a loaded thread, of which `next` is known, and which no processor has. It is runnable, and each row
    /// that an access of it goes through is loaded.
    pub fn step(&mut self, cpu: u32, no: ThreadNo, next: &NextStep)
        requires next { next_step_def (state_of self.old.machine) no.0 ≡ Some next.now }
        requires may { MayStep (state_of self.old.machine) (residents_of (contents_of self.old)) no next.now.faults }
        requires loaded { IsNameResident (residents_of (contents_of self.old)) (Name.Thread no) }
        requires unmarked { mark_of (contents_of self.old) no ≡ None }
        requires left { self.old.steps < self.old.limit }
        requires write { MayWrite self.old cpu 1 }
        ensures entries { GrowsBy (entry_of_step_def no next.now.faults cpu ∷ []) self.old self.new }
        ensures places { KeepsPlaces self.old self.new }
        ensures steps { self.new.steps ≡ self.old.steps + 1 }
    {
        let stored = frame_stored(&self.machine, next);
        cached_machine::events::step(&mut self.machine, no);
        known(&self.machine);
        self.steps += 1;
        note(&mut self.journal, entry_of_step(no, next.faults, cpu));
        put_stamp(&mut self.stamps, stored, self.journal.len());
    }

    /// Makes the steps of a quantum happen to a loaded thread, which could have taken them, and of whose touched views the rows
    /// are loaded. The thread comes away from its processor. Without steps there is no entry. Where the thread is loaded with the
    /// identifier `near`, and the rows with those that the views name, no search is made.
    pub fn run(&mut self, cpu: u32, no: ThreadNo, near: Option<Ident>, quantum: &Quantum)
        requires loaded { IsNameResident (residents_of (contents_of self.old)) (Name.Thread no) }
        requires could { OfThread (state_of self.old.machine) no.0 (λ t. CouldRun (state_of self.old.machine) t quantum.now) }
        requires views { OfThread (state_of self.old.machine) no.0 (λ t. AreOfLoaded self.old t (touched_views quantum.now.views)) }
        requires left { self.old.steps + quantum.now.steps ≤ self.old.limit }
        requires write { MayWrite self.old cpu 1 }
        ensures entries { GrowsBy (entries_of_run no quantum.now.steps cpu) self.old self.new }
        ensures loaded { KeepsLoaded (contents_of self.old) (contents_of self.new) }
        ensures marks { (other : ThreadNo) → mark_of (contents_of self.new) other ≡ but_at no None (mark_of (contents_of self.old)) other }
        ensures lasts { (other : ThreadNo) → last_of (contents_of self.new) other ≡ last_of (contents_of self.old) other }
        ensures steps { self.new.steps ≡ self.old.steps + quantum.now.steps }
        ensures checkouts { self.new.checkouts ≡ self.old.checkouts }
        ensures sealed { self.new.sealed ≡ self.old.sealed }
        ensures spare { (contents_of self.new).spare ≡ (contents_of self.old).spare }
        ensures held { 0 < quantum.now.steps → AreHeld self.new.machine.memory (touched_views quantum.now.views) }
    {
        self.holds();
        self.check_in(no, near);
        if quantum.steps() != 0 {
            self.run_ahead(cpu, no, near, quantum);
        }
    }

    // The same of a thread that no processor has, where there are steps.
    fn run_ahead(&mut self, cpu: u32, no: ThreadNo, near: Option<Ident>, quantum: &Quantum)
        requires loaded { IsNameResident (residents_of (contents_of self.old)) (Name.Thread no) }
        requires unmarked { mark_of (contents_of self.old) no ≡ None }
        requires could { OfThread (state_of self.old.machine) no.0 (λ t. CouldRun (state_of self.old.machine) t quantum.now) }
        requires views { OfThread (state_of self.old.machine) no.0 (λ t. AreOfLoaded self.old t (touched_views quantum.now.views)) }
        requires some { 0 < quantum.now.steps }
        requires left { self.old.steps + quantum.now.steps ≤ self.old.limit }
        requires write { MayWrite self.old cpu 1 }
        ensures entries { GrowsBy (Ran no quantum.now.steps cpu ∷ []) self.old self.new }
        ensures places { KeepsPlaces self.old self.new }
        ensures steps { self.new.steps ≡ self.old.steps + quantum.now.steps }
        ensures held { AreHeld self.new.machine.memory (touched_views quantum.now.views) }
    {
        let steps = quantum.steps();
        self.steps += u64::from(steps);
        note(
            &mut self.journal,
            Entry::Ran {
                thread: no,
                steps,
                cpu,
            },
        );
        take_over(
            &mut self.machine,
            &mut self.stamps,
            no,
            near,
            quantum,
            self.journal.len(),
        );
        known(&self.machine);
    }

    /// Completes the call of a loaded thread, which can be completed. Afterwards what is loaded must still stand, be fit and have
    /// all that it depends on loaded. Where memory is wanted nothing but room changes; after `make_declarable` only the thread's
    /// output may want any, and so none where the call asks for something beyond the thread.
    pub fn complete(&mut self, cpu: u32, no: ThreadNo) -> Result<(), NoMemory>
        requires loaded { IsNameResident (residents_of (contents_of self.old)) (Name.Thread no) }
        requires completable { OfThread (state_of self.old.machine) no.0 (λ t. is_completable t ≡ true) }
        requires good { AreGood (applied (state_of self.old.machine) (Complete no)) (residents_of (contents_of self.old)) }
        requires write { MayWrite self.old cpu 1 }
        ensures ok { OnOk result (GrowsBy (Completed no cpu ∷ []) self.old self.new × KeepsPlaces self.old self.new) }
        ensures err { OnErr result (IsRoomMade self.old self.new) }
        ensures enough { OfThread (state_of self.old.machine) no.0 (λ t. asked_of (state_of self.old.machine) t ≢ Nothing) → 0 < room_of (contents_of self.old) → 0 < self.old.machine.sets.room → IsOk result }
    {
        let completed = self.machine.complete(no);
        known(&self.machine);
        completed?;
        note(&mut self.journal, Entry::Completed { thread: no, cpu });
        Ok(())
    }
}

// The frame that a step may store to.
fn frame_stored(machine: &CachedMachine, next: &NextStep) -> Option<Frame>
    ensures { result ≡ frame_stored_def (state_of machine.now) next.now }
{
    match next.data_row {
        Some(Name::Mapping(space, vpn)) => match machine.row(space, vpn) {
            Some(row) if row.flags.w => Some(row.frame),
            _ => None,
        },
        _ => None,
    }
}

// The entry of one step.
fn entry_of_step(no: ThreadNo, faults: bool, cpu: u32) -> Entry
    ensures { result ≡ entry_of_step_def no faults cpu }
{
    if faults {
        Entry::Ended { thread: no, cpu }
    } else {
        Entry::Ran {
            thread: no,
            steps: 1,
            cpu,
        }
    }
}
