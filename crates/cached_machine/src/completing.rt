//! The completion of a thread's call, and the parts of it that change the tables.

ghost use Rattle.std.specs.Prelude.{◌≡◌, ◌≢◌, ◌<◌, is_some, true, length, IsOk, OnErr, OnOk};
ghost use Rattle.cache_ident.specs.Residents.{IsNameResident};
ghost use Rattle.phys_groups.specs.Translation.{row_of, without};
ghost use Rattle.flat_state.specs.declared.events.Event.TheVariants.{Complete};
ghost use Rattle.flat_state.specs.Call.{is_completable};
ghost use Rattle.flat_state.specs.Events.{applied};
ghost use Rattle.flat_state.specs.State.{with_thread};
ghost use Rattle.flat_thread.specs.Calls.{own_part};
ghost use Rattle.flat_rules.specs.Readings.{OfThread};
ghost use Rattle.flat_machine.specs.flat_events.specs.Asked.{asked_of};
ghost use Rattle.board_laws.specs.desc_stores.specs.Changes.{room_of};
ghost use Rattle.board_laws.specs.desc_stores.specs.Contents.{residents_of};
ghost use Rattle.board_laws.specs.shown_state.specs.Shown.{flat_thread};
ghost use Rattle.cached_machine.specs.Cached.{state_of};
ghost use Rattle.cached_machine.specs.Moved.{IsCompleted, KeepsBeside, KeepsPost, OnlyRoom, StaysGoodIn};

use crate::machine::CachedMachine;
use crate::reading::known;
use crate::stepping::note;
use cache_ident::{Name, NoMemory, SpaceNo, ThreadNo, Vpn};
use flat_machine::events::{Asked, asks};
use flat_rules::Steps;
use flat_thread::refusal;
use thread_cache::ThreadRec;
use thread_sets::can_be_completed;

impl CachedMachine {
    /// Completes the call of a thread, which can be completed. Afterwards what is loaded must still stand, be fit and have all
    /// that it depends on loaded. Where memory is wanted nothing but room changes; after `make_room` only the thread's output
    /// may want any, and so none where the call asks for something beyond the thread.
    pub fn complete(&mut self, no: ThreadNo) -> Result<(), NoMemory>
        requires there { no.0 < length (state_of self.old).threads }
        requires completable { OfThread (state_of self.old) no.0 (λ t. is_completable t ≡ true) }
        requires good { StaysGoodIn (applied (state_of self.old) (Complete no)) self.old }
        ensures ok { OnOk result (IsCompleted no self.old self.new) }
        ensures err { OnErr result (OnlyRoom self.old self.new) }
        ensures enough { OfThread (state_of self.old) no.0 (λ t. asked_of (state_of self.old) t ≢ Asked.Nothing) → 0 < room_of self.old.held.contents → 0 < self.old.sets.room → IsOk result }
    {
        match asks(self, no) {
            Asked::Nothing => self.carry_out(no)?,
            Asked::Refused { rule } => self.answer(no, refusal(rule)),
            Asked::Declares { decl, answer } => {
                self.make_declaration(&decl)?;
                self.answer(no, answer);
            }
            Asked::Unmaps { space, vpn } => {
                self.remove_row(space, vpn);
                self.answer(no, 0);
            }
        }
        Ok(())
    }

    // Does what the call of a thread does to that thread alone.
    fn carry_out(&mut self, no: ThreadNo) -> Result<(), NoMemory>
        requires there { no.0 < length (state_of self.old).threads }
        requires completable { OfThread (state_of self.old) no.0 (λ t. is_completable t ≡ true) }
        ensures ok { OnOk result (OfThread (state_of self.old) no.0 (λ t. state_of self.new ≡ with_thread (state_of self.old) no.0 (own_part t))) }
        ensures err { OnErr result (OnlyRoom self.old self.new) }
        ensures kept { KeepsBeside self.old self.new }
    {
        known(&self.tables);
        let done = self
            .tables
            .update_thread_named(Name::Thread(no), None, |thread| own_part_of(thread));
        note(&self.tables, &mut self.sets, no, None);
        done
    }

    // Takes out the row of a page, which isn't loaded.
    fn remove_row(&mut self, space: SpaceNo, vpn: Vpn)
        requires there { is_some (row_of (state_of self.old).rows space vpn.0) ≡ true }
        requires absent { IsNameResident (residents_of self.old.held.contents) (Name.Mapping space vpn) → ⊥ }
        ensures rows { state_of self.new ≡ record (state_of self.old) { rows = without space vpn.0 (state_of self.old).rows } }
        ensures kept { KeepsBeside self.old self.new }
    {
        known(&self.tables);
        self.tables.retract(Name::Mapping(space, vpn));
    }
}

// Does what the call of a thread does to the thread alone, where it can be completed. For want of memory nothing happens.
fn own_part_of(thread: &mut ThreadRec) -> Result<(), NoMemory>
    ensures ok { OnOk result (is_completable (flat_thread thread.old) ≡ true → flat_thread thread.new ≡ own_part (flat_thread thread.old)) }
    ensures err { OnErr result (thread.new ≡ thread.old) }
    ensures kept { KeepsPost thread.old thread.new }
{
    if can_be_completed(thread) {
        flat_thread::carry_out(
            thread.no,
            &mut thread.context,
            &mut thread.status,
            &mut thread.queue,
            &mut thread.output,
        )?;
    }
    Ok(())
}
