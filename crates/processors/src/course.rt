//! How a processor's turns follow each other, where several share a board.

ghost use Rattle.std.specs.Prelude.{◌≡◌, ◌⊎◌, true};
ghost use Rattle.alone_run.specs.board_turns.specs.Paces.{beat_of, paced};
ghost use Rattle.processors.specs.Lengths.{lengths_after, ran_by};

use crate::lengths::{Lengths, Ran};
use crate::waiting::Waiting;
use alone_run::turns::Pace;
use cache_ident::ThreadNo;

// So many quanta in a row may be refused before turns that bring nothing are counted.
const MOST_REFUSALS: u32 = 16;

/// Where a processor is in its turns, how long quanta are, how many of its quanta were refused in a row, and how long they have waited.
///
/// A quantum is refused where another processor stored to its pages meanwhile. It is tried again with fewer steps, and its turn isn't counted
/// among those that bring nothing: the turn that has to bring something takes one step alone, and where that stores to such a page,
/// the quanta of all others are refused for it. Only where very many were refused in a row, the processor needs that turn.
#[derive(Clone, Copy)]
pub(crate) struct Course {
    pub(crate) pace: Pace,
    pub(crate) lengths: Lengths,
    refusals: u32,
    waiting: Waiting,
}

impl Course {
    /// Before the first turn.
    pub(crate) fn new() -> Course {
        Course {
            pace: Pace::new(),
            lengths: Lengths::new(),
            refusals: 0,
            waiting: Waiting::new(),
        }
    }

    /// A turn was taken for this thread, or for none, that left the processor at `pace`. Where it ran a quantum, that came to `ran`; and it
    /// brought something, or nothing. Behind one whose thread waits, time passes.
    pub(crate) fn go_on(&mut self, runner: Option<ThreadNo>, pace: Pace, ran: Ran, brought: bool)
        ensures lengths { self.new.lengths.of_threads ≡ lengths_after self.old.lengths.of_threads (ran_by (beat_of self.old.pace) runner ran) ran brought }
        ensures pace { (beat_of self.new.pace ≡ beat_of pace) ⊎ (beat_of self.new.pace ≡ paced true (beat_of self.old.pace)) }
    {
        // A turn that has to bring something runs no quantum, and one of no steps says nothing of its thread: its first page wasn't there.
        let runner = if self.pace.must_bring() || ran.steps == 0 {
            None
        } else {
            runner
        };
        self.lengths.note(runner, ran, brought);
        let refused = runner.is_some() && !brought;
        self.refusals = if refused {
            self.refusals.saturating_add(1)
        } else {
            0
        };
        self.pace = if refused && self.refusals <= MOST_REFUSALS {
            self.pace.after(true)
        } else {
            pace
        };
        if runner.is_some() && ran.waited {
            self.waiting.go_on();
        } else {
            self.waiting = Waiting::new();
        }
    }
}
