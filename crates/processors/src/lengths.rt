//! How long quanta are where several processors share a board.

ghost use Rattle.std.specs.Prelude.{◌≡◌, replicate};
ghost use Rattle.processors.specs.Lengths.{first_length, length_after, length_for, lengths_after, runner_of};

use alone_run::turns::{Found, Quantum};
use cache_ident::ThreadNo;

// How many steps a quantum has at most to begin with, and after one that was refused.
const FIRST_STEPS: u32 = 256;

// How many it has after one that was refused and stored nothing. Such a thread mostly waits for what another one stores, in a loop: it takes a few
// steps for what it waited for, and what it stores then is to be seen soon.
const WAITING_STEPS: u32 = 64;

// How many it has at most. The hand-over of the board's memory between two processors takes as long as several hundred steps.
const LONGEST: u32 = 1_024;

// For so many threads the lengths are kept. Threads whose numbers are the same modulo this have one length.
const PLACES: usize = 16;

/// How long a thread's next quantum may be.
#[derive(Clone, Copy)]
struct Length {
    steps: u32,
    // Whether the last one was refused. The next one that is committed doesn't make it longer then.
    wary: bool,
}

const FIRST: Length = Length {
    steps: FIRST_STEPS,
    wary: false,
};

/// What a quantum came to: how many steps it took, whether it stored anything, and whether it changed neither memory nor a register, as a
/// loop does in which a thread waits for what another one stores.
#[derive(Clone, Copy)]
pub(crate) struct Ran {
    pub(crate) steps: u32,
    pub(crate) stored: bool,
    pub(crate) waited: bool,
}

impl Ran {
    pub(crate) fn nothing() -> Ran {
        Ran {
            steps: 0,
            stored: false,
            waited: false,
        }
    }

    // What this quantum came to, before its steps happen.
    pub(crate) fn of(quantum: &Quantum) -> Ran {
        let stored = quantum.views().iter().any(|view| !view.is_as_copied());
        Ran {
            steps: quantum.steps(),
            stored,
            waited: !stored && quantum.first().regs == quantum.context().regs,
        }
    }
}

// The length of a thread's next quantum, once one of that length came to this and was committed or refused.
fn length_after(length: Length, ran: Ran, committed: bool) -> Length
    ensures { result ≡ length_after length ran committed }
{
    let longer = committed && length.steps <= ran.steps && !length.wary;
    let steps = if longer {
        length.steps.saturating_mul(2).min(LONGEST)
    } else if committed {
        length.steps
    } else if ran.stored {
        FIRST_STEPS
    } else {
        WAITING_STEPS
    };
    Length {
        steps,
        wary: !committed,
    }
}

/// The thread of which a turn for whom was found may run a quantum. It is read before the turn, which writes the next one over it.
pub(crate) fn runner(found: &Found) -> Option<ThreadNo>
    ensures { result ≡ runner_of found.now }
{
    match found {
        Found::Out(ticket) => Some(ticket.no),
        _ => None,
    }
}

/// How many steps the next quantum of a thread may have. A thread that runs to the end of its quanta gets longer ones, so that the
/// board is held less often; one whose quanta are refused gets short ones, so that less is lost: of threads that write to one page each
/// goes ahead only as far as the others let it. Who was refused and stored nothing gets the shortest.
#[derive(Clone, Copy)]
pub(crate) struct Lengths {
    of_threads: [Length; PLACES],
}

impl Lengths {
    /// All are as long as to begin with.
    pub(crate) fn new() -> Lengths
        ensures { result.of_threads ≡ replicate 16 first_length }
    {
        Lengths {
            of_threads: [FIRST; PLACES],
        }
    }

    /// How many steps a turn that may run a quantum of this thread, or of none, may take in it.
    pub(crate) fn for_turn(&self, runner: Option<ThreadNo>) -> u32
        ensures { result ≡ length_for self.now.of_threads runner }
    {
        match runner {
            Some(thread) => self.of_threads[thread.0 as usize % PLACES].steps,
            None => FIRST_STEPS,
        }
    }

    /// A turn ran a quantum of this thread, if of any, which came to this, and was committed or refused.
    pub(crate) fn note(&mut self, runner: Option<ThreadNo>, ran: Ran, committed: bool)
        ensures { self.new.of_threads ≡ lengths_after self.old.of_threads runner ran committed }
    {
        if let Some(thread) = runner {
            let place = thread.0 as usize % PLACES;
            self.of_threads[place] = length_after(self.of_threads[place], ran, committed);
        }
    }
}
