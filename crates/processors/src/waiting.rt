//! How a processor passes the time while its threads wait.

use std::{hint, thread};

// A pause is the time waited so far, divided by this.
const PART: u32 = 4;

// The longest pause, in pauses of the processor.
const LONGEST: u32 = 16_384;

// What a quantum that waits counts, beside its pause.
const QUANTUM: u32 = 256;

// Who has waited for so many pauses most likely waits for nobody who will come, and pauses no more.
const PATIENCE: u32 = 1 << 24;

/// How long quanta whose threads wait have followed each other, in pauses of the processor.
///
/// A thread that waits takes a hundred steps in a microsecond, and whom it waits for may be without a processor of the system's own for
/// milliseconds. So behind each such quantum the processor pauses, a quarter as long as it has waited so far: hardly at all where the other
/// one runs and will soon be done, and so long where it doesn't that few steps are taken. Where two threads wait for each other in turn, each of
/// them waits for the pauses of the other too; of a quarter of the time waited less comes back each time.
#[derive(Clone, Copy)]
pub(crate) struct Waiting {
    pauses: u32,
}

impl Waiting {
    /// Nobody has waited.
    pub(crate) fn new() -> Waiting {
        Waiting { pauses: 0 }
    }

    /// Lets time pass behind one more such quantum.
    pub(crate) fn go_on(&mut self) {
        // The processor whose thread stores what this one waits for may have none of the system's own just now.
        thread::yield_now();
        if self.pauses >= PATIENCE {
            return;
        }
        let pause = (self.pauses / PART).min(LONGEST);
        for _ in 0..pause {
            hint::spin_loop();
        }
        self.pauses += pause + QUANTUM;
    }
}
