//! How a thread passes the time between two looks at the lock.
use std::{hint, thread};

// Pauses of the processor between two looks.
const PAUSES: u32 = 4;

// After so many looks a thread yields its processor before each further one. On free processors the value mostly comes back before that;
// where they are taken, who has it may need this one.
const MOST_LOOKS: u32 = 10;

// After so many of these it sleeps.
const MOST_YIELDS: u32 = 1_000;

// After so many sleeps a thread no longer lets others go before it.
const MOST_SLEEPS: u32 = 8;

// How often a thread has looked since it last slept, and how often it has slept.
#[derive(Drop)]
pub(crate) struct Patience {
    looks: u32,
    sleeps: u32,
}

impl Patience {
    pub(crate) fn new() -> Patience {
        Patience {
            looks: 0,
            sleeps: 0,
        }
    }

    pub(crate) fn is_exhausted(&self) -> bool {
        self.sleeps >= MOST_SLEEPS
    }

    // Lets a moment pass, or answers that it is time to sleep.
    pub(crate) fn asks_for_sleep(&mut self) -> bool {
        if self.looks >= MOST_LOOKS + MOST_YIELDS {
            self.looks = 0;
            self.sleeps = self.sleeps.saturating_add(1);
            return true;
        }
        if self.looks >= MOST_LOOKS {
            thread::yield_now();
        } else {
            for _ in 0..PAUSES {
                hint::spin_loop();
            }
        }
        self.looks += 1;
        false
    }
}
