//! Gates that keep processors until something has happened.

use processors::{Gate, Point};
use std::hint;
use std::sync::atomic::AtomicU64;
use std::sync::atomic::Ordering::SeqCst;

// How often it is looked whether a flag is raised.
const MOST_LOOKS: u32 = 100_000_000;

// A flag that is raised once.
#[derive(Drop)]
struct Flag {
    raised: AtomicU64,
}

impl Flag {
    fn new() -> Flag {
        Flag {
            raised: AtomicU64::new(0),
        }
    }

    fn raise(&self) {
        self.raised.store(1, SeqCst);
    }

    fn is_raised(&self) -> bool {
        self.raised.load(SeqCst) > 0
    }

    // Looks until it is raised. Where that takes too long, raises the other.
    fn wait_or_raise(&self, missed: &Flag) {
        for _ in 0..MOST_LOOKS {
            if self.is_raised() {
                return;
            }
            hint::spin_loop();
        }
        missed.raise();
    }
}

/// Keeps each of two processors at its first commit until the other has come to its own.
#[derive(Drop)]
pub(crate) struct Rendezvous {
    first: Flag,
    second: Flag,
    missed: Flag,
}

impl Rendezvous {
    pub(crate) fn new() -> Rendezvous {
        Rendezvous {
            first: Flag::new(),
            second: Flag::new(),
            missed: Flag::new(),
        }
    }

    /// Whether both came, and neither waited in vain.
    pub(crate) fn has_taken_place(&self) -> bool {
        self.first.is_raised() && self.second.is_raised() && !self.missed.is_raised()
    }
}

impl Gate for Rendezvous {
    fn at(&self, cpu: u32, point: Point) {
        match (cpu, point) {
            (0, Point::BeforeCommit) => {
                self.first.raise();
                self.second.wait_or_raise(&self.missed);
            }
            (1, Point::BeforeCommit) => {
                self.second.raise();
                self.first.wait_or_raise(&self.missed);
            }
            _ => {}
        }
    }
}

/// Keeps a processor in its first quantum until another thread lets it go on.
#[derive(Drop)]
pub(crate) struct Detention {
    begun: Flag,
    released: Flag,
    missed: Flag,
}

impl Detention {
    pub(crate) fn new() -> Detention {
        Detention {
            begun: Flag::new(),
            released: Flag::new(),
            missed: Flag::new(),
        }
    }

    /// Waits until the processor has begun a quantum.
    pub(crate) fn wait_for_a_quantum(&self) {
        self.begun.wait_or_raise(&self.missed);
    }

    /// Lets the processor go on.
    pub(crate) fn release(&self) {
        self.released.raise();
    }

    /// Whether the processor began a quantum, and neither thread waited in vain for the other.
    pub(crate) fn has_taken_place(&self) -> bool {
        self.begun.is_raised() && !self.missed.is_raised()
    }
}

impl Gate for Detention {
    fn at(&self, _cpu: u32, point: Point) {
        match point {
            Point::InQuantum => {
                self.begun.raise();
                self.released.wait_or_raise(&self.missed);
            }
            Point::BeforeCommit => {}
        }
    }
}
