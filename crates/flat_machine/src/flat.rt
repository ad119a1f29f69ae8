//! The machine and what can be read off it.

ghost use Rattle.std.specs.Prelude.{◌≡◌, ◌<◌, ◌^◌, None, Some, MatchResult, length, slice_get};
ghost use Rattle.std.specs.Option.{option_copied, option_map};
ghost use Rattle.phys_groups.specs.Translation.{row_of};
ghost use Rattle.flat_state.specs.State.{nothing_declared};
ghost use Rattle.flat_state.specs.Declaration.{broken_rule};
ghost use Rattle.flat_state.specs.Dependence.{parents as parents_def};
ghost use Rattle.flat_state.specs.NextSteps.{next_step as next_step_def};
ghost use Rattle.flat_state.specs.Settling.{settled_of};
ghost use Rattle.flat_rules.specs.Readings.{is_fit_page};

use arrayvec::ArrayVec;
use cache_ident::{Caps, KernelNo, Name, SpaceNo, ThreadNo, Vpn};
use flat_state::{Decl, FlatKernel, FlatThread, Machine, NextStep, Settled};
use phys_groups::{Memory, Row};
use row_table::{RowTable, Rows};
use std::alloc::Global;
use std::marker::Model;

/// The machine with unlimited tables.
///
/// A contract sees the state that `flat_state` defines. Nothing is ever displaced, and nothing is bounded by a
/// capacity.
#[derive(Drop)]
pub struct Flat {
    pub(crate) alloc: Global,
    pub(crate) machine: Option<Machine>,
    pub(crate) memory: Memory,
    pub(crate) kernels: Vec<FlatKernel>,
    // The lock limits of all kernels, summed.
    pub(crate) granted: Caps,
    pub(crate) spaces: Vec<KernelNo>,
    pub(crate) rows: RowTable,
    pub(crate) threads: Vec<FlatThread>,
}

impl Model for Flat {
    ghost use Rattle.std.specs.Prelude.{◌≡◌};
    ghost use Rattle.flat_state.specs.State.{FlatState};
    ghost use Rattle.flat_machine.specs.Readings.{IsSound};

    ghost Value = { FlatState };

    ghost view = { λ f. record { machine = f.machine; memory = f.memory; kernels = f.kernels.items; spaces = f.spaces.items; rows = f.rows; threads = f.threads.items } };

    ghost invariant = { λ f. IsSound f.machine f.memory f.kernels.items f.granted f.spaces.items f.rows f.threads.items };
}

impl Flat {
    /// The machine before any declaration. It takes no memory.
    pub fn new(alloc: Global) -> Flat
        ensures { result ≡ nothing_declared }
    {
        Flat {
            alloc,
            machine: None,
            memory: Memory::empty(alloc),
            kernels: Vec::new(alloc),
            granted: Caps::default(),
            spaces: Vec::new(alloc),
            rows: RowTable::new(alloc),
            threads: Vec::new(alloc),
        }
    }

    /// How many spaces there are.
    pub fn spaces(&self) -> u32
        ensures { result ≡ length self.now.spaces }
    {
        self.spaces.len() as u32
    }

    /// How many threads there are.
    pub fn threads(&self) -> u32
        ensures { result ≡ length self.now.threads }
    {
        self.threads.len() as u32
    }

    /// The rows in declared order. To go over them all takes a time linear in the rows.
    pub fn rows(&self) -> Rows<'_>
        ensures rows { result ≡ self.now.rows }
        ensures few { length self.now.rows < 2 ^ 63 }
    {
        self.rows.iter()
    }

    /// The thread of that number, and none where there is none. Constant time.
    pub fn thread(&self, no: ThreadNo) -> Option<&FlatThread>
        ensures { option_copied result ≡ slice_get self.now.threads no.0 }
    {
        self.threads.get(no.0 as usize)
    }

    /// The row of that page, and none where there is none. It costs the logarithm of the rows.
    pub fn row(&self, space: SpaceNo, vpn: Vpn) -> Option<&Row>
        ensures { option_copied result ≡ row_of self.now.rows space vpn.0 }
    {
        self.rows.get(space, vpn)
    }

    /// The capacities that were declared, and none before the machine was. Constant time.
    pub fn caps(&self) -> Option<Caps>
        ensures { result ≡ option_map (λ m. m.caps) self.now.machine }
    {
        self.machine.map(|machine| machine.caps)
    }

    /// The lock limits of a kernel, and none where there is no such kernel. Constant time.
    pub fn limits(&self, kernel: KernelNo) -> Option<Caps>
        ensures { result ≡ option_map (λ k. k.limits) (slice_get self.now.kernels kernel.0) }
    {
        let kernel = self.kernels.get(kernel.0 as usize)?;
        Some(kernel.limits)
    }

    /// The kernel of a space, and none where there is no such space. Constant time.
    pub fn kernel_of(&self, space: SpaceNo) -> Option<KernelNo>
        ensures { result ≡ slice_get self.now.spaces space.0 }
    {
        self.spaces.get(space.0 as usize).copied()
    }

    /// Whether there is a row of that page and it is fit: the rights of its space's kernel cover its flags on its
    /// frame. It costs the logarithm of the rows.
    pub fn is_fit(&self, space: SpaceNo, vpn: Vpn) -> bool
        ensures { result ≡ is_fit_page self.now (row_of self.now.rows space vpn.0) }
    {
        flat_rules::is_fit(self, space, vpn)
    }

    /// Whether a run of so many steps is over, at that limit. It goes over the threads once at most, and no further
    /// than to one that can go on. Of each it looks at the status, of one that is ready at the next step, and of one
    /// in a call at the queue.
    pub fn settled(&self, steps: u64, limit: u64) -> Settled
        ensures { result ≡ settled_of self.now steps limit }
    {
        flat_rules::settled(self, steps, limit)
    }

    /// What can be said of a thread's next step, and none where there is no such thread. It costs the logarithm of
    /// the rows.
    pub fn next_step(&self, no: ThreadNo) -> Option<NextStep>
        ensures { result ≡ next_step_def self.now no.0 }
    {
        flat_rules::next_step(self, no)
    }

    /// What a descriptor depends on: a space on its kernel, a thread on its space, a row on its space and on its
    /// receiver, if it has one, and a message row also on each fit signal row of its frame. They come in this order,
    /// and signal rows in declared order. A kernel depends on nothing, and there is nothing for what isn't there. It
    /// costs the logarithm of the rows.
    pub fn parents(&self, child: Name) -> ArrayVec<Name, 6>
        ensures { result.items ≡ parents_def self.now child }
    {
        flat_rules::parents(self, child)
    }

    /// Whether the declaration breaks a rule, and which one it breaks first, as `flat_rules::admit` has them. It costs
    /// the logarithm of the rows.
    pub fn admit(&self, decl: &Decl) -> Result<(), u32>
        ensures { MatchResult result (λ _. broken_rule self.now decl.now ≡ None) (λ rule. broken_rule self.now decl.now ≡ Some rule) }
    {
        flat_rules::admit(self, decl)
    }
}
