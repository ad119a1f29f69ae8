//! How a step changes the machine.

ghost use Rattle.std.specs.Prelude.{◌≡◌, ◌%◌, ◌<◌, length, map};
ghost use Rattle.phys_groups.specs.Rows.{marked};
ghost use Rattle.flat_state.specs.State.{with_thread};
ghost use Rattle.flat_rules.specs.Readings.{OfThread};
ghost use Rattle.cached_machine.specs.Aside.{aside_of};
ghost use Rattle.cached_machine.specs.Cached.{state_of};
ghost use Rattle.cached_machine.specs.Stepping.{shows_left_by, MayCome};

use crate::machine::CachedMachine;
use crate::reading::known;
use crate::stepping::{Change, mark_named, update};
use cache_ident::{Ident, SpaceNo, ThreadNo, Vpn};
use flat_machine::store_in;
use flat_rules::Steps;
use rv32_exec::{Context, Status, Width};

impl CachedMachine {
    // Changes a thread, and notes what it can do then.
    fn change(&mut self, no: ThreadNo, near: Option<Ident>, change: Change)
        requires there { no.0 < length (state_of self.old).threads }
        requires may { OfThread (state_of self.old) no.0 (λ t. MayCome change t) }
        ensures state { OfThread (state_of self.old) no.0 (λ t. state_of self.new ≡ with_thread (state_of self.old) no.0 (shows_left_by change t)) }
        ensures rest { aside_of self.new ≡ aside_of self.old }
    {
        known(&self.tables);
        update(&mut self.tables, &mut self.sets, no, near, change);
    }

    /// Marks the row of a page as `mark` does. Where it is loaded with the identifier `near`, that takes constant time.
    pub fn mark_near(&mut self, space: SpaceNo, vpn: Vpn, near: Option<Ident>, written: bool)
        ensures state { state_of self.new ≡ record (state_of self.old) { rows = map (marked space vpn.0 written) (state_of self.old).rows } }
        ensures rest { aside_of self.new ≡ aside_of self.old }
    {
        known(&self.tables);
        mark_named(&mut self.tables, space, vpn, near, written);
    }

    /// Gives a thread its registers, its pc and what it is doing, as `put` does. Where it is loaded with the identifier `near`,
    /// that takes constant time.
    pub fn put_near(&mut self, no: ThreadNo, near: Option<Ident>, context: &Context, status: Status)
        requires there { no.0 < length (state_of self.old).threads }
        requires aligned { context.now.pc % 4 ≡ 0 }
        ensures state { OfThread (state_of self.old) no.0 (λ t. state_of self.new ≡ with_thread (state_of self.old) no.0 (record t { context = context.now; status = status })) }
        ensures rest { aside_of self.new ≡ aside_of self.old }
    {
        let context = *context;
        self.change(no, near, Change::Put { context, status });
    }
}

impl Steps for CachedMachine {
    ghost use Rattle.cached_machine.specs.Aside.{Aside, aside_of};

    ghost Rest = { Aside };

    ghost rest = { aside_of };

    fn store(&mut self, at: u32, width: Width, value: u32) {
        store_in(&mut self.memory, at, width, value);
    }

    fn mark(&mut self, space: SpaceNo, vpn: Vpn, written: bool) {
        self.mark_near(space, vpn, None, written);
    }

    fn put(&mut self, no: ThreadNo, context: &Context, status: Status) {
        self.put_near(no, None, context, status);
    }

    fn give(&mut self, no: ThreadNo, va: u32) {
        self.change(no, None, Change::Give { va });
    }

    fn answer(&mut self, no: ThreadNo, value: u32) {
        self.change(no, None, Change::Answer { value });
    }
}
