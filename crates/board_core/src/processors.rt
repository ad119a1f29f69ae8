//! Threads on processors. None of it writes an entry.

ghost use Rattle.std.specs.Prelude.{◌≡◌, ◌<◌, true, None, Some, IsSome};
ghost use Rattle.cache_ident.specs.declared.names.ThreadNo.{ThreadNo};
ghost use Rattle.rv32_exec.specs.declared.statuses.Status.TheVariants.{Ready};
ghost use Rattle.flat_rules.specs.Readings.{OfThread};
ghost use Rattle.cached_machine.specs.desc_stores.specs.Contents.{content_of};
ghost use Rattle.cached_machine.specs.Cached.{is_loaded, state_of};
ghost use Rattle.cached_machine.specs.Posts.{but_at, last_of, mark_of, OnlyPosts};
ghost use Rattle.board_core.specs.Core.{contents_of};
ghost use Rattle.board_core.specs.Growth.{one_more};

use crate::core_record::{Core, known};
use cache_ident::{Ident, Name, ThreadNo};

impl Core {
    /// A loaded thread, which is ready, goes to a processor. The count of checkouts rises, and is the thread's last one. Where the
    /// thread is loaded with the identifier `near`, that takes constant time.
    pub fn check_out(&mut self, cpu: u32, no: ThreadNo, near: Option<Ident>)
        requires processor { cpu < 8 }
        requires loaded { is_loaded (contents_of self.old) (Name.Thread no) ≡ true }
        requires ready { OfThread (state_of self.old.machine) no.0 (λ t. t.status ≡ Ready) }
        ensures only { OnlyPosts self.old.machine.held self.new.machine.held }
        ensures rest { self.new ≡ record self.old { machine = record self.old.machine { held = self.new.machine.held }; checkouts = one_more self.old.checkouts } }
        ensures marks { (other : ThreadNo) → mark_of (contents_of self.new) other ≡ but_at no (Some cpu) (mark_of (contents_of self.old)) other }
        ensures lasts { (other : ThreadNo) → last_of (contents_of self.new) other ≡ but_at no (one_more self.old.checkouts) (last_of (contents_of self.old)) other }
    {
        self.checkouts = self.checkouts.saturating_add(1);
        self.machine.check_out(no, near, cpu, self.checkouts);
        known(&self.machine);
    }

    /// A thread that there is comes away from its processor, if one has it. Where it is loaded with the identifier `near`, that
    /// takes constant time.
    pub fn check_in(&mut self, no: ThreadNo, near: Option<Ident>)
        requires there { IsSome (content_of (contents_of self.old) (Name.Thread no)) }
        ensures only { OnlyPosts self.old.machine.held self.new.machine.held }
        ensures rest { self.new ≡ record self.old { machine = record self.old.machine { held = self.new.machine.held } } }
        ensures marks { (other : ThreadNo) → mark_of (contents_of self.new) other ≡ but_at no None (mark_of (contents_of self.old)) other }
        ensures lasts { (other : ThreadNo) → last_of (contents_of self.new) other ≡ last_of (contents_of self.old) other }
    {
        self.machine.check_in(no, near);
        known(&self.machine);
    }

    /// No thread is on a processor any more.
    pub fn check_in_all(&mut self)
        ensures only { OnlyPosts self.old.machine.held self.new.machine.held }
        ensures rest { self.new ≡ record self.old { machine = record self.old.machine { held = self.new.machine.held } } }
        ensures marks { (no : ThreadNo) → mark_of (contents_of self.new) no ≡ None }
        ensures lasts { (no : ThreadNo) → last_of (contents_of self.new) no ≡ last_of (contents_of self.old) no }
    {
        self.machine.check_in_all();
        known(&self.machine);
    }
}
