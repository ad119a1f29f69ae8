//! Which processor has which thread.

ghost use Rattle.std.specs.Prelude.{◌≡◌, true, None, Some, IsSome};
ghost use Rattle.cache_ident.specs.declared.names.ThreadNo.{ThreadNo};
ghost use Rattle.board_laws.specs.desc_stores.specs.Contents.{content_of};
ghost use Rattle.cached_machine.specs.Cached.{is_loaded};
ghost use Rattle.cached_machine.specs.Posts.{but_at, last_of, mark_of, OnlyPosts};

use crate::machine::CachedMachine;
use crate::posts::{Post, bring_back, send, threads_out};
use crate::reading::known;
use board_laws::ItemRef;
use cache_ident::{Ident, Name, ThreadNo};

impl CachedMachine {
    /// A loaded thread goes to a processor, by the checkout of that number. Where it is loaded with the identifier `near`, that
    /// takes constant time.
    pub fn check_out(&mut self, no: ThreadNo, near: Option<Ident>, cpu: u32, number: u64)
        requires loaded { is_loaded self.old.held.contents (Name.Thread no) ≡ true }
        ensures rest { self.new ≡ record self.old { held = self.new.held } }
        ensures only { OnlyPosts self.old.held self.new.held }
        ensures marks { (other : ThreadNo) → mark_of self.new.held.contents other ≡ but_at no (Some cpu) (mark_of self.old.held.contents) other }
        ensures lasts { (other : ThreadNo) → last_of self.new.held.contents other ≡ but_at no number (last_of self.old.held.contents) other }
    {
        known(&self.tables);
        send(&mut self.tables, no, near, Post::Out { cpu, number });
    }

    /// A thread that there is comes away from its processor, if one has it. Where it is loaded with the identifier `near`, that
    /// takes constant time.
    pub fn check_in(&mut self, no: ThreadNo, near: Option<Ident>)
        requires there { IsSome (content_of self.old.held.contents (Name.Thread no)) }
        ensures rest { self.new ≡ record self.old { held = self.new.held } }
        ensures only { OnlyPosts self.old.held self.new.held }
        ensures marks { (other : ThreadNo) → mark_of self.new.held.contents other ≡ but_at no None (mark_of self.old.held.contents) other }
        ensures lasts { (other : ThreadNo) → last_of self.new.held.contents other ≡ last_of self.old.held.contents other }
    {
        known(&self.tables);
        send(&mut self.tables, no, near, Post::In);
    }

    /// No thread is on a processor any more. It takes a time for each slot of the cache of threads, and a search for each thread
    /// that was on one.
    pub fn check_in_all(&mut self)
        ensures rest { self.new ≡ record self.old { held = self.new.held } }
        ensures only { OnlyPosts self.old.held self.new.held }
        ensures marks { (no : ThreadNo) → mark_of self.new.held.contents no ≡ None }
        ensures lasts { (no : ThreadNo) → last_of self.new.held.contents no ≡ last_of self.old.held.contents no }
    {
        let out = threads_out(&self.tables);
        bring_back(&mut self.tables, &out);
    }

    /// The processor that has a thread: only a loaded one is on any. Where it is loaded with the identifier `near`, that takes
    /// constant time.
    pub fn processor_of(&self, no: ThreadNo, near: Option<Ident>) -> Option<u32>
        ensures mark { result ≡ mark_of self.now.held.contents no }
        ensures loaded { IsSome result → is_loaded self.now.held.contents (Name.Thread no) ≡ true }
    {
        match self.tables.item_near(Name::Thread(no), near) {
            Some(ItemRef::Thread(thread)) => thread.on_cpu,
            _ => None,
        }
    }
}
