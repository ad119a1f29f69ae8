//! The order of a journal's beginning.

ghost use Rattle.std.specs.Prelude.{◌≡◌, ◌↔◌, IsTrue, Some};
ghost use Rattle.cache_ident.specs.Names.{first_name};
ghost use Rattle.run_journal.specs.declared.entries.Entry.TheVariants as entries;
ghost use Rattle.run_journal.specs.Legal.{first_ident};
ghost use Rattle.run_journal.specs.Points.{IsInOrder};
ghost use Rattle.run_journal.specs.Told as told;

use cache_ident::{Ident, KernelNo, Kind, Name};
use flat_state::Decl;
use run_journal::Entry;

// The identifier that the first load gives out.
const FIRST: Ident = Ident {
    kind: Kind::Kernel,
    slot: 0,
    serial: 0,
};

const FIRST_NAME: Name = Name::Kernel(KernelNo(0));

/// Which entry is due: the machine first, and behind the seal the first kernel's load and then its lock.
#[derive(Clone, Copy, PartialEq, Eq, Debug)]
pub(crate) enum Due {
    Machine,
    FirstLoad,
    FirstLock,
    Anything,
}

impl Due {
    ghost use Rattle.journal_facts.specs.Order.{beginning_of};

    /// Whether the entry is the one that is due.
    pub(crate) fn is_met(self, here: Option<Entry>) -> bool
        ensures { (due : told.Due) → self ≡ beginning_of due → (IsTrue result ↔ IsInOrder due here) }
    {
        match self {
            Due::Machine => is_machine(here),
            Due::FirstLoad => is_first_load(here),
            Due::FirstLock => is_first_lock(here),
            Due::Anything => true,
        }
    }

    /// What is due behind one load more than so many: behind the first one its lock.
    pub(crate) fn behind_load(loads: u64) -> Due
        ensures { result ≡ beginning_of (told.due_after_load loads) }
    {
        if loads == 0 {
            Due::FirstLock
        } else {
            Due::Anything
        }
    }
}

fn is_machine(here: Option<Entry>) -> bool
    ensures { IsTrue result ↔ IsInOrder told.Opening here }
{
    match here {
        Some(
            Entry::Declared {
                decl: Decl::Machine { .. },
            },
        ) => true,
        _ => false,
    }
}

fn is_first_load(here: Option<Entry>) -> bool
    ensures { IsTrue result ↔ (here ≡ Some (entries.Loaded first_ident first_name 0)) }
{
    match here {
        Some(Entry::Loaded { ident, name, cpu }) => ident == FIRST
            && name == FIRST_NAME
            && cpu == 0,
        _ => false,
    }
}

fn is_first_lock(here: Option<Entry>) -> bool
    ensures { IsTrue result ↔ (here ≡ Some (entries.Locked first_ident 0)) }
{
    match here {
        Some(Entry::Locked { ident, cpu }) => ident == FIRST && cpu == 0,
        _ => false,
    }
}
