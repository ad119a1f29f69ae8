//! One thing that happened.

ghost use Rattle.std.specs.Prelude.{◌≡◌, ◌∷◌, ◌++◌, [], replicate, OnOk};
ghost use Rattle.run_journal.specs.Entries.{events_of};

use cache_ident::{Cause, Ident, Name, NoMemory, ThreadNo};
use flat_state::{Decl, Event};

/// One thing that happened, and on which processor. Declarations and the seal are made by processor 0.
#[derive(Clone, Copy, PartialEq, Eq, Debug)]
pub enum Entry {
    /// A declaration was made.
    Declared {
        decl: Decl,
    },
    /// No declaration follows.
    Sealed,
    /// The descriptor of that name went into its cache, under that identifier.
    Loaded {
        ident: Ident,
        name: Name,
        cpu: u32,
    },
    /// It left its cache, for that cause.
    WrittenBack {
        ident: Ident,
        cause: Cause,
        cpu: u32,
    },
    /// It is not chosen to leave for another one any more.
    Locked {
        ident: Ident,
        cpu: u32,
    },
    /// It may be chosen again.
    Unlocked {
        ident: Ident,
        cpu: u32,
    },
    /// The thread took so many steps, none of which faulted.
    Ran {
        thread: ThreadNo,
        steps: u32,
        cpu: u32,
    },
    /// The thread took one step, which faulted.
    Ended {
        thread: ThreadNo,
        cpu: u32,
    },
    /// The call that the thread was in was completed.
    Completed {
        thread: ThreadNo,
        cpu: u32,
    },
}

// A journal holds millions of them.
const _: () = prove!(size_of::<Entry>() <= 48);

/// Adds the events of an entry: what the machine with unlimited tables sees of it.
pub(crate) fn push_events(entry: &Entry, events: &mut Vec<Event>) -> Result<(), NoMemory>
    ensures { OnOk result (events.new.items ≡ events.old.items ++ events_of entry.now) }
{
    match *entry {
        Entry::Declared { decl } => push(Event::Declare(decl), events),
        Entry::Ran { thread, steps, .. } => push_steps(thread, steps, events),
        Entry::Ended { thread, .. } => push(Event::Step(thread), events),
        Entry::Completed { thread, .. } => push(Event::Complete(thread), events),
        Entry::Sealed
        | Entry::Loaded { .. }
        | Entry::WrittenBack { .. }
        | Entry::Locked { .. }
        | Entry::Unlocked { .. } => Ok(()),
    }
}

fn push(event: Event, events: &mut Vec<Event>) -> Result<(), NoMemory>
    ensures { OnOk result (events.new.items ≡ events.old.items ++ event ∷ []) }
{
    events.push(event)?;
    Ok(())
}

fn push_steps(thread: ThreadNo, steps: u32, events: &mut Vec<Event>) -> Result<(), NoMemory>
    ensures { OnOk result (events.new.items ≡ events.old.items ++ replicate steps (Event.Step thread)) }
{
    for _ in 0..steps {
        events.push(Event::Step(thread))?;
    }
    Ok(())
}
