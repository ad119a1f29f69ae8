//! What processors did, and whose it was.

use cache_ident::{KernelNo, Name, NoMemory, SpaceNo, ThreadNo};
use flat_machine::{Event, Flat};
use report_text::reason_text;
use run_journal::Entry;
use rv32_exec::Status;
use std::alloc::Global;

/// What a processor did.
#[derive(Drop)]
pub(crate) enum Act {
    /// So many steps without a fault.
    Ran(u32),
    /// One step, which faulted; in words, how the thread ended.
    Ended(String),
    /// A call was completed, of that number.
    Completed(u32),
}

/// What a processor did at a place, for a thread of a kernel.
#[derive(Drop)]
pub(crate) struct Moment {
    pub place: u64,
    pub cpu: u32,
    pub thread: ThreadNo,
    pub kernel: Option<KernelNo>,
    pub act: Act,
}

/// What is known of a journal once its machine has been followed.
#[derive(Drop)]
pub(crate) struct Followed {
    /// The owner of each descriptor at its load, in order of loading.
    pub owners: Vec<Option<KernelNo>>,
    /// What processors did at the places that are drawn.
    pub moments: Vec<Moment>,
    /// The places that are drawn and have steps, each with how many.
    pub steps: Vec<(u64, u32)>,
}

fn kernel_of_thread(flat: &Flat, thread: ThreadNo) -> Option<KernelNo> {
    let found = flat.thread(thread)?;
    flat.kernel_of(found.space)
}

// The kernel that owns what has the name.
fn owner(flat: &Flat, name: Name) -> Option<KernelNo> {
    match name {
        Name::Kernel(_) => Some(KernelNo(0)),
        Name::Space(space) | Name::Mapping(space, _) => flat.kernel_of(space),
        Name::Thread(thread) => kernel_of_thread(flat, thread),
    }
}

// The number of the call that a thread is in.
fn call_of(flat: &Flat, thread: ThreadNo) -> u32 {
    match flat.thread(thread) {
        Some(found) => found.context.regs[17],
        None => 0,
    }
}

// How a thread ended.
fn ending_of(alloc: Global, flat: &Flat, thread: ThreadNo) -> Result<String, NoMemory> {
    match flat.thread(thread) {
        Some(found) => match found.status {
            Status::Ended(reason) => reason_text(alloc, reason),
            _ => String::from_str(alloc, "fault"),
        },
        None => String::from_str(alloc, "fault"),
    }
}

fn take_steps(flat: &mut Flat, thread: ThreadNo, steps: u32) -> Result<(), NoMemory> {
    for _ in 0..steps {
        flat.apply(&Event::Step(thread))?;
    }
    Ok(())
}

// Makes an entry happen to the machine, and says what it did for a thread.
fn happen(alloc: Global, flat: &mut Flat, entry: &Entry) -> Result<Option<Act>, NoMemory> {
    match *entry {
        Entry::Declared { decl } => {
            flat.apply(&Event::Declare(decl))?;
            Ok(None)
        }
        Entry::Ran { thread, steps, .. } => {
            take_steps(flat, thread, steps)?;
            Ok(Some(Act::Ran(steps)))
        }
        Entry::Ended { thread, .. } => {
            flat.apply(&Event::Step(thread))?;
            let ending = ending_of(alloc, flat, thread)?;
            Ok(Some(Act::Ended(ending)))
        }
        Entry::Completed { thread, .. } => {
            let call = call_of(flat, thread);
            flat.apply(&Event::Complete(thread))?;
            Ok(Some(Act::Completed(call)))
        }
        _ => Ok(None),
    }
}

// The thread and the processor of an entry that does something for a thread.
fn doer(entry: &Entry) -> Option<(ThreadNo, u32)> {
    match *entry {
        Entry::Ran { thread, cpu, .. }
        | Entry::Ended { thread, cpu }
        | Entry::Completed { thread, cpu } => Some((thread, cpu)),
        _ => None,
    }
}

/// How many steps something is.
pub(crate) fn steps_of(act: &Act) -> u32 {
    match act {
        Act::Ran(steps) => *steps,
        Act::Ended(_) => 1,
        Act::Completed(_) => 0,
    }
}

impl Followed {
    // Notes what was done at a place that is drawn.
    fn note(&mut self, flat: &Flat, entry: &Entry, place: u64, act: Act) -> Result<(), NoMemory> {
        let Some((thread, cpu)) = doer(entry) else {
            return Ok(());
        };
        let steps = steps_of(&act);
        if steps > 0 {
            self.steps.push((place, steps))?;
        }
        let kernel = kernel_of_thread(flat, thread);
        self.moments.push(Moment {
            place,
            cpu,
            thread,
            kernel,
            act,
        })?;
        Ok(())
    }
}

/// Follows the machine of a journal, and notes what was done from one place on and before another. It costs the journal's steps.
pub(crate) fn follow(
    alloc: Global,
    entries: &[Entry],
    from: u64,
    to: u64,
) -> Result<Followed, NoMemory> {
    let mut flat = Flat::new(alloc);
    let mut followed = Followed {
        owners: Vec::new(alloc),
        moments: Vec::new(alloc),
        steps: Vec::new(alloc),
    };
    let mut place = 0u64;
    for entry in entries {
        if let Entry::Loaded { name, .. } = *entry {
            followed.owners.push(owner(&flat, name))?;
        }
        let done = happen(alloc, &mut flat, entry)?;
        if let Some(done) = done {
            if from <= place && place < to {
                followed.note(&flat, entry, place, done)?;
            }
        }
        place = place.saturating_add(1);
    }
    Ok(followed)
}
