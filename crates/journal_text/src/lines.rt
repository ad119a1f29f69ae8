//! The entry whose line stands at the front of the bytes.

ghost use Rattle.text_fields.specs.Reading.{Gives};
ghost use Rattle.journal_text.specs.Reading.{machine_at, kernel_at, right_at, space_at, thread_at, map_at, word_decl_at, decl_at, loaded_at, back_at, lock_at, ran_at, thread_line_at, other_at, entry_at};

use crate::fields::{caps, cause, cpu, field, flags, ident, name, receiver, rights, word};
use cache_ident::{Frame, Ident, KernelNo, SpaceNo, ThreadNo, Vpn};
use flat_state::{Decl, Machine};
use run_journal::Entry;
use text_fields::skip;

#[tactic(auto, unfolding(crate::specs::Reading::machine_at))]
fn machine(bytes: &[u8]) -> Option<Decl>
    ensures { Gives (λ x. x) result (machine_at bytes.now) }
{
    let (groups, rest) = field(bytes)?;
    let (caps, _) = caps(rest)?;
    Some(Decl::Machine {
        machine: Machine { groups, caps },
    })
}

#[tactic(auto, unfolding(crate::specs::Reading::kernel_at))]
fn kernel(bytes: &[u8]) -> Option<Decl>
    ensures { Gives (λ x. x) result (kernel_at bytes.now) }
{
    let (no, rest) = field(bytes)?;
    let (limits, _) = caps(rest)?;
    Some(Decl::Kernel {
        no: KernelNo(no),
        limits,
    })
}

#[tactic(auto, unfolding(crate::specs::Reading::right_at))]
fn right(bytes: &[u8]) -> Option<Decl>
    ensures { Gives (λ x. x) result (right_at bytes.now) }
{
    let (kernel, rest) = field(bytes)?;
    let (group, rest) = field(rest)?;
    let (read, write) = rights(rest)?;
    Some(Decl::Right {
        kernel: KernelNo(kernel),
        group,
        read,
        write,
    })
}

#[tactic(auto, unfolding(crate::specs::Reading::space_at))]
fn space(bytes: &[u8]) -> Option<Decl>
    ensures { Gives (λ x. x) result (space_at bytes.now) }
{
    let (no, rest) = field(bytes)?;
    let (kernel, _) = field(rest)?;
    Some(Decl::Space {
        no: SpaceNo(no),
        kernel: KernelNo(kernel),
    })
}

#[tactic(auto, unfolding(crate::specs::Reading::thread_at))]
fn thread(bytes: &[u8]) -> Option<Decl>
    ensures { Gives (λ x. x) result (thread_at bytes.now) }
{
    let (no, rest) = field(bytes)?;
    let (space, rest) = field(rest)?;
    let (pc, rest) = field(rest)?;
    let (priority, rest) = field(rest)?;
    let (a0, rest) = field(rest)?;
    let (a1, _) = field(rest)?;
    Some(Decl::Thread {
        no: ThreadNo(no),
        space: SpaceNo(space),
        pc,
        priority,
        a0,
        a1,
    })
}

#[tactic(auto, unfolding(crate::specs::Reading::map_at))]
fn map(bytes: &[u8]) -> Option<Decl>
    ensures { Gives (λ x. x) result (map_at bytes.now) }
{
    let (space, rest) = field(bytes)?;
    let (vpn, rest) = field(rest)?;
    let (frame, rest) = field(rest)?;
    let (flags, rest) = flags(rest)?;
    Some(Decl::Map {
        space: SpaceNo(space),
        vpn: Vpn(vpn),
        frame: Frame(frame),
        flags,
        receiver: receiver(rest)?,
    })
}

#[tactic(auto, unfolding(crate::specs::Reading::word_decl_at))]
fn word_decl(bytes: &[u8]) -> Option<Decl>
    ensures { Gives (λ x. x) result (word_decl_at bytes.now) }
{
    let (frame, rest) = field(bytes)?;
    let (offset, rest) = field(rest)?;
    Some(Decl::Word {
        frame: Frame(frame),
        offset,
        value: word(rest)?,
    })
}

// The declaration at the front, by its first word.
#[tactic(auto, unfolding(crate::specs::Reading::decl_at))]
fn decl(bytes: &[u8]) -> Option<Decl>
    ensures { Gives (λ x. x) result (decl_at bytes.now) }
{
    if let Some(rest) = skip(bytes, b"map") {
        return map(rest);
    }
    if let Some(rest) = skip(bytes, b"word") {
        return word_decl(rest);
    }
    if let Some(rest) = skip(bytes, b"thread") {
        return thread(rest);
    }
    if let Some(rest) = skip(bytes, b"space") {
        return space(rest);
    }
    if let Some(rest) = skip(bytes, b"right") {
        return right(rest);
    }
    if let Some(rest) = skip(bytes, b"kernel") {
        return kernel(rest);
    }
    machine(skip(bytes, b"machine")?)
}

#[tactic(auto, unfolding(crate::specs::Reading::loaded_at))]
fn loaded(bytes: &[u8]) -> Option<Entry>
    ensures { Gives (λ x. x) result (loaded_at bytes.now) }
{
    let (ident, rest) = ident(bytes)?;
    let (name, rest) = name(rest)?;
    Some(Entry::Loaded {
        ident,
        name,
        cpu: cpu(rest)?,
    })
}

#[tactic(auto, unfolding(crate::specs::Reading::back_at))]
fn back(bytes: &[u8]) -> Option<Entry>
    ensures { Gives (λ x. x) result (back_at bytes.now) }
{
    let (ident, rest) = ident(bytes)?;
    let (cause, rest) = cause(rest)?;
    Some(Entry::WrittenBack {
        ident,
        cause,
        cpu: cpu(rest)?,
    })
}

// An identifier and a processor.
#[tactic(auto, unfolding(crate::specs::Reading::lock_at))]
fn lock(bytes: &[u8]) -> Option<(Ident, u32)>
    ensures { Gives (λ x. x) result (lock_at bytes.now) }
{
    let (ident, rest) = ident(bytes)?;
    Some((ident, cpu(rest)?))
}

#[tactic(auto, unfolding(crate::specs::Reading::ran_at))]
fn ran(bytes: &[u8]) -> Option<Entry>
    ensures { Gives (λ x. x) result (ran_at bytes.now) }
{
    let (thread, rest) = field(bytes)?;
    let (steps, rest) = field(rest)?;
    Some(Entry::Ran {
        thread: ThreadNo(thread),
        steps,
        cpu: cpu(rest)?,
    })
}

// A thread and a processor.
#[tactic(auto, unfolding(crate::specs::Reading::thread_line_at))]
fn thread_line(bytes: &[u8]) -> Option<(ThreadNo, u32)>
    ensures { Gives (λ x. x) result (thread_line_at bytes.now) }
{
    let (thread, rest) = field(bytes)?;
    Some((ThreadNo(thread), cpu(rest)?))
}

// The entry at the front that is no declaration, by its first word.
#[tactic(auto, unfolding(crate::specs::Reading::other_at))]
fn other(bytes: &[u8]) -> Option<Entry>
    ensures { Gives (λ x. x) result (other_at bytes.now) }
{
    if let Some(rest) = skip(bytes, b"ran") {
        return ran(rest);
    }
    if let Some(rest) = skip(bytes, b"loaded ") {
        return loaded(rest);
    }
    if let Some(rest) = skip(bytes, b"back ") {
        return back(rest);
    }
    if let Some(rest) = skip(bytes, b"completed") {
        let (thread, cpu) = thread_line(rest)?;
        return Some(Entry::Completed { thread, cpu });
    }
    if let Some(rest) = skip(bytes, b"ended") {
        let (thread, cpu) = thread_line(rest)?;
        return Some(Entry::Ended { thread, cpu });
    }
    if let Some(rest) = skip(bytes, b"locked ") {
        let (ident, cpu) = lock(rest)?;
        return Some(Entry::Locked { ident, cpu });
    }
    if let Some(rest) = skip(bytes, b"unlocked ") {
        let (ident, cpu) = lock(rest)?;
        return Some(Entry::Unlocked { ident, cpu });
    }
    skip(bytes, b"sealed")?;
    Some(Entry::Sealed)
}

/// The one entry whose line may stand at the front of the bytes. Whether it stands there is to be seen by comparing
/// the bytes with its line.
#[tactic(auto, unfolding(crate::specs::Reading::entry_at))]
pub fn entry_at(bytes: &[u8]) -> Option<Entry>
    ensures { Gives (λ x. x) result (entry_at bytes.now) }
{
    if let Some(entry) = other(bytes) {
        return Some(entry);
    }
    let decl = decl(bytes)?;
    Some(Entry::Declared { decl })
}
