//! The line of an entry, and the lines of a journal.

ghost use Rattle.std.specs.Prelude.{◌≡◌, ◌++◌, OnOk, IfOk, codes};
ghost use Rattle.std.specs.Fmt.{decimal};
ghost use Rattle.std.specs.List.{flat_map, AllByRecursion};
ghost use Rattle.text_fields.specs.Numbers.{word_text};
ghost use Rattle.cache_ident.specs.Idents.{ident_text, cause_text};
ghost use Rattle.cache_ident.specs.Names.{name_text};
ghost use Rattle.journal_text.specs.Lines.{field, caps_text, rights_text, flag_text, flags_text, receiver_text, cpu_text, decl_text, entry_text, line, journal_text};
ghost use Rattle.journal_text.specs.Ranges.{AreCapsInRange, AreInRange, IsDeclInRange, IsIdentInRange, IsInRange, IsNameInRange, IsReceiverInRange, IsSmall};

use cache_ident::{Caps, Cause, Ident, Name, NoMemory, ThreadNo};
use flat_state::Decl;
use itoa::Buffer;
use phys_groups::Flags;
use run_journal::{Entry, Journal};
use std::alloc::Global;
use text_fields::put_word;

/// Adds a number in decimal.
pub fn put_number(out: &mut Vec<u8>, number: u64) -> Result<(), NoMemory>
    ensures { OnOk result (out.new.items ≡ out.old.items ++ decimal number) }
{
    let mut buffer = Buffer::new();
    out.extend_from_slice(buffer.format(number).as_bytes())
}

/// Adds a space and a number.
#[tactic(auto, unfolding(crate::specs::Lines::field))]
pub fn put_field(out: &mut Vec<u8>, value: u32) -> Result<(), NoMemory>
    ensures text { OnOk result (out.new.items ≡ out.old.items ++ field value) }
    ensures small { IsSmall value }
{
    out.extend_from_slice(b" ")?;
    put_number(out, u64::from(value))
}

#[tactic(auto, unfolding(crate::specs::Lines::caps_text))]
fn put_caps(out: &mut Vec<u8>, caps: Caps) -> Result<(), NoMemory>
    ensures text { OnOk result (out.new.items ≡ out.old.items ++ caps_text caps) }
    ensures small { OnOk result (AreCapsInRange caps) }
{
    put_field(out, caps.kernels)?;
    put_field(out, caps.spaces)?;
    put_field(out, caps.threads)?;
    put_field(out, caps.mappings)
}

// The letter, where the flag is set.
fn put_flag(out: &mut Vec<u8>, is_set: bool, letter: &[u8]) -> Result<(), NoMemory>
    ensures { OnOk result (out.new.items ≡ out.old.items ++ flag_text is_set letter.now) }
{
    if is_set {
        out.extend_from_slice(letter)?;
    }
    Ok(())
}

/// Adds what a right allows: `r`, `w` or both, and `-` where it allows neither.
pub fn put_rights(out: &mut Vec<u8>, read: bool, write: bool) -> Result<(), NoMemory>
    ensures { OnOk result (out.new.items ≡ out.old.items ++ rights_text read write) }
{
    put_flag(out, read, b"r")?;
    put_flag(out, write, b"w")?;
    put_flag(out, !(read || write), b"-")
}

/// Adds the letters of the flags that are set, in the order `rwxm`, and `-` where none is.
pub fn put_flags(out: &mut Vec<u8>, flags: Flags) -> Result<(), NoMemory>
    ensures { OnOk result (out.new.items ≡ out.old.items ++ flags_text flags) }
{
    put_flag(out, flags.r, b"r")?;
    put_flag(out, flags.w, b"w")?;
    put_flag(out, flags.x, b"x")?;
    put_flag(out, flags.m, b"m")?;
    put_flag(out, !(flags.r || flags.w || flags.x || flags.m), b"-")
}

fn put_receiver(out: &mut Vec<u8>, receiver: Option<ThreadNo>) -> Result<(), NoMemory>
    ensures text { OnOk result (out.new.items ≡ out.old.items ++ receiver_text receiver) }
    ensures small { OnOk result (IsReceiverInRange receiver) }
{
    match receiver {
        Some(thread) => put_field(out, thread.0),
        None => out.extend_from_slice(b" -"),
    }
}

/// Adds an identifier: the letter of its kind, its slot, a dot and its serial.
pub fn put_ident(out: &mut Vec<u8>, ident: Ident) -> Result<(), NoMemory>
    ensures text { OnOk result (out.new.items ≡ out.old.items ++ ident_text ident) }
    ensures range { OnOk result (IsIdentInRange ident) }
{
    out.push(ident.kind.letter() as u8)?;
    put_number(out, u64::from(ident.slot))?;
    out.extend_from_slice(b".")?;
    put_number(out, ident.serial)
}

fn put_name(out: &mut Vec<u8>, name: Name) -> Result<(), NoMemory>
    ensures text { OnOk result (out.new.items ≡ out.old.items ++ name_text name) }
    ensures range { OnOk result (IsNameInRange name) }
{
    match name {
        Name::Kernel(no) => put_named(out, b"kernel ", no.0),
        Name::Space(no) => put_named(out, b"space ", no.0),
        Name::Thread(no) => put_named(out, b"thread ", no.0),
        Name::Mapping(space, vpn) => {
            put_named(out, b"row ", space.0)?;
            put_named(out, b" ", vpn.0)
        }
    }
}

fn put_named(out: &mut Vec<u8>, kind: &[u8], no: u32) -> Result<(), NoMemory>
    ensures text { OnOk result (out.new.items ≡ out.old.items ++ (kind.now ++ decimal no)) }
    ensures small { IsSmall no }
{
    out.extend_from_slice(kind)?;
    put_number(out, u64::from(no))
}

fn put_cause(out: &mut Vec<u8>, cause: Cause) -> Result<(), NoMemory>
    ensures { OnOk result (out.new.items ≡ out.old.items ++ cause_text cause) }
{
    match cause {
        Cause::Displaced => out.extend_from_slice(b"displaced"),
        Cause::Dependent => out.extend_from_slice(b"dependent"),
        Cause::Unloaded => out.extend_from_slice(b"unloaded"),
    }
}

#[tactic(auto, unfolding(crate::specs::Lines::cpu_text))]
fn put_cpu(out: &mut Vec<u8>, cpu: u32) -> Result<(), NoMemory>
    ensures text { OnOk result (out.new.items ≡ out.old.items ++ cpu_text cpu) }
    ensures small { IsSmall cpu }
{
    out.extend_from_slice(b" cpu")?;
    put_field(out, cpu)
}

// A space and a word.
fn put_value(out: &mut Vec<u8>, value: u32) -> Result<(), NoMemory>
    ensures text { OnOk result (out.new.items ≡ out.old.items ++ (codes " " ++ word_text value)) }
    ensures small { IsSmall value }
{
    out.extend_from_slice(b" ")?;
    put_word(out, value)
}

// A word, and then numbers.
fn put_fields(out: &mut Vec<u8>, word: &[u8], fields: &[u32]) -> Result<(), NoMemory>
    ensures text { OnOk result (out.new.items ≡ out.old.items ++ (word.now ++ flat_map field fields.now)) }
    ensures small { OnOk result (AllByRecursion IsSmall fields.now) }
{
    out.extend_from_slice(word)?;
    for value in fields {
        put_field(out, *value)?;
    }
    Ok(())
}

/// Adds a declaration, as its line has it before the line feed.
#[tactic(auto, unfolding(crate::specs::Lines::decl_text))]
pub fn put_decl(out: &mut Vec<u8>, decl: &Decl) -> Result<(), NoMemory>
    ensures text { OnOk result (out.new.items ≡ out.old.items ++ decl_text decl.now) }
    ensures range { OnOk result (IsDeclInRange decl.now) }
{
    match *decl {
        Decl::Machine { machine } => {
            put_fields(out, b"machine", &[machine.groups])?;
            put_caps(out, machine.caps)
        }
        Decl::Kernel { no, limits } => {
            put_fields(out, b"kernel", &[no.0])?;
            put_caps(out, limits)
        }
        Decl::Right {
            kernel,
            group,
            read,
            write,
        } => {
            put_fields(out, b"right", &[kernel.0, group])?;
            out.extend_from_slice(b" ")?;
            put_rights(out, read, write)
        }
        Decl::Space { no, kernel } => put_fields(out, b"space", &[no.0, kernel.0]),
        Decl::Thread {
            no,
            space,
            pc,
            priority,
            a0,
            a1,
        } => put_fields(out, b"thread", &[no.0, space.0, pc, priority, a0, a1]),
        Decl::Map {
            space,
            vpn,
            frame,
            flags,
            receiver,
        } => {
            put_fields(out, b"map", &[space.0, vpn.0, frame.0])?;
            out.extend_from_slice(b" ")?;
            put_flags(out, flags)?;
            put_receiver(out, receiver)
        }
        Decl::Word {
            frame,
            offset,
            value,
        } => {
            put_fields(out, b"word", &[frame.0, offset])?;
            put_value(out, value)
        }
    }
}

// A word, an identifier and a processor.
fn put_lock(out: &mut Vec<u8>, word: &[u8], ident: Ident, cpu: u32) -> Result<(), NoMemory>
    ensures text { OnOk result (out.new.items ≡ out.old.items ++ (word.now ++ ident_text ident ++ cpu_text cpu)) }
    ensures range { OnOk result (IsIdentInRange ident × IsSmall cpu) }
{
    out.extend_from_slice(word)?;
    put_ident(out, ident)?;
    put_cpu(out, cpu)
}

#[tactic(auto, unfolding(crate::specs::Lines::entry_text))]
fn put_entry(out: &mut Vec<u8>, entry: &Entry) -> Result<(), NoMemory>
    ensures text { OnOk result (out.new.items ≡ out.old.items ++ entry_text entry.now) }
    ensures range { OnOk result (IsInRange entry.now) }
{
    match *entry {
        Entry::Declared { decl } => put_decl(out, &decl),
        Entry::Sealed => out.extend_from_slice(b"sealed"),
        Entry::Loaded { ident, name, cpu } => {
            out.extend_from_slice(b"loaded ")?;
            put_ident(out, ident)?;
            out.extend_from_slice(b" ")?;
            put_name(out, name)?;
            put_cpu(out, cpu)
        }
        Entry::WrittenBack { ident, cause, cpu } => {
            out.extend_from_slice(b"back ")?;
            put_ident(out, ident)?;
            out.extend_from_slice(b" ")?;
            put_cause(out, cause)?;
            put_cpu(out, cpu)
        }
        Entry::Locked { ident, cpu } => put_lock(out, b"locked ", ident, cpu),
        Entry::Unlocked { ident, cpu } => put_lock(out, b"unlocked ", ident, cpu),
        Entry::Ran { thread, steps, cpu } => {
            put_fields(out, b"ran", &[thread.0, steps])?;
            put_cpu(out, cpu)
        }
        Entry::Ended { thread, cpu } => {
            put_fields(out, b"ended", &[thread.0])?;
            put_cpu(out, cpu)
        }
        Entry::Completed { thread, cpu } => {
            put_fields(out, b"completed", &[thread.0])?;
            put_cpu(out, cpu)
        }
    }
}

/// Adds the line of an entry, with its line feed.
#[tactic(auto, unfolding(crate::specs::Lines::line))]
pub(crate) fn put_line(out: &mut Vec<u8>, entry: &Entry) -> Result<(), NoMemory>
    ensures text { OnOk result (out.new.items ≡ out.old.items ++ line entry.now) }
    ensures range { OnOk result (IsInRange entry.now) }
{
    put_entry(out, entry)?;
    out.extend_from_slice(b"\n")
}

/// The lines of the entries, in order. It costs one pass.
pub fn print(alloc: Global, journal: &Journal) -> Result<Vec<u8>, NoMemory>
    ensures text { IfOk result (λ text. text.items ≡ journal_text journal.now.entries) }

    // So what was printed is read as these entries again.
    ensures range { OnOk result (AreInRange journal.now.entries) }
{
    let mut out = Vec::new(alloc);
    for entry in journal.as_slice() {
        put_line(&mut out, entry)?;
    }
    Ok(out)
}
