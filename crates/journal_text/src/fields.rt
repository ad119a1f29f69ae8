//! The fields of a line, each read at the front of the bytes. A field is taken for what it can only be: whether it
//! stands there in its one form is left to the comparison with the line of the entry that was read.

ghost use Rattle.std.specs.Prelude.{◌≡◌, ◌<◌, ◌*◌};
ghost use Rattle.text_fields.specs.Reading.{Gives};
ghost use Rattle.journal_text.specs.Reading.{number_from, longer, number_at, small_at, field_at, caps_at, mark_at, rights_at, flags_at, receiver_at, word_at, kind_at, ident_at, mapping_at, name_at, cause_at, cpu_at};

use cache_ident::{Caps, Cause, Ident, KernelNo, Kind, Name, SpaceNo, ThreadNo, Vpn};
use phys_groups::Flags;
use text_fields::skip;

/// The number that the digits at the front write, and what follows them: 0 where there are none. None where it needs
/// more than 64 bits.
#[tactic(auto, unfolding(crate::specs::Reading::number_from))]
pub fn number(bytes: &[u8]) -> Option<(u64, &[u8])>
    ensures { Gives (λ x. (x.0, x.1.now)) result (number_at bytes.now) }
{
    let mut number = 0u64;
    let mut rest = bytes;
    while let [digit @ b'0'..=b'9', more @ ..] = rest {
        number = longer(number, *digit - b'0')?;
        rest = more;
    }
    Some((number, rest))
}

// The number with a digit behind it, where it has 64 bits.
fn longer(number: u64, digit: u8) -> Option<u64>
    requires { digit < 10 }
    ensures { Gives (λ x. x) result (longer number digit) }
{
    number.checked_mul(10)?.checked_add(u64::from(digit))
}

/// A number of 32 bits.
#[tactic(auto, unfolding(crate::specs::Reading::small_at))]
pub(crate) fn small(bytes: &[u8]) -> Option<(u32, &[u8])>
    ensures { Gives (λ x. (x.0, x.1.now)) result (small_at bytes.now) }
{
    let (number, rest) = number(bytes)?;
    if number > u64::from(u32::MAX) {
        return None;
    }
    Some((number as u32, rest))
}

/// The number of 32 bits behind a space, and what follows it.
#[tactic(auto, unfolding(crate::specs::Reading::field_at))]
pub fn field(bytes: &[u8]) -> Option<(u32, &[u8])>
    ensures { Gives (λ x. (x.0, x.1.now)) result (field_at bytes.now) }
{
    small(skip(bytes, b" ")?)
}

/// Four numbers: an amount for each kind.
#[tactic(auto, unfolding(crate::specs::Reading::caps_at))]
pub(crate) fn caps(bytes: &[u8]) -> Option<(Caps, &[u8])>
    ensures { Gives (λ x. (x.0, x.1.now)) result (caps_at bytes.now) }
{
    let (kernels, rest) = field(bytes)?;
    let (spaces, rest) = field(rest)?;
    let (threads, rest) = field(rest)?;
    let (mappings, rest) = field(rest)?;
    let caps = Caps {
        kernels,
        spaces,
        threads,
        mappings,
    };
    Some((caps, rest))
}

// Whether the letter stands at the front, and what follows it.
fn mark(bytes: &[u8], letter: u8) -> (bool, &[u8])
    ensures { (result.0, result.1.now) ≡ mark_at letter bytes.now }
{
    match bytes {
        [first, rest @ ..] if *first == letter => (true, rest),
        _ => (false, bytes),
    }
}

/// The read bit and the write bit, as the letters behind a space.
#[tactic(auto, unfolding(crate::specs::Reading::rights_at))]
pub(crate) fn rights(bytes: &[u8]) -> Option<(bool, bool)>
    ensures { Gives (λ x. x) result (rights_at bytes.now) }
{
    let rest = skip(bytes, b" ")?;
    let (read, rest) = mark(rest, b'r');
    let (write, _) = mark(rest, b'w');
    Some((read, write))
}

/// Flags, as the letters behind a space.
#[tactic(auto, unfolding(crate::specs::Reading::flags_at))]
pub(crate) fn flags(bytes: &[u8]) -> Option<(Flags, &[u8])>
    ensures { Gives (λ x. (x.0, x.1.now)) result (flags_at bytes.now) }
{
    let rest = skip(bytes, b" ")?;
    let (r, rest) = mark(rest, b'r');
    let (w, rest) = mark(rest, b'w');
    let (x, rest) = mark(rest, b'x');
    let (m, rest) = mark(rest, b'm');
    let (_, rest) = mark(rest, b'-');
    Some((Flags { r, w, x, m }, rest))
}

/// A thread's number behind a space, or `-` for none.
#[tactic(auto, unfolding(crate::specs::Reading::receiver_at))]
pub(crate) fn receiver(bytes: &[u8]) -> Option<Option<ThreadNo>>
    ensures { Gives (λ x. x) result (receiver_at bytes.now) }
{
    if skip(bytes, b" -").is_some() {
        return Some(None);
    }
    let (thread, _) = field(bytes)?;
    Some(Some(ThreadNo(thread)))
}

/// A word as eight hexadecimal digits behind a space.
#[tactic(auto, unfolding(crate::specs::Reading::word_at))]
pub(crate) fn word(bytes: &[u8]) -> Option<u32>
    ensures { Gives (λ x. x) result (word_at bytes.now) }
{
    let rest = skip(bytes, b" ")?;
    if rest.len() < 8 {
        return None;
    }
    let mut word = [0; 4];
    if hex::decode_to_slice(&rest[..8], &mut word).is_err() {
        return None;
    }
    Some(u32::from_be_bytes(word))
}

#[tactic(auto, unfolding(crate::specs::Reading::kind_at))]
fn kind(bytes: &[u8]) -> Option<(Kind, &[u8])>
    ensures { Gives (λ x. (x.0, x.1.now)) result (kind_at bytes.now) }
{
    match bytes {
        [b'K', rest @ ..] => Some((Kind::Kernel, rest)),
        [b'S', rest @ ..] => Some((Kind::Space, rest)),
        [b'T', rest @ ..] => Some((Kind::Thread, rest)),
        [b'M', rest @ ..] => Some((Kind::Mapping, rest)),
        _ => None,
    }
}

/// An identifier, as the letter of its kind, its slot, a dot and its serial, and what follows it.
#[tactic(auto, unfolding(crate::specs::Reading::ident_at))]
pub fn ident(bytes: &[u8]) -> Option<(Ident, &[u8])>
    ensures { Gives (λ x. (x.0, x.1.now)) result (ident_at bytes.now) }
{
    let (kind, rest) = kind(bytes)?;
    let (slot, rest) = small(rest)?;
    let rest = skip(rest, b".")?;
    let (serial, rest) = number(rest)?;
    Some((Ident { kind, slot, serial }, rest))
}

#[tactic(auto, unfolding(crate::specs::Reading::mapping_at))]
fn mapping(bytes: &[u8]) -> Option<(Name, &[u8])>
    ensures { Gives (λ x. (x.0, x.1.now)) result (mapping_at bytes.now) }
{
    let (space, rest) = field(bytes)?;
    let (vpn, rest) = field(rest)?;
    Some((Name::Mapping(SpaceNo(space), Vpn(vpn)), rest))
}

/// A name, behind a space.
#[tactic(auto, unfolding(crate::specs::Reading::name_at))]
pub(crate) fn name(bytes: &[u8]) -> Option<(Name, &[u8])>
    ensures { Gives (λ x. (x.0, x.1.now)) result (name_at bytes.now) }
{
    if let Some(rest) = skip(bytes, b" kernel") {
        let (no, rest) = field(rest)?;
        return Some((Name::Kernel(KernelNo(no)), rest));
    }
    if let Some(rest) = skip(bytes, b" space") {
        let (no, rest) = field(rest)?;
        return Some((Name::Space(SpaceNo(no)), rest));
    }
    if let Some(rest) = skip(bytes, b" thread") {
        let (no, rest) = field(rest)?;
        return Some((Name::Thread(ThreadNo(no)), rest));
    }
    mapping(skip(bytes, b" row")?)
}

/// The cause of a departure, behind a space.
#[tactic(auto, unfolding(crate::specs::Reading::cause_at))]
pub(crate) fn cause(bytes: &[u8]) -> Option<(Cause, &[u8])>
    ensures { Gives (λ x. (x.0, x.1.now)) result (cause_at bytes.now) }
{
    if let Some(rest) = skip(bytes, b" displaced") {
        return Some((Cause::Displaced, rest));
    }
    if let Some(rest) = skip(bytes, b" dependent") {
        return Some((Cause::Dependent, rest));
    }
    Some((Cause::Unloaded, skip(bytes, b" unloaded")?))
}

/// The number of a processor.
#[tactic(auto, unfolding(crate::specs::Reading::cpu_at))]
pub(crate) fn cpu(bytes: &[u8]) -> Option<u32>
    ensures { Gives (λ x. x) result (cpu_at bytes.now) }
{
    let (cpu, _) = field(skip(bytes, b" cpu")?)?;
    Some(cpu)
}
