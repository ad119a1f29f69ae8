//! What the numbers mean that a call takes in its registers and leaves there. Each is read in constant time.

ghost use Rattle.std.specs.Prelude.{◌≡◌, ◌<◌, ◌==◌, ◌||◌, not, nat_lt};
ghost use Rattle.flat_state.specs.Call.{bit as bit_def, flags_of as flags_of_def, receiver_of as receiver_of_def, refusal as refusal_def};

use cache_ident::ThreadNo;
use phys_groups::Flags;

/// The answer in a0 that tells of a broken rule: the number that, with the rule's, makes 2^32.
pub fn refusal(rule: u32) -> u32
    requires some { 0 < rule }
    requires few { rule < 20 }
    ensures { result ≡ refusal_def rule }
{
    u32::MAX - rule + 1
}

/// Whether a bit is set; `place` is its value, a power of 2.
pub fn bit(bits: u32, place: u32) -> bool
    requires { 0 < place }
    ensures { result ≡ bit_def bits place }
{
    bits / place % 2 == 1
}

/// Flags by their bits: 1 r, 2 w, 4 x, 8 m.
pub fn flags_of(bits: u32) -> Flags
    ensures { result ≡ flags_of_def bits }
{
    Flags {
        r: bit(bits, 1),
        w: bit(bits, 2),
        x: bit(bits, 4),
        m: bit(bits, 8),
    }
}

/// Whether the bits name a flag, and nothing but flags.
pub fn are_flags(bits: u32) -> bool
    ensures { result ≡ not ((bits == 0) || nat_lt 15 bits) }
{
    bits != 0 && bits <= 15
}

/// 0 is no receiver, and any other number is one above the receiver's.
pub fn receiver_of(number: u32) -> Option<ThreadNo>
    ensures { result ≡ receiver_of_def number }
{
    number.checked_sub(1).map(ThreadNo)
}
