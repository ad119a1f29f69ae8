//! A pass is cut in parts, and they are joined again.

ghost use Rattle.std.specs.Prelude.{◌≡◌, ◌<◌, ◌≤◌, All, IfOk};
ghost use mathlib.Core.List.{IsPrefix};
ghost use Rattle.turn_lock.specs.Lists.{numbers};
ghost use Rattle.turn_lock.specs.Passes.{IsPassOf, HasAllNumbers, first_of, seen_of};
ghost use Rattle.processors.specs.Parts.{AreParts};

use cache_ident::NoMemory;
use std::alloc::Global;
use turn_lock::{History, Pass, Turn};

/// Cuts a pass with all numbers in so many parts, each of which has seen what it had: the part at place c begins with the number c,
/// and the last one has all further numbers.
pub(crate) fn cut<V: History>(
    alloc: Global,
    lock: &Turn<V>,
    pass: Pass<V>,
    count: u32,
) -> Result<Vec<Pass<V>>, NoMemory>
    requires lock { IsPassOf lock.now pass }
    requires all { HasAllNumbers pass }
    requires count { (0 < count) × (count ≤ 8) }
    ensures parts { IfOk result (λ parts. AreParts lock.now 0 numbers parts.items) }
    ensures few { IfOk result (λ parts. All (λ part. first_of part < count) parts.items) }
    ensures seen { IfOk result (λ parts. All (λ part. seen_of part ≡ seen_of pass) parts.items) }
{
    let mut parts = Vec::with_capacity(alloc, count as usize)?;
    let mut rest = pass;
    for next in 1..count {
        let (part, above) = lock.split(rest, next);
        parts.push_reserved(part);
        rest = above;
    }
    parts.push_reserved(rest);
    Ok(parts)
}

/// Joins the parts of all numbers, beginning with the first. The pass has seen what any of them had.
pub(crate) fn joined<V: History>(lock: &Turn<V>, parts: Vec<Pass<V>>) -> Pass<V>
    requires parts { AreParts lock.now 0 numbers parts.items }
    ensures lock { IsPassOf lock.now result }
    ensures all { HasAllNumbers result }
    ensures seen { All (λ part. IsPrefix (seen_of part) (seen_of result)) parts.items }
{
    let mut parts = parts.into_iter();
    let Some(first) = parts.next() else {
        unreachable!()
    };
    let mut whole = first;
    for part in parts {
        whole = lock.join(whole, part);
    }
    whole
}
