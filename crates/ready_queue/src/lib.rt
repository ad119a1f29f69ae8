//! Which waiting thread a processor takes next.
#![tactic(auto)]

ghost use Rattle.std.specs.Prelude.{◌≡◌, [], ◌↔◌, All, Contains, IfSome, IsNone};
ghost use Rattle.std.specs.Ordering.{is_lt};
ghost use Rattle.cache_ident.specs.declared.names.ThreadNo.{ThreadNo};
ghost use Rattle.ready_queue.specs.Choice.{IsChosen, is_before};

use cache_ident::ThreadNo;
use std::cmp::Ordering;

/// A loaded thread that can run and is on no processor.
#[derive(Clone, Copy, PartialEq, Eq, Debug, Default)]
pub struct Candidate {
    pub no: ThreadNo,
    /// A greater number is chosen first.
    pub priority: u32,
    /// The count of checkouts at its last one, and 0 before its first.
    pub last: u64,
}

/// By this candidates stand in the order of choice: the one of the higher priority is less; of the same priority, the one that
/// was checked out longer ago; and else the one with the lower number.
pub fn in_order(a: &Candidate, b: &Candidate) -> Ordering
    ensures { is_lt result ≡ is_before a.now b.now }
{
    b.priority
        .cmp(&a.priority)
        .then(a.last.cmp(&b.last))
        .then(a.no.cmp(&b.no))
}

/// The first of the candidates in the order of choice. `None` only where nobody waits.
///
/// It goes once over the candidates and takes no memory.
pub fn choose(waiting: &[Candidate]) -> Option<ThreadNo>
    ensures nobody { IsNone result ↔ (waiting.now ≡ []) }
    ensures chosen { IfSome result (IsChosen waiting.now) }
{
    let mut best = *waiting.first()?;
    for candidate in waiting {
        if in_order(candidate, &best).is_lt() {
            best = *candidate;
        }
    }
    Some(best.no)
}
