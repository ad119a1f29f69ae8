//! Which of several ready threads goes first.

use cache_ident::ThreadNo;
use ready_queue::{Candidate, choose};

fn candidate(no: u32, priority: u32, last: u64) -> Candidate {
    Candidate {
        no: ThreadNo(no),
        priority,
        last,
    }
}

#[test]
fn ties_go_to_the_longest_ago_and_then_to_the_lowest(rt: HostRuntime) {
    let low = candidate(0, 1, 0);
    let recent = candidate(1, 2, 9);
    let tied = candidate(5, 2, 4);
    let lower = candidate(3, 2, 4);
    assert!(rt; choose(&[]) == None);
    assert!(rt; choose(&[low, recent]) == Some(ThreadNo(1)));
    assert!(rt; choose(&[recent, tied, low]) == Some(ThreadNo(5)));
    assert!(rt; choose(&[tied, lower, recent]) == Some(ThreadNo(3)));
}
