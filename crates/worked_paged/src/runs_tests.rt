//! Runs with two frames over a store that counts its writes, and fails at the calls that it is told.

use flat_rules::first_machine;
use paged_run::{MemStore, PagedFault, run_paged};
use scenario_reader::read_opening;
use std::alloc::Global;
use std::process::Abort;
use std::test::Fail;

// A thread adds up what eight pages hold. With the one of its code, nine pages end with contents that aren't zeros.
const NINE_PAGES: &str =
    "mem 1\nkernel 0\nright 0 0 rw\nspace 0 0\nthread 0 0 0\nmap 0 0 0 x\nmap 0 16 1 rw\nword 1 0 00000001\n\
map 0 17 2 rw\nword 2 0 00000002\nmap 0 18 3 rw\nword 3 0 00000003\nmap 0 19 4 rw\nword 4 0 00000004\n\
map 0 20 5 rw\nword 5 0 00000005\nmap 0 21 6 rw\nword 6 0 00000006\nmap 0 22 7 rw\nword 7 0 00000007\n\
map 0 23 8 rw\nword 8 0 00000008\ncode 0 0\nlui t0, 16\naddi t1, zero, 8\naddi a0, zero, 0\nlui t2, 1\nagain:\n\
lw t3, 0(t0)\nadd a0, a0, t3\nadd t0, t0, t2\naddi t1, t1, -1\nbne t1, zero, again\naddi a7, zero, 2\necall\n\
addi a7, zero, 0\naddi a0, zero, 0\necall\nendcode\nend\n";

// How many calls of its store a run made, and how many of them were writes.
#[derive(Clone, Copy)]
struct Counts {
    calls: u64,
    writes: u64,
}

// The counts of a run with two frames over a new store of which these calls fail; and none where one of them was made.
fn counts_of(alloc: Global, text: &str, fail: &[u64]) -> Result<Option<Counts>, Fail> {
    let scenario = read_opening(alloc, text.as_bytes())?;
    let machine = first_machine(scenario.decls());
    let mut store = MemStore::new(alloc, machine.groups, fail)?;
    match run_paged(alloc, scenario.decls(), 2, 1_000, &mut store) {
        Ok(run) => {
            std::mem::forget(run);
            Ok(Some(Counts {
                calls: store.calls(),
                writes: store.writes(),
            }))
        }
        Err(PagedFault::StoreFault) => Ok(None),
        Err(PagedFault::NoMemory) => Err(Fail::new("memory ran out")),
    }
}

#[test]
fn each_page_is_written_back(rt: HostRuntime) -> Result<(), Fail> {
    assert!(rt;
        matches!(
            counts_of(rt.alloc(), NINE_PAGES, &[])?,
            Some(Counts { writes: 9.., .. })
        )
    );
    Ok(())
}

#[test]
fn each_call_of_the_store_fails(rt: HostRuntime) -> Result<(), Fail> {
    let Some(counts) = counts_of(rt.alloc(), NINE_PAGES, &[])? else {
        return Err(Fail::new("a call failed that wasn't told to"));
    };
    for at in 0..counts.calls {
        assert!(rt; counts_of(rt.alloc(), NINE_PAGES, &[at])?.is_none());
    }
    assert!(rt; counts_of(rt.alloc(), NINE_PAGES, &[counts.calls])?.is_some());
    Ok(())
}
