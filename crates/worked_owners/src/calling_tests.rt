//! The calls that a thread makes, and the one that it makes a thread of.

use crate::scenes::*;
use app_kernel::Served;
use rv32_exec::Reason;
use std::test::Fail;

#[test]
fn a_thread_and_the_one_that_it_made_end(rt: HostRuntime) -> Result<(), Fail> {
    const ASKS: &[Ask] = &[
        Ask::Step(0, 5),
        Ask::TrapGoesOn(0),
        Ask::Step(0, 2),
        Ask::Trap(0, Served::Ended, 1),
        // The number of the thread that it made is its code.
        Ask::HasEnded(0, Reason::Exited { code: 1 }),
        Ask::Step(1, 2),
        Ask::TrapGoesOn(1),
        Ask::Step(1, 2),
        Ask::Trap(1, Served::Ended, 1),
        Ask::HasEnded(1, Reason::Exited { code: 65 }),
        Ask::Steps(11),
    ];
    assert_eq!(rt; first_otherwise(rt.alloc(), MADE, ASKS)?, None);
    Ok(())
}
