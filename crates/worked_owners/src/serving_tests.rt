//! What owners do for threads, by each refusal that they meet.

use crate::scenes::*;
use app_kernel::Served;
use cache_ident::{Kind, SpaceNo, ThreadNo, Vpn};
use std::test::Fail;

#[test]
fn what_is_loaded_and_noted_takes_one_call(rt: HostRuntime) -> Result<(), Fail> {
    const ASKS: &[Ask] = &[
        Ask::Fault(0, 0, Served::Resumed, 3),
        Ask::Tells(
            "loaded S0.1 space 0 cpu 0\nloaded T0.2 thread 0 cpu 0\nloaded M0.3 row 0 0 cpu 0\n",
        ),
        Ask::Noted(CODE, Kind::Mapping, 3),
        // The row is loaded, and its fault isn't one.
        Ask::Fault(0, 0, Served::Resumed, 2),
        Ask::Step(0, 3),
        Ask::Trap(0, Served::Resumed, 1),
        Ask::Tells("completed 0 cpu 0\n"),
        // It is in no call now.
        Ask::NoTrap(0),
    ];
    assert_eq!(rt; first_otherwise(rt.alloc(), PLAIN, ASKS)?, None);
    Ok(())
}

#[test]
fn what_others_loaded_and_unloaded_is_noted(rt: HostRuntime) -> Result<(), Fail> {
    const ASKS: &[Ask] = &[
        // Loaded by others.
        Ask::Step(0, 1),
        Ask::Fault(0, 0, Served::Resumed, 4),
        Ask::Noted(SPACE, Kind::Space, 1),
        Ask::Noted(THREAD, Kind::Thread, 2),
        Ask::Noted(CODE, Kind::Mapping, 3),
        // Stale.
        Ask::Unload(FIRST, Kind::Space, 1),
        Ask::Fault(0, 0, Served::Resumed, 4),
        Ask::Noted(THREAD, Kind::Thread, 5),
        // Unknown.
        Ask::Note(SPACE, Kind::Space, 99),
        Ask::Unload(FIRST, Kind::Thread, 5),
        Ask::Step(0, 2),
        Ask::Trap(0, Served::Resumed, 4),
        Ask::Noted(SPACE, Kind::Space, 4),
    ];
    assert_eq!(rt; first_otherwise(rt.alloc(), PLAIN, ASKS)?, None);
    Ok(())
}

#[test]
fn a_thread_that_can_not_go_on_ends(rt: HostRuntime) -> Result<(), Fail> {
    const ASKS: &[Ask] = &[
        // No row is declared.
        Ask::Fault(0, 4, Served::Ended, 4),
        Ask::Tells("loaded S0.1 space 0 cpu 0\nloaded T0.2 thread 0 cpu 0\nended 0 cpu 0\n"),
        Ask::Fault(0, 4, Served::Ended, 0),
        // A row is declared, and its kernel has no right on its frame.
        Ask::Fault(1, 0, Served::Ended, 5),
        Ask::Tells(
            "loaded K1.3 kernel 1 cpu 0\nloaded S1.4 space 1 cpu 0\nloaded T1.5 thread 1 cpu 0\nended 1 cpu 0\n",
        ),
    ];
    assert_eq!(rt; first_otherwise(rt.alloc(), BARE, ASKS)?, None);
    Ok(())
}

#[test]
fn a_thread_that_a_receiver_displaced_ends(rt: HostRuntime) -> Result<(), Fail> {
    const ASKS: &[Ask] = &[
        Ask::FaultGoesOn(0, 0),
        Ask::FaultGoesOn(1, 0),
        Ask::FaultGoesOn(2, 0),
        Ask::FaultGoesOn(3, 0),
        Ask::FaultGoesOn(4, 0),
        // The load of a receiver that the page hasn't displaces the thread that was loaded first. Its code stays loaded.
        Ask::LearnReceiver(SpaceNo(0), Vpn(4), ThreadNo(5)),
        Ask::Fault(0, 4, Served::Ended, 9),
        Ask::Tells("loaded T1.9 thread 0 cpu 0\nended 0 cpu 0\n"),
        Ask::Noted(CODE, Kind::Mapping, 3),
    ];
    assert_eq!(rt; first_otherwise(rt.alloc(), CROWDED, ASKS)?, None);
    Ok(())
}

#[test]
fn missing_receivers_are_loaded(rt: HostRuntime) -> Result<(), Fail> {
    const ASKS: &[Ask] = &[
        Ask::Step(0, 1),
        Ask::Fault(0, 16, Served::Resumed, 9),
        Ask::Tells(
            "loaded K2.5 kernel 2 cpu 0\nloaded S1.6 space 1 cpu 0\nloaded T1.7 thread 1 cpu 0\nloaded M1.8 row 1 32 cpu 0\nloaded M2.9 row 0 16 cpu 0\n",
        ),
        // A receiver that isn't the row's.
        Ask::LearnReceiver(SpaceNo(0), Vpn(0), ThreadNo(0)),
        Ask::Unload(SECOND, Kind::Mapping, 4),
        Ask::Fault(0, 0, Served::Resumed, 2),
        Ask::NoReceiver(SpaceNo(0), Vpn(0)),
    ];
    assert_eq!(rt; first_otherwise(rt.alloc(), MESSAGES, ASKS)?, None);
    Ok(())
}

#[test]
fn wrong_spaces_are_learnt(rt: HostRuntime) -> Result<(), Fail> {
    const ASKS: &[Ask] = &[
        // Of another kernel: a space of that is tried, and then the one that is told.
        Ask::LearnSpace(ThreadNo(0), SpaceNo(0)),
        Ask::Fault(0, 0, Served::Resumed, 11),
        Ask::Space(ThreadNo(0), SpaceNo(1)),
        Ask::Step(0, 5),
        Ask::Trap(0, Served::Resumed, 1),
        // A thread made at run, of which no owner knows, and which ends by its first call after the byte.
        Ask::Step(1, 2),
        Ask::TrapGoesOn(1),
        Ask::Space(ThreadNo(1), SpaceNo(1)),
        Ask::Step(1, 2),
        Ask::Trap(1, Served::Ended, 1),
    ];
    assert_eq!(rt; first_otherwise(rt.alloc(), SPAWNING, ASKS)?, None);
    Ok(())
}
