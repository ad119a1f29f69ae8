ghost use Rattle.std.specs.Prelude.{◌≡◌, ◌+◌, ◌^◌, ◌<◌, ◌++◌, [], ◌∷◌, IfOk, MatchBool};
ghost use Rattle.turn_lock.specs.Passes.{IsPassOf, HasAllNumbers, HasSameRange, first_of, end_of};

use crate::{History, Pass, Turn};
use std::alloc::{AllocError, Global};
use std::hint;
use std::sync::{Arc, Wait};
use std::test::Fail;
use std::thread::{Threads, join};

// The entries are pairs of a maker and a number.
#[derive(Drop)]
struct Log {
    entries: Vec<(u32, u64)>,
}

impl History for Log {
    type Entry = (u32, u64);

    ghost entries = { λ log. log.entries.items };

    ghost maker = { λ entry. entry.0 };

    fn len(&self) -> u64 {
        self.entries.len() as u64
    }
}

impl Log {
    fn new(alloc: Global) -> Log
        ensures { result.entries.items ≡ [] }
    {
        Log {
            entries: Vec::new(alloc),
        }
    }

    // Says whether there was memory.
    fn append(&mut self, maker: u32, number: u64) -> bool
        ensures { MatchBool result (self.new.entries.items ≡ self.old.entries.items ++ (maker, number) ∷ []) (self.new.entries.items ≡ self.old.entries.items) }
    {
        self.entries.push((maker, number)).is_ok()
    }

    // Whether this maker's numbers are those below `count`, in order.
    fn has_in_order(&self, maker: u32, count: u64) -> bool {
        self.entries
            .iter()
            .filter(|entry| entry.0 == maker)
            .map(|entry| entry.1)
            .eq(0..count)
    }
}

// How many entries a thread appends, and for how many pauses of the processor it holds the log for each.
#[derive(Clone, Copy)]
struct Task {
    count: u64,
    pauses: u32,
}

fn append<R: Wait>(rt: &R, lock: &Turn<Log>, pass: Pass<Log>, number: u64, pauses: u32) -> Pass<Log>
    requires { IsPassOf lock.now pass }
    ensures lock { IsPassOf lock.now result }
    ensures range { HasSameRange pass result }
{
    let maker = pass.number();
    let mut held = lock.hold(rt, pass);
    held.value_mut().append(maker, number);
    for _ in 0..pauses {
        hint::spin_loop();
    }
    held.release()
}

fn append_all<R: Wait>(rt: &R, lock: &Turn<Log>, pass: Pass<Log>, task: Task) -> Pass<Log>
    requires { IsPassOf lock.now pass }
    ensures lock { IsPassOf lock.now result }
    ensures range { HasSameRange pass result }
{
    let mut pass = pass;
    for number in 0..task.count {
        pass = append(rt, lock, pass, number, task.pauses);
    }
    pass
}

fn opened(alloc: Global) -> Result<(Turn<Log>, Pass<Log>), AllocError>
    ensures { IfOk result (λ r. IsPassOf r.0 r.1 × HasAllNumbers r.1) }
{
    match Turn::new(alloc, Log::new(alloc)) {
        Ok(made) => Ok(made),
        Err(_) => Err(AllocError),
    }
}

fn joined(lock: &Turn<Log>, lower: Pass<Log>, upper: Pass<Log>, upper_first: bool) -> Pass<Log>
    requires lock { IsPassOf lock.now lower × IsPassOf lock.now upper }
    requires beside { end_of lower ≡ first_of upper }
    ensures lock { IsPassOf lock.now result }
    ensures range { (first_of result ≡ first_of lower) × (end_of result ≡ end_of upper) }
{
    if upper_first {
        lock.join(upper, lower)
    } else {
        lock.join(lower, upper)
    }
}

fn in_two<R: Threads + Wait + Sync>(
    rt: &R,
    lock: &Turn<Log>,
    pass: Pass<Log>,
    task: Task,
    upper_first: bool,
) -> Pass<Log>
    requires lock { IsPassOf lock.now pass }
    requires wide { (first_of pass + 1 < end_of pass) × (end_of pass < 2 ^ 32) }
    ensures lock { IsPassOf lock.now result }
    ensures range { HasSameRange pass result }
{
    let middle = pass.number() + 1;
    let (lower, upper) = lock.split(pass, middle);
    let (lower, upper) = join(
        rt,
        || -> Pass<Log>
            requires { IsPassOf lock.now lower }
            ensures { IsPassOf lock.entry.now result × HasSameRange lower result }
        { append_all(rt, lock, lower, task) },
        || -> Pass<Log>
            requires { IsPassOf lock.now upper }
            ensures { IsPassOf lock.entry.now result × HasSameRange upper result }
        { append_all(rt, lock, upper, task) },
    );
    joined(lock, lower, upper, upper_first)
}

fn in_four<R: Threads + Wait + Sync>(
    rt: &R,
    lock: &Turn<Log>,
    pass: Pass<Log>,
    task: Task,
    upper_first: bool,
) -> Pass<Log>
    requires lock { IsPassOf lock.now pass }
    requires wide { (first_of pass + 3 < end_of pass) × (end_of pass < 2 ^ 32) }
    ensures lock { IsPassOf lock.now result }
    ensures range { HasSameRange pass result }
{
    let middle = pass.number() + 2;
    let (lower, upper) = lock.split(pass, middle);
    let (lower, upper) = join(
        rt,
        || -> Pass<Log>
            requires { IsPassOf lock.now lower × (first_of lower + 1 < end_of lower) × (end_of lower < 2 ^ 32) }
            ensures { IsPassOf lock.entry.now result × HasSameRange lower result }
        { in_two(rt, lock, lower, task, upper_first) },
        || -> Pass<Log>
            requires { IsPassOf lock.now upper × (first_of upper + 1 < end_of upper) × (end_of upper < 2 ^ 32) }
            ensures { IsPassOf lock.entry.now result × HasSameRange upper result }
        { in_two(rt, lock, upper, task, upper_first) },
    );
    joined(lock, lower, upper, upper_first)
}

#[test]
fn four_threads_append_and_join_in_either_order(rt: HostRuntime) -> Result<(), Fail> {
    for upper_first in [false, true] {
        let (lock, pass) = opened(rt.alloc())?;
        let task = Task {
            count: 1000,
            pauses: 0,
        };
        let pass = in_four(&rt, &lock, pass, task, upper_first);
        assert!(rt; pass.number() == 0);
        let log = lock.close(pass);
        assert!(rt; log.entries.len() == 4000);
        for maker in 0..4 {
            assert!(rt; log.has_in_order(maker, 1000), "maker {maker}");
        }
    }
    Ok(())
}

// Who waits here looks in vain for long, sleeps, and is woken, so often that it stands in line in the end.
#[test]
fn threads_go_on_that_wait_for_long(rt: HostRuntime) -> Result<(), Fail> {
    let (lock, pass) = opened(rt.alloc())?;
    let task = Task {
        count: 12,
        pauses: 100_000,
    };
    let pass = in_four(&rt, &lock, pass, task, false);
    let log = lock.close(pass);
    assert!(rt; log.entries.len() == 48);
    for maker in 0..4 {
        assert!(rt; log.has_in_order(maker, 12), "maker {maker}");
    }
    Ok(())
}

#[test]
fn three_parts_make_the_whole(rt: HostRuntime) -> Result<(), Fail> {
    let (lock, pass) = opened(rt.alloc())?;
    let (low, rest) = lock.split(pass, 1);
    let (middle, high) = lock.split(rest, 2);
    assert!(rt; low.number() == 0 && middle.number() == 1 && high.number() == 2);
    let pass = lock.join(lock.join(middle, high), low);
    assert!(rt; lock.close(pass).entries.is_empty());
    Ok(())
}

// A value without entries, of which the number of copies can be told.
#[derive(Drop)]
struct Counted {
    token: Arc<u8, Global>,
}

impl History for Counted {
    type Entry = u32;

    ghost entries = { λ _. [] };

    ghost maker = { λ maker. maker };

    fn len(&self) -> u64 {
        0
    }
}

#[test]
fn a_value_is_dropped_once(rt: HostRuntime) -> Result<(), Fail> {
    let token = Arc::new(rt.alloc(), 7u8)?;
    for closed in [false, true] {
        let counted = Counted {
            token: Arc::try_clone(&token)?,
        };
        let Ok((lock, pass)) = Turn::new(rt.alloc(), counted) else {
            panic!(rt; "there is no memory")
        };
        let pass = lock.hold(&rt, pass).release();
        assert!(rt; Arc::strong_count(&token) == 2);
        if closed {
            let counted = lock.close(pass);
            assert!(rt; Arc::strong_count(&token) == 2);
            drop(counted);
        } else {
            drop(lock);
        }
        assert!(rt; Arc::strong_count(&token) == 1);
    }
    Ok(())
}
