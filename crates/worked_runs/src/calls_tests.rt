//! Calls that no program makes, and the answer that no program comes to.

use board_ops::{Answer, Refused};
use cache_ident::{NoMemory, ThreadNo};
use drive_text::put_answer;
use flat_state::Event;
use run_journal::{Entry, Journal};
use rv32_asm::list;
use scenario_print::print;
use scenario_reader::read;
use sorted_list::SortedList;
use std::alloc::Global;
use std::mem;
use std::process::Abort;
use std::test::Fail;

fn is_listed(alloc: Global, words: &[u32], text: &str) -> Result<bool, NoMemory> {
    let listed = list(alloc, words)?;
    Ok(listed.as_slice() == text.as_bytes())
}

#[test]
fn words_have_lines(rt: HostRuntime) -> Result<(), Fail> {
    assert!(rt; is_listed(rt.alloc(), &[0x00d2_80e7], "jalr x1, 13(x5)\n")?);
    assert!(rt;
        is_listed(
            rt.alloc(),
            &[0x73, 0xffff_ffff],
            "ecall\n.word 0xffffffff\n"
        )?
    );
    assert!(rt;
        is_listed(
            rt.alloc(),
            &[0x077c_a8af],
            "amoadd.w.aqrl x17, x23, (x25)\n"
        )?
    );
    Ok(())
}

const SCENARIO: &str =
    "mem 1 # a group\nkernel 0\nright 0 0 rw\nspace 0 0\nthread 0 0 0x10 a1 7\nmap 0 0 0 rx\n\
map 0 1 1 rw signal 0\nword 0 0 00100893 0480A513\ncode 0 8\necall\nendcode\nend\n";

const PRINTED: &str =
    "mem 1\ncaps 16 64 256 65536\nkernel 0 locks 1 0 0 0\nright 0 0 rw\nspace 0 0\n\
thread 0 0 16 prio 0 a0 0 a1 7\nmap 0 0 0 rx\nmap 0 1 1 rw signal 0\nword 0 0 00100893\nword 0 4 0480a513\n\
word 0 8 00000073\nend\n";

#[test]
fn a_scenario_is_printed(rt: HostRuntime) -> Result<(), Fail> {
    let Ok(scenario) = read(rt.alloc(), SCENARIO.as_bytes()) else {
        return Err(Fail::new("no scenario"));
    };
    let text = print(rt.alloc(), &scenario)?;
    assert!(rt; text.as_slice() == PRINTED.as_bytes());
    Ok(())
}

// Whether what is left of a journal without the caches' own entries is its steps.
fn is_erased(journal: &mut Journal) -> Result<bool, NoMemory> {
    let thread = ThreadNo(3);
    journal.push(Entry::Sealed)?;
    journal.push(Entry::Ran {
        thread,
        steps: 2,
        cpu: 1,
    })?;
    journal.push(Entry::Completed { thread, cpu: 1 })?;
    let events = journal.erase()?;
    let due = [
        Event::Step(thread),
        Event::Step(thread),
        Event::Complete(thread),
    ];
    Ok(events.as_slice() == due.as_slice())
}

#[test]
fn a_journal_is_erased(rt: HostRuntime) -> Result<(), Fail> {
    let mut journal = Journal::new(rt.alloc());
    let erased = is_erased(&mut journal);
    mem::forget(journal);
    assert!(rt; erased?);
    Ok(())
}

fn is_put(alloc: Global, refused: Refused, text: &str) -> Result<bool, NoMemory> {
    let mut out = Vec::new(alloc);
    put_answer(alloc, &mut out, &Answer::Refused(refused))?;
    Ok(out.as_slice() == text.as_bytes())
}

// By hand a processor has the thread of its ticket until it commits.
#[test]
fn a_thread_that_moved(rt: HostRuntime) -> Result<(), Fail> {
    let (none, other) = (
        Refused::Moved { cpu: None },
        Refused::Moved { cpu: Some(4) },
    );
    assert!(rt; is_put(rt.alloc(), none, "refused moved -\n")?);
    assert!(rt; is_put(rt.alloc(), other, "refused moved 4\n")?);
    Ok(())
}

#[test]
fn there_is_no_memory_for_too_much_room(rt: HostRuntime) {
    assert!(rt; SortedList::<u32, u32>::new(rt.alloc(), 1 << 32).is_err());
}
