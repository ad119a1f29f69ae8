//! How the rules change the machine's tables.

ghost use Rattle.std.specs.Prelude.{◌≡◌, ◌%◌, ◌+◌, ◌<◌, ◌≤◌, true, false, OnOk, OnErr, length};
ghost use Rattle.rv32_exec.specs.Pages.{put_bytes, size_of};
ghost use Rattle.flat_state.specs.State.{is_ended};
ghost use Rattle.flat_state.specs.Signals.{with_address};
ghost use Rattle.flat_state.specs.Call.{answered, is_completable};
ghost use Rattle.flat_thread.specs.Calls.{own_part};

use crate::NoMemory;
use crate::flat::Flat;
use cache_ident::{SpaceNo, ThreadNo, Vpn};
use flat_rules::{Changes, Steps};
use flat_state::{Decl, FlatThread};
use phys_groups::Memory;
use rv32_exec::{Context, Status, Width};

impl Steps for Flat {
    ghost Rest = { Unit {0} };

    ghost rest = { λ _. tt };

    fn store(&mut self, at: u32, width: Width, value: u32) {
        store_in(&mut self.memory, at, width, value);
    }

    fn mark(&mut self, space: SpaceNo, vpn: Vpn, written: bool) {
        self.rows.mark(space, vpn, written);
    }

    fn put(&mut self, no: ThreadNo, context: &Context, status: Status) {
        let thread = &mut self.threads[no.0 as usize];
        thread.context = *context;
        thread.status = status;
    }

    fn give(&mut self, no: ThreadNo, va: u32) {
        give_to(&mut self.threads[no.0 as usize], va);
    }

    fn answer(&mut self, no: ThreadNo, value: u32) {
        answer_to(&mut self.threads[no.0 as usize], value);
    }
}

impl Changes for Flat {
    fn carry_out(&mut self, no: ThreadNo) -> Result<(), NoMemory> {
        carry_out_of(&mut self.threads[no.0 as usize])
    }

    fn declare(&mut self, decl: &Decl) -> Result<(), NoMemory> {
        self.add(decl)
    }

    fn remove_row(&mut self, space: SpaceNo, vpn: Vpn) -> bool {
        self.rows.remove(space, vpn)
    }
}

/// Puts the low bytes of a number, as many as the width has, at a place of memory.
pub fn store_in(memory: &mut Memory, at: u32, width: Width, value: u32)
    requires within { at + size_of width ≤ length memory.old }
    requires aligned { at % size_of width ≡ 0 }
    ensures { memory.new ≡ put_bytes (size_of width) memory.old at value }
{
    match width {
        Width::Byte => memory.store_byte(at, (value % 256) as u8),
        Width::Half => memory.store_half(at, (value % 65_536) as u16),
        Width::Word => memory.store_word(at, value),
    }
}

/// Appends a signal's address to the thread's queue, unless the thread has ended. The queue has room for 64.
pub fn give_to(thread: &mut FlatThread, va: u32)
    requires { is_ended thread.old.status ≡ false → length thread.old.queue.items < 64 }
    ensures { thread.new ≡ with_address va thread.old }
{
    flat_thread::give(thread.status, &mut thread.queue, va);
}

/// Has the thread go on, ready, with an answer in a0.
pub fn answer_to(thread: &mut FlatThread, value: u32)
    ensures { thread.new ≡ answered thread.old value }
{
    flat_thread::answer(&mut thread.context, &mut thread.status, value);
}

/// Does what a call does to its thread alone. Where there is no memory for what it prints, the thread is as it was.
pub fn carry_out_of(thread: &mut FlatThread) -> Result<(), NoMemory>
    requires { is_completable thread.old ≡ true }
    ensures ok { OnOk result (thread.new ≡ own_part thread.old) }
    ensures err { OnErr result (thread.new ≡ thread.old) }
{
    flat_thread::carry_out(
        thread.no,
        &mut thread.context,
        &mut thread.status,
        &mut thread.queue,
        &mut thread.output,
    )?;
    Ok(())
}
