//! Operations on a board, one after another.

ghost use Rattle.std.specs.Prelude.{◌≡◌, ◌++◌, false, List, OnErr, OnOk};
ghost use Rattle.board_core.specs.board_ops.specs.declared.answers.Answer.{Answer};
ghost use Rattle.cache_board.specs.Desks.{AreOfTickets};
ghost use Rattle.cache_board.specs.Drive.{processor_of, is_beyond as is_beyond_def, AreAnswered, IsAnswered, IsDone};

use crate::answers::{did, loaded, made};
use crate::board::Board;
use crate::desk::{Desk, PROCESSORS};
use board_commits::{Answer, Op};
use cache_ident::NoMemory;

/// Does each operation on the board that the ones before it left, and adds its answer. Room for the answers is made first;
/// where there is none nothing is done.
///
/// The views of each processor that has a ticket on the desk are of that ticket on this board, and what carries a place in any
/// quantum there is of this board's journal; on a new desk they are, and they stay so.
pub fn drive(
    board: &mut Board,
    desk: &mut Desk,
    ops: &[Op],
    answers: &mut Vec<Answer>,
) -> Result<(), NoMemory>
    requires views { AreOfTickets board.old.journal.entries desk.old }
    ensures answered { OnOk result ((given : List Answer) × (answers.new.items ≡ answers.old.items ++ given) × AreAnswered ops.now board.old desk.old given board.new desk.new) }
    ensures views { AreOfTickets board.new.journal.entries desk.new }
    ensures refused { OnErr result ((board.new ≡ board.old) × (desk.new ≡ desk.old) × (answers.new.items ≡ answers.old.items)) }
{
    answers.reserve(ops.len())?;
    for op in ops {
        let answer = answer_to(board, desk, op);
        // There is room for it.
        let _ = answers.push(answer);
    }
    Ok(())
}

// Does an operation, where its processor is one.
fn answer_to(board: &mut Board, desk: &mut Desk, op: &Op) -> Answer
    requires views { AreOfTickets board.old.journal.entries desk.old }
    ensures answered { IsAnswered op.now board.old desk.old result board.new desk.new }
    ensures views { AreOfTickets board.new.journal.entries desk.new }
{
    if is_beyond(op) {
        board.holds();
        return Answer::NoCpu;
    }
    let answer = perform(board, desk, op);
    board.holds();
    answer
}

// Whether an operation names a processor that there isn't.
fn is_beyond(op: &Op) -> bool
    ensures { result ≡ is_beyond_def (processor_of op.now) }
{
    match cpu_of(op) {
        Some(cpu) => cpu >= PROCESSORS,
        None => false,
    }
}

// The processor that an operation names.
fn cpu_of(op: &Op) -> Option<u32>
    ensures { result ≡ processor_of op.now }
{
    match *op {
        Op::Declare { .. } | Op::Seal | Op::Reserve { .. } => None,
        Op::LoadKernel { cpu, .. }
        | Op::LoadSpace { cpu, .. }
        | Op::LoadThread { cpu, .. }
        | Op::LoadMapping { cpu, .. }
        | Op::Unload { cpu, .. }
        | Op::Lock { cpu, .. }
        | Op::Unlock { cpu, .. }
        | Op::Checkout { cpu }
        | Op::View { cpu, .. }
        | Op::RunAhead { cpu, .. }
        | Op::Commit { cpu }
        | Op::Leave { cpu }
        | Op::Complete { cpu, .. }
        | Op::ConfirmFault { cpu, .. }
        | Op::HealStep { cpu, .. } => Some(cpu),
    }
}

// Does an operation that names no processor that there isn't.
fn perform(board: &mut Board, desk: &mut Desk, op: &Op) -> Answer
    requires within { is_beyond_def (processor_of op.now) ≡ false }
    requires views { AreOfTickets board.old.journal.entries desk.old }
    ensures { IsDone op.now board.old desk.old result board.new desk.new }
{
    match *op {
        Op::Declare { decl } => did(board.declare(&decl)),
        Op::Seal => loaded(board.seal()),
        Op::LoadKernel {
            cpu,
            caller,
            kernel,
        } => loaded(board.load_kernel(cpu, caller, kernel)),
        Op::LoadSpace { cpu, caller, space } => loaded(board.load_space(cpu, caller, space)),
        Op::LoadThread {
            cpu,
            caller,
            parent,
            thread,
        } => loaded(board.load_thread(cpu, caller, parent, thread)),
        Op::LoadMapping {
            cpu,
            caller,
            parent,
            vpn,
            receiver,
        } => loaded(board.load_mapping(cpu, caller, parent, vpn, receiver)),
        Op::Unload { cpu, caller, ident } => did(board.unload(cpu, caller, ident)),
        Op::Lock { cpu, caller, ident } => did(board.lock(cpu, caller, ident)),
        Op::Unlock { cpu, caller, ident } => did(board.unlock(cpu, caller, ident)),
        Op::Checkout { cpu } => desk.check_out(board, cpu),
        Op::View { cpu, vpn } => desk.view(board, cpu, vpn),
        Op::RunAhead { cpu, limit } => desk.run_ahead(cpu, limit),
        Op::Commit { cpu } => desk.commit(board, cpu),
        Op::Leave { cpu } => desk.leave(board, cpu),
        Op::Complete {
            cpu,
            caller,
            thread,
        } => did(board.complete(cpu, caller, thread)),
        Op::ConfirmFault {
            cpu,
            caller,
            thread,
        } => did(board.confirm_fault(cpu, caller, thread)),
        Op::HealStep { cpu, thread } => did(board.heal_step(cpu, thread)),
        Op::Reserve { n } => made(board.reserve(n)),
    }
}
