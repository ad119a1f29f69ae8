//! The board of a scenario's declarations.

ghost use Rattle.std.specs.Prelude.{◌≡◌, ◌∷◌, false, None, List, IfOk, Ok, OnOk};
ghost use Rattle.std.specs.Result.{ForErr};
ghost use Rattle.flat_state.specs.declared.events.Decl.{Decl};
ghost use Rattle.flat_state.specs.declared.events.Decl.TheVariants as declaration;
ghost use Rattle.flat_state.specs.declared.events.Machine.{Machine};
ghost use Rattle.flat_state.specs.Declaration.{rule_of_machine};
ghost use Rattle.flat_state.specs.Events.{AllFit};
ghost use Rattle.flat_state.specs.State.{nothing_declared};
ghost use Rattle.cache_board.specs.board_ops.specs.declared.refusals.Refused.TheVariants.{NoMemory};
ghost use Rattle.cache_board.specs.cached_machine.specs.Cached.{state_of};
ghost use Rattle.board_opening.specs.Openings.{AreDeclared, IsBoardOf, IsNewBoard};

use cache_board::{Board, Refused};
use flat_rules::first_machine;
use flat_state::{Decl, Machine};
use std::alloc::{AllocError, Global};

// What is answered, where nothing but want of memory is refused.
fn answered<T>(answer: Result<T, Refused>) -> Result<T, AllocError>
    requires { ForErr answer (λ why. why ≡ NoMemory) }
    ensures { IfOk result (λ value. answer ≡ Ok value) }
{
    match answer {
        Ok(value) => Ok(value),
        Err(refused) => match refused {
            Refused::NoMemory => Err(AllocError),
            _ => unreachable!(),
        },
    }
}

// A new board of a machine that breaks no rule.
fn new_board(alloc: Global, machine: Machine, steps: u64) -> Result<Board, AllocError>
    requires { rule_of_machine machine ≡ None }
    ensures { IfOk result (λ board. IsNewBoard machine steps board) }
{
    let made = Board::new(alloc, machine, steps);
    let board = answered(made)?;
    board.holds();
    Ok(board)
}

// Makes declarations, each of which fits behind those before it.
fn declare_all(board: &mut Board, decls: &[Decl]) -> Result<(), AllocError>
    requires unsealed { board.old.sealed ≡ false }
    requires fit { AllFit (state_of board.old.machine) decls.now }
    ensures { OnOk result (AreDeclared decls.now board.old board.new) }
{
    for decl in decls {
        let declared = board.declare(decl);
        answered(declared)?;
    }
    Ok(())
}

/// The board of declarations that fit, the first of which is the machine, and which takes at most so many steps. It costs what
/// these calls of the board cost.
pub fn board_of(alloc: Global, decls: &[Decl], steps: u64) -> Result<Board, AllocError>
    requires fit { AllFit nothing_declared decls.now }
    requires machine { (machine : Machine) × (rest : List Decl) × (decls.now ≡ declaration.Machine machine ∷ rest) }
    ensures { IfOk result (λ board. IsBoardOf decls.now steps board) }
{
    let machine = first_machine(decls);
    let mut board = new_board(alloc, machine, steps)?;
    declare_all(&mut board, &decls[1..])?;
    Ok(board)
}
