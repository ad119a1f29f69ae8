//! Turns on processor 0 until the run is over.

ghost use Rattle.std.specs.Prelude.{◌≡◌, ◌≢◌, true, OnOk};
ghost use Rattle.board_turns.specs.flat_state.specs.declared.records.Settled.TheVariants.{Running};
ghost use Rattle.board_turns.specs.owners.specs.Owning.{AreOwnersOf};
ghost use Rattle.board_turns.specs.board_core.specs.Going.{Grew};
ghost use Rattle.board_turns.specs.board_commits.specs.Tickets.{AreAllAsOf};
ghost use Rattle.board_turns.specs.Looks.{settled_on};
ghost use Rattle.board_turns.specs.Turning.{IsAtRest};

use board_turns::{Alone, Board, Found, Owners, Pace, Processor, Quantum, turn};
use cache_ident::NoMemory;

// How many steps a quantum has at most.
const QUANTUM: u32 = 256;

/// Takes turns on processor 0 until the run on a sealed board is over, with owners of that board. Whoever is on a processor when it
/// begins is taken off, and whatever the quantum has is forgotten.
///
/// It waits for nobody. It ends, since what is left of the run falls with each step and each completion, and no more than three
/// turns in a row bring neither. Want of memory is its one other answer: what was done by then stays, and the owners know of it.
pub fn run_alone(
    board: &mut Board,
    owners: &mut Owners,
    quantum: &mut Quantum,
) -> Result<(), NoMemory>
    requires sealed { board.old.sealed ≡ true }
    requires owners { AreOwnersOf board.old.journal.entries owners.old }
    ensures grew { Grew 0 board.old board.new }
    ensures over { OnOk result (settled_on board.new ≢ Running) }
    ensures owners { AreOwnersOf board.new.journal.entries owners.new }
    ensures kept { AreAllAsOf board.new.journal.entries quantum.new }
{
    quantum.forget();
    board.clear_marks();
    board.holds();
    let mut port = Alone::new(board);
    take_turns(&mut port, owners, quantum)
}

// Takes turns on a board on which no processor has a thread.
fn take_turns(
    port: &mut Alone<'_>,
    owners: &mut Owners,
    quantum: &mut Quantum,
) -> Result<(), NoMemory>
    requires rest { IsAtRest port.old.board.now owners.old }
    requires kept { AreAllAsOf port.old.board.now.journal.entries quantum.old }
    ensures same_reference { port.new.board.ghost_name ≡ port.old.board.ghost_name }
    ensures grew { Grew 0 port.old.board.now port.new.board.now }
    ensures over { OnOk result (settled_on port.new.board.now ≢ Running) }
    ensures owners { AreOwnersOf port.new.board.now.journal.entries owners.new }
    ensures kept { AreAllAsOf port.new.board.now.journal.entries quantum.new }
{
    let mut pace = Pace::new();
    let mut found = Found::Over;
    port.look(pace.wants_first(), quantum, &mut found);
    'turns: loop {
        match found {
            Found::Over => return Ok(()),
            _ => turn(port, owners, quantum, &mut pace, QUANTUM, &mut found)?,
        }
    }
}
