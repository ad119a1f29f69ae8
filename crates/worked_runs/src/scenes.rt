//! The board of a thread, what a processor needs beside it, and its report.

ghost use Rattle.std.specs.Prelude.{◌≡◌, ◌∷◌, IfOk, List};
ghost use Rattle.flat_state.specs.declared.events.Decl.{Decl};
ghost use Rattle.flat_state.specs.declared.events.Decl.TheVariants as declaration;
ghost use Rattle.flat_state.specs.declared.events.Machine.{Machine};
ghost use Rattle.flat_state.specs.Events.{AllFit};
ghost use Rattle.flat_state.specs.State.{nothing_declared};
ghost use Rattle.alone_run.specs.owners.specs.Known.{Known};
ghost use Rattle.worked_runs.specs.Owned.{HasOwners};

use board_opening::board_of;
use cache_ident::{Ident, Kind, NoMemory, SpaceNo, ThreadNo, Vpn};
use flat_report::report;
use flat_state::Decl;
use processors::{Board, Owners, Quantum};
use scenario_reader::read_opening;
use std::alloc::{AllocError, Global};

// A thread puts a letter out and ends, in six steps.
const LETTER: &str = "mem 1\nkernel 0\nright 0 0 rw\nspace 0 0\nthread 0 0 0\nmap 0 0 0 x\n\
word 0 0 00100893 04800513 00000073 00000893 00000513 00000073\nend\n";

/// The report of its run.
pub(crate) const REPORT: &str =
    "status done\nsteps 6\nspace 0 rows 1 referenced 1 modified 0\nthread 0 exit 0 out 1\nH\n";

/// How many steps a run on its board may take.
pub(crate) const STEPS: u64 = 1_000_000;

/// The first kernel, which the seal loads.
pub(crate) const FIRST: Ident = Ident {
    kind: Kind::Kernel,
    slot: 0,
    serial: 0,
};

const SPACE: Ident = Ident {
    kind: Kind::Space,
    slot: 0,
    serial: 1,
};

/// The thread, once it was loaded behind its space.
pub(crate) const THREAD: Ident = Ident {
    kind: Kind::Thread,
    slot: 0,
    serial: 2,
};

/// The page of its code.
pub(crate) const CODE: Vpn = Vpn(0);

// How many pages a quantum may copy.
const VIEWS: usize = 64;

/// A board, with the owners of its descriptors, and a quantum.
#[derive(Drop)]
pub(crate) struct Scene {
    pub board: Board,
    pub owners: Owners,
    pub quantum: Quantum,
}

// The sealed board of these declarations, the owners that they make, and a new quantum.
fn scene_of(alloc: Global, decls: &[Decl]) -> Result<Scene, NoMemory>
    requires fit { AllFit nothing_declared decls.now }
    requires machine { (machine : Machine) × (rest : List Decl) × (decls.now ≡ declaration.Machine machine ∷ rest) }
    ensures { IfOk result (λ scene. HasOwners scene.board scene.owners) }
{
    let mut board = board_of(alloc, decls, STEPS)?;
    let Ok(_) = board.seal() else {
        return Err(AllocError);
    };
    board.holds();
    let owners = Owners::new(alloc, decls)?;
    let quantum = Quantum::new(alloc, VIEWS)?;
    Ok(Scene {
        board,
        owners,
        quantum,
    })
}

/// The sealed board of the thread, with its owners, and a new quantum.
pub(crate) fn opened(alloc: Global) -> Result<Scene, NoMemory>
    ensures { IfOk result (λ scene. HasOwners scene.board scene.owners) }
{
    match read_opening(alloc, LETTER.as_bytes()) {
        Ok(scenario) => scene_of(alloc, scenario.decls()),
        Err(_) => Err(AllocError),
    }
}

/// Loads the space, the thread and the row of its code, and answers whether the thread has the identifier that it should.
pub(crate) fn load_thread(board: &mut Board) -> bool
    ensures { (known : Known) → HasOwners board.old known → HasOwners board.new known }
{
    let _space = board.load_space(0, FIRST, SpaceNo(0));
    let thread = board.load_thread(0, FIRST, SPACE, ThreadNo(0));
    let _row = board.load_mapping(0, FIRST, SPACE, CODE, None);
    thread == Ok(THREAD)
}

/// The report of a board as it stands.
pub(crate) fn report_of(alloc: Global, board: &Board) -> Result<Vec<u8>, NoMemory> {
    report(alloc, board.machine(), board.settled(), board.steps())
}
