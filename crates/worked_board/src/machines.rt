//! A machine with a thread that puts a byte out and then goes round for ever, and one whose first step faults.

ghost use Rattle.std.specs.Prelude.{◌≡◌, IfOk};

use cache_board::{Board, Refused};
use cache_ident::{Caps, Frame, KernelNo, SpaceNo, ThreadNo, Vpn};
use flat_state::{Decl, Machine};
use phys_groups::Flags;
use std::alloc::Global;

pub const FIRST: KernelNo = KernelNo(0);

pub const SECOND: KernelNo = KernelNo(1);

pub const SPACE: SpaceNo = SpaceNo(0);

pub const PUTS: ThreadNo = ThreadNo(0);

pub const FAULTS: ThreadNo = ThreadNo(1);

pub const CODE: Vpn = Vpn(0);

fn caps(kernels: u32, spaces: u32, threads: u32, mappings: u32) -> Caps {
    Caps {
        kernels,
        spaces,
        threads,
        mappings,
    }
}

// The first kernel may lock itself and a row.
fn kernel(no: KernelNo) -> Decl {
    let limits = if no == FIRST {
        caps(1, 0, 0, 1)
    } else {
        Caps::default()
    };
    Decl::Kernel { no, limits }
}

fn right() -> Decl {
    Decl::Right {
        kernel: FIRST,
        group: 0,
        read: true,
        write: true,
    }
}

fn space() -> Decl {
    Decl::Space {
        no: SPACE,
        kernel: FIRST,
    }
}

// A thread with a byte in a0.
fn thread(no: ThreadNo, pc: u32) -> Decl {
    Decl::Thread {
        no,
        space: SPACE,
        pc,
        priority: 0,
        a0: 72,
        a1: 0,
    }
}

fn code_row() -> Decl {
    let flags = Flags {
        x: true,
        ..Flags::default()
    };
    Decl::Map {
        space: SPACE,
        vpn: CODE,
        frame: Frame(0),
        flags,
        receiver: None,
    }
}

fn word(offset: u32, value: u32) -> Decl {
    Decl::Word {
        frame: Frame(0),
        offset,
        value,
    }
}

/// The board of the machine, which takes at most so many steps.
pub fn declared(alloc: Global, steps: u64) -> Result<Board, Refused>
    ensures { IfOk result (λ board. board.limit ≡ steps) }
{
    let caps = caps(8, 6, 6, 9);
    let mut board = Board::new(alloc, Machine { groups: 1, caps }, steps)?;
    match declare_all(&mut board) {
        Ok(()) => Ok(board),
        Err(why) => {
            std::mem::forget(board);
            Err(why)
        }
    }
}

fn declare_all(board: &mut Board) -> Result<(), Refused>
    ensures { board.new.limit ≡ board.old.limit }
{
    let decls = [
        kernel(FIRST),
        kernel(SECOND),
        right(),
        space(),
        thread(PUTS, 0),
        thread(FAULTS, 16_384),
        code_row(),
        // Puts a0 out, and then goes round.
        word(0, 0x0010_0893),
        word(4, 0x0000_0073),
        word(8, 0x0000_006f),
    ];
    declare_each(board, &decls)
}

fn declare_each(board: &mut Board, decls: &[Decl]) -> Result<(), Refused>
    ensures { board.new.limit ≡ board.old.limit }
{
    for decl in decls {
        board.declare(decl)?;
    }
    Ok(())
}
