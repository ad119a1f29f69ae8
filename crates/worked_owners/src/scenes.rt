//! Boards of scenarios with their owners, and what is asked of them. A test is a table of that, and no scene stands in it: a
//! statement beside a scene takes seconds to prove, and a line of a table none.

use app_kernel::{Alone, Board, Notice, Owners, Refused, Served, serve};
use board_opening::board_of;
use cache_ident::{Ident, Kind, Name, NoMemory, SpaceNo, ThreadNo, Vpn};
use journal_text::print;
use rv32_exec::{Access, Reason, Status};
use scenario_reader::read_opening;
use std::alloc::{AllocError, Global};

/// A thread whose code puts a byte out and ends.
pub const PLAIN: &str =
    "mem 1\nkernel 0\nright 0 0 rw\nspace 0 0\nthread 0 0 0\nmap 0 0 0 x\nword 0 0 00100893 04800513 00000073 00000893 00000513 00000073\nend\n";

/// A thread that fetches from where there is no row, of two kernels' spaces; and a row beyond its kernel's rights.
pub const BARE: &str =
    "mem 1\nkernel 0\nkernel 1\nright 0 0 rw\nspace 0 0\nspace 1 1\nthread 0 0 0x4000\nthread 1 1 0\nmap 1 0 0 x\nend\n";

/// A thread of kernel 1 that stores into a message row, and one of kernel 2 that takes the signals.
pub const MESSAGES: &str =
    "mem 1\ncaps 8 8 8 8\nkernel 0\nkernel 1\nkernel 2\nright 1 0 rw\nright 2 0 rw\nspace 0 1\nspace 1 2\nthread 0 0 0\nthread 1 1 0\nmap 0 0 0 x\nmap 0 16 2 rwm\nmap 1 0 1 x\nmap 1 32 2 r signal 1\nword 0 0 000102b7 0202ae23 00000073\nword 1 0 00300893 00000073 00200893 00000073 00000893 00000073\nend\n";

/// A thread of the first of kernel 1's spaces asks for a thread that puts a byte out and ends.
pub const SPAWNING: &str =
    "mem 1\nkernel 0\nkernel 1\nright 1 0 rw\nspace 0 0\nspace 1 1\nspace 2 1\nthread 0 1 0\nmap 1 0 0 x\ncode 0 0\naddi a0, zero, 28\naddi a1, zero, 65\naddi a2, zero, 0\naddi a7, zero, 8\necall\naddi a7, zero, 0\necall\naddi a7, zero, 1\necall\naddi a7, zero, 0\necall\nendcode\nend\n";

/// A thread asks for one that puts a byte out and ends with it as its code, and ends.
pub const MADE: &str =
    "mem 1\nkernel 0\nright 0 0 rw\nspace 0 0\nthread 0 0 0\nmap 0 0 0 x\ncode 0 0\naddi a0, zero, 28\naddi a1, zero, 65\naddi a2, zero, 0\naddi a7, zero, 8\necall\naddi a7, zero, 0\necall\naddi a7, zero, 1\necall\naddi a7, zero, 0\necall\nendcode\nend\n";

/// A thread that loads from where there is no row, and five that load from their code. Five threads can be loaded.
pub const CROWDED: &str =
    "mem 1\ncaps 8 8 5 8\nkernel 0\nright 0 0 rw\nspace 0 0\nthread 0 0 0 a0 0x4000\nthread 1 0 0\nthread 2 0 0\nthread 3 0 0\nthread 4 0 0\nthread 5 0 0\nmap 0 0 0 rx\ncode 0 0\nlw a1, 0(a0)\nendcode\nend\n";

// A board and its owners.
#[derive(Drop)]
struct Scene {
    board: Board,
    owners: Owners,
}

/// A line of a test: what is asked of a scene, and what is to come of it.
#[derive(Clone, Copy)]
pub enum Ask {
    /// For a thread's fault of a fetch from the page of that number owners do this, by so many calls.
    Fault(u32, u32, Served, u64),
    /// After such a fault the thread goes on, by any number of calls.
    FaultGoesOn(u32, u32),
    /// For a thread that is in a call owners do this, by so many calls of their own.
    Trap(u32, Served, u64),
    /// The thread goes on, by any number of calls.
    TrapGoesOn(u32),
    /// Owners are told that the thread is in no call.
    NoTrap(u32),
    /// So many steps of a thread can be taken.
    Step(u32, u32),
    /// A thread has ended for this reason.
    HasEnded(u32, Reason),
    /// The text of the journal ends with these lines.
    Tells(&'static str),
    /// The board has taken so many steps.
    Steps(u64),
    /// The identifier that the load of that number gave is noted for a name.
    Noted(Name, Kind, u64),
    /// Such an identifier is noted from now on.
    Note(Name, Kind, u64),
    /// A kernel can unload the descriptor that the load of that number loaded.
    Unload(Ident, Kind, u64),
    /// No thread is known to receive the signals of a page's row.
    NoReceiver(SpaceNo, Vpn),
    /// The thread that receives them is learnt.
    LearnReceiver(SpaceNo, Vpn, ThreadNo),
    /// A thread is known to be in a space.
    Space(ThreadNo, SpaceNo),
    /// The space of a thread is learnt.
    LearnSpace(ThreadNo, SpaceNo),
}

// The sealed board of a scenario, and the owners that its declarations make.
fn opened(alloc: Global, text: &str) -> Result<Scene, NoMemory> {
    let Ok(scenario) = read_opening(alloc, text.as_bytes()) else {
        return Err(AllocError);
    };
    let mut board = board_of(alloc, scenario.decls(), 1_000)?;
    let Ok(_) = board.seal() else {
        return Err(AllocError);
    };
    let owners = Owners::new(alloc, scenario.decls())?;
    Ok(Scene { board, owners })
}

// A fault of a fetch from the page of that number.
fn fault(page: u32) -> Notice {
    Notice::Fault {
        va: page.saturating_mul(4_096),
        access: Access::Fetch,
    }
}

impl Scene {
    // What owners do for a thread, and how many calls they make for it.
    fn serve(&mut self, thread: u32, notice: Notice) -> (Served, u64) {
        let mut port = Alone::new(&mut self.board);
        let served = serve(&mut port, &mut self.owners, ThreadNo(thread), notice);
        (served, port.heard.calls)
    }

    // Takes so many steps of a thread, and says whether each could be taken.
    fn step(&mut self, thread: u32, steps: u32) -> bool {
        for _ in 0..steps {
            if self.board.heal_step(0, ThreadNo(thread)).is_err() {
                return false;
            }
        }
        true
    }

    // Has the thread ended for this reason?
    fn has_ended(&self, thread: u32, reason: Reason) -> bool {
        let record = self.board.flat_thread(ThreadNo(thread));
        record.is_some_and(|record| record.status == Status::Ended(reason))
    }

    // Does the text of the journal end with these lines?
    fn tells(&self, alloc: Global, lines: &str) -> Result<bool, NoMemory> {
        let text = print(alloc, self.board.journal())?;
        Ok(text.as_slice().ends_with(lines.as_bytes()))
    }

    // Unloads a descriptor of a kernel.
    fn unload(&mut self, kernel: Ident, ident: Ident) -> bool {
        self.board.unload(0, kernel, ident).is_ok()
    }

    // Is a thread in no call that could be completed?
    fn has_no_trap(&mut self, thread: u32) -> bool {
        let (served, _) = self.serve(thread, Notice::Trap);
        matches!(served, Served::Again(Refused::NotTrapped { .. }))
    }

    // Does what is asked, and says whether it comes out so.
    fn comes_out(&mut self, alloc: Global, ask: &Ask) -> Result<bool, NoMemory> {
        let so = match *ask {
            Ask::Fault(thread, page, served, calls) => self.serve(thread, fault(page))
                == (served, calls),
            Ask::FaultGoesOn(thread, page) => self.serve(thread, fault(page)).0 == Served::Resumed,
            Ask::Trap(thread, served, calls) => self.serve(thread, Notice::Trap) == (served, calls),
            Ask::TrapGoesOn(thread) => self.serve(thread, Notice::Trap).0 == Served::Resumed,
            Ask::NoTrap(thread) => self.has_no_trap(thread),
            Ask::Step(thread, steps) => self.step(thread, steps),
            Ask::HasEnded(thread, reason) => self.has_ended(thread, reason),
            Ask::Tells(lines) => self.tells(alloc, lines)?,
            Ask::Steps(steps) => self.board.steps() == steps,
            Ask::Unload(kernel, kind, serial) => self.unload(kernel, ident(kind, serial)),
            _ => self.is_noted(ask)?,
        };
        Ok(so)
    }

    // The same, of what owners note.
    fn is_noted(&mut self, ask: &Ask) -> Result<bool, NoMemory> {
        match *ask {
            Ask::Noted(name, kind, serial) => return Ok(
                self.owners.noted(name) == Some(ident(kind, serial)),
            ),
            Ask::NoReceiver(space, vpn) => return Ok(self.owners.receiver_of(space, vpn).is_none()),
            Ask::Space(thread, space) => return Ok(self.owners.space_of(thread) == Some(space)),
            Ask::Note(name, kind, serial) => self.owners.note(name, ident(kind, serial))?,
            Ask::LearnReceiver(space, vpn, thread) => self
                .owners
                .learn_receiver(space, vpn, Some(thread))?,
            Ask::LearnSpace(thread, space) => self.owners.learn_space(thread, space)?,
            _ => return Ok(false),
        }
        Ok(true)
    }

    // Asks one after the other, and says the place of the first that comes out otherwise, if one does.
    fn go_through(&mut self, alloc: Global, asks: &[Ask]) -> Result<Option<usize>, NoMemory> {
        for (place, ask) in asks.iter().enumerate() {
            if !self.comes_out(alloc, ask)? {
                return Ok(Some(place));
            }
        }
        Ok(None)
    }
}

/// The place of the first ask that comes out otherwise on the board of a scenario, if one does. They are asked in order.
pub fn first_otherwise(alloc: Global, text: &str, asks: &[Ask]) -> Result<Option<usize>, NoMemory> {
    let mut scene = opened(alloc, text)?;
    scene.go_through(alloc, asks)
}

/// The first kernel, and the next one that was loaded first.
pub const FIRST: Ident = Ident {
    kind: Kind::Kernel,
    slot: 0,
    serial: 0,
};

pub const SECOND: Ident = Ident {
    kind: Kind::Kernel,
    slot: 1,
    serial: 1,
};

// The identifier that the load of that number gave, for the first slot.
fn ident(kind: Kind, serial: u64) -> Ident {
    Ident {
        kind,
        slot: 0,
        serial,
    }
}

pub const SPACE: Name = Name::Space(SpaceNo(0));

pub const THREAD: Name = Name::Thread(ThreadNo(0));

pub const CODE: Name = Name::Mapping(SpaceNo(0), Vpn(0));
