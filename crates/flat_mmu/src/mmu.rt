//! Memory and rows as the threads of one space see them.

ghost use Rattle.std.specs.Prelude.{◌≡◌, ◌%◌, ◌<◌, IfSome};
ghost use Rattle.phys_groups.specs.Translation.{place_in as place_in_def};
ghost use Rattle.rv32_exec.specs.Pages.{is_write, number_at, size_of};
ghost use Rattle.flat_rules.specs.flat_state.specs.Pages.{pages_of};
ghost use Rattle.flat_rules.specs.Readings.{IsInMemory};
ghost use Rattle.flat_mmu.specs.Seen.{Beside, beside, seen, seen_row};

use cache_ident::{Frame, SpaceNo, Vpn};
use flat_rules::{Records, Steps, reached};
use phys_groups::{PAGE_BYTES, Row};
use rv32_exec::{Access, Hole, Space, Width};
use rv32_isa::{Instr, decode};

/// A machine's memory and rows, for a step in one space.
///
/// The pages of the space are its rows. An access goes through the row of its page, where that row has the flag of the
/// access and is fit, to the row's frame; two rows of one frame see each other's stores. Every other access is a hole,
/// and changes nothing. What the tables keep beside memory and rows stays as it is. No call takes memory, and an access
/// costs a look at its row.
#[derive(Drop)]
pub struct Mmu<'a, T> {
    tables: &'a mut T,
    space: SpaceNo,
}

impl<'a, T: Steps> Mmu<'a, T> {
    /// The memory and the rows of these tables for the threads of a space.
    pub fn new(tables: &'a mut T, space: SpaceNo) -> Mmu<'a, T>
        ensures same_tables { result.tables.ghost_name ≡ tables.entry.ghost_name }
        ensures as_they_are { result.tables.now ≡ tables.old }
        ensures space { result.space ≡ space }
    {
        Mmu { tables, space }
    }

    // The row that an access goes through. Its frame is in memory.
    fn translate(&self, access: Access, va: u32) -> Option<Row>
        ensures row { result ≡ seen_row (seen (T.state self.now.tables.now) self.now.space) access va }
        ensures in_memory { IfSome result (λ row. IsInMemory (T.state self.now.tables.now).memory row.frame) }
    {
        reached(&*self.tables, access, self.space, va).ok()
    }

    // The number at an address of the row's page.
    fn number(&self, row: &Row, va: u32, width: Width) -> u32
        requires in_memory { IsInMemory (T.state self.now.tables.now).memory row.now.frame }
        requires aligned { va % size_of width ≡ 0 }
        ensures { result ≡ number_at width (T.state self.now.tables.now).memory (place_in_def row.now.frame va) }
    {
        let at = place_in(row.frame, va);
        let memory = self.tables.memory();
        match width {
            Width::Byte => u32::from(memory.byte(at)),
            Width::Half => u32::from(memory.half(at)),
            Width::Word => memory.word(at),
        }
    }
}

// The place in memory of an address whose page is mapped to that frame.
fn place_in(frame: Frame, va: u32) -> u32
    requires { frame.0 < 2048 }
    ensures { result ≡ place_in_def frame va }
{
    frame.0 * PAGE_BYTES + va % PAGE_BYTES
}

// Whether the access leaves the mark of a store.
fn writes(access: Access) -> bool
    ensures { result ≡ is_write access }
{
    matches!(access, Access::Write)
}

impl<'a, T: Steps> Space for Mmu<'a, T> {
    ghost pages = { λ m. pages_of (T.state m.tables.now) m.space };

    // The tables of before are those of after, and but for the pages they are as they were, with what they keep beside
    // memory and rows.
    ghost Kept = { Beside × T.Rest };

    ghost kept = { λ m. (beside (T.state m.tables.now) m.space m.tables.ghost_name, T.rest m.tables.now) };

    fn fetch(&self, va: u32) -> Result<u32, Hole> {
        match self.translate(Access::Fetch, va) {
            Some(row) => Ok(self.number(&row, va, Width::Word)),
            None => Err(Hole),
        }
    }

    fn instruction(&mut self, _va: u32, word: u32) -> Option<Instr> {
        decode(word)
    }

    fn load(&self, va: u32, width: Width) -> Result<u32, Hole> {
        match self.translate(Access::Read, va) {
            Some(row) => Ok(self.number(&row, va, width)),
            None => Err(Hole),
        }
    }

    fn store(&mut self, va: u32, width: Width, value: u32) -> Result<(), Hole> {
        match self.translate(Access::Write, va) {
            Some(row) => {
                self.tables.store(place_in(row.frame, va), width, value);
                Ok(())
            }
            None => Err(Hole),
        }
    }

    fn touch(&mut self, va: u32, access: Access) {
        self.tables
            .mark(self.space, Vpn(va / PAGE_BYTES), writes(access));
    }
}
