//! Copied pages as a space for steps.

ghost use Rattle.std.specs.Prelude.{◌≡◌, ℕ, ◌+◌, ◌%◌, ◌<◌, List, Option};
ghost use Rattle.std.specs.Result.{result_ok};
ghost use Rattle.rv32_exec.specs.Pages.{read_through, size_of};
ghost use Rattle.page_views.specs.Views.{pages_of_views, rest_of, Copied, Dated};

use crate::table::PageViews;
use phys_groups::PAGE_BYTES;
use rv32_exec::{Access, Hole, Space, Width};
use rv32_isa::Instr;

// The offset of an address in its page, with room for the width.
#[inline]
fn offset(va: u32, width: Width) -> usize
    requires { va % size_of width ≡ 0 }
    ensures offset { result ≡ va % 4096 }
    ensures within { result + size_of width < 4097 }
{
    (va % PAGE_BYTES) as usize
}

impl PageViews {
    // The number that an access reads.
    #[inline]
    fn read(&self, va: u32, access: Access, width: Width) -> Result<u32, Hole>
        requires { va % size_of width ≡ 0 }
        ensures { result_ok result ≡ read_through access (pages_of_views self.now.views) va width }
    {
        match self.through(va, access) {
            Some(view) => Ok(view.number(offset(va, width), width)),
            None => Err(Hole),
        }
    }
}

impl Space for PageViews {
    ghost pages = { λ table. pages_of_views table.views };

    ghost Kept = { ℕ × List Copied × List (Option Dated) };

    ghost kept = { rest_of };

    #[inline]
    fn fetch(&self, va: u32) -> Result<u32, Hole> {
        self.read(va, Access::Fetch, Width::Word)
    }

    #[inline]
    fn instruction(&mut self, va: u32, word: u32) -> Option<Instr> {
        self.decoded.instruction(va, word)
    }

    #[inline]
    fn load(&self, va: u32, width: Width) -> Result<u32, Hole> {
        self.read(va, Access::Read, width)
    }

    #[inline]
    fn store(&mut self, va: u32, width: Width, value: u32) -> Result<(), Hole> {
        let Some(place) = self.place_through(va, Access::Write) else {
            return Err(Hole);
        };
        self.put(place, offset(va, width), width, value);
        Ok(())
    }

    #[inline]
    fn touch(&mut self, va: u32, access: Access) {
        self.mark(va, access);
    }
}
