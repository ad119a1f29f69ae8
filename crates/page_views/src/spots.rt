//! Where accesses go through.

ghost use Rattle.std.specs.Prelude.{◌≡◌, Bool, true, ℕ, ◌%◌, ◌<◌, IfSome};
ghost use Rattle.std.specs.Bool.{OnTrue};
ghost use Rattle.page_views.specs.Spots.{added, marked_with, no_found, no_lines_found, no_spot, no_spots, with_found, IsAt, IsFound, IsFoundAt, IsNoted};

use crate::page::Origin;
use rv32_exec::Access;

const LINES: usize = 64;

// No page has this number.
const NO_PAGE: u32 = u32::MAX;

// The view of a page, by its place, which has the mark of an access.
#[derive(Clone, Copy)]
pub(crate) struct Spot {
    pub(crate) page: u32,
    pub(crate) place: u8,
}

impl Spot {
    pub(crate) fn none() -> Spot
        ensures { result ≡ no_spot }
    {
        Spot {
            page: NO_PAGE,
            place: 0,
        }
    }

    // The place, if it is that of the view of the page.
    #[inline]
    pub(crate) fn place(&self, page: u32) -> Option<u8>
        ensures { IfSome result (λ place. self.now ≡ record { page = page; place = place }) }
    {
        if self.page == page {
            Some(self.place)
        } else {
            None
        }
    }
}

// The view of a page, by its place, and whether it has the mark of an access.
#[derive(Clone, Copy)]
pub(crate) struct Found {
    pub(crate) page: u32,
    pub(crate) place: u8,
    pub(crate) marked: bool,
}

impl Found {
    fn none() -> Found
        ensures { result ≡ no_found }
    {
        Found {
            page: NO_PAGE,
            place: 0,
            marked: false,
        }
    }
}

// For the pages of each line, the view that was noted last.
#[derive(Clone, Copy)]
pub(crate) struct FoundLines {
    pub(crate) lines: [Found; LINES],
}

impl FoundLines {
    fn none() -> FoundLines
        ensures { result ≡ no_lines_found }
    {
        FoundLines {
            lines: [Found::none(); LINES],
        }
    }

    // The place of the view of a page, if that is the one that was noted last for the pages of its line.
    #[inline]
    fn place(&self, page: u32) -> Option<u8>
        ensures { IfSome result (IsFoundAt self.now page) }
    {
        let found = &self.lines[line_of(page)];
        if found.page == page {
            Some(found.place)
        } else {
            None
        }
    }

    // Whether the view of a page is noted, and has the mark.
    #[inline]
    fn is_marked(&self, page: u32) -> bool
        ensures { OnTrue result ((place : ℕ) × IsFound self.now page place true) }
    {
        let found = &self.lines[line_of(page)];
        found.page == page && found.marked
    }

    // Notes the place of the view of a page.
    fn note(&mut self, page: u32, place: u8, marked: bool)
        ensures { self.new ≡ with_found page place marked self.old }
    {
        self.lines[line_of(page)] = Found {
            page,
            place,
            marked,
        };
    }

    // The view of a page, which is noted, has the mark.
    fn mark(&mut self, page: u32)
        ensures { (place : ℕ) (marked : Bool) → IsFound self.old page place marked → self.new ≡ with_found page place true self.old }
    {
        self.lines[line_of(page)].marked = true;
    }
}

// The line of a page.
#[inline]
fn line_of(page: u32) -> usize
    ensures { result ≡ page % 64 }
{
    page as usize % LINES
}

// Views that let accesses of a kind through, and whether they have the mark of one. Those of loads and stores are noted as they are filled,
// so that their first access needs no search either.
#[derive(Clone, Copy)]
pub(crate) struct Spots {
    // That of the last fetch alone: the next one is mostly of the same page, so no line is looked for.
    pub(crate) fetch: Spot,
    pub(crate) reads: FoundLines,
    pub(crate) writes: FoundLines,
}

impl Spots {
    pub(crate) fn none() -> Spots
        ensures { result ≡ no_spots }
    {
        Spots {
            fetch: Spot::none(),
            reads: FoundLines::none(),
            writes: FoundLines::none(),
        }
    }

    // The place of the view of a page, where it is known that it lets the access through.
    #[inline]
    pub(crate) fn place(&self, page: u32, access: Access) -> Option<u8>
        ensures { IfSome result (IsAt access self.now page) }
    {
        match access {
            Access::Fetch => self.fetch.place(page),
            Access::Read => self.reads.place(page),
            Access::Write => self.writes.place(page),
        }
    }

    // Whether it is known that the view of a page lets the access through and has its mark.
    #[inline]
    pub(crate) fn is_marked(&self, page: u32, access: Access) -> bool
        ensures { OnTrue result ((place : ℕ) × IsNoted access self.now page place true) }
    {
        match access {
            Access::Fetch => self.fetch.page == page,
            Access::Read => self.reads.is_marked(page),
            Access::Write => self.writes.is_marked(page),
        }
    }

    // Notes the view of a page that lets the access through and has its mark.
    pub(crate) fn note(&mut self, page: u32, access: Access, place: u8)
        ensures { self.new ≡ marked_with page access place self.old }
    {
        match access {
            Access::Fetch => self.fetch = Spot { page, place },
            Access::Read => self.reads.note(page, place, true),
            Access::Write => self.writes.note(page, place, true),
        }
    }

    // The view of a page, which is noted, has the mark of the access.
    pub(crate) fn mark(&mut self, page: u32, access: Access)
        ensures { (place : ℕ) (marked : Bool) → IsNoted access self.old page place marked → self.new ≡ marked_with page access place self.old }
    {
        match access {
            Access::Fetch => {}
            Access::Read => self.reads.mark(page),
            Access::Write => self.writes.mark(page),
        }
    }

    // Notes a view that is filled, for the accesses that it lets through.
    pub(crate) fn note_view(&mut self, origin: &Origin, place: usize)
        requires { place < 64 }
        ensures { self.new ≡ added origin.now place self.old }
    {
        let page = origin.vpn.0;
        if origin.flags.r {
            self.reads.note(page, place as u8, false);
        }
        if origin.flags.w {
            self.writes.note(page, place as u8, false);
        }
    }
}
