//! Which pages threads touched last.

ghost use Rattle.std.specs.Prelude.{◌<◌};

use cache_ident::Vpn;

// For so many threads pages are noted. Of threads whose numbers are the same modulo this it is the one that ran last.
const THREADS: usize = 8;

/// So many pages are noted of a thread. They leave three of eight views to its other pages, where there are the most.
pub const MOST_RECENT: usize = 40;

// The first pages that were touched.
#[derive(Clone, Copy)]
struct Pages {
    count: usize,
    pages: [Vpn; MOST_RECENT],
}

impl Pages {
    fn none() -> Pages {
        Pages {
            count: 0,
            pages: [Vpn(0); MOST_RECENT],
        }
    }
}

// .. by a thread.
#[derive(Clone, Copy)]
struct Touched {
    whose: u32,
    pages: Pages,
}

// The first pages that threads touched in their last quanta, in this order, and those that were touched since the last beginning.
// Nothing is promised of them.
#[derive(Clone, Copy)]
pub(crate) struct Recent {
    now: Pages,
    of_threads: [Touched; THREADS],
}

impl Recent {
    // None of any thread.
    pub(crate) fn none() -> Recent {
        let none = Touched {
            whose: 0,
            pages: Pages::none(),
        };
        Recent {
            now: Pages::none(),
            of_threads: [none; THREADS],
        }
    }

    // None was touched since the beginning.
    pub(crate) fn begin(&mut self) {
        self.now.count = 0;
    }

    // A page was touched, `again` where it had been before.
    pub(crate) fn touch(&mut self, page: Vpn, again: bool) {
        let count = self.now.count;
        if !again && count < MOST_RECENT {
            self.now.pages[count] = page;
            self.now.count = count + 1;
        }
    }

    // Notes the pages that were touched as those of a thread.
    pub(crate) fn note(&mut self, whose: u32) {
        let pages = self.now;
        self.of_threads[line_of(whose)] = Touched { whose, pages };
    }

    // Notes none of a thread.
    pub(crate) fn forget(&mut self, whose: u32) {
        self.of_threads[line_of(whose)].pages.count = 0;
    }

    // The page that was noted of a thread at a place.
    pub(crate) fn page(&self, whose: u32, place: usize) -> Option<Vpn> {
        let noted = &self.of_threads[line_of(whose)];
        if noted.whose == whose && place < noted.pages.count && place < MOST_RECENT {
            Some(noted.pages.pages[place])
        } else {
            None
        }
    }
}

// The line of a thread.
fn line_of(whose: u32) -> usize
    ensures { result < 8 }
{
    whose as usize % THREADS
}
