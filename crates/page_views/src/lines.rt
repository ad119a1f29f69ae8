//! Where views stand, by the numbers of their pages and frames.

ghost use Rattle.std.specs.Prelude.{◌≡◌, ◌%◌, ◌<◌, Some, slice_get};
ghost use Rattle.page_views.specs.Lines.{no_lines, noted};

const LINES: usize = 128;

// For the numbers of each line, the place that was noted last.
#[derive(Clone, Copy)]
pub(crate) struct Lines {
    places: [Option<u8>; LINES],
}

impl Lines {
    pub(crate) fn none() -> Lines
        ensures { result ≡ no_lines }
    {
        Lines {
            places: [None; LINES],
        }
    }

    // The place that was noted last for a number of the same line.
    #[inline]
    pub(crate) fn place(&self, number: u32) -> Option<u8>
        ensures { slice_get self.now.places (number % 128) ≡ Some result }
    {
        self.places[line_of(number)]
    }

    // Notes a place, over that of another number of its line.
    pub(crate) fn note(&mut self, number: u32, place: u8)
        ensures { self.new ≡ noted number place self.old }
    {
        self.places[line_of(number)] = Some(place);
    }
}

// The line of a number.
#[inline]
fn line_of(number: u32) -> usize
    ensures { result ≡ number % 128 }
{
    number as usize % LINES
}
