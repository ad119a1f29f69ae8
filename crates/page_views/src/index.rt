//! What is known of the views of a table.

ghost use Rattle.std.specs.Prelude.{◌≡◌, ◌<◌};
ghost use Rattle.page_views.specs.Index.{no_index, with_view};

use crate::lines::Lines;
use crate::page::Origin;

// How many views there are, and what is known of them without a look at each.
#[derive(Clone, Copy)]
pub(crate) struct Index {
    pub(crate) count: usize,
    // Whether one has the message flag.
    pub(crate) messages: bool,
    // Whether two may be of one frame.
    pub(crate) paired: bool,
    // By the numbers of their pages and of their frames. Where no place is noted, no view has a number of that line.
    pub(crate) pages: Lines,
    pub(crate) frames: Lines,
}

impl Index {
    pub(crate) fn none() -> Index
        ensures { result ≡ no_index }
    {
        Index {
            count: 0,
            messages: false,
            paired: false,
            pages: Lines::none(),
            frames: Lines::none(),
        }
    }

    // A view more, behind the others. `shared` says whether another is of its frame.
    pub(crate) fn add(&mut self, origin: &Origin, shared: bool)
        requires { self.old.count < 64 }
        ensures { self.new ≡ with_view origin.now shared self.old }
    {
        let place = self.count as u8;
        self.pages.note(origin.vpn.0, place);
        self.frames.note(origin.frame.0, place);
        self.count += 1;
        self.messages |= origin.flags.m;
        self.paired |= shared;
    }
}
