//! Slots that frames were in of late, when they were views, and through which rows pages were copied.

ghost use Rattle.std.specs.Prelude.{◌<◌};

use cache_ident::{Frame, Ident, Vpn};

const LINES: usize = 128;

// So many lines are between the pages of two threads.
const LINES_OF_ONE: usize = 16;

// The line of a page of the thread with that number.
fn line(vpn: Vpn, whose: u32) -> usize
    ensures { result < 128 }
{
    (vpn.0 as usize + whose as usize * LINES_OF_ONE) % LINES
}

// For the pages of each line, the row that one of them was copied through last, by their numbers; and for the frames of each line the slot that
// one of them was in last, and when one became a view last, in views that were filled by then. It stands for nothing: whoever takes a slot
// looks what is in it, whoever takes a row looks whose it is, and any slot may be given up.
#[derive(Clone, Copy)]
pub(crate) struct LastSlots {
    rows: [(Vpn, Ident); LINES],
    by_frame: [u8; LINES],
    filled: [u32; LINES],
    now: u32,
}

impl LastSlots {
    pub(crate) fn none() -> LastSlots {
        LastSlots {
            rows: [(Vpn(0), Ident::default()); LINES],
            by_frame: [0; LINES],
            filled: [0; LINES],
            now: 0,
        }
    }

    // The row that a page of the thread with that number was copied through last.
    pub(crate) fn row(&self, whose: u32, vpn: Vpn) -> Option<Ident> {
        let (noted, row) = self.rows[line(vpn, whose)];
        if noted == vpn { Some(row) } else { None }
    }

    pub(crate) fn note_row(&mut self, whose: u32, vpn: Vpn, row: Ident) {
        self.rows[line(vpn, whose)] = (vpn, row);
    }

    pub(crate) fn of_frame(&self, frame: Frame) -> usize {
        self.by_frame[frame.0 as usize % LINES] as usize
    }

    pub(crate) fn note(&mut self, frame: Frame, slot: usize) {
        self.by_frame[frame.0 as usize % LINES] = (slot % 256) as u8;
    }

    // A page of the frame becomes a view.
    pub(crate) fn note_filled(&mut self, frame: Frame) {
        self.now = self.now.wrapping_add(1);
        self.filled[frame.0 as usize % LINES] = self.now;
    }

    // How many views were filled since one of the frame was.
    pub(crate) fn age(&self, frame: Frame) -> u32 {
        self.now.wrapping_sub(self.filled[frame.0 as usize % LINES])
    }
}
