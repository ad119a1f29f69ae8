//! What a report reads of a machine.

ghost use Rattle.std.specs.Prelude.{◌≡◌, IfOk, length};
ghost use Rattle.flat_report.specs.Counts.{AreCounts};

use crate::counts::RowTally;
use cache_ident::ThreadNo;
use flat_machine::Flat;
use flat_rules::Records;
use flat_state::FlatThread;
use std::alloc::{AllocError, Global};

/// Records that a report can be made of: the machine as the rules read it, and beside that what only a report asks for.
pub trait Reported: Records {
    /// What the rows of each space come to. It goes once over the rows in declared order, and takes memory for the spaces.
    fn tally_rows(&self, alloc: Global) -> Result<RowTally, AllocError>
        ensures { IfOk result (AreCounts (Self.state self.now).rows (length (Self.state self.now).spaces)) };

    /// The number of a thread.
    fn no_of(thread: &Self::Thread) -> ThreadNo
        ensures { result ≡ (Self.shown thread.now).no };

    /// What a thread has put out.
    fn output_of(thread: &Self::Thread) -> &[u8]
        ensures { result.now ≡ (Self.shown thread.now).output };
}

impl Reported for Flat {
    fn tally_rows(&self, alloc: Global) -> Result<RowTally, AllocError> {
        let mut tally = RowTally::new(alloc, self.spaces())?;
        for row in self.rows() {
            tally.add(row);
        }
        Ok(tally)
    }

    fn no_of(thread: &FlatThread) -> ThreadNo {
        thread.no
    }

    fn output_of(thread: &FlatThread) -> &[u8] {
        thread.output.bytes()
    }
}
