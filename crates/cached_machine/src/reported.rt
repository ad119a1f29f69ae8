//! What a report reads of the machine.

use crate::machine::CachedMachine;
use crate::reading;
use cache_ident::ThreadNo;
use flat_report::{Reported, RowTally};
use std::alloc::{AllocError, Global};
use thread_cache::ThreadRec;

impl Reported for CachedMachine {
    /// It goes once over the names of the rows, and looks each of them up.
    fn tally_rows(&self, alloc: Global) -> Result<RowTally, AllocError> {
        reading::known(&self.tables);
        reading::tally_rows(&self.tables, alloc)
    }

    fn no_of(thread: &ThreadRec) -> ThreadNo {
        thread.no
    }

    fn output_of(thread: &ThreadRec) -> &[u8] {
        thread.output.bytes()
    }
}
