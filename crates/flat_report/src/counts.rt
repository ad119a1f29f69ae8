//! The rows of each space, counted.

ghost use Rattle.std.specs.Prelude.{◌≡◌, ◌<◌, ◌^◌, ◌∷◌, ◌++◌, [], List, ℕ, IfOk, length};
ghost use Rattle.phys_groups.specs.declared.rows.Row.{Row};
ghost use Rattle.flat_report.specs.Counts.{counted, with_row, AreCounts, CountsFew};

use cache_ident::SpaceNo;
use phys_groups::Row;
use std::alloc::{AllocError, Global};
use std::marker::Model;

/// How many rows a space has, and how many of them have each bit.
#[derive(Clone, Copy, Default)]
pub struct RowCounts {
    pub rows: u64,
    pub referenced: u64,
    pub modified: u64,
}

/// What rows that came one after another come to for each space. A contract sees the counts of the spaces, by number.
#[derive(Drop)]
pub struct RowTally {
    counts: Vec<RowCounts>,
}

impl Model for RowTally {
    ghost use Rattle.std.specs.Prelude.{List};
    ghost use Rattle.flat_report.specs.declared.counts.RowCounts.{RowCounts};

    ghost Value = { List RowCounts };

    ghost view = { λ tally. tally.counts.items };
}

// Counts a row.
fn count(counts: &mut RowCounts, row: &Row)
    requires rows { counts.old.rows < 2 ^ 63 }
    requires referenced { counts.old.referenced < 2 ^ 63 }
    requires modified { counts.old.modified < 2 ^ 63 }
    ensures { counts.new ≡ with_row row.now counts.old }
{
    counts.rows += 1;
    counts.referenced += u64::from(row.referenced);
    counts.modified += u64::from(row.modified);
}

impl RowTally {
    /// For so many spaces, before any row came.
    pub fn new(alloc: Global, spaces: u32) -> Result<RowTally, AllocError>
        ensures { IfOk result (λ tally. AreCounts [] spaces tally) }
    {
        let counts = vec![in alloc; RowCounts::default(); spaces as usize]?;
        Ok(RowTally { counts })
    }

    /// Counts one row more, if it is of one of the spaces. Constant time.
    pub fn add(&mut self, row: &Row)
        requires { CountsFew self.old }
        ensures { (rows : List Row) (spaces : ℕ) → AreCounts rows spaces self.old → AreCounts (rows ++ row.now ∷ []) spaces self.new }
    {
        if let Some(counts) = self.counts.get_mut(row.space.0 as usize) {
            count(counts, row);
        }
    }

    /// What came of a space. Constant time.
    pub fn counts_of(&self, space: SpaceNo) -> RowCounts
        requires { space.0 < length self.now }
        ensures { (rows : List Row) (spaces : ℕ) → AreCounts rows spaces self.now → result ≡ counted rows space.0 }
    {
        self.counts[space.0 as usize]
    }
}
