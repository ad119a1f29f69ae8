//! The rows in declared order, and the index of signal rows beside them.

ghost use Rattle.std.specs.Prelude.{◌≡◌, ◌<◌, ◌^◌, [], ◌∷◌, ◌++◌, None, map, filter, length, count_by, is_some, IsTrue, OnOk, OnErr};
ghost use Rattle.std.specs.Option.{option_copied};
ghost use Rattle.phys_groups.specs.Translation.{row_of, without};
ghost use Rattle.signal_pages.specs.Signals.{is_signal_row_of};
ghost use Rattle.phys_groups.specs.Rows.{marked};
ghost use Rattle.row_table.specs.Rows.{IsProper};

use super::iter::Rows;
use super::pages::PageKey;
use super::signals::SignalIndex;
use super::stamped::StampedRows;
use arrayvec::ArrayVec;
use cache_ident::{Frame, NoMemory, SpaceNo, Vpn};
use phys_groups::Row;
use std::alloc::Global;
use std::marker::Model;

/// Rows in declared order. A contract sees the list of them.
#[derive(Drop)]
pub struct RowTable {
    rows: StampedRows,
    signals: SignalIndex,
}

impl Model for RowTable {
    ghost use Rattle.std.specs.Prelude.{List};
    ghost use Rattle.std.specs.Map.{values_of};
    ghost use Rattle.phys_groups.specs.declared.rows.Row.{Row};
    ghost use Rattle.row_table.specs.Soundness.{IsSound};

    ghost Value = { List Row };

    ghost view = { λ table. values_of table.rows };

    ghost invariant = { λ table. IsSound (values_of table.rows) table.signals };
}

impl RowTable {
    /// No rows. It takes no memory.
    pub fn new(alloc: Global) -> RowTable
        ensures { result ≡ [] }
    {
        RowTable {
            rows: StampedRows::new(alloc),
            signals: SignalIndex::new(alloc),
        }
    }

    /// How many rows there are. Constant time.
    pub fn len(&self) -> usize
        ensures { result ≡ length self.now }
    {
        self.rows.len()
    }

    /// The rows in declared order. It costs the logarithm of the rows, and then constant time for each, amortised.
    pub fn iter(&self) -> Rows<'_>
        ensures rows { result ≡ self.now }
        ensures proper { IsProper self.now }
        ensures few { length self.now < 2 ^ 63 }
    {
        self.rows.iter()
    }

    /// The row of a page; `None` where it has none. Its time is logarithmic in the rows.
    pub fn get(&self, space: SpaceNo, vpn: Vpn) -> Option<&Row>
        ensures { option_copied result ≡ row_of self.now space vpn.0 }
    {
        self.rows.get(PageKey::new(space, vpn))
    }

    /// The rows of a frame that have a receiver, in declared order. It takes no memory, and its time is
    /// logarithmic in the rows.
    pub fn signal_rows(&self, frame: Frame) -> ArrayVec<Row, 4>
        ensures { result.items ≡ filter (is_signal_row_of frame) self.now }
    {
        let mut rows = ArrayVec::new();
        for page in self.signals.pages(frame) {
            match self.rows.get(*page) {
                Some(row) => rows.push(*row),
                None => unreachable!(),
            }
        }
        rows
    }

    /// Marks the row of a page, if it has one, as gone through, and as written where a store went
    /// through it. It takes no memory, and its time is logarithmic in the rows.
    pub fn mark(&mut self, space: SpaceNo, vpn: Vpn, written: bool)
        ensures { self.new ≡ map (marked space vpn.0 written) self.old }
    {
        self.rows.mark(PageKey::new(space, vpn), written);
    }

    /// Adds the row of a page that has none, as the last, where its frame has fewer than four signal rows
    /// or it has no receiver. Its time is logarithmic in the rows.
    pub fn push(&mut self, row: Row) -> Result<(), NoMemory>
        requires page { row_of self.old row.space row.vpn.0 ≡ None }
        requires receivers { IsTrue (is_some row.receiver) → count_by (is_signal_row_of row.frame) self.old < 4 }
        ensures ok { OnOk result (self.new ≡ self.old ++ row ∷ []) }
        ensures err { OnErr result (self.new ≡ self.old) }
    {
        self.signals.make_list(&row)?;
        self.rows.push(row)?;
        self.signals.add(&row);
        Ok(())
    }

    /// Takes out the row of a page, and says whether it had one. It takes no memory, and its time is
    /// logarithmic in the rows.
    pub fn remove(&mut self, space: SpaceNo, vpn: Vpn) -> bool
        ensures found { result ≡ is_some (row_of self.old space vpn.0) }
        ensures rows { self.new ≡ without space vpn.0 self.old }
    {
        match self.rows.remove(PageKey::new(space, vpn)) {
            Some(row) => {
                self.signals.remove(&row);
                true
            }
            None => false,
        }
    }
}
