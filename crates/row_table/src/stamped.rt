//! Rows by stamp, and the stamp of each page.

ghost use Rattle.std.specs.Prelude.{◌≡◌, ◌<◌, ◌^◌, [], ◌∷◌, ◌++◌, None, not, length, find, filter, map, IfOk, OnOk, OnErr};
ghost use Rattle.std.specs.Option.{option_copied};
ghost use Rattle.std.specs.Map.{keys_of, values_of};
ghost use Rattle.row_table.specs.Pages.{is_of, key_of};
ghost use Rattle.row_table.specs.Rows.{marked_on};
ghost use Rattle.row_table.specs.Stamps.{AreBelow, HaveOneRow};

use super::iter::Rows;
use super::pages::PageKey;
use cache_ident::NoMemory;
use phys_groups::Row;
use std::alloc::Global;
use std::collections::BTreeMap;
use std::marker::Model;

/// Rows, no two of one page, each with a stamp: a number above those of the rows that were added before it.
///
/// A row that is taken out takes its stamp along and leaves all others as they are, so nothing is moved. A contract
/// sees the list of stamps and rows.
#[derive(Drop)]
pub(crate) struct StampedRows {
    alloc: Global,
    rows: BTreeMap<u64, Row>,
    // The stamp of the row of each page that has one.
    stamps: BTreeMap<PageKey, u64>,
}

impl Model for StampedRows {
    ghost use Rattle.std.specs.Prelude.{ℕ, List};
    ghost use Rattle.phys_groups.specs.declared.rows.Row.{Row};
    ghost use Rattle.row_table.specs.Stamps.{AreStamped};

    ghost Value = { List (ℕ × Row) };

    ghost view = { λ stamped. stamped.rows.entries };

    ghost invariant = { λ stamped. AreStamped stamped.rows.entries stamped.stamps };
}

impl StampedRows {
    /// No rows. It takes no memory.
    pub(crate) fn new(alloc: Global) -> StampedRows
        ensures { result ≡ [] }
    {
        StampedRows {
            alloc,
            rows: BTreeMap::new(alloc),
            stamps: BTreeMap::new(alloc),
        }
    }

    pub(crate) fn len(&self) -> usize
        ensures { result ≡ length self.now }
    {
        self.rows.len()
    }

    pub(crate) fn iter(&self) -> Rows<'_>
        ensures rows { result ≡ values_of self.now }
        ensures one_row { HaveOneRow (values_of self.now) }
        ensures few { length (values_of self.now) < 2 ^ 63 }
    {
        Rows::new(self.rows.values())
    }

    /// The row of a page.
    pub(crate) fn get(&self, page: PageKey) -> Option<&Row>
        ensures { option_copied result ≡ find (is_of page) (values_of self.now) }
    {
        let stamp = self.stamps.get(&page)?;
        self.rows.get(stamp)
    }

    /// Marks the row of a page, if it has one.
    pub(crate) fn mark(&mut self, page: PageKey, written: bool)
        ensures { values_of self.new ≡ map (marked_on page written) (values_of self.old) }
    {
        if let Some(stamp) = self.stamps.get(&page) {
            if let Some(row) = self.rows.get_mut(stamp) {
                row.referenced = true;
                row.modified |= written;
            }
        }
    }

    /// Adds the row of a page that has none.
    pub(crate) fn push(&mut self, row: Row) -> Result<(), NoMemory>
        requires { find (is_of (key_of row)) (values_of self.old) ≡ None }
        ensures ok { OnOk result (values_of self.new ≡ values_of self.old ++ row ∷ []) }
        ensures err { OnErr result (values_of self.new ≡ values_of self.old) }
    {
        let stamp = self.next_stamp()?;
        self.add(stamp, row)
    }

    /// Takes out the row of a page, and answers it.
    pub(crate) fn remove(&mut self, page: PageKey) -> Option<Row>
        ensures row { result ≡ find (is_of page) (values_of self.old) }
        ensures others { values_of self.new ≡ filter (λ row. not (is_of page row)) (values_of self.old) }
    {
        let stamp = self.stamps.remove(&page)?;
        self.rows.remove(&stamp)
    }

    // A stamp above all others. Where there is no such number, the rows get new stamps first.
    fn next_stamp(&mut self) -> Result<u64, NoMemory>
        ensures rows { values_of self.new ≡ values_of self.old }
        ensures above { IfOk result (λ stamp. AreBelow stamp (keys_of self.new)) }
    {
        match self.rows.last_key_value() {
            None => Ok(0),
            Some((last, _)) if *last < u64::MAX => Ok(*last + 1),
            Some(_) => {
                *self = self.numbered()?;
                Ok(self.len() as u64)
            }
        }
    }

    // The same rows, each with its place as its stamp.
    fn numbered(&self) -> Result<StampedRows, NoMemory>
        ensures rows { IfOk result (λ numbered. values_of numbered ≡ values_of self.now) }
        ensures below { IfOk result (λ numbered. AreBelow (length numbered) (keys_of numbered)) }
    {
        let mut numbered = StampedRows::new(self.alloc);
        for row in self.iter() {
            let place = numbered.len() as u64;
            numbered.add(place, *row)?;
        }
        Ok(numbered)
    }

    // Adds the row of a page that has none, with a stamp above all others.
    fn add(&mut self, stamp: u64, row: Row) -> Result<(), NoMemory>
        requires above { AreBelow stamp (keys_of self.old) }
        requires page { find (is_of (key_of row)) (values_of self.old) ≡ None }
        ensures ok { OnOk result (self.new ≡ self.old ++ (stamp, row) ∷ []) }
        ensures err { OnErr result (self.new ≡ self.old) }
    {
        self.rows.insert(stamp, row)?;
        if let Err(refused) = self.stamps.insert(PageKey::of(&row), stamp) {
            let _ = self.rows.pop_last();
            return Err(refused.into());
        }
        Ok(())
    }
}
