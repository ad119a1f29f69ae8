//! The index of signal rows by frame.

ghost use Rattle.std.specs.Prelude.{◌≡◌, ◌<◌, [], length, is_some, true, OnOk};
ghost use Rattle.cache_ident.specs.declared.names.Frame.{Frame};
ghost use Rattle.row_table.specs.SignalPages.{other_pages, pages_in, HasList, IsListed, IsSignalIndexOf, IsUnlisted};

use super::pages::PageKey;
use arrayvec::ArrayVec;
use cache_ident::{Frame, NoMemory};
use phys_groups::Row;
use std::alloc::Global;
use std::collections::BTreeMap;

/// The pages of each frame's signal rows, in declared order. A frame that has lost its last signal row
/// may keep an empty list.
#[derive(Drop)]
pub(crate) struct SignalIndex {
    pages: BTreeMap<u32, ArrayVec<PageKey, 4>>,
}

impl SignalIndex {
    /// The index of no rows. It takes no memory.
    pub(crate) fn new(alloc: Global) -> SignalIndex
        ensures { IsSignalIndexOf [] result }
    {
        SignalIndex {
            pages: BTreeMap::new(alloc),
        }
    }

    /// The pages of a frame's signal rows.
    pub(crate) fn pages(&self, frame: Frame) -> &[PageKey]
        ensures { result.now ≡ pages_in self.now frame }
    {
        match self.pages.get(&frame.0) {
            Some(pages) => pages.as_slice(),
            None => &[],
        }
    }

    /// Makes sure of a list for the row's frame, if it is a signal row. No frame gets a page or loses one.
    pub(crate) fn make_list(&mut self, row: &Row) -> Result<(), NoMemory>
        ensures same { (frame : Frame) → pages_in self.new frame ≡ pages_in self.old frame }
        ensures ok { OnOk result (HasList self.new row.now) }
    {
        if row.receiver.is_some() && !self.pages.contains_key(&row.frame.0) {
            self.pages.insert(row.frame.0, ArrayVec::new())?;
        }
        Ok(())
    }

    /// Puts the row's page last, if it is a signal row. It takes no memory.
    pub(crate) fn add(&mut self, row: &Row)
        requires list { HasList self.old row.now }
        requires room { is_some row.now.receiver ≡ true → length (pages_in self.old row.now.frame) < 4 }
        ensures { IsListed self.old self.new row.now }
    {
        if row.receiver.is_some() {
            match self.pages.get_mut(&row.frame.0) {
                Some(pages) => pages.push(PageKey::of(row)),
                None => unreachable!(),
            }
        }
    }

    /// Takes out the row's page, if it is a signal row. It takes no memory.
    pub(crate) fn remove(&mut self, row: &Row)
        ensures { IsUnlisted self.old self.new row.now }
    {
        if row.receiver.is_some() {
            if let Some(pages) = self.pages.get_mut(&row.frame.0) {
                remove_page(pages, PageKey::of(row));
            }
        }
    }
}

// Takes a page out of a list.
fn remove_page(pages: &mut ArrayVec<PageKey, 4>, page: PageKey)
    ensures { pages.new.items ≡ other_pages page pages.old.items }
{
    let mut others = ArrayVec::new();
    for other in pages.as_slice() {
        if *other != page {
            others.push(*other);
        }
    }
    *pages = others;
}
