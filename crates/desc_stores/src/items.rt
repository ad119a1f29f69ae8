//! A content of any kind.

ghost use Rattle.std.specs.Prelude.{◌≡◌};
ghost use Rattle.desc_stores.specs.Items.{name_of, shown};

use cache_ident::{Ident, Name};
use kernel_cache::KernelRec;
use phys_groups::Row;
use slot_cache::Descriptor;
use space_cache::SpaceRec;
use thread_cache::ThreadRec;

/// A content of any kind.
#[derive(Drop)]
pub enum Item {
    Kernel(KernelRec),
    Space(SpaceRec),
    Thread(ThreadRec),
    Mapping(Row),
}

impl Item {
    /// Its name.
    pub fn name(&self) -> Name
        ensures { result ≡ name_of self.now }
    {
        match self {
            Item::Kernel(kernel) => kernel.name(),
            Item::Space(space) => space.name(),
            Item::Thread(thread) => thread.name(),
            Item::Mapping(row) => row.name(),
        }
    }
}

/// A content of any kind, where it stands.
#[derive(Clone, Copy)]
pub enum ItemRef<'a> {
    Kernel(&'a KernelRec),
    Space(&'a SpaceRec),
    Thread(&'a ThreadRec),
    Mapping(&'a Row),
}

impl<'a> ItemRef<'a> {
    /// Its name.
    pub fn name(self) -> Name
        ensures { result ≡ name_of (shown self.entry) }
    {
        match self {
            ItemRef::Kernel(kernel) => kernel.name(),
            ItemRef::Space(space) => space.name(),
            ItemRef::Thread(thread) => thread.name(),
            ItemRef::Mapping(row) => row.name(),
        }
    }
}

/// The content of a name, where it stands.
#[derive(Clone, Copy)]
pub struct FoundItem<'a> {
    pub item: ItemRef<'a>,
    /// The identifier with which the name is loaded; `None` where the content is on a shelf.
    pub ident: Option<Ident>,
}
