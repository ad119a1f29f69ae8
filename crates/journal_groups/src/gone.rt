//! One that left, and which of two leaves first.

ghost use Rattle.std.specs.Prelude.{◌≡◌, ◌↔◌, IsTrue};
ghost use Rattle.residents.specs.writeback_order.specs.Order.{leaving_cmp};
ghost use Rattle.std.specs.declared.cmp.Ordering.TheVariants.{Less};
ghost use Rattle.journal_groups.specs.Leaving.{node_of_gone};

use cache_ident::{Class, Ident, Name};

/// One that left, with the class that it had.
#[derive(Clone, Copy, PartialEq, Eq, Debug)]
pub(crate) struct Gone {
    pub(crate) ident: Ident,
    pub(crate) name: Name,
    pub(crate) class: Class,
}

impl Gone {
    /// Whether it leaves before the other one: by class, and in one class by serial.
    pub(crate) fn leaves_before(&self, other: &Gone) -> bool
        ensures { IsTrue result ↔ (leaving_cmp (node_of_gone self.now) (node_of_gone other.now) ≡ Less) }
    {
        let first = (self.class, self.ident.serial, self.ident);
        let second = (other.class, other.ident.serial, other.ident);
        first.cmp(&second).is_lt()
    }
}
