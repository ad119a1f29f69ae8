//! A row as a descriptor. Its type is a crate's below, so its name is said here and not in the cache of rows.

ghost use Rattle.cache_ident.specs.declared.idents.Kind.TheVariants.{Mapping};
ghost use Rattle.slot_cache.specs.Rows.{row_name};

use super::loaded::Descriptor;
use cache_ident::{Kind, Name};
use phys_groups::Row;

impl Descriptor for Row {
    ghost KIND = { Mapping };

    ghost called = { row_name };

    const KIND: Kind = Kind::Mapping;

    fn name(&self) -> Name {
        Name::Mapping(self.space, self.vpn)
    }
}
