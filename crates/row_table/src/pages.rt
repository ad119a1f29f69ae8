//! Pages of spaces.

ghost use Rattle.std.specs.Prelude.{◌≡◌};
ghost use Rattle.row_table.specs.Pages.{key_of};

use cache_ident::{SpaceNo, Vpn};
use phys_groups::Row;

/// A page of a space, by which its row is found.
#[derive(Clone, Copy, PartialEq, Eq, PartialOrd, Ord, Default)]
pub(crate) struct PageKey {
    pub(crate) space: u32,
    pub(crate) vpn: u32,
}

impl PageKey {
    pub(crate) fn new(space: SpaceNo, vpn: Vpn) -> PageKey
        ensures { result ≡ record { space = space.0; vpn = vpn.0 } }
    {
        PageKey {
            space: space.0,
            vpn: vpn.0,
        }
    }

    /// The page of a row.
    pub(crate) fn of(row: &Row) -> PageKey
        ensures { result ≡ key_of row.now }
    {
        PageKey::new(row.space, row.vpn)
    }
}
