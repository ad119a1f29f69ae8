//! A place for one page.

ghost use Rattle.std.specs.Prelude.{◌≡◌};
ghost use Rattle.page_store.specs.Kept.{no_page};

use cache_ident::Frame;
use phys_groups::PAGE_LENGTH;

/// A place for one page: of which frame, if it has one, its bytes, and whether they were changed since the store had them.
#[derive(Clone, Copy)]
pub struct Page {
    pub(crate) frame: Option<Frame>,
    pub(crate) bytes: [u8; PAGE_LENGTH],
    pub(crate) changed: bool,
}

/// A place without a page.
pub(crate) fn no_page() -> Page
    ensures { result ≡ no_page }
{
    Page {
        frame: None,
        bytes: [0; PAGE_LENGTH],
        changed: false,
    }
}
