//! How many pages a quantum copies.

ghost use Rattle.std.specs.Prelude.{◌≤◌};

use flat_state::Decl;
use page_views::MOST_VIEWS;

// Threads may declare more rows as they run.
const FEWEST_VIEWS: usize = 16;

/// How many pages a quantum for the threads of these declarations may copy: one for each row, since getting memory for a page takes
/// time, also where none is copied; but no fewer than 16, and `MOST_VIEWS` at most. Linear in the declarations.
pub fn views_for(decls: &[Decl]) -> usize
    ensures { result ≤ 64 }
{
    let rows = decls.iter().filter(|decl| is_row(decl)).count();
    rows.clamp(FEWEST_VIEWS, MOST_VIEWS)
}

fn is_row(decl: &Decl) -> bool {
    matches!(decl, Decl::Map { .. })
}
