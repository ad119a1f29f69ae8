//! What is read of the tables.

ghost use Rattle.std.specs.Prelude.{◌≡◌, ◌≤◌, ℕ, IfOk, List, Option, count_by, filter, length, slice_get};
ghost use Rattle.std.specs.Option.{option_copied, option_map};
ghost use Rattle.phys_groups.specs.Translation.{row_of as row_of_def};
ghost use Rattle.flat_state.specs.signal_pages.specs.Signals.{is_signal_row_of};
ghost use Rattle.flat_state.specs.declared.events.Machine.{Machine};
ghost use Rattle.flat_report.specs.Counts.{AreCounts};
ghost use Rattle.board_laws.specs.desc_stores.specs.Contents.{content_of};
ghost use Rattle.board_laws.specs.desc_stores.specs.Sound.{IsExactlyOne};
ghost use Rattle.board_laws.specs.shown_state.specs.Found.{AreFound, AreListed};
ghost use Rattle.board_laws.specs.shown_state.specs.Shown.{flat_kernel, flat_thread, kernel_of as kernel_in, row_of_item, shown, space_of, thread_of};

use arrayvec::ArrayVec;
use board_laws::{ItemRef, Tables};
use cache_ident::{Frame, Ident, KernelNo, Name, SpaceNo, ThreadNo, Vpn};
use flat_report::RowTally;
use kernel_cache::KernelRec;
use phys_groups::{Rights, Row};
use space_cache::SpaceRec;
use std::alloc::{AllocError, Global};
use thread_cache::ThreadRec;

// Does nothing. A proof has from it what the tables' soundness says of what is found.
pub(crate) fn known(tables: &Tables)
    ensures one { IsExactlyOne tables.now.contents }
    ensures found { (machine : Option Machine) (memory : List ℕ) → AreFound (shown machine memory tables.now.contents) tables.now.contents }
    ensures listed { (machine : Option Machine) (memory : List ℕ) → AreListed (shown machine memory tables.now.contents) tables.now.contents }
{
    tables.are_sound();
}

// How many rows stand.
pub(crate) fn row_count(tables: &Tables) -> u32
    requires { length tables.now.contents.rows.names ≤ 262144 }
    ensures { result ≡ length tables.now.contents.rows.names }
{
    tables.row_names().len() as u32
}

// What the rows of each space come to.
pub(crate) fn tally_rows(tables: &Tables, alloc: Global) -> Result<RowTally, AllocError>
    requires { length tables.now.contents.rows.names ≤ 262144 }
    ensures { IfOk result (λ tally. (machine : Option Machine) (memory : List ℕ) → AreCounts (shown machine memory tables.now.contents).rows (length (shown machine memory tables.now.contents).spaces) tally) }
{
    known(tables);
    let mut tally = RowTally::new(alloc, tables.space_count())?;
    for name in tables.row_names() {
        if let Some(row) = row_named(tables, name) {
            tally.add(row);
        }
    }
    Ok(tally)
}

// The kernel of a name, if it is that of one.
fn kernel_named(tables: &Tables, name: Name) -> Option<&KernelRec>
    ensures { option_map flat_kernel (option_copied result) ≡ kernel_in (content_of tables.now.contents name) }
{
    match tables.item(name) {
        Some(ItemRef::Kernel(kernel)) => Some(kernel),
        _ => None,
    }
}

// The space of a name, if it is that of one.
fn space_named(tables: &Tables, name: Name) -> Option<&SpaceRec>
    ensures { option_map (λ space. space.kernel) (option_copied result) ≡ space_of (content_of tables.now.contents name) }
{
    match tables.item(name) {
        Some(ItemRef::Space(space)) => Some(space),
        _ => None,
    }
}

// The thread of a name, if it is that of one. `near` may be the identifier that it is loaded with.
fn thread_named(tables: &Tables, name: Name, near: Option<Ident>) -> Option<&ThreadRec>
    ensures { option_map flat_thread (option_copied result) ≡ thread_of (content_of tables.now.contents name) }
{
    match tables.item_near(name, near) {
        Some(ItemRef::Thread(thread)) => Some(thread),
        _ => None,
    }
}

// The row of a name, if it is that of one.
pub(crate) fn row_named(tables: &Tables, name: Name) -> Option<&Row>
    ensures { option_copied result ≡ row_of_item (content_of tables.now.contents name) }
{
    match tables.item(name) {
        Some(ItemRef::Mapping(row)) => Some(row),
        _ => None,
    }
}

// The kernel of a space.
pub(crate) fn kernel_of(tables: &Tables, space: SpaceNo) -> Option<KernelNo>
    ensures { (machine : Option Machine) (memory : List ℕ) → result ≡ slice_get (shown machine memory tables.now.contents).spaces space.0 }
{
    known(tables);
    let space = space_named(tables, Name::Space(space))?;
    Some(space.kernel)
}

// The rights of a kernel.
pub(crate) fn rights(tables: &Tables, kernel: KernelNo) -> Option<Rights>
    ensures { (machine : Option Machine) (memory : List ℕ) → result ≡ option_map (λ k. k.rights) (slice_get (shown machine memory tables.now.contents).kernels kernel.0) }
{
    known(tables);
    let kernel = kernel_named(tables, Name::Kernel(kernel))?;
    Some(kernel.rights)
}

// The row of a page.
pub(crate) fn row(tables: &Tables, space: SpaceNo, vpn: Vpn) -> Option<&Row>
    ensures { (machine : Option Machine) (memory : List ℕ) → option_copied result ≡ row_of_def (shown machine memory tables.now.contents).rows space vpn.0 }
{
    known(tables);
    row_named(tables, Name::Mapping(space, vpn))
}

// The thread of a number. `near` may be the identifier that it is loaded with.
pub(crate) fn thread(tables: &Tables, no: ThreadNo, near: Option<Ident>) -> Option<&ThreadRec>
    ensures { (machine : Option Machine) (memory : List ℕ) → option_map flat_thread (option_copied result) ≡ slice_get (shown machine memory tables.now.contents).threads no.0 }
{
    known(tables);
    thread_named(tables, Name::Thread(no), near)
}

// The rows of a frame that have a receiver, of which there are at most four, in declared order.
pub(crate) fn signal_rows(tables: &Tables, frame: Frame) -> ArrayVec<Row, 4>
    requires { (machine : Option Machine) (memory : List ℕ) → count_by (is_signal_row_of frame) (shown machine memory tables.now.contents).rows ≤ 4 }
    ensures { (machine : Option Machine) (memory : List ℕ) → result.items ≡ filter (is_signal_row_of frame) (shown machine memory tables.now.contents).rows }
{
    known(tables);
    let mut found = ArrayVec::new();
    for name in tables.signal_rows(frame) {
        if let Some(row) = row_named(tables, name) {
            found.push(*row);
        }
    }
    found
}
