//! What a descriptor depends on.

ghost use Rattle.std.specs.Prelude.{◌≡◌, ◌<◌, ◌≤◌, filter, length, option_to_list, All};
ghost use Rattle.flat_state.specs.Dependence.{parents as parents_def, parents_of_row as parents_of_row_def, signal_rows_of as signal_rows_of_def};
ghost use Rattle.flat_state.specs.Translation.{is_fit_row as is_fit_row_def};

use crate::look::row_name;
use crate::records::Records;
use crate::translation::is_fit_row;
use arrayvec::ArrayVec;
use cache_ident::Name;
use phys_groups::Row;

// One descriptor, if there is one.
fn at_most_one(parent: Option<Name>) -> ArrayVec<Name, 6>
    ensures { result.items ≡ option_to_list parent }
{
    let mut parents = ArrayVec::new();
    if let Some(parent) = parent {
        parents.push(parent);
    }
    parents
}

/// What a descriptor depends on: a space on its kernel, a thread on its space, a row on its space and on its
/// receiver, if it has one, and a message row also on each fit signal row of its frame. They come in this order,
/// and signal rows in declared order. A kernel depends on nothing, and there is nothing for what isn't there. It
/// costs the logarithm of the rows.
#[tactic(auto, unfolding(flat_state::specs::Dependence::parents))]
pub fn parents<T: Records>(tables: &T, child: Name) -> ArrayVec<Name, 6>
    ensures { result.items ≡ parents_def (T.state tables.now) child }
{
    match child {
        Name::Kernel(_) => ArrayVec::new(),
        Name::Space(space) => at_most_one(tables.kernel_of(space).map(Name::Kernel)),
        Name::Thread(no) => {
            at_most_one(
                tables
                    .thread(no)
                    .map(|thread| Name::Space(T::space_of(thread))),
            )
        }
        Name::Mapping(space, vpn) => match tables.row(space, vpn) {
            Some(row) => parents_of_row(tables, row),
            None => ArrayVec::new(),
        },
    }
}

// What a row depends on.
fn parents_of_row<T: Records>(tables: &T, row: &Row) -> ArrayVec<Name, 6>
    ensures { result.items ≡ parents_of_row_def (T.state tables.now) row.now }
{
    let mut parents = ArrayVec::new();
    parents.push(Name::Space(row.space));
    if let Some(receiver) = row.receiver {
        parents.push(Name::Thread(receiver));
    }
    let signal_rows = signal_rows_of(tables, row);
    for other in signal_rows.as_slice() {
        parents.push(row_name(*other));
    }
    parents
}

// The fit signal rows of a message row's frame; none for any other row.
fn signal_rows_of<T: Records>(tables: &T, row: &Row) -> ArrayVec<Row, 4>
    ensures { result.items ≡ signal_rows_of_def (T.state tables.now) row.now }
{
    tables.holds();
    if row.flags.m {
        fit_among(tables, &tables.signal_rows(row.frame))
    } else {
        ArrayVec::new()
    }
}

// Those of the rows that are fit.
fn fit_among<T: Records>(tables: &T, rows: &[Row]) -> ArrayVec<Row, 4>
    requires few { length rows.now ≤ 4 }
    requires known { All (λ row. (row.space.0 < length (T.state tables.now).spaces) × (row.frame.0 < 2048)) rows.now }
    ensures { result.items ≡ filter (is_fit_row_def (T.state tables.now)) rows.now }
{
    let mut fit = ArrayVec::new();
    for row in rows {
        if is_fit_row(tables, row) {
            fit.push(*row);
        }
    }
    fit
}
