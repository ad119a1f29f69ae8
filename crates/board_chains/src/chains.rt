//! The chain of a thread's next step.

ghost use Rattle.std.specs.Prelude.{◌≡◌, ℕ, ◌≤◌, Some, Contains, filter, length, take};
ghost use Rattle.cache_ident.specs.declared.idents.Kind.{Kind};
ghost use Rattle.cache_ident.specs.declared.names.Name.{Name};
ghost use Rattle.flat_state.specs.rv32_exec.specs.declared.statuses.Status.TheVariants.{Ready};
ghost use Rattle.flat_state.specs.Dependence.{Depends, parents as parents_def};
ghost use Rattle.flat_state.specs.NextSteps.{next_step as next_step_def};
ghost use Rattle.flat_rules.specs.Readings.{OfThread};
ghost use Rattle.cached_machine.specs.Cached.{state_of};
ghost use Rattle.board_chains.specs.Chains.{rows_in_order as rows_in_order_def, AreParentsFirst, IsChainInOrder, IsFewByKind, MayBeChained};
ghost use Rattle.board_chains.specs.Lists.{AreAllOnce};
ghost use Rattle.board_chains.specs.Ranks.{is_row as is_row_def};

use crate::above::add_all_above;
use crate::names::{Chain, add_if_some};
use crate::ranks::{is_row, numbered_among};
use cache_ident::{Name, ThreadNo};
use cached_machine::CachedMachine;
use flat_rules::{Records, parents};
use flat_state::NextStep;

/// The chain of a ready thread's next step, of which `next` is known, in the order of loading: kernels, spaces and threads,
/// each by their numbers; the signal rows that the row of the data depends on, in declared order; the row of the fetch; and
/// the row of the data. So each stands behind all that it depends on. It takes a look at each.
pub fn chain_of(machine: &CachedMachine, no: ThreadNo, next: &NextStep) -> Chain
    requires next { next_step_def (state_of machine.now) no.0 ≡ Some next.now }
    requires ready { OfThread (state_of machine.now) no.0 (λ t. t.status ≡ Ready) }
    ensures order { IsChainInOrder (state_of machine.now) no.0 next.now result.items }
    ensures once { AreAllOnce result.items }
    ensures few { IsFewByKind result.items }
    ensures parents { AreParentsFirst (state_of machine.now) result.items }
    ensures good { (name : Name) → Contains result.items name → MayBeChained (state_of machine.now) name }
{
    machine.holds();
    let mut all = rows_in_order(machine, next);
    let count = all.len();
    all.push(Name::Thread(no));
    add_all_above(machine, &mut all);
    let mut chain = numbered_among(&all);
    let rows = &all.as_slice()[..count];
    for row in rows {
        chain.push(*row);
    }
    chain
}

// The rows of a step in the order of loading.
fn rows_in_order(machine: &CachedMachine, next: &NextStep) -> Chain
    ensures rows { result.items ≡ rows_in_order_def (state_of machine.now) next.now.fetch_row next.now.data_row }
    ensures few { length result.items ≤ 8 }
{
    let mut rows = match next.data_row {
        Some(data) => row_parents(machine, data),
        None => Chain::new(),
    };
    add_if_some(next.fetch_row, &mut rows);
    add_if_some(next.data_row, &mut rows);
    rows
}

// The rows that a descriptor depends on: the signal rows of a message row's frame.
fn row_parents(machine: &CachedMachine, name: Name) -> Chain
    ensures rows { result.items ≡ filter is_row_def (parents_def (state_of machine.now) name) }
    ensures few { length result.items ≤ 6 }
{
    let mut rows = Chain::new();
    let found = parents(machine, name);
    let above = found.as_slice();
    for parent in above {
        if is_row(*parent) {
            rows.push(*parent);
        }
    }
    rows
}
