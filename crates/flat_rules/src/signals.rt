//! The receivers of a signal, and which of them has no room for it.

ghost use Rattle.std.specs.Prelude.{◌≡◌, ◌<◌, ◌≤◌, length, map, All};
ghost use Rattle.flat_state.specs.Signals.{full_among as full_among_def, has_ended as has_ended_def, queued as queued_def, full_receiver as full_receiver_def, receivers_for as receivers_for_def, receivers_of as receivers_of_def};
ghost use Rattle.flat_state.specs.Translation.{is_fit_row as is_fit_row_def};
ghost use Rattle.flat_rules.specs.Readings.{IsThreadOf};

use crate::look::next_signal;
use crate::records::Records;
use crate::threads::{has_ended, queued};
use crate::translation::is_fit_row;
use arrayvec::ArrayVec;
use cache_ident::{Frame, ThreadNo, Vpn};
use flat_state::Signal;
use phys_groups::Row;
use signal_pages::{receivers, room};

// The threads of receivers.
fn threads_of(receivers: &[(ThreadNo, Vpn)]) -> ArrayVec<ThreadNo, 4>
    requires { length receivers.now ≤ 4 }
    ensures { result.items ≡ map (λ receiver. receiver.0) receivers.now }
{
    let mut to = ArrayVec::new();
    for receiver in receivers {
        to.push(receiver.0);
    }
    to
}

// How many addresses the queue of each thread holds.
fn lengths_of<T: Records>(tables: &T, to: &[ThreadNo]) -> ArrayVec<u32, 4>
    requires { length to.now ≤ 4 }
    ensures { result.items ≡ map (queued_def (T.state tables.now).threads) to.now }
{
    let mut lengths = ArrayVec::new();
    for thread in to {
        lengths.push(queued(tables, *thread));
    }
    lengths
}

// Of each thread, whether it has ended.
fn ends_of<T: Records>(tables: &T, to: &[ThreadNo]) -> ArrayVec<bool, 4>
    requires { length to.now ≤ 4 }
    ensures { result.items ≡ map (has_ended_def (T.state tables.now).threads) to.now }
{
    let mut ended = ArrayVec::new();
    for thread in to {
        ended.push(has_ended(tables, *thread));
    }
    ended
}

// Of each row, whether it is fit.
fn fit_of<T: Records>(tables: &T, rows: &[Row]) -> ArrayVec<bool, 4>
    requires few { length rows.now ≤ 4 }
    requires known { All (λ row. (row.space.0 < length (T.state tables.now).spaces) × (row.frame.0 < 2048)) rows.now }
    ensures { result.items ≡ map (is_fit_row_def (T.state tables.now)) rows.now }
{
    let mut fit = ArrayVec::new();
    for row in rows {
        fit.push(is_fit_row(tables, row));
    }
    fit
}

// The receivers of a frame, each with the page of its row.
fn receivers_of<T: Records>(tables: &T, frame: Frame) -> ArrayVec<(ThreadNo, Vpn), 4>
    ensures { result.items ≡ receivers_of_def (T.state tables.now) frame }
{
    tables.holds();
    let rows = tables.signal_rows(frame);
    let fit = fit_of(tables, &rows);
    receivers(&rows, frame, &fit)
}

/// The receivers of a signal, if there is one, each with the page of its row, in declared order of the rows.
pub fn receivers_for<T: Records>(tables: &T, signal: Option<Signal>) -> ArrayVec<(ThreadNo, Vpn), 4>
    ensures { result.items ≡ receivers_for_def (T.state tables.now) signal }
{
    match signal {
        Some(signal) => receivers_of(tables, signal.frame),
        None => ArrayVec::new(),
    }
}

/// The first of the receivers that has no room for what they all get.
pub fn full_among<T: Records>(tables: &T, receivers: &[(ThreadNo, Vpn)]) -> Option<ThreadNo>
    requires { length receivers.now ≤ 4 }
    ensures { result ≡ full_among_def (T.state tables.now).threads (map (λ receiver. receiver.0) receivers.now) }
{
    let to = threads_of(receivers);
    let lengths = lengths_of(tables, &to);
    let ended = ends_of(tables, &to);
    room(&lengths, &ended, &to)
}

// The first receiver that has no room for the signal, if there is a signal.
pub(crate) fn full_for<T: Records>(tables: &T, signal: Option<Signal>) -> Option<ThreadNo>
    ensures { result ≡ full_among_def (T.state tables.now).threads (map (λ receiver. receiver.0) (receivers_for_def (T.state tables.now) signal)) }
{
    let receivers = receivers_for(tables, signal);
    full_among(tables, &receivers)
}

/// The first receiver that has no room for what the thread's next step sends. A ready thread that has one is held, and
/// one that has none is runnable.
pub fn full_receiver<T: Records>(tables: &T, thread: &T::Thread) -> Option<ThreadNo>
    requires { IsThreadOf (T.state tables.now) (T.shown thread.now) }
    ensures { result ≡ full_receiver_def (T.state tables.now) (T.shown thread.now) }
{
    full_for(tables, next_signal(tables, thread))
}
