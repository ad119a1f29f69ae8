//! Signals: which stores send one, who receives it, and whether the receivers have room for it.
#![tactic(auto)]

ghost use Rattle.std.specs.Prelude.{◌≡◌, ◌+◌, ◌-◌, ◌*◌, ◌%◌, ◌<◌, ◌≤◌, length, count_by, true};
ghost use Rattle.signal_pages.specs.Signals.{address_of, is_signal_row_of, is_signalling, receiver_of, receivers_in, room_in, would_pass};

use arrayvec::ArrayVec;
use cache_ident::{Frame, ThreadNo, Vpn};
use phys_groups::{PAGE_BYTES, Row};

/// How many addresses a thread's queue holds.
pub const QUEUE_ADDRESSES: usize = 64;

/// Whether a word stored at this offset of a page signals, where the page's row has the message flag:
/// it is the last word of one of the page's message slots of 64 bytes.
pub fn signals(offset: u32) -> bool
    ensures { result ≡ is_signalling offset }
{
    offset % 64 == 60
}

/// The address that a receiver gets for a store at a signalling offset: that of the message slot, in
/// the page through which the receiver sees the frame.
pub fn address(vpn: Vpn, offset: u32) -> u32
    requires page { vpn.0 < 1048576 }
    requires in_page { offset < 4096 }
    requires signalling { is_signalling offset ≡ true }
    ensures { result ≡ address_of vpn offset }
{
    vpn.0 * PAGE_BYTES + (offset - 60)
}

/// Who receives the signals of a frame, each with the page of its row: the frame's fit rows that have
/// a receiver. `rows` is in declared order, and so is the answer. `fit` says of each row, place by
/// place, whether it is fit. A thread that receives through two rows stands twice.
///
/// It goes once over the rows and takes no memory.
pub fn receivers(rows: &[Row], frame: Frame, fit: &[bool]) -> ArrayVec<(ThreadNo, Vpn), 4>
    requires told { length fit.now ≡ length rows.now }
    requires at_most_four { count_by (is_signal_row_of frame) rows.now ≤ 4 }
    ensures { result.items ≡ receivers_in frame rows.now fit.now }
{
    let mut found = ArrayVec::new();
    for (i, row) in rows.iter().enumerate() {
        if let Some(receiver) = receiver(row, frame, fit[i]) {
            found.push(receiver);
        }
    }
    found
}

/// The first receiver whose queue would pass 64 addresses if each of `to` got one, and `None` only
/// where there is no such receiver. `lengths` and `ended` speak of the threads of `to`, place by place:
/// how long the queue is, and whether the thread has ended. A thread that has ended gets nothing, and
/// one that stands twice gets two addresses.
///
/// It takes no memory.
pub fn room(lengths: &[u32], ended: &[bool], to: &[ThreadNo]) -> Option<ThreadNo>
    requires lengths_told { length lengths.now ≡ length to.now }
    requires ended_told { length ended.now ≡ length to.now }
    ensures { result ≡ room_in to.now lengths.now ended.now to.now }
{
    for (i, receiver) in to.iter().enumerate() {
        if passes(to, *receiver, lengths[i], ended[i]) {
            return Some(*receiver);
        }
    }
    None
}

// The receiver that this row is for, if it is a fit signal row of the frame.
fn receiver(row: &Row, frame: Frame, fit: bool) -> Option<(ThreadNo, Vpn)>
    ensures { result ≡ receiver_of frame row.now fit }
{
    if row.frame == frame && fit {
        row.receiver.map(|thread| (thread, row.vpn))
    } else {
        None
    }
}

// Whether a queue of this length passes its room, where its thread gets an address each time that it
// stands among the receivers.
fn passes(to: &[ThreadNo], receiver: ThreadNo, length: u32, ended: bool) -> bool
    ensures { result ≡ would_pass to.now receiver length ended }
{
    let times = to.iter().filter(|thread| **thread == receiver).count();
    !ended && length as usize + times > QUEUE_ADDRESSES
}
