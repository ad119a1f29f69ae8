//! The list of signal rows by frame, and what a row adds to it or takes from it.

ghost use Rattle.std.specs.Prelude.{◌≡◌, ◌≢◌, ◌+◌, ◌<◌, ◌≤◌, ◌↔◌, length, true, All, Contains, OnOk};
ghost use Rattle.cache_ident.specs.contracts.names.FrameOrd.TheImpl as frames;
ghost use Rattle.signal_pages.specs.Signals.{is_signal_row_of};
ghost use Rattle.sorted_list.specs.Sorted.{IsProper};
ghost use Rattle.row_store.specs.Signals.{stamped_cmp, IsListed, IsUnlisted};

use cache_ident::{Frame, Name, NoMemory};
use growing_list::GrowingList;
use phys_groups::Row;

/// The names of signal rows, each with its stamp, under their frames.
pub(crate) type Signals = GrowingList<Frame, (u64, Name)>;

/// Lists a row's stamp and name under its frame, if it is a signal row.
pub(crate) fn list(signals: &mut Signals, row: &Row, stamped: (u64, Name))
    requires absent { All (λ entry. entry.1.1 ≢ stamped.1) signals.old.entries }
    requires room { length signals.old.entries < signals.old.room }
    ensures listed { IsListed signals.old.entries signals.new.entries row.now stamped }
    ensures few { length signals.new.entries ≤ length signals.old.entries + 1 }
    ensures room { signals.new.room ≡ signals.old.room }
    ensures proper { IsProper (frames.ghosts).cmp stamped_cmp signals.old → IsProper (frames.ghosts).cmp stamped_cmp signals.new }
{
    if row.receiver.is_some() {
        signals.insert(row.frame, stamped);
    }
}

/// Takes a row's stamp and name out of the list, if it is a signal row.
pub(crate) fn unlist(signals: &mut Signals, row: &Row, stamped: (u64, Name))
    requires there { is_signal_row_of row.now.frame row.now ≡ true → Contains signals.old.entries (row.now.frame, stamped) }
    requires proper { IsProper (frames.ghosts).cmp stamped_cmp signals.old }
    ensures unlisted { IsUnlisted signals.old.entries signals.new.entries row.now stamped }
    ensures few { length signals.new.entries ≤ length signals.old.entries }
    ensures room { signals.new.room ≡ signals.old.room }
    ensures proper { IsProper (frames.ghosts).cmp stamped_cmp signals.new }
{
    if row.receiver.is_some() {
        signals.remove(row.frame, stamped);
    }
}

/// Makes room for more entries than that beside those that are there.
pub(crate) fn make_room(signals: &mut Signals, room: usize) -> Result<(), NoMemory>
    requires { room + length signals.old.entries ≤ signals.old.room }
    ensures entries { signals.new.entries ≡ signals.old.entries }
    ensures kept { signals.old.room ≤ signals.new.room }
    ensures ok { OnOk result (room + length signals.new.entries < signals.new.room) }
    ensures proper { IsProper (frames.ghosts).cmp stamped_cmp signals.new }
{
    let len = signals.len();
    if signals.room() - len <= room {
        signals.grow(2 * (room + len) + 1)?;
    }
    Ok(())
}
