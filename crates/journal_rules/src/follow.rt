//! What has to follow.

ghost use Rattle.std.specs.Prelude.{◌↔◌, IsTrue};
ghost use Rattle.run_journal.specs.Points.{IsDepartureBy, IsFollowed, IsLoadBy};

use cache_ident::{Cause, Ident, Kind};
use run_journal::Entry;

/// Whether what has to follow a departure follows it: behind a dependent a departure, and behind what is displaced a load of
/// its kind, both by the same processor.
pub fn is_followed(ident: Ident, cause: Cause, cpu: u32, next: Option<Entry>) -> bool
    ensures { IsTrue result ↔ IsFollowed cause ident cpu next }
{
    match cause {
        Cause::Unloaded => true,
        Cause::Dependent => is_departure_by(cpu, next),
        Cause::Displaced => is_load_by(ident.kind, cpu, next),
    }
}

fn is_departure_by(cpu: u32, next: Option<Entry>) -> bool
    ensures { IsTrue result ↔ IsDepartureBy cpu next }
{
    match next {
        Some(Entry::WrittenBack { cpu: by, .. }) => by == cpu,
        _ => false,
    }
}

fn is_load_by(kind: Kind, cpu: u32, next: Option<Entry>) -> bool
    ensures { IsTrue result ↔ IsLoadBy kind cpu next }
{
    match next {
        Some(Entry::Loaded { ident, cpu: by, .. }) => ident.kind == kind && by == cpu,
        _ => false,
    }
}
