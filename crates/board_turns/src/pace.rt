//! Where a processor is in its turns.

ghost use Rattle.std.specs.Prelude.{◌<◌, ◌≤◌};

/// Where a processor is in its turns: how many in a row brought neither a step nor a completion, where three stand for any more;
/// and how many there were since the last sixteenth one.
#[derive(Clone, Copy)]
pub struct Pace {
    pub barren: u32,
    pub turns: u32,
    pub ghost few: { barren ≤ 3 },
    pub ghost round: { turns < 16 },
}
