//! How a processor's turns alternate.

ghost use Rattle.std.specs.Prelude.{◌≡◌};
ghost use Rattle.board_turns.specs.Paces.{beat_of, must_bring, paced, wants_first};

use crate::pace::Pace;

// How many turns in a row may bring nothing.
const MOST_BARREN: u32 = 3;

// Each turn of that number asks in the other order.
const ROUND: u32 = 16;

impl Pace {
    /// Before the first turn.
    pub fn new() -> Pace
        ensures { beat_of result ≡ record { barren = 0; turns = 0 } }
    {
        Pace {
            barren: 0,
            turns: 0,
        }
    }

    /// Whether the turn to come has to bring a step or a completion: three turns in a row brought none.
    pub fn must_bring(&self) -> bool
        ensures { result ≡ must_bring (beat_of self.now) }
    {
        self.barren == MOST_BARREN
    }

    /// Whether the turn to come asks first who waits for its owners, and then who can come to the processor: it has to bring
    /// something, or is a sixteenth one. The others ask in the other order.
    pub fn wants_first(&self) -> bool
        ensures { result ≡ wants_first (beat_of self.now) }
    {
        self.must_bring() || self.turns + 1 == ROUND
    }

    /// A turn was taken, and brought a step or a completion, or neither.
    pub fn after(self, brought: bool) -> Pace
        ensures { beat_of result ≡ paced brought (beat_of self) }
    {
        let barren = if brought {
            0
        } else {
            (self.barren + 1).min(MOST_BARREN)
        };
        Pace {
            barren,
            turns: (self.turns + 1) % ROUND,
        }
    }
}
