//! Which numbers the options take.

ghost use Rattle.std.specs.Prelude.{◌≡◌};
ghost use Rattle.run_words.specs.Ranges.{is_in};

/// The numbers from the lowest to the highest.
#[derive(Clone, Copy)]
pub struct NumberRange {
    pub lowest: u32,
    pub highest: u32,
}

impl NumberRange {
    pub(crate) fn has(self, number: u32) -> bool
        ensures { result ≡ is_in self number }
    {
        self.lowest <= number && number <= self.highest
    }
}

/// Any number that an option can have.
pub const ANY_NUMBER: NumberRange = NumberRange {
    lowest: 0,
    highest: 4_294_967_295,
};

/// How many processors there may be.
pub(crate) const CPUS: NumberRange = NumberRange {
    lowest: 1,
    highest: 8,
};

/// How many steps may be asked for.
pub const STEPS: NumberRange = NumberRange {
    lowest: 1,
    highest: 1_000_000,
};

/// How many frames a pager may have.
pub(crate) const FRAMES: NumberRange = NumberRange {
    lowest: 2,
    highest: 2_048,
};
