// A word that was decoded.

ghost use Rattle.std.specs.Prelude.{◌≡◌, Some};
ghost use Rattle.rv32_isa.specs.Table.{instruction_of};

use rv32_isa::{Instr, decode};

// The word of a call, which a line remembers before it has met one.
const CALL: u32 = 0x73;

// A word and the instruction that it is.
#[derive(Clone, Copy)]
pub(crate) struct Line {
    pub(crate) word: u32,
    pub(crate) instr: Instr,
    ghost decoded: { instruction_of word ≡ Some instr },
}

impl Line {
    // A line that has met no word yet.
    pub(crate) fn first() -> Line {
        match decode(CALL) {
            Some(instr) => Line { word: CALL, instr },
            None => unreachable!(),
        }
    }
}
