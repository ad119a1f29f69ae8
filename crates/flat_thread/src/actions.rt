//! What a thread's next instruction asks for. Each answer takes constant time.

ghost use Rattle.std.specs.Prelude.{◌≡◌};
ghost use Rattle.std.specs.Option.{option_map};
ghost use Rattle.rv32_isa.specs.Table.{instruction_of};
ghost use Rattle.rv32_exec.specs.Actions.{action_of};
ghost use Rattle.flat_state.specs.NextSteps.{data_access as data_access_def};
ghost use Rattle.flat_thread.specs.Actions.{stored_word as stored_word_def};

use flat_state::DataAccess;
use rv32_exec::{Access, Action, Context, Width, action_for};
use rv32_isa::decode;

/// What the instruction that a word is asks for, and none where the word is no instruction.
pub fn action_for_word(context: &Context, word: u32) -> Option<Action>
    ensures { result ≡ option_map (λ instr. action_of instr context.now) (instruction_of word) }
{
    match decode(word) {
        Some(instr) => Some(action_for(context, instr)),
        None => None,
    }
}

/// The first access to data that an action makes. An atomic one reads before it writes. Where the width doesn't divide
/// the address it makes none.
pub fn data_access(action: Action) -> Option<DataAccess>
    ensures { result ≡ data_access_def action }
{
    let (access, va, size) = match action {
        Action::Load { va, width, .. } => (Access::Read, va, width.size()),
        Action::Store { va, width, .. } => (Access::Write, va, width.size()),
        Action::Atomic { va, .. } => (Access::Read, va, 4),
        _ => return None,
    };
    if va % size == 0 {
        Some(DataAccess { access, va })
    } else {
        None
    }
}

/// The address of an action that stores a word. An atomic operation is no store.
pub fn stored_word(action: Action) -> Option<u32>
    ensures { result ≡ stored_word_def action }
{
    match action {
        Action::Store { va, width, .. } => match width {
            Width::Word => Some(va),
            Width::Byte | Width::Half => None,
        },
        Action::Set { .. }
        | Action::Pass
        | Action::Jump { .. }
        | Action::Load { .. }
        | Action::Atomic { .. }
        | Action::Call
        | Action::Break => None,
    }
}
