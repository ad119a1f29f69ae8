// Atomic operations.

ghost use Rattle.std.specs.Prelude.{◌≡◌};
ghost use Rattle.rv32_ma.specs.Atomics.{amo_of};

/// An atomic operation on a word of memory. `Min` and `Max` take words as signed, `Minu` and `Maxu` as unsigned.
#[derive(Clone, Copy)]
pub enum AmoOp {
    /// The sum, wrapping at 32 bits.
    Add,
    /// The operand.
    Swap,
    /// Bitwise xor.
    Xor,
    /// Bitwise or.
    Or,
    /// Bitwise and.
    And,
    /// The lesser, signed.
    Min,
    /// The greater, signed.
    Max,
    /// The lesser, unsigned.
    Minu,
    /// The greater, unsigned.
    Maxu,
}

/// The word that the operation leaves in memory, of the word that was there and the operand.
pub fn amo(op: AmoOp, old: u32, operand: u32) -> u32
    ensures { result ≡ amo_of op old operand }
{
    match op {
        AmoOp::Add => old.wrapping_add(operand),
        AmoOp::Swap => operand,
        AmoOp::Xor => old ^ operand,
        AmoOp::Or => old | operand,
        AmoOp::And => old & operand,
        AmoOp::Min => if operand.cast_signed() < old.cast_signed() {
            operand
        } else {
            old
        },
        AmoOp::Max => if old.cast_signed() < operand.cast_signed() {
            operand
        } else {
            old
        },
        AmoOp::Minu => old.min(operand),
        AmoOp::Maxu => old.max(operand),
    }
}
