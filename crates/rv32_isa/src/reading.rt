// Which instruction a word is: one function for each opcode that has several forms.

ghost use Rattle.std.specs.Prelude.{◌≡◌, ◌≢◌, IfSome, IfNone};
ghost use Rattle.rv32_isa.specs.Word.{funct3_of, funct7_of, funct5_of};
ghost use Rattle.rv32_isa.specs.Table.{word_of, IsValid, instruction_of, branch_at, load_at, store_at, shift_right_at, immediate_at, plain_at, minus_at, multiply_at, register_at, atomic_at, system_at};
ghost use Rattle.rv32_isa.specs.declared.forms.Instr.{Instr};

use crate::fields::{
    bit, branch_distance, fence_bits, funct3, funct5, funct7, immediate, jump_distance, opcode, rd,
    rs1, rs2, shift_amount, store_offset, upper_immediate,
};
use crate::forms::Instr;

/// The instruction whose word this is; None exactly where no valid instruction has it.
///
/// A few shifts and comparisons; no memory.
pub fn decode(word: u32) -> Option<Instr>
    ensures valid { IfSome result IsValid }
    ensures same_word { IfSome result (λ i. word_of i ≡ word) }
    ensures none { IfNone result ((i : Instr) → IsValid i → word_of i ≢ word) }
    ensures table { result ≡ instruction_of word }
{
    by_opcode(word)
}

/// The instruction of a word, by its opcode.
#[tactic(auto, unfolding(crate::specs::Table::instruction_of))]
fn by_opcode(word: u32) -> Option<Instr>
    ensures { result ≡ instruction_of word }
{
    match opcode(word) {
        0b0110111 => Some(Instr::Lui {
            rd: rd(word),
            imm: upper_immediate(word),
        }),
        0b0010111 => Some(Instr::Auipc {
            rd: rd(word),
            imm: upper_immediate(word),
        }),
        0b1101111 => Some(Instr::Jal {
            rd: rd(word),
            imm: jump_distance(word),
        }),
        0b1100111 if funct3(word) == 0 => Some(Instr::Jalr {
            rd: rd(word),
            rs1: rs1(word),
            imm: immediate(word),
        }),
        0b1100011 => branch(word),
        0b0000011 => load(word),
        0b0100011 => store(word),
        0b0010011 => with_immediate(word),
        0b0110011 => of_registers(word),
        0b0001111 if funct3(word) == 0 => Some(Instr::Fence {
            rd: rd(word),
            rs1: rs1(word),
            imm: fence_bits(word),
        }),
        0b1110011 => system(word),
        0b0101111 if funct3(word) == 0b010 => atomic(word),
        _ => None,
    }
}

/// A branch, by its comparison.
fn branch(word: u32) -> Option<Instr>
    ensures { result ≡ branch_at (funct3_of word) word }
{
    match funct3(word) {
        0b000 => Some(Instr::Beq {
            rs1: rs1(word),
            rs2: rs2(word),
            imm: branch_distance(word),
        }),
        0b001 => Some(Instr::Bne {
            rs1: rs1(word),
            rs2: rs2(word),
            imm: branch_distance(word),
        }),
        0b100 => Some(Instr::Blt {
            rs1: rs1(word),
            rs2: rs2(word),
            imm: branch_distance(word),
        }),
        0b101 => Some(Instr::Bge {
            rs1: rs1(word),
            rs2: rs2(word),
            imm: branch_distance(word),
        }),
        0b110 => Some(Instr::Bltu {
            rs1: rs1(word),
            rs2: rs2(word),
            imm: branch_distance(word),
        }),
        0b111 => Some(Instr::Bgeu {
            rs1: rs1(word),
            rs2: rs2(word),
            imm: branch_distance(word),
        }),
        _ => None,
    }
}

/// A load, by its width and extension.
fn load(word: u32) -> Option<Instr>
    ensures { result ≡ load_at (funct3_of word) word }
{
    match funct3(word) {
        0b000 => Some(Instr::Lb {
            rd: rd(word),
            rs1: rs1(word),
            imm: immediate(word),
        }),
        0b001 => Some(Instr::Lh {
            rd: rd(word),
            rs1: rs1(word),
            imm: immediate(word),
        }),
        0b010 => Some(Instr::Lw {
            rd: rd(word),
            rs1: rs1(word),
            imm: immediate(word),
        }),
        0b100 => Some(Instr::Lbu {
            rd: rd(word),
            rs1: rs1(word),
            imm: immediate(word),
        }),
        0b101 => Some(Instr::Lhu {
            rd: rd(word),
            rs1: rs1(word),
            imm: immediate(word),
        }),
        _ => None,
    }
}

/// A store, by its width.
fn store(word: u32) -> Option<Instr>
    ensures { result ≡ store_at (funct3_of word) word }
{
    match funct3(word) {
        0b000 => Some(Instr::Sb {
            rs1: rs1(word),
            rs2: rs2(word),
            imm: store_offset(word),
        }),
        0b001 => Some(Instr::Sh {
            rs1: rs1(word),
            rs2: rs2(word),
            imm: store_offset(word),
        }),
        0b010 => Some(Instr::Sw {
            rs1: rs1(word),
            rs2: rs2(word),
            imm: store_offset(word),
        }),
        _ => None,
    }
}

/// An operation of a register and an immediate.
fn with_immediate(word: u32) -> Option<Instr>
    ensures { result ≡ immediate_at (funct3_of word) (funct7_of word) word }
{
    match funct3(word) {
        0b000 => Some(Instr::Addi {
            rd: rd(word),
            rs1: rs1(word),
            imm: immediate(word),
        }),
        0b001 if funct7(word) == 0 => Some(Instr::Slli {
            rd: rd(word),
            rs1: rs1(word),
            imm: shift_amount(word),
        }),
        0b010 => Some(Instr::Slti {
            rd: rd(word),
            rs1: rs1(word),
            imm: immediate(word),
        }),
        0b011 => Some(Instr::Sltiu {
            rd: rd(word),
            rs1: rs1(word),
            imm: immediate(word),
        }),
        0b100 => Some(Instr::Xori {
            rd: rd(word),
            rs1: rs1(word),
            imm: immediate(word),
        }),
        0b101 => shift_right(word),
        0b110 => Some(Instr::Ori {
            rd: rd(word),
            rs1: rs1(word),
            imm: immediate(word),
        }),
        0b111 => Some(Instr::Andi {
            rd: rd(word),
            rs1: rs1(word),
            imm: immediate(word),
        }),
        _ => None,
    }
}

/// A shift to the right by an immediate.
fn shift_right(word: u32) -> Option<Instr>
    ensures { result ≡ shift_right_at (funct7_of word) word }
{
    match funct7(word) {
        0b0000000 => Some(Instr::Srli {
            rd: rd(word),
            rs1: rs1(word),
            imm: shift_amount(word),
        }),
        0b0100000 => Some(Instr::Srai {
            rd: rd(word),
            rs1: rs1(word),
            imm: shift_amount(word),
        }),
        _ => None,
    }
}

/// An operation of two registers.
fn of_registers(word: u32) -> Option<Instr>
    ensures { result ≡ register_at (funct3_of word) (funct7_of word) word }
{
    match funct7(word) {
        0b0000000 => plain(word),
        0b0100000 => minus(word),
        0b0000001 => multiply(word),
        _ => None,
    }
}

/// The operations of two registers that RV32I has with funct7 zero.
fn plain(word: u32) -> Option<Instr>
    ensures { result ≡ plain_at (funct3_of word) word }
{
    match funct3(word) {
        0b000 => Some(Instr::Add {
            rd: rd(word),
            rs1: rs1(word),
            rs2: rs2(word),
        }),
        0b001 => Some(Instr::Sll {
            rd: rd(word),
            rs1: rs1(word),
            rs2: rs2(word),
        }),
        0b010 => Some(Instr::Slt {
            rd: rd(word),
            rs1: rs1(word),
            rs2: rs2(word),
        }),
        0b011 => Some(Instr::Sltu {
            rd: rd(word),
            rs1: rs1(word),
            rs2: rs2(word),
        }),
        0b100 => Some(Instr::Xor {
            rd: rd(word),
            rs1: rs1(word),
            rs2: rs2(word),
        }),
        0b101 => Some(Instr::Srl {
            rd: rd(word),
            rs1: rs1(word),
            rs2: rs2(word),
        }),
        0b110 => Some(Instr::Or {
            rd: rd(word),
            rs1: rs1(word),
            rs2: rs2(word),
        }),
        0b111 => Some(Instr::And {
            rd: rd(word),
            rs1: rs1(word),
            rs2: rs2(word),
        }),
        _ => None,
    }
}

/// The difference and the shift that keeps the sign.
fn minus(word: u32) -> Option<Instr>
    ensures { result ≡ minus_at (funct3_of word) word }
{
    match funct3(word) {
        0b000 => Some(Instr::Sub {
            rd: rd(word),
            rs1: rs1(word),
            rs2: rs2(word),
        }),
        0b101 => Some(Instr::Sra {
            rd: rd(word),
            rs1: rs1(word),
            rs2: rs2(word),
        }),
        _ => None,
    }
}

/// The products, quotients and remainders.
fn multiply(word: u32) -> Option<Instr>
    ensures { result ≡ multiply_at (funct3_of word) word }
{
    match funct3(word) {
        0b000 => Some(Instr::Mul {
            rd: rd(word),
            rs1: rs1(word),
            rs2: rs2(word),
        }),
        0b001 => Some(Instr::Mulh {
            rd: rd(word),
            rs1: rs1(word),
            rs2: rs2(word),
        }),
        0b010 => Some(Instr::Mulhsu {
            rd: rd(word),
            rs1: rs1(word),
            rs2: rs2(word),
        }),
        0b011 => Some(Instr::Mulhu {
            rd: rd(word),
            rs1: rs1(word),
            rs2: rs2(word),
        }),
        0b100 => Some(Instr::Div {
            rd: rd(word),
            rs1: rs1(word),
            rs2: rs2(word),
        }),
        0b101 => Some(Instr::Divu {
            rd: rd(word),
            rs1: rs1(word),
            rs2: rs2(word),
        }),
        0b110 => Some(Instr::Rem {
            rd: rd(word),
            rs1: rs1(word),
            rs2: rs2(word),
        }),
        0b111 => Some(Instr::Remu {
            rd: rd(word),
            rs1: rs1(word),
            rs2: rs2(word),
        }),
        _ => None,
    }
}

/// An atomic operation on a word.
fn atomic(word: u32) -> Option<Instr>
    ensures { result ≡ atomic_at (funct5_of word) word }
{
    match funct5(word) {
        0b00000 => Some(Instr::Amoadd {
            rd: rd(word),
            rs1: rs1(word),
            rs2: rs2(word),
            aq: bit(word >> 26),
            rl: bit(word >> 25),
        }),
        0b00001 => Some(Instr::Amoswap {
            rd: rd(word),
            rs1: rs1(word),
            rs2: rs2(word),
            aq: bit(word >> 26),
            rl: bit(word >> 25),
        }),
        0b00100 => Some(Instr::Amoxor {
            rd: rd(word),
            rs1: rs1(word),
            rs2: rs2(word),
            aq: bit(word >> 26),
            rl: bit(word >> 25),
        }),
        0b01000 => Some(Instr::Amoor {
            rd: rd(word),
            rs1: rs1(word),
            rs2: rs2(word),
            aq: bit(word >> 26),
            rl: bit(word >> 25),
        }),
        0b01100 => Some(Instr::Amoand {
            rd: rd(word),
            rs1: rs1(word),
            rs2: rs2(word),
            aq: bit(word >> 26),
            rl: bit(word >> 25),
        }),
        0b10000 => Some(Instr::Amomin {
            rd: rd(word),
            rs1: rs1(word),
            rs2: rs2(word),
            aq: bit(word >> 26),
            rl: bit(word >> 25),
        }),
        0b10100 => Some(Instr::Amomax {
            rd: rd(word),
            rs1: rs1(word),
            rs2: rs2(word),
            aq: bit(word >> 26),
            rl: bit(word >> 25),
        }),
        0b11000 => Some(Instr::Amominu {
            rd: rd(word),
            rs1: rs1(word),
            rs2: rs2(word),
            aq: bit(word >> 26),
            rl: bit(word >> 25),
        }),
        0b11100 => Some(Instr::Amomaxu {
            rd: rd(word),
            rs1: rs1(word),
            rs2: rs2(word),
            aq: bit(word >> 26),
            rl: bit(word >> 25),
        }),
        _ => None,
    }
}

/// A call or a breakpoint, whose words have no fields.
fn system(word: u32) -> Option<Instr>
    ensures { result ≡ system_at word }
{
    match word {
        0x0000_0073 => Some(Instr::Ecall),
        0x0010_0073 => Some(Instr::Ebreak),
        _ => None,
    }
}
