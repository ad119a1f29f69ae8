// The word of an instruction: one function for each format of word.

ghost use Rattle.std.specs.Prelude.{◌≡◌, ◌<◌, ◌+◌, ◌*◌, Some};
ghost use Rattle.rv32_isa.specs.Word.{bit_of, r_word, i_word, s_word, b_word, u_word, j_word};
ghost use Rattle.rv32_isa.specs.Table.{word_of, IsValid, instruction_of, IsRegister};

use crate::fields::{bits_12, bits_13, bits_21, flag};
use crate::forms::Instr;

/// The word of an instruction: the constant fields of its form and its own fields at their places.
pub fn encode(instr: Instr) -> u32
    requires { IsValid instr }
    ensures word { result ≡ word_of instr }
    ensures decodes { instruction_of result ≡ Some instr }
{
    by_form(instr)
}

/// The word of an instruction, by its form.
#[tactic(auto, unfolding(crate::specs::Table::IsValid, crate::specs::Table::word_of))]
fn by_form(instr: Instr) -> u32
    requires { IsValid instr }
    ensures { result ≡ word_of instr }
{
    match instr {
        Instr::Lui { rd, imm } => upper_word(0b0110111, rd, imm as u32),
        Instr::Auipc { rd, imm } => upper_word(0b0010111, rd, imm as u32),
        Instr::Jal { rd, imm } => jump_word(0b1101111, rd, bits_21(imm)),
        Instr::Jalr { rd, rs1, imm } => immediate_word(0b1100111, 0b000, rd, rs1, bits_12(imm)),
        Instr::Beq { rs1, rs2, imm } => branch_word(0b1100011, 0b000, rs1, rs2, bits_13(imm)),
        Instr::Bne { rs1, rs2, imm } => branch_word(0b1100011, 0b001, rs1, rs2, bits_13(imm)),
        Instr::Blt { rs1, rs2, imm } => branch_word(0b1100011, 0b100, rs1, rs2, bits_13(imm)),
        Instr::Bge { rs1, rs2, imm } => branch_word(0b1100011, 0b101, rs1, rs2, bits_13(imm)),
        Instr::Bltu { rs1, rs2, imm } => branch_word(0b1100011, 0b110, rs1, rs2, bits_13(imm)),
        Instr::Bgeu { rs1, rs2, imm } => branch_word(0b1100011, 0b111, rs1, rs2, bits_13(imm)),
        Instr::Lb { rd, rs1, imm } => immediate_word(0b0000011, 0b000, rd, rs1, bits_12(imm)),
        Instr::Lh { rd, rs1, imm } => immediate_word(0b0000011, 0b001, rd, rs1, bits_12(imm)),
        Instr::Lw { rd, rs1, imm } => immediate_word(0b0000011, 0b010, rd, rs1, bits_12(imm)),
        Instr::Lbu { rd, rs1, imm } => immediate_word(0b0000011, 0b100, rd, rs1, bits_12(imm)),
        Instr::Lhu { rd, rs1, imm } => immediate_word(0b0000011, 0b101, rd, rs1, bits_12(imm)),
        Instr::Sb { rs1, rs2, imm } => store_word(0b0100011, 0b000, rs1, rs2, bits_12(imm)),
        Instr::Sh { rs1, rs2, imm } => store_word(0b0100011, 0b001, rs1, rs2, bits_12(imm)),
        Instr::Sw { rs1, rs2, imm } => store_word(0b0100011, 0b010, rs1, rs2, bits_12(imm)),
        Instr::Addi { rd, rs1, imm } => immediate_word(0b0010011, 0b000, rd, rs1, bits_12(imm)),
        Instr::Slti { rd, rs1, imm } => immediate_word(0b0010011, 0b010, rd, rs1, bits_12(imm)),
        Instr::Sltiu { rd, rs1, imm } => immediate_word(0b0010011, 0b011, rd, rs1, bits_12(imm)),
        Instr::Xori { rd, rs1, imm } => immediate_word(0b0010011, 0b100, rd, rs1, bits_12(imm)),
        Instr::Ori { rd, rs1, imm } => immediate_word(0b0010011, 0b110, rd, rs1, bits_12(imm)),
        Instr::Andi { rd, rs1, imm } => immediate_word(0b0010011, 0b111, rd, rs1, bits_12(imm)),
        Instr::Slli { rd, rs1, imm } => register_word(
            0b0010011, 0b001, 0b0000000, rd, rs1, imm as u32,
        ),
        Instr::Srli { rd, rs1, imm } => register_word(
            0b0010011, 0b101, 0b0000000, rd, rs1, imm as u32,
        ),
        Instr::Srai { rd, rs1, imm } => register_word(
            0b0010011, 0b101, 0b0100000, rd, rs1, imm as u32,
        ),
        Instr::Add { rd, rs1, rs2 } => register_word(0b0110011, 0b000, 0b0000000, rd, rs1, rs2),
        Instr::Sub { rd, rs1, rs2 } => register_word(0b0110011, 0b000, 0b0100000, rd, rs1, rs2),
        Instr::Sll { rd, rs1, rs2 } => register_word(0b0110011, 0b001, 0b0000000, rd, rs1, rs2),
        Instr::Slt { rd, rs1, rs2 } => register_word(0b0110011, 0b010, 0b0000000, rd, rs1, rs2),
        Instr::Sltu { rd, rs1, rs2 } => register_word(0b0110011, 0b011, 0b0000000, rd, rs1, rs2),
        Instr::Xor { rd, rs1, rs2 } => register_word(0b0110011, 0b100, 0b0000000, rd, rs1, rs2),
        Instr::Srl { rd, rs1, rs2 } => register_word(0b0110011, 0b101, 0b0000000, rd, rs1, rs2),
        Instr::Sra { rd, rs1, rs2 } => register_word(0b0110011, 0b101, 0b0100000, rd, rs1, rs2),
        Instr::Or { rd, rs1, rs2 } => register_word(0b0110011, 0b110, 0b0000000, rd, rs1, rs2),
        Instr::And { rd, rs1, rs2 } => register_word(0b0110011, 0b111, 0b0000000, rd, rs1, rs2),
        Instr::Fence { rd, rs1, imm } => immediate_word(0b0001111, 0b000, rd, rs1, imm as u32),
        Instr::Ecall => 0x0000_0073,
        Instr::Ebreak => 0x0010_0073,
        Instr::Mul { rd, rs1, rs2 } => register_word(0b0110011, 0b000, 0b0000001, rd, rs1, rs2),
        Instr::Mulh { rd, rs1, rs2 } => register_word(0b0110011, 0b001, 0b0000001, rd, rs1, rs2),
        Instr::Mulhsu { rd, rs1, rs2 } => register_word(0b0110011, 0b010, 0b0000001, rd, rs1, rs2),
        Instr::Mulhu { rd, rs1, rs2 } => register_word(0b0110011, 0b011, 0b0000001, rd, rs1, rs2),
        Instr::Div { rd, rs1, rs2 } => register_word(0b0110011, 0b100, 0b0000001, rd, rs1, rs2),
        Instr::Divu { rd, rs1, rs2 } => register_word(0b0110011, 0b101, 0b0000001, rd, rs1, rs2),
        Instr::Rem { rd, rs1, rs2 } => register_word(0b0110011, 0b110, 0b0000001, rd, rs1, rs2),
        Instr::Remu { rd, rs1, rs2 } => register_word(0b0110011, 0b111, 0b0000001, rd, rs1, rs2),
        Instr::Amoadd {
            rd,
            rs1,
            rs2,
            aq,
            rl,
        } => atomic_word(0b00000, aq, rl, rd, rs1, rs2),
        Instr::Amoswap {
            rd,
            rs1,
            rs2,
            aq,
            rl,
        } => atomic_word(0b00001, aq, rl, rd, rs1, rs2),
        Instr::Amoxor {
            rd,
            rs1,
            rs2,
            aq,
            rl,
        } => atomic_word(0b00100, aq, rl, rd, rs1, rs2),
        Instr::Amoor {
            rd,
            rs1,
            rs2,
            aq,
            rl,
        } => atomic_word(0b01000, aq, rl, rd, rs1, rs2),
        Instr::Amoand {
            rd,
            rs1,
            rs2,
            aq,
            rl,
        } => atomic_word(0b01100, aq, rl, rd, rs1, rs2),
        Instr::Amomin {
            rd,
            rs1,
            rs2,
            aq,
            rl,
        } => atomic_word(0b10000, aq, rl, rd, rs1, rs2),
        Instr::Amomax {
            rd,
            rs1,
            rs2,
            aq,
            rl,
        } => atomic_word(0b10100, aq, rl, rd, rs1, rs2),
        Instr::Amominu {
            rd,
            rs1,
            rs2,
            aq,
            rl,
        } => atomic_word(0b11000, aq, rl, rd, rs1, rs2),
        Instr::Amomaxu {
            rd,
            rs1,
            rs2,
            aq,
            rl,
        } => atomic_word(0b11100, aq, rl, rd, rs1, rs2),
    }
}
/// Two registers into a third.
fn register_word(opcode: u32, funct3: u32, funct7: u32, rd: u32, rs1: u32, rs2: u32) -> u32
    requires opcode { opcode < 128 }
    requires funct3 { funct3 < 8 }
    requires funct7 { funct7 < 128 }
    requires rd { IsRegister rd }
    requires rs1 { IsRegister rs1 }
    requires rs2 { IsRegister rs2 }
    ensures { result ≡ r_word opcode funct3 funct7 rd rs1 rs2 }
{
    let registers = (rs2 << 5) | rs1;
    (((((((funct7 << 10) | registers) << 3) | funct3) << 5) | rd) << 7) | opcode
}

/// A register and twelve bits into a register.
fn immediate_word(opcode: u32, funct3: u32, rd: u32, rs1: u32, high: u32) -> u32
    requires opcode { opcode < 128 }
    requires funct3 { funct3 < 8 }
    requires rd { IsRegister rd }
    requires rs1 { IsRegister rs1 }
    requires high { high < 4096 }
    ensures { result ≡ i_word opcode funct3 rd rs1 high }
{
    (((((((high << 5) | rs1) << 3) | funct3) << 5) | rd) << 7) | opcode
}

/// A register stored at an offset from another: the offset's low five bits stand where other formats have rd.
fn store_word(opcode: u32, funct3: u32, rs1: u32, rs2: u32, offset: u32) -> u32
    requires opcode { opcode < 128 }
    requires funct3 { funct3 < 8 }
    requires rs1 { IsRegister rs1 }
    requires rs2 { IsRegister rs2 }
    requires offset { offset < 4096 }
    ensures { result ≡ s_word opcode funct3 rs1 rs2 offset }
{
    register_word(opcode, funct3, offset >> 5, offset & 0x1f, rs1, rs2)
}

/// Two registers compared, and a distance.
fn branch_word(opcode: u32, funct3: u32, rs1: u32, rs2: u32, distance: u32) -> u32
    requires opcode { opcode < 128 }
    requires funct3 { funct3 < 8 }
    requires rs1 { IsRegister rs1 }
    requires rs2 { IsRegister rs2 }
    requires distance { distance < 8192 }
    ensures { result ≡ b_word opcode funct3 rs1 rs2 distance }
{
    let high = ((distance >> 12) << 6) | ((distance >> 5) & 0x3f);
    let low = (((distance >> 1) & 0xf) << 1) | ((distance >> 11) & 0x1);
    register_word(opcode, funct3, high, low, rs1, rs2)
}

/// A register and the upper twenty bits.
fn upper_word(opcode: u32, rd: u32, high: u32) -> u32
    requires opcode { opcode < 128 }
    requires rd { IsRegister rd }
    requires high { high < 1048576 }
    ensures { result ≡ u_word opcode rd high }
{
    (((high << 5) | rd) << 7) | opcode
}

/// A register and the distance of a jump.
fn jump_word(opcode: u32, rd: u32, distance: u32) -> u32
    requires opcode { opcode < 128 }
    requires rd { IsRegister rd }
    requires distance { distance < 2097152 }
    ensures { result ≡ j_word opcode rd distance }
{
    let sign_and_low = ((distance >> 20) << 10) | ((distance >> 1) & 0x3ff);
    let middle = (((distance >> 11) & 0x1) << 8) | ((distance >> 12) & 0xff);
    upper_word(opcode, rd, (sign_and_low << 9) | middle)
}

/// An atomic operation, with its two ordering bits.
fn atomic_word(funct5: u32, aq: bool, rl: bool, rd: u32, rs1: u32, rs2: u32) -> u32
    requires funct5 { funct5 < 32 }
    requires rd { IsRegister rd }
    requires rs1 { IsRegister rs1 }
    requires rs2 { IsRegister rs2 }
    ensures { result ≡ r_word 47 2 (funct5 * 4 + bit_of aq * 2 + bit_of rl) rd rs1 rs2 }
{
    let funct7 = (((funct5 << 1) | flag(aq)) << 1) | flag(rl);
    register_word(0b0101111, 0b010, funct7, rd, rs1, rs2)
}
