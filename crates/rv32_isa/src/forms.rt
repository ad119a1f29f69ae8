/// A user instruction of RV32I, M or Zaamo, one variant a form.
///
/// A register is a number below 32. An immediate is the number that the form means: signed where the form
/// sign-extends it, the distance in bytes of a branch or a jump, 0 to 31 of a shift, and 0 to 4095 of a
/// fence. The two upper-immediate forms hold the upper twenty bits as 0 to 1048575. The word that a
/// computing form makes goes into `rd`; an atomic form puts the word found at `rs1` there, and `aq` and `rl`
/// are its two ordering bits. An instruction is valid where its fields lie in these ranges.
#[derive(Clone, Copy)]
pub enum Instr {
    /// `rd` becomes `imm` with twelve zero bits below it.
    Lui {
        rd: u32,
        imm: i32,
    },
    /// `rd` becomes the address of this instruction plus `imm` with twelve zero bits below it.
    Auipc {
        rd: u32,
        imm: i32,
    },
    /// Jumps by `imm`; `rd` becomes the address of the next instruction.
    Jal {
        rd: u32,
        imm: i32,
    },
    /// Jumps to `rs1 + imm` with bit 0 cleared; `rd` becomes the address of the next instruction.
    Jalr {
        rd: u32,
        rs1: u32,
        imm: i32,
    },
    /// Branches by `imm` if `rs1` and `rs2` are equal.
    Beq {
        rs1: u32,
        rs2: u32,
        imm: i32,
    },
    /// Branches by `imm` if `rs1` and `rs2` are unequal.
    Bne {
        rs1: u32,
        rs2: u32,
        imm: i32,
    },
    /// Branches by `imm` if `rs1` is less than `rs2`, both signed.
    Blt {
        rs1: u32,
        rs2: u32,
        imm: i32,
    },
    /// Branches by `imm` if `rs1` is at least `rs2`, both signed.
    Bge {
        rs1: u32,
        rs2: u32,
        imm: i32,
    },
    /// Branches by `imm` if `rs1` is less than `rs2`, both unsigned.
    Bltu {
        rs1: u32,
        rs2: u32,
        imm: i32,
    },
    /// Branches by `imm` if `rs1` is at least `rs2`, both unsigned.
    Bgeu {
        rs1: u32,
        rs2: u32,
        imm: i32,
    },
    /// Loads a byte at `rs1 + imm`, sign-extended.
    Lb {
        rd: u32,
        rs1: u32,
        imm: i32,
    },
    /// Loads a half at `rs1 + imm`, sign-extended.
    Lh {
        rd: u32,
        rs1: u32,
        imm: i32,
    },
    /// Loads a word at `rs1 + imm`.
    Lw {
        rd: u32,
        rs1: u32,
        imm: i32,
    },
    /// Loads a byte at `rs1 + imm`, zero-extended.
    Lbu {
        rd: u32,
        rs1: u32,
        imm: i32,
    },
    /// Loads a half at `rs1 + imm`, zero-extended.
    Lhu {
        rd: u32,
        rs1: u32,
        imm: i32,
    },
    /// Stores the low byte of `rs2` at `rs1 + imm`.
    Sb {
        rs1: u32,
        rs2: u32,
        imm: i32,
    },
    /// Stores the low half of `rs2` at `rs1 + imm`.
    Sh {
        rs1: u32,
        rs2: u32,
        imm: i32,
    },
    /// Stores `rs2` at `rs1 + imm`.
    Sw {
        rs1: u32,
        rs2: u32,
        imm: i32,
    },
    /// The sum of `rs1` and `imm`.
    Addi {
        rd: u32,
        rs1: u32,
        imm: i32,
    },
    /// 1 if `rs1` is less than `imm`, both signed, else 0.
    Slti {
        rd: u32,
        rs1: u32,
        imm: i32,
    },
    /// 1 if `rs1` is less than `imm`, both unsigned, else 0.
    Sltiu {
        rd: u32,
        rs1: u32,
        imm: i32,
    },
    /// `rs1` xor `imm`.
    Xori {
        rd: u32,
        rs1: u32,
        imm: i32,
    },
    /// `rs1` or `imm`.
    Ori {
        rd: u32,
        rs1: u32,
        imm: i32,
    },
    /// `rs1` and `imm`.
    Andi {
        rd: u32,
        rs1: u32,
        imm: i32,
    },
    /// `rs1` shifted left by `imm`.
    Slli {
        rd: u32,
        rs1: u32,
        imm: i32,
    },
    /// `rs1` shifted right by `imm`, filled with zeros.
    Srli {
        rd: u32,
        rs1: u32,
        imm: i32,
    },
    /// `rs1` shifted right by `imm`, filled with its sign.
    Srai {
        rd: u32,
        rs1: u32,
        imm: i32,
    },
    /// The sum of `rs1` and `rs2`.
    Add {
        rd: u32,
        rs1: u32,
        rs2: u32,
    },
    /// `rs1` less `rs2`.
    Sub {
        rd: u32,
        rs1: u32,
        rs2: u32,
    },
    /// `rs1` shifted left by the low five bits of `rs2`.
    Sll {
        rd: u32,
        rs1: u32,
        rs2: u32,
    },
    /// 1 if `rs1` is less than `rs2`, both signed, else 0.
    Slt {
        rd: u32,
        rs1: u32,
        rs2: u32,
    },
    /// 1 if `rs1` is less than `rs2`, both unsigned, else 0.
    Sltu {
        rd: u32,
        rs1: u32,
        rs2: u32,
    },
    /// `rs1` xor `rs2`.
    Xor {
        rd: u32,
        rs1: u32,
        rs2: u32,
    },
    /// `rs1` shifted right by the low five bits of `rs2`, filled with zeros.
    Srl {
        rd: u32,
        rs1: u32,
        rs2: u32,
    },
    /// `rs1` shifted right by the low five bits of `rs2`, filled with its sign.
    Sra {
        rd: u32,
        rs1: u32,
        rs2: u32,
    },
    /// `rs1` or `rs2`.
    Or {
        rd: u32,
        rs1: u32,
        rs2: u32,
    },
    /// `rs1` and `rs2`.
    And {
        rd: u32,
        rs1: u32,
        rs2: u32,
    },
    /// Does nothing; the fields are kept so that the word can be given back.
    Fence {
        rd: u32,
        rs1: u32,
        imm: i32,
    },
    /// Calls the supervisor.
    Ecall,
    /// Stops at a breakpoint.
    Ebreak,
    /// The low 32 bits of the product.
    Mul {
        rd: u32,
        rs1: u32,
        rs2: u32,
    },
    /// The high 32 bits of the product, both signed.
    Mulh {
        rd: u32,
        rs1: u32,
        rs2: u32,
    },
    /// The high 32 bits of the product, `rs1` signed and `rs2` unsigned.
    Mulhsu {
        rd: u32,
        rs1: u32,
        rs2: u32,
    },
    /// The high 32 bits of the product, both unsigned.
    Mulhu {
        rd: u32,
        rs1: u32,
        rs2: u32,
    },
    /// The quotient, both signed, rounded towards zero.
    Div {
        rd: u32,
        rs1: u32,
        rs2: u32,
    },
    /// The quotient, both unsigned.
    Divu {
        rd: u32,
        rs1: u32,
        rs2: u32,
    },
    /// The remainder of the signed quotient, with the sign of `rs1`.
    Rem {
        rd: u32,
        rs1: u32,
        rs2: u32,
    },
    /// The remainder of the unsigned quotient.
    Remu {
        rd: u32,
        rs1: u32,
        rs2: u32,
    },
    /// Adds `rs2` to the word at `rs1`.
    Amoadd {
        rd: u32,
        rs1: u32,
        rs2: u32,
        aq: bool,
        rl: bool,
    },
    /// Replaces the word at `rs1` by `rs2`.
    Amoswap {
        rd: u32,
        rs1: u32,
        rs2: u32,
        aq: bool,
        rl: bool,
    },
    /// The word at `rs1` becomes its xor with `rs2`.
    Amoxor {
        rd: u32,
        rs1: u32,
        rs2: u32,
        aq: bool,
        rl: bool,
    },
    /// The word at `rs1` becomes its or with `rs2`.
    Amoor {
        rd: u32,
        rs1: u32,
        rs2: u32,
        aq: bool,
        rl: bool,
    },
    /// The word at `rs1` becomes its and with `rs2`.
    Amoand {
        rd: u32,
        rs1: u32,
        rs2: u32,
        aq: bool,
        rl: bool,
    },
    /// The word at `rs1` becomes the lesser of it and `rs2`, both signed.
    Amomin {
        rd: u32,
        rs1: u32,
        rs2: u32,
        aq: bool,
        rl: bool,
    },
    /// The word at `rs1` becomes the greater of it and `rs2`, both signed.
    Amomax {
        rd: u32,
        rs1: u32,
        rs2: u32,
        aq: bool,
        rl: bool,
    },
    /// The word at `rs1` becomes the lesser of it and `rs2`, both unsigned.
    Amominu {
        rd: u32,
        rs1: u32,
        rs2: u32,
        aq: bool,
        rl: bool,
    },
    /// The word at `rs1` becomes the greater of it and `rs2`, both unsigned.
    Amomaxu {
        rd: u32,
        rs1: u32,
        rs2: u32,
        aq: bool,
        rl: bool,
    },
}
