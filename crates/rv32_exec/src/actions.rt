// What an instruction asks for: the instruction set's manual, one arm a form.

ghost use Rattle.std.specs.Prelude.{◌≡◌, ◌<◌, ℤ, pos, ◌≤ℤ◌};
ghost use Rattle.rv32_isa.specs.Table.{IsValid};
ghost use Rattle.rv32_exec.specs.Actions.{action_of, HasRegister, upper, flag, even, branch, right_signed};

use crate::contexts::Context;
use crate::spaces::Width;
use rv32_isa::Instr;
use rv32_ma::{AmoOp, MulOp, mul_div};

/// What an instruction asks for, once its registers are read. Afterwards pc is the next instruction's address,
/// unless it jumps or ends the thread.
#[derive(Clone, Copy)]
pub enum Action {
    /// Puts a value into `rd`.
    Set {
        rd: u32,
        value: u32,
    },
    /// Nothing.
    Pass,
    /// Jumps, and puts the next instruction's address into `rd`.
    Jump {
        rd: u32,
        target: u32,
    },
    /// Loads into `rd`, sign-extended where `signed`.
    Load {
        rd: u32,
        va: u32,
        width: Width,
        signed: bool,
    },
    /// Stores the low bytes of a value.
    Store {
        va: u32,
        width: Width,
        value: u32,
    },
    /// Loads a word into `rd` and stores what the operation makes of it.
    Atomic {
        rd: u32,
        va: u32,
        op: AmoOp,
        operand: u32,
    },
    /// Calls the supervisor.
    Call,
    /// Ends the thread at a breakpoint.
    Break,
}

/// What the instruction asks for in this context.
#[inline(always)]
#[tactic(auto, unfolding(crate::specs::Actions::action_of, rv32_isa::specs::Table::IsValid))]
pub fn action_for(from: &Context, instr: Instr) -> Action
    requires { IsValid instr }
    ensures action { result ≡ action_of instr from.now }
    ensures register { HasRegister result }
{
    match instr {
        Instr::Lui { rd, imm } => set(rd, upper(imm)),
        Instr::Auipc { rd, imm } => set(rd, from.pc.wrapping_add(upper(imm))),
        Instr::Jal { rd, imm } => jump(rd, from.pc.wrapping_add(imm.cast_unsigned())),
        Instr::Jalr { rd, rs1, imm } => jump(rd, even(from.offset(rs1, imm))),
        Instr::Beq { rs1, rs2, imm } => branch(from, from.x(rs1) == from.x(rs2), imm),
        Instr::Bne { rs1, rs2, imm } => branch(from, from.x(rs1) != from.x(rs2), imm),
        Instr::Blt { rs1, rs2, imm } => branch(from, from.signed(rs1) < from.signed(rs2), imm),
        Instr::Bge { rs1, rs2, imm } => branch(from, from.signed(rs1) >= from.signed(rs2), imm),
        Instr::Bltu { rs1, rs2, imm } => branch(from, from.x(rs1) < from.x(rs2), imm),
        Instr::Bgeu { rs1, rs2, imm } => branch(from, from.x(rs1) >= from.x(rs2), imm),
        Instr::Lb { rd, rs1, imm } => load(rd, from.offset(rs1, imm), Width::Byte, true),
        Instr::Lh { rd, rs1, imm } => load(rd, from.offset(rs1, imm), Width::Half, true),
        Instr::Lw { rd, rs1, imm } => load(rd, from.offset(rs1, imm), Width::Word, false),
        Instr::Lbu { rd, rs1, imm } => load(rd, from.offset(rs1, imm), Width::Byte, false),
        Instr::Lhu { rd, rs1, imm } => load(rd, from.offset(rs1, imm), Width::Half, false),
        Instr::Sb { rs1, rs2, imm } => store(from.offset(rs1, imm), Width::Byte, from.x(rs2)),
        Instr::Sh { rs1, rs2, imm } => store(from.offset(rs1, imm), Width::Half, from.x(rs2)),
        Instr::Sw { rs1, rs2, imm } => store(from.offset(rs1, imm), Width::Word, from.x(rs2)),
        Instr::Addi { rd, rs1, imm } => set(rd, from.offset(rs1, imm)),
        Instr::Slti { rd, rs1, imm } => set(rd, flag(from.signed(rs1) < imm)),
        Instr::Sltiu { rd, rs1, imm } => set(rd, flag(from.x(rs1) < imm.cast_unsigned())),
        Instr::Xori { rd, rs1, imm } => set(rd, from.x(rs1) ^ imm.cast_unsigned()),
        Instr::Ori { rd, rs1, imm } => set(rd, from.x(rs1) | imm.cast_unsigned()),
        Instr::Andi { rd, rs1, imm } => set(rd, from.x(rs1) & imm.cast_unsigned()),
        Instr::Slli { rd, rs1, imm } => set(rd, from.x(rs1) << imm.cast_unsigned()),
        Instr::Srli { rd, rs1, imm } => set(rd, from.x(rs1) >> imm.cast_unsigned()),
        Instr::Srai { rd, rs1, imm } => set(rd, right_signed(from.x(rs1), imm.cast_unsigned())),
        Instr::Add { rd, rs1, rs2 } => set(rd, from.x(rs1).wrapping_add(from.x(rs2))),
        Instr::Sub { rd, rs1, rs2 } => set(rd, from.x(rs1).wrapping_sub(from.x(rs2))),
        Instr::Sll { rd, rs1, rs2 } => set(rd, from.x(rs1) << (from.x(rs2) & 0x1f)),
        Instr::Slt { rd, rs1, rs2 } => set(rd, flag(from.signed(rs1) < from.signed(rs2))),
        Instr::Sltu { rd, rs1, rs2 } => set(rd, flag(from.x(rs1) < from.x(rs2))),
        Instr::Xor { rd, rs1, rs2 } => set(rd, from.x(rs1) ^ from.x(rs2)),
        Instr::Srl { rd, rs1, rs2 } => set(rd, from.x(rs1) >> (from.x(rs2) & 0x1f)),
        Instr::Sra { rd, rs1, rs2 } => set(rd, right_signed(from.x(rs1), from.x(rs2) & 0x1f)),
        Instr::Or { rd, rs1, rs2 } => set(rd, from.x(rs1) | from.x(rs2)),
        Instr::And { rd, rs1, rs2 } => set(rd, from.x(rs1) & from.x(rs2)),
        Instr::Fence { .. } => Action::Pass,
        Instr::Ecall => Action::Call,
        Instr::Ebreak => Action::Break,
        Instr::Mul { rd, rs1, rs2 } => set(rd, mul_div(MulOp::Mul, from.x(rs1), from.x(rs2))),
        Instr::Mulh { rd, rs1, rs2 } => set(rd, mul_div(MulOp::Mulh, from.x(rs1), from.x(rs2))),
        Instr::Mulhsu { rd, rs1, rs2 } => set(rd, mul_div(MulOp::Mulhsu, from.x(rs1), from.x(rs2))),
        Instr::Mulhu { rd, rs1, rs2 } => set(rd, mul_div(MulOp::Mulhu, from.x(rs1), from.x(rs2))),
        Instr::Div { rd, rs1, rs2 } => set(rd, mul_div(MulOp::Div, from.x(rs1), from.x(rs2))),
        Instr::Divu { rd, rs1, rs2 } => set(rd, mul_div(MulOp::Divu, from.x(rs1), from.x(rs2))),
        Instr::Rem { rd, rs1, rs2 } => set(rd, mul_div(MulOp::Rem, from.x(rs1), from.x(rs2))),
        Instr::Remu { rd, rs1, rs2 } => set(rd, mul_div(MulOp::Remu, from.x(rs1), from.x(rs2))),
        Instr::Amoadd { rd, rs1, rs2, .. } => atomic(rd, from.x(rs1), AmoOp::Add, from.x(rs2)),
        Instr::Amoswap { rd, rs1, rs2, .. } => atomic(rd, from.x(rs1), AmoOp::Swap, from.x(rs2)),
        Instr::Amoxor { rd, rs1, rs2, .. } => atomic(rd, from.x(rs1), AmoOp::Xor, from.x(rs2)),
        Instr::Amoor { rd, rs1, rs2, .. } => atomic(rd, from.x(rs1), AmoOp::Or, from.x(rs2)),
        Instr::Amoand { rd, rs1, rs2, .. } => atomic(rd, from.x(rs1), AmoOp::And, from.x(rs2)),
        Instr::Amomin { rd, rs1, rs2, .. } => atomic(rd, from.x(rs1), AmoOp::Min, from.x(rs2)),
        Instr::Amomax { rd, rs1, rs2, .. } => atomic(rd, from.x(rs1), AmoOp::Max, from.x(rs2)),
        Instr::Amominu { rd, rs1, rs2, .. } => atomic(rd, from.x(rs1), AmoOp::Minu, from.x(rs2)),
        Instr::Amomaxu { rd, rs1, rs2, .. } => atomic(rd, from.x(rs1), AmoOp::Maxu, from.x(rs2)),
    }
}

/// A branch: a jump that links nothing, where it is taken.
fn branch(from: &Context, taken: bool, imm: i32) -> Action
    ensures { result ≡ branch from.now taken imm }
{
    if taken {
        jump(0, from.pc.wrapping_add(imm.cast_unsigned()))
    } else {
        Action::Pass
    }
}

fn set(rd: u32, value: u32) -> Action
    ensures { result ≡ Action.Set rd value }
{
    Action::Set { rd, value }
}

fn jump(rd: u32, target: u32) -> Action
    ensures { result ≡ Action.Jump rd target }
{
    Action::Jump { rd, target }
}

fn load(rd: u32, va: u32, width: Width, signed: bool) -> Action
    ensures { result ≡ Action.Load rd va width signed }
{
    Action::Load {
        rd,
        va,
        width,
        signed,
    }
}

fn store(va: u32, width: Width, value: u32) -> Action
    ensures { result ≡ Action.Store va width value }
{
    Action::Store { va, width, value }
}

fn atomic(rd: u32, va: u32, op: AmoOp, operand: u32) -> Action
    ensures { result ≡ Action.Atomic rd va op operand }
{
    Action::Atomic {
        rd,
        va,
        op,
        operand,
    }
}

/// A shift to the right that fills with the sign.
fn right_signed(number: u32, by: u32) -> u32
    requires { by < 32 }
    ensures { result ≡ right_signed number by }
{
    (number.cast_signed() >> by).cast_unsigned()
}

/// The word of an upper immediate.
fn upper(imm: i32) -> u32
    requires low { pos 0 ≤ℤ imm }
    requires high { imm ≤ℤ pos 1048575 }
    ensures { result ≡ upper imm }
{
    imm.cast_unsigned() << 12
}

/// 1 or 0.
fn flag(holds: bool) -> u32
    ensures { result ≡ flag holds }
{
    u32::from(holds)
}

/// The number with bit 0 cleared.
fn even(number: u32) -> u32
    ensures { result ≡ even number }
{
    number - number % 2
}
