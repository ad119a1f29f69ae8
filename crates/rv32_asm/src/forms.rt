//! Mnemonics with their operands: the instruction that they are.

ghost use Rattle.std.specs.Prelude.{◌≡◌, pos, negsuc, IfSome};
ghost use Rattle.rv32_isa.specs.Table.{IsRegister, LiesFrom, IsValid};
ghost use Rattle.rv32_asm.specs.Aims.{IsAim};
ghost use Rattle.rv32_asm.specs.Forms.{upper, load, store, immediate_form, shift, fence, register_form, product, atomic, branch, ordering, atomic_named, immediate_at, shift_at, fence_at, with_immediate, of_two, of_three};

use crate::fields::{bracketed, cut, immediate_in, is, register};
use rv32_isa::Instr;

/// An instruction that goes to a target, without the distance.
#[derive(Clone, Copy)]
pub(crate) enum Aim {
    Jal { rd: u32 },
    Beq { rs1: u32, rs2: u32 },
    Bne { rs1: u32, rs2: u32 },
    Blt { rs1: u32, rs2: u32 },
    Bge { rs1: u32, rs2: u32 },
    Bltu { rs1: u32, rs2: u32 },
    Bgeu { rs1: u32, rs2: u32 },
}

/// `rd, imm`
#[tactic(auto, unfolding(crate::specs::Forms::upper, rv32_isa::specs::Table::IsValid))]
pub(crate) fn upper(name: &[u8], rd: u32, imm: i32) -> Option<Instr>
    requires rd { IsRegister rd }
    requires range { LiesFrom (pos 0) (pos 1048575) imm }
    ensures is { result ≡ upper name.now rd imm }
    ensures valid { IfSome result IsValid }
{
    if is(name, b"lui") {
        Some(Instr::Lui { rd, imm })
    } else if is(name, b"auipc") {
        Some(Instr::Auipc { rd, imm })
    } else {
        None
    }
}

/// `rd, imm(rs1)`
#[tactic(auto, unfolding(crate::specs::Forms::load, rv32_isa::specs::Table::IsValid))]
pub(crate) fn load(name: &[u8], rd: u32, rs1: u32, imm: i32) -> Option<Instr>
    requires rd { IsRegister rd }
    requires rs1 { IsRegister rs1 }
    requires range { LiesFrom (negsuc 2047) (pos 2047) imm }
    ensures is { result ≡ load name.now rd rs1 imm }
    ensures valid { IfSome result IsValid }
{
    if is(name, b"jalr") {
        Some(Instr::Jalr { rd, rs1, imm })
    } else if is(name, b"lb") {
        Some(Instr::Lb { rd, rs1, imm })
    } else if is(name, b"lh") {
        Some(Instr::Lh { rd, rs1, imm })
    } else if is(name, b"lw") {
        Some(Instr::Lw { rd, rs1, imm })
    } else if is(name, b"lbu") {
        Some(Instr::Lbu { rd, rs1, imm })
    } else if is(name, b"lhu") {
        Some(Instr::Lhu { rd, rs1, imm })
    } else {
        None
    }
}

/// `rs2, imm(rs1)`
#[tactic(auto, unfolding(crate::specs::Forms::store, rv32_isa::specs::Table::IsValid))]
pub(crate) fn store(name: &[u8], rs2: u32, rs1: u32, imm: i32) -> Option<Instr>
    requires rs2 { IsRegister rs2 }
    requires rs1 { IsRegister rs1 }
    requires range { LiesFrom (negsuc 2047) (pos 2047) imm }
    ensures is { result ≡ store name.now rs2 rs1 imm }
    ensures valid { IfSome result IsValid }
{
    if is(name, b"sb") {
        Some(Instr::Sb { rs1, rs2, imm })
    } else if is(name, b"sh") {
        Some(Instr::Sh { rs1, rs2, imm })
    } else if is(name, b"sw") {
        Some(Instr::Sw { rs1, rs2, imm })
    } else {
        None
    }
}

/// `rd, rs1, imm` of twelve bits, signed
#[tactic(auto, unfolding(crate::specs::Forms::immediate_form, rv32_isa::specs::Table::IsValid))]
pub(crate) fn immediate_form(name: &[u8], rd: u32, rs1: u32, imm: i32) -> Option<Instr>
    requires rd { IsRegister rd }
    requires rs1 { IsRegister rs1 }
    requires range { LiesFrom (negsuc 2047) (pos 2047) imm }
    ensures is { result ≡ immediate_form name.now rd rs1 imm }
    ensures valid { IfSome result IsValid }
{
    if is(name, b"addi") {
        Some(Instr::Addi { rd, rs1, imm })
    } else if is(name, b"slti") {
        Some(Instr::Slti { rd, rs1, imm })
    } else if is(name, b"sltiu") {
        Some(Instr::Sltiu { rd, rs1, imm })
    } else if is(name, b"xori") {
        Some(Instr::Xori { rd, rs1, imm })
    } else if is(name, b"ori") {
        Some(Instr::Ori { rd, rs1, imm })
    } else if is(name, b"andi") {
        Some(Instr::Andi { rd, rs1, imm })
    } else {
        None
    }
}

/// `rd, rs1, imm` of a shift
#[tactic(auto, unfolding(crate::specs::Forms::shift, rv32_isa::specs::Table::IsValid))]
pub(crate) fn shift(name: &[u8], rd: u32, rs1: u32, imm: i32) -> Option<Instr>
    requires rd { IsRegister rd }
    requires rs1 { IsRegister rs1 }
    requires range { LiesFrom (pos 0) (pos 31) imm }
    ensures is { result ≡ shift name.now rd rs1 imm }
    ensures valid { IfSome result IsValid }
{
    if is(name, b"slli") {
        Some(Instr::Slli { rd, rs1, imm })
    } else if is(name, b"srli") {
        Some(Instr::Srli { rd, rs1, imm })
    } else if is(name, b"srai") {
        Some(Instr::Srai { rd, rs1, imm })
    } else {
        None
    }
}

/// `rd, rs1, imm` of the fence
#[tactic(auto, unfolding(crate::specs::Forms::fence, rv32_isa::specs::Table::IsValid))]
pub(crate) fn fence(name: &[u8], rd: u32, rs1: u32, imm: i32) -> Option<Instr>
    requires rd { IsRegister rd }
    requires rs1 { IsRegister rs1 }
    requires range { LiesFrom (pos 0) (pos 4095) imm }
    ensures is { result ≡ fence name.now rd rs1 imm }
    ensures valid { IfSome result IsValid }
{
    if is(name, b"fence") {
        Some(Instr::Fence { rd, rs1, imm })
    } else {
        None
    }
}

/// `rd, rs1, rs2`
#[tactic(auto, unfolding(crate::specs::Forms::register_form, rv32_isa::specs::Table::IsValid))]
pub(crate) fn register_form(name: &[u8], rd: u32, rs1: u32, rs2: u32) -> Option<Instr>
    requires rd { IsRegister rd }
    requires rs1 { IsRegister rs1 }
    requires rs2 { IsRegister rs2 }
    ensures is { result ≡ register_form name.now rd rs1 rs2 }
    ensures valid { IfSome result IsValid }
{
    if is(name, b"add") {
        Some(Instr::Add { rd, rs1, rs2 })
    } else if is(name, b"sub") {
        Some(Instr::Sub { rd, rs1, rs2 })
    } else if is(name, b"sll") {
        Some(Instr::Sll { rd, rs1, rs2 })
    } else if is(name, b"slt") {
        Some(Instr::Slt { rd, rs1, rs2 })
    } else if is(name, b"sltu") {
        Some(Instr::Sltu { rd, rs1, rs2 })
    } else if is(name, b"xor") {
        Some(Instr::Xor { rd, rs1, rs2 })
    } else if is(name, b"srl") {
        Some(Instr::Srl { rd, rs1, rs2 })
    } else if is(name, b"sra") {
        Some(Instr::Sra { rd, rs1, rs2 })
    } else if is(name, b"or") {
        Some(Instr::Or { rd, rs1, rs2 })
    } else if is(name, b"and") {
        Some(Instr::And { rd, rs1, rs2 })
    } else {
        None
    }
}

/// `rd, rs1, rs2` of a product, a quotient or a remainder
#[tactic(auto, unfolding(crate::specs::Forms::product, rv32_isa::specs::Table::IsValid))]
pub(crate) fn product(name: &[u8], rd: u32, rs1: u32, rs2: u32) -> Option<Instr>
    requires rd { IsRegister rd }
    requires rs1 { IsRegister rs1 }
    requires rs2 { IsRegister rs2 }
    ensures is { result ≡ product name.now rd rs1 rs2 }
    ensures valid { IfSome result IsValid }
{
    if is(name, b"mul") {
        Some(Instr::Mul { rd, rs1, rs2 })
    } else if is(name, b"mulh") {
        Some(Instr::Mulh { rd, rs1, rs2 })
    } else if is(name, b"mulhsu") {
        Some(Instr::Mulhsu { rd, rs1, rs2 })
    } else if is(name, b"mulhu") {
        Some(Instr::Mulhu { rd, rs1, rs2 })
    } else if is(name, b"div") {
        Some(Instr::Div { rd, rs1, rs2 })
    } else if is(name, b"divu") {
        Some(Instr::Divu { rd, rs1, rs2 })
    } else if is(name, b"rem") {
        Some(Instr::Rem { rd, rs1, rs2 })
    } else if is(name, b"remu") {
        Some(Instr::Remu { rd, rs1, rs2 })
    } else {
        None
    }
}

/// `rd, rs2, (rs1)`, by what stands before the point
#[tactic(auto, unfolding(crate::specs::Forms::atomic, rv32_isa::specs::Table::IsValid))]
pub(crate) fn atomic(name: &[u8], rd: u32, rs1: u32, rs2: u32, aq: bool, rl: bool) -> Option<Instr>
    requires rd { IsRegister rd }
    requires rs1 { IsRegister rs1 }
    requires rs2 { IsRegister rs2 }
    ensures is { result ≡ atomic name.now rd rs1 rs2 aq rl }
    ensures valid { IfSome result IsValid }
{
    if is(name, b"amoadd") {
        Some(Instr::Amoadd {
            rd,
            rs1,
            rs2,
            aq,
            rl,
        })
    } else if is(name, b"amoswap") {
        Some(Instr::Amoswap {
            rd,
            rs1,
            rs2,
            aq,
            rl,
        })
    } else if is(name, b"amoxor") {
        Some(Instr::Amoxor {
            rd,
            rs1,
            rs2,
            aq,
            rl,
        })
    } else if is(name, b"amoor") {
        Some(Instr::Amoor {
            rd,
            rs1,
            rs2,
            aq,
            rl,
        })
    } else if is(name, b"amoand") {
        Some(Instr::Amoand {
            rd,
            rs1,
            rs2,
            aq,
            rl,
        })
    } else if is(name, b"amomin") {
        Some(Instr::Amomin {
            rd,
            rs1,
            rs2,
            aq,
            rl,
        })
    } else if is(name, b"amomax") {
        Some(Instr::Amomax {
            rd,
            rs1,
            rs2,
            aq,
            rl,
        })
    } else if is(name, b"amominu") {
        Some(Instr::Amominu {
            rd,
            rs1,
            rs2,
            aq,
            rl,
        })
    } else if is(name, b"amomaxu") {
        Some(Instr::Amomaxu {
            rd,
            rs1,
            rs2,
            aq,
            rl,
        })
    } else {
        None
    }
}

/// `rs1, rs2, target`
#[tactic(auto, unfolding(crate::specs::Forms::branch))]
pub(crate) fn branch(name: &[u8], rs1: u32, rs2: u32) -> Option<Aim>
    requires rs1 { IsRegister rs1 }
    requires rs2 { IsRegister rs2 }
    ensures is { result ≡ branch name.now rs1 rs2 }
    ensures valid { IfSome result IsAim }
{
    if is(name, b"beq") {
        Some(Aim::Beq { rs1, rs2 })
    } else if is(name, b"bne") {
        Some(Aim::Bne { rs1, rs2 })
    } else if is(name, b"blt") {
        Some(Aim::Blt { rs1, rs2 })
    } else if is(name, b"bge") {
        Some(Aim::Bge { rs1, rs2 })
    } else if is(name, b"bltu") {
        Some(Aim::Bltu { rs1, rs2 })
    } else if is(name, b"bgeu") {
        Some(Aim::Bgeu { rs1, rs2 })
    } else {
        None
    }
}

// What follows the point of an atomic mnemonic: whether it acquires, and whether it releases.
#[tactic(auto, unfolding(crate::specs::Forms::ordering))]
fn ordering(name: &[u8]) -> Option<(bool, bool)>
    ensures { result ≡ ordering name.now }
{
    if is(name, b"w") {
        Some((false, false))
    } else if is(name, b"w.aq") {
        Some((true, false))
    } else if is(name, b"w.rl") {
        Some((false, true))
    } else if is(name, b"w.aqrl") {
        Some((true, true))
    } else {
        None
    }
}

#[tactic(auto, unfolding(crate::specs::Forms::atomic_named))]
fn atomic_named(name: &[u8], rd: u32, rs1: u32, rs2: u32) -> Option<Instr>
    requires rd { IsRegister rd }
    requires rs1 { IsRegister rs1 }
    requires rs2 { IsRegister rs2 }
    ensures is { result ≡ atomic_named name.now rd rs1 rs2 }
    ensures valid { IfSome result IsValid }
{
    let (operation, suffix) = cut(name, b'.')?;
    let (aq, rl) = ordering(suffix)?;
    atomic(operation, rd, rs1, rs2, aq, rl)
}

/// An instruction of two operands, neither of which is a target.
#[tactic(auto, unfolding(crate::specs::Forms::of_two))]
pub(crate) fn of_two(name: &[u8], a: &[u8], b: &[u8]) -> Option<Instr>
    ensures is { result ≡ of_two name.now a.now b.now }
    ensures valid { IfSome result IsValid }
{
    let first = register(a)?;
    match bracketed(b) {
        Some((offset, base)) => {
            let imm = immediate_in(-2048, 2047, offset)?;
            match load(name, first, base, imm) {
                Some(instr) => Some(instr),
                None => store(name, first, base, imm),
            }
        }
        None => {
            let imm = immediate_in(0, 1_048_575, b)?;
            upper(name, first, imm)
        }
    }
}

fn immediate_of(name: &[u8], rd: u32, rs1: u32, bytes: &[u8]) -> Option<Instr>
    requires rd { IsRegister rd }
    requires rs1 { IsRegister rs1 }
    ensures is { result ≡ immediate_at name.now rd rs1 bytes.now }
    ensures valid { IfSome result IsValid }
{
    let imm = immediate_in(-2048, 2047, bytes)?;
    immediate_form(name, rd, rs1, imm)
}

fn shift_of(name: &[u8], rd: u32, rs1: u32, bytes: &[u8]) -> Option<Instr>
    requires rd { IsRegister rd }
    requires rs1 { IsRegister rs1 }
    ensures is { result ≡ shift_at name.now rd rs1 bytes.now }
    ensures valid { IfSome result IsValid }
{
    let imm = immediate_in(0, 31, bytes)?;
    shift(name, rd, rs1, imm)
}

fn fence_of(name: &[u8], rd: u32, rs1: u32, bytes: &[u8]) -> Option<Instr>
    requires rd { IsRegister rd }
    requires rs1 { IsRegister rs1 }
    ensures is { result ≡ fence_at name.now rd rs1 bytes.now }
    ensures valid { IfSome result IsValid }
{
    let imm = immediate_in(0, 4095, bytes)?;
    fence(name, rd, rs1, imm)
}

#[tactic(auto, unfolding(crate::specs::Forms::with_immediate))]
fn with_immediate(name: &[u8], rd: u32, rs1: u32, bytes: &[u8]) -> Option<Instr>
    requires rd { IsRegister rd }
    requires rs1 { IsRegister rs1 }
    ensures is { result ≡ with_immediate name.now rd rs1 bytes.now }
    ensures valid { IfSome result IsValid }
{
    match immediate_of(name, rd, rs1, bytes) {
        Some(instr) => Some(instr),
        None => match shift_of(name, rd, rs1, bytes) {
            Some(instr) => Some(instr),
            None => fence_of(name, rd, rs1, bytes),
        },
    }
}

/// An instruction of three operands, of which the first two are registers, and the third is no target.
#[tactic(auto, unfolding(crate::specs::Forms::of_three))]
pub(crate) fn of_three(name: &[u8], x: u32, y: u32, c: &[u8]) -> Option<Instr>
    requires x { IsRegister x }
    requires y { IsRegister y }
    ensures is { result ≡ of_three name.now x y c.now }
    ensures valid { IfSome result IsValid }
{
    if let Some(z) = register(c) {
        return match register_form(name, x, y, z) {
            Some(instr) => Some(instr),
            None => product(name, x, y, z),
        };
    }
    match bracketed(c) {
        Some((offset, base)) => {
            if !offset.is_empty() {
                return None;
            }
            atomic_named(name, x, base, y)
        }
        None => with_immediate(name, x, y, c),
    }
}
