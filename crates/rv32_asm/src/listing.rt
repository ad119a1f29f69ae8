//! Words to text: one line for each word.

ghost use Rattle.std.specs.Prelude.{◌≡◌, ◌++◌, ◌<◌, length, OnOk, IfOk, Ok, codes};
ghost use Rattle.std.specs.Fmt.{decimal, signed_decimal};
ghost use Rattle.rv32_asm.specs.Block.{block};
ghost use Rattle.rv32_asm.specs.Listing.{register_text, based_text, upper_text, memory_text, immediate_text, registers_text, ordering_text, atomic_text, instruction_text, line_text, ended, listing};

use crate::NoMemory;
use itoa::Buffer;
use rv32_isa::{Instr, decode};
use std::alloc::{AllocError, Global};
use text_fields::put_word;

fn register(out: &mut Vec<u8>, number: u32) -> Result<(), AllocError>
    ensures { OnOk result (out.new.items ≡ out.old.items ++ register_text number) }
{
    out.extend_from_slice(b"x")?;
    let mut buffer = Buffer::new();
    out.extend_from_slice(buffer.format(number).as_bytes())?;
    Ok(())
}

fn immediate(out: &mut Vec<u8>, imm: i32) -> Result<(), AllocError>
    ensures { OnOk result (out.new.items ≡ out.old.items ++ signed_decimal imm) }
{
    let mut buffer = Buffer::new();
    out.extend_from_slice(buffer.format(imm).as_bytes())?;
    Ok(())
}

// `rd, imm`
#[tactic(auto, unfolding(crate::specs::Listing::of_two_text))]
fn upper(out: &mut Vec<u8>, name: &[u8], rd: u32, imm: i32) -> Result<(), AllocError>
    ensures { OnOk result (out.new.items ≡ out.old.items ++ upper_text name.now rd imm) }
{
    out.extend_from_slice(name)?;
    out.extend_from_slice(b" ")?;
    register(out, rd)?;
    out.extend_from_slice(b", ")?;
    immediate(out, imm)?;
    Ok(())
}

fn based(out: &mut Vec<u8>, imm: i32, rs1: u32) -> Result<(), AllocError>
    ensures { OnOk result (out.new.items ≡ out.old.items ++ based_text imm rs1) }
{
    immediate(out, imm)?;
    out.extend_from_slice(b"(")?;
    register(out, rs1)?;
    out.extend_from_slice(b")")?;
    Ok(())
}

// `rd, imm(rs1)` or `rs2, imm(rs1)`
#[tactic(auto, unfolding(crate::specs::Listing::of_two_text))]
fn memory(out: &mut Vec<u8>, name: &[u8], r: u32, imm: i32, rs1: u32) -> Result<(), AllocError>
    ensures { OnOk result (out.new.items ≡ out.old.items ++ memory_text name.now r imm rs1) }
{
    out.extend_from_slice(name)?;
    out.extend_from_slice(b" ")?;
    register(out, r)?;
    out.extend_from_slice(b", ")?;
    based(out, imm, rs1)?;
    Ok(())
}

// `rd, rs1, imm` or `rs1, rs2, imm`
#[tactic(auto, unfolding(crate::specs::Listing::of_three_text))]
fn with_immediate(
    out: &mut Vec<u8>,
    name: &[u8],
    a: u32,
    b: u32,
    imm: i32,
) -> Result<(), AllocError>
    ensures { OnOk result (out.new.items ≡ out.old.items ++ immediate_text name.now a b imm) }
{
    out.extend_from_slice(name)?;
    out.extend_from_slice(b" ")?;
    register(out, a)?;
    out.extend_from_slice(b", ")?;
    register(out, b)?;
    out.extend_from_slice(b", ")?;
    immediate(out, imm)?;
    Ok(())
}

// `rd, rs1, rs2`
#[tactic(auto, unfolding(crate::specs::Listing::of_three_text))]
fn registers(out: &mut Vec<u8>, name: &[u8], a: u32, b: u32, c: u32) -> Result<(), AllocError>
    ensures { OnOk result (out.new.items ≡ out.old.items ++ registers_text name.now a b c) }
{
    out.extend_from_slice(name)?;
    out.extend_from_slice(b" ")?;
    register(out, a)?;
    out.extend_from_slice(b", ")?;
    register(out, b)?;
    out.extend_from_slice(b", ")?;
    register(out, c)?;
    Ok(())
}

fn ordering(out: &mut Vec<u8>, aq: bool, rl: bool) -> Result<(), AllocError>
    ensures { OnOk result (out.new.items ≡ out.old.items ++ ordering_text aq rl) }
{
    match (aq, rl) {
        (false, false) => out.extend_from_slice(b".w")?,
        (true, false) => out.extend_from_slice(b".w.aq")?,
        (false, true) => out.extend_from_slice(b".w.rl")?,
        (true, true) => out.extend_from_slice(b".w.aqrl")?,
    }
    Ok(())
}

fn atomic_name(out: &mut Vec<u8>, name: &[u8], aq: bool, rl: bool) -> Result<(), AllocError>
    ensures { OnOk result (out.new.items ≡ out.old.items ++ (name.now ++ ordering_text aq rl)) }
{
    out.extend_from_slice(name)?;
    ordering(out, aq, rl)?;
    Ok(())
}

fn bracketed(out: &mut Vec<u8>, rs1: u32) -> Result<(), AllocError>
    ensures { OnOk result (out.new.items ≡ out.old.items ++ (codes "(" ++ (register_text rs1 ++ codes ")"))) }
{
    out.extend_from_slice(b"(")?;
    register(out, rs1)?;
    out.extend_from_slice(b")")?;
    Ok(())
}

/// The registers of an atomic operation, and its ordering bits.
#[derive(Clone, Copy)]
pub(crate) struct Atomic {
    pub rd: u32,
    pub rs1: u32,
    pub rs2: u32,
    pub aq: bool,
    pub rl: bool,
}

// `rd, rs2, (rs1)`
#[tactic(auto, unfolding(crate::specs::Listing::of_three_text))]
fn atomic_line(out: &mut Vec<u8>, name: &[u8], a: Atomic) -> Result<(), AllocError>
    ensures { OnOk result (out.new.items ≡ out.old.items ++ atomic_text name.now a.rd a.rs1 a.rs2 a.aq a.rl) }
{
    atomic_name(out, name, a.aq, a.rl)?;
    out.extend_from_slice(b" ")?;
    register(out, a.rd)?;
    out.extend_from_slice(b", ")?;
    register(out, a.rs2)?;
    out.extend_from_slice(b", ")?;
    bracketed(out, a.rs1)?;
    Ok(())
}

#[tactic(auto, unfolding(crate::specs::Listing::instruction_text))]
fn instruction(out: &mut Vec<u8>, instr: Instr) -> Result<(), AllocError>
    ensures { OnOk result (out.new.items ≡ out.old.items ++ instruction_text instr) }
{
    match instr {
        Instr::Lui { rd, imm } => upper(out, b"lui", rd, imm),
        Instr::Auipc { rd, imm } => upper(out, b"auipc", rd, imm),
        Instr::Jal { rd, imm } => upper(out, b"jal", rd, imm),
        Instr::Jalr { rd, rs1, imm } => memory(out, b"jalr", rd, imm, rs1),
        Instr::Lb { rd, rs1, imm } => memory(out, b"lb", rd, imm, rs1),
        Instr::Lh { rd, rs1, imm } => memory(out, b"lh", rd, imm, rs1),
        Instr::Lw { rd, rs1, imm } => memory(out, b"lw", rd, imm, rs1),
        Instr::Lbu { rd, rs1, imm } => memory(out, b"lbu", rd, imm, rs1),
        Instr::Lhu { rd, rs1, imm } => memory(out, b"lhu", rd, imm, rs1),
        Instr::Beq { rs1, rs2, imm } => with_immediate(out, b"beq", rs1, rs2, imm),
        Instr::Bne { rs1, rs2, imm } => with_immediate(out, b"bne", rs1, rs2, imm),
        Instr::Blt { rs1, rs2, imm } => with_immediate(out, b"blt", rs1, rs2, imm),
        Instr::Bge { rs1, rs2, imm } => with_immediate(out, b"bge", rs1, rs2, imm),
        Instr::Bltu { rs1, rs2, imm } => with_immediate(out, b"bltu", rs1, rs2, imm),
        Instr::Bgeu { rs1, rs2, imm } => with_immediate(out, b"bgeu", rs1, rs2, imm),
        Instr::Sb { rs1, rs2, imm } => memory(out, b"sb", rs2, imm, rs1),
        Instr::Sh { rs1, rs2, imm } => memory(out, b"sh", rs2, imm, rs1),
        Instr::Sw { rs1, rs2, imm } => memory(out, b"sw", rs2, imm, rs1),
        Instr::Addi { rd, rs1, imm } => with_immediate(out, b"addi", rd, rs1, imm),
        Instr::Slti { rd, rs1, imm } => with_immediate(out, b"slti", rd, rs1, imm),
        Instr::Sltiu { rd, rs1, imm } => with_immediate(out, b"sltiu", rd, rs1, imm),
        Instr::Xori { rd, rs1, imm } => with_immediate(out, b"xori", rd, rs1, imm),
        Instr::Ori { rd, rs1, imm } => with_immediate(out, b"ori", rd, rs1, imm),
        Instr::Andi { rd, rs1, imm } => with_immediate(out, b"andi", rd, rs1, imm),
        Instr::Slli { rd, rs1, imm } => with_immediate(out, b"slli", rd, rs1, imm),
        Instr::Srli { rd, rs1, imm } => with_immediate(out, b"srli", rd, rs1, imm),
        Instr::Srai { rd, rs1, imm } => with_immediate(out, b"srai", rd, rs1, imm),
        Instr::Fence { rd, rs1, imm } => with_immediate(out, b"fence", rd, rs1, imm),
        Instr::Add { rd, rs1, rs2 } => registers(out, b"add", rd, rs1, rs2),
        Instr::Sub { rd, rs1, rs2 } => registers(out, b"sub", rd, rs1, rs2),
        Instr::Sll { rd, rs1, rs2 } => registers(out, b"sll", rd, rs1, rs2),
        Instr::Slt { rd, rs1, rs2 } => registers(out, b"slt", rd, rs1, rs2),
        Instr::Sltu { rd, rs1, rs2 } => registers(out, b"sltu", rd, rs1, rs2),
        Instr::Xor { rd, rs1, rs2 } => registers(out, b"xor", rd, rs1, rs2),
        Instr::Srl { rd, rs1, rs2 } => registers(out, b"srl", rd, rs1, rs2),
        Instr::Sra { rd, rs1, rs2 } => registers(out, b"sra", rd, rs1, rs2),
        Instr::Or { rd, rs1, rs2 } => registers(out, b"or", rd, rs1, rs2),
        Instr::And { rd, rs1, rs2 } => registers(out, b"and", rd, rs1, rs2),
        Instr::Mul { rd, rs1, rs2 } => registers(out, b"mul", rd, rs1, rs2),
        Instr::Mulh { rd, rs1, rs2 } => registers(out, b"mulh", rd, rs1, rs2),
        Instr::Mulhsu { rd, rs1, rs2 } => registers(out, b"mulhsu", rd, rs1, rs2),
        Instr::Mulhu { rd, rs1, rs2 } => registers(out, b"mulhu", rd, rs1, rs2),
        Instr::Div { rd, rs1, rs2 } => registers(out, b"div", rd, rs1, rs2),
        Instr::Divu { rd, rs1, rs2 } => registers(out, b"divu", rd, rs1, rs2),
        Instr::Rem { rd, rs1, rs2 } => registers(out, b"rem", rd, rs1, rs2),
        Instr::Remu { rd, rs1, rs2 } => registers(out, b"remu", rd, rs1, rs2),
        Instr::Ecall => out.extend_from_slice(b"ecall"),
        Instr::Ebreak => out.extend_from_slice(b"ebreak"),
        Instr::Amoadd {
            rd,
            rs1,
            rs2,
            aq,
            rl,
        } => atomic_line(
            out,
            b"amoadd",
            Atomic {
                rd,
                rs1,
                rs2,
                aq,
                rl,
            },
        ),
        Instr::Amoswap {
            rd,
            rs1,
            rs2,
            aq,
            rl,
        } => atomic_line(
            out,
            b"amoswap",
            Atomic {
                rd,
                rs1,
                rs2,
                aq,
                rl,
            },
        ),
        Instr::Amoxor {
            rd,
            rs1,
            rs2,
            aq,
            rl,
        } => atomic_line(
            out,
            b"amoxor",
            Atomic {
                rd,
                rs1,
                rs2,
                aq,
                rl,
            },
        ),
        Instr::Amoor {
            rd,
            rs1,
            rs2,
            aq,
            rl,
        } => atomic_line(
            out,
            b"amoor",
            Atomic {
                rd,
                rs1,
                rs2,
                aq,
                rl,
            },
        ),
        Instr::Amoand {
            rd,
            rs1,
            rs2,
            aq,
            rl,
        } => atomic_line(
            out,
            b"amoand",
            Atomic {
                rd,
                rs1,
                rs2,
                aq,
                rl,
            },
        ),
        Instr::Amomin {
            rd,
            rs1,
            rs2,
            aq,
            rl,
        } => atomic_line(
            out,
            b"amomin",
            Atomic {
                rd,
                rs1,
                rs2,
                aq,
                rl,
            },
        ),
        Instr::Amomax {
            rd,
            rs1,
            rs2,
            aq,
            rl,
        } => atomic_line(
            out,
            b"amomax",
            Atomic {
                rd,
                rs1,
                rs2,
                aq,
                rl,
            },
        ),
        Instr::Amominu {
            rd,
            rs1,
            rs2,
            aq,
            rl,
        } => atomic_line(
            out,
            b"amominu",
            Atomic {
                rd,
                rs1,
                rs2,
                aq,
                rl,
            },
        ),
        Instr::Amomaxu {
            rd,
            rs1,
            rs2,
            aq,
            rl,
        } => atomic_line(
            out,
            b"amomaxu",
            Atomic {
                rd,
                rs1,
                rs2,
                aq,
                rl,
            },
        ),
    }
}

#[tactic(auto, unfolding(crate::specs::Listing::line_text))]
fn line(out: &mut Vec<u8>, word: u32) -> Result<(), AllocError>
    ensures { OnOk result (out.new.items ≡ out.old.items ++ line_text word) }
{
    match decode(word) {
        Some(instr) => instruction(out, instr),
        None => {
            out.extend_from_slice(b".word 0x")?;
            put_word(out, word)
        }
    }
}

fn ended_line(out: &mut Vec<u8>, word: u32) -> Result<(), AllocError>
    ensures { OnOk result (out.new.items ≡ out.old.items ++ ended word) }
{
    line(out, word)?;
    out.extend_from_slice(b"\n")?;
    Ok(())
}

fn lines(alloc: Global, words: &[u32]) -> Result<Vec<u8>, NoMemory>
    ensures { IfOk result (λ v. v.items ≡ listing words.now) }
{
    let mut out = Vec::new(alloc);
    for word in words {
        ended_line(&mut out, *word)?;
    }
    Ok(out)
}

/// One line for each word, ended by a line feed.
///
/// A line is the mnemonic, a space, and the operands with a comma and a space between them: registers as `x`
/// and a number, immediates and targets in decimal. A word that is no instruction is `.word 0x` and eight
/// hexadecimal digits in lower case.
pub fn list(alloc: Global, words: &[u32]) -> Result<Vec<u8>, NoMemory>
    ensures text { IfOk result (λ v. v.items ≡ listing words.now) }
    // The lines assemble to the words.
    ensures again { IfOk result (λ v. block (length words.now) v.items ≡ Ok words.now) }
{
    lines(alloc, words)
}
