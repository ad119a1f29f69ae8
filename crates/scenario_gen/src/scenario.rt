//! The whole text.

ghost use Rattle.std.specs.Prelude.{◌≡◌, ◌+◌, ◌<◌, ◌++◌, IfOk, OnOk};
ghost use Rattle.std.specs.String.{string_bytes};
ghost use Rattle.scenario_gen.specs.Generated.{for_each, rights, space, program_of, operand_of, threads, inbox, outbox, page, rows, stages, ending, programs, text};

use crate::lines::{Thread, map_line, right_line, space_line, thread_line};
use crate::programs::{last, middle, sender, worker};
use std::alloc::{AllocError, Global};

const KERNELS: u32 = 4;

const SPACES: u32 = 12;

/// The pages that the workers of a space go over.
const PAGES: u32 = 48;

const HEADING: &str = "mem 13\ncaps 8 8 16 64\nkernel 0\nkernel 1\nkernel 2\nkernel 3\n";

// The groups of the programs and messages, and of the kernel's three spaces.
fn put_rights(out: &mut String, alloc: Global, kernel: u32) -> Result<(), AllocError>
    requires { kernel < 4 }
    ensures { OnOk result (string_bytes out.new ≡ string_bytes out.old ++ rights kernel) }
{
    out.push_str(&right_line(alloc, kernel, 0)?)?;
    out.push_str(&right_line(alloc, kernel, 1 + kernel)?)?;
    out.push_str(&right_line(alloc, kernel, 5 + kernel)?)?;
    out.push_str(&right_line(alloc, kernel, 9 + kernel)?)
}

#[tactic(auto, unfolding(crate::specs::Generated::for_each))]
fn put_all_rights(out: &mut String, alloc: Global) -> Result<(), AllocError>
    ensures { OnOk result (string_bytes out.new ≡ string_bytes out.old ++ for_each rights 4) }
{
    for kernel in 0..KERNELS {
        put_rights(out, alloc, kernel)?;
    }
    Ok(())
}

#[tactic(auto, unfolding(crate::specs::Generated::for_each))]
fn put_spaces(out: &mut String, alloc: Global) -> Result<(), AllocError>
    ensures { OnOk result (string_bytes out.new ≡ string_bytes out.old ++ for_each space 12) }
{
    for space in 0..SPACES {
        out.push_str(&space_line(alloc, space, space % 4)?)?;
    }
    Ok(())
}

// The offset of a stage's program.
fn program_of(stage: u32) -> u32
    ensures { result ≡ program_of stage }
{
    match stage {
        0 => 0,
        3 => 92,
        _ => 36,
    }
}

// What a stage has in a1 at first.
fn operand_of(seed: u32, space: u32) -> u32
    requires { space < 12 }
    ensures { result ≡ operand_of seed space }
{
    match space % 4 {
        0 => seed % 1000 + 100 * (space / 4),
        3 => 0,
        stage => stage,
    }
}

// The stage of a pipeline, and two workers.
fn put_threads(out: &mut String, alloc: Global, seed: u32, space: u32) -> Result<(), AllocError>
    requires { space < 12 }
    ensures { OnOk result (string_bytes out.new ≡ string_bytes out.old ++ threads seed space) }
{
    let stage = Thread {
        thread: 3 * space,
        space,
        pc: program_of(space % 4),
        priority: 1,
        a0: 8 + seed % 41,
        a1: operand_of(seed, space),
    };
    let worker = Thread {
        thread: 3 * space + 1,
        space,
        pc: 148,
        priority: 0,
        a0: 131_072,
        a1: 2 + seed % 4,
    };
    let other = Thread {
        thread: 3 * space + 2,
        a0: 131_076,
        ..worker
    };
    out.push_str(&thread_line(alloc, stage)?)?;
    out.push_str(&thread_line(alloc, worker)?)?;
    out.push_str(&thread_line(alloc, other)?)
}

#[tactic(auto, unfolding(crate::specs::Generated::for_each))]
fn put_all_threads(out: &mut String, alloc: Global, seed: u32) -> Result<(), AllocError>
    ensures { OnOk result (string_bytes out.new ≡ string_bytes out.old ++ for_each (threads seed) 12) }
{
    for space in 0..SPACES {
        put_threads(out, alloc, seed, space)?;
    }
    Ok(())
}

// Where messages come in, but for the first stage.
fn put_inbox(out: &mut String, alloc: Global, space: u32) -> Result<(), AllocError>
    requires { space < 12 }
    ensures { OnOk result (string_bytes out.new ≡ string_bytes out.old ++ inbox space) }
{
    if space % 4 == 0 {
        return Ok(());
    }
    let thread = 3 * space;
    let flags = format!(in alloc; "r signal {thread}")?;
    let frame = 3 * (space / 4) + space % 4;
    out.push_str(&map_line(alloc, space, 16, frame, &flags)?)
}

// Where messages go out, but for the last stage.
fn put_outbox(out: &mut String, alloc: Global, space: u32) -> Result<(), AllocError>
    requires { space < 12 }
    ensures { OnOk result (string_bytes out.new ≡ string_bytes out.old ++ outbox space) }
{
    if space % 4 == 3 {
        return Ok(());
    }
    let frame = 1 + 3 * (space / 4) + space % 4;
    out.push_str(&map_line(alloc, space, 17, frame, "rwm")?)
}

#[tactic(auto, unfolding(crate::specs::Generated::for_each))]
fn put_pages(out: &mut String, alloc: Global, space: u32) -> Result<(), AllocError>
    requires { space < 12 }
    ensures { OnOk result (string_bytes out.new ≡ string_bytes out.old ++ for_each (page space) 48) }
{
    for i in 0..PAGES {
        let frame = 128 * (1 + space) + i;
        out.push_str(&map_line(alloc, space, 32 + i, frame, "rw")?)?;
    }
    Ok(())
}

#[tactic(auto, unfolding(crate::specs::Generated::rows))]
fn put_rows(out: &mut String, alloc: Global, space: u32) -> Result<(), AllocError>
    requires { space < 12 }
    ensures { OnOk result (string_bytes out.new ≡ string_bytes out.old ++ rows space) }
{
    out.push_str(&map_line(alloc, space, 0, 0, "x")?)?;
    put_inbox(out, alloc, space)?;
    put_outbox(out, alloc, space)?;
    put_pages(out, alloc, space)
}

#[tactic(auto, unfolding(crate::specs::Generated::for_each))]
fn put_all_rows(out: &mut String, alloc: Global) -> Result<(), AllocError>
    ensures { OnOk result (string_bytes out.new ≡ string_bytes out.old ++ for_each rows 12) }
{
    for space in 0..SPACES {
        put_rows(out, alloc, space)?;
    }
    Ok(())
}

#[tactic(auto, unfolding(crate::specs::Generated::stages))]
fn put_stages(out: &mut String) -> Result<(), AllocError>
    ensures { OnOk result (string_bytes out.new ≡ string_bytes out.old ++ stages) }
{
    out.push_str(sender())?;
    out.push_str(middle())?;
    out.push_str(last())
}

#[tactic(auto, unfolding(crate::specs::Generated::ending))]
fn put_ending(out: &mut String) -> Result<(), AllocError>
    ensures { OnOk result (string_bytes out.new ≡ string_bytes out.old ++ ending) }
{
    out.push_str(worker())?;
    out.push_str("endcode\nend\n")
}

fn put_programs(out: &mut String) -> Result<(), AllocError>
    ensures { OnOk result (string_bytes out.new ≡ string_bytes out.old ++ programs) }
{
    out.push_str("code 0 0\n")?;
    put_stages(out)?;
    put_ending(out)
}

/// The scenario of a number. Three pipelines of four stages pass 8 to 48 messages on, in spaces of four kernels;
/// beside each stage two workers go two to five times over 48 pages. Which message comes first doesn't matter to
/// what they put out.
///
/// It takes memory for the text, of some 13,000 bytes.
pub fn generate(alloc: Global, seed: u32) -> Result<Vec<u8>, AllocError>
    ensures { IfOk result (λ v. v.items ≡ text seed) }
{
    let mut out = String::from_str(alloc, HEADING)?;
    put_all_rights(&mut out, alloc)?;
    put_spaces(&mut out, alloc)?;
    put_all_threads(&mut out, alloc, seed)?;
    put_all_rows(&mut out, alloc)?;
    put_programs(&mut out)?;
    Ok(out.into_bytes())
}
