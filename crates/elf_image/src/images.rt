//! An image, and the reading of one.

ghost use Rattle.std.specs.Prelude.{◌≡◌, ◌==◌, ◌<◌, ◌≤◌, ◌^◌, IfOk, IfErr, length, slice_get};
ghost use Rattle.std.specs.List.{list_all, sum_by, AllByRecursion};
ghost use Rattle.elf_image.specs.Elf.{Executable, IsExecutable, IsFault, LiesIn, is_part, part_of, parts_of, allows_something, are_loadable, flags_of};

use crate::fault::ElfFault;
use crate::headers::{
    ProgramHeader, are_sized, has_table, headers, is_load, is_static, want_loader, word,
};
use phys_groups::Flags;
use std::alloc::{AllocError, Global};
use std::marker::Model;

/// The most bytes that the parts of an image may have together.
const MOST_BYTES: u64 = 8_388_608;

/// A part of an image: the addresses from `vaddr` on, of which there are `size`.
#[derive(Clone, Copy, PartialEq, Eq, Debug)]
pub struct Part {
    pub vaddr: u32,
    /// At least 1. The last address is below 2^32.
    pub size: u32,
    /// At least one of r, w and x, and never m.
    pub flags: Flags,
    /// Where in the image's bytes the part's bytes begin.
    pub offset: u32,
    /// How many bytes come from there, at most `size`. The addresses after these have zeros.
    pub length: u32,
}

/// An image that can be loaded: where it begins to run, and its parts.
#[derive(Drop)]
pub struct Image {
    entry: u32,
    parts: Vec<Part>,
}

impl Model for Image {
    ghost use Rattle.elf_image.specs.Elf.{Executable};

    ghost Value = { Executable };

    ghost view = { λ image. record { entry = image.entry; parts = image.parts.items } };
}

impl Image {
    /// The address of the first instruction. Nothing says that it lies in a part, or is divisible by 4.
    pub fn entry(&self) -> u32
        ensures { result ≡ self.now.entry }
    {
        self.entry
    }

    /// How many parts there are, at most 65,535.
    pub fn len(&self) -> usize
        ensures { result ≡ length self.now.parts }
    {
        self.parts.len()
    }

    /// Whether the image has no part.
    pub fn is_empty(&self) -> bool
        ensures { result ≡ (length self.now.parts == 0) }
    {
        self.parts.is_empty()
    }

    /// A part, counted from 0 in the order of the program headers; none exactly from `len` on.
    pub fn part(&self, i: usize) -> Option<Part>
        ensures { result ≡ slice_get self.now.parts i }
    {
        self.parts.get(i).copied()
    }
}

// The lowest three bits say what a part allows: run, write and read.
fn flags_of(bits: u32) -> Flags
    ensures { result ≡ flags_of bits }
{
    Flags {
        r: bits / 4 % 2 == 1,
        w: bits / 2 % 2 == 1,
        x: bits % 2 == 1,
        m: false,
    }
}

fn is_part(header: &ProgramHeader) -> bool
    ensures { result ≡ is_part header.now }
{
    is_load(header) && header.p_memsz > 0
}

fn part_of(header: &ProgramHeader) -> Part
    ensures { result ≡ part_of header.now }
{
    Part {
        vaddr: header.p_vaddr,
        size: header.p_memsz,
        flags: flags_of(header.p_flags),
        offset: header.p_offset,
        length: header.p_filesz,
    }
}

// One part for each header of something that is loaded and isn't empty.
fn parts(alloc: Global, headers: &[ProgramHeader]) -> Result<Vec<Part>, AllocError>
    ensures found { IfOk result (λ v. v.items ≡ parts_of headers.now) }
    ensures few { IfOk result (λ v. length v.items ≤ length headers.now) }
{
    headers
        .iter()
        .filter(|header| is_part(header))
        .map(part_of)
        .collect(alloc)
}

fn total(parts: &[Part]) -> u64
    requires { length parts.now < 2 ^ 16 }
    ensures { result ≡ sum_by (λ part. part.size) parts.now }
{
    parts.iter().map(|part| u64::from(part.size)).sum()
}

fn allows_something(part: &Part) -> bool
    ensures { result ≡ allows_something part.now }
{
    part.flags.r || part.flags.w || part.flags.x
}

fn all_allow_something(parts: &[Part]) -> bool
    ensures { result ≡ list_all allows_something parts.now }
{
    parts.iter().all(allows_something)
}

// Whether each part allows something, and all of them fit in memory.
fn are_loadable(parts: &[Part]) -> bool
    requires { length parts.now < 2 ^ 16 }
    ensures { result ≡ are_loadable parts.now }
{
    all_allow_something(parts) && total(parts) <= MOST_BYTES
}

fn broken(rule: u32) -> Result<Image, ElfFault>
    ensures { result ≡ Err (ElfFault.Broken rule) }
{
    Err(ElfFault::Broken { rule })
}

/// The image that the bytes are. It takes memory for the program headers and the parts, and time for them.
///
/// Only the fields of the headers that the rules name are read, and headers of other types are skipped.
#[tactic(auto, unfolding(crate::specs::Elf::broken_rule))]
pub fn read(alloc: Global, bytes: &[u8]) -> Result<Image, ElfFault>
    // The bytes break no rule, and these are the entry and the parts that they say.
    ensures found { IfOk result (λ image. IsExecutable bytes.now image) }
    // Each part's bytes lie in the file, and its addresses below 2^32.
    ensures within { IfOk result (λ image. AllByRecursion (LiesIn bytes.now) image.parts) }
    // The lowest rule that the bytes break, unless memory runs out.
    ensures fault { IfErr result (IsFault bytes.now) }
{
    if !is_static(bytes) {
        return broken(27);
    }
    if !has_table(bytes) {
        return broken(28);
    }
    let headers = headers(alloc, bytes)?;
    if !are_sized(bytes, &headers) {
        return broken(28);
    }
    if want_loader(&headers) {
        return broken(29);
    }
    let parts = parts(alloc, &headers)?;
    if !are_loadable(&parts) {
        return broken(30);
    }
    Ok(Image {
        entry: word(bytes, 24),
        parts,
    })
}
