//! The header of a file, and its program headers. Fields have the names of the ELF specification.

ghost use Rattle.std.specs.Prelude.{◌≡◌, ◌+◌, ◌*◌, ◌^◌, ◌<◌, ◌≤◌, IsTrue, IfOk, length};
ghost use Rattle.std.specs.List.{list_all, list_any};
ghost use Rattle.phys_groups.specs.Memory.{half_at, word_at};
ghost use Rattle.elf_image.specs.Elf.{e_phoff, e_phnum, is_static, lies_in, header_at, headers, is_load, is_sized, are_sized, wants_loader};

use std::alloc::{AllocError, Global};

/// The bytes of a file's header.
pub(crate) const FILE_HEADER_BYTES: usize = 52;

/// The bytes of a program header.
const PROGRAM_HEADER_BYTES: usize = 32;

// The magic number, 32 bits, the lowest byte first, version 1.
const IDENTIFICATION: [u8; 7] = [0x7f, b'E', b'L', b'F', 1, 1, 1];

const ET_EXEC: u16 = 2;

const EM_RISCV: u16 = 243;

const EV_CURRENT: u32 = 1;

const PT_LOAD: u32 = 1;

const PT_DYNAMIC: u32 = 2;

const PT_INTERP: u32 = 3;

fn half(bytes: &[u8], at: usize) -> u16
    requires { at + 2 ≤ length bytes.now }
    ensures { result ≡ half_at bytes.now at }
{
    u16::from_le_bytes([bytes[at], bytes[at + 1]])
}

pub(crate) fn word(bytes: &[u8], at: usize) -> u32
    requires { at + 4 ≤ length bytes.now }
    ensures value { result ≡ word_at bytes.now at }
{
    u32::from_le_bytes([bytes[at], bytes[at + 1], bytes[at + 2], bytes[at + 3]])
}

/// Whether the bytes begin with the header of a static executable for 32-bit RISC-V, whose program headers have
/// 32 bytes each.
pub(crate) fn is_static(bytes: &[u8]) -> bool
    ensures { result ≡ is_static bytes.now }
{
    bytes.len() >= FILE_HEADER_BYTES
        && bytes.starts_with(&IDENTIFICATION)
        && half(bytes, 16) == ET_EXEC
        && half(bytes, 18) == EM_RISCV
        && word(bytes, 20) == EV_CURRENT
        && (half(bytes, 44) == 0 || half(bytes, 42) as usize == PROGRAM_HEADER_BYTES)
}

// Whether a range of bytes ends where the bytes do, or before. A range without a byte passes no end.
fn lies_in(bytes: &[u8], from: u32, size: u32) -> bool
    ensures { result ≡ lies_in bytes.now from size }
{
    size == 0 || u64::from(from) + u64::from(size) <= bytes.len() as u64
}

/// A program header: what of the file is loaded where.
#[derive(Clone, Copy)]
pub(crate) struct ProgramHeader {
    pub p_type: u32,
    pub p_offset: u32,
    pub p_vaddr: u32,
    pub p_filesz: u32,
    pub p_memsz: u32,
    pub p_flags: u32,
}

fn header(bytes: &[u8], at: usize) -> ProgramHeader
    requires { at + 32 ≤ length bytes.now }
    ensures { result ≡ header_at bytes.now at }
{
    ProgramHeader {
        p_type: word(bytes, at),
        p_offset: word(bytes, at + 4),
        p_vaddr: word(bytes, at + 8),
        p_filesz: word(bytes, at + 16),
        p_memsz: word(bytes, at + 20),
        p_flags: word(bytes, at + 24),
    }
}

/// Whether all program headers lie in the bytes.
pub(crate) fn has_table(bytes: &[u8]) -> bool
    requires { 52 ≤ length bytes.now }
    ensures { result ≡ lies_in bytes.now (e_phoff bytes.now) (32 * e_phnum bytes.now) }
{
    lies_in(bytes, word(bytes, 28), 32 * u32::from(half(bytes, 44)))
}

/// The program headers, in the order of their table.
#[tactic(auto, unfolding(crate::specs::Elf::first_headers))]
pub(crate) fn headers(alloc: Global, bytes: &[u8]) -> Result<Vec<ProgramHeader>, AllocError>
    requires header { 52 ≤ length bytes.now }
    requires table { IsTrue (lies_in bytes.now (e_phoff bytes.now) (32 * e_phnum bytes.now)) }
    ensures found { IfOk result (λ v. v.items ≡ headers bytes.now) }
    ensures few { IfOk result (λ v. length v.items < 2 ^ 16) }
{
    let from = word(bytes, 28) as usize;
    let count = half(bytes, 44);
    let mut headers = Vec::new(alloc);
    for i in 0..count {
        headers.push(header(bytes, from + PROGRAM_HEADER_BYTES * i as usize))?;
    }
    Ok(headers)
}

/// Whether the header is of a part that is loaded.
pub(crate) fn is_load(header: &ProgramHeader) -> bool
    ensures { result ≡ is_load header.now }
{
    header.p_type == PT_LOAD
}

// Whether what is loaded lies in the file, is no longer there than in memory, and ends with the address space.
fn is_sized(bytes: &[u8], header: &ProgramHeader) -> bool
    ensures { result ≡ is_sized bytes.now header.now }
{
    lies_in(bytes, header.p_offset, header.p_filesz)
        && header.p_filesz <= header.p_memsz
        && u64::from(header.p_vaddr) + u64::from(header.p_memsz) <= 1 << 32
}

/// Whether each header of a part that is loaded has ranges that pass no end.
pub(crate) fn are_sized(bytes: &[u8], headers: &[ProgramHeader]) -> bool
    ensures { result ≡ are_sized bytes.now headers.now }
{
    headers
        .iter()
        .all(|header| !is_load(header) || is_sized(bytes, header))
}

fn wants_loader(header: &ProgramHeader) -> bool
    ensures { result ≡ wants_loader header.now }
{
    header.p_type == PT_DYNAMIC || header.p_type == PT_INTERP
}

/// Whether some header asks for a loader at run time.
pub(crate) fn want_loader(headers: &[ProgramHeader]) -> bool
    ensures { result ≡ list_any wants_loader headers.now }
{
    headers.iter().any(wants_loader)
}
