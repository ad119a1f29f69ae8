//! The words of an executable's parts.

ghost use Rattle.std.specs.Prelude.{◌≡◌, ◌+◌, ◌^◌, ◌<◌, ◌≤◌, ◌++◌, ◌*◌, ◌/◌, ◌-◌, OnOk};
ghost use Rattle.std.specs.List.{sum_by, AllByRecursion};
ghost use Rattle.elf_image.specs.Elf.{LiesIn};
ghost use Rattle.image_decls.specs.Declarations.{HasAddresses, first_page, byte_at, word_at, word_decl, word_count, part_words, each};

use crate::rows::{last_address, page_count};
use cache_ident::Frame;
use elf_image::{Image, Part};
use flat_state::Decl;
use phys_groups::PAGE_BYTES;
use std::alloc::AllocError;

// The byte at an address, 0 where the part has none of its own there.
fn byte_at(bytes: &[u8], part: &Part, address: u32) -> u8
    requires { LiesIn bytes.now part.now }
    ensures { result ≡ byte_at bytes.now part.now address }
{
    if address >= part.vaddr && address - part.vaddr < part.length {
        bytes[part.offset as usize + (address - part.vaddr) as usize]
    } else {
        0
    }
}

// The word of the four bytes from an address on.
fn word_at(bytes: &[u8], part: &Part, address: u32) -> u32
    requires lies { LiesIn bytes.now part.now }
    requires in_space { address + 4 ≤ 2 ^ 32 }
    ensures { result ≡ word_at bytes.now part.now address }
{
    u32::from_le_bytes([
        byte_at(bytes, part, address),
        byte_at(bytes, part, address + 1),
        byte_at(bytes, part, address + 2),
        byte_at(bytes, part, address + 3),
    ])
}

// The declaration of a word in the frame of its page, where the part's first page is in that frame.
fn word_decl(bytes: &[u8], part: &Part, frame: u32, address: u32) -> Decl
    requires lies { LiesIn bytes.now part.now }
    requires in_space { address + 4 ≤ 2 ^ 32 }
    requires behind { first_page part.now ≤ address / 4096 }
    requires few { frame + (address / 4096 - first_page part.now) < 2 ^ 32 }
    ensures { result ≡ word_decl bytes.now frame part.now address }
{
    let page = address / PAGE_BYTES - part.vaddr / PAGE_BYTES;
    Decl::Word {
        frame: Frame(frame + page),
        offset: address % PAGE_BYTES,
        value: word_at(bytes, part, address),
    }
}

// How many words have a byte of the part.
fn word_count(part: &Part) -> u32
    requires { HasAddresses part.now }
    ensures { result ≡ word_count part.now }
{
    last_address(part) / 4 - part.vaddr / 4 + 1
}

// Appends the words of a part, whose first page is in that frame.
#[tactic(auto, unfolding(crate::specs::Declarations::first_words))]
fn push_words(
    decls: &mut Vec<Decl>,
    bytes: &[u8],
    part: &Part,
    frame: u32,
) -> Result<(), AllocError>
    requires lies { LiesIn bytes.now part.now }
    requires placed { HasAddresses part.now }
    requires few { frame + part.now.size < 2 ^ 32 }
    ensures { OnOk result (decls.new.items ≡ decls.old.items ++ part_words bytes.now frame part.now) }
{
    let first = part.vaddr / 4;
    for word in 0..word_count(part) {
        decls.push(word_decl(bytes, part, frame, 4 * (first + word)))?;
    }
    Ok(())
}

/// Appends the words of all parts; the first page of the first part is in that frame.
pub(crate) fn push_all_words(
    decls: &mut Vec<Decl>,
    bytes: &[u8],
    image: &Image,
    frame: u32,
) -> Result<(), AllocError>
    requires lies { AllByRecursion (LiesIn bytes.now) image.now.parts }
    requires placed { AllByRecursion HasAddresses image.now.parts }
    requires few { frame + sum_by (λ part. part.size) image.now.parts < 2 ^ 32 }
    ensures { OnOk result (decls.new.items ≡ decls.old.items ++ each (part_words bytes.now) frame image.now.parts) }
{
    let mut next = frame;
    for i in 0..image.len() {
        if let Some(part) = image.part(i) {
            push_words(decls, bytes, &part, next)?;
            next += page_count(&part);
        }
    }
    Ok(())
}
