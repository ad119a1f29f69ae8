//! The rows of an executable's parts.

ghost use Rattle.std.specs.Prelude.{◌≡◌, ◌+◌, ◌^◌, ◌<◌, ◌≤◌, ◌++◌, OnOk};
ghost use Rattle.std.specs.List.{sum_by, AllByRecursion};
ghost use Rattle.image_decls.specs.Declarations.{HasAddresses, page_count, part_rows, each};

use cache_ident::{Frame, SpaceNo, Vpn};
use elf_image::{Image, Part};
use flat_state::Decl;
use phys_groups::PAGE_BYTES;
use std::alloc::AllocError;

/// The last address of a part.
pub(crate) fn last_address(part: &Part) -> u32
    requires { HasAddresses part.now }
    ensures { result + 1 ≡ part.now.vaddr + part.now.size }
{
    part.vaddr + (part.size - 1)
}

/// How many pages a part has addresses in.
pub(crate) fn page_count(part: &Part) -> u32
    requires { HasAddresses part.now }
    ensures value { result ≡ page_count part.now }
    ensures few { result ≤ part.now.size }
{
    last_address(part) / PAGE_BYTES - part.vaddr / PAGE_BYTES + 1
}

// Appends the rows of a part, whose first page is in that frame.
#[tactic(auto, unfolding(crate::specs::Declarations::first_rows))]
fn push_rows(
    decls: &mut Vec<Decl>,
    part: &Part,
    space: SpaceNo,
    frame: u32,
) -> Result<(), AllocError>
    requires placed { HasAddresses part.now }
    requires few { frame + part.now.size < 2 ^ 32 }
    ensures { OnOk result (decls.new.items ≡ decls.old.items ++ part_rows space frame part.now) }
{
    let first = part.vaddr / PAGE_BYTES;
    for page in 0..page_count(part) {
        decls.push(Decl::Map {
            space,
            vpn: Vpn(first + page),
            frame: Frame(frame + page),
            flags: part.flags,
            receiver: None,
        })?;
    }
    Ok(())
}

/// Appends the rows of all parts; the first page of the first part is in that frame.
pub(crate) fn push_all_rows(
    decls: &mut Vec<Decl>,
    image: &Image,
    space: SpaceNo,
    frame: u32,
) -> Result<(), AllocError>
    requires placed { AllByRecursion HasAddresses image.now.parts }
    requires few { frame + sum_by (λ part. part.size) image.now.parts < 2 ^ 32 }
    ensures { OnOk result (decls.new.items ≡ decls.old.items ++ each (part_rows space) frame image.now.parts) }
{
    let mut next = frame;
    for i in 0..image.len() {
        if let Some(part) = image.part(i) {
            push_rows(decls, &part, space, next)?;
            next += page_count(&part);
        }
    }
    Ok(())
}
