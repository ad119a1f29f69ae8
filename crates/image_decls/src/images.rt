//! A whole executable.

ghost use Rattle.std.specs.Prelude.{◌≡◌, ◌^◌, ◌<◌, None, IfOk, IfErr};
ghost use Rattle.elf_image.specs.Elf.{executable, broken_rule, IsFault};
ghost use Rattle.image_decls.specs.Declarations.{declarations};

use crate::rows::push_all_rows;
use crate::words::push_all_words;
use cache_ident::{Frame, SpaceNo, ThreadNo};
use elf_image::{ElfFault, read};
use flat_state::Decl;
use std::alloc::Global;

/// What the bytes of an executable declare, in this order: a row of the space for each page of each part, the first of
/// them in `frame` and each in the frame behind that of the one before; the words that the parts fill, each in its
/// page's frame, with zeros where a part has no byte from the file; and the thread, ready at the entry.
///
/// Nothing says that these break no rule of a machine: two parts may share a page, and the frames may end. It takes
/// time and memory for what is declared, up to two million words.
pub fn image_decls(
    alloc: Global,
    bytes: &[u8],
    space: SpaceNo,
    frame: Frame,
    thread: ThreadNo,
) -> Result<Vec<Decl>, ElfFault>
    requires { frame.0 < 2 ^ 31 }
    // The bytes are an executable, and these are its declarations.
    ensures found { IfOk result (λ v. (broken_rule bytes.now ≡ None) × (v.items ≡ declarations bytes.now space frame.0 thread (executable bytes.now))) }
    // The lowest rule that the bytes break, unless memory runs out.
    ensures fault { IfErr result (IsFault bytes.now) }
{
    let image = read(alloc, bytes)?;
    let mut decls = Vec::new(alloc);
    push_all_rows(&mut decls, &image, space, frame.0)?;
    push_all_words(&mut decls, bytes, &image, frame.0)?;
    decls.push(Decl::Thread {
        no: thread,
        space,
        pc: image.entry(),
        priority: 0,
        a0: 0,
        a1: 0,
    })?;
    Ok(decls)
}
