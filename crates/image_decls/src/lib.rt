//! What a static executable declares in a scenario: rows for its parts, their words, and a thread at its entry.
#![tactic(auto)]

mod images;
mod rows;
mod words;

pub use elf_image::ElfFault;
pub use images::image_decls;
