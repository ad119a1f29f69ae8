//! What stands on a shelf.

use cache_ident::KernelNo;

/// A descriptor that isn't loaded: the kernel that owns it, and its content.
#[derive(Drop)]
pub struct Shelved<R> {
    pub owner: KernelNo,
    pub content: R,
}
