//! Physical memory.

ghost use Rattle.std.specs.Prelude.{◌≡◌, ◌≢◌, ℕ, [], ◌+◌, ◌*◌, ◌%◌, ◌<◌, ◌≤◌, ◌⊎◌, ◌↔◌, IsTrue, IfOk, drop, length, replicate, slice_index, slice_set, take, vec_capacity};
ghost use Rattle.cache_ident.specs.declared.names.Frame.{Frame};
ghost use Rattle.phys_groups.specs.Memory.{HasFrame, half_at, half_bytes, page_at, page_end, reaching, with_page, word_at, word_bytes, written};

use super::grants::GROUP_FRAMES;
use cache_ident::{Frame, NoMemory};
use std::alloc::Global;
use std::marker::Model;

/// How many bytes a page has.
pub const PAGE_BYTES: u32 = 4_096;

/// The same, as a length.
pub const PAGE_LENGTH: usize = PAGE_BYTES as usize;

const GROUP_BYTES: usize = PAGE_LENGTH * GROUP_FRAMES as usize;

const NO_BYTES: [u8; PAGE_LENGTH] = [0; PAGE_LENGTH];

/// Memory of 1 to 16 groups, each of 128 frames of 4,096 bytes. Numbers in it are little-endian.
///
/// A contract sees it as one list of bytes. A place is an index into that list. Every access takes
/// constant time and no memory, but for a store to a page behind all that was stored to before, which
/// writes the zeros up to the end of that page, once. The calls that copy or compare go once over a page.
#[derive(Drop)]
pub struct Memory {
    // How many bytes there are.
    size: usize,
    // The first of them, in whole pages. Nothing was ever stored behind them, so the rest are zeros.
    bytes: Vec<u8>,
}

impl Model for Memory {
    ghost use Rattle.std.specs.Prelude.{List, ℕ, vec_capacity};
    ghost use Rattle.phys_groups.specs.Memory.{IsKept, padded};

    ghost Value = { List ℕ };

    ghost view = { λ memory. padded memory.size memory.bytes.items };

    ghost invariant = { λ memory. IsKept memory.size (vec_capacity memory.bytes) memory.bytes.items };
}

impl Memory {
    /// Memory of that many groups, all zeros. It takes all the memory that it will ever need and writes none of it,
    /// so that its time doesn't grow with the groups.
    pub fn new(alloc: Global, groups: u32) -> Result<Memory, NoMemory>
        requires least { 1 ≤ groups }
        requires most { groups ≤ 16 }
        ensures zeros { IfOk result (λ memory. memory ≡ replicate (524288 * groups) 0) }
        ensures size { IfOk result (λ memory. length memory ≡ 524288 * groups) }
    {
        let size = groups as usize * GROUP_BYTES;
        let bytes = Vec::with_capacity(alloc, size)?;
        Ok(Memory { size, bytes })
    }

    /// Memory of no groups, as it is before a machine is declared. It takes no memory.
    pub fn empty(alloc: Global) -> Memory
        ensures { result ≡ [] }
    {
        Memory {
            size: 0,
            bytes: Vec::new(alloc),
        }
    }

    /// The byte at a place.
    pub fn byte(&self, at: u32) -> u8
        requires { at < length self.now }
        ensures { result ≡ slice_index self.now at }
    {
        let at = at as usize;
        if at < self.bytes.len() {
            self.bytes[at]
        } else {
            0
        }
    }

    /// The two bytes from an even place on.
    pub fn half(&self, at: u32) -> u16
        requires in_memory { at < length self.now }
        requires aligned { at % 2 ≡ 0 }
        ensures { result ≡ half_at self.now at }
    {
        let at = at as usize;
        if at < self.bytes.len() {
            u16::from_le_bytes([self.bytes[at], self.bytes[at + 1]])
        } else {
            0
        }
    }

    /// The four bytes from a place on that is divisible by 4.
    pub fn word(&self, at: u32) -> u32
        requires in_memory { at < length self.now }
        requires aligned { at % 4 ≡ 0 }
        ensures { result ≡ word_at self.now at }
    {
        let at = at as usize;
        if at < self.bytes.len() {
            u32::from_le_bytes([
                self.bytes[at],
                self.bytes[at + 1],
                self.bytes[at + 2],
                self.bytes[at + 3],
            ])
        } else {
            0
        }
    }

    /// Writes the byte at a place.
    pub fn store_byte(&mut self, at: u32, value: u8)
        requires { at < length self.old }
        ensures after { self.new ≡ slice_set self.old at value }
        ensures size { length self.new ≡ length self.old }
    {
        let at = at as usize;
        reach(&mut self.bytes, at);
        self.bytes[at] = value;
    }

    /// Writes the two bytes from an even place on.
    pub fn store_half(&mut self, at: u32, value: u16)
        requires in_memory { at < length self.old }
        requires aligned { at % 2 ≡ 0 }
        ensures after { self.new ≡ written self.old at (half_bytes value) }
        ensures size { length self.new ≡ length self.old }
        ensures reads_back { half_at self.new at ≡ value }
        ensures others { (k : ℕ) → (k < at) ⊎ (at + 2 ≤ k) → slice_index self.new k ≡ slice_index self.old k }
    {
        let at = at as usize;
        let [low, high] = value.to_le_bytes();
        reach(&mut self.bytes, at);
        self.bytes[at] = low;
        self.bytes[at + 1] = high;
    }

    /// Writes the four bytes from a place on that is divisible by 4.
    pub fn store_word(&mut self, at: u32, value: u32)
        requires in_memory { at < length self.old }
        requires aligned { at % 4 ≡ 0 }
        ensures after { self.new ≡ written self.old at (word_bytes value) }
        ensures size { length self.new ≡ length self.old }
        ensures reads_back { word_at self.new at ≡ value }
        ensures others { (k : ℕ) → (k < at) ⊎ (at + 4 ≤ k) → slice_index self.new k ≡ slice_index self.old k }
    {
        let at = at as usize;
        let [first, second, third, fourth] = value.to_le_bytes();
        reach(&mut self.bytes, at);
        self.bytes[at] = first;
        self.bytes[at + 1] = second;
        self.bytes[at + 2] = third;
        self.bytes[at + 3] = fourth;
    }

    /// Copies a frame into a page of 4,096 bytes.
    pub fn copy_out(&self, frame: Frame, into: &mut [u8])
        requires in_memory { HasFrame self.now frame }
        requires whole_page { length into.old ≡ 4096 }
        ensures { into.new ≡ page_at self.now frame }
    {
        into.copy_from_slice(self.page(frame));
    }

    /// Whether a frame holds these 4,096 bytes.
    pub fn equals(&self, frame: Frame, bytes: &[u8]) -> bool
        requires in_memory { HasFrame self.now frame }
        requires whole_page { length bytes.now ≡ 4096 }
        ensures { IsTrue result ↔ (bytes.now ≡ page_at self.now frame) }
    {
        self.page(frame) == bytes
    }

    /// Writes 4,096 bytes over a frame.
    pub fn copy_in(&mut self, frame: Frame, bytes: &[u8])
        requires in_memory { HasFrame self.old frame }
        requires whole_page { length bytes.now ≡ 4096 }
        ensures after { self.new ≡ with_page self.old frame bytes.now }
        ensures size { length self.new ≡ length self.old }
        ensures holds { page_at self.new frame ≡ bytes.now }
        ensures same { bytes.now ≡ page_at self.old frame → self.new ≡ self.old }
        ensures others { (f : Frame) → f.0 ≢ frame.0 → page_at self.new f ≡ page_at self.old f }
    {
        let start = frame.0 as usize * PAGE_LENGTH;
        reach(&mut self.bytes, start);
        self.bytes[start..start + PAGE_LENGTH].copy_from_slice(bytes);
    }

    /// The same of 4,096 bytes which the frame has already before one place and from another one on.
    pub fn copy_part_in(&mut self, frame: Frame, from: usize, to: usize, bytes: &[u8])
        requires in_memory { HasFrame self.old frame }
        requires whole_page { length bytes.now ≡ 4096 }
        requires within { to ≤ 4096 }
        requires before { take from (page_at self.old frame) ≡ take from bytes.now }
        requires behind { drop to (page_at self.old frame) ≡ drop to bytes.now }
        ensures after { self.new ≡ with_page self.old frame bytes.now }
        ensures size { length self.new ≡ length self.old }
        ensures holds { page_at self.new frame ≡ bytes.now }
        ensures same { bytes.now ≡ page_at self.old frame → self.new ≡ self.old }
        ensures others { (f : Frame) → f.0 ≢ frame.0 → page_at self.new f ≡ page_at self.old f }
    {
        if from < to {
            let start = frame.0 as usize * PAGE_LENGTH;
            reach(&mut self.bytes, start);
            self.bytes[start + from..start + to].copy_from_slice(&bytes[from..to]);
        }
    }

    /// The 4,096 bytes of a frame, without a copy.
    pub fn page(&self, frame: Frame) -> &[u8]
        requires { HasFrame self.now frame }
        ensures bytes { result.now ≡ page_at self.now frame }
        ensures whole_page { length result.now ≡ 4096 }
    {
        let start = frame.0 as usize * PAGE_LENGTH;
        if start < self.bytes.len() {
            &self.bytes[start..start + PAGE_LENGTH]
        } else {
            no_bytes()
        }
    }
}

// What a page holds that lies behind all that was stored to.
fn no_bytes() -> &'static [u8]
    ensures { result.now ≡ replicate 4096 0 }
{
    &NO_BYTES
}

// Makes the bytes, which are whole pages, reach over the page of `at`, where they don't yet. There is room for it.
#[inline]
fn reach(bytes: &mut Vec<u8>, at: usize)
    requires pages { length bytes.old.items % 4096 ≡ 0 }
    requires room { page_end at ≤ vec_capacity bytes.old }
    ensures items { bytes.new.items ≡ reaching at bytes.old.items }
    ensures capacity { vec_capacity bytes.old ≤ vec_capacity bytes.new }
{
    if at >= bytes.len() {
        extend(bytes, at);
    }
}

// The part of `reach` that writes, apart so that the test is inlined.
#[cold]
#[inline(never)]
fn extend(bytes: &mut Vec<u8>, at: usize)
    requires behind { length bytes.old.items ≤ at }
    requires room { page_end at ≤ vec_capacity bytes.old }
    ensures items { bytes.new.items ≡ reaching at bytes.old.items }
    ensures capacity { vec_capacity bytes.old ≤ vec_capacity bytes.new }
{
    // In the room that was made this always succeeds.
    bytes
        .resize((at / PAGE_LENGTH + 1) * PAGE_LENGTH, 0)
        .unwrap();
}
