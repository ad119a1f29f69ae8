//! The pages that are kept.

ghost use Rattle.std.specs.Prelude.{◌≡◌, ◌+◌, ◌*◌, ◌%◌, ◌<◌, ◌≤◌, ℕ, true, false, List, Some, None, IfOk, IfSome, OnOk, OnErr, length, slice_get, slice_set};
ghost use Rattle.cache_ident.specs.declared.names.Frame.{Frame};
ghost use Rattle.phys_groups.specs.Memory.{page_at, with_page, word_bytes, written};
ghost use Rattle.byte_ports.specs.Faults.{HasRisen};
ghost use Rattle.page_store.specs.declared.page.Page.{Page};
ghost use Rattle.page_store.specs.Kept.{nothing_kept, unplaced, unwritten, HasBytes, IsFor, IsFree, IsKept, IsReadInto, IsWritten, Means};

use crate::page::{Page, no_page};
use crate::store::Store;
use byte_ports::Failed;
use cache_ident::{Frame, NoMemory};
use std::alloc::Global;
use std::marker::Model;

/// Some pages of a memory, as many as it was made for at most, the others being in a store. A contract sees how many frames the memory
/// has, and the places for pages. With what the store holds they are one memory.
///
/// A page that was changed goes to the store before its place is used again. The page that came first leaves first. No call after `new`
/// takes memory, and each finds a page in constant time.
#[derive(Drop)]
pub struct Paged {
    slots: Vec<Page>,
    // The slot whose page came first.
    oldest: usize,
    // For each frame, the slot that has its page.
    places: Vec<Option<usize>>,
}

impl Model for Paged {
    ghost use Rattle.std.specs.Prelude.{◌<◌, length};
    ghost use Rattle.page_store.specs.Kept.{Kept};
    ghost use Rattle.page_store.specs.Index.{IsIndex};

    ghost Value = { Kept };

    ghost view = { λ paged. record { frames = length paged.places.items; slots = paged.slots.items } };

    ghost invariant = { λ paged. (paged.oldest < length paged.slots.items) × IsIndex paged.slots.items paged.places.items };
}

impl Paged {
    /// Keeps no page of so many frames, and at most `most` at once, so that memory is what the store holds. The one call that takes memory: a page and some bytes for each of
    /// these, and 16 bytes for each frame.
    #[tactic(auto, using(crate::proofs::Meaning::nothing_means))]
    pub fn new(alloc: Global, most: usize, frames: usize) -> Result<Paged, NoMemory>
        requires { 0 < most }
        ensures empty { IfOk result (λ paged. paged ≡ nothing_kept most frames) }
        ensures memory { IfOk result (λ paged. (bytes : List ℕ) → length bytes ≡ 4096 * frames → Means paged (Some bytes) bytes) }
    {
        Ok(Paged {
            slots: vec![in alloc; no_page(); most]?,
            oldest: 0,
            places: vec![in alloc; None; frames]?,
        })
    }

    /// How many frames there are.
    pub fn frames(&self) -> usize
        ensures { result ≡ self.now.frames }
    {
        self.places.len()
    }

    /// Sees to it that the page of a frame is kept. Where it isn't it is read, in the place of the page that came first; that is
    /// written before, if it was changed.
    pub fn keep<K: Store>(&mut self, store: &mut K, frame: Frame) -> Result<(), Failed>
        requires store { K.frames store.old ≡ self.old.frames }
        requires there { frame.0 < self.old.frames }
        ensures memory { OnOk result ((memory : List ℕ) → Means self.old (K.bytes_held store.old) memory → Means self.new (K.bytes_held store.new) memory) }
        ensures kept { OnOk result (IsKept self.new frame) }
        ensures frames { self.new.frames ≡ self.old.frames }
        ensures most { length self.new.slots ≡ length self.old.slots }
        ensures store_frames { K.frames store.new ≡ K.frames store.old }
        ensures faultless { OnOk result (K.faults store.new ≡ K.faults store.old) }
        ensures fault { OnErr result (HasRisen (K.faults store.old) (K.faults store.new)) }
    {
        if self.places[frame.0 as usize].is_some() {
            return Ok(());
        }
        let place = self.free(store)?;
        read_into(store, &mut self.slots, place, frame)?;
        self.hold(place, frame);
        Ok(())
    }

    /// The 4,096 bytes of a frame whose page is kept, without a copy.
    pub fn page(&self, frame: Frame) -> &[u8]
        requires { IsKept self.now frame }
        ensures bytes { (memory held : _) → Means self.now held memory → result.now ≡ page_at memory frame }
        ensures whole_page { length result.now ≡ 4096 }
    {
        match self.places[frame.0 as usize] {
            Some(place) => &self.slots[place].bytes,
            None => unreachable!(),
        }
    }

    /// Puts 4,096 bytes in the place of those that a frame has. They go to the store later.
    pub fn put<K: Store>(&mut self, store: &mut K, frame: Frame, bytes: &[u8]) -> Result<(), Failed>
        requires store { K.frames store.old ≡ self.old.frames }
        requires there { frame.0 < self.old.frames }
        requires whole_page { length bytes.now ≡ 4096 }
        ensures memory { OnOk result ((memory : List ℕ) → Means self.old (K.bytes_held store.old) memory → Means self.new (K.bytes_held store.new) (with_page memory frame bytes.now)) }
        ensures frames { self.new.frames ≡ self.old.frames }
        ensures most { length self.new.slots ≡ length self.old.slots }
        ensures store_frames { K.frames store.new ≡ K.frames store.old }
        ensures faultless { OnOk result (K.faults store.new ≡ K.faults store.old) }
        ensures fault { OnErr result (HasRisen (K.faults store.old) (K.faults store.new)) }
    {
        let place = self.place_for(store, frame)?;
        change(&mut self.slots, place, bytes);
        self.hold(place, frame);
        Ok(())
    }

    /// Puts the four bytes of a word at an offset of a frame that is divisible by 4.
    pub fn store_word<K: Store>(
        &mut self,
        store: &mut K,
        frame: Frame,
        offset: u32,
        value: u32,
    ) -> Result<(), Failed>
        requires store { K.frames store.old ≡ self.old.frames }
        requires there { frame.0 < self.old.frames }
        requires within { offset ≤ 4092 }
        requires aligned { offset % 4 ≡ 0 }
        ensures memory { OnOk result ((memory : List ℕ) → Means self.old (K.bytes_held store.old) memory → Means self.new (K.bytes_held store.new) (written memory (4096 * frame.0 + offset) (word_bytes value))) }
        ensures frames { self.new.frames ≡ self.old.frames }
        ensures most { length self.new.slots ≡ length self.old.slots }
        ensures store_frames { K.frames store.new ≡ K.frames store.old }
        ensures faultless { OnOk result (K.faults store.new ≡ K.faults store.old) }
        ensures fault { OnErr result (HasRisen (K.faults store.old) (K.faults store.new)) }
    {
        self.keep(store, frame)?;
        match self.places[frame.0 as usize] {
            Some(place) => put_word(&mut self.slots, place, offset as usize, value),
            None => unreachable!(),
        }
        Ok(())
    }

    /// Writes each page that was changed. Then the store holds all of memory.
    pub fn write_back<K: Store>(&mut self, store: &mut K) -> Result<(), Failed>
        requires store { K.frames store.old ≡ self.old.frames }
        ensures memory { OnOk result ((memory : List ℕ) → Means self.old (K.bytes_held store.old) memory → K.bytes_held store.new ≡ Some memory) }
        ensures faultless { OnOk result (K.faults store.new ≡ K.faults store.old) }
        ensures fault { OnErr result (HasRisen (K.faults store.old) (K.faults store.new)) }
    {
        for place in 0..self.slots.len() {
            self.write_at(store, place)?;
        }
        Ok(())
    }
}

impl Paged {
    // Writes the page in a slot, where it was changed.
    fn write_at<K: Store>(&mut self, store: &mut K, place: usize) -> Result<(), Failed>
        requires store { K.frames store.old ≡ self.old.frames }
        requires there { place < length self.old.slots }
        ensures memory { OnOk result ((memory : List ℕ) → Means self.old (K.bytes_held store.old) memory → Means self.new (K.bytes_held store.new) memory) }
        ensures slots { OnOk result (IsWritten self.old.slots place self.new.slots) }
        ensures unchanged { OnErr result (self.new ≡ self.old) }
        ensures frames { self.new.frames ≡ self.old.frames }
        ensures most { length self.new.slots ≡ length self.old.slots }
        ensures store_frames { K.frames store.new ≡ K.frames store.old }
        ensures faultless { OnOk result (K.faults store.new ≡ K.faults store.old) }
        ensures fault { OnErr result (HasRisen (K.faults store.old) (K.faults store.new)) }
    {
        if let Some(frame) = unwritten(&self.slots[place]) {
            store.write(frame, &self.slots[place].bytes)?;
            settle(&mut self.slots, place);
        }
        Ok(())
    }

    // The slot that has the page of a frame, or else a free one.
    fn place_for<K: Store>(&mut self, store: &mut K, frame: Frame) -> Result<usize, Failed>
        requires store { K.frames store.old ≡ self.old.frames }
        requires there { frame.0 < self.old.frames }
        ensures memory { OnOk result ((memory : List ℕ) → Means self.old (K.bytes_held store.old) memory → Means self.new (K.bytes_held store.new) memory) }
        ensures place { IfOk result (λ place. IsFor self.new place frame) }
        ensures frames { self.new.frames ≡ self.old.frames }
        ensures most { length self.new.slots ≡ length self.old.slots }
        ensures store_frames { K.frames store.new ≡ K.frames store.old }
        ensures faultless { OnOk result (K.faults store.new ≡ K.faults store.old) }
        ensures fault { OnErr result (HasRisen (K.faults store.old) (K.faults store.new)) }
    {
        if let Some(place) = self.places[frame.0 as usize] {
            return Ok(place);
        }
        self.free(store)
    }

    // Frees the slot whose page came first, once that is in the store.
    fn free<K: Store>(&mut self, store: &mut K) -> Result<usize, Failed>
        requires store { K.frames store.old ≡ self.old.frames }
        ensures memory { OnOk result ((memory : List ℕ) → Means self.old (K.bytes_held store.old) memory → Means self.new (K.bytes_held store.new) memory) }
        ensures free { IfOk result (IsFree self.new.slots) }
        ensures others { (frame : Frame) → IsKept self.new frame → IsKept self.old frame }
        ensures frames { self.new.frames ≡ self.old.frames }
        ensures most { length self.new.slots ≡ length self.old.slots }
        ensures store_frames { K.frames store.new ≡ K.frames store.old }
        ensures faultless { OnOk result (K.faults store.new ≡ K.faults store.old) }
        ensures fault { OnErr result (HasRisen (K.faults store.old) (K.faults store.new)) }
    {
        let place = self.oldest;
        self.write_at(store, place)?;
        self.give_up(place);
        self.oldest = behind(place, self.slots.len());
        Ok(place)
    }

    // Gives up the page in a slot.
    fn give_up(&mut self, place: usize)
        requires { place < length self.old.slots }
        ensures slots { (page : Page) → slice_get self.old.slots place ≡ Some page → self.new.slots ≡ slice_set self.old.slots place (record page { frame = None; changed = false }) }
        ensures frames { self.new.frames ≡ self.old.frames }
    {
        forget(&mut self.places, self.slots[place].frame);
        release(&mut self.slots, place);
    }

    // From now on a slot that is free or has its page already has the page of a frame.
    fn hold(&mut self, place: usize, frame: Frame)
        requires { IsFor self.old place frame }
        ensures slots { (page : Page) → slice_get self.old.slots place ≡ Some page → self.new.slots ≡ slice_set self.old.slots place (record page { frame = Some frame }) }
        ensures frames { self.new.frames ≡ self.old.frames }
    {
        self.places[frame.0 as usize] = Some(place);
        name(&mut self.slots, place, frame);
    }
}

// The place behind one of so many, and the first one behind the last.
fn behind(place: usize, count: usize) -> usize
    requires { place < count }
    ensures { result < count }
{
    if place + 1 < count { place + 1 } else { 0 }
}

// No place is noted for a frame.
fn forget(places: &mut Vec<Option<usize>>, frame: Option<Frame>)
    requires { IfSome frame (λ f. f.0 < length places.old.items) }
    ensures places { places.new.items ≡ unplaced frame places.old.items }
    ensures len { length places.new.items ≡ length places.old.items }
{
    if let Some(frame) = frame {
        places[frame.0 as usize] = None;
    }
}

// Reads the page of a frame into a slot.
fn read_into<K: Store>(
    store: &mut K,
    slots: &mut Vec<Page>,
    place: usize,
    frame: Frame,
) -> Result<(), Failed>
    requires in_store { frame.0 < K.frames store.old }
    requires there { place < length slots.old.items }
    ensures slots { IsReadInto slots.old.items place slots.new.items }
    ensures page { OnOk result ((bytes : List ℕ) → K.bytes_held store.old ≡ Some bytes → HasBytes slots.new.items place (page_at bytes frame)) }
    ensures bytes { OnOk result (K.bytes_held store.new ≡ K.bytes_held store.old) }
    ensures frames { K.frames store.new ≡ K.frames store.old }
    ensures faultless { OnOk result (K.faults store.new ≡ K.faults store.old) }
    ensures fault { OnErr result (HasRisen (K.faults store.old) (K.faults store.new)) }
{
    store.read(frame, &mut slots[place].bytes)
}

// The frame of a page that was changed.
fn unwritten(page: &Page) -> Option<Frame>
    ensures { result ≡ unwritten page.now }
{
    if page.changed { page.frame } else { None }
}

// The page in a slot is as the store has it.
fn settle(slots: &mut Vec<Page>, place: usize)
    requires { place < length slots.old.items }
    ensures { (page : Page) → slice_get slots.old.items place ≡ Some page → slots.new.items ≡ slice_set slots.old.items place (record page { changed = false }) }
{
    slots[place].changed = false;
}

// A slot has no page.
fn release(slots: &mut Vec<Page>, place: usize)
    requires { place < length slots.old.items }
    ensures { (page : Page) → slice_get slots.old.items place ≡ Some page → slots.new.items ≡ slice_set slots.old.items place (record page { frame = None; changed = false }) }
{
    let slot = &mut slots[place];
    slot.frame = None;
    slot.changed = false;
}

// The page in a slot is that of a frame.
fn name(slots: &mut Vec<Page>, place: usize, frame: Frame)
    requires { place < length slots.old.items }
    ensures { (page : Page) → slice_get slots.old.items place ≡ Some page → slots.new.items ≡ slice_set slots.old.items place (record page { frame = Some frame }) }
{
    slots[place].frame = Some(frame);
}

// Puts other bytes into a slot.
fn change(slots: &mut Vec<Page>, place: usize, bytes: &[u8])
    requires there { place < length slots.old.items }
    requires whole_page { length bytes.now ≡ 4096 }
    ensures { (page : Page) → slice_get slots.old.items place ≡ Some page → slots.new.items ≡ slice_set slots.old.items place (record page { bytes = bytes.now; changed = true }) }
{
    let slot = &mut slots[place];
    slot.bytes.copy_from_slice(bytes);
    slot.changed = true;
}

// Puts the four bytes of a word at a place of a slot's page.
fn put_word(slots: &mut Vec<Page>, place: usize, at: usize, value: u32)
    requires there { place < length slots.old.items }
    requires within { at ≤ 4092 }
    ensures { (page : Page) → slice_get slots.old.items place ≡ Some page → slots.new.items ≡ slice_set slots.old.items place (record page { bytes = written page.bytes at (word_bytes value); changed = true }) }
{
    let slot = &mut slots[place];
    let [first, second, third, fourth] = value.to_le_bytes();
    slot.bytes[at] = first;
    slot.bytes[at + 1] = second;
    slot.bytes[at + 2] = third;
    slot.bytes[at + 3] = fourth;
    slot.changed = true;
}
