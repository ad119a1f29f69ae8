//! Copied pages.

ghost use Rattle.std.specs.Prelude.{◌≡◌, ◌+◌, ◌/◌, ◌<◌, ◌≤◌, [], ◌++◌, length, map, find, take, drop, replicate, slice_get, slice_set, Some, None, is_some, IfNone, IfOk, IfSome, IsTrue};
ghost use Rattle.std.specs.Bool.{OnFalse, OnTrue};
ghost use Rattle.std.specs.List.{position};
ghost use Rattle.std.specs.Option.{option_copied};
ghost use Rattle.rv32_exec.specs.declared.statuses.Access.TheVariants.{Read, Write};
ghost use Rattle.rv32_exec.specs.Pages.{size_of};
ghost use Rattle.page_views.specs.Lines.{seen_at};
ghost use Rattle.page_views.specs.Origins.{viewed, viewed_beside};
ghost use Rattle.page_views.specs.Spots.{noted_if};
ghost use Rattle.page_views.specs.Views.{all_dated, as_happened, can_fill as can_fill_def, can_refill, dated, filled, has_message as has_message_def, is_of_frame, is_of_page, is_since as is_since_def, is_touched_of, mark_view_of, nothing_kept, put_in_view, slots_for, view_through, where_flagged, with_filled, HaveOneViewAPage, IsExchanged, IsRefilled, IsReordered, IsSlotSince, View};

use crate::index::Index;
use crate::page::{Origin, PageView};
use crate::recent::Recent;
use crate::slots::LastSlots;
use crate::spots::Spots;
use cache_ident::{Frame, Ident, NoMemory, Vpn};
use flat_rules::wants;
use phys_groups::{Flags, PAGE_BYTES};
use rv32_exec::{Access, DecodedWords, Width};
use std::alloc::Global;
use std::marker::Model;

/// How many views there can be.
pub const MOST_VIEWS: usize = 64;

// So many slots are there beside those of the views, so that a loop over as many pages as there may be views, its code and its stack are
// all kept.
const SPARE_SLOTS: usize = 2;

// A page that wasn't a view while so many were filled isn't gone over any more: some four times as many as there are slots.
const LONG: u32 = 256;

/// Copied pages, as many as it was made for, no two of one page. A contract sees that number, the list of the views in the order of
/// their filling, and behind them what is kept of views that were cleared: the bytes that were copied, where they carry a place of a
/// journal as of which their frame had them.
///
/// It is a space for `step`. Two views of one frame see each other's stores, and a view is marked by the accesses that
/// go through it. No call after `new` takes memory. A view that is there is found in constant time, unless more pages have its
/// number modulo 128: then each view may be looked at. So it is at a store once two views are of one frame.
#[derive(Drop)]
pub struct PageViews {
    // Slots, of which the first ones are views. The others keep what they were copied from.
    views: Vec<PageView>,
    most: usize,
    index: Index,
    // Views that are found without a search.
    spots: Spots,
    // Where a page may be found that is kept.
    slots: LastSlots,
    // Which pages threads touched last.
    recent: Recent,
    // The number of the thread whose pages are views.
    whose: u32,
    pub(crate) decoded: DecodedWords,
}

impl Model for PageViews {
    ghost use Rattle.std.specs.Prelude.{take};
    ghost use Rattle.page_views.specs.Views.{table_of, IsTable, Table};
    ghost use Rattle.page_views.specs.Index.{IsIndex};
    ghost use Rattle.page_views.specs.Spots.{AreAllSpotted};

    ghost Value = { Table };

    ghost view = { λ table. table_of table.most table.index.count table.views.items };

    ghost invariant = { λ table. IsTable table.most table.views.items table.index.count × IsIndex (take table.index.count table.views.items) table.index × AreAllSpotted (take table.index.count table.views.items) table.spots };
}

impl PageViews {
    /// No view, with room for so many, and nothing kept. The one call that takes memory: some 8 KiB for each of them and 24 KiB
    /// for words.
    pub fn new(alloc: Global, most: usize) -> Result<PageViews, NoMemory>
        requires { most ≤ MOST_VIEWS }
        ensures { IfOk result (λ table. table ≡ record { most = most; views = []; kept = nothing_kept most }) }
    {
        Ok(PageViews {
            views: empty_slots(alloc, most + SPARE_SLOTS)?,
            most,
            slots: LastSlots::none(),
            recent: Recent::none(),
            whose: 0,
            index: Index::none(),
            spots: Spots::none(),
            decoded: DecodedWords::new(alloc)?,
        })
    }

    /// Gives up every view. What carries a place is kept. The next views are of pages of the thread with that number, of which nothing is
    /// made but where they are looked for first.
    pub fn clear(&mut self, whose: u32)
        ensures { self.new ≡ record self.old { views = []; kept = all_dated self.old.views self.old.kept } }
    {
        self.whose = whose;
        self.recent.begin();
        // Where there is none, nothing is known of any.
        if self.index.count > 0 {
            self.give_up();
        }
    }

    // Gives up every view.
    fn give_up(&mut self)
        ensures { self.new ≡ record self.old { views = []; kept = all_dated self.old.views self.old.kept } }
    {
        self.index = Index::none();
        self.spots = Spots::none();
    }

    /// Gives up every view, and all that is kept.
    pub fn forget(&mut self)
        ensures { self.new ≡ record self.old { views = []; kept = nothing_kept self.old.most } }
    {
        self.clear(0);
        self.recent = Recent::none();
        forget_each(&mut self.views);
    }

    /// The views in the order of their filling.
    #[inline]
    pub fn as_slice(&self) -> &[PageView]
        ensures views { result.now ≡ self.now.views }
        ensures few { length self.now.views ≤ self.now.most }
        ensures one_a_page { HaveOneViewAPage self.now.views }
    {
        &self.views[..self.index.count]
    }

    /// Whether some view has the message flag. Constant time.
    #[inline]
    pub fn has_message(&self) -> bool
        ensures { result ≡ has_message_def self.now.views }
    {
        self.index.messages
    }

    /// Whether there is room for the view of a page that has none.
    pub fn can_fill(&self, vpn: Vpn) -> bool
        ensures { result ≡ can_fill_def self.now.most self.now.views vpn }
    {
        self.index.count < self.most && self.place(vpn).is_none()
    }

    /// Adds an untouched view of a page, copied from `bytes`. Where a view of its frame was touched, it holds what the
    /// first of these holds now. The bytes carry no place, and what was kept in its place is gone.
    pub fn fill(&mut self, vpn: Vpn, frame: Frame, flags: Flags, row: Ident, bytes: &[u8])
        requires room { IsTrue (can_fill_def self.old.most self.old.views vpn) }
        requires whole_page { length bytes.now ≡ 4096 }
        ensures { self.new ≡ with_filled self.old (filled self.old.views vpn frame flags row bytes.now None) }
    {
        let origin = Origin {
            vpn,
            frame,
            flags,
            row,
            taken: None,
        };
        self.add(origin, bytes);
    }

    /// As `fill`, of bytes that the frame has as of a place of a journal, which they carry.
    pub fn fill_as_of(
        &mut self,
        vpn: Vpn,
        frame: Frame,
        flags: Flags,
        row: Ident,
        bytes: &[u8],
        place: u64,
    )
        requires room { IsTrue (can_fill_def self.old.most self.old.views vpn) }
        requires whole_page { length bytes.now ≡ 4096 }
        ensures { self.new ≡ with_filled self.old (filled self.old.views vpn frame flags row bytes.now (Some place)) }
    {
        let origin = Origin {
            vpn,
            frame,
            flags,
            row,
            taken: Some(place),
        };
        self.add(origin, bytes);
    }

    // Adds a view.
    fn add(&mut self, origin: Origin, bytes: &[u8])
        requires room { IsTrue (can_fill_def self.old.most self.old.views origin.vpn) }
        requires whole_page { length bytes.now ≡ 4096 }
        ensures { self.new ≡ with_filled self.old (viewed_beside self.old.views origin bytes.now) }
    {
        let shared = self.has_frame(origin.frame);
        self.slots.note_row(self.whose, origin.vpn, origin.row);
        self.slots.note(origin.frame, self.index.count);
        self.slots.note_filled(origin.frame);
        fill_at(&mut self.views, self.index.count, origin, bytes, shared);
        self.spots.note_view(&origin, self.index.count);
        self.index.add(&origin, shared);
    }

    /// Adds an untouched view of a page, where bytes of its frame are kept as of the place `since` of a journal, or a later one, and no
    /// view of the frame was touched; and answers whether it did. It takes constant time where the page was a view of late, and else a
    /// look at all that is kept. Only what was stored to what is kept is copied.
    pub fn refill(&mut self, vpn: Vpn, frame: Frame, flags: Flags, row: Ident, since: u64) -> bool
        requires room { IsTrue (can_fill_def self.old.most self.old.views vpn) }
        ensures answer { result ≡ can_refill self.old.views self.old.kept frame since }
        ensures refilled { OnTrue result (IsRefilled vpn frame flags row since self.old self.new) }
        ensures not { OnFalse result (IsReordered self.old self.new) }
    {
        let shared = self.has_frame(frame);
        if touched_of(self.as_slice(), frame, shared).is_some() {
            return false;
        }
        let count = self.index.count;
        let near = self.slots.of_frame(frame);
        let Some(slot) = slot_since(&self.views, count, near, frame, since) else {
            self.make_way(near, frame);
            return false;
        };
        let origin = Origin {
            vpn,
            frame,
            flags,
            row,
            taken: self.views[slot].taken(),
        };
        self.slots.note_filled(frame);
        self.slots.note_row(self.whose, vpn, row);
        exchange(&mut self.views, &mut self.slots, count, slot);
        recall_at(&mut self.views, count, origin);
        self.spots.note_view(&origin, count);
        self.index.add(&origin, shared);
        true
    }

    // Brings another slot behind the views, whose bytes are given up next. That is `near`, where it keeps bytes of the frame that aren't of
    // use any more.
    fn make_way(&mut self, near: usize, frame: Frame)
        requires { length self.old.views < self.old.most }
        ensures { IsReordered self.old self.new }
    {
        let count = self.index.count;
        let slot = slot_to_give_up(&self.views, count, near, frame, &self.slots);
        exchange(&mut self.views, &mut self.slots, count, slot);
    }

    /// Gives up every view, once the steps that went through them happened at a place of a journal: what was touched is kept as it is
    /// now, as of this place, and else as it was copied, where it carries a place.
    pub fn happened(&mut self, place: u64)
        ensures { self.new ≡ record self.old { views = []; kept = all_dated (map (as_happened place) self.old.views) self.old.kept } }
    {
        happen_each(&mut self.views, self.index.count, place);
        self.index = Index::none();
        self.spots = Spots::none();
    }

    /// Notes which pages the thread touched, where it is likely to touch them again as its next ones; else none is noted of it. It stays a
    /// call, so that a run of steps is short.
    #[inline(never)]
    pub fn note_recent(&mut self, again: bool)
        ensures { self.new ≡ self.old }
    {
        if again {
            self.recent.note(self.whose);
        } else {
            self.recent.forget(self.whose);
        }
    }

    /// The page that was noted of the thread at a place, as far as one is known: the first `MOST_RECENT` that it touched, in this
    /// order. Any may be answered.
    pub fn recent(&self, place: usize) -> Option<Vpn> {
        self.recent.page(self.whose, place)
    }

    /// The identifier of the row that a page was copied through last, as far as it is known. Any may be answered, and whoever takes it
    /// looks which row it is.
    pub fn near(&self, vpn: Vpn) -> Option<Ident> {
        self.slots.row(self.whose, vpn)
    }

    /// The view that an access goes through: that of the page of `va`, where its flags let the access through.
    #[inline]
    pub fn through(&self, va: u32, access: Access) -> Option<&PageView>
        ensures { option_copied result ≡ view_through self.now.views access va }
    {
        match self.place_through(va, access) {
            Some(place) => Some(&self.views[place]),
            None => None,
        }
    }

    // The place of the view that an access goes through.
    #[inline]
    pub(crate) fn place_through(&self, va: u32, access: Access) -> Option<usize>
        ensures view { seen_at result self.now.views ≡ view_through self.now.views access va }
        ensures within { IfSome result (λ place. place < length self.now.views) }
    {
        let page = va / PAGE_BYTES;
        match self.spots.place(page, access) {
            Some(place) => Some(place as usize),
            None => {
                let place = self.search(page, access);
                if place < self.index.count {
                    Some(place)
                } else {
                    None
                }
            }
        }
    }

    // The place of the view of a page, where that lets an access through, and else the one behind all views. It stays a call, so that an
    // access is short; and it answers a number, since an `Option` that some call answers is tested again where it meets another.
    #[cold]
    #[inline(never)]
    fn search(&self, page: u32, access: Access) -> usize
        ensures { slice_get self.now.views result ≡ where_flagged access (find (is_of_page (record { 0 = page })) self.now.views) }
    {
        match self.place(Vpn(page)) {
            Some(place) if wants(access, self.views[place].flags()) => place,
            _ => self.index.count,
        }
    }

    // The place of the view of a page.
    #[inline]
    fn place(&self, vpn: Vpn) -> Option<usize>
        ensures view { seen_at result self.now.views ≡ find (is_of_page vpn) self.now.views }
        ensures within { IfSome result (λ place. place < length self.now.views) }
    {
        let Some(noted) = self.index.pages.place(vpn.0) else {
            return None;
        };
        let place = noted as usize;
        if place < self.index.count && self.views[place].vpn() == vpn {
            return Some(place);
        }
        place_in(self.as_slice(), vpn)
    }

    // Whether some view is of a frame.
    fn has_frame(&self, frame: Frame) -> bool
        ensures { result ≡ is_some (find (is_of_frame frame) self.now.views) }
    {
        match self.index.frames.place(frame.0) {
            Some(_) => find_of(self.as_slice(), frame).is_some(),
            None => false,
        }
    }

    // Puts the low bytes of a number into every view of the frame of one.
    #[inline]
    pub(crate) fn put(&mut self, place: usize, at: usize, width: Width, value: u32)
        requires there { place < length self.old.views }
        requires within { at + size_of width < 4097 }
        ensures { (v : View) → slice_get self.old.views place ≡ Some v → self.new ≡ record self.old { views = map (put_in_view v.frame (size_of width) at value) self.old.views } }
    {
        if self.index.paired {
            let frame = self.views[place].frame();
            put_in(&mut self.views, self.index.count, frame, at, width, value);
        } else {
            self.views[place].put(at, width, value);
        }
    }

    // Leaves the mark of an access on the view of a page. What is marked anew is a call for each kind of access, so that an access is short
    // and the call needn't ask which kind it is.
    #[inline]
    pub(crate) fn mark(&mut self, va: u32, access: Access)
        ensures { self.new ≡ record self.old { views = map (mark_view_of (record { 0 = va / 4096 }) access) self.old.views } }
    {
        let page = va / PAGE_BYTES;
        if self.spots.is_marked(page, access) {
            return;
        }
        match access {
            Access::Fetch => self.mark_searched(page, access),
            Access::Read => self.mark_read(page),
            Access::Write => self.mark_written(page),
        }
    }

    #[cold]
    #[inline(never)]
    fn mark_read(&mut self, page: u32)
        requires { page < 1048576 }
        ensures { self.new ≡ record self.old { views = map (mark_view_of (record { 0 = page }) Read) self.old.views } }
    {
        self.mark_anew(page, Access::Read);
    }

    #[cold]
    #[inline(never)]
    fn mark_written(&mut self, page: u32)
        requires { page < 1048576 }
        ensures { self.new ≡ record self.old { views = map (mark_view_of (record { 0 = page }) Write) self.old.views } }
    {
        self.mark_anew(page, Access::Write);
    }

    // The same of a page, of whose view it isn't known that it has the mark.
    #[inline(always)]
    fn mark_anew(&mut self, page: u32, access: Access)
        requires { page < 1048576 }
        ensures { self.new ≡ record self.old { views = map (mark_view_of (record { 0 = page }) access) self.old.views } }
    {
        let Some(place) = self.spots.place(page, access) else {
            self.mark_searched(page, access);
            return;
        };
        let again = self.views[place as usize].touched();
        self.recent.touch(Vpn(page), again);
        self.views[place as usize].mark(access);
        self.spots.mark(page, access);
    }

    // .. whose view is looked for.
    #[cold]
    #[inline(never)]
    fn mark_searched(&mut self, page: u32, access: Access)
        ensures { self.new ≡ record self.old { views = map (mark_view_of (record { 0 = page }) access) self.old.views } }
    {
        if let Some(place) = self.place(Vpn(page)) {
            let allowed = wants(access, self.views[place].flags());
            let again = self.views[place].touched();
            self.recent.touch(Vpn(page), again);
            self.views[place].mark(access);
            note_if(&mut self.spots, allowed, page, access, place);
        }
    }
}

// Notes the place of the view of a page, where it lets the access through.
fn note_if(spots: &mut Spots, allowed: bool, page: u32, access: Access, place: usize)
    requires { place < 64 }
    ensures { spots.new ≡ noted_if allowed page access place spots.old }
{
    if allowed {
        spots.note(page, access, place as u8);
    }
}

// The place of the view of a page. It stays a call, so that an access is short.
#[cold]
#[inline(never)]
fn place_in(views: &[PageView], vpn: Vpn) -> Option<usize>
    ensures place { result ≡ position (is_of_page vpn) views.now }
    ensures within { IfSome result (λ place. place < length views.now) }
{
    views.iter().position(|view| view.vpn() == vpn)
}

// The first view of a frame.
fn find_of(views: &[PageView], frame: Frame) -> Option<&PageView>
    ensures { option_copied result ≡ find (is_of_frame frame) views.now }
{
    views.iter().find(|view| view.frame() == frame)
}

// So many slots that keep nothing.
fn empty_slots(alloc: Global, count: usize) -> Result<Vec<PageView>, NoMemory>
    requires { count ≤ slots_for MOST_VIEWS }
    ensures { IfOk result (λ slots. map dated slots.items ≡ replicate count None) }
{
    let mut slots = Vec::with_capacity(alloc, count)?;
    for _i in 0..count {
        slots.push(PageView::empty(alloc)?)?;
    }
    Ok(slots)
}

// Copies a thread's page into the view behind the first `count`. `shared` says whether one of these is of its frame.
fn fill_at(views: &mut [PageView], count: usize, origin: Origin, bytes: &[u8], shared: bool)
    requires shared { shared ≡ is_some (find (is_of_frame origin.frame) (take count views.old)) }
    requires room { count < length views.old }
    requires whole_page { length bytes.now ≡ 4096 }
    ensures { views.new ≡ slice_set views.old count (viewed_beside (take count views.old) origin bytes.now) }
{
    let (views, free) = views.split_at_mut(count);
    let touched = touched_of(views, origin.frame, shared);
    free[0].copy(origin, bytes, touched);
}

// Which slot behind the first `count` is given up: `near`, where it is one of the frame.
fn slot_to_give_up(
    views: &[PageView],
    count: usize,
    near: usize,
    frame: Frame,
    slots: &LastSlots,
) -> usize
    requires { count < length views.now }
    ensures behind { count ≤ result }
    ensures within { result < length views.now }
{
    if count <= near && near < views.len() && views[near].frame() == frame {
        near
    } else {
        count + given_up(&views[count..], slots)
    }
}

// Which slot of those that are no views is given up: one that keeps nothing of use, else that of a page which wasn't a view for long, and
// else that of the page which was one last. Of pages that are gone over again and again, and are a few more than the slots, all but a few
// are kept so.
fn given_up(kept: &[PageView], slots: &LastSlots) -> usize
    requires { 0 < length kept.now }
    ensures { result < length kept.now }
{
    let mut oldest = 0;
    let mut most = 0;
    let mut newest = 0;
    let mut least = u32::MAX;
    for i in 0..kept.len() {
        if kept[i].taken().is_none() {
            return i;
        }
        let age = slots.age(kept[i].frame());
        if most < age {
            oldest = i;
            most = age;
        }
        if age < least {
            newest = i;
            least = age;
        }
    }
    if LONG < most { oldest } else { newest }
}

// Exchanges a slot with the one behind the first `count`.
fn exchange(views: &mut [PageView], slots: &mut LastSlots, count: usize, slot: usize)
    requires behind { count ≤ slot }
    requires within { slot < length views.old }
    ensures { IsExchanged count slot views.old views.new }
{
    slots.note(views[count].frame(), slot);
    slots.note(views[slot].frame(), count);
    let (_, behind) = views.split_at_mut(count);
    behind.swap(0, slot - count);
}

// A slot behind the first `count` that keeps a frame's bytes as of `since` or later. That is `near`, where it keeps such.
fn slot_since(
    views: &[PageView],
    count: usize,
    near: usize,
    frame: Frame,
    since: u64,
) -> Option<usize>
    requires { count ≤ length views.now }
    ensures found { IfSome result (IsSlotSince views.now count frame since) }
    ensures none { IfNone result (find (is_since_def frame since) (map dated (drop count views.now)) ≡ None) }
{
    if count <= near && near < views.len() && is_since(&views[near], frame, since) {
        return Some(near);
    }
    let behind = place_since(&views[count..], frame, since)?;
    Some(count + behind)
}

// The first slot that keeps such.
fn place_since(views: &[PageView], frame: Frame, since: u64) -> Option<usize>
    ensures place { result ≡ position (λ v. is_since_def frame since (dated v)) views.now }
    ensures within { IfSome result (λ place. place < length views.now) }
{
    views.iter().position(|view| is_since(view, frame, since))
}

// Makes a view of what a slot was copied from.
fn recall_at(views: &mut [PageView], at: usize, origin: Origin)
    requires { at < length views.old }
    ensures { (v : View) → slice_get views.old at ≡ Some v → views.new ≡ slice_set views.old at (viewed origin v.first v.first) }
{
    views[at].recall(origin);
}

// Whether a slot keeps a frame's bytes as of `since` or later.
fn is_since(view: &PageView, frame: Frame, since: u64) -> bool
    ensures { result ≡ is_since_def frame since (dated view.now) }
{
    match view.taken() {
        Some(place) => view.frame() == frame && since <= place,
        None => false,
    }
}

// Of the first `count` each touched view is from now on copied from what it holds, as of a place.
fn happen_each(views: &mut [PageView], count: usize, place: u64)
    requires { count ≤ length views.old }
    ensures { views.new ≡ map (as_happened place) (take count views.old) ++ drop count views.old }
{
    for i in 0..count {
        happen_if(&mut views[i], place);
    }
}

fn happen_if(view: &mut PageView, place: u64)
    ensures { view.new ≡ as_happened place view.old }
{
    if view.touched() {
        view.happen(place);
    }
}

// Of no view do the bytes carry a place any more.
fn forget_each(views: &mut [PageView])
    ensures { map dated views.new ≡ replicate (length views.old) None }
{
    for i in 0..views.len() {
        views[i].forget();
    }
}

// The first touched view of a frame. `shared` says whether one is of it.
fn touched_of(views: &[PageView], frame: Frame, shared: bool) -> Option<&PageView>
    requires { shared ≡ is_some (find (is_of_frame frame) views.now) }
    ensures { option_copied result ≡ find (is_touched_of frame) views.now }
{
    if shared {
        find_touched(views, frame)
    } else {
        None
    }
}

fn find_touched(views: &[PageView], frame: Frame) -> Option<&PageView>
    ensures { option_copied result ≡ find (is_touched_of frame) views.now }
{
    views
        .iter()
        .find(|view| view.touched() && view.frame() == frame)
}

// Puts the low bytes of a number into those of the first `count` views that are of a frame. It stays a call, so that a store is short.
#[cold]
#[inline(never)]
fn put_in(views: &mut [PageView], count: usize, frame: Frame, at: usize, width: Width, value: u32)
    requires count { count ≤ length views.old }
    requires within { at + size_of width < 4097 }
    ensures { views.new ≡ map (put_in_view frame (size_of width) at value) (take count views.old) ++ drop count views.old }
{
    for i in 0..count {
        put_if(&mut views[i], frame, at, width, value);
    }
}

fn put_if(view: &mut PageView, frame: Frame, at: usize, width: Width, value: u32)
    requires { at + size_of width < 4097 }
    ensures { view.new ≡ put_in_view frame (size_of width) at value view.old }
{
    if view.frame() == frame {
        view.put(at, width, value);
    }
}
