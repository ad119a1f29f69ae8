//! A list whose changes take no memory, with places found in logarithmic time.

ghost use Rattle.std.specs.Prelude.{◌≡◌, ◌<◌, ◌≤◌, ◌^◌, [], true, All, AllPairs, count_by, length, insert, remove, slice_get, vec_capacity, vec_len, IfOk, OnErr, OnOk};
ghost use Rattle.std.specs.Option.{option_copied};
ghost use Rattle.sorted_list.specs.Layout.{IsSeated};

use super::nodes::{self, Branch, EMPTY, Node};
use super::search::{self, Cut};
use std::alloc::{AllocError, Global};
use std::marker::Model;

/// Items in a row, at most so many as the `room`.
#[derive(Drop)]
pub(crate) struct FixedList<T: Copy> {
    room: u32,
    root: Branch,
    nodes: Vec<Node<T>>,
    // The seats below the length of `nodes` that no node of the tree has.
    spare: Vec<u32>,
}

impl<T: Copy> Model for FixedList<T> {
    ghost use Rattle.std.specs.Prelude.{◌≤◌, vec_capacity};
    ghost use Rattle.sorted_list.specs.Fixed.{Fixed};

    ghost Value = { Fixed T };

    ghost use Rattle.sorted_list.specs.Layout.{IsSound, items_at};

    ghost view = { λ list. record { room = list.room; items = items_at list.nodes.items list.root } };

    ghost invariant = { λ list. IsSound list.room list.root list.nodes.items list.spare.items × (list.room ≤ vec_capacity list.nodes) × (list.room ≤ vec_capacity list.spare) };
}

impl<T: Copy> FixedList<T> {
    /// No items, and room for so many, of which none is written.
    pub(crate) fn new(alloc: Global, room: u32) -> Result<FixedList<T>, AllocError>
        ensures { IfOk result (λ list. list ≡ record { room = room; items = [] }) }
    {
        let nodes = Vec::with_capacity(alloc, room as usize)?;
        let spare = Vec::with_capacity(alloc, room as usize)?;
        Ok(FixedList {
            room,
            root: EMPTY,
            nodes,
            spare,
        })
    }

    /// Makes the room so large. Where memory is wanted nothing changes.
    pub(crate) fn grow(&mut self, room: u32) -> Result<(), AllocError>
        requires { self.old.room ≤ room }
        ensures ok { OnOk result (self.new ≡ record self.old { room = room }) }
        ensures err { OnErr result (self.new ≡ self.old) }
    {
        let nodes = room as usize - self.nodes.len();
        self.nodes.reserve_exact(nodes)?;
        let seats = room as usize - self.spare.len();
        self.spare.reserve_exact(seats)?;
        self.room = room;
        Ok(())
    }

    /// How many items there are. Constant time.
    pub(crate) fn len(&self) -> u32
        ensures { result ≡ length self.now.items }
    {
        self.root.count
    }

    /// The item at a place.
    pub(crate) fn get(&self, place: u32) -> Option<T>
        ensures { result ≡ slice_get self.now.items place }
    {
        if place < self.root.count {
            let seat = nodes::seat_at(&self.nodes, self.root, place);
            Some(nodes::node_at(&self.nodes, seat).item)
        } else {
            None
        }
    }

    /// How many items the cut is behind.
    pub(crate) fn count_before<C: Cut<T>>(&self, cut: &C) -> u32
        requires { AllPairs (λ a b. C.is_behind_of cut.now b ≡ true → C.is_behind_of cut.now a ≡ true) self.now.items }
        ensures { result ≡ count_by (C.is_behind_of cut.now) self.now.items }
    {
        search::count_before(&self.nodes, self.root, cut)
    }

    /// The first item that the cut is not behind; `None` where it is behind all.
    pub(crate) fn first_from<C: Cut<T>>(&self, cut: &C) -> Option<&T>
        requires { AllPairs (λ a b. C.is_behind_of cut.now b ≡ true → C.is_behind_of cut.now a ≡ true) self.now.items }
        ensures { option_copied result ≡ slice_get self.now.items (count_by (C.is_behind_of cut.now) self.now.items) }
    {
        search::first_from(&self.nodes, self.root, cut)
    }

    /// Puts an item at a place, before what is there.
    pub(crate) fn insert(&mut self, place: u32, item: T)
        requires place { place ≤ length self.old.items }
        requires room { length self.old.items < self.old.room }
        ensures { self.new ≡ record self.old { items = insert self.old.items place item } }
    {
        let seat = new_seat(&mut self.nodes, &mut self.spare, item);
        self.root = nodes::insert(&mut self.nodes, self.root, place, seat);
    }

    /// Takes out the item at a place.
    pub(crate) fn remove(&mut self, place: u32)
        requires { place < length self.old.items }
        ensures { self.new ≡ record self.old { items = remove self.old.items place } }
    {
        let (gone, left) = nodes::remove(&mut self.nodes, self.root, place);
        self.root = left;
        self.spare.push_reserved(gone);
    }
}

// Writes an item down alone, at a seat that no node of the tree has: the last spare one, or else a new one.
fn new_seat<T: Copy>(nodes: &mut Vec<Node<T>>, spare: &mut Vec<u32>, item: T) -> u32
    requires room { vec_len spare.old ≡ 0 → vec_len nodes.old < vec_capacity nodes.old }
    requires few { vec_len nodes.old < 2 ^ 32 }
    requires within { All (λ seat. seat < vec_len nodes.old) spare.old.items }
    ensures seated { IsSeated nodes.old.items spare.old.items nodes.new.items spare.new.items result item }
    ensures nodes_capacity { vec_capacity nodes.new ≡ vec_capacity nodes.old }
    ensures spare_capacity { vec_capacity spare.new ≡ vec_capacity spare.old }
{
    let node = Node {
        item,
        before: EMPTY,
        behind: EMPTY,
    };
    match spare.pop() {
        Some(seat) => {
            nodes[seat as usize] = node;
            seat
        }
        None => {
            let seat = nodes.len() as u32;
            nodes.push_reserved(node);
            seat
        }
    }
}
