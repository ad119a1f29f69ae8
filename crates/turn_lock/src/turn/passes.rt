//! Passes are cut in two and joined again.
ghost use Rattle.std.specs.Prelude.{◌≡◌, ◌<◌, min, max};
ghost use mathlib.Core.List.{IsPrefix};
ghost use Rattle.turn_lock.specs.Lists.{longer, shorter};
ghost use Rattle.turn_lock.specs.Passes.{IsPassOf, AreNeighbours, first_of, end_of, seen_of};

use super::{TICKET, Turn};
use crate::history::History;
use crate::pass::Pass;
use crate::rule::{Compare, Cut, CutRange, JoinRanges};
use std::marker::Brand;

impl<V: History> Turn<V> {
    fn split_at<C: Cut>(&self, pass: Pass<V>, at: u32) -> (Pass<V>, Pass<V>)
        requires lock { IsPassOf self.now pass }
        requires cut { at ≡ C.at }
        requires inside { (first_of pass < at) × (at < end_of pass) }
        ensures lock { IsPassOf self.now result.0 × IsPassOf self.now result.1 }
        ensures lower { (first_of result.0 ≡ first_of pass) × (end_of result.0 ≡ at) }
        ensures upper { (first_of result.1 ≡ at) × (end_of result.1 ≡ end_of pass) }
        ensures seen { (seen_of result.0 ≡ seen_of pass) × (seen_of result.1 ≡ seen_of pass) }
    {
        let Pass { mut seat, number } = pass;
        let rest = self.table.shared.split_seat::<CutRange<C>>(&mut seat);
        (
            Pass { seat, number },
            Pass {
                seat: rest,
                number: at,
            },
        )
    }

    /// Divides the numbers at `at`, which is strictly inside the range. Both passes have seen the same.
    pub fn split(&self, pass: Pass<V>, at: u32) -> (Pass<V>, Pass<V>)
        requires lock { IsPassOf self.now pass }
        requires inside { (first_of pass < at) × (at < end_of pass) }
        ensures lock { IsPassOf self.now result.0 × IsPassOf self.now result.1 }
        ensures lower { (first_of result.0 ≡ first_of pass) × (end_of result.0 ≡ at) }
        ensures upper { (first_of result.1 ≡ at) × (end_of result.1 ≡ end_of pass) }
        ensures seen { (seen_of result.0 ≡ seen_of pass) × (seen_of result.1 ≡ seen_of pass) }
    {
        self.split_at::<Brand>(pass, at)
    }

    /// Puts two neighbouring ranges together, in either order. The pass has seen what the one that saw more had seen.
    pub fn join(&self, pass: Pass<V>, ended: Pass<V>) -> Pass<V>
        requires lock { IsPassOf self.now pass × IsPassOf self.now ended }
        requires neighbours { AreNeighbours pass ended }
        ensures lock { IsPassOf self.now result }
        ensures range { (first_of result ≡ min (first_of pass) (first_of ended)) × (end_of result ≡ max (end_of pass) (end_of ended)) }
        ensures seen { seen_of result ≡ longer (seen_of pass) (seen_of ended) }
        ensures begins { IsPrefix (shorter (seen_of pass) (seen_of ended)) (seen_of result) }
    {
        let Pass { mut seat, number } = pass;
        let Pass {
            seat: other,
            number: next,
        } = ended;
        let shared = &self.table.shared;
        shared.join_seat::<JoinRanges>(&mut seat, other);
        shared.load::<Compare>(&mut seat, TICKET);
        Pass {
            seat,
            number: number.min(next),
        }
    }
}
