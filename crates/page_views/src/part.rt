//! A part of a page.

ghost use Rattle.std.specs.Prelude.{◌≡◌, ℕ, ◌<◌, ◌≤◌, List, length};
ghost use Rattle.std.specs.Bool.{OnTrue};
ghost use Rattle.page_views.specs.Parts.{AreAlikeBut, IsWithinPage, ReachesOver};

use phys_groups::PAGE_LENGTH;

const LINE: usize = 64;

/// A part of a page: from one place up to another. There is none where that doesn't lie behind this.
#[derive(Clone, Copy)]
pub struct Part {
    pub from: usize,
    pub to: usize,
}

impl Part {
    // No part at all.
    pub(crate) fn none() -> Part
        ensures alike { (bytes : List ℕ) → AreAlikeBut result bytes bytes }
        ensures within { IsWithinPage result }
    {
        Part {
            from: PAGE_LENGTH,
            to: 0,
        }
    }

    // The whole page.
    pub(crate) fn all() -> Part
        ensures alike { (one other : List ℕ) → length one ≡ 4096 → length other ≡ 4096 → AreAlikeBut result one other }
        ensures within { IsWithinPage result }
    {
        Part {
            from: 0,
            to: PAGE_LENGTH,
        }
    }

    // Whether there is none, so that pages which differ there alone are the same.
    #[inline]
    pub(crate) fn is_none(self) -> bool
        ensures { OnTrue result ((one other : List ℕ) → AreAlikeBut self one other → one ≡ other) }
    {
        self.to <= self.from
    }

    // Has it reach over the places from one on, before another.
    #[inline]
    pub(crate) fn reach(&mut self, at: usize, end: usize)
        requires page { end ≤ 4096 }
        requires within { IsWithinPage self.old }
        ensures over { ReachesOver self.old self.new }
        ensures from { self.new.from ≤ at }
        ensures to { end ≤ self.new.to }
        ensures within { IsWithinPage self.new }
    {
        if at < self.from || self.to < end {
            self.widen(at, end);
        }
    }

    // The same, by whole lines.
    #[inline]
    fn widen(&mut self, at: usize, end: usize)
        requires page { end ≤ 4096 }
        requires within { IsWithinPage self.old }
        ensures over { ReachesOver self.old self.new }
        ensures from { self.new.from ≤ at }
        ensures to { end ≤ self.new.to }
        ensures within { IsWithinPage self.new }
    {
        self.from = self.from.min(at / LINE * LINE);
        self.to = self.to.max(end.div_ceil(LINE) * LINE);
    }
}

// Copies a part of a page over that of another, which is as it is but for this part. Mostly that is one line, which is a few moves and no call.
#[inline(always)]
pub(crate) fn copy_part(into: &mut [u8; PAGE_LENGTH], bytes: &[u8; PAGE_LENGTH], part: Part)
    requires alike { AreAlikeBut part into.old bytes.now }
    requires within { IsWithinPage part }
    ensures { into.new ≡ bytes.now }
{
    if part.from < part.to && part.to - part.from == LINE {
        into[part.from..part.from + LINE].copy_from_slice(&bytes[part.from..part.from + LINE]);
    } else {
        copy_lines(into, bytes, part);
    }
}

// The same of any part.
#[inline]
fn copy_lines(into: &mut [u8; PAGE_LENGTH], bytes: &[u8; PAGE_LENGTH], part: Part)
    requires alike { AreAlikeBut part into.old bytes.now }
    requires within { IsWithinPage part }
    ensures { into.new ≡ bytes.now }
{
    if part.from < part.to {
        into[part.from..part.to].copy_from_slice(&bytes[part.from..part.to]);
    }
}
