//! The names of a kind one after another.

ghost use Rattle.std.specs.Prelude.{◌≡◌, length, map, Some, IfSome};
ghost use Rattle.std.specs.List.{range_with_len};
ghost use Rattle.std.specs.Iterator.{UpTo, YieldsFirst, item_count};
ghost use Rattle.std.specs.Iterator.SizeHint.{IsWithinCount};
ghost use Rattle.desc_groups.specs.desc_stores.specs.Sound.{kernel_named, space_named, thread_named};
ghost use Rattle.desc_tables.specs.Names.{kernels_left, spaces_left, threads_left};

use cache_ident::{KernelNo, Name, SpaceNo, ThreadNo};
use growing_list::Values;
use std::marker::Model;
use std::ops::Range;

/// Goes over the names of a kind, in declared order. A contract sees the list of those that are left.
///
/// Each takes constant time, and the name of a row a time logarithmic in the rows that stand.
#[derive(Drop)]
pub struct Names<'a> {
    left: Left<'a>,
}

// What is left to go over: numbers, or names that are listed.
#[derive(Drop)]
enum Left<'a> {
    Kernels(Range<u32>),
    Spaces(Range<u32>),
    Threads(Range<u32>),
    Rows(Values<'a, u64, Name>),
}

impl<'a> Model for Names<'a> {
    ghost use Rattle.std.specs.Prelude.{List};
    ghost use Rattle.cache_ident.specs.declared.names.Name.{Name};
    ghost use Rattle.desc_tables.specs.Names.{names_in};

    ghost Value = { List Name };

    ghost view = { λ names. names_in names.left };
}

impl<'a> Names<'a> {
    pub(crate) fn of_kernels(count: u32) -> Names<'a>
        ensures { result ≡ map kernel_named (range_with_len 0 count) }
    {
        Names {
            left: Left::Kernels(0..count),
        }
    }

    pub(crate) fn of_spaces(count: u32) -> Names<'a>
        ensures { result ≡ map space_named (range_with_len 0 count) }
    {
        Names {
            left: Left::Spaces(0..count),
        }
    }

    pub(crate) fn of_threads(count: u32) -> Names<'a>
        ensures { result ≡ map thread_named (range_with_len 0 count) }
    {
        Names {
            left: Left::Threads(0..count),
        }
    }

    pub(crate) fn of_rows(names: Values<'a, u64, Name>) -> Names<'a>
        ensures { result ≡ names.entry }
    {
        Names {
            left: Left::Rows(names),
        }
    }

    // How many names are left.
    fn left(&self) -> usize
        ensures { result ≡ length self.now }
    {
        match &self.left {
            Left::Kernels(numbers) => numbers.len(),
            Left::Spaces(numbers) => numbers.len(),
            Left::Threads(numbers) => numbers.len(),
            Left::Rows(names) => names.len(),
        }
    }
}

impl<'a> Iterator for Names<'a> {
    type Item = Name;

    ghost next_gives = { YieldsFirst (λ left. left) };

    ghost remaining = { item_count (λ left. left) };

    fn next(&mut self) -> Option<Name> {
        match &mut self.left {
            Left::Kernels(numbers) => next_kernel(numbers),
            Left::Spaces(numbers) => next_space(numbers),
            Left::Threads(numbers) => next_thread(numbers),
            Left::Rows(names) => names.next(),
        }
    }

    /// How many names are left, as both bounds.
    fn size_hint(&self) -> (usize, Option<usize>)
        ensures lower { IsWithinCount result.0 (item_count (λ left. left) self.now) }
        ensures upper { IfSome result.1 (UpTo (item_count (λ left. left) self.now)) }
        ensures exact { result ≡ (length self.now, Some (length self.now)) }
    {
        let left = self.left();
        (left, Some(left))
    }
}

impl<'a> ExactSizeIterator for Names<'a> {
    fn len(&self) -> usize {
        self.left()
    }
}

// The name of the next number, if one is left.
fn next_kernel(numbers: &mut Range<u32>) -> Option<Name>
    ensures { YieldsFirst kernels_left numbers.old result numbers.new }
{
    Some(Name::Kernel(KernelNo(numbers.next()?)))
}

fn next_space(numbers: &mut Range<u32>) -> Option<Name>
    ensures { YieldsFirst spaces_left numbers.old result numbers.new }
{
    Some(Name::Space(SpaceNo(numbers.next()?)))
}

fn next_thread(numbers: &mut Range<u32>) -> Option<Name>
    ensures { YieldsFirst threads_left numbers.old result numbers.new }
{
    Some(Name::Thread(ThreadNo(numbers.next()?)))
}
