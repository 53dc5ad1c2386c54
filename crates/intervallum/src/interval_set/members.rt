//! Iteration over the members of a set, from both ends.
ghost use Rattle.std.specs.Prelude.{◌≡◌, ◌++◌, ◌-◌, ◌^◌, ◌≤◌, IfSome, length, min, ⊤};
ghost use Rattle.std.specs.Iterator.{UpTo, YieldsFirstBy, YieldsLastBy, item_count};
ghost use Rattle.std.specs.Iterator.SizeHint.{IsExactHint, IsWithinCount};
ghost use Rattle.ivl_laws.specs.Bounds.{width_of};
ghost use Rattle.ivl_laws.specs.Sets.{SameMembers};
ghost use Rattle.ivl_laws.specs.Runs.{Covers, IsRunListIn};
ghost use Rattle.ivl_laws.specs.Counts.{IsIn};
ghost use Rattle.ivl_places.specs.Members.{IsAscending, members_of, numbers_of};

use super::IntervalSet;
use crate::interval::Interval;
use crate::ops::{Bounded, Cardinality, Empty, IsEmpty, StrictShrinkLeft, StrictShrinkRight};
use crate::width::{SizeNumber, Width};
use std::alloc::AllocError;
use std::iter::FusedIterator;
use std::marker::Model;
use std::mem;

/// A double-ended iterator over the members of a set, ascending, as `members` returns it. A
/// contract sees the numbers that are left.
///
/// No call allocates.
///
/// ```
/// let a: IntervalSet<i32> = [(1, 2), (5, 6)].to_interval_set(alloc)?;
/// let mut left = a.members();
/// assert_eq!(rt; left.next(), Some(1));
/// assert_eq!(rt; left.next_back(), Some(6));
/// assert_eq!(rt; left.next(), Some(2));
/// ```
#[derive(Drop)]
pub struct Members<'a, B: Width> {
    pub(super) first: Interval<B>,
    pub(super) between: &'a [Interval<B>],
    pub(super) last: Interval<B>,
}

impl<'a, B: Width> Model for Members<'a, B> {
    ghost use Rattle.std.specs.Prelude.{ℤ, ◌≤ℤ◌, ◌≤◌, List, ◌++◌, length};
    ghost use Rattle.std.specs.List.{AllByRecursion};
    ghost use Rattle.ivl_laws.specs.Bounds.{width_of};
    ghost use Rattle.ivl_places.specs.Members.{members_of, numbers_of};

    ghost Value = { List ℤ };

    ghost view = { λ m. numbers_of m.first ++ members_of m.between.now ++ numbers_of m.last };

    ghost invariant = { λ m. AllByRecursion (λ run. run.0 ≤ℤ run.1) m.between.now × (length (numbers_of m.first ++ members_of m.between.now ++ numbers_of m.last) ≤ width_of B.whole) };
}

impl<'a, B: Width> Clone for Members<'a, B> {
    ghost is_clone = { λ m copy. copy ≡ m };

    ghost is_infallible = { λ _. ⊤ };

    /// Returns an iterator over the members that are left. `O(1)`. Never fails.
    ///
    /// ```
    /// let a = IntervalSet::new(alloc, 1, 3)?;
    /// let mut left = a.members();
    /// assert_eq!(rt; left.next(), Some(1));
    /// assert_eq!(rt; left.clone()?.next(), Some(2));
    /// assert_eq!(rt; left.next(), Some(2));
    /// ```
    fn clone(&self) -> Result<Self, AllocError> {
        Ok(Members {
            first: self.first,
            between: self.between,
            last: self.last,
        })
    }
}

impl<'a, B: Width> Iterator for Members<'a, B> {
    type Item = B;

    // It yields the first member that is left, or `None` if none is.
    ghost next_gives = { YieldsFirstBy B.value (λ left. left) };

    ghost remaining = { item_count (λ left. left) };

    /// Returns the least member that is left, or `None` if there is none. `O(1)`.
    ///
    /// ```
    /// let a: IntervalSet<i32> = [(1, 1), (5, 6)].to_interval_set(alloc)?;
    /// let mut left = a.members();
    /// assert_eq!(rt; left.next(), Some(1));
    /// assert_eq!(rt; left.next(), Some(5));
    /// ```
    fn next(&mut self) -> Option<B> {
        if self.first.is_empty() {
            self.first = match self.between.split_first() {
                Some((run, rest)) => {
                    self.between = rest;
                    *run
                }
                None => mem::replace(&mut self.last, Interval::empty()),
            };
        }
        take_least(&mut self.first)
    }

    /// Returns how many members are left, as both bounds. Where a `usize` does not hold so many,
    /// they are its greatest value and `None`. Adds up the runs that are left: `O(n)`.
    ///
    /// ```
    /// let a: IntervalSet<i32> = [(1, 3), (5, 6)].to_interval_set(alloc)?;
    /// assert!(rt; a.members().size_hint() == (5, Some(5)));
    /// ```
    fn size_hint(&self) -> (usize, Option<usize>)
        // Both bounds are the number of members that are left; if a `usize` does not hold it, they are the greatest
        // `usize` and `None`.
        ensures lower { IsWithinCount result.0 (item_count (λ left. left) self.now) }
        ensures upper { IfSome result.1 (UpTo (item_count (λ left. left) self.now)) }
        ensures exact { IsExactHint result (length self.now) }
    {
        match usize::try_from(count_of(&self.first, self.between, &self.last)) {
            Ok(count) => (count, Some(count)),
            Err(_) => (usize::MAX, None),
        }
    }
}

impl<'a, B: Width> DoubleEndedIterator for Members<'a, B> {
    // It yields the last member that is left, or `None` if none is.
    ghost next_back_gives = { YieldsLastBy B.value (λ left. left) };

    /// Returns the greatest member that is left, or `None` if there is none. `O(1)`.
    ///
    /// ```
    /// let a: IntervalSet<i32> = [(1, 2), (5, 5)].to_interval_set(alloc)?;
    /// let mut left = a.members();
    /// assert_eq!(rt; left.next_back(), Some(5));
    /// assert_eq!(rt; left.next_back(), Some(2));
    /// ```
    fn next_back(&mut self) -> Option<B> {
        if self.last.is_empty() {
            self.last = match self.between.split_last() {
                Some((run, rest)) => {
                    self.between = rest;
                    *run
                }
                None => mem::replace(&mut self.first, Interval::empty()),
            };
        }
        take_greatest(&mut self.last)
    }
}

impl<'a, B: Width> FusedIterator for Members<'a, B> {}

impl<'a, B: Width> Members<'a, B> {
    /// No more members are left than the range has. This does nothing: its contract is the fact.
    fn in_counts(&self)
        ensures { length self.now ≤ width_of B.whole }
    {
        let _first = self.first;
    }
}

impl<'a> ExactSizeIterator for Members<'a, usize> {
    /// Returns how many members are left. Adds up the runs that are left: `O(n)`.
    ///
    /// ```
    /// let a: IntervalSet<usize> = [(1, 3), (5, 6)].to_interval_set(alloc)?;
    /// assert_eq!(rt; a.members().len(), 5);
    /// ```
    fn len(&self) -> usize {
        self.in_counts();
        self.size_hint().0
    }
}

impl<'a> ExactSizeIterator for Members<'a, isize> {
    /// Returns how many members are left. Adds up the runs that are left: `O(n)`.
    ///
    /// ```
    /// let a: IntervalSet<isize> = [(-3, -1), (5, 6)].to_interval_set(alloc)?;
    /// assert_eq!(rt; a.members().len(), 5);
    /// ```
    fn len(&self) -> usize {
        self.in_counts();
        self.size_hint().0
    }
}

/// How many numbers an interval, a list of intervals and another interval have; at most as many as
/// a `u128` holds.
fn count_of<B: Width>(first: &Interval<B>, between: &[Interval<B>], last: &Interval<B>) -> u128
    ensures { result ≡ min (length (numbers_of first.now ++ members_of between.now ++ numbers_of last.now)) (2 ^ 128 - 1) }
{
    let mut count = first.size().number().saturating_add(last.size().number());
    for run in between {
        count = count.saturating_add(run.size().number());
    }
    count
}

/// Takes the least number of an interval away, if it has one.
fn take_least<B: Width>(part: &mut Interval<B>) -> Option<B>
    ensures { YieldsFirstBy B.value numbers_of part.old result part.new }
{
    if part.is_empty() {
        return None;
    }
    let least = part.lower();
    *part = part.strict_shrink_left(least);
    Some(least)
}

/// Takes the greatest number of an interval away, if it has one.
fn take_greatest<B: Width>(part: &mut Interval<B>) -> Option<B>
    ensures { YieldsLastBy B.value numbers_of part.old result part.new }
{
    if part.is_empty() {
        return None;
    }
    let greatest = part.upper();
    *part = part.strict_shrink_right(greatest);
    Some(greatest)
}

impl<B: Width> IntervalSet<B> {
    /// Returns a double-ended iterator over the members, each once, in ascending order. `O(1)`.
    /// Does not allocate.
    ///
    /// ```
    /// let a: IntervalSet<i32> = [(5, 6), (1, 2)].to_interval_set(alloc)?;
    /// let all: Vec<i32> = a.members().collect(alloc)?;
    /// assert!(rt; all.as_slice() == [1, 2, 5, 6].as_slice());
    /// ```
    pub fn members(&self) -> Members<'_, B>
        // The iterator yields exactly the members, each greater than the one before: the numbers of each run in turn.
        // The runs are ascending, lie in the range, and neither overlap nor touch.
        ensures left { result ≡ members_of self.now }
        ensures members { SameMembers (Covers self.now) (IsIn result) }
        ensures ascending { IsAscending result }
        ensures runs { IsRunListIn B.whole self.now }
    {
        Members {
            first: Interval::empty(),
            between: self.as_runs(),
            last: Interval::empty(),
        }
    }
}
