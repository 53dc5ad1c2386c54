//! Iteration over the members that lie in a window, from both ends.
ghost use Rattle.std.specs.Iterator.{YieldsFirstBy, YieldsLastBy, item_count};
ghost use Rattle.ivl_laws.specs.Sets.{Intersection, IsBetween, SameMembers};
ghost use Rattle.ivl_laws.specs.Runs.{Covers};
ghost use Rattle.ivl_laws.specs.Counts.{IsIn};
ghost use Rattle.ivl_places.specs.Members.{IsAscending, numbers_of};

use super::PagedSet;
use super::iter::Runs;
use intervallum::interval::Interval;
use intervallum::ops::{
    Bounded, Empty, Intersection, IsEmpty, StrictShrinkLeft, StrictShrinkRight,
};
use intervallum::width::Width;
use std::iter::FusedIterator;
use std::marker::Model;
use std::mem;

/// A double-ended iterator over members, ascending, as `members_within` returns it. A contract sees
/// the numbers that are left.
///
/// No call allocates.
///
/// ```
/// let list: IntervalSet<i32> = [(1, 2), (5, 6)].to_interval_set(alloc)?;
/// let a = PagedSet::of_set(&list)?;
/// let mut left = a.members_within(&Interval::new(2, 9));
/// assert_eq!(rt; left.next(), Some(2));
/// assert_eq!(rt; left.next_back(), Some(6));
/// assert_eq!(rt; left.next(), Some(5));
/// ```
#[derive(Drop)]
pub struct Members<'a, B: Width> {
    first: Interval<B>,
    between: Runs<'a, B>,
    last: Interval<B>,
}

impl<'a, B: Width> Model for Members<'a, B> {
    ghost use Rattle.std.specs.Prelude.{ℤ, ◌≤ℤ◌, List, ◌++◌};
    ghost use Rattle.std.specs.List.{AllByRecursion};
    ghost use Rattle.ivl_places.specs.Members.{members_of, numbers_of};

    ghost Value = { List ℤ };

    ghost view = { λ m. numbers_of m.first ++ members_of m.between ++ numbers_of m.last };

    ghost invariant = { λ m. AllByRecursion (λ run. run.0 ≤ℤ run.1) m.between };
}

impl<'a, B: Width> Iterator for Members<'a, B> {
    type Item = B;

    // It yields the first member that is left, or `None` if none is.
    ghost next_gives = { YieldsFirstBy B.value (λ left. left) };

    ghost remaining = { item_count (λ left. left) };

    /// Returns the least member that is left, or `None` if there is none. `O(1)`.
    ///
    /// ```
    /// let mut a = PagedSet::new(alloc);
    /// assert!(rt; a.insert(1)? && a.insert(5)?);
    /// let mut left = a.members_within(&Interval::whole());
    /// assert_eq!(rt; left.next(), Some(1));
    /// assert_eq!(rt; left.next(), Some(5));
    /// ```
    fn next(&mut self) -> Option<B> {
        if self.first.is_empty() {
            self.first = match self.between.next() {
                Some(run) => run,
                None => mem::replace(&mut self.last, Interval::empty()),
            };
        }
        take_least(&mut self.first)
    }
}

impl<'a, B: Width> DoubleEndedIterator for Members<'a, B> {
    // It yields the last member that is left, or `None` if none is.
    ghost next_back_gives = { YieldsLastBy B.value (λ left. left) };

    /// Returns the greatest member that is left, or `None` if there is none. `O(1)`.
    ///
    /// ```
    /// let mut a = PagedSet::new(alloc);
    /// assert!(rt; a.insert(1)? && a.insert(5)?);
    /// let mut left = a.members_within(&Interval::whole());
    /// assert_eq!(rt; left.next_back(), Some(5));
    /// assert_eq!(rt; left.next_back(), Some(1));
    /// ```
    fn next_back(&mut self) -> Option<B> {
        if self.last.is_empty() {
            self.last = match self.between.next_back() {
                Some(run) => run,
                None => mem::replace(&mut self.first, Interval::empty()),
            };
        }
        take_greatest(&mut self.last)
    }
}

impl<'a, B: Width> FusedIterator for Members<'a, B> {}

/// Takes the least number of an interval away, if it has one.
fn take_least<B: Width>(part: &mut Interval<B>) -> Option<B>
    ensures { YieldsFirstBy B.value numbers_of part.old result part.new }
{
    if part.is_empty() {
        return None;
    }
    let least = part.lower();
    *part = part.strict_shrink_left(least);
    Some(least)
}

/// Takes the greatest number of an interval away, if it has one.
fn take_greatest<B: Width>(part: &mut Interval<B>) -> Option<B>
    ensures { YieldsLastBy B.value numbers_of part.old result part.new }
{
    if part.is_empty() {
        return None;
    }
    let greatest = part.upper();
    *part = part.strict_shrink_right(greatest);
    Some(greatest)
}

impl<B: Width> PagedSet<B> {
    /// Returns a double-ended iterator over the members that lie in the window, each once, in
    /// ascending order. The window may be empty.
    ///
    /// Binary searches for the pages of both ends and in them: `O(log n)`, and `O(1)` for each
    /// member. Does not allocate.
    ///
    /// ```
    /// let list: IntervalSet<i32> = [(1, 2), (5, 6), (9, 9)].to_interval_set(alloc)?;
    /// let a = PagedSet::of_set(&list)?;
    /// let some: Vec<i32> = a.members_within(&Interval::new(2, 5)).collect(alloc)?;
    /// assert!(rt; some.as_slice() == [2, 5].as_slice());
    /// ```
    pub fn members_within(&self, window: &Interval<B>) -> Members<'_, B>
        // The iterator yields exactly the members that are in the window, each greater than the one before.
        ensures members { SameMembers (Intersection (Covers self.now) (IsBetween window.now)) (IsIn result) }
        ensures ascending { IsAscending result }
    {
        let mut between = self.runs_within(window);
        let none = Interval::empty();
        let Some(run) = between.next() else {
            return Members {
                first: none,
                between,
                last: none,
            };
        };
        let first = run.intersection(window);
        let Some(run) = between.next_back() else {
            return Members {
                first,
                between,
                last: none,
            };
        };
        Members {
            first,
            between,
            last: run.intersection(window),
        }
    }
}
