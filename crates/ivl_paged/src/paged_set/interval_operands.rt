//! A set beside a single interval.
ghost use Rattle.std.specs.Prelude.{◌↔◌, IsTrue};
ghost use Rattle.ivl_laws.specs.Sets.{IsBetween, IsSubset};
ghost use Rattle.ivl_laws.specs.Runs.{Covers};

use super::PagedSet;
use intervallum::interval::Interval;
use intervallum::ops::{Bounded, Disjoint, IsEmpty, Overlap};
use intervallum::width::Width;

impl<B: Width> PagedSet<B> {
    /// Returns true exactly when each member of the interval is a member of the set, so always for
    /// an empty interval. Binary search: `O(log n)`. Does not allocate.
    ///
    /// ```
    /// let list: IntervalSet<i32> = [(1, 5), (8, 9)].to_interval_set(alloc)?;
    /// let a = PagedSet::of_set(&list)?;
    /// assert!(rt; a.includes(&Interval::new(2, 5)) && !a.includes(&Interval::new(5, 8)));
    /// ```
    pub fn includes(&self, interval: &Interval<B>) -> bool
        // True exactly when each number of the interval is a member.
        ensures { IsTrue result ↔ IsSubset (IsBetween interval.now) (Covers self.now) }
    {
        if interval.is_empty() {
            return true;
        }
        match self.run_at(interval.lower()) {
            Some(run) => interval.upper() <= run.upper(),
            None => false,
        }
    }
}

impl<B: Width> Overlap<Interval<B>> for PagedSet<B> {
    ghost members = { Covers };

    ghost other_members = { IsBetween };

    /// Returns true exactly when some member of the interval is a member of the set. Binary search:
    /// `O(log n)`. Does not allocate.
    ///
    /// ```
    /// let list: IntervalSet<i32> = [(1, 2), (5, 6)].to_interval_set(alloc)?;
    /// let a = PagedSet::of_set(&list)?;
    /// assert!(rt; a.overlap(&Interval::new(3, 5)) && !a.overlap(&Interval::new(3, 4)));
    /// ```
    fn overlap(&self, other: &Interval<B>) -> bool {
        if other.is_empty() {
            return false;
        }
        match self.next_from(other.lower()) {
            Some(least) => least <= other.upper(),
            None => false,
        }
    }
}

impl<B: Width> Disjoint<Interval<B>> for PagedSet<B> {
    ghost members = { Covers };

    ghost other_members = { IsBetween };

    /// Returns true exactly when no member of the interval is a member of the set, so always for an
    /// empty interval. Binary search: `O(log n)`. Does not allocate.
    ///
    /// ```
    /// let list: IntervalSet<i32> = [(1, 2), (5, 6)].to_interval_set(alloc)?;
    /// let a = PagedSet::of_set(&list)?;
    /// assert!(rt; a.is_disjoint(&Interval::new(3, 4)) && !a.is_disjoint(&Interval::new(3, 5)));
    /// ```
    fn is_disjoint(&self, other: &Interval<B>) -> bool {
        !self.overlap(other)
    }
}
