//! Operations on a set and a single interval.
ghost use Rattle.std.specs.Prelude.{◌≤◌, ◌+◌, ◌↔◌, IfOk, IsTrue, length, ⊤};
ghost use Rattle.ivl_laws.specs.Sets.{HasSome, Intersection, IsBetween, IsSubset, SymmetricDifference, Union, Without};
ghost use Rattle.ivl_laws.specs.Runs.{Covers, IsRunsOf};

use super::IntervalSet;
use super::shrinks::cut;
use crate::interval::Interval;
use crate::ops::{
    Bounded, Difference, Disjoint, Intersection, IsEmpty, Overlap, SymmetricDifference, Union,
};
use crate::width::Width;
use std::alloc::{AllocError, Global};

impl<B: Width> IntervalSet<B> {
    /// Returns the set of the members of an interval, which may be empty. `O(1)`. Allocates one
    /// run, or nothing for an empty interval. Fails only if allocation fails.
    ///
    /// ```
    /// let a = IntervalSet::of(alloc, Interval::new(1, 2))?;
    /// assert!(rt; a == IntervalSet::new(alloc, 1, 2)?);
    /// assert!(rt; IntervalSet::of(alloc, Interval::<i32>::empty())?.is_empty());
    /// ```
    pub fn of(alloc: Global, interval: Interval<B>) -> Result<Self, AllocError>
        // On success, the members are exactly the numbers of the interval, in at most one run.
        ensures members { IfOk result (λ L. IsRunsOf L (IsBetween interval)) }
        ensures runs_at_most { IfOk result (λ L. length L ≤ 1) }
    {
        if interval.is_empty() {
            return Ok(Self::empty(alloc));
        }
        Self::new(alloc, interval.lower(), interval.upper())
    }

    /// Returns true exactly when each member of the interval is a member of the set, so always for
    /// an empty interval. Binary search: `O(log n)`. Does not allocate.
    ///
    /// ```
    /// let a: IntervalSet<i32> = [(1, 5), (8, 9)].to_interval_set(alloc)?;
    /// assert!(rt; a.includes(&Interval::new(2, 5)) && !a.includes(&Interval::new(5, 8)));
    /// ```
    pub fn includes(&self, interval: &Interval<B>) -> bool
        // True exactly when each number of the interval is a member.
        ensures { IsTrue result ↔ IsSubset (IsBetween interval.now) (Covers self.now) }
    {
        if interval.is_empty() {
            return true;
        }
        match self.run_at(interval.lower()) {
            Some(run) => interval.upper() <= run.upper(),
            None => false,
        }
    }
}

impl<B: Width> Overlap<Interval<B>> for IntervalSet<B> {
    ghost members = { Covers };

    ghost other_members = { IsBetween };

    /// Returns true exactly when some member of the interval is a member of the set. Binary search:
    /// `O(log n)`. Does not allocate.
    ///
    /// ```
    /// let a: IntervalSet<i32> = [(1, 2), (5, 6)].to_interval_set(alloc)?;
    /// assert!(rt; a.overlap(&Interval::new(3, 5)) && !a.overlap(&Interval::new(3, 4)));
    /// ```
    fn overlap(&self, other: &Interval<B>) -> bool {
        if other.is_empty() {
            return false;
        }
        match self.next_from(other.lower()) {
            Some(least) => least <= other.upper(),
            None => false,
        }
    }
}

impl<B: Width> Disjoint<Interval<B>> for IntervalSet<B> {
    ghost members = { Covers };

    ghost other_members = { IsBetween };

    /// Returns true exactly when no member of the interval is a member of the set, so always for an
    /// empty interval. Binary search: `O(log n)`. Does not allocate.
    ///
    /// ```
    /// let a: IntervalSet<i32> = [(1, 2), (5, 6)].to_interval_set(alloc)?;
    /// assert!(rt; a.is_disjoint(&Interval::new(3, 4)) && !a.is_disjoint(&Interval::new(3, 5)));
    /// ```
    fn is_disjoint(&self, other: &Interval<B>) -> bool {
        !self.overlap(other)
    }
}

impl<B: Width> Union<Interval<B>> for IntervalSet<B> {
    type Output = Result<IntervalSet<B>, AllocError>;

    ghost members = { Covers };

    ghost other_members = { IsBetween };

    ghost can_unite = { λ _ _. ⊤ };

    ghost answers = { λ r S. IfOk r (λ L. IsRunsOf L S) };

    /// Returns the members of the set and of the interval, which may be empty. `O(n)`: one copy and
    /// a binary search. Reserves `n + 1` runs once. Fails only if allocation fails.
    ///
    /// ```
    /// let a = IntervalSet::new(alloc, 1, 5)?;
    /// assert!(rt; a.union(&Interval::new(6, 9))? == IntervalSet::new(alloc, 1, 9)?);
    /// ```
    fn union(&self, other: &Interval<B>) -> Result<IntervalSet<B>, AllocError>
        // On success, the members are exactly those of the set and the numbers of the interval, in at most one run more
        // than the set has.
        ensures members { IfOk result (λ L. IsRunsOf L (Union (Covers self.now) (IsBetween other.now))) }
        ensures runs_at_most { IfOk result (λ L. length L ≤ length self.now + 1) }
    {
        let mut set = self.copy_with_room()?;
        set.insert_interval(*other)?;
        Ok(set.fitted())
    }
}

impl<B: Width> Intersection<Interval<B>> for IntervalSet<B> {
    type Output = Result<IntervalSet<B>, AllocError>;

    ghost members = { Covers };

    ghost other_members = { IsBetween };

    ghost answers = { λ r S. IfOk r (λ L. IsRunsOf L S) };

    /// Returns the members that lie in the interval. Binary search: `O(log n + k)`, where `k` runs
    /// overlap the interval. Reserves `k` runs once. Fails only if allocation fails.
    ///
    /// ```
    /// let a: IntervalSet<i32> = [(1, 5), (8, 9)].to_interval_set(alloc)?;
    /// assert!(rt; a.intersection(&Interval::new(4, 7))? == IntervalSet::new(alloc, 4, 5)?);
    /// ```
    fn intersection(&self, other: &Interval<B>) -> Result<IntervalSet<B>, AllocError>
        // On success, the members are exactly those of the set that are in the interval, in at most as many runs as the
        // set has.
        ensures members { IfOk result (λ L. IsRunsOf L (Intersection (Covers self.now) (IsBetween other.now))) }
        ensures runs_at_most { IfOk result (λ L. length L ≤ length self.now) }
    {
        cut(self, other)
    }
}

impl<B: Width> Difference<Interval<B>> for IntervalSet<B> {
    type Output = Result<IntervalSet<B>, AllocError>;

    ghost members = { Covers };

    ghost other_members = { IsBetween };

    ghost answers = { λ r S. IfOk r (λ L. IsRunsOf L S) };

    /// Returns the members that do not lie in the interval. `O(n)`: one copy and a binary search.
    /// Reserves `n + 1` runs once. Fails only if allocation fails.
    ///
    /// ```
    /// let a = IntervalSet::new(alloc, 1, 9)?;
    /// let rest = a.difference(&Interval::new(4, 7))?;
    /// assert!(rt; rest == [(1, 3), (8, 9)].to_interval_set(alloc)?);
    /// ```
    fn difference(&self, other: &Interval<B>) -> Result<IntervalSet<B>, AllocError>
        // On success, the members are exactly those of the set that are not in the interval, in at most one run more
        // than the set has.
        ensures members { IfOk result (λ L. IsRunsOf L (Without (Covers self.now) (IsBetween other.now))) }
        ensures runs_at_most { IfOk result (λ L. length L ≤ length self.now + 1) }
    {
        let mut set = self.copy_with_room()?;
        set.remove_interval(*other)?;
        Ok(set.fitted())
    }
}

impl<B: Width> SymmetricDifference<Interval<B>> for IntervalSet<B> {
    type Output = Result<IntervalSet<B>, AllocError>;

    ghost members = { Covers };

    ghost other_members = { IsBetween };

    ghost can_unite = { λ _ _. ⊤ };

    ghost answers = { λ r S. IfOk r (λ L. IsRunsOf L S) };

    /// Returns the numbers that are in exactly one of the set and the interval, which may be empty.
    /// `O(n)`. Reserves `n + 1` runs once, and one run until it returns. Fails only if allocation
    /// fails.
    ///
    /// ```
    /// let a = IntervalSet::new(alloc, 1, 5)?;
    /// let other = a.symmetric_difference(&Interval::new(4, 9))?;
    /// assert!(rt; other == [(1, 3), (6, 9)].to_interval_set(alloc)?);
    /// ```
    fn symmetric_difference(&self, other: &Interval<B>) -> Result<IntervalSet<B>, AllocError>
        // On success, the members are exactly the numbers that are either in the set or in the interval, and not in
        // both, in at most one run more than the set has.
        ensures members { IfOk result (λ L. IsRunsOf L (SymmetricDifference (Covers self.now) (IsBetween other.now))) }
        ensures runs_at_most { IfOk result (λ L. length L ≤ length self.now + 1) }
    {
        let all = IntervalSet::of(self.allocator(), *other)?;
        self.symmetric_difference(&all)
    }
}
