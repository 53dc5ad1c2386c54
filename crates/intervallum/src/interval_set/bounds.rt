//! Sets of one run, the least and the greatest member, and the interval between them.
ghost use Rattle.std.specs.Prelude.{◌≡◌, ℤ, ◌≤ℤ◌, [], ◌∷◌, IfOk, IfSome, MatchOption};
ghost use Rattle.ivl_laws.specs.Sets.{HasNone, HasSome, IsBetween, IsHullOf};
ghost use Rattle.ivl_laws.specs.Runs.{Covers};
ghost use Rattle.ivl_places.specs.Neighbours.{IsGreatest, IsLeast};

use super::IntervalSet;
use super::run_lists::hull_of_runs;
use crate::interval::Interval;
use crate::ops::{Bounded, IsEmpty, IsSingleton};
use crate::width::Width;
use std::alloc::{AllocError, Global};

impl<B: Width> IntervalSet<B> {
    /// Returns the set of `x` alone. The caller must ensure that `x` is in the range. Check with
    /// `Interval::whole().contains(&x)`. `O(1)`. Allocates one run. Fails only if allocation fails.
    ///
    /// ```
    /// let five = IntervalSet::singleton(alloc, 5)?;
    /// assert!(rt; five == IntervalSet::new(alloc, 5, 5)?);
    /// ```
    pub fn singleton(alloc: Global, x: B) -> Result<Self, AllocError>
        requires { IsBetween B.whole (B.value x) }
        // On success, the only member is `x`.
        ensures { IfOk result (λ L. L ≡ (B.value x, B.value x) ∷ []) }
    {
        Self::new(alloc, x, x)
    }

    /// Returns the range of `B`, as one run. `O(1)`. Allocates one run. Fails only if allocation
    /// fails.
    ///
    /// ```
    /// let bytes = IntervalSet::<u8>::whole(alloc)?;
    /// assert!(rt; bytes.contains(&0) && bytes.contains(&254) && !bytes.contains(&255));
    /// ```
    pub fn whole(alloc: Global) -> Result<Self, AllocError>
        // On success, the result is the whole range, as one run.
        ensures { IfOk result (λ L. L ≡ B.whole ∷ []) }
    {
        Self::new(alloc, B::min_value(), B::max_value())
    }

    /// Returns the range of `B`, which every set entails. `O(1)`. Allocates one run. Fails only if
    /// allocation fails.
    ///
    /// ```
    /// assert!(rt; IntervalSet::<u8>::bot(alloc)? == IntervalSet::whole(alloc)?);
    /// ```
    pub fn bot(alloc: Global) -> Result<Self, AllocError>
        // On success, the result is the whole range, as one run.
        ensures { IfOk result (λ L. L ≡ B.whole ∷ []) }
    {
        Self::whole(alloc)
    }

    /// Returns the empty set, which entails every other. `O(1)`. Does not allocate.
    ///
    /// ```
    /// assert!(rt; IntervalSet::<u8>::top(alloc).is_empty());
    /// ```
    pub fn top(alloc: Global) -> Self
        // The result is the empty set.
        ensures { result ≡ [] }
    {
        Self::empty(alloc)
    }

    /// Returns the least member, or `None` if there is none. `O(1)`. Does not allocate.
    ///
    /// ```
    /// let a: IntervalSet<i32> = [(1, 2), (5, 6)].to_interval_set(alloc)?;
    /// assert_eq!(rt; a.first(), Some(1));
    /// assert_eq!(rt; IntervalSet::<i32>::empty(alloc).first(), None);
    /// ```
    pub fn first(&self) -> Option<B>
        // The result is the least member, which is in the range, or `None` if there is none.
        ensures least { MatchOption result (HasNone (Covers self.now)) (λ x. IsLeast (B.value x) (Covers self.now)) }
        ensures in_range { IfSome result (λ x. IsBetween B.whole (B.value x)) }
    {
        if self.is_empty() {
            None
        } else {
            Some(self.lower())
        }
    }

    /// Returns the greatest member, or `None` if there is none. `O(1)`. Does not allocate.
    ///
    /// ```
    /// let a: IntervalSet<i32> = [(1, 2), (5, 6)].to_interval_set(alloc)?;
    /// assert_eq!(rt; a.last(), Some(6));
    /// assert_eq!(rt; IntervalSet::<i32>::empty(alloc).last(), None);
    /// ```
    pub fn last(&self) -> Option<B>
        // The result is the greatest member, which is in the range, or `None` if there is none.
        ensures greatest { MatchOption result (HasNone (Covers self.now)) (λ x. IsGreatest (B.value x) (Covers self.now)) }
        ensures in_range { IfSome result (λ x. IsBetween B.whole (B.value x)) }
    {
        if self.is_empty() {
            None
        } else {
            Some(self.upper())
        }
    }

    /// Returns the least interval that holds the members: from the least to the greatest, or empty
    /// if there is none. `O(1)`. Does not allocate.
    ///
    /// ```
    /// let a: IntervalSet<i32> = [(1, 2), (5, 6)].to_interval_set(alloc)?;
    /// assert!(rt; a.hull() == Interval::new(1, 6));
    /// assert!(rt; IntervalSet::<i32>::empty(alloc).hull().is_empty());
    /// ```
    pub fn hull(&self) -> Interval<B>
        // The result is the least interval that holds all members.
        ensures { IsHullOf result (Covers self.now) }
    {
        hull_of_runs(self.as_runs())
    }
}

impl<B: Width> Bounded for IntervalSet<B> {
    /// Returns the least member: the start of the first run. The caller must ensure that the set is
    /// not empty. Check with `is_empty`. `O(1)`. Does not allocate.
    ///
    /// ```
    /// let a: IntervalSet<i32> = [(1, 2), (5, 6)].to_interval_set(alloc)?;
    /// assert!(rt; !a.is_empty() && a.lower() == 1);
    /// ```
    fn lower(&self) -> B
        requires { HasSome (Covers self.now) }
        // The result is the least member, which is in the range.
        ensures member { Covers self.now (B.value result) }
        ensures least { (z : ℤ) → Covers self.now z → B.value result ≤ℤ z }
        ensures in_range { IsBetween B.whole (B.value result) }
    {
        let first = self.intervals[0];
        first.lower()
    }

    /// Returns the greatest member: the end of the last run. The caller must ensure that the set is
    /// not empty. Check with `is_empty`. `O(1)`. Does not allocate.
    ///
    /// ```
    /// let a: IntervalSet<i32> = [(1, 2), (5, 6)].to_interval_set(alloc)?;
    /// assert!(rt; !a.is_empty() && a.upper() == 6);
    /// ```
    fn upper(&self) -> B
        requires { HasSome (Covers self.now) }
        // The result is the greatest member, which is in the range.
        ensures member { Covers self.now (B.value result) }
        ensures greatest { (z : ℤ) → Covers self.now z → z ≤ℤ B.value result }
        ensures in_range { IsBetween B.whole (B.value result) }
    {
        let last = self.intervals[self.intervals.len() - 1];
        last.upper()
    }
}

impl<B: Width> IsSingleton for IntervalSet<B> {
    ghost members = { Covers };

    /// Returns true exactly when the set has one member and no other. `O(1)`. Does not allocate.
    ///
    /// ```
    /// let a = IntervalSet::new(alloc, 1, 2)?;
    /// assert!(rt; !a.is_singleton() && IntervalSet::new(alloc, 5, 5)?.is_singleton());
    /// ```
    fn is_singleton(&self) -> bool {
        if self.intervals.len() != 1 {
            return false;
        }
        self.intervals[0].is_singleton()
    }
}
