//! The set of the range, the least and the greatest member, and the interval between them.
ghost use Rattle.std.specs.Prelude.{◌≡◌, ℤ, ◌≤ℤ◌, [], ◌∷◌, IfOk, IfSome, MatchOption};
ghost use Rattle.ivl_laws.specs.Sets.{HasNone, HasSome, IsBetween, IsHullOf};
ghost use Rattle.ivl_laws.specs.Runs.{Covers};
ghost use Rattle.ivl_places.specs.Neighbours.{IsGreatest, IsLeast};

use super::PagedSet;
use intervallum::interval::Interval;
use intervallum::interval_set::IntervalSet;
use intervallum::ops::{Bounded, Empty, Range};
use intervallum::width::Width;
use std::alloc::{AllocError, Global};

impl<B: Width> PagedSet<B> {
    /// Returns the range of `B`, as one run. `O(1)`. Allocates one page. Fails only if allocation
    /// fails.
    ///
    /// ```
    /// let bytes = PagedSet::<u8>::whole(alloc)?;
    /// assert!(rt; bytes.contains(&0) && bytes.contains(&254) && !bytes.contains(&255));
    /// ```
    pub fn whole(alloc: Global) -> Result<Self, AllocError>
        // On success, the result is the whole range, as one run.
        ensures { IfOk result (λ L. L ≡ B.whole ∷ []) }
    {
        Self::of_set(&IntervalSet::whole(alloc)?)
    }

    /// Returns the least member, or `None` if there is none. `O(1)`. Does not allocate.
    ///
    /// ```
    /// let mut a = PagedSet::new(alloc);
    /// assert_eq!(rt; a.first(), None);
    /// a.insert_interval(Interval::new(1, 5))?;
    /// assert_eq!(rt; a.first(), Some(1));
    /// ```
    pub fn first(&self) -> Option<B>
        // The result is the least member, which is in the range, or `None` if there is none.
        ensures least { MatchOption result (HasNone (Covers self.now)) (λ x. IsLeast (B.value x) (Covers self.now)) }
        ensures in_range { IfSome result (λ x. IsBetween B.whole (B.value x)) }
    {
        if self.pages.is_empty() {
            return None;
        }
        Some(self.pages.head(0))
    }

    /// Returns the greatest member, or `None` if there is none. `O(1)`. Does not allocate.
    ///
    /// ```
    /// let mut a = PagedSet::new(alloc);
    /// assert_eq!(rt; a.last(), None);
    /// a.insert_interval(Interval::new(1, 5))?;
    /// assert_eq!(rt; a.last(), Some(5));
    /// ```
    pub fn last(&self) -> Option<B>
        // The result is the greatest member, which is in the range, or `None` if there is none.
        ensures greatest { MatchOption result (HasNone (Covers self.now)) (λ x. IsGreatest (B.value x) (Covers self.now)) }
        ensures in_range { IfSome result (λ x. IsBetween B.whole (B.value x)) }
    {
        let count = self.pages.len();
        if count == 0 {
            return None;
        }
        Some(self.pages.page(count - 1).set().upper())
    }

    /// Returns the least interval that holds the members: from the least to the greatest, or empty
    /// if there is none. `O(1)`. Does not allocate.
    ///
    /// ```
    /// let mut a = PagedSet::new(alloc);
    /// assert!(rt; a.hull().is_empty());
    /// assert!(rt; a.insert(1)? && a.insert(5)?);
    /// assert!(rt; a.hull() == Interval::new(1, 5));
    /// ```
    pub fn hull(&self) -> Interval<B>
        // The result is the least interval that holds all members.
        ensures { IsHullOf result (Covers self.now) }
    {
        let count = self.pages.len();
        if count == 0 {
            return Interval::empty();
        }
        let lower = self.pages.head(0);
        Interval::new(lower, self.pages.page(count - 1).set().upper())
    }
}

impl<B: Width> Bounded for PagedSet<B> {
    /// Returns the least member. The caller must ensure that the set is not empty. Check with
    /// `is_empty`. `O(1)`. Does not allocate.
    ///
    /// ```
    /// let list: IntervalSet<i32> = [(1, 2), (5, 6)].to_interval_set(alloc)?;
    /// let a = PagedSet::of_set(&list)?;
    /// assert!(rt; !a.is_empty() && a.lower() == 1);
    /// ```
    fn lower(&self) -> B
        requires { HasSome (Covers self.now) }
        // The result is the least member, which is in the range.
        ensures member { Covers self.now (B.value result) }
        ensures least { (z : ℤ) → Covers self.now z → B.value result ≤ℤ z }
        ensures in_range { IsBetween B.whole (B.value result) }
    {
        self.first().unwrap()
    }

    /// Returns the greatest member. The caller must ensure that the set is not empty. Check with
    /// `is_empty`. `O(1)`. Does not allocate.
    ///
    /// ```
    /// let list: IntervalSet<i32> = [(1, 2), (5, 6)].to_interval_set(alloc)?;
    /// let a = PagedSet::of_set(&list)?;
    /// assert!(rt; !a.is_empty() && a.upper() == 6);
    /// ```
    fn upper(&self) -> B
        requires { HasSome (Covers self.now) }
        // The result is the greatest member, which is in the range.
        ensures member { Covers self.now (B.value result) }
        ensures greatest { (z : ℤ) → Covers self.now z → z ≤ℤ B.value result }
        ensures in_range { IsBetween B.whole (B.value result) }
    {
        self.last().unwrap()
    }
}
