//! Sets from intervals in any order, from an iterator over them, and from members in any order.
ghost use Rattle.std.specs.Prelude.{◌≡◌, ◌∷◌, [], ℤ, List, All, IfOk, IsTrue, OnErr, OnOk, map, ⊤};
ghost use Rattle.std.specs.Iterator.{Drains, IsFinite};
ghost use Rattle.ivl_laws.specs.Sets.{IsBetween, Union};
ghost use Rattle.ivl_laws.specs.Runs.{Covers, IsRunsOf};
ghost use Rattle.ivl_laws.specs.Counts.{IsIn};

use super::IntervalSet;
use super::conversions::ToIntervalSet;
use crate::interval::Interval;
use crate::ops::{Singleton, Union};
use crate::sweep::coalesce;
use crate::width::Width;
use std::alloc::{AllocError, Global};

impl<B: Width> ToIntervalSet<B> for Interval<B> {
    ghost can_convert = { λ _. ⊤ };

    ghost pairs = { λ p. p ∷ [] };

    /// Returns true: the bounds of an interval are in the range. `O(1)`.
    fn in_range(&self) -> bool {
        true
    }

    /// Returns the set of the members of the interval, which may be empty, as `IntervalSet::of`
    /// does. `O(1)`. Allocates one run, or nothing for an empty interval. Fails only if allocation
    /// fails.
    ///
    /// ```
    /// let a = Interval::new(1, 2).to_interval_set(alloc)?;
    /// assert!(rt; a == IntervalSet::new(alloc, 1, 2)?);
    /// ```
    fn to_interval_set(self, alloc: Global) -> Result<IntervalSet<B>, AllocError> {
        IntervalSet::of(alloc, self)
    }
}

impl<B: Width> ToIntervalSet<B> for &[Interval<B>] {
    ghost can_convert = { λ _. ⊤ };

    ghost pairs = { λ s. s.now };

    /// Returns true: the bounds of an interval are in the range. `O(1)`.
    fn in_range(&self) -> bool {
        true
    }

    /// Returns the set of the members of every interval, in any order. The intervals are unchanged.
    /// `O(n log n)` for `n` intervals. Needs memory as `coalesce` of a copy does. Fails only if
    /// allocation fails.
    ///
    /// ```
    /// let all = [Interval::new(3, 8), Interval::new(2, 5)];
    /// assert!(rt; all.as_slice().to_interval_set(alloc)? == IntervalSet::new(alloc, 2, 8)?);
    /// ```
    fn to_interval_set(self, alloc: Global) -> Result<IntervalSet<B>, AllocError> {
        of_intervals(alloc, self)
    }
}

impl<B: Width> ToIntervalSet<B> for Vec<Interval<B>> {
    ghost can_convert = { λ _. ⊤ };

    ghost pairs = { λ v. v.items };

    /// Returns true: the bounds of an interval are in the range. `O(1)`.
    fn in_range(&self) -> bool {
        true
    }

    /// Returns the set of the members of every interval, in any order, as `coalesce` does. The
    /// vector is consumed: if its intervals are sorted and apart, the set takes over its memory.
    /// `O(n log n)` for `n` intervals. Fails only if allocation fails.
    fn to_interval_set(self, alloc: Global) -> Result<IntervalSet<B>, AllocError> {
        coalesce(alloc, self)
    }
}

impl<B: Width, const N: usize> ToIntervalSet<B> for [Interval<B>; N] {
    ghost can_convert = { λ _. ⊤ };

    ghost pairs = { λ a. a };

    /// Returns true: the bounds of an interval are in the range. `O(1)`.
    fn in_range(&self) -> bool {
        true
    }

    /// Returns the set of the members of every interval, in any order. `O(n log n)` for `n`
    /// intervals. Needs memory as `coalesce` of a copy does. Fails only if allocation fails.
    ///
    /// ```
    /// let a = [Interval::new(3, 8), Interval::new(2, 5)].to_interval_set(alloc)?;
    /// assert!(rt; a == IntervalSet::new(alloc, 2, 8)?);
    /// ```
    fn to_interval_set(self, alloc: Global) -> Result<IntervalSet<B>, AllocError> {
        of_intervals(alloc, &self)
    }
}

/// The set of the members of intervals in any order, which are copied first.
fn of_intervals<B: Width>(
    alloc: Global,
    intervals: &[Interval<B>],
) -> Result<IntervalSet<B>, AllocError>
    ensures { IfOk result (λ L. IsRunsOf L (Covers intervals.now)) }
{
    coalesce(alloc, Vec::from_slice(alloc, intervals)?)
}

impl<B: Width> IntervalSet<B> {
    /// Returns the set of the members of every interval that an iterator yields, in any order; an
    /// empty interval adds nothing. The caller must ensure that the iterator ends.
    ///
    /// `O(k log k)` for `k` intervals. Needs memory for at most `2 k` runs, plus the spare capacity
    /// of the vector that collects the intervals. Fails only if allocation fails.
    ///
    /// ```
    /// let all = [Interval::new(7, 9), Interval::new(3, 4)];
    /// let a = IntervalSet::collect(alloc, all.iter().copied())?;
    /// assert!(rt; a == [(3, 4), (7, 9)].to_interval_set(alloc)?);
    /// ```
    pub fn collect<I: Iterator<Item = Interval<B>> + Drop>(
        alloc: Global,
        intervals: I,
    ) -> Result<Self, AllocError>
        requires can { I.can_next intervals }
        requires ends { IsFinite (I.remaining intervals) }
        // On success, the members are exactly the numbers of the intervals that the iterator yields until it ends.
        ensures { IfOk result (λ L. (items : List (ℤ × ℤ)) × Drains I.next_gives intervals items × IsRunsOf L (Covers items)) }
    {
        let (at_least, _) = intervals.size_hint();
        let mut list = Vec::with_capacity(alloc, at_least)?;
        list.extend(intervals)?;
        coalesce(alloc, list)
    }

    /// Returns the set of the values of a slice, in any order and with repeats. The caller must
    /// ensure that each is in the range. Check with `Interval::whole().contains(&value)`.
    ///
    /// `O(k log k)` for `k` values. Reserves at most `2 k` runs. Fails only if allocation fails.
    ///
    /// ```
    /// let a = IntervalSet::of_members(alloc, &[5, 2, 1, 2])?;
    /// assert!(rt; a == [(1, 2), (5, 5)].to_interval_set(alloc)?);
    /// ```
    pub fn of_members(alloc: Global, items: &[B]) -> Result<Self, AllocError>
        requires { All (λ x. IsBetween B.whole (B.value x)) items.now }
        // On success, the members are exactly the numbers of the slice.
        ensures { IfOk result (λ L. IsRunsOf L (IsIn (map B.value items.now))) }
    {
        let mut list = Vec::with_capacity(alloc, items.len())?;
        for item in items {
            list.push_reserved(Interval::singleton(*item));
        }
        coalesce(alloc, list)
    }

    /// Adds the values of a slice, in any order and with repeats. The caller must ensure that each
    /// is in the range. Check with `Interval::whole().contains(&value)`.
    ///
    /// `O(k log k + n)` for `k` values. Needs memory for at most `2 k + n` runs at a time.
    ///
    /// # Errors
    ///
    /// Fails only if allocation fails. The set is then unchanged.
    ///
    /// ```
    /// let mut a = IntervalSet::new(alloc, 1, 2)?;
    /// a.extend_members(&[9, 3, 9])?;
    /// assert!(rt; a == [(1, 3), (9, 9)].to_interval_set(alloc)?);
    /// ```
    pub fn extend_members(&mut self, items: &[B]) -> Result<(), AllocError>
        requires { All (λ x. IsBetween B.whole (B.value x)) items.now }
        // On success, exactly the numbers of the slice are added; on an error the set is unchanged.
        ensures ok { OnOk result (IsRunsOf self.new (Union (Covers self.old) (IsIn (map B.value items.now)))) }
        ensures err { OnErr result (self.new ≡ self.old) }
    {
        let added = IntervalSet::of_members(self.allocator(), items)?;
        let all = self.union(&added)?;
        *self = all;
        Ok(())
    }
}
