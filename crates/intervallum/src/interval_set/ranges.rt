//! Sets from the ranges of std that have bounds of their own: `a..=b`, `a..` and `..=b`.
ghost use Rattle.std.specs.Prelude.{◌↔◌, ◌∷◌, [], All, IfOk, IsTrue, map};
ghost use Rattle.std.specs.Range.{range_inclusive_end, range_inclusive_start};
ghost use Rattle.ivl_laws.specs.Sets.{IsBetween, IsInRange};
ghost use Rattle.ivl_laws.specs.Runs.{Covers, IsRunsOf};

use super::IntervalSet;
use super::conversions::ToIntervalSet;
use crate::interval::Interval;
use crate::ops::{Contains, Range, ToInterval, Whole};
use crate::sweep::coalesce;
use crate::width::Width;
use std::alloc::{AllocError, Global};
use std::ops::{RangeFrom, RangeInclusive, RangeToInclusive};

impl<B: Width> ToIntervalSet<B> for RangeInclusive<B> {
    ghost can_convert = { λ range. IsInRange B.whole (B.value (range_inclusive_start range), B.value (range_inclusive_end range)) };

    ghost pairs = { λ range. (B.value (range_inclusive_start range), B.value (range_inclusive_end range)) ∷ [] };

    /// Returns true exactly when `Interval::in_range` is true of the start and the end. `O(1)`.
    fn in_range(&self) -> bool {
        is_in_range(self)
    }

    /// Returns the set of the numbers from the start to the end of `a..=b`, which is empty if
    /// `a > b`. A range that an iteration has used up still has its end. `O(1)`. Allocates one run,
    /// or nothing for an empty range. Fails only if allocation fails.
    ///
    /// ```
    /// assert!(rt; (1..=5).to_interval_set(alloc)? == IntervalSet::new(alloc, 1, 5)?);
    /// let none: IntervalSet<i32> = (5..=3).to_interval_set(alloc)?;
    /// assert!(rt; none.is_empty());
    /// ```
    fn to_interval_set(self, alloc: Global) -> Result<IntervalSet<B>, AllocError> {
        let interval: Interval<B> = self.to_interval();
        interval.to_interval_set(alloc)
    }
}

impl<B: Width> ToIntervalSet<B> for RangeFrom<B> {
    ghost can_convert = { λ range. IsBetween B.whole (B.value range.start) };

    ghost pairs = { λ range. (B.value range.start, B.whole.1) ∷ [] };

    /// Returns true exactly when the start is in the range of its type. `O(1)`.
    fn in_range(&self) -> bool {
        Interval::whole().contains(&self.start)
    }

    /// Returns the set of the numbers from the start of `a..` to the greatest value of the range.
    /// `O(1)`. Allocates one run. Fails only if allocation fails.
    ///
    /// ```
    /// assert!(rt; (250u8..).to_interval_set(alloc)? == IntervalSet::new(alloc, 250, 254)?);
    /// ```
    fn to_interval_set(self, alloc: Global) -> Result<IntervalSet<B>, AllocError> {
        let interval: Interval<B> = self.to_interval();
        interval.to_interval_set(alloc)
    }
}

impl<B: Width> ToIntervalSet<B> for RangeToInclusive<B> {
    ghost can_convert = { λ range. IsBetween B.whole (B.value range.end) };

    ghost pairs = { λ range. (B.whole.0, B.value range.end) ∷ [] };

    /// Returns true exactly when the end is in the range of its type. `O(1)`.
    fn in_range(&self) -> bool {
        Interval::whole().contains(&self.end)
    }

    /// Returns the set of the numbers from the least value of the range to the end of `..=b`.
    /// `O(1)`. Allocates one run. Fails only if allocation fails.
    ///
    /// ```
    /// assert!(rt; (..=5u8).to_interval_set(alloc)? == IntervalSet::new(alloc, 0, 5)?);
    /// ```
    fn to_interval_set(self, alloc: Global) -> Result<IntervalSet<B>, AllocError> {
        let interval: Interval<B> = self.to_interval();
        interval.to_interval_set(alloc)
    }
}

impl<B: Width> ToIntervalSet<B> for &[RangeInclusive<B>] {
    ghost can_convert = { λ s. All (λ range. IsInRange B.whole (B.value (range_inclusive_start range), B.value (range_inclusive_end range))) s.now };

    ghost pairs = { λ s. map (λ range. (B.value (range_inclusive_start range), B.value (range_inclusive_end range))) s.now };

    /// Returns true exactly when `Interval::in_range` is true of the start and the end of each range.
    /// `O(n)` for `n` ranges.
    fn in_range(&self) -> bool {
        are_in_range(self)
    }

    /// Returns the set of the numbers of every range, in any order; one whose start is above its end
    /// adds nothing. The ranges are unchanged. `O(n log n)` for `n` ranges. Needs memory
    /// as `coalesce` does. Fails only if allocation fails.
    fn to_interval_set(self, alloc: Global) -> Result<IntervalSet<B>, AllocError> {
        of_ranges(alloc, self)
    }
}

impl<B: Width> ToIntervalSet<B> for Vec<RangeInclusive<B>> {
    ghost can_convert = { λ v. All (λ range. IsInRange B.whole (B.value (range_inclusive_start range), B.value (range_inclusive_end range))) v.items };

    ghost pairs = { λ v. map (λ range. (B.value (range_inclusive_start range), B.value (range_inclusive_end range))) v.items };

    /// Returns true exactly when `Interval::in_range` is true of the start and the end of each range.
    /// `O(n)` for `n` ranges.
    fn in_range(&self) -> bool {
        are_in_range(self.as_slice())
    }

    /// Returns the set of the numbers of every range, in any order; one whose start is above its end
    /// adds nothing. The vector is consumed. `O(n log n)` for `n` ranges. Needs memory
    /// as `coalesce` does. Fails only if allocation fails.
    fn to_interval_set(self, alloc: Global) -> Result<IntervalSet<B>, AllocError> {
        of_ranges(alloc, self.as_slice())
    }
}

impl<B: Width, const N: usize> ToIntervalSet<B> for [RangeInclusive<B>; N] {
    ghost can_convert = { λ a. All (λ range. IsInRange B.whole (B.value (range_inclusive_start range), B.value (range_inclusive_end range))) a };

    ghost pairs = { λ a. map (λ range. (B.value (range_inclusive_start range), B.value (range_inclusive_end range))) a };

    /// Returns true exactly when `Interval::in_range` is true of the start and the end of each range.
    /// `O(n)` for `n` ranges.
    fn in_range(&self) -> bool {
        are_in_range(self)
    }

    /// Returns the set of the numbers of every range, in any order; one whose start is above its end
    /// adds nothing. `O(n log n)` for `n` ranges. Needs memory as `coalesce` does. Fails only
    /// if allocation fails.
    ///
    /// ```
    /// let hours = [12..=13u8, 8..=11].to_interval_set(alloc)?;
    /// assert!(rt; hours == IntervalSet::new(alloc, 8, 13)?);
    /// ```
    fn to_interval_set(self, alloc: Global) -> Result<IntervalSet<B>, AllocError> {
        of_ranges(alloc, &self)
    }
}

/// The start and the end are bounds of an interval.
fn is_in_range<B: Width>(range: &RangeInclusive<B>) -> bool
    ensures { IsTrue result ↔ IsInRange B.whole (B.value (range_inclusive_start range.now), B.value (range_inclusive_end range.now)) }
{
    Interval::in_range(*range.start(), *range.end())
}

/// The start and the end of each range are bounds of an interval.
fn are_in_range<B: Width>(ranges: &[RangeInclusive<B>]) -> bool
    ensures { IsTrue result ↔ All (λ range. IsInRange B.whole (B.value (range_inclusive_start range), B.value (range_inclusive_end range))) ranges.now }
{
    ranges.iter().all(|range| is_in_range(range))
}

/// The set of the numbers of ranges in any order.
fn of_ranges<B: Width>(
    alloc: Global,
    ranges: &[RangeInclusive<B>],
) -> Result<IntervalSet<B>, AllocError>
    requires { All (λ range. IsInRange B.whole (B.value (range_inclusive_start range), B.value (range_inclusive_end range))) ranges.now }
    ensures { IfOk result (λ L. IsRunsOf L (Covers (map (λ range. (B.value (range_inclusive_start range), B.value (range_inclusive_end range))) ranges.now))) }
{
    let mut list = Vec::with_capacity(alloc, ranges.len())?;
    for range in ranges {
        list.push_reserved(Interval::new(*range.start(), *range.end()));
    }
    coalesce(alloc, list)
}
