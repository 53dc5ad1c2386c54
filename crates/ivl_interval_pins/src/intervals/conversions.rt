//! Conversions of values to intervals.
ghost use Rattle.std.specs.Prelude.{◌≡◌, ◌≤ℤ◌};
ghost use Rattle.std.specs.Range.{range_inclusive_end, range_inclusive_start};
ghost use Rattle.ivl_laws.specs.Sets.{HasNone, IsBetween, IsInRange, SameMembers};

use crate::callers::cuts::to_interval_by_bound;
use ivl_interval::interval::Interval;
use ivl_interval::width::Width;
use std::ops::{RangeFrom, RangeInclusive, RangeToInclusive};

/// Returns an interval with the same numbers.
pub fn interval_of_interval<B: Width>(a: Interval<B>) -> Interval<B>
    ensures { SameMembers (IsBetween result) (IsBetween a) }
{
    to_interval_by_bound(a)
}

/// Returns an empty interval.
pub fn interval_of_nothing<B: Width>() -> Interval<B>
    ensures { HasNone (IsBetween result) }
{
    to_interval_by_bound(())
}

/// Returns the pair of the value with itself.
pub fn interval_of_value<B: Width>(x: B) -> Interval<B>
    requires { IsBetween B.whole (B.value x) }
    ensures { result ≡ (B.value x, B.value x) }
{
    to_interval_by_bound(x)
}

/// Returns the numbers from the first value to the second.
pub fn interval_of_pair<B: Width>(lb: B, ub: B) -> Interval<B>
    requires { IsInRange B.whole (B.value lb, B.value ub) }
    ensures members { SameMembers (IsBetween result) (IsBetween (B.value lb, B.value ub)) }
    ensures bounds { B.value lb ≤ℤ B.value ub → result ≡ (B.value lb, B.value ub) }
{
    to_interval_by_bound((lb, ub))
}

/// Returns the numbers from the start to the end.
pub fn interval_of_range<B: Width>(range: RangeInclusive<B>) -> Interval<B>
    requires { IsInRange B.whole (B.value (range_inclusive_start range), B.value (range_inclusive_end range)) }
    ensures { SameMembers (IsBetween result) (IsBetween (B.value (range_inclusive_start range), B.value (range_inclusive_end range))) }
{
    to_interval_by_bound(range)
}

/// Returns the pair of the start and the greatest number of the range.
pub fn interval_of_range_from<B: Width>(range: RangeFrom<B>) -> Interval<B>
    requires { IsBetween B.whole (B.value range.start) }
    ensures { result ≡ (B.value range.start, B.whole.1) }
{
    to_interval_by_bound(range)
}

/// Returns the pair of the least number of the range and the end.
pub fn interval_of_range_to<B: Width>(range: RangeToInclusive<B>) -> Interval<B>
    requires { IsBetween B.whole (B.value range.end) }
    ensures { result ≡ (B.whole.0, B.value range.end) }
{
    to_interval_by_bound(range)
}
