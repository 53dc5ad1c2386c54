//! Intervals cut at a value, for any value of the type.
ghost use Rattle.ivl_laws.specs.Sets.{Above, AtLeast, AtMost, Below, IsBetween, SameMembers};

use crate::callers::cuts as callers;
use ivl_interval::interval::Interval;
use ivl_interval::width::Width;

/// Returns the numbers from the value on.
pub fn interval_from<B: Width>(a: &Interval<B>, x: B) -> Interval<B>
    ensures { SameMembers (IsBetween result) (AtLeast (B.value x) (IsBetween a.now)) }
{
    callers::shrink_left_by_bound(a, x)
}

/// Returns the numbers up to the value.
pub fn interval_up_to<B: Width>(a: &Interval<B>, x: B) -> Interval<B>
    ensures { SameMembers (IsBetween result) (AtMost (B.value x) (IsBetween a.now)) }
{
    callers::shrink_right_by_bound(a, x)
}

/// Returns the numbers above the value.
pub fn interval_above<B: Width>(a: &Interval<B>, x: B) -> Interval<B>
    ensures { SameMembers (IsBetween result) (Above (B.value x) (IsBetween a.now)) }
{
    callers::strict_shrink_left_by_bound(a, x)
}

/// Returns the numbers below the value.
pub fn interval_below<B: Width>(a: &Interval<B>, x: B) -> Interval<B>
    ensures { SameMembers (IsBetween result) (Below (B.value x) (IsBetween a.now)) }
{
    callers::strict_shrink_right_by_bound(a, x)
}
