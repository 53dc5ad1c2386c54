//! Operations on an interval and a value, for any value of the type.
ghost use Rattle.std.specs.Prelude.{◌↔◌, IsTrue};
ghost use Rattle.ivl_laws.specs.Sets.{HasNone, HasSome, Intersection, IsBetween, IsHullOf, Only, SameMembers, Union, Without};

use crate::callers::pairs as callers;
use ivl_interval::interval::Interval;
use ivl_interval::width::Width;

/// Returns true exactly when the value is not a number of the interval.
pub fn interval_is_disjoint_from_value<B: Width>(a: &Interval<B>, x: &B) -> bool
    ensures { IsTrue result ↔ HasNone (Intersection (IsBetween a.now) (Only (B.value x.now))) }
{
    callers::is_disjoint_by_bound(a, x)
}

/// Returns true exactly when the value is a number of the interval.
pub fn interval_overlaps_value<B: Width>(a: &Interval<B>, x: &B) -> bool
    ensures { IsTrue result ↔ HasSome (Intersection (IsBetween a.now) (Only (B.value x.now))) }
{
    callers::overlap_by_bound(a, x)
}

/// Returns the interval of the value alone, or an empty one.
pub fn interval_common_with_value<B: Width>(a: &Interval<B>, x: &B) -> Interval<B>
    ensures { SameMembers (IsBetween result) (Intersection (IsBetween a.now) (Only (B.value x.now))) }
{
    callers::intersection_by_bound(a, x)
}

/// Returns the least interval that holds the other numbers.
pub fn interval_without_value<B: Width>(a: &Interval<B>, x: &B) -> Interval<B>
    ensures { IsHullOf result (Without (IsBetween a.now) (Only (B.value x.now))) }
{
    callers::difference_by_bound(a, x)
}

/// Returns the least interval that holds the numbers and the value, which must be in the range.
pub fn hull_with_value<B: Width>(a: &Interval<B>, x: &B) -> Interval<B>
    requires { IsBetween B.whole (B.value x.now) }
    ensures { IsHullOf result (Union (IsBetween a.now) (Only (B.value x.now))) }
{
    callers::hull_by_bound(a, x)
}

/// Returns true exactly when the value is not a number of the interval.
pub fn value_is_disjoint<B: Width>(x: &B, a: &Interval<B>) -> bool
    ensures { IsTrue result ↔ HasNone (Intersection (Only (B.value x.now)) (IsBetween a.now)) }
{
    callers::is_disjoint_by_bound(x, a)
}

/// Returns true exactly when the value is a number of the interval.
pub fn value_overlaps<B: Width>(x: &B, a: &Interval<B>) -> bool
    ensures { IsTrue result ↔ HasSome (Intersection (Only (B.value x.now)) (IsBetween a.now)) }
{
    callers::overlap_by_bound(x, a)
}

/// Returns the least interval that holds the value, which must be in the range, and the numbers.
pub fn hull_of_value<B: Width>(x: &B, a: &Interval<B>) -> Interval<B>
    requires { IsBetween B.whole (B.value x.now) }
    ensures { IsHullOf result (Union (Only (B.value x.now)) (IsBetween a.now)) }
{
    callers::hull_by_bound(x, a)
}
