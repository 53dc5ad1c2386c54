//! Operations on an interval and a value that may be absent.
ghost use Rattle.std.specs.Prelude.{◌↔◌, IsTrue, option_map};
ghost use Rattle.ivl_laws.specs.Sets.{HasNone, HasSome, Held, Intersection, IsBetween, IsHullOf, SameMembers, Without};

use crate::callers::pairs as callers;
use ivl_interval::interval::Interval;
use ivl_interval::optional::Optional;
use ivl_interval::width::Width;

/// Returns true exactly when there is no value, or it is not a number of the interval.
pub fn interval_is_disjoint_from_optional<B: Width>(a: &Interval<B>, o: &Optional<B>) -> bool
    ensures { IsTrue result ↔ HasNone (Intersection (IsBetween a.now) (Held (option_map B.value o.now))) }
{
    callers::is_disjoint_by_bound(a, o)
}

/// Returns true exactly when there is a value, and it is a number of the interval.
pub fn interval_overlaps_optional<B: Width>(a: &Interval<B>, o: &Optional<B>) -> bool
    ensures { IsTrue result ↔ HasSome (Intersection (IsBetween a.now) (Held (option_map B.value o.now))) }
{
    callers::overlap_by_bound(a, o)
}

/// Returns the interval of the value alone, or an empty one.
pub fn interval_common_with_optional<B: Width>(a: &Interval<B>, o: &Optional<B>) -> Interval<B>
    ensures { SameMembers (IsBetween result) (Intersection (IsBetween a.now) (Held (option_map B.value o.now))) }
{
    callers::intersection_by_bound(a, o)
}

/// Returns the least interval that holds the other numbers.
pub fn interval_without_optional<B: Width>(a: &Interval<B>, o: &Optional<B>) -> Interval<B>
    ensures { IsHullOf result (Without (IsBetween a.now) (Held (option_map B.value o.now))) }
{
    callers::difference_by_bound(a, o)
}

/// Returns true exactly when there is no value, or it is not a number of the interval.
pub fn optional_is_disjoint<B: Width>(o: &Optional<B>, a: &Interval<B>) -> bool
    ensures { IsTrue result ↔ HasNone (Intersection (Held (option_map B.value o.now)) (IsBetween a.now)) }
{
    callers::is_disjoint_by_bound(o, a)
}

/// Returns true exactly when there is a value, and it is a number of the interval.
pub fn optional_overlaps<B: Width>(o: &Optional<B>, a: &Interval<B>) -> bool
    ensures { IsTrue result ↔ HasSome (Intersection (Held (option_map B.value o.now)) (IsBetween a.now)) }
{
    callers::overlap_by_bound(o, a)
}

/// Returns the value if it is a number of the interval.
pub fn optional_in_common<B: Width>(o: &Optional<B>, a: &Interval<B>) -> Optional<B>
    ensures { SameMembers (Held (option_map B.value result)) (Intersection (Held (option_map B.value o.now)) (IsBetween a.now)) }
{
    callers::intersection_by_bound(o, a)
}

/// Returns the value if it is not a number of the interval.
pub fn optional_without<B: Width>(o: &Optional<B>, a: &Interval<B>) -> Optional<B>
    ensures { SameMembers (Held (option_map B.value result)) (Without (Held (option_map B.value o.now)) (IsBetween a.now)) }
{
    callers::difference_by_bound(o, a)
}
