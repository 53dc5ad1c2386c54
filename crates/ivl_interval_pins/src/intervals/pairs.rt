//! Operations on two intervals.
ghost use Rattle.std.specs.Prelude.{◌↔◌, IsTrue};
ghost use Rattle.ivl_laws.specs.Sets.{HasNone, HasSome, Intersection, IsBetween, IsHullOf, IsProperSubset, IsSubset, SameMembers, Union, Without};
ghost use Rattle.ivl_interval.specs.Kleene.{IsEntailmentOf};

use crate::callers::pairs as callers;
use ivl_interval::interval::Interval;
use ivl_interval::kleene::SKleene;
use ivl_interval::width::Width;

/// Returns true exactly when no number lies between those of both pairs.
pub fn intervals_are_disjoint<B: Width>(a: &Interval<B>, b: &Interval<B>) -> bool
    ensures { IsTrue result ↔ HasNone (Intersection (IsBetween a.now) (IsBetween b.now)) }
{
    callers::is_disjoint_by_bound(a, b)
}

/// Returns true exactly when some number lies between those of both pairs.
pub fn intervals_overlap<B: Width>(a: &Interval<B>, b: &Interval<B>) -> bool
    ensures { IsTrue result ↔ HasSome (Intersection (IsBetween a.now) (IsBetween b.now)) }
{
    callers::overlap_by_bound(a, b)
}

/// Returns the numbers that lie between those of both pairs.
pub fn intervals_in_common<B: Width>(a: &Interval<B>, b: &Interval<B>) -> Interval<B>
    ensures { SameMembers (IsBetween result) (Intersection (IsBetween a.now) (IsBetween b.now)) }
{
    callers::intersection_by_bound(a, b)
}

/// Returns the least interval that holds the numbers of the one that are not in the other.
pub fn interval_without<B: Width>(a: &Interval<B>, b: &Interval<B>) -> Interval<B>
    ensures { IsHullOf result (Without (IsBetween a.now) (IsBetween b.now)) }
{
    callers::difference_by_bound(a, b)
}

/// Returns the least interval that holds the numbers of both.
pub fn hull_of_intervals<B: Width>(a: &Interval<B>, b: &Interval<B>) -> Interval<B>
    ensures { IsHullOf result (Union (IsBetween a.now) (IsBetween b.now)) }
{
    callers::hull_by_bound(a, b)
}

/// Returns true exactly when each number of the one is a number of the other.
pub fn interval_is_subset<B: Width>(a: &Interval<B>, b: &Interval<B>) -> bool
    ensures { IsTrue result ↔ IsSubset (IsBetween a.now) (IsBetween b.now) }
{
    callers::is_subset_by_bound(a, b)
}

/// Returns true exactly when each number of the one is a number of the other, and the other has
/// more.
pub fn interval_is_proper_subset<B: Width>(a: &Interval<B>, b: &Interval<B>) -> bool
    ensures { IsTrue result ↔ IsProperSubset (IsBetween a.now) (IsBetween b.now) }
{
    callers::is_proper_subset_by_bound(a, b)
}

/// Returns the numbers of both.
pub fn join_of_intervals<B: Width>(a: Interval<B>, b: Interval<B>) -> Interval<B>
    ensures { SameMembers (IsBetween result) (Intersection (IsBetween a) (IsBetween b)) }
{
    callers::join_by_bound(a, b)
}

/// Returns the least interval that holds the numbers of both.
pub fn meet_of_intervals<B: Width>(a: Interval<B>, b: Interval<B>) -> Interval<B>
    ensures { IsHullOf result (Union (IsBetween a) (IsBetween b)) }
{
    callers::meet_by_bound(a, b)
}

/// Returns inclusion one way, or else the other, or neither.
pub fn interval_entails<B: Width>(a: &Interval<B>, b: &Interval<B>) -> SKleene
    ensures { IsEntailmentOf (IsBetween a.now) (IsBetween b.now) result }
{
    callers::entail_by_bound(a, b)
}
