//! The ends of a set, and whether the results of arithmetic are in the range.
ghost use Rattle.std.specs.Prelude.{◌↔◌, ◌≤ℤ◌, ℤ, IsTrue, MatchOption};
ghost use Rattle.ivl_laws.specs.Sets.{Differences, ExactProducts, HasNone, HasSome, IsBetween, IsHullOf, IsSubset, Only, Sums};
ghost use Rattle.ivl_laws.specs.Runs.{Covers};

use intervallum::interval::Interval;
use intervallum::interval_set::IntervalSet;
use intervallum::ops::{Bounded, Empty, Singleton};
use intervallum::width::Width;
use ivl_interval_pins::callers::arithmetic as callers;

/// Returns the least number that the runs cover.
pub fn least_of_set<B: Width>(set: &IntervalSet<B>) -> B
    requires { HasSome (Covers set.now) }
    ensures member { Covers set.now (B.value result) }
    ensures least { (z : ℤ) → Covers set.now z → B.value result ≤ℤ z }
{
    set.lower()
}

/// Returns the greatest number that the runs cover.
pub fn greatest_of_set<B: Width>(set: &IntervalSet<B>) -> B
    requires { HasSome (Covers set.now) }
    ensures member { Covers set.now (B.value result) }
    ensures greatest { (z : ℤ) → Covers set.now z → z ≤ℤ B.value result }
{
    set.upper()
}

/// Returns the least number that the runs cover, or `None` if they cover none.
pub fn first_of_set<B: Width>(set: &IntervalSet<B>) -> Option<B>
    ensures { MatchOption result
        (HasNone (Covers set.now))
        (λ x. Covers set.now (B.value x) × ((z : ℤ) → Covers set.now z → B.value x ≤ℤ z)) }
{
    set.first()
}

/// Returns the greatest number that the runs cover, or `None` if they cover none.
pub fn last_of_set<B: Width>(set: &IntervalSet<B>) -> Option<B>
    ensures { MatchOption result
        (HasNone (Covers set.now))
        (λ x. Covers set.now (B.value x) × ((z : ℤ) → Covers set.now z → z ≤ℤ B.value x)) }
{
    set.last()
}

/// Returns the set of the least number that the runs cover, or of none, as an interval.
pub fn first_alone<B: Width>(set: &IntervalSet<B>) -> Interval<B>
    ensures { IsSubset (IsBetween result) (Covers set.now) }
{
    match set.first() {
        Some(x) => Interval::singleton(x),
        None => Interval::empty(),
    }
}

/// Returns the least interval that holds each number that the runs cover.
pub fn hull_of_set<B: Width>(set: &IntervalSet<B>) -> Interval<B>
    ensures { IsHullOf result (Covers set.now) }
{
    set.hull()
}

/// Returns true exactly when each sum is in the range.
pub fn sums_fit<B: Width>(a: &IntervalSet<B>, b: &IntervalSet<B>) -> bool
    ensures { IsTrue result ↔ IsSubset (Sums (Covers a.now) (Covers b.now)) (IsBetween B.whole) }
{
    callers::fits_add_by_bound(a, b)
}

/// Returns true exactly when each difference is in the range.
pub fn differences_fit<B: Width>(a: &IntervalSet<B>, b: &IntervalSet<B>) -> bool
    ensures { IsTrue result ↔ IsSubset (Differences (Covers a.now) (Covers b.now)) (IsBetween B.whole) }
{
    callers::fits_sub_by_bound(a, b)
}

/// Returns true exactly when each product is in the range.
pub fn products_fit<B: Width>(a: &IntervalSet<B>, b: &IntervalSet<B>) -> bool
    ensures { IsTrue result ↔ IsSubset (ExactProducts (Covers a.now) (Covers b.now)) (IsBetween B.whole) }
{
    callers::fits_mul_by_bound(a, b)
}

/// Returns true exactly when each product with a value is in the range; the value itself may be
/// outside the range.
pub fn products_with_value_fit<B: Width>(a: &IntervalSet<B>, x: &B) -> bool
    ensures { IsTrue result ↔ IsSubset (ExactProducts (Covers a.now) (Only (B.value x.now))) (IsBetween B.whole) }
{
    callers::fits_mul_by_bound(a, x)
}

/// Returns true exactly when each sum with a value is in the range; the value itself may be outside
/// the range.
pub fn sums_with_value_fit<B: Width>(a: &IntervalSet<B>, x: &B) -> bool
    ensures { IsTrue result ↔ IsSubset (Sums (Covers a.now) (Only (B.value x.now))) (IsBetween B.whole) }
{
    callers::fits_add_by_bound(a, x)
}

/// Returns true exactly when each difference with a value is in the range; the value itself may be
/// outside the range.
pub fn differences_with_value_fit<B: Width>(a: &IntervalSet<B>, x: &B) -> bool
    ensures { IsTrue result ↔ IsSubset (Differences (Covers a.now) (Only (B.value x.now))) (IsBetween B.whole) }
{
    callers::fits_sub_by_bound(a, x)
}
