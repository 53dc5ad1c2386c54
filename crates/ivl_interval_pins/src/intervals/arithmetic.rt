//! Sums, differences and products of intervals, in each form of their operands.
ghost use Rattle.std.specs.Prelude.{◌↔◌, IsTrue};
ghost use Rattle.ivl_laws.specs.Sets.{Differences, ExactProducts, IsBetween, IsHullOf, IsSubset, Only, SameMembers, Sums};

use crate::callers::arithmetic as callers;
use ivl_interval::interval::Interval;
use ivl_interval::width::Width;

/// Returns true exactly when each sum is in the range.
pub fn sums_fit<B: Width>(a: &Interval<B>, b: &Interval<B>) -> bool
    ensures { IsTrue result ↔ IsSubset (Sums (IsBetween a.now) (IsBetween b.now)) (IsBetween B.whole) }
{
    callers::fits_add_by_bound(a, b)
}

/// Returns true exactly when each difference is in the range.
pub fn differences_fit<B: Width>(a: &Interval<B>, b: &Interval<B>) -> bool
    ensures { IsTrue result ↔ IsSubset (Differences (IsBetween a.now) (IsBetween b.now)) (IsBetween B.whole) }
{
    callers::fits_sub_by_bound(a, b)
}

/// Returns true exactly when each product is in the range.
pub fn products_fit<B: Width>(a: &Interval<B>, b: &Interval<B>) -> bool
    ensures { IsTrue result ↔ IsSubset (ExactProducts (IsBetween a.now) (IsBetween b.now)) (IsBetween B.whole) }
{
    callers::fits_mul_by_bound(a, b)
}

/// Returns true exactly when each sum with the value is in the range.
pub fn sums_with_value_fit<B: Width>(a: &Interval<B>, x: &B) -> bool
    ensures { IsTrue result ↔ IsSubset (Sums (IsBetween a.now) (Only (B.value x.now))) (IsBetween B.whole) }
{
    callers::fits_add_by_bound(a, x)
}

/// Returns true exactly when each difference from the value is in the range.
pub fn differences_with_value_fit<B: Width>(a: &Interval<B>, x: &B) -> bool
    ensures { IsTrue result ↔ IsSubset (Differences (IsBetween a.now) (Only (B.value x.now))) (IsBetween B.whole) }
{
    callers::fits_sub_by_bound(a, x)
}

/// Returns true exactly when each product with the value is in the range.
pub fn products_with_value_fit<B: Width>(a: &Interval<B>, x: &B) -> bool
    ensures { IsTrue result ↔ IsSubset (ExactProducts (IsBetween a.now) (Only (B.value x.now))) (IsBetween B.whole) }
{
    callers::fits_mul_by_bound(a, x)
}

/// Returns the sums of a number of each.
pub fn sum_of_intervals<B: Width>(a: Interval<B>, b: Interval<B>) -> Interval<B>
    requires { IsSubset (Sums (IsBetween a) (IsBetween b)) (IsBetween B.whole) }
    ensures { SameMembers (IsBetween result) (Sums (IsBetween a) (IsBetween b)) }
{
    callers::sum_by_bound(a, b)
}

/// Returns the sums of a number and the value.
pub fn sum_with_value<B: Width>(a: Interval<B>, x: B) -> Interval<B>
    requires { IsSubset (Sums (IsBetween a) (Only (B.value x))) (IsBetween B.whole) }
    ensures { SameMembers (IsBetween result) (Sums (IsBetween a) (Only (B.value x))) }
{
    callers::sum_by_bound(a, x)
}

/// Returns the differences of a number of each.
pub fn difference_of_intervals<B: Width>(a: Interval<B>, b: Interval<B>) -> Interval<B>
    requires { IsSubset (Differences (IsBetween a) (IsBetween b)) (IsBetween B.whole) }
    ensures { SameMembers (IsBetween result) (Differences (IsBetween a) (IsBetween b)) }
{
    callers::difference_by_bound(a, b)
}

/// Returns the differences of a number and the value.
pub fn difference_with_value<B: Width>(a: Interval<B>, x: B) -> Interval<B>
    requires { IsSubset (Differences (IsBetween a) (Only (B.value x))) (IsBetween B.whole) }
    ensures { SameMembers (IsBetween result) (Differences (IsBetween a) (Only (B.value x))) }
{
    callers::difference_by_bound(a, x)
}

/// Returns the least interval that holds the products of a number of each.
pub fn product_of_intervals<B: Width>(a: Interval<B>, b: Interval<B>) -> Interval<B>
    requires { IsSubset (ExactProducts (IsBetween a) (IsBetween b)) (IsBetween B.whole) }
    ensures { IsHullOf result (ExactProducts (IsBetween a) (IsBetween b)) }
{
    callers::product_by_bound(a, b)
}

/// Returns the least interval that holds the products of a number and the value.
pub fn product_with_value<B: Width>(a: Interval<B>, x: B) -> Interval<B>
    requires { IsSubset (ExactProducts (IsBetween a) (Only (B.value x))) (IsBetween B.whole) }
    ensures { IsHullOf result (ExactProducts (IsBetween a) (Only (B.value x))) }
{
    callers::product_by_bound(a, x)
}
