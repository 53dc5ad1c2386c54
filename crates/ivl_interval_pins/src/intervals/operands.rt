//! Operands of arithmetic may be owned or borrowed: the results are equal intervals.
ghost use Rattle.std.specs.Prelude.{IsTrue};
ghost use Rattle.ivl_laws.specs.Sets.{Differences, ExactProducts, IsBetween, IsSubset, Only, SameMembers, Sums};

use crate::callers::arithmetic as callers;
use ivl_interval::interval::Interval;
use ivl_interval::width::Width;

/// True, for two intervals of the same members.
fn equal<B: Width>(a: Interval<B>, b: Interval<B>) -> bool
    requires { SameMembers (IsBetween a) (IsBetween b) }
    ensures { IsTrue result }
{
    a == b
}

/// Returns true: the forms of the sums of two intervals are equal.
pub fn sums_agree<B: Width>(a: Interval<B>, b: Interval<B>) -> bool
    requires { IsSubset (Sums (IsBetween a) (IsBetween b)) (IsBetween B.whole) }
    ensures { IsTrue result }
{
    let owned = callers::sum_by_bound(a, b);
    equal(owned, callers::sum_by_bound(a, &b))
        && equal(owned, callers::sum_by_bound(&a, b))
        && equal(owned, callers::sum_by_bound(&a, &b))
}

/// Returns true: the forms of the sums of an interval and a value are equal.
pub fn sums_with_value_agree<B: Width>(a: Interval<B>, x: B) -> bool
    requires { IsSubset (Sums (IsBetween a) (Only (B.value x))) (IsBetween B.whole) }
    ensures { IsTrue result }
{
    let owned = callers::sum_by_bound(a, x);
    equal(owned, callers::sum_by_bound(a, &x))
        && equal(owned, callers::sum_by_bound(&a, x))
        && equal(owned, callers::sum_by_bound(&a, &x))
}

/// Returns true: the forms of the differences of two intervals are equal.
pub fn differences_agree<B: Width>(a: Interval<B>, b: Interval<B>) -> bool
    requires { IsSubset (Differences (IsBetween a) (IsBetween b)) (IsBetween B.whole) }
    ensures { IsTrue result }
{
    let owned = callers::difference_by_bound(a, b);
    equal(owned, callers::difference_by_bound(a, &b))
        && equal(owned, callers::difference_by_bound(&a, b))
        && equal(owned, callers::difference_by_bound(&a, &b))
}

/// Returns true: the forms of the differences of an interval and a value are equal.
pub fn differences_with_value_agree<B: Width>(a: Interval<B>, x: B) -> bool
    requires { IsSubset (Differences (IsBetween a) (Only (B.value x))) (IsBetween B.whole) }
    ensures { IsTrue result }
{
    let owned = callers::difference_by_bound(a, x);
    equal(owned, callers::difference_by_bound(a, &x))
        && equal(owned, callers::difference_by_bound(&a, x))
        && equal(owned, callers::difference_by_bound(&a, &x))
}

/// Returns true: the forms of the products of two intervals are equal.
pub fn products_agree<B: Width>(a: Interval<B>, b: Interval<B>) -> bool
    requires { IsSubset (ExactProducts (IsBetween a) (IsBetween b)) (IsBetween B.whole) }
    ensures { IsTrue result }
{
    let owned = callers::product_by_bound(a, b);
    equal(owned, callers::product_by_bound(a, &b))
        && equal(owned, callers::product_by_bound(&a, b))
        && equal(owned, callers::product_by_bound(&a, &b))
}

/// Returns true: the forms of the products of an interval and a value are equal.
pub fn products_with_value_agree<B: Width>(a: Interval<B>, x: B) -> bool
    requires { IsSubset (ExactProducts (IsBetween a) (Only (B.value x))) (IsBetween B.whole) }
    ensures { IsTrue result }
{
    let owned = callers::product_by_bound(a, x);
    equal(owned, callers::product_by_bound(a, &x))
        && equal(owned, callers::product_by_bound(&a, x))
        && equal(owned, callers::product_by_bound(&a, &x))
}
