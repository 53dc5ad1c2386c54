//! Callers of arithmetic on sets, and of the tests that its results fit.
ghost use Rattle.std.specs.Prelude.{◌↔◌, IsTrue};
ghost use Rattle.ivl_laws.specs.Sets.{Differences, ExactProducts, IsBetween, IsSubset, Sums};

use ivl_interval::ops::Fits;
use std::ops::{Add, Mul, Sub};

/// Returns true exactly when each sum is in the range.
pub fn fits_add_by_bound<R, T: Fits<R>>(a: &T, b: &R) -> bool
    ensures { IsTrue result ↔ IsSubset (Sums (T.members a.now) (T.other_members b.now)) (IsBetween T.whole) }
{
    a.fits_add(b)
}

/// Returns true exactly when each difference is in the range.
pub fn fits_sub_by_bound<R, T: Fits<R>>(a: &T, b: &R) -> bool
    ensures { IsTrue result ↔ IsSubset (Differences (T.members a.now) (T.other_members b.now)) (IsBetween T.whole) }
{
    a.fits_sub(b)
}

/// Returns true exactly when each product is in the range.
pub fn fits_mul_by_bound<R, T: Fits<R>>(a: &T, b: &R) -> bool
    ensures { IsTrue result ↔ IsSubset (ExactProducts (T.members a.now) (T.other_members b.now)) (IsBetween T.whole) }
{
    a.fits_mul(b)
}

/// Returns what `+` returns.
pub fn sum_by_bound<R, T: Add<R>>(a: T, b: R) -> T::Output
    requires { T.can_add a b }
    ensures { T.add_gives a b result }
{
    a + b
}

/// Returns what `-` returns.
pub fn difference_by_bound<R, T: Sub<R>>(a: T, b: R) -> T::Output
    requires { T.can_sub a b }
    ensures { T.sub_gives a b result }
{
    a - b
}

/// Returns what `*` returns.
pub fn product_by_bound<R, T: Mul<R>>(a: T, b: R) -> T::Output
    requires { T.can_mul a b }
    ensures { T.mul_gives a b result }
{
    a * b
}
