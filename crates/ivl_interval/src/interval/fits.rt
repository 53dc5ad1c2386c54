//! Whether the results of arithmetic are in the range.
//!
//! Each call makes a few tests of the bounds, since the least and the greatest result are results
//! of bounds. With an empty interval each call returns true. The original has no such calls.
ghost use Rattle.std.specs.Prelude.{◌↔◌, ◌+ℤ◌, ◌-ℤ◌, ◌*ℤ◌, IsTrue};
ghost use Rattle.ivl_laws.specs.Sets.{IsBetween, Only};

use crate::interval::Interval;
use crate::ops::{Fits, IsEmpty};
use crate::width::Width;

impl<B: Width> Fits<Interval<B>> for Interval<B> {
    ghost whole = { B.whole };

    ghost members = { IsBetween };

    ghost other_members = { IsBetween };

    /// Returns true exactly when `self + other` may be called.
    ///
    /// ```
    /// let a = Interval::new(100i8, 100);
    /// assert!(rt; a.fits_add(&Interval::new(27, 27)) && !a.fits_add(&Interval::new(28, 28)));
    /// ```
    fn fits_add(&self, other: &Interval<B>) -> bool {
        if self.is_empty() || other.is_empty() {
            return true;
        }
        has_sum(self.lb, other.lb) && has_sum(self.ub, other.ub)
    }

    /// Returns true exactly when `self - other` may be called.
    ///
    /// ```
    /// let a = Interval::new(3u8, 5);
    /// assert!(rt; a.fits_sub(&Interval::new(0, 3)) && !a.fits_sub(&Interval::new(0, 4)));
    /// ```
    fn fits_sub(&self, other: &Interval<B>) -> bool {
        if self.is_empty() || other.is_empty() {
            return true;
        }
        has_difference(self.lb, other.ub) && has_difference(self.ub, other.lb)
    }

    /// Returns true exactly when `self * other` may be called.
    ///
    /// ```
    /// let a = Interval::new(-2i8, 3);
    /// assert!(rt; a.fits_mul(&Interval::new(0, 42)) && !a.fits_mul(&Interval::new(0, 43)));
    /// ```
    fn fits_mul(&self, other: &Interval<B>) -> bool {
        if self.is_empty() || other.is_empty() {
            return true;
        }
        has_products(self.lb, other) && has_products(self.ub, other)
    }
}

impl<B: Width> Fits<B> for Interval<B> {
    ghost whole = { B.whole };

    ghost members = { IsBetween };

    ghost other_members = { λ x. Only (B.value x) };

    /// Returns true exactly when `self + *other` may be called; `other` may be outside the range.
    ///
    /// ```
    /// let a = Interval::new(1i8, 5);
    /// assert!(rt; a.fits_add(&-128) && !a.fits_add(&127));
    /// ```
    fn fits_add(&self, other: &B) -> bool {
        if self.is_empty() {
            return true;
        }
        has_sum(self.lb, *other) && has_sum(self.ub, *other)
    }

    /// Returns true exactly when `self - *other` may be called; `other` may be outside the range.
    ///
    /// ```
    /// let a = Interval::new(3u8, 5);
    /// assert!(rt; a.fits_sub(&3) && !a.fits_sub(&4));
    /// ```
    fn fits_sub(&self, other: &B) -> bool {
        if self.is_empty() {
            return true;
        }
        has_difference(self.lb, *other) && has_difference(self.ub, *other)
    }

    /// Returns true exactly when `self * *other` may be called; `other` may be outside the range.
    ///
    /// ```
    /// let a = Interval::new(1i8, 64);
    /// assert!(rt; a.fits_mul(&1) && !a.fits_mul(&2));
    /// ```
    fn fits_mul(&self, other: &B) -> bool {
        if self.is_empty() {
            return true;
        }
        has_product(self.lb, *other) && has_product(self.ub, *other)
    }
}

fn has_sum<B: Width>(x: B, y: B) -> bool
    ensures { IsTrue result ↔ IsBetween B.whole (B.value x +ℤ B.value y) }
{
    x.checked_add(y).is_some()
}

fn has_difference<B: Width>(x: B, y: B) -> bool
    ensures { IsTrue result ↔ IsBetween B.whole (B.value x -ℤ B.value y) }
{
    x.checked_sub(y).is_some()
}

fn has_product<B: Width>(x: B, y: B) -> bool
    ensures { IsTrue result ↔ IsBetween B.whole (B.value x *ℤ B.value y) }
{
    x.checked_mul(y).is_some()
}

/// The products of a value and both bounds are in the range.
fn has_products<B: Width>(x: B, b: &Interval<B>) -> bool
    ensures { IsTrue result ↔ (IsBetween B.whole (B.value x *ℤ b.now.0) × IsBetween B.whole (B.value x *ℤ b.now.1)) }
{
    has_product(x, b.lb) && has_product(x, b.ub)
}
