//! Sums, differences and products of intervals, and of an interval with a value.
//!
//! Each operand is owned or borrowed. The caller must ensure that the results of each call are in
//! the range: check with `fits_add`, `fits_sub` and `fits_mul`. With an empty operand this always
//! holds, and the result is empty. The value itself may be outside the range: `[1..5] + (-128i8)`
//! is allowed.
ghost use Rattle.std.specs.Prelude.{◌≡◌, ◌+ℤ◌, ◌-ℤ◌, ◌*ℤ◌};
ghost use Rattle.ivl_laws.specs.Sets.{Differences, ExactProducts, IsBetween, IsHullOf, IsSubset, Only, SameMembers, Sums};

use crate::interval::Interval;
use crate::ops::{Empty, IsEmpty, Range};
use crate::width::Width;
use std::ops::{Add, Mul, Sub};

/// The sums of a member of each.
fn sums<B: Width>(a: Interval<B>, b: Interval<B>) -> Interval<B>
    requires { IsSubset (Sums (IsBetween a) (IsBetween b)) (IsBetween B.whole) }
    ensures { SameMembers (IsBetween result) (Sums (IsBetween a) (IsBetween b)) }
{
    if a.is_empty() || b.is_empty() {
        return Interval::empty();
    }
    Interval::new(sum(a.lb, b.lb), sum(a.ub, b.ub))
}

/// The sums of a member and the value.
fn sums_with<B: Width>(a: Interval<B>, x: B) -> Interval<B>
    requires { IsSubset (Sums (IsBetween a) (Only (B.value x))) (IsBetween B.whole) }
    ensures { SameMembers (IsBetween result) (Sums (IsBetween a) (Only (B.value x))) }
{
    if a.is_empty() {
        return a;
    }
    Interval::new(sum(a.lb, x), sum(a.ub, x))
}

fn sum<B: Width>(x: B, y: B) -> B
    requires { IsBetween B.whole (B.value x +ℤ B.value y) }
    ensures { B.value result ≡ B.value x +ℤ B.value y }
{
    x.add_in_range(y)
}

/// The differences of a member of each.
fn differences<B: Width>(a: Interval<B>, b: Interval<B>) -> Interval<B>
    requires { IsSubset (Differences (IsBetween a) (IsBetween b)) (IsBetween B.whole) }
    ensures { SameMembers (IsBetween result) (Differences (IsBetween a) (IsBetween b)) }
{
    if a.is_empty() || b.is_empty() {
        return Interval::empty();
    }
    Interval::new(difference(a.lb, b.ub), difference(a.ub, b.lb))
}

/// The differences of a member and the value.
fn differences_with<B: Width>(a: Interval<B>, x: B) -> Interval<B>
    requires { IsSubset (Differences (IsBetween a) (Only (B.value x))) (IsBetween B.whole) }
    ensures { SameMembers (IsBetween result) (Differences (IsBetween a) (Only (B.value x))) }
{
    if a.is_empty() {
        return a;
    }
    Interval::new(difference(a.lb, x), difference(a.ub, x))
}

fn difference<B: Width>(x: B, y: B) -> B
    requires { IsBetween B.whole (B.value x -ℤ B.value y) }
    ensures { B.value result ≡ B.value x -ℤ B.value y }
{
    x.sub_in_range(y)
}

/// The least interval that holds the products of a member of each. Every product lies between two
/// of those of the bounds, whatever the signs are.
fn products<B: Width>(a: Interval<B>, b: Interval<B>) -> Interval<B>
    requires { IsSubset (ExactProducts (IsBetween a) (IsBetween b)) (IsBetween B.whole) }
    ensures { IsHullOf result (ExactProducts (IsBetween a) (IsBetween b)) }
{
    if a.is_empty() || b.is_empty() {
        return Interval::empty();
    }
    let low_low = product(a.lb, b.lb);
    let low_high = product(a.lb, b.ub);
    let high_low = product(a.ub, b.lb);
    let high_high = product(a.ub, b.ub);
    let least = low_low.min(low_high).min(high_low.min(high_high));
    let greatest = low_low.max(low_high).max(high_low.max(high_high));
    Interval::new(least, greatest)
}

/// The least interval that holds the products of a member and the value.
fn products_with<B: Width>(a: Interval<B>, x: B) -> Interval<B>
    requires { IsSubset (ExactProducts (IsBetween a) (Only (B.value x))) (IsBetween B.whole) }
    ensures { IsHullOf result (ExactProducts (IsBetween a) (Only (B.value x))) }
{
    if a.is_empty() {
        return a;
    }
    let low = product(a.lb, x);
    let high = product(a.ub, x);
    Interval::new(low.min(high), low.max(high))
}

fn product<B: Width>(x: B, y: B) -> B
    requires { IsBetween B.whole (B.value x *ℤ B.value y) }
    ensures { B.value result ≡ B.value x *ℤ B.value y }
{
    x.mul_in_range(y)
}

impl<B: Width> Add<Interval<B>> for Interval<B> {
    type Output = Interval<B>;

    ghost can_add = { λ a b. IsSubset (Sums (IsBetween a) (IsBetween b)) (IsBetween B.whole) };

    // The members are exactly the sums of a member of each interval.
    ghost add_gives = { λ a b r. SameMembers (IsBetween r) (Sums (IsBetween a) (IsBetween b)) };

    /// Returns exactly the sums of a member of `self` and a member of `rhs`. The caller must ensure
    /// that the sums are in the range. Check with `fits_add`.
    ///
    /// ```
    /// let (a, b) = (Interval::new(1i32, 2), Interval::new(10, 20));
    /// assert!(rt; a.fits_add(&b));
    /// assert_eq!(rt; a + b, Interval::new(11, 22));
    /// ```
    fn add(self, rhs: Interval<B>) -> Interval<B> {
        sums(self, rhs)
    }
}

impl<B: Width> Add<&Interval<B>> for Interval<B> {
    type Output = Interval<B>;

    ghost can_add = { λ a b. IsSubset (Sums (IsBetween a) (IsBetween b.now)) (IsBetween B.whole) };

    // The members are exactly the sums of a member of each interval.
    ghost add_gives = { λ a b r. SameMembers (IsBetween r) (Sums (IsBetween a) (IsBetween b.now)) };

    /// Returns exactly the sums of a member of `self` and a member of `rhs`. The caller must ensure
    /// that the sums are in the range. Check with `fits_add`.
    fn add(self, rhs: &Interval<B>) -> Interval<B> {
        sums(self, *rhs)
    }
}

impl<B: Width> Add<Interval<B>> for &Interval<B> {
    type Output = Interval<B>;

    ghost can_add = { λ a b. IsSubset (Sums (IsBetween a.now) (IsBetween b)) (IsBetween B.whole) };

    // The members are exactly the sums of a member of each interval.
    ghost add_gives = { λ a b r. SameMembers (IsBetween r) (Sums (IsBetween a.now) (IsBetween b)) };

    /// Returns exactly the sums of a member of `self` and a member of `rhs`. The caller must ensure
    /// that the sums are in the range. Check with `fits_add`.
    fn add(self, rhs: Interval<B>) -> Interval<B> {
        sums(*self, rhs)
    }
}

impl<B: Width> Add<&Interval<B>> for &Interval<B> {
    type Output = Interval<B>;

    ghost can_add = { λ a b. IsSubset (Sums (IsBetween a.now) (IsBetween b.now)) (IsBetween B.whole) };

    // The members are exactly the sums of a member of each interval.
    ghost add_gives = { λ a b r. SameMembers (IsBetween r) (Sums (IsBetween a.now) (IsBetween b.now)) };

    /// Returns exactly the sums of a member of `self` and a member of `rhs`. The caller must ensure
    /// that the sums are in the range. Check with `fits_add`.
    fn add(self, rhs: &Interval<B>) -> Interval<B> {
        sums(*self, *rhs)
    }
}

impl<B: Width> Add<B> for Interval<B> {
    type Output = Interval<B>;

    ghost can_add = { λ a x. IsSubset (Sums (IsBetween a) (Only (B.value x))) (IsBetween B.whole) };

    // The members are exactly the sums of a member and the value.
    ghost add_gives = { λ a x r. SameMembers (IsBetween r) (Sums (IsBetween a) (Only (B.value x))) };

    /// Returns exactly the sums of a member and the value. The caller must ensure that the sums are
    /// in the range. Check with `fits_add`.
    ///
    /// ```
    /// let a = Interval::new(1i32, 2);
    /// assert!(rt; a.fits_add(&3));
    /// assert_eq!(rt; a + 3, Interval::new(4, 5));
    /// ```
    fn add(self, rhs: B) -> Interval<B> {
        sums_with(self, rhs)
    }
}

impl<B: Width> Add<&B> for Interval<B> {
    type Output = Interval<B>;

    ghost can_add = { λ a x. IsSubset (Sums (IsBetween a) (Only (B.value x.now))) (IsBetween B.whole) };

    // The members are exactly the sums of a member and the value.
    ghost add_gives = { λ a x r. SameMembers (IsBetween r) (Sums (IsBetween a) (Only (B.value x.now))) };

    /// Returns exactly the sums of a member and the value. The caller must ensure that the sums are
    /// in the range. Check with `fits_add`.
    fn add(self, rhs: &B) -> Interval<B> {
        sums_with(self, *rhs)
    }
}

impl<B: Width> Add<B> for &Interval<B> {
    type Output = Interval<B>;

    ghost can_add = { λ a x. IsSubset (Sums (IsBetween a.now) (Only (B.value x))) (IsBetween B.whole) };

    // The members are exactly the sums of a member and the value.
    ghost add_gives = { λ a x r. SameMembers (IsBetween r) (Sums (IsBetween a.now) (Only (B.value x))) };

    /// Returns exactly the sums of a member and the value. The caller must ensure that the sums are
    /// in the range. Check with `fits_add`.
    fn add(self, rhs: B) -> Interval<B> {
        sums_with(*self, rhs)
    }
}

impl<B: Width> Add<&B> for &Interval<B> {
    type Output = Interval<B>;

    ghost can_add = { λ a x. IsSubset (Sums (IsBetween a.now) (Only (B.value x.now))) (IsBetween B.whole) };

    // The members are exactly the sums of a member and the value.
    ghost add_gives = { λ a x r. SameMembers (IsBetween r) (Sums (IsBetween a.now) (Only (B.value x.now))) };

    /// Returns exactly the sums of a member and the value. The caller must ensure that the sums are
    /// in the range. Check with `fits_add`.
    fn add(self, rhs: &B) -> Interval<B> {
        sums_with(*self, *rhs)
    }
}

impl<B: Width> Sub<Interval<B>> for Interval<B> {
    type Output = Interval<B>;

    ghost can_sub = { λ a b. IsSubset (Differences (IsBetween a) (IsBetween b)) (IsBetween B.whole) };

    // The members are exactly the differences of a member of `self` and one of `rhs`.
    ghost sub_gives = { λ a b r. SameMembers (IsBetween r) (Differences (IsBetween a) (IsBetween b)) };

    /// Returns exactly the differences of a member of `self` and a member of `rhs`. The caller must
    /// ensure that the differences are in the range. Check with `fits_sub`.
    ///
    /// ```
    /// let (a, b) = (Interval::new(1i32, 2), Interval::new(10, 20));
    /// assert!(rt; a.fits_sub(&b));
    /// assert_eq!(rt; a - b, Interval::new(-19, -8));
    /// ```
    fn sub(self, rhs: Interval<B>) -> Interval<B> {
        differences(self, rhs)
    }
}

impl<B: Width> Sub<&Interval<B>> for Interval<B> {
    type Output = Interval<B>;

    ghost can_sub = { λ a b. IsSubset (Differences (IsBetween a) (IsBetween b.now)) (IsBetween B.whole) };

    // The members are exactly the differences of a member of `self` and one of `rhs`.
    ghost sub_gives = { λ a b r. SameMembers (IsBetween r) (Differences (IsBetween a) (IsBetween b.now)) };

    /// Returns exactly the differences of a member of `self` and a member of `rhs`. The caller must
    /// ensure that the differences are in the range. Check with `fits_sub`.
    fn sub(self, rhs: &Interval<B>) -> Interval<B> {
        differences(self, *rhs)
    }
}

impl<B: Width> Sub<Interval<B>> for &Interval<B> {
    type Output = Interval<B>;

    ghost can_sub = { λ a b. IsSubset (Differences (IsBetween a.now) (IsBetween b)) (IsBetween B.whole) };

    // The members are exactly the differences of a member of `self` and one of `rhs`.
    ghost sub_gives = { λ a b r. SameMembers (IsBetween r) (Differences (IsBetween a.now) (IsBetween b)) };

    /// Returns exactly the differences of a member of `self` and a member of `rhs`. The caller must
    /// ensure that the differences are in the range. Check with `fits_sub`.
    fn sub(self, rhs: Interval<B>) -> Interval<B> {
        differences(*self, rhs)
    }
}

impl<B: Width> Sub<&Interval<B>> for &Interval<B> {
    type Output = Interval<B>;

    ghost can_sub = { λ a b. IsSubset (Differences (IsBetween a.now) (IsBetween b.now)) (IsBetween B.whole) };

    // The members are exactly the differences of a member of `self` and one of `rhs`.
    ghost sub_gives = { λ a b r. SameMembers (IsBetween r) (Differences (IsBetween a.now) (IsBetween b.now)) };

    /// Returns exactly the differences of a member of `self` and a member of `rhs`. The caller must
    /// ensure that the differences are in the range. Check with `fits_sub`.
    fn sub(self, rhs: &Interval<B>) -> Interval<B> {
        differences(*self, *rhs)
    }
}

impl<B: Width> Sub<B> for Interval<B> {
    type Output = Interval<B>;

    ghost can_sub = { λ a x. IsSubset (Differences (IsBetween a) (Only (B.value x))) (IsBetween B.whole) };

    // The members are exactly the differences of a member and the value.
    ghost sub_gives = { λ a x r. SameMembers (IsBetween r) (Differences (IsBetween a) (Only (B.value x))) };

    /// Returns exactly the differences of a member and the value. The caller must ensure that the
    /// differences are in the range. Check with `fits_sub`.
    ///
    /// ```
    /// let a = Interval::new(1i32, 2);
    /// assert!(rt; a.fits_sub(&3));
    /// assert_eq!(rt; a - 3, Interval::new(-2, -1));
    /// ```
    fn sub(self, rhs: B) -> Interval<B> {
        differences_with(self, rhs)
    }
}

impl<B: Width> Sub<&B> for Interval<B> {
    type Output = Interval<B>;

    ghost can_sub = { λ a x. IsSubset (Differences (IsBetween a) (Only (B.value x.now))) (IsBetween B.whole) };

    // The members are exactly the differences of a member and the value.
    ghost sub_gives = { λ a x r. SameMembers (IsBetween r) (Differences (IsBetween a) (Only (B.value x.now))) };

    /// Returns exactly the differences of a member and the value. The caller must ensure that the
    /// differences are in the range. Check with `fits_sub`.
    fn sub(self, rhs: &B) -> Interval<B> {
        differences_with(self, *rhs)
    }
}

impl<B: Width> Sub<B> for &Interval<B> {
    type Output = Interval<B>;

    ghost can_sub = { λ a x. IsSubset (Differences (IsBetween a.now) (Only (B.value x))) (IsBetween B.whole) };

    // The members are exactly the differences of a member and the value.
    ghost sub_gives = { λ a x r. SameMembers (IsBetween r) (Differences (IsBetween a.now) (Only (B.value x))) };

    /// Returns exactly the differences of a member and the value. The caller must ensure that the
    /// differences are in the range. Check with `fits_sub`.
    fn sub(self, rhs: B) -> Interval<B> {
        differences_with(*self, rhs)
    }
}

impl<B: Width> Sub<&B> for &Interval<B> {
    type Output = Interval<B>;

    ghost can_sub = { λ a x. IsSubset (Differences (IsBetween a.now) (Only (B.value x.now))) (IsBetween B.whole) };

    // The members are exactly the differences of a member and the value.
    ghost sub_gives = { λ a x r. SameMembers (IsBetween r) (Differences (IsBetween a.now) (Only (B.value x.now))) };

    /// Returns exactly the differences of a member and the value. The caller must ensure that the
    /// differences are in the range. Check with `fits_sub`.
    fn sub(self, rhs: &B) -> Interval<B> {
        differences_with(*self, *rhs)
    }
}

impl<B: Width> Mul<Interval<B>> for Interval<B> {
    type Output = Interval<B>;

    ghost can_mul = { λ a b. IsSubset (ExactProducts (IsBetween a) (IsBetween b)) (IsBetween B.whole) };

    // The result is the least interval that holds the products of a member of each interval.
    ghost mul_gives = { λ a b r. IsHullOf r (ExactProducts (IsBetween a) (IsBetween b)) };

    /// Returns the least interval that holds the products of a member of each. The caller must
    /// ensure that the products are in the range. Check with `fits_mul`.
    ///
    /// ```
    /// let (a, b) = (Interval::new(1i32, 2), Interval::new(10, 20));
    /// assert!(rt; a.fits_mul(&b));
    /// assert_eq!(rt; a * b, Interval::new(10, 40));
    /// ```
    fn mul(self, rhs: Interval<B>) -> Interval<B> {
        products(self, rhs)
    }
}

impl<B: Width> Mul<&Interval<B>> for Interval<B> {
    type Output = Interval<B>;

    ghost can_mul = { λ a b. IsSubset (ExactProducts (IsBetween a) (IsBetween b.now)) (IsBetween B.whole) };

    // The result is the least interval that holds the products of a member of each interval.
    ghost mul_gives = { λ a b r. IsHullOf r (ExactProducts (IsBetween a) (IsBetween b.now)) };

    /// Returns the least interval that holds the products of a member of each. The caller must
    /// ensure that the products are in the range. Check with `fits_mul`.
    fn mul(self, rhs: &Interval<B>) -> Interval<B> {
        products(self, *rhs)
    }
}

impl<B: Width> Mul<Interval<B>> for &Interval<B> {
    type Output = Interval<B>;

    ghost can_mul = { λ a b. IsSubset (ExactProducts (IsBetween a.now) (IsBetween b)) (IsBetween B.whole) };

    // The result is the least interval that holds the products of a member of each interval.
    ghost mul_gives = { λ a b r. IsHullOf r (ExactProducts (IsBetween a.now) (IsBetween b)) };

    /// Returns the least interval that holds the products of a member of each. The caller must
    /// ensure that the products are in the range. Check with `fits_mul`.
    fn mul(self, rhs: Interval<B>) -> Interval<B> {
        products(*self, rhs)
    }
}

impl<B: Width> Mul<&Interval<B>> for &Interval<B> {
    type Output = Interval<B>;

    ghost can_mul = { λ a b. IsSubset (ExactProducts (IsBetween a.now) (IsBetween b.now)) (IsBetween B.whole) };

    // The result is the least interval that holds the products of a member of each interval.
    ghost mul_gives = { λ a b r. IsHullOf r (ExactProducts (IsBetween a.now) (IsBetween b.now)) };

    /// Returns the least interval that holds the products of a member of each. The caller must
    /// ensure that the products are in the range. Check with `fits_mul`.
    fn mul(self, rhs: &Interval<B>) -> Interval<B> {
        products(*self, *rhs)
    }
}

impl<B: Width> Mul<B> for Interval<B> {
    type Output = Interval<B>;

    ghost can_mul = { λ a x. IsSubset (ExactProducts (IsBetween a) (Only (B.value x))) (IsBetween B.whole) };

    // The result is the least interval that holds the products of a member and the value.
    ghost mul_gives = { λ a x r. IsHullOf r (ExactProducts (IsBetween a) (Only (B.value x))) };

    /// Returns the least interval that holds the products of a member and the value. The caller
    /// must ensure that the products are in the range. Check with `fits_mul`.
    ///
    /// In the original, a negative value crosses the bounds of an interval of several members.
    ///
    /// ```
    /// let a = Interval::new(1i32, 2);
    /// assert!(rt; a.fits_mul(&-3));
    /// assert_eq!(rt; a * -3, Interval::new(-6, -3));
    /// ```
    fn mul(self, rhs: B) -> Interval<B> {
        products_with(self, rhs)
    }
}

impl<B: Width> Mul<&B> for Interval<B> {
    type Output = Interval<B>;

    ghost can_mul = { λ a x. IsSubset (ExactProducts (IsBetween a) (Only (B.value x.now))) (IsBetween B.whole) };

    // The result is the least interval that holds the products of a member and the value.
    ghost mul_gives = { λ a x r. IsHullOf r (ExactProducts (IsBetween a) (Only (B.value x.now))) };

    /// Returns the least interval that holds the products of a member and the value. The caller
    /// must ensure that the products are in the range. Check with `fits_mul`.
    fn mul(self, rhs: &B) -> Interval<B> {
        products_with(self, *rhs)
    }
}

impl<B: Width> Mul<B> for &Interval<B> {
    type Output = Interval<B>;

    ghost can_mul = { λ a x. IsSubset (ExactProducts (IsBetween a.now) (Only (B.value x))) (IsBetween B.whole) };

    // The result is the least interval that holds the products of a member and the value.
    ghost mul_gives = { λ a x r. IsHullOf r (ExactProducts (IsBetween a.now) (Only (B.value x))) };

    /// Returns the least interval that holds the products of a member and the value. The caller
    /// must ensure that the products are in the range. Check with `fits_mul`.
    fn mul(self, rhs: B) -> Interval<B> {
        products_with(*self, rhs)
    }
}

impl<B: Width> Mul<&B> for &Interval<B> {
    type Output = Interval<B>;

    ghost can_mul = { λ a x. IsSubset (ExactProducts (IsBetween a.now) (Only (B.value x.now))) (IsBetween B.whole) };

    // The result is the least interval that holds the products of a member and the value.
    ghost mul_gives = { λ a x r. IsHullOf r (ExactProducts (IsBetween a.now) (Only (B.value x.now))) };

    /// Returns the least interval that holds the products of a member and the value. The caller
    /// must ensure that the products are in the range. Check with `fits_mul`.
    fn mul(self, rhs: &B) -> Interval<B> {
        products_with(*self, *rhs)
    }
}
