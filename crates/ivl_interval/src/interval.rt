//! A closed interval between two bounds.
ghost use Rattle.std.specs.Prelude.{◌≡◌, ◌↔◌, ℤ, IsTrue, ⊤};
ghost use Rattle.ivl_laws.specs.Sets.{IsBetween, IsInRange, IsSubset, SameMembers};
ghost use Rattle.ivl_interval.specs.SameInterval.{same_interval, same_interval_laws, same_interval_equiv};

use crate::ops::IsEmpty;
use crate::width::Width;
use std::alloc::AllocError;
use std::marker::Model;

mod arithmetic;
mod bounds;
mod conversions;
mod fits;
mod sets;
mod shrinks;
mod text;
mod values;

/// The integers from a lower to an upper bound, both included; empty if the bounds cross.
///
/// An interval is two bounds and nothing else: it is `Copy`, and each call takes a few steps and
/// does not allocate. All empty intervals are equal, whatever bounds they store. A contract sees
/// the pair of the numbers of the bounds.
///
/// ```
/// let (a, b) = (Interval::new(1i32, 5), Interval::new(4, 9));
/// assert_eq!(rt; a.intersection(&b), Interval::new(4, 5));
/// ```
#[derive(Copy, Debug)]
pub struct Interval<B: Width> {
    lb: B,
    ub: B,
}

impl<B: Width> Model for Interval<B> {
    ghost Value = { ℤ × ℤ };

    ghost view = { λ a. (B.value a.lb, B.value a.ub) };

    // The last two facts are a law of `Width`, which `inverse_ok` cannot cite.
    ghost invariant = { λ a. IsInRange B.whole (B.value a.lb, B.value a.ub) × (B.at (B.value a.lb) ≡ a.lb) × (B.at (B.value a.ub) ≡ a.ub) };

    ghost inverse = { λ p. record { lb = B.at p.0; ub = B.at p.1 } };

    ghost inverse_ok = { λ a h i. record { lb = h.1 i; ub = h.2 i } };
}

impl<B: Width> Interval<B> {
    /// Returns true exactly when `new(lb, ub)` may be called: `lb` is not below the range and `ub`
    /// is not above it. The two may cross, so `in_range(8, 3)` is true, and `new(8, 3)` is empty.
    ///
    /// ```
    /// assert!(rt; Interval::in_range(8u8, 3) && !Interval::in_range(0u8, 255));
    /// ```
    pub fn in_range(lb: B, ub: B) -> bool
        // True exactly when `lb` is not below the range and `ub` is not above it.
        ensures { IsTrue result ↔ IsInRange B.whole (B.value lb, B.value ub) }
    {
        lb >= B::min_value() && ub <= B::max_value()
    }

    /// Returns the stored lower bound, even if the interval is empty. So intervals can be sorted by
    /// it without a test for empty ones. For the least member, use `lower`.
    ///
    /// ```
    /// assert_eq!(rt; Interval::new(8i32, 3).lower_bound(), 8);
    /// ```
    pub fn lower_bound(&self) -> B
        // The result is the lower bound, even of an empty interval.
        ensures { B.value result ≡ self.now.0 }
    {
        self.lb
    }

    /// Returns the stored upper bound, even if the interval is empty. For the greatest member, use
    /// `upper`.
    ///
    /// ```
    /// assert_eq!(rt; Interval::new(8i32, 3).upper_bound(), 3);
    /// ```
    pub fn upper_bound(&self) -> B
        // The result is the upper bound, even of an empty interval.
        ensures { B.value result ≡ self.now.1 }
    {
        self.ub
    }

    /// Does nothing: its contract states that each member is in the range.
    ///
    /// ```
    /// let a = Interval::new(3i32, 8);
    /// a.in_whole(); // a proof knows from here on that the members of `a` are in the range
    /// ```
    pub fn in_whole(self)
        // Each number of the interval is in the range.
        ensures { IsSubset (IsBetween self) (IsBetween B.whole) }
    {}
}

impl<B: Width> Clone for Interval<B> {
    ghost is_clone = { λ x y. y ≡ x };

    ghost is_infallible = { λ _. ⊤ };

    /// Returns a copy. Does not allocate, so it never fails.
    fn clone(&self) -> Result<Self, AllocError> {
        Ok(*self)
    }
}

impl<B: Width> PartialEq for Interval<B> {
    ghost eq = { same_interval };

    ghost laws = { same_interval_laws };

    /// Returns true exactly when the two have the same members.
    ///
    /// ```
    /// assert_eq!(rt; Interval::new(8i32, 3), Interval::empty());
    /// ```
    fn eq(&self, other: &Self) -> bool
        // True exactly when both intervals have the same numbers.
        ensures value { result ≡ same_interval self.now other.now }
        ensures members { IsTrue result ↔ SameMembers (IsBetween self.now) (IsBetween other.now) }
    {
        has_same_members(self, other)
    }
}

fn has_same_members<B: Width>(a: &Interval<B>, b: &Interval<B>) -> bool
    ensures { result ≡ same_interval a.now b.now }
{
    if a.is_empty() {
        b.is_empty()
    } else {
        a.lb == b.lb && a.ub == b.ub
    }
}

impl<B: Width> Eq for Interval<B> {
    ghost laws = { same_interval_equiv };
}
