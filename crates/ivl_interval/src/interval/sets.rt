//! Intervals as sets: intersection, difference, hull and inclusion.
ghost use Rattle.std.specs.Prelude.{◌≡◌, ◌≤ℤ◌, ◌<ℤ◌, ◌+ℤ◌, ◌-ℤ◌, pos, ⊤};
ghost use Rattle.ivl_laws.specs.Sets.{IsBetween, IsHullOf, SameMembers, Without};

use crate::interval::Interval;
use crate::kleene::SKleene;
use crate::ops::{
    Contains, Difference, Disjoint, Empty, Entailment, Hull, Intersection, IsEmpty, Join, Meet,
    Overlap, ProperSubset, Range, Subset,
};
use crate::width::Width;

impl<B: Width> Disjoint<Interval<B>> for Interval<B> {
    ghost members = { IsBetween };

    ghost other_members = { IsBetween };

    /// Returns true exactly when no number is a member of both.
    ///
    /// ```
    /// assert!(rt; !Interval::new(1i32, 5).is_disjoint(&Interval::new(5, 9)));
    /// ```
    fn is_disjoint(&self, other: &Interval<B>) -> bool {
        self.intersection(other).is_empty()
    }
}

impl<B: Width> Overlap<Interval<B>> for Interval<B> {
    ghost members = { IsBetween };

    ghost other_members = { IsBetween };

    /// Returns true exactly when some number is a member of both.
    ///
    /// ```
    /// assert!(rt; !Interval::new(1i32, 2).overlap(&Interval::new(3, 4)));
    /// ```
    fn overlap(&self, other: &Interval<B>) -> bool {
        !self.intersection(other).is_empty()
    }
}

impl<B: Width> Intersection<Interval<B>> for Interval<B> {
    type Output = Interval<B>;

    ghost members = { IsBetween };

    ghost other_members = { IsBetween };

    ghost answers = { λ p S. SameMembers (IsBetween p) S };

    /// Returns the numbers that are members of both.
    ///
    /// ```
    /// let a = Interval::new(1i32, 3);
    /// assert!(rt; a.intersection(&Interval::new(4, 5)).is_empty());
    /// ```
    fn intersection(&self, other: &Interval<B>) -> Interval<B> {
        Interval {
            lb: self.lb.max(other.lb),
            ub: self.ub.min(other.ub),
        }
    }
}

impl<B: Width> Difference<Interval<B>> for Interval<B> {
    type Output = Interval<B>;

    ghost members = { IsBetween };

    ghost other_members = { IsBetween };

    ghost answers = { IsHullOf };

    /// Returns the least interval that holds the members that are not in `other`. So a hole in the
    /// middle is not cut out: `[0..9]` without `[4..5]` is `[0..9]`.
    ///
    /// ```
    /// let a = Interval::new(0u8, 9);
    /// assert_eq!(rt; a.difference(&Interval::new(0, 5)), Interval::new(6, 9));
    /// assert_eq!(rt; a.difference(&Interval::new(4, 5)), a);
    /// ```
    fn difference(&self, other: &Interval<B>) -> Interval<B> {
        if self.is_empty() {
            return *self;
        }
        cut_away(self, other)
    }
}

/// The least interval that holds the members of the first that are not in the other.
fn cut_away<B: Width>(first: &Interval<B>, other: &Interval<B>) -> Interval<B>
    requires { first.now.0 ≤ℤ first.now.1 }
    ensures { IsHullOf result (Without (IsBetween first.now) (IsBetween other.now)) }
{
    let at_lower = other.contains(&first.lb);
    let at_upper = other.contains(&first.ub);
    if at_lower {
        if at_upper {
            return Interval::empty();
        }
        // `other` ends below the upper bound, so the next number is in the range
        return Interval::new(successor(other.ub), first.ub);
    }
    if at_upper {
        return Interval::new(first.lb, predecessor(other.lb));
    }
    *first
}

/// The value of the next number.
pub(super) fn successor<B: Width>(x: B) -> B
    requires { (B.whole.0 ≤ℤ B.value x) × (B.value x <ℤ B.whole.1) }
    ensures { B.value result ≡ B.value x +ℤ pos 1 }
{
    x.add_in_range(B::one())
}

/// The value of the number before.
pub(super) fn predecessor<B: Width>(x: B) -> B
    requires { (B.whole.0 <ℤ B.value x) × (B.value x ≤ℤ B.whole.1) }
    ensures { B.value result ≡ B.value x -ℤ pos 1 }
{
    x.sub_in_range(B::one())
}

impl<B: Width> Hull<Interval<B>> for Interval<B> {
    type Output = Interval<B>;

    ghost members = { IsBetween };

    ghost other_members = { IsBetween };

    ghost can_join = { λ _ _. ⊤ };

    ghost answers = { IsHullOf };

    /// Returns the least interval that holds the members of both.
    ///
    /// ```
    /// let a = Interval::new(1i32, 2);
    /// assert_eq!(rt; a.hull(&Interval::new(8, 9)), Interval::new(1, 9));
    /// assert_eq!(rt; a.hull(&Interval::empty()), a);
    /// ```
    fn hull(&self, other: &Interval<B>) -> Interval<B> {
        if self.is_empty() {
            return *other;
        }
        if other.is_empty() {
            return *self;
        }
        Self::new(self.lb.min(other.lb), self.ub.max(other.ub))
    }
}

impl<B: Width> Subset for Interval<B> {
    ghost members = { IsBetween };

    /// Returns true exactly when each member is a member of `other`, so always for an empty
    /// interval.
    ///
    /// ```
    /// assert!(rt; Interval::empty().is_subset(&Interval::new(1i32, 2)));
    /// ```
    fn is_subset(&self, other: &Interval<B>) -> bool {
        if self.is_empty() {
            return true;
        }
        other.lb <= self.lb && self.ub <= other.ub
    }
}

impl<B: Width> ProperSubset for Interval<B> {
    ghost members = { IsBetween };

    /// Returns true exactly when each member is a member of `other`, and `other` has more.
    ///
    /// ```
    /// assert!(rt; Interval::empty().is_proper_subset(&Interval::new(1i32, 2)));
    /// ```
    fn is_proper_subset(&self, other: &Interval<B>) -> bool {
        self.is_subset(other) && self != other
    }
}

impl<B: Width> Join for Interval<B> {
    type Output = Interval<B>;

    ghost members = { IsBetween };

    ghost answers = { λ p S. SameMembers (IsBetween p) S };

    /// Returns the intersection.
    ///
    /// ```
    /// assert_eq!(rt; Interval::new(1i32, 2).join(Interval::new(2, 3)), Interval::new(2, 2));
    /// ```
    fn join(self, other: Interval<B>) -> Interval<B> {
        self.intersection(&other)
    }
}

impl<B: Width> Meet for Interval<B> {
    type Output = Interval<B>;

    ghost members = { IsBetween };

    ghost answers = { IsHullOf };

    /// Returns the hull.
    ///
    /// ```
    /// assert_eq!(rt; Interval::new(1i32, 2).meet(Interval::new(5, 6)), Interval::new(1, 6));
    /// ```
    fn meet(self, other: Interval<B>) -> Interval<B> {
        self.hull(&other)
    }
}

impl<B: Width> Entailment for Interval<B> {
    ghost members = { IsBetween };

    /// Returns `True` if `other` includes this interval, else `False` if this one includes `other`,
    /// else `Unknown`. So `[1..2]` entails `[0..10]`.
    ///
    /// ```
    /// let (a, b) = (Interval::new(1i32, 2), Interval::new(0, 10));
    /// assert_eq!(rt; a.entail(&b), SKleene::True);
    /// assert_eq!(rt; b.entail(&a), SKleene::False);
    /// ```
    fn entail(&self, other: &Interval<B>) -> SKleene {
        if self.is_subset(other) {
            SKleene::True
        } else if other.is_subset(self) {
            SKleene::False
        } else {
            SKleene::Unknown
        }
    }
}
