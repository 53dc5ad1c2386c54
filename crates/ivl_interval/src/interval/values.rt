//! Operations on an interval and a value, which may be absent, in either order.
ghost use Rattle.std.specs.Prelude.{◌≡◌, ◌⊎◌, None, option_map, ⊤};
ghost use Rattle.ivl_laws.specs.Sets.{Held, Intersection, IsBetween, IsHullOf, Only, SameMembers, Without};

use crate::interval::Interval;
use crate::ops::{
    Contains, Difference, Disjoint, Empty, Hull, Intersection, Overlap, Range, Singleton,
    StrictShrinkLeft, StrictShrinkRight,
};
use crate::optional::Optional;
use crate::width::Width;

impl<B: Width> Disjoint<B> for Interval<B> {
    ghost members = { IsBetween };

    ghost other_members = { λ x. Only (B.value x) };

    /// Returns true exactly when the value is not a member.
    ///
    /// ```
    /// let a = Interval::new(3i32, 8);
    /// assert!(rt; a.is_disjoint(&9));
    /// ```
    fn is_disjoint(&self, other: &B) -> bool {
        !self.contains(other)
    }
}

impl<B: Width> Overlap<B> for Interval<B> {
    ghost members = { IsBetween };

    ghost other_members = { λ x. Only (B.value x) };

    /// Returns true exactly when the value is a member.
    ///
    /// ```
    /// let a = Interval::new(3i32, 8);
    /// assert!(rt; a.overlap(&8));
    /// ```
    fn overlap(&self, other: &B) -> bool {
        self.contains(other)
    }
}

impl<B: Width> Intersection<B> for Interval<B> {
    type Output = Interval<B>;

    ghost members = { IsBetween };

    ghost other_members = { λ x. Only (B.value x) };

    ghost answers = { λ p S. SameMembers (IsBetween p) S };

    /// Returns the value alone if it is a member, else an empty interval. It may be any value of
    /// its type.
    ///
    /// ```
    /// let a = Interval::new(3i32, 8);
    /// assert_eq!(rt; a.intersection(&4), Interval::new(4, 4));
    /// ```
    fn intersection(&self, other: &B) -> Interval<B> {
        Self::new(self.lb.max(*other), self.ub.min(*other))
    }
}

impl<B: Width> Difference<B> for Interval<B> {
    type Output = Interval<B>;

    ghost members = { IsBetween };

    ghost other_members = { λ x. Only (B.value x) };

    ghost answers = { IsHullOf };

    /// Returns the least interval that holds the members except the value, which may be any value
    /// of its type.
    ///
    /// The original adds to a stored lower bound, or subtracts from a stored upper bound, that
    /// equals the value. So it overflows at `empty().difference(&0)` of `u32` and at
    /// `singleton(127).difference(&127)` of `i8`; here both are empty.
    ///
    /// ```
    /// let a = Interval::new(3i32, 8);
    /// assert_eq!(rt; a.difference(&3), Interval::new(4, 8));
    /// assert_eq!(rt; a.difference(&4), a);
    /// ```
    fn difference(&self, other: &B) -> Interval<B> {
        if *other == self.lb {
            self.strict_shrink_left(*other)
        } else if *other == self.ub {
            self.strict_shrink_right(*other)
        } else {
            *self
        }
    }
}

impl<B: Width> Hull<B> for Interval<B> {
    type Output = Interval<B>;

    ghost members = { IsBetween };

    ghost other_members = { λ x. Only (B.value x) };

    ghost can_join = { λ _ x. IsBetween B.whole (B.value x) };

    ghost answers = { IsHullOf };

    /// Returns the least interval that holds the members and the value. The caller must ensure that
    /// the value is in the range. Check with `whole().contains(other)`.
    ///
    /// ```
    /// let a = Interval::new(3i32, 8);
    /// assert_eq!(rt; a.hull(&12), Interval::new(3, 12));
    /// ```
    fn hull(&self, other: &B) -> Interval<B> {
        self.hull(&Self::singleton(*other))
    }
}

impl<B: Width> Disjoint<Optional<B>> for Interval<B> {
    ghost members = { IsBetween };

    ghost other_members = { λ o. Held (option_map B.value o) };

    /// Returns true exactly when the value is absent or not a member.
    ///
    /// ```
    /// let a = Interval::new(3i32, 8);
    /// assert!(rt; a.is_disjoint(&Optional::empty()));
    /// ```
    fn is_disjoint(&self, other: &Optional<B>) -> bool {
        !self.overlap(other)
    }
}

impl<B: Width> Overlap<Optional<B>> for Interval<B> {
    ghost members = { IsBetween };

    ghost other_members = { λ o. Held (option_map B.value o) };

    /// Returns true exactly when there is a value and it is a member.
    ///
    /// ```
    /// let a = Interval::new(3i32, 8);
    /// assert!(rt; a.overlap(&Optional::singleton(8)));
    /// ```
    fn overlap(&self, other: &Optional<B>) -> bool {
        match other.as_ref() {
            Some(x) => self.contains(x),
            None => false,
        }
    }
}

impl<B: Width> Intersection<Optional<B>> for Interval<B> {
    type Output = Interval<B>;

    ghost members = { IsBetween };

    ghost other_members = { λ o. Held (option_map B.value o) };

    ghost answers = { λ p S. SameMembers (IsBetween p) S };

    /// Returns the value alone if there is one and it is a member, else an empty interval.
    ///
    /// ```
    /// let a = Interval::new(3i32, 8);
    /// assert_eq!(rt; a.intersection(&Optional::singleton(4)), Interval::new(4, 4));
    /// ```
    fn intersection(&self, other: &Optional<B>) -> Interval<B> {
        match other.as_ref() {
            Some(x) => self.intersection(x),
            None => Self::empty(),
        }
    }
}

impl<B: Width> Difference<Optional<B>> for Interval<B> {
    type Output = Interval<B>;

    ghost members = { IsBetween };

    ghost other_members = { λ o. Held (option_map B.value o) };

    ghost answers = { IsHullOf };

    /// Returns the least interval that holds the members except the value; if it is absent, the
    /// interval itself.
    ///
    /// ```
    /// let a = Interval::new(3i32, 8);
    /// assert_eq!(rt; a.difference(&Optional::singleton(3)), Interval::new(4, 8));
    /// ```
    fn difference(&self, other: &Optional<B>) -> Interval<B> {
        match other.as_ref() {
            Some(x) => self.difference(x),
            None => *self,
        }
    }
}

impl<B: Width> Disjoint<Interval<B>> for B {
    ghost members = { λ x. Only (B.value x) };

    ghost other_members = { IsBetween };

    /// Returns true exactly when the value is not a member of `other`.
    ///
    /// ```
    /// let a = Interval::new(3i32, 8);
    /// assert!(rt; 9.is_disjoint(&a));
    /// ```
    fn is_disjoint(&self, other: &Interval<B>) -> bool {
        !other.contains(self)
    }
}

impl<B: Width> Overlap<Interval<B>> for B {
    ghost members = { λ x. Only (B.value x) };

    ghost other_members = { IsBetween };

    /// Returns true exactly when the value is a member of `other`.
    ///
    /// ```
    /// let a = Interval::new(3i32, 8);
    /// assert!(rt; 8.overlap(&a));
    /// ```
    fn overlap(&self, other: &Interval<B>) -> bool {
        other.contains(self)
    }
}

impl<B: Width> Hull<Interval<B>> for B {
    type Output = Interval<B>;

    ghost members = { λ x. Only (B.value x) };

    ghost other_members = { IsBetween };

    ghost can_join = { λ x _. IsBetween B.whole (B.value x) };

    ghost answers = { IsHullOf };

    /// Returns the least interval that holds the value and the members of `other`. The caller must
    /// ensure that the value is in the range. Check with `whole().contains(self)`.
    ///
    /// ```
    /// let a = Interval::new(3i32, 8);
    /// assert_eq!(rt; 1.hull(&a), Interval::new(1, 8));
    /// ```
    fn hull(&self, other: &Interval<B>) -> Interval<B> {
        Interval::singleton(*self).hull(other)
    }
}

impl<B: Width> Disjoint<Interval<B>> for Optional<B> {
    ghost members = { λ o. Held (option_map B.value o) };

    ghost other_members = { IsBetween };

    /// Returns true exactly when the value is absent or not a member of `other`.
    ///
    /// ```
    /// let a = Interval::new(3i32, 8);
    /// assert!(rt; Optional::singleton(9).is_disjoint(&a));
    /// ```
    fn is_disjoint(&self, other: &Interval<B>) -> bool {
        other.is_disjoint(self)
    }
}

impl<B: Width> Overlap<Interval<B>> for Optional<B> {
    ghost members = { λ o. Held (option_map B.value o) };

    ghost other_members = { IsBetween };

    /// Returns true exactly when there is a value and it is a member of `other`.
    ///
    /// ```
    /// let a = Interval::new(3i32, 8);
    /// assert!(rt; Optional::singleton(8).overlap(&a));
    /// ```
    fn overlap(&self, other: &Interval<B>) -> bool {
        other.overlap(self)
    }
}

impl<B: Width> Intersection<Interval<B>> for Optional<B> {
    type Output = Optional<B>;

    ghost members = { λ o. Held (option_map B.value o) };

    ghost other_members = { IsBetween };

    ghost answers = { λ o S. SameMembers (Held (option_map B.value o)) S };

    /// Returns the value if it is a member of `other`, else no value.
    ///
    /// ```
    /// let a = Interval::new(3i32, 8);
    /// assert_eq!(rt; Optional::singleton(4).intersection(&a), Optional::singleton(4));
    /// ```
    fn intersection(&self, other: &Interval<B>) -> Optional<B>
        // The result holds the value if there is one and the interval has it, and nothing if not.
        ensures members { SameMembers (Held (option_map B.value result)) (Intersection (Held (option_map B.value self.now)) (IsBetween other.now)) }
        ensures chosen { (result ≡ self.now) ⊎ (result ≡ None) }
    {
        if self.overlap(other) {
            *self
        } else {
            Optional::empty()
        }
    }
}

impl<B: Width> Difference<Interval<B>> for Optional<B> {
    type Output = Optional<B>;

    ghost members = { λ o. Held (option_map B.value o) };

    ghost other_members = { IsBetween };

    ghost answers = { λ o S. SameMembers (Held (option_map B.value o)) S };

    /// Returns the value if it is not a member of `other`, else no value.
    ///
    /// ```
    /// let a = Interval::new(3i32, 8);
    /// assert_eq!(rt; Optional::singleton(9).difference(&a), Optional::singleton(9));
    /// ```
    fn difference(&self, other: &Interval<B>) -> Optional<B>
        // The result holds the value if there is one and the interval does not have it, and nothing if not.
        ensures members { SameMembers (Held (option_map B.value result)) (Without (Held (option_map B.value self.now)) (IsBetween other.now)) }
        ensures chosen { (result ≡ self.now) ⊎ (result ≡ None) }
    {
        if self.is_disjoint(other) {
            *self
        } else {
            Optional::empty()
        }
    }
}
