//! Intervals from bounds, and queries of their bounds: the least and the greatest member, the size,
//! and membership.
ghost use Rattle.std.specs.Prelude.{◌≡◌, ◌↔◌, ◌≤ℤ◌, ℤ, IsTrue};
ghost use Rattle.ivl_laws.specs.Sets.{HasNone, HasSome, IsBetween, IsCrossed, IsInRange, Only, SameMembers};
ghost use Rattle.ivl_laws.specs.Counts.{IsCountOf};
ghost use Rattle.ivl_laws.specs.Bounds.{width_of};

use crate::interval::Interval;
use crate::ops::{
    Bot, Bounded, Cardinality, Collection, Contains, Empty, IntervalKind, IsEmpty, IsSingleton,
    Range, Singleton, Top, Whole,
};
use crate::width::{SizeNumber, Width};

impl<B: Width> Collection for Interval<B> {
    type Item = B;

    ghost members = { IsBetween };

    ghost number = { B.value };
}

impl<B: Width> IntervalKind for Interval<B> {}

impl<B: Width> Range for Interval<B> {
    ghost whole = { B.whole };

    /// Returns the interval from `lb` to `ub`, which is empty if `lb` is above `ub`. The caller
    /// must ensure `in_range(lb, ub)`.
    ///
    /// ```
    /// assert_eq!(rt; Interval::new(1i32, 5).size(), 5);
    /// assert!(rt; Interval::new(8i32, 3).is_empty());
    /// ```
    fn new(lb: B, ub: B) -> Interval<B>
        requires { IsInRange B.whole (B.value lb, B.value ub) }
        // The members are exactly the numbers from `lb` to `ub`, which are its bounds.
        ensures members { SameMembers (IsBetween result) (IsBetween (B.value lb, B.value ub)) }
        ensures value { result ≡ (B.value lb, B.value ub) }
    {
        Interval { lb, ub }
    }
}

impl<B: Width> Empty for Interval<B> {
    ghost members = { IsBetween };

    /// Returns an empty interval.
    ///
    /// ```
    /// assert!(rt; !Interval::<i32>::empty().contains(&0));
    /// ```
    fn empty() -> Interval<B>
        // The result has no member: its bounds cross.
        ensures members { HasNone (IsBetween result) }
        ensures crossed { IsCrossed result }
    {
        Self::new(B::one(), B::zero())
    }
}

impl<B: Width> Top for Interval<B> {
    ghost members = { IsBetween };

    /// Returns an empty interval, which entails every other.
    ///
    /// ```
    /// assert_eq!(rt; Interval::top().entail(&Interval::new(1i32, 2)), SKleene::True);
    /// ```
    fn top() -> Interval<B>
        // The result has no member: its bounds cross.
        ensures members { HasNone (IsBetween result) }
        ensures crossed { IsCrossed result }
    {
        Self::empty()
    }
}

impl<B: Width> Whole for Interval<B> {
    ghost members = { IsBetween };

    ghost whole = { B.whole };

    /// Returns the range of `B`. A value is in the range exactly when `whole().contains(&value)` is
    /// true.
    ///
    /// ```
    /// let range = Interval::<i8>::whole();
    /// assert!(rt; range.contains(&-127) && !range.contains(&-128));
    /// ```
    fn whole() -> Interval<B>
        // The members are exactly the numbers of the range, whose ends are its bounds.
        ensures members { SameMembers (IsBetween result) (IsBetween B.whole) }
        ensures value { result ≡ B.whole }
    {
        Self::new(B::min_value(), B::max_value())
    }
}

impl<B: Width> Bot for Interval<B> {
    ghost members = { IsBetween };

    ghost whole = { B.whole };

    /// Returns the range of `B`, which every interval entails.
    ///
    /// ```
    /// assert_eq!(rt; Interval::new(1i32, 2).entail(&Interval::bot()), SKleene::True);
    /// ```
    fn bot() -> Interval<B>
        // The members are exactly the numbers of the range, whose ends are its bounds.
        ensures members { SameMembers (IsBetween result) (IsBetween B.whole) }
        ensures value { result ≡ B.whole }
    {
        Self::whole()
    }
}

impl<B: Width> Singleton for Interval<B> {
    ghost whole = { B.whole };

    /// Returns the interval of `item` alone. The caller must ensure that `item` is in the range.
    /// Check with `whole().contains(&item)`.
    ///
    /// ```
    /// assert_eq!(rt; Interval::singleton(5i32).size(), 1);
    /// ```
    fn singleton(item: B) -> Interval<B>
        requires { IsBetween B.whole (B.value item) }
        // The only member is the item, which is both bounds.
        ensures members { SameMembers (IsBetween result) (Only (B.value item)) }
        ensures value { result ≡ (B.value item, B.value item) }
    {
        Self::new(item, item)
    }
}

impl<B: Width> Bounded for Interval<B> {
    /// Returns the least member. The caller must ensure that the interval is not empty. Check with
    /// `is_empty`.
    ///
    /// ```
    /// assert_eq!(rt; Interval::new(3i32, 8).lower(), 3);
    /// ```
    fn lower(&self) -> B
        requires { HasSome (IsBetween self.now) }
        // The result is the least member, which is the lower bound and in the range.
        ensures member { IsBetween self.now (B.value result) }
        ensures least { (z : ℤ) → IsBetween self.now z → B.value result ≤ℤ z }
        ensures value { B.value result ≡ self.now.0 }
        ensures in_range { IsBetween B.whole (B.value result) }
    {
        self.lb
    }

    /// Returns the greatest member. The caller must ensure that the interval is not empty. Check
    /// with `is_empty`.
    ///
    /// ```
    /// assert_eq!(rt; Interval::new(3i32, 8).upper(), 8);
    /// ```
    fn upper(&self) -> B
        requires { HasSome (IsBetween self.now) }
        // The result is the greatest member, which is the upper bound and in the range.
        ensures member { IsBetween self.now (B.value result) }
        ensures greatest { (z : ℤ) → IsBetween self.now z → z ≤ℤ B.value result }
        ensures value { B.value result ≡ self.now.1 }
        ensures in_range { IsBetween B.whole (B.value result) }
    {
        self.ub
    }
}

impl<B: Width> Cardinality for Interval<B> {
    type Size = B::Output;

    ghost members = { IsBetween };

    ghost size_number = { B.Output.size };

    /// Returns the number of members.
    ///
    /// ```
    /// assert_eq!(rt; Interval::<u8>::whole().size(), 255);
    /// ```
    fn size(&self) -> B::Output
        // The result is the number of members: the upper bound less the lower plus one, or 0 if they cross.
        ensures members { IsCountOf (B.Output.size result) (IsBetween self.now) }
        ensures width { B.Output.size result ≡ width_of self.now }
    {
        if self.is_empty() {
            <B::Output as SizeNumber>::zero()
        } else {
            B::width(&self.lb, &self.ub)
        }
    }
}

impl<B: Width> IsEmpty for Interval<B> {
    ghost members = { IsBetween };

    /// Returns true exactly when the interval has no members: the lower bound is above the upper.
    ///
    /// ```
    /// assert!(rt; Interval::new(8i32, 3).is_empty() && !Interval::new(3i32, 3).is_empty());
    /// ```
    fn is_empty(&self) -> bool
        // True exactly when there is no member, which is when the bounds cross; after false there is one.
        ensures members { IsTrue result ↔ HasNone (IsBetween self.now) }
        ensures filled { ¬ (IsTrue result) → HasSome (IsBetween self.now) }
        ensures crossed { IsTrue result ↔ IsCrossed self.now }
    {
        self.lb > self.ub
    }
}

impl<B: Width> IsSingleton for Interval<B> {
    ghost members = { IsBetween };

    /// Returns true exactly when the interval has one member: the bounds are equal.
    ///
    /// ```
    /// assert!(rt; Interval::new(5i32, 5).is_singleton());
    /// assert!(rt; !Interval::new(5i32, 6).is_singleton());
    /// ```
    fn is_singleton(&self) -> bool
        // True exactly when there is one member and no other, which is when the bounds are equal.
        ensures members { IsTrue result ↔ ((x : ℤ) × SameMembers (IsBetween self.now) (Only x)) }
        ensures bounds { IsTrue result ↔ (self.now.0 ≡ self.now.1) }
    {
        self.lb == self.ub
    }
}

impl<B: Width> Contains for Interval<B> {
    /// Returns true exactly when `item` is a member. It may be any value of its type, even one
    /// outside the range.
    ///
    /// ```
    /// assert!(rt; !Interval::<u8>::whole().contains(&255));
    /// ```
    fn contains(&self, item: &B) -> bool {
        self.lb <= *item && *item <= self.ub
    }
}
