//! Conversions to an interval.
ghost use Rattle.std.specs.Prelude.{◌≡◌, ◌≤ℤ◌, pos, ⊤};
ghost use Rattle.std.specs.Range.{range_inclusive_end, range_inclusive_start};
ghost use Rattle.ivl_laws.specs.Sets.{IsBetween, IsCrossed, IsInRange, SameMembers};

use crate::interval::Interval;
use crate::ops::{Empty, Range, Singleton, ToInterval};
use crate::width::Width;
use std::ops::{RangeFrom, RangeInclusive, RangeToInclusive};

impl<B: Width> ToInterval<B> for Interval<B> {
    ghost can_convert = { λ _. ⊤ };

    ghost interval = { λ p. p };

    /// Returns the interval itself.
    ///
    /// ```
    /// let a = Interval::new(1i32, 5);
    /// let same: Interval<i32> = a.to_interval();
    /// assert_eq!(rt; same, a);
    /// ```
    fn to_interval(self) -> Interval<B>
        // The result is the interval itself.
        ensures members { SameMembers (IsBetween result) (IsBetween self) }
        ensures bounds { self.0 ≤ℤ self.1 → result ≡ self }
        ensures value { result ≡ self }
    {
        self
    }
}

impl<B: Width> ToInterval<B> for (B, B) {
    ghost can_convert = { λ bounds. IsInRange B.whole (B.value bounds.0, B.value bounds.1) };

    ghost interval = { λ bounds. (B.value bounds.0, B.value bounds.1) };

    /// Returns the interval from the first bound to the second, which is empty if they cross. The
    /// caller must ensure `Interval::in_range(first, second)`.
    ///
    /// ```
    /// let pair: Interval<i32> = (1, 5).to_interval();
    /// assert_eq!(rt; pair, Interval::new(1, 5));
    /// ```
    fn to_interval(self) -> Interval<B>
        requires { IsInRange B.whole (B.value self.0, B.value self.1) }
        // The members are exactly the numbers from the one bound to the other, which are the bounds of the result, even
        // if they cross.
        ensures members { SameMembers (IsBetween result) (IsBetween (B.value self.0, B.value self.1)) }
        ensures bounds { B.value self.0 ≤ℤ B.value self.1 → result ≡ (B.value self.0, B.value self.1) }
        ensures value { result ≡ (B.value self.0, B.value self.1) }
    {
        Interval::new(self.0, self.1)
    }
}

impl<B: Width> ToInterval<B> for () {
    ghost can_convert = { λ _. ⊤ };

    ghost interval = { λ _. (pos 1, pos 0) };

    /// Returns an empty interval.
    ///
    /// ```
    /// let none: Interval<i32> = ().to_interval();
    /// assert!(rt; none.is_empty());
    /// ```
    fn to_interval(self) -> Interval<B>
        // The result has no member: its bounds cross.
        ensures members { SameMembers (IsBetween result) (IsBetween (pos 1, pos 0)) }
        ensures bounds { pos 1 ≤ℤ pos 0 → result ≡ (pos 1, pos 0) }
        ensures crossed { IsCrossed result }
    {
        Interval::empty()
    }
}

impl<B: Width> ToInterval<B> for B {
    ghost can_convert = { λ x. IsBetween B.whole (B.value x) };

    ghost interval = { λ x. (B.value x, B.value x) };

    /// Returns the interval of the value alone. The caller must ensure that it is in the range.
    /// Check with `Interval::whole().contains(&value)`.
    ///
    /// ```
    /// let five: Interval<i32> = 5.to_interval();
    /// assert_eq!(rt; five, Interval::new(5, 5));
    /// ```
    fn to_interval(self) -> Interval<B>
        requires { IsBetween B.whole (B.value self) }
        // The only member is the value, which is both bounds.
        ensures members { SameMembers (IsBetween result) (IsBetween (B.value self, B.value self)) }
        ensures bounds { B.value self ≤ℤ B.value self → result ≡ (B.value self, B.value self) }
        ensures value { result ≡ (B.value self, B.value self) }
    {
        Interval::singleton(self)
    }
}

impl<B: Width> ToInterval<B> for RangeInclusive<B> {
    ghost can_convert = { λ range. IsInRange B.whole (B.value (range_inclusive_start range), B.value (range_inclusive_end range)) };

    ghost interval = { λ range. (B.value (range_inclusive_start range), B.value (range_inclusive_end range)) };

    /// Returns the interval from the start to the end of `a..=b`, which is empty if they cross. The
    /// caller must ensure `Interval::in_range(a, b)`.
    ///
    /// ```
    /// let crossed: Interval<i32> = (8..=3).to_interval();
    /// assert!(rt; crossed.is_empty());
    /// ```
    fn to_interval(self) -> Interval<B>
        requires { IsInRange B.whole (B.value (range_inclusive_start self), B.value (range_inclusive_end self)) }
        // The members are exactly the numbers from the start to the end, which are the bounds of the result, even if
        // they cross.
        ensures members { SameMembers (IsBetween result) (IsBetween (B.value (range_inclusive_start self), B.value (range_inclusive_end self))) }
        ensures bounds { B.value (range_inclusive_start self) ≤ℤ B.value (range_inclusive_end self) → result ≡ (B.value (range_inclusive_start self), B.value (range_inclusive_end self)) }
        ensures value { result ≡ (B.value (range_inclusive_start self), B.value (range_inclusive_end self)) }
    {
        let (start, end) = self.into_inner();
        Interval::new(start, end)
    }
}

impl<B: Width> ToInterval<B> for RangeFrom<B> {
    ghost can_convert = { λ range. IsBetween B.whole (B.value range.start) };

    ghost interval = { λ range. (B.value range.start, B.whole.1) };

    /// Returns the interval from the start of `a..` to the greatest value of the range. The caller
    /// must ensure that the start is in the range. Check with `Interval::whole().contains(&start)`.
    ///
    /// ```
    /// let high: Interval<u8> = (250..).to_interval();
    /// assert_eq!(rt; high, Interval::new(250, 254));
    /// ```
    fn to_interval(self) -> Interval<B>
        requires { IsBetween B.whole (B.value self.start) }
        // The members are exactly the numbers from the start to the greatest of the range of the type, which are the
        // bounds of the result.
        ensures members { SameMembers (IsBetween result) (IsBetween (B.value self.start, B.whole.1)) }
        ensures bounds { B.value self.start ≤ℤ B.whole.1 → result ≡ (B.value self.start, B.whole.1) }
        ensures value { result ≡ (B.value self.start, B.whole.1) }
    {
        Interval::new(self.start, B::max_value())
    }
}

impl<B: Width> ToInterval<B> for RangeToInclusive<B> {
    ghost can_convert = { λ range. IsBetween B.whole (B.value range.end) };

    ghost interval = { λ range. (B.whole.0, B.value range.end) };

    /// Returns the interval from the least value of the range to the end of `..=b`. The caller must
    /// ensure that the end is in the range. Check with `Interval::whole().contains(&end)`.
    ///
    /// ```
    /// let low: Interval<u8> = (..=5).to_interval();
    /// assert_eq!(rt; low, Interval::new(0, 5));
    /// ```
    fn to_interval(self) -> Interval<B>
        requires { IsBetween B.whole (B.value self.end) }
        // The members are exactly the numbers from the least of the range of the type to the end, which are the bounds
        // of the result.
        ensures members { SameMembers (IsBetween result) (IsBetween (B.whole.0, B.value self.end)) }
        ensures bounds { B.whole.0 ≤ℤ B.value self.end → result ≡ (B.whole.0, B.value self.end) }
        ensures value { result ≡ (B.whole.0, B.value self.end) }
    {
        Interval::new(B::min_value(), self.end)
    }
}
