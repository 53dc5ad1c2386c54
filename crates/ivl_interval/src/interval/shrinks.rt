//! Intervals cut at a value, from either side, with or without the value itself.
ghost use Rattle.ivl_laws.specs.Sets.{IsBetween, SameMembers};

use crate::interval::Interval;
use crate::interval::sets::{predecessor, successor};
use crate::ops::{Empty, Range, ShrinkLeft, ShrinkRight, StrictShrinkLeft, StrictShrinkRight};
use crate::width::Width;

impl<B: Width> ShrinkLeft for Interval<B> {
    type Output = Interval<B>;

    ghost answers = { λ p S. SameMembers (IsBetween p) S };

    /// Returns the members that are at least `lower`, which may be any value of its type.
    ///
    /// ```
    /// let a = Interval::new(1u8, 9);
    /// assert_eq!(rt; a.shrink_left(0), a);
    /// assert!(rt; a.shrink_left(255).is_empty());
    /// ```
    fn shrink_left(&self, lower: B) -> Interval<B> {
        Self::new(self.lb.max(lower), self.ub)
    }
}

impl<B: Width> ShrinkRight for Interval<B> {
    type Output = Interval<B>;

    ghost answers = { λ p S. SameMembers (IsBetween p) S };

    /// Returns the members that are at most `upper`, which may be any value of its type.
    ///
    /// ```
    /// let a = Interval::new(1u8, 9);
    /// assert!(rt; a.shrink_right(0).is_empty());
    /// assert_eq!(rt; a.shrink_right(255), a);
    /// ```
    fn shrink_right(&self, upper: B) -> Interval<B> {
        Self::new(self.lb, self.ub.min(upper))
    }
}

impl<B: Width> StrictShrinkLeft for Interval<B> {
    type Output = Interval<B>;

    ghost answers = { λ p S. SameMembers (IsBetween p) S };

    /// Returns the members above `lower`, which may be any value of its type.
    ///
    /// ```
    /// let a = Interval::new(1u8, 9);
    /// assert_eq!(rt; a.strict_shrink_left(0), a);
    /// assert!(rt; a.strict_shrink_left(9).is_empty());
    /// ```
    fn strict_shrink_left(&self, lower: B) -> Interval<B> {
        if lower < self.lb {
            return *self;
        }
        if lower >= self.ub {
            return Self::empty();
        }
        // below the upper bound, so the next number is in the range
        Self::new(successor(lower), self.ub)
    }
}

impl<B: Width> StrictShrinkRight for Interval<B> {
    type Output = Interval<B>;

    ghost answers = { λ p S. SameMembers (IsBetween p) S };

    /// Returns the members below `upper`, which may be any value of its type.
    ///
    /// ```
    /// let a = Interval::new(1u8, 9);
    /// assert!(rt; a.strict_shrink_right(1).is_empty());
    /// assert_eq!(rt; a.strict_shrink_right(255), a);
    /// ```
    fn strict_shrink_right(&self, upper: B) -> Interval<B> {
        if upper > self.ub {
            return *self;
        }
        if upper <= self.lb {
            return Self::empty();
        }
        // above the lower bound, so the number before is in the range
        Self::new(self.lb, predecessor(upper))
    }
}
