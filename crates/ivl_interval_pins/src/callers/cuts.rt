//! Callers that cut sets at a value, or convert values to intervals.
ghost use Rattle.std.specs.Prelude.{◌≡◌, ◌≤ℤ◌};
ghost use Rattle.ivl_laws.specs.Sets.{Above, AtLeast, AtMost, Below, IsBetween, SameMembers};

use ivl_interval::interval::Interval;
use ivl_interval::ops::{ShrinkLeft, ShrinkRight, StrictShrinkLeft, StrictShrinkRight, ToInterval};
use ivl_interval::width::Width;

/// Returns the members from a value on.
pub fn shrink_left_by_bound<T: ShrinkLeft>(set: &T, lower: T::Item) -> T::Output
    ensures { T.answers result (AtLeast (T.number lower) (T.members set.now)) }
{
    set.shrink_left(lower)
}

/// Returns the members up to a value.
pub fn shrink_right_by_bound<T: ShrinkRight>(set: &T, upper: T::Item) -> T::Output
    ensures { T.answers result (AtMost (T.number upper) (T.members set.now)) }
{
    set.shrink_right(upper)
}

/// Returns the members above a value.
pub fn strict_shrink_left_by_bound<T: StrictShrinkLeft>(set: &T, lower: T::Item) -> T::Output
    ensures { T.answers result (Above (T.number lower) (T.members set.now)) }
{
    set.strict_shrink_left(lower)
}

/// Returns the members below a value.
pub fn strict_shrink_right_by_bound<T: StrictShrinkRight>(set: &T, upper: T::Item) -> T::Output
    ensures { T.answers result (Below (T.number upper) (T.members set.now)) }
{
    set.strict_shrink_right(upper)
}

/// Returns the interval that a value stands for.
pub fn to_interval_by_bound<B: Width, T: ToInterval<B>>(value: T) -> Interval<B>
    requires { T.can_convert value }
    ensures members { SameMembers (IsBetween result) (IsBetween (T.interval value)) }
    ensures bounds { (T.interval value).0 ≤ℤ (T.interval value).1 → result ≡ T.interval value }
{
    value.to_interval()
}
