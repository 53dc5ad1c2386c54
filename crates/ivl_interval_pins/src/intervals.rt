//! What the traits mean for intervals, over pairs of numbers, as a caller learns it from the bound.
ghost use Rattle.std.specs.Prelude.{◌≡◌, ◌↔◌, ◌≤ℤ◌, IsTrue};
ghost use Rattle.ivl_laws.specs.Sets.{IsBetween, IsCrossed, IsInRange, SameMembers};
ghost use Rattle.ivl_laws.specs.Bounds.{width_of};

pub mod arithmetic;
pub mod conversions;
pub mod cuts;
pub mod operands;
pub mod optionals;
pub mod pairs;
pub mod text;
pub mod values;

use crate::callers;
use ivl_interval::interval::Interval;
use ivl_interval::ops::{Bounded, IsEmpty};
use ivl_interval::width::Width;

/// Returns a crossed pair.
pub fn empty_interval<B: Width>() -> Interval<B>
    ensures { IsCrossed result }
{
    callers::empty_by_bound()
}

/// Returns a crossed pair.
pub fn top_interval<B: Width>() -> Interval<B>
    ensures { IsCrossed result }
{
    callers::top_by_bound()
}

/// Returns the pair of the range.
pub fn whole_interval<B: Width>() -> Interval<B>
    ensures { result ≡ B.whole }
{
    callers::whole_by_bound()
}

/// Returns the pair of the range.
pub fn bot_interval<B: Width>() -> Interval<B>
    ensures { result ≡ B.whole }
{
    callers::bot_by_bound()
}

/// Returns the pair of the number of the item with itself.
pub fn singleton_interval<B: Width>(item: B) -> Interval<B>
    requires { IsBetween B.whole (B.value item) }
    ensures { result ≡ (B.value item, B.value item) }
{
    callers::singleton_by_bound(item)
}

/// Returns the pair of the two numbers, unless they cross.
pub fn new_interval<B: Width>(lb: B, ub: B) -> Interval<B>
    requires { IsInRange B.whole (B.value lb, B.value ub) }
    ensures crossed { IsCrossed (B.value lb, B.value ub) → IsCrossed result }
    ensures pair { B.value lb ≤ℤ B.value ub → result ≡ (B.value lb, B.value ub) }
{
    callers::new_by_bound(lb, ub)
}

/// Returns the first number of the pair.
pub fn interval_lower<B: Width>(a: &Interval<B>) -> B
    requires { a.now.0 ≤ℤ a.now.1 }
    ensures { B.value result ≡ a.now.0 }
{
    callers::lower_by_bound(a)
}

/// Returns the second number of the pair.
pub fn interval_upper<B: Width>(a: &Interval<B>) -> B
    requires { a.now.0 ≤ℤ a.now.1 }
    ensures { B.value result ≡ a.now.1 }
{
    callers::upper_by_bound(a)
}

/// The stored bounds of an interval, which may be empty.
pub fn stored_bounds<B: Width>(a: &Interval<B>) -> (B, B)
    ensures lower { B.value result.0 ≡ a.now.0 }
    ensures upper { B.value result.1 ≡ a.now.1 }
{
    (a.lower_bound(), a.upper_bound())
}

/// Returns the upper number less the lower plus one, or 0 if the pair is crossed.
pub fn interval_size<B: Width>(a: &Interval<B>) -> B::Output
    ensures { B.Output.size result ≡ width_of a.now }
{
    callers::size_by_bound(a)
}

/// Returns true exactly when the pair is crossed.
pub fn interval_is_empty<B: Width>(a: &Interval<B>) -> bool
    ensures { IsTrue result ↔ IsCrossed a.now }
{
    callers::is_empty_by_bound(a)
}

/// Returns true exactly when the two numbers of the pair are equal.
pub fn interval_is_singleton<B: Width>(a: &Interval<B>) -> bool
    ensures { IsTrue result ↔ (a.now.0 ≡ a.now.1) }
{
    callers::is_singleton_by_bound(a)
}

/// Returns true exactly when a number lies between those of the pair.
pub fn interval_contains<B: Width>(a: &Interval<B>, item: &B) -> bool
    ensures { IsTrue result ↔ ((a.now.0 ≤ℤ B.value item.now) × (B.value item.now ≤ℤ a.now.1)) }
{
    callers::contains_by_bound(a, item)
}

/// Returns true exactly when the same numbers lie between those of both pairs.
pub fn intervals_equal<B: Width>(a: &Interval<B>, b: &Interval<B>) -> bool
    ensures { IsTrue result ↔ SameMembers (IsBetween a.now) (IsBetween b.now) }
{
    *a == *b
}
