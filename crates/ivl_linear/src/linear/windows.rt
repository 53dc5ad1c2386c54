//! The interval of the numbers whose product with a coefficient is at most a number.
ghost use Rattle.std.specs.Prelude.{◌≡◌, ◌↔◌, ◌⊎◌, ◌≤◌, ◌^◌, ℤ, pos, ◌*ℤ◌, ◌≤ℤ◌, ◌<ℤ◌, unsigned_abs};
ghost use Rattle.ivl_laws.specs.Sets.{IsBetween};

use intervallum::interval::Interval;
use intervallum::ops::{Empty, Intersection, Range};
use intervallum::width::Width;

/// The number of the range that lies nearest to a number.
fn nearest<B: Width>(number: i128) -> B
    ensures { (IsBetween B.whole number × (B.value result ≡ number)) ⊎ (((number <ℤ B.whole.0) × (B.value result ≡ B.whole.0)) ⊎ ((B.whole.1 <ℤ number) × (B.value result ≡ B.whole.1))) }
{
    match B::from_number(number) {
        Some(value) => value,
        None => {
            if number < B::min_value().number() {
                B::min_value()
            } else {
                B::max_value()
            }
        }
    }
}

/// The interval of the numbers of the range that are at least a number.
fn from_least<B: Width>(low: i128) -> Interval<B>
    ensures { (z : ℤ) → IsBetween result z ↔ (IsBetween B.whole z × (low ≤ℤ z)) }
{
    let greatest = B::max_value();
    if greatest.number() < low {
        return Interval::empty();
    }
    Interval::new(nearest(low), greatest)
}

/// The interval of the numbers of the range that are at most a number.
fn to_greatest<B: Width>(high: i128) -> Interval<B>
    ensures { (z : ℤ) → IsBetween result z ↔ (IsBetween B.whole z × (z ≤ℤ high)) }
{
    let least = B::min_value();
    if high < least.number() {
        return Interval::empty();
    }
    Interval::new(least, nearest(high))
}

/// The greatest number whose product with a positive divisor is at most a value.
fn quotient(value: i128, divisor: i128) -> i128
    requires { pos 0 <ℤ divisor }
    ensures greatest { (z : ℤ) → ((divisor *ℤ z) ≤ℤ value) ↔ (z ≤ℤ result) }
    ensures small { unsigned_abs result ≤ unsigned_abs value }
{
    value.div_euclid(divisor)
}

/// The interval of the numbers of the range whose product with a coefficient is at most a value.
pub(super) fn window<B: Width>(coefficient: i64, value: i128) -> Interval<B>
    requires { unsigned_abs value ≤ 2 ^ 126 }
    ensures { (z : ℤ) → IsBetween result z ↔ (IsBetween B.whole z × ((coefficient *ℤ z) ≤ℤ value)) }
{
    if coefficient > 0 {
        return to_greatest(quotient(value, coefficient as i128));
    }
    if coefficient < 0 {
        return from_least(-quotient(value, -(coefficient as i128)));
    }
    if value < 0 {
        return Interval::empty();
    }
    Interval::new(B::min_value(), B::max_value())
}

/// The interval of the numbers of the range whose product with a coefficient is at least a value.
pub(super) fn window_above<B: Width>(coefficient: i64, value: i128) -> Interval<B>
    requires light { unsigned_abs coefficient ≤ 2 ^ 60 }
    requires small { unsigned_abs value ≤ 2 ^ 126 }
    ensures { (z : ℤ) → IsBetween result z ↔ (IsBetween B.whole z × (value ≤ℤ (coefficient *ℤ z))) }
{
    window(-coefficient, -value)
}

/// The interval of the numbers of the range whose product with a coefficient is a value.
pub(super) fn window_at<B: Width>(coefficient: i64, value: i128) -> Interval<B>
    requires light { unsigned_abs coefficient ≤ 2 ^ 60 }
    requires small { unsigned_abs value ≤ 2 ^ 126 }
    ensures { (z : ℤ) → IsBetween result z ↔ (IsBetween B.whole z × ((coefficient *ℤ z) ≡ value)) }
{
    let at_most: Interval<B> = window(coefficient, value);
    at_most.intersection(&window_above(coefficient, value))
}
