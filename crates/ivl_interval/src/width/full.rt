//! Unsigned integers as bounds with every value of their type.
ghost use Rattle.std.specs.Prelude.{◌≡◌, ◌-◌, ◌^◌, pos, refl, unsigned_abs};
ghost use Rattle.ivl_interval.specs.IntegerLaws.{full_order, range_full_u8, countable_full_u8, range_full_u16, countable_full_u16, range_full_u32, countable_full_u32};

use crate::width::Width;

/// An unsigned integer as a bound with every value of its type, so that byte 255 and port 65535 are
/// members of sets.
///
/// `Full<u8>`, `Full<u16>` and `Full<u32>` are bounds. Their sizes are numbers of the next wider
/// type. The value is the field `0`.
///
/// No call allocates.
///
/// ```
/// assert_eq!(rt; <Full<u8> as Width>::max_value().0, 255);
/// assert_eq!(rt; <Full<u8> as Width>::width(&Full(0), &Full(255)), 256u16);
/// ```
#[derive(Clone, Copy, Default, PartialEq, Eq, PartialOrd, Ord, Hash)]
pub struct Full<N>(pub N);

/// From 0 to 255: each value of the type, with sizes of `u16`.
///
/// ```
/// assert_eq!(rt; <Full<u8> as Width>::from_number(255).unwrap().0, 255);
/// assert!(rt; <Full<u8> as Width>::from_number(256).is_none());
/// ```
impl Width for Full<u8> {
    type Output = u16;

    ghost value = { λ x. pos x.0 };

    ghost at = { λ z. record { 0 = unsigned_abs z } };

    ghost whole = { (pos 0, pos (2 ^ 8 - 1)) };

    fn min_value() -> Full<u8>
        // The result is 0.
        ensures { result.0 ≡ 0 }
    {
        Full(u8::MIN)
    }

    fn max_value() -> Full<u8>
        // The result is 2^8 - 1.
        ensures { result.0 ≡ 2 ^ 8 - 1 }
    {
        Full(u8::MAX)
    }

    fn number(self) -> i128 {
        self.0 as i128
    }

    fn from_number(number: i128) -> Option<Full<u8>> {
        match u8::try_from(number) {
            Ok(value) => Some(Full(value)),
            _ => None,
        }
    }

    fn width(lower: &Full<u8>, upper: &Full<u8>) -> u16 {
        upper.0 as u16 - lower.0 as u16 + 1
    }

    fn zero() -> Full<u8> {
        Full(0)
    }

    fn one() -> Full<u8> {
        Full(1)
    }

    fn checked_add(self, other: Full<u8>) -> Option<Full<u8>> {
        match u8::checked_add(self.0, other.0) {
            Some(sum) => Some(Full(sum)),
            _ => None,
        }
    }

    fn checked_sub(self, other: Full<u8>) -> Option<Full<u8>> {
        match u8::checked_sub(self.0, other.0) {
            Some(difference) => Some(Full(difference)),
            _ => None,
        }
    }

    fn checked_mul(self, other: Full<u8>) -> Option<Full<u8>> {
        match u8::try_from(self.0 as u16 * other.0 as u16) {
            Ok(product) => Some(Full(product)),
            _ => None,
        }
    }

    fn add_in_range(self, other: Full<u8>) -> Full<u8> {
        Full(self.0 + other.0)
    }

    fn sub_in_range(self, other: Full<u8>) -> Full<u8> {
        Full(self.0 - other.0)
    }

    fn mul_in_range(self, other: Full<u8>) -> Full<u8> {
        Full(self.0 * other.0)
    }

    ghost ordered = { full_order (λ x. x.0) };

    ghost at_value = { λ x. refl };

    ghost range = { range_full_u8 };

    ghost countable = { countable_full_u8 };
}

/// From 0 to 65535: each value of the type, with sizes of `u32`.
impl Width for Full<u16> {
    type Output = u32;

    ghost value = { λ x. pos x.0 };

    ghost at = { λ z. record { 0 = unsigned_abs z } };

    ghost whole = { (pos 0, pos (2 ^ 16 - 1)) };

    fn min_value() -> Full<u16>
        // The result is 0.
        ensures { result.0 ≡ 0 }
    {
        Full(u16::MIN)
    }

    fn max_value() -> Full<u16>
        // The result is 2^16 - 1.
        ensures { result.0 ≡ 2 ^ 16 - 1 }
    {
        Full(u16::MAX)
    }

    fn number(self) -> i128 {
        self.0 as i128
    }

    fn from_number(number: i128) -> Option<Full<u16>> {
        match u16::try_from(number) {
            Ok(value) => Some(Full(value)),
            _ => None,
        }
    }

    fn width(lower: &Full<u16>, upper: &Full<u16>) -> u32 {
        upper.0 as u32 - lower.0 as u32 + 1
    }

    fn zero() -> Full<u16> {
        Full(0)
    }

    fn one() -> Full<u16> {
        Full(1)
    }

    fn checked_add(self, other: Full<u16>) -> Option<Full<u16>> {
        match u16::checked_add(self.0, other.0) {
            Some(sum) => Some(Full(sum)),
            _ => None,
        }
    }

    fn checked_sub(self, other: Full<u16>) -> Option<Full<u16>> {
        match u16::checked_sub(self.0, other.0) {
            Some(difference) => Some(Full(difference)),
            _ => None,
        }
    }

    fn checked_mul(self, other: Full<u16>) -> Option<Full<u16>> {
        match u16::try_from(self.0 as u32 * other.0 as u32) {
            Ok(product) => Some(Full(product)),
            _ => None,
        }
    }

    fn add_in_range(self, other: Full<u16>) -> Full<u16> {
        Full(self.0 + other.0)
    }

    fn sub_in_range(self, other: Full<u16>) -> Full<u16> {
        Full(self.0 - other.0)
    }

    fn mul_in_range(self, other: Full<u16>) -> Full<u16> {
        Full(self.0 * other.0)
    }

    ghost ordered = { full_order (λ x. x.0) };

    ghost at_value = { λ x. refl };

    ghost range = { range_full_u16 };

    ghost countable = { countable_full_u16 };
}

/// From 0 to 4294967295: each value of the type, with sizes of `u64`.
impl Width for Full<u32> {
    type Output = u64;

    ghost value = { λ x. pos x.0 };

    ghost at = { λ z. record { 0 = unsigned_abs z } };

    ghost whole = { (pos 0, pos (2 ^ 32 - 1)) };

    fn min_value() -> Full<u32>
        // The result is 0.
        ensures { result.0 ≡ 0 }
    {
        Full(u32::MIN)
    }

    fn max_value() -> Full<u32>
        // The result is 2^32 - 1.
        ensures { result.0 ≡ 2 ^ 32 - 1 }
    {
        Full(u32::MAX)
    }

    fn number(self) -> i128 {
        self.0 as i128
    }

    fn from_number(number: i128) -> Option<Full<u32>> {
        match u32::try_from(number) {
            Ok(value) => Some(Full(value)),
            _ => None,
        }
    }

    fn width(lower: &Full<u32>, upper: &Full<u32>) -> u64 {
        upper.0 as u64 - lower.0 as u64 + 1
    }

    fn zero() -> Full<u32> {
        Full(0)
    }

    fn one() -> Full<u32> {
        Full(1)
    }

    fn checked_add(self, other: Full<u32>) -> Option<Full<u32>> {
        match u32::checked_add(self.0, other.0) {
            Some(sum) => Some(Full(sum)),
            _ => None,
        }
    }

    fn checked_sub(self, other: Full<u32>) -> Option<Full<u32>> {
        match u32::checked_sub(self.0, other.0) {
            Some(difference) => Some(Full(difference)),
            _ => None,
        }
    }

    fn checked_mul(self, other: Full<u32>) -> Option<Full<u32>> {
        match u32::try_from(self.0 as u64 * other.0 as u64) {
            Ok(product) => Some(Full(product)),
            _ => None,
        }
    }

    fn add_in_range(self, other: Full<u32>) -> Full<u32> {
        Full(self.0 + other.0)
    }

    fn sub_in_range(self, other: Full<u32>) -> Full<u32> {
        Full(self.0 - other.0)
    }

    fn mul_in_range(self, other: Full<u32>) -> Full<u32> {
        Full(self.0 * other.0)
    }

    ghost ordered = { full_order (λ x. x.0) };

    ghost at_value = { λ x. refl };

    ghost range = { range_full_u32 };

    ghost countable = { countable_full_u32 };
}
