//! The unsigned integers as bounds: from 0 to the greatest value less 1.
ghost use Rattle.std.specs.Prelude.{◌≡◌, ◌-◌, ◌^◌, pos, refl, unsigned_abs};
ghost use Rattle.ivl_interval.specs.IntegerLaws.{unsigned_order, range_u8, countable_u8, range_u16, countable_u16, range_u32, countable_u32, range_u64, countable_u64};

use crate::width::Width;

/// From 0 to 254, with sizes of `u8`. The greatest value of the type, 255, is outside the range.
///
/// ```
/// assert_eq!(rt; <u8 as Width>::min_value(), 0);
/// assert_eq!(rt; <u8 as Width>::max_value(), 254);
/// ```
impl Width for u8 {
    type Output = u8;

    ghost value = { pos };

    ghost at = { unsigned_abs };

    ghost whole = { (pos 0, pos (2 ^ 8 - 2)) };

    fn min_value() -> u8
        // The result is 0.
        ensures { result ≡ 0 }
    {
        u8::MIN
    }

    fn max_value() -> u8
        // The result is 2^8 - 2.
        ensures { result ≡ 2 ^ 8 - 2 }
    {
        u8::MAX - 1
    }

    fn number(self) -> i128 {
        self as i128
    }

    fn from_number(number: i128) -> Option<u8> {
        match u8::try_from(number) {
            Ok(value) if value < u8::MAX => Some(value),
            _ => None,
        }
    }

    fn width(lower: &u8, upper: &u8) -> u8 {
        *upper - *lower + 1
    }

    fn zero() -> u8 {
        0
    }

    fn one() -> u8 {
        1
    }

    fn checked_add(self, other: u8) -> Option<u8> {
        match u8::checked_add(self, other) {
            Some(sum) if sum < u8::MAX => Some(sum),
            _ => None,
        }
    }

    fn checked_sub(self, other: u8) -> Option<u8> {
        match u8::checked_sub(self, other) {
            Some(difference) if difference < u8::MAX => Some(difference),
            _ => None,
        }
    }

    fn checked_mul(self, other: u8) -> Option<u8> {
        match u8::try_from(self as u16 * other as u16) {
            Ok(product) if product < u8::MAX => Some(product),
            _ => None,
        }
    }

    fn add_in_range(self, other: u8) -> u8 {
        self + other
    }

    fn sub_in_range(self, other: u8) -> u8 {
        self - other
    }

    fn mul_in_range(self, other: u8) -> u8 {
        self * other
    }

    ghost ordered = { unsigned_order };

    ghost at_value = { λ x. refl };

    ghost range = { range_u8 };

    ghost countable = { countable_u8 };
}

/// From 0 to 65534, with sizes of `u16`. The greatest value of the type, 65535, is outside the
/// range.
impl Width for u16 {
    type Output = u16;

    ghost value = { pos };

    ghost at = { unsigned_abs };

    ghost whole = { (pos 0, pos (2 ^ 16 - 2)) };

    fn min_value() -> u16
        // The result is 0.
        ensures { result ≡ 0 }
    {
        u16::MIN
    }

    fn max_value() -> u16
        // The result is 2^16 - 2.
        ensures { result ≡ 2 ^ 16 - 2 }
    {
        u16::MAX - 1
    }

    fn number(self) -> i128 {
        self as i128
    }

    fn from_number(number: i128) -> Option<u16> {
        match u16::try_from(number) {
            Ok(value) if value < u16::MAX => Some(value),
            _ => None,
        }
    }

    fn width(lower: &u16, upper: &u16) -> u16 {
        *upper - *lower + 1
    }

    fn zero() -> u16 {
        0
    }

    fn one() -> u16 {
        1
    }

    fn checked_add(self, other: u16) -> Option<u16> {
        match u16::checked_add(self, other) {
            Some(sum) if sum < u16::MAX => Some(sum),
            _ => None,
        }
    }

    fn checked_sub(self, other: u16) -> Option<u16> {
        match u16::checked_sub(self, other) {
            Some(difference) if difference < u16::MAX => Some(difference),
            _ => None,
        }
    }

    fn checked_mul(self, other: u16) -> Option<u16> {
        match u16::try_from(self as u32 * other as u32) {
            Ok(product) if product < u16::MAX => Some(product),
            _ => None,
        }
    }

    fn add_in_range(self, other: u16) -> u16 {
        self + other
    }

    fn sub_in_range(self, other: u16) -> u16 {
        self - other
    }

    fn mul_in_range(self, other: u16) -> u16 {
        self * other
    }

    ghost ordered = { unsigned_order };

    ghost at_value = { λ x. refl };

    ghost range = { range_u16 };

    ghost countable = { countable_u16 };
}

/// From 0 to 4294967294, with sizes of `u32`. The greatest value of the type, 4294967295, is
/// outside the range.
impl Width for u32 {
    type Output = u32;

    ghost value = { pos };

    ghost at = { unsigned_abs };

    ghost whole = { (pos 0, pos (2 ^ 32 - 2)) };

    fn min_value() -> u32
        // The result is 0.
        ensures { result ≡ 0 }
    {
        u32::MIN
    }

    fn max_value() -> u32
        // The result is 2^32 - 2.
        ensures { result ≡ 2 ^ 32 - 2 }
    {
        u32::MAX - 1
    }

    fn number(self) -> i128 {
        self as i128
    }

    fn from_number(number: i128) -> Option<u32> {
        match u32::try_from(number) {
            Ok(value) if value < u32::MAX => Some(value),
            _ => None,
        }
    }

    fn width(lower: &u32, upper: &u32) -> u32 {
        *upper - *lower + 1
    }

    fn zero() -> u32 {
        0
    }

    fn one() -> u32 {
        1
    }

    fn checked_add(self, other: u32) -> Option<u32> {
        match u32::checked_add(self, other) {
            Some(sum) if sum < u32::MAX => Some(sum),
            _ => None,
        }
    }

    fn checked_sub(self, other: u32) -> Option<u32> {
        match u32::checked_sub(self, other) {
            Some(difference) if difference < u32::MAX => Some(difference),
            _ => None,
        }
    }

    fn checked_mul(self, other: u32) -> Option<u32> {
        match u32::try_from(self as u64 * other as u64) {
            Ok(product) if product < u32::MAX => Some(product),
            _ => None,
        }
    }

    fn add_in_range(self, other: u32) -> u32 {
        self + other
    }

    fn sub_in_range(self, other: u32) -> u32 {
        self - other
    }

    fn mul_in_range(self, other: u32) -> u32 {
        self * other
    }

    ghost ordered = { unsigned_order };

    ghost at_value = { λ x. refl };

    ghost range = { range_u32 };

    ghost countable = { countable_u32 };
}

/// From 0 to 18446744073709551614, with sizes of `u64`. The greatest value of the type,
/// 18446744073709551615, is outside the range.
impl Width for u64 {
    type Output = u64;

    ghost value = { pos };

    ghost at = { unsigned_abs };

    ghost whole = { (pos 0, pos (2 ^ 64 - 2)) };

    fn min_value() -> u64
        // The result is 0.
        ensures { result ≡ 0 }
    {
        u64::MIN
    }

    fn max_value() -> u64
        // The result is 2^64 - 2.
        ensures { result ≡ 2 ^ 64 - 2 }
    {
        u64::MAX - 1
    }

    fn number(self) -> i128 {
        self as i128
    }

    fn from_number(number: i128) -> Option<u64> {
        match u64::try_from(number) {
            Ok(value) if value < u64::MAX => Some(value),
            _ => None,
        }
    }

    fn width(lower: &u64, upper: &u64) -> u64 {
        *upper - *lower + 1
    }

    fn zero() -> u64 {
        0
    }

    fn one() -> u64 {
        1
    }

    fn checked_add(self, other: u64) -> Option<u64> {
        match u64::checked_add(self, other) {
            Some(sum) if sum < u64::MAX => Some(sum),
            _ => None,
        }
    }

    fn checked_sub(self, other: u64) -> Option<u64> {
        match u64::checked_sub(self, other) {
            Some(difference) if difference < u64::MAX => Some(difference),
            _ => None,
        }
    }

    fn checked_mul(self, other: u64) -> Option<u64> {
        match u64::try_from(self as u128 * other as u128) {
            Ok(product) if product < u64::MAX => Some(product),
            _ => None,
        }
    }

    fn add_in_range(self, other: u64) -> u64 {
        self + other
    }

    fn sub_in_range(self, other: u64) -> u64 {
        self - other
    }

    fn mul_in_range(self, other: u64) -> u64 {
        self * other
    }

    ghost ordered = { unsigned_order };

    ghost at_value = { λ x. refl };

    ghost range = { range_u64 };

    ghost countable = { countable_u64 };
}

/// From 0 to 18446744073709551614, with sizes of `usize`. The greatest value of the type,
/// 18446744073709551615, is outside the range.
impl Width for usize {
    type Output = usize;

    ghost value = { pos };

    ghost at = { unsigned_abs };

    ghost whole = { (pos 0, pos (2 ^ 64 - 2)) };

    fn min_value() -> usize
        // The result is 0.
        ensures { result ≡ 0 }
    {
        usize::MIN
    }

    fn max_value() -> usize
        // The result is 2^64 - 2.
        ensures { result ≡ 2 ^ 64 - 2 }
    {
        usize::MAX - 1
    }

    fn number(self) -> i128 {
        self as i128
    }

    fn from_number(number: i128) -> Option<usize> {
        match usize::try_from(number) {
            Ok(value) if value < usize::MAX => Some(value),
            _ => None,
        }
    }

    fn width(lower: &usize, upper: &usize) -> usize {
        *upper - *lower + 1
    }

    fn zero() -> usize {
        0
    }

    fn one() -> usize {
        1
    }

    fn checked_add(self, other: usize) -> Option<usize> {
        match usize::checked_add(self, other) {
            Some(sum) if sum < usize::MAX => Some(sum),
            _ => None,
        }
    }

    fn checked_sub(self, other: usize) -> Option<usize> {
        match usize::checked_sub(self, other) {
            Some(difference) if difference < usize::MAX => Some(difference),
            _ => None,
        }
    }

    fn checked_mul(self, other: usize) -> Option<usize> {
        match usize::try_from(self as u128 * other as u128) {
            Ok(product) if product < usize::MAX => Some(product),
            _ => None,
        }
    }

    fn add_in_range(self, other: usize) -> usize {
        self + other
    }

    fn sub_in_range(self, other: usize) -> usize {
        self - other
    }

    fn mul_in_range(self, other: usize) -> usize {
        self * other
    }

    ghost ordered = { unsigned_order };

    ghost at_value = { λ x. refl };

    ghost range = { range_u64 };

    ghost countable = { countable_u64 };
}
