//! The signed integers as bounds: from the least value plus 1 to the greatest.
ghost use Rattle.std.specs.Prelude.{◌≡◌, ◌-◌, ◌^◌, negsuc, pos, refl};
ghost use Rattle.ivl_interval.specs.IntegerLaws.{signed_order, range_i8, countable_i8, range_i16, countable_i16, range_i32, countable_i32, range_i64, countable_i64};

use crate::width::Width;

/// From -127 to 127, with sizes of `u8`. The least value of the type, -128, is outside the range.
///
/// ```
/// assert_eq!(rt; <i8 as Width>::min_value(), -127);
/// assert_eq!(rt; <i8 as Width>::max_value(), 127);
/// ```
impl Width for i8 {
    type Output = u8;

    ghost value = { λ x. x };

    ghost at = { λ z. z };

    ghost whole = { (negsuc (2 ^ 7 - 2), pos (2 ^ 7 - 1)) };

    fn min_value() -> i8
        // The result is -(2^7 - 1).
        ensures { result ≡ negsuc (2 ^ 7 - 2) }
    {
        i8::MIN + 1
    }

    fn max_value() -> i8
        // The result is 2^7 - 1.
        ensures { result ≡ pos (2 ^ 7 - 1) }
    {
        i8::MAX
    }

    fn number(self) -> i128 {
        self as i128
    }

    fn from_number(number: i128) -> Option<i8> {
        match i8::try_from(number) {
            Ok(value) if value != i8::MIN => Some(value),
            _ => None,
        }
    }

    fn width(lower: &i8, upper: &i8) -> u8 {
        upper.abs_diff(*lower) + 1
    }

    fn zero() -> i8 {
        0
    }

    fn one() -> i8 {
        1
    }

    fn checked_add(self, other: i8) -> Option<i8> {
        match i8::checked_add(self, other) {
            Some(sum) if sum != i8::MIN => Some(sum),
            _ => None,
        }
    }

    fn checked_sub(self, other: i8) -> Option<i8> {
        match i8::checked_sub(self, other) {
            Some(difference) if difference != i8::MIN => Some(difference),
            _ => None,
        }
    }

    fn checked_mul(self, other: i8) -> Option<i8> {
        let product = self as i16 * other as i16;
        if (i8::MIN as i16) < product && product <= i8::MAX as i16 {
            Some(product as i8)
        } else {
            None
        }
    }

    fn add_in_range(self, other: i8) -> i8 {
        self + other
    }

    fn sub_in_range(self, other: i8) -> i8 {
        self - other
    }

    fn mul_in_range(self, other: i8) -> i8 {
        self * other
    }

    ghost ordered = { signed_order };

    ghost at_value = { λ x. refl };

    ghost range = { range_i8 };

    ghost countable = { countable_i8 };
}

/// From -32767 to 32767, with sizes of `u16`. The least value of the type, -32768, is outside the
/// range.
impl Width for i16 {
    type Output = u16;

    ghost value = { λ x. x };

    ghost at = { λ z. z };

    ghost whole = { (negsuc (2 ^ 15 - 2), pos (2 ^ 15 - 1)) };

    fn min_value() -> i16
        // The result is -(2^15 - 1).
        ensures { result ≡ negsuc (2 ^ 15 - 2) }
    {
        i16::MIN + 1
    }

    fn max_value() -> i16
        // The result is 2^15 - 1.
        ensures { result ≡ pos (2 ^ 15 - 1) }
    {
        i16::MAX
    }

    fn number(self) -> i128 {
        self as i128
    }

    fn from_number(number: i128) -> Option<i16> {
        match i16::try_from(number) {
            Ok(value) if value != i16::MIN => Some(value),
            _ => None,
        }
    }

    fn width(lower: &i16, upper: &i16) -> u16 {
        upper.abs_diff(*lower) + 1
    }

    fn zero() -> i16 {
        0
    }

    fn one() -> i16 {
        1
    }

    fn checked_add(self, other: i16) -> Option<i16> {
        match i16::checked_add(self, other) {
            Some(sum) if sum != i16::MIN => Some(sum),
            _ => None,
        }
    }

    fn checked_sub(self, other: i16) -> Option<i16> {
        match i16::checked_sub(self, other) {
            Some(difference) if difference != i16::MIN => Some(difference),
            _ => None,
        }
    }

    fn checked_mul(self, other: i16) -> Option<i16> {
        let product = self as i32 * other as i32;
        if (i16::MIN as i32) < product && product <= i16::MAX as i32 {
            Some(product as i16)
        } else {
            None
        }
    }

    fn add_in_range(self, other: i16) -> i16 {
        self + other
    }

    fn sub_in_range(self, other: i16) -> i16 {
        self - other
    }

    fn mul_in_range(self, other: i16) -> i16 {
        self * other
    }

    ghost ordered = { signed_order };

    ghost at_value = { λ x. refl };

    ghost range = { range_i16 };

    ghost countable = { countable_i16 };
}

/// From -2147483647 to 2147483647, with sizes of `u32`. The least value of the type, -2147483648,
/// is outside the range.
impl Width for i32 {
    type Output = u32;

    ghost value = { λ x. x };

    ghost at = { λ z. z };

    ghost whole = { (negsuc (2 ^ 31 - 2), pos (2 ^ 31 - 1)) };

    fn min_value() -> i32
        // The result is -(2^31 - 1).
        ensures { result ≡ negsuc (2 ^ 31 - 2) }
    {
        i32::MIN + 1
    }

    fn max_value() -> i32
        // The result is 2^31 - 1.
        ensures { result ≡ pos (2 ^ 31 - 1) }
    {
        i32::MAX
    }

    fn number(self) -> i128 {
        self as i128
    }

    fn from_number(number: i128) -> Option<i32> {
        match i32::try_from(number) {
            Ok(value) if value != i32::MIN => Some(value),
            _ => None,
        }
    }

    fn width(lower: &i32, upper: &i32) -> u32 {
        upper.abs_diff(*lower) + 1
    }

    fn zero() -> i32 {
        0
    }

    fn one() -> i32 {
        1
    }

    fn checked_add(self, other: i32) -> Option<i32> {
        match i32::checked_add(self, other) {
            Some(sum) if sum != i32::MIN => Some(sum),
            _ => None,
        }
    }

    fn checked_sub(self, other: i32) -> Option<i32> {
        match i32::checked_sub(self, other) {
            Some(difference) if difference != i32::MIN => Some(difference),
            _ => None,
        }
    }

    fn checked_mul(self, other: i32) -> Option<i32> {
        let product = self as i64 * other as i64;
        if (i32::MIN as i64) < product && product <= i32::MAX as i64 {
            Some(product as i32)
        } else {
            None
        }
    }

    fn add_in_range(self, other: i32) -> i32 {
        self + other
    }

    fn sub_in_range(self, other: i32) -> i32 {
        self - other
    }

    fn mul_in_range(self, other: i32) -> i32 {
        self * other
    }

    ghost ordered = { signed_order };

    ghost at_value = { λ x. refl };

    ghost range = { range_i32 };

    ghost countable = { countable_i32 };
}

/// From -9223372036854775807 to 9223372036854775807, with sizes of `u64`. The least value of the
/// type, -9223372036854775808, is outside the range.
impl Width for i64 {
    type Output = u64;

    ghost value = { λ x. x };

    ghost at = { λ z. z };

    ghost whole = { (negsuc (2 ^ 63 - 2), pos (2 ^ 63 - 1)) };

    fn min_value() -> i64
        // The result is -(2^63 - 1).
        ensures { result ≡ negsuc (2 ^ 63 - 2) }
    {
        i64::MIN + 1
    }

    fn max_value() -> i64
        // The result is 2^63 - 1.
        ensures { result ≡ pos (2 ^ 63 - 1) }
    {
        i64::MAX
    }

    fn number(self) -> i128 {
        self as i128
    }

    fn from_number(number: i128) -> Option<i64> {
        match i64::try_from(number) {
            Ok(value) if value != i64::MIN => Some(value),
            _ => None,
        }
    }

    fn width(lower: &i64, upper: &i64) -> u64 {
        upper.abs_diff(*lower) + 1
    }

    fn zero() -> i64 {
        0
    }

    fn one() -> i64 {
        1
    }

    fn checked_add(self, other: i64) -> Option<i64> {
        match i64::checked_add(self, other) {
            Some(sum) if sum != i64::MIN => Some(sum),
            _ => None,
        }
    }

    fn checked_sub(self, other: i64) -> Option<i64> {
        match i64::checked_sub(self, other) {
            Some(difference) if difference != i64::MIN => Some(difference),
            _ => None,
        }
    }

    fn checked_mul(self, other: i64) -> Option<i64> {
        let product = self as i128 * other as i128;
        if (i64::MIN as i128) < product && product <= i64::MAX as i128 {
            Some(product as i64)
        } else {
            None
        }
    }

    fn add_in_range(self, other: i64) -> i64 {
        self + other
    }

    fn sub_in_range(self, other: i64) -> i64 {
        self - other
    }

    fn mul_in_range(self, other: i64) -> i64 {
        self * other
    }

    ghost ordered = { signed_order };

    ghost at_value = { λ x. refl };

    ghost range = { range_i64 };

    ghost countable = { countable_i64 };
}

/// From -9223372036854775807 to 9223372036854775807, with sizes of `usize`. The least value of the
/// type, -9223372036854775808, is outside the range.
impl Width for isize {
    type Output = usize;

    ghost value = { λ x. x };

    ghost at = { λ z. z };

    ghost whole = { (negsuc (2 ^ 63 - 2), pos (2 ^ 63 - 1)) };

    fn min_value() -> isize
        // The result is -(2^63 - 1).
        ensures { result ≡ negsuc (2 ^ 63 - 2) }
    {
        isize::MIN + 1
    }

    fn max_value() -> isize
        // The result is 2^63 - 1.
        ensures { result ≡ pos (2 ^ 63 - 1) }
    {
        isize::MAX
    }

    fn number(self) -> i128 {
        self as i128
    }

    fn from_number(number: i128) -> Option<isize> {
        match isize::try_from(number) {
            Ok(value) if value != isize::MIN => Some(value),
            _ => None,
        }
    }

    fn width(lower: &isize, upper: &isize) -> usize {
        upper.abs_diff(*lower) + 1
    }

    fn zero() -> isize {
        0
    }

    fn one() -> isize {
        1
    }

    fn checked_add(self, other: isize) -> Option<isize> {
        match isize::checked_add(self, other) {
            Some(sum) if sum != isize::MIN => Some(sum),
            _ => None,
        }
    }

    fn checked_sub(self, other: isize) -> Option<isize> {
        match isize::checked_sub(self, other) {
            Some(difference) if difference != isize::MIN => Some(difference),
            _ => None,
        }
    }

    fn checked_mul(self, other: isize) -> Option<isize> {
        let product = self as i128 * other as i128;
        if (isize::MIN as i128) < product && product <= isize::MAX as i128 {
            Some(product as isize)
        } else {
            None
        }
    }

    fn add_in_range(self, other: isize) -> isize {
        self + other
    }

    fn sub_in_range(self, other: isize) -> isize {
        self - other
    }

    fn mul_in_range(self, other: isize) -> isize {
        self * other
    }

    ghost ordered = { signed_order };

    ghost at_value = { λ x. refl };

    ghost range = { range_i64 };

    ghost countable = { countable_i64 };
}
