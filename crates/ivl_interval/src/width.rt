//! The types of bounds and of sizes, and the numbers of their values.
ghost use Rattle.std.specs.Prelude.{◌≡◌, ℕ, ◌+◌, ◌-◌, ◌^◌, ◌<◌, ◌≤◌, ◌↔◌, ℤ, pos, ◌+ℤ◌, ◌-ℤ◌, ◌*ℤ◌, ◌≤ℤ◌, IsSome, IfSome};
ghost use Rattle.ivl_laws.specs.Sets.{IsBetween, IsInRange};
ghost use Rattle.ivl_laws.specs.Bounds.{width_of, OrdersByNumber, OrdersByCount, IsBoundRange};

pub mod addresses;
pub mod characters;
pub mod full;
mod signed;
mod sizes;
mod unsigned;

/// The type of the number of members of an interval or a set.
///
/// Its numbers are those from 0 to a greatest one. `u8`, `u16`, `u32`, `u64` and `usize` have it,
/// and there every value of the type is a number.
///
/// No call allocates.
///
/// ```
/// assert_eq!(rt; <u8 as SizeNumber>::from_number(255), Some(255));
/// assert_eq!(rt; <u8 as SizeNumber>::from_number(256), None);
/// ```
pub trait SizeNumber: Ord + Copy {
    /// The number of a value.
    ghost size: { Self → ℕ };

    /// The greatest number of a value.
    ghost greatest: { ℕ };

    /// Returns the number of a value.
    ///
    /// ```
    /// assert_eq!(rt; <u8 as SizeNumber>::number(255), 255);
    /// ```
    fn number(self) -> u128
        // The result is the number of the size, which is at most the greatest of the type.
        ensures number { result ≡ size self }
        ensures at_most { size self ≤ greatest };

    /// Returns the value of a number, or `None` if the number is above the greatest one.
    ///
    /// ```
    /// assert_eq!(rt; <u8 as SizeNumber>::from_number(256), None);
    /// ```
    fn from_number(number: u128) -> Option<Self>
        // The result is the size with this number, or `None` exactly when the number is above the greatest of the type.
        ensures known { IsSome result ↔ (number ≤ greatest) }
        ensures same_number { IfSome result (λ x. size x ≡ number) };

    /// Returns the value of 0.
    ///
    /// ```
    /// assert_eq!(rt; <u8 as SizeNumber>::zero(), 0);
    /// ```
    fn zero() -> Self
        // The result is the size with the number 0.
        ensures { size result ≡ 0 }
    {
        Self::from_number(0).unwrap()
    }

    /// Returns the sum, or `None` if it is not a number of the type.
    ///
    /// ```
    /// assert_eq!(rt; <u8 as SizeNumber>::checked_add(200, 55), Some(255));
    /// assert_eq!(rt; <u8 as SizeNumber>::checked_add(200, 56), None);
    /// ```
    fn checked_add(self, other: Self) -> Option<Self>
        // The result is the sum, or `None` exactly when the sum is above the greatest number of the type.
        ensures known { IsSome result ↔ (size self + size other ≤ greatest) }
        ensures same_number { IfSome result (λ x. size x ≡ size self + size other) }
    {
        Self::from_number(self.number().checked_add(other.number())?)
    }

    /// Returns the difference, or `None` if it is negative.
    ///
    /// ```
    /// assert_eq!(rt; <u8 as SizeNumber>::checked_sub(3, 4), None);
    /// ```
    fn checked_sub(self, other: Self) -> Option<Self>
        // The result is the difference, or `None` exactly when `other` is greater than `self`.
        ensures known { IsSome result ↔ (size other ≤ size self) }
        ensures same_number { IfSome result (λ x. size x + size other ≡ size self) }
    {
        Self::from_number(self.number().checked_sub(other.number())?)
    }

    /// Returns the sum. The caller must ensure that it is a number of the type. Check with
    /// `checked_add(other).is_some()`.
    ///
    /// ```
    /// assert!(rt; <u8 as SizeNumber>::checked_add(200, 55).is_some());
    /// assert_eq!(rt; <u8 as SizeNumber>::add_in_range(200, 55), 255);
    /// ```
    fn add_in_range(self, other: Self) -> Self
        requires { size self + size other ≤ greatest }
        // The result is the sum.
        ensures { size result ≡ size self + size other }
    {
        self.checked_add(other).unwrap()
    }

    /// Order and equality of values are those of their numbers.
    ghost ordered: { OrdersByCount size Self.eq Self.partial_cmp Self.cmp };

    ghost bounded: { greatest < 2 ^ 128 };
}

/// The type of the bounds of an interval.
///
/// Each value has a number, and no two values have the same number. The numbers of intervals are
/// those of the range, from `min_value()` to `max_value()`; a value outside the range, such as
/// `255u8` or `-128i8`, is a member of no interval but may be tested. The range holds 0 and 1 and
/// lies within the 64-bit numbers, and its size is a number of `Output`.
///
/// | Type | from | to | `Output` |
/// |---|---|---|---|
/// | `u8`, `u16`, `u32`, `u64`, `usize` | 0 | the greatest value less 1 | the type itself |
/// | `i8`, `i16`, `i32`, `i64`, `isize` | the least value plus 1 | the greatest value | the unsigned type of its width |
/// | [`Full<u8>`](crate::width::full::Full), `Full<u16>`, `Full<u32>` | 0 | the greatest value | `u16`, `u32`, `u64` |
///
/// ```
/// assert_eq!(rt; <u8 as Width>::max_value(), 254);
/// assert_eq!(rt; <i8 as Width>::min_value(), -127);
/// ```
pub trait Width: Ord + Copy {
    /// The type of sizes.
    type Output: SizeNumber;

    /// The number of a value.
    ghost value: { Self → ℤ };

    /// The value that has a number.
    ghost at: { ℤ → Self };

    /// The least and the greatest number that an interval may have.
    ghost whole: { ℤ × ℤ };

    /// Returns the least value of the range.
    ///
    /// ```
    /// assert_eq!(rt; <i8 as Width>::min_value(), -127);
    /// ```
    fn min_value() -> Self
        // The result is the least value of the range.
        ensures { value result ≡ whole.0 };

    /// Returns the greatest value of the range.
    ///
    /// ```
    /// assert_eq!(rt; <u8 as Width>::max_value(), 254);
    /// ```
    fn max_value() -> Self
        // The result is the greatest value of the range.
        ensures { value result ≡ whole.1 };

    /// Returns the number of a value.
    ///
    /// ```
    /// assert_eq!(rt; <i8 as Width>::number(-128), -128);
    /// ```
    fn number(self) -> i128
        // The result is the number of the value.
        ensures { result ≡ value self };

    /// Returns the value of a number, or `None` if the number is not in the range.
    ///
    /// ```
    /// assert_eq!(rt; <u8 as Width>::from_number(254), Some(254));
    /// assert_eq!(rt; <u8 as Width>::from_number(255), None);
    /// ```
    fn from_number(number: i128) -> Option<Self>
        // The result is the value with this number, or `None` exactly when the number is not in the range.
        ensures known { IsSome result ↔ IsBetween whole number }
        ensures same_number { IfSome result (λ x. value x ≡ number) };

    /// Returns how many numbers there are from `lower` to `upper`, both included. The caller must
    /// ensure that both are in the range, and `lower` is at most `upper`. Check with
    /// `Interval::in_range(*lower, *upper)` and `lower <= upper`.
    ///
    /// ```
    /// assert_eq!(rt; <i8 as Width>::width(&-127, &127), 255u8);
    /// ```
    fn width(lower: &Self, upper: &Self) -> Self::Output
        requires in_range { IsInRange whole (value lower.now, value upper.now) }
        requires in_order { value lower.now ≤ℤ value upper.now }
        // The result is the number of values from `lower` to `upper`, both included.
        ensures { Self.Output.size result ≡ width_of (value lower.now, value upper.now) }
    {
        let last = (upper.number() - lower.number()) as u128;
        Self::Output::from_number(last + 1).unwrap()
    }

    /// Returns the value of 0.
    ///
    /// ```
    /// assert_eq!(rt; <i8 as Width>::zero(), 0);
    /// ```
    fn zero() -> Self
        // The result is the value with the number 0.
        ensures { value result ≡ pos 0 }
    {
        Self::from_number(0).unwrap()
    }

    /// Returns the value of 1.
    ///
    /// ```
    /// assert_eq!(rt; <i8 as Width>::one(), 1);
    /// ```
    fn one() -> Self
        // The result is the value with the number 1.
        ensures { value result ≡ pos 1 }
    {
        Self::from_number(1).unwrap()
    }

    /// Returns the sum, or `None` if it is not in the range.
    ///
    /// ```
    /// assert_eq!(rt; <u8 as Width>::checked_add(200, 54), Some(254));
    /// assert_eq!(rt; <u8 as Width>::checked_add(200, 55), None);
    /// ```
    fn checked_add(self, other: Self) -> Option<Self>
        // The result is the sum, or `None` exactly when the sum is not in the range.
        ensures known { IsSome result ↔ IsBetween whole (value self +ℤ value other) }
        ensures same_number { IfSome result (λ x. value x ≡ value self +ℤ value other) }
    {
        Self::from_number(self.number().checked_add(other.number())?)
    }

    /// Returns the difference, or `None` if it is not in the range.
    ///
    /// ```
    /// assert_eq!(rt; <u8 as Width>::checked_sub(3, 4), None);
    /// ```
    fn checked_sub(self, other: Self) -> Option<Self>
        // The result is the difference, or `None` exactly when the difference is not in the range.
        ensures known { IsSome result ↔ IsBetween whole (value self -ℤ value other) }
        ensures same_number { IfSome result (λ x. value x ≡ value self -ℤ value other) }
    {
        Self::from_number(self.number().checked_sub(other.number())?)
    }

    /// Returns the product, or `None` if it is not in the range. Two numbers of 64 bits can have a
    /// product beyond 128 bits, which is outside every range.
    ///
    /// ```
    /// assert_eq!(rt; <i8 as Width>::checked_mul(-64, 2), None);
    /// ```
    fn checked_mul(self, other: Self) -> Option<Self>
        // The result is the product, or `None` exactly when the product is not in the range.
        ensures known { IsSome result ↔ IsBetween whole (value self *ℤ value other) }
        ensures same_number { IfSome result (λ x. value x ≡ value self *ℤ value other) }
    {
        Self::from_number(self.number().checked_mul(other.number())?)
    }

    /// Returns the sum. The caller must ensure that it is in the range. Check with
    /// `checked_add(other).is_some()`.
    ///
    /// ```
    /// assert!(rt; <u8 as Width>::checked_add(200, 54).is_some());
    /// assert_eq!(rt; <u8 as Width>::add_in_range(200, 54), 254);
    /// ```
    fn add_in_range(self, other: Self) -> Self
        requires { IsBetween whole (value self +ℤ value other) }
        // The result is the sum.
        ensures { value result ≡ value self +ℤ value other }
    {
        self.checked_add(other).unwrap()
    }

    /// Returns the difference. The caller must ensure that it is in the range. Check with
    /// `checked_sub(other).is_some()`.
    ///
    /// ```
    /// assert!(rt; <i8 as Width>::checked_sub(3, 4).is_some());
    /// assert_eq!(rt; <i8 as Width>::sub_in_range(3, 4), -1);
    /// ```
    fn sub_in_range(self, other: Self) -> Self
        requires { IsBetween whole (value self -ℤ value other) }
        // The result is the difference.
        ensures { value result ≡ value self -ℤ value other }
    {
        self.checked_sub(other).unwrap()
    }

    /// Returns the product. The caller must ensure that it is in the range. Check with
    /// `checked_mul(other).is_some()`.
    ///
    /// ```
    /// assert!(rt; <i8 as Width>::checked_mul(-64, 1).is_some());
    /// assert_eq!(rt; <i8 as Width>::mul_in_range(-64, 1), -64);
    /// ```
    fn mul_in_range(self, other: Self) -> Self
        requires { IsBetween whole (value self *ℤ value other) }
        // The result is the product.
        ensures { value result ≡ value self *ℤ value other }
    {
        self.checked_mul(other).unwrap()
    }

    /// Order and equality of values are those of their numbers.
    ghost ordered: { OrdersByNumber value Self.eq Self.partial_cmp Self.cmp };

    /// A number belongs to one value only.
    ghost at_value: { (x : Self) → at (value x) ≡ x };

    ghost range: { IsBoundRange whole };

    ghost countable: { width_of whole ≤ Self.Output.greatest };
}
