//! The unsigned integers with every value of their type, as bounds: their range, their numbers and the sizes of their
//! intervals, in plain numbers.
ghost use Rattle.std.specs.Prelude.{◌≡◌, ◌+◌, ◌-◌, ◌≤◌, ◌<◌, ◌↔◌, pos, IfSome, IsSome, IsTrue};
ghost use Rattle.ivl_laws.specs.Sets.{IsBetween};

use ivl_interval::interval::Interval;
use ivl_interval::ops::{Cardinality, Contains, Whole};
use ivl_interval::width::Width;
use ivl_interval::width::full::Full;

/// Returns the range of `Full<u8>`.
pub fn whole_of_full_u8() -> Interval<Full<u8>>
    ensures { result ≡ (pos 0, pos 255) }
{
    Interval::whole()
}

/// Returns the size of the range of `Full<u8>`.
pub fn size_of_full_u8() -> u16
    ensures { result ≡ 256 }
{
    whole_of_full_u8().size()
}

/// Returns the number of a value, which is the field.
pub fn number_of_full_u8(value: Full<u8>) -> i128
    ensures { result ≡ pos value.0 }
{
    value.number()
}

/// Returns the value of a number, which has the number in its field.
pub fn full_u8_of_number(number: i128) -> Option<Full<u8>>
    ensures known { IsSome result ↔ IsBetween (pos 0, pos 255) number }
    ensures same_number { IfSome result (λ x. pos x.0 ≡ number) }
{
    Full::from_number(number)
}

/// Returns how many values there are from one to another.
pub fn width_of_full_u8(lower: Full<u8>, upper: Full<u8>) -> u16
    requires { lower.0 ≤ upper.0 }
    ensures { result ≡ upper.0 - lower.0 + 1 }
{
    Full::width(&lower, &upper)
}

/// Returns true exactly when the field of one is less than that of the other.
pub fn full_u8_is_less(a: Full<u8>, b: Full<u8>) -> bool
    ensures { IsTrue result ↔ (a.0 < b.0) }
{
    a < b
}

/// Returns true: the greatest value of the type is a member of the range.
pub fn whole_has_last_full_u8() -> bool
    ensures { IsTrue result }
{
    whole_of_full_u8().contains(&Full(u8::MAX))
}

/// Returns the range of `Full<u16>`.
pub fn whole_of_full_u16() -> Interval<Full<u16>>
    ensures { result ≡ (pos 0, pos 65535) }
{
    Interval::whole()
}

/// Returns the size of the range of `Full<u16>`.
pub fn size_of_full_u16() -> u32
    ensures { result ≡ 65536 }
{
    whole_of_full_u16().size()
}

/// Returns the number of a value, which is the field.
pub fn number_of_full_u16(value: Full<u16>) -> i128
    ensures { result ≡ pos value.0 }
{
    value.number()
}

/// Returns the value of a number, which has the number in its field.
pub fn full_u16_of_number(number: i128) -> Option<Full<u16>>
    ensures known { IsSome result ↔ IsBetween (pos 0, pos 65535) number }
    ensures same_number { IfSome result (λ x. pos x.0 ≡ number) }
{
    Full::from_number(number)
}

/// Returns how many values there are from one to another.
pub fn width_of_full_u16(lower: Full<u16>, upper: Full<u16>) -> u32
    requires { lower.0 ≤ upper.0 }
    ensures { result ≡ upper.0 - lower.0 + 1 }
{
    Full::width(&lower, &upper)
}

/// Returns true exactly when the field of one is less than that of the other.
pub fn full_u16_is_less(a: Full<u16>, b: Full<u16>) -> bool
    ensures { IsTrue result ↔ (a.0 < b.0) }
{
    a < b
}

/// Returns true: the greatest value of the type is a member of the range.
pub fn whole_has_last_full_u16() -> bool
    ensures { IsTrue result }
{
    whole_of_full_u16().contains(&Full(u16::MAX))
}

/// Returns the range of `Full<u32>`.
pub fn whole_of_full_u32() -> Interval<Full<u32>>
    ensures { result ≡ (pos 0, pos 4294967295) }
{
    Interval::whole()
}

/// Returns the size of the range of `Full<u32>`.
pub fn size_of_full_u32() -> u64
    ensures { result ≡ 4294967296 }
{
    whole_of_full_u32().size()
}

/// Returns the number of a value, which is the field.
pub fn number_of_full_u32(value: Full<u32>) -> i128
    ensures { result ≡ pos value.0 }
{
    value.number()
}

/// Returns the value of a number, which has the number in its field.
pub fn full_u32_of_number(number: i128) -> Option<Full<u32>>
    ensures known { IsSome result ↔ IsBetween (pos 0, pos 4294967295) number }
    ensures same_number { IfSome result (λ x. pos x.0 ≡ number) }
{
    Full::from_number(number)
}

/// Returns how many values there are from one to another.
pub fn width_of_full_u32(lower: Full<u32>, upper: Full<u32>) -> u64
    requires { lower.0 ≤ upper.0 }
    ensures { result ≡ upper.0 - lower.0 + 1 }
{
    Full::width(&lower, &upper)
}

/// Returns true exactly when the field of one is less than that of the other.
pub fn full_u32_is_less(a: Full<u32>, b: Full<u32>) -> bool
    ensures { IsTrue result ↔ (a.0 < b.0) }
{
    a < b
}

/// Returns true: the greatest value of the type is a member of the range.
pub fn whole_has_last_full_u32() -> bool
    ensures { IsTrue result }
{
    whole_of_full_u32().contains(&Full(u32::MAX))
}
