//! The range of each type of bounds and how many numbers it has, as plain numbers.
//!
//! The contracts of the crates below name the range of a type by a ghost member of the type. Here the range is also
//! given in numbers, so that a range that lost a number at an end would not be proved. `negsuc n` is the number
//! `-(n + 1)`.
ghost use Rattle.std.specs.Prelude.{◌≡◌, negsuc, pos};

use ivl_interval::interval::Interval;
use ivl_interval::ops::{Cardinality, Whole};

/// Returns the range of `u8`.
pub fn whole_of_u8() -> Interval<u8>
    ensures { result ≡ (pos 0, pos 254) }
{
    Interval::whole()
}

/// Returns the size of the range of `u8`: the greatest number of its type of sizes.
pub fn size_of_u8() -> u8
    ensures { result ≡ 255 }
{
    whole_of_u8().size()
}

/// Returns the range of `u16`.
pub fn whole_of_u16() -> Interval<u16>
    ensures { result ≡ (pos 0, pos 65534) }
{
    Interval::whole()
}

/// Returns the size of the range of `u16`: the greatest number of its type of sizes.
pub fn size_of_u16() -> u16
    ensures { result ≡ 65535 }
{
    whole_of_u16().size()
}

/// Returns the range of `u32`.
pub fn whole_of_u32() -> Interval<u32>
    ensures { result ≡ (pos 0, pos 4294967294) }
{
    Interval::whole()
}

/// Returns the size of the range of `u32`: the greatest number of its type of sizes.
pub fn size_of_u32() -> u32
    ensures { result ≡ 4294967295 }
{
    whole_of_u32().size()
}

/// Returns the range of `u64`.
pub fn whole_of_u64() -> Interval<u64>
    ensures { result ≡ (pos 0, pos 18446744073709551614) }
{
    Interval::whole()
}

/// Returns the size of the range of `u64`: the greatest number of its type of sizes.
pub fn size_of_u64() -> u64
    ensures { result ≡ 18446744073709551615 }
{
    whole_of_u64().size()
}

/// Returns the range of `usize`.
pub fn whole_of_usize() -> Interval<usize>
    ensures { result ≡ (pos 0, pos 18446744073709551614) }
{
    Interval::whole()
}

/// Returns the size of the range of `usize`: the greatest number of its type of sizes.
pub fn size_of_usize() -> usize
    ensures { result ≡ 18446744073709551615 }
{
    whole_of_usize().size()
}

/// Returns the range of `i8`.
pub fn whole_of_i8() -> Interval<i8>
    ensures { result ≡ (negsuc 126, pos 127) }
{
    Interval::whole()
}

/// Returns the size of the range of `i8`: the greatest number of its type of sizes.
pub fn size_of_i8() -> u8
    ensures { result ≡ 255 }
{
    whole_of_i8().size()
}

/// Returns the range of `i16`.
pub fn whole_of_i16() -> Interval<i16>
    ensures { result ≡ (negsuc 32766, pos 32767) }
{
    Interval::whole()
}

/// Returns the size of the range of `i16`: the greatest number of its type of sizes.
pub fn size_of_i16() -> u16
    ensures { result ≡ 65535 }
{
    whole_of_i16().size()
}

/// Returns the range of `i32`.
pub fn whole_of_i32() -> Interval<i32>
    ensures { result ≡ (negsuc 2147483646, pos 2147483647) }
{
    Interval::whole()
}

/// Returns the size of the range of `i32`: the greatest number of its type of sizes.
pub fn size_of_i32() -> u32
    ensures { result ≡ 4294967295 }
{
    whole_of_i32().size()
}

/// Returns the range of `i64`.
pub fn whole_of_i64() -> Interval<i64>
    ensures { result ≡ (negsuc 9223372036854775806, pos 9223372036854775807) }
{
    Interval::whole()
}

/// Returns the size of the range of `i64`: the greatest number of its type of sizes.
pub fn size_of_i64() -> u64
    ensures { result ≡ 18446744073709551615 }
{
    whole_of_i64().size()
}

/// Returns the range of `isize`.
pub fn whole_of_isize() -> Interval<isize>
    ensures { result ≡ (negsuc 9223372036854775806, pos 9223372036854775807) }
{
    Interval::whole()
}

/// Returns the size of the range of `isize`: the greatest number of its type of sizes.
pub fn size_of_isize() -> usize
    ensures { result ≡ 18446744073709551615 }
{
    whole_of_isize().size()
}
