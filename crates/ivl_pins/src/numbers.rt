//! The number of each value of the ten types of bounds, and which values a set has, in plain numbers.
//!
//! The contracts of the crates below name the number of a value by a ghost member of its type. Here the number is also
//! given as such, so that a type with all numbers off by one would not be proved.
ghost use Rattle.std.specs.Prelude.{◌≡◌, ◌↔◌, IsTrue, pos};
ghost use Rattle.ivl_laws.specs.Runs.{Covers};

use intervallum::interval_set::IntervalSet;
use intervallum::ops::Overlap;
use intervallum::width::Width;

/// Returns the number of a value of `u8`.
pub fn number_of_u8(x: u8) -> i128
    ensures { result ≡ pos x }
{
    <u8 as Width>::number(x)
}

/// Returns true exactly when the value is a member of the set of `u8`.
pub fn u8_overlaps_set(x: &u8, set: &IntervalSet<u8>) -> bool
    ensures { IsTrue result ↔ Covers set.now (pos x.now) }
{
    x.overlap(set)
}

/// Returns the number of a value of `u16`.
pub fn number_of_u16(x: u16) -> i128
    ensures { result ≡ pos x }
{
    <u16 as Width>::number(x)
}

/// Returns true exactly when the value is a member of the set of `u16`.
pub fn u16_overlaps_set(x: &u16, set: &IntervalSet<u16>) -> bool
    ensures { IsTrue result ↔ Covers set.now (pos x.now) }
{
    x.overlap(set)
}

/// Returns the number of a value of `u32`.
pub fn number_of_u32(x: u32) -> i128
    ensures { result ≡ pos x }
{
    <u32 as Width>::number(x)
}

/// Returns true exactly when the value is a member of the set of `u32`.
pub fn u32_overlaps_set(x: &u32, set: &IntervalSet<u32>) -> bool
    ensures { IsTrue result ↔ Covers set.now (pos x.now) }
{
    x.overlap(set)
}

/// Returns the number of a value of `u64`.
pub fn number_of_u64(x: u64) -> i128
    ensures { result ≡ pos x }
{
    <u64 as Width>::number(x)
}

/// Returns true exactly when the value is a member of the set of `u64`.
pub fn u64_overlaps_set(x: &u64, set: &IntervalSet<u64>) -> bool
    ensures { IsTrue result ↔ Covers set.now (pos x.now) }
{
    x.overlap(set)
}

/// Returns the number of a value of `usize`.
pub fn number_of_usize(x: usize) -> i128
    ensures { result ≡ pos x }
{
    <usize as Width>::number(x)
}

/// Returns true exactly when the value is a member of the set of `usize`.
pub fn usize_overlaps_set(x: &usize, set: &IntervalSet<usize>) -> bool
    ensures { IsTrue result ↔ Covers set.now (pos x.now) }
{
    x.overlap(set)
}

/// Returns the number of a value of `i8`.
pub fn number_of_i8(x: i8) -> i128
    ensures { result ≡ x }
{
    <i8 as Width>::number(x)
}

/// Returns true exactly when the value is a member of the set of `i8`.
pub fn i8_overlaps_set(x: &i8, set: &IntervalSet<i8>) -> bool
    ensures { IsTrue result ↔ Covers set.now x.now }
{
    x.overlap(set)
}

/// Returns the number of a value of `i16`.
pub fn number_of_i16(x: i16) -> i128
    ensures { result ≡ x }
{
    <i16 as Width>::number(x)
}

/// Returns true exactly when the value is a member of the set of `i16`.
pub fn i16_overlaps_set(x: &i16, set: &IntervalSet<i16>) -> bool
    ensures { IsTrue result ↔ Covers set.now x.now }
{
    x.overlap(set)
}

/// Returns the number of a value of `i32`.
pub fn number_of_i32(x: i32) -> i128
    ensures { result ≡ x }
{
    <i32 as Width>::number(x)
}

/// Returns true exactly when the value is a member of the set of `i32`.
pub fn i32_overlaps_set(x: &i32, set: &IntervalSet<i32>) -> bool
    ensures { IsTrue result ↔ Covers set.now x.now }
{
    x.overlap(set)
}

/// Returns the number of a value of `i64`.
pub fn number_of_i64(x: i64) -> i128
    ensures { result ≡ x }
{
    <i64 as Width>::number(x)
}

/// Returns true exactly when the value is a member of the set of `i64`.
pub fn i64_overlaps_set(x: &i64, set: &IntervalSet<i64>) -> bool
    ensures { IsTrue result ↔ Covers set.now x.now }
{
    x.overlap(set)
}

/// Returns the number of a value of `isize`.
pub fn number_of_isize(x: isize) -> i128
    ensures { result ≡ x }
{
    <isize as Width>::number(x)
}

/// Returns true exactly when the value is a member of the set of `isize`.
pub fn isize_overlaps_set(x: &isize, set: &IntervalSet<isize>) -> bool
    ensures { IsTrue result ↔ Covers set.now x.now }
{
    x.overlap(set)
}
