//! Overlap of a value, on the left, with a set.
ghost use Rattle.std.specs.Prelude.{pos};
ghost use Rattle.ivl_laws.specs.Sets.{Only};
ghost use Rattle.ivl_laws.specs.Runs.{Covers};

use super::IntervalSet;
use crate::ops::{Contains, Overlap};

impl Overlap<IntervalSet<u8>> for u8 {
    ghost members = { λ x. Only (pos x) };

    ghost other_members = { Covers };

    /// Returns true exactly when the value is a member of `other`. `O(log n)`. Does not allocate.
    ///
    /// ```
    /// let a = IntervalSet::new(alloc, 1u8, 2)?;
    /// assert!(rt; 2.overlap(&a) && !3.overlap(&a));
    /// ```
    fn overlap(&self, other: &IntervalSet<u8>) -> bool {
        other.contains(self)
    }
}

impl Overlap<IntervalSet<u16>> for u16 {
    ghost members = { λ x. Only (pos x) };

    ghost other_members = { Covers };

    /// Returns true exactly when the value is a member of `other`. `O(log n)`. Does not allocate.
    fn overlap(&self, other: &IntervalSet<u16>) -> bool {
        other.contains(self)
    }
}

impl Overlap<IntervalSet<u32>> for u32 {
    ghost members = { λ x. Only (pos x) };

    ghost other_members = { Covers };

    /// Returns true exactly when the value is a member of `other`. `O(log n)`. Does not allocate.
    fn overlap(&self, other: &IntervalSet<u32>) -> bool {
        other.contains(self)
    }
}

impl Overlap<IntervalSet<u64>> for u64 {
    ghost members = { λ x. Only (pos x) };

    ghost other_members = { Covers };

    /// Returns true exactly when the value is a member of `other`. `O(log n)`. Does not allocate.
    fn overlap(&self, other: &IntervalSet<u64>) -> bool {
        other.contains(self)
    }
}

impl Overlap<IntervalSet<usize>> for usize {
    ghost members = { λ x. Only (pos x) };

    ghost other_members = { Covers };

    /// Returns true exactly when the value is a member of `other`. `O(log n)`. Does not allocate.
    fn overlap(&self, other: &IntervalSet<usize>) -> bool {
        other.contains(self)
    }
}

impl Overlap<IntervalSet<i8>> for i8 {
    ghost members = { Only };

    ghost other_members = { Covers };

    /// Returns true exactly when the value is a member of `other`. `O(log n)`. Does not allocate.
    fn overlap(&self, other: &IntervalSet<i8>) -> bool {
        other.contains(self)
    }
}

impl Overlap<IntervalSet<i16>> for i16 {
    ghost members = { Only };

    ghost other_members = { Covers };

    /// Returns true exactly when the value is a member of `other`. `O(log n)`. Does not allocate.
    fn overlap(&self, other: &IntervalSet<i16>) -> bool {
        other.contains(self)
    }
}

impl Overlap<IntervalSet<i32>> for i32 {
    ghost members = { Only };

    ghost other_members = { Covers };

    /// Returns true exactly when the value is a member of `other`. `O(log n)`. Does not allocate.
    fn overlap(&self, other: &IntervalSet<i32>) -> bool {
        other.contains(self)
    }
}

impl Overlap<IntervalSet<i64>> for i64 {
    ghost members = { Only };

    ghost other_members = { Covers };

    /// Returns true exactly when the value is a member of `other`. `O(log n)`. Does not allocate.
    fn overlap(&self, other: &IntervalSet<i64>) -> bool {
        other.contains(self)
    }
}

impl Overlap<IntervalSet<isize>> for isize {
    ghost members = { Only };

    ghost other_members = { Covers };

    /// Returns true exactly when the value is a member of `other`. `O(log n)`. Does not allocate.
    fn overlap(&self, other: &IntervalSet<isize>) -> bool {
        other.contains(self)
    }
}
