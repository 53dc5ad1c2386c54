//! Accesses `a[i + k]`, given a set of values for each of `i` and `k`.
ghost use Rattle.std.specs.Prelude.{◌≡◌, ◌↔◌, ◌^◌, ℤ, pos, ◌+ℤ◌, ◌<ℤ◌, IfOk, IsTrue};
ghost use Rattle.ivl_laws.specs.Runs.{Covers, IsRunsOf};
ghost use Rattle.ivl_laws.specs.Sets.{HasSome, IsBetween, IsSubset, Sums};
ghost use Rattle.ivl_ranges.specs.Indexes.{IsIndexOf, SafeIn};

use intervallum::interval::Interval;
use intervallum::interval_set::IntervalSet;
use intervallum::ops::{Bounded, Intersection, IsEmpty, Range, Subset};
use std::alloc::AllocError;

/// Returns true if and only if `i + k` is an index of an array of this length for all members `i` of
/// `index` and `k` of `offset`. `O(1)`. Does not allocate.
pub fn is_safe(index: &IntervalSet<i64>, offset: &IntervalSet<i64>, length: u32) -> bool
    ensures { IsTrue result ↔ IsSubset (Sums (Covers index.now) (Covers offset.now)) (IsIndexOf length) }
{
    if offset.is_empty() {
        return true;
    }
    index.in_whole();
    index.hull().is_subset(&window(offset, length))
}

/// Returns the members `i` of `index` for which `i + k` is an index of an array of this length for every member `k` of
/// `offset`, so all of `index` if `offset` is empty.
///
/// `O(n)` for the `n` runs of `index`. Fails only if allocation fails.
pub fn safe_indexes(
    index: &IntervalSet<i64>,
    offset: &IntervalSet<i64>,
    length: u32,
) -> Result<IntervalSet<i64>, AllocError>
    ensures { IfOk result (λ L. IsRunsOf L (SafeIn (Covers index.now) (Covers offset.now) length)) }
{
    if offset.is_empty() {
        return index.try_clone();
    }
    let window = window(offset, length);
    index.in_whole();
    index.intersection(&window)
}

/// The numbers whose sum with every member of a set is an index, as far as they are values of `i64`.
fn window(offset: &IntervalSet<i64>, length: u32) -> Interval<i64>
    requires { HasSome (Covers offset.now) }
    ensures { (x : ℤ) → x <ℤ pos (2 ^ 63)
        → IsBetween result x ↔ ((y : ℤ) → Covers offset.now y → IsIndexOf length (x +ℤ y)) }
{
    let last = i64::from(length) - 1;
    let (lower, upper) = (offset.lower(), offset.upper());
    if upper < last - i64::MAX {
        return Interval::new(-lower, i64::MAX);
    }
    Interval::new(-lower, last - upper)
}
