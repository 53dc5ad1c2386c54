//! A range analysis: from the ranges of two variables to an index that needs no test.
ghost use Rattle.std.specs.Prelude.{◌^◌, ◌<◌, ℤ, pos, ◌+ℤ◌, ◌<ℤ◌, ◌≤ℤ◌, IfOk, IsTrue};
ghost use Rattle.ivl_laws.specs.Families.{set_at};
ghost use Rattle.ivl_laws.specs.Runs.{Covers};
ghost use Rattle.ivl_laws.specs.Sets.{IsSubset};

use super::answers::answer_of_a_sum;
use intervallum::interval_set::IntervalSet;
use intervallum::ops::{Contains, Subset};
use ivl_expr::EvalFault;
use std::alloc::{AllocError, Global};

/// Returns the indexes of a list of this length.
pub fn indexes_below(alloc: Global, len: usize) -> Result<IntervalSet<usize>, AllocError>
    ensures { IfOk result (λ L. (z : ℤ) → Covers L z → (pos 0 ≤ℤ z) × (z <ℤ pos len)) }
{
    if len == 0 {
        return Ok(IntervalSet::empty(alloc));
    }
    IntervalSet::new(alloc, 0, len - 1)
}

/// Returns true only if the sum of variables 0 and 1 is an index of a list of this length, for all members of their
/// ranges.
pub fn sum_is_an_index(
    alloc: Global,
    ranges: &[IntervalSet<usize>],
    len: usize,
) -> Result<bool, EvalFault>
    ensures index { IfOk result (λ r. IsTrue r → (x y : ℤ) → set_at ranges.now 0 x → set_at ranges.now 1 y →
        (pos 0 ≤ℤ (x +ℤ y)) × ((x +ℤ y) <ℤ pos len)) }
    // The length is a number of the type, so a sum below it is one too.
    ensures fits { len < 2 ^ 64 }
{
    let sums = answer_of_a_sum(alloc, ranges)?;
    Ok(sums.is_subset(&indexes_below(alloc, len)?))
}

/// Returns the item at `i + offset`, or `None` if one of the two is not in its range or some sum of the ranges may be
/// no index. The sum is not compared with the length.
pub fn item_at<'a>(
    alloc: Global,
    ranges: &[IntervalSet<usize>],
    items: &'a [u8],
    i: usize,
    offset: usize,
) -> Result<Option<&'a u8>, EvalFault> {
    let [first, second] = ranges else {
        return Ok(None);
    };
    if !first.contains(&i) || !second.contains(&offset) {
        return Ok(None);
    }
    if !sum_is_an_index(alloc, ranges, items.len())? {
        return Ok(None);
    }
    Ok(Some(&items[i + offset]))
}
