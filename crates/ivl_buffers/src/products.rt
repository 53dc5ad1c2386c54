//! Products of the members of two lists.
ghost use Rattle.std.specs.Prelude.{IfOk, map};
ghost use Rattle.ivl_laws.specs.Sets.{IsBetween, IsSubset};
ghost use Rattle.ivl_laws.specs.Runs.{Covers};
ghost use Rattle.ivl_buffers.specs.Answers.{AnswersProducts};
ghost use Rattle.ivl_buffers.specs.Products.{Multiplies};

use crate::pair::Pair;
use crate::reading::{are_inside, set_of};
use crate::writing::{OUT_OF_MEMORY, OUT_OF_RANGE, PRODUCT_OUT_OF_RANGE, tell};
use intervallum::interval_set::IntervalSet;
use intervallum::ops::Fits;
use intervallum::width::Width;
use std::alloc::{AllocError, Global};

/// Makes the set of the products, and writes its runs. Returns their number or an error code.
/// `O(n m log (n m))` for `n` and `m` pairs.
pub fn products<R: Pair>(alloc: Global, a: &[R], b: &[R], out: &mut [R]) -> i64
    // The result is `out_of_range` exactly when a member is outside the range; else `product_out_of_range` only if a
    // product of a member of each is, or `out_of_memory`, or the runs of the products are written if there is room, and
    // their number is returned. With a code nothing is written.
    ensures { AnswersProducts R.Bound.whole (Covers (map R.pair a.now)) (Covers (map R.pair b.now)) (map R.pair out.old) (map R.pair out.new) result }
{
    if !are_inside(a) || !are_inside(b) {
        return OUT_OF_RANGE;
    }
    match multiplied(alloc, a, b) {
        Ok(Some(set)) => tell(Ok(set), out),
        Ok(None) => PRODUCT_OUT_OF_RANGE,
        Err(_) => OUT_OF_MEMORY,
    }
}

/// The set of the products; `None` if some product is outside the range.
fn multiplied<R: Pair>(
    alloc: Global,
    a: &[R],
    b: &[R],
) -> Result<Option<IntervalSet<R::Bound>>, AllocError>
    requires first { IsSubset (Covers (map R.pair a.now)) (IsBetween R.Bound.whole) }
    requires second { IsSubset (Covers (map R.pair b.now)) (IsBetween R.Bound.whole) }
    ensures { IfOk result (Multiplies R.Bound.whole (Covers (map R.pair a.now)) (Covers (map R.pair b.now))) }
{
    let left = set_of(alloc, a)?;
    let right = set_of(alloc, b)?;
    product(&left, &right)
}

/// The product of two sets; `None` if some product of members is outside the range.
fn product<B: Width>(
    left: &IntervalSet<B>,
    right: &IntervalSet<B>,
) -> Result<Option<IntervalSet<B>>, AllocError>
    ensures { IfOk result (Multiplies B.whole (Covers left.now) (Covers right.now)) }
{
    if !left.fits_mul(right) {
        return Ok(None);
    }
    Ok(Some((left * right)?))
}
