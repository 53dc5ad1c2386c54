//! Sums and differences of the members of two lists, cut to the range.
ghost use Rattle.std.specs.Prelude.{IfOk, map};
ghost use Rattle.ivl_laws.specs.Sets.{IsBetween, IsSubset, Union};
ghost use Rattle.ivl_laws.specs.Runs.{Covers, IsRunsOf};
ghost use Rattle.ivl_buffers.specs.Answers.{AnswersSet};
ghost use Rattle.ivl_buffers.specs.Sums.{AddedBy};

use crate::pair::Pair;
use crate::reading::{are_inside, set_of};
use crate::writing::{OUT_OF_RANGE, tell};
use intervallum::interval_set::IntervalSet;
use intervallum::width::Width;
use ivl_within::within::{add_within, sub_within};
use std::alloc::{AllocError, Global};

/// What is made of a member of each of two lists.
#[derive(Clone, Copy)]
pub enum Adding {
    /// The first and the second added.
    Sum,
    /// The first less the second.
    Difference,
}

/// Makes the set of the sums or differences that are in the range, and writes its runs.
/// `O(n m log (n m))` for `n` and `m` pairs.
pub fn of_members<R: Pair>(alloc: Global, adding: Adding, a: &[R], b: &[R], out: &mut [R]) -> i64
    // The result is `out_of_range` exactly when a member of either list is outside the range; else the runs of the
    // sums, or by `adding` the differences, that are in the range are written if there is room, and their number is
    // returned, or it is `out_of_memory`. With a code nothing is written.
    ensures { AnswersSet R.Bound.whole (Union (Covers (map R.pair a.now)) (Covers (map R.pair b.now)))
        (AddedBy R.Bound.whole adding (Covers (map R.pair a.now)) (Covers (map R.pair b.now))) (map R.pair out.old) (map R.pair out.new) result }
{
    if !are_inside(a) || !are_inside(b) {
        return OUT_OF_RANGE;
    }
    tell(added(alloc, adding, a, b), out)
}

fn added<R: Pair>(
    alloc: Global,
    adding: Adding,
    a: &[R],
    b: &[R],
) -> Result<IntervalSet<R::Bound>, AllocError>
    requires first { IsSubset (Covers (map R.pair a.now)) (IsBetween R.Bound.whole) }
    requires second { IsSubset (Covers (map R.pair b.now)) (IsBetween R.Bound.whole) }
    ensures { IfOk result (λ L. IsRunsOf L (AddedBy R.Bound.whole adding (Covers (map R.pair a.now)) (Covers (map R.pair b.now)))) }
{
    let left = set_of(alloc, a)?;
    let right = set_of(alloc, b)?;
    combined(adding, &left, &right)
}

fn combined<B: Width>(
    adding: Adding,
    left: &IntervalSet<B>,
    right: &IntervalSet<B>,
) -> Result<IntervalSet<B>, AllocError>
    ensures { IfOk result (λ L. IsRunsOf L (AddedBy B.whole adding (Covers left.now) (Covers right.now))) }
{
    match adding {
        Adding::Sum => Ok(add_within(left, right)?.0),
        Adding::Difference => Ok(sub_within(left, right)?.0),
    }
}
