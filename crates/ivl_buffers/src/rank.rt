//! Members by the number of members below them.
ghost use Rattle.std.specs.Prelude.{ℕ, ◌≤◌, IfOk, MatchOption, map};
ghost use Rattle.ivl_laws.specs.Counts.{IsCountOf};
ghost use Rattle.ivl_laws.specs.Sets.{Below, IsBetween, IsSubset};
ghost use Rattle.ivl_laws.specs.Runs.{Covers};
ghost use Rattle.ivl_buffers.specs.Rank.{AnswersNth, AnswersRank};

use crate::pair::Pair;
use crate::reading::{are_inside, set_of};
use crate::writing::{OUT_OF_MEMORY, OUT_OF_RANGE};
use intervallum::width::Width;
use std::alloc::{AllocError, Global};

/// Writes the number of members below `v` and returns 0, or returns an error code. `O(n log n)` for `n`
/// pairs, or `O(n)` if they ascend.
pub fn rank<R: Pair>(
    alloc: Global,
    a: &[R],
    v: R::Bound,
    found: &mut <R::Bound as Width>::Output,
) -> i64
    // The result is `out_of_range` exactly when a member is outside the range; else the number of members below `v` is
    // written, and 0 returned, or it is `out_of_memory`. With a code nothing is written.
    ensures { AnswersRank R.Bound.whole (R.Bound.value v) (Covers (map R.pair a.now))
        (R.Bound.Output.size found.old) (R.Bound.Output.size found.new) result }
{
    if !are_inside(a) {
        return OUT_OF_RANGE;
    }
    match rank_of(alloc, a, v) {
        Ok(below) => {
            *found = below;
            0
        }
        Err(_) => OUT_OF_MEMORY,
    }
}

/// The number of members below `v`.
fn rank_of<R: Pair>(
    alloc: Global,
    a: &[R],
    v: R::Bound,
) -> Result<<R::Bound as Width>::Output, AllocError>
    requires { IsSubset (Covers (map R.pair a.now)) (IsBetween R.Bound.whole) }
    ensures { IfOk result (λ n. IsCountOf (R.Bound.Output.size n) (Below (R.Bound.value v) (Covers (map R.pair a.now)))) }
{
    let set = set_of(alloc, a)?;
    Ok(set.rank(v))
}

/// Writes the member with exactly `i` members below it and returns 1, or returns 0 if there is none,
/// or an error code. `O(n log n)` for `n` pairs, or `O(n)` if they ascend.
pub fn nth<R: Pair>(
    alloc: Global,
    a: &[R],
    i: <R::Bound as Width>::Output,
    found: &mut R::Bound,
) -> i64
    // The result is `out_of_range` exactly when a member is outside the range; else the member with exactly `i` members
    // below it is written, and 1 returned, or there are no more than `i` members, and 0 is returned, or it is
    // `out_of_memory`. Without 1 nothing is written.
    ensures { AnswersNth R.Bound.whole (R.Bound.Output.size i) (Covers (map R.pair a.now))
        (R.Bound.value found.old) (R.Bound.value found.new) result }
{
    if !are_inside(a) {
        return OUT_OF_RANGE;
    }
    match member_at(alloc, a, i) {
        Ok(Some(member)) => {
            *found = member;
            1
        }
        Ok(None) => 0,
        Err(_) => OUT_OF_MEMORY,
    }
}

/// The member with exactly `i` members below it.
fn member_at<R: Pair>(
    alloc: Global,
    a: &[R],
    i: <R::Bound as Width>::Output,
) -> Result<Option<R::Bound>, AllocError>
    requires { IsSubset (Covers (map R.pair a.now)) (IsBetween R.Bound.whole) }
    ensures { IfOk result (λ found. MatchOption found
        ((n : ℕ) → IsCountOf n (Covers (map R.pair a.now)) → n ≤ R.Bound.Output.size i)
        (λ x. Covers (map R.pair a.now) (R.Bound.value x) × IsCountOf (R.Bound.Output.size i) (Below (R.Bound.value x) (Covers (map R.pair a.now))))) }
{
    let set = set_of(alloc, a)?;
    Ok(set.nth(i))
}
