//! The results over each pair of runs of two lists, where most of them join.
ghost use Rattle.std.specs.Prelude.{IfOk, IsTrue};
ghost use Rattle.ivl_laws.specs.Sets.{IsBetween, IsSubset, Union};
ghost use Rattle.ivl_laws.specs.Runs.{Covers, IsMaximal, IsRunsOf};
ghost use Rattle.ivl_images.specs.Sweeps.{ExactResultsBy, ResultsBy};

use super::{Op, coalesce, image, results};
use crate::interval::Interval;
use crate::interval_set::IntervalSet;
use crate::interval_set::run_lists::hull_of_runs;
use crate::ops::{IsEmpty, Union};
use crate::width::Width;
use std::alloc::{AllocError, Global};

/// The fewest runs of each list for which the results of those at the ends come first.
const FEWEST: usize = 64;

/// How many runs at each end of a list come first.
const EDGE: usize = 8;

/// Blocks of at most so many runs of each list are divided no further.
const BLOCK: usize = 32;

/// Nor are blocks of fewer than so many pairs for each run of the set that they are added to, since
/// each union passes over all of that set.
const PAIRS: usize = 64;

/// The set of the results over each pair of runs of two lists. Those of a few runs at the ends of
/// long lists come first: where these leave no gap, the others have nothing to add.
pub(super) fn united_results<B: Width>(
    alloc: Global,
    left: &[Interval<B>],
    right: &[Interval<B>],
    op: Op,
) -> Result<IntervalSet<B>, AllocError>
    requires left { IsMaximal left.now }
    requires right { IsMaximal right.now }
    requires fits { IsSubset (ExactResultsBy op (Covers left.now) (Covers right.now)) (IsBetween B.whole) }
    ensures { IfOk result (λ L. IsRunsOf L (ResultsBy op (Covers left.now) (Covers right.now))) }
{
    if left.len().min(right.len()) < FEWEST {
        return united_halves(alloc, left, right, op);
    }
    let known = with_results(IntervalSet::empty(alloc), &left[..EDGE], right, op)?;
    let left = &left[EDGE..];
    let last = left.len() - EDGE;
    let known = with_results(known, &left[last..], right, op)?;
    let left = &left[..last];
    let known = with_results(known, left, &right[..EDGE], op)?;
    let right = &right[EDGE..];
    let last = right.len() - EDGE;
    let known = with_results(known, left, &right[last..], op)?;
    with_results(known, left, &right[..last], op)
}

/// The members of a set and the results over each pair of runs of two lists. Pairs are left out
/// where the set has all numbers between their results, and else taken in blocks.
fn with_results<B: Width>(
    known: IntervalSet<B>,
    left: &[Interval<B>],
    right: &[Interval<B>],
    op: Op,
) -> Result<IntervalSet<B>, AllocError>
    requires left { IsMaximal left.now }
    requires right { IsMaximal right.now }
    requires fits { IsSubset (ExactResultsBy op (Covers left.now) (Covers right.now)) (IsBetween B.whole) }
    ensures { IfOk result (λ L. IsRunsOf L (Union (Covers known) (ResultsBy op (Covers left.now) (Covers right.now)))) }
{
    if has_results(&known, left, right, op) {
        return Ok(known);
    }
    let pairs = left.len().saturating_mul(right.len());
    if left.len().max(right.len()) <= BLOCK || known.interval_count() > pairs / PAIRS {
        let more = united_halves(known.allocator(), left, right, op)?;
        return known.union(&more);
    }
    if left.len() > right.len() {
        let half = left.len() / 2;
        let known = with_results(known, &left[..half], right, op)?;
        with_results(known, &left[half..], right, op)
    } else {
        let half = right.len() / 2;
        let known = with_results(known, left, &right[..half], op)?;
        with_results(known, left, &right[half..], op)
    }
}

/// A set has all numbers from the least to the greatest result, or there is no result.
fn has_results<B: Width>(
    known: &IntervalSet<B>,
    left: &[Interval<B>],
    right: &[Interval<B>],
    op: Op,
) -> bool
    requires left { IsMaximal left.now }
    requires right { IsMaximal right.now }
    requires fits { IsSubset (ExactResultsBy op (Covers left.now) (Covers right.now)) (IsBetween B.whole) }
    ensures { IsTrue result → IsSubset (ResultsBy op (Covers left.now) (Covers right.now)) (Covers known.now) }
{
    let (first, second) = (hull_of_runs(left), hull_of_runs(right));
    if first.is_empty() || second.is_empty() {
        return true;
    }
    known.includes(&image(first, second, op))
}

/// The set of the results over each pair of runs of two lists: unites those of one half of the
/// shorter list with those of the other.
fn united_halves<B: Width>(
    alloc: Global,
    left: &[Interval<B>],
    right: &[Interval<B>],
    op: Op,
) -> Result<IntervalSet<B>, AllocError>
    requires left { IsMaximal left.now }
    requires right { IsMaximal right.now }
    requires fits { IsSubset (ExactResultsBy op (Covers left.now) (Covers right.now)) (IsBetween B.whole) }
    ensures { IfOk result (λ L. IsRunsOf L (ResultsBy op (Covers left.now) (Covers right.now))) }
{
    let fewer = left.len().min(right.len());
    if fewer < 2 {
        return coalesce(alloc, results(alloc, left, right, op)?);
    }
    let half = fewer / 2;
    if left.len() == fewer {
        let lower = united_halves(alloc, &left[..half], right, op)?;
        let upper = united_halves(alloc, &left[half..], right, op)?;
        lower.union(&upper)
    } else {
        let lower = united_halves(alloc, left, &right[..half], op)?;
        let upper = united_halves(alloc, left, &right[half..], op)?;
        lower.union(&upper)
    }
}
