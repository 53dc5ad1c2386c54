//! The set of the members of a list of pairs.
ghost use Rattle.std.specs.Prelude.{◌≡◌, ◌↔◌, IfOk, IsTrue, map};
ghost use Rattle.ivl_laws.specs.Sets.{IsBetween, IsCrossed, IsSubset};
ghost use Rattle.ivl_laws.specs.Runs.{Covers, IsRunsOf};
ghost use Rattle.ivl_interval.specs.SameInterval.{normal_pair};

use crate::pair::Pair;
use intervallum::interval::Interval;
use intervallum::interval_set::IntervalSet;
use intervallum::ops::Range;
use intervallum::sweep::coalesce;
use intervallum::width::Width;
use std::alloc::{AllocError, Global};

/// Returns true exactly when each member of the pairs is in the range. `O(n)` for `n` pairs, does not
/// allocate.
pub fn are_inside<R: Pair>(runs: &[R]) -> bool
    // True exactly when each number of the pairs is in the range.
    ensures { IsTrue result ↔ IsSubset (Covers (map R.pair runs.now)) (IsBetween R.Bound.whole) }
{
    for run in runs {
        if !is_inside(*run) {
            return false;
        }
    }
    true
}

/// True exactly when each member of the pair is in the range.
pub(crate) fn is_inside<R: Pair>(run: R) -> bool
    ensures { IsTrue result ↔ IsSubset (IsBetween (R.pair run)) (IsBetween R.Bound.whole) }
{
    is_crossed(run) || Interval::in_range(run.lower(), run.upper())
}

/// True exactly when the pair is crossed.
fn is_crossed<R: Pair>(run: R) -> bool
    ensures { IsTrue result ↔ IsCrossed (R.pair run) }
{
    run.upper() < run.lower()
}

/// Returns the set of the members of the pairs. `O(n log n)` for `n` pairs, or `O(n)` if they ascend.
pub fn set_of<R: Pair>(alloc: Global, runs: &[R]) -> Result<IntervalSet<R::Bound>, AllocError>
    requires { IsSubset (Covers (map R.pair runs.now)) (IsBetween R.Bound.whole) }
    // On success, the members are exactly the numbers of the pairs.
    ensures { IfOk result (λ L. IsRunsOf L (Covers (map R.pair runs.now))) }
{
    let mut list = Vec::with_capacity(alloc, runs.len())?;
    for run in runs {
        list.push(interval_of(*run))?;
    }
    coalesce(alloc, list)
}

/// The interval with the members of the pair.
pub(crate) fn interval_of<R: Pair>(run: R) -> Interval<R::Bound>
    requires { IsSubset (IsBetween (R.pair run)) (IsBetween R.Bound.whole) }
    ensures { result ≡ normal_pair (R.pair run) }
{
    if is_crossed(run) {
        Interval::new(R::Bound::one(), R::Bound::zero())
    } else {
        Interval::new(run.lower(), run.upper())
    }
}

/// Returns true exactly when some pair of the list has the number. `O(n)`, does not allocate.
pub fn contains<R: Pair>(runs: &[R], v: R::Bound) -> bool
    // True exactly when some pair has the number.
    ensures { IsTrue result ↔ Covers (map R.pair runs.now) (R.Bound.value v) }
{
    for run in runs {
        if has(*run, v) {
            return true;
        }
    }
    false
}

/// True exactly when the pair has the number.
fn has<R: Pair>(run: R, v: R::Bound) -> bool
    ensures { IsTrue result ↔ IsBetween (R.pair run) (R.Bound.value v) }
{
    run.lower() <= v && v <= run.upper()
}
