//! The greatest member up to a number, and the run that holds a number, by binary search in sorted
//! lists.
ghost use Rattle.std.specs.Prelude.{◌≡◌, ◌↔◌, false, IfSome, IsTrue, MatchOption, map, option_map};
ghost use Rattle.ivl_laws.specs.Sets.{AtMost, IsBetween, IsSubset};
ghost use Rattle.ivl_laws.specs.Runs.{Covers, IsMaximal};
ghost use Rattle.ivl_places.specs.Neighbours.{IsRunWith};
ghost use Rattle.ivl_buffers.specs.Beside.{AnswersPrevious, AnswersRun, IsPreviousIn};
ghost use Rattle.ivl_buffers.specs.Lists.{IsInOrder};

use crate::pair::Pair;
use crate::sorted_lookup::{pair_at, search};

/// Writes a member that is at most `v`, and the greatest one if the list is sorted. Returns whether
/// it found one. `O(log n)`, does not allocate.
pub fn previous_to<R: Pair>(runs: &[R], v: R::Bound, found: &mut R::Bound) -> bool
    // After true the number written is a member that is at most `v`; after false nothing is written. If the list is in
    // order, the number is the greatest such member, and false says that there is none.
    ensures member { IsTrue result → AtMost (R.Bound.value v) (Covers (map R.pair runs.now)) (R.Bound.value found.new) }
    ensures same { result ≡ false → R.Bound.value found.new ≡ R.Bound.value found.old }
    ensures in_order { IsInOrder (map R.pair runs.now)
        → AnswersPrevious (R.Bound.value v) (Covers (map R.pair runs.now)) (R.Bound.value found.old) (R.Bound.value found.new) result }
{
    match greatest_to(runs, v) {
        Some(greatest) => {
            *found = greatest;
            true
        }
        None => false,
    }
}

/// A member that is at most `v`, and the greatest one if the list is sorted.
fn greatest_to<R: Pair>(runs: &[R], v: R::Bound) -> Option<R::Bound>
    ensures member { IfSome result (λ x. AtMost (R.Bound.value v) (Covers (map R.pair runs.now)) (R.Bound.value x)) }
    ensures in_order { IsInOrder (map R.pair runs.now) → IsPreviousIn (R.Bound.value v) (Covers (map R.pair runs.now)) (option_map R.Bound.value result) }
{
    let (place, is_in) = search(runs, v);
    if is_in {
        return Some(v);
    }
    if place == 0 {
        return None;
    }
    greatest_in(runs[place - 1], v)
}

/// The greatest number of a pair that is at most `v`.
fn greatest_in<R: Pair>(run: R, v: R::Bound) -> Option<R::Bound>
    ensures { IsPreviousIn (R.Bound.value v) (IsBetween (R.pair run)) (option_map R.Bound.value result) }
{
    let upper = run.upper();
    let end = if v < upper { v } else { upper };
    if run.lower() <= end { Some(end) } else { None }
}

/// Writes a pair of the list that has `v`, and the run that holds it if the list is one of runs.
/// Returns whether it found one: exactly when `v` is a member, if the list is sorted. `O(log n)`,
/// does not allocate.
pub fn run_at<R: Pair>(runs: &[R], v: R::Bound, found: &mut R) -> bool
    // After true the pair written holds `v`, and its numbers are members; after false nothing is written. If the list
    // is in order, true exactly when `v` is a member; of a list of runs, the pair is the run.
    ensures member { IsTrue result → IsBetween (R.pair found.new) (R.Bound.value v) × IsSubset (IsBetween (R.pair found.new)) (Covers (map R.pair runs.now)) }
    ensures same { result ≡ false → R.pair found.new ≡ R.pair found.old }
    ensures in_order { IsInOrder (map R.pair runs.now) → (IsTrue result ↔ Covers (map R.pair runs.now) (R.Bound.value v)) }
    ensures run { IsMaximal (map R.pair runs.now)
        → AnswersRun (R.Bound.value v) (Covers (map R.pair runs.now)) (R.pair found.old) (R.pair found.new) result }
{
    match pair_with(runs, v) {
        Some(run) => {
            *found = run;
            true
        }
        None => false,
    }
}

/// A pair of the list that has `v`, and the run that holds it if the list is one of runs.
fn pair_with<R: Pair>(runs: &[R], v: R::Bound) -> Option<R>
    ensures member { IfSome result (λ run. IsBetween (R.pair run) (R.Bound.value v) × IsSubset (IsBetween (R.pair run)) (Covers (map R.pair runs.now))) }
    ensures in_order { IsInOrder (map R.pair runs.now) → MatchOption result (¬ (Covers (map R.pair runs.now) (R.Bound.value v))) (λ run. Covers (map R.pair runs.now) (R.Bound.value v)) }
    ensures run { IsMaximal (map R.pair runs.now)
        → MatchOption result (¬ (Covers (map R.pair runs.now) (R.Bound.value v))) (λ run. IsRunWith (R.Bound.value v) (Covers (map R.pair runs.now)) (R.pair run)) }
{
    let (place, is_in) = search(runs, v);
    if is_in { pair_at(runs, place) } else { None }
}
