//! Binary search in sorted lists.
ghost use Rattle.std.specs.Prelude.{◌≡◌, ◌↔◌, ◌≤◌, false, IfSome, IsTrue, MatchOption, drop, length, map, option_map, slice_get, take};
ghost use Rattle.ivl_laws.specs.Sets.{AtLeast, HasNone, IsBetween, IsSubset};
ghost use Rattle.ivl_laws.specs.Runs.{Covers};
ghost use Rattle.ivl_places.specs.Places.{EndBelow, EndsFrom};
ghost use Rattle.ivl_buffers.specs.Lookup.{AnswersNext, IsFirstFrom, IsNextIn, TellsAt};
ghost use Rattle.ivl_buffers.specs.Lists.{IsInOrder};

use crate::lookup::least_in;
use crate::pair::Pair;
pub use ivl_merges::merges::pair_at;

/// Returns true only if some pair of the list has the number, and exactly then if the list is
/// sorted. `O(log n)`, does not allocate.
pub fn contains<R: Pair>(runs: &[R], v: R::Bound) -> bool
    // After true `v` is a member; if the list is in order, true exactly when it is.
    ensures member { IsTrue result → Covers (map R.pair runs.now) (R.Bound.value v) }
    ensures in_order { IsInOrder (map R.pair runs.now) → (IsTrue result ↔ Covers (map R.pair runs.now) (R.Bound.value v)) }
{
    let (_, is_in) = search(runs, v);
    is_in
}

/// Writes a member that is at least `v`, and the least one if the list is sorted. Returns whether
/// it found one. `O(log n)`, does not allocate.
pub fn next_from<R: Pair>(runs: &[R], v: R::Bound, found: &mut R::Bound) -> bool
    // After true the number written is a member that is at least `v`; after false nothing is written. If the list is in
    // order, the number is the least such member, and false says that there is none.
    ensures member { IsTrue result → AtLeast (R.Bound.value v) (Covers (map R.pair runs.now)) (R.Bound.value found.new) }
    ensures same { result ≡ false → R.Bound.value found.new ≡ R.Bound.value found.old }
    ensures in_order { IsInOrder (map R.pair runs.now)
        → AnswersNext (R.Bound.value v) (Covers (map R.pair runs.now)) (R.Bound.value found.old) (R.Bound.value found.new) result }
{
    match least_from(runs, v) {
        Some(least) => {
            *found = least;
            true
        }
        None => false,
    }
}

/// A member that is at least `v`, and the least one if the list is sorted.
fn least_from<R: Pair>(runs: &[R], v: R::Bound) -> Option<R::Bound>
    ensures member { IfSome result (λ x. AtLeast (R.Bound.value v) (Covers (map R.pair runs.now)) (R.Bound.value x)) }
    ensures in_order { IsInOrder (map R.pair runs.now) → IsNextIn (R.Bound.value v) (Covers (map R.pair runs.now)) (option_map R.Bound.value result) }
{
    let run = first_from(runs, v)?;
    least_in(run, v)
}

/// A pair of the list, and the first that ends at `v` or above if the list is sorted.
fn first_from<R: Pair>(runs: &[R], v: R::Bound) -> Option<R>
    ensures members { IfSome result (λ run. IsSubset (IsBetween (R.pair run)) (Covers (map R.pair runs.now))) }
    ensures in_order { IsInOrder (map R.pair runs.now) → MatchOption result
        (HasNone (AtLeast (R.Bound.value v) (Covers (map R.pair runs.now))))
        (λ run. IsFirstFrom (R.Bound.value v) (Covers (map R.pair runs.now)) (R.pair run)) }
{
    let (place, _) = search(runs, v);
    pair_at(runs, place)
}

/// The place of the first pair that ends at `v` or above, or the number of pairs, if the list is
/// sorted; and whether the pair at that place has `v`. No caller takes it in: where one drops half of
/// the answer, the loop for the other half gets a jump that hangs on the values.
#[inline(never)]
pub(crate) fn search<R: Pair>(runs: &[R], v: R::Bound) -> (usize, bool)
    ensures at_most { result.0 ≤ length runs.now }
    ensures has { TellsAt R.pair (R.Bound.value v) (slice_get runs.now result.0) result.1 }
    ensures below { IsInOrder (map R.pair runs.now) → EndBelow (R.Bound.value v) (take result.0 (map R.pair runs.now)) }
    ensures from { EndsFrom (R.Bound.value v) (drop result.0 (map R.pair runs.now)) }
{
    let mut low = 0;
    // how many are left does not depend on what is seen, so the next look need not wait for it; both
    // bounds are read at each, so that no branch chooses the half: a processor would guess it wrong
    // as often as not
    let mut left = runs.len();
    // the last pair seen that does not end below `v` has it
    let mut is_in = false;
    'search: while 0 < left {
        let half = left - left / 2;
        left -= half;
        let run = runs[low + half - 1];
        if run.upper() < v {
            low += half;
        } else {
            is_in = run.lower() <= v;
        }
    }
    (low, is_in)
}
