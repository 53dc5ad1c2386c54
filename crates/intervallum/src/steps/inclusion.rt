//! Whether what one walk has left lies within what another has.
ghost use Rattle.std.specs.Prelude.{◌≡◌, ◌↔◌, ℕ, ◌≤ℤ◌, IsTrue, MatchOption, Some, [], drop, slice_get, take};
ghost use Rattle.ivl_laws.specs.Sets.{AtLeast, IsBetween, IsSubset, SameMembers};
ghost use Rattle.ivl_laws.specs.Runs.{Covers, IsRunListIn};
ghost use Rattle.ivl_places.specs.Places.{EndBelow};

use super::walk::Walk;
use crate::interval::Interval;
use crate::ops::Bounded;
use crate::width::Width;

/// Whether each member of the runs left in one walk is a member of those left in another. Advances
/// at most once for each of these runs: `O(n + m)`. Stops at the first run that is not held. Does
/// not allocate.
pub(crate) fn is_within<B: Width>(mut first: Walk<'_, B>, mut second: Walk<'_, B>) -> bool
    ensures { IsTrue result ↔ IsSubset (Covers first.entry.left) (Covers second.entry.left) }
{
    'walk: while let Some(run) = first.peek() {
        if !is_held(run, &mut second) {
            return false;
        }
        first.advance();
    }
    true
}

/// Whether the runs left in a walk hold each number of a run. Takes those that end below its end.
fn is_held<B: Width>(run: Interval<B>, walk: &mut Walk<'_, B>) -> bool
    requires { run.0 ≤ℤ run.1 }
    ensures held { IsTrue result ↔ IsSubset (IsBetween run) (Covers walk.old.left) }
    ensures left { SameMembers (AtLeast run.1 (Covers walk.old.left)) (AtLeast run.1 (Covers walk.new.left)) }
{
    match skip_below(walk, run.upper()) {
        Some(other) => other.lower() <= run.lower(),
        None => false,
    }
}

/// Takes the runs that end below a value. Returns the first that is left, which it does not take.
fn skip_below<B: Width>(walk: &mut Walk<'_, B>, value: B) -> Option<Interval<B>>
    ensures first { MatchOption result (walk.new.left ≡ []) (λ run. (Some run ≡ slice_get walk.new.left 0) × (B.value value ≤ℤ run.1)) }
    ensures taken { (n : ℕ) × (walk.new.left ≡ drop n walk.old.left) × EndBelow (B.value value) (take n walk.old.left) }
    ensures within { IsRunListIn B.whole walk.old.left }
{
    walk.in_whole();
    'skip: while let Some(run) = walk.peek() {
        if value <= run.upper() {
            return Some(run);
        }
        walk.advance();
    }
    None
}
