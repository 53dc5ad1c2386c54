//! The number of runs below a value, by a search among all or from a place on.
ghost use Rattle.std.specs.Prelude.{◌≡◌, ℕ, ◌+◌, ◌-◌, ◌*◌, ◌^◌, ◌<◌, ◌≤◌, IsTrue, drop, length, take};
ghost use Rattle.ivl_laws.specs.Runs.{StartsBy};
ghost use Rattle.ivl_places.specs.Places.{EndBelow, EndsFrom, IsPlaceOf, StartAbove};

use super::probes::Probes;
use super::search::{Place, find, find_from};
use crate::ops::Bounded;
use crate::width::Width;

/// How many runs end below a value.
pub(crate) fn runs_before<B: Width>(probes: &mut Probes<'_, B>, value: B) -> usize
    ensures below { EndBelow (B.value value) (take result probes.old.runs) }
    ensures ends { EndsFrom (B.value value) (drop result probes.old.runs) }
    ensures at_most { result ≤ length probes.old.runs }
    ensures same { probes.new.runs ≡ probes.old.runs }
{
    probes.in_whole();
    if ends_from(probes, value) {
        return 0;
    }
    match place_of(probes, value) {
        Place::In(first) => first,
        Place::Gap(first) => first,
    }
}

/// Whether no run ends below a value, as in a set that is cut from above alone.
fn ends_from<B: Width>(probes: &mut Probes<'_, B>, value: B) -> bool
    ensures ends { IsTrue result → EndsFrom (B.value value) probes.old.runs }
    ensures same { probes.new.runs ≡ probes.old.runs }
{
    probes.len() == 0 || value <= probes.look(0).upper()
}

/// How many runs start at a value or below.
pub(crate) fn runs_up_to<B: Width>(probes: &mut Probes<'_, B>, value: B) -> usize
    ensures starts { StartsBy (B.value value) (take result probes.old.runs) }
    ensures above { StartAbove (B.value value) (drop result probes.old.runs) }
    ensures at_most { result ≤ length probes.old.runs }
    ensures same { probes.new.runs ≡ probes.old.runs }
{
    probes.in_whole();
    if starts_by(probes, value) {
        return probes.len();
    }
    match place_of(probes, value) {
        Place::In(last) => last + 1,
        Place::Gap(i) => i,
    }
}

/// Whether no run starts above a value, as in a set that is cut from below alone.
fn starts_by<B: Width>(probes: &mut Probes<'_, B>, value: B) -> bool
    ensures starts { IsTrue result → StartsBy (B.value value) probes.old.runs }
    ensures same { probes.new.runs ≡ probes.old.runs }
{
    let count = probes.len();
    count == 0 || probes.look(count - 1).lower() <= value
}

/// As `find`. Not inlined: where only the number is used of what it finds, the compiler makes a jump
/// of each choice of the search.
#[inline(never)]
fn place_of<B: Width>(probes: &mut Probes<'_, B>, value: B) -> Place
    ensures place { IsPlaceOf probes.old.runs (B.value value) result }
    ensures same { probes.new.runs ≡ probes.old.runs }
{
    find(probes, value)
}

/// How many runs end below a value, as the first `from` do. Looks as `find_from` does.
pub(crate) fn first_from<B: Width>(probes: &mut Probes<'_, B>, value: B, from: usize) -> usize
    requires at_most { from ≤ length probes.old.runs }
    requires below { EndBelow (B.value value) (take from probes.old.runs) }
    ensures below { EndBelow (B.value value) (take result probes.old.runs) }
    ensures ends { EndsFrom (B.value value) (drop result probes.old.runs) }
    ensures at_most { result ≤ length probes.old.runs }
    ensures onwards { from ≤ result }
    ensures same { probes.new.runs ≡ probes.old.runs }
    ensures looks { (digits : ℕ) → result - from + 1 < 2 ^ digits → probes.new.looks < probes.old.looks + 2 * digits }
{
    probes.in_whole();
    match find_from(probes, value, from) {
        Place::In(i) => i,
        Place::Gap(i) => i,
    }
}

/// How many runs start at a value or below, as the first `from` do, which end below it. Looks as
/// `find_from` does.
pub(crate) fn last_up_to<B: Width>(probes: &mut Probes<'_, B>, value: B, from: usize) -> usize
    requires at_most { from ≤ length probes.old.runs }
    requires below { EndBelow (B.value value) (take from probes.old.runs) }
    ensures starts { StartsBy (B.value value) (take result probes.old.runs) }
    ensures above { StartAbove (B.value value) (drop result probes.old.runs) }
    ensures at_most { result ≤ length probes.old.runs }
    ensures onwards { from ≤ result }
    ensures same { probes.new.runs ≡ probes.old.runs }
    ensures looks { (digits : ℕ) → result - from + 1 < 2 ^ digits → probes.new.looks < probes.old.looks + 2 * digits }
{
    probes.in_whole();
    match find_from(probes, value, from) {
        Place::In(i) => i + 1,
        Place::Gap(i) => i,
    }
}
