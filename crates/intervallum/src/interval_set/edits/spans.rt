//! Which runs of a set an edit changes.
ghost use Rattle.std.specs.Prelude.{◌≡◌, ◌⊎◌, ◌+◌, ◌<◌, ◌≤◌, pos, ◌+ℤ◌, ◌-ℤ◌, ◌≤ℤ◌, [], IsSomeAnd, IsTrue, None, Some, drop, length, slice_get, take};
ghost use Rattle.ivl_laws.specs.Sets.{IsBetween, IsSubset, Union, Without};
ghost use Rattle.ivl_laws.specs.Runs.{Covers, IsMaximal, IsRunsOf, StartsBy};
ghost use Rattle.ivl_places.specs.Edits.{IsSpan, replaced, widened};
ghost use Rattle.ivl_walks.specs.HeldRun.{led_by};
ghost use Rattle.ivl_places.specs.Places.{EndBelow, EndsFrom, IsPlaceOf, StartAbove};

use crate::interval::Interval;
use crate::interval_set::IntervalSet;
use crate::ops::{Bounded, IsEmpty, Range, StrictShrinkLeft, StrictShrinkRight};
use crate::steps::{Place, Probes, find, find_from, last_up_to};
use crate::width::Width;

/// The places of the runs that end at `lower` or above and start at `upper` or below: the first,
/// and the one after the last. The search for the second starts at the first, and there is none if
/// both numbers are in one run.
pub(super) fn span<B: Width>(
    set: &IntervalSet<B>,
    place: Option<usize>,
    lower: B,
    upper: B,
) -> (usize, usize)
    requires { B.value lower ≤ℤ B.value upper }
    ensures { IsSpan set.now (B.value lower) (B.value upper) result.0 result.1 }
{
    set.in_whole();
    let mut probes = Probes::new(set);
    match find_near(&mut probes, lower, place) {
        Place::In(i) => (i, last_from_run(&mut probes, upper, i)),
        Place::Gap(i) => (i, last_up_to(&mut probes, upper, i)),
    }
}

/// The place of a value. Searches from a place on, if one is given and the runs before it end below
/// the value, and else all runs.
fn find_near<B: Width>(probes: &mut Probes<'_, B>, value: B, place: Option<usize>) -> Place
    ensures place { IsPlaceOf probes.old.runs (B.value value) result }
    ensures same { probes.new.runs ≡ probes.old.runs }
{
    match place {
        Some(place) => find_beside(probes, value, place),
        None => find(probes, value),
    }
}

/// The place of a value. Searches from a place on, if the runs before it end below the value, and else
/// all runs.
fn find_beside<B: Width>(probes: &mut Probes<'_, B>, value: B, place: usize) -> Place
    ensures place { IsPlaceOf probes.old.runs (B.value value) result }
    ensures same { probes.new.runs ≡ probes.old.runs }
{
    if ends_before(probes, place, value) {
        find_from(probes, value, place)
    } else {
        find(probes, value)
    }
}

/// Whether there are runs up to a place, and those before it end below a value.
fn ends_before<B: Width>(probes: &mut Probes<'_, B>, place: usize, value: B) -> bool
    ensures at_most { IsTrue result → place ≤ length probes.old.runs }
    ensures below { IsTrue result → EndBelow (B.value value) (take place probes.old.runs) }
    ensures same { probes.new.runs ≡ probes.old.runs }
{
    let count = probes.len();
    place == 0 || (place <= count && probes.look(place - 1).upper() < value)
}

/// How many runs start at a value or below, as run `i` does, where those before it end below.
fn last_from_run<B: Width>(probes: &mut Probes<'_, B>, value: B, i: usize) -> usize
    requires run { IsSomeAnd (slice_get probes.old.runs i) (λ run. run.0 ≤ℤ B.value value) }
    requires below { EndBelow (B.value value) (take i probes.old.runs) }
    ensures starts { StartsBy (B.value value) (take result probes.old.runs) }
    ensures above { StartAbove (B.value value) (drop result probes.old.runs) }
    ensures at_most { result ≤ length probes.old.runs }
    ensures onwards { i ≤ result }
{
    probes.in_whole();
    let run = probes.look(i);
    if value <= run.upper() {
        i + 1
    } else {
        last_up_to(probes, value, i)
    }
}

/// The places of the runs that overlap or touch an interval: the first, and the one after the last.
pub(super) fn touched<B: Width>(
    set: &IntervalSet<B>,
    place: Option<usize>,
    interval: &Interval<B>,
) -> (usize, usize)
    requires { interval.now.0 ≤ℤ interval.now.1 }
    ensures { IsSpan set.now (interval.now.0 -ℤ pos 1) (interval.now.1 +ℤ pos 1) result.0 result.1 }
{
    set.in_whole();
    let below = one_below(interval.lower());
    let above = one_above(interval.upper());
    span(set, place, below, above)
}

/// The number before, or the number itself if it is the least of the range.
fn one_below<B: Width>(value: B) -> B
    requires { IsBetween B.whole (B.value value) }
    ensures { (B.value result ≡ B.value value -ℤ pos 1) ⊎ ((B.value result ≡ B.value value) × (B.value value ≡ B.whole.0)) }
{
    match value.checked_sub(B::one()) {
        Some(below) => below,
        None => value,
    }
}

/// The number after, or the number itself if it is the greatest of the range.
fn one_above<B: Width>(value: B) -> B
    requires { IsBetween B.whole (B.value value) }
    ensures { (B.value result ≡ B.value value +ℤ pos 1) ⊎ ((B.value result ≡ B.value value) × (B.value value ≡ B.whole.1)) }
{
    match value.checked_add(B::one()) {
        Some(above) => above,
        None => value,
    }
}

/// The run that an interval makes together with those from `start` to before `end`, which are the
/// runs that it overlaps or touches.
pub(super) fn joined<B: Width>(
    runs: &[Interval<B>],
    start: usize,
    end: usize,
    interval: Interval<B>,
) -> Interval<B>
    requires filled { interval.0 ≤ℤ interval.1 }
    requires maximal { IsMaximal runs.now }
    requires span { IsSpan runs.now (interval.0 -ℤ pos 1) (interval.1 +ℤ pos 1) start end }
    ensures { IsRunsOf (replaced runs.now start end (Some result) None) (Union (Covers runs.now) (IsBetween interval)) }
{
    if start == end {
        return interval;
    }
    let lower = interval.lower().min(runs[start].lower());
    let upper = interval.upper().max(runs[end - 1].upper());
    Interval::new(lower, upper)
}

/// What is left below and above an interval of the runs from `start` to before `end`, which are
/// those that it overlaps.
pub(super) fn rests<B: Width>(
    runs: &[Interval<B>],
    start: usize,
    end: usize,
    interval: Interval<B>,
) -> (Option<Interval<B>>, Option<Interval<B>>)
    requires filled { interval.0 ≤ℤ interval.1 }
    requires maximal { IsMaximal runs.now }
    requires span { IsSpan runs.now interval.0 interval.1 start end }
    requires some { start < end }
    ensures rest { IsRunsOf (replaced runs.now start end result.0 result.1) (Without (Covers runs.now) (IsBetween interval)) }
    // two parts of one run
    ensures split { (p : _) (q : _) → end ≡ start + 1 → result.0 ≡ Some p → result.1 ≡ Some q → IsSubset (IsBetween (widened interval)) (Covers runs.now) }
{
    let below = runs[start].strict_shrink_right(interval.lower());
    let above = runs[end - 1].strict_shrink_left(interval.upper());
    (if_filled(below), if_filled(above))
}

/// The interval, if it has a member.
pub(super) fn if_filled<B: Width>(part: Interval<B>) -> Option<Interval<B>>
    ensures { IsRunsOf (led_by result []) (IsBetween part) }
{
    if part.is_empty() { None } else { Some(part) }
}
