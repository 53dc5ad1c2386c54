//! The search among the runs of a page.
//!
//! A binary search waits for each run that it looks at before it knows the next one. Here the runs that
//! are looked at do not depend on what was seen, so that they come from memory side by side: those at
//! each 16th place, and then 16 that stand in a row.
ghost use Rattle.std.specs.Prelude.{◌≡◌, ◌+◌, ◌≤◌, drop, length, take, IfSome, MatchOption, None};
ghost use Rattle.ivl_laws.specs.Runs.{Covers, IsMaximal, StartsBy};
ghost use Rattle.ivl_places.specs.Neighbours.{IsRunWith};
ghost use Rattle.ivl_places.specs.Places.{StartAbove};

use intervallum::interval::Interval;
use intervallum::ops::Contains;
use intervallum::width::Width;
use std::hint::select_unpredictable;

/// How many runs in a row are looked at, and how far apart those are that are looked at before.
const STEP: usize = 16;

/// How many runs start at a value or below, and the run that has it, if one has it.
pub(crate) fn find_run<B: Width>(runs: &[Interval<B>], value: B) -> (usize, Option<Interval<B>>)
    requires { IsMaximal runs.now }
    ensures starts { StartsBy (B.value value) (take result.0 runs.now) }
    ensures above { StartAbove (B.value value) (drop result.0 runs.now) }
    ensures run { MatchOption result.1
        (¬ (Covers runs.now (B.value value)))
        (IsRunWith (B.value value) (Covers runs.now)) }
{
    let place = starts_up_to(runs, value);
    (place, run_before(runs, place, value))
}

/// How many runs start at a value or below.
fn starts_up_to<B: Width>(runs: &[Interval<B>], value: B) -> usize
    requires { IsMaximal runs.now }
    ensures starts { StartsBy (B.value value) (take result runs.now) }
    ensures above { StartAbove (B.value value) (drop result runs.now) }
    ensures at_most { result ≤ length runs.now }
{
    if runs.len() < STEP {
        return count_up_to(runs, value);
    }
    let first = row_up_to(runs, value);
    first + count_up_to(&runs[first..first + STEP], value)
}

/// How many runs start at a value or below, by a look at each.
fn count_up_to<B: Width>(runs: &[Interval<B>], value: B) -> usize
    requires { IsMaximal runs.now }
    ensures starts { StartsBy (B.value value) (take result runs.now) }
    ensures above { StartAbove (B.value value) (drop result runs.now) }
    ensures at_most { result ≤ length runs.now }
{
    let mut count = 0;
    for i in 0..runs.len() {
        let is_up_to = runs[i].lower_bound() <= value;
        count = select_unpredictable(is_up_to, i + 1, count);
    }
    count
}

/// The first place of 16 runs in a row: those before it start at a value or below, and those behind them
/// above it.
fn row_up_to<B: Width>(runs: &[Interval<B>], value: B) -> usize
    requires maximal { IsMaximal runs.now }
    requires enough { 16 ≤ length runs.now }
    ensures starts { StartsBy (B.value value) (take result runs.now) }
    ensures above { StartAbove (B.value value) (drop (result + 16) runs.now) }
    ensures at_most { result + 16 ≤ length runs.now }
{
    let last = runs.len() - STEP;
    let mut first = 0;
    let mut next = 0;
    'rows: while next < last {
        next = (next + STEP).min(last);
        let is_up_to = runs[next].lower_bound() <= value;
        first = select_unpredictable(is_up_to, next, first);
    }
    first
}

/// The run before a place, if it has a value.
pub(crate) fn run_before<B: Width>(
    runs: &[Interval<B>],
    place: usize,
    value: B,
) -> Option<Interval<B>>
    requires { IsMaximal runs.now }
    ensures held { IfSome result (IsRunWith (B.value value) (Covers runs.now)) }
    // it is the only one that can have the value where it is the last that starts at the value or below
    ensures none { result ≡ None → place ≤ length runs.now → StartsBy (B.value value) (take place runs.now) → StartAbove (B.value value) (drop place runs.now) → ¬ (Covers runs.now (B.value value)) }
{
    if place == 0 {
        return None;
    }
    if runs.len() < place {
        return None;
    }
    let run = runs[place - 1];
    if run.contains(&value) {
        Some(run)
    } else {
        None
    }
}
