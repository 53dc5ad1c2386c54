//! Callers that query a set: neighbours of a value, room, runs, and operations with an interval.
//! None of them needs a hand-written proof.
ghost use Rattle.std.specs.Prelude.{◌≡◌, ◌↔◌, ◌⊎◌, [], ℤ, IfOk, IfSome, IsTrue, MatchOption};
ghost use Rattle.ivl_laws.specs.Sets.{AtLeast, AtMost, HasSome, Intersection, IsBetween, IsSubset, Union, Without};
ghost use Rattle.ivl_laws.specs.Runs.{Covers, IsRunsOf};
ghost use Rattle.ivl_places.specs.Neighbours.{IsGreatest, IsLeast, IsRunWith};
ghost use Rattle.ivl_places.specs.FirstFit.{FitsAt, IsFirstFit};

use intervallum::interval::Interval;
use intervallum::interval_set::IntervalSet;
use intervallum::ops::{Bounded, Difference, Intersection, Overlap, Union};
use intervallum::steps::{Place, Probes, find};
use intervallum::width::{SizeNumber, Width};
use std::alloc::{AllocError, Global};

/// Returns the run above a gap, from the place that a search returns.
pub fn run_above_gap<B: Width>(set: &IntervalSet<B>, value: B) -> Option<Interval<B>>
    ensures { IfSome result (λ run. IsLeast run.0 (AtLeast (B.value value) (Covers set.now))) }
{
    let mut runs = Probes::new(set);
    match find(&mut runs, value) {
        Place::In(_) => None,
        Place::Gap(i) => {
            if i < runs.len() {
                Some(runs.look(i))
            } else {
                None
            }
        }
    }
}

/// Returns the run below a gap, from the place that a search returns.
pub fn run_below_gap<B: Width>(set: &IntervalSet<B>, value: B) -> Option<Interval<B>>
    ensures { IfSome result (λ run. IsGreatest run.1 (AtMost (B.value value) (Covers set.now))) }
{
    let mut runs = Probes::new(set);
    match find(&mut runs, value) {
        Place::In(_) => None,
        Place::Gap(i) => { if i > 0 { Some(runs.look(i - 1)) } else { None } }
    }
}

/// Returns the run that holds a value, from the place that a search returns.
pub fn run_by_find<B: Width>(set: &IntervalSet<B>, value: B) -> Option<Interval<B>>
    ensures { MatchOption result (¬ (Covers set.now (B.value value))) (IsRunWith (B.value value) (Covers set.now)) }
{
    let mut runs = Probes::new(set);
    match find(&mut runs, value) {
        Place::In(i) => Some(runs.look(i)),
        Place::Gap(_) => None,
    }
}

/// Returns the lowest `count` consecutive members, if `count` is tested to be above 0.
pub fn fit_if_some<B: Width>(set: &IntervalSet<B>, count: B::Output) -> Option<Interval<B>>
    ensures { MatchOption result
        ((B.Output.size count ≡ 0) ⊎ ((v : ℤ) → ¬ (FitsAt (B.Output.size count) (Covers set.now) v)))
        (IsFirstFit (B.Output.size count) (Covers set.now)) }
{
    if count.number() > 0 {
        set.first_fit(count)
    } else {
        None
    }
}

/// Returns the numbers of a window that are not members.
pub fn free_in<B: Width>(
    set: &IntervalSet<B>,
    window: &Interval<B>,
) -> Result<IntervalSet<B>, AllocError>
    ensures { IfOk result (λ L. IsRunsOf L (Without (IsBetween window.now) (Covers set.now))) }
{
    set.gaps_within(window)
}

/// Returns the first run of a set, if there is one.
pub fn first_run<B: Width>(set: &IntervalSet<B>) -> Option<Interval<B>>
    ensures { MatchOption result (set.now ≡ []) (λ run. HasSome (IsBetween run)) }
{
    let runs = set.runs();
    if runs.is_empty() { None } else { Some(runs[0]) }
}

/// Returns the set of an interval, whether it is empty or not.
pub fn set_of_interval<B: Width>(
    alloc: Global,
    interval: Interval<B>,
) -> Result<IntervalSet<B>, AllocError>
    ensures { IfOk result (λ L. IsRunsOf L (IsBetween interval)) }
{
    IntervalSet::of(alloc, interval)
}

/// Returns true exactly when each number of an interval is a member.
pub fn has_all_of<B: Width>(set: &IntervalSet<B>, interval: &Interval<B>) -> bool
    ensures { IsTrue result ↔ IsSubset (IsBetween interval.now) (Covers set.now) }
{
    set.includes(interval)
}

/// Returns true exactly when some number of an interval is a member.
pub fn has_some_of<B: Width>(set: &IntervalSet<B>, interval: &Interval<B>) -> bool
    ensures { IsTrue result ↔ HasSome (Intersection (Covers set.now) (IsBetween interval.now)) }
{
    set.overlap(interval)
}

/// Returns the members of a set and of an interval.
pub fn with_interval<B: Width>(
    set: &IntervalSet<B>,
    interval: &Interval<B>,
) -> Result<IntervalSet<B>, AllocError>
    ensures { IfOk result (λ L. IsRunsOf L (Union (Covers set.now) (IsBetween interval.now))) }
{
    set.union(interval)
}

/// Returns the members that lie in an interval.
pub fn within_interval<B: Width>(
    set: &IntervalSet<B>,
    interval: &Interval<B>,
) -> Result<IntervalSet<B>, AllocError>
    ensures { IfOk result (λ L. IsRunsOf L (Intersection (Covers set.now) (IsBetween interval.now))) }
{
    set.intersection(interval)
}

/// Returns the members that do not lie in an interval.
pub fn without_interval<B: Width>(
    set: &IntervalSet<B>,
    interval: &Interval<B>,
) -> Result<IntervalSet<B>, AllocError>
    ensures { IfOk result (λ L. IsRunsOf L (Without (Covers set.now) (IsBetween interval.now))) }
{
    set.difference(interval)
}

/// Returns the least number of the last run, by a walk over the runs: each of them has one.
pub fn start_of_last_run<B: Width>(set: &IntervalSet<B>) -> Option<B> {
    let mut start = None;
    for run in set.runs() {
        start = Some(run.lower());
    }
    start
}
