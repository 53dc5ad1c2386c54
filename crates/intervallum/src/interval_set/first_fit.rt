//! Consecutive members, and the numbers of an interval that are not members.
ghost use Rattle.std.specs.Prelude.{◌≡◌, ◌<◌, ◌≤◌, ℤ, pos, ◌+ℤ◌, ◌-ℤ◌, IfOk, IsSomeAnd, MatchOption, length, slice_get};
ghost use Rattle.ivl_laws.specs.Bounds.{width_of};
ghost use Rattle.ivl_laws.specs.Sets.{AtLeast, IsBetween, Without};
ghost use Rattle.ivl_laws.specs.Runs.{Covers, IsRunListIn, IsRunsOf};
ghost use Rattle.ivl_places.specs.FirstFit.{FitsAt, IsFirstFit};

use super::IntervalSet;
use super::shrinks::cut;
use crate::interval::Interval;
use crate::ops::{Bounded, Cardinality, Difference, Range};
use crate::steps::{Place, Probes, find};
use crate::width::{SizeNumber, Width};
use std::alloc::AllocError;

impl<B: Width> IntervalSet<B> {
    /// Returns the lowest interval of exactly `count` consecutive members, or `None` if there is
    /// none. The caller must ensure that `count` is above 0. Check with `count.number() > 0`.
    ///
    /// Scans the runs up to the first that is long enough: `O(n)`. Does not allocate.
    ///
    /// ```
    /// let a: IntervalSet<i32> = [(1, 2), (5, 9)].to_interval_set(alloc)?;
    /// assert!(rt; a.first_fit(3) == Some(Interval::new(5, 7)));
    /// assert!(rt; a.first_fit(6).is_none());
    /// ```
    pub fn first_fit(&self, count: B::Output) -> Option<Interval<B>>
        requires { 0 < B.Output.size count }
        // The result is the lowest `count` consecutive members, or `None` if there are none.
        ensures { MatchOption result
            ((v : ℤ) → ¬ (FitsAt (B.Output.size count) (Covers self.now) v))
            (IsFirstFit (B.Output.size count) (Covers self.now)) }
    {
        fit_in(self.as_runs(), count)
    }

    /// Returns the lowest interval of exactly `count` consecutive members that are all at least
    /// `v`, or `None` if there is none. `v` may be any value of its type. The caller must ensure
    /// that `count` is above 0. Check with `count.number() > 0`.
    ///
    /// Finds `v` by binary search and scans the `k` runs from there up to the first that is long
    /// enough: `O(log n + k)`. Does not allocate.
    ///
    /// ```
    /// let a: IntervalSet<i32> = [(1, 2), (5, 9)].to_interval_set(alloc)?;
    /// assert!(rt; a.first_fit_from(6, 3) == Some(Interval::new(6, 8)));
    /// assert!(rt; a.first_fit_from(8, 3).is_none());
    /// ```
    pub fn first_fit_from(&self, v: B, count: B::Output) -> Option<Interval<B>>
        requires { 0 < B.Output.size count }
        // The result is the lowest `count` consecutive members that are at least `v`, or `None` if there are none.
        ensures { MatchOption result
            ((w : ℤ) → ¬ (FitsAt (B.Output.size count) (AtLeast (B.value v) (Covers self.now)) w))
            (IsFirstFit (B.Output.size count) (AtLeast (B.value v) (Covers self.now))) }
    {
        let runs = self.as_runs();
        let mut probes = Probes::new(self);
        match find(&mut probes, v) {
            Place::Gap(i) => fit_in(&runs[i..], count),
            Place::In(i) => fit_from_run(runs, i, v, count),
        }
    }

    /// Returns the numbers of the interval that are not members. Fails only if allocation fails.
    ///
    /// `O(log n + k)`, where `k` runs overlap the interval. Reserves `k + 1` runs for the result,
    /// and at most about twice as many more until it returns.
    ///
    /// ```
    /// let a: IntervalSet<i32> = [(1, 2), (5, 6)].to_interval_set(alloc)?;
    /// let free = a.gaps_within(&Interval::new(2, 7))?;
    /// assert!(rt; free == [(3, 4), (7, 7)].to_interval_set(alloc)?);
    /// ```
    pub fn gaps_within(&self, window: &Interval<B>) -> Result<IntervalSet<B>, AllocError>
        // On success, the members are exactly the numbers of the window that are not in the set.
        ensures { IfOk result (λ L. IsRunsOf L (Without (IsBetween window.now) (Covers self.now))) }
    {
        let members = cut(self, window)?;
        let all = IntervalSet::of(self.allocator(), *window)?;
        all.difference(&members)
    }
}

/// The lowest `count` consecutive numbers that are at least `v` and lie in one of the runs. Run
/// number `i` holds `v`.
fn fit_from_run<B: Width>(
    runs: &[Interval<B>],
    i: usize,
    v: B,
    count: B::Output,
) -> Option<Interval<B>>
    requires above_zero { 0 < B.Output.size count }
    requires runs { IsRunListIn B.whole runs.now }
    requires less { i < length runs.now }
    requires holds { IsSomeAnd (slice_get runs.now i) (λ run. IsBetween run (B.value v)) }
    ensures { MatchOption result
        ((w : ℤ) → ¬ (FitsAt (B.Output.size count) (AtLeast (B.value v) (Covers runs.now)) w))
        (IsFirstFit (B.Output.size count) (AtLeast (B.value v) (Covers runs.now))) }
{
    let run = runs[i];
    let part = Interval::new(v, run.upper());
    if part.size() >= count {
        Some(lowest_of(&part, count))
    } else {
        fit_in(&runs[i + 1..], count)
    }
}

/// The lowest `count` consecutive numbers that lie in one of the runs.
fn fit_in<B: Width>(runs: &[Interval<B>], count: B::Output) -> Option<Interval<B>>
    requires above_zero { 0 < B.Output.size count }
    requires runs { IsRunListIn B.whole runs.now }
    ensures { MatchOption result
        ((v : ℤ) → ¬ (FitsAt (B.Output.size count) (Covers runs.now) v))
        (IsFirstFit (B.Output.size count) (Covers runs.now)) }
{
    for run in runs {
        if run.size() >= count {
            return Some(lowest_of(run, count));
        }
    }
    None
}

/// The lowest `count` numbers of a run that has at least so many.
pub(super) fn lowest_of<B: Width>(run: &Interval<B>, count: B::Output) -> Interval<B>
    requires above_zero { 0 < B.Output.size count }
    requires enough { B.Output.size count ≤ width_of run.now }
    ensures { result ≡ (run.now.0, (run.now.0 +ℤ pos (B.Output.size count)) -ℤ pos 1) }
{
    run.in_whole();
    let start = run.lower_bound();
    let last = start.number() + (count.number() - 1) as i128;
    Interval::new(start, B::from_number(last).unwrap())
}
