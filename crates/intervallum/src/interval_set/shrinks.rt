//! Sets cut at a value, from either side, with or without the value.
ghost use Rattle.std.specs.Prelude.{◌≡◌, ◌+◌, ◌≤◌, pos, ◌≤ℤ◌, IfOk, OnOk, length, take, drop};
ghost use Rattle.ivl_laws.specs.Sets.{Above, AtLeast, AtMost, Below, Intersection, IsBetween, Union};
ghost use Rattle.ivl_laws.specs.Runs.{Covers, IsRunListIn, IsRunsOf, StartsBy};
ghost use Rattle.ivl_places.specs.Places.{EndBelow, EndsFrom, StartAbove};
ghost use Rattle.ivl_walks.specs.Order.{IsBelow};

use super::IntervalSet;
use super::builder::grown;
use super::run_lists::size_of_runs;
use crate::interval::Interval;
use crate::ops::{
    Bounded, IsEmpty, ShrinkLeft, ShrinkRight, StrictShrinkLeft, StrictShrinkRight, Whole,
};
use crate::steps::{Probes, runs_before, runs_up_to};
use crate::width::Width;
use std::alloc::{AllocError, Global};

impl<B: Width> ShrinkLeft for IntervalSet<B> {
    type Output = Result<IntervalSet<B>, AllocError>;

    ghost answers = { λ r S. IfOk r (λ L. IsRunsOf L S) };

    /// Returns the members that are at least `lower`, which may be any value of its type. Binary
    /// search: `O(log n + k)` where `k` runs remain. Reserves `k` runs once. Fails only if
    /// allocation fails.
    ///
    /// ```
    /// let a = IntervalSet::new(alloc, 1, 5)?;
    /// assert!(rt; a.shrink_left(3)? == IntervalSet::new(alloc, 3, 5)?);
    /// ```
    fn shrink_left(&self, lower: B) -> Result<IntervalSet<B>, AllocError>
        // On success, the members are exactly those of the set that are at least `lower`, in at most as many runs as
        // the set has.
        ensures members { IfOk result (λ L. IsRunsOf L (AtLeast (B.value lower) (Covers self.now))) }
        ensures runs_at_most { IfOk result (λ L. length L ≤ length self.now) }
    {
        cut(self, &Interval::whole().shrink_left(lower))
    }
}

impl<B: Width> ShrinkRight for IntervalSet<B> {
    type Output = Result<IntervalSet<B>, AllocError>;

    ghost answers = { λ r S. IfOk r (λ L. IsRunsOf L S) };

    /// Returns the members that are at most `upper`, which may be any value of its type. Binary
    /// search: `O(log n + k)` where `k` runs remain. Reserves `k` runs once. Fails only if
    /// allocation fails.
    ///
    /// ```
    /// let a = IntervalSet::new(alloc, 1, 5)?;
    /// assert!(rt; a.shrink_right(3)? == IntervalSet::new(alloc, 1, 3)?);
    /// ```
    fn shrink_right(&self, upper: B) -> Result<IntervalSet<B>, AllocError>
        // On success, the members are exactly those of the set that are at most `upper`, in at most as many runs as the
        // set has.
        ensures members { IfOk result (λ L. IsRunsOf L (AtMost (B.value upper) (Covers self.now))) }
        ensures runs_at_most { IfOk result (λ L. length L ≤ length self.now) }
    {
        cut(self, &Interval::whole().shrink_right(upper))
    }
}

impl<B: Width> StrictShrinkLeft for IntervalSet<B> {
    type Output = Result<IntervalSet<B>, AllocError>;

    ghost answers = { λ r S. IfOk r (λ L. IsRunsOf L S) };

    /// Returns the members above `lower`, which may be any value of its type. Binary search:
    /// `O(log n + k)` where `k` runs remain. Reserves `k` runs once. Fails only if allocation
    /// fails.
    ///
    /// ```
    /// let a = IntervalSet::new(alloc, 1, 5)?;
    /// assert!(rt; a.strict_shrink_left(3)? == IntervalSet::new(alloc, 4, 5)?);
    /// ```
    fn strict_shrink_left(&self, lower: B) -> Result<IntervalSet<B>, AllocError>
        // On success, the members are exactly those of the set that are above `lower`, in at most as many runs as the
        // set has.
        ensures members { IfOk result (λ L. IsRunsOf L (Above (B.value lower) (Covers self.now))) }
        ensures runs_at_most { IfOk result (λ L. length L ≤ length self.now) }
    {
        cut(self, &Interval::whole().strict_shrink_left(lower))
    }
}

impl<B: Width> StrictShrinkRight for IntervalSet<B> {
    type Output = Result<IntervalSet<B>, AllocError>;

    ghost answers = { λ r S. IfOk r (λ L. IsRunsOf L S) };

    /// Returns the members below `upper`, which may be any value of its type. Binary search:
    /// `O(log n + k)` where `k` runs remain. Reserves `k` runs once. Fails only if allocation
    /// fails.
    ///
    /// ```
    /// let a = IntervalSet::new(alloc, 1, 5)?;
    /// assert!(rt; a.strict_shrink_right(3)? == IntervalSet::new(alloc, 1, 2)?);
    /// ```
    fn strict_shrink_right(&self, upper: B) -> Result<IntervalSet<B>, AllocError>
        // On success, the members are exactly those of the set that are below `upper`, in at most as many runs as the
        // set has.
        ensures members { IfOk result (λ L. IsRunsOf L (Below (B.value upper) (Covers self.now))) }
        ensures runs_at_most { IfOk result (λ L. length L ≤ length self.now) }
    {
        cut(self, &Interval::whole().strict_shrink_right(upper))
    }
}

/// The members of a set that lie in an interval.
pub(super) fn cut<B: Width>(
    set: &IntervalSet<B>,
    window: &Interval<B>,
) -> Result<IntervalSet<B>, AllocError>
    ensures members { IfOk result (λ L. IsRunsOf L (Intersection (Covers set.now) (IsBetween window.now))) }
    ensures within { IsRunListIn B.whole set.now }
    ensures runs_at_most { IfOk result (λ L. length L ≤ length set.now) }
{
    let runs = set.as_runs();
    if window.is_empty() {
        return IntervalSet::with_room(set.allocator(), 0);
    }
    let mut probes = Probes::new(set);
    let start = runs_before(&mut probes, window.lower());
    let end = runs_up_to(&mut probes, window.upper());
    let kept = &runs[start..end];
    cut_runs(set.allocator(), kept, window)
}

/// The numbers of runs that lie in an interval: all of each run but the first and the last.
fn cut_runs<B: Width>(
    alloc: Global,
    runs: &[Interval<B>],
    window: &Interval<B>,
) -> Result<IntervalSet<B>, AllocError>
    requires window { window.now.0 ≤ℤ window.now.1 }
    requires runs { IsRunListIn B.whole runs.now }
    requires first { EndsFrom window.now.0 runs.now }
    requires last { StartsBy window.now.1 runs.now }
    ensures members { IfOk result (λ L. IsRunsOf L (Intersection (Covers runs.now) (IsBetween window.now))) }
    ensures runs_at_most { IfOk result (λ L. length L ≤ length runs.now) }
{
    let mut kept = IntervalSet::with_room(alloc, runs.len())?;
    kept.push_cut(runs, window)?;
    Ok(kept)
}

impl<B: Width> IntervalSet<B> {
    /// Adds the part of runs that lies in an interval, which is above the members and not adjacent
    /// to them. Copies the runs and then cuts the first and the last.
    pub(crate) fn push_cut(
        &mut self,
        runs: &[Interval<B>],
        window: &Interval<B>,
    ) -> Result<(), AllocError>
        requires window { window.now.0 ≤ℤ window.now.1 }
        requires runs { IsRunListIn B.whole runs.now }
        requires first { EndsFrom window.now.0 runs.now }
        requires last { StartsBy window.now.1 runs.now }
        requires apart { IsBelow (pos 2) (Covers self.old) (IsBetween window.now) }
        ensures members { OnOk result (IsRunsOf self.new (Union (Covers self.old) (Intersection (Covers runs.now) (IsBetween window.now)))) }
        ensures count { OnOk result (length self.new ≡ length self.old + length runs.now) }
    {
        let count = self.intervals.len();
        self.intervals.extend_from_slice(runs)?;
        cut_ends(&mut self.intervals, count, window);
        let more = size_of_runs(&self.intervals[count..]);
        self.size = grown::<B>(self.size, more);
        Ok(())
    }
}

/// Cuts the runs from a place on to what lies in an interval: the first of them from below, and the
/// last one from above.
fn cut_ends<B: Width>(runs: &mut Vec<Interval<B>>, from: usize, window: &Interval<B>)
    requires at_most { from ≤ length runs.old.items }
    requires window { window.now.0 ≤ℤ window.now.1 }
    requires runs { IsRunListIn B.whole (drop from runs.old.items) }
    requires first { EndsFrom window.now.0 (drop from runs.old.items) }
    requires last { StartsBy window.now.1 (drop from runs.old.items) }
    ensures before { take from runs.new.items ≡ take from runs.old.items }
    ensures members { IsRunsOf (drop from runs.new.items) (Intersection (Covers (drop from runs.old.items)) (IsBetween window.now)) }
    ensures within { IsRunListIn B.whole (drop from runs.new.items) }
    ensures count { length runs.new.items ≡ length runs.old.items }
{
    let count = runs.len();
    if count == from {
        return;
    }
    runs[from] = runs[from].shrink_left(window.lower());
    runs[count - 1] = runs[count - 1].shrink_right(window.upper());
}
