//! Edits by the runs of a list, one after the other, which are all made or none.
//!
//! An edit can fail only where it makes one run more. So those that do are made first. If one fails, those
//! that were made before it are undone: this makes fewer runs, and cannot fail. Then the others follow, and
//! cannot fail either.
ghost use Rattle.std.specs.Prelude.{◌≡◌, ◌↔◌, ◌++◌, ◌∷◌, [], ◌≤ℤ◌, IsTrue, OnErr, OnOk};
ghost use Rattle.ivl_laws.specs.Sets.{HasSome, Intersection, IsBetween, IsSubset, Union, Without};
ghost use Rattle.ivl_laws.specs.Runs.{Covers, IsMaximal, IsRunsOf};
ghost use Rattle.ivl_places.specs.Edits.{widened};
ghost use Rattle.ivl_paged.specs.InPlace.{AreCut, AreTouching, IsAddedIfApart, IsRemovedIfInside};

use super::PagedSet;
use crate::touched::{one_above, one_below};
use intervallum::interval::Interval;
use intervallum::ops::Bounded;
use intervallum::width::Width;
use std::alloc::AllocError;

impl<B: Width> PagedSet<B> {
    /// Adds the members of some runs. Returns an error, and leaves the set as it is, only if an allocation
    /// fails.
    pub(super) fn insert_runs(&mut self, runs: &[Interval<B>]) -> Result<(), AllocError>
        requires { IsMaximal runs.now }
        ensures ok { OnOk result (IsRunsOf self.new (Union (Covers self.old) (Covers runs.now))) }
        ensures err { OnErr result (self.new ≡ self.old) }
    {
        self.insert_apart(runs)?;
        self.insert_each(runs);
        Ok(())
    }

    /// Removes the members of some runs. Returns an error, and leaves the set as it is, only if an
    /// allocation fails.
    pub(super) fn remove_runs(&mut self, runs: &[Interval<B>]) -> Result<(), AllocError>
        requires { IsMaximal runs.now }
        ensures ok { OnOk result (IsRunsOf self.new (Without (Covers self.old) (Covers runs.now))) }
        ensures err { OnErr result (self.new ≡ self.old) }
    {
        self.remove_inside(runs)?;
        self.remove_each(runs);
        Ok(())
    }

    /// Adds those of some runs that no run overlaps or touches.
    fn insert_apart(&mut self, runs: &[Interval<B>]) -> Result<(), AllocError>
        requires { IsMaximal runs.now }
        ensures kept { OnOk result (IsSubset (Covers self.old) (Covers self.new)) }
        ensures added { OnOk result (IsSubset (Covers self.new) (Union (Covers self.old) (Covers runs.now))) }
        ensures touching { OnOk result (AreTouching (Covers self.new) runs.now) }
        ensures err { OnErr result (self.new ≡ self.old) }
    {
        self.in_whole();
        let mut added = Vec::new(self.alloc);
        for run in runs {
            if self.insert_if_apart(*run, &mut added).is_err() {
                self.remove_each(&added);
                return Err(AllocError);
            }
        }
        Ok(())
    }

    /// Removes those of some runs that lie inside a run and split it.
    fn remove_inside(&mut self, runs: &[Interval<B>]) -> Result<(), AllocError>
        requires { IsMaximal runs.now }
        ensures left { OnOk result (IsSubset (Covers self.new) (Covers self.old)) }
        ensures removed { OnOk result (IsSubset (Without (Covers self.old) (Covers runs.now)) (Covers self.new)) }
        ensures cut { OnOk result (AreCut (Covers self.new) runs.now) }
        ensures err { OnErr result (self.new ≡ self.old) }
    {
        self.in_whole();
        let mut removed = Vec::new(self.alloc);
        for run in runs {
            if self.remove_if_inside(*run, &mut removed).is_err() {
                self.insert_each(&removed);
                return Err(AllocError);
            }
        }
        Ok(())
    }

    /// Adds the members of an interval and writes it behind those that were added, unless a run overlaps or
    /// touches it.
    fn insert_if_apart(
        &mut self,
        interval: Interval<B>,
        added: &mut Vec<Interval<B>>,
    ) -> Result<(), AllocError>
        requires { interval.0 ≤ℤ interval.1 }
        ensures ok { OnOk result (IsAddedIfApart self.old self.new added.old.items added.new.items interval) }
        ensures err { OnErr result ((self.new ≡ self.old) × (added.new.items ≡ added.old.items)) }
    {
        if self.touches(&interval) {
            return Ok(());
        }
        added.reserve(1)?;
        self.insert_interval(interval)?;
        added.push_reserved(interval);
        Ok(())
    }

    /// Removes the members of an interval and writes it behind those that were removed, if it lies inside a
    /// run and splits it.
    fn remove_if_inside(
        &mut self,
        interval: Interval<B>,
        removed: &mut Vec<Interval<B>>,
    ) -> Result<(), AllocError>
        requires { interval.0 ≤ℤ interval.1 }
        ensures ok { OnOk result (IsRemovedIfInside self.old self.new removed.old.items removed.new.items interval) }
        ensures err { OnErr result ((self.new ≡ self.old) × (removed.new.items ≡ removed.old.items)) }
    {
        if !self.has_inside(&interval) {
            return Ok(());
        }
        removed.reserve(1)?;
        self.remove_interval(interval)?;
        removed.push_reserved(interval);
        Ok(())
    }

    /// Adds the members of some intervals, each of which a run overlaps or touches.
    fn insert_each(&mut self, intervals: &[Interval<B>])
        requires { AreTouching (Covers self.old) intervals.now }
        ensures { IsRunsOf self.new (Union (Covers self.old) (Covers intervals.now)) }
    {
        self.in_whole();
        for interval in intervals {
            self.insert_interval(*interval).unwrap();
        }
    }

    /// Removes the members of some intervals, none of which lies inside a run and splits it.
    fn remove_each(&mut self, intervals: &[Interval<B>])
        requires { AreCut (Covers self.old) intervals.now }
        ensures { IsRunsOf self.new (Without (Covers self.old) (Covers intervals.now)) }
    {
        self.in_whole();
        let mut left = intervals.len();
        // from the last, so that of the list of pages only those move that stay
        'intervals: while 0 < left {
            left -= 1;
            self.remove_interval(intervals[left]).unwrap();
        }
    }

    /// Whether an interval overlaps or touches a run.
    fn touches(&self, interval: &Interval<B>) -> bool
        requires { interval.now.0 ≤ℤ interval.now.1 }
        ensures { IsTrue result ↔ HasSome (Intersection (Covers self.now) (IsBetween (widened interval.now))) }
    {
        self.in_whole();
        interval.in_whole();
        let upper = one_above(interval.upper());
        match self.next_from(one_below(interval.lower())) {
            Some(next) => next <= upper,
            None => false,
        }
    }

    /// Whether an interval lies inside a run and meets neither of its ends.
    fn has_inside(&self, interval: &Interval<B>) -> bool
        requires { interval.now.0 ≤ℤ interval.now.1 }
        ensures { IsTrue result ↔ IsSubset (IsBetween (widened interval.now)) (Covers self.now) }
    {
        match self.run_at(interval.lower()) {
            Some(run) => run.lower() < interval.lower() && interval.upper() < run.upper(),
            None => false,
        }
    }
}
