//! One page: a few of the runs of a set.
ghost use Rattle.std.specs.Prelude.{◌≡◌, ◌↔◌, ◌⊎◌, ◌<◌, ◌≤◌, ℕ, ℤ, ◌≤ℤ◌, ◌<ℤ◌, IsSomeAnd, IsTrue, List, IfOk, IsOk, MatchOption, None, OnErr, OnOk, length, sum_by};
ghost use Rattle.ivl_laws.specs.Bounds.{width_of};
ghost use Rattle.ivl_laws.specs.Sets.{HasSome, Intersection, IsBetween, IsSubset, Only, Union, Without};
ghost use Rattle.ivl_laws.specs.Counts.{IsCountOf};
ghost use Rattle.ivl_laws.specs.Runs.{Covers, IsMaximal, IsRunsOf};
ghost use Rattle.ivl_places.specs.Edits.{widened};
ghost use Rattle.ivl_places.specs.FirstFit.{FitsAt};
ghost use Rattle.ivl_places.specs.Neighbours.{IsLeast, IsRunWith};
ghost use Rattle.ivl_paged.specs.Pages.{IsLongest, IsLongestPart};
ghost use Rattle.ivl_paged.specs.Parts.{IsShortestRun};

use crate::page_search::{find_run, run_before};
use intervallum::interval::Interval;
use intervallum::interval_set::IntervalSet;
use intervallum::ops::{Bounded, Cardinality, Empty, Singleton};
use intervallum::width::{SizeNumber, Width};
use std::alloc::AllocError;
use std::hint::select_unpredictable;
use std::marker::Model;

/// A set that is not empty, beside its least member and one of its longest runs, so that a search
/// reads no run, and neither does an edit that leaves that run as it is.
#[derive(Drop)]
pub(crate) struct Page<B: Width> {
    head: B,
    longest: Interval<B>,
    set: IntervalSet<B>,
}

impl<B: Width> Model for Page<B> {
    ghost Value = { List (ℤ × ℤ) };

    ghost view = { λ p. p.set };

    ghost invariant = { λ p. IsLeast (B.value p.head) (Covers p.set) × IsLongestPart p.longest (Covers p.set) };
}

impl<B: Width> Page<B> {
    /// The page of the runs of a set.
    pub(crate) fn of(set: IntervalSet<B>) -> Self
        requires { HasSome (Covers set) }
        ensures { result ≡ set }
    {
        let head = set.lower();
        let longest = longest_of(set.runs());
        Page { head, longest, set }
    }

    /// The least member.
    pub(crate) fn head(&self) -> B
        ensures { IsLeast (B.value result) (Covers self.now) }
    {
        self.head
    }

    /// How many members the longest run has.
    pub(crate) fn longest(&self) -> B::Output
        ensures { IsLongest (B.Output.size result) (Covers self.now) }
    {
        self.longest.size()
    }

    /// The number of runs.
    pub(crate) fn interval_count(&self) -> usize
        ensures count { result ≡ length self.now }
        ensures runs { IsMaximal self.now }
    {
        self.set.interval_count()
    }

    /// How many members there are.
    pub(crate) fn member_count(&self) -> u128
        ensures { result ≡ sum_by width_of self.now }
    {
        self.set.in_whole();
        self.set.size().number()
    }

    /// The runs, as a set, which has a member.
    pub(crate) fn set(&self) -> &IntervalSet<B>
        ensures same { result.now ≡ self.now }
        ensures some { HasSome (Covers self.now) }
    {
        &self.set
    }

    /// The runs, as a set, for which the page is given away.
    pub(crate) fn into_set(self) -> IntervalSet<B>
        ensures { result ≡ self }
    {
        let Page {
            head: _,
            longest: _,
            set,
        } = self;
        set
    }

    /// Returns true exactly when each member lies in an interval.
    pub(crate) fn lies_within(&self, interval: &Interval<B>) -> bool
        requires { interval.now.0 ≤ℤ interval.now.1 }
        ensures all { IsTrue result → IsSubset (Covers self.now) (IsBetween interval.now) }
        ensures rest { ¬ (IsTrue result) → HasSome (Without (Covers self.now) (IsBetween interval.now)) }
    {
        interval.lower() <= self.head && self.set.upper() <= interval.upper()
    }

    /// The shortest run that has `count` numbers, the lowest of these, if one has so many.
    pub(crate) fn shortest_run(&self, count: B::Output) -> Option<Interval<B>>
        requires { 0 < B.Output.size count }
        ensures { MatchOption result
            ((v : ℤ) → ¬ (FitsAt (B.Output.size count) (Covers self.now) v))
            (IsShortestRun (B.Output.size count) (Covers self.now)) }
    {
        let fit = self.set.best_fit(count)?;
        self.set.run_at(fit.lower_bound())
    }

    /// How many members lie in an interval, which is not empty.
    pub(crate) fn size_within(&self, interval: &Interval<B>) -> B::Output
        requires { interval.now.0 ≤ℤ interval.now.1 }
        ensures { IsCountOf (B.Output.size result) (Intersection (Covers self.now) (IsBetween interval.now)) }
    {
        if self.lies_within(interval) {
            return self.set.size();
        }
        self.set.size_within(interval)
    }

    /// Returns true exactly when an interval lies inside a run and meets neither of its ends.
    pub(crate) fn has_inside(&self, interval: &Interval<B>) -> bool
        requires { interval.now.0 ≤ℤ interval.now.1 }
        ensures { IsTrue result ↔ IsSubset (IsBetween (widened interval.now)) (Covers self.now) }
    {
        match self.set.run_at(interval.lower()) {
            Some(run) => run.lower() < interval.lower() && interval.upper() < run.upper(),
            None => false,
        }
    }

    /// The run that has a value, if one has it.
    pub(crate) fn run_at(&self, value: B) -> Option<Interval<B>>
        ensures { MatchOption result
            (¬ (Covers self.now (B.value value)))
            (IsRunWith (B.value value) (Covers self.now)) }
    {
        find_run(self.set.runs(), value).1
    }

    /// Returns true exactly when a value is a member.
    pub(crate) fn contains(&self, value: B) -> bool
        ensures { IsTrue result ↔ Covers self.now (B.value value) }
    {
        self.run_at(value).is_some()
    }

    /// Adds the members of an interval. Returns true exactly when its first number was a member.
    pub(crate) fn insert_interval(&mut self, interval: Interval<B>) -> Result<bool, AllocError>
        requires { interval.0 ≤ℤ interval.1 }
        ensures ok { OnOk result (IsRunsOf self.new (Union (Covers self.old) (IsBetween interval))) }
        ensures was_member { IfOk result (λ was_member. IsTrue was_member ↔ Covers self.old interval.0) }
        ensures err { OnErr result (self.new ≡ self.old) }
        // it cannot fail where it overlaps or touches a run
        ensures in_place { HasSome (Intersection (Covers self.old) (IsBetween (widened interval))) → IsOk result }
    {
        let count = self.set.interval_count();
        let (place, run) = find_run(self.set.runs(), interval.lower_bound());
        if ends_at_or_above(run, interval.upper_bound()) {
            return Ok(true);
        }
        // the run before the place may touch the interval, the one before that cannot
        self.set
            .insert_interval_near(interval, place.saturating_sub(1))?;
        self.head = self.head.min(interval.lower_bound());
        let joined = run_after(&self.set, count, place, interval);
        self.longest = longer(self.longest, joined);
        Ok(run.is_some())
    }

    /// Removes the members of an interval, which leaves some. Returns true exactly when its first
    /// number was a member.
    pub(crate) fn remove_interval(&mut self, interval: Interval<B>) -> Result<bool, AllocError>
        requires filled { interval.0 ≤ℤ interval.1 }
        requires some { HasSome (Without (Covers self.old) (IsBetween interval)) }
        ensures ok { OnOk result (IsRunsOf self.new (Without (Covers self.old) (IsBetween interval))) }
        ensures was_member { IfOk result (λ was_member. IsTrue was_member ↔ Covers self.old interval.0) }
        ensures err { OnErr result (self.new ≡ self.old) }
        // it cannot fail unless it lies inside a run and splits it
        ensures in_place { ¬ (IsSubset (IsBetween (widened interval)) (Covers self.old)) → IsOk result }
    {
        let (place, run) = find_run(self.set.runs(), interval.lower_bound());
        if is_no_member(run, interval) {
            return Ok(false);
        }
        self.set
            .remove_interval_near(interval, place.saturating_sub(1))?;
        self.head = head_after(self.head, interval.lower_bound(), &self.set);
        self.longest = longest_after(self.longest, interval, &self.set);
        Ok(run.is_some())
    }

    /// Removes and returns the least member, beside which there is another.
    pub(crate) fn pop_first(&mut self) -> B
        requires { (v : ℤ) → IsLeast v (Covers self.old) → HasSome (Without (Covers self.old) (Only v)) }
        ensures least { IsLeast (B.value result) (Covers self.old) }
        ensures rest { IsRunsOf self.new (Without (Covers self.old) (Only (B.value result))) }
    {
        let least = self.set.pop_first().unwrap();
        self.head = self.set.lower();
        self.longest = longest_after(self.longest, Interval::singleton(least), &self.set);
        least
    }
}

/// Whether a run, if there is one, ends at a value or above.
fn ends_at_or_above<B: Width>(run: Option<Interval<B>>, value: B) -> bool
    ensures { IsTrue result → IsSomeAnd run (λ p. B.value value ≤ℤ p.1) }
{
    match run {
        Some(run) => value <= run.upper_bound(),
        None => false,
    }
}

/// Whether an interval has one number alone, and no run that has it was found.
fn is_no_member<B: Width>(run: Option<Interval<B>>, interval: Interval<B>) -> bool
    ensures { IsTrue result → (run ≡ None) × (interval.1 ≤ℤ interval.0) }
{
    match run {
        Some(_) => false,
        None => interval.upper_bound() <= interval.lower_bound(),
    }
}

/// The run that holds an interval which was added to a set that had `count` runs, of which `place` started
/// at its first number or below. If there is one run more, it is the interval itself.
fn run_after<B: Width>(
    set: &IntervalSet<B>,
    count: usize,
    place: usize,
    interval: Interval<B>,
) -> Option<Interval<B>>
    requires { count < length set.now → IsRunWith interval.0 (Covers set.now) interval }
    ensures { MatchOption result
        (¬ (Covers set.now interval.0))
        (IsRunWith interval.0 (Covers set.now)) }
{
    if count < set.interval_count() {
        return Some(interval);
    }
    run_beside(set, place, interval.lower_bound())
}

/// The run that has a value, if one has it. Looks first at the run before a place, and at the next.
fn run_beside<B: Width>(set: &IntervalSet<B>, place: usize, value: B) -> Option<Interval<B>>
    ensures { MatchOption result
        (¬ (Covers set.now (B.value value)))
        (IsRunWith (B.value value) (Covers set.now)) }
{
    let runs = set.runs();
    if let Some(run) = run_before(runs, place, value) {
        return Some(run);
    }
    if let Some(run) = run_before(runs, place.saturating_add(1), value) {
        return Some(run);
    }
    set.run_at(value)
}

/// The least member after a removal of numbers from `lower` on, before which it was `before`.
fn head_after<B: Width>(before: B, lower: B, set: &IntervalSet<B>) -> B
    requires some { HasSome (Covers set.now) }
    requires kept { B.value before <ℤ B.value lower → IsLeast (B.value before) (Covers set.now) }
    ensures { IsLeast (B.value result) (Covers set.now) }
{
    if before < lower {
        return before;
    }
    set.lower()
}

/// The longer of a run and another, if there is one.
fn longer<B: Width>(longest: Interval<B>, run: Option<Interval<B>>) -> Interval<B>
    ensures { MatchOption run
        (result ≡ longest)
        (λ p. (width_of longest ≤ width_of result) × (width_of p ≤ width_of result) × ((result ≡ longest) ⊎ (result ≡ p))) }
{
    match run {
        Some(run) => {
            if run.size() >= longest.size() {
                run
            } else {
                longest
            }
        }
        None => longest,
    }
}

/// One of the longest runs after a removal, before which it was `before`. The runs are read only if
/// that one was cut.
fn longest_after<B: Width>(
    before: Interval<B>,
    removed: Interval<B>,
    set: &IntervalSet<B>,
) -> Interval<B>
    requires most { (m : ℕ) (v : ℤ) → FitsAt m (Covers set.now) v → m ≤ width_of before }
    requires kept { (before.1 <ℤ removed.0) ⊎ (removed.1 <ℤ before.0) → IsSubset (IsBetween before) (Covers set.now) }
    ensures { IsLongestPart result (Covers set.now) }
{
    if before.upper_bound() < removed.lower_bound() {
        return before;
    }
    if removed.upper_bound() < before.lower_bound() {
        return before;
    }
    longest_of(set.runs())
}

/// One of the longest of some runs, or an empty interval if there are none.
fn longest_of<B: Width>(runs: &[Interval<B>]) -> Interval<B>
    requires { IsMaximal runs.now }
    ensures { IsLongestPart result (Covers runs.now) }
{
    let mut longest = Interval::empty();
    let mut most = longest.size();
    for run in runs {
        let size = run.size();
        let is_longer = size >= most;
        most = select_unpredictable(is_longer, size, most);
        longest = select_unpredictable(is_longer, *run, longest);
    }
    longest
}
