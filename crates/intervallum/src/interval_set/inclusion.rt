//! Which of two sets includes the other.
ghost use Rattle.std.specs.Prelude.{◌≡◌, ◌↔◌, ◌≤◌, ◌≤ℤ◌, IsTrue, MatchOption, length, take};
ghost use Rattle.ivl_laws.specs.Sets.{IsBetween, IsProperSubset, IsSubset};
ghost use Rattle.ivl_laws.specs.Runs.{Covers};
ghost use Rattle.ivl_places.specs.Places.{EndBelow, CoversFrom};

use super::IntervalSet;
use super::lopsided::is_far_shorter;
use crate::interval::Interval;
use crate::kleene::SKleene;
use crate::ops::{Bounded, Cardinality, Entailment, ProperSubset, Subset};
use crate::steps::{Place, Probes, Walk, find_from, is_within};
use crate::width::Width;

impl<B: Width> Subset for IntervalSet<B> {
    ghost members = { Covers };

    /// Returns true exactly when each member is a member of `other`, so always for an empty set.
    /// Does not allocate.
    ///
    /// `O(n log (m / n + 2))`: walks over the `n` runs and the `m` of `other`, or if these are far
    /// more (16 times), searches for each of the `n` from where the last search ended. `O(1)` if this
    /// set has more members than `other`.
    ///
    /// ```
    /// let (a, b) = (IntervalSet::new(alloc, 1, 2)?, IntervalSet::new(alloc, 0, 10)?);
    /// assert!(rt; a.is_subset(&b) && !b.is_subset(&a));
    /// ```
    fn is_subset(&self, other: &IntervalSet<B>) -> bool {
        if self.size() > other.size() {
            return false;
        }
        if is_far_shorter(self, other) {
            return few_are_within(self, other);
        }
        is_within(Walk::new(self), Walk::new(other))
    }
}

/// Whether each member of a set of few runs is a member of one of many: searches for each of the few
/// among the many, from where the last search ended.
fn few_are_within<B: Width>(few: &IntervalSet<B>, many: &IntervalSet<B>) -> bool
    ensures { IsTrue result ↔ IsSubset (Covers few.now) (Covers many.now) }
{
    let mut runs = Probes::new(many);
    let mut from = 0;
    for run in few.as_runs() {
        match holder(&mut runs, run, from) {
            Some(place) => from = place,
            None => return false,
        }
    }
    true
}

/// The place of the run that holds each number of another run, or `None` if no run does. The runs
/// before place `from` lie below the other run.
fn holder<B: Width>(runs: &mut Probes<'_, B>, run: &Interval<B>, from: usize) -> Option<usize>
    requires filled { run.now.0 ≤ℤ run.now.1 }
    requires at_most { from ≤ length runs.old.runs }
    requires below { EndBelow run.now.0 (take from runs.old.runs) }
    ensures held { MatchOption result (¬ (IsSubset (IsBetween run.now) (Covers runs.old.runs))) (λ i. CoversFrom i run.now runs.old.runs) }
    ensures same { runs.new.runs ≡ runs.old.runs }
{
    match find_from(runs, run.lower(), from) {
        Place::In(i) => {
            let other = runs.look(i);
            if run.upper() <= other.upper() {
                Some(i)
            } else {
                None
            }
        }
        Place::Gap(_) => None,
    }
}

impl<B: Width> ProperSubset for IntervalSet<B> {
    ghost members = { Covers };

    /// Returns true exactly when each member is a member of `other`, and `other` has more.
    /// `O(n log (m / n + 2))`, or `O(1)` if the sizes are equal. Does not allocate.
    ///
    /// ```
    /// let (a, b) = (IntervalSet::new(alloc, 1, 2)?, IntervalSet::new(alloc, 0, 10)?);
    /// assert!(rt; a.is_proper_subset(&b) && !a.is_proper_subset(&a));
    /// ```
    fn is_proper_subset(&self, other: &IntervalSet<B>) -> bool {
        self.size() != other.size() && self.is_subset(other)
    }
}

impl<B: Width> IntervalSet<B> {
    /// Returns true exactly when each member of `other` is a member, so always if `other` is empty.
    /// `O(m log (n / m + 2))`, or `O(1)` if `other` has more members. Does not allocate.
    ///
    /// ```
    /// let (a, b) = (IntervalSet::new(alloc, 0, 10)?, IntervalSet::new(alloc, 1, 2)?);
    /// assert!(rt; a.is_superset(&b) && !b.is_superset(&a));
    /// ```
    pub fn is_superset(&self, other: &IntervalSet<B>) -> bool
        // True exactly when each member of `other` is a member.
        ensures { IsTrue result ↔ IsSubset (Covers other.now) (Covers self.now) }
    {
        other.is_subset(self)
    }

    /// Returns true exactly when each member of `other` is a member, and this set has more.
    /// `O(m log (n / m + 2))`, or `O(1)` if the sizes are equal. Does not allocate.
    ///
    /// ```
    /// let (a, b) = (IntervalSet::new(alloc, 0, 10)?, IntervalSet::new(alloc, 1, 2)?);
    /// assert!(rt; a.is_proper_superset(&b) && !a.is_proper_superset(&a));
    /// ```
    pub fn is_proper_superset(&self, other: &IntervalSet<B>) -> bool
        // True exactly when each member of `other` is a member, and the two sets differ.
        ensures { IsTrue result ↔ IsProperSubset (Covers other.now) (Covers self.now) }
    {
        other.is_proper_subset(self)
    }
}

impl<B: Width> Entailment for IntervalSet<B> {
    ghost members = { Covers };

    /// Returns `True` if `other` includes this set, else `False` if this one includes `other`, else
    /// `Unknown`. `O(n log (m / n + 2) + m log (n / m + 2))`. Does not allocate.
    ///
    /// ```
    /// let (a, b) = (IntervalSet::new(alloc, 1, 2)?, IntervalSet::new(alloc, 0, 10)?);
    /// assert_eq!(rt; a.entail(&b), SKleene::True);
    /// assert_eq!(rt; b.entail(&a), SKleene::False);
    /// ```
    fn entail(&self, other: &IntervalSet<B>) -> SKleene {
        if self.is_subset(other) {
            SKleene::True
        } else if other.is_subset(self) {
            SKleene::False
        } else {
            SKleene::Unknown
        }
    }
}
