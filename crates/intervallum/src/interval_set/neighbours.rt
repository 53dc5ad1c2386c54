//! Neighbours of a value: the next and the previous member, and the run that holds it.
ghost use Rattle.std.specs.Prelude.{MatchOption};
ghost use Rattle.ivl_laws.specs.Sets.{AtLeast, AtMost, HasNone};
ghost use Rattle.ivl_laws.specs.Runs.{Covers};
ghost use Rattle.ivl_places.specs.Neighbours.{IsGreatest, IsLeast, IsRunWith};

use super::IntervalSet;
use crate::interval::Interval;
use crate::ops::Bounded;
use crate::steps::{Place, Probes, find};
use crate::width::Width;

impl<B: Width> IntervalSet<B> {
    /// Returns the least member that is at least `v`, or `None` if there is none. `v` may be any
    /// value of its type. Binary search: `O(log n)`. Does not allocate.
    ///
    /// ```
    /// let a: IntervalSet<i32> = [(1, 2), (5, 6)].to_interval_set(alloc)?;
    /// assert_eq!(rt; a.next_from(2), Some(2));
    /// assert_eq!(rt; a.next_from(3), Some(5));
    /// assert_eq!(rt; a.next_from(7), None);
    /// ```
    pub fn next_from(&self, v: B) -> Option<B>
        // The result is the least member that is at least `v`, or `None` if there is none.
        ensures { MatchOption result
            (HasNone (AtLeast (B.value v) (Covers self.now)))
            (λ x. IsLeast (B.value x) (AtLeast (B.value v) (Covers self.now))) }
    {
        let mut runs = Probes::new(self);
        match find(&mut runs, v) {
            Place::In(_) => Some(v),
            Place::Gap(i) => {
                if i < runs.len() {
                    Some(runs.look(i).lower())
                } else {
                    None
                }
            }
        }
    }

    /// Returns the greatest member that is at most `v`, or `None` if there is none. `v` may be any
    /// value of its type. Binary search: `O(log n)`. Does not allocate.
    ///
    /// ```
    /// let a: IntervalSet<i32> = [(1, 2), (5, 6)].to_interval_set(alloc)?;
    /// assert_eq!(rt; a.previous_to(5), Some(5));
    /// assert_eq!(rt; a.previous_to(4), Some(2));
    /// assert_eq!(rt; a.previous_to(0), None);
    /// ```
    pub fn previous_to(&self, v: B) -> Option<B>
        // The result is the greatest member that is at most `v`, or `None` if there is none.
        ensures { MatchOption result
            (HasNone (AtMost (B.value v) (Covers self.now)))
            (λ x. IsGreatest (B.value x) (AtMost (B.value v) (Covers self.now))) }
    {
        let mut runs = Probes::new(self);
        match find(&mut runs, v) {
            Place::In(_) => Some(v),
            Place::Gap(i) => {
                if i > 0 {
                    Some(runs.look(i - 1).upper())
                } else {
                    None
                }
            }
        }
    }

    /// Returns the run that holds `v`, the longest interval of members with `v` in it, or `None` if
    /// `v` is not a member. `v` may be any value of its type. Binary search: `O(log n)`. Does not
    /// allocate.
    ///
    /// ```
    /// let a: IntervalSet<i32> = [(1, 2), (5, 6)].to_interval_set(alloc)?;
    /// assert!(rt; a.run_at(6) == Some(Interval::new(5, 6)));
    /// assert!(rt; a.run_at(3).is_none());
    /// ```
    pub fn run_at(&self, v: B) -> Option<Interval<B>>
        // The result is the run that holds `v`, or `None` if `v` is no member.
        ensures { MatchOption result
            (¬ (Covers self.now (B.value v)))
            (IsRunWith (B.value v) (Covers self.now)) }
    {
        let mut runs = Probes::new(self);
        match find(&mut runs, v) {
            Place::In(i) => Some(runs.look(i)),
            Place::Gap(_) => None,
        }
    }
}
