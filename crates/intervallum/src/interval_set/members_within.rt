//! Iteration over the members that lie in a window.
ghost use Rattle.ivl_laws.specs.Sets.{Intersection, IsBetween, SameMembers};
ghost use Rattle.ivl_laws.specs.Runs.{Covers, IsRunListIn};
ghost use Rattle.ivl_laws.specs.Counts.{IsIn};
ghost use Rattle.ivl_places.specs.Members.{IsAscending};

use super::IntervalSet;
use super::members::Members;
use crate::interval::Interval;
use crate::ops::{Empty, Intersection};
use crate::width::Width;

impl<B: Width> IntervalSet<B> {
    /// Returns a double-ended iterator over the members that lie in the window, each once, in
    /// ascending order. The window may be empty.
    ///
    /// Two binary searches: `O(log n)`, and `O(1)` for each member. Does not allocate.
    ///
    /// ```
    /// let a: IntervalSet<i32> = [(1, 2), (5, 6), (9, 9)].to_interval_set(alloc)?;
    /// let some: Vec<i32> = a.members_within(&Interval::new(2, 5)).collect(alloc)?;
    /// assert!(rt; some.as_slice() == [2, 5].as_slice());
    /// ```
    pub fn members_within(&self, window: &Interval<B>) -> Members<'_, B>
        // The iterator yields exactly the members that are in the window, each greater than the one before.
        ensures members { SameMembers (Intersection (Covers self.now) (IsBetween window.now)) (IsIn result) }
        ensures ascending { IsAscending result }
    {
        self.in_whole();
        let runs = self.runs_within(window);
        let none = Interval::empty();
        match runs.split_first() {
            None => Members {
                first: none,
                between: runs,
                last: none,
            },
            Some((run, rest)) => {
                let first = run.intersection(window);
                match rest.split_last() {
                    None => Members {
                        first,
                        between: rest,
                        last: none,
                    },
                    Some((run, between)) => Members {
                        first,
                        between,
                        last: run.intersection(window),
                    },
                }
            }
        }
    }
}
