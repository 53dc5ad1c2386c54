//! A set of a list that is known to be that of its runs, and the test of such a list.
ghost use Rattle.std.specs.Prelude.{◌≡◌, ◌↔◌, IsTrue};
ghost use Rattle.ivl_laws.specs.Runs.{IsMaximal};

use super::IntervalSet;
use super::run_lists::{are_in_whole, are_runs, size_of_runs};
use crate::interval::Interval;
use crate::width::Width;

impl<B: Width> IntervalSet<B> {
    /// Returns the set of the runs of a list, in the memory of the list, which is not shrunk.
    ///
    /// The caller must ensure that no interval is empty, that they ascend, and that a number is
    /// missing between neighbours. Check with `IntervalSet::are_runs(&runs)`. Any other list is for
    /// `coalesce`, which makes that test itself.
    ///
    /// `O(n)` for `n` runs, whose sizes it adds up. Does not allocate.
    ///
    /// ```
    /// let mut runs = Vec::new(alloc);
    /// runs.push(Interval::new(1, 2))?;
    /// runs.push(Interval::new(5, 6))?;
    /// assert!(rt; IntervalSet::from_runs(runs) == [(1, 2), (5, 6)].to_interval_set(alloc)?);
    /// ```
    pub fn from_runs(runs: Vec<Interval<B>>) -> Self
        requires { IsMaximal runs.items }
        // The runs of the result are those of the list.
        ensures { result ≡ runs.items }
    {
        are_in_whole(&runs);
        let size = size_of_runs(&runs);
        Self::of_runs(runs, size)
    }

    /// Returns true exactly when intervals are the runs of a set: none is empty, they ascend, and a
    /// number is missing between neighbours. `O(n)` for `n` intervals. Does not allocate.
    ///
    /// ```
    /// assert!(rt; IntervalSet::are_runs(&[Interval::new(1, 2), Interval::new(4, 4)]));
    /// assert!(rt; !IntervalSet::are_runs(&[Interval::new(1, 2), Interval::new(3, 4)]));
    /// ```
    pub fn are_runs(list: &[Interval<B>]) -> bool
        // True exactly when the intervals of the list are not empty, are ascending, and neither overlap nor touch.
        ensures { IsTrue result ↔ IsMaximal list.now }
    {
        are_runs(list)
    }
}
