//! The shortest run that has room.
ghost use Rattle.std.specs.Prelude.{◌<◌, ℤ, MatchOption};
ghost use Rattle.ivl_laws.specs.Runs.{Covers};
ghost use Rattle.ivl_places.specs.FirstFit.{FitsAt};
ghost use Rattle.ivl_places.specs.Fits.{IsBestFit};

use super::PagedSet;
use crate::pages;
use intervallum::interval::Interval;
use intervallum::width::Width;

impl<B: Width> PagedSet<B> {
    /// Returns the lowest `count` numbers of the shortest run that has at least so many, and of the
    /// lowest of these if there are several; `None` if no run has so many. The caller must ensure
    /// that `count` is above 0. Check with `count.number() > 0`.
    ///
    /// Passes the groups of pages where no run is so long, reads how long the longest run of each other page
    /// is, and scans those pages where it is long enough: `O(n)`, and `O(n / page / group)` where few are.
    /// Does not allocate.
    ///
    /// ```
    /// let list: IntervalSet<i32> = [(1, 9), (12, 14), (20, 22)].to_interval_set(alloc)?;
    /// let free = PagedSet::of_set(&list)?;
    /// assert!(rt; free.best_fit(2) == Some(Interval::new(12, 13)));
    /// assert!(rt; free.best_fit(4) == Some(Interval::new(1, 4)));
    /// assert!(rt; free.best_fit(10).is_none());
    /// ```
    pub fn best_fit(&self, count: B::Output) -> Option<Interval<B>>
        requires { 0 < B.Output.size count }
        // The result is the first `count` numbers of the shortest run that has so many, the lowest of those as short;
        // or `None` if no run has so many.
        ensures { MatchOption result
            ((v : ℤ) → ¬ (FitsAt (B.Output.size count) (Covers self.now) v))
            (IsBestFit (B.Output.size count) (Covers self.now)) }
    {
        let run = pages::shortest_run(&self.pages, count)?;
        self.first_fit_from(run.lower_bound(), count)
    }
}
