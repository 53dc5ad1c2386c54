//! What a set has within a window: the whole runs that meet it, how many members lie in it, and the gaps.
ghost use Rattle.std.specs.Prelude.{◌≡◌, ◌++◌, All, IfOk};
ghost use Rattle.ivl_laws.specs.Sets.{HasSome, Intersection, IsBetween, Without};
ghost use Rattle.ivl_laws.specs.Runs.{Covers, IsMaximal, IsRunListIn, IsRunsOf};
ghost use Rattle.ivl_laws.specs.Counts.{IsCountOf};
ghost use Rattle.ivl_places.specs.Windows.{OfRunsThatMeet};

use super::PagedSet;
use super::iter::{Runs, runs_of_parts};
use crate::pages;
use intervallum::interval::Interval;
use intervallum::interval_set::IntervalSet;
use intervallum::ops::{Difference, IsEmpty};
use intervallum::width::{SizeNumber, Width};
use std::alloc::{AllocError, Global};

impl<B: Width> PagedSet<B> {
    /// Returns a double-ended iterator over the runs that overlap the window. The first and the last
    /// are whole, so they may reach beyond the window. An empty window overlaps none.
    ///
    /// Binary searches for the pages of both ends and in them: `O(log n)`. Does not allocate.
    ///
    /// ```
    /// let list: IntervalSet<i32> = [(1, 2), (5, 6), (9, 9)].to_interval_set(alloc)?;
    /// let a = PagedSet::of_set(&list)?;
    /// let mut met = a.runs_within(&Interval::new(2, 5));
    /// assert!(rt; met.next() == Some(Interval::new(1, 2)));
    /// assert!(rt; met.next() == Some(Interval::new(5, 6)) && met.next().is_none());
    /// assert!(rt; a.runs_within(&Interval::new(3, 4)).next().is_none());
    /// ```
    pub fn runs_within(&self, window: &Interval<B>) -> Runs<'_, B>
        // The iterator yields exactly the runs that overlap the window, whole and in order.
        ensures members { IsRunsOf result (OfRunsThatMeet (IsBetween window.now) (Covers self.now)) }
        ensures overlap { All (λ run. HasSome (Intersection (IsBetween run) (IsBetween window.now))) result }
        ensures within { IsRunListIn B.whole result }
    {
        runs_of_parts(pages::met_by(&self.pages, window), window)
    }

    /// Returns the number of members that lie in the window, which may be empty. Never overflows.
    ///
    /// Binary searches for the pages of both ends, scans the runs of these two, and adds up what each
    /// page between has: `O(log n + k / page)` for `k` runs that overlap the window. Does not allocate.
    ///
    /// ```
    /// let list: IntervalSet<i32> = [(1, 2), (5, 6), (9, 9)].to_interval_set(alloc)?;
    /// let a = PagedSet::of_set(&list)?;
    /// assert_eq!(rt; a.size_within(&Interval::new(2, 5)), 2u32);
    /// assert_eq!(rt; a.size_within(&Interval::empty()), 0u32);
    /// ```
    pub fn size_within(&self, window: &Interval<B>) -> B::Output
        // The result is the number of members that are in the window.
        ensures { IsCountOf (B.Output.size result) (Intersection (Covers self.now) (IsBetween window.now)) }
    {
        if window.is_empty() {
            return <B::Output as SizeNumber>::zero();
        }
        pages::size_of_parts(pages::met_by(&self.pages, window), window)
    }

    /// Returns the numbers of the window that are not members, in one list. Fails only if allocation
    /// fails.
    ///
    /// `O(log n + k)`, where `k` runs overlap the window. Reserves `k + 1` runs for the result, and
    /// about twice as many more until it returns.
    ///
    /// ```
    /// let list: IntervalSet<i32> = [(1, 2), (5, 6)].to_interval_set(alloc)?;
    /// let free = PagedSet::of_set(&list)?.gaps_within(&Interval::new(2, 7))?;
    /// assert!(rt; free == [(3, 4), (7, 7)].to_interval_set(alloc)?);
    /// ```
    pub fn gaps_within(&self, window: &Interval<B>) -> Result<IntervalSet<B>, AllocError>
        // On success, the members are exactly the numbers of the window that are not in the set.
        ensures { IfOk result (λ L. IsRunsOf L (Without (IsBetween window.now) (Covers self.now))) }
    {
        let met = listed(self.alloc, self.runs_within(window))?;
        IntervalSet::of(self.alloc, *window)?.difference(&met)
    }
}

/// The runs that are left, in one list.
fn listed<B: Width>(alloc: Global, mut left: Runs<'_, B>) -> Result<IntervalSet<B>, AllocError>
    requires { IsMaximal left }
    ensures { IfOk result (λ L. L ≡ left.entry) }
{
    let mut list = Vec::new(alloc);
    'runs: while let Some(run) = left.next() {
        list.push(run)?;
    }
    Ok(IntervalSet::from_runs(list))
}
