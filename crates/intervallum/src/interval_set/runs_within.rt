//! What a set has within a window: the whole runs that meet it, and how many members lie in it.
ghost use Rattle.std.specs.Prelude.{◌≡◌, All};
ghost use Rattle.ivl_laws.specs.Sets.{HasSome, Intersection, IsBetween};
ghost use Rattle.ivl_laws.specs.Runs.{Covers, IsRunListIn, IsRunsOf};
ghost use Rattle.ivl_laws.specs.Counts.{IsCountOf};
ghost use Rattle.ivl_places.specs.Windows.{OfRunsThatMeet};

use super::IntervalSet;
use super::builder::grown;
use crate::interval::Interval;
use crate::ops::{Bounded, Cardinality, Intersection, IsEmpty};
use crate::steps::{Probes, last_up_to, runs_before};
use crate::width::{SizeNumber, Width};

impl<B: Width> IntervalSet<B> {
    /// Returns the runs that overlap the window, as a slice. The first and the last are whole, so
    /// they may reach beyond the window. An empty window overlaps none.
    ///
    /// Two binary searches, the second from where the first ended: `O(log n)`. Does not allocate.
    ///
    /// ```
    /// let a: IntervalSet<i32> = [(1, 2), (5, 6), (9, 9)].to_interval_set(alloc)?;
    /// let met = a.runs_within(&Interval::new(2, 5));
    /// assert!(rt; met.len() == 2 && met[0] == Interval::new(1, 2) && met[1] == Interval::new(5, 6));
    /// assert!(rt; a.runs_within(&Interval::new(3, 4)).is_empty());
    /// ```
    pub fn runs_within(&self, window: &Interval<B>) -> &[Interval<B>]
        // The result has exactly the runs that overlap the window, whole and in order.
        ensures members { IsRunsOf result.now (OfRunsThatMeet (IsBetween window.now) (Covers self.now)) }
        ensures overlap { All (λ run. HasSome (Intersection (IsBetween run) (IsBetween window.now))) result.now }
        ensures within { IsRunListIn B.whole result.now }
    {
        let runs = self.as_runs();
        if window.is_empty() {
            return &runs[0..0];
        }
        let mut probes = Probes::new(self);
        let start = runs_before(&mut probes, window.lower());
        let end = last_up_to(&mut probes, window.upper(), start);
        &runs[start..end]
    }

    /// Returns the number of members that lie in the window, which may be empty. Never overflows.
    ///
    /// Two binary searches, and a scan of the `k` runs that overlap the window: `O(log n + k)`. Does
    /// not allocate.
    ///
    /// ```
    /// let a: IntervalSet<i32> = [(1, 2), (5, 6), (9, 9)].to_interval_set(alloc)?;
    /// assert_eq!(rt; a.size_within(&Interval::new(2, 5)), 2u32);
    /// assert_eq!(rt; a.size_within(&Interval::empty()), 0u32);
    /// ```
    pub fn size_within(&self, window: &Interval<B>) -> B::Output
        // The result is the number of members that are in the window.
        ensures { IsCountOf (B.Output.size result) (Intersection (Covers self.now) (IsBetween window.now)) }
    {
        size_of_part(self.runs_within(window), window)
    }
}

/// How many numbers of a window runs cover.
pub(super) fn size_of_part<B: Width>(runs: &[Interval<B>], window: &Interval<B>) -> B::Output
    requires { IsRunListIn B.whole runs.now }
    ensures { IsCountOf (B.Output.size result) (Intersection (Covers runs.now) (IsBetween window.now)) }
{
    let mut size = <B::Output as SizeNumber>::zero();
    for run in runs {
        size = grown::<B>(size, run.intersection(window).size());
    }
    size
}
