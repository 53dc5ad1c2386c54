//! The calls of an allocator: room that is found and removed in one call, and the shortest run that has it.
ghost use Rattle.std.specs.Prelude.{◌≡◌, ◌↔◌, ◌<◌, ◌≤◌, ℤ, IsTrue, MatchOption, length, take, ⊤};
ghost use Rattle.ivl_laws.specs.Bounds.{width_of};
ghost use Rattle.ivl_laws.specs.Sets.{IsBetween, Without};
ghost use Rattle.ivl_laws.specs.Runs.{Covers, IsRunsOf};
ghost use Rattle.ivl_places.specs.FirstFit.{FitsAt, IsFirstFit};
ghost use Rattle.ivl_places.specs.Fits.{IsBestFit};

use super::IntervalSet;
use super::first_fit::lowest_of;
use crate::interval::Interval;
use crate::ops::Cardinality;
use crate::width::{SizeNumber, Width};

impl<B: Width> IntervalSet<B> {
    /// Removes and returns the lowest interval of exactly `count` consecutive members, or returns
    /// `None` if there is none; the set is then unchanged. The caller must ensure that `count` is
    /// above 0. Check with `count.number() > 0`.
    ///
    /// The interval is the start of a run, so no run is split and nothing can fail. Scans the runs
    /// up to the first that is long enough: `O(n)`. If the run has exactly `count` members, the runs
    /// above it then move. Does not allocate.
    ///
    /// ```
    /// let mut free: IntervalSet<i32> = [(1, 2), (5, 9)].to_interval_set(alloc)?;
    /// assert!(rt; free.take_first_fit(3) == Some(Interval::new(5, 7)));
    /// assert!(rt; free == [(1, 2), (8, 9)].to_interval_set(alloc)?);
    /// assert!(rt; free.take_first_fit(3).is_none());
    /// ```
    pub fn take_first_fit(&mut self, count: B::Output) -> Option<Interval<B>>
        requires { 0 < B.Output.size count }
        // The result is the lowest `count` consecutive members, and the set keeps exactly the others; or `None` if
        // there are none, and the set is unchanged.
        ensures fit { MatchOption result
            ((v : ℤ) → ¬ (FitsAt (B.Output.size count) (Covers self.old) v))
            (IsFirstFit (B.Output.size count) (Covers self.old)) }
        ensures members { MatchOption result
            (self.new ≡ self.old)
            (λ run. IsRunsOf self.new (Without (Covers self.old) (IsBetween run))) }
    {
        let run = self.first_fit(count)?;
        self.remove_interval(run).unwrap();
        Some(run)
    }

    /// Returns the lowest `count` numbers of the shortest run that has at least so many, and of the
    /// lowest of these if there are several; `None` if no run has so many. The caller must ensure
    /// that `count` is above 0. Check with `count.number() > 0`.
    ///
    /// Scans all runs: `O(n)`. Does not allocate.
    ///
    /// ```
    /// let free: IntervalSet<i32> = [(1, 9), (12, 14), (20, 22)].to_interval_set(alloc)?;
    /// assert!(rt; free.best_fit(2) == Some(Interval::new(12, 13)));
    /// assert!(rt; free.best_fit(4) == Some(Interval::new(1, 4)));
    /// assert!(rt; free.best_fit(10).is_none());
    /// ```
    pub fn best_fit(&self, count: B::Output) -> Option<Interval<B>>
        requires { 0 < B.Output.size count }
        // The result is the first `count` numbers of the shortest run that has so many, the lowest of those as short;
        // or `None` if no run has so many.
        ensures { MatchOption result
            ((v : ℤ) → ¬ (FitsAt (B.Output.size count) (Covers self.now) v))
            (IsBestFit (B.Output.size count) (Covers self.now)) }
    {
        let runs = self.as_runs();
        let mut best: Option<Interval<B>> = None;
        for run in runs {
            if fits_better(run, count, best) {
                best = Some(*run);
            }
        }
        let run = best?;
        Some(lowest_of(&run, count))
    }
}

/// Whether a run has at least `count` numbers, and fewer than the best so far, if there is one.
fn fits_better<B: Width>(run: &Interval<B>, count: B::Output, best: Option<Interval<B>>) -> bool
    ensures { IsTrue result ↔ (B.Output.size count ≤ width_of run.now) × MatchOption best ⊤ (λ shortest. width_of run.now < width_of shortest) }
{
    let size = run.size();
    let is_shorter = match best {
        Some(shortest) => size < shortest.size(),
        None => true,
    };
    (size >= count) & is_shorter
}
