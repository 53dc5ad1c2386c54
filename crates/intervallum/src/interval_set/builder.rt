//! How a set is built: from a list of runs and its size, or by pushing runs at its end.
ghost use Rattle.std.specs.Prelude.{◌≡◌, ◌+◌, ◌<◌, ◌≤◌, ◌≤ℤ◌, [], ◌-◌, IfOk, Some, length, slice_get, vec_capacity, vec_len};
ghost use Rattle.ivl_laws.specs.Runs.{AddsRun, Covers, IsMaximal, IsRunListIn, StartsBy};
ghost use Rattle.ivl_laws.specs.Counts.{IsCountOf};

use super::IntervalSet;
use crate::interval::Interval;
use crate::width::{SizeNumber, Width};
use ivl_merges::merges::push_joined;
use std::alloc::{AllocError, Global};

/// How many more runs a result may have room for, however few it has: to move so few takes longer
/// than their memory is worth.
const FREE: usize = 16;

impl<B: Width> IntervalSet<B> {
    /// The runs as a slice.
    pub(crate) fn as_runs(&self) -> &[Interval<B>]
        ensures same { result.now ≡ self.now }
        ensures runs { IsRunListIn B.whole self.now }
    {
        &self.intervals
    }

    /// The runs by value.
    pub(crate) fn into_runs(self) -> Vec<Interval<B>>
        ensures { result.items ≡ self }
    {
        self.intervals
    }

    /// Returns the allocator that the set uses. `O(1)`. Does not allocate.
    ///
    /// ```
    /// let a = IntervalSet::new(alloc, 1, 2)?;
    /// let b = IntervalSet::singleton(a.allocator(), 3)?;
    /// assert!(rt; !a.overlap(&b));
    /// ```
    pub fn allocator(&self) -> Global {
        *self.intervals.allocator()
    }

    /// Returns the empty set, with room for a number of runs.
    pub(crate) fn with_room(alloc: Global, runs: usize) -> Result<Self, AllocError>
        ensures { IfOk result (λ L. L ≡ []) }
    {
        Ok(IntervalSet {
            intervals: Vec::with_capacity(alloc, runs)?,
            size: <B::Output as SizeNumber>::zero(),
        })
    }

    /// The set of a list of runs, and of how many numbers they cover.
    pub(crate) fn of_runs(intervals: Vec<Interval<B>>, size: B::Output) -> Self
        requires runs { IsRunListIn B.whole intervals.items }
        requires size { IsCountOf (B.Output.size size) (Covers intervals.items) }
        ensures { result ≡ intervals.items }
    {
        IntervalSet { intervals, size }
    }

    /// The same set, shrunk if less than half of its capacity, rounded down, is used, and more than
    /// `FREE` runs would fit beside it. If shrinking fails, it keeps its capacity.
    pub(crate) fn fitted(mut self) -> Self
        ensures { result ≡ self }
    {
        let (count, capacity) = (self.intervals.len(), self.intervals.capacity());
        if capacity / 2 > count && capacity - count > FREE {
            self.intervals.shrink_to_fit();
        }
        self
    }
}

/// Adds a run that starts no lower than the last one, in room that is reserved, and returns the run
/// that is then the last.
pub(crate) fn add_reserved<B: Width>(
    runs: &mut Vec<Interval<B>>,
    last: Interval<B>,
    run: Interval<B>,
) -> Interval<B>
    requires room { vec_len runs.old < vec_capacity runs.old }
    requires maximal { IsMaximal runs.old.items }
    requires last { Some last ≡ slice_get runs.old.items (length runs.old.items - 1) }
    requires filled { run.0 ≤ℤ run.1 }
    requires in_order { StartsBy run.0 runs.old.items }
    ensures adds { AddsRun runs.old.items run runs.new.items }
    ensures last { Some result ≡ slice_get runs.new.items (length runs.new.items - 1) }
    ensures count { vec_len runs.new ≤ vec_len runs.old + 1 }
    ensures capacity { vec_capacity runs.new ≡ vec_capacity runs.old }
{
    last.in_whole();
    run.in_whole();
    push_joined(runs, last, run)
}

/// A size and some more. The sum is a size again.
pub(crate) fn grown<B: Width>(size: B::Output, more: B::Output) -> B::Output
    requires { B.Output.size size + B.Output.size more ≤ B.Output.greatest }
    ensures { B.Output.size result ≡ B.Output.size size + B.Output.size more }
{
    size.add_in_range(more)
}
