//! The runs of a set as a slice, and the facts about them.
ghost use Rattle.std.specs.Prelude.{◌≡◌, All};
ghost use Rattle.ivl_laws.specs.Sets.{HasSome, IsBetween};
ghost use Rattle.ivl_laws.specs.Runs.{IsRunListIn};

use super::IntervalSet;
use crate::interval::Interval;
use crate::width::Width;

impl<B: Width> IntervalSet<B> {
    /// Returns the runs as a slice: non-empty intervals within the type's range, in ascending
    /// order, with a number missing between neighbours. `O(1)`. Does not allocate.
    ///
    /// ```
    /// let a: IntervalSet<i32> = [(5, 6), (1, 2)].to_interval_set(alloc)?;
    /// assert!(rt; a.runs().len() == 2 && a.runs()[1] == Interval::new(5, 6));
    /// ```
    pub fn runs(&self) -> &[Interval<B>]
        // The result is the list of the runs; they are ascending, not empty, lie in the range, and neither overlap nor
        // touch.
        ensures same { result.now ≡ self.now }
        ensures runs { IsRunListIn B.whole self.now }
        ensures filled { All (λ run. HasSome (IsBetween run)) self.now }
    {
        self.iter().as_slice()
    }

    /// Does nothing: its contract states that the runs are maximal and lie in the range.
    ///
    /// ```
    /// let a: IntervalSet<i32> = IntervalSet::new(alloc, 1, 5)?;
    /// a.in_whole(); // a proof knows from here on that the members of `a` are in the range
    /// assert!(rt; !a.contains(&i32::MIN));
    /// ```
    pub fn in_whole(&self)
        // The runs are ascending, lie in the range, and neither overlap nor touch.
        ensures { IsRunListIn B.whole self.now }
    {
        self.as_runs();
    }
}
