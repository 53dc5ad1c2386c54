//! The runs of a set, read one at a time by looks that contracts count.
ghost use Rattle.std.specs.Prelude.{◌≡◌, ◌+◌, ◌^◌, ◌<◌, ◌≤ℤ◌, Some, length, slice_get};
ghost use Rattle.ivl_laws.specs.Runs.{IsRunListIn};

use crate::interval::Interval;
use crate::interval_set::IntervalSet;
use crate::steps::looks::Looks;
use crate::width::Width;
use std::marker::Model;

/// The runs of a set. A contract sees the runs and how many looks were taken; nothing is counted at
/// run time. No call allocates.
///
/// ```
/// let a: IntervalSet<i32> = [(1, 2), (5, 6)].to_interval_set(alloc)?;
/// let mut probes = Probes::new(&a);
/// assert_eq!(rt; find(&mut probes, 5), Place::In(1));
/// ```
#[derive(Drop)]
pub struct Probes<'a, B: Width> {
    runs: &'a [Interval<B>],
    looks: Looks,
}

impl<'a, B: Width> Model for Probes<'a, B> {
    ghost use Rattle.ivl_laws.specs.Runs.{IsRunListIn};
    ghost use Rattle.intervallum.specs.Cursors.{Search};

    ghost Value = { Search };

    ghost view = { λ p. record { runs = p.runs.now; looks = p.looks.count } };

    ghost invariant = { λ p. IsRunListIn B.whole p.runs.now };
}

impl<'a, B: Width> Probes<'a, B> {
    /// Returns the runs of the set, with no look taken. `O(1)`. Does not allocate.
    ///
    /// ```
    /// let a: IntervalSet<i32> = [(1, 2), (5, 6)].to_interval_set(alloc)?;
    /// assert_eq!(rt; Probes::new(&a).len(), 2);
    /// ```
    pub fn new(set: &'a IntervalSet<B>) -> Probes<'a, B>
        // The runs are those of the set, and no look is counted.
        ensures runs { result.runs ≡ set.now }
        ensures looks { result.looks ≡ 0 }
    {
        Probes {
            runs: set.as_runs(),
            looks: Looks::none(),
        }
    }

    /// Returns the number of runs. This is not a look. `O(1)`. Does not allocate.
    ///
    /// ```
    /// let a: IntervalSet<i32> = [(1, 2), (5, 6)].to_interval_set(alloc)?;
    /// let probes = Probes::new(&a);
    /// assert_eq!(rt; probes.len(), 2);
    /// ```
    pub fn len(&self) -> usize
        // The result is the number of runs, which are ascending, lie in the range, and neither overlap nor touch.
        ensures value { result ≡ length self.now.runs }
        ensures runs { IsRunListIn B.whole self.now.runs }
    {
        self.runs.len()
    }

    /// Returns run number `i`, counted from 0. This is one look. The caller must ensure that `i` is
    /// less than `len()`. `O(1)`. Does not allocate.
    ///
    /// ```
    /// let a: IntervalSet<i32> = [(1, 2), (5, 6)].to_interval_set(alloc)?;
    /// let mut probes = Probes::new(&a);
    /// assert!(rt; probes.len() > 1 && probes.look(1) == Interval::new(5, 6));
    /// ```
    pub fn look(&mut self, i: usize) -> Interval<B>
        requires { i < length self.old.runs }
        // The result is run `i`, which is not empty, and the runs are ascending, lie in the range, and neither overlap
        // nor touch.
        ensures run { slice_get self.old.runs i ≡ Some result }
        ensures has_member { result.0 ≤ℤ result.1 }
        ensures runs { IsRunListIn B.whole self.old.runs }

        // The runs stay, and one look more is counted.
        ensures same { self.new.runs ≡ self.old.runs }
        ensures looks { self.new.looks ≡ self.old.looks + 1 }
    {
        let runs = self.runs;
        let run = runs[i];
        self.looks = self.looks.one_more();
        run
    }

    /// The runs are those of a set, and their number fits a `usize`. This does nothing: its
    /// contract is the fact.
    pub(crate) fn in_whole(&self)
        ensures runs { IsRunListIn B.whole self.now.runs }
        ensures counted { length self.now.runs < 2 ^ 64 }
    {
        self.len();
    }
}
