//! Runs that are added behind those of a set.
ghost use Rattle.std.specs.Prelude.{◌≡◌, ◌++◌, ◌∷◌, [], ℤ, pos, ◌+ℤ◌, ◌≤ℤ◌, ◌<ℤ◌, OnErr, OnOk};
ghost use Rattle.ivl_laws.specs.Runs.{Covers};

use super::IntervalSet;
use super::builder::grown;
use crate::interval::Interval;
use crate::ops::Cardinality;
use crate::width::Width;
use std::alloc::AllocError;

impl<B: Width> IntervalSet<B> {
    /// Adds a run behind the others.
    ///
    /// The caller must ensure that the run is not empty, that it lies above the members, and that a
    /// number is missing between them and it. Check with `run.is_empty()`, and with `last()`: the
    /// number after it must lie below `run.lower()`.
    ///
    /// Amortized `O(1)`. Allocates only if there is no capacity for the run.
    ///
    /// # Errors
    ///
    /// Fails only if allocation fails. The set is then unchanged.
    ///
    /// ```
    /// let mut a = IntervalSet::new(alloc, 1, 2)?;
    /// a.push_run(Interval::new(5, 6))?;
    /// assert!(rt; a == [(1, 2), (5, 6)].to_interval_set(alloc)?);
    /// ```
    pub fn push_run(&mut self, run: Interval<B>) -> Result<(), AllocError>
        requires filled { run.0 ≤ℤ run.1 }
        requires apart { (v : ℤ) → Covers self.old v → (v +ℤ pos 1) <ℤ run.0 }
        // On success, the run is added after the others; on an error the set is unchanged.
        ensures ok { OnOk result (self.new ≡ self.old ++ run ∷ []) }
        ensures err { OnErr result (self.new ≡ self.old) }
    {
        run.in_whole();
        let size = grown::<B>(self.size, run.size());
        self.intervals.push(run)?;
        self.size = size;
        Ok(())
    }
}
