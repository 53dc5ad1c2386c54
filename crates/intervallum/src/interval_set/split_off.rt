//! A set divided in two at a value.
ghost use Rattle.std.specs.Prelude.{◌≡◌, IfOk, OnErr, OnOk};
ghost use Rattle.ivl_laws.specs.Sets.{AtLeast, Below};
ghost use Rattle.ivl_laws.specs.Runs.{Covers, IsRunsOf};

use super::IntervalSet;
use crate::interval::Interval;
use crate::ops::{ShrinkLeft, Whole};
use crate::width::Width;
use std::alloc::AllocError;

impl<B: Width> IntervalSet<B> {
    /// Removes the members that are at least `v`, which may be any value of its type, and returns
    /// them as a set of their own. The members below `v` stay.
    ///
    /// Binary searches, and a copy of the `k` runs that are returned: `O(log n + k)`. Reserves `k`
    /// runs once; the capacity of this set is kept.
    ///
    /// # Errors
    ///
    /// Fails only if allocation fails. The set is then unchanged.
    ///
    /// ```
    /// let mut a: IntervalSet<i32> = [(1, 5), (8, 9)].to_interval_set(alloc)?;
    /// let above = a.split_off(3)?;
    /// assert!(rt; a == IntervalSet::new(alloc, 1, 2)?);
    /// assert!(rt; above == [(3, 5), (8, 9)].to_interval_set(alloc)?);
    /// ```
    pub fn split_off(&mut self, v: B) -> Result<IntervalSet<B>, AllocError>
        // On success, the result has exactly the members that are at least `v`, and the set keeps exactly those below
        // `v`; on an error it is unchanged.
        ensures above { IfOk result (λ L. IsRunsOf L (AtLeast (B.value v) (Covers self.old))) }
        ensures below { OnOk result (IsRunsOf self.new (Below (B.value v) (Covers self.old))) }
        ensures err { OnErr result (self.new ≡ self.old) }
    {
        // members are in the range, so the cut goes up to its end and splits no run in two
        self.in_whole();
        let above = self.shrink_left(v)?;
        self.remove_interval(Interval::whole().shrink_left(v))
            .unwrap();
        Ok(above)
    }
}
