//! A set divided in two at a value.
ghost use Rattle.std.specs.Prelude.{◌≡◌, IfOk, OnErr, OnOk};
ghost use Rattle.ivl_laws.specs.Sets.{AtLeast, Below};
ghost use Rattle.ivl_laws.specs.Runs.{Covers, IsRunsOf};

use super::PagedSet;
use crate::pages;
use intervallum::interval::Interval;
use intervallum::ops::{ShrinkLeft, Whole};
use intervallum::width::Width;
use std::alloc::AllocError;

impl<B: Width> PagedSet<B> {
    /// Removes the members that are at least `v`, which may be any value of its type, and returns
    /// them as a set of their own. The members below `v` stay.
    ///
    /// Binary search, and a copy of the `k` runs that are returned, page by page: `O(log n + k)`.
    ///
    /// # Errors
    ///
    /// Fails only if allocation fails. The set is then unchanged.
    ///
    /// ```
    /// let list: IntervalSet<i32> = [(1, 5), (8, 9)].to_interval_set(alloc)?;
    /// let mut a = PagedSet::of_set(&list)?;
    /// let above = a.split_off(3)?;
    /// assert!(rt; a.to_set()? == IntervalSet::new(alloc, 1, 2)?);
    /// assert!(rt; above.to_set()? == [(3, 5), (8, 9)].to_interval_set(alloc)?);
    /// ```
    pub fn split_off(&mut self, v: B) -> Result<PagedSet<B>, AllocError>
        // On success, the result has exactly the members that are at least `v`, and the set keeps exactly those below
        // `v`; on an error it is unchanged.
        ensures above { IfOk result (λ L. IsRunsOf L (AtLeast (B.value v) (Covers self.old))) }
        ensures below { OnOk result (IsRunsOf self.new (Below (B.value v) (Covers self.old))) }
        ensures err { OnErr result (self.new ≡ self.old) }
    {
        self.in_whole();
        let above = pages::copy_above(self.alloc, &self.pages, v)?;
        // members are in the range, so the cut goes up to its end and splits no run in two
        self.remove_interval(Interval::whole().shrink_left(v))
            .unwrap();
        Ok(PagedSet {
            alloc: self.alloc,
            pages: above,
        })
    }
}
