//! A set made of a list of runs that is given away, and the list of a set that is given away.
ghost use Rattle.std.specs.Prelude.{◌≡◌, IfOk};

use super::PagedSet;
use crate::pages;
use intervallum::interval_set::IntervalSet;
use intervallum::width::Width;
use std::alloc::AllocError;

impl<B: Width> PagedSet<B> {
    /// Returns the set with the members of another, which is given away. If it has fewer than 128 runs,
    /// its list is the one page, and no run is copied: `O(1)` and a look at each for the longest; else
    /// as [`PagedSet::of_set`] does it. Fails only if allocation fails.
    ///
    /// ```
    /// let list: IntervalSet<i32> = [(1, 2), (5, 6)].to_interval_set(alloc)?;
    /// let a = PagedSet::from_set(list)?;
    /// assert!(rt; a.contains(&2) && !a.contains(&3) && a.interval_count() == 2);
    /// ```
    pub fn from_set(set: IntervalSet<B>) -> Result<Self, AllocError>
        // On success, the result has the runs of `set`.
        ensures { IfOk result (λ L. L ≡ set) }
    {
        set.in_whole();
        let alloc = set.allocator();
        let pages = pages::pages_from(alloc, set)?;
        Ok(PagedSet { alloc, pages })
    }

    /// Returns the set with its runs in one vector, and gives the pages away. A single page is the
    /// answer, and no run is copied: `O(1)`; else as [`PagedSet::to_set`] does it. Fails only if
    /// allocation fails.
    ///
    /// ```
    /// let mut a = PagedSet::new(alloc);
    /// a.insert_interval(Interval::new(1, 9))?;
    /// assert!(rt; a.into_set()? == IntervalSet::new(alloc, 1, 9)?);
    /// ```
    pub fn into_set(self) -> Result<IntervalSet<B>, AllocError>
        // On success, the result has the runs of the set.
        ensures { IfOk result (λ L. L ≡ self) }
    {
        if self.pages.len() != 1 {
            return self.to_set();
        }
        let PagedSet { alloc: _, pages } = self;
        Ok(pages.into_only().into_set())
    }
}
