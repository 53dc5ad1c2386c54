//! Copies of a set.
ghost use Rattle.std.specs.Prelude.{◌≡◌, IfOk};

use super::PagedSet;
use crate::page_list::PageList;
use crate::pages::copy_of;
use intervallum::width::Width;
use std::alloc::AllocError;

impl<B: Width> PagedSet<B> {
    /// Returns a copy of the set, page by page. A page of 64 runs or more has room for 128. `O(n)`. Fails
    /// only if allocation fails.
    ///
    /// ```
    /// let mut a = PagedSet::new(alloc);
    /// a.insert_interval(Interval::new(1, 5))?;
    /// assert!(rt; a.try_clone()? == a);
    /// ```
    pub fn try_clone(&self) -> Result<Self, AllocError>
        // On success, the result is the same set.
        ensures { IfOk result (λ L. L ≡ self.now) }
    {
        self.in_whole();
        let mut pages = PageList::with_capacity(self.alloc, self.pages.len())?;
        for page in self.pages.as_slice() {
            pages.push(copy_of(self.alloc, page)?)?;
        }
        Ok(PagedSet {
            alloc: self.alloc,
            pages,
        })
    }
}
