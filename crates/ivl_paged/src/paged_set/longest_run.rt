//! The longest run.
ghost use Rattle.std.specs.Prelude.{◌≡◌, ◌≤◌, ℕ, ℤ, [], IfSome, MatchOption};
ghost use Rattle.ivl_laws.specs.Bounds.{width_of};
ghost use Rattle.ivl_laws.specs.Runs.{Covers};
ghost use Rattle.ivl_places.specs.FirstFit.{FitsAt, IsFirstFit};
ghost use Rattle.ivl_places.specs.Neighbours.{IsRunWith};

use super::PagedSet;
use crate::longests::longest_of;
use intervallum::interval::Interval;
use intervallum::width::Width;

impl<B: Width> PagedSet<B> {
    /// Returns the longest run, and the lowest of these if there are several; `None` if the set is empty.
    ///
    /// Reads how long the longest run of each page is, and scans one page: `O(n / page)`. Does not allocate.
    ///
    /// ```
    /// let list: IntervalSet<i32> = [(1, 2), (5, 9), (12, 16)].to_interval_set(alloc)?;
    /// let free = PagedSet::of_set(&list)?;
    /// assert!(rt; free.longest_run() == Some(Interval::new(5, 9)));
    /// ```
    pub fn longest_run(&self) -> Option<Interval<B>>
        // The result is the lowest of the longest runs, or `None` if there is no run.
        ensures run { MatchOption result (self.now ≡ []) (λ run. IsRunWith run.0 (Covers self.now) run) }
        ensures longest { IfSome result (λ run. (n : ℕ) (v : ℤ) → FitsAt n (Covers self.now) v → n ≤ width_of run) }
        ensures lowest { IfSome result (λ run. IsFirstFit (width_of run) (Covers self.now) run) }
    {
        if self.pages.is_empty() {
            return None;
        }
        // the first page has a member, and so has the longest run
        self.pages.head(0);
        self.first_fit(longest_of(self.pages.as_slice()))
    }
}
