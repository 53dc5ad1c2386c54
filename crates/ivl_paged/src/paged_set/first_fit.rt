//! Consecutive members.
ghost use Rattle.std.specs.Prelude.{◌≡◌, ◌<◌, ℤ, MatchOption};
ghost use Rattle.ivl_laws.specs.Sets.{AtLeast, IsBetween, Without};
ghost use Rattle.ivl_laws.specs.Runs.{Covers, IsRunsOf};
ghost use Rattle.ivl_places.specs.FirstFit.{FitsAt, IsFirstFit};

use super::PagedSet;
use crate::pages;
use intervallum::interval::Interval;
use intervallum::width::Width;

impl<B: Width> PagedSet<B> {
    /// Returns the lowest interval of exactly `count` consecutive members, or `None` if there is
    /// none. The caller must ensure that `count` is above 0. Check with `count.number() > 0`.
    ///
    /// Passes the groups of pages where no run is so long, reads how long the longest run of each page of
    /// the first other group is, and scans one page: `O(n / page / group)`. Does not allocate.
    ///
    /// ```
    /// let mut a: PagedSet<i32> = PagedSet::new(alloc);
    /// a.insert_interval(Interval::new(1, 2))?;
    /// a.insert_interval(Interval::new(5, 9))?;
    /// assert!(rt; a.first_fit(3) == Some(Interval::new(5, 7)));
    /// assert!(rt; a.first_fit(6).is_none());
    /// ```
    pub fn first_fit(&self, count: B::Output) -> Option<Interval<B>>
        requires { 0 < B.Output.size count }
        // The result is the lowest `count` consecutive members, or `None` if there are none.
        ensures { MatchOption result
            ((v : ℤ) → ¬ (FitsAt (B.Output.size count) (Covers self.now) v))
            (IsFirstFit (B.Output.size count) (Covers self.now)) }
    {
        pages::fit_from(&self.pages, 0, count)
    }

    /// Returns the lowest interval of exactly `count` consecutive members that are all at least
    /// `v`, or `None` if there is none. `v` may be any value of its type. The caller must ensure
    /// that `count` is above 0. Check with `count.number() > 0`.
    ///
    /// Finds `v` by binary search, scans its page, and goes on as [`PagedSet::first_fit`] does:
    /// `O(n / page / group)`. Does not allocate.
    ///
    /// ```
    /// let mut a: PagedSet<i32> = PagedSet::new(alloc);
    /// a.insert_interval(Interval::new(5, 9))?;
    /// assert!(rt; a.first_fit_from(6, 3) == Some(Interval::new(6, 8)));
    /// assert!(rt; a.first_fit_from(8, 3).is_none());
    /// ```
    pub fn first_fit_from(&self, v: B, count: B::Output) -> Option<Interval<B>>
        requires { 0 < B.Output.size count }
        // The result is the lowest `count` consecutive members that are at least `v`, or `None` if there are none.
        ensures { MatchOption result
            ((w : ℤ) → ¬ (FitsAt (B.Output.size count) (AtLeast (B.value v) (Covers self.now)) w))
            (IsFirstFit (B.Output.size count) (AtLeast (B.value v) (Covers self.now))) }
    {
        let place = self.pages.starts_up_to(v);
        match pages::fit_within(self.pages.as_slice(), place, v, count) {
            Some(run) => Some(run),
            None => pages::fit_from(&self.pages, place, count),
        }
    }

    /// Removes and returns the lowest interval of exactly `count` consecutive members, or returns
    /// `None` if there is none; the set is then unchanged. The caller must ensure that `count` is
    /// above 0. Check with `count.number() > 0`.
    ///
    /// The interval is the start of a run, so no run is split and nothing can fail. Costs as much
    /// as [`PagedSet::first_fit`]; if a page then has no runs, the list of pages moves.
    ///
    /// ```
    /// let mut free: PagedSet<i32> = PagedSet::new(alloc);
    /// free.insert_interval(Interval::new(1, 2))?;
    /// free.insert_interval(Interval::new(5, 9))?;
    /// assert!(rt; free.take_first_fit(3) == Some(Interval::new(5, 7)));
    /// assert!(rt; free.first() == Some(1) && !free.contains(&7) && free.contains(&8));
    /// assert!(rt; free.take_first_fit(3).is_none());
    /// ```
    pub fn take_first_fit(&mut self, count: B::Output) -> Option<Interval<B>>
        requires { 0 < B.Output.size count }
        // The result is the lowest `count` consecutive members, and the set keeps exactly the others; or `None` if
        // there are none, and the set is unchanged.
        ensures fit { MatchOption result
            ((v : ℤ) → ¬ (FitsAt (B.Output.size count) (Covers self.old) v))
            (IsFirstFit (B.Output.size count) (Covers self.old)) }
        ensures members { MatchOption result
            (self.new ≡ self.old)
            (λ run. IsRunsOf self.new (Without (Covers self.old) (IsBetween run))) }
    {
        let run = self.first_fit(count)?;
        self.remove_interval(run).unwrap();
        Some(run)
    }
}
