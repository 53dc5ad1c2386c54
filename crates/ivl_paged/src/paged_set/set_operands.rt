//! Set operations with a paged set.
ghost use Rattle.std.specs.Prelude.{◌≤◌, ◌+◌, IfOk, length, ⊤};
ghost use Rattle.ivl_laws.specs.Sets.{Complement, Intersection, SymmetricDifference, Union, Without};
ghost use Rattle.ivl_laws.specs.Runs.{Covers, IsRunListIn, IsRunsOf};
ghost use Rattle.ivl_paged.specs.Operations.{KeptBy};

use super::PagedSet;
use crate::combine::{Operation, combined};
use crate::gaps::gaps_of;
use crate::parts::{Parts, end_of_window, gather_pages};
use intervallum::interval::Interval;
use intervallum::ops::{Complement, Difference, Intersection, SymmetricDifference, Union};
use intervallum::width::Width;
use std::alloc::AllocError;

impl<B: Width> PagedSet<B> {
    /// What an operation makes of the set and another one.
    pub(super) fn combined_with<T: Parts<B>>(
        &self,
        other: &T,
        op: Operation,
    ) -> Result<PagedSet<B>, AllocError>
        requires { IsRunListIn B.whole (T.runs other.now) }
        ensures { IfOk result (λ L. IsRunsOf L (KeptBy op (Covers self.now) (Covers (T.runs other.now)))) }
    {
        self.in_whole();
        let pages = combined(self.alloc, self, other, op)?;
        Ok(PagedSet {
            alloc: self.alloc,
            pages,
        })
    }
}

impl<B: Width> Parts<B> for PagedSet<B> {
    ghost runs = { λ L. L };

    fn end_from(&self, lower: B) -> B {
        end_of_window(&self.pages, lower)
    }

    fn gather(&self, window: &Interval<B>, list: &mut Vec<Interval<B>>) -> Result<(), AllocError> {
        gather_pages(&self.pages, window, list)
    }
}

impl<B: Width> Union<PagedSet<B>> for PagedSet<B> {
    type Output = Result<PagedSet<B>, AllocError>;

    ghost members = { Covers };

    ghost other_members = { Covers };

    ghost can_unite = { λ _ _. ⊤ };

    ghost answers = { λ r S. IfOk r (λ L. IsRunsOf L S) };

    /// Returns the members of either set. `O(n + m)`. Goes by windows in which each set has about 16
    /// pages: allocates the pages of the result, and lists of the runs in one window. Fails only if
    /// allocation fails.
    ///
    /// ```
    /// let (mut a, mut b) = (PagedSet::new(alloc), PagedSet::new(alloc));
    /// a.insert_interval(Interval::new(1, 5))?;
    /// b.insert_interval(Interval::new(4, 9))?;
    /// assert!(rt; a.union(&b)?.to_set()? == IntervalSet::new(alloc, 1, 9)?);
    /// ```
    fn union(&self, other: &PagedSet<B>) -> Result<PagedSet<B>, AllocError>
        // On success, the members are exactly those of either set, in at most as many runs as the two have together.
        ensures members { IfOk result (λ L. IsRunsOf L (Union (Covers self.now) (Covers other.now))) }
        ensures runs_at_most { IfOk result (λ L. length L ≤ length self.now + length other.now) }
    {
        other.in_whole();
        self.combined_with(other, Operation::Either)
    }
}

impl<B: Width> Intersection<PagedSet<B>> for PagedSet<B> {
    type Output = Result<PagedSet<B>, AllocError>;

    ghost members = { Covers };

    ghost other_members = { Covers };

    ghost answers = { λ r S. IfOk r (λ L. IsRunsOf L S) };

    /// Returns the members of both sets. `O(n + m)`. Goes by windows in which each set has about 16
    /// pages: allocates the pages of the result, and lists of the runs in one window. Fails only if
    /// allocation fails.
    ///
    /// ```
    /// let (mut a, mut b) = (PagedSet::new(alloc), PagedSet::new(alloc));
    /// a.insert_interval(Interval::new(1, 5))?;
    /// b.insert_interval(Interval::new(4, 9))?;
    /// assert!(rt; a.intersection(&b)?.to_set()? == IntervalSet::new(alloc, 4, 5)?);
    /// ```
    fn intersection(&self, other: &PagedSet<B>) -> Result<PagedSet<B>, AllocError>
        // On success, the members are exactly those of both sets, in at most as many runs as the two have together.
        ensures members { IfOk result (λ L. IsRunsOf L (Intersection (Covers self.now) (Covers other.now))) }
        ensures runs_at_most { IfOk result (λ L. length L ≤ length self.now + length other.now) }
    {
        other.in_whole();
        self.combined_with(other, Operation::Both)
    }
}

impl<B: Width> Difference<PagedSet<B>> for PagedSet<B> {
    type Output = Result<PagedSet<B>, AllocError>;

    ghost members = { Covers };

    ghost other_members = { Covers };

    ghost answers = { λ r S. IfOk r (λ L. IsRunsOf L S) };

    /// Returns the members that are not in `other`. `O(n + m)`. Goes by windows in which each set has
    /// about 16 pages: allocates the pages of the result, and lists of the runs in one window. Fails
    /// only if allocation fails.
    ///
    /// ```
    /// let (mut a, mut b) = (PagedSet::new(alloc), PagedSet::new(alloc));
    /// a.insert_interval(Interval::new(1, 5))?;
    /// b.insert_interval(Interval::new(4, 9))?;
    /// assert!(rt; a.difference(&b)?.to_set()? == IntervalSet::new(alloc, 1, 3)?);
    /// ```
    fn difference(&self, other: &PagedSet<B>) -> Result<PagedSet<B>, AllocError>
        // On success, the members are exactly those of the set that are not in `other`, in at most as many runs as the
        // two have together.
        ensures members { IfOk result (λ L. IsRunsOf L (Without (Covers self.now) (Covers other.now))) }
        ensures runs_at_most { IfOk result (λ L. length L ≤ length self.now + length other.now) }
    {
        other.in_whole();
        self.combined_with(other, Operation::FirstAlone)
    }
}

impl<B: Width> SymmetricDifference<PagedSet<B>> for PagedSet<B> {
    type Output = Result<PagedSet<B>, AllocError>;

    ghost members = { Covers };

    ghost other_members = { Covers };

    ghost can_unite = { λ _ _. ⊤ };

    ghost answers = { λ r S. IfOk r (λ L. IsRunsOf L S) };

    /// Returns the members of exactly one of the sets. `O(n + m)`. Goes by windows in which each set
    /// has about 16 pages: allocates the pages of the result, and lists of the runs in one window.
    /// Fails only if allocation fails.
    ///
    /// ```
    /// let (mut a, mut b) = (PagedSet::new(alloc), PagedSet::new(alloc));
    /// a.insert_interval(Interval::new(1, 5))?;
    /// b.insert_interval(Interval::new(4, 9))?;
    /// assert!(rt; a.symmetric_difference(&b)?.to_set()? == [(1, 3), (6, 9)].to_interval_set(alloc)?);
    /// ```
    fn symmetric_difference(&self, other: &PagedSet<B>) -> Result<PagedSet<B>, AllocError>
        // On success, the members are exactly those of either set that are not in both, in at most as many runs as the
        // two have together.
        ensures members { IfOk result (λ L. IsRunsOf L (SymmetricDifference (Covers self.now) (Covers other.now))) }
        ensures runs_at_most { IfOk result (λ L. length L ≤ length self.now + length other.now) }
    {
        other.in_whole();
        self.combined_with(other, Operation::OneAlone)
    }
}

impl<B: Width> Complement for PagedSet<B> {
    type Output = Result<PagedSet<B>, AllocError>;

    ghost whole = { B.whole };

    ghost members = { Covers };

    ghost answers = { λ r S. IfOk r (λ L. IsRunsOf L S) };

    /// Returns the complement within the range of the type. `O(n)`. Goes page by page, and allocates the
    /// pages of the result, which have no room for more runs: the first edit of each moves its runs. Fails
    /// only if allocation fails.
    ///
    /// ```
    /// let mut a = PagedSet::new(alloc);
    /// a.insert_interval(Interval::new(10u8, 254))?;
    /// assert!(rt; a.complement()?.to_set()? == IntervalSet::new(alloc, 0, 9)?);
    /// ```
    fn complement(&self) -> Result<PagedSet<B>, AllocError>
        // On success, the members are exactly the numbers of the range that are not in the set, in at most one run more
        // than the set has.
        ensures members { IfOk result (λ L. IsRunsOf L (Complement B.whole (Covers self.now))) }
        ensures runs_at_most { IfOk result (λ L. length L ≤ length self.now + 1) }
    {
        self.in_whole();
        let pages = gaps_of(self.alloc, &self.pages)?;
        Ok(PagedSet {
            alloc: self.alloc,
            pages,
        })
    }
}
