//! Set operations with a set whose runs stand in one vector.
ghost use Rattle.std.specs.Prelude.{◌≤◌, ◌+◌, IfOk, length, ⊤};
ghost use Rattle.ivl_laws.specs.Sets.{Intersection, SymmetricDifference, Union, Without};
ghost use Rattle.ivl_laws.specs.Runs.{Covers, IsRunsOf};

use super::PagedSet;
use crate::combine::Operation;
use intervallum::interval_set::IntervalSet;
use intervallum::ops::{Difference, Intersection, SymmetricDifference, Union};
use intervallum::width::Width;
use std::alloc::AllocError;

impl<B: Width> Union<IntervalSet<B>> for PagedSet<B> {
    type Output = Result<PagedSet<B>, AllocError>;

    ghost members = { Covers };

    ghost other_members = { Covers };

    ghost can_unite = { λ _ _. ⊤ };

    ghost answers = { λ r S. IfOk r (λ L. IsRunsOf L S) };

    /// Returns the members of either set. `O(n + m)`. Goes by windows in which the paged set has
    /// about 16 pages: allocates the pages of the result, and lists of the runs in one window. Fails
    /// only if allocation fails.
    ///
    /// ```
    /// let mut a = PagedSet::new(alloc);
    /// a.insert_interval(Interval::new(1, 5))?;
    /// let b = IntervalSet::new(alloc, 4, 9)?;
    /// assert!(rt; a.union(&b)?.to_set()? == IntervalSet::new(alloc, 1, 9)?);
    /// ```
    fn union(&self, other: &IntervalSet<B>) -> Result<PagedSet<B>, AllocError>
        // On success, the members are exactly those of either set, in at most as many runs as the two have together.
        ensures members { IfOk result (λ L. IsRunsOf L (Union (Covers self.now) (Covers other.now))) }
        ensures runs_at_most { IfOk result (λ L. length L ≤ length self.now + length other.now) }
    {
        other.in_whole();
        self.combined_with(other, Operation::Either)
    }
}

impl<B: Width> Intersection<IntervalSet<B>> for PagedSet<B> {
    type Output = Result<PagedSet<B>, AllocError>;

    ghost members = { Covers };

    ghost other_members = { Covers };

    ghost answers = { λ r S. IfOk r (λ L. IsRunsOf L S) };

    /// Returns the members of both sets. `O(n + m)`. Goes by windows in which the paged set has about
    /// 16 pages: allocates the pages of the result, and lists of the runs in one window. Fails only
    /// if allocation fails.
    ///
    /// ```
    /// let mut a = PagedSet::new(alloc);
    /// a.insert_interval(Interval::new(1, 5))?;
    /// let b = IntervalSet::new(alloc, 4, 9)?;
    /// assert!(rt; a.intersection(&b)?.to_set()? == IntervalSet::new(alloc, 4, 5)?);
    /// ```
    fn intersection(&self, other: &IntervalSet<B>) -> Result<PagedSet<B>, AllocError>
        // On success, the members are exactly those of both sets, in at most as many runs as the two have together.
        ensures members { IfOk result (λ L. IsRunsOf L (Intersection (Covers self.now) (Covers other.now))) }
        ensures runs_at_most { IfOk result (λ L. length L ≤ length self.now + length other.now) }
    {
        other.in_whole();
        self.combined_with(other, Operation::Both)
    }
}

impl<B: Width> Difference<IntervalSet<B>> for PagedSet<B> {
    type Output = Result<PagedSet<B>, AllocError>;

    ghost members = { Covers };

    ghost other_members = { Covers };

    ghost answers = { λ r S. IfOk r (λ L. IsRunsOf L S) };

    /// Returns the members that are not in `other`. `O(n + m)`. Goes by windows in which the paged
    /// set has about 16 pages: allocates the pages of the result, and lists of the runs in one
    /// window. Fails only if allocation fails.
    ///
    /// ```
    /// let mut a = PagedSet::new(alloc);
    /// a.insert_interval(Interval::new(1, 5))?;
    /// let b = IntervalSet::new(alloc, 4, 9)?;
    /// assert!(rt; a.difference(&b)?.to_set()? == IntervalSet::new(alloc, 1, 3)?);
    /// ```
    fn difference(&self, other: &IntervalSet<B>) -> Result<PagedSet<B>, AllocError>
        // On success, the members are exactly those of the set that are not in `other`, in at most as many runs as the
        // two have together.
        ensures members { IfOk result (λ L. IsRunsOf L (Without (Covers self.now) (Covers other.now))) }
        ensures runs_at_most { IfOk result (λ L. length L ≤ length self.now + length other.now) }
    {
        other.in_whole();
        self.combined_with(other, Operation::FirstAlone)
    }
}

impl<B: Width> SymmetricDifference<IntervalSet<B>> for PagedSet<B> {
    type Output = Result<PagedSet<B>, AllocError>;

    ghost members = { Covers };

    ghost other_members = { Covers };

    ghost can_unite = { λ _ _. ⊤ };

    ghost answers = { λ r S. IfOk r (λ L. IsRunsOf L S) };

    /// Returns the members of exactly one of the sets. `O(n + m)`. Goes by windows in which the paged
    /// set has about 16 pages: allocates the pages of the result, and lists of the runs in one
    /// window. Fails only if allocation fails.
    ///
    /// ```
    /// let mut a = PagedSet::new(alloc);
    /// a.insert_interval(Interval::new(1, 5))?;
    /// let b = IntervalSet::new(alloc, 4, 9)?;
    /// assert!(rt; a.symmetric_difference(&b)?.to_set()? == [(1, 3), (6, 9)].to_interval_set(alloc)?);
    /// ```
    fn symmetric_difference(&self, other: &IntervalSet<B>) -> Result<PagedSet<B>, AllocError>
        // On success, the members are exactly those of either set that are not in both, in at most as many runs as the
        // two have together.
        ensures members { IfOk result (λ L. IsRunsOf L (SymmetricDifference (Covers self.now) (Covers other.now))) }
        ensures runs_at_most { IfOk result (λ L. length L ≤ length self.now + length other.now) }
    {
        other.in_whole();
        self.combined_with(other, Operation::OneAlone)
    }
}
