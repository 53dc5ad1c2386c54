//! Set operations.
ghost use Rattle.std.specs.Prelude.{◌↔◌, ◌≤◌, ◌+◌, IfOk, IsTrue, length, ⊤};
ghost use Rattle.ivl_laws.specs.Sets.{Complement, HasNone, HasSome, Intersection, SymmetricDifference, Union, Without};
ghost use Rattle.ivl_laws.specs.Runs.{Covers, IsRunsOf};

use super::IntervalSet;
use super::lopsided::{common_with_few, few_without, is_far_shorter, without_few};
use crate::ops::{
    Complement, Difference, Disjoint, Intersection, Overlap, SymmetricDifference, Union,
};
use crate::steps::{Probes, Walk, common, gaps, have_common, one_alone, unite, without};
use crate::width::Width;
use std::alloc::AllocError;

impl<B: Width> Union<IntervalSet<B>> for IntervalSet<B> {
    type Output = Result<IntervalSet<B>, AllocError>;

    ghost members = { Covers };

    ghost other_members = { Covers };

    ghost can_unite = { λ _ _. ⊤ };

    ghost answers = { λ r S. IfOk r (λ L. IsRunsOf L S) };

    /// Returns the members of either set. `O(n + m)`. Reserves `n + m` runs once. Fails
    /// only if allocation fails.
    ///
    /// ```
    /// let (a, b) = (IntervalSet::new(alloc, 1, 5)?, IntervalSet::new(alloc, 4, 9)?);
    /// assert!(rt; a.union(&b)? == IntervalSet::new(alloc, 1, 9)?);
    /// ```
    fn union(&self, other: &IntervalSet<B>) -> Result<IntervalSet<B>, AllocError>
        // On success, the members are exactly those of either set, in at most as many runs as the two have together.
        ensures members { IfOk result (λ L. IsRunsOf L (Union (Covers self.now) (Covers other.now))) }
        ensures runs_at_most { IfOk result (λ L. length L ≤ length self.now + length other.now) }
    {
        unite(Walk::new(self), Walk::new(other))
    }
}

impl<B: Width> Intersection<IntervalSet<B>> for IntervalSet<B> {
    type Output = Result<IntervalSet<B>, AllocError>;

    ghost members = { Covers };

    ghost other_members = { Covers };

    ghost answers = { λ r S. IfOk r (λ L. IsRunsOf L S) };

    /// Returns the members of both sets. `O(n + m)`. Reserves `n + m` runs once. Fails
    /// only if allocation fails.
    ///
    /// If one set has far fewer runs, searches for each of its `k` runs among the `n` of the other,
    /// from where the last search ended: `O(k log n)`, plus a copy of the runs of the result. It
    /// then reserves `k` runs, and more as the result grows.
    ///
    /// ```
    /// let (a, b) = (IntervalSet::new(alloc, 1, 5)?, IntervalSet::new(alloc, 4, 9)?);
    /// assert!(rt; a.intersection(&b)? == IntervalSet::new(alloc, 4, 5)?);
    /// ```
    fn intersection(&self, other: &IntervalSet<B>) -> Result<IntervalSet<B>, AllocError>
        // On success, the members are exactly those of both sets, in at most as many runs as the two have together.
        ensures members { IfOk result (λ L. IsRunsOf L (Intersection (Covers self.now) (Covers other.now))) }
        ensures runs_at_most { IfOk result (λ L. length L ≤ length self.now + length other.now) }
    {
        if is_far_shorter(self, other) {
            common_with_few(self, other, &mut Probes::new(other))
        } else if is_far_shorter(other, self) {
            common_with_few(other, self, &mut Probes::new(self))
        } else {
            common(Walk::new(self), Walk::new(other))
        }
    }
}

impl<B: Width> Difference<IntervalSet<B>> for IntervalSet<B> {
    type Output = Result<IntervalSet<B>, AllocError>;

    ghost members = { Covers };

    ghost other_members = { Covers };

    ghost answers = { λ r S. IfOk r (λ L. IsRunsOf L S) };

    /// Returns the members that are not in `other`. `O(n + m)`. Reserves `n + m` runs once.
    /// Fails only if allocation fails.
    ///
    /// If one set has far fewer runs, searches for each of its `k` runs among the `n` of the other,
    /// from where the last search ended: `O(k log n)`, plus a copy of the runs of the result or of
    /// those that the `k` runs overlap. It then reserves memory as it copies runs, and also builds
    /// the complement of `other`, or the intersection of the two, which it drops at the end.
    ///
    /// ```
    /// let (a, b) = (IntervalSet::new(alloc, 1, 5)?, IntervalSet::new(alloc, 4, 9)?);
    /// assert!(rt; a.difference(&b)? == IntervalSet::new(alloc, 1, 3)?);
    /// ```
    fn difference(&self, other: &IntervalSet<B>) -> Result<IntervalSet<B>, AllocError>
        // On success, the members are exactly those of the set that are not in `other`, in at most as many runs as the
        // two have together.
        ensures members { IfOk result (λ L. IsRunsOf L (Without (Covers self.now) (Covers other.now))) }
        ensures runs_at_most { IfOk result (λ L. length L ≤ length self.now + length other.now) }
    {
        if is_far_shorter(other, self) {
            without_few(self, other)
        } else if is_far_shorter(self, other) {
            few_without(self, other)
        } else {
            without(Walk::new(self), Walk::new(other))
        }
    }
}

impl<B: Width> SymmetricDifference<IntervalSet<B>> for IntervalSet<B> {
    type Output = Result<IntervalSet<B>, AllocError>;

    ghost members = { Covers };

    ghost other_members = { Covers };

    ghost can_unite = { λ _ _. ⊤ };

    ghost answers = { λ r S. IfOk r (λ L. IsRunsOf L S) };

    /// Returns the members of exactly one of the sets. `O(n + m)`. Reserves `n + m` runs once.
    /// Fails only if allocation fails.
    ///
    /// ```
    /// let (a, b) = (IntervalSet::new(alloc, 1, 5)?, IntervalSet::new(alloc, 4, 9)?);
    /// assert!(rt; a.symmetric_difference(&b)? == [(1, 3), (6, 9)].to_interval_set(alloc)?);
    /// ```
    ///
    /// Builds no intermediate set.
    fn symmetric_difference(&self, other: &IntervalSet<B>) -> Result<IntervalSet<B>, AllocError>
        // On success, the members are exactly those of either set that are not in both, in at most as many runs as the
        // two have together.
        ensures members { IfOk result (λ L. IsRunsOf L (SymmetricDifference (Covers self.now) (Covers other.now))) }
        ensures runs_at_most { IfOk result (λ L. length L ≤ length self.now + length other.now) }
    {
        one_alone(self, other)
    }
}

impl<B: Width> Complement for IntervalSet<B> {
    type Output = Result<IntervalSet<B>, AllocError>;

    ghost whole = { B.whole };

    ghost members = { Covers };

    ghost answers = { λ r S. IfOk r (λ L. IsRunsOf L S) };

    /// Returns the complement within the range of the type. `O(n)`. Reserves `n + 1` runs once.
    /// Fails only if allocation fails.
    ///
    /// ```
    /// let a = IntervalSet::new(alloc, 10u8, 254)?;
    /// assert!(rt; a.complement()? == IntervalSet::new(alloc, 0, 9)?);
    /// ```
    fn complement(&self) -> Result<IntervalSet<B>, AllocError>
        // On success, the members are exactly the numbers of the range that are not in the set, in at most one run more
        // than the set has.
        ensures members { IfOk result (λ L. IsRunsOf L (Complement B.whole (Covers self.now))) }
        ensures runs_at_most { IfOk result (λ L. length L ≤ length self.now + 1) }
    {
        gaps(self)
    }
}

impl<B: Width> Disjoint<IntervalSet<B>> for IntervalSet<B> {
    ghost members = { Covers };

    ghost other_members = { Covers };

    /// Returns true exactly when no number is a member of both. `O(n + m)`, and stops at the first
    /// common member. Does not allocate.
    ///
    /// ```
    /// let (a, b) = (IntervalSet::new(alloc, 1, 2)?, IntervalSet::new(alloc, 3, 5)?);
    /// assert!(rt; a.is_disjoint(&b) && !a.is_disjoint(&a));
    /// ```
    fn is_disjoint(&self, other: &IntervalSet<B>) -> bool
        // True exactly when no number is a member of both sets.
        ensures { IsTrue result ↔ HasNone (Intersection (Covers self.now) (Covers other.now)) }
    {
        !have_common(Walk::new(self), Walk::new(other))
    }
}

impl<B: Width> Overlap<IntervalSet<B>> for IntervalSet<B> {
    ghost members = { Covers };

    ghost other_members = { Covers };

    /// Returns true exactly when some number is a member of both. `O(n + m)`, and stops at the
    /// first common member. Does not allocate.
    ///
    /// ```
    /// let (a, b) = (IntervalSet::new(alloc, 1, 2)?, IntervalSet::new(alloc, 3, 5)?);
    /// assert!(rt; a.overlap(&a) && !a.overlap(&b));
    /// ```
    fn overlap(&self, other: &IntervalSet<B>) -> bool
        // True exactly when some number is a member of both sets.
        ensures { IsTrue result ↔ HasSome (Intersection (Covers self.now) (Covers other.now)) }
    {
        have_common(Walk::new(self), Walk::new(other))
    }
}
