//! Operations on a set and a single value.
ghost use Rattle.std.specs.Prelude.{◌≤◌, ◌+◌, IfOk, length};
ghost use Rattle.ivl_laws.specs.Sets.{Intersection, IsBetween, Only, SymmetricDifference, Union, Without};
ghost use Rattle.ivl_laws.specs.Runs.{Covers, IsRunsOf};

use super::IntervalSet;
use crate::ops::{Contains, Difference, Intersection, SymmetricDifference, Union};
use crate::width::Width;
use std::alloc::AllocError;

impl<B: Width> Union<B> for IntervalSet<B> {
    type Output = Result<IntervalSet<B>, AllocError>;

    ghost members = { Covers };

    ghost other_members = { λ v. Only (B.value v) };

    ghost can_unite = { λ _ v. IsBetween B.whole (B.value v) };

    ghost answers = { λ r S. IfOk r (λ L. IsRunsOf L S) };

    /// Returns the members and the value. `O(n)`: one copy and at most two binary searches.
    /// Reserves `n + 1` runs once. Fails only if allocation fails.
    ///
    /// The caller must ensure that the value is in the range. Check with
    /// `Interval::in_range(value, value)`.
    ///
    /// ```
    /// let a = IntervalSet::new(alloc, 1, 5)?;
    /// assert!(rt; a.union(&6)? == IntervalSet::new(alloc, 1, 6)?);
    /// ```
    fn union(&self, other: &B) -> Result<IntervalSet<B>, AllocError>
        requires { IsBetween B.whole (B.value other.now) }
        // On success, the members are exactly those of the set and the value, in at most one run more than the set has.
        ensures members { IfOk result (λ L. IsRunsOf L (Union (Covers self.now) (Only (B.value other.now)))) }
        ensures runs_at_most { IfOk result (λ L. length L ≤ length self.now + 1) }
    {
        let mut set = self.copy_with_room()?;
        set.insert(*other)?;
        Ok(set)
    }
}

impl<B: Width> SymmetricDifference<B> for IntervalSet<B> {
    type Output = Result<IntervalSet<B>, AllocError>;

    ghost members = { Covers };

    ghost other_members = { λ v. Only (B.value v) };

    ghost can_unite = { λ _ v. IsBetween B.whole (B.value v) };

    ghost answers = { λ r S. IfOk r (λ L. IsRunsOf L S) };

    /// Returns the members without the value if it is one of them, else with it. `O(n)`: one copy
    /// and at most three binary searches. Reserves `n + 1` runs once and does not shrink the result.
    /// Fails only if allocation fails.
    ///
    /// The caller must ensure that the value is in the range. Check with
    /// `Interval::in_range(value, value)`.
    ///
    /// ```
    /// let a = IntervalSet::new(alloc, 1, 5)?;
    /// assert!(rt; a.symmetric_difference(&5)? == IntervalSet::new(alloc, 1, 4)?);
    /// ```
    fn symmetric_difference(&self, other: &B) -> Result<IntervalSet<B>, AllocError>
        requires { IsBetween B.whole (B.value other.now) }
        // On success, the members are exactly those of the set other than the value, and the value if the set does not
        // have it, in at most one run more than the set has.
        ensures members { IfOk result (λ L. IsRunsOf L (SymmetricDifference (Covers self.now) (Only (B.value other.now)))) }
        ensures runs_at_most { IfOk result (λ L. length L ≤ length self.now + 1) }
    {
        if self.contains(other) {
            self.difference(other)
        } else {
            self.union(other)
        }
    }
}

impl<B: Width> Intersection<B> for IntervalSet<B> {
    type Output = Result<IntervalSet<B>, AllocError>;

    ghost members = { Covers };

    ghost other_members = { λ v. Only (B.value v) };

    ghost answers = { λ r S. IfOk r (λ L. IsRunsOf L S) };

    /// Returns the value alone if it is a member, else the empty set. It may be any value of its
    /// type. `O(log n)`. Allocates one run if it is a member. Fails only if allocation fails.
    ///
    /// ```
    /// let a = IntervalSet::new(alloc, 1, 5)?;
    /// assert!(rt; a.intersection(&5)? == IntervalSet::singleton(alloc, 5)?);
    /// ```
    fn intersection(&self, other: &B) -> Result<IntervalSet<B>, AllocError>
        // On success, the only member is the value if the set has it, and there is none if not, in at most one run more
        // than the set has.
        ensures members { IfOk result (λ L. IsRunsOf L (Intersection (Covers self.now) (Only (B.value other.now)))) }
        ensures runs_at_most { IfOk result (λ L. length L ≤ length self.now + 1) }
    {
        // the members are in the range, and so is the value if it is one
        self.in_whole();
        if self.contains(other) {
            IntervalSet::new(self.allocator(), *other, *other)
        } else {
            Ok(IntervalSet::empty(self.allocator()))
        }
    }
}

impl<B: Width> Difference<B> for IntervalSet<B> {
    type Output = Result<IntervalSet<B>, AllocError>;

    ghost members = { Covers };

    ghost other_members = { λ v. Only (B.value v) };

    ghost answers = { λ r S. IfOk r (λ L. IsRunsOf L S) };

    /// Returns the members except the value, which may be any value of its type. `O(n)`: one copy
    /// and at most two binary searches. Reserves `n + 1` runs once and does not shrink the result.
    /// Fails only if allocation fails.
    ///
    /// ```
    /// let a = IntervalSet::new(alloc, 1, 5)?;
    /// assert!(rt; a.difference(&5)? == IntervalSet::new(alloc, 1, 4)?);
    /// ```
    fn difference(&self, other: &B) -> Result<IntervalSet<B>, AllocError>
        // On success, the members are exactly those of the set other than the value, in at most one run more than the
        // set has.
        ensures members { IfOk result (λ L. IsRunsOf L (Without (Covers self.now) (Only (B.value other.now)))) }
        ensures runs_at_most { IfOk result (λ L. length L ≤ length self.now + 1) }
    {
        let mut set = self.copy_with_room()?;
        set.remove(*other)?;
        Ok(set)
    }
}
