//! The lattice of sets, ordered by information: join and meet.
ghost use Rattle.std.specs.Prelude.{◌≤◌, ◌+◌, IfOk, length};
ghost use Rattle.ivl_laws.specs.Sets.{Intersection, Union};
ghost use Rattle.ivl_laws.specs.Runs.{Covers, IsRunsOf};

use super::IntervalSet;
use crate::ops::{Join, Meet};
use crate::steps::{Walk, common, unite};
use crate::width::Width;
use std::alloc::AllocError;

impl<B: Width> Join for IntervalSet<B> {
    type Output = Result<IntervalSet<B>, AllocError>;

    ghost members = { Covers };

    ghost answers = { λ r S. IfOk r (λ L. IsRunsOf L S) };

    /// Returns the members of both sets: the intersection. `O(n + m)`. Reserves `n + m` runs once.
    /// Consumes both sets. Fails only if allocation fails.
    ///
    /// ```
    /// let (a, b) = (IntervalSet::new(alloc, 1, 5)?, IntervalSet::new(alloc, 4, 9)?);
    /// assert!(rt; a.join(b)? == IntervalSet::new(alloc, 4, 5)?);
    /// ```
    fn join(self, other: IntervalSet<B>) -> Result<IntervalSet<B>, AllocError>
        // On success, the members are exactly those of both sets, in at most as many runs as the two have together.
        ensures members { IfOk result (λ L. IsRunsOf L (Intersection (Covers self) (Covers other))) }
        ensures runs_at_most { IfOk result (λ L. length L ≤ length self + length other) }
    {
        common(Walk::new(&self), Walk::new(&other))
    }
}

impl<B: Width> Meet for IntervalSet<B> {
    type Output = Result<IntervalSet<B>, AllocError>;

    ghost members = { Covers };

    ghost answers = { λ r S. IfOk r (λ L. IsRunsOf L S) };

    /// Returns the members of either set: the union. `O(n + m)`. Reserves `n + m` runs once.
    /// Consumes both sets. Fails only if allocation fails.
    ///
    /// ```
    /// let (a, b) = (IntervalSet::new(alloc, 1, 5)?, IntervalSet::new(alloc, 4, 9)?);
    /// assert!(rt; a.meet(b)? == IntervalSet::new(alloc, 1, 9)?);
    /// ```
    fn meet(self, other: IntervalSet<B>) -> Result<IntervalSet<B>, AllocError>
        // On success, the members are exactly those of either set, in at most as many runs as the two have together.
        ensures members { IfOk result (λ L. IsRunsOf L (Union (Covers self) (Covers other))) }
        ensures runs_at_most { IfOk result (λ L. length L ≤ length self + length other) }
    {
        unite(Walk::new(&self), Walk::new(&other))
    }
}
