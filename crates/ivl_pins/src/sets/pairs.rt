//! Operations on two sets.
ghost use Rattle.std.specs.Prelude.{◌↔◌, IfOk, IsTrue};
ghost use Rattle.ivl_laws.specs.Sets.{Complement, HasNone, HasSome, Intersection, IsProperSubset, IsSubset, SymmetricDifference, Union, Without};
ghost use Rattle.ivl_laws.specs.Runs.{Covers, IsRunsOf};
ghost use Rattle.ivl_interval.specs.Kleene.{IsEntailmentOf};

use intervallum::interval_set::IntervalSet;
use intervallum::kleene::SKleene;
use intervallum::ops::{Complement, SymmetricDifference};
use intervallum::width::Width;
use ivl_interval_pins::callers::pairs as callers;
use std::alloc::AllocError;

/// Returns the runs of the numbers that both lists cover.
pub fn sets_in_common<B: Width>(
    a: &IntervalSet<B>,
    b: &IntervalSet<B>,
) -> Result<IntervalSet<B>, AllocError>
    ensures { IfOk result (λ L. IsRunsOf L (Intersection (Covers a.now) (Covers b.now))) }
{
    callers::intersection_by_bound(a, b)
}

/// Returns the runs of the numbers that the one list covers and the other does not.
pub fn set_without<B: Width>(
    a: &IntervalSet<B>,
    b: &IntervalSet<B>,
) -> Result<IntervalSet<B>, AllocError>
    ensures { IfOk result (λ L. IsRunsOf L (Without (Covers a.now) (Covers b.now))) }
{
    callers::difference_by_bound(a, b)
}

/// Returns the runs of the numbers that one list alone covers.
pub fn sets_apart<B: Width>(
    a: &IntervalSet<B>,
    b: &IntervalSet<B>,
) -> Result<IntervalSet<B>, AllocError>
    ensures { IfOk result (λ L. IsRunsOf L (SymmetricDifference (Covers a.now) (Covers b.now))) }
{
    a.symmetric_difference(b)
}

/// Returns the runs of the numbers of the range that the list does not cover.
pub fn rest_of_range<B: Width>(a: &IntervalSet<B>) -> Result<IntervalSet<B>, AllocError>
    ensures { IfOk result (λ L. IsRunsOf L (Complement B.whole (Covers a.now))) }
{
    a.complement()
}

/// Returns true exactly when each number that the one list covers is covered by the other.
pub fn set_is_subset<B: Width>(a: &IntervalSet<B>, b: &IntervalSet<B>) -> bool
    ensures { IsTrue result ↔ IsSubset (Covers a.now) (Covers b.now) }
{
    callers::is_subset_by_bound(a, b)
}

/// Returns true exactly when each number that the one list covers is covered by the other, which
/// covers more.
pub fn set_is_proper_subset<B: Width>(a: &IntervalSet<B>, b: &IntervalSet<B>) -> bool
    ensures { IsTrue result ↔ IsProperSubset (Covers a.now) (Covers b.now) }
{
    callers::is_proper_subset_by_bound(a, b)
}

/// Returns true exactly when each number that the other list covers is covered by the one.
pub fn set_is_superset<B: Width>(a: &IntervalSet<B>, b: &IntervalSet<B>) -> bool
    ensures { IsTrue result ↔ IsSubset (Covers b.now) (Covers a.now) }
{
    a.is_superset(b)
}

/// Returns true exactly when each number that the other list covers is covered by the one, which
/// covers more.
pub fn set_is_proper_superset<B: Width>(a: &IntervalSet<B>, b: &IntervalSet<B>) -> bool
    ensures { IsTrue result ↔ IsProperSubset (Covers b.now) (Covers a.now) }
{
    a.is_proper_superset(b)
}

/// Returns true exactly when no number is covered by both lists.
pub fn sets_are_disjoint<B: Width>(a: &IntervalSet<B>, b: &IntervalSet<B>) -> bool
    ensures { IsTrue result ↔ HasNone (Intersection (Covers a.now) (Covers b.now)) }
{
    callers::is_disjoint_by_bound(a, b)
}

/// Returns true exactly when some number is covered by both lists.
pub fn sets_overlap<B: Width>(a: &IntervalSet<B>, b: &IntervalSet<B>) -> bool
    ensures { IsTrue result ↔ HasSome (Intersection (Covers a.now) (Covers b.now)) }
{
    callers::overlap_by_bound(a, b)
}

/// Returns the runs of the numbers that both lists cover.
pub fn join_of_sets<B: Width>(
    a: IntervalSet<B>,
    b: IntervalSet<B>,
) -> Result<IntervalSet<B>, AllocError>
    ensures { IfOk result (λ L. IsRunsOf L (Intersection (Covers a) (Covers b))) }
{
    callers::join_by_bound(a, b)
}

/// Returns the runs of the numbers that either list covers.
pub fn meet_of_sets<B: Width>(
    a: IntervalSet<B>,
    b: IntervalSet<B>,
) -> Result<IntervalSet<B>, AllocError>
    ensures { IfOk result (λ L. IsRunsOf L (Union (Covers a) (Covers b))) }
{
    callers::meet_by_bound(a, b)
}

/// Returns inclusion one way, or else the other, or neither.
pub fn set_entails<B: Width>(a: &IntervalSet<B>, b: &IntervalSet<B>) -> SKleene
    ensures { IsEntailmentOf (Covers a.now) (Covers b.now) result }
{
    callers::entail_by_bound(a, b)
}
