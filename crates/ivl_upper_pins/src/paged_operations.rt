//! What the set operations of a paged set mean, as a caller learns it. None of these needs a hand-written proof.
ghost use Rattle.std.specs.Prelude.{◌≡◌, ◌+◌, ◌≤◌, IfOk, OnErr, OnOk, length};
ghost use Rattle.ivl_laws.specs.Sets.{Complement, Intersection, SymmetricDifference, Union, Without};
ghost use Rattle.ivl_laws.specs.Runs.{Covers, IsRunsOf};

use intervallum::interval_set::IntervalSet;
use intervallum::ops::{Complement, Difference, Intersection, SymmetricDifference, Union};
use intervallum::width::Width;
use ivl_paged::paged_set::PagedSet;
use std::alloc::AllocError;

/// Returns the members of either set.
pub fn in_either<B: Width>(a: &PagedSet<B>, b: &PagedSet<B>) -> Result<PagedSet<B>, AllocError>
    ensures members { IfOk result (λ L. IsRunsOf L (Union (Covers a.now) (Covers b.now))) }
    ensures count { IfOk result (λ L. length L ≤ length a.now + length b.now) }
{
    a.union(b)
}

/// Returns the members of both sets.
pub fn in_both<B: Width>(a: &PagedSet<B>, b: &PagedSet<B>) -> Result<PagedSet<B>, AllocError>
    ensures members { IfOk result (λ L. IsRunsOf L (Intersection (Covers a.now) (Covers b.now))) }
    ensures count { IfOk result (λ L. length L ≤ length a.now + length b.now) }
{
    a.intersection(b)
}

/// Returns the members of the first set that are not in the second.
pub fn in_first_alone<B: Width>(a: &PagedSet<B>, b: &PagedSet<B>) -> Result<PagedSet<B>, AllocError>
    ensures members { IfOk result (λ L. IsRunsOf L (Without (Covers a.now) (Covers b.now))) }
    ensures count { IfOk result (λ L. length L ≤ length a.now + length b.now) }
{
    a.difference(b)
}

/// Returns the members of exactly one set.
pub fn in_one_alone<B: Width>(a: &PagedSet<B>, b: &PagedSet<B>) -> Result<PagedSet<B>, AllocError>
    ensures members { IfOk result (λ L. IsRunsOf L (SymmetricDifference (Covers a.now) (Covers b.now))) }
    ensures count { IfOk result (λ L. length L ≤ length a.now + length b.now) }
{
    a.symmetric_difference(b)
}

/// Returns the numbers of the range that are no members.
pub fn in_none<B: Width>(a: &PagedSet<B>) -> Result<PagedSet<B>, AllocError>
    ensures members { IfOk result (λ L. IsRunsOf L (Complement B.whole (Covers a.now))) }
    ensures count { IfOk result (λ L. length L ≤ length a.now + 1) }
{
    a.complement()
}

/// Returns the members of either set, of which the second is in one list.
pub fn in_either_list<B: Width>(
    a: &PagedSet<B>,
    b: &IntervalSet<B>,
) -> Result<PagedSet<B>, AllocError>
    ensures members { IfOk result (λ L. IsRunsOf L (Union (Covers a.now) (Covers b.now))) }
    ensures count { IfOk result (λ L. length L ≤ length a.now + length b.now) }
{
    a.union(b)
}

/// Returns the members of both sets, of which the second is in one list.
pub fn in_both_lists<B: Width>(
    a: &PagedSet<B>,
    b: &IntervalSet<B>,
) -> Result<PagedSet<B>, AllocError>
    ensures members { IfOk result (λ L. IsRunsOf L (Intersection (Covers a.now) (Covers b.now))) }
    ensures count { IfOk result (λ L. length L ≤ length a.now + length b.now) }
{
    a.intersection(b)
}

/// Returns the members of the first set that are not in the second, which is in one list.
pub fn in_no_list<B: Width>(a: &PagedSet<B>, b: &IntervalSet<B>) -> Result<PagedSet<B>, AllocError>
    ensures members { IfOk result (λ L. IsRunsOf L (Without (Covers a.now) (Covers b.now))) }
    ensures count { IfOk result (λ L. length L ≤ length a.now + length b.now) }
{
    a.difference(b)
}

/// Returns the members of exactly one set, of which the second is in one list.
pub fn in_one_list<B: Width>(a: &PagedSet<B>, b: &IntervalSet<B>) -> Result<PagedSet<B>, AllocError>
    ensures members { IfOk result (λ L. IsRunsOf L (SymmetricDifference (Covers a.now) (Covers b.now))) }
    ensures count { IfOk result (λ L. length L ≤ length a.now + length b.now) }
{
    a.symmetric_difference(b)
}

/// Adds the members of the second set.
pub fn gains_all<B: Width>(a: &mut PagedSet<B>, b: &PagedSet<B>) -> Result<(), AllocError>
    ensures members { OnOk result (IsRunsOf a.new (Union (Covers a.old) (Covers b.now))) }
    ensures err { OnErr result (a.new ≡ a.old) }
{
    a.union_with(b)
}

/// Adds the members of a list.
pub fn gains_list<B: Width>(a: &mut PagedSet<B>, b: &IntervalSet<B>) -> Result<(), AllocError>
    ensures members { OnOk result (IsRunsOf a.new (Union (Covers a.old) (Covers b.now))) }
    ensures err { OnErr result (a.new ≡ a.old) }
{
    a.union_with_list(b)
}

/// Removes the members of the second set.
pub fn loses_all<B: Width>(a: &mut PagedSet<B>, b: &PagedSet<B>) -> Result<(), AllocError>
    ensures members { OnOk result (IsRunsOf a.new (Without (Covers a.old) (Covers b.now))) }
    ensures err { OnErr result (a.new ≡ a.old) }
{
    a.difference_with(b)
}

/// Removes the members of a list.
pub fn loses_list<B: Width>(a: &mut PagedSet<B>, b: &IntervalSet<B>) -> Result<(), AllocError>
    ensures members { OnOk result (IsRunsOf a.new (Without (Covers a.old) (Covers b.now))) }
    ensures err { OnErr result (a.new ≡ a.old) }
{
    a.difference_with_list(b)
}

/// Keeps the members of the second set.
pub fn keeps_common<B: Width>(a: &mut PagedSet<B>, b: &PagedSet<B>) -> Result<(), AllocError>
    ensures members { OnOk result (IsRunsOf a.new (Intersection (Covers a.old) (Covers b.now))) }
    ensures err { OnErr result (a.new ≡ a.old) }
{
    a.intersect_with(b)
}

/// Keeps the members of a list.
pub fn keeps_of_list<B: Width>(a: &mut PagedSet<B>, b: &IntervalSet<B>) -> Result<(), AllocError>
    ensures members { OnOk result (IsRunsOf a.new (Intersection (Covers a.old) (Covers b.now))) }
    ensures err { OnErr result (a.new ≡ a.old) }
{
    a.intersect_with_list(b)
}
