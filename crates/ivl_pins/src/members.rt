//! Callers that iterate over the members of a set, from either end.
ghost use Rattle.std.specs.Prelude.{◌≡◌, ◌≤◌, ◌^◌, [], ◌∷◌, ◌++◌, IfOk, IsOk, MatchOption, length, map};
ghost use Rattle.ivl_laws.specs.Sets.{HasNone};
ghost use Rattle.ivl_laws.specs.Runs.{Covers};
ghost use Rattle.ivl_places.specs.Members.{members_of};
ghost use Rattle.ivl_places.specs.Neighbours.{IsGreatest, IsLeast};

use intervallum::interval_set::{IntervalSet, Members};
use intervallum::width::Width;
use std::alloc::{AllocError, Global};

/// Returns every member, in ascending order.
pub fn all_members<B: Width>(alloc: Global, set: &IntervalSet<B>) -> Result<Vec<B>, AllocError>
    ensures { IfOk result (λ all. map B.value all.items ≡ members_of set.now) }
{
    set.members().collect(alloc)
}

/// Returns the least member: the first from the front.
pub fn least_member<B: Width>(set: &IntervalSet<B>) -> Option<B>
    ensures { MatchOption result (HasNone (Covers set.now)) (λ x. IsLeast (B.value x) (Covers set.now)) }
{
    set.members().next()
}

/// Returns the greatest member: the first from the back.
pub fn greatest_member<B: Width>(set: &IntervalSet<B>) -> Option<B>
    ensures { MatchOption result (HasNone (Covers set.now)) (λ x. IsGreatest (B.value x) (Covers set.now)) }
{
    set.members().next_back()
}

/// Removes and returns the first of the members that are left.
pub fn first_member_left<B: Width>(left: &mut Members<'_, B>) -> Option<B>
    ensures { MatchOption result ((left.old ≡ []) × (left.new ≡ [])) (λ x. left.old ≡ B.value x ∷ left.new) }
{
    left.next()
}

/// Removes and returns the last of the members that are left.
pub fn last_member_left<B: Width>(left: &mut Members<'_, B>) -> Option<B>
    ensures { MatchOption result ((left.old ≡ []) × (left.new ≡ [])) (λ x. left.old ≡ left.new ++ B.value x ∷ []) }
{
    left.next_back()
}

/// Returns a clone, which has the same members left. Cloning never fails.
pub fn same_members_left<'a, B: Width>(left: &Members<'a, B>) -> Result<Members<'a, B>, AllocError>
    ensures same { IfOk result (λ copy. copy ≡ left.now) }
    ensures ok { IsOk result }
{
    left.clone()
}

/// Returns the number of members that are left, where a `usize` holds it.
pub fn count_left<B: Width>(left: &Members<'_, B>) -> Option<usize>
    ensures { MatchOption result (2 ^ 64 ≤ length left.now) (λ count. count ≡ length left.now) }
{
    left.size_hint().1
}

/// Returns the number of members of a set of `usize` that are left.
pub fn count_left_of_usize(left: &Members<'_, usize>) -> usize
    ensures { result ≡ length left.now }
{
    left.len()
}

/// Returns the number of members of a set of `isize` that are left.
pub fn count_left_of_isize(left: &Members<'_, isize>) -> usize
    ensures { result ≡ length left.now }
{
    left.len()
}
