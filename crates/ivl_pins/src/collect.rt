//! Callers that make sets: from every form that converts, from values, from an iterator, from many sets; and that read the
//! members of a window.
ghost use Rattle.std.specs.Prelude.{◌≡◌, ◌↔◌, ◌∷◌, [], All, IfOk, IsTrue, MatchOption, OnErr, OnOk, map};
ghost use Rattle.std.specs.Range.{range_inclusive_end, range_inclusive_start};
ghost use Rattle.ivl_laws.specs.Sets.{Intersection, IsBetween, IsInRange, SameMembers, Union};
ghost use Rattle.ivl_laws.specs.Runs.{Covers, IsRunsOf};
ghost use Rattle.ivl_laws.specs.Counts.{IsIn};
ghost use Rattle.ivl_places.specs.Many.{IsInEach, IsInSome};
ghost use Rattle.ivl_places.specs.Members.{IsAscending};

use intervallum::interval::Interval;
use intervallum::interval_set::{IntervalSet, ToIntervalSet};
use intervallum::ops::{Contains, Whole};
use intervallum::width::Width;
use std::alloc::{AllocError, Global};
use std::ops::{RangeFrom, RangeInclusive, RangeToInclusive};

/// Returns the set of a value of any form that converts, if `in_range` allows it.
pub fn converted_if_in_range<B: Width, T: ToIntervalSet<B> + Drop>(
    alloc: Global,
    value: T,
) -> Result<Option<IntervalSet<B>>, AllocError>
    ensures { IfOk result (λ o. MatchOption o (¬ (T.can_convert value)) (λ L. IsRunsOf L (Covers (T.pairs value)))) }
{
    if value.in_range() {
        Ok(Some(value.to_interval_set(alloc)?))
    } else {
        Ok(None)
    }
}

/// Returns true exactly when a pair of bounds converts.
pub fn pair_converts<B: Width>(pair: &(B, B)) -> bool
    ensures { IsTrue result ↔ IsInRange B.whole (B.value pair.now.0, B.value pair.now.1) }
{
    pair.in_range()
}

/// Returns true exactly when each pair of a vector converts.
pub fn pairs_convert<B: Width>(pairs: &Vec<(B, B)>) -> bool
    ensures { IsTrue result ↔ All (λ p. IsInRange B.whole (B.value p.0, B.value p.1)) pairs.now.items }
{
    pairs.in_range()
}

/// Returns the set of an interval, by the conversion.
pub fn set_of_one_interval<B: Width>(
    alloc: Global,
    interval: Interval<B>,
) -> Result<IntervalSet<B>, AllocError>
    ensures { IfOk result (λ L. IsRunsOf L (Covers (interval ∷ []))) }
{
    interval.to_interval_set(alloc)
}

/// Returns the set of the members of every interval of a slice.
pub fn set_of_interval_slice<B: Width>(
    alloc: Global,
    intervals: &[Interval<B>],
) -> Result<IntervalSet<B>, AllocError>
    ensures { IfOk result (λ L. IsRunsOf L (Covers intervals.now)) }
{
    intervals.to_interval_set(alloc)
}

/// Returns the set of the members of every interval of a vector.
pub fn set_of_interval_vector<B: Width>(
    alloc: Global,
    intervals: Vec<Interval<B>>,
) -> Result<IntervalSet<B>, AllocError>
    ensures { IfOk result (λ L. IsRunsOf L (Covers intervals.items)) }
{
    intervals.to_interval_set(alloc)
}

/// Returns the set of the members of every interval of an array.
pub fn set_of_interval_array<B: Width, const N: usize>(
    alloc: Global,
    intervals: [Interval<B>; N],
) -> Result<IntervalSet<B>, AllocError>
    ensures { IfOk result (λ L. IsRunsOf L (Covers intervals)) }
{
    intervals.to_interval_set(alloc)
}

/// Returns the set of the numbers of `a..=b`, if `in_range` allows it.
pub fn set_of_range<B: Width>(
    alloc: Global,
    range: RangeInclusive<B>,
) -> Result<Option<IntervalSet<B>>, AllocError>
    ensures { IfOk result (λ o. MatchOption o (¬ (IsInRange B.whole (B.value (range_inclusive_start range), B.value (range_inclusive_end range)))) (λ L. IsRunsOf L (Covers ((B.value (range_inclusive_start range), B.value (range_inclusive_end range)) ∷ [])))) }
{
    if range.in_range() {
        Ok(Some(range.to_interval_set(alloc)?))
    } else {
        Ok(None)
    }
}

/// Returns the set of the numbers of `a..`, if `in_range` allows it.
pub fn set_of_range_from<B: Width>(
    alloc: Global,
    range: RangeFrom<B>,
) -> Result<Option<IntervalSet<B>>, AllocError>
    ensures { IfOk result (λ o. MatchOption o (¬ (IsBetween B.whole (B.value range.start))) (λ L. IsRunsOf L (Covers ((B.value range.start, B.whole.1) ∷ [])))) }
{
    if range.in_range() {
        Ok(Some(range.to_interval_set(alloc)?))
    } else {
        Ok(None)
    }
}

/// Returns the set of the numbers of `..=b`, if `in_range` allows it.
pub fn set_of_range_to<B: Width>(
    alloc: Global,
    range: RangeToInclusive<B>,
) -> Result<Option<IntervalSet<B>>, AllocError>
    ensures { IfOk result (λ o. MatchOption o (¬ (IsBetween B.whole (B.value range.end))) (λ L. IsRunsOf L (Covers ((B.whole.0, B.value range.end) ∷ [])))) }
{
    if range.in_range() {
        Ok(Some(range.to_interval_set(alloc)?))
    } else {
        Ok(None)
    }
}

/// Returns the set of the numbers of every range of a slice, if `in_range` allows them.
pub fn set_of_ranges<B: Width>(
    alloc: Global,
    ranges: &[RangeInclusive<B>],
) -> Result<Option<IntervalSet<B>>, AllocError>
    ensures { IfOk result (λ o. MatchOption o (¬ (All (λ r. IsInRange B.whole (B.value (range_inclusive_start r), B.value (range_inclusive_end r))) ranges.now)) (λ L. IsRunsOf L (Covers (map (λ r. (B.value (range_inclusive_start r), B.value (range_inclusive_end r))) ranges.now)))) }
{
    if ranges.in_range() {
        Ok(Some(ranges.to_interval_set(alloc)?))
    } else {
        Ok(None)
    }
}

/// Returns the set of the numbers of every range of a vector, if `in_range` allows them.
pub fn set_of_range_vector<B: Width>(
    alloc: Global,
    ranges: Vec<RangeInclusive<B>>,
) -> Result<Option<IntervalSet<B>>, AllocError>
    ensures { IfOk result (λ o. MatchOption o (¬ (All (λ r. IsInRange B.whole (B.value (range_inclusive_start r), B.value (range_inclusive_end r))) ranges.items)) (λ L. IsRunsOf L (Covers (map (λ r. (B.value (range_inclusive_start r), B.value (range_inclusive_end r))) ranges.items)))) }
{
    if ranges.in_range() {
        Ok(Some(ranges.to_interval_set(alloc)?))
    } else {
        Ok(None)
    }
}

/// Returns the set of the numbers of every range of an array, if `in_range` allows them.
pub fn set_of_range_array<B: Width, const N: usize>(
    alloc: Global,
    ranges: [RangeInclusive<B>; N],
) -> Result<Option<IntervalSet<B>>, AllocError>
    ensures { IfOk result (λ o. MatchOption o (¬ (All (λ r. IsInRange B.whole (B.value (range_inclusive_start r), B.value (range_inclusive_end r))) ranges)) (λ L. IsRunsOf L (Covers (map (λ r. (B.value (range_inclusive_start r), B.value (range_inclusive_end r))) ranges)))) }
{
    if ranges.in_range() {
        Ok(Some(ranges.to_interval_set(alloc)?))
    } else {
        Ok(None)
    }
}

/// Returns the set of the members of every interval of a list, by its iterator.
pub fn set_by_iterator<B: Width>(
    alloc: Global,
    list: Vec<Interval<B>>,
) -> Result<IntervalSet<B>, AllocError>
    ensures { IfOk result (λ L. IsRunsOf L (Covers list.items)) }
{
    IntervalSet::collect(alloc, list.into_iter())
}

/// Returns the set of the values of a slice, if each is in the range.
pub fn set_of_values<B: Width>(
    alloc: Global,
    values: &[B],
) -> Result<Option<IntervalSet<B>>, AllocError>
    ensures { IfOk result (λ o. MatchOption o (¬ (All (λ x. IsBetween B.whole (B.value x)) values.now)) (λ L. IsRunsOf L (IsIn (map B.value values.now)))) }
{
    if values.iter().all(|value| Interval::whole().contains(value)) {
        Ok(Some(IntervalSet::of_members(alloc, values)?))
    } else {
        Ok(None)
    }
}

/// Adds the values of a slice to the set, which is unchanged after an error.
pub fn extended_by_values<B: Width>(
    set: &mut IntervalSet<B>,
    values: &[B],
) -> Result<(), AllocError>
    requires { All (λ x. IsBetween B.whole (B.value x)) values.now }
    ensures ok { OnOk result (IsRunsOf set.new (Union (Covers set.old) (IsIn (map B.value values.now)))) }
    ensures err { OnErr result (set.new ≡ set.old) }
{
    set.extend_members(values)
}

/// Returns true exactly when a value is in some of many sets.
pub fn in_some<B: Width>(
    alloc: Global,
    sets: &[&IntervalSet<B>],
    value: B,
) -> Result<bool, AllocError>
    ensures { IfOk result (λ r. IsTrue r ↔ IsInSome (map (λ s. s.now) sets.now) (B.value value)) }
{
    Ok(IntervalSet::union_of(alloc, sets)?.contains(&value))
}

/// Returns the members of each of many sets, in the range.
pub fn common_to_all<B: Width>(
    alloc: Global,
    sets: &[&IntervalSet<B>],
) -> Result<IntervalSet<B>, AllocError>
    ensures { IfOk result (λ L. IsRunsOf L (Intersection (IsBetween B.whole) (IsInEach (map (λ s. s.now) sets.now)))) }
{
    IntervalSet::intersection_of(alloc, sets)
}

/// Returns the members that lie in a window, in ascending order.
pub fn members_in_window<B: Width>(
    alloc: Global,
    set: &IntervalSet<B>,
    window: &Interval<B>,
) -> Result<Vec<B>, AllocError>
    ensures members { IfOk result (λ all. SameMembers (Intersection (Covers set.now) (IsBetween window.now)) (IsIn (map B.value all.items))) }
    ensures ascending { IfOk result (λ all. IsAscending (map B.value all.items)) }
{
    set.members_within(window).collect(alloc)
}
