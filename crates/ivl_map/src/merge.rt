//! The entries of two lists as one, with values made of two where both have one.
ghost use Rattle.std.specs.Prelude.{◌⊎◌, ◌<◌, ◌≤◌, ◌≤ℤ◌, Ok, IfOk, MatchOption, OnOk, length, slice_index_or};
ghost use Rattle.std.specs.Fn.{FnReturnsAtPair};
ghost use Rattle.ivl_laws.specs.Sets.{HasSome, Intersection, IsBetween, SameMembers};
ghost use Rattle.ivl_map.specs.Entries.{AllEndBelow, HasAt, IsEntriesOf, IsEntryList, IsEntryListIn, OnlyAt, Written};
ghost use Rattle.ivl_map.specs.Changes.{IsMergeOf, WrittenPair};

use crate::value::MapValue;
use crate::walks::{push_entry, push_part};
use intervallum::interval::Interval;
use intervallum::ops::{
    Bounded, Intersection, IsEmpty, StrictShrinkLeft, StrictShrinkRight, Whole,
};
use intervallum::width::Width;
use std::alloc::{AllocError, Global};

/// Adds an entry with a value made of two at the end, unless its interval is empty.
fn push_common<B: Width, V: MapValue, F: Fn(&V, &V) -> Result<V, AllocError>>(
    entries: &mut Vec<(Interval<B>, V)>,
    part: Interval<B>,
    value: &V,
    other_value: &V,
    both: &F,
) -> Result<(), AllocError>
    requires callable { F.IsAlwaysCallable both.now }
    requires entries { IsEntryList V.eq entries.old.items }
    requires above { part.0 ≤ℤ part.1 → AllEndBelow part.0 entries.old.items }
    ensures { OnOk result ((made : V) × (HasSome (IsBetween part) → FnReturnsAtPair F.Fn both.now value.now other_value.now (Ok made)) × IsEntriesOf V.eq entries.new.items (Written V.eq part made (HasAt V.eq entries.old.items))) }
{
    if part.is_empty() {
        return Ok(());
    }
    let made = both(value, other_value)?;
    push_entry(entries, part, made)
}

/// Adds what two entries make at the end, up to the lower of the two numbers where they end.
fn push_pair<B: Width, V: MapValue, F: Fn(&V, &V) -> Result<V, AllocError>>(
    entries: &mut Vec<(Interval<B>, V)>,
    run: Interval<B>,
    value: &V,
    other: Interval<B>,
    other_value: &V,
    both: &F,
) -> Result<(), AllocError>
    requires callable { F.IsAlwaysCallable both.now }
    requires run { run.0 ≤ℤ run.1 }
    requires other { other.0 ≤ℤ other.1 }
    requires entries { IsEntryList V.eq entries.old.items }
    requires above { AllEndBelow run.0 entries.old.items }
    requires above_too { AllEndBelow other.0 entries.old.items }
    ensures { OnOk result ((made : V) × (HasSome (Intersection (IsBetween run) (IsBetween other)) → FnReturnsAtPair F.Fn both.now value.now other_value.now (Ok made)) × IsEntriesOf V.eq entries.new.items (WrittenPair V.eq run value.now other other_value.now made (HasAt V.eq entries.old.items))) }
{
    push_part(entries, run.strict_shrink_right(other.lower()), value)?;
    push_part(entries, other.strict_shrink_right(run.lower()), other_value)?;
    push_common(entries, run.intersection(&other), value, other_value, both)
}

/// Adds copies of entries at the end, as far as they lie in an interval.
fn push_rest<B: Width, V: MapValue>(
    made: &mut Vec<(Interval<B>, V)>,
    entries: &[(Interval<B>, V)],
    rest: Interval<B>,
) -> Result<(), AllocError>
    requires made { IsEntryList V.eq made.old.items }
    requires entries { IsEntryList V.eq entries.now }
    requires above { rest.0 ≤ℤ rest.1 → AllEndBelow rest.0 made.old.items }
    ensures { OnOk result (IsEntriesOf V.eq made.new.items (λ z v. OnlyAt (IsBetween rest) (HasAt V.eq entries.now) z v ⊎ HasAt V.eq made.old.items z v)) }
{
    for entry in entries {
        push_part(made, entry.0.intersection(&rest), &entry.1)?;
    }
    Ok(())
}

/// What lies in an interval of the entries at two places, if there are both.
fn heads_in<B: Width, V: MapValue>(
    entries: &[(Interval<B>, V)],
    i: usize,
    others: &[(Interval<B>, V)],
    j: usize,
    rest: Interval<B>,
) -> Option<(Interval<B>, Interval<B>)>
    ensures { MatchOption result
        ((length entries.now ≤ i) ⊎ (length others.now ≤ j))
        (λ p. (i < length entries.now) × (j < length others.now)
        × ((d : _) → SameMembers (IsBetween p.0) (Intersection (IsBetween (slice_index_or entries.now i d).0) (IsBetween rest)))
        × ((d : _) → SameMembers (IsBetween p.1) (Intersection (IsBetween (slice_index_or others.now j d).0) (IsBetween rest)))) }
{
    if i >= entries.len() {
        return None;
    }
    if j >= others.len() {
        return None;
    }
    let run = entries[i].0.intersection(&rest);
    let other = others[j].0.intersection(&rest);
    Some((run, other))
}

/// What either of two lists of entries has, and a value made of two at the numbers of both. Both are
/// walked once, and `rest` has the numbers that are still to come.
pub(crate) fn merged<B: Width, V: MapValue, F: Fn(&V, &V) -> Result<V, AllocError>>(
    alloc: Global,
    entries: &[(Interval<B>, V)],
    others: &[(Interval<B>, V)],
    both: F,
) -> Result<Vec<(Interval<B>, V)>, AllocError>
    requires callable { F.IsAlwaysCallable both }
    requires entries { IsEntryListIn B.whole V.eq entries.now }
    requires others { IsEntryListIn B.whole V.eq others.now }
    ensures { IfOk result (λ made. IsMergeOf V.eq (λ v w x. FnReturnsAtPair F.Fn both v w (Ok x)) entries.now others.now made.items) }
{
    let mut made = Vec::with_capacity(alloc, entries.len().saturating_add(others.len()))?;
    let mut rest = Interval::whole();
    let mut i = 0;
    let mut j = 0;
    'walk: while let Some(pair) = heads_in(entries, i, others, j, rest) {
        push_pair(
            &mut made,
            pair.0,
            &entries[i].1,
            pair.1,
            &others[j].1,
            &both,
        )?;
        let end = pair.0.upper();
        let other_end = pair.1.upper();
        if end < other_end {
            i += 1;
            rest = rest.strict_shrink_left(end);
        } else if other_end < end {
            j += 1;
            rest = rest.strict_shrink_left(other_end);
        } else {
            i += 1;
            j += 1;
            rest = rest.strict_shrink_left(end);
        }
    }
    if i < entries.len() {
        push_rest(&mut made, &entries[i..], rest)?;
    } else {
        push_rest(&mut made, &others[j..], rest)?;
    }
    Ok(made)
}
