//! Entries whose values a function changes within an interval.
ghost use Rattle.std.specs.Prelude.{◌≡◌, ◌⊎◌, ◌≤◌, ◌≤ℤ◌, suc, Ok, IfOk, OnErr, OnOk};
ghost use Rattle.std.specs.Fn.{FnReturnsAt};
ghost use Rattle.ivl_laws.specs.Sets.{HasSome, Intersection, IsBetween};
ghost use Rattle.ivl_map.specs.Entries.{AllEndBelow, HasAt, IsEntriesOf, IsEntryList, Written};
ghost use Rattle.ivl_map.specs.Changes.{IsUpdated, WrittenPast};

use crate::edits::{put_list, span};
use crate::value::MapValue;
use crate::walks::{push_entry, push_part};
use intervallum::interval::Interval;
use intervallum::ops::{Bounded, Intersection, IsEmpty, StrictShrinkLeft, StrictShrinkRight};
use intervallum::width::Width;
use std::alloc::{AllocError, Global};

/// Adds an entry with a changed value at the end, unless its interval is empty.
fn push_changed<B: Width, V: MapValue, F: Fn(&V) -> Result<V, AllocError>>(
    entries: &mut Vec<(Interval<B>, V)>,
    part: Interval<B>,
    value: &V,
    change: &F,
) -> Result<(), AllocError>
    requires callable { F.IsAlwaysCallable change.now }
    requires entries { IsEntryList V.eq entries.old.items }
    requires above { part.0 ≤ℤ part.1 → AllEndBelow part.0 entries.old.items }
    ensures { OnOk result ((changed : V) × (HasSome (IsBetween part) → FnReturnsAt F.Fn change.now value.now (Ok changed)) × IsEntriesOf V.eq entries.new.items (Written V.eq part changed (HasAt V.eq entries.old.items))) }
{
    if part.is_empty() {
        return Ok(());
    }
    let changed = change(value)?;
    push_entry(entries, part, changed)
}

/// Adds an entry at the end, with a changed value at the numbers of an interval.
fn push_updated<B: Width, V: MapValue, F: Fn(&V) -> Result<V, AllocError>>(
    entries: &mut Vec<(Interval<B>, V)>,
    run: Interval<B>,
    value: &V,
    interval: Interval<B>,
    change: &F,
) -> Result<(), AllocError>
    requires callable { F.IsAlwaysCallable change.now }
    requires filled { interval.0 ≤ℤ interval.1 }
    requires entries { IsEntryList V.eq entries.old.items }
    requires above { AllEndBelow run.0 entries.old.items }
    ensures { OnOk result ((changed : V) × (HasSome (Intersection (IsBetween run) (IsBetween interval)) → FnReturnsAt F.Fn change.now value.now (Ok changed)) × IsEntriesOf V.eq entries.new.items (WrittenPast V.eq run value.now interval changed (HasAt V.eq entries.old.items))) }
{
    push_part(entries, run.strict_shrink_right(interval.lower()), value)?;
    push_changed(entries, run.intersection(&interval), value, change)?;
    push_part(entries, run.strict_shrink_left(interval.upper()), value)
}

/// The place behind a place, unless it is the end of a list.
fn place_after(place: usize, count: usize) -> usize
    requires { place ≤ count }
    ensures next { (result ≡ count) ⊎ (result ≡ suc place) }
    ensures onwards { place ≤ result }
    ensures at_most { result ≤ count }
{
    if place < count { place + 1 } else { count }
}

/// Changes the values of the numbers of an interval. If `change`, the copy of a value or an allocation fails, the
/// entries stay as they are. Those that lie next to the interval are made anew too, so that they join what is equal.
pub(crate) fn update_in<B: Width, V: MapValue, F: Fn(&V) -> Result<V, AllocError>>(
    entries: &mut Vec<(Interval<B>, V)>,
    interval: Interval<B>,
    change: F,
) -> Result<(), AllocError>
    requires callable { F.IsAlwaysCallable change }
    requires filled { interval.0 ≤ℤ interval.1 }
    requires entries { IsEntryList V.eq entries.old.items }
    ensures ok { OnOk result (IsUpdated V.eq (λ v w. FnReturnsAt F.Fn change v (Ok w)) (IsBetween interval) entries.old.items entries.new.items) }
    ensures err { OnErr result (entries.new.items ≡ entries.old.items) }
{
    let (start, end) = span(entries, interval);
    if end <= start {
        return Ok(());
    }
    let first = start.saturating_sub(1);
    let last = place_after(end, entries.len());
    let alloc = *entries.allocator();
    let made = updated(alloc, &entries[first..last], interval, change)?;
    put_list(entries, first, last, made)
}

/// The entries with a changed value at the numbers of an interval.
fn updated<B: Width, V: MapValue, F: Fn(&V) -> Result<V, AllocError>>(
    alloc: Global,
    entries: &[(Interval<B>, V)],
    interval: Interval<B>,
    change: F,
) -> Result<Vec<(Interval<B>, V)>, AllocError>
    requires callable { F.IsAlwaysCallable change }
    requires filled { interval.0 ≤ℤ interval.1 }
    requires entries { IsEntryList V.eq entries.now }
    ensures { IfOk result (λ made. IsUpdated V.eq (λ v w. FnReturnsAt F.Fn change v (Ok w)) (IsBetween interval) entries.now made.items) }
{
    let mut made = Vec::with_capacity(alloc, entries.len())?;
    for entry in entries {
        push_updated(&mut made, entry.0, &entry.1, interval, &change)?;
    }
    Ok(made)
}
