//! The parts of entries that lie in runs, and lists of entries that grow at their end.
ghost use Rattle.std.specs.Prelude.{◌≡◌, ℤ, ◌⊎◌, ◌<◌, ◌≤◌, ◌≤ℤ◌, IfOk, MatchOption, OnErr, OnOk, length, slice_index_or};
ghost use Rattle.ivl_laws.specs.Sets.{IsBetween};
ghost use Rattle.ivl_laws.specs.Runs.{Covers, IsMaximal};
ghost use Rattle.ivl_map.specs.Entries.{AllEndBelow, HasAt, IsEntriesOf, IsEntryList, OnlyAt, Written};
ghost use Rattle.ivl_map.specs.Lookups.{IsStoredAt};

use crate::value::MapValue;
use crate::writes::put;
use intervallum::interval::Interval;
use intervallum::ops::{Bounded, Intersection, IsEmpty};
use intervallum::width::Width;
use std::alloc::{AllocError, Global};

/// Adds an entry at the end. It is joined with the last one if the two touch and have equal values.
pub(crate) fn push_entry<B: Width, V: MapValue>(
    entries: &mut Vec<(Interval<B>, V)>,
    run: Interval<B>,
    value: V,
) -> Result<(), AllocError>
    requires filled { run.0 ≤ℤ run.1 }
    requires entries { IsEntryList V.eq entries.old.items }
    requires above { AllEndBelow run.0 entries.old.items }
    ensures ok { OnOk result (IsEntriesOf V.eq entries.new.items (Written V.eq run value (HasAt V.eq entries.old.items))) }
    ensures stored { OnOk result ((z : ℤ) → IsBetween run z → IsStoredAt entries.new.items z value) }
    ensures err { OnErr result (entries.new.items ≡ entries.old.items) }
{
    let at = entries.len();
    put(entries, at, run, value)
}

/// Adds an entry with a copy of a value at the end, unless its interval is empty.
pub(crate) fn push_part<B: Width, V: MapValue>(
    entries: &mut Vec<(Interval<B>, V)>,
    part: Interval<B>,
    value: &V,
) -> Result<(), AllocError>
    requires entries { IsEntryList V.eq entries.old.items }
    requires above { part.0 ≤ℤ part.1 → AllEndBelow part.0 entries.old.items }
    ensures { OnOk result (IsEntriesOf V.eq entries.new.items (Written V.eq part value.now (HasAt V.eq entries.old.items))) }
{
    if part.is_empty() {
        return Ok(());
    }
    let copy = value.try_copy()?;
    push_entry(entries, part, copy)
}

/// The interval of the entry at a place, and the run at a place, if there are both.
fn heads<B: Width, V: MapValue>(
    entries: &[(Interval<B>, V)],
    i: usize,
    runs: &[Interval<B>],
    j: usize,
) -> Option<(Interval<B>, Interval<B>)>
    ensures { MatchOption result
        ((length entries.now ≤ i) ⊎ (length runs.now ≤ j))
        (λ p. (i < length entries.now) × (j < length runs.now) × ((d : _) → p.0 ≡ (slice_index_or entries.now i d).0) × (p.1 ≡ slice_index_or runs.now j p.1)) }
{
    if i >= entries.len() {
        return None;
    }
    if j >= runs.len() {
        return None;
    }
    Some((entries[i].0, runs[j]))
}

/// What entries have at the numbers of runs. Both are walked once.
pub(crate) fn parts_of<B: Width, V: MapValue>(
    alloc: Global,
    entries: &[(Interval<B>, V)],
    runs: &[Interval<B>],
) -> Result<Vec<(Interval<B>, V)>, AllocError>
    requires entries { IsEntryList V.eq entries.now }
    requires runs { IsMaximal runs.now }
    ensures { IfOk result (λ made. IsEntriesOf V.eq made.items (OnlyAt (Covers runs.now) (HasAt V.eq entries.now))) }
{
    let mut made = Vec::new(alloc);
    let mut i = 0;
    let mut j = 0;
    'walk: while let Some(both) = heads(entries, i, runs, j) {
        let value = &entries[i].1;
        let part = both.0.intersection(&both.1);
        push_part(&mut made, part, value)?;
        let end = both.0.upper();
        let other_end = both.1.upper();
        if end <= other_end {
            i += 1;
        } else {
            j += 1;
        }
    }
    Ok(made)
}
