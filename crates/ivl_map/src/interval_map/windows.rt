//! What a map has within a window.
ghost use Rattle.std.specs.Prelude.{◌≡◌, ◌↔◌, ◌<◌, ◌≤◌, ℤ, pos, ◌+ℤ◌, ◌-ℤ◌, All, IfOk, IsOk, MatchOption};
ghost use Rattle.ivl_laws.specs.Bounds.{width_of};
ghost use Rattle.ivl_laws.specs.Counts.{IsIn};
ghost use Rattle.ivl_laws.specs.Sets.{HasSome, Intersection, IsBetween, Without};
ghost use Rattle.ivl_laws.specs.Runs.{IsRunsOf};
ghost use Rattle.ivl_places.specs.FirstFit.{FitsAt, IsFirstFit};
ghost use Rattle.ivl_map.specs.Entries.{HasAt, HasValue, IsEntryList, IsEntryListIn};

use super::IntervalMap;
use super::numbers::numbers_of;
use crate::edits::span;
use crate::value::MapValue;
use intervallum::interval::Interval;
use intervallum::interval_set::IntervalSet;
use intervallum::ops::{
    Bounded, Cardinality, Difference, IsEmpty, Range, StrictShrinkLeft, StrictShrinkRight,
};
use intervallum::width::{SizeNumber, Width};
use std::alloc::AllocError;

impl<B: Width, V: MapValue> IntervalMap<B, V> {
    /// Returns the entries that have a number of the window, as a slice in ascending order. The first
    /// and the last are whole, so they may reach beyond the window. An empty window meets none.
    ///
    /// Two binary searches: `O(log n)`. Does not allocate.
    ///
    /// ```
    /// let mut a = IntervalMap::of(alloc, Interval::new(1i32, 5), 'a')?;
    /// a.insert(Interval::new(8, 9), 'b')?;
    /// let met = a.overlapping(Interval::new(5, 7));
    /// assert!(rt; met.len() == 1 && met[0].0 == Interval::new(1, 5));
    /// ```
    pub fn overlapping(&self, window: Interval<B>) -> &[(Interval<B>, V)]
        // Each is an entry of the map, and has a number of the window.
        ensures whole { (e : _) → IsIn result.now e → IsIn self.now e }
        ensures overlap { All (λ e. HasSome (Intersection (IsBetween e.0) (IsBetween window))) result.now }

        // The numbers of the window have the values that the map has there, and the others no more than these.
        ensures held { (z : ℤ) (v : V) → IsBetween window z → HasAt V.eq result.now z v ↔ HasAt V.eq self.now z v }
        ensures part { (z : ℤ) (v : V) → HasAt V.eq result.now z v → HasAt V.eq self.now z v }

        // They ascend, and stand in the range.
        ensures entries { IsEntryListIn B.whole V.eq result.now }
    {
        let entries = self.entries.as_slice();
        if window.is_empty() {
            return &entries[..0];
        }
        let (start, end) = span(entries, window);
        if end <= start {
            return &entries[..0];
        }
        &entries[start..end]
    }

    /// Returns the numbers of the window that have no value. `O(log n + k)`, if `k` entries have
    /// numbers of the window. Reserves `k + 1` runs for the result, and some more until it returns.
    /// Fails only if allocation fails.
    ///
    /// ```
    /// let a = IntervalMap::of(alloc, Interval::new(1i32, 5), 'a')?;
    /// assert!(rt; a.gaps_within(Interval::new(4, 9))? == IntervalSet::new(alloc, 6, 9)?);
    /// ```
    pub fn gaps_within(&self, window: Interval<B>) -> Result<IntervalSet<B>, AllocError>
        // The members are the numbers of the window that have no value.
        ensures { IfOk result (λ L. IsRunsOf L (Without (IsBetween window) (HasValue (HasAt V.eq self.now)))) }
    {
        let numbers = numbers_of(self.allocator(), self.overlapping(window))?;
        let all = IntervalSet::of(self.allocator(), window)?;
        all.difference(&numbers)
    }

    /// Returns the lowest interval of exactly `count` consecutive numbers of the window that have no
    /// value, or `None` if there is none. The caller must ensure that `count` is above 0. Check with
    /// `count.number() > 0`.
    ///
    /// Walks the `k` entries of the window up to the first gap that is long enough: `O(log n + k)`. Does
    /// not allocate, and never fails.
    ///
    /// ```
    /// let mut a = IntervalMap::of(alloc, Interval::new(3i32, 5), 'a')?;
    /// a.insert(Interval::new(8, 9), 'b')?;
    /// let free = a.first_fit(Interval::new(1, 20), 3)?;
    /// assert!(rt; free == Some(Interval::new(10, 12)));
    /// ```
    pub fn first_fit(
        &self,
        window: Interval<B>,
        count: B::Output,
    ) -> Result<Option<Interval<B>>, AllocError>
        requires { 0 < B.Output.size count }
        // None: nowhere in the window do so many numbers without a value stand in a row. Else the lowest that do.
        ensures fit { IfOk result (λ fit. MatchOption fit
            ((v : ℤ) → ¬ (FitsAt (B.Output.size count) (Without (IsBetween window) (HasValue (HasAt V.eq self.now))) v))
            (IsFirstFit (B.Output.size count) (Without (IsBetween window) (HasValue (HasAt V.eq self.now))))) }

        // It cannot fail.
        ensures never_fails { IsOk result }
    {
        Ok(first_gap(self.overlapping(window), window, count))
    }
}

/// The lowest `count` consecutive numbers of a window that no entry has.
fn first_gap<B: Width, V: MapValue>(
    entries: &[(Interval<B>, V)],
    window: Interval<B>,
    count: B::Output,
) -> Option<Interval<B>>
    requires above_zero { 0 < B.Output.size count }
    requires entries { IsEntryList V.eq entries.now }
    ensures { MatchOption result
        ((v : ℤ) → ¬ (FitsAt (B.Output.size count) (Without (IsBetween window) (HasValue (HasAt V.eq entries.now))) v))
        (IsFirstFit (B.Output.size count) (Without (IsBetween window) (HasValue (HasAt V.eq entries.now)))) }
{
    let mut rest = window;
    for entry in entries {
        let gap = rest.strict_shrink_right(entry.0.lower());
        if gap.size() >= count {
            return Some(lowest_of(gap, count));
        }
        rest = rest.strict_shrink_left(entry.0.upper());
    }
    if rest.size() >= count {
        Some(lowest_of(rest, count))
    } else {
        None
    }
}

/// The lowest `count` numbers of an interval that has at least so many.
fn lowest_of<B: Width>(gap: Interval<B>, count: B::Output) -> Interval<B>
    requires above_zero { 0 < B.Output.size count }
    requires enough { B.Output.size count ≤ width_of gap }
    ensures { result ≡ (gap.0, (gap.0 +ℤ pos (B.Output.size count)) -ℤ pos 1) }
{
    gap.in_whole();
    let start = gap.lower_bound();
    let last = start.number() + (count.number() - 1) as i128;
    Interval::new(start, B::from_number(last).unwrap())
}
