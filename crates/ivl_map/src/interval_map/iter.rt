//! Iteration over the entries of a map, and over its values.
ghost use Rattle.std.specs.Prelude.{◌≡◌};
ghost use Rattle.std.specs.Iterator.{YieldsFirstBy, YieldsLastBy, item_count};
ghost use Rattle.ivl_map.specs.Entries.{IsEntryListIn};

use super::IntervalMap;
use crate::value::MapValue;
use intervallum::interval::Interval;
use intervallum::width::Width;
use std::iter::FusedIterator;
use std::marker::Model;

/// A double-ended iterator over the values of a map, each with its run, as `values` returns it. A
/// contract sees the entries that are left.
///
/// No call allocates.
///
/// ```
/// let mut a = IntervalMap::of(alloc, Interval::new(1i32, 5), 'a')?;
/// a.insert(Interval::new(8, 9), 'b')?;
/// let mut values = a.values();
/// assert!(rt; values.next() == Some((Interval::new(1, 5), &'a')));
/// assert!(rt; values.next() == Some((Interval::new(8, 9), &'b')) && values.next().is_none());
/// ```
#[derive(Drop)]
pub struct Values<'a, B: Width, V: MapValue> {
    left: &'a [(Interval<B>, V)],
}

impl<'a, B: Width, V: MapValue> Model for Values<'a, B, V> {
    ghost use Rattle.std.specs.Prelude.{ℤ, List};

    ghost Value = { List ((ℤ × ℤ) × V) };

    ghost view = { λ r. r.left.now };
}

impl<'a, B: Width, V: MapValue> Iterator for Values<'a, B, V> {
    type Item = (Interval<B>, &'a V);

    ghost next_gives = { YieldsFirstBy (λ r. (r.0, r.1.now)) (λ left. left) };

    ghost remaining = { item_count (λ left. left) };

    /// Returns the first value that is left, with its run, or `None` if there is none. `O(1)`.
    ///
    /// ```
    /// let a = IntervalMap::of(alloc, Interval::new(1i32, 5), 'a')?;
    /// assert!(rt; a.values().next() == Some((Interval::new(1, 5), &'a')));
    /// ```
    fn next(&mut self) -> Option<(Interval<B>, &'a V)> {
        let (entry, rest) = self.left.split_first()?;
        self.left = rest;
        Some((entry.0, &entry.1))
    }
}

impl<'a, B: Width, V: MapValue> DoubleEndedIterator for Values<'a, B, V> {
    ghost next_back_gives = { YieldsLastBy (λ r. (r.0, r.1.now)) (λ left. left) };

    /// Returns the last value that is left, with its run, or `None` if there is none. `O(1)`.
    ///
    /// ```
    /// let a = IntervalMap::of(alloc, Interval::new(1i32, 5), 'a')?;
    /// assert!(rt; a.values().next_back() == Some((Interval::new(1, 5), &'a')));
    /// ```
    fn next_back(&mut self) -> Option<(Interval<B>, &'a V)> {
        let (entry, rest) = self.left.split_last()?;
        self.left = rest;
        Some((entry.0, &entry.1))
    }
}

impl<'a, B: Width, V: MapValue> FusedIterator for Values<'a, B, V> {}

impl<B: Width, V: MapValue> IntervalMap<B, V> {
    /// Returns the entries as a slice, in ascending order. `O(1)`. Does not allocate.
    ///
    /// ```
    /// let a = IntervalMap::of(alloc, Interval::new(1i32, 5), 'a')?;
    /// assert!(rt; a.entries().len() == 1 && a.entries()[0].1 == 'a');
    /// ```
    pub fn entries(&self) -> &[(Interval<B>, V)]
        // All entries, which ascend and stand in the range.
        ensures same { result.now ≡ self.now }
        ensures entries { IsEntryListIn B.whole V.eq self.now }
    {
        self.entries.as_slice()
    }

    /// Returns the vector of the entries, in ascending order. Consumes the map. `O(1)`. Does not
    /// allocate, and copies no value.
    ///
    /// ```
    /// let a = IntervalMap::of(alloc, Interval::new(1i32, 5), 'a')?;
    /// let entries = a.into_entries();
    /// assert!(rt; entries.len() == 1 && entries[0].0 == Interval::new(1, 5));
    /// ```
    pub fn into_entries(self) -> Vec<(Interval<B>, V)>
        // All entries, which ascend and stand in the range.
        ensures same { result.items ≡ self }
        ensures entries { IsEntryListIn B.whole V.eq self }
    {
        self.in_order();
        self.entries
    }

    /// Returns a double-ended iterator over the entries, in ascending order. `O(1)`. Does not
    /// allocate.
    ///
    /// ```
    /// let mut a = IntervalMap::of(alloc, Interval::new(1i32, 5), 'a')?;
    /// a.insert(Interval::new(8, 9), 'b')?;
    /// let mut entries = a.iter();
    /// assert!(rt; entries.next() == Some(&(Interval::new(1, 5), 'a')));
    /// assert!(rt; entries.next_back() == Some(&(Interval::new(8, 9), 'b')));
    /// ```
    pub fn iter(&self) -> std::slice::Iter<'_, (Interval<B>, V)>
        // All entries are left, which ascend and stand in the range.
        ensures rest { result.rest.now ≡ self.now }
        ensures entries { IsEntryListIn B.whole V.eq self.now }
    {
        self.entries.iter()
    }

    /// Returns a double-ended iterator over the values, each with its run, in ascending order.
    /// `O(1)`. Does not allocate.
    ///
    /// ```
    /// let a = IntervalMap::of(alloc, Interval::new(1i32, 5), 'a')?;
    /// for (run, value) in a.values() {
    ///     assert!(rt; run == Interval::new(1, 5) && *value == 'a');
    /// }
    /// ```
    pub fn values(&self) -> Values<'_, B, V>
        // All entries are left, which ascend and stand in the range.
        ensures rest { result ≡ self.now }
        ensures entries { IsEntryListIn B.whole V.eq self.now }
    {
        Values {
            left: self.entries.as_slice(),
        }
    }
}
