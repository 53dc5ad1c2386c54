//! What a map has at some of its numbers, as a map of its own.
ghost use Rattle.std.specs.Prelude.{IfOk};
ghost use Rattle.ivl_laws.specs.Sets.{IsBetween};
ghost use Rattle.ivl_laws.specs.Runs.{Covers};
ghost use Rattle.ivl_map.specs.Entries.{HasAt, IsEntriesOf, NotAt, OnlyAt};

use super::IntervalMap;
use crate::value::MapValue;
use crate::walks::parts_of;
use intervallum::interval::Interval;
use intervallum::interval_set::IntervalSet;
use intervallum::ops::Complement;
use intervallum::width::Width;
use std::alloc::AllocError;

impl<B: Width, V: MapValue> IntervalMap<B, V> {
    /// Returns what the map has within the window, as a map of its own. `O(log n + k)`, if `k`
    /// entries have numbers of the window: copies the values of these. Fails only if an allocation or
    /// the copy of a value fails.
    ///
    /// ```
    /// let a = IntervalMap::of(alloc, Interval::new(1i32, 9), 'a')?;
    /// assert!(rt; a.cut_to(Interval::new(8, 20))? == IntervalMap::of(alloc, Interval::new(8, 9), 'a')?);
    /// ```
    pub fn cut_to(&self, window: Interval<B>) -> Result<Self, AllocError>
        // The numbers of the window have what the map has there, and the others nothing.
        ensures { IfOk result (λ E. IsEntriesOf V.eq E (OnlyAt (IsBetween window) (HasAt V.eq self.now))) }
    {
        self.in_order();
        let set = IntervalSet::of(self.allocator(), window)?;
        let entries = parts_of(self.allocator(), self.overlapping(window), set.runs())?;
        Ok(IntervalMap { entries })
    }

    /// Returns what the map has at the members of a set, as a map of its own. `O(n + m)`, if the set
    /// has `m` runs: walks both once, and copies the value of an entry once for each of its parts.
    /// Fails only if an allocation or the copy of a value fails.
    ///
    /// ```
    /// let a = IntervalMap::of(alloc, Interval::new(1i32, 9), 'a')?;
    /// let kept = a.restrict_to(&IntervalSet::new(alloc, 8, 20)?)?;
    /// assert!(rt; kept == IntervalMap::of(alloc, Interval::new(8, 9), 'a')?);
    /// ```
    pub fn restrict_to(&self, set: &IntervalSet<B>) -> Result<Self, AllocError>
        // The members of the set have what the map has there, and other numbers nothing.
        ensures { IfOk result (λ E. IsEntriesOf V.eq E (OnlyAt (Covers set.now) (HasAt V.eq self.now))) }
    {
        self.in_order();
        let entries = parts_of(self.allocator(), &self.entries, set.runs())?;
        Ok(IntervalMap { entries })
    }

    /// Returns what the map has at the numbers that are not members of a set, as a map of its own.
    /// `O(n + m)`, if the set has `m` runs: makes the complement of the set, walks it and the map
    /// once, and copies the value of an entry once for each of its parts. Fails only if an allocation
    /// or the copy of a value fails.
    ///
    /// ```
    /// let a = IntervalMap::of(alloc, Interval::new(1i32, 9), 'a')?;
    /// let left = a.without(&IntervalSet::new(alloc, 3, 20)?)?;
    /// assert!(rt; left == IntervalMap::of(alloc, Interval::new(1, 2), 'a')?);
    /// ```
    pub fn without(&self, set: &IntervalSet<B>) -> Result<Self, AllocError>
        // The members of the set have nothing, and other numbers what the map has there.
        ensures { IfOk result (λ E. IsEntriesOf V.eq E (NotAt (Covers set.now) (HasAt V.eq self.now))) }
    {
        self.in_order();
        let others = set.complement()?;
        self.restrict_to(&others)
    }
}
