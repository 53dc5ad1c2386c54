//! Changes that depend on what the map has.
ghost use Rattle.std.specs.Prelude.{◌≡◌, ℤ, Ok, IfNone, IfOk, IfSome, IsOk, OnErr, OnOk};
ghost use Rattle.std.specs.Fn.{FnReturnsAt, FnReturnsAtPair};
ghost use Rattle.ivl_places.specs.Edits.{widened};
ghost use Rattle.ivl_laws.specs.Sets.{HasNone, HasSome, Intersection, IsBetween};
ghost use Rattle.ivl_map.specs.Entries.{HasAt, HasValue, IsEntriesOf, Written};
ghost use Rattle.ivl_map.specs.Changes.{IsMergeOf, IsUpdated};
ghost use Rattle.ivl_map.specs.Lookups.{IsFirstRunOf};

use super::IntervalMap;
use crate::merge::merged;
use crate::updates::update_in;
use crate::value::MapValue;
use crate::writes::put_if_free;
use intervallum::interval::Interval;
use intervallum::ops::IsEmpty;
use intervallum::width::Width;
use std::alloc::AllocError;

impl<B: Width, V: MapValue> IntervalMap<B, V> {
    /// Gives each number of the interval, which may be empty, the value, if none of them has one yet,
    /// and returns `None`. Otherwise returns the run of the first entry in the way, and the map is
    /// unchanged. An entry that touches the interval and has an equal value grows.
    ///
    /// Binary search: `O(log n)`, or `O(n)` if an entry is added, as the entries above the interval
    /// then move. Copies no value.
    ///
    /// # Errors
    ///
    /// Fails only if an allocation fails. The map is then unchanged. Where the interval is empty, an entry is
    /// in the way, or one that touches the interval has an equal value, it cannot fail.
    ///
    /// ```
    /// let mut a = IntervalMap::of(alloc, Interval::new(1i32, 5), 'a')?;
    /// assert!(rt; a.insert_if_free(Interval::new(4, 9), 'b')? == Some(Interval::new(1, 5)));
    /// assert!(rt; a.insert_if_free(Interval::new(6, 9), 'b')?.is_none());
    /// assert!(rt; a.get(&5) == Some(&'a') && a.get(&6) == Some(&'b'));
    /// ```
    pub fn insert_if_free(
        &mut self,
        interval: Interval<B>,
        value: V,
    ) -> Result<Option<Interval<B>>, AllocError>
        // None: no number of the interval had a value. Now each has this one, and the others what they had.
        ensures free { IfOk result (λ met. IfNone met (HasNone (Intersection (IsBetween interval) (HasValue (HasAt V.eq self.old))))) }
        ensures written { IfOk result (λ met. IfNone met (IsEntriesOf V.eq self.new (Written V.eq interval value (HasAt V.eq self.old)))) }

        // Some: the run of the first entry in the way, and the map is unchanged.
        ensures met { IfOk result (λ met. IfSome met (λ run. (held : V) × IsFirstRunOf V.eq (Intersection (IsBetween interval) (HasValue (HasAt V.eq self.old))) (HasAt V.eq self.old) (run, held))) }
        ensures unchanged { IfOk result (λ met. IfSome met (λ _. self.new ≡ self.old)) }

        // If it fails, the map is unchanged.
        ensures err { OnErr result (self.new ≡ self.old) }

        // It cannot fail where the interval is empty, where an entry is in the way, or where a number next to it has an equal value.
        ensures empty { HasNone (IsBetween interval) → IsOk result }
        ensures taken { HasSome (Intersection (IsBetween interval) (HasValue (HasAt V.eq self.old))) → IsOk result }
        ensures grows { (z : ℤ) → IsBetween (widened interval) z → HasAt V.eq self.old z value → IsOk result }
    {
        self.in_order();
        if interval.is_empty() {
            return Ok(None);
        }
        interval.in_whole();
        put_if_free(&mut self.entries, interval, value)
    }

    /// Changes the values of the numbers of the interval, which may be empty: each that has a value gets
    /// what `change` returns for it. `change` is called once for each entry that has numbers of the
    /// interval, in ascending order.
    ///
    /// `O(log n + k)`, if `k` entries have numbers of the interval, or `O(n)` if the number of entries
    /// changes, as the entries above the interval then move. Copies the values of the entries next to
    /// the interval, and of those that it splits. Reserves `k + 2` entries, and as many until it returns.
    ///
    /// # Errors
    ///
    /// Fails only if `change`, an allocation or the copy of a value fails. The map is then unchanged. Where
    /// the interval is empty, it cannot fail.
    ///
    /// ```
    /// let mut a = IntervalMap::of(alloc, Interval::new(1i32, 9), 5u32)?;
    /// a.update(Interval::new(4, 20), |value| Ok(*value / 2))?;
    /// assert!(rt; a.get(&3) == Some(&5) && a.get(&4) == Some(&2) && a.get(&10).is_none());
    /// ```
    pub fn update<F: Fn(&V) -> Result<V, AllocError>>(
        &mut self,
        interval: Interval<B>,
        change: F,
    ) -> Result<(), AllocError>
        requires { F.IsAlwaysCallable change }
        // Each number of the interval that had a value has what the function returned for it, and the others what they had.
        ensures ok { OnOk result (IsUpdated V.eq (λ v w. FnReturnsAt F.Fn change v (Ok w)) (IsBetween interval) self.old self.new) }

        // If it fails, the map is unchanged.
        ensures err { OnErr result (self.new ≡ self.old) }

        // It cannot fail where the interval is empty.
        ensures empty { HasNone (IsBetween interval) → IsOk result }
    {
        self.in_order();
        if interval.is_empty() {
            return Ok(());
        }
        update_in(&mut self.entries, interval, change)
    }

    /// Returns the map of what either of two maps has: a number that has a value in one of them alone
    /// keeps it, and one that has a value in both gets what `both` returns for the two, that of this map
    /// first. `both` is called once for each two entries that have a number in common, in ascending order.
    ///
    /// `O(n + m)`, if the other map has `m` entries: walks both once, and copies the value of an entry
    /// for each part of it that the other map has not. Reserves `n + m` entries.
    ///
    /// # Errors
    ///
    /// Fails only if `both`, an allocation or the copy of a value fails.
    ///
    /// ```
    /// let a = IntervalMap::of(alloc, Interval::new(1i32, 5), 10u32)?;
    /// let b = IntervalMap::of(alloc, Interval::new(4, 9), 3)?;
    /// let sums = a.merge(&b, |x, y| Ok(x.saturating_add(*y)))?;
    /// assert!(rt; sums.get(&3) == Some(&10) && sums.get(&4) == Some(&13) && sums.get(&6) == Some(&3));
    /// ```
    pub fn merge<F: Fn(&V, &V) -> Result<V, AllocError>>(
        &self,
        other: &Self,
        both: F,
    ) -> Result<Self, AllocError>
        requires { F.IsAlwaysCallable both }
        // Each number of both maps has what the function returned for its two values, and the others what one of the two has.
        ensures { IfOk result (λ M. IsMergeOf V.eq (λ v w x. FnReturnsAtPair F.Fn both v w (Ok x)) self.now other.now M) }
    {
        self.in_order();
        other.in_order();
        let entries = merged(self.allocator(), &self.entries, &other.entries, both)?;
        Ok(IntervalMap { entries })
    }
}
