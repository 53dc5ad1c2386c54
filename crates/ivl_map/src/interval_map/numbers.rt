//! The numbers that have values, as sets.
ghost use Rattle.std.specs.Prelude.{◌≡◌, ℤ, List, [], IfOk, IsOk, OnErr, OnOk};
ghost use Rattle.std.specs.Fn.{CalledAt};
ghost use Rattle.std.specs.List.Retain.{IsFiltered};
ghost use Rattle.ivl_laws.specs.Sets.{IsBetween, Union};
ghost use Rattle.ivl_laws.specs.Runs.{Covers, IsRunsOf};
ghost use Rattle.ivl_laws.specs.Counts.{IsCountOf};
ghost use Rattle.ivl_map.specs.Entries.{HasAt, HasValue, IsEntryList, intervals_of};

use super::IntervalMap;
use crate::value::MapValue;
use intervallum::interval::Interval;
use intervallum::interval_set::IntervalSet;
use intervallum::ops::Cardinality;
use intervallum::width::{SizeNumber, Width};
use std::alloc::{AllocError, Global};

impl<B: Width, V: MapValue> IntervalMap<B, V> {
    /// Returns the set of the numbers that have a value. `O(n)`: adds each entry at the end of the
    /// set, which grows as it is filled. Fails only if allocation fails, and not for an empty map.
    ///
    /// ```
    /// let mut a = IntervalMap::of(alloc, Interval::new(1i32, 5), 'a')?;
    /// a.insert(Interval::new(6, 9), 'b')?;
    /// assert!(rt; a.keys()? == IntervalSet::new(alloc, 1, 9)?);
    /// ```
    pub fn keys(&self) -> Result<IntervalSet<B>, AllocError>
        // The members are the numbers that have a value.
        ensures members { IfOk result (λ L. IsRunsOf L (HasValue (HasAt V.eq self.now))) }

        // It cannot fail where there is no entry.
        ensures none { self.now ≡ [] → IsOk result }
    {
        numbers_of(self.allocator(), &self.entries)
    }

    /// Returns how many numbers have a value. `O(n)`. Never overflows. Does not allocate.
    ///
    /// ```
    /// let mut a = IntervalMap::of(alloc, Interval::new(1i32, 5), 'a')?;
    /// a.insert(Interval::new(8, 9), 'b')?;
    /// assert_eq!(rt; a.size(), 7u32);
    /// ```
    pub fn size(&self) -> B::Output
        // How many numbers have a value.
        ensures { IsCountOf (B.Output.size result) (HasValue (HasAt V.eq self.now)) }
    {
        size_of(&self.entries)
    }

    /// Returns the set of the numbers whose value passes a test. The test is called once for each
    /// entry, in ascending order. `O(n)`. Fails only if allocation fails.
    ///
    /// ```
    /// let mut a = IntervalMap::of(alloc, Interval::new(1i32, 5), 'a')?;
    /// a.insert(Interval::new(8, 9), 'b')?;
    /// assert!(rt; a.numbers_with(|value| *value == 'b')? == IntervalSet::new(alloc, 8, 9)?);
    /// ```
    pub fn numbers_with<F: FnMut(&V) -> bool>(
        &self,
        mut test: F,
    ) -> Result<IntervalSet<B>, AllocError>
        requires { F.IsAlwaysCallable test }
        // The test was called once for each entry, in ascending order. The members are the numbers of those that passed.
        ensures { IfOk result (λ L. (passed : List ((ℤ × ℤ) × V)) × IsFiltered (λ f e is g. CalledAt F.FnMut f e.1 is g) test self.now passed
            × IsRunsOf L (Covers (intervals_of passed))) }
    {
        let mut numbers = IntervalSet::empty(self.allocator());
        for entry in self.entries.as_slice() {
            if !test(&entry.1) {
                continue;
            }
            add_run(&mut numbers, entry.0)?;
        }
        Ok(numbers)
    }
}

/// The set of the numbers of entries.
pub(super) fn numbers_of<B: Width, V: MapValue>(
    alloc: Global,
    entries: &[(Interval<B>, V)],
) -> Result<IntervalSet<B>, AllocError>
    ensures runs { IfOk result (λ L. IsRunsOf L (Covers (intervals_of entries.now))) }
    ensures values { IfOk result (λ L. IsRunsOf L (HasValue (HasAt V.eq entries.now))) }
    ensures none { entries.now ≡ [] → IsOk result }
{
    let mut numbers = IntervalSet::empty(alloc);
    for entry in entries {
        add_run(&mut numbers, entry.0)?;
    }
    Ok(numbers)
}

/// Adds the numbers of an interval to a set. The search begins at the last run: it takes `O(1)` if
/// no number of the set is above the interval.
fn add_run<B: Width>(numbers: &mut IntervalSet<B>, run: Interval<B>) -> Result<(), AllocError>
    ensures ok { OnOk result (IsRunsOf numbers.new (Union (Covers numbers.old) (IsBetween run))) }
    ensures err { OnErr result (numbers.new ≡ numbers.old) }
{
    let place = numbers.interval_count().saturating_sub(1);
    numbers.insert_interval_near(run, place)
}

/// How many numbers entries have.
fn size_of<B: Width, V: MapValue>(entries: &[(Interval<B>, V)]) -> B::Output
    requires { IsEntryList V.eq entries.now }
    ensures { IsCountOf (B.Output.size result) (HasValue (HasAt V.eq entries.now)) }
{
    let mut size = <B::Output as SizeNumber>::zero();
    for entry in entries {
        let run = entry.0;
        run.in_whole();
        size = size.add_in_range(run.size());
    }
    size
}
