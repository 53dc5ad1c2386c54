//! What callers of maps can rely on, each as a function that learns it from the public contracts alone.
#![tactic(auto)]

ghost use Rattle.std.specs.Prelude.{◌≡◌, ◌↔◌, ◌⊎◌, ◌<◌, ◌++◌, ◌∷◌, [], List, ℕ, ℤ, All, IfOk, IfSome, IsTrue, MatchOption, OnErr, OnOk, length, take, true, false};
ghost use Rattle.std.specs.Fn.{CalledAt, FnReturnsAt, FnReturnsAtPair};
ghost use Rattle.std.specs.List.Retain.{IsFiltered};
ghost use Rattle.ivl_laws.specs.Counts.{IsCountOf, IsIn};
ghost use Rattle.ivl_laws.specs.Runs.{Covers, IsRunsOf};
ghost use Rattle.ivl_laws.specs.Sets.{AtLeast, AtMost, HasNone, HasSome, Intersection, IsBetween, SameMembers, Without};
ghost use Rattle.ivl_places.specs.FirstFit.{FitsAt, IsFirstFit};
ghost use Rattle.ivl_map.specs.Entries.{HasAt, HasValue, IsEntriesOf, IsEntryListIn, NoValue, NotAt, OnlyAt, Outside, SameValues, Written, WrittenAll, intervals_of};
ghost use Rattle.ivl_map.specs.Lookups.{IsFirstRunOf, IsLastRunOf, IsStoredAt};

use intervallum::interval::Interval;
use intervallum::interval_set::IntervalSet;
use intervallum::width::Width;
use ivl_map::interval_map::IntervalMap;
use ivl_map::value::MapValue;
use std::alloc::{AllocError, Global};

/// A copy of a value is equal to it.
pub fn copy_is_equal<V: MapValue>(value: &V) -> Result<bool, AllocError>
    ensures { IfOk result (λ is_equal. is_equal ≡ true) }
{
    let copy = value.try_copy()?;
    Ok(*value == copy)
}

/// A copy of a number is the number.
pub fn copy_of_number(value: &u64) -> Result<u64, AllocError>
    ensures { IfOk result (λ copy. copy ≡ value.now) }
{
    value.try_copy()
}

/// A copy of a character is the character.
pub fn copy_of_character(value: &char) -> Result<char, AllocError>
    ensures { IfOk result (λ copy. copy ≡ value.now) }
{
    value.try_copy()
}

/// Gives the numbers of an interval a value, and the others keep theirs.
pub fn gives<B: Width, V: MapValue>(
    map: &mut IntervalMap<B, V>,
    interval: Interval<B>,
    value: V,
) -> Result<(), AllocError>
    ensures values { OnOk result (SameValues (HasAt V.eq map.new) (Written V.eq interval value (HasAt V.eq map.old))) }
    ensures err { OnErr result (map.new ≡ map.old) }
{
    map.insert(interval, value)
}

/// Gives the numbers of an entry another value, which cannot fail.
pub fn overwrite<B: Width, V: MapValue>(map: &mut IntervalMap<B, V>, entry: Interval<B>, value: V)
    requires { (held : V) × IsIn map.old (entry, held) }
    ensures { IsEntriesOf V.eq map.new (Written V.eq entry value (HasAt V.eq map.old)) }
{
    map.insert(entry, value).unwrap();
}

/// Gives an interval the value that one of its numbers has, which cannot fail.
pub fn grow<B: Width, V: MapValue>(map: &mut IntervalMap<B, V>, interval: Interval<B>, value: V)
    requires { (z : ℤ) × IsBetween interval z × HasAt V.eq map.old z value }
    ensures { IsEntriesOf V.eq map.new (Written V.eq interval value (HasAt V.eq map.old)) }
{
    map.insert(interval, value).unwrap();
}

/// Two maps are equal if and only if they have equal values at the same numbers.
pub fn are_equal<B: Width, V: MapValue>(a: &IntervalMap<B, V>, b: &IntervalMap<B, V>) -> bool
    ensures { IsTrue result ↔ SameValues (HasAt V.eq a.now) (HasAt V.eq b.now) }
{
    *a == *b
}

/// The entries of a map, by value, are those that it lent.
pub fn entries_of<B: Width, V: MapValue>(map: IntervalMap<B, V>) -> Vec<(Interval<B>, V)>
    ensures same { result.items ≡ map }
    ensures entries { IsEntryListIn B.whole V.eq result.items }
{
    map.into_entries()
}

/// A copy of a truth value is the value.
pub fn copy_of_truth(value: &bool) -> Result<bool, AllocError>
    ensures { IfOk result (λ copy. copy ≡ value.now) }
{
    value.try_copy()
}

/// A copy of a text has its characters.
pub fn copy_of_text(value: &String) -> Result<bool, AllocError>
    ensures { IfOk result (λ is_equal. is_equal ≡ true) }
{
    copy_is_equal(value)
}

/// A copy of a set has its members.
pub fn copy_of_set(value: &IntervalSet<u32>) -> Result<bool, AllocError>
    ensures { IfOk result (λ is_equal. is_equal ≡ true) }
{
    copy_is_equal(value)
}

/// A copy of a number that may be missing is that number, or missing.
pub fn copy_of_option(value: &Option<i64>) -> Result<Option<i64>, AllocError>
    ensures { IfOk result (λ copy. copy ≡ value.now) }
{
    value.try_copy()
}

/// A copy of a pair is the pair.
pub fn copy_of_pair(value: &(usize, char)) -> Result<(usize, char), AllocError>
    ensures { IfOk result (λ copy. copy ≡ value.now) }
{
    value.try_copy()
}

/// The first entry that an iterator yields is the first of the map.
pub fn first_entry<B: Width, V: MapValue>(map: &IntervalMap<B, V>) -> Option<&(Interval<B>, V)>
    ensures { MatchOption result (map.now ≡ []) (λ entry. (rest : _) × (map.now ≡ entry.now ∷ rest)) }
{
    map.iter().next()
}

/// The first value that an iterator yields, with its run, is that of the first entry of the map.
pub fn first_value<B: Width, V: MapValue>(map: &IntervalMap<B, V>) -> Option<(Interval<B>, &V)>
    ensures { MatchOption result (map.now ≡ []) (λ first. (rest : _) × (map.now ≡ (first.0, first.1.now) ∷ rest)) }
{
    map.values().next()
}

/// The last value, with its run, is that of the last entry.
pub fn last_value<B: Width, V: MapValue>(map: &IntervalMap<B, V>) -> Option<(Interval<B>, &V)>
    ensures { MatchOption result (map.now ≡ []) (λ last. (front : _) × (map.now ≡ front ++ (last.0, last.1.now) ∷ [])) }
{
    map.values().next_back()
}

/// At the numbers of one map alone a merge has its values.
pub fn merge_keeps<B: Width, V: MapValue>(
    a: &IntervalMap<B, V>,
    b: &IntervalMap<B, V>,
) -> Result<IntervalMap<B, V>, AllocError>
    ensures { IfOk result (λ both. (z : ℤ) (v : V) → ¬ (HasValue (HasAt V.eq b.now) z) → HasAt V.eq both z v ↔ HasAt V.eq a.now z v) }
{
    a.merge(b, |value, _| value.try_copy())
}

/// A map that was made without entries has no value.
pub fn none_has_no_value<B: Width, V: MapValue>(alloc: Global) -> IntervalMap<B, V>
    ensures { (z : ℤ) (v : V) → ¬ (HasAt V.eq result z v) }
{
    IntervalMap::empty(alloc)
}

/// The number of entries is that of the entries which are lent.
pub fn counts_entries<B: Width, V: MapValue>(map: &IntervalMap<B, V>) -> bool
    ensures { result ≡ true }
{
    map.interval_count() == map.entries().len()
}

/// A map is empty if and only if it has no entry.
pub fn has_no_entry<B: Width, V: MapValue>(map: &IntervalMap<B, V>) -> bool
    ensures { IsTrue result ↔ (map.now ≡ []) }
{
    map.is_empty()
}

/// The allocator of a map makes another.
pub fn none_beside<B: Width, V: MapValue>(map: &IntervalMap<B, V>) -> IntervalMap<B, V>
    ensures { result ≡ [] }
{
    IntervalMap::empty(map.allocator())
}

/// No number has two values.
pub fn has_one_value<B: Width, V: MapValue>(map: &IntervalMap<B, V>)
    ensures { (z : ℤ) (v : V) (w : V) → HasAt V.eq map.now z v → HasAt V.eq map.now z w → V.eq v w ≡ true }
{
    map.in_order();
}

/// What is written is stored itself, and no copy of it.
pub fn stores<B: Width, V: MapValue>(
    map: &mut IntervalMap<B, V>,
    interval: Interval<B>,
    value: V,
) -> Result<(), AllocError>
    ensures { OnOk result ((z : ℤ) → IsBetween interval z → IsStoredAt map.new z value) }
{
    map.insert(interval, value)
}

/// To write to an empty interval cannot fail, and changes no value.
pub fn write_nothing<B: Width, V: MapValue>(
    map: &mut IntervalMap<B, V>,
    interval: Interval<B>,
    value: V,
)
    requires { HasNone (IsBetween interval) }
    ensures { IsEntriesOf V.eq map.new (Written V.eq interval value (HasAt V.eq map.old)) }
{
    map.insert(interval, value).unwrap();
}

/// Takes the values of the numbers of an interval away, and the others keep theirs.
pub fn takes_away<B: Width, V: MapValue>(
    map: &mut IntervalMap<B, V>,
    interval: Interval<B>,
) -> Result<(), AllocError>
    ensures values { OnOk result (SameValues (HasAt V.eq map.new) (Outside interval (HasAt V.eq map.old))) }
    ensures err { OnErr result (map.new ≡ map.old) }
{
    map.remove(interval)
}

/// To remove the numbers of an empty interval cannot fail.
pub fn remove_nothing<B: Width, V: MapValue>(map: &mut IntervalMap<B, V>, interval: Interval<B>)
    requires { HasNone (IsBetween interval) }
    ensures { IsEntriesOf V.eq map.new (Outside interval (HasAt V.eq map.old)) }
{
    map.remove(interval).unwrap();
}

/// Nothing is left of a map that is cleared.
pub fn leaves_none<B: Width, V: MapValue>(map: &mut IntervalMap<B, V>)
    ensures { map.new ≡ [] }
{
    map.clear();
}

/// Takes an interval for a value if none of its numbers has one; else the map is unchanged.
pub fn takes<B: Width, V: MapValue>(
    map: &mut IntervalMap<B, V>,
    interval: Interval<B>,
    value: V,
) -> Result<bool, AllocError>
    ensures free { IfOk result (λ is_taken. is_taken ≡ true → HasNone (Intersection (IsBetween interval) (HasValue (HasAt V.eq map.old)))) }
    ensures written { IfOk result (λ is_taken. is_taken ≡ true → SameValues (HasAt V.eq map.new) (Written V.eq interval value (HasAt V.eq map.old))) }
    ensures unchanged { IfOk result (λ is_taken. is_taken ≡ false → map.new ≡ map.old) }
    ensures err { OnErr result (map.new ≡ map.old) }
{
    match map.insert_if_free(interval, value)? {
        Some(_) => Ok(false),
        None => Ok(true),
    }
}

/// Where an interval is taken, the run of the first entry in the way is told, which cannot fail.
pub fn first_in_the_way<B: Width, V: MapValue>(
    map: &mut IntervalMap<B, V>,
    interval: Interval<B>,
    value: V,
) -> Option<Interval<B>>
    requires { HasSome (Intersection (IsBetween interval) (HasValue (HasAt V.eq map.old))) }
    ensures { IfSome result (λ run. (held : V) × IsFirstRunOf V.eq (Intersection (IsBetween interval) (HasValue (HasAt V.eq map.old))) (HasAt V.eq map.old) (run, held)) }
{
    map.insert_if_free(interval, value).unwrap()
}

/// A free interval beside a number with an equal value is taken without fail.
pub fn grow_if_free<B: Width, V: MapValue>(
    map: &mut IntervalMap<B, V>,
    interval: Interval<B>,
    value: V,
) -> Option<Interval<B>>
    requires { (z : ℤ) × IsBetween interval z × HasAt V.eq map.old z value }
    ensures { IfSome result (λ _. map.new ≡ map.old) }
{
    map.insert_if_free(interval, value).unwrap()
}

/// A number of the interval has what the function returned for its value, and the others keep theirs.
pub fn changes<B: Width, V: MapValue, F: Fn(&V) -> Result<V, AllocError>>(
    map: &mut IntervalMap<B, V>,
    interval: Interval<B>,
    change: F,
) -> Result<(), AllocError>
    requires { F.IsAlwaysCallable change }
    ensures changed { OnOk result ((z : ℤ) (v : V) → IsBetween interval z → IsStoredAt map.old z v → (w : V) × FnReturnsAt F.Fn change v (Ok w) × HasAt V.eq map.new z w) }
    ensures others { OnOk result ((z : ℤ) (v : V) → ¬ (IsBetween interval z) → HasAt V.eq map.new z v ↔ HasAt V.eq map.old z v) }
    ensures err { OnErr result (map.new ≡ map.old) }
{
    map.update(interval, change)
}

/// To change the values of an empty interval cannot fail.
pub fn change_nothing<B: Width, V: MapValue>(map: &mut IntervalMap<B, V>, interval: Interval<B>)
    requires { HasNone (IsBetween interval) }
    ensures { (z : ℤ) (v : V) → HasAt V.eq map.new z v ↔ HasAt V.eq map.old z v }
{
    map.update(interval, |value| value.try_copy()).unwrap();
}

/// At a number of both maps a merge has what the function returned for the two values.
pub fn merge_asks<B: Width, V: MapValue, F: Fn(&V, &V) -> Result<V, AllocError>>(
    a: &IntervalMap<B, V>,
    b: &IntervalMap<B, V>,
    both: F,
) -> Result<IntervalMap<B, V>, AllocError>
    requires { F.IsAlwaysCallable both }
    ensures { IfOk result (λ made. (z : ℤ) (v w : V) → IsStoredAt a.now z v → IsStoredAt b.now z w → (x : V) × FnReturnsAtPair F.Fn both v w (Ok x) × HasAt V.eq made z x) }
{
    a.merge(b, both)
}

/// The entries that are lent are those of the map.
pub fn lends_entries<B: Width, V: MapValue>(map: &IntervalMap<B, V>) -> &[(Interval<B>, V)]
    ensures same { result.now ≡ map.now }
    ensures entries { IsEntryListIn B.whole V.eq result.now }
{
    map.entries()
}

/// The value that is found at a number is the one that the number has.
pub fn value_of<B: Width, V: MapValue>(map: &IntervalMap<B, V>, number: B) -> Option<&V>
    ensures { MatchOption result
        ((v : V) → ¬ (HasAt V.eq map.now (B.value number) v))
        (λ v. IsStoredAt map.now (B.value number) v.now) }
{
    map.get(&number)
}

/// A number is in the map if and only if it has a value.
pub fn has_value<B: Width, V: MapValue>(map: &IntervalMap<B, V>, number: B) -> bool
    ensures { IsTrue result ↔ HasValue (HasAt V.eq map.now) (B.value number) }
{
    map.contains(&number)
}

/// The run round a number is an entry that has the number.
pub fn run_round<B: Width, V: MapValue>(
    map: &IntervalMap<B, V>,
    number: B,
) -> Option<(Interval<B>, &V)>
    ensures { MatchOption result
        ((v : V) → ¬ (HasAt V.eq map.now (B.value number) v))
        (λ r. IsIn map.now (r.0, r.1.now) × IsBetween r.0 (B.value number)) }
{
    map.get_run(number)
}

/// No number below the first entry has a value.
pub fn first_is_least<B: Width, V: MapValue>(map: &IntervalMap<B, V>) -> Option<(Interval<B>, &V)>
    ensures { MatchOption result
        (HasNone (HasValue (HasAt V.eq map.now)))
        (λ r. IsIn map.now (r.0, r.1.now) × IsFirstRunOf V.eq (HasValue (HasAt V.eq map.now)) (HasAt V.eq map.now) (r.0, r.1.now)) }
{
    map.first()
}

/// No number above the last entry has a value.
pub fn last_is_greatest<B: Width, V: MapValue>(map: &IntervalMap<B, V>) -> Option<(Interval<B>, &V)>
    ensures { MatchOption result
        (HasNone (HasValue (HasAt V.eq map.now)))
        (λ r. IsIn map.now (r.0, r.1.now) × IsLastRunOf V.eq (HasValue (HasAt V.eq map.now)) (HasAt V.eq map.now) (r.0, r.1.now)) }
{
    map.last()
}

/// The next entry is that of the least number from one on that has a value.
pub fn next_is_least<B: Width, V: MapValue>(
    map: &IntervalMap<B, V>,
    number: B,
) -> Option<(Interval<B>, &V)>
    ensures { MatchOption result
        (HasNone (AtLeast (B.value number) (HasValue (HasAt V.eq map.now))))
        (λ r. IsIn map.now (r.0, r.1.now) × IsFirstRunOf V.eq (AtLeast (B.value number) (HasValue (HasAt V.eq map.now))) (HasAt V.eq map.now) (r.0, r.1.now)) }
{
    map.next_from(number)
}

/// The previous entry is that of the greatest number up to one that has a value.
pub fn previous_is_greatest<B: Width, V: MapValue>(
    map: &IntervalMap<B, V>,
    number: B,
) -> Option<(Interval<B>, &V)>
    ensures { MatchOption result
        (HasNone (AtMost (B.value number) (HasValue (HasAt V.eq map.now))))
        (λ r. IsIn map.now (r.0, r.1.now) × IsLastRunOf V.eq (AtMost (B.value number) (HasValue (HasAt V.eq map.now))) (HasAt V.eq map.now) (r.0, r.1.now)) }
{
    map.previous_to(number)
}

/// A map of one interval has its value at the numbers of the interval, and none at the others.
pub fn has_one_entry<B: Width, V: MapValue>(
    alloc: Global,
    interval: Interval<B>,
    value: V,
) -> Result<IntervalMap<B, V>, AllocError>
    ensures { IfOk result (λ E. IsEntriesOf V.eq E (Written V.eq interval value NoValue)) }
{
    IntervalMap::of(alloc, interval, value)
}

/// A map of an empty interval is made without fail, and has no value.
pub fn of_nothing<B: Width, V: MapValue>(
    alloc: Global,
    interval: Interval<B>,
    value: V,
) -> IntervalMap<B, V>
    requires { HasNone (IsBetween interval) }
    ensures { IsEntriesOf V.eq result (Written V.eq interval value NoValue) }
{
    IntervalMap::of(alloc, interval, value).unwrap()
}

/// Of a list of writes the last one counts.
pub fn last_write_counts<B: Width, V: MapValue>(
    alloc: Global,
    list: Vec<(Interval<B>, V)>,
) -> Result<IntervalMap<B, V>, AllocError>
    ensures { IfOk result (λ E. SameValues (HasAt V.eq E) (WrittenAll V.eq list.items NoValue)) }
{
    IntervalMap::from_entries(alloc, list)
}

/// A list that is written in part was so up to some element of it.
pub fn writes_all<B: Width, V: MapValue>(
    map: &mut IntervalMap<B, V>,
    list: Vec<(Interval<B>, V)>,
) -> Result<(), AllocError>
    ensures ok { OnOk result (SameValues (HasAt V.eq map.new) (WrittenAll V.eq list.items (HasAt V.eq map.old))) }
    ensures err { OnErr result ((k : ℕ) × (k < length list.items) × SameValues (HasAt V.eq map.new) (WrittenAll V.eq (take k list.items) (HasAt V.eq map.old))) }
{
    map.extend(list)
}

/// To write an empty list cannot fail.
pub fn write_no_list<B: Width, V: MapValue>(
    map: &mut IntervalMap<B, V>,
    list: Vec<(Interval<B>, V)>,
)
    requires { list.items ≡ [] }
    ensures { SameValues (HasAt V.eq map.new) (HasAt V.eq map.old) }
{
    map.extend(list).unwrap();
}

/// A copy of a map equals it.
pub fn copy_of_map<B: Width, V: MapValue>(
    map: &IntervalMap<B, V>,
) -> Result<IntervalMap<B, V>, AllocError>
    ensures { IfOk result (λ copy. SameValues (HasAt V.eq copy) (HasAt V.eq map.now)) }
{
    map.try_clone()
}

/// The members of the set of keys are the numbers that have a value.
pub fn keys_have_values<B: Width, V: MapValue>(
    map: &IntervalMap<B, V>,
) -> Result<IntervalSet<B>, AllocError>
    ensures { IfOk result (λ L. SameMembers (Covers L) (HasValue (HasAt V.eq map.now))) }
{
    map.keys()
}

/// So many numbers have a value.
pub fn counts_numbers<B: Width, V: MapValue>(map: &IntervalMap<B, V>) -> B::Output
    ensures { IsCountOf (B.Output.size result) (HasValue (HasAt V.eq map.now)) }
{
    map.size()
}

/// The members are the numbers of the entries that passed a test, which was asked once for each entry.
pub fn numbers_that_pass<B: Width, V: MapValue, F: FnMut(&V) -> bool>(
    map: &IntervalMap<B, V>,
    test: F,
) -> Result<IntervalSet<B>, AllocError>
    requires { F.IsAlwaysCallable test }
    ensures { IfOk result (λ L. (passed : List ((ℤ × ℤ) × V)) × IsFiltered (λ f e is g. CalledAt F.FnMut f e.1 is g) test map.now passed × IsRunsOf L (Covers (intervals_of passed))) }
{
    map.numbers_with(test)
}

/// What is cut to a window has the values of its numbers.
pub fn keeps_window<B: Width, V: MapValue>(
    map: &IntervalMap<B, V>,
    window: Interval<B>,
) -> Result<IntervalMap<B, V>, AllocError>
    ensures { IfOk result (λ E. SameValues (HasAt V.eq E) (OnlyAt (IsBetween window) (HasAt V.eq map.now))) }
{
    map.cut_to(window)
}

/// What is restricted to a set has the values of its members.
pub fn keeps_members<B: Width, V: MapValue>(
    map: &IntervalMap<B, V>,
    set: &IntervalSet<B>,
) -> Result<IntervalMap<B, V>, AllocError>
    ensures { IfOk result (λ E. SameValues (HasAt V.eq E) (OnlyAt (Covers set.now) (HasAt V.eq map.now))) }
{
    map.restrict_to(set)
}

/// What is left without a set has the values of the others.
pub fn keeps_others<B: Width, V: MapValue>(
    map: &IntervalMap<B, V>,
    set: &IntervalSet<B>,
) -> Result<IntervalMap<B, V>, AllocError>
    ensures { IfOk result (λ E. SameValues (HasAt V.eq E) (NotAt (Covers set.now) (HasAt V.eq map.now))) }
{
    map.without(set)
}

/// Each entry that overlaps a window is one of the map, has a number of the window, and the window's values are those of the map.
pub fn overlaps_window<B: Width, V: MapValue>(
    map: &IntervalMap<B, V>,
    window: Interval<B>,
) -> &[(Interval<B>, V)]
    ensures whole { (e : _) → IsIn result.now e → IsIn map.now e }
    ensures overlap { All (λ e. HasSome (Intersection (IsBetween e.0) (IsBetween window))) result.now }
    ensures held { (z : ℤ) (v : V) → IsBetween window z → HasAt V.eq result.now z v ↔ HasAt V.eq map.now z v }
{
    map.overlapping(window)
}

/// The gaps of a window are its numbers without a value.
pub fn gaps_have_no_value<B: Width, V: MapValue>(
    map: &IntervalMap<B, V>,
    window: Interval<B>,
) -> Result<IntervalSet<B>, AllocError>
    ensures { IfOk result (λ L. SameMembers (Covers L) (Without (IsBetween window) (HasValue (HasAt V.eq map.now)))) }
{
    map.gaps_within(window)
}

/// The first fit is the lowest of its size that has no value, in the window.
pub fn fits_first<B: Width, V: MapValue>(
    map: &IntervalMap<B, V>,
    window: Interval<B>,
    count: B::Output,
) -> Result<Option<Interval<B>>, AllocError>
    requires { 0 < B.Output.size count }
    ensures { IfOk result (λ fit. MatchOption fit
        ((v : ℤ) → ¬ (FitsAt (B.Output.size count) (Without (IsBetween window) (HasValue (HasAt V.eq map.now))) v))
        (IsFirstFit (B.Output.size count) (Without (IsBetween window) (HasValue (HasAt V.eq map.now))))) }
{
    map.first_fit(window, count)
}

/// A search for room cannot fail.
pub fn fits_without_memory<B: Width, V: MapValue>(
    map: &IntervalMap<B, V>,
    window: Interval<B>,
    count: B::Output,
) -> Option<Interval<B>>
    requires { 0 < B.Output.size count }
{
    map.first_fit(window, count).unwrap()
}

/// A number is copied without fail.
pub fn copy_number(value: &i32) -> i32
    ensures { result ≡ value.now }
{
    value.try_copy().unwrap()
}

/// A character is copied without fail.
pub fn copy_character(value: &char) -> char
    ensures { result ≡ value.now }
{
    value.try_copy().unwrap()
}

/// A truth value is copied without fail.
pub fn copy_truth(value: &bool) -> bool
    ensures { result ≡ value.now }
{
    value.try_copy().unwrap()
}

/// A value that is missing is copied without fail.
pub fn copy_missing(value: &Option<String>) -> Option<String>
    requires { value.now ≡ None }
{
    value.try_copy().unwrap()
}

#[cfg(test)]
mod tests {
    use super::*;
    use intervallum::interval::Interval;
    use intervallum::ops::Range;
    use std::alloc::AllocError;
    use std::test::Fail;

    #[derive(Clone, Copy, PartialEq, Eq, Debug)]
    enum Owner {
        Kernel,
        User(u32),
    }

    impl MapValue for Owner {
        fn try_copy(&self) -> Result<Owner, AllocError> {
            Ok(*self)
        }
    }

    #[test]
    fn owners(rt: HostRuntime) -> Result<(), Fail> {
        let mut owners: IntervalMap<u32, Owner> = IntervalMap::empty(rt.alloc());
        owners.insert(Interval::new(0, 9), Owner::User(1))?;
        owners.insert(Interval::new(3, 4), Owner::Kernel)?;
        assert!(rt;
            owners.get(&5) == Some(&Owner::User(1)) && owners.get(&4) == Some(&Owner::Kernel)
        );
        let names = owners.overlapping(Interval::new(4, 5));
        assert_eq!(rt; names.len(), 2);
        Ok(())
    }

    #[test]
    fn writes_and_cuts(rt: HostRuntime) -> Result<(), Fail> {
        let mut owners: IntervalMap<i32, u32> = IntervalMap::empty(rt.alloc());
        owners.insert(Interval::new(1, 9), 7)?;
        owners.insert(Interval::new(4, 5), 8)?;
        assert_eq!(rt; owners.interval_count(), 3);
        assert!(rt;
            owners.get(&3) == Some(&7) && owners.get(&4) == Some(&8) && owners.get(&6) == Some(&7)
        );
        owners.insert(Interval::new(4, 5), 7)?;
        assert_eq!(rt; owners.interval_count(), 1);
        owners.remove(Interval::new(3, 3))?;
        assert!(rt; owners.get(&3).is_none());
        match owners.get_run(8) {
            Some((run, value)) => assert!(rt; run == Interval::new(4, 9) && *value == 7),
            None => assert!(rt; false),
        }
        owners.insert(Interval::new(0, 3), 7)?;
        let mut other: IntervalMap<i32, u32> = IntervalMap::empty(rt.alloc());
        other.insert(Interval::new(0, 9), 7)?;
        assert!(rt; owners == other);
        assert_eq!(rt; owners.keys()?.interval_count(), 1);
        Ok(())
    }
}
