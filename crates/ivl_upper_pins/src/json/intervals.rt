//! What the JSON form of an interval is, in plain words.
ghost use Rattle.std.specs.Prelude.{◌≡◌, ◌≢◌, ◌≤ℤ◌, ℤ, Ok, Err, IfOk, MatchResult};
ghost use Rattle.serde_json.specs.Data.{Data, Items, array, null, number, unsigned, item, no_items};
ghost use Rattle.serde_json.specs.Find.{as_array};
ghost use Rattle.serde_json.specs.View.{view};
ghost use Rattle.ivl_laws.specs.Sets.{HasNone, IsBetween, SameMembers};
ghost use Rattle.ivl_json.specs.Reading.{bound_read, count_of};
ghost use Rattle.ivl_json.specs.Writing.{bound_json};
ghost use Rattle.ivl_json.specs.Faults.{json_fault};
ghost use Rattle.ivl_json.specs.declared.faults.ItemFault.{ItemFault};
ghost use Rattle.ivl_json.specs.declared.faults.JsonFault.{JsonFault};

use super::callers;
use intervallum::Interval;
use intervallum::width::Width;
use ivl_json::JsonFault;
use serde_json::Value;
use std::alloc::{AllocError, Global};

/// Returns null for an empty interval, else the array of the two bounds.
pub fn interval_written<B: Width>(
    alloc: Global,
    interval: &Interval<B>,
) -> Result<Value, AllocError>
    ensures empty { HasNone (IsBetween interval.now) → IfOk result (λ v. view v ≡ null) }
    ensures bounds { interval.now.0 ≤ℤ interval.now.1 → IfOk result (λ v. view v ≡ array (item (bound_json interval.now.0) (item (bound_json interval.now.1) no_items))) }
{
    callers::written_by_bound(alloc, interval)
}

/// Returns the interval, or the fault, which is never a failed allocation.
pub fn interval_read_of<B: Width>(alloc: Global, value: &Value) -> Result<Interval<B>, JsonFault>
    ensures null { view value.now ≡ null → MatchResult result (λ p. HasNone (IsBetween p)) (λ f. ⊥) }
    ensures shape { view value.now ≢ null → as_array (view value.now) ≡ None → result ≡ Err JsonFault.Shape }
    ensures length { (ds : Items) → view value.now ≡ array ds → count_of ds ≢ 2 → result ≡ Err (JsonFault.Length (count_of ds)) }
    ensures first { (d e : Data) (f : ItemFault) → view value.now ≡ array (item d (item e no_items)) → bound_read B.whole d ≡ Err f → result ≡ Err (json_fault f) }
    ensures second { (d e : Data) (l : ℤ) (f : ItemFault) → view value.now ≡ array (item d (item e no_items)) → bound_read B.whole d ≡ Ok l → bound_read B.whole e ≡ Err f → result ≡ Err (json_fault f) }
    ensures bounds { (d e : Data) (l u : ℤ) → view value.now ≡ array (item d (item e no_items)) → bound_read B.whole d ≡ Ok l → bound_read B.whole e ≡ Ok u
        → MatchResult result (λ p. SameMembers (IsBetween p) (IsBetween (l, u))) (λ f. ⊥) }
{
    callers::read_by_bound(alloc, value)
}

/// Returns two bytes read as an interval: the array `[255,0]` is an error, and `[254,0]` is empty.
pub fn bytes_read(alloc: Global, value: &Value) -> Result<Interval<u8>, JsonFault>
    ensures out_of_range { view value.now ≡ array (item (number (unsigned 255)) (item (number (unsigned 0)) no_items)) → result ≡ Err JsonFault.Range }
    ensures crossed { view value.now ≡ array (item (number (unsigned 254)) (item (number (unsigned 0)) no_items)) → MatchResult result (λ p. HasNone (IsBetween p)) (λ f. ⊥) }
    ensures three { view value.now ≡ array (item (number (unsigned 1)) (item (number (unsigned 2)) (item (number (unsigned 3)) no_items))) → result ≡ Err (JsonFault.Length 3) }
{
    callers::read_by_bound(alloc, value)
}

/// Returns the interval after writing and reading: it has the same members.
pub fn interval_carried<B: Width>(
    alloc: Global,
    interval: &Interval<B>,
) -> Result<Interval<B>, AllocError>
    ensures { IfOk result (λ p. SameMembers (IsBetween interval.now) (IsBetween p)) }
{
    callers::carried_by_bound(alloc, interval)
}
