//! What the JSON form of a set is, in plain words.
ghost use Rattle.std.specs.Prelude.{◌≡◌, ◌≢◌, ◌⊎◌, ℤ, List, [], map, None, Ok, Err, IfOk, IfErr};
ghost use Rattle.serde_json.specs.Data.{Items, array, null, number, unsigned, item, no_items};
ghost use Rattle.serde_json.specs.Find.{as_array};
ghost use Rattle.serde_json.specs.View.{view, items_of};
ghost use Rattle.ivl_laws.specs.Sets.{HasNone};
ghost use Rattle.ivl_laws.specs.Runs.{Covers, IsRunListIn, IsRunsOf};
ghost use Rattle.ivl_json.specs.SetReading.{items_read};
ghost use Rattle.ivl_json.specs.Writing.{interval_json};
ghost use Rattle.ivl_json.specs.declared.faults.ItemFault.{ItemFault};
ghost use Rattle.ivl_json.specs.declared.faults.JsonFault.{JsonFault};

use super::callers;
use intervallum::IntervalSet;
use intervallum::width::Width;
use ivl_json::JsonFault;
use serde_json::Value;
use std::alloc::{AllocError, Global};

/// Returns null for an empty set, else the array of the runs, each as an interval is written.
pub fn set_written<B: Width>(alloc: Global, set: &IntervalSet<B>) -> Result<Value, AllocError>
    ensures empty { set.now ≡ [] → IfOk result (λ v. view v ≡ null) }
    ensures runs { set.now ≢ [] → IfOk result (λ v. view v ≡ array (items_of (map interval_json set.now))) }
{
    callers::written_by_bound(alloc, set)
}

/// Returns the set of the members of all items, or the first fault, or `Memory` if allocation
/// fails.
pub fn set_read_of<B: Width>(alloc: Global, value: &Value) -> Result<IntervalSet<B>, JsonFault>
    ensures runs { IfOk result (IsRunListIn B.whole) }
    ensures null { view value.now ≡ null → IfOk result (λ L. HasNone (Covers L)) × IfErr result (λ f. f ≡ JsonFault.Memory) }
    ensures shape { view value.now ≢ null → as_array (view value.now) ≡ None → (result ≡ Err JsonFault.Memory) ⊎ (result ≡ Err JsonFault.Shape) }
    ensures items { (ds : Items) (ps : List (ℤ × ℤ)) → view value.now ≡ array ds → items_read B.whole 0 ds ≡ Ok ps
        → IfOk result (λ L. IsRunsOf L (Covers ps)) × IfErr result (λ f. f ≡ JsonFault.Memory) }
    ensures faulty { (ds : Items) (f : JsonFault) → view value.now ≡ array ds → items_read B.whole 0 ds ≡ Err f → (result ≡ Err JsonFault.Memory) ⊎ (result ≡ Err f) }
{
    callers::read_by_bound(alloc, value)
}

/// Returns a set of bytes: `[[1,2],[3],null]` is an error for its second item, and `[]` is empty.
pub fn byte_sets_read(alloc: Global, value: &Value) -> Result<IntervalSet<u8>, JsonFault>
    ensures second { view value.now ≡ array (item (array (item (number (unsigned 1)) (item (number (unsigned 2)) no_items))) (item (array (item (number (unsigned 3)) no_items)) (item null no_items)))
        → (result ≡ Err JsonFault.Memory) ⊎ (result ≡ Err (JsonFault.At 1 (ItemFault.Length 1))) }
    ensures none { view value.now ≡ array no_items → IfOk result (λ L. HasNone (Covers L)) × IfErr result (λ f. f ≡ JsonFault.Memory) }
{
    callers::read_by_bound(alloc, value)
}

/// Returns the set after writing and reading: it is equal.
pub fn set_carried<B: Width>(
    alloc: Global,
    set: &IntervalSet<B>,
) -> Result<IntervalSet<B>, AllocError>
    ensures { IfOk result (λ L. L ≡ set.now) }
{
    callers::carried_by_bound(alloc, set)
}
