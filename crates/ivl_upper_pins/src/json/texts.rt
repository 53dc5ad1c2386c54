//! Values carried through their JSON text.
ghost use Rattle.std.specs.Prelude.{◌≡◌, ◌≤◌, Some, IfOk, IsSome};
ghost use Rattle.serde_json.specs.Data.{depth};
ghost use Rattle.serde_json.specs.Read.{max_depth, read};
ghost use Rattle.serde_json.specs.View.{view};
ghost use Rattle.ivl_laws.specs.Sets.{IsBetween, SameMembers};

use super::callers::{read_by_bound, written_by_bound};
use intervallum::width::Width;
use intervallum::{Interval, IntervalSet};
use ivl_json::{JsonFault, JsonForm};
use serde_json::Value;
use std::alloc::{AllocError, Global};

/// The value of a text that is JSON.
fn parsed(alloc: Global, text: &str) -> Result<Value, AllocError>
    requires { IsSome (read text.now) }
    ensures { IfOk result (λ v. read text.now ≡ Some (view v)) }
{
    match Value::from_str(alloc, text) {
        Ok(value) => Ok(value),
        Err(error) if error.is_memory() => Err(AllocError),
        Err(_) => unreachable!(),
    }
}

/// Returns what was written as text and read back, which is the same. Fails only if allocation
/// fails.
pub fn carried_as_text<T: JsonForm>(alloc: Global, x: &T) -> Result<T, AllocError>
    requires { depth (T.json x.now) ≤ max_depth }
    ensures { IfOk result (T.same x.now) }
{
    let text = written_by_bound(alloc, x)?.to_string(alloc)?;
    let value = parsed(alloc, text.as_str())?;
    match read_by_bound(alloc, &value) {
        Ok(read) => Ok(read),
        Err(JsonFault::Memory) => Err(AllocError),
        Err(_) => unreachable!(),
    }
}

/// Returns an interval carried through its text: it has the same members.
pub fn interval_text_reads_back<B: Width>(
    alloc: Global,
    interval: &Interval<B>,
) -> Result<Interval<B>, AllocError>
    ensures { IfOk result (λ p. SameMembers (IsBetween interval.now) (IsBetween p)) }
{
    carried_as_text(alloc, interval)
}

/// Returns a set carried through its text: it is equal.
pub fn set_text_reads_back<B: Width>(
    alloc: Global,
    set: &IntervalSet<B>,
) -> Result<IntervalSet<B>, AllocError>
    ensures { IfOk result (λ L. set.now ≡ L) }
{
    carried_as_text(alloc, set)
}
