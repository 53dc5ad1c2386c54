//! Callers that know a type by the bound `JsonForm` alone.
ghost use Rattle.std.specs.Prelude.{◌≡◌, IfOk, IfErr};
ghost use Rattle.serde_json.specs.View.{view};

use ivl_json::{JsonFault, JsonForm};
use serde_json::Value;
use std::alloc::{AllocError, Global};

/// Returns the written value, which reads back as the original.
pub fn written_by_bound<T: JsonForm>(alloc: Global, x: &T) -> Result<Value, AllocError>
    ensures written { IfOk result (λ v. view v ≡ T.json x.now) }
    ensures reads_back { IfOk result (λ v. T.reads (view v) x.now) }
{
    x.to_value(alloc)
}

/// Returns what a value reads as, or the fault.
pub fn read_by_bound<T: JsonForm>(alloc: Global, value: &Value) -> Result<T, JsonFault>
    ensures read { IfOk result (T.reads (view value.now)) }
    ensures fault { IfErr result (T.faults (view value.now)) }
{
    T::from_value(alloc, value)
}

/// Returns what was written and read back, which is the same. Fails only if allocation fails.
pub fn carried_by_bound<T: JsonForm>(alloc: Global, x: &T) -> Result<T, AllocError>
    ensures { IfOk result (T.same x.now) }
{
    let value = written_by_bound(alloc, x)?;
    match read_by_bound(alloc, &value) {
        Ok(read) => Ok(read),
        Err(JsonFault::Memory) => Err(AllocError),
        Err(_) => unreachable!(),
    }
}
