//! The JSON calls, each with a result that was worked out by hand.

use crate::runs::{FIRST_RUNS, has_runs};
use intervallum::interval::Interval;
use intervallum::interval_set::IntervalSet;
use intervallum::ops::Range;
use ivl_json::{ItemFault, JsonFault, JsonForm};
use serde_json::{Value, json};
use std::alloc::{AllocError, Global};

/// The runs of the first operand, out of order.
const SHUFFLED: [(i32, i32); 4] = [(13, 14), (1, 2), (9, 10), (5, 6)];

/// Whether the call of this name gives the right answer and leaves its value as it was; none where there is no such
/// call.
pub fn call(alloc: Global, name: &str, a: &IntervalSet<i32>) -> Option<Result<bool, AllocError>> {
    match name {
        "json_write_interval" => Some(is_interval_written(alloc)),
        "json_write_set" => Some(is_set_written(alloc, a)),
        "json_read_interval" => Some(is_interval_read(alloc)),
        "json_read_set" => Some(is_set_read(alloc)),
        "json_read_thousand" => Some(is_last_of_thousand_refused(alloc)),
        "json_read_thousands" => Some(is_last_of_thousands_read(alloc)),
        _ => None,
    }
}

/// An interval is written as the array of its bounds.
fn is_interval_written(alloc: Global) -> Result<bool, AllocError> {
    let value = Interval::new(3, 8).to_value(alloc)?;
    Ok(is_pair(&value, (3, 8)))
}

/// A set is written as the array of its runs.
fn is_set_written(alloc: Global, a: &IntervalSet<i32>) -> Result<bool, AllocError> {
    let value = a.to_value(alloc)?;
    Ok(has_pairs(&value, FIRST_RUNS))
}

/// An interval is read of its bounds. Its reading does not allocate, so running out of memory is a wrong answer.
fn is_interval_read(alloc: Global) -> Result<bool, AllocError> {
    let value = pair_value(alloc, 3, 8)?;
    let read = Interval::<i32>::from_value(alloc, &value);
    Ok(read == Ok(Interval::new(3, 8)) && is_pair(&value, (3, 8)))
}

/// A set is read of its runs in no order.
fn is_set_read(alloc: Global) -> Result<bool, AllocError> {
    let value = pairs_value(alloc, &SHUFFLED)?;
    let read = IntervalSet::<i32>::from_value(alloc, &value);
    if !has_pairs(&value, &SHUFFLED) {
        return Ok(false);
    }
    match read {
        Ok(set) => Ok(has_runs(&set, FIRST_RUNS)),
        Err(JsonFault::Memory) => Err(AllocError),
        Err(_) => Ok(false),
    }
}

/// The last item is refused of an array of 999 items that are null, and one that has a single number.
fn is_last_of_thousand_refused(alloc: Global) -> Result<bool, AllocError> {
    let value = nulls_and(alloc, 999, json!(in alloc; [1])?)?;
    match IntervalSet::<i32>::from_value(alloc, &value) {
        Err(JsonFault::Memory) => Err(AllocError),
        Err(fault) => Ok(fault == JsonFault::At(999, ItemFault::Length(1))),
        Ok(_) => Ok(false),
    }
}

/// A set is read of an array of 2,999 items that are null, and one that has two bounds.
fn is_last_of_thousands_read(alloc: Global) -> Result<bool, AllocError> {
    let value = nulls_and(alloc, 2999, pair_value(alloc, 5, 7)?)?;
    match IntervalSet::<i32>::from_value(alloc, &value) {
        Err(JsonFault::Memory) => Err(AllocError),
        Err(_) => Ok(false),
        Ok(set) => Ok(has_runs(&set, &[(5, 7)])),
    }
}

/// An array of so many items that are null, and then this one.
fn nulls_and(alloc: Global, nulls: u16, last: Value) -> Result<Value, AllocError> {
    let mut items = Vec::with_capacity(alloc, usize::from(nulls) + 1)?;
    for _ in 0..nulls {
        items.push(Value::from(()))?;
    }
    items.push(last)?;
    Ok(Value::from(items))
}

/// An array of pairs.
fn pairs_value(alloc: Global, pairs: &[(i32, i32)]) -> Result<Value, AllocError> {
    let mut items = Vec::new(alloc);
    for &(lower, upper) in pairs {
        items.push(pair_value(alloc, lower, upper)?)?;
    }
    Ok(Value::from(items))
}

/// An array of two numbers.
fn pair_value(alloc: Global, lower: i32, upper: i32) -> Result<Value, AllocError> {
    json!(in alloc; [lower, upper])
}

/// The value is an array of these pairs.
fn has_pairs(value: &Value, pairs: &[(i32, i32)]) -> bool {
    let Some(items) = value.as_array() else {
        return false;
    };
    for (item, pair) in items.iter().zip(pairs) {
        if !is_pair(item, *pair) {
            return false;
        }
    }
    items.len() == pairs.len()
}

/// The value is an array of two numbers.
fn is_pair(value: &Value, (lower, upper): (i32, i32)) -> bool {
    let Some(items) = value.as_array() else {
        return false;
    };
    match items.as_slice() {
        [first, second] => {
            first.as_i64() == Some(i64::from(lower)) && second.as_i64() == Some(i64::from(upper))
        }
        _ => false,
    }
}
