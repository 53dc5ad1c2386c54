//! A long array whose last item is no interval.

use super::{check, made};
use intervallum::IntervalSet;
use ivl_json::json::{ItemFault, JsonFault, JsonForm};
use serde_json::{Value, json};
use std::alloc::{AllocError, Global};

/// An array of 999 pairs, and one of a single number.
fn thousand(alloc: Global) -> Result<Value, AllocError> {
    let mut items = Vec::new(alloc);
    for place in 0..999u32 {
        items.push(json!(in alloc; [place, 5000])?)?;
    }
    items.push(json!(in alloc; [1])?)?;
    Ok(Value::from(items))
}

#[test]
fn the_last_of_a_thousand(rt: HostRuntime) {
    let value = made(&rt, thousand(rt.alloc()));
    let read = IntervalSet::<i32>::from_value(rt.alloc(), &value);
    check(
        &rt,
        read.err(),
        Some(JsonFault::At(999, ItemFault::Length(1))),
    );
}
