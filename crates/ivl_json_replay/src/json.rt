//! The calls of JSON that the files name.

use crate::answer::{interval_text, runs_text};
use crate::fact::Fact;
use crate::read::{interval, set};
use crate::unanswered::Unanswered;
use intervallum::width::Width;
use intervallum::{Interval, IntervalSet};
use ivl_json::JsonForm;
use serde_json::Value;
use std::alloc::{AllocError, Global};
use std::fmt::Display;
use std::str::FromStr;

/// What the call of a fact answers here, as the file writes it.
pub fn answer<B>(alloc: Global, fact: &Fact<'_>) -> Result<String, Unanswered>
where
    B: Width + FromStr + Display,
    B::Err: Drop,
{
    let operand = fact.operand;
    let text = match fact.call {
        "json_interval" => read_interval::<B>(alloc, &parsed(alloc, operand)?),
        "json_set" => read_set::<B>(alloc, &parsed(alloc, operand)?),
        "json_write_interval" => {
            let interval = interval::<B>(operand).ok_or(Unanswered::Unknown)?;
            written(alloc, &interval)
        }
        "json_write_set" => written(alloc, &set::<B>(alloc, operand)?),
        _ => return Err(Unanswered::Unknown),
    };
    Ok(text?)
}

/// The value of a JSON text.
fn parsed(alloc: Global, text: &str) -> Result<Value, Unanswered> {
    match Value::from_str(alloc, text) {
        Ok(value) => Ok(value),
        Err(error) if error.is_memory() => Err(Unanswered::Memory),
        Err(_) => Err(Unanswered::Unknown),
    }
}

/// The bounds of the interval that a value reads as, or the fault.
fn read_interval<B: Width + Display>(alloc: Global, value: &Value) -> Result<String, AllocError> {
    match Interval::<B>::from_value(alloc, value) {
        Ok(run) => interval_text(alloc, &run),
        Err(fault) => format!(in alloc; "{fault}"),
    }
}

/// The runs of the set that a value reads as, or the fault.
fn read_set<B: Width + Display>(alloc: Global, value: &Value) -> Result<String, AllocError> {
    match IntervalSet::<B>::from_value(alloc, value) {
        Ok(set) => runs_text(alloc, &set),
        Err(fault) => format!(in alloc; "{fault}"),
    }
}

/// The text of what a value is written as.
fn written<T: JsonForm>(alloc: Global, value: &T) -> Result<String, AllocError> {
    value.to_value(alloc)?.to_string(alloc)
}
