//! Reading and writing by example, with answers that were worked out by hand.
//!
//! The proof of a test pays for each assertion, and for each `?` with what is live there, so that
//! the tests are rows of texts, and share a few functions that have both.

mod docs;
mod memory;
mod reading;
mod texts;
mod writing;

use intervallum::interval_set::IntervalSet;
use intervallum::width::Width;
use ivl_json::json::{JsonFault, JsonForm};
use serde_json::Value;
use std::alloc::{AllocError, Global};
use std::fmt::{Debug, Display};
use std::process::Abort;

/// What memory was left for.
fn made<T: Drop>(rt: &impl Abort, made: Result<T, AllocError>) -> T {
    made.expect(rt, "memory is left")
}

/// A value is the one that is wanted.
fn check<T: PartialEq + Debug + Drop>(rt: &impl Abort, got: T, wanted: T) {
    assert_eq!(rt; got, wanted);
}

/// Several values are those that are wanted.
fn check_all<T: PartialEq + Debug>(rt: &impl Abort, got: &[T], wanted: &[T]) {
    assert_eq!(rt; got, wanted);
}

/// Two sets are equal.
fn check_same<B: Width>(rt: &impl Abort, got: &IntervalSet<B>, wanted: &IntervalSet<B>) {
    assert!(rt; got == wanted);
}

/// A value is printed as this text.
fn check_printed(rt: &(impl Alloc<A = Global> + Abort), value: &(impl Display), text: &str) {
    let printed = made(rt, format!(in rt.alloc(); "{value}"));
    assert_eq!(rt; printed.as_str(), text);
}

/// The value of a JSON text.
fn value_of(rt: &(impl Alloc<A = Global> + Abort), text: &str) -> Value {
    Value::from_str(rt.alloc(), text).expect(rt, "the text is JSON")
}

/// The JSON text that is written is this one.
fn check_written<T: JsonForm>(rt: &(impl Alloc<A = Global> + Abort), x: &T, text: &str) {
    let value = made(rt, x.to_value(rt.alloc()));
    let written = made(rt, value.to_string(rt.alloc()));
    assert_eq!(rt; written.as_str(), text);
}

/// What a value reads as, as it is printed; of a fault its text.
fn printed<T: JsonForm + Display + Drop>(
    alloc: Global,
    value: &Value,
) -> Result<String, AllocError> {
    match T::from_value(alloc, value) {
        Ok(read) => format!(in alloc; "{read}"),
        Err(fault) => format!(in alloc; "{fault}"),
    }
}

/// Each JSON text reads as what is printed as the second text of its row, or is refused with that
/// text.
fn check_read<T: JsonForm + Display + Drop>(
    rt: &(impl Alloc<A = Global> + Abort),
    rows: &[(&str, &str)],
) {
    for &(text, answer) in rows {
        let found = made(rt, printed::<T>(rt.alloc(), &value_of(rt, text)));
        assert_eq!(rt; found.as_str(), answer, "{text}");
    }
}

/// Each JSON text is refused for the fault of its row.
fn check_fault<T: JsonForm + Drop>(
    rt: &(impl Alloc<A = Global> + Abort),
    rows: &[(&str, JsonFault)],
) {
    for &(text, fault) in rows {
        let read = T::from_value(rt.alloc(), &value_of(rt, text));
        assert_eq!(rt; read.err(), Some(fault), "{text}");
    }
}
