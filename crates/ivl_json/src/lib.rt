//! Intervals and interval sets as JSON values, both ways.
//!
//! [`JsonForm`] says what is written, what is accepted, and what is refused by which [`JsonFault`].
//!
//! ```
//! let value = Value::from_str(alloc, "[[3, 5], [1, 2]]")?;
//! let set = IntervalSet::<u8>::from_value(alloc, &value)?;
//! assert_eq!(rt; set.to_value(alloc)?.to_string(alloc)?.as_str(), "[[1,5]]");
//! ```
#![tactic(auto)]

pub mod faults;
pub mod form;
mod intervals;
pub mod json;
pub mod laws;
mod numbers;
mod sets;

pub use faults::{ItemFault, JsonFault};
pub use form::JsonForm;
