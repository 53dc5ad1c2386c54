//! The trait of types that have a JSON form, and its errors.

pub use crate::faults::{ItemFault, JsonFault};
pub use crate::form::JsonForm;
