//! What callers of JSON can rely on.
//!
//! [`callers`] know a type by the bound `JsonForm`; [`intervals`] and [`sets`] say what the JSON form of these types
//! is, in plain words; [`faults`] says what `?` converts a fault to; [`texts`] carries values through their text.

pub mod callers;
pub mod faults;
pub mod intervals;
pub mod sets;
pub mod texts;
