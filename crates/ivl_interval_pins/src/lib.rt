//! What callers of intervals can rely on, each as a function that learns it from the public contracts alone.
//!
//! [`callers`] know a type by one trait bound; [`intervals`] gives the result of each trait for intervals, in plain
//! numbers; [`ranges`] gives the ranges of the ten integer types, [`full_values`] those of the unsigned integers with every
//! value of their type, and [`characters`] and [`addresses`] the numbers of characters and IPv4 addresses.
#![tactic(auto)]

pub mod addresses;
pub mod callers;
pub mod characters;
pub mod full_values;
pub mod intervals;
pub mod ranges;
