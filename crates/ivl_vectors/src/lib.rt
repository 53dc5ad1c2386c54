//! Bound types that a user could write.
//!
//! Intervals and sets are proved for any bound type that keeps the laws of `Width`. This crate has two, [`bit`] and
//! [`narrow`], which keep these laws by the public contracts alone; [`ranges`] pins their ranges in plain numbers.
//! `ivl_json_replay` replays answers of JSON over both.
#![tactic(auto)]

pub mod bit;
pub mod narrow;
pub mod ranges;
