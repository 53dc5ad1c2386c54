//! What callers of sets can rely on, each as a function that learns it from the public contracts alone.
//!
//! [`sets`] gives the result of each trait for sets, in plain lists of runs; [`numbers`] gives the numbers of the ten
//! integer types, and what a value of each overlaps; [`laws`] carries the laws over sets of numbers to the results of
//! calls; [`collect`] makes sets of every form that converts; [`reads`] queries sets for neighbours, room and runs, and
//! [`members`] iterates over their members.
#![tactic(auto)]

pub mod collect;
pub mod edits;
pub mod laws;
pub mod members;
pub mod numbers;
pub mod reads;
pub mod sets;
pub mod tested;
pub mod windows;
