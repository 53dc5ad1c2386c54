//! Merges of lists of runs: union, intersection, difference, symmetric difference and complement, over
//! slices of whatever is a run, and into whatever list of runs grows.
#![tactic(auto)]

pub mod merges;
pub mod pair;
pub mod sink;
