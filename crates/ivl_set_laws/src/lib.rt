//! The laws of interval sets, over sets of integers and lists of runs. Each function here does
//! nothing: its contract is the law.
#![tactic(auto)]

pub mod algebra;
pub mod arithmetic;
pub mod hulls;
pub mod lattice;
pub mod run_lists;
pub mod sets;
pub mod sizes;
