//! Lists of intervals in any order, and the results over each pair of runs of two sets, the words and lemmas: the images of sums,
//! differences and products, and the runs that they make.
#![tactic(auto)]

pub mod op;
