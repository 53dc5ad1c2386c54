//! Places in lists of runs, the words and lemmas: where a number, a neighbour, a fit or a window lies among the runs, how many
//! members lie before it, and what the list is after an edit there.
#![tactic(auto)]

pub mod place;
