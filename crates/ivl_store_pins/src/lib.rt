//! What callers of a store, of rules, of linear rules, of a network and of a search can rely on, each as a function that learns it from the
//! public contracts alone. None of these needs a hand-written proof.
#![tactic(auto)]

pub mod linear;
pub mod network;
pub mod rule_search;
pub mod rules;
pub mod search;
pub mod store;
