//! What callers of the crates above sets can rely on, each as a function that learns it from the public contracts alone:
//! [`run_set`] those that both kinds of set have, [`paged`], [`paged_operations`] and [`retained`] those of `ivl_paged` alone,
//! [`json`] those of `ivl_json`, [`expr`] those of `ivl_expr`.
#![tactic(auto)]

pub mod expr;
pub mod json;
pub mod paged;
pub mod paged_operations;
pub mod retained;
pub mod run_set;
