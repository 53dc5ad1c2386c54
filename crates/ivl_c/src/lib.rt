//! The calls of sets for C. They read arrays of runs, and write an array into the caller's buffer:
//! see `ivl_buffers`, which has the work. `bindings/c/intervallum.h` declares the calls.
#![tactic(auto)]

mod signed;
mod unsigned;
