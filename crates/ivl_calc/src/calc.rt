//! The calculator: registers, commands and replies.

pub use ivl_calculator::{Calc, Command, Refusal, Reply, laws};
