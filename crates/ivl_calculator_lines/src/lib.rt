//! A session of the calculator: reads command lines, carries them out over 26 registers that hold sets of whole numbers,
//! and writes one answer line for each.
#![tactic(auto)]

mod commands;
mod engine;
pub mod laws;
mod lines;
mod replies;

pub use engine::session;
pub use ivl_lines::SessionFault;
