//! Narrows the domains of variables by rules between them: reads lines and writes the answer to each.
#![tactic(auto)]

mod atomic;
mod different;
mod engine;
mod fault;
mod progress;
mod relation;
mod replies;
mod request;
mod solve;
mod solver;

pub use engine::session;
pub use ivl_lines::SessionFault;
