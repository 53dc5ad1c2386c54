//! A calculator over registers that hold interval sets.
//!
//! A list of commands gets the answers that it would get over plain sets of numbers. The contract
//! of [`Calc::run`] states this.
//!
//! ```
//! let mut calc = Calc::new(alloc, 2)?;
//! calc.apply(&Command::Set(0, vec![in alloc; (1, 2), (3, 5)]?));
//! calc.apply(&Command::Union(1, 0, 1));
//! let reply = calc.apply(&Command::Size(1));    // Reply::Size(5)
//! ```
#![tactic(auto)]

mod calc;
mod command;
pub mod laws;
mod reply;

pub use calc::Calc;
pub use command::Command;
pub use reply::{Refusal, Reply};
