//! The calculator, windows and the domain store under one name.
//!
//! [`Calc`], also in [`calc`], carries out commands over registers that hold interval sets. [`within`] has the sums
//! and differences of sets, cut to the range or to a window, and [`store`] narrows domains by
//! constraints `x + y = z`. A program that needs only the calculator depends on `ivl_calculator`,
//! and does not wait for the proof of the store.
//!
//! ```
//! let mut calc: Calc<i64> = Calc::new(alloc, 2)?;
//! calc.apply(&Command::Set(0, vec![in alloc; (1, 2), (3, 5)]?));
//! calc.apply(&Command::Union(1, 0, 1));
//! let reply = calc.apply(&Command::Size(1));    // Reply::Size(5)
//! ```
#![tactic(auto)]

pub mod calc;

pub use calc::{Calc, Command, Refusal, Reply, laws};
pub use ivl_store::store;
pub use ivl_within::within;
