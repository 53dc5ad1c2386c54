//! Expressions over interval sets, for range analysis.
//!
//! An [`Expr`] is built of variables, constants, sums, differences and products. [`eval`] takes a set
//! for each variable and returns the *node set* of the expression:
//!
//! - a variable has its set, and a constant itself alone;
//! - a sum or a difference has exactly the sums or differences of its operands' node sets;
//! - a product has, for each run of the one and each run of the other, the numbers from the least to
//!   the greatest product.
//!
//! The node set holds every value that the expression takes where each variable is a member of its
//! set. How much more it may hold depends on the form of the expression:
//!
//! - Where no variable occurs twice, as [`Expr::read_once`] tests, both ends of each run are values.
//! - Where there is also no product, as [`Expr::has_product`] tests, every member is a value.
//! - A variable that occurs twice counts as two: `(x + y) - x` over x in `[1..2]` and y in `[5..5]` has
//!   the node set `[4..6]`, and 5 is its only value.
//! - A product fills its runs: `x * y` over x in `[0..1]` and y in `[3..5]` has the node set `[0..5]`;
//!   0 and 5 are values, and 1 and 2 are not.
//!
//! The functions of [`laws`] carry what holds of values and node sets whatever the expression.
#![tactic(auto)]

mod expr;
mod fault;
pub mod laws;
mod nodes;

pub use expr::Expr;
pub use fault::EvalFault;
pub use nodes::eval;
