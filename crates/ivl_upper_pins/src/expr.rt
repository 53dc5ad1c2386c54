//! What callers of expressions can rely on.
//!
//! [`bounds`] is a range analysis: it shows that no index is out of bounds. [`answers`] says in plain words what `eval`
//! returns, and [`shapes`] what the queries of an expression return.
ghost use Rattle.std.specs.Prelude.{◌≡◌, IfOk};

pub mod answers;
pub mod bounds;
pub mod shapes;

use intervallum::width::Width;
use ivl_expr::Expr;
use std::alloc::{AllocError, Global};

/// An operand in a box.
pub(crate) fn operand<B: Width>(alloc: Global, expr: Expr<B>) -> Result<Box<Expr<B>>, AllocError>
    ensures { IfOk result (λ b. b.value ≡ expr) }
{
    Ok(Box::new(alloc, expr)?)
}
