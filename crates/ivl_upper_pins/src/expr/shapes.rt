//! Which variables and products occur in small expressions.
ghost use Rattle.std.specs.Prelude.{◌≡◌, ◌≢◌, ◌↔◌, ◌⊎◌, IfOk, IsTrue};

use super::operand;
use intervallum::width::Width;
use ivl_expr::Expr;
use std::alloc::{AllocError, Global};

/// Returns true exactly when the variable is one of the two in the sum.
pub fn occurs_in_a_sum<B: Width>(
    alloc: Global,
    i: usize,
    j: usize,
    k: usize,
) -> Result<bool, AllocError>
    ensures { IfOk result (λ r. IsTrue r ↔ ((i ≡ k) ⊎ (j ≡ k))) }
{
    let sum = Expr::<B>::Add(operand(alloc, Expr::Var(i))?, operand(alloc, Expr::Var(j))?);
    Ok(sum.occurs(k))
}

/// Returns false: no variable occurs in a constant.
pub fn occurs_in_a_constant<B: Width>(c: B, k: usize) -> bool
    ensures { ¬ (IsTrue result) }
{
    Expr::Const(c).occurs(k)
}

/// Returns true exactly when the two variables of the difference differ.
pub fn difference_is_read_once<B: Width>(
    alloc: Global,
    i: usize,
    j: usize,
) -> Result<bool, AllocError>
    ensures { IfOk result (λ r. IsTrue r ↔ (i ≢ j)) }
{
    let difference = Expr::<B>::Sub(operand(alloc, Expr::Var(i))?, operand(alloc, Expr::Var(j))?);
    Ok(difference.read_once())
}

/// Returns true: the product below the sum is found.
pub fn product_below_a_sum<B: Width>(alloc: Global, i: usize, j: usize) -> Result<bool, AllocError>
    ensures { IfOk result IsTrue }
{
    let product = Expr::<B>::Mul(operand(alloc, Expr::Var(i))?, operand(alloc, Expr::Var(j))?);
    let sum = Expr::Add(operand(alloc, Expr::Var(i))?, operand(alloc, product)?);
    Ok(sum.has_product())
}

/// Returns false: a sum of a variable and a constant has no product.
pub fn sum_with_a_constant<B: Width>(alloc: Global, i: usize, c: B) -> Result<bool, AllocError>
    ensures { IfOk result (λ r. ¬ (IsTrue r)) }
{
    let sum = Expr::Add(
        operand(alloc, Expr::Var(i))?,
        operand(alloc, Expr::Const(c))?,
    );
    Ok(sum.has_product())
}
