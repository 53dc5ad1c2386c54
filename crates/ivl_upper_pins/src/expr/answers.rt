//! What `eval` returns for small expressions.
ghost use Rattle.std.specs.Prelude.{◌≡◌, ◌≤◌, ◌⊎◌, All, IfOk, IfSome, length};
ghost use Rattle.ivl_laws.specs.Families.{set_at};
ghost use Rattle.ivl_laws.specs.Runs.{Covers, IsRunsOf};
ghost use Rattle.ivl_expr.specs.Values.{Values};
ghost use Rattle.ivl_laws.specs.Sets.{Differences, IsBetween, IsSubset, Only, Products, Sums};

use super::operand;
use intervallum::interval_set::IntervalSet;
use intervallum::width::Width;
use ivl_expr::{EvalFault, Expr, eval};
use std::alloc::{AllocError, Global};

/// Evaluates a variable: its set.
pub fn answer_of_a_variable<B: Width>(
    alloc: Global,
    i: usize,
    sets: &[IntervalSet<B>],
) -> Result<IntervalSet<B>, EvalFault>
    ensures missing { length sets.now ≤ i → result ≡ Err (EvalFault.Missing i) }
    ensures members { IfOk result (λ L. IsRunsOf L (set_at sets.now i)) }
{
    eval(alloc, &Expr::Var(i), sets)
}

/// Evaluates a constant: the set of it alone. Succeeds only if it is in the range, and fails with `Range` only if it is
/// not.
pub fn answer_of_a_constant<B: Width>(
    alloc: Global,
    c: B,
    sets: &[IntervalSet<B>],
) -> Result<IntervalSet<B>, EvalFault>
    ensures in_range { IfOk result (λ _. IsBetween B.whole (B.value c)) }
    ensures outside { result ≡ Err EvalFault.Range → ¬ (IsBetween B.whole (B.value c)) }
    ensures members { IfOk result (λ L. IsRunsOf L (Only (B.value c))) }
{
    eval(alloc, &Expr::Const(c), sets)
}

/// Evaluates a sum of two variables: the sums of their members.
pub fn answer_of_a_sum<B: Width>(
    alloc: Global,
    sets: &[IntervalSet<B>],
) -> Result<IntervalSet<B>, EvalFault>
    ensures { IfOk result (λ L. IsRunsOf L (Sums (set_at sets.now 0) (set_at sets.now 1))) }
{
    let sum = Expr::Add(operand(alloc, Expr::Var(0))?, operand(alloc, Expr::Var(1))?);
    eval(alloc, &sum, sets)
}

/// Evaluates a difference of two variables: the differences of their members.
pub fn answer_of_a_difference<B: Width>(
    alloc: Global,
    sets: &[IntervalSet<B>],
) -> Result<IntervalSet<B>, EvalFault>
    ensures { IfOk result (λ L. IsRunsOf L (Differences (set_at sets.now 0) (set_at sets.now 1))) }
{
    let difference = Expr::Sub(operand(alloc, Expr::Var(0))?, operand(alloc, Expr::Var(1))?);
    eval(alloc, &difference, sets)
}

/// Evaluates a product of two variables: all numbers between two products of factors from one run of each.
pub fn answer_of_a_product<B: Width>(
    alloc: Global,
    sets: &[IntervalSet<B>],
) -> Result<IntervalSet<B>, EvalFault>
    ensures { IfOk result (λ L. IsRunsOf L (Products (set_at sets.now 0) (set_at sets.now 1))) }
{
    let product = Expr::Mul(operand(alloc, Expr::Var(0))?, operand(alloc, Expr::Var(1))?);
    eval(alloc, &product, sets)
}

/// Evaluates a sum of two variables. If the left one has no set, the error names it, unless allocation fails.
pub fn leftmost_of_two_missing<B: Width>(
    alloc: Global,
    i: usize,
    j: usize,
    sets: &[IntervalSet<B>],
) -> Result<IntervalSet<B>, EvalFault>
    ensures { length sets.now ≤ i → (result ≡ Err (EvalFault.Missing i)) ⊎ (result ≡ Err EvalFault.Memory) }
{
    let sum = Expr::Add(operand(alloc, Expr::Var(i))?, operand(alloc, Expr::Var(j))?);
    eval(alloc, &sum, sets)
}

/// Evaluates an expression: each of its values is a member of the result.
pub fn every_value_is_a_member<B: Width>(
    alloc: Global,
    expr: &Expr<B>,
    sets: &[IntervalSet<B>],
) -> Result<IntervalSet<B>, EvalFault>
    ensures { IfOk result (λ L. IsSubset (Values B.value expr.now (set_at sets.now)) (Covers L)) }
{
    eval(alloc, expr, sets)
}

/// Evaluates an expression if no variable repeats: the least and the greatest member of the result are values.
pub fn ends_are_values<B: Width>(
    alloc: Global,
    expr: &Expr<B>,
    sets: &[IntervalSet<B>],
) -> Result<Option<IntervalSet<B>>, EvalFault>
    ensures { IfOk result (λ o. IfSome o (λ L. All (λ run. Values B.value expr.now (set_at sets.now) run.0 × Values B.value expr.now (set_at sets.now) run.1) L)) }
{
    if !expr.read_once() {
        return Ok(None);
    }
    Ok(Some(eval(alloc, expr, sets)?))
}

/// Evaluates an expression if it has no product and no variable repeats: the members of the result are exactly the
/// values.
pub fn members_are_values<B: Width>(
    alloc: Global,
    expr: &Expr<B>,
    sets: &[IntervalSet<B>],
) -> Result<Option<IntervalSet<B>>, EvalFault>
    ensures { IfOk result (λ o. IfSome o (λ L. IsRunsOf L (Values B.value expr.now (set_at sets.now)))) }
{
    if !expr.read_once() || expr.has_product() {
        return Ok(None);
    }
    Ok(Some(eval(alloc, expr, sets)?))
}

/// Returns `Memory` for a failed allocation.
pub fn fault_of_refused_memory(error: AllocError) -> EvalFault
    ensures { result ≡ EvalFault.Memory }
{
    EvalFault::from(error)
}
