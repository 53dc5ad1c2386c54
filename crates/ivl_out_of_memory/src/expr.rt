//! Evaluation, which allocates for each set that it makes.

use crate::runs::{DIFFERENCES, FIRST_RUNS, Runs, SUMS, is_of};
use intervallum::interval_set::IntervalSet;
use ivl_expr::{EvalFault, Expr, eval};
use std::alloc::{AllocError, Global};

/// Twice the differences.
const DOUBLED: Runs = &[
    (-80, -76),
    (-72, -68),
    (-64, -48),
    (-44, -28),
    (-24, -20),
    (-16, -12),
    (-8, 24),
];

/// Whether the evaluation of this name gives the right set; none where there is no such.
pub fn call(
    alloc: Global,
    name: &str,
    a: &IntervalSet<i32>,
    b: &IntervalSet<i32>,
) -> Option<Result<bool, AllocError>> {
    Some(match name {
        "eval_variable" => is_of(evaluated(alloc, Ok(Expr::Var(0)), a, b), FIRST_RUNS),
        "eval_sum" => is_of(evaluated(alloc, sum(alloc), a, b), SUMS),
        "eval_difference" => is_of(evaluated(alloc, difference(alloc), a, b), DIFFERENCES),
        "eval_doubled" => is_of(evaluated(alloc, doubled(alloc), a, b), DOUBLED),
        _ => return None,
    })
}

/// What `eval` answers over the two sets; no set where it changed one, or told another fault than a
/// failed allocation.
fn evaluated(
    alloc: Global,
    expr: Result<Expr<i32>, AllocError>,
    a: &IntervalSet<i32>,
    b: &IntervalSet<i32>,
) -> Result<IntervalSet<i32>, AllocError> {
    let expr = expr?;
    let sets = [a.try_clone()?, b.try_clone()?];
    let answer = refused_or_set(alloc, eval(alloc, &expr, &sets));
    if are(&sets, a, b) {
        answer
    } else {
        Ok(IntervalSet::empty(alloc))
    }
}

/// The sets are these two.
fn are(sets: &[IntervalSet<i32>], a: &IntervalSet<i32>, b: &IntervalSet<i32>) -> bool {
    match sets {
        [first, second] => first == a && second == b,
        _ => false,
    }
}

/// No set in place of another fault than a failed allocation.
fn refused_or_set(
    alloc: Global,
    answer: Result<IntervalSet<i32>, EvalFault>,
) -> Result<IntervalSet<i32>, AllocError> {
    match answer {
        Ok(set) => Ok(set),
        Err(EvalFault::Memory) => Err(AllocError),
        Err(_) => Ok(IntervalSet::empty(alloc)),
    }
}

/// The sum of the two sets.
fn sum(alloc: Global) -> Result<Expr<i32>, AllocError> {
    Ok(Expr::Add(
        Box::new(alloc, Expr::Var(0))?,
        Box::new(alloc, Expr::Var(1))?,
    ))
}

/// The difference of the two sets.
fn difference(alloc: Global) -> Result<Expr<i32>, AllocError> {
    Ok(Expr::Sub(
        Box::new(alloc, Expr::Var(0))?,
        Box::new(alloc, Expr::Var(1))?,
    ))
}

/// Twice that difference.
fn doubled(alloc: Global) -> Result<Expr<i32>, AllocError> {
    Ok(Expr::Mul(
        Box::new(alloc, difference(alloc)?)?,
        Box::new(alloc, Expr::Const(2))?,
    ))
}
