//! Constraints as rules: each is the rule of a sum.
ghost use Rattle.std.specs.Prelude.{◌≡◌, IfOk, map};
ghost use Rattle.ivl_store.specs.Narrowing.{first_unknown_of};
ghost use Rattle.ivl_rules.specs.declared.rules.Rule.TheVariants.{Sum};
ghost use Rattle.ivl_search.specs.Points.{first_unknown_or as unknown_or};

use ivl_rules::rules::Rule;
use ivl_store::store::Constraint;
use std::alloc::{AllocError, Global};

/// Returns the first index of the constraints that is not below `count`, or `None` if all are.
pub(super) fn first_unknown(constraints: &[Constraint], count: usize) -> Option<usize>
    ensures { result ≡ first_unknown_of count constraints.now }
{
    for constraint in constraints {
        if let Some(i) = constraint.first_unknown(count) {
            return Some(i);
        }
    }
    None
}

/// Returns the first such index, or else the variable if it is not below `count`.
pub(super) fn first_unknown_or(
    variable: usize,
    count: usize,
    constraints: &[Constraint],
) -> Option<usize>
    ensures { result ≡ unknown_or variable count constraints.now }
{
    match first_unknown(constraints, count) {
        None if variable >= count => Some(variable),
        unknown => unknown,
    }
}

/// Returns the rules of the constraints, in their order.
pub(super) fn rules_of(alloc: Global, constraints: &[Constraint]) -> Result<Vec<Rule>, AllocError>
    ensures { IfOk result (λ rules. rules.items ≡ map Sum constraints.now) }
{
    let mut rules = Vec::with_capacity(alloc, constraints.len())?;
    for constraint in constraints {
        rules.push(Rule::Sum(*constraint))?;
    }
    Ok(rules)
}
