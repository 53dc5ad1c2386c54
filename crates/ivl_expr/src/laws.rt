//! The laws of values and node sets, over the definitions that the contract of
//! [`eval`](crate::eval) cites. Each function here does nothing: its contract is the law.
ghost use Rattle.std.specs.Prelude.{ℕ, ℤ, List};
ghost use Rattle.ivl_laws.specs.Families.{set_at};
ghost use Rattle.ivl_laws.specs.Runs.{Covers, IsRunsOf};
ghost use Rattle.ivl_laws.specs.Sets.{IsSubset, SameMembers};
ghost use Rattle.ivl_expr.specs.declared.expr.Expr.{Expr};
ghost use Rattle.ivl_expr.specs.Nodes.{HoldsNodes, Node};
ghost use Rattle.ivl_expr.specs.Values.{Values};
ghost use Rattle.ivl_expr.specs.Variables.{NoProduct, Occurs, ReadOnce};

use crate::expr::Expr;
use intervallum::width::Width;

/// Each value of an expression lies in its node set.
pub fn values_lie_in_node<B: Width>(expr: &Expr<B>)
    ensures { (sets : List (List (ℤ × ℤ))) → IsSubset (Values B.value expr.now (set_at sets)) (Node B.value expr.now (set_at sets)) }
{}

/// If the sets of the variables that occur grow, so do the values and the node set of an
/// expression. So an analysis that widens its sets stays sound: what holds for all members of the
/// wider answer holds for those of the narrower one.
pub fn wider_sets_give_more<B: Width>(expr: &Expr<B>)
    ensures values { (sets wider : List (List (ℤ × ℤ))) → ((i : ℕ) → Occurs i expr.now → IsSubset (set_at sets i) (set_at wider i)) →
        IsSubset (Values B.value expr.now (set_at sets)) (Values B.value expr.now (set_at wider)) }
    ensures nodes { (sets wider : List (List (ℤ × ℤ))) → ((i : ℕ) → Occurs i expr.now → IsSubset (set_at sets i) (set_at wider i)) →
        IsSubset (Node B.value expr.now (set_at sets)) (Node B.value expr.now (set_at wider)) }
    ensures answers { (sets wider : List (List (ℤ × ℤ))) (L M : List (ℤ × ℤ)) → ((i : ℕ) → Occurs i expr.now → IsSubset (set_at sets i) (set_at wider i)) →
        IsRunsOf L (Node B.value expr.now (set_at sets)) → IsRunsOf M (Node B.value expr.now (set_at wider)) → IsSubset (Covers L) (Covers M) }
{}

/// If no variable repeats and there is no product, the node set has exactly the values.
pub fn node_is_exact<B: Width>(expr: &Expr<B>)
    ensures { (sets : List (List (ℤ × ℤ))) → ReadOnce expr.now → NoProduct expr.now →
        SameMembers (Node B.value expr.now (set_at sets)) (Values B.value expr.now (set_at sets)) }
{}

/// Node sets are the least that hold what each node is made of: the sums and differences of the
/// operands' members, and all that lies between two products of factors from one run of each
/// operand.
pub fn node_is_least<B: Width>()
    ensures holds { (sets : List (List (ℤ × ℤ))) → HoldsNodes B.value (λ e. Node B.value e (set_at sets)) (set_at sets) }
    ensures least { (sets : List (List (ℤ × ℤ))) (F : Expr B → List (ℤ × ℤ)) → HoldsNodes B.value (λ e. Covers (F e)) (set_at sets) →
        (e : Expr B) → IsSubset (Node B.value e (set_at sets)) (Covers (F e)) }
{}
