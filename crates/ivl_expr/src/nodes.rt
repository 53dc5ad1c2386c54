//! Evaluation, node by node.
ghost use Rattle.std.specs.Prelude.{◌≡◌, ◌≢◌, ◌↔◌, ℕ, ℤ, All, IfOk, Some, length};
ghost use Rattle.ivl_laws.specs.Families.{set_at};
ghost use Rattle.ivl_laws.specs.Runs.{Covers, IsRunListIn, IsRunsOf};
ghost use Rattle.ivl_laws.specs.Sets.{Differences, HasSome, IsBetween, IsSubset, Only, Products, Sums, Without};
ghost use Rattle.ivl_expr.specs.NodeSets.{VariablesBelow, IsNodeSet, runs_of};
ghost use Rattle.ivl_expr.specs.Nodes.{AllNodesIn, Node, SomeNodeOutside};
ghost use Rattle.ivl_expr.specs.Values.{Values};
ghost use Rattle.ivl_expr.specs.Variables.{NoProduct, ReadOnce, first_missing};

use crate::expr::Expr;
use crate::fault::EvalFault;
use intervallum::interval::Interval;
use intervallum::interval_set::IntervalSet;
use intervallum::ops::{Contains, Fits, Whole};
use intervallum::width::Width;
use std::alloc::{AllocError, Global};

/// Evaluates an expression: returns its node set, with `sets[i]` as the set of variable `i`.
///
/// Every value of the expression is a member. If [`Expr::read_once`] returns true, both ends of
/// each run are values; if also [`Expr::has_product`] returns false, all members are values. The
/// set of a variable that does not occur may be any set, even an empty one.
///
/// Costs what the operators do: a sum, difference or product of operands with `n` and `m` runs
/// takes `O(n m log (n m))`, and reserves at most twice `n * m` runs. The set of a variable is
/// borrowed, and copied only if the expression is that variable; the set of an operand is dropped
/// once the set of its node is made. Uses stack in proportion to the depth of the expression.
///
/// # Errors
///
/// `sets` is unchanged after an error.
///
/// - [`EvalFault::Missing`] for the leftmost variable that has no set. This is checked first, and
///   does not allocate.
/// - [`EvalFault::Range`] if the set of some node has a member outside the range of the type, even
///   if the value returns to the range further up, or the other operand is empty. A constant is
///   such a node too. Check with `Interval::whole().contains`, and with `fits_add`, `fits_sub` and
///   `fits_mul` of the operands' sets.
/// - [`EvalFault::Memory`] if an allocation fails.
///
/// Nodes are evaluated from the left, operands first; of `Range` and `Memory`, the one that is met
/// first is returned.
///
/// ```
/// let sum = Expr::Add(Box::new(alloc, Expr::Var(0))?, Box::new(alloc, Expr::Var(1))?);
/// let sets: [IntervalSet<i32>; 2] = [IntervalSet::new(alloc, 1, 2)?, IntervalSet::new(alloc, 10, 20)?];
/// assert!(rt; eval(alloc, &sum, &sets)? == IntervalSet::new(alloc, 11, 22)?);
/// assert!(rt; eval(alloc, &sum, &sets[..1]).is_err_and(|f| f == EvalFault::Missing(1)));
/// ```
pub fn eval<B: Width>(
    alloc: Global,
    expr: &Expr<B>,
    sets: &[IntervalSet<B>],
) -> Result<IntervalSet<B>, EvalFault>
    // The leftmost variable without a set is reported before anything else, and `Range` only if the set of some node
    // leaves the range.
    ensures missing { (i : ℕ) → (result ≡ Err (EvalFault.Missing i)) ↔ (first_missing (length sets.now) expr.now ≡ Some i) }
    ensures range { result ≡ Err EvalFault.Range → SomeNodeOutside B.whole B.value expr.now (set_at sets.now) }
    // On success, the members are exactly those of the node of the expression, and the set of no node leaves the range.
    ensures nodes { IfOk result (λ _. AllNodesIn B.whole B.value expr.now (set_at sets.now)) }
    ensures members { IfOk result (λ L. IsRunsOf L (Node B.value expr.now (set_at sets.now))) }
    // They include every value; if no variable repeats, the ends of the runs are values, and without products all
    // members.
    ensures values { IfOk result (λ L. IsSubset (Values B.value expr.now (set_at sets.now)) (Covers L)) }
    ensures ends { ReadOnce expr.now → IfOk result (λ L. All (λ run. Values B.value expr.now (set_at sets.now) run.0 × Values B.value expr.now (set_at sets.now) run.1) L) }
    ensures exact { ReadOnce expr.now → NoProduct expr.now → IfOk result (λ L. IsRunsOf L (Values B.value expr.now (set_at sets.now))) }
{
    if let Some(i) = expr.first_missing(sets.len()) {
        return Err(EvalFault::Missing(i));
    }
    Ok(node_set(alloc, expr, sets)?.into_set()?)
}

/// The set of a node: borrowed for a variable, and made for any other node.
#[derive(Drop)]
enum NodeSet<'a, B: Width> {
    Lent(&'a IntervalSet<B>),
    Made(IntervalSet<B>),
}

impl<'a, B: Width> NodeSet<'a, B> {
    fn lend(set: &'a IntervalSet<B>) -> Self
        ensures lent { runs_of result ≡ set.now }
        ensures runs { IsRunListIn B.whole set.now }
    {
        set.in_whole();
        NodeSet::Lent(set)
    }

    fn as_set(&self) -> &IntervalSet<B>
        ensures { result.now ≡ runs_of self.now }
    {
        match self {
            NodeSet::Lent(set) => set,
            NodeSet::Made(set) => set,
        }
    }

    fn into_set(self) -> Result<IntervalSet<B>, AllocError>
        ensures { IfOk result (λ L. L ≡ runs_of self.entry) }
    {
        match self {
            NodeSet::Lent(set) => set.try_clone(),
            NodeSet::Made(set) => Ok(set),
        }
    }
}

fn constant<B: Width>(alloc: Global, c: B) -> Result<IntervalSet<B>, EvalFault>
    ensures present { (i : ℕ) → result ≢ Err (EvalFault.Missing i) }
    ensures range { result ≡ Err EvalFault.Range → HasSome (Without (Only (B.value c)) (IsBetween B.whole)) }
    ensures within { IfOk result (λ _. IsSubset (Only (B.value c)) (IsBetween B.whole)) }
    ensures members { IfOk result (λ L. IsRunsOf L (Only (B.value c))) }
{
    if !Interval::whole().contains(&c) {
        return Err(EvalFault::Range);
    }
    Ok(IntervalSet::singleton(alloc, c)?)
}

fn sum<B: Width>(a: &IntervalSet<B>, b: &IntervalSet<B>) -> Result<IntervalSet<B>, EvalFault>
    ensures present { (i : ℕ) → result ≢ Err (EvalFault.Missing i) }
    ensures range { result ≡ Err EvalFault.Range → HasSome (Without (Sums (Covers a.now) (Covers b.now)) (IsBetween B.whole)) }
    ensures within { IfOk result (λ _. IsSubset (Sums (Covers a.now) (Covers b.now)) (IsBetween B.whole)) }
    ensures members { IfOk result (λ L. IsRunsOf L (Sums (Covers a.now) (Covers b.now))) }
{
    if !a.fits_add(b) {
        return Err(EvalFault::Range);
    }
    Ok((a + b)?)
}

fn difference<B: Width>(a: &IntervalSet<B>, b: &IntervalSet<B>) -> Result<IntervalSet<B>, EvalFault>
    ensures present { (i : ℕ) → result ≢ Err (EvalFault.Missing i) }
    ensures range { result ≡ Err EvalFault.Range → HasSome (Without (Differences (Covers a.now) (Covers b.now)) (IsBetween B.whole)) }
    ensures within { IfOk result (λ _. IsSubset (Differences (Covers a.now) (Covers b.now)) (IsBetween B.whole)) }
    ensures members { IfOk result (λ L. IsRunsOf L (Differences (Covers a.now) (Covers b.now))) }
{
    if !a.fits_sub(b) {
        return Err(EvalFault::Range);
    }
    Ok((a - b)?)
}

fn product<B: Width>(a: &IntervalSet<B>, b: &IntervalSet<B>) -> Result<IntervalSet<B>, EvalFault>
    ensures present { (i : ℕ) → result ≢ Err (EvalFault.Missing i) }
    ensures range { result ≡ Err EvalFault.Range → HasSome (Without (Products (Covers a.now) (Covers b.now)) (IsBetween B.whole)) }
    ensures within { IfOk result (λ _. IsSubset (Products (Covers a.now) (Covers b.now)) (IsBetween B.whole)) }
    ensures members { IfOk result (λ L. IsRunsOf L (Products (Covers a.now) (Covers b.now))) }
{
    if !a.fits_mul(b) {
        return Err(EvalFault::Range);
    }
    Ok((a * b)?)
}

/// The set of a node whose variables all have sets.
fn node_set<'a, B: Width>(
    alloc: Global,
    expr: &Expr<B>,
    sets: &'a [IntervalSet<B>],
) -> Result<NodeSet<'a, B>, EvalFault>
    requires { VariablesBelow (length sets.now) expr.now }
    ensures present { (i : ℕ) → result ≢ Err (EvalFault.Missing i) }
    ensures range { result ≡ Err EvalFault.Range → SomeNodeOutside B.whole B.value expr.now (set_at sets.now) }
    ensures is { IfOk result (λ s. IsNodeSet B.whole B.value expr.now (set_at sets.now) (runs_of s)) }
{
    match expr {
        Expr::Var(i) => Ok(NodeSet::lend(&sets[*i])),
        Expr::Const(c) => Ok(NodeSet::Made(constant(alloc, *c)?)),
        Expr::Add(a, b) => {
            let (left, right) = (node_set(alloc, a, sets)?, node_set(alloc, b, sets)?);
            Ok(NodeSet::Made(sum(left.as_set(), right.as_set())?))
        }
        Expr::Sub(a, b) => {
            let (left, right) = (node_set(alloc, a, sets)?, node_set(alloc, b, sets)?);
            Ok(NodeSet::Made(difference(left.as_set(), right.as_set())?))
        }
        Expr::Mul(a, b) => {
            let (left, right) = (node_set(alloc, a, sets)?, node_set(alloc, b, sets)?);
            Ok(NodeSet::Made(product(left.as_set(), right.as_set())?))
        }
    }
}
