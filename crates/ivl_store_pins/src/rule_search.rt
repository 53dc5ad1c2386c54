//! What the calls of a search by rules mean.
ghost use Rattle.std.specs.Prelude.{◌≡◌, ◌≢◌, ◌≤◌, ◌<◌, ℕ, ℤ, List, All, Contains, IfNone, IfOk, IfSome, IsNone, IsSome, length, map, option_map};
ghost use Rattle.ivl_rules.specs.Rules.{AreDifferent};
ghost use Rattle.ivl_search.specs.Budget.{nodes_enough, nodes_for_best};
ghost use Rattle.ivl_search.specs.Points.{EachOnce, Finds, IsGreatestAt, IsLeastAt, RisesTo, SolvesRules};

use intervallum::interval_set::IntervalSet;
use intervallum::width::Width;
use ivl_rules::rules::Rule;
use ivl_search::search::{Best, End, Found, Limits, SearchFault, rules as by_rules};
use std::alloc::Global;

/// Returns all solutions, each once, if each rule is tested to name each of its variables once, and
/// the limits allow it.
pub fn all_solutions<B: Width>(
    alloc: Global,
    domains: &[IntervalSet<B>],
    rules: &[Rule],
    limits: Limits,
) -> Result<Option<Vec<Vec<B>>>, SearchFault>
    ensures sound { IfOk result (λ o. IfSome o (λ points. All (SolvesRules rules.now domains.now) (map (λ point. map B.value point.items) points.items))) }
    ensures once { IfOk result (λ o. IfSome o (λ points. EachOnce (map (λ point. map B.value point.items) points.items))) }
    ensures all { IfOk result (λ o. IfSome o (λ points. (point : List ℤ) → SolvesRules rules.now domains.now point → Contains (map (λ point. map B.value point.items) points.items) point)) }
    ensures none { IfOk result (λ o. IsNone o → All AreDifferent rules.now → nodes_enough B.whole rules.now domains.now ≤ limits.nodes
        → (points : List (List ℤ)) × (length points ≡ limits.solutions) × All (SolvesRules rules.now domains.now) points × EachOnce points) }
{
    if !by_rules::all_different(rules) {
        return Ok(None);
    }
    let found = by_rules::solutions(alloc, domains, rules, limits)?;
    match found.end {
        End::All => Ok(Some(found.points)),
        End::Solutions | End::Nodes => Ok(None),
    }
}

/// Returns what was found by the call that tests the rules itself.
pub fn some_solutions<B: Width>(
    alloc: Global,
    domains: &[IntervalSet<B>],
    rules: &[Rule],
    limits: Limits,
) -> Result<Option<Found<B>>, SearchFault>
    ensures none { IfOk result (λ o. IsNone o → ¬ (All AreDifferent rules.now)) }
    ensures sound { IfOk result (λ o. IfSome o (λ found. All (SolvesRules rules.now domains.now) (map (λ point. map B.value point.items) found.points.items))) }
    ensures all { IfOk result (λ o. IfSome o (λ found. found.end ≡ End.All → (point : List ℤ) → SolvesRules rules.now domains.now point → Contains (map (λ point. map B.value point.items) found.points.items) point)) }
    ensures enough { IfOk result (λ o. IfSome o (λ found. nodes_enough B.whole rules.now domains.now ≤ limits.nodes → found.end ≢ End.Nodes)) }
{
    by_rules::try_solutions(alloc, domains, rules, limits)
}

/// Returns how many solutions there are, if the limits allow it.
pub fn number_of_solutions<B: Width>(
    alloc: Global,
    domains: &[IntervalSet<B>],
    rules: &[Rule],
    limits: Limits,
) -> Result<Option<usize>, SearchFault>
    requires { All AreDifferent rules.now }
    ensures counted { IfOk result (λ o. IfSome o (λ n. (points : List (List ℤ)) × (length points ≡ n) × Finds (SolvesRules rules.now domains.now) points End.All)) }
    ensures none { IfOk result (λ o. IsNone o → nodes_enough B.whole rules.now domains.now ≤ limits.nodes
        → (points : List (List ℤ)) × (length points ≡ limits.solutions) × All (SolvesRules rules.now domains.now) points × EachOnce points) }
{
    let (count, end) = by_rules::count(alloc, domains, rules, limits)?;
    if end == End::All {
        Ok(Some(count))
    } else {
        Ok(None)
    }
}

/// Returns a solution with the least number for a variable, or that there is no solution. `None` only if
/// a limit may have stopped the search.
pub fn least_solution<B: Width>(
    alloc: Global,
    domains: &[IntervalSet<B>],
    rules: &[Rule],
    variable: usize,
    limits: Limits,
) -> Result<Option<Option<Vec<B>>>, SearchFault>
    requires { All AreDifferent rules.now }
    ensures sound { IfOk result (λ o. IfSome o (λ found. IfSome found (λ point. SolvesRules rules.now domains.now (map B.value point.items)))) }
    ensures least { IfOk result (λ o. IfSome o (λ found. IfSome found (λ point. IsLeastAt variable (SolvesRules rules.now domains.now) (map B.value point.items)))) }
    ensures none { IfOk result (λ o. IfSome o (λ found. IfNone found ((point : List ℤ) → ¬ (SolvesRules rules.now domains.now point)))) }
    ensures sure { IfOk result (λ o. nodes_for_best B.whole rules.now domains.now ≤ limits.nodes → limits.nodes < limits.solutions → IsSome o) }
{
    let best = by_rules::least(alloc, domains, rules, variable, limits)?;
    match best.end {
        End::All => Ok(Some(best.point)),
        End::Solutions => Ok(None),
        End::Nodes => Ok(None),
    }
}

/// Returns a solution with the greatest number for a variable, or the best that was found. It was found
/// last of as many as the limit allows, each with a greater number, if the search was stopped by that.
pub fn greatest_solution<B: Width>(
    alloc: Global,
    domains: &[IntervalSet<B>],
    rules: &[Rule],
    variable: usize,
    limits: Limits,
) -> Result<Best<B>, SearchFault>
    requires { All AreDifferent rules.now }
    ensures sound { IfOk result (λ best. IfSome best.point (λ point. SolvesRules rules.now domains.now (map B.value point.items))) }
    ensures greatest { IfOk result (λ best. best.end ≡ End.All → IfSome best.point (λ point. IsGreatestAt variable (SolvesRules rules.now domains.now) (map B.value point.items))) }
    ensures none { IfOk result (λ best. best.end ≡ End.All → IfNone best.point ((point : List ℤ) → ¬ (SolvesRules rules.now domains.now point))) }
    ensures full { IfOk result (λ best. best.end ≡ End.Solutions → RisesTo variable (SolvesRules rules.now domains.now) limits.solutions (option_map (λ point. map B.value point.items) best.point)) }
    ensures enough { IfOk result (λ best. nodes_for_best B.whole rules.now domains.now ≤ limits.nodes → best.end ≢ End.Nodes) }
{
    by_rules::greatest(alloc, domains, rules, variable, limits)
}
