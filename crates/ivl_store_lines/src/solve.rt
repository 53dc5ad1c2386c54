//! The solutions of the rules over the domains, as a search finds them within the limit of a line.
ghost use Rattle.std.specs.Prelude.{◌≡◌, ◌≢◌, ◌<◌, ◌≤◌, ◌^◌, ◌-◌, ◌/◌, ℕ, ℤ, List, All, IfErr, IfNone, IfOk, IfSome, None, Some, length, map, option_map};
ghost use Rattle.ivl_search.specs.Budget.{nodes_enough, nodes_for_best};
ghost use Rattle.ivl_search.specs.Points.{Finds, SolvesRules};
ghost use Rattle.ivl_rules.specs.Rules.{AreDifferent};
ghost use Rattle.ivl_store_lines.specs.Faults.{told_of};
ghost use Rattle.ivl_store_lines.specs.Requests.{show};
ghost use Rattle.ivl_store_lines.specs.Solved.{HasNodes, IsBest, IsExtremeAt};
ghost use Rattle.ivl_store_lines.specs.Solving.{HasEmptyDomain, fault_of, domain_range};

use crate::fault::Fault;
use crate::solver::Solver;
use intervallum::interval_set::IntervalSet;
use ivl_rules::rules::Rule;
use ivl_search::search;
use ivl_search::search::{Best, End, Found, Limits, NARROWINGS_PER_NODE, SearchFault};
use std::alloc::{AllocError, Global};

/// Which number of a variable a search is for.
#[derive(Clone, Copy)]
pub enum Extreme {
    /// Its least one.
    Least,
    /// Its greatest one.
    Greatest,
}

impl Solver {
    /// Returns solutions, `most` of them at most, and how their search ended.
    pub fn solutions(&self, most: u64) -> Result<Found<i64>, AllocError>
        ensures finds { IfOk result (λ found. Finds (SolvesRules self.now.rules self.now.domains) (map (λ point. point.items) found.points.items) found.end) }
        ensures at_most { IfOk result (λ found. length found.points.items ≤ most) }
        ensures visited { IfOk result (λ found. length found.points.items ≤ self.now.limit / 500) }
        ensures full { IfOk result (λ found. found.end ≡ End.Solutions → length found.points.items ≡ most) }
        ensures known { IfOk result (λ found. HasEmptyDomain self.now → found.end ≡ End.All) }
        ensures enough { IfOk result (λ found. HasNodes (nodes_enough domain_range self.now.rules self.now.domains) self.now → found.end ≢ End.Nodes) }
    {
        if self.has_empty() {
            return Ok(Found {
                points: Vec::new(self.allocator()),
                end: End::All,
            });
        }
        let limits = self.limits(most as usize);
        match search::rules::solutions(self.allocator(), self.domains(), self.rules(), limits) {
            Ok(found) => Ok(found),
            Err(_) => Err(AllocError),
        }
    }

    /// Returns how many solutions there are, and how their search ended.
    pub fn count(&self) -> Result<(usize, End), AllocError>
        ensures found { IfOk result (λ counted. (points : List (List ℤ)) × (length points ≡ counted.0) × Finds (SolvesRules self.now.rules self.now.domains) points counted.1) }
        ensures visited { IfOk result (λ counted. counted.0 ≤ self.now.limit / 500) }
        ensures full { IfOk result (λ counted. counted.1 ≡ End.Solutions → counted.0 ≡ 2 ^ 64 - 1) }
        ensures known { IfOk result (λ counted. HasEmptyDomain self.now → counted.1 ≡ End.All) }
        ensures enough { IfOk result (λ counted. HasNodes (nodes_enough domain_range self.now.rules self.now.domains) self.now → counted.1 ≢ End.Nodes) }
    {
        if self.has_empty() {
            return Ok((0, End::All));
        }
        let limits = self.limits(usize::MAX);
        match search::rules::count(self.allocator(), self.domains(), self.rules(), limits) {
            Ok(counted) => Ok(counted),
            Err(_) => Err(AllocError),
        }
    }

    /// Returns a solution with the least or greatest number for a variable, and how the search for it
    /// ended. It has fewer nodes than it may find solutions, so it never ends with
    /// [`End::Solutions`].
    ///
    /// # Errors
    ///
    /// `Unknown` if no variable has the name, `Memory` if allocation fails.
    pub fn best<'a>(&self, name: &'a str, extreme: Extreme) -> Result<Best<i64>, Fault<'a>>
        ensures best { IfOk result (λ best. IsBest (IsExtremeAt extreme) name.now self.now (option_map (λ point. point.items) best.point) best.end) }
        ensures fault { IfErr result (λ fault. told_of fault ≡ fault_of (show (Some name.now)) self.now) }
    {
        let variable = self.known(name)?;
        if self.has_empty() {
            return Ok(none());
        }
        let limits = self.limits(usize::MAX);
        let (alloc, domains, rules) = (self.allocator(), self.domains(), self.rules());
        match best_of(alloc, domains, rules, variable, limits, extreme) {
            Ok(best) => Ok(best),
            Err(_) => Err(Fault::Memory),
        }
    }

    /// How long a search may go on.
    fn limits(&self, solutions: usize) -> Limits
        ensures solutions { result.solutions ≡ solutions }
        ensures nodes { result.nodes ≡ self.now.limit / 500 }
        ensures fewer { result.nodes < 2 ^ 64 - 1 }
    {
        let nodes = self.limit() / NARROWINGS_PER_NODE;
        Limits { solutions, nodes }
    }
}

/// Searches for the solution with the extreme number.
fn best_of(
    alloc: Global,
    domains: &[IntervalSet<i64>],
    rules: &[Rule],
    variable: usize,
    limits: Limits,
    extreme: Extreme,
) -> Result<Best<i64>, SearchFault>
    requires { All AreDifferent rules.now }
    ensures sound { IfOk result (λ best. IfSome best.point (λ point. SolvesRules rules.now domains.now (map (λ (x : ℤ). x) point.items))) }
    ensures best { IfOk result (λ best. best.end ≡ End.All → IfSome best.point (λ point. IsExtremeAt extreme variable (SolvesRules rules.now domains.now) (map (λ (x : ℤ). x) point.items))) }
    ensures none { IfOk result (λ best. best.end ≡ End.All → IfNone best.point ((point : List ℤ) → ¬ (SolvesRules rules.now domains.now point))) }
    ensures bounded { IfOk result (λ best. IfSome best.point (λ _. (1 ≤ limits.solutions) × (1 ≤ limits.nodes))) }
    ensures visited { IfOk result (λ best. best.end ≡ End.Solutions → limits.solutions ≤ limits.nodes) }
    ensures enough { IfOk result (λ best. best.end ≡ End.Nodes → limits.nodes < nodes_for_best domain_range rules.now domains.now) }
{
    match extreme {
        Extreme::Least => search::rules::least(alloc, domains, rules, variable, limits),
        Extreme::Greatest => search::rules::greatest(alloc, domains, rules, variable, limits),
    }
}

/// That there is no solution.
fn none() -> Best<i64>
    ensures none { result.point ≡ None }
    ensures all { result.end ≡ End.All }
{
    Best {
        point: None,
        end: End::All,
    }
}
