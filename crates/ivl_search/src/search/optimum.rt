//! The best solution: a solution is looked for among the better half of a variable's numbers, and the
//! domain is cut to what is better than it, or to the other half if there is none.
ghost use Rattle.std.specs.Prelude.{◌≡◌, ◌↔◌, ◌<◌, ◌≤◌, ◌+◌, ℕ, ℤ, List, All, Err, IfNone, IfOk, IfSome, OnOk, Some, length, map, option_map};
ghost use Rattle.ivl_laws.specs.Families.{set_at};
ghost use Rattle.ivl_laws.specs.Runs.{Covers, IsRunListIn};
ghost use Rattle.ivl_laws.specs.Sets.{Intersection, IsBetween, SameMembers};
ghost use Rattle.ivl_network.specs.Network.{IsCutAt};
ghost use Rattle.ivl_store.specs.Solutions.{LiesWithin};
ghost use Rattle.ivl_rules.specs.Rules.{AreDifferent};
ghost use Rattle.ivl_network.specs.Families.{ArePresent};
ghost use Rattle.ivl_search.specs.Best.{IsAsGood, IsBestAt, IsBetter};
ghost use Rattle.ivl_search.specs.Budget.{nodes_enough, nodes_for_best};
ghost use Rattle.ivl_search.specs.Halves.{IsMiddle};
ghost use Rattle.ivl_search.specs.Nodes.{AreFilled};
ghost use Rattle.ivl_search.specs.Points.{ImprovesTo, SolvesRules, coordinate, first_unknown_or_rules};

use super::choice::{Node, Part, Wanted, middle};
use super::descent::{Kept, search};
use super::setup::{degrees_of, first_unknown_or, network_of};
use super::steps::{advance, enter, keep_part};
use super::{Best, End, Limits, SearchFault};
use intervallum::interval_set::IntervalSet;
use intervallum::width::Width;
use ivl_network::network::Network;
use ivl_rules::rules::Rule;
use std::alloc::{AllocError, Global};

/// Returns the best solution over the domains.
pub(super) fn best_at<B: Width>(
    alloc: Global,
    domains: &[IntervalSet<B>],
    rules: &[Rule],
    variable: usize,
    limits: Limits,
    wanted: Wanted,
) -> Result<Best<B>, SearchFault>
    requires { All AreDifferent rules.now }
    ensures unknown { (i : ℕ) → (result ≡ Err (SearchFault.Variable i)) ↔ (first_unknown_or_rules variable (length domains.now) rules.now ≡ Some i) }
    ensures sound { IfOk result (λ best. IfSome best.point (λ point. SolvesRules rules.now domains.now (map B.value point.items))) }
    ensures best { IfOk result (λ best. best.end ≡ End.All → IfSome best.point (λ point. IsBestAt wanted variable (SolvesRules rules.now domains.now) (map B.value point.items))) }
    ensures none { IfOk result (λ best. best.end ≡ End.All → IfNone best.point ((point : List ℤ) → ¬ (SolvesRules rules.now domains.now point))) }
    ensures bounded { IfOk result (λ best. IfSome best.point (λ _. (1 ≤ limits.solutions) × (1 ≤ limits.nodes))) }
    ensures full { IfOk result (λ best. best.end ≡ End.Solutions → ImprovesTo (λ old new. IsBetter wanted old new) variable (SolvesRules rules.now domains.now) limits.solutions (option_map (λ point. map B.value point.items) best.point)) }
    ensures visited { IfOk result (λ best. best.end ≡ End.Solutions → limits.solutions ≤ limits.nodes) }
    ensures enough { IfOk result (λ best. best.end ≡ End.Nodes → limits.nodes < nodes_for_best B.whole rules.now domains.now) }
{
    if let Some(i) = first_unknown_or(variable, domains.len(), rules) {
        return Err(SearchFault::Variable(i));
    }
    let mut network = network_of(alloc, domains, rules)?;
    let degrees = degrees_of(alloc, domains.len(), rules)?;
    let best = best_of(alloc, &mut network, &degrees, variable, limits, wanted)?;
    Ok(best)
}

/// Returns the best solution over the domains of the network, which are cut on the way.
fn best_of<B: Width>(
    alloc: Global,
    network: &mut Network<B>,
    degrees: &[usize],
    variable: usize,
    limits: Limits,
    wanted: Wanted,
) -> Result<Best<B>, AllocError>
    requires known { variable < length network.old.domains }
    requires present { All (ArePresent (length network.old.domains)) network.old.rules }
    ensures sound { IfOk result (λ best. IfSome best.point (λ point. SolvesRules network.old.rules network.old.domains (map B.value point.items))) }
    ensures best { IfOk result (λ best. best.end ≡ End.All → IfSome best.point (λ point. IsBestAt wanted variable (SolvesRules network.old.rules network.old.domains) (map B.value point.items))) }
    ensures none { IfOk result (λ best. best.end ≡ End.All → IfNone best.point ((point : List ℤ) → ¬ (SolvesRules network.old.rules network.old.domains point))) }
    ensures bounded { IfOk result (λ best. IfSome best.point (λ _. (1 ≤ limits.solutions) × (1 ≤ limits.nodes))) }
    ensures full { IfOk result (λ best. best.end ≡ End.Solutions → ImprovesTo (λ old new. IsBetter wanted old new) variable (SolvesRules network.old.rules network.old.domains) limits.solutions (option_map (λ point. map B.value point.items) best.point)) }
    ensures visited { IfOk result (λ best. best.end ≡ End.Solutions → limits.solutions ≤ limits.nodes) }
    ensures enough { IfOk result (λ best. best.end ≡ End.Nodes → limits.nodes < nodes_for_best B.whole network.old.rules network.old.domains) }
{
    let mut left = limits;
    let mut best = None;
    while left.nodes > 0 {
        if left.solutions == 0 {
            return Ok(Best {
                point: best,
                end: End::Solutions,
            });
        }
        left.nodes -= 1;
        let Some(half) = narrowed_middle(network, degrees, variable, wanted)? else {
            return Ok(Best {
                point: best,
                end: End::All,
            });
        };
        let nodes = &mut left.nodes;
        let Best { point, end } = one_solution(
            alloc, network, degrees, variable, half, wanted, nodes,
        )?;
        match point {
            Some(point) => {
                let value = point[variable];
                keep_part(network, variable, value, wanted, Part::Better)?;
                left.solutions -= 1;
                best = Some(point);
            }
            None if end == End::All => {
                keep_part(network, variable, half, wanted, Part::Worse)?;
            }
            None => return Ok(Best { point: best, end }),
        }
    }
    Ok(Best {
        point: best,
        end: End::Nodes,
    })
}

/// Narrows the domains, and returns a member in the middle of one of them, or `None` if no point
/// solves.
fn narrowed_middle<B: Width>(
    network: &mut Network<B>,
    degrees: &[usize],
    variable: usize,
    wanted: Wanted,
) -> Result<Option<B>, AllocError>
    requires known { variable < length network.old.domains }
    requires present { All (ArePresent (length network.old.domains)) network.old.rules }
    ensures rules { network.new.rules ≡ network.old.rules }
    ensures kept_count { length network.new.domains ≡ length network.old.domains }
    ensures within { LiesWithin (set_at network.new.domains) (set_at network.old.domains) }
    ensures same { (point : List ℤ) → SolvesRules network.old.rules network.old.domains point ↔ SolvesRules network.old.rules network.new.domains point }
    ensures none { IfOk result (λ half. IfNone half ((point : List ℤ) → ¬ (SolvesRules network.old.rules network.new.domains point))) }
    ensures in_range { IfOk result (λ half. IfSome half (λ value. IsBetween B.whole (B.value value))) }
    ensures filled { IfOk result (λ half. IfSome half (λ value. AreFilled network.new.domains)) }
    ensures middle { IfOk result (λ half. IfSome half (λ value. IsMiddle wanted (set_at network.new.domains variable) (B.value value))) }
    ensures runs { All (IsRunListIn B.whole) network.new.domains }
{
    match advance(network, degrees, wanted)? {
        Node::Dead => Ok(None),
        _ => Ok(middle(&network.domains()[variable], wanted)),
    }
}

/// Searches for one solution whose number is as good as a value, and takes the nodes off those that
/// are left. The network is left as it was.
fn one_solution<B: Width>(
    alloc: Global,
    network: &mut Network<B>,
    degrees: &[usize],
    variable: usize,
    value: B,
    wanted: Wanted,
    nodes: &mut u64,
) -> Result<Best<B>, AllocError>
    requires in_range { IsBetween B.whole (B.value value) }
    requires known { variable < length network.old.domains }
    requires present { All (ArePresent (length network.old.domains)) network.old.rules }
    ensures domains { OnOk result (network.new.domains ≡ network.old.domains) }
    ensures rules { OnOk result (network.new.rules ≡ network.old.rules) }
    ensures nodes { OnOk result (nodes.new ≤ nodes.old) }
    ensures sound { IfOk result (λ one. IfSome one.point (λ point. SolvesRules network.old.rules network.old.domains (map B.value point.items))) }
    ensures none { IfOk result (λ one. one.end ≡ End.All → IfNone one.point ((point : List ℤ) → SolvesRules network.old.rules network.old.domains point → IsBetter wanted (coordinate point variable) (B.value value))) }
    ensures full { IfOk result (λ one. one.end ≡ End.Solutions → IfNone one.point ⊥) }
    ensures as_good { IfOk result (λ one. IfSome one.point (λ point. IsAsGood wanted (B.value value) (coordinate (map B.value point.items) variable))) }
    ensures half { IfOk result (λ one. (good : List (List (ℤ × ℤ))) × (length good ≡ length network.old.domains) × All (IsRunListIn B.whole) good
        × IsCutAt variable (IsAsGood wanted (B.value value)) (set_at network.old.domains) (set_at good)
        × (nodes.old ≤ nodes.new + nodes_enough B.whole network.old.rules good)
        × (one.end ≡ End.Nodes → (nodes.new ≡ 0) × (nodes.old < nodes_enough B.whole network.old.rules good))) }
{
    let cut = enter(network, variable, value, wanted)?;
    let mut left = Limits {
        solutions: 1,
        nodes: *nodes,
    };
    let mut found = Kept {
        is_kept: true,
        points: Vec::new(alloc),
    };
    let end = search(alloc, network, degrees, wanted, &mut left, &mut found)?;
    network.undo_to(cut.mark);
    *nodes = left.nodes;
    let point = found.points.pop();
    Ok(Best { point, end })
}
