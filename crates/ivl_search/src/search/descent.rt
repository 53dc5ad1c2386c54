//! The search itself: depth first, by marks of one network.
ghost use Rattle.std.specs.Prelude.{◌≡◌, ◌<◌, ◌≤◌, ◌+◌, ◌++◌, ◌∷◌, [], false, true, ℤ, List, All, HoldsAt, IfOk, OnOk, length, map, take};
ghost use Rattle.ivl_laws.specs.Families.{set_at};
ghost use Rattle.ivl_laws.specs.Sets.{IsBetween};
ghost use Rattle.ivl_network.specs.Network.{IsCutAt};
ghost use Rattle.ivl_network.specs.Families.{ArePresent};
ghost use Rattle.ivl_network.specs.Queue.{unsettled_count};
ghost use Rattle.ivl_search.specs.Best.{IsBetter};
ghost use Rattle.ivl_search.specs.Budget.{nodes_enough};
ghost use Rattle.ivl_search.specs.Nodes.{AreSingle, IsOnlyPoint};
ghost use Rattle.ivl_search.specs.Points.{Finds, SolvesRules};
ghost use Rattle.ivl_search.specs.declared.search.steps.Cut.{Cut};

use super::choice::{Node, Wanted};
use super::steps::{Cut, advance, enter, leave, point_of};
use super::{End, Limits};
use intervallum::interval_set::IntervalSet;
use intervallum::width::Width;
use ivl_network::network::Network;
use std::alloc::{AllocError, Global};

/// The points that a search found, if they are kept.
#[derive(Drop)]
pub(super) struct Kept<B> {
    pub is_kept: bool,
    pub points: Vec<Vec<B>>,
}

/// Adds the solutions over the domains of the network to those found, and takes them and the nodes
/// off what is left. The network keeps its rules and marks; its domains are narrowed.
pub(super) fn search<B: Width>(
    alloc: Global,
    network: &mut Network<B>,
    degrees: &[usize],
    wanted: Wanted,
    left: &mut Limits,
    found: &mut Kept<B>,
) -> Result<End, AllocError>
    requires { All (ArePresent (length network.old.domains)) network.old.rules }
    ensures rules { OnOk result (network.new.rules ≡ network.old.rules) }
    ensures marked { OnOk result (network.new.marked ≡ network.old.marked) }
    ensures is_kept { OnOk result (found.new.is_kept ≡ found.old.is_kept) }
    ensures spent { OnOk result (left.old.nodes ≤ left.new.nodes + nodes_enough B.whole network.old.rules network.old.domains) }
    ensures enough { IfOk result (λ end. end ≡ End.Nodes → (left.new.nodes ≡ 0) × (left.old.nodes < nodes_enough B.whole network.old.rules network.old.domains)) }
    ensures nodes { OnOk result (left.new.nodes ≤ left.old.nodes) }
    ensures full { IfOk result (λ end. end ≡ End.Solutions → left.new.solutions ≡ 0) }
    ensures visited { OnOk result (left.old.solutions + left.new.nodes ≤ left.new.solutions + left.old.nodes) }
    ensures finds { IfOk result (λ end. (more : List (List ℤ)) × Finds (SolvesRules network.old.rules network.old.domains) more end
        × (found.old.is_kept ≡ true → map (λ point. map B.value point.items) found.new.points.items ≡ map (λ point. map B.value point.items) found.old.points.items ++ more)
        × (length more + left.new.solutions ≡ left.old.solutions)) }
{
    // for the prover: no more rules are unsettled than there are
    network.rules();
    let mut path = Vec::new(alloc);
    while left.nodes > 0 {
        if left.solutions == 0 {
            drop_path(network, &path);
            return Ok(End::Solutions);
        }
        left.nodes -= 1;
        match advance(network, degrees, wanted)? {
            Node::Unsettled => {}
            Node::Open(variable, value) => {
                let cut = enter(network, variable, value, wanted)?;
                path.push(cut)?;
            }
            Node::Dead => if !go_back(network, &mut path, wanted)? {
                return Ok(End::All);
            },
            Node::Leaf => {
                keep(alloc, network.domains(), found)?;
                left.solutions -= 1;
                if !go_back(network, &mut path, wanted)? {
                    return Ok(End::All);
                }
            }
        }
    }
    drop_path(network, &path);
    Ok(End::Nodes)
}

/// Goes back to the last cut, and into its other part. Returns false if there is no cut.
fn go_back<B: Width>(
    network: &mut Network<B>,
    path: &mut Vec<Cut<B>>,
    wanted: Wanted,
) -> Result<bool, AllocError>
    requires in_range { All (λ cut. IsBetween B.whole (B.value cut.value)) path.old.items }
    requires known { All (λ cut. cut.mark < length network.old.marked) path.old.items }
    ensures none { IfOk result (λ b. b ≡ false → (path.old.items ≡ []) × (network.new ≡ network.old)) }
    ensures back { IfOk result (λ b. b ≡ true → (cut : Cut B) × (path.old.items ≡ path.new.items ++ cut ∷ []) × (network.new.marked ≡ take cut.mark network.old.marked)
        × HoldsAt (λ past. (network.new.rules ≡ past.rules) × (length network.new.domains ≡ length past.domains)
        × IsCutAt cut.variable (λ v. IsBetter wanted v (B.value cut.value)) (set_at past.domains) (set_at network.new.domains)) network.old.marked cut.mark) }
    ensures unsettled { IfOk result (λ b. b ≡ true → unsettled_count network.new.settled ≤ length network.new.rules) }
{
    match path.pop() {
        Some(cut) => {
            leave(network, cut, wanted)?;
            Ok(true)
        }
        None => Ok(false),
    }
}

/// Drops the marks of a path.
fn drop_path<B: Width>(network: &mut Network<B>, path: &[Cut<B>])
    ensures rules { network.new.rules ≡ network.old.rules }
    ensures none { path.now ≡ [] → network.new ≡ network.old }
    ensures marked { (cut : Cut B) (rest : List (Cut B)) → path.now ≡ cut ∷ rest → network.new.marked ≡ take cut.mark network.old.marked }
{
    if let Some(cut) = path.first() {
        network.drop_marks(cut.mark);
    }
}

/// Adds the point of domains that have one member each, if points are kept.
fn keep<B: Width>(
    alloc: Global,
    domains: &[IntervalSet<B>],
    found: &mut Kept<B>,
) -> Result<(), AllocError>
    requires { AreSingle domains.now }
    ensures is_kept { OnOk result (found.new.is_kept ≡ found.old.is_kept) }
    ensures point { OnOk result ((point : List ℤ) × IsOnlyPoint domains.now point
        × (found.old.is_kept ≡ true → map (λ p. map B.value p.items) found.new.points.items ≡ map (λ p. map B.value p.items) found.old.points.items ++ point ∷ [])) }
{
    if found.is_kept {
        let point = point_of(alloc, domains)?;
        found.points.push(point)?;
    }
    Ok(())
}
