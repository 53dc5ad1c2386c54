//! The steps of a search: narrowing, going into a part of a domain and coming out of it, and the
//! point of domains with one member each.
ghost use Rattle.std.specs.Prelude.{◌≡◌, ◌↔◌, ◌<◌, ◌≤◌, ◌+◌, ◌++◌, ◌∷◌, [], ℤ, List, All, HoldsAt, IfOk, OnOk, length, map, take};
ghost use Rattle.ivl_laws.specs.Families.{set_at};
ghost use Rattle.ivl_laws.specs.Runs.{Covers, IsRunListIn};
ghost use Rattle.ivl_laws.specs.Sets.{IsBetween};
ghost use Rattle.ivl_network.specs.Network.{IsCutAt, work_of_rules};
ghost use Rattle.ivl_store.specs.Solutions.{LiesWithin};
ghost use Rattle.ivl_network.specs.Families.{AllSupport, ArePresent};
ghost use Rattle.ivl_network.specs.Queue.{unsettled_count};
ghost use Rattle.ivl_search.specs.Best.{IsAsGood, IsBetter, IsInPart};
ghost use Rattle.ivl_search.specs.Nodes.{AreSingle, IsNodeOf, IsOnlyPoint};
ghost use Rattle.ivl_search.specs.Points.{SolvesRules};

use super::NARROWINGS_PER_NODE;
use super::choice::{Node, Part, Wanted, node_of, part_of};
use intervallum::interval_set::IntervalSet;
use intervallum::ops::Bounded;
use intervallum::width::Width;
use ivl_network::network::{Network, Settled};
use std::alloc::{AllocError, Global};

/// Narrows the domains, and says what to do with them.
pub(super) fn advance<B: Width>(
    network: &mut Network<B>,
    degrees: &[usize],
    wanted: Wanted,
) -> Result<Node<B>, AllocError>
    requires { All (ArePresent (length network.old.domains)) network.old.rules }
    ensures rules { network.new.rules ≡ network.old.rules }
    ensures marked { network.new.marked ≡ network.old.marked }
    ensures kept_count { length network.new.domains ≡ length network.old.domains }
    ensures within { LiesWithin (set_at network.new.domains) (set_at network.old.domains) }
    ensures same { (point : List ℤ) → SolvesRules network.old.rules network.old.domains point ↔ SolvesRules network.old.rules network.new.domains point }
    ensures node { IfOk result (IsNodeOf B.value wanted B.whole network.new.domains) }
    ensures supported { IfOk result (λ node. node ≡ Node.Leaf → AllSupport network.old.rules (set_at network.new.domains)) }
    ensures fewer { IfOk result (λ node. node ≡ Node.Unsettled → 500 + work_of_rules B.whole network.new ≤ work_of_rules B.whole network.old) }
    ensures runs { All (IsRunListIn B.whole) network.new.domains }
    ensures unsettled { (unsettled_count network.old.settled ≤ length network.old.rules) × (unsettled_count network.new.settled ≤ length network.old.rules) }
{
    // for the prover: no more rules are unsettled than there are, before and after
    network.rules();
    let settled = network.settle_unless_empty(NARROWINGS_PER_NODE);
    network.rules();
    let domains = network.domains();
    match settled {
        Ok(Settled::All) => Ok(node_of(domains, degrees, wanted)),
        Ok(Settled::Unfinished) => if network.has_empty() {
            Ok(Node::Dead)
        } else {
            Ok(Node::Unsettled)
        },
        Err(_) => Err(AllocError),
    }
}

/// A place where a search cut a domain, and searched the better part first.
#[derive(Clone, Copy, Debug)]
pub(super) struct Cut<B> {
    /// The mark of the network before the cut.
    pub mark: usize,
    /// The variable of the domain.
    pub variable: usize,
    /// The worst number of the better part.
    pub value: B,
}

/// Marks the network, and cuts a domain to its members that are as good as a value.
pub(super) fn enter<B: Width>(
    network: &mut Network<B>,
    variable: usize,
    value: B,
    wanted: Wanted,
) -> Result<Cut<B>, AllocError>
    requires { IsBetween B.whole (B.value value) }
    ensures place { IfOk result (λ cut. cut ≡ record { mark = length network.old.marked; variable = variable; value = value }) }
    ensures rules { OnOk result (network.new.rules ≡ network.old.rules) }
    ensures marked { OnOk result (network.new.marked ≡ network.old.marked ++ (record { domains = network.old.domains; rules = network.old.rules }) ∷ []) }
    ensures kept_count { OnOk result (length network.new.domains ≡ length network.old.domains) }
    ensures cut { OnOk result (IsCutAt variable (IsAsGood wanted (B.value value)) (set_at network.old.domains) (set_at network.new.domains)) }
    ensures runs { OnOk result (All (IsRunListIn B.whole) network.new.domains) }
    ensures unsettled { OnOk result (unsettled_count network.new.settled ≤ length network.new.rules) }
{
    let mark = network.mark()?;
    keep_part(network, variable, value, wanted, Part::AsGood)?;
    Ok(Cut {
        mark,
        variable,
        value,
    })
}

/// Takes back what came after a cut, and cuts the domain to its other part.
pub(super) fn leave<B: Width>(
    network: &mut Network<B>,
    cut: Cut<B>,
    wanted: Wanted,
) -> Result<(), AllocError>
    requires in_range { IsBetween B.whole (B.value cut.value) }
    requires known { cut.mark < length network.old.marked }
    ensures marked { OnOk result (network.new.marked ≡ take cut.mark network.old.marked) }
    ensures cut { OnOk result (HoldsAt (λ past. (network.new.rules ≡ past.rules) × (length network.new.domains ≡ length past.domains)
        × IsCutAt cut.variable (λ v. IsBetter wanted v (B.value cut.value)) (set_at past.domains) (set_at network.new.domains)) network.old.marked cut.mark) }
    ensures unsettled { OnOk result (unsettled_count network.new.settled ≤ length network.new.rules) }
{
    network.undo_to(cut.mark);
    keep_part(network, cut.variable, cut.value, wanted, Part::Worse)?;
    Ok(())
}

/// Cuts a domain to its members in a part at a value.
pub(super) fn keep_part<B: Width>(
    network: &mut Network<B>,
    variable: usize,
    value: B,
    wanted: Wanted,
    part: Part,
) -> Result<(), AllocError>
    requires { IsBetween B.whole (B.value value) }
    ensures rules { OnOk result (network.new.rules ≡ network.old.rules) }
    ensures marked { OnOk result (network.new.marked ≡ network.old.marked) }
    ensures kept_count { OnOk result (length network.new.domains ≡ length network.old.domains) }
    ensures cut { OnOk result (IsCutAt variable (IsInPart wanted part (B.value value)) (set_at network.old.domains) (set_at network.new.domains)) }
    ensures runs { OnOk result (All (IsRunListIn B.whole) network.new.domains) }
    ensures unsettled { OnOk result (unsettled_count network.new.settled ≤ length network.new.rules) }
{
    let allowed = part_of(value, wanted, part);
    // for the prover: the domains are lists of runs within the range
    network.domains();
    let cut = network.restrict_to_interval(variable, allowed);
    // for the prover: so are they now, and no more rules are unsettled than there are
    network.domains();
    network.rules();
    match cut {
        Ok(()) => Ok(()),
        Err(_) => Err(AllocError),
    }
}

/// The point of domains that have one member each.
pub(super) fn point_of<B: Width>(
    alloc: Global,
    domains: &[IntervalSet<B>],
) -> Result<Vec<B>, AllocError>
    requires { AreSingle domains.now }
    ensures { IfOk result (λ point. IsOnlyPoint domains.now (map B.value point.items)) }
{
    let mut point = Vec::with_capacity(alloc, domains.len())?;
    for domain in domains {
        point.push(domain.lower())?;
    }
    Ok(point)
}
