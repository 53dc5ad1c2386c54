//! The network of the domains and the rules.
ghost use Rattle.std.specs.Prelude.{◌≡◌, ◌↔◌, ◌⊎◌, ◌≤◌, ◌+◌, ◌++◌, [], ℤ, List, All, Contains, IfOk, None, OnOk, length};
ghost use Rattle.ivl_rules.specs.declared.rules.Rule.{Rule};
ghost use Rattle.ivl_rules.specs.Rules.{AreDifferent};
ghost use Rattle.ivl_network.specs.Families.{ArePresent};
ghost use Rattle.ivl_search.specs.Points.{SolvesRules, first_unknown_of_rules, first_unknown_or_rules};

use intervallum::interval_set::IntervalSet;
use intervallum::width::Width;
use ivl_network::network::Network;
use ivl_rules::rules::Rule;
use std::alloc::{AllocError, Global};

/// Returns the first index of the rules that is not below `count`, or `None` if all are.
pub(super) fn first_unknown(rules: &[Rule], count: usize) -> Option<usize>
    ensures { result ≡ first_unknown_of_rules count rules.now }
{
    for rule in rules {
        if let Some(i) = rule.first_unknown(count) {
            return Some(i);
        }
    }
    None
}

/// Returns the first such index, or else the variable if it is not below `count`.
pub(super) fn first_unknown_or(variable: usize, count: usize, rules: &[Rule]) -> Option<usize>
    ensures { result ≡ first_unknown_or_rules variable count rules.now }
{
    match first_unknown(rules, count) {
        None if variable >= count => Some(variable),
        unknown => unknown,
    }
}

/// Returns a network of copies of the domains, with the rules.
pub(super) fn network_of<B: Width>(
    alloc: Global,
    domains: &[IntervalSet<B>],
    rules: &[Rule],
) -> Result<Network<B>, AllocError>
    requires { All AreDifferent rules.now }
    ensures marked { IfOk result (λ network. network.marked ≡ []) }
    ensures domains { IfOk result (λ network. network.domains ≡ domains.now) }
    ensures present { IfOk result (λ network. All (ArePresent (length network.domains)) network.rules) }
    ensures no_more { IfOk result (λ network. length network.rules ≤ length rules.now) }
    ensures solutions { IfOk result (λ network. (point : List ℤ) → SolvesRules rules.now domains.now point ↔ SolvesRules network.rules domains.now point) }
{
    let mut network = Network::new(alloc);
    network.reserve(domains.len(), rules.len())?;
    add_variables(alloc, &mut network, domains)?;
    require_all(&mut network, rules)?;
    // for the prover: the rules name variables of the network
    network.rules();
    Ok(network)
}

/// Returns how many of the rules name each of so many variables.
pub(super) fn degrees_of(
    alloc: Global,
    variables: usize,
    rules: &[Rule],
) -> Result<Vec<usize>, AllocError> {
    let mut degrees = Vec::from_elem(alloc, 0, variables)?;
    for rule in rules {
        let c = rule.places();
        add_one(&mut degrees, c.x);
        add_one(&mut degrees, c.y);
        // a rule of two variables has its second twice
        if c.z != c.y {
            add_one(&mut degrees, c.z);
        }
    }
    Ok(degrees)
}

/// Counts a rule that names a variable.
fn add_one(degrees: &mut [usize], variable: usize) {
    if variable < degrees.len() {
        degrees[variable] = degrees[variable].saturating_add(1);
    }
}

/// Adds a variable for each domain, in this order.
fn add_variables<B: Width>(
    alloc: Global,
    network: &mut Network<B>,
    domains: &[IntervalSet<B>],
) -> Result<(), AllocError>
    ensures domains { OnOk result (network.new.domains ≡ network.old.domains ++ domains.now) }
    ensures rules { network.new.rules ≡ network.old.rules }
    ensures marked { network.new.marked ≡ network.old.marked }
{
    for domain in domains {
        // with room for the runs that cuts leave, which a clone has not
        let mut copy = IntervalSet::empty(alloc);
        copy.try_clone_from(domain)?;
        network.add_variable(copy)?;
    }
    Ok(())
}

/// Requires each of the rules.
fn require_all<B: Width>(network: &mut Network<B>, rules: &[Rule]) -> Result<(), AllocError>
    requires { All AreDifferent rules.now }
    ensures domains { network.new.domains ≡ network.old.domains }
    ensures marked { network.new.marked ≡ network.old.marked }
    ensures no_more { OnOk result (length network.new.rules ≤ length network.old.rules + length rules.now) }
    ensures required { OnOk result ((c : Rule) → Contains network.new.rules c ↔ (Contains network.old.rules c ⊎ Contains rules.now c)) }
{
    for rule in rules {
        match network.require(*rule) {
            Ok(()) => {}
            Err(_) => return Err(AllocError),
        }
    }
    Ok(())
}
