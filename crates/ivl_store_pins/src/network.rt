//! What the calls of a network mean.
ghost use Rattle.std.specs.Prelude.{◌≡◌, ◌≢◌, ◌↔◌, ◌⊎◌, ◌<◌, ◌≤◌, ◌+◌, ◌++◌, ◌∷◌, [], false, ℕ, ℤ, List, All, Any, Contains, IfOk, IsTrue, OnErr, OnOk, length, HoldsAt, slice_index_or, true};
ghost use Rattle.ivl_laws.specs.Families.{set_at};
ghost use Rattle.ivl_laws.specs.Runs.{Covers};
ghost use Rattle.ivl_laws.specs.Sets.{IsBetween};
ghost use Rattle.ivl_rules.specs.declared.rules.Rule.{Rule};
ghost use Rattle.ivl_rules.specs.Rules.{AreDifferent, NamesOf};
ghost use Rattle.ivl_network.specs.Costs.{AreRulesCounted, cost_of_rule};
ghost use Rattle.ivl_network.specs.Families.{IsCommonPoint, IsGreatestUnder};
ghost use Rattle.ivl_network.specs.Network.{IsEmptiedLast, IsRuleRequired, IsWaiting, work_of_rules};
ghost use Rattle.ivl_network.specs.Queue.{unsettled_count};

use intervallum::interval::Interval;
use intervallum::interval_set::IntervalSet;
use intervallum::width::Width;
use ivl_network::network::{Network, Settled};
use ivl_rules::rules::Rule;
use ivl_store::store::StoreFault;
use std::alloc::{AllocError, Global};

/// Returns a network with one domain, and no rule.
pub fn network_of_one<B: Width>(
    alloc: Global,
    domain: IntervalSet<B>,
) -> Result<Network<B>, AllocError>
    ensures { IfOk result (λ network. network ≡ record { domains = domain ∷ []; rules = []; settled = []; marked = []; were_settled = [] }) }
{
    let mut network = Network::new(alloc);
    network.add_variable(domain)?;
    Ok(network)
}

/// Makes room for variables and rules, and returns whether there was memory for that. Nothing changes.
pub fn has_room_for<B: Width>(network: &mut Network<B>, variables: usize, rules: usize) -> bool
    ensures { network.new ≡ network.old }
{
    network.reserve(variables, rules).is_ok()
}

/// Returns the numbers of domains and of rules, and whether a domain is empty.
pub fn shape_of<B: Width>(network: &Network<B>) -> (usize, usize, bool)
    ensures domains { result.0 ≡ length network.now.domains }
    ensures rules { result.1 ≡ length network.now.rules }
    ensures different { All AreDifferent network.now.rules }
    ensures empty { IsTrue result.2 ↔ Any (λ L. L ≡ []) network.now.domains }
{
    (
        network.domains().len(),
        network.rules().len(),
        network.has_empty(),
    )
}

/// Requires a rule, if it is tested to name each variable once.
pub fn required_if_different<B: Width>(
    network: &mut Network<B>,
    rule: Rule,
) -> Result<bool, StoreFault>
    ensures required { IfOk result (λ b. IsTrue b → IsRuleRequired rule network.old.rules network.new.rules) }
    ensures different { IfOk result (λ b. IsTrue b ↔ AreDifferent rule) }
    ensures domains { network.new.domains ≡ network.old.domains }
    ensures refused { OnErr result (network.new ≡ network.old) }
{
    let is_different = rule.is_over_different();
    if is_different {
        network.require(rule)?;
    }
    Ok(is_different)
}

/// Requires a rule: one that is there changes nothing, so that no settled rule has to be looked at again, and another is
/// the one rule that is not settled beside those before.
pub fn required<B: Width>(network: &mut Network<B>, rule: Rule) -> Result<(), StoreFault>
    requires { AreDifferent rule }
    ensures known { Contains network.old.rules rule → network.new ≡ network.old }
    ensures added { OnOk result (¬ (Contains network.old.rules rule) → network.new.settled ≡ network.old.settled ++ false ∷ []) }
{
    network.require(rule)
}

/// Cuts a domain to its members in a set. The other domains stay.
pub fn cut_to<B: Width>(
    network: &mut Network<B>,
    variable: usize,
    allowed: &IntervalSet<B>,
) -> Result<(), StoreFault>
    ensures cut { OnOk result ((v : ℤ) → set_at network.new.domains variable v ↔ (set_at network.old.domains variable v × Covers allowed.now v)) }
    ensures others { OnOk result ((i : ℕ) → i ≢ variable → (v : ℤ) → set_at network.new.domains i v ↔ set_at network.old.domains i v) }
    ensures rules { network.new.rules ≡ network.old.rules }
    ensures refused { OnErr result (network.new ≡ network.old) }
{
    network.restrict(variable, allowed)
}

/// Cuts a domain to its members from a value on, up to another. The other domains stay.
pub fn cut_between<B: Width>(
    network: &mut Network<B>,
    variable: usize,
    allowed: Interval<B>,
) -> Result<(), StoreFault>
    ensures cut { OnOk result ((v : ℤ) → set_at network.new.domains variable v ↔ (set_at network.old.domains variable v × IsBetween allowed v)) }
    ensures others { OnOk result ((i : ℕ) → i ≢ variable → (v : ℤ) → set_at network.new.domains i v ↔ set_at network.old.domains i v) }
    ensures rules { network.new.rules ≡ network.old.rules }
    ensures refused { OnErr result (network.new ≡ network.old) }
{
    network.restrict_to_interval(variable, allowed)
}

/// Cuts a domain to a set that has all its members: nothing changes, and no settled rule has to be looked at again.
pub fn cut_to_more<B: Width>(
    network: &mut Network<B>,
    variable: usize,
    allowed: &IntervalSet<B>,
) -> Result<(), StoreFault>
    requires { (v : ℤ) → set_at network.old.domains variable v → Covers allowed.now v }
    ensures { network.new ≡ network.old }
{
    network.restrict(variable, allowed)
}

/// Cuts a domain to an interval that has all its members: nothing changes.
pub fn cut_to_interval_around<B: Width>(
    network: &mut Network<B>,
    variable: usize,
    around: Interval<B>,
) -> Result<(), StoreFault>
    requires { (v : ℤ) → set_at network.old.domains variable v → IsBetween around v }
    ensures { network.new ≡ network.old }
{
    network.restrict_to_interval(variable, around)
}

/// Narrows within a budget of narrowings, and returns whether all is narrowed, which it is where the
/// budget covers the work.
pub fn is_settled_by<B: Width>(network: &mut Network<B>, budget: u64) -> Result<bool, StoreFault>
    ensures solutions { (point : ℕ → ℤ) → IsCommonPoint network.old.rules (set_at network.old.domains) point → IsCommonPoint network.old.rules (set_at network.new.domains) point }
    ensures greatest { IfOk result (λ b. IsTrue b → IsGreatestUnder network.old.rules (set_at network.old.domains) (set_at network.new.domains)) }
    ensures exactly { IfOk result (λ b. IsTrue b ↔ unsettled_count network.new.settled ≡ 0) }
    ensures enough { IfOk result (λ b. work_of_rules B.whole network.old ≤ budget → IsTrue b) }
{
    let settled = network.settle(budget)?;
    Ok(settled == Settled::All)
}

/// Narrows within a budget of narrowings, and returns whether all is narrowed or a domain is empty, which
/// is so where the budget covers the work. If neither is so, as many narrowings fewer are left.
pub fn is_settled_or_emptied_by<B: Width>(
    network: &mut Network<B>,
    budget: u64,
) -> Result<bool, StoreFault>
    ensures solutions { (point : ℕ → ℤ) → IsCommonPoint network.old.rules (set_at network.old.domains) point → IsCommonPoint network.old.rules (set_at network.new.domains) point }
    ensures enough { IfOk result (λ b. work_of_rules B.whole network.old ≤ budget → IsTrue b) }
    ensures fewer { IfOk result (λ b. ¬ (IsTrue b) → budget + work_of_rules B.whole network.new ≤ work_of_rules B.whole network.old) }
    ensures stops { Any (λ L. L ≡ []) network.old.domains → network.new ≡ network.old }
    ensures emptied { (network.new.domains ≡ network.old.domains) ⊎ ((count : ℕ) × (count < budget) × IsEmptiedLast network.old.rules count network.old.domains network.new.domains) }
{
    let settled = network.settle_unless_empty(budget)?;
    Ok(settled == Settled::All || network.has_empty())
}

/// Narrows within a budget that counts what narrowings look at, and returns whether all is narrowed;
/// if not, a rule that waits counts for more than is left. What was made counts for no more than the budget.
pub fn is_settled_within<B: Width>(
    network: &mut Network<B>,
    budget: u64,
) -> Result<bool, StoreFault>
    ensures greatest { IfOk result (λ b. IsTrue b → IsGreatestUnder network.old.rules (set_at network.old.domains) (set_at network.new.domains)) }
    ensures exactly { IfOk result (λ b. IsTrue b ↔ unsettled_count network.new.settled ≡ 0) }
    ensures stopped { IfOk result (λ b. ¬ (IsTrue b) → (by : List Rule) × (cost : ℕ) × AreRulesCounted network.old.rules by cost network.old.domains network.new.domains
        × (next : Rule) × IsWaiting network.new next × (budget < cost + cost_of_rule next network.new.domains)) }
    ensures bounded { OnErr result ((by : List Rule) × (cost : ℕ) × AreRulesCounted network.old.rules by cost network.old.domains network.new.domains × (cost ≤ budget)) }
{
    match network.settle_within(budget)? {
        Settled::All => Ok(true),
        Settled::Unfinished => Ok(false),
    }
}

/// Narrows within a budget that counts what narrowings look at: a rule that was settled is settled still, if no
/// variable that it names has lost a member.
pub fn settled_rules_stay<B: Width>(
    network: &mut Network<B>,
    budget: u64,
) -> Result<Settled, StoreFault>
    ensures { (k : ℕ) (d : Rule) → k < length network.old.rules → slice_index_or network.old.settled k false ≡ true
        → ((i : ℕ) → NamesOf (slice_index_or network.old.rules k d) i → (v : ℤ) → set_at network.old.domains i v → set_at network.new.domains i v)
        → slice_index_or network.new.settled k false ≡ true }
{
    network.settle_within(budget)
}

/// Takes a network back to a mark at which all rules were settled: all are.
pub fn all_settled_again<B: Width>(network: &mut Network<B>, mark: usize) -> bool
    requires { HoldsAt (λ were. were ≡ true) network.old.were_settled mark }
    ensures { IsTrue result → unsettled_count network.new.settled ≡ 0 }
{
    network.undo_to(mark)
}

/// Marks a network, adds a domain, and takes it back: the domains and rules are as before.
pub fn added_and_taken_back<B: Width>(
    network: &mut Network<B>,
    domain: IntervalSet<B>,
) -> Result<bool, AllocError>
    ensures told { IfOk result (λ is_back. IsTrue is_back) }
    ensures domains { OnOk result (network.new.domains ≡ network.old.domains) }
    ensures rules { OnOk result (network.new.rules ≡ network.old.rules) }
    ensures marked { OnOk result (network.new.marked ≡ network.old.marked) }
{
    let mark = network.mark()?;
    network.add_variable(domain)?;
    Ok(network.undo_to(mark))
}

/// Marks a network and drops the mark: it is as before.
pub fn marked_and_dropped<B: Width>(network: &mut Network<B>) -> Result<(), AllocError>
    ensures { network.new ≡ network.old }
{
    let mark = network.mark()?;
    network.drop_marks(mark);
    Ok(())
}
