//! Lines that change the network, each carried out as a whole or not at all.
//!
//! A network is marked before a line and taken back to the mark if an allocation fails.
ghost use Rattle.std.specs.Prelude.{◌≡◌, ◌↔◌, ◌<◌, ℤ, Bool, true, List, All, HoldsAt, IfOk, OnErr, OnOk, length};
ghost use Rattle.ivl_laws.specs.Families.{set_at};
ghost use Rattle.ivl_laws.specs.Runs.{Covers};
ghost use Rattle.ivl_network.specs.Network.{IsCutAt};
ghost use Rattle.ivl_network.specs.Queue.{unsettled_count};
ghost use Rattle.ivl_network.specs.Settled.{KeepsSettled};
ghost use Rattle.ivl_rules.specs.Rules.{AreDifferent};
ghost use Rattle.ivl_store_lines.specs.Required.{AreRequired};
ghost use Rattle.ivl_store_lines.specs.Solving.{AddsUnset, Settles};

use crate::progress::Progress;
use intervallum::interval_set::IntervalSet;
use ivl_network::network::{Network, Settled};
use ivl_rules::rules::Rule;
use std::alloc::AllocError;

/// Cuts a domain and narrows all, within the limit.
pub fn restrict_atomically(
    network: &mut Network<i64>,
    variable: usize,
    allowed: &IntervalSet<i64>,
    limit: u64,
) -> Result<Progress, AllocError>
    ensures cut { IfOk result (λ p. (cut : List (List (ℤ × ℤ))) × IsCutAt variable (Covers allowed.now) (set_at network.old.domains) (set_at cut)
        × (flags : List Bool) × KeepsSettled network.old.rules (set_at network.old.domains) (set_at cut) network.old.settled flags
        × Settles limit network.old.rules cut flags network.new.domains network.new.settled p) }
    ensures rules { OnOk result (network.new.rules ≡ network.old.rules) }
    ensures kept_count { OnOk result (length network.new.domains ≡ length network.old.domains) }
    ensures refused { OnErr result ((network.new.domains ≡ network.old.domains) × (network.new.rules ≡ network.old.rules)) }
    ensures all { OnErr result (unsettled_count network.old.settled ≡ 0 → unsettled_count network.new.settled ≡ 0) }
{
    let mark = network.mark()?;
    match network.restrict(variable, allowed) {
        Ok(()) => {
            let progress = settle_to(network, mark, limit)?;
            Ok(progress)
        }
        Err(_) => {
            network.drop_marks(mark);
            Err(AllocError)
        }
    }
}

/// Adds the rules and narrows the domains, within the limit.
pub fn require_atomically(
    network: &mut Network<i64>,
    rules: &[Rule],
    limit: u64,
) -> Result<Progress, AllocError>
    requires different { All AreDifferent rules.now }
    ensures required { OnOk result (AreRequired rules.now network.old.rules network.new.rules) }
    ensures settled { IfOk result (λ p. (flags : List Bool) × AddsUnset network.old.settled flags
        × Settles limit network.new.rules network.old.domains flags network.new.domains network.new.settled p) }
    ensures kept_count { OnOk result (length network.new.domains ≡ length network.old.domains) }
    ensures refused { OnErr result ((network.new.domains ≡ network.old.domains) × (network.new.rules ≡ network.old.rules)) }
    ensures all { OnErr result (unsettled_count network.old.settled ≡ 0 → unsettled_count network.new.settled ≡ 0) }
{
    let mark = network.mark()?;
    match require_each(network, rules) {
        Ok(()) => {
            let progress = settle_to(network, mark, limit)?;
            Ok(progress)
        }
        Err(_) => Err(taken_back(network, mark)),
    }
}

/// Adds those of the rules that were not added before, in order.
fn require_each(network: &mut Network<i64>, rules: &[Rule]) -> Result<(), AllocError>
    requires { All AreDifferent rules.now }
    ensures domains { network.new.domains ≡ network.old.domains }
    ensures marked { network.new.marked ≡ network.old.marked }
    ensures were_settled { network.new.were_settled ≡ network.old.were_settled }
    ensures required { OnOk result (AreRequired rules.now network.old.rules network.new.rules) }
    ensures unset { OnOk result (AddsUnset network.old.settled network.new.settled) }
{
    for rule in rules {
        match network.require(*rule) {
            Ok(()) => {}
            Err(_) => return Err(AllocError),
        }
    }
    Ok(())
}

/// Narrows the domains by the rules, within the limit.
pub fn settle_atomically(network: &mut Network<i64>, limit: u64) -> Result<Progress, AllocError>
    ensures rules { network.new.rules ≡ network.old.rules }
    ensures settled { IfOk result (λ p. Settles limit network.old.rules network.old.domains network.old.settled network.new.domains network.new.settled p) }
    ensures kept_count { OnOk result (length network.new.domains ≡ length network.old.domains) }
    ensures refused { OnErr result (network.new.domains ≡ network.old.domains) }
    ensures all { OnErr result (unsettled_count network.old.settled ≡ 0 → unsettled_count network.new.settled ≡ 0) }
{
    let mark = network.mark()?;
    let progress = settle_to(network, mark, limit)?;
    Ok(progress)
}

/// Narrows the domains and drops the mark, or takes the network back to it.
fn settle_to(network: &mut Network<i64>, mark: usize, limit: u64) -> Result<Progress, AllocError>
    requires { mark < length network.old.marked }
    ensures rules { OnOk result (network.new.rules ≡ network.old.rules) }
    ensures settled { IfOk result (λ p. Settles limit network.old.rules network.old.domains network.old.settled network.new.domains network.new.settled p) }
    ensures kept_count { OnOk result (length network.new.domains ≡ length network.old.domains) }
    ensures undone { OnErr result (HoldsAt (λ past. (network.new.domains ≡ past.domains) × (network.new.rules ≡ past.rules)) network.old.marked mark) }
    ensures all { OnErr result (HoldsAt (λ were. were ≡ true → unsettled_count network.new.settled ≡ 0) network.old.were_settled mark) }
{
    match network.settle_within(limit) {
        Ok(reached) => {
            network.drop_marks(mark);
            // for the prover: each rule is settled or not
            network.rules();
            Ok(progress_of(reached))
        }
        Err(_) => Err(taken_back(network, mark)),
    }
}

/// Takes the network back to the mark, where an allocation failed.
fn taken_back(network: &mut Network<i64>, mark: usize) -> AllocError
    requires { mark < length network.old.marked }
    ensures undone { HoldsAt (λ past. (network.new.domains ≡ past.domains) × (network.new.rules ≡ past.rules)) network.old.marked mark }
    ensures all { HoldsAt (λ were. were ≡ true → unsettled_count network.new.settled ≡ 0) network.old.were_settled mark }
{
    network.undo_to(mark);
    AllocError
}

/// How far the domains are narrowed, by what a call reached.
fn progress_of(reached: Settled) -> Progress
    ensures complete { result ≡ Progress.Complete ↔ reached ≡ Settled.All }
    ensures used_up { result ≡ Progress.Budget → reached ≡ Settled.Unfinished }
{
    match reached {
        Settled::All => Progress::Complete,
        Settled::Unfinished => Progress::Budget,
    }
}
