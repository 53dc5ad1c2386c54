//! What callers learn of a rule.
ghost use Rattle.std.specs.Prelude.{◌≡◌, ◌↔◌, ℕ, ℤ, IfOk, IfSome, IsTrue, OnErr, OnOk, false, length, true};
ghost use Rattle.ivl_laws.specs.Families.{set_at};
ghost use Rattle.ivl_store.specs.Narrowing.{AllPresent};
ghost use Rattle.ivl_store.specs.Solutions.{LostMember};
ghost use Rattle.ivl_rules.specs.Rules.{AreDifferent, HasPointAt, NamesOf, TakesOne, places};

use intervallum::interval_set::IntervalSet;
use intervallum::width::Width;
use ivl_rules::rules::Rule;
use ivl_rules::rules::narrowing::{lone_loss, narrow, takes_nothing};
use std::alloc::AllocError;

/// Narrows by a rule, and returns whether a member was lost: what is left of a domain that it names are its members
/// in points that satisfy it.
pub fn loses_members<B: Width>(
    domains: &mut [IntervalSet<B>],
    rule: &Rule,
) -> Result<bool, AllocError>
    requires different { AreDifferent rule.now }
    requires present { AllPresent (length domains.old) (places rule.now) }
    ensures refused { OnErr result (domains.new ≡ domains.old) }
    ensures lost { IfOk result (λ b. IsTrue b ↔ LostMember (set_at domains.old) (set_at domains.new)) }
    ensures exact { OnOk result ((i : ℕ) → NamesOf rule.now i → (v : ℤ) → set_at domains.new i v ↔ HasPointAt rule.now (set_at domains.old) i v) }
{
    narrow(domains, rule)
}

/// Whether each member of a domain that a rule names is known to be in a point that satisfies it.
pub fn is_supported<B: Width>(domains: &[IntervalSet<B>], rule: &Rule) -> bool
    requires different { AreDifferent rule.now }
    requires present { AllPresent (length domains.now) (places rule.now) }
    ensures { result ≡ true → (i : ℕ) → NamesOf rule.now i → (v : ℤ) → set_at domains.now i v → HasPointAt rule.now (set_at domains.now) i v }
{
    takes_nothing(domains, rule)
}

/// The variable and the number that narrowing by a rule is known to take, and nothing else.
pub fn only_loss<B: Width>(domains: &[IntervalSet<B>], rule: &Rule) -> Option<(usize, B)>
    requires different { AreDifferent rule.now }
    requires present { AllPresent (length domains.now) (places rule.now) }
    ensures { IfSome result (λ taken. TakesOne rule.now (set_at domains.now) taken.0 (B.value taken.1)) }
{
    lone_loss(domains, rule)
}

/// Whether a rule of two numbers that differ, and one of two in order, look at single numbers alone.
pub fn look_at_single_numbers(x: usize, y: usize, by: i64) -> (bool, bool)
    ensures differs { result.0 ≡ true }
    ensures at_most { result.1 ≡ false }
{
    (
        Rule::Differs { x, y, by }.needs_single_numbers(),
        Rule::AtMost { x, y, by }.needs_single_numbers(),
    )
}
