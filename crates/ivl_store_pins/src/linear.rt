//! What callers learn of a linear rule.
ghost use Rattle.std.specs.Prelude.{◌≡◌, ◌↔◌, ◌<◌, ◌≤◌, ◌^◌, [], ℕ, ℤ, IfOk, IfSome, IsTrue, None, OnErr, OnOk, false, length, slice_index_or, true};
ghost use Rattle.ivl_laws.specs.Families.{set_at};
ghost use Rattle.ivl_linear.specs.Linear.{AreOfDifferent, HasLinearPointAt, HasTermsBelow, LinearNames, NamesBelow, NamesEachOnce, TakesOnlyOne, term_at, unknown_named, weight};
ghost use Rattle.ivl_linear.specs.Ends.{AreEndsOf, IsRestOf};
ghost use Rattle.ivl_linear.specs.Laws.{LinearIsLocal, LinearIsMonotone, LinearKeepsPoints, LinearKeepsSupported, LinearSettlesAtOnce};

use intervallum::interval_set::IntervalSet;
use intervallum::width::Width;
use ivl_linear::linear::losses::{lone_loss, takes_nothing};
use ivl_linear::linear::narrowing::{narrow, rest_of_term};
use ivl_linear::linear::sums::{SumEnds, ends_of};
use ivl_linear::linear::{Relation, Term, first_unknown, is_light, is_over_different, laws};
use std::alloc::AllocError;

/// Narrows by a linear rule, and returns whether a member was lost: what is left of a domain that it names are its members in points
/// that satisfy it, and after an error nothing has changed.
pub fn loses_members_by_terms<B: Width>(
    domains: &mut [IntervalSet<B>],
    terms: &[Term],
    relation: Relation,
) -> Result<bool, AllocError>
    requires light { weight terms.now ≤ 2 ^ 60 }
    requires different { NamesEachOnce terms.now relation }
    requires present { NamesBelow (length domains.old) terms.now relation }
    ensures refused { OnErr result (domains.new ≡ domains.old) }
    ensures kept { IfOk result (λ lost. (lost ≡ false) ↔ ((i : ℕ) (v : ℤ) → set_at domains.old i v → set_at domains.new i v)) }
    ensures exact { OnOk result ((i : ℕ) → LinearNames terms.now relation i → (v : ℤ) → set_at domains.new i v ↔ HasLinearPointAt terms.now relation (set_at domains.old) i v) }
{
    narrow(domains, terms, relation)
}

/// Whether each member of a domain that a linear rule names is known to be in a point that satisfies it.
pub fn is_supported_by_terms<B: Width>(
    domains: &[IntervalSet<B>],
    terms: &[Term],
    relation: Relation,
) -> bool
    requires light { weight terms.now ≤ 2 ^ 60 }
    requires different { NamesEachOnce terms.now relation }
    requires present { NamesBelow (length domains.now) terms.now relation }
    ensures { result ≡ true → (i : ℕ) → LinearNames terms.now relation i → (v : ℤ) → set_at domains.now i v → HasLinearPointAt terms.now relation (set_at domains.now) i v }
{
    takes_nothing(domains, terms, relation)
}

/// The variable and the number that narrowing by a linear rule is known to take, and nothing else.
pub fn only_loss_by_terms<B: Width>(
    domains: &[IntervalSet<B>],
    terms: &[Term],
    relation: Relation,
) -> Option<(usize, B)>
    requires light { weight terms.now ≤ 2 ^ 60 }
    requires different { NamesEachOnce terms.now relation }
    requires present { NamesBelow (length domains.now) terms.now relation }
    ensures { IfSome result (λ taken. TakesOnlyOne terms.now relation (set_at domains.now) taken.0 (B.value taken.1)) }
{
    lone_loss(domains, terms, relation)
}

/// Whether terms may be narrowed by: the sizes of their coefficients add up to 2^60 at most.
pub fn are_light(terms: &[Term]) -> bool
    ensures { IsTrue result ↔ (weight terms.now ≤ 2 ^ 60) }
{
    is_light(terms)
}

/// Whether a linear rule names each variable once.
pub fn names_once(terms: &[Term], relation: Relation) -> bool
    ensures { IsTrue result ↔ NamesEachOnce terms.now relation }
{
    is_over_different(terms, relation)
}

/// The first variable that a linear rule names and that has no domain; where there is none, each has one.
pub fn first_without_domain(terms: &[Term], relation: Relation, count: usize) -> Option<usize>
    ensures first { result ≡ unknown_named count terms.now relation }
    ensures present { result ≡ None → NamesBelow count terms.now relation }
{
    first_unknown(terms, relation, count)
}

/// The least and the greatest sum of terms over domains, unless one of these is empty.
pub fn least_and_greatest<B: Width>(terms: &[Term], domains: &[IntervalSet<B>]) -> Option<SumEnds>
    requires light { weight terms.now ≤ 2 ^ 60 }
    requires different { AreOfDifferent terms.now }
    requires present { HasTermsBelow (length domains.now) terms.now }
    ensures { AreEndsOf terms.now (set_at domains.now) result }
{
    ends_of(terms, domains)
}

/// What is left of the domain of one term.
pub fn left_of_term<B: Width>(
    domains: &[IntervalSet<B>],
    terms: &[Term],
    relation: Relation,
    ends: Option<SumEnds>,
    k: usize,
) -> Result<Option<IntervalSet<B>>, AllocError>
    requires light { weight terms.now ≤ 2 ^ 60 }
    requires different { NamesEachOnce terms.now relation }
    requires present { NamesBelow (length domains.now) terms.now relation }
    requires ends { AreEndsOf terms.now (set_at domains.now) ends }
    requires known { k < length terms.now }
    ensures { IfOk result (IsRestOf (slice_index_or domains.now (term_at terms.now k).variable []) (HasLinearPointAt terms.now relation (set_at domains.now) (term_at terms.now k).variable)) }
{
    rest_of_term(domains, terms, relation, ends, k)
}

/// The laws of narrowing by a linear rule.
pub fn laws_of_linear_rules()
    ensures local { LinearIsLocal }
    ensures monotone { LinearIsMonotone }
    ensures supported { LinearKeepsSupported }
    ensures points { LinearKeepsPoints }
    ensures settles { LinearSettlesAtOnce }
{
    laws::is_local();
    laws::is_monotone();
    laws::keeps_supported();
    laws::keeps_points();
    laws::settles_at_once();
}
