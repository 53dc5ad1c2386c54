//! What a sum that is not a number takes from a term's variable.
ghost use Rattle.std.specs.Prelude.{◌≡◌, ◌≢◌, ◌↔◌, ◌<◌, ◌≤◌, ◌^◌, ℕ, ℤ, ◌+ℤ◌, ◌-ℤ◌, ◌*ℤ◌, IfSome, MatchOption, length, unsigned_abs};
ghost use Rattle.ivl_laws.specs.Families.{set_at};
ghost use Rattle.ivl_laws.specs.Sets.{IsBetween};
ghost use Rattle.ivl_linear.specs.Linear.{AreOfDifferent, HasLinearPointAt, HasTermsBelow, IsInside, sum_at, term_at, weight};
ghost use Rattle.ivl_linear.specs.Ends.{AreSumEnds};
ghost use Rattle.ivl_linear.specs.declared.linear.Relation.TheVariants.{Differs as DiffersRelation};

use super::Term;
use super::sums::{SumEnds, difference, greatest_of, least_of};
use super::windows::window_at;
use intervallum::interval::Interval;
use intervallum::interval_set::IntervalSet;
use intervallum::ops::Empty;
use intervallum::width::Width;

/// What a term may not be where the sum of the terms is not a number, if the other terms have just one sum over points of the
/// domains. If they have more, no member of its variable is lost, and this is `None`.
pub(super) fn forbidden<B: Width>(
    terms: &[Term],
    number: i64,
    ends: &SumEnds,
    domains: &[IntervalSet<B>],
    k: usize,
) -> Option<i128>
    requires light { weight terms.now ≤ 2 ^ 60 }
    requires different { AreOfDifferent terms.now }
    requires present { HasTermsBelow (length domains.now) terms.now }
    requires ends { AreSumEnds terms.now (set_at domains.now) ends.now }
    requires known { k < length terms.now }
    ensures small { IfSome result (λ d. unsigned_abs d ≤ 2 ^ 126) }
    ensures supported { MatchOption result
        ((v : ℤ) → set_at domains.now (term_at terms.now k).variable v → HasLinearPointAt terms.now (DiffersRelation number) (set_at domains.now) (term_at terms.now k).variable v)
        (λ d. (v : ℤ) → set_at domains.now (term_at terms.now k).variable v
        → HasLinearPointAt terms.now (DiffersRelation number) (set_at domains.now) (term_at terms.now k).variable v ↔ ((term_at terms.now k).coefficient *ℤ v ≢ d)) }
    ensures others { IfSome result (λ d. (point : ℕ → ℤ) → IsInside terms.now (set_at domains.now) point
        → (sum_at terms.now point +ℤ d) ≡ (number +ℤ ((term_at terms.now k).coefficient *ℤ point (term_at terms.now k).variable))) }
{
    let term = terms[k];
    let rest = difference(ends.least, least_of(&term, &domains[term.variable]));
    let most = difference(ends.greatest, greatest_of(&term, &domains[term.variable]));
    if rest != most {
        return None;
    }
    Some(left_to(number, rest))
}

/// The interval in which a term's variable loses its members, and keeps the others, where the sum of the terms is not a number: those
/// that are in no point of the domains. It has one number at most, unless the coefficient is 0.
pub(super) fn lost_of<B: Width>(
    terms: &[Term],
    number: i64,
    ends: &SumEnds,
    domains: &[IntervalSet<B>],
    k: usize,
) -> Interval<B>
    requires light { weight terms.now ≤ 2 ^ 60 }
    requires different { AreOfDifferent terms.now }
    requires present { HasTermsBelow (length domains.now) terms.now }
    requires ends { AreSumEnds terms.now (set_at domains.now) ends.now }
    requires known { k < length terms.now }
    ensures { (v : ℤ) → set_at domains.now (term_at terms.now k).variable v
        → HasLinearPointAt terms.now (DiffersRelation number) (set_at domains.now) (term_at terms.now k).variable v ↔ (¬ (IsBetween result v)) }
{
    let term = terms[k];
    domains[term.variable].in_whole();
    match forbidden(terms, number, ends, domains, k) {
        Some(value) => window_at(term.coefficient, value),
        None => Interval::empty(),
    }
}

/// A number less the sum of the other terms.
fn left_to(number: i64, rest: i128) -> i128
    requires { unsigned_abs rest ≤ 2 ^ 125 }
    ensures value { result ≡ number -ℤ rest }
    ensures small { unsigned_abs result ≤ 2 ^ 126 }
{
    number as i128 - rest
}
