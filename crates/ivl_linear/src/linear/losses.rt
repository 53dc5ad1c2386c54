//! What narrowing by a linear rule takes, without making a set.
ghost use Rattle.std.specs.Prelude.{◌≡◌, ◌<◌, ◌≤◌, ◌^◌, ℕ, ℤ, ◌*ℤ◌, ◌<ℤ◌, IfSome, length, true, unsigned_abs};
ghost use Rattle.ivl_laws.specs.Families.{set_at};
ghost use Rattle.ivl_laws.specs.Runs.{Covers};
ghost use Rattle.ivl_laws.specs.Sets.{HasSome};
ghost use Rattle.ivl_linear.specs.declared.linear.Relation.TheVariants.{Differs as DiffersRelation, Tells as TellsRelation};
ghost use Rattle.ivl_linear.specs.Linear.{AreOfDifferent, HasLinearPointAt, HasTermOf, HasTermsBelow, LinearSupportsAll, NamesBelow, NamesEachOnce, TakesOnlyOne, term_at, weight};
ghost use Rattle.ivl_linear.specs.Ends.{AreSumEnds};
ghost use Rattle.ivl_linear.specs.Rests.{AllFilled, IsApartBy};

use super::at_most::spare_of;
use super::differs::{forbidden, lost_of};
use super::rests::lies_in;
use super::sums::{SumEnds, difference, ends_of, greatest_of, least_of};
use super::told::{answers_of, may_be_one, may_be_zero};
use super::windows::window_at;
use super::{Relation, Term};
use intervallum::interval::Interval;
use intervallum::interval_set::IntervalSet;
use intervallum::ops::{Contains, Disjoint};
use intervallum::width::Width;

/// Returns true only if narrowing by the rule takes no member: by the ends of the domains, without a division, and of a `Differs`
/// also by a look-up of what it forbids where one term has all that is open. Where the domain of a term is empty, it returns false.
///
/// The caller must ensure that the terms are light, that the rule names each of its variables once, and that each has a domain. Check
/// with [`is_light`](super::is_light), [`is_over_different`](super::is_over_different) and [`first_unknown`](super::first_unknown).
///
/// `O(n)` in the number of terms, and a binary search at most. Does not allocate.
///
/// ```
/// // 3 * x - 2 * y <= 17, for x and y from 0 to 5: no term is wider than what is to spare
/// let domains = vec![in alloc; IntervalSet::new(alloc, 0, 5)?, IntervalSet::new(alloc, 0, 5)?]?;
/// let terms = [Term { coefficient: 3, variable: 0 }, Term { coefficient: -2, variable: 1 }];
/// assert!(rt; takes_nothing(&domains, &terms, Relation::AtMost(5)));
/// assert!(rt; !takes_nothing(&domains, &terms, Relation::AtMost(4)));
/// ```
pub fn takes_nothing<B: Width>(
    domains: &[IntervalSet<B>],
    terms: &[Term],
    relation: Relation,
) -> bool
    requires light { weight terms.now ≤ 2 ^ 60 }
    requires different { NamesEachOnce terms.now relation }
    requires present { NamesBelow (length domains.now) terms.now relation }
    // If it is true, each member of a domain that the rule names is in a point of the domains which satisfies the rule.
    ensures { result ≡ true → LinearSupportsAll terms.now relation (set_at domains.now) }
{
    let Some(ends) = ends_of(terms, domains) else {
        return false;
    };
    match relation {
        Relation::AtMost(bound) => are_apart_by(terms, domains, spare_of(bound, ends.least)),
        Relation::AtLeast(bound) => {
            are_apart_by(terms, domains, difference(ends.greatest, bound as i128))
        }
        Relation::Differs(number) => are_differing(domains, terms, number, &ends),
        Relation::Tells { variable, bound } => { are_told(domains, terms, variable, bound, &ends) }
    }
}

/// Whether no two values of a term over its domain are apart by more than a number.
fn are_apart_by<B: Width>(terms: &[Term], domains: &[IntervalSet<B>], spare: i128) -> bool
    requires light { weight terms.now ≤ 2 ^ 60 }
    requires present { HasTermsBelow (length domains.now) terms.now }
    requires filled { AllFilled terms.now (set_at domains.now) }
    ensures { result ≡ true → (k : ℕ) → k < length terms.now → IsApartBy (term_at terms.now k).coefficient (set_at domains.now (term_at terms.now k).variable) spare }
{
    for k in 0..terms.len() {
        let term = terms[k];
        if !is_apart_by(&term, &domains[term.variable], spare) {
            return false;
        }
    }
    true
}

/// Whether no two values of a term are apart by more than a number.
fn is_apart_by<B: Width>(term: &Term, domain: &IntervalSet<B>, spare: i128) -> bool
    requires light { unsigned_abs term.now.coefficient ≤ 2 ^ 60 }
    requires filled { HasSome (Covers domain.now) }
    ensures { result ≡ true → IsApartBy term.now.coefficient (Covers domain.now) spare }
{
    let width = difference(greatest_of(term, domain), least_of(term, domain));
    if spare < width {
        return false;
    }
    true
}

/// Whether a sum that is not a number takes no member of any term.
fn are_differing<B: Width>(
    domains: &[IntervalSet<B>],
    terms: &[Term],
    number: i64,
    ends: &SumEnds,
) -> bool
    requires light { weight terms.now ≤ 2 ^ 60 }
    requires different { AreOfDifferent terms.now }
    requires present { HasTermsBelow (length domains.now) terms.now }
    requires ends { AreSumEnds terms.now (set_at domains.now) ends.now }
    ensures { result ≡ true → LinearSupportsAll terms.now (DiffersRelation number) (set_at domains.now) }
{
    for k in 0..terms.len() {
        let lost = lost_of(terms, number, ends, domains, k);
        if !domains[terms[k].variable].is_disjoint(&lost) {
            return false;
        }
    }
    true
}

/// Whether a variable that tells keeps its members, and so do the terms.
fn are_told<B: Width>(
    domains: &[IntervalSet<B>],
    terms: &[Term],
    variable: usize,
    bound: i64,
    ends: &SumEnds,
) -> bool
    requires light { weight terms.now ≤ 2 ^ 60 }
    requires different { AreOfDifferent terms.now }
    requires fresh { ¬ (HasTermOf terms.now variable) }
    requires present { HasTermsBelow (length domains.now) terms.now }
    requires telling { variable < length domains.now }
    requires ends { AreSumEnds terms.now (set_at domains.now) ends.now }
    ensures { result ≡ true → LinearSupportsAll terms.now (TellsRelation variable bound) (set_at domains.now) }
{
    if !lies_in(
        &domains[variable],
        answers_of(bound, ends.least, ends.greatest),
    ) {
        return false;
    }
    let holds = may_be_one(domains, variable);
    let fails = may_be_zero(domains, variable);
    if holds && fails {
        return true;
    }
    if holds {
        return are_apart_by(terms, domains, spare_of(bound, ends.least));
    }
    if fails {
        return are_apart_by(terms, domains, difference(ends.greatest, bound as i128 + 1));
    }
    false
}

/// Returns the variable and the number that narrowing by the rule takes, where that is found by a look-up: of a `Differs` where one
/// term alone has several values, and its domain has the number that makes the sum what it may not be. Of other rules, and of other
/// domains, it returns `None`, whatever narrowing takes.
///
/// The caller must ensure that the terms are light, that the rule names each of its variables once, and that each has a domain. Check
/// with [`is_light`](super::is_light), [`is_over_different`](super::is_over_different) and [`first_unknown`](super::first_unknown).
///
/// `O(n)` in the number of terms, and a binary search. Does not allocate.
///
/// ```
/// // 3 * x - 2 * y != 4, where y is 4
/// let domains = vec![in alloc; IntervalSet::new(alloc, 0, 9)?, IntervalSet::new(alloc, 4, 4)?]?;
/// let terms = [Term { coefficient: 3, variable: 0 }, Term { coefficient: -2, variable: 1 }];
/// assert_eq!(rt; lone_loss(&domains, &terms, Relation::Differs(4)), Some((0, 4)));
/// assert_eq!(rt; lone_loss(&domains, &terms, Relation::Differs(5)), None);
/// ```
pub fn lone_loss<B: Width>(
    domains: &[IntervalSet<B>],
    terms: &[Term],
    relation: Relation,
) -> Option<(usize, B)>
    requires light { weight terms.now ≤ 2 ^ 60 }
    requires different { NamesEachOnce terms.now relation }
    requires present { NamesBelow (length domains.now) terms.now relation }
    // If there is a result, narrowing takes just that one number, a member of that variable, which the rule names.
    ensures { IfSome result (λ taken. TakesOnlyOne terms.now relation (set_at domains.now) taken.0 (B.value taken.1)) }
{
    match relation {
        Relation::AtMost(_) => None,
        Relation::AtLeast(_) => None,
        Relation::Differs(number) => lost_of_differing(domains, terms, number),
        Relation::Tells {
            variable: _,
            bound: _,
        } => None,
    }
}

/// The variable and the number that a sum that is not a number takes, if one term alone has several values.
fn lost_of_differing<B: Width>(
    domains: &[IntervalSet<B>],
    terms: &[Term],
    number: i64,
) -> Option<(usize, B)>
    requires light { weight terms.now ≤ 2 ^ 60 }
    requires different { AreOfDifferent terms.now }
    requires present { HasTermsBelow (length domains.now) terms.now }
    ensures { IfSome result (λ taken. TakesOnlyOne terms.now (DiffersRelation number) (set_at domains.now) taken.0 (B.value taken.1)) }
{
    let ends = ends_of(terms, domains)?;
    for k in 0..terms.len() {
        if let Some(value) = lost_of_term(domains, terms, number, &ends, k) {
            return Some((terms[k].variable, value));
        }
    }
    None
}

/// The number that a term's variable loses, if that is one of several, and the other terms have one sum.
fn lost_of_term<B: Width>(
    domains: &[IntervalSet<B>],
    terms: &[Term],
    number: i64,
    ends: &SumEnds,
    k: usize,
) -> Option<B>
    requires light { weight terms.now ≤ 2 ^ 60 }
    requires different { AreOfDifferent terms.now }
    requires present { HasTermsBelow (length domains.now) terms.now }
    requires ends { AreSumEnds terms.now (set_at domains.now) ends.now }
    requires known { k < length terms.now }
    ensures { IfSome result (λ value. TakesOnlyOne terms.now (DiffersRelation number) (set_at domains.now) (term_at terms.now k).variable (B.value value)) }
{
    let term = terms[k];
    let domain = &domains[term.variable];
    if !has_two_values(&term, domain) {
        return None;
    }
    let Some(value) = forbidden(terms, number, ends, domains, k) else {
        return None;
    };
    member_at(domain, term.coefficient, value)
}

/// Whether a term has two values over a domain with a member.
fn has_two_values<B: Width>(term: &Term, domain: &IntervalSet<B>) -> bool
    requires { HasSome (Covers domain.now) }
    ensures { result ≡ true → (u : ℤ) × (v : ℤ) × Covers domain.now u × Covers domain.now v × ((term.now.coefficient *ℤ u) <ℤ (term.now.coefficient *ℤ v)) }
{
    let least = least_of(term, domain);
    let greatest = greatest_of(term, domain);
    if least < greatest {
        return true;
    }
    false
}

/// A member whose product with a coefficient is a value.
fn member_at<B: Width>(set: &IntervalSet<B>, coefficient: i64, value: i128) -> Option<B>
    requires light { unsigned_abs coefficient ≤ 2 ^ 60 }
    requires small { unsigned_abs value ≤ 2 ^ 126 }
    ensures { IfSome result (λ v. Covers set.now (B.value v) × (coefficient *ℤ B.value v ≡ value)) }
{
    let window: Interval<B> = window_at(coefficient, value);
    let low = window.lower_bound();
    if !window.contains(&low) {
        return None;
    }
    if set.contains(&low) {
        return Some(low);
    }
    None
}
