//! The least and the greatest value of a sum of terms over domains.
ghost use Rattle.std.specs.Prelude.{◌≡◌, ◌<◌, ◌≤◌, ◌*◌, ◌^◌, ℕ, ℤ, ◌-ℤ◌, ◌*ℤ◌, false, length, true, unsigned_abs};
ghost use Rattle.ivl_laws.specs.Families.{set_at};
ghost use Rattle.ivl_laws.specs.Runs.{Covers};
ghost use Rattle.ivl_laws.specs.Sets.{HasNone, HasSome};
ghost use Rattle.ivl_linear.specs.Linear.{AreOfDifferent, HasTermOf, HasTermsBelow, weight};
ghost use Rattle.ivl_linear.specs.Ends.{AreEndsOf, IsGreatestSum, IsGreatestTerm, IsLeastSum, IsLeastTerm};
ghost use Rattle.ivl_linear.specs.Rests.{AllFilled};

use super::Term;
use intervallum::interval_set::IntervalSet;
use intervallum::ops::{Bounded, IsEmpty};
use intervallum::width::Width;

/// The least and the greatest sum of terms over points of domains.
#[derive(Clone, Copy, Debug, PartialEq, Eq)]
pub struct SumEnds {
    pub least: i128,
    pub greatest: i128,
}

/// Returns the least and the greatest sum of the terms over points of the domains, or `None` if the domain of some term is empty.
///
/// The caller must ensure that the terms are light, that no two are of one variable, and that each variable has a domain. Check with
/// [`is_light`](super::is_light), [`is_over_different`](super::is_over_different) and [`first_unknown`](super::first_unknown).
///
/// `O(n)` in the number of terms: a look at the ends of each domain. Does not allocate.
///
/// ```
/// // 3 * x - 2 * y, for x from 0 to 9 and y from 0 to 5
/// let domains = vec![in alloc; IntervalSet::new(alloc, 0, 9)?, IntervalSet::new(alloc, 0, 5)?]?;
/// let terms = [Term { coefficient: 3, variable: 0 }, Term { coefficient: -2, variable: 1 }];
/// assert_eq!(rt; ends_of(&terms, &domains), Some(SumEnds { least: -10, greatest: 27 }));
/// ```
pub fn ends_of<B: Width>(terms: &[Term], domains: &[IntervalSet<B>]) -> Option<SumEnds>
    requires light { weight terms.now ≤ 2 ^ 60 }
    requires different { AreOfDifferent terms.now }
    requires present { HasTermsBelow (length domains.now) terms.now }
    // The result is the least and the greatest sum over points of the domains, or `None`, and the domain of some term is then empty.
    ensures { AreEndsOf terms.now (set_at domains.now) result }
{
    if has_empty(terms, domains) {
        return None;
    }
    Some(SumEnds {
        least: least_sum(terms, domains),
        greatest: greatest_sum(terms, domains),
    })
}

/// Whether the domain of some term is empty.
fn has_empty<B: Width>(terms: &[Term], domains: &[IntervalSet<B>]) -> bool
    requires { HasTermsBelow (length domains.now) terms.now }
    ensures empty { result ≡ true → (i : ℕ) × HasTermOf terms.now i × HasNone (set_at domains.now i) }
    ensures filled { result ≡ false → AllFilled terms.now (set_at domains.now) }
{
    for term in terms {
        if domains[term.variable].is_empty() {
            return true;
        }
    }
    false
}
/// The least value of a term over a domain that has a member.
pub(super) fn least_of<B: Width>(term: &Term, domain: &IntervalSet<B>) -> i128
    requires { HasSome (Covers domain.now) }
    ensures least { IsLeastTerm term.now.coefficient (Covers domain.now) result }
    ensures small { unsigned_abs result ≤ unsigned_abs term.now.coefficient * 2 ^ 64 }
{
    let end = if term.coefficient < 0 {
        domain.upper()
    } else {
        domain.lower()
    };
    product(term.coefficient, end.number())
}

/// The greatest value of a term over a domain that has a member.
pub(super) fn greatest_of<B: Width>(term: &Term, domain: &IntervalSet<B>) -> i128
    requires { HasSome (Covers domain.now) }
    ensures greatest { IsGreatestTerm term.now.coefficient (Covers domain.now) result }
    ensures small { unsigned_abs result ≤ unsigned_abs term.now.coefficient * 2 ^ 64 }
{
    let end = if term.coefficient < 0 {
        domain.lower()
    } else {
        domain.upper()
    };
    product(term.coefficient, end.number())
}

/// The difference of two sums.
pub(super) fn difference(sum: i128, own: i128) -> i128
    requires sum { unsigned_abs sum ≤ 2 ^ 124 }
    requires own { unsigned_abs own ≤ 2 ^ 124 }
    ensures value { result ≡ sum -ℤ own }
    ensures small { unsigned_abs result ≤ 2 ^ 125 }
{
    sum - own
}

/// The product of a coefficient and a number.
fn product(coefficient: i64, number: i128) -> i128
    requires { unsigned_abs number < 2 ^ 64 }
    ensures value { result ≡ coefficient *ℤ number }
    ensures small { unsigned_abs result ≤ unsigned_abs coefficient * 2 ^ 64 }
{
    coefficient as i128 * number
}

/// The least value of the sum over points of the domains.
fn least_sum<B: Width>(terms: &[Term], domains: &[IntervalSet<B>]) -> i128
    requires light { weight terms.now ≤ 2 ^ 60 }
    requires different { AreOfDifferent terms.now }
    requires present { HasTermsBelow (length domains.now) terms.now }
    requires filled { AllFilled terms.now (set_at domains.now) }
    ensures least { IsLeastSum terms.now (set_at domains.now) result }
    ensures small { unsigned_abs result ≤ 2 ^ 124 }
{
    let mut sum = 0;
    for term in terms {
        sum += least_of(term, &domains[term.variable]);
    }
    sum
}

/// The greatest value of the sum over points of the domains.
fn greatest_sum<B: Width>(terms: &[Term], domains: &[IntervalSet<B>]) -> i128
    requires light { weight terms.now ≤ 2 ^ 60 }
    requires different { AreOfDifferent terms.now }
    requires present { HasTermsBelow (length domains.now) terms.now }
    requires filled { AllFilled terms.now (set_at domains.now) }
    ensures greatest { IsGreatestSum terms.now (set_at domains.now) result }
    ensures small { unsigned_abs result ≤ 2 ^ 124 }
{
    let mut sum = 0;
    for term in terms {
        sum += greatest_of(term, &domains[term.variable]);
    }
    sum
}
