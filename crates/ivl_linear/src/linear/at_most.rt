//! What a sum that is at most a number leaves of a term's variable.
ghost use Rattle.std.specs.Prelude.{◌≡◌, ◌↔◌, ◌<◌, ◌≤◌, ◌^◌, ℤ, ◌+ℤ◌, ◌-ℤ◌, ◌*ℤ◌, ◌≤ℤ◌, length, unsigned_abs};
ghost use Rattle.ivl_laws.specs.Families.{set_at};
ghost use Rattle.ivl_laws.specs.Runs.{Covers};
ghost use Rattle.ivl_laws.specs.Sets.{HasSome, IsBetween};
ghost use Rattle.ivl_linear.specs.Linear.{AreOfDifferent, HasLinearPointAt, HasTermsBelow, term_at, weight};
ghost use Rattle.ivl_linear.specs.Ends.{AreSumEnds, IsLeastTerm};
ghost use Rattle.ivl_linear.specs.declared.linear.Relation.TheVariants.{AtMost as AtMostRelation};

use super::Term;
use super::sums::{SumEnds, least_of};
use super::windows::window;
use intervallum::interval::Interval;
use intervallum::interval_set::IntervalSet;
use intervallum::width::Width;

/// The interval of which a term's variable keeps its members, and loses the others: those that are in no point of the domains where
/// the sum of the terms is at most the bound.
pub(super) fn allowed<B: Width>(
    terms: &[Term],
    bound: i64,
    ends: &SumEnds,
    domains: &[IntervalSet<B>],
    k: usize,
) -> Interval<B>
    requires light { weight terms.now ≤ 2 ^ 60 }
    requires different { AreOfDifferent terms.now }
    requires present { HasTermsBelow (length domains.now) terms.now }
    requires ends { AreSumEnds terms.now (set_at domains.now) ends.now }
    requires known { k < length terms.now }
    ensures { (v : ℤ) → set_at domains.now (term_at terms.now k).variable v
        → IsBetween result v ↔ HasLinearPointAt terms.now (AtMostRelation bound) (set_at domains.now) (term_at terms.now k).variable v }
{
    let spare = spare_of(bound, ends.least);
    let term = terms[k];
    left_of(&term, spare, &domains[term.variable])
}

/// The bound less the least sum.
pub(super) fn spare_of(bound: i64, least: i128) -> i128
    requires { unsigned_abs least ≤ 2 ^ 124 }
    ensures value { result ≡ bound -ℤ least }
    ensures small { unsigned_abs result ≤ 2 ^ 125 }
{
    bound as i128 - least
}

/// The interval of the numbers at which a term is above its least value by no more than what is to spare.
fn left_of<B: Width>(term: &Term, spare: i128, domain: &IntervalSet<B>) -> Interval<B>
    requires light { unsigned_abs term.now.coefficient ≤ 2 ^ 60 }
    requires small { unsigned_abs spare ≤ 2 ^ 125 }
    requires filled { HasSome (Covers domain.now) }
    ensures { (m : ℤ) × IsLeastTerm term.now.coefficient (Covers domain.now) m
        × ((v : ℤ) → Covers domain.now v → IsBetween result v ↔ ((term.now.coefficient *ℤ v) ≤ℤ (spare +ℤ m))) }
{
    domain.in_whole();
    let least = least_of(term, domain);
    window(term.coefficient, spare + least)
}
