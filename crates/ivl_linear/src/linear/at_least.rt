//! What a sum that is at least a number leaves of a term's variable.
ghost use Rattle.std.specs.Prelude.{◌≡◌, ◌↔◌, ◌<◌, ◌≤◌, ◌^◌, ℤ, ◌+ℤ◌, ◌-ℤ◌, ◌*ℤ◌, ◌≤ℤ◌, length, unsigned_abs};
ghost use Rattle.ivl_laws.specs.Families.{set_at};
ghost use Rattle.ivl_laws.specs.Runs.{Covers};
ghost use Rattle.ivl_laws.specs.Sets.{HasSome, IsBetween};
ghost use Rattle.ivl_linear.specs.Linear.{AreOfDifferent, HasLinearPointAt, HasTermsBelow, term_at, weight};
ghost use Rattle.ivl_linear.specs.Ends.{AreSumEnds, IsGreatestTerm};
ghost use Rattle.ivl_linear.specs.declared.linear.Relation.TheVariants.{AtLeast as AtLeastRelation};

use super::Term;
use super::sums::{SumEnds, greatest_of};
use super::windows::window_above;
use intervallum::interval::Interval;
use intervallum::interval_set::IntervalSet;
use intervallum::width::Width;

/// The interval of which a term's variable keeps its members, and loses the others: those that are in no point of the domains where
/// the sum of the terms is at least the bound.
pub(super) fn required<B: Width>(
    terms: &[Term],
    bound: i128,
    ends: &SumEnds,
    domains: &[IntervalSet<B>],
    k: usize,
) -> Interval<B>
    requires small { unsigned_abs bound ≤ 2 ^ 64 }
    requires light { weight terms.now ≤ 2 ^ 60 }
    requires different { AreOfDifferent terms.now }
    requires present { HasTermsBelow (length domains.now) terms.now }
    requires ends { AreSumEnds terms.now (set_at domains.now) ends.now }
    requires known { k < length terms.now }
    ensures { (v : ℤ) → set_at domains.now (term_at terms.now k).variable v
        → IsBetween result v ↔ HasLinearPointAt terms.now (AtLeastRelation bound) (set_at domains.now) (term_at terms.now k).variable v }
{
    let lacking = lacking_of(bound, ends.greatest);
    let term = terms[k];
    left_above(&term, lacking, &domains[term.variable])
}

/// The bound less the greatest sum.
fn lacking_of(bound: i128, greatest: i128) -> i128
    requires bound { unsigned_abs bound ≤ 2 ^ 64 }
    requires greatest { unsigned_abs greatest ≤ 2 ^ 124 }
    ensures value { result ≡ bound -ℤ greatest }
    ensures small { unsigned_abs result ≤ 2 ^ 125 }
{
    bound - greatest
}

/// The interval of the numbers at which a term is below its greatest value by no more than the bound allows.
fn left_above<B: Width>(term: &Term, lacking: i128, domain: &IntervalSet<B>) -> Interval<B>
    requires light { unsigned_abs term.now.coefficient ≤ 2 ^ 60 }
    requires small { unsigned_abs lacking ≤ 2 ^ 125 }
    requires filled { HasSome (Covers domain.now) }
    ensures { (m : ℤ) × IsGreatestTerm term.now.coefficient (Covers domain.now) m
        × ((v : ℤ) → Covers domain.now v → IsBetween result v ↔ ((lacking +ℤ m) ≤ℤ (term.now.coefficient *ℤ v))) }
{
    domain.in_whole();
    let greatest = greatest_of(term, domain);
    window_above(term.coefficient, lacking + greatest)
}
