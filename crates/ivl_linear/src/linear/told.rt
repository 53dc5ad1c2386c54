//! What a variable that tells whether a sum is within a bound, by 1 if it is and 0 if it is not, keeps and leaves.
ghost use Rattle.std.specs.Prelude.{◌≡◌, ◌↔◌, ◌⊎◌, ◌<◌, ◌≤◌, ◌^◌, ℤ, pos, ◌≤ℤ◌, ◌<ℤ◌, IsTrue, length};
ghost use Rattle.ivl_laws.specs.Families.{set_at};
ghost use Rattle.ivl_laws.specs.Runs.{Covers};
ghost use Rattle.ivl_laws.specs.Sets.{IsBetween};
ghost use Rattle.ivl_linear.specs.Linear.{AreOfDifferent, HasLinearPointAt, HasTermOf, HasTermsBelow, term_at, weight};
ghost use Rattle.ivl_linear.specs.Ends.{AreSumEnds};
ghost use Rattle.ivl_linear.specs.declared.linear.Relation.TheVariants.{Tells as TellsRelation};

use super::Term;
use super::at_least::required;
use super::at_most::allowed;
use super::sums::SumEnds;
use intervallum::interval::Interval;
use intervallum::interval_set::IntervalSet;
use intervallum::ops::{Contains, Empty, Range};
use intervallum::width::Width;

/// The interval of which the telling variable keeps its members, and loses the others: 1 if some sum is within the bound, and 0 if
/// some is above.
pub(super) fn answers_of<B: Width>(bound: i64, least: i128, greatest: i128) -> Interval<B>
    ensures { (z : ℤ) → IsBetween result z ↔ (((z ≡ pos 1) × (least ≤ℤ bound)) ⊎ ((z ≡ pos 0) × (bound <ℤ greatest))) }
{
    answers(least <= bound as i128, (bound as i128) < greatest)
}

/// The interval of 1, if the sum can be within the bound, and 0, if it can be above.
fn answers<B: Width>(can_hold: bool, can_fail: bool) -> Interval<B>
    ensures { (z : ℤ) → IsBetween result z ↔ (((z ≡ pos 1) × IsTrue can_hold) ⊎ ((z ≡ pos 0) × IsTrue can_fail)) }
{
    if can_hold && can_fail {
        return Interval::new(B::zero(), B::one());
    }
    if can_hold {
        return Interval::new(B::one(), B::one());
    }
    if can_fail {
        return Interval::new(B::zero(), B::zero());
    }
    Interval::empty()
}

/// The interval of which a term's variable keeps its members, and loses the others. As long as the telling variable may be both 0
/// and 1, it keeps all.
pub(super) fn allowed_by_answer<B: Width>(
    terms: &[Term],
    variable: usize,
    bound: i64,
    ends: &SumEnds,
    domains: &[IntervalSet<B>],
    k: usize,
) -> Interval<B>
    requires light { weight terms.now ≤ 2 ^ 60 }
    requires different { AreOfDifferent terms.now }
    requires fresh { ¬ (HasTermOf terms.now variable) }
    requires present { HasTermsBelow (length domains.now) terms.now }
    requires telling { variable < length domains.now }
    requires ends { AreSumEnds terms.now (set_at domains.now) ends.now }
    requires known { k < length terms.now }
    ensures { (v : ℤ) → set_at domains.now (term_at terms.now k).variable v
        → IsBetween result v ↔ HasLinearPointAt terms.now (TellsRelation variable bound) (set_at domains.now) (term_at terms.now k).variable v }
{
    let term = terms[k];
    domains[term.variable].in_whole();
    let holds = may_be_one(domains, variable);
    let fails = may_be_zero(domains, variable);
    if holds && fails {
        return Interval::new(B::min_value(), B::max_value());
    }
    if holds {
        return allowed(terms, bound, ends, domains, k);
    }
    if fails {
        return required(terms, bound as i128 + 1, ends, domains, k);
    }
    Interval::empty()
}

/// Whether the domain of a variable has 1.
pub(super) fn may_be_one<B: Width>(domains: &[IntervalSet<B>], variable: usize) -> bool
    requires { variable < length domains.now }
    ensures { IsTrue result ↔ set_at domains.now variable (pos 1) }
{
    domains[variable].contains(&B::one())
}

/// Whether the domain of a variable has 0.
pub(super) fn may_be_zero<B: Width>(domains: &[IntervalSet<B>], variable: usize) -> bool
    requires { variable < length domains.now }
    ensures { IsTrue result ↔ set_at domains.now variable (pos 0) }
{
    domains[variable].contains(&B::zero())
}
