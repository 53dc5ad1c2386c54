//! Narrowing by one linear rule.
ghost use Rattle.std.specs.Prelude.{◌≡◌, ◌↔◌, ◌<◌, ◌≤◌, ◌^◌, [], ℕ, ℤ, List, IfOk, OnErr, OnOk, false, length, slice_index_or, slice_set};
ghost use Rattle.ivl_laws.specs.Families.{set_at};
ghost use Rattle.ivl_linear.specs.declared.linear.Term.{Term};
ghost use Rattle.ivl_linear.specs.declared.linear.Relation.TheVariants.{Tells as TellsRelation};
ghost use Rattle.ivl_linear.specs.Linear.{HasLinearPointAt, HasTermOf, LinearNames, NamesBelow, NamesEachOnce, NarrowedByLinear, term_at, weight};
ghost use Rattle.ivl_linear.specs.Ends.{AreEndsOf, AreSumEnds, IsRestOf};
ghost use Rattle.ivl_linear.specs.Rests.{AreRestsOf, with_rest};

use super::at_least::required;
use super::at_most::allowed;
use super::differs::lost_of;
use super::rests::{rest_of_none, rest_outside, rest_within};
use super::sums::{SumEnds, ends_of};
use super::told::{allowed_by_answer, answers_of};
use super::{Relation, Term};
use intervallum::interval_set::IntervalSet;
use intervallum::width::Width;
use std::alloc::{AllocError, Global};

/// What is left of domains that lose a member, each with its variable.
type Rests<B> = Vec<(usize, IntervalSet<B>)>;

/// Narrows by a rule: a domain that it names keeps its members that are in a point of the domains which satisfies the rule, and the
/// others stay. Returns true exactly when some domain lost a member.
///
/// The caller must ensure that the terms are light, that the rule names each of its variables once, and that each has a domain. Check
/// with [`is_light`](super::is_light), [`is_over_different`](super::is_over_different) and [`first_unknown`](super::first_unknown).
///
/// `O(n)` in the number of terms, and for each domain that loses a member, a binary search and a copy of what is left. Where the
/// domain of a term is empty, each domain that is named becomes empty. Does not allocate where no member is lost.
///
/// # Errors
///
/// Fails only if allocation fails. The domains are then unchanged.
///
/// ```
/// // 3 * x - 2 * y <= 4, for x from 0 to 9 and y from 0 to 5
/// let mut domains = vec![in alloc; IntervalSet::new(alloc, 0, 9)?, IntervalSet::new(alloc, 0, 5)?]?;
/// let terms = [Term { coefficient: 3, variable: 0 }, Term { coefficient: -2, variable: 1 }];
/// assert!(rt; narrow(&mut domains, &terms, Relation::AtMost(4))?);
/// assert!(rt; domains[0] == IntervalSet::new(alloc, 0, 4)?);
/// assert!(rt; !narrow(&mut domains, &terms, Relation::AtMost(4))?);
/// ```
pub fn narrow<B: Width>(
    domains: &mut [IntervalSet<B>],
    terms: &[Term],
    relation: Relation,
) -> Result<bool, AllocError>
    requires light { weight terms.now ≤ 2 ^ 60 }
    requires different { NamesEachOnce terms.now relation }
    requires present { NamesBelow (length domains.old) terms.now relation }
    // After an error the domains are as they were.
    ensures refused { OnErr result (domains.new ≡ domains.old) }
    // On success each variable that the rule names has exactly those of its members that are in a point of the old domains which
    // satisfies the rule, and every other domain has its members. The answer is false exactly when all members stay.
    ensures kept_count { OnOk result (length domains.new ≡ length domains.old) }
    ensures narrowed { OnOk result ((i : ℕ) (v : ℤ) → set_at domains.new i v ↔ NarrowedByLinear terms.now relation (set_at domains.old) i v) }
    ensures exact { OnOk result ((i : ℕ) → LinearNames terms.now relation i → (v : ℤ) → set_at domains.new i v ↔ HasLinearPointAt terms.now relation (set_at domains.old) i v) }
    ensures kept { IfOk result (λ lost. (lost ≡ false) ↔ ((i : ℕ) (v : ℤ) → set_at domains.old i v → set_at domains.new i v)) }
{
    if domains.is_empty() {
        return Ok(false);
    }
    let mut rests = rests_of(domains[0].allocator(), domains, terms, relation)?;
    if rests.is_empty() {
        return Ok(false);
    }
    'rests: while let Some(rest) = rests.pop() {
        put_rest(domains, rest);
    }
    Ok(true)
}

/// Puts what is left in place of the domain of its variable.
fn put_rest<B: Width>(domains: &mut [IntervalSet<B>], rest: (usize, IntervalSet<B>))
    requires { rest.0 < length domains.old }
    ensures { domains.new ≡ slice_set domains.old rest.0 rest.1 }
{
    let (i, set) = rest;
    domains[i] = set;
}

/// What narrowing by a rule leaves of each domain that loses a member.
fn rests_of<B: Width>(
    alloc: Global,
    domains: &[IntervalSet<B>],
    terms: &[Term],
    relation: Relation,
) -> Result<Rests<B>, AllocError>
    requires light { weight terms.now ≤ 2 ^ 60 }
    requires different { NamesEachOnce terms.now relation }
    requires present { NamesBelow (length domains.now) terms.now relation }
    ensures { IfOk result (λ rests. AreRestsOf terms.now relation domains.now (LinearNames terms.now relation) rests.items) }
{
    let ends = ends_of(terms, domains);
    let mut rests = rests_of_terms(alloc, domains, terms, relation, ends)?;
    match relation {
        Relation::AtMost(_) => Ok(rests),
        Relation::AtLeast(_) => Ok(rests),
        Relation::Differs(_) => Ok(rests),
        Relation::Tells { variable, bound } => {
            let rest = rest_of_teller(domains, variable, bound, ends)?;
            push_rest(&mut rests, variable, rest)?;
            Ok(rests)
        }
    }
}

/// What narrowing by a rule leaves of the domain of each term that loses a member.
fn rests_of_terms<B: Width>(
    alloc: Global,
    domains: &[IntervalSet<B>],
    terms: &[Term],
    relation: Relation,
    ends: Option<SumEnds>,
) -> Result<Rests<B>, AllocError>
    requires light { weight terms.now ≤ 2 ^ 60 }
    requires different { NamesEachOnce terms.now relation }
    requires present { NamesBelow (length domains.now) terms.now relation }
    requires ends { AreEndsOf terms.now (set_at domains.now) ends }
    ensures { IfOk result (λ rests. AreRestsOf terms.now relation domains.now (HasTermOf terms.now) rests.items) }
{
    let mut rests = Vec::new(alloc);
    for k in 0..terms.len() {
        let rest = rest_of_term(domains, terms, relation, ends, k)?;
        push_rest(&mut rests, terms[k].variable, rest)?;
    }
    Ok(rests)
}

/// Adds what is left of the domain of a variable, if that loses a member.
fn push_rest<B: Width>(
    rests: &mut Rests<B>,
    variable: usize,
    rest: Option<IntervalSet<B>>,
) -> Result<(), AllocError>
    ensures { OnOk result (rests.new.items ≡ with_rest rests.old.items variable rest) }
{
    match rest {
        Some(set) => {
            rests.push((variable, set))?;
            Ok(())
        }
        None => Ok(()),
    }
}

/// Returns what narrowing by a rule leaves of the domain of one term, or `None` if that loses no member.
///
/// The caller must ensure that the terms are light, that the rule names each of its variables once, that each has a domain, and that
/// `ends` is what [`ends_of`] returns for these domains. Check with [`is_light`](super::is_light),
/// [`is_over_different`](super::is_over_different) and [`first_unknown`](super::first_unknown).
///
/// `O(1)` where no member is lost, `O(log n)` for a `Differs`, and does not allocate then; else a binary search and a copy of what is
/// left: `O(n)`.
///
/// # Errors
///
/// Fails only if allocation fails.
///
/// ```
/// // 3 * x - 2 * y != 4, where y is 4
/// let domains = vec![in alloc; IntervalSet::new(alloc, 0, 4)?, IntervalSet::new(alloc, 4, 4)?]?;
/// let terms = [Term { coefficient: 3, variable: 0 }, Term { coefficient: -2, variable: 1 }];
/// let ends = ends_of(&terms, &domains);
/// let left = rest_of_term(&domains, &terms, Relation::Differs(4), ends, 0)?;
/// assert!(rt; left == Some(IntervalSet::new(alloc, 0, 3)?));
/// assert!(rt; rest_of_term(&domains, &terms, Relation::Differs(4), ends, 1)?.is_none());
/// ```
pub fn rest_of_term<B: Width>(
    domains: &[IntervalSet<B>],
    terms: &[Term],
    relation: Relation,
    ends: Option<SumEnds>,
    k: usize,
) -> Result<Option<IntervalSet<B>>, AllocError>
    requires light { weight terms.now ≤ 2 ^ 60 }
    requires different { NamesEachOnce terms.now relation }
    requires present { NamesBelow (length domains.now) terms.now relation }
    requires ends { AreEndsOf terms.now (set_at domains.now) ends }
    requires known { k < length terms.now }
    // On success the result has the members of the term's variable that are in a point of the domains which satisfies the rule, or is
    // `None` if all are.
    ensures { IfOk result (IsRestOf (slice_index_or domains.now (term_at terms.now k).variable []) (HasLinearPointAt terms.now relation (set_at domains.now) (term_at terms.now k).variable)) }
{
    match ends {
        Some(ends) => rest_of_filled(domains, terms, relation, &ends, k),
        None => {
            let term = terms[k];
            Ok(rest_of_none(&domains[term.variable]))
        }
    }
}

/// What narrowing by a rule leaves of the domain of one term, where no domain of a term is empty.
fn rest_of_filled<B: Width>(
    domains: &[IntervalSet<B>],
    terms: &[Term],
    relation: Relation,
    ends: &SumEnds,
    k: usize,
) -> Result<Option<IntervalSet<B>>, AllocError>
    requires light { weight terms.now ≤ 2 ^ 60 }
    requires different { NamesEachOnce terms.now relation }
    requires present { NamesBelow (length domains.now) terms.now relation }
    requires ends { AreSumEnds terms.now (set_at domains.now) ends.now }
    requires known { k < length terms.now }
    ensures { IfOk result (IsRestOf (slice_index_or domains.now (term_at terms.now k).variable []) (HasLinearPointAt terms.now relation (set_at domains.now) (term_at terms.now k).variable)) }
{
    let term = terms[k];
    let domain = &domains[term.variable];
    match relation {
        Relation::AtMost(bound) => rest_within(domain, allowed(terms, bound, ends, domains, k)),
        Relation::AtLeast(bound) => {
            rest_within(domain, required(terms, bound as i128, ends, domains, k))
        }
        Relation::Differs(number) => {
            rest_outside(domain, lost_of(terms, number, ends, domains, k))
        }
        Relation::Tells { variable, bound } => {
            rest_within(
                domain,
                allowed_by_answer(terms, variable, bound, ends, domains, k),
            )
        }
    }
}

/// Returns what narrowing leaves of the domain of the variable that tells whether a sum is within a bound, or `None` if that loses no
/// member.
///
/// The caller must ensure that the variable has a domain. The result is right for terms of which none is of the variable, where
/// `ends` is what [`ends_of`] returns for them and these domains. Check with [`first_unknown`](super::first_unknown) and
/// [`is_over_different`](super::is_over_different).
///
/// `O(1)` where no member is lost, and does not allocate then; else a binary search and a copy of what is left: `O(n)`.
///
/// # Errors
///
/// Fails only if allocation fails.
///
/// ```
/// // b tells whether 3 * x - 2 * y is at most 4: for x from 2 to 4, where y is 0, it is not
/// let bit = IntervalSet::new(alloc, 0, 1)?;
/// let domains = vec![in alloc; IntervalSet::new(alloc, 2, 4)?, IntervalSet::new(alloc, 0, 0)?, bit]?;
/// let terms = [Term { coefficient: 3, variable: 0 }, Term { coefficient: -2, variable: 1 }];
/// let left = rest_of_teller(&domains, 2, 4, ends_of(&terms, &domains))?;
/// assert!(rt; left == Some(IntervalSet::new(alloc, 0, 0)?));
/// ```
pub fn rest_of_teller<B: Width>(
    domains: &[IntervalSet<B>],
    variable: usize,
    bound: i64,
    ends: Option<SumEnds>,
) -> Result<Option<IntervalSet<B>>, AllocError>
    requires present { variable < length domains.now }
    // On success, if these are the ends of terms of which none is of the variable, the result has the members of the variable that are
    // in a point of the domains which satisfies the rule, or is `None` if all are.
    ensures { (terms : List Term) → ¬ (HasTermOf terms variable) → AreEndsOf terms (set_at domains.now) ends
        → IfOk result (IsRestOf (slice_index_or domains.now variable []) (HasLinearPointAt terms (TellsRelation variable bound) (set_at domains.now) variable)) }
{
    let domain = &domains[variable];
    match ends {
        Some(ends) => rest_within(domain, answers_of(bound, ends.least, ends.greatest)),
        None => Ok(rest_of_none(domain)),
    }
}
