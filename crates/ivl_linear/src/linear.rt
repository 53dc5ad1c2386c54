//! Linear rules: what is said of a sum of terms, each a coefficient times the number of a variable.
//!
//! A rule is a list of [`Term`]s and a [`Relation`]. [`narrowing::narrow`] takes from the domains of its variables what is in no
//! point that satisfies it: it leaves a member exactly if some point of the domains has it, also of domains with gaps. The terms must
//! name each variable once ([`is_over_different`]), and be light ([`is_light`]), so that no sum overflows, whatever the domains.
//! An equation is two rules, `AtMost` and `AtLeast`; narrowing by one and the other keeps all points of both, and may keep more.
ghost use Rattle.std.specs.Prelude.{◌≡◌, ◌↔◌, ◌<◌, ◌≤◌, ◌^◌, IsTrue, None, Some, length, nat_le, if◌then◌else◌};
ghost use Rattle.ivl_linear.specs.Linear.{AreOfDifferent, HasTermOf, HasTermsBelow, NamesBelow, NamesEachOnce, unknown_named, unknown_term, weight};

mod at_least;
mod at_most;
mod differs;
pub mod laws;
pub mod losses;
pub mod narrowing;
mod rests;
pub mod sums;
mod told;
mod windows;

/// A coefficient and a variable, which is named by its index. Its value is the product with the variable's number.
#[derive(Clone, Copy, Debug, PartialEq, Eq)]
pub struct Term {
    pub coefficient: i64,
    pub variable: usize,
}

/// What is said of the sum of the terms.
#[derive(Clone, Copy, Debug, PartialEq, Eq)]
pub enum Relation {
    /// The sum is at most a number.
    AtMost(i64),
    /// The sum is at least a number.
    AtLeast(i64),
    /// The sum is not a number.
    Differs(i64),
    /// A variable, which no term is of, is 1 if the sum is at most a bound, and 0 if it is not.
    Tells { variable: usize, bound: i64 },
}

/// Returns true exactly when the rule names each of its variables once: no two terms are of one variable, nor is a term of the
/// variable that tells. `O(n^2)` in the number of terms. Does not allocate.
///
/// ```
/// let terms = [Term { coefficient: 3, variable: 0 }, Term { coefficient: -2, variable: 1 }];
/// assert!(rt; is_over_different(&terms, Relation::AtMost(4)));
/// assert!(rt; !is_over_different(&terms, Relation::Tells { variable: 1, bound: 4 }));
/// ```
pub fn is_over_different(terms: &[Term], relation: Relation) -> bool
    // True exactly when the rule names each variable once.
    ensures { IsTrue result ↔ NamesEachOnce terms.now relation }
{
    if !are_of_different(terms) {
        return false;
    }
    match relation {
        Relation::AtMost(_) => true,
        Relation::AtLeast(_) => true,
        Relation::Differs(_) => true,
        Relation::Tells { variable, bound: _ } => !has_term_of(terms, variable),
    }
}

/// Whether no two terms are of one variable.
fn are_of_different(terms: &[Term]) -> bool
    ensures { IsTrue result ↔ AreOfDifferent terms.now }
{
    for (i, term) in terms.iter().enumerate() {
        if has_term_of(&terms[i + 1..], term.variable) {
            return false;
        }
    }
    true
}

/// Whether some term is of a variable.
fn has_term_of(terms: &[Term], variable: usize) -> bool
    ensures { IsTrue result ↔ HasTermOf terms.now variable }
{
    for term in terms {
        if term.variable == variable {
            return true;
        }
    }
    false
}

/// Returns the first variable that the rule names and that is not below `count`, or `None` if all are. The variable that tells comes
/// after those of the terms. `O(n)` in the number of terms. Does not allocate.
///
/// ```
/// let terms = [Term { coefficient: 3, variable: 0 }, Term { coefficient: -2, variable: 5 }];
/// assert_eq!(rt; first_unknown(&terms, Relation::AtMost(4), 2), Some(5));
/// assert_eq!(rt; first_unknown(&terms, Relation::Tells { variable: 6, bound: 4 }, 6), Some(6));
/// assert_eq!(rt; first_unknown(&terms, Relation::AtMost(4), 6), None);
/// ```
pub fn first_unknown(terms: &[Term], relation: Relation, count: usize) -> Option<usize>
    // The result is the first variable that is named and not below the count. If there is none, each is below it.
    ensures first { result ≡ unknown_named count terms.now relation }
    ensures present { result ≡ None → NamesBelow count terms.now relation }
{
    if let Some(i) = first_unknown_term(terms, count) {
        return Some(i);
    }
    match relation {
        Relation::AtMost(_) => None,
        Relation::AtLeast(_) => None,
        Relation::Differs(_) => None,
        Relation::Tells { variable, bound: _ } => unless_below(variable, count),
    }
}

/// The first variable of a term that is not below the count.
fn first_unknown_term(terms: &[Term], count: usize) -> Option<usize>
    ensures first { result ≡ unknown_term count terms.now }
    ensures present { result ≡ None → HasTermsBelow count terms.now }
{
    for term in terms {
        if term.variable >= count {
            return Some(term.variable);
        }
    }
    None
}

/// A variable, unless it is below the count.
fn unless_below(variable: usize, count: usize) -> Option<usize>
    ensures first { result ≡ (if nat_le count variable then Some variable else None) }
    ensures present { result ≡ None → variable < count }
{
    if variable >= count {
        return Some(variable);
    }
    None
}

/// Returns true exactly when the sizes of the coefficients add up to 2^60 at most. No sum of such terms overflows, whatever the
/// numbers of the variables. `O(n)` in the number of terms. Does not allocate.
///
/// ```
/// let term = Term { coefficient: -(1 << 60), variable: 0 };
/// assert!(rt; is_light(&[term]));
/// assert!(rt; !is_light(&[term, Term { coefficient: 1, variable: 1 }]));
/// ```
pub fn is_light(terms: &[Term]) -> bool
    // True exactly when the sizes of the coefficients add up to 2^60 at most.
    ensures { IsTrue result ↔ (weight terms.now ≤ 2 ^ 60) }
{
    let mut left: u64 = 1 << 60;
    for term in terms {
        match left.checked_sub(term.coefficient.unsigned_abs()) {
            Some(rest) => left = rest,
            None => return false,
        }
    }
    true
}
