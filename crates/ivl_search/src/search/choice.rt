//! What a search does with narrowed domains, and where it cuts one.
ghost use Rattle.std.specs.Prelude.{◌≡◌, ◌≢◌, ◌<◌, IfSome, MatchOption, None, length, ℤ};
ghost use Rattle.ivl_laws.specs.Families.{set_at};
ghost use Rattle.ivl_laws.specs.Runs.{Covers};
ghost use Rattle.ivl_laws.specs.Sets.{Above, Below, HasNone, HasSome, Intersection, IsBetween, Only, SameMembers};
ghost use Rattle.ivl_search.specs.Best.{IsBetter, IsInPart};
ghost use Rattle.ivl_network.specs.Settled.{HasTwo};
ghost use Rattle.ivl_search.specs.Halves.{IsMiddle};
ghost use Rattle.ivl_search.specs.Nodes.{IsNodeOf};

use intervallum::interval::Interval;
use intervallum::interval_set::IntervalSet;
use intervallum::ops::{Cardinality, Empty, IsEmpty, IsSingleton, Range};
use intervallum::width::{SizeNumber, Width};

/// Which numbers of a variable are better. A search looks for them first.
#[derive(Clone, Copy, Debug)]
pub(super) enum Wanted {
    /// Smaller ones.
    Least,
    /// Greater ones.
    Greatest,
}

/// Which numbers of a variable are kept where its domain is cut at a value.
#[derive(Clone, Copy, Debug)]
pub(super) enum Part {
    /// Those that are better than the value.
    Better,
    /// The value, and those that are better.
    AsGood,
    /// Those than which the value is better.
    Worse,
}

/// What a search finds at domains.
#[derive(Clone, Copy, Debug)]
pub(super) enum Node<B> {
    /// They have to be narrowed further.
    Unsettled,
    /// One is empty.
    Dead,
    /// Each has one member.
    Leaf,
    /// The domain of this variable is to be cut at this value.
    Open(usize, B),
}

/// Which of the domains with two members or more is cut first, and where. The degree of a variable
/// is how many rules name it.
pub(super) fn node_of<B: Width>(
    domains: &[IntervalSet<B>],
    degrees: &[usize],
    wanted: Wanted,
) -> Node<B>
    ensures node { IsNodeOf B.value wanted B.whole domains.now result }
    ensures settled { result ≢ Node.Unsettled }
{
    let mut best: Option<usize> = None;
    for (i, domain) in domains.iter().enumerate() {
        if domain.is_empty() {
            return Node::Dead;
        }
        best = better(best, i, domains, degrees);
    }
    match best {
        None => Node::Leaf,
        Some(i) => match cut_value(&domains[i], wanted) {
            Some(value) => Node::Open(i, value),
            None => Node::Dead,
        },
    }
}

/// The domain to be cut, so far: this one if it has two members or more, and is cut before the best
/// of those passed.
fn better<B: Width>(
    best: Option<usize>,
    i: usize,
    domains: &[IntervalSet<B>],
    degrees: &[usize],
) -> Option<usize>
    requires before { IfSome best (λ j. (j < length domains.now) × HasTwo (set_at domains.now j)) }
    requires here { i < length domains.now }
    requires filled { HasSome (set_at domains.now i) }
    ensures known { IfSome result (λ j. (j < length domains.now) × HasTwo (set_at domains.now j)) }
    ensures none { result ≡ None → (best ≡ None) × ((x : ℤ) × SameMembers (set_at domains.now i) (Only x)) }
{
    let domain = &domains[i];
    // for the prover: its runs are maximal
    domain.in_whole();
    if domain.is_singleton() {
        return best;
    }
    match best {
        None => Some(i),
        Some(j) => {
            let degree = degree_of(degrees, i);
            if is_cut_before(domain, degree, &domains[j], degree_of(degrees, j)) {
                Some(i)
            } else {
                Some(j)
            }
        }
    }
}

/// How many rules name a variable.
fn degree_of(degrees: &[usize], variable: usize) -> usize {
    if variable < degrees.len() {
        degrees[variable]
    } else {
        0
    }
}

/// Whether a domain is cut before another: its size is less when divided by the degree of its variable,
/// or the same and its ends are nearer to each other.
fn is_cut_before<B: Width>(
    domain: &IntervalSet<B>,
    degree: usize,
    other: &IntervalSet<B>,
    of_other: usize,
) -> bool {
    // a size is at most 2 to the 64, and a degree is less
    let size = domain.size().number().wrapping_mul(of_other as u128);
    let others = other.size().number().wrapping_mul(degree as u128);
    if size != others {
        return size < others;
    }
    distance_of_ends(domain) < distance_of_ends(other)
}

/// How far apart the least and the greatest member are.
fn distance_of_ends<B: Width>(domain: &IntervalSet<B>) -> i128 {
    match (domain.first(), domain.last()) {
        (Some(first), Some(last)) => last.number().wrapping_sub(first.number()),
        _ => 0,
    }
}

/// The member that is searched first together with the better ones, if there are others: the best
/// member, or one in the middle of more than 64.
fn cut_value<B: Width>(domain: &IntervalSet<B>, wanted: Wanted) -> Option<B>
    requires { HasTwo (Covers domain.now) }
    ensures member { MatchOption result (HasNone (Covers domain.now)) (λ x. Covers domain.now (B.value x)) }
    ensures worse { IfSome result (λ x. HasSome (λ v. Covers domain.now v × IsBetter wanted v (B.value x))) }
    ensures in_range { IfSome result (λ x. IsBetween B.whole (B.value x)) }
{
    // for the prover: its members are in the range
    domain.in_whole();
    let size = domain.size().number();
    if size > 64 {
        middle(domain, wanted)
    } else {
        best_member(domain, wanted)
    }
}

/// The best member, or `None` if the domain is empty.
fn best_member<B: Width>(domain: &IntervalSet<B>, wanted: Wanted) -> Option<B>
    requires { HasTwo (Covers domain.now) }
    ensures member { MatchOption result (HasNone (Covers domain.now)) (λ x. Covers domain.now (B.value x)) }
    ensures worse { IfSome result (λ x. HasSome (λ v. Covers domain.now v × IsBetter wanted v (B.value x))) }
    ensures in_range { IfSome result (λ x. IsBetween B.whole (B.value x)) }
{
    match wanted {
        Wanted::Least => domain.first(),
        Wanted::Greatest => domain.last(),
    }
}

/// The member up to which the better half goes, or `None` if the domain is empty.
pub(super) fn middle<B: Width>(domain: &IntervalSet<B>, wanted: Wanted) -> Option<B>
    ensures { MatchOption result (HasNone (Covers domain.now)) (λ x. IsMiddle wanted (Covers domain.now) (B.value x)) }
{
    let size = domain.size().number();
    let below = match wanted {
        Wanted::Least => size.saturating_sub(1) / 2,
        Wanted::Greatest => size / 2,
    };
    match <B::Output as SizeNumber>::from_number(below) {
        Some(index) => domain.nth(index),
        None => None,
    }
}

/// The numbers of a part at a value, in the range.
pub(super) fn part_of<B: Width>(value: B, wanted: Wanted, part: Part) -> Interval<B>
    requires { IsBetween B.whole (B.value value) }
    ensures { SameMembers (IsBetween result) (Intersection (IsBetween B.whole) (IsInPart wanted part (B.value value))) }
{
    match (wanted, part) {
        (Wanted::Least, Part::Better) | (Wanted::Greatest, Part::Worse) => below(value),
        (Wanted::Greatest, Part::Better) | (Wanted::Least, Part::Worse) => above(value),
        (Wanted::Least, Part::AsGood) => Interval::new(B::min_value(), value),
        (Wanted::Greatest, Part::AsGood) => Interval::new(value, B::max_value()),
    }
}

/// The numbers above a value.
fn above<B: Width>(value: B) -> Interval<B>
    requires { IsBetween B.whole (B.value value) }
    ensures { SameMembers (IsBetween result) (Above (B.value value) (IsBetween B.whole)) }
{
    match value.checked_add(B::one()) {
        Some(next) => Interval::new(next, B::max_value()),
        None => Interval::empty(),
    }
}

/// The numbers below a value.
fn below<B: Width>(value: B) -> Interval<B>
    requires { IsBetween B.whole (B.value value) }
    ensures { SameMembers (IsBetween result) (Below (B.value value) (IsBetween B.whole)) }
{
    match value.checked_sub(B::one()) {
        Some(last) => Interval::new(B::min_value(), last),
        None => Interval::empty(),
    }
}
