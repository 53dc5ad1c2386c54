//! The laws of supported families. Each function here does nothing: its contract is the law.
ghost use Rattle.ivl_store.specs.FamilyLaws.{LaterLiesWithin, LeftIsOne, ListOrderPlaysNoPart, OrderPlaysNoPart, SolutionIsFamily, SolutionsStay, UnionIsSupported};
ghost use Rattle.ivl_store.specs.Measure.{TotalIsSumOfCounts};

use super::{Constraint, Post};
use intervallum::interval_set::IntervalSet;
use intervallum::width::Width;

/// The union, domain by domain, of two families that the constraints support is supported too.
pub fn union_is_supported()
    ensures { UnionIsSupported }
{}

/// The greatest family for `k + 1` posts lies within that for `k`.
pub fn later_lies_within<B: Width>(posts: &[Post<B>])
    ensures { LaterLiesWithin posts.now }
{}

/// Posts leave one family, so [`Store::post_all`](super::Store::post_all) has one answer.
pub fn left_is_one<B: Width>(posts: &[Post<B>])
    ensures { LeftIsOne posts.now }
{}

/// Posts leave the same family in any order.
pub fn order_plays_no_part<B: Width>(posts: &[Post<B>], others: &[Post<B>])
    ensures { OrderPlaysNoPart posts.now others.now }
{}

/// Where [`Store::propagate`](super::Store::propagate) leaves the greatest domains, the same constraints in
/// another order leave domains with the same members.
pub fn list_order_plays_no_part(constraints: &[Constraint], others: &[Constraint])
    ensures { ListOrderPlaysNoPart constraints.now others.now }
{}

/// A point that solves all the constraints within some domains is the only point of a supported
/// family within them.
pub fn solution_is_family()
    ensures { SolutionIsFamily }
{}

/// Domains that keep each supported family keep each point that solves all the constraints.
pub fn solutions_stay()
    ensures { SolutionsStay }
{}

/// The measure that bounds the rounds of [`Store::propagate`](super::Store::propagate) is the sum of
/// the counts of the members of the domains.
pub fn total_is_sum_of_counts<B: Width>(domains: &[IntervalSet<B>])
    ensures { TotalIsSumOfCounts domains.now }
{}
