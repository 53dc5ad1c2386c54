//! Sets from lists and pairs, sets into runs, and the results over each pair of runs.
ghost use Rattle.std.specs.Prelude.{◌≡◌, ◌*◌, All, IfOk, OnErr, OnOk, length, map};
ghost use Rattle.ivl_laws.specs.Sets.{Differences, ExactProducts, Intersection, IsBetween, IsInRange, IsSubset, Products, SameMembers, Sums, Union};
ghost use Rattle.ivl_laws.specs.Runs.{Covers, IsMaximal, IsRunsOf};

use intervallum::interval::Interval;
use intervallum::interval_set::{IntervalSet, IntoRuns, ToIntervalSet};
use intervallum::steps::{Walk, common};
use intervallum::sweep::{Op, coalesce, images};
use intervallum::width::Width;
use std::alloc::{AllocError, Global};

/// Returns the set of the numbers of every pair, in any order.
pub fn set_of_pairs<B: Width>(alloc: Global, pairs: &[(B, B)]) -> Result<IntervalSet<B>, AllocError>
    requires { All (λ p. IsInRange B.whole (B.value p.0, B.value p.1)) pairs.now }
    ensures { IfOk result (λ L. IsRunsOf L (Covers (map (λ p. (B.value p.0, B.value p.1)) pairs.now))) }
{
    pairs.to_interval_set(alloc)
}

/// Returns the set of the members of every interval, in any order.
pub fn set_of_intervals<B: Width>(
    alloc: Global,
    list: Vec<Interval<B>>,
) -> Result<IntervalSet<B>, AllocError>
    ensures { IfOk result (λ L. IsRunsOf L (Covers list.items)) }
{
    coalesce(alloc, list)
}

/// Returns the set of the runs of a list.
pub fn set_of_runs<B: Width>(runs: Vec<Interval<B>>) -> IntervalSet<B>
    requires { IsMaximal runs.items }
    ensures { result ≡ runs.items }
{
    IntervalSet::from_runs(runs)
}

/// Adds the members of every interval to the set, which is unchanged after an error.
pub fn set_extended<B: Width>(
    set: &mut IntervalSet<B>,
    list: Vec<Interval<B>>,
) -> Result<(), AllocError>
    ensures ok { OnOk result (IsRunsOf set.new (Union (Covers set.old) (Covers list.items))) }
    ensures err { OnErr result (set.new ≡ set.old) }
{
    set.extend(list.into_iter())
}

/// Returns the runs of the set by value.
pub fn runs_by_value<B: Width>(set: IntervalSet<B>) -> IntoRuns<B>
    ensures { result ≡ set }
{
    set.into_iter()
}

/// Returns the common members of two sets, by a walk over each.
pub fn common_by_walks<B: Width>(
    a: &IntervalSet<B>,
    b: &IntervalSet<B>,
) -> Result<IntervalSet<B>, AllocError>
    ensures { IfOk result (λ L. IsRunsOf L (Intersection (Covers a.now) (Covers b.now))) }
{
    common(Walk::new(a), Walk::new(b))
}

/// Returns one interval for each pair of runs. Together they cover the sums.
pub fn sums_by_runs<B: Width>(
    a: &IntervalSet<B>,
    b: &IntervalSet<B>,
) -> Result<Vec<Interval<B>>, AllocError>
    requires { IsSubset (Sums (Covers a.now) (Covers b.now)) (IsBetween B.whole) }
    ensures count { IfOk result (λ v. length v.items ≡ length a.now * length b.now) }
    ensures members { IfOk result (λ v. SameMembers (Covers v.items) (Sums (Covers a.now) (Covers b.now))) }
{
    images(a, b, Op::Sum)
}

/// Returns one interval for each pair of runs. Together they cover the differences.
pub fn differences_by_runs<B: Width>(
    a: &IntervalSet<B>,
    b: &IntervalSet<B>,
) -> Result<Vec<Interval<B>>, AllocError>
    requires { IsSubset (Differences (Covers a.now) (Covers b.now)) (IsBetween B.whole) }
    ensures count { IfOk result (λ v. length v.items ≡ length a.now * length b.now) }
    ensures members { IfOk result (λ v. SameMembers (Covers v.items) (Differences (Covers a.now) (Covers b.now))) }
{
    images(a, b, Op::Difference)
}

/// Returns one interval for each pair of runs. Together they cover all numbers between products of
/// each pair.
pub fn products_by_runs<B: Width>(
    a: &IntervalSet<B>,
    b: &IntervalSet<B>,
) -> Result<Vec<Interval<B>>, AllocError>
    requires { IsSubset (ExactProducts (Covers a.now) (Covers b.now)) (IsBetween B.whole) }
    ensures count { IfOk result (λ v. length v.items ≡ length a.now * length b.now) }
    ensures members { IfOk result (λ v. SameMembers (Covers v.items) (Products (Covers a.now) (Covers b.now))) }
{
    images(a, b, Op::Product)
}
