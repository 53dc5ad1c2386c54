//! Each condition of a call is met after its public test: the callers here have no condition of
//! their own, and none of them needs a hand-written proof.
ghost use Rattle.std.specs.Prelude.{◌≡◌, ◌↔◌, ◌⊎◌, ◌+◌, ◌<◌, ◌+ℤ◌, ◌-ℤ◌, ◌*ℤ◌, ◌≤ℤ◌, ◌∷◌, [], ℤ, ⊤, All, None, MatchOption, IfOk, IsTrue, length, map, slice_get};
ghost use Rattle.ivl_laws.specs.Sets.{Differences, ExactProducts, IsBetween, IsHullOf, IsInRange, IsSubset, Only, SameMembers, Sums, SymmetricDifference, Union};
ghost use Rattle.ivl_laws.specs.Runs.{Covers, IsMaximal, IsRunsOf};
ghost use Rattle.ivl_images.specs.Sweeps.{AreImages};
ghost use Rattle.ivl_images.specs.declared.op.Op.TheVariants.{Sum};

use intervallum::interval::Interval;
use intervallum::interval_set::{IntervalSet, ToIntervalSet};
use intervallum::ops::{
    Bounded, Contains, Fits, IsEmpty, Range, Singleton, SymmetricDifference, Union, Whole,
};
use intervallum::steps::{Probes, Walk};
use intervallum::sweep::{Op, images};
use intervallum::width::{SizeNumber, Width};
use std::alloc::{AllocError, Global};

/// Returns the interval of two bounds, if `in_range` allows it.
pub fn interval_if_in_range<B: Width>(lb: B, ub: B) -> Option<Interval<B>>
    ensures { MatchOption result (¬ (IsInRange B.whole (B.value lb, B.value ub))) (λ r. SameMembers (IsBetween r) (IsBetween (B.value lb, B.value ub))) }
{
    if Interval::in_range(lb, ub) {
        Some(Interval::new(lb, ub))
    } else {
        None
    }
}

/// Returns the interval of one value, if `whole` contains it.
pub fn interval_if_contained<B: Width>(value: B) -> Option<Interval<B>>
    ensures { MatchOption result (¬ (IsBetween B.whole (B.value value))) (λ r. r ≡ (B.value value, B.value value)) }
{
    if Interval::whole().contains(&value) {
        Some(Interval::singleton(value))
    } else {
        None
    }
}

/// Returns the least member of an interval, or another value if `is_empty` returns true.
pub fn least_or<B: Width>(a: &Interval<B>, other: B) -> B
    ensures one { (B.value result ≡ B.value other) ⊎ IsBetween a.now (B.value result) }
    ensures least { (z : ℤ) → IsBetween a.now z → B.value result ≤ℤ z }
{
    if a.is_empty() { other } else { a.lower() }
}

/// Returns the greatest member of a set, or another value if `is_empty` returns true.
pub fn greatest_or<B: Width>(set: &IntervalSet<B>, other: B) -> B
    ensures one { (B.value result ≡ B.value other) ⊎ Covers set.now (B.value result) }
    ensures greatest { (z : ℤ) → Covers set.now z → z ≤ℤ B.value result }
{
    if set.is_empty() { other } else { set.upper() }
}

/// Returns the set of one run, if its bounds are in the range and in order.
pub fn run_if_in_order<B: Width>(
    alloc: Global,
    lb: B,
    ub: B,
) -> Result<Option<IntervalSet<B>>, AllocError>
    ensures { IfOk result (λ o. MatchOption o (¬ (IsInRange B.whole (B.value lb, B.value ub) × (B.value lb ≤ℤ B.value ub))) (λ L. L ≡ (B.value lb, B.value ub) ∷ [])) }
{
    if lb <= ub && Interval::in_range(lb, ub) {
        Ok(Some(IntervalSet::new(alloc, lb, ub)?))
    } else {
        Ok(None)
    }
}

/// Returns the set of the runs of a list, if `are_runs` returns true.
pub fn set_if_runs<B: Width>(list: Vec<Interval<B>>) -> Option<IntervalSet<B>>
    ensures { MatchOption result (¬ (IsMaximal list.items)) (λ L. L ≡ list.items) }
{
    if IntervalSet::are_runs(&list) {
        Some(IntervalSet::from_runs(list))
    } else {
        None
    }
}

/// Returns the union of a set and a value, if `in_range` allows the value.
pub fn with_value<B: Width>(
    set: &IntervalSet<B>,
    value: B,
) -> Result<Option<IntervalSet<B>>, AllocError>
    ensures { IfOk result (λ o. MatchOption o (¬ (IsInRange B.whole (B.value value, B.value value))) (λ L. IsRunsOf L (Union (Covers set.now) (Only (B.value value))))) }
{
    if Interval::in_range(value, value) {
        Ok(Some(set.union(&value)?))
    } else {
        Ok(None)
    }
}

/// Returns the sums of two sets, if `fits_add` returns true.
pub fn sums_if_they_fit<B: Width>(
    a: &IntervalSet<B>,
    b: &IntervalSet<B>,
) -> Result<Option<IntervalSet<B>>, AllocError>
    ensures sums { IfOk result (λ o. MatchOption o ⊤ (λ L. IsRunsOf L (Sums (Covers a.now) (Covers b.now)))) }
    ensures none { IfOk result (λ o. (o ≡ None) → ¬ (IsSubset (Sums (Covers a.now) (Covers b.now)) (IsBetween B.whole))) }
{
    if a.fits_add(b) {
        Ok(Some((a + b)?))
    } else {
        Ok(None)
    }
}

/// Returns the differences of a set and a value, if `fits_sub` returns true.
pub fn differences_if_they_fit<B: Width>(
    set: &IntervalSet<B>,
    value: B,
) -> Result<Option<IntervalSet<B>>, AllocError>
    ensures { IfOk result (λ o. MatchOption o (¬ (IsSubset (Differences (Covers set.now) (Only (B.value value))) (IsBetween B.whole))) (λ L. IsRunsOf L (Differences (Covers set.now) (Only (B.value value))))) }
{
    if set.fits_sub(&value) {
        Ok(Some((set - value)?))
    } else {
        Ok(None)
    }
}

/// Returns the hull of the products of two intervals, if `fits_mul` returns true.
pub fn products_if_they_fit<B: Width>(a: &Interval<B>, b: &Interval<B>) -> Option<Interval<B>>
    ensures { MatchOption result (¬ (IsSubset (ExactProducts (IsBetween a.now) (IsBetween b.now)) (IsBetween B.whole))) (λ r. IsHullOf r (ExactProducts (IsBetween a.now) (IsBetween b.now))) }
{
    if a.fits_mul(b) { Some(a * b) } else { None }
}

/// Returns the set of a value alone, if `whole` contains it.
pub fn alone_if_contained<B: Width>(
    alloc: Global,
    value: B,
) -> Result<Option<IntervalSet<B>>, AllocError>
    ensures { IfOk result (λ o. MatchOption o (¬ (IsBetween B.whole (B.value value))) (λ L. L ≡ (B.value value, B.value value) ∷ [])) }
{
    if Interval::whole().contains(&value) {
        Ok(Some(IntervalSet::singleton(alloc, value)?))
    } else {
        Ok(None)
    }
}

/// Returns the symmetric difference of a set and a value, if the value is in the range.
pub fn turned_at<B: Width>(
    set: &IntervalSet<B>,
    value: B,
) -> Result<Option<IntervalSet<B>>, AllocError>
    ensures { IfOk result (λ o. MatchOption o (¬ (IsBetween B.whole (B.value value))) (λ L. IsRunsOf L (SymmetricDifference (Covers set.now) (Only (B.value value))))) }
{
    if Interval::whole().contains(&value) {
        Ok(Some(set.symmetric_difference(&value)?))
    } else {
        Ok(None)
    }
}

/// Returns the set of a pair of bounds, if `in_range` allows them.
pub fn set_if_in_range<B: Width>(
    alloc: Global,
    lower: B,
    upper: B,
) -> Result<Option<IntervalSet<B>>, AllocError>
    ensures { IfOk result (λ o. MatchOption o (¬ (IsInRange B.whole (B.value lower, B.value upper))) (λ L. IsRunsOf L (Covers ((B.value lower, B.value upper) ∷ [])))) }
{
    if Interval::in_range(lower, upper) {
        Ok(Some((lower, upper).to_interval_set(alloc)?))
    } else {
        Ok(None)
    }
}

/// Returns the set of pairs of bounds, if `in_range` allows each pair.
pub fn set_if_each_in_range<B: Width>(
    alloc: Global,
    pairs: &[(B, B)],
) -> Result<Option<IntervalSet<B>>, AllocError>
    ensures { IfOk result (λ o. MatchOption o (¬ (All (λ p. IsInRange B.whole (B.value p.0, B.value p.1)) pairs.now)) (λ L. IsRunsOf L (Covers (map (λ p. (B.value p.0, B.value p.1)) pairs.now)))) }
{
    if pairs
        .iter()
        .all(|(lower, upper)| Interval::in_range(*lower, *upper))
    {
        Ok(Some(pairs.to_interval_set(alloc)?))
    } else {
        Ok(None)
    }
}

/// Advances a walk if `peek` returns a run, and returns true exactly when it did.
pub fn advanced_if_one_is_left<B: Width>(walk: &mut Walk<'_, B>) -> bool
    ensures told { IsTrue result ↔ (walk.new.advances ≡ walk.old.advances + 1) }
    ensures runs { walk.new.advances + length walk.new.left ≡ walk.old.advances + length walk.old.left }
{
    if walk.peek().is_some() {
        walk.advance();
        true
    } else {
        false
    }
}

/// Returns run number `i` of a search, if there is one.
pub fn run_if_there<B: Width>(probes: &mut Probes<'_, B>, i: usize) -> Option<Interval<B>>
    ensures { result ≡ slice_get probes.old.runs i }
{
    if i < probes.len() {
        Some(probes.look(i))
    } else {
        None
    }
}

/// Returns the sums of each pair of runs, if `fits_add` returns true.
pub fn sums_by_runs_if_they_fit<B: Width>(
    a: &IntervalSet<B>,
    b: &IntervalSet<B>,
) -> Result<Option<Vec<Interval<B>>>, AllocError>
    ensures { IfOk result (λ o. MatchOption o (¬ (IsSubset (Sums (Covers a.now) (Covers b.now)) (IsBetween B.whole))) (λ v. AreImages Sum a.now b.now v.items)) }
{
    if a.fits_add(b) {
        Ok(Some(images(a, b, Op::Sum)?))
    } else {
        Ok(None)
    }
}

/// Returns the sum of two values, if `checked_add` has one.
pub fn sum_if_in_range<B: Width>(x: B, y: B) -> Option<B>
    ensures { MatchOption result (¬ (IsBetween B.whole (B.value x +ℤ B.value y))) (λ r. B.value r ≡ B.value x +ℤ B.value y) }
{
    if x.checked_add(y).is_some() {
        Some(x.add_in_range(y))
    } else {
        None
    }
}

/// Returns the difference of two values, if `checked_sub` has one.
pub fn difference_if_in_range<B: Width>(x: B, y: B) -> Option<B>
    ensures { MatchOption result (¬ (IsBetween B.whole (B.value x -ℤ B.value y))) (λ r. B.value r ≡ B.value x -ℤ B.value y) }
{
    if x.checked_sub(y).is_some() {
        Some(x.sub_in_range(y))
    } else {
        None
    }
}

/// Returns the product of two values, if `checked_mul` has one.
pub fn product_if_in_range<B: Width>(x: B, y: B) -> Option<B>
    ensures { MatchOption result (¬ (IsBetween B.whole (B.value x *ℤ B.value y))) (λ r. B.value r ≡ B.value x *ℤ B.value y) }
{
    if x.checked_mul(y).is_some() {
        Some(x.mul_in_range(y))
    } else {
        None
    }
}

/// Returns the sum of two sizes, if `checked_add` has one.
pub fn size_if_in_range<N: SizeNumber>(x: N, y: N) -> Option<N>
    ensures { MatchOption result (N.greatest < N.size x + N.size y) (λ r. N.size r ≡ N.size x + N.size y) }
{
    if x.checked_add(y).is_some() {
        Some(x.add_in_range(y))
    } else {
        None
    }
}
