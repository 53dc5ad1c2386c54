//! The members of a set that are sums or differences.
ghost use Rattle.std.specs.Prelude.{◌≡◌, ◌↔◌, IfOk, IsTrue, MatchOption, length};
ghost use Rattle.ivl_laws.specs.Sets.{Intersection, IsBetween, IsSubset};
ghost use Rattle.ivl_laws.specs.Runs.{Covers, IsRunsOf};
ghost use Rattle.ivl_within.specs.Within.{SumsBy};

use super::by_runs::results_by_runs;
use super::fronts::results_by_fronts;
use super::moved::results_by_moving;
use super::{Combined, combine};
use intervallum::interval_set::IntervalSet;
use intervallum::ops::{Fits, Intersection, IsEmpty, IsSingleton};
use intervallum::width::Width;
use std::alloc::AllocError;

/// The number of runs of three lists below which fronts are tried: each step of a front walks over two of
/// the lists, and each pair of runs costs more where it is sorted.
const FEW: usize = 64;

/// Returns the members of `x` that are the sum, or the difference, of a member of `a` and one of `b`.
///
/// If the three have fewer than 64 runs and all results are in the range, finds them in order: each run
/// of the answer, and each gap in a run of `x`, takes a walk of `O(n + m)` for `n` and `m` runs of `a` and
/// `b`, or more where results touch. Where `a` or `b` is a single number, one walk over the runs of the
/// other one and of `x` finds all. Reserves as many runs as `x` has, and grows where the answer has more.
///
/// Else makes the `k` pairs of runs whose results reach the interval from the least to the greatest member
/// of `x`, at the cost of [`sums_in_window`](super::sums_in_window), and intersects these results with
/// `x` unless `x` is one run. If `k` may be large, first looks for the results in each run of `x` alone,
/// and is done with a run at a pair that makes all of it: `O(log n + log m)` if that is the first one.
/// Goes back to the pairs if this takes longer than they do. So `O((n + k + p) log (n m))` at most, for
/// `p` runs of `x`. Allocates as it goes, at most about `6 k + 3 p` runs.
///
/// Returns the empty set if `x` is empty, and then does not allocate.
///
/// # Errors
///
/// Fails only if allocation fails.
///
/// ```
/// let a: IntervalSet<i16> = [(0, 0), (10, 12), (90, 95)].to_interval_set(alloc)?;
/// let b: IntervalSet<i16> = [(1, 2), (50, 60)].to_interval_set(alloc)?;
/// let x = IntervalSet::new(alloc, 60, 93)?;
/// let sums = results_in_set(&x, &a, &b, Combined::Sum)?;
/// assert!(rt; sums == [(60, 72), (91, 93)].to_interval_set(alloc)?);
/// ```
pub fn results_in_set<B: Width>(
    x: &IntervalSet<B>,
    a: &IntervalSet<B>,
    b: &IntervalSet<B>,
    op: Combined,
) -> Result<IntervalSet<B>, AllocError>
    // On success, the members are exactly those of `x` that are a sum, or by `op` a difference, of a member of `a` and
    // one of `b`.
    ensures { IfOk result (λ L. IsRunsOf L (Intersection (Covers x.now) (SumsBy op (Covers a.now) (Covers b.now)))) }
{
    if x.is_empty() {
        return Ok(IntervalSet::empty(x.allocator()));
    }
    match results_unless_all(x, a, b, op)? {
        Some(results) => Ok(results),
        None => clone_of(x),
    }
}

/// Returns the members of `x` that are the sum, or the difference, of a member of `a` and one of `b`, or
/// `None` if it finds that all are. Where `None` is returned it does not allocate.
///
/// Costs what [`results_in_set`] costs. If the three have 64 runs or more, or some result is not in the
/// range, never returns `None`.
///
/// # Errors
///
/// Fails only if allocation fails.
///
/// ```
/// let a: IntervalSet<i16> = [(0, 0), (10, 12)].to_interval_set(alloc)?;
/// let b = IntervalSet::new(alloc, 50, 60)?;
/// let x = IntervalSet::new(alloc, 55, 62)?;
/// assert!(rt; results_unless_all(&x, &a, &b, Combined::Sum)?.is_none());
/// ```
pub fn results_unless_all<B: Width>(
    x: &IntervalSet<B>,
    a: &IntervalSet<B>,
    b: &IntervalSet<B>,
    op: Combined,
) -> Result<Option<IntervalSet<B>>, AllocError>
    // On success, `None` says that each member of `x` is a sum, or by `op` a difference, of a member of `a` and one of
    // `b`; a set has exactly the members of `x` that are.
    ensures { IfOk result (λ o. MatchOption o (IsSubset (Covers x.now) (SumsBy op (Covers a.now) (Covers b.now)))
        (λ L. IsRunsOf L (Intersection (Covers x.now) (SumsBy op (Covers a.now) (Covers b.now))))) }
{
    if are_few(x, a, b) && all_fit(a, b, op) {
        if is_number(a) || is_number(b) {
            return results_by_moving(x, a, b, op);
        }
        return results_by_fronts(x, a, b, op);
    }
    Ok(Some(results_by_pairs(x, a, b, op)?))
}

/// Whether three sets have few runs together.
fn are_few<B: Width>(x: &IntervalSet<B>, a: &IntervalSet<B>, b: &IntervalSet<B>) -> bool {
    let count = a.interval_count().saturating_add(b.interval_count());
    count.saturating_add(x.interval_count()) < FEW
}

/// Whether a set is a single number.
fn is_number<B: Width>(a: &IntervalSet<B>) -> bool
    ensures { IsTrue result → length a.now ≡ 1 }
{
    a.in_whole();
    a.is_singleton()
}

/// Whether all results are in the range.
fn all_fit<B: Width>(a: &IntervalSet<B>, b: &IntervalSet<B>, op: Combined) -> bool
    ensures { IsTrue result ↔ IsSubset (SumsBy op (Covers a.now) (Covers b.now)) (IsBetween B.whole) }
{
    match op {
        Combined::Sum => a.fits_add(b),
        Combined::Difference => a.fits_sub(b),
    }
}

/// A copy of a set.
fn clone_of<B: Width>(x: &IntervalSet<B>) -> Result<IntervalSet<B>, AllocError>
    ensures { IfOk result (λ L. IsRunsOf L (Covers x.now)) }
{
    x.in_whole();
    x.try_clone()
}

/// The members of `x` that are results, from all results in the hull of `x`.
fn results_by_pairs<B: Width>(
    x: &IntervalSet<B>,
    a: &IntervalSet<B>,
    b: &IntervalSet<B>,
    op: Combined,
) -> Result<IntervalSet<B>, AllocError>
    ensures { IfOk result (λ L. IsRunsOf L (Intersection (Covers x.now) (SumsBy op (Covers a.now) (Covers b.now)))) }
{
    if let Some(results) = results_by_runs(x, a, b, op)? {
        return Ok(results);
    }
    let made = combine(a, b, op, x.hull(), 0)?;
    if x.interval_count() == 1 {
        return Ok(made);
    }
    x.intersection(&made)
}
