//! Sums and differences of sets, cut to a window: the range of the bounds, or an interval.
ghost use Rattle.std.specs.Prelude.{◌↔◌, ◌≤ℤ◌, IfOk, IsTrue};
ghost use Rattle.ivl_laws.specs.Sets.{Differences, HasSome, IsBetween, Sums, Without};
ghost use Rattle.ivl_laws.specs.Runs.{Covers, IsMaximal, IsRunListIn, IsRunsOf};
ghost use Rattle.ivl_within.specs.Within.{Clipped, SumsBy};

mod by_runs;
mod fronts;
mod members;
mod moved;
mod pairs;
mod rows;

use intervallum::interval::Interval;
use intervallum::interval_set::IntervalSet;
use intervallum::ops::{Fits, IsEmpty, Whole};
use intervallum::sweep::coalesce;
use intervallum::width::Width;
pub use members::{results_in_set, results_unless_all};
pub use pairs::pair_in_window;
use rows::push_rows;
use std::alloc::{AllocError, Global};

/// What is made of two numbers: their sum, or the first less the second.
#[derive(Clone, Copy)]
pub enum Combined {
    Sum,
    Difference,
}

/// Returns the sums of a member of each set that are in the range, and true exactly when some sum
/// is not. If either set is empty, returns the empty set and false.
///
/// `O(n m log (n m))` for `n` and `m` runs. Reserves `n * m` runs for the pairs, and then as many
/// for the answer unless the sorted pairs are its runs.
///
/// # Errors
///
/// Fails only if allocation fails, or if `n * m` is above `usize::MAX`.
///
/// ```
/// let whole: IntervalSet<i8> = IntervalSet::whole(alloc)?;
/// let (sums, is_cut) = add_within(&whole, &whole)?;
/// assert!(rt; sums == whole && is_cut);
/// ```
pub fn add_within<B: Width>(
    a: &IntervalSet<B>,
    b: &IntervalSet<B>,
) -> Result<(IntervalSet<B>, bool), AllocError>
    // On success, the members are exactly the sums of a member of each set that are in the range, and the flag is true
    // exactly when some sum is not.
    ensures members { IfOk result (λ r. IsRunsOf r.0 (Clipped B.whole (Sums (Covers a.now) (Covers b.now)))) }
    ensures cut { IfOk result (λ r. IsTrue r.1 ↔ HasSome (Without (Sums (Covers a.now) (Covers b.now)) (IsBetween B.whole))) }
{
    let is_cut = !a.fits_add(b);
    Ok((combine_all(a, b, Combined::Sum)?, is_cut))
}

/// Returns the differences of a member of `a` and one of `b` that are in the range, and true
/// exactly when some difference is not. If either set is empty, returns the empty set and false.
///
/// `O(n m log (n m))` for `n` and `m` runs. Reserves `n * m` runs for the pairs, and then as many
/// for the answer unless the sorted pairs are its runs.
///
/// # Errors
///
/// Fails only if allocation fails, or if `n * m` is above `usize::MAX`.
///
/// ```
/// let whole: IntervalSet<i8> = IntervalSet::whole(alloc)?;
/// let none = IntervalSet::empty(alloc);
/// let (differences, is_cut) = sub_within(&whole, &none)?;
/// assert!(rt; differences == none && !is_cut);
/// ```
pub fn sub_within<B: Width>(
    a: &IntervalSet<B>,
    b: &IntervalSet<B>,
) -> Result<(IntervalSet<B>, bool), AllocError>
    // On success, the members are exactly the differences of a member of `a` and one of `b` that are in the range, and
    // the flag is true exactly when some difference is not.
    ensures members { IfOk result (λ r. IsRunsOf r.0 (Clipped B.whole (Differences (Covers a.now) (Covers b.now)))) }
    ensures cut { IfOk result (λ r. IsTrue r.1 ↔ HasSome (Without (Differences (Covers a.now) (Covers b.now)) (IsBetween B.whole))) }
{
    let is_cut = !a.fits_sub(b);
    Ok((combine_all(a, b, Combined::Difference)?, is_cut))
}

/// Returns the sums of a member of each set that are in the window. If the window or either set is
/// empty, returns the empty set.
///
/// Makes only the `k` pairs of runs whose sums reach the window, each by one run of `a` and
/// neighbours in `b`: `O(n log m + k log k)` for `n` and `m` runs. Allocates as it goes, at most
/// about `3 k` runs; if both sets are one run, at most one run.
///
/// # Errors
///
/// Fails only if allocation fails.
///
/// ```
/// let a: IntervalSet<i64> = [(0, 0), (10, 12), (90, 95)].to_interval_set(alloc)?;
/// let b: IntervalSet<i64> = [(1, 2), (50, 60)].to_interval_set(alloc)?;
/// let sums = sums_in_window(&a, &b, &Interval::new(12, 62))?;
/// assert!(rt; sums == [(12, 14), (50, 62)].to_interval_set(alloc)?);
/// ```
pub fn sums_in_window<B: Width>(
    a: &IntervalSet<B>,
    b: &IntervalSet<B>,
    window: &Interval<B>,
) -> Result<IntervalSet<B>, AllocError>
    // On success, the members are exactly the sums of a member of each set that are in the window.
    ensures { IfOk result (λ L. IsRunsOf L (Clipped window.now (Sums (Covers a.now) (Covers b.now)))) }
{
    combine(a, b, Combined::Sum, *window, 0)
}

/// Returns the differences of a member of `a` and one of `b` that are in the window. If the window
/// or either set is empty, returns the empty set.
///
/// Makes only the `k` pairs of runs whose differences reach the window, each by one run of `a` and
/// neighbours in `b`: `O(n log m + k log k)` for `n` and `m` runs. Allocates as it goes, at most
/// about `3 k` runs; if both sets are one run, at most one run.
///
/// # Errors
///
/// Fails only if allocation fails.
///
/// ```
/// let a: IntervalSet<i64> = [(0, 0), (10, 12), (90, 95)].to_interval_set(alloc)?;
/// let b: IntervalSet<i64> = [(1, 2), (50, 60)].to_interval_set(alloc)?;
/// let differences = differences_in_window(&a, &b, &Interval::new(0, 39))?;
/// assert!(rt; differences == [(8, 11), (30, 39)].to_interval_set(alloc)?);
/// ```
pub fn differences_in_window<B: Width>(
    a: &IntervalSet<B>,
    b: &IntervalSet<B>,
    window: &Interval<B>,
) -> Result<IntervalSet<B>, AllocError>
    // On success, the members are exactly the differences of a member of `a` and one of `b` that are in the window.
    ensures { IfOk result (λ L. IsRunsOf L (Clipped window.now (Differences (Covers a.now) (Covers b.now)))) }
{
    combine(a, b, Combined::Difference, *window, 0)
}

/// The results over a member of each that are in the range, with room for all pairs of runs
/// reserved first.
fn combine_all<B: Width>(
    a: &IntervalSet<B>,
    b: &IntervalSet<B>,
    op: Combined,
) -> Result<IntervalSet<B>, AllocError>
    ensures members { IfOk result (λ L. IsRunsOf L (Clipped B.whole (SumsBy op (Covers a.now) (Covers b.now)))) }
    ensures left { IsMaximal a.now }
    ensures right { IsMaximal b.now }
{
    let pairs = a.interval_count().checked_mul(b.interval_count());
    combine(a, b, op, Interval::whole(), pairs.ok_or(AllocError)?)
}

/// The results over a member of each that are in the window, with room for a number of pairs of
/// runs reserved first.
fn combine<B: Width>(
    a: &IntervalSet<B>,
    b: &IntervalSet<B>,
    op: Combined,
    window: Interval<B>,
    room: usize,
) -> Result<IntervalSet<B>, AllocError>
    ensures { IfOk result (λ L. IsRunsOf L (Clipped window (SumsBy op (Covers a.now) (Covers b.now)))) }
{
    if window.is_empty() {
        return Ok(IntervalSet::empty(a.allocator()));
    }
    let left = a.iter().as_slice();
    let right = b.iter().as_slice();
    if left.len() == 1 && right.len() == 1 {
        return IntervalSet::of(a.allocator(), pair_in_window(left[0], right[0], op, window));
    }
    combine_runs(a.allocator(), left, b, op, window, room)
}

/// The results over each pair of a run of a list and one of a set that are in the window.
fn combine_runs<B: Width>(
    alloc: Global,
    left: &[Interval<B>],
    right: &IntervalSet<B>,
    op: Combined,
    window: Interval<B>,
    room: usize,
) -> Result<IntervalSet<B>, AllocError>
    requires left { IsMaximal left.now }
    requires right { IsRunListIn B.whole right.now }
    requires window { window.0 ≤ℤ window.1 }
    ensures { IfOk result (λ L. IsRunsOf L (Clipped window (SumsBy op (Covers left.now) (Covers right.now)))) }
{
    let mut entries = Vec::with_capacity(alloc, room)?;
    push_rows(&mut entries, left, right, op, window)?;
    coalesce(alloc, entries)
}
