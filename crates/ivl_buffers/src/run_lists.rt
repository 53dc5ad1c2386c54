//! Lists that are already the runs of a set.
ghost use Rattle.std.specs.Prelude.{◌≡◌, ◌↔◌, ◌+◌, ◌^◌, ◌<◌, ◌≤◌, ◌+ℤ◌, ◌≤ℤ◌, IsTrue, drop, length, map, pos};
ghost use Rattle.ivl_laws.specs.Sets.{IsBetween};
ghost use Rattle.ivl_laws.specs.Runs.{IsRunListIn};
ghost use Rattle.ivl_buffers.specs.Links.{AreLinked, EndsIn, IsLinked, StartsIn};
ghost use Rattle.ivl_walks.specs.Sinks.{IsRunIn};

use crate::pair::Pair;
use intervallum::interval::Interval;
use intervallum::ops::Range;
use intervallum::width::Width;
use ivl_merges::merges::one_if;

/// Returns true exactly when no pair is crossed, the pairs ascend with at least one number missing
/// between neighbours, and all are in the range. `O(n)`, does not allocate.
pub fn is_run_list<R: Pair>(runs: &[R]) -> bool
    // True exactly when the pairs are not crossed, ascend, lie in the range, and neither overlap nor touch.
    ensures { IsTrue result ↔ IsRunListIn R.Bound.whole (map R.pair runs.now) }
{
    has_ends(runs) & are_linked(runs)
}

/// The most runs of a list that is walked, so that the number of runs of an answer fits `i64`.
const MOST_RUNS: usize = 1 << 61;

/// Returns true only if the pairs are a list of runs, and their number leaves room to count with.
pub(crate) fn can_walk<R: Pair>(runs: &[R]) -> bool
    ensures runs { IsTrue result → IsRunListIn R.Bound.whole (map R.pair runs.now) }
    ensures counted { IsTrue result → length runs.now ≤ 2 ^ 61 }
{
    runs.len() <= MOST_RUNS && is_run_list(runs)
}

/// Returns true only if both are lists of runs, and their numbers leave room to count with.
pub(crate) fn can_walk_both<R: Pair>(a: &[R], b: &[R]) -> bool
    ensures first { IsTrue result → IsRunListIn R.Bound.whole (map R.pair a.now) }
    ensures second { IsTrue result → IsRunListIn R.Bound.whole (map R.pair b.now) }
    ensures counted { IsTrue result → length a.now + length b.now < 2 ^ 63 }
{
    a.len() <= MOST_RUNS && b.len() <= MOST_RUNS && are_run_lists(a, b)
}

/// True exactly when both are lists of runs.
fn are_run_lists<R: Pair>(a: &[R], b: &[R]) -> bool
    ensures { IsTrue result ↔ (IsRunListIn R.Bound.whole (map R.pair a.now) × IsRunListIn R.Bound.whole (map R.pair b.now)) }
{
    has_ends(a) & has_ends(b) & are_both_linked(a, b)
}

/// True exactly when the first pair, if there is one, does not start below the range, and the last
/// one is a run in the range.
fn has_ends<R: Pair>(runs: &[R]) -> bool
    ensures { IsTrue result ↔ (StartsIn R.Bound.whole (map R.pair runs.now) × EndsIn R.Bound.whole (map R.pair runs.now)) }
{
    if runs.is_empty() {
        return true;
    }
    let (first, last) = (runs[0], runs[runs.len() - 1]);
    R::Bound::min_value() <= first.lower() && is_run(last)
}

/// True exactly when the pair is not crossed and its bounds are in the range.
fn is_run<R: Pair>(run: R) -> bool
    ensures { IsTrue result ↔ IsRunIn R.Bound.whole (R.pair run) }
{
    run.lower() <= run.upper() && Interval::in_range(run.lower(), run.upper())
}

/// The fewest pairs that are tested in parts.
const FEWEST_IN_PARTS: usize = 64;

/// True exactly when each pair of both lists but their last is linked to the next.
fn are_both_linked<R: Pair>(a: &[R], b: &[R]) -> bool
    ensures { IsTrue result ↔ (AreLinked R.Bound.whole (map R.pair a.now) × AreLinked R.Bound.whole (map R.pair b.now)) }
{
    let count = a.len().min(b.len());
    if count < FEWEST_IN_PARTS {
        return are_linked(a) & are_linked(b);
    }
    let part = (count - 1) / 2;
    let (first, more) = split_at_pair(a, part);
    let (second, a_rest) = split_at_pair(more, part);
    let (third, others) = split_at_pair(b, part);
    let (fourth, b_rest) = split_at_pair(others, part);
    four_are_linked(first, second, third, fourth) & are_linked(a_rest) & are_linked(b_rest)
}

/// True exactly when each pair but the last is linked to the next.
fn are_linked<R: Pair>(runs: &[R]) -> bool
    ensures { IsTrue result ↔ AreLinked R.Bound.whole (map R.pair runs.now) }
{
    if runs.len() < FEWEST_IN_PARTS {
        return are_linked_in_turn(runs);
    }
    let part = (runs.len() - 1) / 4;
    let (first, others) = split_at_pair(runs, part);
    let (second, more) = split_at_pair(others, part);
    let (third, few) = split_at_pair(more, part);
    let (fourth, rest) = split_at_pair(few, part);
    four_are_linked(first, second, third, fourth) & are_linked_in_turn(rest)
}

/// The pairs up to the one at a place, and those from it on: it is in both.
fn split_at_pair<R: Pair>(runs: &[R], i: usize) -> (&[R], &[R])
    requires { i < length runs.now }
    ensures first { length result.0.now ≡ i + 1 }
    ensures second { length result.1.now + i ≡ length runs.now }
    ensures linked { (AreLinked R.Bound.whole (map R.pair result.0.now) × AreLinked R.Bound.whole (map R.pair result.1.now)) ↔ AreLinked R.Bound.whole (map R.pair runs.now) }
{
    (&runs[..i + 1], &runs[i..])
}

/// True exactly when each pair but the last of each of four parts, which are equally long, is linked to
/// the next. The four are read side by side: so none waits for the memory of another, and no branch
/// hangs on the values.
fn four_are_linked<R: Pair>(first: &[R], second: &[R], third: &[R], fourth: &[R]) -> bool
    requires filled { 0 < length first.now }
    requires second { length second.now ≡ length first.now }
    requires third { length third.now ≡ length first.now }
    requires fourth { length fourth.now ≡ length first.now }
    ensures { IsTrue result ↔ (AreLinked R.Bound.whole (map R.pair first.now) × AreLinked R.Bound.whole (map R.pair second.now)
        × AreLinked R.Bound.whole (map R.pair third.now) × AreLinked R.Bound.whole (map R.pair fourth.now)) }
{
    let (more, others, rest) = (
        as_long_as(second, first),
        as_long_as(third, first),
        as_long_as(fourth, first),
    );
    let last = first.len() - 1;
    let mut are_all = true;
    for i in 0..last {
        let are_two = is_linked_at(first, i) & is_linked_at(more, i);
        let are_more = is_linked_at(others, i) & is_linked_at(rest, i);
        are_all = are_all & are_two & are_more;
    }
    are_all
}

/// The same pairs, as many as another list has: a compiler that knows it need not test each index.
fn as_long_as<'a, R: Pair>(runs: &'a [R], other: &[R]) -> &'a [R]
    requires { length runs.now ≡ length other.now }
    ensures { result.now ≡ runs.now }
{
    &runs[..other.len()]
}

/// As `are_linked`, from the first pair on.
fn are_linked_in_turn<R: Pair>(runs: &[R]) -> bool
    ensures { IsTrue result ↔ AreLinked R.Bound.whole (map R.pair runs.now) }
{
    if runs.is_empty() {
        return true;
    }
    let last = runs.len() - 1;
    let mut are_all = true;
    for i in 0..last {
        are_all = are_all & is_linked_at(runs, i);
    }
    are_all
}

/// True exactly when the pair at a place is linked to the next: whether it is and those after it are
/// linked decides of those from it on.
fn is_linked_at<R: Pair>(runs: &[R], i: usize) -> bool
    requires { i + 1 < length runs.now }
    ensures { (IsTrue result × AreLinked R.Bound.whole (map R.pair (drop (i + 1) runs.now))) ↔ AreLinked R.Bound.whole (map R.pair (drop i runs.now)) }
{
    is_linked(runs[i], runs[i + 1])
}

/// True exactly when a pair is not crossed, and the number above it is in the range and below another
/// pair.
fn is_linked<R: Pair>(run: R, next: R) -> bool
    ensures { IsTrue result ↔ IsLinked R.Bound.whole (R.pair run) (R.pair next) }
{
    let is_open = run.lower() <= run.upper();
    is_open & is_below(run, next)
}

/// True exactly when the number above a pair is in the range and below another pair.
fn is_below<R: Pair>(run: R, next: R) -> bool
    ensures { IsTrue result ↔ (IsBetween R.Bound.whole ((R.pair run).1 +ℤ pos 1) × (((R.pair run).1 +ℤ pos 2) ≤ℤ (R.pair next).0)) }
{
    match run.upper().checked_add(R::Bound::one()) {
        Some(above) => above < next.lower(),
        None => false,
    }
}

/// Returns true exactly when some number lies above one run and below another. `O(1)`.
pub fn leaves_free<R: Pair>(last: R, run: R) -> bool
    requires last { IsRunIn R.Bound.whole (R.pair last) }
    requires run { IsRunIn R.Bound.whole (R.pair run) }
    // True exactly when a number lies between the end of `last` and the start of `run`.
    ensures { IsTrue result ↔ (((R.pair last).1 +ℤ pos 2) ≤ℤ (R.pair run).0) }
{
    let (end, start) = (last.upper(), run.lower());
    end.add_in_range(one_if(end < start)) < start
}
