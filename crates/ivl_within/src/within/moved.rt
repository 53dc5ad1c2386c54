//! The results in a set where one operand is a single number: the runs of the other one, moved or turned.
ghost use Rattle.std.specs.Prelude.{◌≡◌, ◌<◌, ◌≤◌, IfOk, MatchOption, OnOk, length, take};
ghost use Rattle.ivl_laws.specs.Sets.{Intersection, IsBetween, IsSubset, SameMembers, Union};
ghost use Rattle.ivl_laws.specs.Runs.{Covers, IsMaximal, IsRunsOf};
ghost use Rattle.ivl_within.specs.Within.{SumsBy};
ghost use Rattle.ivl_within.specs.Moved.{HasOneRun, image_by, image_count};

use super::Combined;
use super::fronts::result_at;
use intervallum::interval::Interval;
use intervallum::interval_set::IntervalSet;
use intervallum::ops::{Intersection, IsEmpty, Subset};
use intervallum::sweep::coalesce;
use intervallum::width::Width;
use std::alloc::AllocError;

/// The members of `x` that are results, or `None` if it finds that all are, where one of two sets is one run, best a
/// single number: then the results are as many runs as the other one has, apart from each other.
pub fn results_by_moving<B: Width>(
    x: &IntervalSet<B>,
    a: &IntervalSet<B>,
    b: &IntervalSet<B>,
    op: Combined,
) -> Result<Option<IntervalSet<B>>, AllocError>
    requires one { HasOneRun a.now b.now }
    requires fits { IsSubset (SumsBy op (Covers a.now) (Covers b.now)) (IsBetween B.whole) }
    ensures { IfOk result (λ o. MatchOption o (IsSubset (Covers x.now) (SumsBy op (Covers a.now) (Covers b.now)))
        (λ L. IsRunsOf L (Intersection (Covers x.now) (SumsBy op (Covers a.now) (Covers b.now))))) }
{
    let runs = x.iter().as_slice();
    let left = a.iter().as_slice();
    let right = b.iter().as_slice();
    let kept = count_within(runs, left, right, op);
    if kept == runs.len() {
        return Ok(None);
    }
    let mut entries = Vec::with_capacity(x.allocator(), runs.len())?;
    entries.extend_from_slice(&runs[..kept])?;
    push_common(&mut entries, &runs[kept..], left, right, op)?;
    Ok(Some(coalesce(x.allocator(), entries)?))
}

/// How many runs of a list stand before the first one that is not within one run of the results.
fn count_within<B: Width>(
    runs: &[Interval<B>],
    a: &[Interval<B>],
    b: &[Interval<B>],
    op: Combined,
) -> usize
    requires left { IsMaximal a.now }
    requires right { IsMaximal b.now }
    requires one { HasOneRun a.now b.now }
    requires fits { IsSubset (SumsBy op (Covers a.now) (Covers b.now)) (IsBetween B.whole) }
    ensures at_most { result ≤ length runs.now }
    ensures within { IsSubset (Covers (take result runs.now)) (SumsBy op (Covers a.now) (Covers b.now)) }
{
    let count = count_images(a, b);
    let mut within = 0;
    let mut place = 0;
    'walk: while within < runs.len() && place < count {
        let run = runs[within];
        let image = image_at(a, b, op, place);
        if run.is_subset(&image) {
            within += 1;
        } else if image.upper_bound() < run.lower_bound() {
            place += 1;
        } else {
            return within;
        }
    }
    within
}

/// Adds what each run of a list and each run of the results have in common.
fn push_common<B: Width>(
    entries: &mut Vec<Interval<B>>,
    runs: &[Interval<B>],
    a: &[Interval<B>],
    b: &[Interval<B>],
    op: Combined,
) -> Result<(), AllocError>
    requires runs { IsMaximal runs.now }
    requires left { IsMaximal a.now }
    requires right { IsMaximal b.now }
    requires one { HasOneRun a.now b.now }
    requires fits { IsSubset (SumsBy op (Covers a.now) (Covers b.now)) (IsBetween B.whole) }
    ensures { OnOk result (SameMembers (Covers entries.new.items) (Union (Covers entries.old.items) (Intersection (Covers runs.now) (SumsBy op (Covers a.now) (Covers b.now))))) }
{
    let count = count_images(a, b);
    let mut next = 0;
    let mut place = 0;
    'walk: while next < runs.len() && place < count {
        let run = runs[next];
        let image = image_at(a, b, op, place);
        push_part(entries, run.intersection(&image))?;
        if image.upper_bound() <= run.upper_bound() {
            place += 1;
        } else {
            next += 1;
        }
    }
    Ok(())
}

/// Adds an interval unless it is empty.
fn push_part<B: Width>(entries: &mut Vec<Interval<B>>, part: Interval<B>) -> Result<(), AllocError>
    ensures { OnOk result (SameMembers (Covers entries.new.items) (Union (Covers entries.old.items) (IsBetween part))) }
{
    if part.is_empty() {
        return Ok(());
    }
    entries.push(part)?;
    Ok(())
}

/// How many runs the results are made of.
fn count_images<B: Width>(a: &[Interval<B>], b: &[Interval<B>]) -> usize
    ensures { result ≡ image_count a.now b.now }
{
    if a.len() == 1 { b.len() } else { a.len() }
}

/// The run of the results at a place, where they ascend.
fn image_at<B: Width>(
    a: &[Interval<B>],
    b: &[Interval<B>],
    op: Combined,
    place: usize,
) -> Interval<B>
    requires left { IsMaximal a.now }
    requires right { IsMaximal b.now }
    requires one { HasOneRun a.now b.now }
    requires fits { IsSubset (SumsBy op (Covers a.now) (Covers b.now)) (IsBetween B.whole) }
    requires place { place < image_count a.now b.now }
    ensures { result ≡ image_by op a.now b.now place }
{
    if a.len() == 1 {
        result_at(a[0], b, op, place)
    } else {
        result_at(a[place], b, op, 0)
    }
}
