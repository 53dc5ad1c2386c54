//! Operations on a set of few runs and one of many: searches for each of the few among the many,
//! from where the last search ended.
ghost use Rattle.std.specs.Prelude.{◌≡◌, ◌↔◌, ℕ, ◌+◌, ◌*◌, ◌^◌, ◌<◌, ◌≤◌, pos, ◌≤ℤ◌, IfOk, IsTrue, OnOk, length, take};
ghost use Rattle.ivl_laws.specs.Counts.{IsCountOf};
ghost use Rattle.ivl_laws.specs.Sets.{Intersection, IsBetween, SameMembers, Union, Without};
ghost use Rattle.ivl_laws.specs.Runs.{Covers, IsRunListIn, IsRunsOf, StartsBy};
ghost use Rattle.ivl_places.specs.Places.{EndBelow, EndsFrom};
ghost use Rattle.ivl_walks.specs.Order.{IsBelow};

use super::IntervalSet;
use super::builder::grown;
use super::runs_within::size_of_part;
use crate::interval::Interval;
use crate::ops::{Bounded, Complement};
use crate::steps::{Probes, Walk, first_from, last_up_to, without};
use crate::width::{SizeNumber, Width};
use std::alloc::AllocError;

/// How many times as many runs the other set must have for a search to take fewer steps.
const FAR_MORE: usize = 16;

/// The first set has so few runs, compared with the second, that a search for each of them takes
/// fewer steps than a walk over both.
pub(super) fn is_far_shorter<B: Width>(few: &IntervalSet<B>, many: &IntervalSet<B>) -> bool
    ensures { IsTrue result ↔ (16 * (length few.now + 1) ≤ length many.now) }
{
    few.interval_count() < many.interval_count() / FAR_MORE
}

/// The members that a set of few runs has in common with one of many. Reserves the few, and more as
/// the answer grows. Copies the runs of the many that are kept whole.
///
/// The searches see the runs of the many by the looks of `probes` alone.
pub(super) fn common_with_few<B: Width>(
    few: &IntervalSet<B>,
    many: &IntervalSet<B>,
    probes: &mut Probes<'_, B>,
) -> Result<IntervalSet<B>, AllocError>
    requires same { probes.old.runs ≡ many.now }
    ensures members { IfOk result (λ L. IsRunsOf L (Intersection (Covers few.now) (Covers many.now))) }
    ensures runs_at_most { IfOk result (λ L. length L ≤ length few.now + length many.now) }
    // for each of the few no more looks than four times the binary digits of one more than the number of the many
    ensures looks { (digits : ℕ) → length many.now + 1 < 2 ^ digits → probes.new.looks ≤ probes.old.looks + length few.now * (4 * digits) }
{
    let mut set = IntervalSet::with_room(few.allocator(), few.interval_count())?;
    let mut from = 0;
    for run in few.as_runs() {
        from = push_shared(&mut set, many, probes, *run, from)?;
    }
    Ok(set.fitted())
}

/// How many members a set of few runs has in common with one of many. Reads the runs of the many that
/// the few overlap. Does not allocate.
///
/// The searches see the runs of the many by the looks of `probes` alone.
pub(super) fn common_size_with_few<B: Width>(
    few: &IntervalSet<B>,
    many: &IntervalSet<B>,
    probes: &mut Probes<'_, B>,
) -> B::Output
    requires same { probes.old.runs ≡ many.now }
    ensures members { IsCountOf (B.Output.size result) (Intersection (Covers few.now) (Covers many.now)) }
    // as `common_with_few` looks
    ensures looks { (digits : ℕ) → length many.now + 1 < 2 ^ digits → probes.new.looks ≤ probes.old.looks + length few.now * (4 * digits) }
{
    let mut size = <B::Output as SizeNumber>::zero();
    let mut from = 0;
    for run in few.as_runs() {
        let (start, shared) = shared_runs(many, probes, run, from);
        size = grown::<B>(size, size_of_part(shared, run));
        from = start;
    }
    size
}

/// The members of a set of many runs that are not in one of few: what it has in common with the
/// complement of the few.
pub(super) fn without_few<B: Width>(
    many: &IntervalSet<B>,
    few: &IntervalSet<B>,
) -> Result<IntervalSet<B>, AllocError>
    ensures members { IfOk result (λ L. IsRunsOf L (Without (Covers many.now) (Covers few.now))) }
{
    // members of the many are in the range, so in the complement of the few unless in them
    many.in_whole();
    let free = few.complement()?;
    common_with_few(&free, many, &mut Probes::new(many))
}

/// The members of a set of few runs that are not in one of many: those that are not among what the
/// two have in common.
pub(super) fn few_without<B: Width>(
    few: &IntervalSet<B>,
    many: &IntervalSet<B>,
) -> Result<IntervalSet<B>, AllocError>
    ensures members { IfOk result (λ L. IsRunsOf L (Without (Covers few.now) (Covers many.now))) }
{
    let shared = common_with_few(few, many, &mut Probes::new(many))?;
    without(Walk::new(few), Walk::new(&shared))
}

/// Adds what a run has in common with a set of many runs, whose first `from` end below it. Returns
/// how many end below it.
fn push_shared<B: Width>(
    set: &mut IntervalSet<B>,
    many: &IntervalSet<B>,
    probes: &mut Probes<'_, B>,
    run: Interval<B>,
    from: usize,
) -> Result<usize, AllocError>
    requires filled { run.0 ≤ℤ run.1 }
    requires apart { IsBelow (pos 2) (Covers set.old) (IsBetween run) }
    requires same { probes.old.runs ≡ many.now }
    requires at_most { from ≤ length many.now }
    requires below { EndBelow run.0 (take from many.now) }
    ensures members { OnOk result (IsRunsOf set.new (Union (Covers set.old) (Intersection (Covers many.now) (IsBetween run)))) }
    ensures below { IfOk result (λ i. EndBelow run.0 (take i many.now)) }
    ensures at_most { IfOk result (λ i. i ≤ length many.now) }
    ensures same { probes.new.runs ≡ many.now }
    ensures looks { (digits : ℕ) → length many.now + 1 < 2 ^ digits → probes.new.looks ≤ probes.old.looks + 4 * digits }
{
    let (start, shared) = shared_runs(many, probes, &run, from);
    set.push_cut(shared, &run)?;
    Ok(start)
}

/// The runs of a set that a run overlaps, and how many end below it, as the first `from` do.
fn shared_runs<'a, B: Width>(
    many: &'a IntervalSet<B>,
    probes: &mut Probes<'_, B>,
    run: &Interval<B>,
    from: usize,
) -> (usize, &'a [Interval<B>])
    requires filled { run.now.0 ≤ℤ run.now.1 }
    requires same { probes.old.runs ≡ many.now }
    requires at_most { from ≤ length many.now }
    requires below { EndBelow run.now.0 (take from many.now) }
    ensures runs { IsRunListIn B.whole result.1.now }
    ensures first { EndsFrom run.now.0 result.1.now }
    ensures last { StartsBy run.now.1 result.1.now }
    ensures members { SameMembers (Intersection (Covers result.1.now) (IsBetween run.now)) (Intersection (Covers many.now) (IsBetween run.now)) }
    ensures below { EndBelow run.now.0 (take result.0 many.now) }
    ensures at_most { result.0 ≤ length many.now }
    ensures same { probes.new.runs ≡ many.now }
    ensures looks { (digits : ℕ) → length many.now + 1 < 2 ^ digits → probes.new.looks ≤ probes.old.looks + 4 * digits }
{
    let runs = many.as_runs();
    let start = first_from(probes, run.lower(), from);
    let end = last_up_to(probes, run.upper(), start);
    (start, &runs[start..end])
}
