//! Busy hours, free hours, and the first of them that are long enough.
ghost use Rattle.std.specs.Prelude.{◌<◌, ℤ, IfOk, MatchOption};
ghost use Rattle.ivl_laws.specs.Sets.{IsBetween, Union, Without};
ghost use Rattle.ivl_laws.specs.Runs.{Covers, IsRunsOf};
ghost use Rattle.intervallum.specs.FirstFit.{FitsAt, IsFirstFit};

use intervallum::prelude::*;
use std::alloc::AllocError;

/// Returns the hours in which one of the two is busy. Fails only if allocation fails.
pub fn busy_hours(
    a: &IntervalSet<u32>,
    b: &IntervalSet<u32>,
) -> Result<IntervalSet<u32>, AllocError>
    ensures { IfOk result (λ L. IsRunsOf L (Union (Covers a.now) (Covers b.now))) }
{
    a.union(b)
}

/// Returns the hours of a day that are not busy. Fails only if allocation fails.
pub fn free_hours(
    day: Interval<u32>,
    busy: &IntervalSet<u32>,
) -> Result<IntervalSet<u32>, AllocError>
    ensures { IfOk result (λ L. IsRunsOf L (Without (IsBetween day) (Covers busy.now))) }
{
    busy.gaps_within(&day)
}

/// Returns the first so many free hours in a row, or `None` if there are not so many. The caller must
/// ensure that `count` is above 0.
pub fn first_meeting(free: &IntervalSet<u32>, count: u32) -> Option<Interval<u32>>
    requires { 0 < count }
    ensures { MatchOption result ((v : ℤ) → ¬ (FitsAt count (Covers free.now) v)) (IsFirstFit count (Covers free.now)) }
{
    free.first_fit(count)
}
