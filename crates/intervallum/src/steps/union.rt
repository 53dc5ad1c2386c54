//! Merges the runs of two walks.
ghost use Rattle.std.specs.Prelude.{◌≡◌, ◌≤◌, ◌+◌, IfOk, length};
ghost use Rattle.ivl_laws.specs.Sets.{Union};
ghost use Rattle.ivl_laws.specs.Runs.{Covers, IsRunListIn, IsRunsOf};

use super::walk::Walk;
use crate::interval::Interval;
use crate::interval_set::IntervalSet;
use crate::interval_set::run_lists::size_of_runs;
use crate::width::Width;
use ivl_merges::merges::union;
use std::alloc::AllocError;

/// Returns the members of the runs left in either walk. `O(n + m)` for these `n` and `m` runs:
/// advances once for each, and reserves as many runs once. The result has the allocator of the first
/// walk. Fails only if allocation fails.
///
/// ```
/// let (a, b) = (IntervalSet::new(alloc, 1, 5)?, IntervalSet::new(alloc, 4, 9)?);
/// let either = unite(Walk::new(&a), Walk::new(&b))?;
/// assert!(rt; either == IntervalSet::new(alloc, 1, 9)?);
/// ```
pub fn unite<B: Width>(
    first: Walk<'_, B>,
    second: Walk<'_, B>,
) -> Result<IntervalSet<B>, AllocError>
    // On success, the members are exactly those of the runs that are left in either walk, in at most as many runs as
    // are left in the two together.
    ensures members { IfOk result (λ L. IsRunsOf L (Union (Covers first.entry.left) (Covers second.entry.left))) }
    ensures runs_at_most { IfOk result (λ L. length L ≤ length first.entry.left + length second.entry.left) }
{
    let room = room_of(first.left(), second.left())?;
    let mut runs = Vec::with_capacity(first.alloc(), room)?;
    union(first.rest(), second.rest(), &mut runs);
    Ok(set_of(runs))
}

/// Room for as many runs as two lists have: no memory holds more runs than a `usize` counts.
pub(super) fn room_of(n: usize, m: usize) -> Result<usize, AllocError>
    ensures { IfOk result (λ room. room ≡ n + m) }
{
    n.checked_add(m).ok_or(AllocError)
}

/// The set of a list of runs.
pub(super) fn set_of<B: Width>(runs: Vec<Interval<B>>) -> IntervalSet<B>
    requires { IsRunListIn B.whole runs.items }
    ensures { result ≡ runs.items }
{
    let size = size_of_runs(&runs);
    IntervalSet::of_runs(runs, size).fitted()
}
