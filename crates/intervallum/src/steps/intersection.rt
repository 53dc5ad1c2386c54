//! The common members of two walks.
ghost use Rattle.std.specs.Prelude.{◌≡◌, ◌↔◌, ◌+◌, ◌≤◌, IfOk, IsTrue, MatchOption, Some, length, slice_get};
ghost use Rattle.ivl_laws.specs.Sets.{HasNone, HasSome, Intersection};
ghost use Rattle.ivl_laws.specs.Runs.{Covers, IsRunListIn, IsRunsOf};

use super::union::{room_of, set_of};
use super::walk::Walk;
use crate::interval::Interval;
use crate::interval_set::IntervalSet;
use crate::ops::Bounded;
use crate::width::Width;
use ivl_merges::merges::intersection;
use std::alloc::AllocError;

/// Returns the common members of the runs left in two walks. `O(n + m)` for these `n` and `m` runs:
/// advances at most once for each, and reserves as many runs once. The result has the allocator of
/// the first walk. Fails only if allocation fails.
///
/// ```
/// let (a, b) = (IntervalSet::new(alloc, 1, 5)?, IntervalSet::new(alloc, 4, 9)?);
/// let both = common(Walk::new(&a), Walk::new(&b))?;
/// assert!(rt; both == IntervalSet::new(alloc, 4, 5)?);
/// ```
pub fn common<B: Width>(
    first: Walk<'_, B>,
    second: Walk<'_, B>,
) -> Result<IntervalSet<B>, AllocError>
    // On success, the members are exactly those of the runs that are left in both walks, in at most as many runs as are
    // left in the two together.
    ensures members { IfOk result (λ L. IsRunsOf L (Intersection (Covers first.entry.left) (Covers second.entry.left))) }
    ensures runs_at_most { IfOk result (λ L. length L ≤ length first.entry.left + length second.entry.left) }
{
    let room = room_of(first.left(), second.left())?;
    let mut runs = Vec::with_capacity(first.alloc(), room)?;
    intersection(first.rest(), second.rest(), &mut runs);
    Ok(set_of(runs))
}

/// The first runs of two walks, if both have one.
pub(super) fn heads<B: Width>(
    first: &Walk<'_, B>,
    second: &Walk<'_, B>,
) -> Option<(Interval<B>, Interval<B>)>
    ensures heads { MatchOption result
        (HasNone (Intersection (Covers first.now.left) (Covers second.now.left)))
        (λ runs. (Some runs.0 ≡ slice_get first.now.left 0) × (Some runs.1 ≡ slice_get second.now.left 0)) }
    ensures within { IsRunListIn B.whole first.now.left × IsRunListIn B.whole second.now.left }
{
    second.in_whole();
    let a = first.peek()?;
    let b = second.peek()?;
    Some((a, b))
}

/// Whether the runs left in two walks have a member in common. Advances at most once for each of
/// these runs: `O(n + m)`. Stops at the first common member. Does not allocate.
pub(crate) fn have_common<B: Width>(mut first: Walk<'_, B>, mut second: Walk<'_, B>) -> bool
    ensures { IsTrue result ↔ HasSome (Intersection (Covers first.entry.left) (Covers second.entry.left)) }
{
    'walk: while let Some(runs) = heads(&first, &second) {
        let (a, b) = runs;
        if a.upper() < b.lower() {
            first.advance();
        } else if b.upper() < a.lower() {
            second.advance();
        } else {
            return true;
        }
    }
    false
}
