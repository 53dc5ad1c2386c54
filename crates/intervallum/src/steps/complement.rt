//! The numbers of the range that are no members of a set.
ghost use Rattle.std.specs.Prelude.{◌+◌, ◌≤◌, IfOk, length};
ghost use Rattle.ivl_laws.specs.Sets.{Complement};
ghost use Rattle.ivl_laws.specs.Runs.{Covers, IsRunsOf};

use super::union::room_of;
use crate::interval::Interval;
use crate::interval_set::IntervalSet;
use crate::ops::{Cardinality, Whole};
use crate::width::{SizeNumber, Width};
use ivl_merges::merges::complement;
use std::alloc::AllocError;

/// The numbers of the range that are no members of a set. Advances once for each run, and reserves
/// one run more once. The result has the allocator of the set. Fails only if allocation fails.
pub(crate) fn gaps<B: Width>(set: &IntervalSet<B>) -> Result<IntervalSet<B>, AllocError>
    ensures members { IfOk result (λ L. IsRunsOf L (Complement B.whole (Covers set.now))) }
    ensures runs_at_most { IfOk result (λ L. length L ≤ length set.now + 1) }
{
    set.in_whole();
    let list = set.as_runs();
    let room = room_of(list.len(), 1)?;
    let mut runs = Vec::with_capacity(set.allocator(), room)?;
    complement(list, &mut runs);
    let all = Interval::<B>::whole().size();
    // a number of the range is a member or is in a gap
    let size = all.checked_sub(set.size()).unwrap();
    Ok(IntervalSet::of_runs(runs, size).fitted())
}
