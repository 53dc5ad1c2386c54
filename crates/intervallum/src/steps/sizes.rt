//! How many members two walks have in common.
ghost use Rattle.ivl_laws.specs.Counts.{IsCountOf};
ghost use Rattle.ivl_laws.specs.Sets.{Intersection};
ghost use Rattle.ivl_laws.specs.Runs.{Covers};

use super::intersection::heads;
use super::walk::Walk;
use crate::interval_set::builder::grown;
use crate::ops::{Bounded, Cardinality, Intersection};
use crate::width::{SizeNumber, Width};

/// The number of common members of the runs left in two walks. Advances at most once for each of
/// these runs. Does not allocate.
pub(crate) fn common_size<B: Width>(mut first: Walk<'_, B>, mut second: Walk<'_, B>) -> B::Output
    ensures { IsCountOf (B.Output.size result) (Intersection (Covers first.entry.left) (Covers second.entry.left)) }
{
    first.in_whole();
    let mut size = <B::Output as SizeNumber>::zero();
    'walk: while let Some(heads) = heads(&first, &second) {
        let (run, other) = heads;
        size = grown::<B>(size, run.intersection(&other).size());
        let ends_first = run.upper() <= other.upper();
        first.advance_if(ends_first);
        second.advance_if(!ends_first);
    }
    size
}
