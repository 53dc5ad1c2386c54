//! Laws of hulls and of sums, from the results of two calls.
ghost use Rattle.std.specs.Prelude.{IfOk, IsTrue};
ghost use Rattle.ivl_laws.specs.Sets.{IsBetween, IsSubset};
ghost use Rattle.ivl_laws.specs.Runs.{Covers};

use intervallum::interval::Interval;
use intervallum::interval_set::IntervalSet;
use intervallum::ops::{Fits, Hull, Subset};
use intervallum::width::Width;
use ivl_set_laws::arithmetic::arithmetic_of_runs_is_monotone;
use ivl_set_laws::lattice::meet_of_intervals;
use std::alloc::AllocError;

/// The hulls of two intervals in both orders are equal.
pub fn hulls_agree<B: Width>(a: &Interval<B>, b: &Interval<B>) -> bool
    ensures { IsTrue result }
{
    meet_of_intervals();
    a.hull(b) == b.hull(a)
}

/// The hull of two intervals lies within each interval that holds both.
pub fn hull_lies_within<B: Width>(a: &Interval<B>, b: &Interval<B>, c: &Interval<B>) -> bool
    requires left { IsSubset (IsBetween a.now) (IsBetween c.now) }
    requires right { IsSubset (IsBetween b.now) (IsBetween c.now) }
    ensures { IsTrue result }
{
    meet_of_intervals();
    a.hull(b).is_subset(c)
}

/// The sums of a set and another are among those of a larger set and that other, if both fit.
pub fn sums_grow<B: Width>(
    a: &IntervalSet<B>,
    larger: &IntervalSet<B>,
    b: &IntervalSet<B>,
) -> Result<bool, AllocError>
    requires { IsSubset (Covers a.now) (Covers larger.now) }
    ensures { IfOk result IsTrue }
{
    if !larger.fits_add(b) || !a.fits_add(b) {
        return Ok(true);
    }
    let less = (a + b)?;
    let more = (larger + b)?;
    arithmetic_of_runs_is_monotone();
    Ok(less.is_subset(&more))
}
