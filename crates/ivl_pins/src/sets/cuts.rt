//! Sets cut at a value, for any value of the type, and the place of a value among the runs.
ghost use Rattle.std.specs.Prelude.{◌↔◌, ℤ, IfOk, IsTrue};
ghost use Rattle.ivl_laws.specs.Sets.{Above, AtLeast, AtMost, Below, Only, SameMembers};
ghost use Rattle.ivl_laws.specs.Runs.{Covers, IsRunsOf};
ghost use Rattle.ivl_places.specs.Places.{IsPlaceOf};

use intervallum::interval_set::IntervalSet;
use intervallum::steps::{Place, Probes, find};
use intervallum::width::Width;
use ivl_interval_pins::callers;
use ivl_interval_pins::callers::cuts;
use std::alloc::AllocError;

/// Returns the runs of the numbers from the value on.
pub fn set_from<B: Width>(a: &IntervalSet<B>, x: B) -> Result<IntervalSet<B>, AllocError>
    ensures { IfOk result (λ L. IsRunsOf L (AtLeast (B.value x) (Covers a.now))) }
{
    cuts::shrink_left_by_bound(a, x)
}

/// Returns the runs of the numbers up to the value.
pub fn set_up_to<B: Width>(a: &IntervalSet<B>, x: B) -> Result<IntervalSet<B>, AllocError>
    ensures { IfOk result (λ L. IsRunsOf L (AtMost (B.value x) (Covers a.now))) }
{
    cuts::shrink_right_by_bound(a, x)
}

/// Returns the runs of the numbers above the value.
pub fn set_above<B: Width>(a: &IntervalSet<B>, x: B) -> Result<IntervalSet<B>, AllocError>
    ensures { IfOk result (λ L. IsRunsOf L (Above (B.value x) (Covers a.now))) }
{
    cuts::strict_shrink_left_by_bound(a, x)
}

/// Returns the runs of the numbers below the value.
pub fn set_below<B: Width>(a: &IntervalSet<B>, x: B) -> Result<IntervalSet<B>, AllocError>
    ensures { IfOk result (λ L. IsRunsOf L (Below (B.value x) (Covers a.now))) }
{
    cuts::strict_shrink_right_by_bound(a, x)
}

/// Returns the run that covers the value, or how many runs lie below it.
pub fn place_in_set<B: Width>(a: &IntervalSet<B>, x: B) -> Place
    ensures { IsPlaceOf a.now (B.value x) result }
{
    let mut probes = Probes::new(a);
    find(&mut probes, x)
}

/// Returns true exactly when the runs cover one number alone.
pub fn set_is_singleton<B: Width>(a: &IntervalSet<B>) -> bool
    ensures { IsTrue result ↔ ((x : ℤ) × SameMembers (Covers a.now) (Only x)) }
{
    callers::is_singleton_by_bound(a)
}
