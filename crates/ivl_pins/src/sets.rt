//! What the calls of sets mean, over lists of runs, as a caller learns it.
ghost use Rattle.std.specs.Prelude.{◌≡◌, ◌↔◌, ◌≤ℤ◌, [], ◌∷◌, IfOk, IsTrue, length};
ghost use Rattle.ivl_laws.specs.Sets.{IsInRange, SameMembers, Union};
ghost use Rattle.ivl_laws.specs.Runs.{Covers, IsRunListIn, IsRunsOf};
ghost use Rattle.ivl_laws.specs.Counts.{IsCountOf};

pub mod arithmetic;
pub mod building;
pub mod cuts;
pub mod ends;
pub mod operands;
pub mod pairs;
pub mod values;

use intervallum::interval::Interval;
use intervallum::interval_set::IntervalSet;
use intervallum::width::Width;
use ivl_interval_pins::callers;
use std::alloc::{AllocError, Global};

/// Returns an empty set: it has no run.
pub fn empty_set<B: Width>(alloc: Global) -> IntervalSet<B>
    ensures { result ≡ [] }
{
    IntervalSet::empty(alloc)
}

/// Returns a set of one run.
pub fn set_of_one_run<B: Width>(alloc: Global, lb: B, ub: B) -> Result<IntervalSet<B>, AllocError>
    requires in_range { IsInRange B.whole (B.value lb, B.value ub) }
    requires in_order { B.value lb ≤ℤ B.value ub }
    ensures { IfOk result (λ L. L ≡ (B.value lb, B.value ub) ∷ []) }
{
    IntervalSet::new(alloc, lb, ub)
}

/// Returns the runs: they ascend, leave numbers free between them, and lie in the range.
pub fn set_runs<B: Width>(set: &IntervalSet<B>) -> std::slice::Iter<'_, Interval<B>>
    ensures rest { result.rest.now ≡ set.now }
    ensures runs { IsRunListIn B.whole set.now }
{
    set.iter()
}

/// Returns the number of runs.
pub fn set_run_count<B: Width>(set: &IntervalSet<B>) -> usize
    ensures { result ≡ length set.now }
{
    set.interval_count()
}

/// Returns how many numbers the runs cover.
pub fn set_size<B: Width>(set: &IntervalSet<B>) -> B::Output
    ensures { IsCountOf (B.Output.size result) (Covers set.now) }
{
    callers::size_by_bound(set)
}

/// Returns true exactly when there is no run.
pub fn set_is_empty<B: Width>(set: &IntervalSet<B>) -> bool
    ensures { IsTrue result ↔ (set.now ≡ []) }
{
    set.in_whole();
    callers::is_empty_by_bound(set)
}

/// Returns true exactly when a run covers a number.
pub fn set_contains<B: Width>(set: &IntervalSet<B>, item: &B) -> bool
    ensures { IsTrue result ↔ Covers set.now (B.value item.now) }
{
    callers::contains_by_bound(set, item)
}

/// Returns true exactly when the runs cover the same numbers.
pub fn sets_equal<B: Width>(a: &IntervalSet<B>, b: &IntervalSet<B>) -> bool
    ensures { IsTrue result ↔ SameMembers (Covers a.now) (Covers b.now) }
{
    *a == *b
}

/// Returns the runs of the numbers that either list covers.
pub fn sets_united<B: Width>(
    a: &IntervalSet<B>,
    b: &IntervalSet<B>,
) -> Result<IntervalSet<B>, AllocError>
    ensures { IfOk result (λ L. IsRunsOf L (Union (Covers a.now) (Covers b.now))) }
{
    callers::pairs::union_by_bound(a, b)
}
