//! Sums, differences and products of sets.
ghost use Rattle.std.specs.Prelude.{IfOk};
ghost use Rattle.ivl_laws.specs.Sets.{Differences, ExactProducts, IsBetween, IsSubset, Products, Sums};
ghost use Rattle.ivl_laws.specs.Runs.{Covers, IsRunsOf};

use intervallum::interval_set::IntervalSet;
use intervallum::width::Width;
use ivl_interval_pins::callers::arithmetic as callers;
use std::alloc::AllocError;

/// Returns the runs of the sums of a number of each.
pub fn sum_of_sets<B: Width>(
    a: IntervalSet<B>,
    b: IntervalSet<B>,
) -> Result<IntervalSet<B>, AllocError>
    requires { IsSubset (Sums (Covers a) (Covers b)) (IsBetween B.whole) }
    ensures { IfOk result (λ L. IsRunsOf L (Sums (Covers a) (Covers b))) }
{
    callers::sum_by_bound(a, b)
}

/// Returns the runs of the differences of a number of each.
pub fn difference_of_sets<B: Width>(
    a: IntervalSet<B>,
    b: IntervalSet<B>,
) -> Result<IntervalSet<B>, AllocError>
    requires { IsSubset (Differences (Covers a) (Covers b)) (IsBetween B.whole) }
    ensures { IfOk result (λ L. IsRunsOf L (Differences (Covers a) (Covers b))) }
{
    callers::difference_by_bound(a, b)
}

/// Returns the runs of all numbers between products whose factors are in one run of each.
pub fn product_of_sets<B: Width>(
    a: IntervalSet<B>,
    b: IntervalSet<B>,
) -> Result<IntervalSet<B>, AllocError>
    requires { IsSubset (ExactProducts (Covers a) (Covers b)) (IsBetween B.whole) }
    ensures { IfOk result (λ L. IsRunsOf L (Products (Covers a) (Covers b))) }
{
    callers::product_by_bound(a, b)
}
