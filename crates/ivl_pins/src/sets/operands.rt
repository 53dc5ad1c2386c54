//! The operators of sets with each operand owned or borrowed mean the same.
ghost use Rattle.std.specs.Prelude.{IfOk};
ghost use Rattle.ivl_laws.specs.Sets.{Differences, ExactProducts, IsBetween, IsSubset, Only, Products, Sums};
ghost use Rattle.ivl_laws.specs.Runs.{Covers, IsRunsOf};

use intervallum::interval_set::IntervalSet;
use intervallum::width::Width;
use std::alloc::AllocError;

/// Returns the sums of a member of each set.
pub fn sum_of_owned_and_borrowed_set<B: Width>(
    a: IntervalSet<B>,
    b: &IntervalSet<B>,
) -> Result<IntervalSet<B>, AllocError>
    requires { IsSubset (Sums (Covers a) (Covers b.now)) (IsBetween B.whole) }
    ensures { IfOk result (λ L. IsRunsOf L (Sums (Covers a) (Covers b.now))) }
{
    a + b
}

/// Returns the sums of a member of each set.
pub fn sum_of_borrowed_and_owned_set<B: Width>(
    a: &IntervalSet<B>,
    b: IntervalSet<B>,
) -> Result<IntervalSet<B>, AllocError>
    requires { IsSubset (Sums (Covers a.now) (Covers b)) (IsBetween B.whole) }
    ensures { IfOk result (λ L. IsRunsOf L (Sums (Covers a.now) (Covers b))) }
{
    a + b
}

/// Returns the sums of a member of each set.
pub fn sum_of_borrowed_sets<B: Width>(
    a: &IntervalSet<B>,
    b: &IntervalSet<B>,
) -> Result<IntervalSet<B>, AllocError>
    requires { IsSubset (Sums (Covers a.now) (Covers b.now)) (IsBetween B.whole) }
    ensures { IfOk result (λ L. IsRunsOf L (Sums (Covers a.now) (Covers b.now))) }
{
    a + b
}

/// Returns the sums of a member and the value.
pub fn sum_of_owned_set_and_value<B: Width>(
    a: IntervalSet<B>,
    x: B,
) -> Result<IntervalSet<B>, AllocError>
    requires { IsSubset (Sums (Covers a) (Only (B.value x))) (IsBetween B.whole) }
    ensures { IfOk result (λ L. IsRunsOf L (Sums (Covers a) (Only (B.value x)))) }
{
    a + x
}

/// Returns the sums of a member and the value.
pub fn sum_of_owned_set_and_borrowed_value<B: Width>(
    a: IntervalSet<B>,
    x: &B,
) -> Result<IntervalSet<B>, AllocError>
    requires { IsSubset (Sums (Covers a) (Only (B.value x.now))) (IsBetween B.whole) }
    ensures { IfOk result (λ L. IsRunsOf L (Sums (Covers a) (Only (B.value x.now)))) }
{
    a + x
}

/// Returns the sums of a member and the value.
pub fn sum_of_borrowed_set_and_value<B: Width>(
    a: &IntervalSet<B>,
    x: B,
) -> Result<IntervalSet<B>, AllocError>
    requires { IsSubset (Sums (Covers a.now) (Only (B.value x))) (IsBetween B.whole) }
    ensures { IfOk result (λ L. IsRunsOf L (Sums (Covers a.now) (Only (B.value x)))) }
{
    a + x
}

/// Returns the sums of a member and the value.
pub fn sum_of_borrowed_set_and_borrowed_value<B: Width>(
    a: &IntervalSet<B>,
    x: &B,
) -> Result<IntervalSet<B>, AllocError>
    requires { IsSubset (Sums (Covers a.now) (Only (B.value x.now))) (IsBetween B.whole) }
    ensures { IfOk result (λ L. IsRunsOf L (Sums (Covers a.now) (Only (B.value x.now)))) }
{
    a + x
}

/// Returns the differences of a member of each set.
pub fn difference_of_owned_and_borrowed_set<B: Width>(
    a: IntervalSet<B>,
    b: &IntervalSet<B>,
) -> Result<IntervalSet<B>, AllocError>
    requires { IsSubset (Differences (Covers a) (Covers b.now)) (IsBetween B.whole) }
    ensures { IfOk result (λ L. IsRunsOf L (Differences (Covers a) (Covers b.now))) }
{
    a - b
}

/// Returns the differences of a member of each set.
pub fn difference_of_borrowed_and_owned_set<B: Width>(
    a: &IntervalSet<B>,
    b: IntervalSet<B>,
) -> Result<IntervalSet<B>, AllocError>
    requires { IsSubset (Differences (Covers a.now) (Covers b)) (IsBetween B.whole) }
    ensures { IfOk result (λ L. IsRunsOf L (Differences (Covers a.now) (Covers b))) }
{
    a - b
}

/// Returns the differences of a member of each set.
pub fn difference_of_borrowed_sets<B: Width>(
    a: &IntervalSet<B>,
    b: &IntervalSet<B>,
) -> Result<IntervalSet<B>, AllocError>
    requires { IsSubset (Differences (Covers a.now) (Covers b.now)) (IsBetween B.whole) }
    ensures { IfOk result (λ L. IsRunsOf L (Differences (Covers a.now) (Covers b.now))) }
{
    a - b
}

/// Returns the differences of a member and the value.
pub fn difference_of_owned_set_and_value<B: Width>(
    a: IntervalSet<B>,
    x: B,
) -> Result<IntervalSet<B>, AllocError>
    requires { IsSubset (Differences (Covers a) (Only (B.value x))) (IsBetween B.whole) }
    ensures { IfOk result (λ L. IsRunsOf L (Differences (Covers a) (Only (B.value x)))) }
{
    a - x
}

/// Returns the differences of a member and the value.
pub fn difference_of_owned_set_and_borrowed_value<B: Width>(
    a: IntervalSet<B>,
    x: &B,
) -> Result<IntervalSet<B>, AllocError>
    requires { IsSubset (Differences (Covers a) (Only (B.value x.now))) (IsBetween B.whole) }
    ensures { IfOk result (λ L. IsRunsOf L (Differences (Covers a) (Only (B.value x.now)))) }
{
    a - x
}

/// Returns the differences of a member and the value.
pub fn difference_of_borrowed_set_and_value<B: Width>(
    a: &IntervalSet<B>,
    x: B,
) -> Result<IntervalSet<B>, AllocError>
    requires { IsSubset (Differences (Covers a.now) (Only (B.value x))) (IsBetween B.whole) }
    ensures { IfOk result (λ L. IsRunsOf L (Differences (Covers a.now) (Only (B.value x)))) }
{
    a - x
}

/// Returns the differences of a member and the value.
pub fn difference_of_borrowed_set_and_borrowed_value<B: Width>(
    a: &IntervalSet<B>,
    x: &B,
) -> Result<IntervalSet<B>, AllocError>
    requires { IsSubset (Differences (Covers a.now) (Only (B.value x.now))) (IsBetween B.whole) }
    ensures { IfOk result (λ L. IsRunsOf L (Differences (Covers a.now) (Only (B.value x.now)))) }
{
    a - x
}

/// Returns, for each pair of runs, all numbers between two products.
pub fn product_of_owned_and_borrowed_set<B: Width>(
    a: IntervalSet<B>,
    b: &IntervalSet<B>,
) -> Result<IntervalSet<B>, AllocError>
    requires { IsSubset (ExactProducts (Covers a) (Covers b.now)) (IsBetween B.whole) }
    ensures { IfOk result (λ L. IsRunsOf L (Products (Covers a) (Covers b.now))) }
{
    a * b
}

/// Returns, for each pair of runs, all numbers between two products.
pub fn product_of_borrowed_and_owned_set<B: Width>(
    a: &IntervalSet<B>,
    b: IntervalSet<B>,
) -> Result<IntervalSet<B>, AllocError>
    requires { IsSubset (ExactProducts (Covers a.now) (Covers b)) (IsBetween B.whole) }
    ensures { IfOk result (λ L. IsRunsOf L (Products (Covers a.now) (Covers b))) }
{
    a * b
}

/// Returns, for each pair of runs, all numbers between two products.
pub fn product_of_borrowed_sets<B: Width>(
    a: &IntervalSet<B>,
    b: &IntervalSet<B>,
) -> Result<IntervalSet<B>, AllocError>
    requires { IsSubset (ExactProducts (Covers a.now) (Covers b.now)) (IsBetween B.whole) }
    ensures { IfOk result (λ L. IsRunsOf L (Products (Covers a.now) (Covers b.now))) }
{
    a * b
}

/// Returns, for each run, all numbers between two products with the value.
pub fn product_of_owned_set_and_value<B: Width>(
    a: IntervalSet<B>,
    x: B,
) -> Result<IntervalSet<B>, AllocError>
    requires { IsSubset (ExactProducts (Covers a) (Only (B.value x))) (IsBetween B.whole) }
    ensures { IfOk result (λ L. IsRunsOf L (Products (Covers a) (Only (B.value x)))) }
{
    a * x
}

/// Returns, for each run, all numbers between two products with the value.
pub fn product_of_owned_set_and_borrowed_value<B: Width>(
    a: IntervalSet<B>,
    x: &B,
) -> Result<IntervalSet<B>, AllocError>
    requires { IsSubset (ExactProducts (Covers a) (Only (B.value x.now))) (IsBetween B.whole) }
    ensures { IfOk result (λ L. IsRunsOf L (Products (Covers a) (Only (B.value x.now)))) }
{
    a * x
}

/// Returns, for each run, all numbers between two products with the value.
pub fn product_of_borrowed_set_and_value<B: Width>(
    a: &IntervalSet<B>,
    x: B,
) -> Result<IntervalSet<B>, AllocError>
    requires { IsSubset (ExactProducts (Covers a.now) (Only (B.value x))) (IsBetween B.whole) }
    ensures { IfOk result (λ L. IsRunsOf L (Products (Covers a.now) (Only (B.value x)))) }
{
    a * x
}

/// Returns, for each run, all numbers between two products with the value.
pub fn product_of_borrowed_set_and_borrowed_value<B: Width>(
    a: &IntervalSet<B>,
    x: &B,
) -> Result<IntervalSet<B>, AllocError>
    requires { IsSubset (ExactProducts (Covers a.now) (Only (B.value x.now))) (IsBetween B.whole) }
    ensures { IfOk result (λ L. IsRunsOf L (Products (Covers a.now) (Only (B.value x.now)))) }
{
    a * x
}
