//! Laws that tie the calls of sets together.
ghost use Rattle.std.specs.Prelude.{◌≡◌, ◌+◌, ◌↔◌, IfOk, IsTrue};
ghost use Rattle.ivl_laws.specs.Sets.{Differences, ExactProducts, IsBetween, IsSubset, Only, Sums};
ghost use Rattle.ivl_laws.specs.Runs.{Covers};

use super::same_members_are_equal;
use intervallum::interval_set::IntervalSet;
use intervallum::ops::{Cardinality, Complement, Intersection, Union};
use intervallum::width::Width;
use std::alloc::{AllocError, Global};

/// The complement of a union is the intersection of the complements.
pub fn complement_of_union<B: Width>(
    a: &IntervalSet<B>,
    b: &IntervalSet<B>,
) -> Result<bool, AllocError>
    ensures { IfOk result IsTrue }
{
    let all = a.union(b)?;
    let rest = all.complement()?;
    let (rest_a, rest_b) = (a.complement()?, b.complement()?);
    let common = rest_a.intersection(&rest_b)?;
    Ok(same_members_are_equal(&rest, &common))
}

/// The complement of an intersection is the union of the complements.
pub fn complement_of_common<B: Width>(
    a: &IntervalSet<B>,
    b: &IntervalSet<B>,
) -> Result<bool, AllocError>
    ensures { IfOk result IsTrue }
{
    let common = a.intersection(b)?;
    let rest = common.complement()?;
    let rest_a = a.complement()?;
    let rest_b = b.complement()?;
    let all = rest_a.union(&rest_b)?;
    Ok(same_members_are_equal(&rest, &all))
}

/// The complement of the complement is the set.
pub fn complement_twice<B: Width>(a: &IntervalSet<B>) -> Result<bool, AllocError>
    ensures { IfOk result IsTrue }
{
    a.in_whole();
    let rest = a.complement()?;
    let again = rest.complement()?;
    Ok(same_members_are_equal(&again, a))
}

/// The union of two sets is equal to the second exactly when the first is a subset of it.
pub fn union_tells_subset<B: Width>(
    a: &IntervalSet<B>,
    b: &IntervalSet<B>,
) -> Result<bool, AllocError>
    ensures { IfOk result (λ same. IsTrue same ↔ IsSubset (Covers a.now) (Covers b.now)) }
{
    let all = a.union(b)?;
    Ok(all == *b)
}

/// The sizes of the union and the intersection add up to those of the two sets.
pub fn sizes_add_up<B: Width>(
    a: &IntervalSet<B>,
    b: &IntervalSet<B>,
) -> Result<(B::Output, B::Output, B::Output, B::Output), AllocError>
    ensures { IfOk result (λ sizes. B.Output.size sizes.0 + B.Output.size sizes.1 ≡ B.Output.size sizes.2 + B.Output.size sizes.3) }
{
    let all = a.union(b)?;
    let common = a.intersection(b)?;
    Ok((all.size(), common.size(), a.size(), b.size()))
}

/// The products with a value of the range are those with the set of that value alone.
pub fn products_with_value_alone<B: Width>(
    alloc: Global,
    a: &IntervalSet<B>,
    x: B,
) -> Result<bool, AllocError>
    requires in_range { IsBetween B.whole (B.value x) }
    requires fits { IsSubset (ExactProducts (Covers a.now) (Only (B.value x))) (IsBetween B.whole) }
    ensures { IfOk result IsTrue }
{
    let one = IntervalSet::singleton(alloc, x)?;
    let by_value = (a * x)?;
    let by_set = (a * &one)?;
    Ok(same_members_are_equal(&by_value, &by_set))
}

/// The sums with a value of the range are those with the set of that value alone.
pub fn sums_with_value_alone<B: Width>(
    alloc: Global,
    a: &IntervalSet<B>,
    x: B,
) -> Result<bool, AllocError>
    requires in_range { IsBetween B.whole (B.value x) }
    requires fits { IsSubset (Sums (Covers a.now) (Only (B.value x))) (IsBetween B.whole) }
    ensures { IfOk result IsTrue }
{
    let one = IntervalSet::singleton(alloc, x)?;
    let by_value = (a + x)?;
    let by_set = (a + &one)?;
    Ok(same_members_are_equal(&by_value, &by_set))
}

/// The differences with a value of the range are those with the set of that value alone.
pub fn differences_with_value_alone<B: Width>(
    alloc: Global,
    a: &IntervalSet<B>,
    x: B,
) -> Result<bool, AllocError>
    requires in_range { IsBetween B.whole (B.value x) }
    requires fits { IsSubset (Differences (Covers a.now) (Only (B.value x))) (IsBetween B.whole) }
    ensures { IfOk result IsTrue }
{
    let one = IntervalSet::singleton(alloc, x)?;
    let by_value = (a - x)?;
    let by_set = (a - &one)?;
    Ok(same_members_are_equal(&by_value, &by_set))
}
