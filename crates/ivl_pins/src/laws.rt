//! Laws of sets, as a caller learns them: the contracts alone give the results of the calls.
ghost use Rattle.std.specs.Prelude.{◌≡◌, ◌↔◌, ◌⊎◌, IfOk, IsTrue};
ghost use Rattle.ivl_laws.specs.Sets.{SameMembers};
ghost use Rattle.ivl_laws.specs.Runs.{Covers};

pub mod algebra;
pub mod hulls;

use intervallum::interval_set::IntervalSet;
use intervallum::ops::{Cardinality, Contains, Union};
use intervallum::width::Width;
use std::alloc::AllocError;

/// The unions of two sets in both orders are equal.
pub fn unions_agree<B: Width>(a: &IntervalSet<B>, b: &IntervalSet<B>) -> Result<bool, AllocError>
    ensures { IfOk result IsTrue }
{
    let one_way = a.union(b)?;
    let other_way = b.union(a)?;
    Ok(one_way == other_way)
}

/// The union of a set with itself is equal to the set.
pub fn union_with_itself_is_equal<B: Width>(a: &IntervalSet<B>) -> Result<bool, AllocError>
    ensures { IfOk result IsTrue }
{
    let both = a.union(a)?;
    Ok(both == *a)
}

/// A union has what either set has.
pub fn either_contains<B: Width>(
    a: &IntervalSet<B>,
    b: &IntervalSet<B>,
    item: B,
) -> Result<bool, AllocError>
    ensures { IfOk result (λ has. IsTrue has ↔ (Covers a.now (B.value item) ⊎ Covers b.now (B.value item))) }
{
    Ok(a.union(b)?.contains(&item))
}

/// Two sets of the same members are equal.
pub fn same_members_are_equal<B: Width>(a: &IntervalSet<B>, b: &IntervalSet<B>) -> bool
    requires { SameMembers (Covers a.now) (Covers b.now) }
    ensures { IsTrue result }
{
    *a == *b
}

/// Two sets of the same members have the same runs, so as many.
pub fn same_members_same_runs<B: Width>(a: &IntervalSet<B>, b: &IntervalSet<B>) -> bool
    requires { SameMembers (Covers a.now) (Covers b.now) }
    ensures runs { a.now ≡ b.now }
    ensures counts { IsTrue result }
{
    a.interval_count() == b.interval_count()
}

/// Two sets of the same members have the same size.
pub fn same_members_same_size<B: Width>(a: &IntervalSet<B>, b: &IntervalSet<B>) -> bool
    requires { SameMembers (Covers a.now) (Covers b.now) }
    ensures { IsTrue result }
{
    a.size() == b.size()
}
