//! Callers of operations on two sets.
ghost use Rattle.std.specs.Prelude.{◌↔◌, IsTrue};
ghost use Rattle.ivl_laws.specs.Sets.{HasNone, HasSome, Intersection, IsProperSubset, IsSubset, Union, Without};
ghost use Rattle.ivl_interval.specs.Kleene.{IsEntailmentOf};

use ivl_interval::kleene::SKleene;
use ivl_interval::ops::{
    Difference, Disjoint, Entailment, Hull, Intersection, Join, Meet, Overlap, ProperSubset,
    Subset, Union,
};

/// Returns true exactly when two sets have no common member.
pub fn is_disjoint_by_bound<R, T: Disjoint<R>>(a: &T, b: &R) -> bool
    ensures { IsTrue result ↔ HasNone (Intersection (T.members a.now) (T.other_members b.now)) }
{
    a.is_disjoint(b)
}

/// Returns true exactly when two sets have a common member.
pub fn overlap_by_bound<R, T: Overlap<R>>(a: &T, b: &R) -> bool
    ensures { IsTrue result ↔ HasSome (Intersection (T.members a.now) (T.other_members b.now)) }
{
    a.overlap(b)
}

/// Returns true exactly when a set is included in another.
pub fn is_subset_by_bound<T: Subset>(a: &T, b: &T) -> bool
    ensures { IsTrue result ↔ IsSubset (T.members a.now) (T.members b.now) }
{
    a.is_subset(b)
}

/// Returns true exactly when a set is included in another that has more.
pub fn is_proper_subset_by_bound<T: ProperSubset>(a: &T, b: &T) -> bool
    ensures { IsTrue result ↔ IsProperSubset (T.members a.now) (T.members b.now) }
{
    a.is_proper_subset(b)
}

/// Returns the union of two sets.
pub fn union_by_bound<R, T: Union<R>>(a: &T, b: &R) -> T::Output
    requires { T.can_unite a.now b.now }
    ensures { T.answers result (Union (T.members a.now) (T.other_members b.now)) }
{
    a.union(b)
}

/// Returns the members that two sets have in common.
pub fn intersection_by_bound<R, T: Intersection<R>>(a: &T, b: &R) -> T::Output
    ensures { T.answers result (Intersection (T.members a.now) (T.other_members b.now)) }
{
    a.intersection(b)
}

/// Returns the members of one set that are not in the other.
pub fn difference_by_bound<R, T: Difference<R>>(a: &T, b: &R) -> T::Output
    ensures { T.answers result (Without (T.members a.now) (T.other_members b.now)) }
{
    a.difference(b)
}

/// Returns the hull of two sets.
pub fn hull_by_bound<R, T: Hull<R>>(a: &T, b: &R) -> T::Output
    requires { T.can_join a.now b.now }
    ensures { T.answers result (Union (T.members a.now) (T.other_members b.now)) }
{
    a.hull(b)
}

/// Returns the join of two sets.
pub fn join_by_bound<T: Join>(a: T, b: T) -> T::Output
    ensures { T.answers result (Intersection (T.members a) (T.members b)) }
{
    a.join(b)
}

/// Returns the meet of two sets.
pub fn meet_by_bound<T: Meet>(a: T, b: T) -> T::Output
    ensures { T.answers result (Union (T.members a) (T.members b)) }
{
    a.meet(b)
}

/// Returns whether one set has at least the information of another.
pub fn entail_by_bound<T: Entailment>(a: &T, b: &T) -> SKleene
    ensures { IsEntailmentOf (T.members a.now) (T.members b.now) result }
{
    a.entail(b)
}
