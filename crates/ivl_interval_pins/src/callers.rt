//! Callers that know a type by one trait bound, and learn the exact result from it.
//!
//! Their contracts cite the ghost members of the bound. The modules for intervals and sets, which call these, say what
//! the ghost members are there.
ghost use Rattle.std.specs.Prelude.{◌↔◌, ◌≤ℤ◌, ℤ, IsTrue};
ghost use Rattle.ivl_laws.specs.Sets.{HasNone, HasSome, IsBetween, IsInRange, Only, SameMembers};
ghost use Rattle.ivl_laws.specs.Counts.{IsCountOf};

pub mod arithmetic;
pub mod cuts;
pub mod pairs;

use ivl_interval::ops::{
    Bot, Bounded, Cardinality, Contains, Empty, IsEmpty, IsSingleton, Range, Singleton, Top, Whole,
};

/// Returns an empty set.
pub fn empty_by_bound<T: Empty>() -> T
    ensures { HasNone (T.members result) }
{
    T::empty()
}

/// Returns the set that entails every other.
pub fn top_by_bound<T: Top>() -> T
    ensures { HasNone (T.members result) }
{
    T::top()
}

/// Returns the whole range.
pub fn whole_by_bound<T: Whole>() -> T
    ensures { SameMembers (T.members result) (IsBetween T.whole) }
{
    T::whole()
}

/// Returns the set that every other entails.
pub fn bot_by_bound<T: Bot>() -> T
    ensures { SameMembers (T.members result) (IsBetween T.whole) }
{
    T::bot()
}

/// Returns the set of one item.
pub fn singleton_by_bound<T: Singleton>(item: T::Item) -> T
    requires { IsBetween T.whole (T.number item) }
    ensures { SameMembers (T.members result) (Only (T.number item)) }
{
    T::singleton(item)
}

/// Returns the set of the items from one to another.
pub fn new_by_bound<T: Range>(lb: T::Item, ub: T::Item) -> T
    requires { IsInRange T.whole (T.number lb, T.number ub) }
    ensures { SameMembers (T.members result) (IsBetween (T.number lb, T.number ub)) }
{
    T::new(lb, ub)
}

/// Returns the least member.
pub fn lower_by_bound<T: Bounded>(set: &T) -> T::Item
    requires { HasSome (T.members set.now) }
    ensures member { T.members set.now (T.number result) }
    ensures least { (z : ℤ) → T.members set.now z → T.number result ≤ℤ z }
{
    set.lower()
}

/// Returns the greatest member.
pub fn upper_by_bound<T: Bounded>(set: &T) -> T::Item
    requires { HasSome (T.members set.now) }
    ensures member { T.members set.now (T.number result) }
    ensures greatest { (z : ℤ) → T.members set.now z → z ≤ℤ T.number result }
{
    set.upper()
}

/// Returns the number of members.
pub fn size_by_bound<T: Cardinality>(set: &T) -> T::Size
    ensures { IsCountOf (T.size_number result) (T.members set.now) }
{
    set.size()
}

/// Returns true exactly when the set has no members.
pub fn is_empty_by_bound<T: IsEmpty>(set: &T) -> bool
    ensures { IsTrue result ↔ HasNone (T.members set.now) }
{
    set.is_empty()
}

/// Returns true exactly when the set has one member and no other.
pub fn is_singleton_by_bound<T: IsSingleton>(set: &T) -> bool
    ensures { IsTrue result ↔ ((x : ℤ) × SameMembers (T.members set.now) (Only x)) }
{
    set.is_singleton()
}

/// Returns true exactly when an item is a member.
pub fn contains_by_bound<T: Contains>(set: &T, item: &T::Item) -> bool
    ensures { IsTrue result ↔ T.members set.now (T.number item.now) }
{
    set.contains(item)
}
