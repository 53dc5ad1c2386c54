//! The operations on sets of integers, as traits.
//!
//! Each trait specifies its call by the members of the operands, through ghost members: `members`
//! and `other_members` are the members of the two operands as numbers, `number` is the number of an
//! item, `whole` is the range of the type of the bounds, and `answers` says when a result stands
//! for a set: if it has exactly its members, if it is the least interval that holds it, or, for a
//! `Result`, if it does so unless allocation failed.
//!
//! Calls on intervals take a few steps, do not allocate and never fail. Calls on sets document
//! their cost. Those that make a set return a `Result`, whose only error is a failed allocation.
ghost use Rattle.std.specs.Prelude.{◌≡◌, ◌↔◌, ◌≤ℤ◌, ℕ, ℤ, IsTrue};
ghost use Rattle.ivl_laws.specs.Sets.{Above, AtLeast, AtMost, Below, Complement, Differences, ExactProducts, HasNone, HasSome, Intersection, IsBetween, IsInRange, IsProperSubset, IsSubset, Only, SameMembers, Sums, SymmetricDifference, Union, Without};
ghost use Rattle.ivl_laws.specs.Counts.{IsCountOf};
ghost use Rattle.ivl_interval.specs.Kleene.{IsEntailmentOf};

use crate::interval::Interval;
use crate::kleene::SKleene;
use crate::width::Width;

/// A type whose values are sets of items, such as `Interval<B>` with items of type `B`.
pub trait Collection {
    /// The type of the items.
    type Item;

    /// The members of a value.
    ghost members: { Self → ℤ → Type 0 };

    /// The number of an item.
    ghost number: { Self.Item → ℤ };
}

/// A marker: the values are intervals, or sets of intervals.
pub trait IntervalKind {}

/// The empty set.
///
/// ```
/// assert!(rt; Interval::<i32>::empty().is_empty());
/// ```
pub trait Empty {
    ghost members: { Self → ℤ → Type 0 };

    /// Returns an empty set.
    fn empty() -> Self
        // The result has no member.
        ensures { HasNone (members result) };
}

/// The top of the lattice of information: the empty set. Sets are ordered by `entail`: the fewer
/// members, the more information.
///
/// ```
/// assert_eq!(rt; Interval::<i32>::top(), Interval::empty());
/// ```
pub trait Top {
    ghost members: { Self → ℤ → Type 0 };

    /// Returns the empty set, which entails every other.
    fn top() -> Self
        // The result has no member.
        ensures { HasNone (members result) };
}

/// The bottom of the lattice of information: the whole range.
///
/// ```
/// assert_eq!(rt; Interval::<i32>::bot(), Interval::whole());
/// ```
pub trait Bot {
    ghost members: { Self → ℤ → Type 0 };

    ghost whole: { ℤ × ℤ };

    /// Returns the numbers of the range, which every set entails.
    fn bot() -> Self
        // The members are exactly the numbers of the range.
        ensures { SameMembers (members result) (IsBetween whole) };
}

/// The whole range of the type of the bounds.
///
/// ```
/// assert_eq!(rt; Interval::<u8>::whole(), Interval::new(0, 254));
/// ```
pub trait Whole {
    ghost members: { Self → ℤ → Type 0 };

    ghost whole: { ℤ × ℤ };

    /// Returns the numbers of the range.
    fn whole() -> Self
        // The members are exactly the numbers of the range.
        ensures { SameMembers (members result) (IsBetween whole) };
}

/// A set of one item.
///
/// ```
/// assert_eq!(rt; Interval::singleton(5i32), Interval::new(5, 5));
/// ```
pub trait Singleton: Collection {
    ghost whole: { ℤ × ℤ };

    /// Returns the set of `item` alone. The caller must ensure that `item` is in the range. Check
    /// with `whole().contains(&item)`.
    fn singleton(item: Self::Item) -> Self
        requires { IsBetween whole (Self.number item) }
        // The only member is the item.
        ensures { SameMembers (Self.members result) (Only (Self.number item)) };
}

/// The set of the items from one to another.
///
/// ```
/// assert_eq!(rt; Interval::new(1i32, 5).size(), 5);
/// ```
pub trait Range: Collection {
    ghost whole: { ℤ × ℤ };

    /// Returns the items from `lb` to `ub`, both included; empty if they cross. The caller must
    /// ensure that `lb` is not below the range and `ub` is not above it. Check with
    /// `Interval::in_range(lb, ub)`.
    fn new(lb: Self::Item, ub: Self::Item) -> Self
        requires { IsInRange whole (Self.number lb, Self.number ub) }
        // The members are exactly the numbers from `lb` to `ub`.
        ensures { SameMembers (Self.members result) (IsBetween (Self.number lb, Self.number ub)) };
}

/// The least and the greatest member.
///
/// ```
/// let a = Interval::new(3i32, 8);
/// assert_eq!(rt; (a.lower(), a.upper()), (3, 8));
/// ```
pub trait Bounded: Collection {
    /// Returns the least member. The caller must ensure that the set is not empty. Check with
    /// `is_empty`.
    fn lower(&self) -> Self::Item
        requires { HasSome (Self.members self.now) }
        // The result is the least member.
        ensures member { Self.members self.now (Self.number result) }
        ensures least { (z : ℤ) → Self.members self.now z → Self.number result ≤ℤ z };

    /// Returns the greatest member. The caller must ensure that the set is not empty. Check with
    /// `is_empty`.
    fn upper(&self) -> Self::Item
        requires { HasSome (Self.members self.now) }
        // The result is the greatest member.
        ensures member { Self.members self.now (Self.number result) }
        ensures greatest { (z : ℤ) → Self.members self.now z → z ≤ℤ Self.number result };
}

/// The number of members of a set.
///
/// ```
/// assert_eq!(rt; Interval::new(-3i32, 3).size(), 7);
/// ```
pub trait Cardinality {
    /// The type of the number of members.
    type Size;

    ghost members: { Self → ℤ → Type 0 };

    /// The number of a size.
    ghost size_number: { Self.Size → ℕ };

    /// Returns the number of members.
    fn size(&self) -> Self::Size
        // The result is the number of members.
        ensures { IsCountOf (size_number result) (members self.now) };
}

/// Whether a set is empty.
///
/// ```
/// assert!(rt; Interval::new(8i32, 3).is_empty());
/// ```
pub trait IsEmpty {
    ghost members: { Self → ℤ → Type 0 };

    /// Returns true exactly when the set has no members.
    fn is_empty(&self) -> bool
        // True exactly when there is no member; after false there is one.
        ensures members { IsTrue result ↔ HasNone (members self.now) }
        ensures filled { ¬ (IsTrue result) → HasSome (members self.now) };
}

/// Whether a set has exactly one member.
///
/// ```
/// assert!(rt; Interval::new(5i32, 5).is_singleton());
/// ```
pub trait IsSingleton {
    ghost members: { Self → ℤ → Type 0 };

    /// Returns true exactly when the set has one member and no other.
    fn is_singleton(&self) -> bool
        // True exactly when there is one member and no other.
        ensures { IsTrue result ↔ ((x : ℤ) × SameMembers (members self.now) (Only x)) };
}

/// Whether an item is a member.
///
/// ```
/// let a = Interval::new(3i32, 8);
/// assert!(rt; a.contains(&8) && !a.contains(&9));
/// ```
pub trait Contains: Collection {
    /// Returns true exactly when `item`, which may be any value of its type, is a member.
    fn contains(&self, item: &Self::Item) -> bool
        // True exactly when the item is a member.
        ensures { IsTrue result ↔ Self.members self.now (Self.number item.now) };
}

/// Whether two sets have no common member.
///
/// ```
/// assert!(rt; Interval::new(1i32, 2).is_disjoint(&Interval::new(3, 4)));
/// ```
pub trait Disjoint<R> {
    ghost members: { Self → ℤ → Type 0 };

    ghost other_members: { R → ℤ → Type 0 };

    /// Returns true exactly when no number is a member of both.
    fn is_disjoint(&self, other: &R) -> bool
        // True exactly when no number is a member of both.
        ensures { IsTrue result ↔ HasNone (Intersection (members self.now) (other_members other.now)) };
}

/// Whether two sets have a common member.
///
/// ```
/// assert!(rt; Interval::new(1i32, 5).overlap(&Interval::new(5, 9)));
/// ```
pub trait Overlap<R> {
    ghost members: { Self → ℤ → Type 0 };

    ghost other_members: { R → ℤ → Type 0 };

    /// Returns true exactly when some number is a member of both.
    fn overlap(&self, other: &R) -> bool
        // True exactly when some number is a member of both.
        ensures { IsTrue result ↔ HasSome (Intersection (members self.now) (other_members other.now)) };
}

/// Inclusion.
///
/// ```
/// let (a, b) = (Interval::new(1i32, 2), Interval::new(0, 10));
/// assert!(rt; a.is_subset(&b) && a.is_subset(&a));
/// ```
pub trait Subset {
    ghost members: { Self → ℤ → Type 0 };

    /// Returns true exactly when each member is a member of `other`.
    fn is_subset(&self, other: &Self) -> bool
        // True exactly when each member is a member of `other`.
        ensures { IsTrue result ↔ IsSubset (members self.now) (members other.now) };
}

/// Inclusion of sets that differ.
///
/// ```
/// let (a, b) = (Interval::new(1i32, 2), Interval::new(0, 10));
/// assert!(rt; a.is_proper_subset(&b) && !a.is_proper_subset(&a));
/// ```
pub trait ProperSubset {
    ghost members: { Self → ℤ → Type 0 };

    /// Returns true exactly when each member is a member of `other`, and `other` has more.
    fn is_proper_subset(&self, other: &Self) -> bool
        // True exactly when each member is a member of `other`, and the two sets differ.
        ensures { IsTrue result ↔ IsProperSubset (members self.now) (members other.now) };
}

/// The union of two sets.
///
/// ```
/// let a = IntervalSet::new(alloc, 1i32, 2)?;
/// let b = IntervalSet::new(alloc, 2, 5)?;
/// assert_eq!(rt; a.union(&b)?.size(), 5u32);
/// ```
pub trait Union<R> {
    type Output;

    ghost members: { Self → ℤ → Type 0 };

    ghost other_members: { R → ℤ → Type 0 };

    /// The condition of the call: a single value must be in the range.
    ghost can_unite: { Self → R → Type 0 };

    ghost answers: { Self.Output → (ℤ → Type 0) → Type 0 };

    /// Returns the numbers that are members of at least one of the two. If `other` is a single
    /// value, the caller must ensure that it is in the range. Check with
    /// `Interval::whole().contains(&value)`.
    fn union(&self, other: &R) -> Self::Output
        requires { can_unite self.now other.now }
        // The result stands for the members of either.
        ensures { answers result (Union (members self.now) (other_members other.now)) };
}

/// The members that two sets have in common.
///
/// ```
/// let (a, b) = (Interval::new(1i32, 5), Interval::new(4, 9));
/// assert_eq!(rt; a.intersection(&b), Interval::new(4, 5));
/// ```
pub trait Intersection<R> {
    type Output;

    ghost members: { Self → ℤ → Type 0 };

    ghost other_members: { R → ℤ → Type 0 };

    ghost answers: { Self.Output → (ℤ → Type 0) → Type 0 };

    /// Returns the numbers that are members of both.
    fn intersection(&self, other: &R) -> Self::Output
        // The result stands for the members of both.
        ensures { answers result (Intersection (members self.now) (other_members other.now)) };
}

/// The members of one set that are not in another.
///
/// ```
/// let (a, b) = (Interval::new(1i32, 5), Interval::new(4, 9));
/// assert_eq!(rt; a.difference(&b), Interval::new(1, 3));
/// ```
pub trait Difference<R> {
    type Output;

    ghost members: { Self → ℤ → Type 0 };

    ghost other_members: { R → ℤ → Type 0 };

    ghost answers: { Self.Output → (ℤ → Type 0) → Type 0 };

    /// Returns the members that are not in `other`, or the least interval that holds them if the
    /// result is an interval.
    fn difference(&self, other: &R) -> Self::Output
        // The result stands for the members of `self` that are not in `other`.
        ensures { answers result (Without (members self.now) (other_members other.now)) };
}

/// The members of exactly one of two sets.
///
/// ```
/// let a = IntervalSet::new(alloc, 1i32, 2)?;
/// let b = IntervalSet::new(alloc, 2, 5)?;
/// assert_eq!(rt; a.symmetric_difference(&b)?.size(), 4u32);
/// ```
pub trait SymmetricDifference<R> {
    type Output;

    ghost members: { Self → ℤ → Type 0 };

    ghost other_members: { R → ℤ → Type 0 };

    /// The condition of the call: a single value must be in the range.
    ghost can_unite: { Self → R → Type 0 };

    ghost answers: { Self.Output → (ℤ → Type 0) → Type 0 };

    /// Returns the numbers that are members of exactly one of the two. If `other` is a single
    /// value, the caller must ensure that it is in the range. Check with
    /// `Interval::whole().contains(&value)`.
    fn symmetric_difference(&self, other: &R) -> Self::Output
        requires { can_unite self.now other.now }
        // The result stands for the members of either that are not in both.
        ensures { answers result (SymmetricDifference (members self.now) (other_members other.now)) };
}

/// The least interval that holds two sets.
///
/// ```
/// let (a, b) = (Interval::new(1i32, 5), Interval::new(4, 9));
/// assert_eq!(rt; a.hull(&b), Interval::new(1, 9));
/// ```
pub trait Hull<R> {
    type Output;

    ghost members: { Self → ℤ → Type 0 };

    ghost other_members: { R → ℤ → Type 0 };

    /// The condition of the call: a single value must be in the range.
    ghost can_join: { Self → R → Type 0 };

    ghost answers: { Self.Output → (ℤ → Type 0) → Type 0 };

    /// Returns the least interval that holds the members of both. If one of the two is a single
    /// value, the caller must ensure that it is in the range. Check with
    /// `Interval::whole().contains(&value)`.
    fn hull(&self, other: &R) -> Self::Output
        requires { can_join self.now other.now }
        // The result stands for the members of either.
        ensures { answers result (Union (members self.now) (other_members other.now)) };
}

/// The complement of a set within the range of its type.
///
/// ```
/// let a = IntervalSet::new(alloc, 1u8, 254)?;
/// let rest = a.complement()?;
/// assert!(rt; rest.contains(&0) && rest.is_singleton());
/// ```
pub trait Complement {
    type Output;

    ghost whole: { ℤ × ℤ };

    ghost members: { Self → ℤ → Type 0 };

    ghost answers: { Self.Output → (ℤ → Type 0) → Type 0 };

    /// Returns the numbers of the range that are not in the set.
    fn complement(&self) -> Self::Output
        // The result stands for the numbers of the range that are not members.
        ensures { answers result (Complement whole (members self.now)) };
}

/// A set cut from the left.
///
/// ```
/// let a = Interval::new(1i32, 9);
/// assert_eq!(rt; a.shrink_left(4), Interval::new(4, 9));
/// ```
pub trait ShrinkLeft: Collection {
    type Output;

    ghost answers: { Self.Output → (ℤ → Type 0) → Type 0 };

    /// Returns the members that are at least `lower`, for any value of its type.
    fn shrink_left(&self, lower: Self::Item) -> Self::Output
        // The result stands for the members that are at least `lower`.
        ensures { answers result (AtLeast (Self.number lower) (Self.members self.now)) };
}

/// A set cut from the right.
///
/// ```
/// let a = Interval::new(1i32, 9);
/// assert_eq!(rt; a.shrink_right(4), Interval::new(1, 4));
/// ```
pub trait ShrinkRight: Collection {
    type Output;

    ghost answers: { Self.Output → (ℤ → Type 0) → Type 0 };

    /// Returns the members that are at most `upper`, for any value of its type.
    fn shrink_right(&self, upper: Self::Item) -> Self::Output
        // The result stands for the members that are at most `upper`.
        ensures { answers result (AtMost (Self.number upper) (Self.members self.now)) };
}

/// A set cut from the left, excluding the item.
///
/// ```
/// let a = Interval::new(1i32, 9);
/// assert_eq!(rt; a.strict_shrink_left(4), Interval::new(5, 9));
/// ```
pub trait StrictShrinkLeft: Collection {
    type Output;

    ghost answers: { Self.Output → (ℤ → Type 0) → Type 0 };

    /// Returns the members above `lower`, for any value of its type.
    fn strict_shrink_left(&self, lower: Self::Item) -> Self::Output
        // The result stands for the members above `lower`.
        ensures { answers result (Above (Self.number lower) (Self.members self.now)) };
}

/// A set cut from the right, excluding the item.
///
/// ```
/// let a = Interval::new(1i32, 9);
/// assert_eq!(rt; a.strict_shrink_right(4), Interval::new(1, 3));
/// ```
pub trait StrictShrinkRight: Collection {
    type Output;

    ghost answers: { Self.Output → (ℤ → Type 0) → Type 0 };

    /// Returns the members below `upper`, for any value of its type.
    fn strict_shrink_right(&self, upper: Self::Item) -> Self::Output
        // The result stands for the members below `upper`.
        ensures { answers result (Below (Self.number upper) (Self.members self.now)) };
}

/// The join of two sets: the common members. Sets are ordered by information, so the join is the
/// intersection, although the word often stands for the union.
///
/// ```
/// let (a, b) = (Interval::new(1i32, 5), Interval::new(4, 9));
/// assert_eq!(rt; a.join(b), Interval::new(4, 5));
/// ```
pub trait Join: Sized {
    type Output;

    ghost members: { Self → ℤ → Type 0 };

    ghost answers: { Self.Output → (ℤ → Type 0) → Type 0 };

    /// Returns the members of both.
    fn join(self, other: Self) -> Self::Output
        // The result stands for the members of both.
        ensures { answers result (Intersection (members self) (members other)) };
}

/// The meet of two sets: what holds the members of either. Sets are ordered by information, so the
/// meet is the union, although the word often stands for the intersection.
///
/// ```
/// let (a, b) = (Interval::new(1i32, 5), Interval::new(4, 9));
/// assert_eq!(rt; a.meet(b), Interval::new(1, 9));
/// ```
pub trait Meet: Sized {
    type Output;

    ghost members: { Self → ℤ → Type 0 };

    ghost answers: { Self.Output → (ℤ → Type 0) → Type 0 };

    /// Returns the members of at least one, or the least interval that holds them if the result is
    /// an interval.
    fn meet(self, other: Self) -> Self::Output
        // The result stands for the members of either.
        ensures { answers result (Union (members self) (members other)) };
}

/// Whether one set has at least the information of another.
///
/// ```
/// let (a, b) = (Interval::new(1i32, 5), Interval::new(4, 9));
/// assert_eq!(rt; a.entail(&b), SKleene::Unknown);
/// ```
pub trait Entailment {
    ghost members: { Self → ℤ → Type 0 };

    /// Returns `True` if each member is a member of `other`, else `False` if it is the other way
    /// round, else `Unknown`.
    fn entail(&self, other: &Self) -> SKleene
        // `True` if each member is a member of `other`; else `False` if each member of `other` is one of `self`; else
        // `Unknown`.
        ensures { IsEntailmentOf (members self.now) (members other.now) result };
}

/// A value that can be converted to an interval.
///
/// ```
/// let a: Interval<i32> = (1..=5).to_interval();
/// assert_eq!(rt; a, Interval::new(1, 5));
/// ```
pub trait ToInterval<B: Width> {
    /// The bounds of the value are those of an interval.
    ghost can_convert: { Self → Type 0 };

    /// The pair of numbers that the value stands for.
    ghost interval: { Self → ℤ × ℤ };

    /// Returns the interval that the value stands for. The caller must ensure that its lower bound
    /// is not below the range and its upper bound is not above it. Check with `Interval::in_range`.
    fn to_interval(self) -> Interval<B>
        requires { can_convert self }
        // The members are exactly the numbers from the one bound to the other; if the bounds do not cross, they are
        // those of the result.
        ensures members { SameMembers (IsBetween result) (IsBetween (interval self)) }
        ensures bounds { (interval self).0 ≤ℤ (interval self).1 → result ≡ interval self };
}

/// Whether the results of arithmetic are in the range.
///
/// ```
/// let (a, b) = (Interval::new(1i32, 2), Interval::new(10, 20));
/// assert!(rt; a.fits_add(&b) && a.fits_sub(&b) && a.fits_mul(&b));
/// ```
pub trait Fits<R> {
    ghost whole: { ℤ × ℤ };

    ghost members: { Self → ℤ → Type 0 };

    ghost other_members: { R → ℤ → Type 0 };

    /// Returns true exactly when each sum of a member of `self` and a member of `other` is in the
    /// range.
    fn fits_add(&self, other: &R) -> bool
        // True exactly when the sum of each member of `self` and each of `other` is in the range.
        ensures { IsTrue result ↔ IsSubset (Sums (members self.now) (other_members other.now)) (IsBetween whole) };

    /// Returns true exactly when each difference is in the range.
    fn fits_sub(&self, other: &R) -> bool
        // True exactly when the difference of each member of `self` and each of `other` is in the range.
        ensures { IsTrue result ↔ IsSubset (Differences (members self.now) (other_members other.now)) (IsBetween whole) };

    /// Returns true exactly when each product is in the range.
    fn fits_mul(&self, other: &R) -> bool
        // True exactly when the product of each member of `self` and each of `other` is in the range.
        ensures { IsTrue result ↔ IsSubset (ExactProducts (members self.now) (other_members other.now)) (IsBetween whole) };
}
