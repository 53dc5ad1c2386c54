//! The lattice of sets and that of intervals. A set is below its subsets: the join of two sets is their intersection,
//! and their meet the union. The meet of two intervals is the hull of their union.
ghost use Rattle.std.specs.Prelude.{◌↔◌, ℤ};
ghost use Rattle.ivl_laws.specs.Sets.{Intersection, IsBetween, IsHullOf, IsSubset, SameMembers, Union};

use crate::sets::NumberSet;

/// The join of two sets is the largest set within both, and the meet the smallest that holds both.
pub fn bounds_of_sets<S: NumberSet, T: NumberSet, U: NumberSet>()
    ensures join { IsSubset U.members (Intersection S.members T.members) ↔ (IsSubset U.members S.members × IsSubset U.members T.members) }
    ensures meet { IsSubset (Union S.members T.members) U.members ↔ (IsSubset S.members U.members × IsSubset T.members U.members) }
{}

/// Join and meet of sets form a lattice.
pub fn lattice_of_sets<S: NumberSet, T: NumberSet, U: NumberSet>()
    ensures join_commutes { SameMembers (Intersection S.members T.members) (Intersection T.members S.members) }
    ensures meet_commutes { SameMembers (Union S.members T.members) (Union T.members S.members) }
    ensures join_associates { SameMembers (Intersection (Intersection S.members T.members) U.members)
        (Intersection S.members (Intersection T.members U.members)) }
    ensures meet_associates { SameMembers (Union (Union S.members T.members) U.members)
        (Union S.members (Union T.members U.members)) }
    ensures join_is_idempotent { SameMembers (Intersection S.members S.members) S.members }
    ensures meet_is_idempotent { SameMembers (Union S.members S.members) S.members }
    ensures join_absorbs { SameMembers (Intersection S.members (Union S.members T.members)) S.members }
    ensures meet_absorbs { SameMembers (Union S.members (Intersection S.members T.members)) S.members }
{}

/// Two intervals have a join and a meet that are intervals.
pub fn intervals_have_bounds()
    ensures join { (p q : ℤ × ℤ) → (r : ℤ × ℤ) × SameMembers (IsBetween r) (Intersection (IsBetween p) (IsBetween q)) }
    ensures meet { (p q : ℤ × ℤ) → (r : ℤ × ℤ) × IsHullOf r (Union (IsBetween p) (IsBetween q)) }
{}

/// The join of intervals is commutative, associative and idempotent, and the join with a meet gives the interval back.
pub fn join_of_intervals()
    ensures commutes { (p q : ℤ × ℤ) → SameMembers (Intersection (IsBetween p) (IsBetween q)) (Intersection (IsBetween q) (IsBetween p)) }
    ensures associates { (p q s : ℤ × ℤ) → SameMembers (Intersection (Intersection (IsBetween p) (IsBetween q)) (IsBetween s))
        (Intersection (IsBetween p) (Intersection (IsBetween q) (IsBetween s))) }
    ensures is_idempotent { (p : ℤ × ℤ) → SameMembers (Intersection (IsBetween p) (IsBetween p)) (IsBetween p) }
    ensures absorbs { (p q meet : ℤ × ℤ) → IsHullOf meet (Union (IsBetween p) (IsBetween q)) →
        SameMembers (Intersection (IsBetween p) (IsBetween meet)) (IsBetween p) }
{}

/// The meet of intervals is commutative, associative and idempotent, and the meet with a join gives the interval back.
/// Both orders have the same members, and a meet lies within every interval that holds both.
pub fn meet_of_intervals()
    ensures commutes { (p q r : ℤ × ℤ) → IsHullOf r (Union (IsBetween p) (IsBetween q)) → IsHullOf r (Union (IsBetween q) (IsBetween p)) }
    ensures agrees { (p q r s : ℤ × ℤ) → IsHullOf r (Union (IsBetween p) (IsBetween q)) → IsHullOf s (Union (IsBetween q) (IsBetween p)) →
        SameMembers (IsBetween r) (IsBetween s) }
    ensures least { (p q r s : ℤ × ℤ) → IsHullOf r (Union (IsBetween p) (IsBetween q)) →
        IsSubset (IsBetween p) (IsBetween s) → IsSubset (IsBetween q) (IsBetween s) → IsSubset (IsBetween r) (IsBetween s) }
    ensures associates { (p q s first last left right : ℤ × ℤ) →
        IsHullOf first (Union (IsBetween p) (IsBetween q)) → IsHullOf left (Union (IsBetween first) (IsBetween s)) →
        IsHullOf last (Union (IsBetween q) (IsBetween s)) → IsHullOf right (Union (IsBetween p) (IsBetween last)) →
        SameMembers (IsBetween left) (IsBetween right) }
    ensures is_idempotent { (p r : ℤ × ℤ) → IsHullOf r (Union (IsBetween p) (IsBetween p)) → SameMembers (IsBetween r) (IsBetween p) }
    ensures absorbs { (p q join r : ℤ × ℤ) → SameMembers (IsBetween join) (Intersection (IsBetween p) (IsBetween q)) →
        IsHullOf r (Union (IsBetween p) (IsBetween join)) → SameMembers (IsBetween r) (IsBetween p) }
{}
