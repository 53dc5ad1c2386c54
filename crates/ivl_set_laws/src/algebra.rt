//! Laws of union, intersection, difference and complement.
ghost use Rattle.std.specs.Prelude.{◌≡◌, ◌↔◌, ℤ, pos, ◌+ℤ◌, ◌-ℤ◌, List};
ghost use Rattle.ivl_laws.specs.Runs.{Covers, IsMaximal, IsRunsOf};
ghost use Rattle.ivl_laws.specs.Sets.{Above, AtLeast, AtMost, Below, Complement, Intersection, IsBetween, IsSubset, SameMembers, SymmetricDifference, Union, Without};

use crate::sets::NumberSet;

/// The complement of a union is the intersection of the complements.
pub fn complement_of_union<S: NumberSet, T: NumberSet>()
    ensures { (whole : ℤ × ℤ) → SameMembers (Complement whole (Union S.members T.members))
        (Intersection (Complement whole S.members) (Complement whole T.members)) }
{}

/// The complement of an intersection is the union of the complements.
pub fn complement_of_intersection()
    ensures { (whole : ℤ × ℤ) (L M : List (ℤ × ℤ)) → SameMembers (Complement whole (Intersection (Covers L) (Covers M)))
        (Union (Complement whole (Covers L)) (Complement whole (Covers M))) }
{}

/// The complement of a complement is the set itself.
pub fn complement_twice()
    ensures { (whole : ℤ × ℤ) (L : List (ℤ × ℤ)) → IsSubset (Covers L) (IsBetween whole) →
        SameMembers (Complement whole (Complement whole (Covers L))) (Covers L) }
{}

/// A set is a subset of another exactly when their union is the other.
pub fn subset_by_union<S: NumberSet, T: NumberSet>()
    ensures { IsSubset S.members T.members ↔ SameMembers (Union S.members T.members) T.members }
{}

/// A list of runs lies within another exactly when the runs of their union are those of the other.
pub fn subset_by_union_of_runs()
    ensures { (L M R : List (ℤ × ℤ)) → IsMaximal M → IsRunsOf R (Union (Covers L) (Covers M)) → (IsSubset (Covers L) (Covers M) ↔ (R ≡ M)) }
{}

/// A difference is the intersection with the complement, and a symmetric difference the union without the intersection.
pub fn differences_by_complement<S: NumberSet, T: NumberSet>()
    ensures difference { (whole : ℤ × ℤ) → IsSubset S.members (IsBetween whole) →
        SameMembers (Without S.members T.members) (Intersection S.members (Complement whole T.members)) }
    ensures symmetric { SameMembers (SymmetricDifference S.members T.members)
        (Without (Union S.members T.members) (Intersection S.members T.members)) }
{}

/// The members of a set within a range on one side of a number are its intersection with an interval.
pub fn shrinks_are_cuts<S: NumberSet>()
    ensures at_least { (whole : ℤ × ℤ) (v : ℤ) → IsSubset S.members (IsBetween whole) →
        SameMembers (AtLeast v S.members) (Intersection S.members (IsBetween (v, whole.1))) }
    ensures at_most { (whole : ℤ × ℤ) (v : ℤ) → IsSubset S.members (IsBetween whole) →
        SameMembers (AtMost v S.members) (Intersection S.members (IsBetween (whole.0, v))) }
    ensures above { (whole : ℤ × ℤ) (v : ℤ) → IsSubset S.members (IsBetween whole) →
        SameMembers (Above v S.members) (Intersection S.members (IsBetween (v +ℤ pos 1, whole.1))) }
    ensures below { (whole : ℤ × ℤ) (v : ℤ) → IsSubset S.members (IsBetween whole) →
        SameMembers (Below v S.members) (Intersection S.members (IsBetween (whole.0, v -ℤ pos 1))) }
{}
