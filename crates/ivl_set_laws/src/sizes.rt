//! Laws of the sizes of sets.
ghost use Rattle.std.specs.Prelude.{◌≡◌, ℕ, ◌+◌, ◌≤◌, ◌↔◌, ℤ, List, sum_by};
ghost use Rattle.ivl_laws.specs.Bounds.{width_of};
ghost use Rattle.ivl_laws.specs.Counts.{IsCountOf};
ghost use Rattle.ivl_laws.specs.Runs.{Covers, IsMaximal, IsRunsOf};
ghost use Rattle.ivl_laws.specs.Sets.{Complement, HasNone, Intersection, IsBetween, IsSubset, Only, SameMembers, Union};

use crate::sets::NumberSet;

/// Lists of runs have one count each. A list within another has no larger count, and with an equal count covers the
/// same numbers. The counts of two lists add up to those of their union and intersection, and those of a list and its
/// complement to that of the range.
pub fn counts_of_runs()
    ensures unique { (L : List (ℤ × ℤ)) (m n : ℕ) → IsCountOf m (Covers L) → IsCountOf n (Covers L) → m ≡ n }
    ensures at_most { (L M : List (ℤ × ℤ)) (m n : ℕ) → IsSubset (Covers L) (Covers M) → IsCountOf m (Covers L) → IsCountOf n (Covers M) → m ≤ n }
    ensures all { (L M : List (ℤ × ℤ)) (n : ℕ) → IsSubset (Covers L) (Covers M) → IsCountOf n (Covers L) → IsCountOf n (Covers M) → SameMembers (Covers L) (Covers M) }
    ensures together { (L M U I : List (ℤ × ℤ)) (a b c d : ℕ) → IsRunsOf U (Union (Covers L) (Covers M)) → IsRunsOf I (Intersection (Covers L) (Covers M)) →
        IsCountOf a (Covers L) → IsCountOf b (Covers M) → IsCountOf c (Covers U) → IsCountOf d (Covers I) → c + d ≡ a + b }
    ensures complement { (whole : ℤ × ℤ) (L R : List (ℤ × ℤ)) (a b c : ℕ) → IsSubset (Covers L) (IsBetween whole) → IsRunsOf R (Complement whole (Covers L)) →
        IsCountOf a (Covers L) → IsCountOf b (Covers R) → IsCountOf c (IsBetween whole) → a + b ≡ c }
{}

/// A set has one count.
pub fn count_is_unique<S: NumberSet>()
    ensures { (m n : ℕ) → IsCountOf m S.members → IsCountOf n S.members → m ≡ n }
{}

/// Two sets with the same members have the same counts.
pub fn same_members_same_count<S: NumberSet, T: NumberSet>()
    ensures { SameMembers S.members T.members → (n : ℕ) → (IsCountOf n S.members ↔ IsCountOf n T.members) }
{}

/// A subset has no more members than the set, and with as many it is the set.
pub fn count_of_subset<S: NumberSet, T: NumberSet>()
    ensures at_most { (m n : ℕ) → IsSubset S.members T.members → IsCountOf m S.members → IsCountOf n T.members → m ≤ n }
    ensures all { (n : ℕ) → IsSubset S.members T.members → IsCountOf n S.members → IsCountOf n T.members → SameMembers S.members T.members }
{}

/// A set has 0 members exactly when it is empty, and 1 exactly when it is one number alone.
pub fn small_counts<S: NumberSet>()
    ensures none { IsCountOf 0 S.members ↔ HasNone S.members }
    ensures one { IsCountOf 1 S.members ↔ ((x : ℤ) × SameMembers S.members (Only x)) }
{}

/// An interval has as many members as it is wide, and a maximal list as many as its runs are wide together.
pub fn counts_are_widths()
    ensures interval { (p : ℤ × ℤ) → IsCountOf (width_of p) (IsBetween p) }
    ensures runs { (L : List (ℤ × ℤ)) → IsMaximal L → IsCountOf (sum_by width_of L) (Covers L) }
{}

/// A union and an intersection together have as many members as the two sets together.
pub fn union_and_intersection_counts<S: NumberSet, T: NumberSet>()
    ensures { (a b c d : ℕ) → IsCountOf a S.members → IsCountOf b T.members →
        IsCountOf c (Union S.members T.members) → IsCountOf d (Intersection S.members T.members) →
        c + d ≡ a + b }
{}

/// A set and its complement together have as many members as the whole.
pub fn complement_counts<S: NumberSet>()
    ensures { (whole : ℤ × ℤ) (a b c : ℕ) → IsSubset S.members (IsBetween whole) →
        IsCountOf a S.members → IsCountOf b (Complement whole S.members) → IsCountOf c (IsBetween whole) →
        a + b ≡ c }
{}
