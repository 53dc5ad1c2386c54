//! Laws of lists of runs.
ghost use Rattle.std.specs.Prelude.{◌≡◌, ◌+◌, ◌≤◌, ◌↔◌, ℤ, List, length, IsPermutation};
ghost use Rattle.ivl_laws.specs.Arithmetic.{CoversBoth};
ghost use Rattle.ivl_laws.specs.Runs.{Covers, IsMaximal, IsRunsOf};
ghost use Rattle.ivl_laws.specs.Sets.{Complement, InOneRun, Intersection, SameMembers, Union};

use crate::sets::NumberSet;

/// Two maximal lists that cover the same numbers are the same list.
pub fn runs_are_unique()
    ensures { (L M : List (ℤ × ℤ)) → IsMaximal L → IsMaximal M → SameMembers (Covers L) (Covers M) → L ≡ M }
{}

/// A set has one list of runs.
pub fn one_list_for_one_set<S: NumberSet>()
    ensures { (L M : List (ℤ × ℤ)) → IsRunsOf L S.members → IsRunsOf M S.members → L ≡ M }
{}

/// A union or an intersection has at most as many runs as both operands together, and a complement
/// at most one run more than its operand.
pub fn run_counts()
    ensures union { (L M R : List (ℤ × ℤ)) → IsRunsOf R (Union (Covers L) (Covers M)) → length R ≤ length L + length M }
    ensures intersection { (L M R : List (ℤ × ℤ)) → IsRunsOf R (Intersection (Covers L) (Covers M)) → length R ≤ length L + length M }
    ensures complement { (whole : ℤ × ℤ) (L R : List (ℤ × ℤ)) → IsRunsOf R (Complement whole (Covers L)) → length R ≤ length L + 1 }
{}

/// Two numbers are in one run of a set exactly when one pair of its maximal list covers both.
pub fn one_run_is_one_pair()
    ensures { (L : List (ℤ × ℤ)) (x y : ℤ) → IsMaximal L → (InOneRun (Covers L) x y ↔ CoversBoth L x y) }
{}

/// Pairs cover the same numbers in any order.
pub fn order_of_pairs()
    ensures { (L M : List (ℤ × ℤ)) → IsPermutation L M → SameMembers (Covers L) (Covers M) }
{}
