//! Laws of sums, differences and products of sets.
ghost use Rattle.std.specs.Prelude.{◌≡◌, ◌+◌, ◌*◌, ◌<◌, ℕ, ◌↔◌, ◌≤ℤ◌, ℤ, [], ◌∷◌, List, length, get_or};
ghost use Rattle.ivl_laws.specs.Arithmetic.{corner_hull, interval_difference, interval_sum, pairwise};
ghost use Rattle.ivl_laws.specs.Runs.{Covers, IsMaximal, IsRunsOf};
ghost use Rattle.ivl_laws.specs.Sets.{Differences, ExactProducts, IsBetween, IsSubset, Only, Products, SameMembers, Sums};

use crate::sets::NumberSet;

/// The sums of two intervals that are not crossed are an interval, and so are the differences.
pub fn arithmetic_of_intervals()
    ensures sums { (p q : ℤ × ℤ) → p.0 ≤ℤ p.1 → q.0 ≤ℤ q.1 → SameMembers (IsBetween (interval_sum p q)) (Sums (IsBetween p) (IsBetween q)) }
    ensures differences { (p q : ℤ × ℤ) → p.0 ≤ℤ p.1 → q.0 ≤ℤ q.1 → SameMembers (IsBetween (interval_difference p q)) (Differences (IsBetween p) (IsBetween q)) }
{}

/// The sums, differences and products of sets are those over each pair of their runs.
pub fn arithmetic_by_runs()
    ensures sums { (L M : List (ℤ × ℤ)) → IsMaximal L → IsMaximal M → SameMembers (Sums (Covers L) (Covers M)) (Covers (pairwise interval_sum L M)) }
    ensures differences { (L M : List (ℤ × ℤ)) → IsMaximal L → IsMaximal M → SameMembers (Differences (Covers L) (Covers M)) (Covers (pairwise interval_difference L M)) }
    ensures products { (L M : List (ℤ × ℤ)) → IsMaximal L → IsMaximal M → SameMembers (Products (Covers L) (Covers M)) (Covers (pairwise corner_hull L M)) }
{}

/// There are n times m results over the pairs of n runs and m runs, and that of run i and run j is at place i * m + j.
pub fn places_of_pairs()
    ensures length { (f : ℤ × ℤ → ℤ × ℤ → ℤ × ℤ) (L M : List (ℤ × ℤ)) → length (pairwise f L M) ≡ length L * length M }
    ensures place { (f : ℤ × ℤ → ℤ × ℤ → ℤ × ℤ) (L M : List (ℤ × ℤ)) (i j : ℕ) (d : ℤ × ℤ) → i < length L → j < length M →
        get_or (pairwise f L M) (i * length M + j) d ≡ f (get_or L i d) (get_or M j d) }
{}

/// Sums, differences and products of larger sets hold those of smaller ones.
pub fn arithmetic_is_monotone<S: NumberSet, T: NumberSet, U: NumberSet, V: NumberSet>()
    ensures sums { IsSubset S.members U.members → IsSubset T.members V.members →
        IsSubset (Sums S.members T.members) (Sums U.members V.members) }
    ensures differences { IsSubset S.members U.members → IsSubset T.members V.members →
        IsSubset (Differences S.members T.members) (Differences U.members V.members) }
    ensures exact_products { IsSubset S.members U.members → IsSubset T.members V.members →
        IsSubset (ExactProducts S.members T.members) (ExactProducts U.members V.members) }
    ensures products { IsSubset S.members U.members → IsSubset T.members V.members →
        IsSubset (Products S.members T.members) (Products U.members V.members) }
{}

/// The runs of sums, differences and products of larger sets cover those of smaller ones.
pub fn arithmetic_of_runs_is_monotone()
    ensures sums { (L M N O R S : List (ℤ × ℤ)) → IsSubset (Covers L) (Covers N) → IsSubset (Covers M) (Covers O) →
        IsRunsOf R (Sums (Covers L) (Covers M)) → IsRunsOf S (Sums (Covers N) (Covers O)) → IsSubset (Covers R) (Covers S) }
    ensures differences { (L M N O R S : List (ℤ × ℤ)) → IsSubset (Covers L) (Covers N) → IsSubset (Covers M) (Covers O) →
        IsRunsOf R (Differences (Covers L) (Covers M)) → IsRunsOf S (Differences (Covers N) (Covers O)) → IsSubset (Covers R) (Covers S) }
    ensures products { (L M N O R S : List (ℤ × ℤ)) → IsSubset (Covers L) (Covers N) → IsSubset (Covers M) (Covers O) →
        IsRunsOf R (Products (Covers L) (Covers M)) → IsRunsOf S (Products (Covers N) (Covers O)) → IsSubset (Covers R) (Covers S) }
{}

/// A number as an operand counts as the set of one run that holds it alone.
pub fn arithmetic_with_a_number<S: NumberSet>()
    ensures sums { (c : ℤ) → SameMembers (Sums S.members (Only c)) (Sums S.members (Covers ((c, c) ∷ []))) }
    ensures differences { (c : ℤ) → SameMembers (Differences S.members (Only c)) (Differences S.members (Covers ((c, c) ∷ []))) }
    ensures exact_products { (c : ℤ) → SameMembers (ExactProducts S.members (Only c)) (ExactProducts S.members (Covers ((c, c) ∷ []))) }
    ensures products { (c : ℤ) → SameMembers (Products S.members (Only c)) (Products S.members (Covers ((c, c) ∷ []))) }
{}

/// The exact products are among the products, and the products lie within a pair exactly when the exact ones do.
pub fn products_fit<S: NumberSet, T: NumberSet>()
    ensures among { IsSubset (ExactProducts S.members T.members) (Products S.members T.members) }
    ensures fit { (w : ℤ × ℤ) → (IsSubset (ExactProducts S.members T.members) (IsBetween w) ↔ IsSubset (Products S.members T.members) (IsBetween w)) }
{}
