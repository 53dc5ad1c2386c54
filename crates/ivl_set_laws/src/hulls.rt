//! Laws of hulls.
ghost use Rattle.std.specs.Prelude.{◌≡◌, ◌↔◌, ℤ, ◌≤ℤ◌};
ghost use Rattle.ivl_laws.specs.Arithmetic.{Span, corner_hull};
ghost use Rattle.ivl_laws.specs.Sets.{ExactProducts, HasNone, HasSome, IsBetween, IsCrossed, IsHullOf, IsSubset, SameMembers};

use crate::sets::NumberSet;

/// The hull of a set is the least interval that holds it.
pub fn hull_is_least<S: NumberSet>()
    ensures { (p q : ℤ × ℤ) → IsHullOf p S.members → IsSubset S.members (IsBetween q) → IsSubset (IsBetween p) (IsBetween q) }
{}

/// A set has one hull: one pair if it has a member, and otherwise any crossed pair.
pub fn hull_is_unique<S: NumberSet>()
    ensures members { (p q : ℤ × ℤ) → IsHullOf p S.members → IsHullOf q S.members → SameMembers (IsBetween p) (IsBetween q) }
    ensures pair { (p q : ℤ × ℤ) → HasSome S.members → IsHullOf p S.members → IsHullOf q S.members → p ≡ q }
    ensures crossed { (p : ℤ × ℤ) → HasNone S.members → (IsHullOf p S.members ↔ IsCrossed p) }
{}

/// The hull of a set has the numbers from one member to another.
pub fn hull_is_span<S: NumberSet>()
    ensures { (p : ℤ × ℤ) → (IsHullOf p S.members ↔ SameMembers (IsBetween p) (Span S.members)) }
{}

/// The hull of the products of two intervals goes from the least to the greatest product of their ends.
pub fn hull_of_products()
    ensures { (p q : ℤ × ℤ) → p.0 ≤ℤ p.1 → q.0 ≤ℤ q.1 → IsHullOf (corner_hull p q) (ExactProducts (IsBetween p) (IsBetween q)) }
{}
