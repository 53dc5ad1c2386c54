//! Whether a value is not a member.
ghost use Rattle.std.specs.Prelude.{option_map};
ghost use Rattle.ivl_laws.specs.Sets.{Held, Only};
ghost use Rattle.ivl_laws.specs.Runs.{Covers};

use super::IntervalSet;
use crate::ops::{Contains, Disjoint, Overlap};
use crate::optional::Optional;
use crate::width::Width;

impl<B: Width> Disjoint<B> for IntervalSet<B> {
    ghost members = { Covers };

    ghost other_members = { λ x. Only (B.value x) };

    /// Returns true exactly when the value, which may be any of its type, is not a member.
    /// `O(log n)`. Does not allocate.
    ///
    /// ```
    /// let a: IntervalSet<i32> = [(1, 2), (5, 6)].to_interval_set(alloc)?;
    /// assert!(rt; a.is_disjoint(&3) && !a.is_disjoint(&5));
    /// ```
    fn is_disjoint(&self, other: &B) -> bool {
        !self.contains(other)
    }
}

impl<B: Width> Disjoint<Optional<B>> for IntervalSet<B> {
    ghost members = { Covers };

    ghost other_members = { λ o. Held (option_map B.value o) };

    /// Returns true exactly when there is no value, or it is not a member. `O(log n)`. Does not
    /// allocate.
    ///
    /// ```
    /// let a: IntervalSet<i32> = [(1, 2), (5, 6)].to_interval_set(alloc)?;
    /// assert!(rt; a.is_disjoint(&Optional::empty()) && !a.is_disjoint(&Optional::singleton(5)));
    /// ```
    fn is_disjoint(&self, other: &Optional<B>) -> bool {
        !self.overlap(other)
    }
}
