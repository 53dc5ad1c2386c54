//! Membership of values.
ghost use Rattle.std.specs.Prelude.{option_map};
ghost use Rattle.ivl_laws.specs.Sets.{Held, Only};
ghost use Rattle.ivl_laws.specs.Runs.{Covers};

use super::IntervalSet;
use crate::ops::{Contains, Overlap};
use crate::optional::Optional;
use crate::steps::{Place, Probes, find};
use crate::width::Width;

impl<B: Width> Contains for IntervalSet<B> {
    /// Returns true exactly when `item`, which may be any value of its type, is a member. Binary
    /// search: `O(log n)`. Does not allocate.
    ///
    /// ```
    /// let a: IntervalSet<i32> = [(1, 2), (5, 6)].to_interval_set(alloc)?;
    /// assert!(rt; a.contains(&5) && !a.contains(&3));
    /// ```
    fn contains(&self, item: &B) -> bool {
        let mut runs = Probes::new(self);
        match find(&mut runs, *item) {
            Place::In(_) => true,
            Place::Gap(_) => false,
        }
    }
}

impl<B: Width> Overlap<B> for IntervalSet<B> {
    ghost members = { Covers };

    ghost other_members = { λ x. Only (B.value x) };

    /// Returns true exactly when the value, which may be any of its type, is a member. `O(log n)`.
    /// Does not allocate.
    ///
    /// ```
    /// let a: IntervalSet<i32> = [(1, 2), (5, 6)].to_interval_set(alloc)?;
    /// assert!(rt; a.overlap(&5) && !a.overlap(&3));
    /// ```
    fn overlap(&self, other: &B) -> bool {
        self.contains(other)
    }
}

impl<B: Width> Overlap<Optional<B>> for IntervalSet<B> {
    ghost members = { Covers };

    ghost other_members = { λ o. Held (option_map B.value o) };

    /// Returns true exactly when there is a value and it is a member. `O(log n)`. Does not
    /// allocate.
    ///
    /// ```
    /// let a: IntervalSet<i32> = [(1, 2), (5, 6)].to_interval_set(alloc)?;
    /// assert!(rt; a.overlap(&Optional::singleton(5)) && !a.overlap(&Optional::empty()));
    /// ```
    fn overlap(&self, other: &Optional<B>) -> bool {
        match other.as_ref() {
            Some(x) => self.contains(x),
            None => false,
        }
    }
}
