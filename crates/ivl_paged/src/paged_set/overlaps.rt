//! Whether a set has a common member with another, in pages or in one list.
ghost use Rattle.std.specs.Prelude.{◌↔◌, IsTrue};
ghost use Rattle.ivl_laws.specs.Sets.{HasNone, HasSome, Intersection};
ghost use Rattle.ivl_laws.specs.Runs.{Covers};

use super::PagedSet;
use super::walks::have_common;
use intervallum::interval_set::IntervalSet;
use intervallum::ops::{Disjoint, Overlap};
use intervallum::width::Width;

impl<B: Width> Disjoint<PagedSet<B>> for PagedSet<B> {
    ghost members = { Covers };

    ghost other_members = { Covers };

    /// Returns true exactly when no number is a member of both. `O(n + m)`, and stops at the first
    /// common member. If one set has far fewer runs (a 16th), searches for each of its `k` runs among
    /// the `n` of the other: `O(k log n)`. Does not allocate.
    ///
    /// ```
    /// let a = PagedSet::of_set(&IntervalSet::new(alloc, 1, 2)?)?;
    /// let b = PagedSet::of_set(&IntervalSet::new(alloc, 3, 5)?)?;
    /// assert!(rt; a.is_disjoint(&b) && !a.is_disjoint(&a));
    /// ```
    fn is_disjoint(&self, other: &PagedSet<B>) -> bool
        // True exactly when no number is a member of both sets.
        ensures { IsTrue result ↔ HasNone (Intersection (Covers self.now) (Covers other.now)) }
    {
        !have_common(self, other)
    }
}

impl<B: Width> Disjoint<IntervalSet<B>> for PagedSet<B> {
    ghost members = { Covers };

    ghost other_members = { Covers };

    /// Returns true exactly when no number is a member of both. Costs as much as with another set in
    /// pages: `O(n + m)`, or `O(k log n)` if one of both has only `k` runs, far fewer (a 16th). Does not
    /// allocate.
    ///
    /// ```
    /// let a = PagedSet::of_set(&IntervalSet::new(alloc, 1, 2)?)?;
    /// assert!(rt; a.is_disjoint(&IntervalSet::new(alloc, 3, 5)?));
    /// assert!(rt; !a.is_disjoint(&IntervalSet::new(alloc, 2, 5)?));
    /// ```
    fn is_disjoint(&self, other: &IntervalSet<B>) -> bool
        // True exactly when no number is a member of both sets.
        ensures { IsTrue result ↔ HasNone (Intersection (Covers self.now) (Covers other.now)) }
    {
        !self.overlap(other)
    }
}

impl<B: Width> Overlap<PagedSet<B>> for PagedSet<B> {
    ghost members = { Covers };

    ghost other_members = { Covers };

    /// Returns true exactly when some number is a member of both. `O(n + m)`, and stops at the first
    /// common member. If one set has far fewer runs (a 16th), searches for each of its `k` runs among
    /// the `n` of the other: `O(k log n)`. Does not allocate.
    ///
    /// ```
    /// let a = PagedSet::of_set(&IntervalSet::new(alloc, 1, 2)?)?;
    /// let b = PagedSet::of_set(&IntervalSet::new(alloc, 3, 5)?)?;
    /// assert!(rt; a.overlap(&a) && !a.overlap(&b));
    /// ```
    fn overlap(&self, other: &PagedSet<B>) -> bool
        // True exactly when some number is a member of both sets.
        ensures { IsTrue result ↔ HasSome (Intersection (Covers self.now) (Covers other.now)) }
    {
        have_common(self, other)
    }
}

impl<B: Width> Overlap<IntervalSet<B>> for PagedSet<B> {
    ghost members = { Covers };

    ghost other_members = { Covers };

    /// Returns true exactly when some number is a member of both. Costs as much as with another set in
    /// pages: `O(n + m)`, or `O(k log n)` if one of both has only `k` runs, far fewer (a 16th). Does not
    /// allocate.
    ///
    /// ```
    /// let a = PagedSet::of_set(&IntervalSet::new(alloc, 1, 2)?)?;
    /// assert!(rt; a.overlap(&IntervalSet::new(alloc, 2, 5)?));
    /// assert!(rt; !a.overlap(&IntervalSet::new(alloc, 3, 5)?));
    /// ```
    fn overlap(&self, other: &IntervalSet<B>) -> bool
        // True exactly when some number is a member of both sets.
        ensures { IsTrue result ↔ HasSome (Intersection (Covers self.now) (Covers other.now)) }
    {
        have_common(other, self)
    }
}
