//! How many members two sets have together, in common, and apart, without making a set.
ghost use Rattle.ivl_laws.specs.Counts.{IsCountOf};
ghost use Rattle.ivl_laws.specs.Sets.{Intersection, Union, Without};
ghost use Rattle.ivl_laws.specs.Runs.{Covers};

use super::IntervalSet;
use super::builder::grown;
use super::lopsided::{common_size_with_few, is_far_shorter};
use crate::ops::Cardinality;
use crate::steps::{Probes, Walk, common_size};
use crate::width::{SizeNumber, Width};

impl<B: Width> IntervalSet<B> {
    /// Returns the number of members of both sets. `O(n + m)`. Never overflows. Does not allocate.
    ///
    /// If one set has far fewer runs, searches for each of its `k` runs among the `n` of the other,
    /// from where the last search ended: `O(k log n)`, plus a scan of the runs that these overlap.
    ///
    /// ```
    /// let (a, b) = (IntervalSet::new(alloc, 1, 5)?, IntervalSet::new(alloc, 4, 9)?);
    /// assert_eq!(rt; a.intersection_size(&b), 2u32);
    /// ```
    pub fn intersection_size(&self, other: &IntervalSet<B>) -> B::Output
        // The result is the number of members of both sets.
        ensures { IsCountOf (B.Output.size result) (Intersection (Covers self.now) (Covers other.now)) }
    {
        if is_far_shorter(self, other) {
            common_size_with_few(self, other, &mut Probes::new(other))
        } else if is_far_shorter(other, self) {
            common_size_with_few(other, self, &mut Probes::new(self))
        } else {
            common_size(Walk::new(self), Walk::new(other))
        }
    }

    /// Returns the number of members that are not in `other`. `O(n + m)`, or if one set has far fewer
    /// runs, as [`IntervalSet::intersection_size`]. Never overflows. Does not allocate.
    ///
    /// ```
    /// let (a, b) = (IntervalSet::new(alloc, 1, 5)?, IntervalSet::new(alloc, 4, 9)?);
    /// assert_eq!(rt; a.difference_size(&b), 3u32);
    /// ```
    pub fn difference_size(&self, other: &IntervalSet<B>) -> B::Output
        // The result is the number of members that are not in `other`.
        ensures { IsCountOf (B.Output.size result) (Without (Covers self.now) (Covers other.now)) }
    {
        let shared = self.intersection_size(other);
        self.size().checked_sub(shared).unwrap()
    }

    /// Returns the number of members of either set. `O(n + m)`, or if one set has far fewer
    /// runs, as [`IntervalSet::intersection_size`]. Never overflows. Does not allocate.
    ///
    /// ```
    /// let (a, b) = (IntervalSet::new(alloc, 1, 5)?, IntervalSet::new(alloc, 4, 9)?);
    /// assert_eq!(rt; a.union_size(&b), 9u32);
    /// ```
    pub fn union_size(&self, other: &IntervalSet<B>) -> B::Output
        // The result is the number of members of either set.
        ensures { IsCountOf (B.Output.size result) (Union (Covers self.now) (Covers other.now)) }
    {
        // members are in the range, so their number is a size
        self.in_whole();
        other.in_whole();
        let more = self.difference_size(other);
        grown::<B>(other.size(), more)
    }
}
