//! The union and the intersection of many sets.
ghost use Rattle.std.specs.Prelude.{IfOk, map};
ghost use Rattle.ivl_laws.specs.Sets.{Intersection, IsBetween};
ghost use Rattle.ivl_laws.specs.Runs.{IsRunsOf};
ghost use Rattle.ivl_places.specs.Many.{IsInEach, IsInSome};

use super::IntervalSet;
use crate::ops::{Intersection, Union};
use crate::width::Width;
use std::alloc::{AllocError, Global};

impl<B: Width> IntervalSet<B> {
    /// Returns the members of any of the sets: none if there is no set.
    ///
    /// Unites the union of one half with that of the other: `O(n log k)` for `k` sets of `n` runs
    /// in all. Needs memory for at most `2 n` runs at a time. Fails only if allocation fails.
    ///
    /// ```
    /// let (a, b, c) = (
    ///     IntervalSet::new(alloc, 1, 2)?,
    ///     IntervalSet::new(alloc, 8, 9)?,
    ///     IntervalSet::new(alloc, 3, 5)?,
    /// );
    /// let all = IntervalSet::union_of(alloc, &[&a, &b, &c])?;
    /// assert!(rt; all == [(1, 5), (8, 9)].to_interval_set(alloc)?);
    /// ```
    pub fn union_of(alloc: Global, sets: &[&IntervalSet<B>]) -> Result<Self, AllocError>
        // On success, the members are exactly the numbers that are in some of the sets.
        ensures { IfOk result (λ L. IsRunsOf L (IsInSome (map (λ s. s.now) sets.now))) }
    {
        match sets {
            [] => Ok(IntervalSet::empty(alloc)),
            [one] => one.try_clone(),
            [one, other] => one.union(*other),
            [one, other, last] => one.union(*other)?.union(*last),
            _ => {
                let half = sets.len() / 2;
                let lower = IntervalSet::union_of(alloc, &sets[..half])?;
                let upper = IntervalSet::union_of(alloc, &sets[half..])?;
                lower.union(&upper)
            }
        }
    }

    /// Returns the members of each of the sets: the whole range of the type if there is no set.
    ///
    /// Intersects the intersection of one half with that of the other: `O(n log k)` for `k` sets of
    /// `n` runs in all. Needs memory for at most `2 n` runs at a time. Fails only if allocation
    /// fails.
    ///
    /// ```
    /// let (a, b, c) = (
    ///     IntervalSet::new(alloc, 1, 9)?,
    ///     IntervalSet::new(alloc, 3, 20)?,
    ///     IntervalSet::new(alloc, 0, 5)?,
    /// );
    /// let common = IntervalSet::intersection_of(alloc, &[&a, &b, &c])?;
    /// assert!(rt; common == IntervalSet::new(alloc, 3, 5)?);
    /// ```
    pub fn intersection_of(alloc: Global, sets: &[&IntervalSet<B>]) -> Result<Self, AllocError>
        // On success, the members are exactly the numbers of the range that are in each of the sets.
        ensures { IfOk result (λ L. IsRunsOf L (Intersection (IsBetween B.whole) (IsInEach (map (λ s. s.now) sets.now)))) }
    {
        match sets {
            [] => IntervalSet::whole(alloc),
            [one] => {
                one.in_whole();
                one.try_clone()
            }
            [one, other] => {
                one.in_whole();
                one.intersection(*other)
            }
            [one, other, last] => {
                one.in_whole();
                one.intersection(*other)?.intersection(*last)
            }
            _ => {
                let half = sets.len() / 2;
                let lower = IntervalSet::intersection_of(alloc, &sets[..half])?;
                let upper = IntervalSet::intersection_of(alloc, &sets[half..])?;
                lower.intersection(&upper)
            }
        }
    }
}
