//! A set of integers as a list of runs.
ghost use Rattle.std.specs.Prelude.{◌≡◌, ◌↔◌, ℤ, All, List, [], ◌∷◌, ◌≤ℤ◌, IsTrue, IfOk, length};
ghost use Rattle.ivl_laws.specs.Sets.{HasNone, HasSome, IsBetween, IsInRange, SameMembers};
ghost use Rattle.ivl_laws.specs.Runs.{Covers, IsRunListIn};
ghost use Rattle.ivl_laws.specs.Counts.{IsCountOf};
ghost use Rattle.intervallum.specs.Equality.{same_runs};
ghost use Rattle.intervallum.specs.EqualityLaws.{same_runs_equiv, same_runs_laws};

mod arithmetic;
mod best_fit;
mod bounds;
pub(crate) mod builder;
mod clone;
mod collect;
mod contains;
mod conversions;
mod disjoint;
mod edits;
mod first_fit;
mod fits;
mod from_runs;
mod inclusion;
mod interval_operands;
mod iter;
mod lattice;
mod lopsided;
mod many;
mod members;
mod members_within;
mod neighbours;
mod operators;
mod push_run;
mod ranges;
mod rank;
pub(crate) mod run_lists;
mod runs_within;
mod set_operands;
mod shrinks;
mod sizes;
mod split_off;
mod text;
mod value_operands;
mod value_overlap;

use crate::interval::Interval;
use crate::ops::{Cardinality, Collection, IntervalKind, IsEmpty, Range};
use crate::width::{SizeNumber, Width};
pub use conversions::{IntoRuns, ToIntervalSet};
pub use members::Members;
use std::alloc::{AllocError, Global};
use std::marker::Model;

/// A set of integers. A contract sees the list of its runs, each a pair of numbers.
///
/// The runs are non-empty intervals within the type's range, in ascending order, with at least one
/// number missing between neighbours. The set also stores the number of its members.
///
/// If an allocation fails, borrowed operands are unchanged, and so is a set that was to be changed.
///
/// Unless its docs say otherwise, a call that returns a set reserves memory for the most runs that
/// the result may have, and shrinks the result if less than half, rounded down, is used, and more
/// than 16 runs would fit beside it. If shrinking fails, the result keeps its capacity.
///
/// ```
/// let hours: IntervalSet<u8> = [(12, 13), (8, 11)].to_interval_set(alloc)?;
/// assert!(rt; hours == IntervalSet::new(alloc, 8, 13)?);
/// ```
///
/// The original derives `Clone`; this set has `try_clone`. The `iter_mut` of the original, which
/// can make runs overlap, is left out.
#[derive(Drop, Debug)]
pub struct IntervalSet<B: Width> {
    intervals: Vec<Interval<B>>,
    size: B::Output,
}

impl<B: Width> Model for IntervalSet<B> {
    ghost Value = { List (ℤ × ℤ) };

    ghost view = { λ s. s.intervals.items };

    ghost invariant = { λ s. IsRunListIn B.whole s.intervals.items × IsCountOf (B.Output.size s.size) (Covers s.intervals.items) };
}

impl<B: Width> IntervalSet<B> {
    /// Returns the empty set. `O(1)`. Does not allocate.
    ///
    /// ```
    /// assert!(rt; IntervalSet::<i32>::empty(alloc).is_empty());
    /// ```
    pub fn empty(alloc: Global) -> Self
        // The result is the empty set.
        ensures { result ≡ [] }
    {
        IntervalSet {
            intervals: Vec::new(alloc),
            size: <B::Output as SizeNumber>::zero(),
        }
    }

    /// Returns the set of the numbers from `lb` to `ub`, both included. The caller must ensure
    /// `Interval::in_range(lb, ub)` and `lb <= ub`. `O(1)`. Allocates one run. Fails only if
    /// allocation fails.
    ///
    /// ```
    /// let a = IntervalSet::new(alloc, 1, 2)?;
    /// assert!(rt; a.contains(&1) && a.contains(&2) && !a.contains(&3));
    /// ```
    pub fn new(alloc: Global, lb: B, ub: B) -> Result<Self, AllocError>
        requires in_range { IsInRange B.whole (B.value lb, B.value ub) }
        requires in_order { B.value lb ≤ℤ B.value ub }
        // On success, the result is the one run from `lb` to `ub`.
        ensures { IfOk result (λ L. L ≡ (B.value lb, B.value ub) ∷ []) }
    {
        let run = Interval::new(lb, ub);
        let mut intervals = Vec::with_capacity(alloc, 1)?;
        intervals.push_reserved(run);
        Ok(IntervalSet {
            intervals,
            size: run.size(),
        })
    }

    /// Returns the number of runs. `O(1)`. Does not allocate.
    ///
    /// ```
    /// let a: IntervalSet<i32> = [(1, 2), (5, 6)].to_interval_set(alloc)?;
    /// assert_eq!(rt; a.interval_count(), 2);
    /// ```
    pub fn interval_count(&self) -> usize
        // The result is the number of runs, which are ascending, lie in the range, and neither overlap nor touch.
        ensures count { result ≡ length self.now }
        ensures runs { IsRunListIn B.whole self.now }
    {
        self.intervals.len()
    }

    /// Returns a double-ended iterator over the runs, in ascending order. `O(1)`. Does not
    /// allocate.
    ///
    /// ```
    /// let a: IntervalSet<i32> = [(1, 2), (5, 6)].to_interval_set(alloc)?;
    /// let mut runs = a.iter();
    /// assert!(rt; runs.next() == Some(&Interval::new(1, 2)));
    /// assert!(rt; runs.next_back() == Some(&Interval::new(5, 6)));
    /// ```
    pub fn iter(&self) -> std::slice::Iter<'_, Interval<B>>
        // The iterator yields the runs in order; they are ascending, not empty, lie in the range, and neither overlap
        // nor touch.
        ensures rest { result.rest.now ≡ self.now }
        ensures runs { IsRunListIn B.whole self.now }
        ensures filled { All (λ run. HasSome (IsBetween run)) self.now }
    {
        self.intervals.iter()
    }
}

impl<B: Width> IntervalKind for IntervalSet<B> {}

impl<B: Width> Collection for IntervalSet<B> {
    type Item = B;

    ghost members = { Covers };

    ghost number = { B.value };
}

impl<B: Width> Cardinality for IntervalSet<B> {
    type Size = B::Output;

    ghost members = { Covers };

    ghost size_number = { B.Output.size };

    /// Returns the number of members, which the set stores. `O(1)`. Never overflows. Does not
    /// allocate.
    ///
    /// ```
    /// let a: IntervalSet<i32> = [(1, 2), (5, 6)].to_interval_set(alloc)?;
    /// assert_eq!(rt; a.size(), 4u32);
    /// ```
    fn size(&self) -> B::Output {
        self.size
    }
}

impl<B: Width> IsEmpty for IntervalSet<B> {
    ghost members = { Covers };

    /// Returns true exactly when the set has no members. `O(1)`. Does not allocate.
    ///
    /// ```
    /// let a = IntervalSet::new(alloc, 1, 2)?;
    /// assert!(rt; !a.is_empty() && IntervalSet::<i32>::empty(alloc).is_empty());
    /// ```
    fn is_empty(&self) -> bool
        // True exactly when there is no member, and so no run; after false there is a member.
        ensures members { IsTrue result ↔ HasNone (Covers self.now) }
        ensures filled { ¬ (IsTrue result) → HasSome (Covers self.now) }
        ensures none { IsTrue result ↔ (self.now ≡ []) }
    {
        self.intervals.is_empty()
    }
}

impl<B: Width> PartialEq for IntervalSet<B> {
    ghost eq = { same_runs };

    ghost laws = { same_runs_laws };

    /// Returns true exactly when both sets have the same members. `O(n)`, or `O(1)` if the sizes
    /// differ. Does not allocate.
    ///
    /// ```
    /// let a: IntervalSet<i32> = [(3, 4), (1, 2)].to_interval_set(alloc)?;
    /// assert!(rt; a == IntervalSet::new(alloc, 1, 4)?);
    /// ```
    fn eq(&self, other: &IntervalSet<B>) -> bool
        // True exactly when both sets have the same members.
        ensures value { result ≡ same_runs self.now other.now }
        ensures members { IsTrue result ↔ SameMembers (Covers self.now) (Covers other.now) }
    {
        self.size == other.size && run_lists::are_the_same(&self.intervals, &other.intervals)
    }
}

impl<B: Width> Eq for IntervalSet<B> {
    ghost laws = { same_runs_equiv };
}
