//! A walk over the runs of a set, from the left.
ghost use Rattle.std.specs.Prelude.{◌≡◌, ◌≢◌, ℕ, ◌+◌, ◌≤◌, ℤ, [], ◌∷◌, IfSome, IsTrue, length, slice_get};
ghost use Rattle.std.specs.Int.{from_bool};
ghost use Rattle.ivl_laws.specs.Sets.{HasSome, IsBetween};
ghost use Rattle.ivl_laws.specs.Runs.{IsRunListIn};
ghost use Rattle.ivl_walks.specs.HeldRun.{IsTakenIf};

use crate::interval::Interval;
use crate::interval_set::IntervalSet;
use crate::width::Width;
use std::alloc::Global;
use std::marker::Model;

/// The runs of a set that are left in a walk. A contract sees these runs, how many were taken, and
/// how many the set has. No call allocates.
///
/// ```
/// let a: IntervalSet<i32> = [(1, 2), (5, 6)].to_interval_set(alloc)?;
/// let mut walk = Walk::new(&a);
/// assert!(rt; walk.peek().is_some());
/// walk.advance();
/// assert!(rt; walk.left() == 1 && walk.peek() == Some(Interval::new(5, 6)));
/// ```
#[derive(Drop)]
pub struct Walk<'a, B: Width> {
    runs: &'a [Interval<B>],
    taken: usize,
    alloc: Global,
}

impl<'a, B: Width> Model for Walk<'a, B> {
    ghost use Rattle.std.specs.Prelude.{◌≤◌, length, drop};
    ghost use Rattle.ivl_laws.specs.Runs.{IsRunListIn};
    ghost use Rattle.intervallum.specs.Cursors.{Position};

    ghost Value = { Position };

    ghost view = { λ w. record { left = drop w.taken w.runs.now; advances = w.taken; count = length w.runs.now } };

    ghost invariant = { λ w. IsRunListIn B.whole w.runs.now × (w.taken ≤ length w.runs.now) };
}

impl<'a, B: Width> Walk<'a, B> {
    /// Returns a walk over all runs of the set. `O(1)`. Does not allocate.
    ///
    /// ```
    /// let a: IntervalSet<i32> = [(1, 2), (5, 6)].to_interval_set(alloc)?;
    /// assert_eq!(rt; Walk::new(&a).left(), 2);
    /// ```
    pub fn new(set: &'a IntervalSet<B>) -> Walk<'a, B>
        // All runs of the set are left and counted, and no advance is.
        ensures left { result.left ≡ set.now }
        ensures advances { result.advances ≡ 0 }
        ensures count { result.count ≡ length set.now }
    {
        Walk {
            runs: set.as_runs(),
            taken: 0,
            alloc: set.allocator(),
        }
    }

    /// Returns the first run that is left, or `None` if there is none. `O(1)`. Does not allocate.
    ///
    /// ```
    /// let a: IntervalSet<i32> = [(1, 2), (5, 6)].to_interval_set(alloc)?;
    /// let walk = Walk::new(&a);
    /// assert!(rt; walk.peek() == Some(Interval::new(1, 2)));
    /// ```
    pub fn peek(&self) -> Option<Interval<B>>
        // The result is the first run that is left, which is not empty, or `None` if none is left; those that are left
        // are ascending, lie in the range, and neither overlap nor touch.
        ensures first { result ≡ slice_get self.now.left 0 }
        ensures filled { IfSome result (λ run. HasSome (IsBetween run)) }
        ensures runs { IsRunListIn B.whole self.now.left }
    {
        self.runs.get(self.taken).copied()
    }

    /// Takes the first run that is left. The caller must ensure that there is one. Check with
    /// `peek`. `O(1)`. Does not allocate.
    ///
    /// ```
    /// let a: IntervalSet<i32> = [(1, 2), (5, 6)].to_interval_set(alloc)?;
    /// let mut walk = Walk::new(&a);
    /// assert!(rt; walk.peek().is_some());
    /// walk.advance();
    /// assert_eq!(rt; walk.left(), 1);
    /// ```
    pub fn advance(&mut self)
        requires { self.old.left ≢ [] }
        // Exactly the first run is no longer left, one advance more is counted, and the number of all runs stays.
        ensures left { (run : ℤ × ℤ) × (self.old.left ≡ run ∷ self.new.left) }
        ensures advances { self.new.advances ≡ self.old.advances + 1 }
        ensures count { self.new.count ≡ self.old.count }
    {
        self.taken += 1;
    }

    /// Takes the first run that is left if a condition holds: the place moves by it, with no branch.
    pub(crate) fn advance_if(&mut self, condition: bool)
        requires { IsTrue condition → self.old.left ≢ [] }
        ensures taken { IsTakenIf condition self.old.left self.new.left }
        ensures advances { self.new.advances ≡ self.old.advances + from_bool condition }
        ensures count { self.new.count ≡ self.old.count }
    {
        self.taken += usize::from(condition);
    }

    /// The runs that are left.
    pub(crate) fn rest(&self) -> &'a [Interval<B>]
        ensures left { result.now ≡ self.now.left }
        ensures runs { IsRunListIn B.whole self.now.left }
    {
        &self.runs[self.taken..]
    }

    /// Returns the number of runs that are left: the runs of the set less the advances made.
    /// `O(1)`. Does not allocate.
    ///
    /// ```
    /// let a: IntervalSet<i32> = [(1, 2), (5, 6)].to_interval_set(alloc)?;
    /// let walk = Walk::new(&a);
    /// assert_eq!(rt; walk.left(), 2);
    /// ```
    pub fn left(&self) -> usize
        // The result is the number of runs that are left; with the advances so far it makes the number of all. Those
        // that are left are ascending, lie in the range, and neither overlap nor touch.
        ensures value { result ≡ length self.now.left }
        ensures all { self.now.advances + length self.now.left ≡ self.now.count }
        ensures runs { IsRunListIn B.whole self.now.left }
    {
        self.runs.len() - self.taken
    }

    /// The runs that are left are in the range. This does nothing: its contract is the fact.
    pub(crate) fn in_whole(&self)
        ensures { IsRunListIn B.whole self.now.left }
    {
        let _taken = self.taken;
    }

    /// Returns the allocator of the set. `O(1)`. Does not allocate.
    ///
    /// ```
    /// let a: IntervalSet<i32> = [(1, 2), (5, 6)].to_interval_set(alloc)?;
    /// let walk = Walk::new(&a);
    /// let none: IntervalSet<i32> = IntervalSet::empty(walk.alloc());
    /// assert!(rt; none.is_empty());
    /// ```
    pub fn alloc(&self) -> Global {
        self.alloc
    }
}
