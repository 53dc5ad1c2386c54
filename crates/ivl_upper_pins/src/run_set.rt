//! What the calls that both kinds of set have mean, as a caller learns it from the public contracts alone.
ghost use Rattle.std.specs.Prelude.{◌≡◌, ◌↔◌, ◌⊎◌, ◌≤◌, ◌≤ℤ◌, ℕ, ℤ, List, [], IfOk, IfSome, IsTrue, MatchOption, None, OnErr, OnOk};
ghost use Rattle.ivl_laws.specs.Counts.{IsCountOf};
ghost use Rattle.ivl_laws.specs.Sets.{AtLeast, AtMost, Below, HasNone, IsBetween, IsInRange, IsSubset, Only, Union, Without};
ghost use Rattle.ivl_laws.specs.Runs.{Covers, IsRunsOf};
ghost use Rattle.ivl_places.specs.Neighbours.{IsGreatest, IsLeast};
ghost use Rattle.ivl_places.specs.FirstFit.{FitsAt, IsFirstFit};

use intervallum::interval::Interval;
use intervallum::interval_set::IntervalSet;
use intervallum::ops::Range;
use intervallum::width::{SizeNumber, Width};
use ivl_paged::paged_set::PagedSet;
use std::alloc::AllocError;

/// What a contract sees of a set.
pub trait HasRuns {
    /// The runs.
    ghost runs: { Self → List (ℤ × ℤ) };
}

impl<B: Width> HasRuns for IntervalSet<B> {
    ghost runs = { λ L. L };
}

impl<B: Width> HasRuns for PagedSet<B> {
    ghost runs = { λ L. L };
}

/// A set whose runs are edited and asked for.
pub trait RunSet<B: Width>: HasRuns {
    /// Adds a value if `in_range` allows it, and returns whether it was not a member before.
    fn insert_if_in_range(&mut self, value: B) -> Result<Option<bool>, AllocError>
        ensures answer { IfOk result (λ o. MatchOption o (¬ (IsInRange B.whole (B.value value, B.value value))) (λ is_new. IsTrue is_new ↔ ¬ (Covers (Self.runs self.old) (B.value value)))) }
        ensures members { IfOk result (λ o. MatchOption o (Self.runs self.new ≡ Self.runs self.old) (λ _. IsRunsOf (Self.runs self.new) (Union (Covers (Self.runs self.old)) (Only (B.value value))))) }
        ensures err { OnErr result (Self.runs self.new ≡ Self.runs self.old) };

    /// Removes a value, which may be any value of its type, and returns whether it was a member.
    fn loses_value(&mut self, value: B) -> Result<bool, AllocError>
        ensures answer { IfOk result (λ was_member. IsTrue was_member ↔ Covers (Self.runs self.old) (B.value value)) }
        ensures members { OnOk result (IsRunsOf (Self.runs self.new) (Without (Covers (Self.runs self.old)) (Only (B.value value)))) }
        ensures err { OnErr result (Self.runs self.new ≡ Self.runs self.old) };

    /// Adds the numbers of two bounds, which may cross, if `in_range` allows them, and returns whether
    /// it does.
    fn insert_bounds_if_in_range(&mut self, lb: B, ub: B) -> Result<bool, AllocError>
        ensures members { IfOk result (λ is_in_range. IsTrue is_in_range → IsRunsOf (Self.runs self.new) (Union (Covers (Self.runs self.old)) (IsBetween (B.value lb, B.value ub)))) }
        ensures in_range { IfOk result (λ is_in_range. IsTrue is_in_range ↔ IsInRange B.whole (B.value lb, B.value ub)) }
        ensures err { OnErr result (Self.runs self.new ≡ Self.runs self.old) };

    /// Removes all members: no run is left.
    fn loses_all(&mut self)
        ensures { Self.runs self.new ≡ [] };

    /// Removes and returns the least number that is covered.
    fn least_taken(&mut self) -> Option<B>
        ensures none { (result ≡ None) → Self.runs self.old ≡ [] }
        ensures member { IfSome result (λ v. Covers (Self.runs self.old) (B.value v)) }
        ensures least { IfSome result (λ v. (z : ℤ) → Covers (Self.runs self.old) z → B.value v ≤ℤ z) }
        ensures others { IfSome result (λ v. IsRunsOf (Self.runs self.new) (Without (Covers (Self.runs self.old)) (Only (B.value v)))) };

    /// Removes and returns the greatest number that is covered.
    fn greatest_taken(&mut self) -> Option<B>
        ensures none { (result ≡ None) → Self.runs self.old ≡ [] }
        ensures member { IfSome result (λ v. Covers (Self.runs self.old) (B.value v)) }
        ensures greatest { IfSome result (λ v. (z : ℤ) → Covers (Self.runs self.old) z → z ≤ℤ B.value v) }
        ensures others { IfSome result (λ v. IsRunsOf (Self.runs self.new) (Without (Covers (Self.runs self.old)) (Only (B.value v)))) };

    /// Moves the least member into another set. It needs no test, since a member is in the range.
    fn move_least(&mut self, to: &mut Self) -> Result<(), AllocError>;

    /// Returns the least member from a value on, or another value if there is none.
    fn next_or(&self, value: B, other: B) -> B
        ensures { (HasNone (AtLeast (B.value value) (Covers (Self.runs self.now))) × (B.value result ≡ B.value other)) ⊎ IsLeast (B.value result) (AtLeast (B.value value) (Covers (Self.runs self.now))) };

    /// Returns the greatest member up to a value, or another value if there is none.
    fn previous_or(&self, value: B, other: B) -> B
        ensures { (HasNone (AtMost (B.value value) (Covers (Self.runs self.now))) × (B.value result ≡ B.value other)) ⊎ IsGreatest (B.value result) (AtMost (B.value value) (Covers (Self.runs self.now))) };

    /// Returns the run that holds a value, whose numbers are members, or `None` if the value is not a
    /// member.
    fn members_around(&self, value: B) -> Option<Interval<B>>
        ensures { MatchOption result (¬ (Covers (Self.runs self.now) (B.value value))) (λ run. IsSubset (IsBetween run) (Covers (Self.runs self.now)) × IsBetween run (B.value value)) };

    /// Returns the lowest `count` consecutive members from a value on, if `count` is tested to be above
    /// 0.
    fn fit_from_if_some(&self, value: B, count: B::Output) -> Option<Interval<B>>
        ensures { MatchOption result
            ((B.Output.size count ≡ 0) ⊎ ((v : ℤ) → ¬ (FitsAt (B.Output.size count) (AtLeast (B.value value) (Covers (Self.runs self.now))) v)))
            (IsFirstFit (B.Output.size count) (AtLeast (B.value value) (Covers (Self.runs self.now)))) };

    /// Returns the number of members below a value.
    fn count_below(&self, value: B) -> B::Output
        ensures { IsCountOf (B.Output.size result) (Below (B.value value) (Covers (Self.runs self.now))) };

    /// Returns the member with so many others below it.
    fn member_by_number(&self, i: B::Output) -> Option<B>
        ensures { MatchOption result
            ((n : ℕ) → IsCountOf n (Covers (Self.runs self.now)) → n ≤ B.Output.size i)
            (λ x. Covers (Self.runs self.now) (B.value x) × IsCountOf (B.Output.size i) (Below (B.value x) (Covers (Self.runs self.now)))) };
}

impl<B: Width> RunSet<B> for IntervalSet<B> {
    fn insert_if_in_range(&mut self, value: B) -> Result<Option<bool>, AllocError> {
        if Interval::in_range(value, value) {
            Ok(Some(self.insert(value)?))
        } else {
            Ok(None)
        }
    }

    fn loses_value(&mut self, value: B) -> Result<bool, AllocError> {
        self.remove(value)
    }

    fn insert_bounds_if_in_range(&mut self, lb: B, ub: B) -> Result<bool, AllocError> {
        if !Interval::in_range(lb, ub) {
            return Ok(false);
        }
        self.insert_interval(Interval::new(lb, ub))?;
        Ok(true)
    }

    fn loses_all(&mut self) {
        self.clear();
    }

    fn least_taken(&mut self) -> Option<B> {
        self.pop_first()
    }

    fn greatest_taken(&mut self) -> Option<B> {
        self.pop_last()
    }

    fn move_least(&mut self, to: &mut Self) -> Result<(), AllocError> {
        if let Some(value) = self.pop_first() {
            to.insert(value)?;
        }
        Ok(())
    }

    fn next_or(&self, value: B, other: B) -> B {
        match self.next_from(value) {
            Some(x) => x,
            None => other,
        }
    }

    fn previous_or(&self, value: B, other: B) -> B {
        match self.previous_to(value) {
            Some(x) => x,
            None => other,
        }
    }

    fn members_around(&self, value: B) -> Option<Interval<B>> {
        self.run_at(value)
    }

    fn fit_from_if_some(&self, value: B, count: B::Output) -> Option<Interval<B>> {
        if count.number() > 0 {
            self.first_fit_from(value, count)
        } else {
            None
        }
    }

    fn count_below(&self, value: B) -> B::Output {
        self.rank(value)
    }

    fn member_by_number(&self, i: B::Output) -> Option<B> {
        self.nth(i)
    }
}

impl<B: Width> RunSet<B> for PagedSet<B> {
    fn insert_if_in_range(&mut self, value: B) -> Result<Option<bool>, AllocError> {
        if Interval::in_range(value, value) {
            Ok(Some(self.insert(value)?))
        } else {
            Ok(None)
        }
    }

    fn loses_value(&mut self, value: B) -> Result<bool, AllocError> {
        self.remove(value)
    }

    fn insert_bounds_if_in_range(&mut self, lb: B, ub: B) -> Result<bool, AllocError> {
        if !Interval::in_range(lb, ub) {
            return Ok(false);
        }
        self.insert_interval(Interval::new(lb, ub))?;
        Ok(true)
    }

    fn loses_all(&mut self) {
        self.clear();
    }

    fn least_taken(&mut self) -> Option<B> {
        self.pop_first()
    }

    fn greatest_taken(&mut self) -> Option<B> {
        self.pop_last()
    }

    fn move_least(&mut self, to: &mut Self) -> Result<(), AllocError> {
        if let Some(value) = self.pop_first() {
            to.insert(value)?;
        }
        Ok(())
    }

    fn next_or(&self, value: B, other: B) -> B {
        match self.next_from(value) {
            Some(x) => x,
            None => other,
        }
    }

    fn previous_or(&self, value: B, other: B) -> B {
        match self.previous_to(value) {
            Some(x) => x,
            None => other,
        }
    }

    fn members_around(&self, value: B) -> Option<Interval<B>> {
        self.run_at(value)
    }

    fn fit_from_if_some(&self, value: B, count: B::Output) -> Option<Interval<B>> {
        if count.number() > 0 {
            self.first_fit_from(value, count)
        } else {
            None
        }
    }

    fn count_below(&self, value: B) -> B::Output {
        self.rank(value)
    }

    fn member_by_number(&self, i: B::Output) -> Option<B> {
        self.nth(i)
    }
}
