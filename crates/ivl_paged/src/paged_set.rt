//! A set of integers whose runs stand in pages.
ghost use Rattle.std.specs.Prelude.{◌≡◌, ◌↔◌, ℤ, ◌≤ℤ◌, List, [], IfNone, IfOk, IfSome, IsOk, IsTrue, OnErr, OnOk, length};
ghost use Rattle.ivl_laws.specs.Sets.{HasNone, HasSome, Intersection, IsBetween, IsSubset, Only, Union, Without};
ghost use Rattle.ivl_laws.specs.Runs.{Covers, IsRunListIn, IsRunsOf};
ghost use Rattle.ivl_places.specs.Edits.{widened};
ghost use Rattle.ivl_paged.specs.Pages.{flattened};

mod best_fit;
mod bounds;
mod clone;
mod conversions;
mod equality;
mod first_fit;
mod in_place;
mod inclusion;
mod interval_operands;
mod iter;
mod list_operands;
mod longest_run;
mod members;
mod neighbours;
mod overlaps;
mod rank;
mod retain;
mod run_edits;
mod set_operands;
mod split_off;
mod text;
mod walks;
mod within;

use crate::page_list::PageList;
use crate::pages;
use intervallum::interval::Interval;
use intervallum::interval_set::IntervalSet;
use intervallum::ops::{Collection, IsEmpty, Singleton};
use intervallum::width::Width;
pub use iter::Runs;
pub use members::Members;
use std::alloc::{AllocError, Global};
use std::marker::Model;

/// A set of integers for many runs that change. A contract sees the list of its runs, each a pair
/// of numbers, as it does of an `IntervalSet`.
///
/// The runs stand in pages of fewer than 128. The least members of the pages stand in a list of their
/// own. A search for a value is a binary search of that list, and then looks at every 16th run of one
/// page and at 16 in a row: `O(log n)`. An edit in one page moves the runs of that page. A page that
/// gets 128 is split in two, which moves both lists; if there is no memory for that, the page grows. A
/// page that gets at most half of that is joined with a neighbour if both then have at most 96. A page
/// is removed when it is empty; the first one is passed over and keeps its memory, until there is one such
/// for each 16 others.
///
/// If an allocation fails, the set is unchanged.
///
/// ```
/// let mut a = PagedSet::new(alloc);
/// a.insert_interval(Interval::new(1, 5))?;
/// assert!(rt; a.remove(3)? && a.insert(9)?);
/// assert!(rt; a.to_set()? == [(1, 2), (4, 5), (9, 9)].to_interval_set(alloc)?);
/// ```
#[derive(Drop)]
pub struct PagedSet<B: Width> {
    alloc: Global,
    pages: PageList<B>,
}

impl<B: Width> Model for PagedSet<B> {
    ghost Value = { List (ℤ × ℤ) };

    ghost view = { λ s. flattened s.pages };

    ghost invariant = { λ s. IsRunListIn B.whole (flattened s.pages) };
}

impl<B: Width> Collection for PagedSet<B> {
    type Item = B;

    ghost members = { Covers };

    ghost number = { B.value };
}

impl<B: Width> PagedSet<B> {
    /// Returns the empty set. `O(1)`. Does not allocate.
    ///
    /// ```
    /// assert!(rt; PagedSet::<i64>::new(alloc).is_empty());
    /// ```
    pub fn new(alloc: Global) -> Self
        // The result is the empty set.
        ensures { result ≡ [] }
    {
        PagedSet {
            alloc,
            pages: PageList::new(alloc),
        }
    }

    /// Returns the set with the members of another, whose runs are copied into pages of 96 runs that
    /// have room for 128. `O(n)`. Fails only if allocation fails.
    ///
    /// ```
    /// let list: IntervalSet<i32> = [(1, 2), (5, 6)].to_interval_set(alloc)?;
    /// assert!(rt; PagedSet::of_set(&list)?.to_set()? == list);
    /// ```
    pub fn of_set(set: &IntervalSet<B>) -> Result<Self, AllocError>
        // On success, the result has the runs of `set`.
        ensures { IfOk result (λ L. L ≡ set.now) }
    {
        set.in_whole();
        let alloc = set.allocator();
        let pages = pages::pages_of(alloc, set.iter().as_slice())?;
        Ok(PagedSet { alloc, pages })
    }

    /// Returns true exactly when the set has no members. `O(1)`. Does not allocate.
    ///
    /// ```
    /// let mut a = PagedSet::new(alloc);
    /// assert!(rt; a.is_empty());
    /// a.insert(5)?;
    /// assert!(rt; !a.is_empty());
    /// ```
    pub fn is_empty(&self) -> bool
        // True exactly when there is no member, and so no run.
        ensures members { IsTrue result ↔ HasNone (Covers self.now) }
        ensures none { IsTrue result ↔ (self.now ≡ []) }
    {
        if self.pages.is_empty() {
            return true;
        }
        // a page has a member
        self.pages.head(0);
        false
    }

    /// Returns true exactly when `value`, which may be any value of its type, is a member. `O(log n)`.
    /// Does not allocate.
    ///
    /// ```
    /// let mut a = PagedSet::new(alloc);
    /// a.insert(5)?;
    /// assert!(rt; a.contains(&5) && !a.contains(&3));
    /// ```
    pub fn contains(&self, value: &B) -> bool
        // True exactly when the value is a member.
        ensures { IsTrue result ↔ Covers self.now (B.value value.now) }
    {
        let count = self.pages.starts_up_to(*value);
        if count == 0 {
            return false;
        }
        self.pages.page(count - 1).contains(*value)
    }

    /// Adds a value. Returns true exactly when it was not a member before.
    ///
    /// The caller must ensure that the value is in the range. Check with
    /// `Interval::in_range(value, value)`.
    ///
    /// Searches one page, and moves its runs: `O(log n)`, and `O(n / page)` where a page is split, once
    /// in about as many edits as a page has runs: the list of pages then moves.
    ///
    /// # Errors
    ///
    /// Fails only if allocation fails, and never if the value or one beside it is a member. The set is
    /// then unchanged.
    ///
    /// ```
    /// let mut a = PagedSet::new(alloc);
    /// assert!(rt; Interval::in_range(3, 3), "it is in the range");
    /// assert!(rt; a.insert(3)? && !a.insert(3)?);
    /// ```
    pub fn insert(&mut self, value: B) -> Result<bool, AllocError>
        requires { IsBetween B.whole (B.value value) }
        // On success, exactly the value is added, and the answer is true exactly when it was no member; on an error the
        // set is unchanged.
        ensures members { OnOk result (IsRunsOf self.new (Union (Covers self.old) (Only (B.value value)))) }
        ensures is_new { IfOk result (λ is_new. IsTrue is_new ↔ ¬ (Covers self.old (B.value value))) }
        ensures err { OnErr result (self.new ≡ self.old) }

        // It succeeds if the value or a number next to it is a member.
        ensures in_place { HasSome (Intersection (Covers self.old) (IsBetween (widened (B.value value, B.value value)))) → IsOk result }
    {
        self.in_whole();
        let was_member = self.add(Interval::singleton(value))?;
        Ok(!was_member)
    }

    /// Removes a value, which may be any value of its type. Returns true exactly when it was a
    /// member.
    ///
    /// Costs as much as [`PagedSet::insert`].
    ///
    /// # Errors
    ///
    /// Fails only if allocation fails, and never unless the numbers on both sides are members: only then
    /// is a run split. The set is then unchanged.
    ///
    /// ```
    /// let mut a = PagedSet::new(alloc);
    /// a.insert(3)?;
    /// assert!(rt; a.remove(3)? && !a.remove(3)?);
    /// ```
    pub fn remove(&mut self, value: B) -> Result<bool, AllocError>
        // On success, exactly the value is removed, and the answer is true exactly when it was a member; on an error
        // the set is unchanged.
        ensures members { OnOk result (IsRunsOf self.new (Without (Covers self.old) (Only (B.value value)))) }
        ensures was_member { IfOk result (λ was_member. IsTrue was_member ↔ Covers self.old (B.value value)) }
        ensures err { OnErr result (self.new ≡ self.old) }

        // It succeeds unless the value and both numbers next to it are members.
        ensures in_place { ¬ (IsSubset (IsBetween (widened (B.value value, B.value value))) (Covers self.old)) → IsOk result }
    {
        self.in_whole();
        if !Interval::in_range(value, value) {
            return Ok(false);
        }
        self.take_away(Interval::singleton(value))
    }

    /// Adds the members of an interval, which may be empty.
    ///
    /// Binary search for the `k` pages that the interval overlaps or touches. In one page, moves
    /// its runs; of several pages only the first and the last are read and changed, and those between
    /// removed: `O(log n)`, and `O(n / page)` where a page goes or is split: the list of pages then moves.
    /// Allocates only if a run is added, or to split a page that is full.
    ///
    /// # Errors
    ///
    /// Fails only if allocation fails, and never if the interval overlaps or touches a run. The set is
    /// then unchanged.
    ///
    /// ```
    /// let mut a = PagedSet::new(alloc);
    /// a.insert_interval(Interval::new(3, 8))?;
    /// assert!(rt; a.contains(&3) && a.contains(&8) && !a.contains(&9));
    /// ```
    pub fn insert_interval(&mut self, interval: Interval<B>) -> Result<(), AllocError>
        // On success, exactly the numbers of the interval are added; on an error the set is unchanged.
        ensures ok { OnOk result (IsRunsOf self.new (Union (Covers self.old) (IsBetween interval))) }
        ensures err { OnErr result (self.new ≡ self.old) }

        // It succeeds if the interval is empty, or overlaps or touches a run.
        ensures empty { HasNone (IsBetween interval) → IsOk result }
        ensures in_place { HasSome (Intersection (Covers self.old) (IsBetween (widened interval))) → IsOk result }
    {
        self.in_whole();
        if interval.is_empty() {
            return Ok(());
        }
        self.add(interval)?;
        Ok(())
    }

    /// Adds the members of an interval. Returns true exactly when its first number was a member.
    fn add(&mut self, interval: Interval<B>) -> Result<bool, AllocError>
        requires { interval.0 ≤ℤ interval.1 }
        ensures ok { OnOk result (IsRunsOf self.new (Union (Covers self.old) (IsBetween interval))) }
        ensures was_member { IfOk result (λ was_member. IsTrue was_member ↔ Covers self.old interval.0) }
        ensures err { OnErr result (self.new ≡ self.old) }
        ensures in_place { HasSome (Intersection (Covers self.old) (IsBetween (widened interval))) → IsOk result }
    {
        interval.in_whole();
        if self.pages.is_empty() {
            pages::push_first(self.alloc, &mut self.pages, interval)?;
            return Ok(false);
        }
        pages::insert_interval(&mut self.pages, interval)
    }

    /// Removes the members of an interval, which may be empty.
    ///
    /// Binary search for the `k` pages that the interval overlaps, of which the first and the last
    /// are cut and the others removed: `O(log n)`, and `O(n / page)` where a page goes or is split: the
    /// list of pages then moves. Allocates only if a run is split, or to join pages that have become short.
    ///
    /// # Errors
    ///
    /// Fails only if allocation fails. The set is then unchanged.
    ///
    /// ```
    /// let mut a = PagedSet::new(alloc);
    /// a.insert_interval(Interval::new(1, 9))?;
    /// a.remove_interval(Interval::new(3, 8))?;
    /// assert!(rt; a.contains(&2) && !a.contains(&3) && a.contains(&9));
    /// ```
    pub fn remove_interval(&mut self, interval: Interval<B>) -> Result<(), AllocError>
        // On success, exactly the numbers of the interval are removed; on an error the set is unchanged.
        ensures ok { OnOk result (IsRunsOf self.new (Without (Covers self.old) (IsBetween interval))) }
        ensures err { OnErr result (self.new ≡ self.old) }

        // It succeeds if the interval is empty, and unless it lies inside a run and splits it.
        ensures empty { HasNone (IsBetween interval) → IsOk result }
        ensures in_place { ¬ (IsSubset (IsBetween (widened interval)) (Covers self.old)) → IsOk result }
    {
        self.in_whole();
        if interval.is_empty() {
            return Ok(());
        }
        self.take_away(interval)?;
        Ok(())
    }

    /// Removes the members of an interval. Returns true exactly when its first number was a member.
    fn take_away(&mut self, interval: Interval<B>) -> Result<bool, AllocError>
        requires { interval.0 ≤ℤ interval.1 }
        ensures ok { OnOk result (IsRunsOf self.new (Without (Covers self.old) (IsBetween interval))) }
        ensures was_member { IfOk result (λ was_member. IsTrue was_member ↔ Covers self.old interval.0) }
        ensures err { OnErr result (self.new ≡ self.old) }
        ensures in_place { ¬ (IsSubset (IsBetween (widened interval)) (Covers self.old)) → IsOk result }
    {
        if self.pages.is_empty() {
            return Ok(false);
        }
        pages::remove_interval(&mut self.pages, interval)
    }

    /// Removes and returns the least member, or returns `None` if the set is empty. Searches nothing:
    /// amortized `O(1)`, where the runs of the first page may move. A page that then has no runs is
    /// passed over; once there is one for each 16 others, the list of pages moves. Never fails.
    ///
    /// ```
    /// let mut a = PagedSet::new(alloc);
    /// a.insert_interval(Interval::new(1, 5))?;
    /// assert_eq!(rt; a.pop_first(), Some(1));
    /// assert!(rt; !a.contains(&1) && a.contains(&2));
    /// ```
    pub fn pop_first(&mut self) -> Option<B>
        // Removes exactly the least member, and returns it; it is in the range. An empty set stays empty, and the
        // result is `None`.
        ensures none { IfNone result ((self.old ≡ []) × (self.new ≡ [])) }
        ensures member { IfSome result (λ v. Covers self.old (B.value v)) }
        ensures least { IfSome result (λ v. (z : ℤ) → Covers self.old z → B.value v ≤ℤ z) }
        ensures others { IfSome result (λ v. IsRunsOf self.new (Without (Covers self.old) (Only (B.value v)))) }
        ensures in_range { IfSome result (λ v. IsBetween B.whole (B.value v)) }
    {
        self.in_whole();
        if self.pages.is_empty() {
            return None;
        }
        Some(pages::pop_first(&mut self.pages))
    }

    /// Removes and returns the greatest member, or returns `None` if the set is empty. `O(log n)`.
    /// Never fails.
    ///
    /// ```
    /// let mut a = PagedSet::new(alloc);
    /// a.insert_interval(Interval::new(1, 5))?;
    /// assert_eq!(rt; a.pop_last(), Some(5));
    /// assert!(rt; !a.contains(&5) && a.contains(&4));
    /// ```
    pub fn pop_last(&mut self) -> Option<B>
        // Removes exactly the greatest member, and returns it; it is in the range. An empty set stays empty, and the
        // result is `None`.
        ensures none { IfNone result ((self.old ≡ []) × (self.new ≡ [])) }
        ensures member { IfSome result (λ v. Covers self.old (B.value v)) }
        ensures greatest { IfSome result (λ v. (z : ℤ) → Covers self.old z → z ≤ℤ B.value v) }
        ensures others { IfSome result (λ v. IsRunsOf self.new (Without (Covers self.old) (Only (B.value v)))) }
        ensures in_range { IfSome result (λ v. IsBetween B.whole (B.value v)) }
    {
        self.in_whole();
        match self.last() {
            Some(greatest) => {
                self.remove_interval(Interval::singleton(greatest)).unwrap();
                Some(greatest)
            }
            None => None,
        }
    }

    /// Removes all members. Keeps the capacity of the list of pages. `O(n / page)`: drops each page.
    /// Does not allocate.
    ///
    /// ```
    /// let mut a = PagedSet::new(alloc);
    /// a.insert_interval(Interval::new(1, 9))?;
    /// a.clear();
    /// assert!(rt; a.is_empty());
    /// ```
    pub fn clear(&mut self)
        // The set is empty afterwards.
        ensures { self.new ≡ [] }
    {
        self.pages.clear();
    }

    /// Does nothing: its contract states that the runs are maximal and in the range.
    ///
    /// ```
    /// let a = PagedSet::<i32>::new(alloc);
    /// a.in_whole(); // a proof knows from here on that the members of `a` are in the range
    /// assert!(rt; !a.contains(&i32::MIN));
    /// ```
    pub fn in_whole(&self)
        // The runs are ascending, lie in the range, and neither overlap nor touch.
        ensures { IsRunListIn B.whole self.now }
    {
        let _pages = &self.pages;
    }

    /// Returns the set with its runs in one vector, which grows as it is filled. `O(n)`. Fails only
    /// if allocation fails.
    ///
    /// ```
    /// let mut a = PagedSet::new(alloc);
    /// a.insert_interval(Interval::new(1, 9))?;
    /// assert!(rt; a.to_set()? == IntervalSet::new(alloc, 1, 9)?);
    /// ```
    pub fn to_set(&self) -> Result<IntervalSet<B>, AllocError>
        // On success, the result has the runs of the set.
        ensures { IfOk result (λ L. L ≡ self.now) }
    {
        let mut runs = Vec::new(self.alloc);
        for page in self.pages.as_slice() {
            runs.extend_from_slice(page.set().iter().as_slice())?;
        }
        Ok(IntervalSet::from_runs(runs))
    }
}
