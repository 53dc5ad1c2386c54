//! Iteration over the runs of a set, from both ends.
ghost use Rattle.std.specs.Prelude.{◌≡◌, ℕ, ◌+◌, ◌<◌, All, length};
ghost use Rattle.std.specs.Iterator.{YieldsFirst, YieldsLast, item_count};
ghost use Rattle.ivl_laws.specs.Families.{set_at};
ghost use Rattle.ivl_laws.specs.Sets.{HasSome, Intersection, IsBetween, IsSubset};
ghost use Rattle.ivl_laws.specs.Runs.{Covers, IsMaximal, IsRunListIn, IsRunsOf};
ghost use Rattle.ivl_places.specs.Windows.{OfRunsThatMeet};
ghost use Rattle.ivl_paged.specs.Pages.{flattened};

use super::PagedSet;
use crate::page::Page;
use intervallum::interval::Interval;
use intervallum::width::Width;
use std::iter::FusedIterator;
use std::marker::Model;
use std::mem;

/// A double-ended iterator over the runs of a set, ascending, as `iter` returns it. A contract sees
/// the runs that are left.
///
/// No call allocates.
///
/// ```
/// let list: IntervalSet<i32> = [(1, 2), (5, 6), (8, 9)].to_interval_set(alloc)?;
/// let a = PagedSet::of_set(&list)?;
/// let mut left = a.iter();
/// assert!(rt; left.next() == Some(Interval::new(1, 2)));
/// assert!(rt; left.next_back() == Some(Interval::new(8, 9)));
/// assert!(rt; left.next() == Some(Interval::new(5, 6)) && left.next().is_none());
/// ```
#[derive(Drop)]
pub struct Runs<'a, B: Width> {
    first: &'a [Interval<B>],
    between: &'a [Page<B>],
    last: &'a [Interval<B>],
}

impl<'a, B: Width> Model for Runs<'a, B> {
    ghost use Rattle.std.specs.Prelude.{ℤ, List, ◌++◌};
    ghost use Rattle.ivl_paged.specs.Pages.{flattened};

    ghost Value = { List (ℤ × ℤ) };

    ghost view = { λ r. r.first.now ++ flattened r.between.now ++ r.last.now };
}

impl<'a, B: Width> Iterator for Runs<'a, B> {
    type Item = Interval<B>;

    // It yields the first run that is left, or `None` if none is.
    ghost next_gives = { YieldsFirst (λ left. left) };

    ghost remaining = { item_count (λ left. left) };

    /// Returns the first run that is left, or `None` if there is none. `O(1)`.
    ///
    /// ```
    /// let mut a = PagedSet::new(alloc);
    /// assert!(rt; a.insert(2)? && a.insert(5)?);
    /// let mut left = a.iter();
    /// assert!(rt; left.next() == Some(Interval::new(2, 2)));
    /// assert!(rt; left.next() == Some(Interval::new(5, 5)));
    /// ```
    fn next(&mut self) -> Option<Interval<B>> {
        if self.first.is_empty() {
            self.first = match self.between.split_first() {
                Some((page, rest)) => {
                    self.between = rest;
                    page.set().runs()
                }
                None => mem::replace(&mut self.last, &[]),
            };
        }
        take_first(&mut self.first)
    }
}

impl<'a, B: Width> DoubleEndedIterator for Runs<'a, B> {
    // It yields the last run that is left, or `None` if none is.
    ghost next_back_gives = { YieldsLast (λ left. left) };

    /// Returns the last run that is left, or `None` if there is none. `O(1)`.
    ///
    /// ```
    /// let mut a = PagedSet::new(alloc);
    /// assert!(rt; a.insert(2)? && a.insert(5)?);
    /// let mut left = a.iter();
    /// assert!(rt; left.next_back() == Some(Interval::new(5, 5)));
    /// assert!(rt; left.next_back() == Some(Interval::new(2, 2)));
    /// ```
    fn next_back(&mut self) -> Option<Interval<B>> {
        if self.last.is_empty() {
            self.last = match self.between.split_last() {
                Some((page, rest)) => {
                    self.between = rest;
                    page.set().runs()
                }
                None => mem::replace(&mut self.first, &[]),
            };
        }
        take_last(&mut self.last)
    }
}

impl<'a, B: Width> FusedIterator for Runs<'a, B> {}

/// The runs of a slice, to be read as those of a set are.
pub(super) fn runs_of<'a, B: Width>(runs: &'a [Interval<B>]) -> Runs<'a, B>
    ensures { result ≡ runs.now }
{
    Runs {
        first: runs,
        between: &[],
        last: &[],
    }
}

/// The runs of pages that meet a window, which all pages but the first and the last do.
pub(super) fn runs_of_parts<'a, B: Width>(pages: &'a [Page<B>], window: &Interval<B>) -> Runs<'a, B>
    requires maximal { IsMaximal (flattened pages.now) }
    requires inside { (k : ℕ) → 0 < k → k + 1 < length pages.now → IsSubset (set_at pages.now k) (IsBetween window.now) }
    ensures members { IsRunsOf result (OfRunsThatMeet (IsBetween window.now) (Covers (flattened pages.now))) }
    ensures overlap { All (λ run. HasSome (Intersection (IsBetween run) (IsBetween window.now))) result }
{
    let Some((page, rest)) = pages.split_first() else {
        return Runs {
            first: &[],
            between: pages,
            last: &[],
        };
    };
    let first = page.set().runs_within(window);
    let Some((page, between)) = rest.split_last() else {
        return Runs {
            first,
            between: rest,
            last: &[],
        };
    };
    Runs {
        first,
        between,
        last: page.set().runs_within(window),
    }
}

/// Takes the first run of a slice away, if it has one.
fn take_first<'a, B: Width>(part: &mut &'a [Interval<B>]) -> Option<Interval<B>>
    ensures { YieldsFirst (λ left. left) part.old.now result part.new.now }
{
    let (run, rest) = part.split_first()?;
    *part = rest;
    Some(*run)
}

/// Takes the last run of a slice away, if it has one.
fn take_last<'a, B: Width>(part: &mut &'a [Interval<B>]) -> Option<Interval<B>>
    ensures { YieldsLast (λ left. left) part.old.now result part.new.now }
{
    let (run, rest) = part.split_last()?;
    *part = rest;
    Some(*run)
}

impl<B: Width> PagedSet<B> {
    /// Returns a double-ended iterator over the runs, in ascending order. `O(1)`. Does not
    /// allocate.
    ///
    /// ```
    /// let mut a = PagedSet::new(alloc);
    /// assert!(rt; a.insert(2)? && a.insert(5)?);
    /// let mut runs = a.iter();
    /// assert!(rt; runs.next() == Some(Interval::new(2, 2)));
    /// assert!(rt; runs.next_back() == Some(Interval::new(5, 5)));
    /// ```
    pub fn iter(&self) -> Runs<'_, B>
        // The iterator yields the runs in order; they are ascending, not empty, lie in the range, and neither overlap
        // nor touch.
        ensures rest { result ≡ self.now }
        ensures runs { IsRunListIn B.whole self.now }
        ensures filled { All (λ run. HasSome (IsBetween run)) self.now }
    {
        Runs {
            first: &[],
            between: self.pages.as_slice(),
            last: &[],
        }
    }
}
