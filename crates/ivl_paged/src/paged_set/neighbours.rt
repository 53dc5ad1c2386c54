//! Neighbours of a value: the next and the previous member, and the run that holds it.
ghost use Rattle.std.specs.Prelude.{MatchOption};
ghost use Rattle.ivl_laws.specs.Sets.{AtLeast, AtMost, HasNone};
ghost use Rattle.ivl_laws.specs.Runs.{Covers};
ghost use Rattle.ivl_places.specs.Neighbours.{IsGreatest, IsLeast, IsRunWith};

use super::PagedSet;
use crate::pages;
use intervallum::interval::Interval;
use intervallum::width::Width;

impl<B: Width> PagedSet<B> {
    /// Returns the least member that is at least `v`, or `None` if there is none. `v` may be any
    /// value of its type. Binary search: `O(log n)`. Does not allocate.
    ///
    /// ```
    /// let mut a = PagedSet::new(alloc);
    /// assert!(rt; a.insert(2)? && a.insert(5)?);
    /// assert_eq!(rt; a.next_from(2), Some(2));
    /// assert_eq!(rt; a.next_from(3), Some(5));
    /// assert_eq!(rt; a.next_from(7), None);
    /// ```
    pub fn next_from(&self, v: B) -> Option<B>
        // The result is the least member that is at least `v`, or `None` if there is none.
        ensures { MatchOption result
            (HasNone (AtLeast (B.value v) (Covers self.now)))
            (λ x. IsLeast (B.value x) (AtLeast (B.value v) (Covers self.now))) }
    {
        let count = self.pages.starts_up_to(v);
        match pages::next_within(self.pages.as_slice(), count, v) {
            Some(next) => Some(next),
            None => {
                if count < self.pages.len() {
                    Some(self.pages.head(count))
                } else {
                    None
                }
            }
        }
    }

    /// Returns the greatest member that is at most `v`, or `None` if there is none. `v` may be any
    /// value of its type. Binary search: `O(log n)`. Does not allocate.
    ///
    /// ```
    /// let mut a = PagedSet::new(alloc);
    /// assert!(rt; a.insert(2)? && a.insert(5)?);
    /// assert_eq!(rt; a.previous_to(5), Some(5));
    /// assert_eq!(rt; a.previous_to(4), Some(2));
    /// assert_eq!(rt; a.previous_to(0), None);
    /// ```
    pub fn previous_to(&self, v: B) -> Option<B>
        // The result is the greatest member that is at most `v`, or `None` if there is none.
        ensures { MatchOption result
            (HasNone (AtMost (B.value v) (Covers self.now)))
            (λ x. IsGreatest (B.value x) (AtMost (B.value v) (Covers self.now))) }
    {
        let count = self.pages.starts_up_to(v);
        if count == 0 {
            return None;
        }
        self.pages.page(count - 1).set().previous_to(v)
    }

    /// Returns the run that holds `v`, the longest interval of members with `v` in it, or `None` if
    /// `v` is not a member. `v` may be any value of its type. `O(log n)`. Does not allocate.
    ///
    /// ```
    /// let mut a = PagedSet::new(alloc);
    /// a.insert_interval(Interval::new(5, 6))?;
    /// assert!(rt; a.run_at(6) == Some(Interval::new(5, 6)));
    /// assert!(rt; a.run_at(3).is_none());
    /// ```
    pub fn run_at(&self, v: B) -> Option<Interval<B>>
        // The result is the run that holds `v`, or `None` if `v` is no member.
        ensures { MatchOption result
            (¬ (Covers self.now (B.value v)))
            (IsRunWith (B.value v) (Covers self.now)) }
    {
        let count = self.pages.starts_up_to(v);
        if count == 0 {
            return None;
        }
        self.pages.page(count - 1).run_at(v)
    }
}
