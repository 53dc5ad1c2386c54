//! Domains that are replaced, so that what stood there can be put back.
ghost use Rattle.std.specs.Prelude.{◌≡◌, ◌↔◌, ◌<◌, ◌-◌, [], ℕ, ℤ, List, OnErr, OnOk, Option, Some, is_some, length, slice_index_or, slice_set, take};
ghost use Rattle.ivl_laws.specs.Families.{set_at};
ghost use Rattle.ivl_laws.specs.Runs.{IsRunListIn};
ghost use Rattle.ivl_laws.specs.Sets.{IsBetween};
ghost use Rattle.ivl_store.specs.NarrowedSets.{narrowed_at};

use super::{Store, one_if};
use intervallum::interval::Interval;
use intervallum::interval_set::IntervalSet;
use intervallum::ops::IsEmpty;
use intervallum::width::Width;
use std::alloc::AllocError;
use std::mem;

impl<B: Width> Store<B> {
    /// Puts what is left in place of a domain. Returns the set that stood there; `None` if the
    /// domain stays. `O(1)`, does not allocate.
    ///
    /// The caller must ensure that there is such a variable.
    ///
    /// ```
    /// let mut store: Store<i32> = Store::new(alloc, vec![in alloc; IntervalSet::new(alloc, 0, 9)?]?);
    /// let old = store.swap(0, Some(IntervalSet::new(alloc, 5, 6)?));
    /// assert!(rt; old == Some(IntervalSet::new(alloc, 0, 9)?));
    /// assert!(rt; store.domains()[0] == IntervalSet::new(alloc, 5, 6)?);
    /// ```
    pub fn swap(&mut self, i: usize, left: Option<IntervalSet<B>>) -> Option<IntervalSet<B>>
        requires known { i < length self.old }
        requires range { (s : List (ℤ × ℤ)) → left ≡ Some s → IsRunListIn B.whole s }
        // The set stands in place of the domain, or with `None` the domain stays; the others stay. What is returned,
        // swapped in again, gives back the old domains.
        ensures put { self.new ≡ narrowed_at self.old i left }
        ensures back { narrowed_at self.new i result ≡ self.old }
    {
        match left {
            Some(set) => Some(self.put(i, set)),
            None => None,
        }
    }

    /// Puts a set in place of a domain. Nothing changes if there is no such variable. `O(1)`, does not
    /// allocate.
    ///
    /// ```
    /// let mut store: Store<i32> = Store::new(alloc, vec![in alloc; IntervalSet::new(alloc, 0, 9)?]?);
    /// store.replace(0, IntervalSet::new(alloc, 5, 6)?);
    /// assert!(rt; store.domains()[0] == IntervalSet::new(alloc, 5, 6)?);
    /// ```
    pub fn replace(&mut self, i: usize, set: IntervalSet<B>)
        // The set stands in place of the domain, if there is such a variable; the others stay.
        ensures { self.new ≡ slice_set self.old i set }
    {
        set.in_whole();
        if i < self.domains.len() {
            self.put(i, set);
        }
    }

    /// Puts a set in place of a domain, and returns that.
    fn put(&mut self, i: usize, set: IntervalSet<B>) -> IntervalSet<B>
        requires known { i < length self.old }
        requires range { IsRunListIn B.whole set }
        ensures put { self.new ≡ slice_set self.old i set }
        ensures back { slice_set self.new i result ≡ self.old }
    {
        let was = one_if(self.domains[i].is_empty());
        let is = one_if(set.is_empty());
        self.empties = self.empties - was + is;
        mem::replace(&mut self.domains[i], set)
    }

    /// Takes the members of an interval out of a domain. Nothing changes if there is no such variable. Costs what
    /// [`IntervalSet::remove_interval`] costs, and a look at how many domains are empty.
    ///
    /// # Errors
    ///
    /// Fails only if allocation fails. The store is unchanged after an error.
    ///
    /// ```
    /// let mut store: Store<i32> = Store::new(alloc, vec![in alloc; IntervalSet::new(alloc, 0, 9)?]?);
    /// store.take_out(0, Interval::new(3, 20))?;
    /// assert!(rt; store.domains()[0] == IntervalSet::new(alloc, 0, 2)?);
    /// ```
    pub fn take_out(&mut self, i: usize, interval: Interval<B>) -> Result<(), AllocError>
        // On success, the domain has its members outside of the interval. The other domains stay, whatever the result,
        // and all stay if there is no such variable.
        ensures taken { OnOk result ((j : ℕ) (v : ℤ) → set_at self.new j v ↔ (set_at self.old j v × (j ≡ i → ¬ (IsBetween interval v)))) }
        ensures back { slice_set self.new i (slice_index_or self.old i []) ≡ self.old }

        // If it fails, the domains are unchanged.
        ensures refused { OnErr result (self.new ≡ self.old) }
    {
        if i >= self.domains.len() {
            return Ok(());
        }
        let was = one_if(self.domains[i].is_empty());
        self.domains[i].remove_interval(interval)?;
        let is = one_if(self.domains[i].is_empty());
        self.empties = self.empties - was + is;
        Ok(())
    }

    /// Drops the last variable, if there is one. `O(1)`, does not allocate.
    ///
    /// ```
    /// let mut store: Store<i32> = Store::new(alloc, vec![in alloc; IntervalSet::new(alloc, 0, 9)?]?);
    /// store.drop_variable();
    /// assert!(rt; store.domains().is_empty());
    /// ```
    pub fn drop_variable(&mut self)
        // The last domain is gone, if there is one, and the others stay.
        ensures { self.new ≡ take (length self.old - 1) self.old }
    {
        if let Some(domain) = self.domains.pop() {
            let was = one_if(domain.is_empty());
            self.empties -= was;
        }
    }
}
