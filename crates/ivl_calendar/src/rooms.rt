//! Rooms, and the days on which they are booked.
ghost use Rattle.std.specs.Prelude.{◌≡◌, ◌<◌, ◌≤ℤ◌, ◌↔◌, ℕ, ℤ, [], List, IfOk, IfSome, IsTrue, MatchOption, None, OnErr, OnOk, Some, bytes_eq, option_map, string_eq};
ghost use Rattle.jiff.specs.Words.{IsEpochDay};
ghost use Rattle.ivl_laws.specs.Sets.{AtLeast, HasNone, Intersection, IsBetween, IsSubset, Without};
ghost use Rattle.ivl_laws.specs.Runs.{Covers, IsMaximal, IsRunsOf};
ghost use Rattle.ivl_places.specs.FirstFit.{FitsAt, IsFirstFit};
ghost use Rattle.ivl_map.specs.Entries.{HasAt, HasValue, IsEntryList, Outside, SameValues, intervals_of};
ghost use Rattle.ivl_map.specs.Lookups.{IsFirstRunOf};
ghost use Rattle.ivl_calendar.specs.Rooms.{Bookings, IsBookedFor, IsBusy, IsFor, IsFreed, IsFreeInAll, IsRunFrom, named_of, rooms_of};

use intervallum::interval::Interval;
use intervallum::interval_set::IntervalSet;
use intervallum::ops::{Bounded, Range};
use ivl_map::IntervalMap;
use ivl_paged::PagedSet;
use std::alloc::{AllocError, Global};
use std::collections::BTreeMap;
use std::marker::Model;

/// The bookings of a room, by the number of the day. A contract sees the runs of the days that are booked without a
/// name, and the list of the other bookings.
///
/// The days without a name stand in a `PagedSet`, so that bookings of a room may come in any order. A map has the
/// others: one of `n` bookings with a name moves those that come later, `O(n)`. All of these days are days of the
/// calendar.
#[derive(Drop)]
pub struct Room {
    alloc: Global,
    unnamed: PagedSet<i32>,
    named: IntervalMap<i32, String>,
}

impl Model for Room {
    ghost use Rattle.std.specs.Prelude.{bytes_eq};
    ghost use Rattle.jiff.specs.Words.{IsEpochDay};
    ghost use Rattle.ivl_laws.specs.Runs.{Covers};
    ghost use Rattle.ivl_laws.specs.Sets.{IsSubset};
    ghost use Rattle.ivl_map.specs.Entries.{HasAt, HasValue};
    ghost use Rattle.ivl_calendar.specs.Rooms.{Bookings, named_of};

    ghost Value = { Bookings };

    ghost view = { λ r. (r.unnamed, named_of r.named) };

    ghost invariant = { λ r. IsSubset (HasValue (HasAt bytes_eq (named_of r.named))) IsEpochDay × IsSubset (Covers r.unnamed) IsEpochDay };
}

impl Room {
    /// Returns a room that is free on all days. Does not allocate.
    pub fn new(alloc: Global) -> Room
        // The room is free on all days.
        ensures { result ≡ ([], []) }
    {
        Room {
            alloc,
            unnamed: PagedSet::new(alloc),
            named: IntervalMap::empty(alloc),
        }
    }

    /// Returns the first `days` consecutive days of a window on which the room is free, or `None` if there are none.
    /// The caller must ensure that `days` is above 0.
    ///
    /// `O(k log n)`, where `k` of the `n` runs of booked days overlap the window. Fails only if allocation fails.
    pub fn first_gap(
        &self,
        window: Interval<i32>,
        days: u32,
    ) -> Result<Option<Interval<i32>>, AllocError>
        requires { 0 < days }
        // On success, the lowest so many days in a row of the window on which the room is free, or `None` if there are
        // none.
        ensures { IfOk result (λ o. MatchOption o
            ((v : ℤ) → ¬ (FitsAt days (Without (IsBetween window) (IsBusy self.now)) v))
            (IsFirstFit days (Without (IsBetween window) (IsBusy self.now)))) }
    {
        let mut free = days_of(self.alloc, window)?;
        self.take_busy(&mut free, window)?;
        Ok(free.first_fit(days))
    }

    /// Books the room if it is free on all of these days, and returns whether it was. The caller must ensure that the
    /// days are dates in order.
    ///
    /// `O(log n)` for `n` runs of booked days; a booking with a name moves those with a name that come later.
    ///
    /// # Errors
    ///
    /// Fails only if allocation fails. Nothing is booked after an error, or if the result is false.
    pub fn book(&mut self, days: Interval<i32>, who: Option<&str>) -> Result<bool, AllocError>
        requires order { days.0 ≤ℤ days.1 }
        requires first { IsEpochDay days.0 }
        requires last { IsEpochDay days.1 }
        // True exactly when the room was free on all of these days, which are then booked, for the name or without one.
        // After false, or an error, nothing is changed.
        ensures booked { IfOk result (λ done. IsTrue done → IsBookedFor days (option_map (λ name. name.now) who.entry) self.old self.new) }
        ensures unless_busy { IfOk result (λ done. IsTrue done ↔ HasNone (Intersection (IsBusy self.old) (IsBetween days))) }
        ensures refused { IfOk result (λ done. ¬ (IsTrue done) → (self.new ≡ self.old)) }
        ensures err { OnErr result (self.new ≡ self.old) }
    {
        if !self.is_free(&days) {
            return Ok(false);
        }
        match who {
            Some(name) => self.add_named(days, name)?,
            None => self.add_unnamed(days)?,
        }
        Ok(true)
    }

    // Books days without a name, also those that were booked so.
    fn add_unnamed(&mut self, days: Interval<i32>) -> Result<(), AllocError>
        requires first { IsEpochDay days.0 }
        requires last { IsEpochDay days.1 }
        ensures ok { OnOk result (IsBookedFor days None self.old self.new) }
        ensures err { OnErr result (self.new ≡ self.old) }
    {
        self.unnamed.insert_interval(days)
    }

    // Books days for a name, also those that were booked.
    fn add_named(&mut self, days: Interval<i32>, name: &str) -> Result<(), AllocError>
        requires first { IsEpochDay days.0 }
        requires last { IsEpochDay days.1 }
        ensures ok { OnOk result (IsBookedFor days (Some name.now) self.old self.new) }
        ensures err { OnErr result (self.new ≡ self.old) }
    {
        let name = String::from_str(self.alloc, name)?;
        self.named.insert(days, name)
    }

    /// Frees the room on all of these days, of whatever bookings they are, and returns whether it was booked on one of
    /// them. The caller must ensure that the days are in order.
    ///
    /// `O(log n)` for `n` runs of booked days; a booking with a name that is split or goes moves those that come later.
    /// Where the days have both bookings with a name and some without, the runs without a name are copied.
    ///
    /// # Errors
    ///
    /// Fails only if allocation fails. Nothing is freed after an error, or if the result is false.
    pub fn cancel(&mut self, days: Interval<i32>) -> Result<bool, AllocError>
        requires { days.0 ≤ℤ days.1 }
        ensures freed { IfOk result (λ done. IsTrue done → IsFreed days self.old self.new) }
        ensures if_busy { IfOk result (λ done. (¬ (IsTrue done)) ↔ HasNone (Intersection (IsBusy self.old) (IsBetween days))) }
        ensures refused { IfOk result (λ done. ¬ (IsTrue done) → (self.new ≡ self.old)) }
        ensures err { OnErr result (self.new ≡ self.old) }
    {
        if self.is_free(&days) {
            return Ok(false);
        }
        self.free(days)?;
        Ok(true)
    }

    // Frees days, also those that were free.
    fn free(&mut self, days: Interval<i32>) -> Result<(), AllocError>
        requires { days.0 ≤ℤ days.1 }
        ensures ok { OnOk result (IsFreed days self.old self.new) }
        ensures err { OnErr result (self.new ≡ self.old) }
    {
        if self.has_all_named(&days) {
            return self.remove_named(days);
        }
        if self.has_no_named(&days) {
            return self.remove_unnamed(days);
        }
        self.remove_both(days)
    }

    // Whether none of these days is booked without a name.
    fn has_all_named(&self, days: &Interval<i32>) -> bool
        ensures none { IsTrue result ↔ HasNone (Intersection (Covers self.now.0) (IsBetween days.now)) }
        ensures maximal { IsMaximal self.now.0 }
    {
        self.unnamed.in_whole();
        is_free_of(&self.unnamed, days)
    }

    // Whether none of these days is booked for a name.
    fn has_no_named(&self, days: &Interval<i32>) -> bool
        requires { days.now.0 ≤ℤ days.now.1 }
        ensures { IsTrue result → HasNone (Intersection (IsBetween days.now) (HasValue (IsFor self.now))) }
    {
        self.first_named(days).is_none()
    }

    // Frees days of the bookings with a name.
    fn remove_named(&mut self, days: Interval<i32>) -> Result<(), AllocError>
        ensures ok { OnOk result (SameValues (IsFor self.new) (Outside days (IsFor self.old)) × (self.new.0 ≡ self.old.0)) }
        ensures err { OnErr result (self.new ≡ self.old) }
    {
        self.named.remove(days)
    }

    // Frees days of those that are booked without a name.
    fn remove_unnamed(&mut self, days: Interval<i32>) -> Result<(), AllocError>
        ensures ok { OnOk result (IsRunsOf self.new.0 (Without (Covers self.old.0) (IsBetween days)) × (self.new.1 ≡ self.old.1)) }
        ensures err { OnErr result (self.new ≡ self.old) }
    {
        self.unnamed.remove_interval(days)
    }

    // Frees days of both: of a copy first, since the second step may fail too.
    fn remove_both(&mut self, days: Interval<i32>) -> Result<(), AllocError>
        ensures ok { OnOk result (IsFreed days self.old self.new) }
        ensures err { OnErr result (self.new ≡ self.old) }
    {
        let mut unnamed = self.unnamed.try_clone()?;
        unnamed.remove_interval(days)?;
        self.named.remove(days)?;
        self.unnamed = unnamed;
        Ok(())
    }

    /// Returns whether the room is free on all of these days.
    fn is_free(&self, days: &Interval<i32>) -> bool
        requires { days.now.0 ≤ℤ days.now.1 }
        ensures { IsTrue result ↔ HasNone (Intersection (IsBusy self.now) (IsBetween days.now)) }
    {
        self.has_all_named(days) && self.first_named(days).is_none()
    }

    /// Returns the first booking with a name that has one of these days, or `None` if there is none: all days
    /// in a row that are booked for this name, and the name. The caller must ensure that the days are in order.
    /// `O(log n)` for `n` bookings with a name. Does not allocate.
    pub fn first_named(&self, days: &Interval<i32>) -> Option<(Interval<i32>, &str)>
        requires { days.now.0 ≤ℤ days.now.1 }
        // The result is the longest run of days that are booked for the name of the first of these days that has one,
        // with that name, or `None` if none has one. Each of its days is a date.
        ensures first { MatchOption result
            (HasNone (Intersection (IsBetween days.now) (HasValue (IsFor self.now))))
            (λ met. IsFirstRunOf bytes_eq (Intersection (IsBetween days.now) (HasValue (IsFor self.now))) (IsFor self.now) (met.0, met.1.now)) }
        ensures dates { IfSome result (λ met. IsSubset (IsBetween met.0) IsEpochDay) }
    {
        let Some(met) = self.named.next_from(days.lower()) else {
            return None;
        };
        if met.0.lower() <= days.upper() {
            Some((met.0, met.1.as_str()))
        } else {
            None
        }
    }

    /// Returns the name for which the room is booked on a day, or `None` if there is none. `O(log n)` for `n` bookings
    /// with a name. Does not allocate.
    pub fn name_on(&self, day: i32) -> Option<&str>
        // The result is the name for which the day is booked, or `None` if it is booked for none.
        ensures { MatchOption result ((who : List ℕ) → ¬ (IsFor self.now day who)) (λ name. IsFor self.now day name.now) }
    {
        match self.named.get(&day) {
            Some(name) => Some(name.as_str()),
            None => None,
        }
    }

    /// Returns whether the room is booked without a name on a day. `O(log n)` for `n` runs of such days. Does not
    /// allocate.
    pub fn is_booked_without_name(&self, day: i32) -> bool
        // True exactly when the day is booked without a name.
        ensures { IsTrue result ↔ Covers self.now.0 day }
    {
        self.unnamed.contains(&day)
    }

    /// Returns the bookings with a name, in ascending order. Does not allocate.
    pub fn named(&self) -> &[(Interval<i32>, String)]
        // The result is the list of the bookings with a name, which ascend; two that touch have different names. Each
        // of their days is a date.
        ensures same { named_of result.now ≡ self.now.1 }
        ensures entries { IsEntryList string_eq result.now }
        ensures dates { IsSubset (HasValue (HasAt string_eq result.now)) IsEpochDay }
    {
        self.named.entries()
    }

    /// Returns the days that are booked without a name. `O(n)` for `n` runs of them. Fails only if allocation fails.
    pub fn days_without_name(&self) -> Result<IntervalSet<i32>, AllocError>
        ensures same { IfOk result (λ L. L ≡ self.now.0) }
        ensures dates { IsSubset (Covers self.now.0) IsEpochDay }
    {
        self.unnamed.to_set()
    }

    // Takes the booked days of a window out of days of the window.
    fn take_busy(&self, free: &mut PagedSet<i32>, window: Interval<i32>) -> Result<(), AllocError>
        requires { IsSubset (Covers free.old) (IsBetween window) }
        ensures { OnOk result (IsRunsOf free.new (Without (Covers free.old) (IsBusy self.now))) }
    {
        take_unnamed(free, &self.unnamed, window)?;
        take_named(free, self.named.overlapping(window))
    }
}

/// Returns the days of a window on which all rooms are free.
///
/// `O(m log n)`, where the rooms have `m` runs of booked days that overlap the window, and looks at each room. Fails only
/// if allocation fails.
pub fn free_in_all(
    alloc: Global,
    rooms: &BTreeMap<String, Room>,
    window: Interval<i32>,
) -> Result<IntervalSet<i32>, AllocError>
    ensures { IfOk result (λ L. IsRunsOf L (IsFreeInAll (rooms_of rooms.now) window)) }
{
    let mut free = days_of(alloc, window)?;
    for room in rooms.values() {
        room.take_busy(&mut free, window)?;
    }
    free.to_set()
}

// The days of a window, as a set from which some can be taken.
fn days_of(alloc: Global, window: Interval<i32>) -> Result<PagedSet<i32>, AllocError>
    ensures { IfOk result (λ L. IsRunsOf L (IsBetween window)) }
{
    let mut days = PagedSet::new(alloc);
    days.insert_interval(window)?;
    Ok(days)
}

// Takes busy days out of days of a window.
fn take_unnamed(
    free: &mut PagedSet<i32>,
    busy: &PagedSet<i32>,
    window: Interval<i32>,
) -> Result<(), AllocError>
    requires { IsSubset (Covers free.old) (IsBetween window) }
    ensures { OnOk result (IsRunsOf free.new (Without (Covers free.old) (Covers busy.now))) }
{
    free.in_whole();
    let mut next = run_from(busy, window.lower_bound());
    while let Some(run) = next {
        free.remove_interval(run)?;
        if window.upper_bound() <= run.upper_bound() {
            return Ok(());
        }
        next = run_from(busy, run.upper_bound() + 1);
    }
    Ok(())
}

// Takes the days of bookings out of days.
fn take_named(
    free: &mut PagedSet<i32>,
    bookings: &[(Interval<i32>, String)],
) -> Result<(), AllocError>
    ensures { OnOk result (IsRunsOf free.new (Without (Covers free.old) (Covers (intervals_of bookings.now)))) }
{
    free.in_whole();
    let mut left = bookings;
    while let Some((booking, later)) = left.split_first() {
        free.remove_interval(booking.0)?;
        left = later;
    }
    Ok(())
}

// Whether none of these days is among those of a set.
fn is_free_of(busy: &PagedSet<i32>, days: &Interval<i32>) -> bool
    ensures { IsTrue result ↔ HasNone (Intersection (Covers busy.now) (IsBetween days.now)) }
{
    match busy.next_from(days.lower_bound()) {
        Some(next) => days.upper_bound() < next,
        None => true,
    }
}

// The first run of days that ends on a day or after it, or `None` if there is none.
fn run_from(days: &PagedSet<i32>, day: i32) -> Option<Interval<i32>>
    ensures { MatchOption result (HasNone (AtLeast day (Covers days.now))) (IsRunFrom day (Covers days.now)) }
{
    let next = days.next_from(day)?;
    days.run_at(next)
}
