//! Rooms by name.
ghost use Rattle.std.specs.Prelude.{◌≡◌, ◌≤ℤ◌, ℕ, List, [], IfNone, IfOk, IfSome, IsSome, None, OnErr, OnOk, Some, option_map};
ghost use Rattle.std.specs.Io.KnownBytes.{Appends};
ghost use Rattle.std.specs.Option.{option_copied};
ghost use Rattle.jiff.specs.Words.{IsEpochDay};
ghost use Rattle.ivl_laws.specs.Runs.{IsRunsOf};
ghost use Rattle.ivl_lines.specs.Lines.{with_newline};
ghost use Rattle.ivl_calendar.specs.Names.{IsOfText};
ghost use Rattle.ivl_calendar.specs.Rooms.{Bookings, Books, Cancels, IsAdded, IsFreeInAll, busy_of};
ghost use Rattle.ivl_calendar.specs.Shown.{rooms_text};

use crate::names::write_days_of;
use crate::rooms::{Room, free_in_all};
use crate::shown::write_rooms;
use intervallum::interval::Interval;
use intervallum::interval_set::IntervalSet;
use std::alloc::{AllocError, Global};
use std::collections::BTreeMap;
use std::io;
use std::io::Write;
use std::marker::Model;

/// Rooms by name. A contract sees the list of the names, each with the bookings of the room.
#[derive(Drop)]
pub struct Calendar {
    alloc: Global,
    rooms: BTreeMap<String, Room>,
}

impl Model for Calendar {
    ghost use Rattle.ivl_calendar.specs.Rooms.{Rooms, rooms_of};

    ghost Value = { Rooms };

    ghost view = { λ c. rooms_of c.rooms };
}

impl Calendar {
    /// Returns a calendar without rooms. Does not allocate.
    pub fn new(alloc: Global) -> Calendar
        // There are no rooms.
        ensures { result ≡ [] }
    {
        Calendar {
            alloc,
            rooms: BTreeMap::new(alloc),
        }
    }

    /// Returns the room with this name, or `None` if there is no such room. `O(log n)` of `n` rooms.
    pub fn room(&self, name: &str) -> Option<&Room>
        // The result is the room with this name, or `None` if there is none.
        ensures { option_copied result ≡ busy_of self.now name.now }
    {
        self.rooms.get(name)
    }

    /// Adds a room that is free on all days. The caller must ensure that no room has this name. Check
    /// with `room`. `O(log n)` of `n` rooms.
    ///
    /// # Errors
    ///
    /// Fails only if allocation fails. Nothing is added after an error.
    pub fn add(&mut self, name: &str) -> Result<(), AllocError>
        requires { busy_of self.old name.now ≡ None }
        // On success, there is one more room, which is free on all days; the others stay. If it fails, nothing is
        // changed.
        ensures ok { OnOk result (IsAdded name.now self.old self.new) }
        ensures err { OnErr result (self.new ≡ self.old) }
    {
        let key = String::from_str(self.alloc, name)?;
        self.rooms.insert(key, Room::new(self.alloc))?;
        Ok(())
    }

    /// Books a room, for a name or without one, if it is free on all of these days, and returns whether
    /// it was, or `None` if there is no such room. The caller must ensure that the days are dates in
    /// order.
    ///
    /// # Errors
    ///
    /// Fails only if allocation fails. Nothing is booked after an error.
    pub fn book(
        &mut self,
        name: &str,
        days: Interval<i32>,
        who: Option<&str>,
    ) -> Result<Option<bool>, AllocError>
        requires order { days.0 ≤ℤ days.1 }
        requires first { IsEpochDay days.0 }
        requires last { IsEpochDay days.1 }
        // Some: the room is known, and true exactly when it was free on all of these days, which are then booked, for
        // the name or without one; after false nothing is changed. `None`: there is no such room, and nothing is
        // changed. If it fails, the room is known, and nothing is changed.
        ensures known { IfOk result (λ o. IfSome o (λ done. (room : Bookings) × (busy_of self.old name.now ≡ Some room)
            × Books done name.now room days (option_map (λ it. it.now) who.entry) self.old self.new)) }
        ensures unknown { IfOk result (λ o. IfNone o ((busy_of self.old name.now ≡ None) × (self.new ≡ self.old))) }
        ensures err { OnErr result (IsSome (busy_of self.old name.now) × (self.new ≡ self.old)) }
    {
        let Some(room) = self.rooms.get_mut(name) else {
            return Ok(None);
        };
        match room.book(days, who) {
            Ok(done) => Ok(Some(done)),
            Err(error) => Err(error),
        }
    }

    /// Frees a room on all of these days, and returns whether it was booked on one of them, or `None` if there is no
    /// such room. The caller must ensure that the days are in order.
    ///
    /// # Errors
    ///
    /// Fails only if allocation fails. Nothing is freed after an error.
    pub fn cancel(&mut self, name: &str, days: Interval<i32>) -> Result<Option<bool>, AllocError>
        requires { days.0 ≤ℤ days.1 }
        ensures known { IfOk result (λ o. IfSome o (λ done. (room : Bookings) × (busy_of self.old name.now ≡ Some room)
            × Cancels done name.now room days self.old self.new)) }
        ensures unknown { IfOk result (λ o. IfNone o ((busy_of self.old name.now ≡ None) × (self.new ≡ self.old))) }
        ensures err { OnErr result (IsSome (busy_of self.old name.now) × (self.new ≡ self.old)) }
    {
        let Some(room) = self.rooms.get_mut(name) else {
            return Ok(None);
        };
        match room.cancel(days) {
            Ok(done) => Ok(Some(done)),
            Err(error) => Err(error),
        }
    }

    /// Returns the days of a window on which all rooms are free. Fails only if allocation fails.
    pub fn free_within(&self, window: Interval<i32>) -> Result<IntervalSet<i32>, AllocError>
        // On success, the members are exactly the days of the window on which no room is booked.
        ensures { IfOk result (λ L. IsRunsOf L (IsFreeInAll self.now window)) }
    {
        free_in_all(self.alloc, &self.rooms, window)
    }

    /// Writes the names of the rooms in their order, as a line. Does not allocate.
    pub fn write_rooms<W: Write>(&self, writer: &mut W) -> io::Result<()>
        ensures { OnOk result (Appends (W.contents writer.old) (W.contents writer.new) (with_newline (rooms_text self.now))) }
    {
        write_rooms(writer, &self.rooms)
    }

    /// Writes the days that are booked for a name, as a line. Looks at each booking with a name. Does not allocate.
    pub fn write_days_of<W: Write>(&self, writer: &mut W, who: &str) -> io::Result<()>
        // On success, the days of each room that are booked for the name, or `none`, are written behind the others, as
        // a line.
        ensures { OnOk result ((text : List ℕ) × IsOfText who.now self.now text
            × Appends (W.contents writer.old) (W.contents writer.new) (with_newline text)) }
    {
        write_days_of(writer, &self.rooms, who)
    }
}
