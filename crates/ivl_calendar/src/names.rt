//! What is told of the names for which rooms are booked.
ghost use Rattle.std.specs.Prelude.{◌≡◌, ◌≤ℤ◌, ℕ, [], ◌∷◌, List, IfOk, OnOk, bytes_eq, codes, if◌then◌else◌, string_bytes, string_eq, true};
ghost use Rattle.std.specs.Io.KnownBytes.{Appends};
ghost use Rattle.jiff.specs.Words.{IsEpochDay};
ghost use Rattle.ivl_laws.specs.Sets.{IsBetween, IsSubset};
ghost use Rattle.ivl_map.specs.Entries.{HasAt, HasValue, IsEntryList};
ghost use Rattle.ivl_lines.specs.Lines.{with_newline};
ghost use Rattle.ivl_calendar.specs.Names.{AreDaysText, IsOfText, IsTakenText, IsWhoText, ListsDays, runs_for, still_first};
ghost use Rattle.ivl_calendar.specs.Rooms.{named_of, rooms_of};

use crate::replies::{write_line, write_span};
use crate::rooms::Room;
use intervallum::interval::Interval;
use ivl_lines::Escaped;
use std::collections::BTreeMap;
use std::io;
use std::io::Write;

/// Writes what is in the way of a booking of days: the first booking with a name, or `taken`.
pub fn write_taken<W: Write>(writer: &mut W, room: &Room, days: &Interval<i32>) -> io::Result<()>
    requires { days.now.0 ≤ℤ days.now.1 }
    ensures { OnOk result ((text : List ℕ) × IsTakenText room.now days.now text
        × Appends (W.contents writer.old) (W.contents writer.new) (with_newline text)) }
{
    let Some(met) = room.first_named(days) else {
        return write_line(writer, "taken");
    };
    write!(writer, "taken by {} ", Escaped(met.1))?;
    write_span(writer, &met.0)?;
    writer.write_all(b"\n")
}

/// Writes who has booked a room on a day.
pub fn write_who<W: Write>(writer: &mut W, room: &Room, day: i32) -> io::Result<()>
    ensures { OnOk result ((text : List ℕ) × IsWhoText room.now day text
        × Appends (W.contents writer.old) (W.contents writer.new) (with_newline text)) }
{
    match room.name_on(day) {
        Some(name) => writeln!(writer, "{}", Escaped(name)),
        None if room.is_booked_without_name(day) => write_line(writer, "booked without a name"),
        None => write_line(writer, "free"),
    }
}

/// Writes the days that are booked for a name, room by room in the order of their names, as a line: each run of days
/// after the name of the room, with commas between, or `none`.
///
/// Compares the name with that of each booking. Does not allocate.
pub fn write_days_of<W: Write>(
    writer: &mut W,
    rooms: &BTreeMap<String, Room>,
    who: &str,
) -> io::Result<()>
    ensures { OnOk result ((text : List ℕ) × IsOfText who.now (rooms_of rooms.now) text
        × Appends (W.contents writer.old) (W.contents writer.new) (with_newline text)) }
{
    let is_none = list_days(writer, rooms, who)?;
    if is_none {
        return write_line(writer, "none");
    }
    writer.write_all(b"\n")
}

// Writes the days of a name in each room, and returns whether there are none.
fn list_days<W: Write>(
    writer: &mut W,
    rooms: &BTreeMap<String, Room>,
    who: &str,
) -> io::Result<bool>
    ensures { IfOk result (λ left. (text : List ℕ) × ListsDays who.now true (rooms_of rooms.now) text left
        × Appends (W.contents writer.old) (W.contents writer.new) text) }
{
    let mut is_first = true;
    for (name, room) in rooms.iter() {
        is_first = write_days_in(writer, is_first, name, room.named(), who)?;
    }
    Ok(is_first)
}

// Writes the days of a name in a room. Returns whether nothing of the answer is written yet.
fn write_days_in<W: Write>(
    writer: &mut W,
    is_first: bool,
    name: &str,
    bookings: &[(Interval<i32>, String)],
    who: &str,
) -> io::Result<bool>
    requires entries { IsEntryList string_eq bookings.now }
    requires dates { IsSubset (HasValue (HasAt string_eq bookings.now)) IsEpochDay }
    ensures text { IfOk result (λ left. (text : List ℕ) × AreDaysText is_first name.now (runs_for who.now (named_of bookings.now)) text
        × Appends (W.contents writer.old) (W.contents writer.new) text) }
    ensures first { IfOk result (λ left. left ≡ still_first is_first (runs_for who.now (named_of bookings.now))) }
{
    let mut left = bookings;
    let mut is_first = is_first;
    while let Some((booking, later)) = left.split_first() {
        is_first = write_if_for(writer, is_first, name, booking, who)?;
        left = later;
    }
    Ok(is_first)
}

// Writes the days of a booking if it is for a name. Returns whether nothing of the answer is written yet.
fn write_if_for<W: Write>(
    writer: &mut W,
    is_first: bool,
    name: &str,
    booking: &(Interval<i32>, String),
    who: &str,
) -> io::Result<bool>
    requires order { booking.now.0.0 ≤ℤ booking.now.0.1 }
    requires dates { IsSubset (IsBetween booking.now.0) IsEpochDay }
    ensures text { IfOk result (λ left. (text : List ℕ) × AreDaysText is_first name.now (runs_for who.now (named_of (booking.now ∷ []))) text
        × Appends (W.contents writer.old) (W.contents writer.new) text) }
    ensures first { IfOk result (λ left. left ≡ still_first is_first (runs_for who.now (named_of (booking.now ∷ [])))) }
{
    if is_for(booking, who) {
        let comma = comma_before(is_first);
        write!(writer, "{comma}{} ", Escaped(name))?;
        write_span(writer, &booking.0)?;
        Ok(false)
    } else {
        Ok(is_first)
    }
}

fn is_for(booking: &(Interval<i32>, String), who: &str) -> bool
    ensures { result ≡ bytes_eq (string_bytes booking.now.1) who.now }
{
    booking.1.as_str() == who
}

/// Returns what stands before a part of an answer: a comma, unless it is the first.
pub fn comma_before(is_first: bool) -> &'static str
    ensures { result.now ≡ (if is_first then [] else codes ", ") }
{
    if is_first { "" } else { ", " }
}
