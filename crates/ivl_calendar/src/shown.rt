//! What is told of all rooms, and of the bookings of one.
ghost use Rattle.std.specs.Prelude.{◌≡◌, ◌≤ℤ◌, ℕ, [], ◌∷◌, ◌++◌, List, IfOk, OnOk, codes, if◌then◌else◌, map, string_eq, true, None, Some};
ghost use Rattle.std.specs.Io.KnownBytes.{Appends};
ghost use Rattle.jiff.specs.Words.{IsEpochDay};
ghost use Rattle.ivl_laws.specs.Runs.{Covers, IsMaximal};
ghost use Rattle.ivl_laws.specs.Sets.{IsSubset};
ghost use Rattle.ivl_map.specs.Entries.{HasAt, HasValue, IsEntryList};
ghost use Rattle.ivl_lines.specs.Escapes.{escaped};
ghost use Rattle.ivl_lines.specs.Lines.{with_newline};
ghost use Rattle.ivl_calendar.specs.Rooms.{named_of, rooms_of};
ghost use Rattle.ivl_calendar.specs.Shown.{AreBookingsText, IsShownText, has_no, names_text, rooms_text, still_no, with_name, without_name};

use crate::names::comma_before;
use crate::replies::{write_line, write_span};
use crate::rooms::Room;
use intervallum::interval::Interval;
use ivl_lines::Escaped;
use std::collections::BTreeMap;
use std::io;
use std::io::Write;

/// Writes the names of the rooms in their order, as a line with commas between, or `none`. Does not allocate.
pub fn write_rooms<W: Write>(writer: &mut W, rooms: &BTreeMap<String, Room>) -> io::Result<()>
    ensures { OnOk result (Appends (W.contents writer.old) (W.contents writer.new) (with_newline (rooms_text (rooms_of rooms.now)))) }
{
    let is_none = list_rooms(writer, rooms)?;
    if is_none {
        return write_line(writer, "none");
    }
    writer.write_all(b"\n")
}

// Writes the names of the rooms, and returns whether there is none.
fn list_rooms<W: Write>(writer: &mut W, rooms: &BTreeMap<String, Room>) -> io::Result<bool>
    ensures text { IfOk result (λ left. Appends (W.contents writer.old) (W.contents writer.new) (names_text true (rooms_of rooms.now))) }
    ensures none { IfOk result (λ left. left ≡ has_no (rooms_of rooms.now)) }
{
    let mut is_first = true;
    for (name, _) in rooms.iter() {
        write_name(writer, is_first, name)?;
        is_first = false;
    }
    Ok(is_first)
}

// Writes the name of a room.
fn write_name<W: Write>(writer: &mut W, is_first: bool, name: &str) -> io::Result<()>
    ensures { OnOk result (Appends (W.contents writer.old) (W.contents writer.new) ((if is_first then [] else codes ", ") ++ escaped name.now)) }
{
    let comma = comma_before(is_first);
    write!(writer, "{comma}{}", Escaped(name))
}

/// Writes the bookings of a room as a line: those with a name, and then the days that are booked without one, with
/// commas between, or `free`. Does not allocate.
pub fn write_bookings<W: Write>(
    writer: &mut W,
    named: &[(Interval<i32>, String)],
    unnamed: &[Interval<i32>],
) -> io::Result<()>
    requires entries { IsEntryList string_eq named.now }
    requires named_dates { IsSubset (HasValue (HasAt string_eq named.now)) IsEpochDay }
    requires maximal { IsMaximal unnamed.now }
    requires dates { IsSubset (Covers unnamed.now) IsEpochDay }
    ensures { OnOk result ((text : List ℕ) × IsShownText (unnamed.now, named_of named.now) text
        × Appends (W.contents writer.old) (W.contents writer.new) (with_newline text)) }
{
    let is_first = list_named(writer, named)?;
    let is_none = list_unnamed(writer, is_first, unnamed)?;
    if is_none {
        return write_line(writer, "free");
    }
    writer.write_all(b"\n")
}

// Writes the bookings with a name. Returns whether nothing of the answer is written yet.
fn list_named<W: Write>(writer: &mut W, named: &[(Interval<i32>, String)]) -> io::Result<bool>
    requires entries { IsEntryList string_eq named.now }
    requires dates { IsSubset (HasValue (HasAt string_eq named.now)) IsEpochDay }
    ensures text { IfOk result (λ left. (text : List ℕ) × AreBookingsText true (map with_name (named_of named.now)) text
        × Appends (W.contents writer.old) (W.contents writer.new) text) }
    ensures first { IfOk result (λ left. left ≡ still_no true (map with_name (named_of named.now))) }
{
    let mut left = named;
    let mut is_first = true;
    while let Some((booking, later)) = left.split_first() {
        write_named(writer, is_first, &booking.0, booking.1.as_str())?;
        is_first = false;
        left = later;
    }
    Ok(is_first)
}

// Writes the days that are booked without a name. Returns whether nothing of the answer is written yet.
fn list_unnamed<W: Write>(
    writer: &mut W,
    is_first: bool,
    unnamed: &[Interval<i32>],
) -> io::Result<bool>
    requires maximal { IsMaximal unnamed.now }
    requires dates { IsSubset (Covers unnamed.now) IsEpochDay }
    ensures text { IfOk result (λ left. (text : List ℕ) × AreBookingsText is_first (map without_name unnamed.now) text
        × Appends (W.contents writer.old) (W.contents writer.new) text) }
    ensures first { IfOk result (λ left. left ≡ still_no is_first (map without_name unnamed.now)) }
{
    let mut left = unnamed;
    let mut is_first = is_first;
    while let Some((days, later)) = left.split_first() {
        write_unnamed(writer, is_first, days)?;
        is_first = false;
        left = later;
    }
    Ok(is_first)
}

// Writes a booking, and the name for which it is.
fn write_named<W: Write>(
    writer: &mut W,
    is_first: bool,
    days: &Interval<i32>,
    name: &str,
) -> io::Result<()>
    requires order { days.now.0 ≤ℤ days.now.1 }
    requires first { IsEpochDay days.now.0 }
    requires last { IsEpochDay days.now.1 }
    ensures { OnOk result ((text : List ℕ) × AreBookingsText is_first ((days.now, Some name.now) ∷ []) text
        × Appends (W.contents writer.old) (W.contents writer.new) text) }
{
    write_comma(writer, is_first)?;
    write_span(writer, days)?;
    write!(writer, " {}", Escaped(name))
}

// Writes days that are booked without a name.
fn write_unnamed<W: Write>(writer: &mut W, is_first: bool, days: &Interval<i32>) -> io::Result<()>
    requires order { days.now.0 ≤ℤ days.now.1 }
    requires first { IsEpochDay days.now.0 }
    requires last { IsEpochDay days.now.1 }
    ensures { OnOk result ((text : List ℕ) × AreBookingsText is_first ((days.now, None) ∷ []) text
        × Appends (W.contents writer.old) (W.contents writer.new) text) }
{
    write_comma(writer, is_first)?;
    write_span(writer, days)
}

fn write_comma<W: Write>(writer: &mut W, is_first: bool) -> io::Result<()>
    ensures { OnOk result (Appends (W.contents writer.old) (W.contents writer.new) (if is_first then [] else codes ", ")) }
{
    let comma = comma_before(is_first);
    write!(writer, "{comma}")
}
