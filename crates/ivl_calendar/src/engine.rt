//! What answers the lines of a session.
ghost use Rattle.std.specs.Prelude.{◌≡◌, ◌⊎◌, ◌<◌, ◌≤ℤ◌, ◌==◌, ℕ, List, [], IfSome, IsErrOf, IsSome, IsTrue, None, OnOk, Some, option_map, slice_index};
ghost use Rattle.std.specs.Io.KnownBytes.{Appends, Consumes, IsAtEnd};
ghost use Rattle.jiff.specs.Words.{IsEpochDay};
ghost use Rattle.ivl_lines.specs.Answered.{AnswersOrLoses, IsAnswered};
ghost use Rattle.ivl_lines.specs.Commands.{no_memory};
ghost use Rattle.ivl_lines.specs.Lines.{ended_lines_of, lines_of, with_newline};
ghost use Rattle.ivl_lines.specs.Words.{words_between};
ghost use Rattle.ivl_calendar.specs.Answering.{AddsRoom, AnswersBook, AnswersCancel, AnswersFree, AnswersGap, AnswersLine, AnswersOf, AnswersRoom, AnswersRooms, AnswersShow, AnswersWho, BooksRoom, CancelsRoom, IsBookingTold, IsCancellingTold, IsGapLine, ShowsFreeDays, ShowsGap, ShowsRoom, ShowsWho};
ghost use Rattle.ivl_calendar.specs.Names.{IsTakenText};
ghost use Rattle.ivl_calendar.specs.Rooms.{Bookings, Rooms, busy_of};

use crate::calendar::Calendar;
use crate::faults::{Fault, write_fault};
use crate::helps::write_help;
use crate::names::{write_taken, write_who};
use crate::replies::{write_line, write_span, write_spans};
use crate::requests::{
    Booking, Cancelling, Gap, booking_from, cancelling_from, gap_from, room_and_day_from,
    window_from,
};
use crate::shown::write_bookings;
use intervallum::interval::Interval;
use ivl_lines::{AnswersCommands, SessionFault, next_word, one_word, serve};
use std::alloc::Global;
use std::io;
use std::io::{Read, Write};

const ROOM: &str = "room NAME";

const ROOMS: &str = "rooms";

const SHOW: &str = "show ROOM";

const OF: &str = "of WHO";

impl AnswersCommands for Calendar {
    ghost use Rattle.ivl_calendar.specs.Answering.{AnswersNamed};

    ghost command_allowed = { AnswersNamed };

    fn command_may_take_long(&self, name: &[u8]) -> bool {
        match name {
            b"free" | b"of" => true,
            _ => false,
        }
    }

    fn answer_command<W: Write>(
        &mut self,
        name: &str,
        words: &str,
        writer: &mut W,
    ) -> io::Result<()> {
        match name {
            "room" => answer_room(self, words, writer),
            "rooms" => answer_rooms(self, words, writer),
            "book" => answer_book(self, words, writer),
            "cancel" => answer_cancel(self, words, writer),
            "show" => answer_show(self, words, writer),
            "gap" => answer_gap(self, words, writer),
            "free" => answer_free(self, words, writer),
            "who" => answer_who(self, words, writer),
            "of" => answer_of(self, words, writer),
            "help" => write_help(writer, words),
            _ if is_comment(name) => Ok(()),
            _ => write_fault(writer, &Fault::Command(name)),
        }
    }
}

/// Answers each line of the input, over a calendar that has no rooms at first. What is written is
/// flushed before each read, before a line that looks at all rooms, and at the end.
///
/// # Errors
///
/// `Read` if a read failed, or the reader still returned bytes after 2^64 - 1 reads; an interrupted
/// read is repeated. `Write` if a write or a flush failed. `Memory` if there is no memory to begin:
/// nothing is then read or written. A line that runs out of memory when it is read or carried out is
/// answered with that, and the session continues.
///
/// ```
/// let mut input: &[u8] = b"room blue\nbook blue 2026-03-01 2026-03-04 anna\nwho blue 2026-03-04";
/// let mut written = Vec::new(alloc);
/// assert_eq!(rt; session(alloc, &mut input, &mut written), Ok(()));
/// assert_eq!(rt; written.as_slice(), b"ok\nbooked\nanna\n".as_slice());
/// ```
pub fn session<R: Read, W: Write>(
    alloc: Global,
    reader: &mut R,
    writer: &mut W,
) -> Result<(), SessionFault>
    // All bytes were read, and what is written answers their lines.
    ensures end { OnOk result (IsAtEnd (R.remaining reader.new)) }
    ensures ok { OnOk result (IfSome (R.remaining reader.old) (λ bytes. (text : List ℕ) × (end : Rooms)
        × IsAnswered (AnswersOrLoses no_memory AnswersLine) [] (lines_of bytes) text end
        × Appends (W.contents writer.old) (W.contents writer.new) text)) }
    // What is written answers the ended lines of the bytes that the reader gave.
    ensures read { IsErrOf result SessionFault.Read → (front : List ℕ) × (text : List ℕ) × (end : Rooms)
        × Consumes (R.remaining reader.old) (R.remaining reader.new) front
        × IsAnswered (AnswersOrLoses no_memory AnswersLine) [] (ended_lines_of front) text end
        × Appends (W.contents writer.old) (W.contents writer.new) text }
    // There was no memory to begin.
    ensures memory { IsErrOf result SessionFault.Memory → (reader.new ≡ reader.old) × (writer.new ≡ writer.old) }
{
    serve(alloc, &mut Calendar::new(alloc), reader, writer)
}

// Whether the first word of a line begins a comment: with `#`, which is 35.
fn is_comment(name: &str) -> bool
    ensures { result ≡ (slice_index name.now 0 == 35) }
{
    name.starts_with('#')
}

fn answer_room<W: Write>(calendar: &mut Calendar, words: &str, writer: &mut W) -> io::Result<()>
    ensures { OnOk result ((text : List ℕ)
        × AnswersRoom calendar.old (words_between words.now) text calendar.new
        × Appends (W.contents writer.old) (W.contents writer.new) text) }
{
    let Some(name) = one_word(words) else {
        return write_fault(writer, &Fault::Form(ROOM));
    };
    match calendar.room(name) {
        Some(_) => write_fault(writer, &Fault::Known(name)),
        None => add(calendar, name, writer),
    }
}

// Adds a room that there is not.
fn add<W: Write>(calendar: &mut Calendar, name: &str, writer: &mut W) -> io::Result<()>
    requires { busy_of calendar.old name.now ≡ None }
    ensures { OnOk result ((text : List ℕ)
        × AddsRoom name.now calendar.old text calendar.new
        × Appends (W.contents writer.old) (W.contents writer.new) text) }
{
    match calendar.add(name) {
        Ok(()) => write_line(writer, "ok"),
        Err(_) => write_fault(writer, &Fault::Memory),
    }
}

fn answer_rooms<W: Write>(calendar: &mut Calendar, words: &str, writer: &mut W) -> io::Result<()>
    ensures { OnOk result ((text : List ℕ)
        × AnswersRooms calendar.old (words_between words.now) text calendar.new
        × Appends (W.contents writer.old) (W.contents writer.new) text) }
{
    match next_word(words) {
        Some(_) => write_fault(writer, &Fault::Form(ROOMS)),
        None => calendar.write_rooms(writer),
    }
}

fn answer_book<W: Write>(calendar: &mut Calendar, words: &str, writer: &mut W) -> io::Result<()>
    ensures { OnOk result ((text : List ℕ)
        × AnswersBook calendar.old (words_between words.now) text calendar.new
        × Appends (W.contents writer.old) (W.contents writer.new) text) }
{
    match booking_from(words) {
        Ok(asked) => book(calendar, &asked, writer),
        Err(fault) => write_fault(writer, &fault),
    }
}

// Books a room, and says what came of it.
fn book<W: Write>(calendar: &mut Calendar, asked: &Booking<'_>, writer: &mut W) -> io::Result<()>
    requires order { asked.now.days.0 ≤ℤ asked.now.days.1 }
    requires first { IsEpochDay asked.now.days.0 }
    requires last { IsEpochDay asked.now.days.1 }
    ensures { OnOk result ((text : List ℕ)
        × BooksRoom asked.now.name.now asked.now.days (option_map (λ it. it.now) asked.now.who) calendar.old text calendar.new
        × Appends (W.contents writer.old) (W.contents writer.new) text) }
{
    match calendar.book(asked.name, asked.days, asked.who) {
        Ok(done) => tell_booking(calendar, asked.name, &asked.days, done, writer),
        Err(_) => write_fault(writer, &Fault::Memory),
    }
}

// Says whether a room was free, and so is booked, or `None` if there is no such room.
fn tell_booking<W: Write>(
    calendar: &Calendar,
    name: &str,
    days: &Interval<i32>,
    done: Option<bool>,
    writer: &mut W,
) -> io::Result<()>
    requires order { days.now.0 ≤ℤ days.now.1 }
    requires known { IfSome done (λ it. IsTrue it ⊎ IsSome (busy_of calendar.now name.now)) }
    ensures { OnOk result ((text : List ℕ) × IsBookingTold done name.now days.now calendar.now text
        × Appends (W.contents writer.old) (W.contents writer.new) text) }
{
    let Some(done) = done else {
        return write_fault(writer, &Fault::Room(name));
    };
    if done {
        write_line(writer, "booked")
    } else {
        answer_taken(calendar, name, days, writer)
    }
}

// Says what is in the way of a booking.
fn answer_taken<W: Write>(
    calendar: &Calendar,
    name: &str,
    days: &Interval<i32>,
    writer: &mut W,
) -> io::Result<()>
    requires order { days.now.0 ≤ℤ days.now.1 }
    requires known { IsSome (busy_of calendar.now name.now) }
    ensures { OnOk result ((bookings : Bookings) × (text : List ℕ) × (busy_of calendar.now name.now ≡ Some bookings)
        × IsTakenText bookings days.now text × Appends (W.contents writer.old) (W.contents writer.new) (with_newline text)) }
{
    match calendar.room(name) {
        Some(room) => write_taken(writer, room, days),
        None => unreachable!(),
    }
}

fn answer_cancel<W: Write>(calendar: &mut Calendar, words: &str, writer: &mut W) -> io::Result<()>
    ensures { OnOk result ((text : List ℕ)
        × AnswersCancel calendar.old (words_between words.now) text calendar.new
        × Appends (W.contents writer.old) (W.contents writer.new) text) }
{
    match cancelling_from(words) {
        Ok(asked) => cancel(calendar, &asked, writer),
        Err(fault) => write_fault(writer, &fault),
    }
}

// Frees a room, and says what came of it.
fn cancel<W: Write>(
    calendar: &mut Calendar,
    asked: &Cancelling<'_>,
    writer: &mut W,
) -> io::Result<()>
    requires { asked.now.days.0 ≤ℤ asked.now.days.1 }
    ensures { OnOk result ((text : List ℕ)
        × CancelsRoom asked.now.name.now asked.now.days calendar.old text calendar.new
        × Appends (W.contents writer.old) (W.contents writer.new) text) }
{
    match calendar.cancel(asked.name, asked.days) {
        Ok(done) => tell_cancelling(writer, asked.name, done),
        Err(_) => write_fault(writer, &Fault::Memory),
    }
}

// Says whether a room was booked, and so is freed, or `None` if there is no such room.
fn tell_cancelling<W: Write>(writer: &mut W, name: &str, done: Option<bool>) -> io::Result<()>
    ensures { OnOk result ((text : List ℕ) × IsCancellingTold done name.now text
        × Appends (W.contents writer.old) (W.contents writer.new) text) }
{
    let Some(done) = done else {
        return write_fault(writer, &Fault::Room(name));
    };
    if done {
        write_line(writer, "cancelled")
    } else {
        write_line(writer, "not booked")
    }
}

fn answer_show<W: Write>(calendar: &mut Calendar, words: &str, writer: &mut W) -> io::Result<()>
    ensures { OnOk result ((text : List ℕ)
        × AnswersShow calendar.old (words_between words.now) text calendar.new
        × Appends (W.contents writer.old) (W.contents writer.new) text) }
{
    match one_word(words) {
        Some(name) => show_room(calendar, name, writer),
        None => write_fault(writer, &Fault::Form(SHOW)),
    }
}

// Says how a room is booked.
fn show_room<W: Write>(calendar: &Calendar, name: &str, writer: &mut W) -> io::Result<()>
    ensures { OnOk result ((text : List ℕ)
        × ShowsRoom name.now calendar.now text calendar.now
        × Appends (W.contents writer.old) (W.contents writer.new) text) }
{
    let Some(room) = calendar.room(name) else {
        return write_fault(writer, &Fault::Room(name));
    };
    match room.days_without_name() {
        Ok(days) => write_bookings(writer, room.named(), days.runs()),
        Err(_) => write_fault(writer, &Fault::Memory),
    }
}

fn answer_gap<W: Write>(calendar: &mut Calendar, words: &str, writer: &mut W) -> io::Result<()>
    ensures { OnOk result ((text : List ℕ)
        × AnswersGap calendar.old (words_between words.now) text calendar.new
        × Appends (W.contents writer.old) (W.contents writer.new) text) }
{
    match gap_from(words) {
        Ok(asked) => show_gap(calendar, &asked, writer),
        Err(fault) => write_fault(writer, &fault),
    }
}

// Says when a room is free.
fn show_gap<W: Write>(calendar: &Calendar, asked: &Gap<'_>, writer: &mut W) -> io::Result<()>
    requires above { 0 < asked.now.count }
    requires bound { IsEpochDay asked.now.window.0 × IsEpochDay asked.now.window.1 }
    ensures { OnOk result ((text : List ℕ)
        × ShowsGap asked.now.name.now asked.now.count asked.now.window calendar.now text calendar.now
        × Appends (W.contents writer.old) (W.contents writer.new) text) }
{
    let Some(room) = calendar.room(asked.name) else {
        return write_fault(writer, &Fault::Room(asked.name));
    };
    match room.first_gap(asked.window, asked.count) {
        Ok(gap) => write_gap(writer, gap),
        Err(_) => write_fault(writer, &Fault::Memory),
    }
}

// Writes the first and the last day of a gap, or `none`.
fn write_gap<W: Write>(writer: &mut W, gap: Option<Interval<i32>>) -> io::Result<()>
    requires order { IfSome gap (λ run. run.0 ≤ℤ run.1) }
    requires first { IfSome gap (λ run. IsEpochDay run.0) }
    requires last { IfSome gap (λ run. IsEpochDay run.1) }
    ensures { OnOk result ((text : List ℕ) × IsGapLine gap text
        × Appends (W.contents writer.old) (W.contents writer.new) (with_newline text)) }
{
    let Some(run) = gap else {
        return write_line(writer, "none");
    };
    write_span(writer, &run)?;
    writer.write_all(b"\n")
}

fn answer_free<W: Write>(calendar: &mut Calendar, words: &str, writer: &mut W) -> io::Result<()>
    ensures { OnOk result ((text : List ℕ)
        × AnswersFree calendar.old (words_between words.now) text calendar.new
        × Appends (W.contents writer.old) (W.contents writer.new) text) }
{
    match window_from(words) {
        Ok(window) => show_free(calendar, window, writer),
        Err(fault) => write_fault(writer, &fault),
    }
}

// Says on which days all rooms are free.
fn show_free<W: Write>(calendar: &Calendar, window: Interval<i32>, writer: &mut W) -> io::Result<()>
    requires { IsEpochDay window.0 × IsEpochDay window.1 }
    ensures { OnOk result ((text : List ℕ)
        × ShowsFreeDays window calendar.now text calendar.now
        × Appends (W.contents writer.old) (W.contents writer.new) text) }
{
    match calendar.free_within(window) {
        Ok(free) => write_spans(writer, free.runs()),
        Err(_) => write_fault(writer, &Fault::Memory),
    }
}

fn answer_who<W: Write>(calendar: &mut Calendar, words: &str, writer: &mut W) -> io::Result<()>
    ensures { OnOk result ((text : List ℕ)
        × AnswersWho calendar.old (words_between words.now) text calendar.new
        × Appends (W.contents writer.old) (W.contents writer.new) text) }
{
    match room_and_day_from(words) {
        Ok((name, day)) => show_who(calendar, name, day, writer),
        Err(fault) => write_fault(writer, &fault),
    }
}

// Says who has booked a room on a day.
fn show_who<W: Write>(calendar: &Calendar, name: &str, day: i32, writer: &mut W) -> io::Result<()>
    ensures { OnOk result ((text : List ℕ)
        × ShowsWho name.now day calendar.now text calendar.now
        × Appends (W.contents writer.old) (W.contents writer.new) text) }
{
    match calendar.room(name) {
        Some(room) => write_who(writer, room, day),
        None => write_fault(writer, &Fault::Room(name)),
    }
}

fn answer_of<W: Write>(calendar: &mut Calendar, words: &str, writer: &mut W) -> io::Result<()>
    ensures { OnOk result ((text : List ℕ)
        × AnswersOf calendar.old (words_between words.now) text calendar.new
        × Appends (W.contents writer.old) (W.contents writer.new) text) }
{
    match one_word(words) {
        Some(name) => calendar.write_days_of(writer, name),
        None => write_fault(writer, &Fault::Form(OF)),
    }
}
