//! What `help` answers.
ghost use Rattle.std.specs.Prelude.{◌≡◌, OnOk, option_map};
ghost use Rattle.std.specs.Io.KnownBytes.{Appends};
ghost use Rattle.ivl_lines.specs.Words.{words_between};
ghost use Rattle.ivl_calendar.specs.Helps.{help_line, help_text as text_of, told_help};

use crate::faults::{Fault, write_fault};
use crate::replies::write_line;
use ivl_lines::next_word;
use std::io;
use std::io::Write;

const COMMANDS: &str =
    "room, rooms, book, cancel, show, gap, free, who, of; help COMMAND tells what one does";

const HELP: &str = "help or help COMMAND";

/// Answers `help`, given the words after it: the commands, or what one of them does.
pub fn write_help<W: Write>(writer: &mut W, words: &str) -> io::Result<()>
    ensures { OnOk result (Appends (W.contents writer.old) (W.contents writer.new) (help_line (words_between words.now))) }
{
    let Some((name, rest)) = next_word(words) else {
        return write_line(writer, COMMANDS);
    };
    match next_word(rest) {
        None => write_help_of(writer, name),
        Some(_) => write_fault(writer, &Fault::Form(HELP)),
    }
}

fn write_help_of<W: Write>(writer: &mut W, name: &str) -> io::Result<()>
    ensures { OnOk result (Appends (W.contents writer.old) (W.contents writer.new) (told_help name.now (text_of name.now))) }
{
    match help_text(name) {
        Some(text) => write_line(writer, text),
        None => write_fault(writer, &Fault::Command(name)),
    }
}

// What a command does, or `None` if there is no such command.
fn help_text(name: &str) -> Option<&'static str>
    ensures { option_map (λ text. text.now) result ≡ text_of name.now }
{
    match name {
        "room" => Some("room NAME: a new room, free on all days"),
        "rooms" => Some("rooms: the names of the rooms"),
        "book" => Some(
            "book ROOM FIRST LAST WHO: books a room from the first day to the last, such as book blue 2026-03-01 2026-03-04 anna; the name may be left out",
        ),
        "cancel" => Some(
            "cancel ROOM FIRST LAST: frees a room from the first day to the last, whoever booked it",
        ),
        "show" => Some("show ROOM: the bookings of a room, those with a name first"),
        "gap" => Some(
            "gap ROOM DAYS FIRST LAST: the first so many days in a row on which a room is free, between two days",
        ),
        "free" => Some("free FIRST LAST: the days between two days on which all rooms are free"),
        "who" => Some(
            "who ROOM DATE: the name for which a room is booked on a day, booked without a name, or free",
        ),
        "of" => Some("of WHO: the days that are booked for a name, each after its room"),
        "help" => Some("help: the commands; help COMMAND: what one does"),
        _ => None,
    }
}
