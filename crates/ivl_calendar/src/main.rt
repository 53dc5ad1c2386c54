//! A calendar of rooms, one request per line: `room blue` adds a room, `book blue 2026-03-05 2026-03-06 anna` books it
//! for anna if it is free, `cancel blue 2026-03-06 2026-03-06` frees it, `show blue` prints its bookings, and
//! `gap blue 3 2026-03-01 2026-03-31` finds the first three days on which it is free.
#![tactic(auto)]

mod calendar;
mod dates;
mod engine;
mod faults;
mod helps;
mod names;
mod replies;
mod requests;
mod rooms;
mod shown;

use ivl_lines::{Program, SessionFault, run};
use std::io::{Read, Write};
use std::process::ExitCode;

const HELP: &str = "\
Books rooms by the day: reads one line at a time from standard input, and answers each.

  room NAME                    a new room, free on all days: ok
  rooms                        the names of the rooms
  book ROOM FIRST LAST WHO     books it from the first date to the last for a name: booked, or what is in the way
  book ROOM FIRST LAST         books it without a name
  cancel ROOM FIRST LAST       frees it on these days, whoever booked it: cancelled, or not booked
  show ROOM                    its bookings, those with a name first
  who ROOM DATE                the name for which it is booked on that day, booked without a name, or free
  of WHO                       the days that are booked for a name, each after its room, or none
  gap ROOM DAYS FIRST LAST     the first so many days in a row on which it is free, between two dates
  free FIRST LAST              the days between two dates on which all rooms are free
  help, help COMMAND           the commands, or what one does

Dates are written as 2026-03-01, and names have no space: anna_maria. A line that begins with # is a comment.
--version prints the version.
";

/// The lines of this program.
pub struct Lines;

impl Program for Lines {
    const NAME: &'static str = "ivl_calendar";

    fn session<R: Read, W: Write>(
        rt: &HostRuntime,
        reader: &mut R,
        writer: &mut W,
    ) -> Result<(), SessionFault> {
        engine::session(rt.alloc(), reader, writer)
    }
}

fn main(rt: HostRuntime) -> ExitCode {
    run::<Lines>(&rt, HELP)
}
