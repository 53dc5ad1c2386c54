//! The text of an answer.
ghost use Rattle.std.specs.Prelude.{◌≤ℤ◌, ℕ, List, OnOk};
ghost use Rattle.std.specs.Io.KnownBytes.{Appends};
ghost use Rattle.jiff.specs.Words.{IsEpochDay};
ghost use Rattle.ivl_laws.specs.Sets.{IsBetween, IsSubset};
ghost use Rattle.ivl_laws.specs.Runs.{Covers, IsMaximal};
ghost use Rattle.ivl_lines.specs.Lines.{with_newline};
ghost use Rattle.ivl_calendar.specs.Days.{AreMoreSpans, AreSpansText, IsSpanText};

use crate::dates::date_of;
use intervallum::interval::Interval;
use intervallum::ops::Bounded;
use std::io;
use std::io::Write;

/// Writes a text as a line.
pub fn write_line<W: Write>(writer: &mut W, text: &str) -> io::Result<()>
    ensures { OnOk result (Appends (W.contents writer.old) (W.contents writer.new) (with_newline text.now)) }
{
    writeln!(writer, "{text}")
}

/// Writes runs of days as a line: their first and last days, with commas between, or `none`.
pub fn write_spans<W: Write>(writer: &mut W, runs: &[Interval<i32>]) -> io::Result<()>
    requires maximal { IsMaximal runs.now }
    requires dates { IsSubset (Covers runs.now) IsEpochDay }
    ensures { OnOk result ((text : List ℕ) × AreSpansText runs.now text
        × Appends (W.contents writer.old) (W.contents writer.new) (with_newline text)) }
{
    let Some((first, others)) = runs.split_first() else {
        return write_line(writer, "none");
    };
    write_span(writer, first)?;
    write_more_spans(writer, others)?;
    writer.write_all(b"\n")
}

// Writes runs of days, each after a comma.
fn write_more_spans<W: Write>(writer: &mut W, runs: &[Interval<i32>]) -> io::Result<()>
    requires maximal { IsMaximal runs.now }
    requires dates { IsSubset (Covers runs.now) IsEpochDay }
    ensures { OnOk result ((text : List ℕ) × AreMoreSpans runs.now text
        × Appends (W.contents writer.old) (W.contents writer.new) text) }
{
    let mut runs = runs;
    while let Some((first, others)) = runs.split_first() {
        writer.write_all(b", ")?;
        write_span(writer, first)?;
        runs = others;
    }
    Ok(())
}

/// Writes the first and the last day of an interval, which must be days of the calendar, in order.
pub fn write_span<W: Write>(writer: &mut W, days: &Interval<i32>) -> io::Result<()>
    requires order { days.now.0 ≤ℤ days.now.1 }
    requires first { IsEpochDay days.now.0 }
    requires last { IsEpochDay days.now.1 }
    ensures { OnOk result ((text : List ℕ) × IsSpanText days.now text
        × Appends (W.contents writer.old) (W.contents writer.new) text) }
{
    match (date_of(days.lower()), date_of(days.upper())) {
        (Some(first), Some(last)) => write!(writer, "{first} to {last}"),
        _ => unreachable!(),
    }
}
