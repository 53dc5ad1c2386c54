//! What answers the lines of a session of the calculator.
ghost use Rattle.std.specs.Prelude.{◌≡◌, ℕ, List, ◌++◌, OnOk, IfSome, IsErrOf, length};
ghost use Rattle.std.specs.Io.KnownBytes.{Appends, Consumes, IsAtEnd};
ghost use Rattle.ivl_lines.specs.Lines.{lines_of, ended_lines_of};
ghost use Rattle.ivl_calculator_lines.specs.Session.{AnswersReading, IsSessionText};
ghost use Rattle.ivl_lines.specs.Lines.{with_newline};
ghost use Rattle.ivl_calculator.specs.Actions.{refused};
ghost use Rattle.ivl_calculator_lines.specs.Printed.{printed};
ghost use Rattle.ivl_calculator_lines.specs.Reading.{reading_of};
ghost use Rattle.ivl_calculator_lines.specs.Unkept.{why_unkept};
ghost use Rattle.ivl_calculator_lines.specs.View.{view_of};

use crate::lines::{Line, Unkept, read_line};
use crate::replies::write_reply;
use ivl_calculator::{Calc, Refusal, Reply};
use ivl_lines::{Answers, SessionFault, first_word, serve};
use std::alloc::Global;
use std::io;
use std::io::{Read, Write};
use std::marker::Model;

const REGISTERS: usize = 26;

// The registers of a session. A contract sees the lists of their runs.
#[derive(Drop)]
struct Registers {
    alloc: Global,
    calc: Calc<i64>,
}

impl Model for Registers {
    ghost use Rattle.std.specs.Prelude.{ℤ, List};

    ghost Value = { List (List (ℤ × ℤ)) };

    ghost view = { λ r. r.calc };
}

impl Answers for Registers {
    ghost use Rattle.ivl_calculator_lines.specs.Reading.{reading_of};
    ghost use Rattle.ivl_calculator_lines.specs.Session.{AnswersReading, lost_text};

    ghost allowed = { λ old line text new. AnswersReading old (reading_of line) text new };

    ghost lost = { lost_text };

    fn may_take_long(&self, line: &[u8]) -> bool {
        match first_word(line) {
            b"plus" | b"minus" | b"times" => true,
            _ => false,
        }
    }

    fn answer<W: Write>(&mut self, line: &[u8], writer: &mut W) -> io::Result<()> {
        answer_line(self.alloc, &mut self.calc, line, writer)
    }

    fn answer_to_lost(&self) -> &'static [u8] {
        b"refused 4 memory\n"
    }
}

/// Answers each line of the input, over registers that are empty at first. What is written is
/// flushed before each read, before each line of sums, differences or products of two registers,
/// and at the end.
///
/// # Errors
///
/// `Read` if a read failed, or the reader still returned bytes after 2^64 - 1 reads; an interrupted
/// read is repeated. `Write` if a write or a flush failed. `Memory` if there is no memory to begin:
/// nothing is then read or written. A line or a command for which an allocation fails is refused, and
/// the session continues.
///
/// ```
/// let mut input: &[u8] = b"set a 5 6\nshow a";
/// let mut written = Vec::new(alloc);
/// assert_eq!(rt; session(alloc, &mut input, &mut written), Ok(()));
/// assert_eq!(rt; written.as_slice(), b"ok\n[5..6]\n".as_slice());
/// ```
pub fn session<R: Read, W: Write>(
    alloc: Global,
    reader: &mut R,
    writer: &mut W,
) -> Result<(), SessionFault>
    // All bytes were read, and what is written is the text for their lines.
    ensures end { OnOk result (IsAtEnd (R.remaining reader.new)) }
    ensures ok { OnOk result (IfSome (R.remaining reader.old) (λ bytes. (text : List ℕ)
        × IsSessionText (lines_of bytes) text
        × Appends (W.contents writer.old) (W.contents writer.new) text)) }
    // What is written is the text for the ended lines of the bytes that the reader gave.
    ensures read { IsErrOf result SessionFault.Read → (front : List ℕ) × (text : List ℕ)
        × Consumes (R.remaining reader.old) (R.remaining reader.new) front
        × IsSessionText (ended_lines_of front) text
        × Appends (W.contents writer.old) (W.contents writer.new) text }
    // There was no memory to begin.
    ensures memory { IsErrOf result SessionFault.Memory → (reader.new ≡ reader.old) × (writer.new ≡ writer.old) }
{
    let calc = Calc::new(alloc, REGISTERS)?;
    serve(alloc, &mut Registers { alloc, calc }, reader, writer)
}

fn answer_line<W: Write>(
    alloc: Global,
    calc: &mut Calc<i64>,
    line: &[u8],
    writer: &mut W,
) -> io::Result<()>
    ensures { OnOk result ((text : List ℕ)
        × AnswersReading calc.old (reading_of line.now) text calc.new
        × Appends (W.contents writer.old) (W.contents writer.new) text) }
{
    match read_line(alloc, line) {
        Ok(read) => carry_out(calc, &read, writer),
        Err(unkept) => write_unkept(calc, unkept, writer),
    }
}

// Refuses a `set` for whose pairs there is no memory, with the reason that counts.
fn write_unkept<W: Write>(calc: &Calc<i64>, unkept: Unkept, writer: &mut W) -> io::Result<()>
    ensures { OnOk result (Appends (W.contents writer.old) (W.contents writer.new)
        (with_newline (printed (refused (why_unkept (length calc.now) unkept))))) }
{
    let why = if unkept.register >= calc.registers() {
        Refusal::Register
    } else if unkept.in_range {
        Refusal::Memory
    } else {
        Refusal::Range
    };
    write_reply(writer, &Reply::Refused(why))
}

// Carries out what a line says, and writes the answer to it.
fn carry_out<W: Write>(calc: &mut Calc<i64>, line: &Line, writer: &mut W) -> io::Result<()>
    ensures { OnOk result ((text : List ℕ)
        × AnswersReading calc.old (view_of line.now) text calc.new
        × Appends (W.contents writer.old) (W.contents writer.new) text) }
{
    match line {
        Line::Blank => Ok(()),
        Line::Bad => writer.write_all(b"bad line\n"),
        Line::Command(command) => {
            let reply = calc.apply(command);
            write_reply(writer, &reply)
        }
    }
}
