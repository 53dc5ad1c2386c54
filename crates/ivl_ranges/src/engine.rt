//! What answers the lines of a session.
ghost use Rattle.std.specs.Prelude.{◌≡◌, ℕ, List, [], IfSome, IsErrOf, OnOk};
ghost use Rattle.std.specs.Io.KnownBytes.{Appends, Consumes, IsAtEnd};
ghost use Rattle.ivl_lines.specs.Answered.{AnswersOrLoses, IsAnswered};
ghost use Rattle.ivl_lines.specs.Commands.{no_memory};
ghost use Rattle.ivl_lines.specs.Lines.{ended_lines_of, lines_of};
ghost use Rattle.ivl_ranges.specs.Answering.{AnswersLine, State};

use crate::helps::{is_comment, write_help};
use crate::reply::write_told;
use crate::state::Access;
use ivl_lines::{AnswersCommands, SessionFault, serve};
use std::alloc::Global;
use std::io;
use std::io::{Read, Write};

impl AnswersCommands for Access {
    ghost use Rattle.ivl_ranges.specs.Answering.{AnswersCommand};

    ghost command_allowed = { AnswersCommand };

    fn command_may_take_long(&self, name: &[u8]) -> bool {
        match name {
            b"i" | b"k" | b"check" => true,
            _ => false,
        }
    }

    fn answer_command<W: Write>(
        &mut self,
        name: &str,
        words: &str,
        writer: &mut W,
    ) -> io::Result<()> {
        match name {
            "help" => write_help(writer, words),
            _ if is_comment(name) => Ok(()),
            _ => write_told(writer, name, &self.carry_out(name, words)),
        }
    }
}

/// Answers each line of the input, about an empty array and no values of `i` and `k` at first. What
/// is written is flushed before each read, before each line of ranges and each check, and at the
/// end.
///
/// # Errors
///
/// `Read` if a read failed, or the reader still returned bytes after 2^64 - 1 reads; an interrupted
/// read is repeated. `Write` if a write or a flush failed. `Memory` if there is no memory to begin:
/// nothing is then read or written. A line that runs out of memory when it is read or carried out is
/// answered with that, and the session continues.
pub fn session<R: Read, W: Write>(
    alloc: Global,
    reader: &mut R,
    writer: &mut W,
) -> Result<(), SessionFault>
    // All bytes were read, and what is written answers their lines.
    ensures end { OnOk result (IsAtEnd (R.remaining reader.new)) }
    ensures ok { OnOk result (IfSome (R.remaining reader.old) (λ bytes. (text : List ℕ) × (end : State)
        × IsAnswered (AnswersOrLoses no_memory AnswersLine) (record { index = []; offset = []; length = 0 }) (lines_of bytes) text end
        × Appends (W.contents writer.old) (W.contents writer.new) text)) }
    // What is written answers the ended lines of the bytes that the reader gave.
    ensures read { IsErrOf result SessionFault.Read → (front : List ℕ) × (text : List ℕ) × (end : State)
        × Consumes (R.remaining reader.old) (R.remaining reader.new) front
        × IsAnswered (AnswersOrLoses no_memory AnswersLine) (record { index = []; offset = []; length = 0 }) (ended_lines_of front) text end
        × Appends (W.contents writer.old) (W.contents writer.new) text }
    // There was no memory to begin.
    ensures memory { IsErrOf result SessionFault.Memory → (reader.new ≡ reader.old) × (writer.new ≡ writer.old) }
{
    serve(alloc, &mut Access::new(alloc), reader, writer)
}
