//! The free ports, and what answers the lines of a session.
ghost use Rattle.std.specs.Prelude.{◌≡◌, ◌++◌, ◌∷◌, [], ℕ, ℤ, pos, List, IfSome, IsErrOf, OnOk, codes, decimal};
ghost use Rattle.std.specs.Io.KnownBytes.{Appends, Consumes, IsAtEnd};
ghost use Rattle.ivl_laws.specs.Counts.{IsCountOf};
ghost use Rattle.ivl_laws.specs.Runs.{Covers};
ghost use Rattle.ivl_lines.specs.Answered.{AnswersOrLoses, IsAnswered};
ghost use Rattle.ivl_lines.specs.Commands.{no_memory};
ghost use Rattle.ivl_lines.specs.Lines.{ended_lines_of, lines_of, with_newline};
ghost use Rattle.ivl_lines.specs.Sets.{pairs_text};
ghost use Rattle.ivl_lines.specs.Words.{words_between};
ghost use Rattle.ivl_ports.specs.Answering.{AnswersLine, Shows};

use crate::helps::write_help;
use ivl_allocator::{Fault, all_free, give, is_comment, take, write_fault};
use ivl_lines::{AnswersCommands, SessionFault, next_word, serve};
use ivl_paged::PagedSet;
use std::alloc::Global;
use std::io;
use std::io::{Read, Write};
use std::marker::Model;

/// The lowest port.
const FIRST: u64 = 1024;

/// The highest port. `take` asks for no more ports than this.
const LAST: u64 = 65535;

/// The free ports. A contract sees the list of their runs.
#[derive(Drop)]
pub struct Ports {
    free: PagedSet<u64>,
}

impl Model for Ports {
    ghost Value = { List (ℤ × ℤ) };

    ghost view = { λ p. p.free };
}

impl AnswersCommands for Ports {
    ghost use Rattle.ivl_ports.specs.Answering.{AnswersCommand};

    ghost command_allowed = { AnswersCommand };

    fn command_may_take_long(&self, _: &[u8]) -> bool {
        false
    }

    fn answer_command<W: Write>(
        &mut self,
        name: &str,
        words: &str,
        writer: &mut W,
    ) -> io::Result<()> {
        match name {
            "take" => take(&mut self.free, FIRST, LAST, LAST, words, writer),
            "give" => give(&mut self.free, FIRST, LAST, words, writer),
            "free" => show(&self.free, words, writer),
            "help" => write_help(writer, words),
            _ if is_comment(name) => Ok(()),
            _ => write_fault(writer, &Fault::Command(name)),
        }
    }
}

/// Answers each line of the input; the ports from 1024 to 65535 are free at first. What is written is flushed before
/// each read and at the end.
///
/// # Errors
///
/// `Read` if a read failed, or the reader still returned bytes after 2^64 - 1 reads; an interrupted read is repeated.
/// `Write` if a write or a flush failed. `Memory` if there is no memory to begin: nothing is then read or written. A line
/// that runs out of memory when it is read or carried out is answered with that, and the session continues.
pub fn session<R: Read, W: Write>(
    alloc: Global,
    reader: &mut R,
    writer: &mut W,
) -> Result<(), SessionFault>
    // All bytes were read, and what is written answers their lines.
    ensures end { OnOk result (IsAtEnd (R.remaining reader.new)) }
    ensures ok { OnOk result (IfSome (R.remaining reader.old) (λ bytes. (text : List ℕ) × (end : List (ℤ × ℤ))
        × IsAnswered (AnswersOrLoses no_memory AnswersLine) ((pos 1024, pos 65535) ∷ []) (lines_of bytes) text end
        × Appends (W.contents writer.old) (W.contents writer.new) text)) }
    // What is written answers the ended lines of the bytes that the reader gave.
    ensures read { IsErrOf result SessionFault.Read → (front : List ℕ) × (text : List ℕ) × (end : List (ℤ × ℤ))
        × Consumes (R.remaining reader.old) (R.remaining reader.new) front
        × IsAnswered (AnswersOrLoses no_memory AnswersLine) ((pos 1024, pos 65535) ∷ []) (ended_lines_of front) text end
        × Appends (W.contents writer.old) (W.contents writer.new) text }
    // There was no memory to begin.
    ensures memory { IsErrOf result SessionFault.Memory → (reader.new ≡ reader.old) × (writer.new ≡ writer.old) }
{
    let free = all_free(alloc, FIRST, LAST)?;
    serve(alloc, &mut Ports { free }, reader, writer)
}

/// Answers `free`, given the words after it: how many ports are free, and their runs.
fn show<W: Write>(free: &PagedSet<u64>, words: &str, writer: &mut W) -> io::Result<()>
    ensures { OnOk result ((text : List ℕ)
        × Shows (words_between words.now) free.now text free.now
        × Appends (W.contents writer.old) (W.contents writer.new) text) }
{
    match next_word(words) {
        Some(_) => write_fault(writer, &Fault::Form("free")),
        None => write_free(writer, free),
    }
}

/// Writes how many ports are free, and their runs.
fn write_free<W: Write>(writer: &mut W, free: &PagedSet<u64>) -> io::Result<()>
    ensures { OnOk result ((size : ℕ) × IsCountOf size (Covers free.now)
        × Appends (W.contents writer.old) (W.contents writer.new) (decimal size ++ (codes " free: " ++ with_newline (pairs_text free.now)))) }
{
    free.in_whole();
    writeln!(writer, "{} free: {free}", free.size())
}
