//! The free blocks of a disk, and what answers the lines of a session.
ghost use Rattle.std.specs.Prelude.{◌≡◌, ◌≤ℤ◌, ◌++◌, ◌∷◌, [], ℕ, ℤ, pos, List, IfSome, IsErrOf, MatchOption, OnOk, codes, decimal, length};
ghost use Rattle.std.specs.Io.KnownBytes.{Appends, Consumes, IsAtEnd};
ghost use Rattle.ivl_laws.specs.Counts.{IsCountOf};
ghost use Rattle.ivl_laws.specs.Runs.{Covers};
ghost use Rattle.ivl_lines.specs.Answered.{AnswersOrLoses, IsAnswered};
ghost use Rattle.ivl_lines.specs.Commands.{no_memory};
ghost use Rattle.ivl_lines.specs.Lines.{ended_lines_of, lines_of, with_newline};
ghost use Rattle.ivl_lines.specs.Words.{words_between};
ghost use Rattle.ivl_blocks.specs.Answering.{AnswersLine, IsLongestRun, ShowsFree, ShowsLongest, run_word};

use crate::helps::write_help;
use intervallum::interval::Interval;
use ivl_allocator::{Fault, all_free, give, is_comment, take, write_fault, write_run};
use ivl_lines::{AnswersCommands, SessionFault, next_word, serve};
use ivl_paged::PagedSet;
use std::alloc::Global;
use std::io;
use std::io::{Read, Write};
use std::marker::Model;

/// The greatest number of a block; the least is 0.
const LAST: u64 = 1_099_511_627_775;

/// How many blocks there are: 2^40.
const COUNT: u64 = LAST + 1;

/// The free blocks. A contract sees the list of their runs.
#[derive(Drop)]
pub struct Blocks {
    free: PagedSet<u64>,
}

impl Model for Blocks {
    ghost Value = { List (ℤ × ℤ) };

    ghost view = { λ p. p.free };
}

impl AnswersCommands for Blocks {
    ghost use Rattle.ivl_blocks.specs.Answering.{AnswersCommand};

    ghost command_allowed = { AnswersCommand };

    fn command_may_take_long(&self, _: &[u8]) -> bool {
        false
    }

    fn answer_command<W: Write>(
        &mut self,
        name: &str,
        words: &str,
        writer: &mut W,
    ) -> io::Result<()> {
        match name {
            "take" => take(&mut self.free, 0, LAST, COUNT, words, writer),
            "give" => give(&mut self.free, 0, LAST, words, writer),
            "free" => show(&self.free, words, writer),
            "largest" => show_longest(&self.free, words, writer),
            "help" => write_help(writer, words),
            _ if is_comment(name) => Ok(()),
            _ => write_fault(writer, &Fault::Command(name)),
        }
    }
}

/// Answers each line of the input; all 2^40 blocks are free at first. What is written is flushed before
/// each read and at the end.
///
/// # Errors
///
/// `Read` if a read failed, or the reader still returned bytes after 2^64 - 1 reads; an interrupted read is repeated.
/// `Write` if a write or a flush failed. `Memory` if there is no memory to begin: nothing is then read or written. A line
/// that runs out of memory when it is read or carried out is answered with that, and the session continues.
pub fn session<R: Read, W: Write>(
    alloc: Global,
    reader: &mut R,
    writer: &mut W,
) -> Result<(), SessionFault>
    // All bytes were read, and what is written answers their lines.
    ensures end { OnOk result (IsAtEnd (R.remaining reader.new)) }
    ensures ok { OnOk result (IfSome (R.remaining reader.old) (λ bytes. (text : List ℕ) × (end : List (ℤ × ℤ))
        × IsAnswered (AnswersOrLoses no_memory AnswersLine) ((pos 0, pos 1099511627775) ∷ []) (lines_of bytes) text end
        × Appends (W.contents writer.old) (W.contents writer.new) text)) }
    // What is written answers the ended lines of the bytes that the reader gave.
    ensures read { IsErrOf result SessionFault.Read → (front : List ℕ) × (text : List ℕ) × (end : List (ℤ × ℤ))
        × Consumes (R.remaining reader.old) (R.remaining reader.new) front
        × IsAnswered (AnswersOrLoses no_memory AnswersLine) ((pos 0, pos 1099511627775) ∷ []) (ended_lines_of front) text end
        × Appends (W.contents writer.old) (W.contents writer.new) text }
    // There was no memory to begin.
    ensures memory { IsErrOf result SessionFault.Memory → (reader.new ≡ reader.old) × (writer.new ≡ writer.old) }
{
    let free = all_free(alloc, 0, LAST)?;
    serve(alloc, &mut Blocks { free }, reader, writer)
}

/// Answers `free`, given the words after it: how many blocks are free, and in how many runs.
fn show<W: Write>(free: &PagedSet<u64>, words: &str, writer: &mut W) -> io::Result<()>
    ensures { OnOk result ((text : List ℕ)
        × ShowsFree (words_between words.now) free.now text free.now
        × Appends (W.contents writer.old) (W.contents writer.new) text) }
{
    match next_word(words) {
        Some(_) => write_fault(writer, &Fault::Form("free")),
        None => write_free(writer, free),
    }
}

/// Writes how many blocks are free, and in how many runs.
fn write_free<W: Write>(writer: &mut W, free: &PagedSet<u64>) -> io::Result<()>
    ensures { OnOk result ((size : ℕ) × IsCountOf size (Covers free.now)
        × Appends (W.contents writer.old) (W.contents writer.new) (decimal size ++ (codes " free in " ++ (decimal (length free.now) ++ (codes " " ++ with_newline (run_word (length free.now))))))) }
{
    let (size, runs) = (free.size(), free.interval_count());
    let word = word_for(runs);
    writeln!(writer, "{size} free in {runs} {word}")
}

fn word_for(runs: usize) -> &'static str
    ensures { result.now ≡ run_word runs }
{
    if runs == 1 { "run" } else { "runs" }
}

/// Answers `largest`, given the words after it: the lowest of the longest runs, or `none`.
fn show_longest<W: Write>(free: &PagedSet<u64>, words: &str, writer: &mut W) -> io::Result<()>
    ensures { OnOk result ((text : List ℕ)
        × ShowsLongest (words_between words.now) free.now text free.now
        × Appends (W.contents writer.old) (W.contents writer.new) text) }
{
    if next_word(words).is_some() {
        return write_fault(writer, &Fault::Form("largest"));
    }
    match longest(free) {
        Some(run) => write_run(writer, &run),
        None => writer.write_all(b"none\n"),
    }
}

/// Returns the lowest of the longest runs, or `None` if there is none. `O(n / page)` for `n` runs.
fn longest(free: &PagedSet<u64>) -> Option<Interval<u64>>
    ensures run { MatchOption result (free.now ≡ []) (IsLongestRun free.now) }
    ensures filled { IfSome result (λ run. run.0 ≤ℤ run.1) }
{
    free.in_whole();
    free.longest_run()
}
