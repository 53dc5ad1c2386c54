//! A session: reads lines, has each answered, and writes the answers.
ghost use Rattle.std.specs.Prelude.{◌≡◌, ℕ, List, [], ◌++◌, OnOk, Some, IfSome, IfNone, IfErr, IsErrOf};
ghost use Rattle.std.specs.Io.KnownBytes.{Appends, Consumes, Keeps, IsAtEnd};
ghost use Rattle.ivl_lines.specs.Lines.{lines_of, ended_lines_of};
ghost use Rattle.ivl_lines.specs.Answered.{AnswersOrLoses, IsAnswered};
ghost use Rattle.ivl_lines.specs.Cut.{HasNoNewline, IsBegun, IsSplitAtNewline, Progress};

use crate::begun_line::BegunLine;
use std::alloc::{AllocError, Global};
use std::io;
use std::io::{ErrorKind, Read, Write};
use thiserror::Error;

/// Why a session ended before its input did.
#[derive(Clone, Copy, Debug, PartialEq, Eq, Error)]
pub enum SessionFault {
    /// A read failed.
    #[error("read failed")]
    Read,
    /// A write or a flush failed.
    #[error("write failed")]
    Write,
    /// An allocation failed.
    #[error("out of memory")]
    Memory,
}

impl From<AllocError> for SessionFault {
    ghost use Rattle.ivl_lines.specs.declared.session.SessionFault.TheVariants.{Memory};

    ghost from_gives = { λ _ fault. fault ≡ Memory };

    fn from(_: AllocError) -> SessionFault {
        SessionFault::Memory
    }
}

/// What answers the lines of a session, and keeps the state between them.
pub trait Answers {
    /// From this state, this line may be answered with this text, and leave that state.
    ghost allowed: { Self → List ℕ → List ℕ → Self → Type 0 };

    /// The answer to a line that is lost.
    ghost lost: { List ℕ };

    /// Returns whether the answer to a line may take long, so that what was answered before it is
    /// flushed first.
    fn may_take_long(&self, line: &[u8]) -> bool;

    /// Answers a line, which is given without its newline.
    ///
    /// # Errors
    ///
    /// Fails only if a write failed, which ends the session.
    fn answer<W: Write>(&mut self, line: &[u8], writer: &mut W) -> io::Result<()>
        // On success, a text that may answer the line is written behind the others, and the state is as it may then be.
        ensures { OnOk result ((text : List ℕ)
            × allowed self.old line.now text self.new
            × Appends (W.contents writer.old) (W.contents writer.new) text) };

    /// Returns the answer to a line that is lost: there was no memory for its bytes. Does not
    /// allocate.
    fn answer_to_lost(&self) -> &'static [u8]
        // The result is the answer to a line whose bytes are lost.
        ensures { result.now ≡ lost };
}

// The most bytes that one read may return.
const PIECE: usize = 65536;

/// Has each line of the input answered. What is written is flushed before each read, before each
/// line that may take long, and at the end. Linear in the bytes that are read, beside the answers.
///
/// A line is what stands between newlines; what follows the last newline is a line too. It is kept
/// only if it does not end in the piece that it begins in. A line for whose bytes there is no memory
/// is lost: it has more than 65,536 bytes, is answered with `answer_to_lost` at its end, and changes
/// nothing.
///
/// # Errors
///
/// `Read` if a read failed, or the reader still returned bytes after 2^64 - 1 reads; an interrupted
/// read is repeated. `Write` if a write or a flush failed. `Memory` if there is no memory for the
/// first 65,536 bytes of a line, before anything is read or written.
pub fn serve<A: Answers, R: Read, W: Write>(
    alloc: Global,
    answers: &mut A,
    reader: &mut R,
    writer: &mut W,
) -> Result<(), SessionFault>
    // On success all bytes were read, and what is written answers their lines.
    ensures end { OnOk result (IsAtEnd (R.remaining reader.new)) }
    ensures ok { OnOk result (IfSome (R.remaining reader.old) (λ bytes. (text : List ℕ)
        × IsAnswered (AnswersOrLoses A.lost A.allowed) answers.old (lines_of bytes) text answers.new
        × Appends (W.contents writer.old) (W.contents writer.new) text)) }
    // After a failed read what is written answers the ended lines of the bytes that the reader gave; after `Memory`
    // nothing was read or written.
    ensures read { IsErrOf result SessionFault.Read → (front : List ℕ) × (text : List ℕ)
        × Consumes (R.remaining reader.old) (R.remaining reader.new) front
        × IsAnswered (AnswersOrLoses A.lost A.allowed) answers.old (ended_lines_of front) text answers.new
        × Appends (W.contents writer.old) (W.contents writer.new) text }
    ensures memory { IsErrOf result SessionFault.Memory → (reader.new ≡ reader.old) × (writer.new ≡ writer.old) }
{
    let mut line = BegunLine::new(alloc)?;
    let mut piece = [0u8; PIECE];
    'reads: for _ in 0..u64::MAX {
        flush(writer)?;
        match reader.read(&mut piece) {
            Ok(0) => return finish(answers, &line, writer),
            Ok(count) => answer_piece(answers, &mut line, &piece[..count], writer)?,
            Err(error) => {
                if error.kind() != ErrorKind::Interrupted {
                    return Err(SessionFault::Read);
                }
            }
        }
    }
    Err(SessionFault::Read)
}

fn flush<W: Write>(writer: &mut W) -> Result<(), SessionFault>
    ensures kept { Keeps (W.contents writer.old) (W.contents writer.new) }
    ensures only_write { IfErr result (λ fault. fault ≡ SessionFault.Write) }
{
    if writer.flush().is_err() {
        return Err(SessionFault::Write);
    }
    Ok(())
}

// Answers the last line, which no newline ended.
fn finish<A: Answers, W: Write>(
    answers: &mut A,
    last: &BegunLine,
    writer: &mut W,
) -> Result<(), SessionFault>
    ensures ok { OnOk result ((line : List ℕ) → IsBegun line last.now → (text : List ℕ)
        × AnswersOrLoses A.lost A.allowed answers.old line text answers.new
        × Appends (W.contents writer.old) (W.contents writer.new) text) }
    ensures only_write { IfErr result (λ fault. fault ≡ SessionFault.Write) }
{
    answer_begun(answers, last, writer)?;
    flush(writer)
}

// Answers the lines that a newline of the piece ends, and keeps what comes after the last newline.
fn answer_piece<A: Answers, W: Write>(
    answers: &mut A,
    begun: &mut BegunLine,
    piece: &[u8],
    writer: &mut W,
) -> Result<(), SessionFault>
    ensures ok { OnOk result ((line : List ℕ) → IsBegun line begun.old → HasNoNewline line → (rest : List ℕ) × IsBegun rest begun.new
        × Progress (AnswersOrLoses A.lost A.allowed) (line ++ piece.now) rest answers.old answers.new (Appends (W.contents writer.old) (W.contents writer.new))) }
    ensures only_write { IfErr result (λ fault. fault ≡ SessionFault.Write) }
{
    let mut rest = piece;
    while let Some((bytes, after)) = split_line(rest) {
        answer_ended(answers, begun, bytes, writer)?;
        rest = after;
    }
    begun.extend(rest);
    Ok(())
}

// The bytes before the first newline and those after it, or `None` if there is no newline.
fn split_line(bytes: &[u8]) -> Option<(&[u8], &[u8])>
    ensures none { IfNone result (HasNoNewline bytes.now) }
    ensures some { IfSome result (λ parts. IsSplitAtNewline bytes.now parts.0.now parts.1.now) }
{
    let at = bytes.iter().position(|byte| *byte == b'\n')?;
    Some((&bytes[..at], &bytes[at + 1..]))
}

// Answers the line that has begun in earlier pieces and ends with these bytes, and begins the next.
fn answer_ended<A: Answers, W: Write>(
    answers: &mut A,
    begun: &mut BegunLine,
    bytes: &[u8],
    writer: &mut W,
) -> Result<(), SessionFault>
    ensures ok { OnOk result ((line : List ℕ) → IsBegun line begun.old → (text : List ℕ)
        × AnswersOrLoses A.lost A.allowed answers.old (line ++ bytes.now) text answers.new
        × Appends (W.contents writer.old) (W.contents writer.new) text) }
    ensures emptied { OnOk result (begun.new ≡ Some []) }
    ensures only_write { IfErr result (λ fault. fault ≡ SessionFault.Write) }
{
    if begun.is_empty() {
        return answer_seen(answers, bytes, writer);
    }
    begun.extend(bytes);
    answer_begun(answers, begun, writer)?;
    begun.clear();
    Ok(())
}

// Answers a line, or says that it is lost.
fn answer_begun<A: Answers, W: Write>(
    answers: &mut A,
    begun: &BegunLine,
    writer: &mut W,
) -> Result<(), SessionFault>
    ensures ok { OnOk result ((line : List ℕ) → IsBegun line begun.now → (text : List ℕ)
        × AnswersOrLoses A.lost A.allowed answers.old line text answers.new
        × Appends (W.contents writer.old) (W.contents writer.new) text) }
    ensures only_write { IfErr result (λ fault. fault ≡ SessionFault.Write) }
{
    match begun.bytes() {
        Some(line) => answer_seen(answers, line, writer),
        None => match writer.write_all(answers.answer_to_lost()) {
            Ok(()) => Ok(()),
            Err(_) => Err(SessionFault::Write),
        },
    }
}

// Answers a line. What was answered before is seen while a line that may take long is answered.
fn answer_seen<A: Answers, W: Write>(
    answers: &mut A,
    line: &[u8],
    writer: &mut W,
) -> Result<(), SessionFault>
    ensures ok { OnOk result ((text : List ℕ)
        × A.allowed answers.old line.now text answers.new
        × Appends (W.contents writer.old) (W.contents writer.new) text) }
    ensures only_write { IfErr result (λ fault. fault ≡ SessionFault.Write) }
{
    if answers.may_take_long(line) {
        flush(writer)?;
    }
    match answers.answer(line, writer) {
        Ok(()) => Ok(()),
        Err(_) => Err(SessionFault::Write),
    }
}
