//! Lines that are answered by their first word and the words after it.
ghost use Rattle.std.specs.Prelude.{ℕ, List, OnOk};
ghost use Rattle.std.specs.Io.KnownBytes.{Appends};
ghost use Rattle.std.specs.Str.{is_utf8};
ghost use Rattle.ivl_lines.specs.Commands.{AnswersDecoded, AnswersSplit};
ghost use Rattle.ivl_lines.specs.Words.{words_between};

use crate::session::Answers;
use crate::text::{first_word, line_text};
use crate::words::next_word;
use std::io;
use std::io::Write;

/// What answers commands, and keeps the state between them. It answers the lines of a session too: a
/// line without words has no answer, one that is not UTF-8 is answered `error: not UTF-8`, and one
/// that is lost `error: out of memory`.
pub trait AnswersCommands {
    /// From this state, this command with these words after it may be answered with this text, and
    /// leave that state.
    ghost command_allowed: { Self → List ℕ → List (List ℕ) → List ℕ → Self → Type 0 };

    /// Returns whether the answer to the command of this name may take long, so that what was answered
    /// before it is flushed first. A line without words has the empty name; one that is not UTF-8 has
    /// its first word all the same.
    fn command_may_take_long(&self, name: &[u8]) -> bool;

    /// Answers a command, given its name and the text after it.
    ///
    /// # Errors
    ///
    /// Fails only if a write failed, which ends the session.
    fn answer_command<W: Write>(
        &mut self,
        name: &str,
        words: &str,
        writer: &mut W,
    ) -> io::Result<()>
        // On success, a text that may answer the command is written behind the others, and the state is as it may then
        // be.
        ensures { OnOk result ((text : List ℕ)
            × command_allowed self.old name.now (words_between words.now) text self.new
            × Appends (W.contents writer.old) (W.contents writer.new) text) };
}

impl<A: AnswersCommands> Answers for A {
    ghost use Rattle.ivl_lines.specs.Commands.{AnswersByCommand, no_memory};

    ghost allowed = { AnswersByCommand A.command_allowed };

    ghost lost = { no_memory };

    fn may_take_long(&self, line: &[u8]) -> bool {
        self.command_may_take_long(first_word(line))
    }

    fn answer<W: Write>(&mut self, line: &[u8], writer: &mut W) -> io::Result<()> {
        answer_line(self, line, writer)
    }

    fn answer_to_lost(&self) -> &'static [u8] {
        b"error: out of memory\n"
    }
}

fn answer_line<A: AnswersCommands, W: Write>(
    answers: &mut A,
    line: &[u8],
    writer: &mut W,
) -> io::Result<()>
    ensures { OnOk result ((text : List ℕ)
        × AnswersDecoded A.command_allowed answers.old line.now (is_utf8 line.now) text answers.new
        × Appends (W.contents writer.old) (W.contents writer.new) text) }
{
    match line_text(line) {
        Some(text) => answer_text(answers, text, writer),
        None => writer.write_all(b"error: not UTF-8\n"),
    }
}

fn answer_text<A: AnswersCommands, W: Write>(
    answers: &mut A,
    text: &str,
    writer: &mut W,
) -> io::Result<()>
    ensures { OnOk result ((answer : List ℕ)
        × AnswersSplit A.command_allowed answers.old (words_between text.now) answer answers.new
        × Appends (W.contents writer.old) (W.contents writer.new) answer) }
{
    match next_word(text) {
        Some((name, words)) => answers.answer_command(name, words, writer),
        None => Ok(()),
    }
}
