//! What `help` answers, and an unknown command.
ghost use Rattle.std.specs.Prelude.{◌≡◌, ◌==◌, OnOk, option_map, slice_index};
ghost use Rattle.std.specs.Io.KnownBytes.{Appends};
ghost use Rattle.ivl_lines.specs.Words.{words_between};
ghost use Rattle.ivl_ranges.specs.Helps.{range_help_line, range_help_text as text_of, told_range_help, unknown_range_command};

use ivl_lines::{Escaped, next_word};
use std::io;
use std::io::Write;

/// Returns whether the first word of a line begins a comment: with `#`, which is 35.
pub fn is_comment(name: &str) -> bool
    ensures { result ≡ (slice_index name.now 0 == 35) }
{
    name.starts_with('#')
}

/// Writes that there is no such command. Its control characters are printed escaped.
pub fn write_unknown<W: Write>(writer: &mut W, name: &str) -> io::Result<()>
    ensures { OnOk result (Appends (W.contents writer.old) (W.contents writer.new) (unknown_range_command name.now)) }
{
    writeln!(
        writer,
        "error: unknown command {}; help lists the commands",
        Escaped(name)
    )
}

/// Answers `help`, given the words after it: the commands, or what one of them does.
pub fn write_help<W: Write>(writer: &mut W, words: &str) -> io::Result<()>
    ensures { OnOk result (Appends (W.contents writer.old) (W.contents writer.new) (range_help_line (words_between words.now))) }
{
    let Some((name, rest)) = next_word(words) else {
        return writer.write_all(b"i, k, length, check; help COMMAND tells what one does\n");
    };
    match next_word(rest) {
        None => write_help_of(writer, name),
        Some(_) => writer.write_all(b"error: write help or help COMMAND\n"),
    }
}

fn write_help_of<W: Write>(writer: &mut W, name: &str) -> io::Result<()>
    ensures { OnOk result (Appends (W.contents writer.old) (W.contents writer.new) (told_range_help name.now (text_of name.now))) }
{
    match help_text(name) {
        Some(text) => writeln!(writer, "{text}"),
        None => write_unknown(writer, name),
    }
}

// What a command does, or `None` if there is no such command.
fn help_text(name: &str) -> Option<&'static str>
    ensures { option_map (λ text. text.now) result ≡ text_of name.now }
{
    match name {
        "i" => {
            Some("i RANGES: the values that i may have, such as i -1..1 5..5, the lower end first")
        }
        "k" => {
            Some("k RANGES: the values that k may have, such as k -1..1 5..5, the lower end first")
        }
        "length" => Some("length NUMBER: the length of the array"),
        "check" => Some("check: safe, or the values of i that are safe for every k"),
        "help" => Some("help: the commands; help COMMAND: what one does"),
        _ => None,
    }
}
