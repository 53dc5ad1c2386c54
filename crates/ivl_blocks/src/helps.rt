//! What `help` answers.
ghost use Rattle.std.specs.Prelude.{◌≡◌, OnOk, option_map};
ghost use Rattle.std.specs.Io.KnownBytes.{Appends};
ghost use Rattle.ivl_lines.specs.Words.{words_between};
ghost use Rattle.ivl_blocks.specs.Helps.{block_help_line, block_help_text as text_of};

use ivl_allocator::{Fault, write_fault, write_help_of};
use ivl_lines::next_word;
use std::io;
use std::io::Write;

/// Answers `help`, given the words after it: the commands, or what one of them does.
pub fn write_help<W: Write>(writer: &mut W, words: &str) -> io::Result<()>
    ensures { OnOk result (Appends (W.contents writer.old) (W.contents writer.new) (block_help_line (words_between words.now))) }
{
    let Some((name, rest)) = next_word(words) else {
        return writer.write_all(b"take, give, free, largest; help COMMAND tells what one does\n");
    };
    match next_word(rest) {
        None => write_help_of(writer, name, help_text(name)),
        Some(_) => write_fault(writer, &Fault::Form("help or help COMMAND")),
    }
}

// What a command does, or `None` if there is no such command.
fn help_text(name: &str) -> Option<&'static str>
    ensures { option_map (λ text. text.now) result ≡ text_of name.now }
{
    match name {
        "take" => Some(
            "take COUNT: takes the lowest so many free blocks in a row; take COUNT at BLOCK: those from this block on; take COUNT above BLOCK: the lowest above it",
        ),
        "give" => Some("give FIRST LAST: gives blocks back, unless one of them is free"),
        "free" => Some("free: how many blocks are free, and in how many runs"),
        "largest" => Some("largest: the lowest of the longest runs of free blocks"),
        "help" => Some("help: the commands; help COMMAND: what one does"),
        _ => None,
    }
}
