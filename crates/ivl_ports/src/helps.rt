//! What `help` answers.
ghost use Rattle.std.specs.Prelude.{◌≡◌, OnOk, option_map};
ghost use Rattle.std.specs.Io.KnownBytes.{Appends};
ghost use Rattle.ivl_lines.specs.Words.{words_between};
ghost use Rattle.ivl_ports.specs.Helps.{port_help_line, port_help_text as text_of};

use ivl_allocator::{Fault, write_fault, write_help_of};
use ivl_lines::next_word;
use std::io;
use std::io::Write;

/// Answers `help`, given the words after it: the commands, or what one of them does.
pub fn write_help<W: Write>(writer: &mut W, words: &str) -> io::Result<()>
    ensures { OnOk result (Appends (W.contents writer.old) (W.contents writer.new) (port_help_line (words_between words.now))) }
{
    let Some((name, rest)) = next_word(words) else {
        return writer.write_all(b"take, give, free; help COMMAND tells what one does\n");
    };
    match next_word(rest) {
        None => write_help_of(writer, name, help_text(name)),
        Some(_) => write_fault(writer, &Fault::Form("help or help COMMAND")),
    }
}

// What a command does, or `None` if there is no such command.
fn help_text(name: &str) -> Option<&'static str>
    ensures { option_map (λ text. text.now) result ≡ text_of name.now }
{
    match name {
        "take" => Some(
            "take COUNT: takes the lowest so many free ports in a row; take COUNT at PORT: those from this port on; take COUNT above PORT: the lowest above it",
        ),
        "give" => Some("give FIRST LAST: gives ports back, unless one of them is free"),
        "free" => Some("free: how many ports are free, and which"),
        "help" => Some("help: the commands; help COMMAND: what one does"),
        _ => None,
    }
}
