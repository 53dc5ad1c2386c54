//! Why a line is not carried out.
ghost use Rattle.std.specs.Prelude.{OnOk, option_map};
ghost use Rattle.std.specs.Io.KnownBytes.{Appends};
ghost use Rattle.ivl_allocator.specs.Faults.{told_fault, told_of_command};

use ivl_lines::Escaped;
use std::io;
use std::io::Write;

/// Why a line is not carried out. The texts are words of the line, except that of `Form`.
#[derive(Drop)]
pub enum Fault<'a> {
    /// The first word is not a command.
    Command(&'a str),
    /// The words do not have the form of their command, which is this.
    Form(&'static str),
    /// The word is not a number.
    Number(&'a str),
    /// The number is below this one.
    Below(&'a str, u64),
    /// The number is above this one.
    Above(&'a str, u64),
}

/// Writes why a line was not carried out. Words of the line are printed with their control characters
/// escaped.
pub fn write_fault<W: Write>(writer: &mut W, fault: &Fault<'_>) -> io::Result<()>
    ensures { OnOk result (Appends (W.contents writer.old) (W.contents writer.new) (told_fault fault.now)) }
{
    match fault {
        Fault::Command(word) => writeln!(
            writer,
            "error: unknown command {}; help lists the commands",
            Escaped(word)
        ),
        Fault::Form(form) => writeln!(writer, "error: write {form}"),
        Fault::Number(word) => writeln!(writer, "error: {} is no number", Escaped(word)),
        Fault::Below(word, least) => {
            writeln!(writer, "error: {} is below {least}", Escaped(word))
        }
        Fault::Above(word, most) => { writeln!(writer, "error: {} is above {most}", Escaped(word)) }
    }
}

/// Writes what the command of this name does, or that there is no such command.
pub fn write_help_of<W: Write>(writer: &mut W, name: &str, text: Option<&str>) -> io::Result<()>
    ensures { OnOk result (Appends (W.contents writer.old) (W.contents writer.new) (told_of_command name.now (option_map (λ it. it.now) text.entry))) }
{
    match text {
        Some(text) => writeln!(writer, "{text}"),
        None => write_fault(writer, &Fault::Command(name)),
    }
}
