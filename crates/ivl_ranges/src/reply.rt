//! The answer to a line.
ghost use Rattle.std.specs.Prelude.{◌≡◌, OnOk};
ghost use Rattle.std.specs.Io.KnownBytes.{Appends};
ghost use Rattle.ivl_ranges.specs.Answering.{told_command_line};
ghost use Rattle.ivl_ranges.specs.Printed.{fault_text as text_of, reply_line};

use crate::helps::write_unknown;
use intervallum::interval_set::IntervalSet;
use intervallum::ops::IsEmpty;
use std::alloc::AllocError;
use std::io;
use std::io::Write;

/// The answer to a line that is carried out.
#[derive(Drop)]
pub enum Reply {
    /// What the line gives is kept.
    Done,
    /// Every `i + k` is an index.
    Safe,
    /// Some `i + k` is not an index. These are the values of `i` that are safe for every `k`.
    SafeFor(IntervalSet<i64>),
}

/// Why a line is not carried out.
#[derive(Clone, Copy)]
pub enum Fault {
    /// The first word is not a command.
    Command,
    /// A word after `i` or `k` is not a range, or there is none.
    Ranges,
    /// The words after `length` are not one length.
    Length,
    /// Words stand after `check`.
    Check,
    /// `i` has no range.
    NoIndex,
    /// `k` has no range.
    NoOffset,
    /// An allocation failed.
    Memory,
}

impl From<AllocError> for Fault {
    ghost use Rattle.std.specs.Prelude.{◌≡◌};
    ghost use Rattle.ivl_ranges.specs.declared.reply.Fault.TheVariants.{Memory};

    ghost from_gives = { λ _ fault. fault ≡ Memory };

    fn from(_: AllocError) -> Fault {
        Fault::Memory
    }
}

/// Writes the answer to a line, given its first word.
pub fn write_told<W: Write>(
    writer: &mut W,
    name: &str,
    told: &Result<Reply, Fault>,
) -> io::Result<()>
    ensures { OnOk result (Appends (W.contents writer.old) (W.contents writer.new) (told_command_line name.now told.now)) }
{
    match told {
        Err(Fault::Command) => write_unknown(writer, name),
        Ok(Reply::Done) => writer.write_all(b"ok\n"),
        Ok(Reply::Safe) => writer.write_all(b"safe\n"),
        Ok(Reply::SafeFor(safe)) => write_safe_for(writer, safe),
        Err(fault) => write_fault(writer, *fault),
    }
}

fn write_safe_for<W: Write>(writer: &mut W, safe: &IntervalSet<i64>) -> io::Result<()>
    ensures { OnOk result (Appends (W.contents writer.old) (W.contents writer.new)
        (reply_line (Ok (Reply.SafeFor safe.now)))) }
{
    if safe.is_empty() {
        return writer.write_all(b"safe for no i\n");
    }
    safe.in_whole();
    writeln!(writer, "safe for i in {safe} alone")
}

fn write_fault<W: Write>(writer: &mut W, fault: Fault) -> io::Result<()>
    ensures { OnOk result (Appends (W.contents writer.old) (W.contents writer.new) (reply_line (Err fault))) }
{
    writeln!(writer, "error: {}", fault_text(fault))
}

fn fault_text(fault: Fault) -> &'static str
    ensures { result.now ≡ text_of fault }
{
    match fault {
        Fault::Command => "unknown command",
        Fault::Ranges => "write ranges such as -1..1 5..5, with the lower end first",
        Fault::Length => "write length NUMBER, from 0 to 4294967295",
        Fault::Check => "write check",
        Fault::NoIndex => "i has no range",
        Fault::NoOffset => "k has no range",
        Fault::Memory => "out of memory",
    }
}
