//! A program that answers the lines of its standard input: its arguments, and how it ends.
ghost use Rattle.std.specs.Prelude.{◌≡◌};
ghost use Rattle.ivl_lines.specs.Outcome.{outcome_of};

use crate::VERSION;
use crate::arguments::{Start, start_of};
use crate::session::SessionFault;
use std::io::{BufWriter, ErrorKind, Read, Write};
use std::process::ExitCode;
use std::{env, io};

/// A program that answers lines.
pub trait Program {
    /// Its name, which stands before what it says of a fault.
    const NAME: &'static str;

    /// Answers each line of an input, as `serve` does.
    fn session<R: Read, W: Write>(
        rt: &HostRuntime,
        reader: &mut R,
        writer: &mut W,
    ) -> Result<(), SessionFault>;
}

/// Does what the arguments ask for, and returns the exit status. `--help` prints this help, and
/// `--version` the version. Without an argument the lines of standard input are answered. Anything
/// else, also what is not UTF-8, is answered with the help on standard error, and status 2.
///
/// A fault ends the program with a line on standard error, and status 1.
pub fn run<P: Program>(rt: &HostRuntime, help: &str) -> ExitCode {
    match asked(rt) {
        Ok(Start::Lines) => answer_lines::<P>(rt),
        Ok(Start::Help) => ended::<P>(rt, printed(print!(rt; "{help}"))),
        Ok(Start::Version) => ended::<P>(rt, printed(println!(rt; "{} {VERSION}", P::NAME))),
        Ok(Start::Other) => {
            let _ = eprint!(rt; "{help}");
            ExitCode::from(2)
        }
        Err(fault) => ended::<P>(rt, Err(fault)),
    }
}

// Answers the lines of standard input, and returns the exit status.
fn answer_lines<P: Program>(rt: &HostRuntime) -> ExitCode {
    let answered = match BufWriter::new(rt.alloc(), rt.stdout()) {
        Ok(mut writer) => P::session(rt, &mut rt.stdin(), &mut writer),
        Err(_) => Err(SessionFault::Memory),
    };
    ended::<P>(rt, answered)
}

// What the arguments ask for. The first of them is the name by which the program was called.
fn asked(rt: &HostRuntime) -> Result<Start, SessionFault> {
    match env::args(rt) {
        Ok(mut words) => {
            let (_, first) = (words.next(), words.next());
            Ok(start_of(first.as_deref(), words.next().is_some()))
        }
        Err(error) => match error.kind() {
            ErrorKind::OutOfMemory => Err(SessionFault::Memory),
            _ => Ok(Start::Other),
        },
    }
}

fn printed(print: io::Result<()>) -> Result<(), SessionFault> {
    match print {
        Ok(()) => Ok(()),
        Err(_) => Err(SessionFault::Write),
    }
}

// Tells a fault, and returns the exit status.
fn ended<P: Program>(rt: &HostRuntime, how: Result<(), SessionFault>) -> ExitCode {
    let (status, fault) = outcome(&how);
    if !fault.is_empty() {
        let _ = eprintln!(rt; "{}: {fault}", P::NAME);
    }
    ExitCode::from(status)
}

/// Returns the exit status of a program whose session ended so, and what it says of the fault.
///
/// ```
/// assert_eq!(rt; outcome(&Ok(())), (0, ""));
/// assert_eq!(rt; outcome(&Err(SessionFault::Read)), (1, "read failed"));
/// ```
pub fn outcome(ended: &Result<(), SessionFault>) -> (u8, &'static str)
    // The result is the status of the program, and what it says of a fault, or nothing.
    ensures { (result.0, result.1.now) ≡ outcome_of ended.now }
{
    match ended {
        Ok(()) => (0, ""),
        Err(SessionFault::Read) => (1, "read failed"),
        Err(SessionFault::Write) => (1, "write failed"),
        Err(SessionFault::Memory) => (1, "out of memory"),
    }
}
