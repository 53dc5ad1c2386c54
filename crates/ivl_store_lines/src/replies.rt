//! The text of an answer.
ghost use Rattle.std.specs.Prelude.{◌≡◌, ◌++◌, ◌<◌, ℕ, List, [], IfNone, IfSome, OnOk, Some, length, map, string_bytes};
ghost use Rattle.std.specs.Io.KnownBytes.{Appends};
ghost use Rattle.ivl_lines.specs.Lines.{with_newline};
ghost use Rattle.ivl_store_lines.specs.Answering.{AnswersAsked};
ghost use Rattle.ivl_store_lines.specs.Faults.{told_of};
ghost use Rattle.ivl_store_lines.specs.Printed.{domain_line, domain_lines, progress_text, state_line, told_line};
ghost use Rattle.ivl_store_lines.specs.Requests.{show};

mod points;

use crate::fault::Fault;
use crate::progress::Progress;
use crate::solver::Solver;
use intervallum::interval_set::IntervalSet;
use ivl_lines::Escaped;
pub use points::{write_best, write_count, write_solutions};
use std::io;
use std::io::Write;

/// Writes `no solution` if a domain is empty, and else how far the domains are narrowed: `ok` if no
/// rule narrows them any further.
pub fn write_state<W: Write>(writer: &mut W, solver: &Solver) -> io::Result<()>
    ensures { OnOk result (Appends (W.contents writer.old) (W.contents writer.new) (state_line solver.now.domains solver.now.progress)) }
{
    if solver.has_empty() {
        writer.write_all(b"no solution\n")
    } else {
        write_progress(writer, solver.progress())
    }
}

fn write_progress<W: Write>(writer: &mut W, progress: Progress) -> io::Result<()>
    ensures { OnOk result (Appends (W.contents writer.old) (W.contents writer.new) (with_newline (progress_text progress))) }
{
    match progress {
        Progress::Complete => writer.write_all(b"ok\n"),
        Progress::Budget => writer.write_all(b"unfinished\n"),
    }
}

/// Writes the domain of each variable, one per line, and then what `write_state` writes.
pub fn write_shown<W: Write>(writer: &mut W, solver: &Solver) -> io::Result<()>
    ensures { OnOk result (Appends (W.contents writer.old) (W.contents writer.new)
        (domain_lines solver.now.names solver.now.domains ++ state_line solver.now.domains solver.now.progress)) }
{
    write_domains(writer, solver.names(), solver.domains())?;
    write_state(writer, solver)
}

fn write_domains<W: Write>(
    writer: &mut W,
    names: &[String],
    domains: &[IntervalSet<i64>],
) -> io::Result<()>
    ensures { OnOk result (Appends (W.contents writer.old) (W.contents writer.new)
        (domain_lines (map string_bytes names.now) domains.now)) }
{
    let (mut names, mut domains) = (names, domains);
    while let Some((name, domain, other_names, other_domains)) = first_variable(names, domains) {
        write_domain(writer, name, domain)?;
        names = other_names;
        domains = other_domains;
    }
    Ok(())
}

/// The name and the domain of the first variable, and those of the others.
fn first_variable<'a>(
    names: &'a [String],
    domains: &'a [IntervalSet<i64>],
) -> Option<
    (
        &'a str,
        &'a IntervalSet<i64>,
        &'a [String],
        &'a [IntervalSet<i64>],
    ),
>
    ensures none { IfNone result (domain_lines (map string_bytes names.now) domains.now ≡ []) }
    ensures lines { IfSome result (λ parts. domain_lines (map string_bytes names.now) domains.now
        ≡ domain_line parts.0.now parts.1.now ++ domain_lines (map string_bytes parts.2.now) parts.3.now) }
    ensures shorter { IfSome result (λ parts. length parts.2.now < length names.now) }
{
    let [name, other_names @ ..] = names else {
        return None;
    };
    let [domain, other_domains @ ..] = domains else {
        return None;
    };
    Some((name.as_str(), domain, other_names, other_domains))
}

fn write_domain<W: Write>(writer: &mut W, name: &str, domain: &IntervalSet<i64>) -> io::Result<()>
    ensures { OnOk result (Appends (W.contents writer.old) (W.contents writer.new) (domain_line name.now domain.now)) }
{
    // for the prover: its runs are maximal
    domain.in_whole();
    writeln!(writer, "{} {domain}", Escaped(name))
}

/// Writes the domain of the variable with this name, and then what `write_state` writes, or that no
/// variable has the name.
pub fn write_variable<W: Write>(writer: &mut W, solver: &Solver, name: &str) -> io::Result<()>
    ensures { OnOk result ((text : List ℕ) × AnswersAsked solver.now (show (Some name.now)) text solver.now
        × Appends (W.contents writer.old) (W.contents writer.new) text) }
{
    match solver.domain_named(name) {
        Ok(domain) => {
            write_domain(writer, name, domain)?;
            write_state(writer, solver)
        }
        Err(fault) => write_fault(writer, &fault),
    }
}

/// Writes why a line was not carried out. Words of the line are printed with their control characters
/// escaped.
pub fn write_fault<W: Write>(writer: &mut W, fault: &Fault<'_>) -> io::Result<()>
    ensures { OnOk result (Appends (W.contents writer.old) (W.contents writer.new) (told_line (told_of fault.now))) }
{
    match fault {
        Fault::Bytes => writeln!(writer, "error: not UTF-8"),
        Fault::Command(word) => writeln!(writer, "error: unknown command {}", Escaped(word)),
        Fault::Form(form) => writeln!(writer, "error: write {form}"),
        Fault::Number(word) => writeln!(writer, "error: bad number {}", Escaped(word)),
        Fault::Range => writeln!(writer, "error: out of range"),
        Fault::Unknown(name) => writeln!(writer, "error: unknown variable {}", Escaped(name)),
        Fault::Defined(name) => writeln!(writer, "error: {} is defined already", Escaped(name)),
        Fault::Repeated(name) => writeln!(writer, "error: {} is named twice", Escaped(name)),
        Fault::Numeral(name) => writeln!(writer, "error: {} is a number", Escaped(name)),
        Fault::Crossed(lower, upper) => writeln!(writer, "error: {lower} is above {upper}"),
        Fault::Memory => writeln!(writer, "error: out of memory"),
    }
}
