//! What answers the lines of a session of the store.
ghost use Rattle.std.specs.Prelude.{◌≡◌, ℕ, List, ◌++◌, [], IfSome, IsErrOf, OnOk};
ghost use Rattle.std.specs.Io.KnownBytes.{Appends, Consumes, IsAtEnd};
ghost use Rattle.ivl_lines.specs.Answered.{AnswersOrLoses, IsAnswered};
ghost use Rattle.ivl_lines.specs.Commands.{no_memory};
ghost use Rattle.ivl_lines.specs.Lines.{ended_lines_of, lines_of};
ghost use Rattle.ivl_lines.specs.Words.{words_between};
ghost use Rattle.ivl_store_lines.specs.Answering.{AnswersAsked, AnswersLine, AnswersWords};
ghost use Rattle.ivl_store_lines.specs.Printed.{IsReply, state_line};
ghost use Rattle.ivl_store_lines.specs.Requests.{asked_extreme, asked_of, count, solve};
ghost use Rattle.ivl_store_lines.specs.Solving.{State};

use crate::fault::Fault;
use crate::progress::Progress;
use crate::replies::{
    write_best, write_count, write_fault, write_shown, write_solutions, write_state, write_variable,
};
use crate::request::{Request, request_from};
use crate::solve::Extreme;
use crate::solver::Solver;
use ivl_lines::{Answers, SessionFault, first_word, line_text, next_word, serve};
use std::alloc::Global;
use std::collections::hash_map::RandomState;
use std::io;
use std::io::{Read, Write};

impl Answers for Solver {
    ghost use Rattle.ivl_lines.specs.Commands.{no_memory};
    ghost use Rattle.ivl_store_lines.specs.Answering.{AnswersLine};

    ghost allowed = { AnswersLine };

    ghost lost = { no_memory };

    fn may_take_long(&self, line: &[u8]) -> bool {
        match first_word(line) {
            b"" => false,
            // a rule, whose variable may be named so, has an operator, and each ends in this
            b"var" | b"limit" | b"show" => line.contains(&b'='),
            _ => true,
        }
    }

    fn answer<W: Write>(&mut self, line: &[u8], writer: &mut W) -> io::Result<()> {
        answer_line(self, line, writer)
    }

    fn answer_to_lost(&self) -> &'static [u8] {
        b"error: out of memory\n"
    }
}

/// Answers each line of the input, over a solver that has no variables at first and looks names up
/// by hashes with these keys. What is written is flushed before each read, before each line that
/// narrows domains or searches, and at the end.
///
/// # Errors
///
/// `Read` if a read failed, or the reader still returned bytes after 2^64 - 1 reads; an interrupted
/// read is repeated. `Write` if a write or a flush failed. `Memory` if there is no memory to begin:
/// nothing is then read or written. A line that runs out of memory when it is read or carried out is
/// answered with that, and the session continues.
///
/// ```
/// let mut input: &[u8] = b"var x 1 9\ncut x 2 5\nshow";
/// let mut written = Vec::new(alloc);
/// assert_eq!(rt; session(alloc, RandomState::new(&rt)?, &mut input, &mut written), Ok(()));
/// assert_eq!(rt; written.as_slice(), b"ok\nok\nx [2..5]\nok\n".as_slice());
/// ```
pub fn session<R: Read, W: Write>(
    alloc: Global,
    keys: RandomState,
    reader: &mut R,
    writer: &mut W,
) -> Result<(), SessionFault>
    // All bytes were read, and what is written answers their lines.
    ensures end { OnOk result (IsAtEnd (R.remaining reader.new)) }
    ensures ok { OnOk result (IfSome (R.remaining reader.old) (λ bytes. (text : List ℕ) × (end : State)
        × IsAnswered (AnswersOrLoses no_memory AnswersLine) (record { names = []; domains = []; rules = []; settled = []; limit = 1000000; progress = Progress.Complete }) (lines_of bytes) text end
        × Appends (W.contents writer.old) (W.contents writer.new) text)) }
    // What is written answers the ended lines of the bytes that the reader gave.
    ensures read { IsErrOf result SessionFault.Read → (front : List ℕ) × (text : List ℕ) × (end : State)
        × Consumes (R.remaining reader.old) (R.remaining reader.new) front
        × IsAnswered (AnswersOrLoses no_memory AnswersLine) (record { names = []; domains = []; rules = []; settled = []; limit = 1000000; progress = Progress.Complete }) (ended_lines_of front) text end
        × Appends (W.contents writer.old) (W.contents writer.new) text }
    // There was no memory to begin.
    ensures memory { IsErrOf result SessionFault.Memory → (reader.new ≡ reader.old) × (writer.new ≡ writer.old) }
{
    serve(alloc, &mut Solver::new(alloc, keys), reader, writer)
}

// Answers one line. A line without words has no answer.
fn answer_line<W: Write>(solver: &mut Solver, line: &[u8], writer: &mut W) -> io::Result<()>
    ensures { OnOk result ((text : List ℕ)
        × AnswersLine solver.old line.now text solver.new
        × Appends (W.contents writer.old) (W.contents writer.new) text) }
{
    match line_text(line) {
        Some(text) => answer_text(solver, text, writer),
        None => write_fault(writer, &Fault::Bytes),
    }
}

fn answer_text<W: Write>(solver: &mut Solver, text: &str, writer: &mut W) -> io::Result<()>
    ensures { OnOk result ((answer : List ℕ)
        × AnswersWords solver.old (words_between text.now) answer solver.new
        × Appends (W.contents writer.old) (W.contents writer.new) answer) }
{
    let Some((name, words)) = next_word(text) else {
        return Ok(());
    };
    match request_from(solver.allocator(), name, words) {
        Ok(request) => answer_request(solver, request, writer),
        Err(fault) => write_fault(writer, &fault),
    }
}

// Carries out what a line asks for, and writes the answer to it.
fn answer_request<W: Write>(
    solver: &mut Solver,
    request: Request<'_>,
    writer: &mut W,
) -> io::Result<()>
    ensures { OnOk result ((text : List ℕ)
        × AnswersAsked solver.old (asked_of request.entry) text solver.new
        × Appends (W.contents writer.old) (W.contents writer.new) text) }
{
    match request {
        Request::Show(None) => write_shown(writer, solver),
        Request::Show(Some(name)) => write_variable(writer, solver, name),
        Request::Solve(most) => answer_solve(solver, most, writer),
        Request::Count => answer_count(solver, writer),
        Request::Least(name) => answer_best(solver, name, Extreme::Least, writer),
        Request::Greatest(name) => answer_best(solver, name, Extreme::Greatest, writer),
        change => answer_change(solver, change, writer),
    }
}

fn answer_change<W: Write>(
    solver: &mut Solver,
    request: Request<'_>,
    writer: &mut W,
) -> io::Result<()>
    requires { (new : State) → IsReply (asked_of request) new (state_line new.domains new.progress) }
    ensures { OnOk result ((text : List ℕ)
        × AnswersAsked solver.old (asked_of request.entry) text solver.new
        × Appends (W.contents writer.old) (W.contents writer.new) text) }
{
    match solver.carry_out(request) {
        Ok(()) => write_state(writer, solver),
        Err(fault) => write_fault(writer, &fault),
    }
}

// Searches for solutions, and then writes what was found. Nothing is written before the search ends.
fn answer_solve<W: Write>(solver: &Solver, most: u64, writer: &mut W) -> io::Result<()>
    ensures { OnOk result ((text : List ℕ)
        × AnswersAsked solver.now (solve most) text solver.now
        × Appends (W.contents writer.old) (W.contents writer.new) text) }
{
    match solver.solutions(most) {
        Ok(found) => write_solutions(writer, solver.names(), &found),
        Err(_) => write_fault(writer, &Fault::Memory),
    }
}

fn answer_count<W: Write>(solver: &Solver, writer: &mut W) -> io::Result<()>
    ensures { OnOk result ((text : List ℕ)
        × AnswersAsked solver.now count text solver.now
        × Appends (W.contents writer.old) (W.contents writer.new) text) }
{
    match solver.count() {
        Ok((found, end)) => write_count(writer, found, end),
        Err(_) => write_fault(writer, &Fault::Memory),
    }
}

fn answer_best<W: Write>(
    solver: &Solver,
    name: &str,
    extreme: Extreme,
    writer: &mut W,
) -> io::Result<()>
    ensures { OnOk result ((text : List ℕ)
        × AnswersAsked solver.now (asked_extreme extreme name.now) text solver.now
        × Appends (W.contents writer.old) (W.contents writer.new) text) }
{
    match solver.best(name, extreme) {
        Ok(best) => write_best(writer, solver.names(), &best),
        Err(fault) => write_fault(writer, &fault),
    }
}
