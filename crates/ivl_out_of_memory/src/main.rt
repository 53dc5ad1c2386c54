//! Makes calls that allocate, each by its name, and prints how it ended. Those of maps, sets in pages, rules and
//! networks are tried by the tests of the crate for Cargo.
//!
//! Reads one name per line. Prints `answered` if the call returned the expected result, `out of memory` if an
//! allocation failed and the operands are unchanged, and otherwise what is wrong. A number after a name makes the
//! program allocate that many times before the call. A script that lets one allocation of each run fail, always the
//! same one, can so make each allocation of each call fail, and builds this program only once.
#![tactic(auto)]

mod calculator;
mod calls;
mod edits;
mod expr;
mod forms;
mod json;
mod makers;
mod runs;
mod search;
mod store;

use intervallum::prelude::{IntervalSet, ToIntervalSet};
use runs::{FIRST, FIRST_RUNS, SECOND, SECOND_RUNS, has_runs};
use std::alloc::{AllocError, Global};
use std::io;
use std::io::Read;

/// As many bytes as the names may have.
const ROOM: usize = 4096;

/// The request of a run that the script refuses.
const REFUSED: u32 = 60;

fn main(rt: HostRuntime) -> io::Result<()> {
    let mut bytes = [0u8; ROOM];
    let count = rt.stdin().read(&mut bytes)?;
    for line in bytes[..count].split(|byte| *byte == b'\n') {
        if !line.is_empty() {
            answer(&rt, line)?;
        }
    }
    Ok(())
}

/// Makes the call of a line, and prints how it ended.
fn answer(rt: &(impl Print + AllocGlobal), line: &[u8]) -> io::Result<()> {
    let (name, requests) = name_and_requests(line).unwrap_or(("this line", 0));
    println!(rt; "{name} {}", ending(rt.alloc(), name, requests))
}

/// The name of a call, and how many requests for memory are made before it; none where the line has another form.
fn name_and_requests(line: &[u8]) -> Option<(&str, u32)> {
    let line = str::from_utf8(line).ok()?;
    match line.split_once(' ') {
        Some((name, requests)) => Some((name, requests.parse().ok()?)),
        None => Some((line, 0)),
    }
}

/// Asks for memory so many times, and gives it back.
fn ask_for_memory(alloc: Global, requests: u32) -> Result<(), AllocError> {
    for _ in 0..requests {
        let _asked: Vec<u8> = Vec::with_capacity(alloc, 1)?;
    }
    Ok(())
}

/// How the call of this name ended, after so many requests for memory.
fn ending(alloc: Global, name: &str, requests: u32) -> &'static str {
    match tried_after(alloc, name, requests) {
        Ok(ending) => ending,
        Err(AllocError) => "out of memory",
    }
}

/// How the call ended; an error where it, its operands or one of the requests found no memory.
fn tried_after(alloc: Global, name: &str, requests: u32) -> Result<&'static str, AllocError> {
    ask_for_memory(alloc, requests)?;
    tried(alloc, name, REFUSED.saturating_sub(requests))
}

/// How the call ended; an error where it or its operands found no memory. Where memory is refused, it is refused to
/// this request of theirs, counted from 1.
fn tried(alloc: Global, name: &str, refused: u32) -> Result<&'static str, AllocError> {
    if let Some(ended) = store::ending(alloc, name, refused) {
        return ended;
    }
    let a = FIRST.to_interval_set(alloc)?;
    let b = SECOND.to_interval_set(alloc)?;
    let answered = call(alloc, name, &a, &b);
    if has_runs(&a, FIRST_RUNS) && has_runs(&b, SECOND_RUNS) {
        told(answered)
    } else {
        Ok("changed an operand")
    }
}

/// Whether the call of this name gives the right answer; none where there is no such call. The names of the modules
/// differ, so that one call is made at most.
fn call(
    alloc: Global,
    name: &str,
    a: &IntervalSet<i32>,
    b: &IntervalSet<i32>,
) -> Option<Result<bool, AllocError>> {
    calls::call(alloc, name, a, b)
        .or(edits::call(alloc, name, a))
        .or(forms::call(alloc, name, a, b))
        .or(makers::call(alloc, name, a, b))
        .or(search::call(alloc, name))
        .or(expr::call(alloc, name, a, b))
        .or(json::call(alloc, name, a))
        .or(calculator::call(alloc, name, a, b))
}

/// How a call ended, in words.
fn told(answered: Option<Result<bool, AllocError>>) -> Result<&'static str, AllocError> {
    match answered {
        Some(is_right) => Ok(if is_right? {
            "answered"
        } else {
            "gave a wrong answer"
        }),
        None => Ok("is no call"),
    }
}
