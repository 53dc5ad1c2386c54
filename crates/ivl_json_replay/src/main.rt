//! Replays answers of JSON that do not come from this library: each line of a file is a call, its operand and the right
//! answer. Prints each line with another answer, and how many lines agree. Its tests are examples that were worked out by
//! hand. They name JSON by the path `ivl_json::json`.
//!
//! Cargo has no `serde_json` where there is no network, so the builds of the kit try JSON in any case.
#![tactic(auto)]

mod answer;
mod fact;
mod json;
mod read;
#[cfg(test)]
mod tests;
mod unanswered;

use anyhow::{Context, Result, ensure};
use fact::Fact;
use ivl_vectors::bit::Bit;
use ivl_vectors::narrow::Narrow;
use std::alloc::{AllocError, Global};
use std::env;
use std::fs::File;
use std::io::{BufRead, BufReader, Lines};
use std::rt::Files;
use unanswered::Unanswered;

/// How the lines of a file went.
#[derive(Default, Drop)]
struct Tally {
    agreeing: u64,
    failing: u64,
}

/// What a call answers here, at the type that the line names.
fn replay(alloc: Global, fact: &Fact<'_>) -> Result<String, Unanswered> {
    match fact.type_name {
        "i8" => json::answer::<i8>(alloc, fact),
        "i16" => json::answer::<i16>(alloc, fact),
        "i32" => json::answer::<i32>(alloc, fact),
        "i64" => json::answer::<i64>(alloc, fact),
        "isize" => json::answer::<isize>(alloc, fact),
        "u8" => json::answer::<u8>(alloc, fact),
        "u16" => json::answer::<u16>(alloc, fact),
        "u32" => json::answer::<u32>(alloc, fact),
        "u64" => json::answer::<u64>(alloc, fact),
        "usize" => json::answer::<usize>(alloc, fact),
        "bit" => json::answer::<Bit>(alloc, fact),
        "narrow" => json::answer::<Narrow>(alloc, fact),
        _ => Err(Unanswered::Unknown),
    }
}

/// What a line has in place of its answer; none where the answer here is that of the line.
fn fault(alloc: Global, line: &str) -> Result<Option<String>, AllocError> {
    let Some(fact) = Fact::parse(line) else {
        return Ok(Some(String::from_str(alloc, "the line is not read")?));
    };
    match replay(alloc, &fact) {
        Ok(here) if here.as_str() == fact.answer => Ok(None),
        Ok(here) => Ok(Some(here)),
        Err(Unanswered::Unknown) => Ok(Some(String::from_str(alloc, "there is no answer")?)),
        Err(Unanswered::Memory) => Err(AllocError),
    }
}

/// Replays one line, prints it where the answer differs or is missing, and counts it.
fn take(rt: &(impl Print + AllocGlobal), line: &str, tally: &mut Tally) -> Result<()> {
    if line.starts_with('#') {
        return Ok(());
    }
    if let Some(fault) = fault(rt.alloc(), line)? {
        tally.failing = tally.failing.saturating_add(1);
        println!(rt; "{line}, but here {fault}")?;
    } else {
        tally.agreeing = tally.agreeing.saturating_add(1);
    }
    Ok(())
}

/// The lines of a file.
fn lines<R: AllocGlobal + Files>(rt: &R, path: &str) -> Result<Lines<BufReader<R::File>>> {
    let file = File::open(rt, path).context(format_args!("opening {path:?}"))?;
    Ok(BufReader::new(rt.alloc(), file)?.lines(rt.alloc()))
}

/// Replays the lines of a file.
fn replay_file(rt: &(impl Print + AllocGlobal + Files), path: &str) -> Result<Tally> {
    let mut tally = Tally::default();
    for line in lines(rt, path)? {
        take(rt, line?.as_str(), &mut tally)?;
    }
    Ok(tally)
}

fn main(rt: HostRuntime) -> Result<()> {
    let mut failing: u64 = 0;
    for path in env::args(&rt)?.skip(1) {
        let tally = replay_file(&rt, path.as_str())?;
        println!(rt; "{path}: {} lines agree", tally.agreeing)?;
        failing = failing.saturating_add(tally.failing);
    }
    ensure!(
        failing == 0,
        "{failing} lines differ or have no answer here"
    );
    Ok(())
}
