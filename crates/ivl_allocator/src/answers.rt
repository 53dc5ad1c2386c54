//! The answers to `take` and `give`, over the set of the free numbers.
ghost use Rattle.std.specs.Prelude.{◌≡◌, ◌↔◌, ◌<◌, ◌+◌, ◌≤◌, ◌≤ℤ◌, ◌∷◌, [], ℕ, ℤ, pos, List, IfOk, IsTrue, OnOk};
ghost use Rattle.std.specs.Io.KnownBytes.{Appends};
ghost use Rattle.ivl_laws.specs.Runs.{Covers};
ghost use Rattle.ivl_laws.specs.Sets.{HasNone, Intersection, IsBetween, IsSubset, Union};
ghost use Rattle.ivl_lines.specs.Lines.{with_newline};
ghost use Rattle.ivl_lines.specs.Sets.{run_text};
ghost use Rattle.ivl_lines.specs.Words.{words_between};
ghost use Rattle.ivl_allocator.specs.Answers.{Gives, GivesRun, IsFreeSet, MayTake, Takes, TakesAbove, TakesAt, TakesLowest};
ghost use Rattle.ivl_allocator.specs.Requests.{given_of, taken_of};

use crate::faults::write_fault;
use crate::requests::{Take, given_from, taking_from};
use intervallum::interval::Interval;
use intervallum::interval_set::IntervalSet;
use intervallum::ops::Range;
use ivl_paged::PagedSet;
use std::alloc::{AllocError, Global};
use std::io;
use std::io::Write;

/// Returns the set of the numbers from `first` to `last`, which are all free. The caller must ensure that they are in
/// order, and `last` below `u64::MAX`. Fails only if allocation fails.
pub fn all_free(alloc: Global, first: u64, last: u64) -> Result<PagedSet<u64>, AllocError>
    requires in_order { first ≤ last }
    requires fits { last < u64.MAX }
    ensures { IfOk result (λ L. L ≡ (pos first, pos last) ∷ []) }
{
    let all = IntervalSet::new(alloc, first, last)?;
    PagedSet::of_set(&all)
}

/// Answers `take`, given the words after it: takes from 1 to `most` consecutive free numbers, the lowest, or those at or
/// above a number from `first` to `last`, and writes them, or `none` if there are not so many. Only a run that is not the
/// lowest may need memory.
///
/// # Errors
///
/// Fails only if a write failed. If allocation fails, that is the answer, and no number is taken.
pub fn take<W: Write>(
    free: &mut PagedSet<u64>,
    first: u64,
    last: u64,
    most: u64,
    words: &str,
    writer: &mut W,
) -> io::Result<()>
    requires { last + most < u64.MAX }
    ensures answer { OnOk result ((text : List ℕ)
        × Takes (taken_of first last most (words_between words.now)) free.old text free.new
        × Appends (W.contents writer.old) (W.contents writer.new) text) }
    ensures left { IsSubset (Covers free.new) (Covers free.old) }
{
    match taking_from(words, first, last, most) {
        Ok(Take::Lowest(count)) => take_lowest(free, count, writer),
        Ok(Take::At(count, place)) => take_at(free, count, place, writer),
        Ok(Take::Above(count, place)) => take_above(free, count, place, writer),
        Err(fault) => write_fault(writer, &fault),
    }
}

fn take_lowest<W: Write>(free: &mut PagedSet<u64>, count: u64, writer: &mut W) -> io::Result<()>
    requires { 1 ≤ count }
    ensures answer { OnOk result ((text : List ℕ) × TakesLowest count free.old text free.new
        × Appends (W.contents writer.old) (W.contents writer.new) text) }
    ensures left { IsSubset (Covers free.new) (Covers free.old) }
{
    match free.take_first_fit(count) {
        Some(taken) => write_run(writer, &taken),
        None => writer.write_all(b"none\n"),
    }
}

fn take_at<W: Write>(
    free: &mut PagedSet<u64>,
    count: u64,
    place: u64,
    writer: &mut W,
) -> io::Result<()>
    requires above { 1 ≤ count }
    requires fits { place + count < u64.MAX }
    ensures answer { OnOk result ((text : List ℕ) × TakesAt count place free.old text free.new
        × Appends (W.contents writer.old) (W.contents writer.new) text) }
    ensures left { IsSubset (Covers free.new) (Covers free.old) }
{
    let run = Interval::new(place, place + (count - 1));
    if free.includes(&run) {
        take_run(free, run, writer)
    } else {
        writer.write_all(b"none\n")
    }
}

fn take_above<W: Write>(
    free: &mut PagedSet<u64>,
    count: u64,
    place: u64,
    writer: &mut W,
) -> io::Result<()>
    requires above { 1 ≤ count }
    requires fits { place < u64.MAX }
    ensures answer { OnOk result ((text : List ℕ) × TakesAbove count place free.old text free.new
        × Appends (W.contents writer.old) (W.contents writer.new) text) }
    ensures left { IsSubset (Covers free.new) (Covers free.old) }
{
    match free.first_fit_from(place + 1, count) {
        Some(run) => take_run(free, run, writer),
        None => writer.write_all(b"none\n"),
    }
}

// Takes a run of free numbers, and writes it.
fn take_run<W: Write>(
    free: &mut PagedSet<u64>,
    run: Interval<u64>,
    writer: &mut W,
) -> io::Result<()>
    requires { run.0 ≤ℤ run.1 }
    ensures answer { OnOk result ((text : List ℕ) × MayTake run free.old text free.new
        × Appends (W.contents writer.old) (W.contents writer.new) text) }
    ensures left { IsSubset (Covers free.new) (Covers free.old) }
{
    match free.remove_interval(run) {
        Ok(()) => write_run(writer, &run),
        Err(_) => writer.write_all(b"error: out of memory\n"),
    }
}

/// Answers `give`, given the words after it: gives numbers from `first` to `last` back, unless some of them are free. The
/// caller must ensure that `last` is below `u64::MAX`.
///
/// # Errors
///
/// Fails only if a write failed. If allocation fails, that is the answer, and no number is given back.
pub fn give<W: Write>(
    free: &mut PagedSet<u64>,
    first: u64,
    last: u64,
    words: &str,
    writer: &mut W,
) -> io::Result<()>
    requires { last < u64.MAX }
    ensures answer { OnOk result ((text : List ℕ)
        × Gives (given_of first last (words_between words.now)) free.old text free.new
        × Appends (W.contents writer.old) (W.contents writer.new) text) }
    ensures within { IsFreeSet first last free.old → IsFreeSet first last free.new }
{
    match given_from(words, first, last) {
        Ok(given) => give_run(free, given, writer),
        Err(fault) => write_fault(writer, &fault),
    }
}

// Gives numbers back, unless some of them are free.
fn give_run<W: Write>(
    free: &mut PagedSet<u64>,
    run: Interval<u64>,
    writer: &mut W,
) -> io::Result<()>
    ensures answer { OnOk result ((text : List ℕ) × GivesRun run free.old text free.new
        × Appends (W.contents writer.old) (W.contents writer.new) text) }
    ensures within { IsSubset (Covers free.new) (Union (Covers free.old) (IsBetween run)) }
{
    if !are_taken(free, &run) {
        return writer.write_all(b"some of them are free\n");
    }
    match free.insert_interval(run) {
        Ok(()) => writer.write_all(b"ok\n"),
        Err(_) => writer.write_all(b"error: out of memory\n"),
    }
}

/// Whether none of the numbers is free.
fn are_taken(free: &PagedSet<u64>, numbers: &Interval<u64>) -> bool
    ensures { IsTrue result ↔ HasNone (Intersection (Covers free.now) (IsBetween numbers.now)) }
{
    match free.next_from(numbers.lower_bound()) {
        Some(next) => numbers.upper_bound() < next,
        None => true,
    }
}

/// Writes a run as `[l..u]`. The caller must ensure that its bounds are in order.
pub fn write_run<W: Write>(writer: &mut W, run: &Interval<u64>) -> io::Result<()>
    requires { run.now.0 ≤ℤ run.now.1 }
    ensures { OnOk result (Appends (W.contents writer.old) (W.contents writer.new) (with_newline (run_text run.now))) }
{
    run.in_whole();
    writeln!(writer, "{run}")
}
