//! The calls of the calculator that allocate, and the sums and differences within the range. Each returns its result, or
//! runs out of memory and leaves its operands unchanged.

use crate::runs::{
    DIFFERENCES, FIRST, FIRST_RUNS, Runs, SECOND, SECOND_RUNS, SUMS, UNITED, has_runs,
};
use intervallum::prelude::*;
use intervallum::sweep::{Op, coalesce, images};
use ivl_calc::within::{add_within, sub_within};
use ivl_calc::{Calc, Command, Refusal, Reply};
use std::alloc::{AllocError, Global};

/// How many numbers `SUMS` has.
const SUM_COUNT: u32 = 47;

/// The runs of the first operand in no order, one of them twice.
const UNSORTED: Runs = &[(13, 14), (5, 6), (9, 10), (5, 6), (1, 2)];

/// How many empty intervals a set is extended by.
const MANY: usize = 1000;

/// Whether the call of this name gives the right answer; none where there is no such call.
pub fn call(
    alloc: Global,
    name: &str,
    a: &IntervalSet<i32>,
    b: &IntervalSet<i32>,
) -> Option<Result<bool, AllocError>> {
    match name {
        "add_within" => Some(is_added(a, b)),
        "sub_within" => Some(is_subtracted(a, b)),
        "images" => Some(are_images(a, b)),
        "coalesce" => Some(is_coalesced(alloc)),
        "extend_by_nothing" => Some(is_left_by_nothing(alloc, a)),
        "calc_new" => Some(is_new(alloc)),
        "calc_run" => Some(is_run_right(alloc)),
        _ => None,
    }
}

/// The sums, none of which is cut.
fn is_added(a: &IntervalSet<i32>, b: &IntervalSet<i32>) -> Result<bool, AllocError> {
    let (sums, is_cut) = add_within(a, b)?;
    Ok(has_runs(&sums, SUMS) && !is_cut)
}

/// The differences, none of which is cut.
fn is_subtracted(a: &IntervalSet<i32>, b: &IntervalSet<i32>) -> Result<bool, AllocError> {
    let (differences, is_cut) = sub_within(a, b)?;
    Ok(has_runs(&differences, DIFFERENCES) && !is_cut)
}

/// One entry for each pair of runs, the first and the last in their places.
fn are_images(a: &IntervalSet<i32>, b: &IntervalSet<i32>) -> Result<bool, AllocError> {
    if !a.fits_add(b) {
        return Ok(false);
    }
    let entries = images(a, b, Op::Sum)?;
    let ends = (entries.first(), entries.last());
    let wanted = (Interval::new(3, 7), Interval::new(53, 55));
    Ok(entries.len() == 16 && ends == (Some(&wanted.0), Some(&wanted.1)))
}

/// The set of a list that is in no order, and has a run twice.
fn is_coalesced(alloc: Global) -> Result<bool, AllocError> {
    let set = coalesce(alloc, unsorted(alloc)?)?;
    Ok(has_runs(&set, FIRST_RUNS))
}

fn unsorted(alloc: Global) -> Result<Vec<Interval<i32>>, AllocError> {
    let mut list = Vec::new(alloc);
    for &(lower, upper) in UNSORTED {
        if Interval::in_range(lower, upper) {
            list.push(Interval::new(lower, upper))?;
        }
    }
    Ok(list)
}

/// A copy is as before once it is extended by many empty intervals.
fn is_left_by_nothing(alloc: Global, a: &IntervalSet<i32>) -> Result<bool, AllocError> {
    let none = empty_intervals(alloc)?;
    let mut set = a.try_clone()?;
    let answer = set.extend(none.into_iter());
    if !has_runs(&set, FIRST_RUNS) {
        return Ok(false);
    }
    answer.map(|_| true)
}

fn empty_intervals(alloc: Global) -> Result<Vec<Interval<i32>>, AllocError> {
    let mut none = Vec::with_capacity(alloc, MANY)?;
    for _ in 0..MANY {
        none.push(Interval::new(9, 4))?;
    }
    Ok(none)
}

/// A new calculator has empty registers.
fn is_new(alloc: Global) -> Result<bool, AllocError> {
    let calc: Calc<i32> = Calc::new(alloc, 3)?;
    Ok(calc.registers() == 3 && has_registers(&calc, &[], &[], &[]))
}

/// After an error every register is as before.
fn is_run_right(alloc: Global) -> Result<bool, AllocError> {
    let mut calc = loaded(alloc)?;
    let answer = calc.run(&commands(alloc)?);
    is_as_answered(&calc, &answer)
}

fn commands(alloc: Global) -> Result<Vec<Command<i32>>, AllocError> {
    Ok(vec![in alloc;
        Command::Plus(2, 0, 1),
        Command::Union(0, 0, 1),
        Command::Size(2),
    ]?)
}

/// The registers are as the answer tells.
fn is_as_answered(
    calc: &Calc<i32>,
    answer: &Result<Vec<Reply<i32>>, AllocError>,
) -> Result<bool, AllocError> {
    match answer {
        Ok(replies) => is_as_replied(calc, replies),
        Err(_) if has_registers(calc, FIRST_RUNS, SECOND_RUNS, &[]) => Err(AllocError),
        Err(_) => Ok(false),
    }
}

/// Where a reply tells that there was no memory, that command has left no trace, and the others did what they do
/// without it.
fn is_as_replied(calc: &Calc<i32>, replies: &[Reply<i32>]) -> Result<bool, AllocError> {
    let [plus, union, size] = replies else {
        return Ok(false);
    };
    match (
        is_done(plus, &Reply::Cut(false)),
        is_done(union, &Reply::Done),
    ) {
        (Some(is_added), Some(is_united)) => is_as_told(calc, is_added, is_united, size),
        _ => Ok(false),
    }
}

/// Whether the registers, and the size of the third, are as these of the commands leave them: an error unless both were
/// done.
fn is_as_told(
    calc: &Calc<i32>,
    is_added: bool,
    is_united: bool,
    size: &Reply<i32>,
) -> Result<bool, AllocError> {
    let first = if is_united { UNITED } else { FIRST_RUNS };
    let third = if is_added { SUMS } else { &[] };
    let count = if is_added { SUM_COUNT } else { 0 };
    if !has_registers(calc, first, SECOND_RUNS, third) || *size != Reply::Size(count) {
        return Ok(false);
    }
    if is_added && is_united {
        Ok(true)
    } else {
        Err(AllocError)
    }
}

/// Whether a command was done, and not refused as out of memory; none where its reply is another.
fn is_done(reply: &Reply<i32>, done: &Reply<i32>) -> Option<bool> {
    if *reply == *done {
        Some(true)
    } else if *reply == Reply::Refused(Refusal::Memory) {
        Some(false)
    } else {
        None
    }
}

/// Three registers: the first two operands, and the empty set.
fn loaded(alloc: Global) -> Result<Calc<i32>, AllocError> {
    let mut calc = Calc::new(alloc, 3)?;
    load(alloc, &mut calc, 0, FIRST)?;
    load(alloc, &mut calc, 1, SECOND)?;
    Ok(calc)
}

/// Sets a register.
fn load(
    alloc: Global,
    calc: &mut Calc<i32>,
    register: usize,
    pairs: [(i32, i32); 4],
) -> Result<(), AllocError> {
    let command = Command::Set(register, Vec::from_array(alloc, pairs)?);
    if calc.apply(&command) == Reply::Done {
        Ok(())
    } else {
        Err(AllocError)
    }
}

/// The registers have these runs.
fn has_registers(
    calc: &Calc<i32>,
    first: &[(i32, i32)],
    second: &[(i32, i32)],
    third: &[(i32, i32)],
) -> bool {
    let expected = [first, second, third];
    for (register, runs) in expected.iter().enumerate() {
        match calc.get(register) {
            Some(set) if has_runs(set, runs) => {}
            _ => return false,
        }
    }
    true
}
