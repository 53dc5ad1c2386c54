//! The calls that make sets of intervals, ranges, members and other sets, and those of the operators `|`, `&`, `^` and `!`.

use crate::runs::{APART, BELOW_SIX, BETWEEN, FIRST_RUNS, FROM_SIX, Runs, SHARED, UNITED, is_of};
use intervallum::prelude::*;
use std::alloc::{AllocError, Global};

/// The intervals that the sets are made of, in no order.
const SHUFFLED: [(i32, i32); 5] = [(13, 14), (5, 6), (1, 1), (9, 10), (2, 2)];

const ONE_TO_FOUR: Runs = &[(1, 4)];

/// The first operand with four members more.
const EXTENDED: Runs = &[(1, 6), (9, 10), (13, 15), (20, 20)];

/// What the first operand and the numbers from 2 to 9 do not share.
const APART_FROM_WINDOW: Runs = &[(1, 1), (3, 4), (7, 8), (10, 10), (13, 14)];

/// Whether the call of this name gives the right answer; none where there is no such call.
pub fn call(
    alloc: Global,
    name: &str,
    a: &IntervalSet<i32>,
    b: &IntervalSet<i32>,
) -> Option<Result<bool, AllocError>> {
    of_lists(alloc, name)
        .or(of_ranges(alloc, name))
        .or(of_sets(alloc, name, a, b))
        .or(of_edits(name, a))
        .or(of_operators(name, a, b))
}

/// The calls that make a set of intervals or members in any order.
fn of_lists(alloc: Global, name: &str) -> Option<Result<bool, AllocError>> {
    let pairs = SHUFFLED;
    let intervals = pairs.iter().map(|pair| Interval::new(pair.0, pair.1));
    Some(match name {
        "collect" => is_of(IntervalSet::collect(alloc, intervals), FIRST_RUNS),
        "of_members" => is_of(
            IntervalSet::of_members(alloc, &[14, 2, 9, 5, 1, 6, 10, 13, 9]),
            FIRST_RUNS,
        ),
        "of_interval" => is_of(Interval::new(1, 4).to_interval_set(alloc), ONE_TO_FOUR),
        "of_intervals" => is_of(
            [Interval::new(3, 4), Interval::new(1, 2)].to_interval_set(alloc),
            ONE_TO_FOUR,
        ),
        _ => return None,
    })
}

/// The calls that make a set of ranges.
fn of_ranges(alloc: Global, name: &str) -> Option<Result<bool, AllocError>> {
    const GREATEST: i32 = i32::MAX;
    Some(match name {
        "of_range" => is_of((1..=4).to_interval_set(alloc), ONE_TO_FOUR),
        "of_range_from" => is_of((5..).to_interval_set(alloc), &[(5, GREATEST)]),
        "of_range_to" => is_of((..=5).to_interval_set(alloc), &[(-GREATEST, 5)]),
        "of_ranges" => is_of([3..=4, 1..=2].to_interval_set(alloc), ONE_TO_FOUR),
        _ => return None,
    })
}

/// The union and the intersection of many sets, and the symmetric difference with an interval.
fn of_sets(
    alloc: Global,
    name: &str,
    a: &IntervalSet<i32>,
    b: &IntervalSet<i32>,
) -> Option<Result<bool, AllocError>> {
    Some(match name {
        "union_of" => is_of(IntervalSet::union_of(alloc, &[a, b, a, b, a]), UNITED),
        "intersection_of" => is_of(
            IntervalSet::intersection_of(alloc, &[a, b, a, b, a]),
            SHARED,
        ),
        "symmetric_difference_interval" => is_of(
            a.symmetric_difference(&Interval::new(2, 9)),
            APART_FROM_WINDOW,
        ),
        _ => return None,
    })
}

/// The edits of a copy: members are added, and the upper part is split off.
fn of_edits(name: &str, a: &IntervalSet<i32>) -> Option<Result<bool, AllocError>> {
    Some(match name {
        "extend_members" => is_of(extended(a), EXTENDED),
        "split_off" => split(a),
        _ => return None,
    })
}

/// A copy with more members: an error only where that was refused, and left the copy as it was.
fn extended(a: &IntervalSet<i32>) -> Result<IntervalSet<i32>, AllocError> {
    let mut set = a.try_clone()?;
    match set.extend_members(&[20, 4, 3, 15]) {
        Err(error) if set == *a => Err(error),
        _ => Ok(set),
    }
}

/// Whether a copy, split at 6, has the lower part left: an error only where that was refused, and left the copy as it was.
fn split(a: &IntervalSet<i32>) -> Result<bool, AllocError> {
    let mut set = a.try_clone()?;
    match set.split_off(6) {
        Err(error) if set == *a => Err(error),
        Err(_) => Ok(false),
        upper => Ok(is_of(upper, FROM_SIX)? && is_of(Ok(set), BELOW_SIX)?),
    }
}

/// The operators on sets, in each form.
fn of_operators(
    name: &str,
    a: &IntervalSet<i32>,
    b: &IntervalSet<i32>,
) -> Option<Result<bool, AllocError>> {
    Some(match name {
        "bitor_forms" => either(a, b),
        "bitand_forms" => both(a, b),
        "bitxor_forms" => one_alone(a, b),
        "not_forms" => outside(a),
        _ => return None,
    })
}

/// Whether each form of `|` gives the members of either set.
fn either(a: &IntervalSet<i32>, b: &IntervalSet<i32>) -> Result<bool, AllocError> {
    let owned = is_of(a.try_clone()? | b.try_clone()?, UNITED)?;
    let first_owned = is_of(a.try_clone()? | b, UNITED)?;
    let second_owned = is_of(a | b.try_clone()?, UNITED)?;
    let borrowed = is_of(a | b, UNITED)?;
    Ok(owned && first_owned && second_owned && borrowed)
}

/// Whether each form of `&` gives the common members.
fn both(a: &IntervalSet<i32>, b: &IntervalSet<i32>) -> Result<bool, AllocError> {
    let owned = is_of(a.try_clone()? & b.try_clone()?, SHARED)?;
    let first_owned = is_of(a.try_clone()? & b, SHARED)?;
    let second_owned = is_of(a & b.try_clone()?, SHARED)?;
    let borrowed = is_of(a & b, SHARED)?;
    Ok(owned && first_owned && second_owned && borrowed)
}

/// Whether each form of `^` gives the members of exactly one set.
fn one_alone(a: &IntervalSet<i32>, b: &IntervalSet<i32>) -> Result<bool, AllocError> {
    let owned = is_of(a.try_clone()? ^ b.try_clone()?, APART)?;
    let first_owned = is_of(a.try_clone()? ^ b, APART)?;
    let second_owned = is_of(a ^ b.try_clone()?, APART)?;
    let borrowed = is_of(a ^ b, APART)?;
    Ok(owned && first_owned && second_owned && borrowed)
}

/// Whether both forms of `!` give the numbers outside the set.
fn outside(a: &IntervalSet<i32>) -> Result<bool, AllocError> {
    let set = a.try_clone()?;
    let owned = is_of(!set, BETWEEN)?;
    let borrowed = is_of(!a, BETWEEN)?;
    Ok(owned && borrowed)
}
