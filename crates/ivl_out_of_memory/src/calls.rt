//! The calls of sets that allocate, each with the runs of the expected set.

use crate::runs::{
    APART, BELOW_SIX, BETWEEN, DIFFERENCES, FIRST, FIRST_RUNS, FROM_SIX, MINUS_THREE, PLUS_THREE,
    PRODUCTS, Runs, SHARED, SUMS, TIMES_MINUS_THREE, UNITED, WHOLE, is_of,
};
use intervallum::interval::Interval;
use intervallum::prelude::*;
use intervallum::steps::{Walk, common, unite};
use intervallum::sweep::{Op, coalesce, images};
use std::alloc::{AllocError, Global};

/// The difference of the operands.
const LEFT: Runs = &[(1, 1), (6, 6), (9, 10), (13, 14)];

/// The first operand, cut at 6.
const TO_SIX: Runs = &[(1, 2), (5, 6)];

const ABOVE_SIX: Runs = &[(9, 10), (13, 14)];

/// The first operand and a number.
const WITH_THREE: Runs = &[(1, 3), (5, 6), (9, 10), (13, 14)];

const FIVE: Runs = &[(5, 5)];

const WITHOUT_FIVE: Runs = &[(1, 2), (6, 6), (9, 10), (13, 14)];

/// The numbers from 2 to 9, and what the first operand is with them.
const WINDOW: Runs = &[(2, 9)];

const GAPS: Runs = &[(3, 4), (7, 8)];

const WITH_WINDOW: Runs = &[(1, 10), (13, 14)];

const IN_WINDOW: Runs = &[(2, 2), (5, 6), (9, 9)];

const OUTSIDE: Runs = &[(1, 1), (10, 10), (13, 14)];

/// The sets that are made of numbers.
const THREE: Runs = &[(3, 3)];

const THREE_FOUR: Runs = &[(3, 4)];

/// Whether the call of this name gives the right answer; none where there is no such call. The names of the groups differ,
/// so that one call is made at most.
pub fn call(
    alloc: Global,
    name: &str,
    a: &IntervalSet<i32>,
    b: &IntervalSet<i32>,
) -> Option<Result<bool, AllocError>> {
    of_sets(name, a, b)
        .or(of_walks(name, a, b))
        .or(of_bound(name, a))
        .or(of_value(name, a))
        .or(of_arithmetic_by_value(name, a))
        .or(of_interval(alloc, name, a))
        .or(of_arithmetic(name, a, b))
        .or(making(alloc, name))
        .or(moving(name, a, b))
}

/// The calls of two sets, or of one alone.
fn of_sets(
    name: &str,
    a: &IntervalSet<i32>,
    b: &IntervalSet<i32>,
) -> Option<Result<bool, AllocError>> {
    Some(match name {
        "try_clone" => is_of(a.try_clone(), FIRST_RUNS),
        "complement" => is_of(a.complement(), BETWEEN),
        "union" => is_of(a.union(b), UNITED),
        "intersection" => is_of(a.intersection(b), SHARED),
        "difference" => is_of(a.difference(b), LEFT),
        "symmetric_difference" => is_of(a.symmetric_difference(b), APART),
        _ => return None,
    })
}

/// The merges of the runs of two sets.
fn of_walks(
    name: &str,
    a: &IntervalSet<i32>,
    b: &IntervalSet<i32>,
) -> Option<Result<bool, AllocError>> {
    Some(match name {
        "unite" => is_of(unite(Walk::new(a), Walk::new(b)), UNITED),
        "common" => is_of(common(Walk::new(a), Walk::new(b)), SHARED),
        _ => return None,
    })
}

/// The calls that cut a set at a bound.
fn of_bound(name: &str, a: &IntervalSet<i32>) -> Option<Result<bool, AllocError>> {
    Some(match name {
        "shrink_left" => is_of(a.shrink_left(6), FROM_SIX),
        "shrink_right" => is_of(a.shrink_right(6), TO_SIX),
        "strict_shrink_left" => is_of(a.strict_shrink_left(6), ABOVE_SIX),
        "strict_shrink_right" => is_of(a.strict_shrink_right(6), BELOW_SIX),
        _ => return None,
    })
}

/// The calls of a set and a number.
fn of_value(name: &str, a: &IntervalSet<i32>) -> Option<Result<bool, AllocError>> {
    Some(match name {
        "union_value" => is_of(a.union(&3), WITH_THREE),
        "intersection_value" => is_of(a.intersection(&5), FIVE),
        "difference_value" => is_of(a.difference(&5), WITHOUT_FIVE),
        "symmetric_difference_value" => is_of(a.symmetric_difference(&3), WITH_THREE),
        _ => return None,
    })
}

/// The sums, differences and products of a set and a number.
fn of_arithmetic_by_value(name: &str, a: &IntervalSet<i32>) -> Option<Result<bool, AllocError>> {
    Some(match name {
        "plus_value" if a.fits_add(&3) => is_of(a + 3, PLUS_THREE),
        "minus_value" if a.fits_sub(&3) => is_of(a - 3, MINUS_THREE),
        "times_value" if a.fits_mul(&-3) => is_of(a * -3, TIMES_MINUS_THREE),
        _ => return None,
    })
}

/// The calls of a set and an interval, and the set of an interval.
fn of_interval(
    alloc: Global,
    name: &str,
    a: &IntervalSet<i32>,
) -> Option<Result<bool, AllocError>> {
    let window = Interval::new(2, 9);
    Some(match name {
        "of" => is_of(IntervalSet::of(alloc, window), WINDOW),
        "gaps_within" => is_of(a.gaps_within(&window), GAPS),
        "union_interval" => is_of(a.union(&window), WITH_WINDOW),
        "intersection_interval" => is_of(a.intersection(&window), IN_WINDOW),
        "difference_interval" => is_of(a.difference(&window), OUTSIDE),
        _ => return None,
    })
}

/// Sums, differences and products, each at once and by its two steps.
fn of_arithmetic(
    name: &str,
    a: &IntervalSet<i32>,
    b: &IntervalSet<i32>,
) -> Option<Result<bool, AllocError>> {
    Some(match name {
        "plus" if a.fits_add(b) => is_of(a + b, SUMS),
        "minus" if a.fits_sub(b) => is_of(a - b, DIFFERENCES),
        "times" if a.fits_mul(b) => is_of(a * b, PRODUCTS),
        "plus_by_steps" if a.fits_add(b) => is_of(swept(a, images(a, b, Op::Sum)), SUMS),
        "minus_by_steps" if a.fits_sub(b) => {
            is_of(swept(a, images(a, b, Op::Difference)), DIFFERENCES)
        }
        "times_by_steps" if a.fits_mul(b) => is_of(swept(a, images(a, b, Op::Product)), PRODUCTS),
        _ => return None,
    })
}

/// The second step: the set of the images of the runs.
fn swept(
    a: &IntervalSet<i32>,
    entries: Result<Vec<Interval<i32>>, AllocError>,
) -> Result<IntervalSet<i32>, AllocError> {
    coalesce(Walk::new(a).alloc(), entries?)
}

/// The calls that make a set of other values.
fn making(alloc: Global, name: &str) -> Option<Result<bool, AllocError>> {
    Some(match name {
        "new" => is_of(IntervalSet::new(alloc, 3, 4), THREE_FOUR),
        "singleton" => is_of(IntervalSet::singleton(alloc, 3), THREE),
        "whole" => is_of(IntervalSet::whole(alloc), WHOLE),
        "bot" => is_of(IntervalSet::bot(alloc), WHOLE),
        "of_pair" => is_of((3, 4).to_interval_set(alloc), THREE_FOUR),
        "of_array" => is_of(FIRST.to_interval_set(alloc), FIRST_RUNS),
        "of_slice" => is_of(FIRST.as_slice().to_interval_set(alloc), FIRST_RUNS),
        "of_vector" => is_of(of_vector(alloc), FIRST_RUNS),
        _ => return None,
    })
}

/// The set of a list of pairs.
fn of_vector(alloc: Global) -> Result<IntervalSet<i32>, AllocError> {
    Vec::from_array(alloc, FIRST)?.to_interval_set(alloc)
}

/// The calls that take their sets by value.
fn moving(
    name: &str,
    a: &IntervalSet<i32>,
    b: &IntervalSet<i32>,
) -> Option<Result<bool, AllocError>> {
    Some(match name {
        "join" => is_of(joined(a, b), SHARED),
        "meet" => is_of(met(a, b), UNITED),
        _ => return None,
    })
}

/// What both sets have, by the call that takes them.
fn joined(a: &IntervalSet<i32>, b: &IntervalSet<i32>) -> Result<IntervalSet<i32>, AllocError> {
    a.try_clone()?.join(b.try_clone()?)
}

/// What one of the sets has, by the call that takes them.
fn met(a: &IntervalSet<i32>, b: &IntervalSet<i32>) -> Result<IntervalSet<i32>, AllocError> {
    a.try_clone()?.meet(b.try_clone()?)
}
