//! The operators of sets in each form, with each operand owned or borrowed, and the operations on a
//! set of few runs and one of many.

use crate::runs::{
    DIFFERENCES, MINUS_THREE, PLUS_THREE, PRODUCTS, Runs, SUMS, TIMES_MINUS_THREE, is_of,
};
use intervallum::interval::Interval;
use intervallum::prelude::*;
use intervallum::sweep::{Op, coalesce};
use std::alloc::{AllocError, Global};

/// The pairs of the set of few runs.
const FEW: [(i32, i32); 2] = [(2, 7), (99, 101)];

/// How many runs the set of many has: just as many as a search among them asks for.
const MANY: u8 = 48;

/// What the few and the many have in common, and what the few have alone.
const SHARED: Runs = &[(3, 3), (6, 6), (99, 99)];

const FEW_ALONE: Runs = &[(2, 2), (4, 5), (7, 7), (100, 101)];

/// The set that a call made.
type Made = Result<IntervalSet<i32>, AllocError>;

/// Whether the call of this name gives the right answer; none where there is no such call.
pub fn call(
    alloc: Global,
    name: &str,
    a: &IntervalSet<i32>,
    b: &IntervalSet<i32>,
) -> Option<Result<bool, AllocError>> {
    Some(match name {
        "plus_forms" => of_sets(Op::Sum, a, b, SUMS),
        "minus_forms" => of_sets(Op::Difference, a, b, DIFFERENCES),
        "times_forms" => of_sets(Op::Product, a, b, PRODUCTS),
        "plus_value_forms" => with_value(Op::Sum, a, 3, PLUS_THREE),
        "minus_value_forms" => with_value(Op::Difference, a, 3, MINUS_THREE),
        "times_value_forms" => with_value(Op::Product, a, -3, TIMES_MINUS_THREE),
        "intersection_few" => is_of(few_common(alloc), SHARED),
        "intersection_many" => is_of(many_common(alloc), SHARED),
        "difference_few" => is_of(few_without(alloc), FEW_ALONE),
        "difference_many" => is_many_without(alloc),
        _ => return None,
    })
}

/// Whether the operator gives these runs in each form of two sets.
fn of_sets(
    op: Op,
    a: &IntervalSet<i32>,
    b: &IntervalSet<i32>,
    runs: Runs,
) -> Result<bool, AllocError> {
    let owned = is_of(owned_sets(op, a.try_clone()?, b.try_clone()?), runs)?;
    let first_owned = is_of(owned_and_borrowed(op, a.try_clone()?, b), runs)?;
    let second_owned = is_of(borrowed_and_owned(op, a, b.try_clone()?), runs)?;
    let borrowed = is_of(borrowed_sets(op, a, b), runs)?;
    Ok(owned && first_owned && second_owned && borrowed)
}

/// Whether the operator gives these runs in each form of a set and a value.
fn with_value(op: Op, a: &IntervalSet<i32>, x: i32, runs: Runs) -> Result<bool, AllocError> {
    let owned = is_of(owned_set_and_value(op, a.try_clone()?, x), runs)?;
    let set_owned = is_of(owned_set_and_borrowed_value(op, a.try_clone()?, &x), runs)?;
    let value_owned = is_of(borrowed_set_and_value(op, a, x), runs)?;
    let borrowed = is_of(borrowed_set_and_borrowed_value(op, a, &x), runs)?;
    Ok(owned && set_owned && value_owned && borrowed)
}

fn owned_sets(op: Op, a: IntervalSet<i32>, b: IntervalSet<i32>) -> Made {
    match op {
        Op::Sum if a.fits_add(&b) => a + b,
        Op::Difference if a.fits_sub(&b) => a - b,
        Op::Product if a.fits_mul(&b) => a * b,
        _ => Ok(a),
    }
}

fn owned_and_borrowed(op: Op, a: IntervalSet<i32>, b: &IntervalSet<i32>) -> Made {
    match op {
        Op::Sum if a.fits_add(b) => a + b,
        Op::Difference if a.fits_sub(b) => a - b,
        Op::Product if a.fits_mul(b) => a * b,
        _ => Ok(a),
    }
}

fn borrowed_and_owned(op: Op, a: &IntervalSet<i32>, b: IntervalSet<i32>) -> Made {
    match op {
        Op::Sum if a.fits_add(&b) => a + b,
        Op::Difference if a.fits_sub(&b) => a - b,
        Op::Product if a.fits_mul(&b) => a * b,
        _ => Ok(b),
    }
}

fn borrowed_sets(op: Op, a: &IntervalSet<i32>, b: &IntervalSet<i32>) -> Made {
    match op {
        Op::Sum if a.fits_add(b) => a + b,
        Op::Difference if a.fits_sub(b) => a - b,
        Op::Product if a.fits_mul(b) => a * b,
        _ => a.try_clone(),
    }
}

fn owned_set_and_value(op: Op, a: IntervalSet<i32>, x: i32) -> Made {
    match op {
        Op::Sum if a.fits_add(&x) => a + x,
        Op::Difference if a.fits_sub(&x) => a - x,
        Op::Product if a.fits_mul(&x) => a * x,
        _ => Ok(a),
    }
}

fn owned_set_and_borrowed_value(op: Op, a: IntervalSet<i32>, x: &i32) -> Made {
    match op {
        Op::Sum if a.fits_add(x) => a + x,
        Op::Difference if a.fits_sub(x) => a - x,
        Op::Product if a.fits_mul(x) => a * x,
        _ => Ok(a),
    }
}

fn borrowed_set_and_value(op: Op, a: &IntervalSet<i32>, x: i32) -> Made {
    match op {
        Op::Sum if a.fits_add(&x) => a + x,
        Op::Difference if a.fits_sub(&x) => a - x,
        Op::Product if a.fits_mul(&x) => a * x,
        _ => a.try_clone(),
    }
}

fn borrowed_set_and_borrowed_value(op: Op, a: &IntervalSet<i32>, x: &i32) -> Made {
    match op {
        Op::Sum if a.fits_add(x) => a + x,
        Op::Difference if a.fits_sub(x) => a - x,
        Op::Product if a.fits_mul(x) => a * x,
        _ => a.try_clone(),
    }
}

/// The multiples of three from 0 on, each a run.
fn many(alloc: Global) -> Made {
    let mut list = Vec::new(alloc);
    for i in 0..MANY {
        list.push(Interval::singleton(3 * i as i32))?;
    }
    coalesce(alloc, list)
}

fn few_common(alloc: Global) -> Made {
    FEW.to_interval_set(alloc)?.intersection(&many(alloc)?)
}

fn many_common(alloc: Global) -> Made {
    many(alloc)?.intersection(&FEW.to_interval_set(alloc)?)
}

fn few_without(alloc: Global) -> Made {
    FEW.to_interval_set(alloc)?.difference(&many(alloc)?)
}

/// Three of the many are members of the few, and the others stay.
fn is_many_without(alloc: Global) -> Result<bool, AllocError> {
    let (few, many) = (FEW.to_interval_set(alloc)?, many(alloc)?);
    let left = many.difference(&few)?;
    Ok(left.interval_count() == 45 && left.is_subset(&many) && left.is_disjoint(&few))
}
