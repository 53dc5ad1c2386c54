//! The runs of the operands, and of the results, which were worked out by hand.

use intervallum::prelude::{Bounded, Interval, IntervalSet, IsEmpty};
use std::alloc::AllocError;

/// The runs of a set, as pairs of bounds.
pub type Runs = &'static [(i32, i32)];

/// The pairs of the first operand of each call.
pub const FIRST: [(i32, i32); 4] = [(1, 2), (5, 6), (9, 10), (13, 14)];

/// The runs that the first operand is to have.
pub const FIRST_RUNS: Runs = &FIRST;

/// The pairs of the second operand of each call.
pub const SECOND: [(i32, i32); 4] = [(2, 5), (20, 21), (30, 31), (40, 41)];

/// The runs that the second operand is to have.
pub const SECOND_RUNS: Runs = &SECOND;

const GREATEST: i32 = i32::MAX;

/// The run of every number in range.
pub const WHOLE: Runs = &[(-GREATEST, GREATEST)];

/// What one of the operands has.
pub const UNITED: Runs = &[(1, 6), (9, 10), (13, 14), (20, 21), (30, 31), (40, 41)];

/// The first operand, split at 6.
pub const FROM_SIX: Runs = &[(6, 6), (9, 10), (13, 14)];

/// The rest of the first operand, split at 6.
pub const BELOW_SIX: Runs = &[(1, 2), (5, 5)];

/// What both operands have.
pub const SHARED: Runs = &[(2, 2), (5, 5)];

/// What one operand has alone.
pub const APART: Runs = &[
    (1, 1),
    (3, 4),
    (6, 6),
    (9, 10),
    (13, 14),
    (20, 21),
    (30, 31),
    (40, 41),
];

/// What the first operand lacks.
pub const BETWEEN: Runs = &[(-GREATEST, 0), (3, 4), (7, 8), (11, 12), (15, GREATEST)];

/// The sums of the operands' numbers.
pub const SUMS: Runs = &[
    (3, 19),
    (21, 23),
    (25, 27),
    (29, 37),
    (39, 47),
    (49, 51),
    (53, 55),
];

/// Their differences.
pub const DIFFERENCES: Runs = &[
    (-40, -38),
    (-36, -34),
    (-32, -24),
    (-22, -14),
    (-12, -10),
    (-8, -6),
    (-4, 12),
];

/// Their products.
pub const PRODUCTS: Runs = &[
    (2, 82),
    (100, 126),
    (150, 246),
    (260, 310),
    (360, 434),
    (520, 574),
];

/// The first operand with three added to each number, with three taken away, and times -3.
pub const PLUS_THREE: Runs = &[(4, 5), (8, 9), (12, 13), (16, 17)];

pub const MINUS_THREE: Runs = &[(-2, -1), (2, 3), (6, 7), (10, 11)];

pub const TIMES_MINUS_THREE: Runs = &[(-42, -39), (-30, -27), (-18, -15), (-6, -3)];

/// Whether a call answered the set of these runs.
pub fn is_of(
    answer: Result<IntervalSet<i32>, AllocError>,
    runs: &[(i32, i32)],
) -> Result<bool, AllocError> {
    Ok(has_runs(&answer?, runs))
}

/// The set has these runs.
pub fn has_runs(set: &IntervalSet<i32>, runs: &[(i32, i32)]) -> bool {
    for (run, (lower, upper)) in set.iter().zip(runs) {
        if !is_run(run, *lower, *upper) {
            return false;
        }
    }
    set.interval_count() == runs.len()
}

/// The interval holds the numbers from one to another.
fn is_run(run: &Interval<i32>, lower: i32, upper: i32) -> bool {
    if run.is_empty() {
        return false;
    }
    let (first, last) = (run.lower(), run.upper());
    first == lower && last == upper
}
