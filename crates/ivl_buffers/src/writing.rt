//! The error codes, and how an answer is written to the caller's buffer.
ghost use Rattle.std.specs.Prelude.{◌≡◌, ◌⊎◌, ◌++◌, ◌≤◌, pos, drop, length, map, IsOkAnd};
ghost use Rattle.ivl_buffers.specs.Answers.{Refuses, out_of_memory, written};

use crate::pair::Pair;
use intervallum::interval_set::IntervalSet;
use intervallum::ops::{Bounded, IsEmpty};
use std::alloc::AllocError;

/// Some member of a list is outside the range.
pub const OUT_OF_RANGE: i64 = -1;

/// An allocation failed.
pub const OUT_OF_MEMORY: i64 = -2;

/// Some product is outside the range.
pub const PRODUCT_OUT_OF_RANGE: i64 = -3;

/// Writes the runs of a set if there is room for all, and returns their number. Returns a code if
/// making the set failed, or if the number does not fit `i64`. `O(n)` for `n` runs.
pub fn tell<R: Pair>(made: Result<IntervalSet<R::Bound>, AllocError>, out: &mut [R]) -> i64
    // Either the result is `out_of_memory`, and nothing is written; or there is a set, whose runs are written if there
    // is room, and their number is returned.
    ensures { Refuses out_of_memory (map R.pair out.old) (map R.pair out.new) result
        ⊎ IsOkAnd made (λ L. (result ≡ pos (length L)) × (map R.pair out.new ≡ written L (map R.pair out.old))) }
{
    let Ok(set) = made else {
        return OUT_OF_MEMORY;
    };
    let Ok(count) = i64::try_from(set.interval_count()) else {
        return OUT_OF_MEMORY;
    };
    if set.interval_count() <= out.len() {
        write(&set, out);
    }
    count
}

/// Writes the runs of a set to the first places of the buffer.
fn write<R: Pair>(set: &IntervalSet<R::Bound>, out: &mut [R])
    requires { length set.now ≤ length out.old }
    ensures { map R.pair out.new ≡ set.now ++ drop (length set.now) (map R.pair out.old) }
{
    let runs = set.runs();
    for i in 0..runs.len() {
        let run = runs[i];
        // for the prover: its bounds are in the range
        run.in_whole();
        out[i] = R::of(Bounded::lower(&run), Bounded::upper(&run));
    }
}
