//! Queries on lists, which make the sets of their members.
ghost use Rattle.std.specs.Prelude.{◌↔◌, ◌+◌, ◌^◌, ◌<◌, IfOk, IsTrue, length, map};
ghost use Rattle.ivl_laws.specs.Sets.{HasSome, Intersection, IsBetween, IsSubset, Union};
ghost use Rattle.ivl_laws.specs.Runs.{Covers, IsRunListIn};
ghost use Rattle.ivl_buffers.specs.Answers.{AnswersQuestion, AnswersSize};
ghost use Rattle.ivl_buffers.specs.Operations.{HoldsOf};

use crate::merging::{difference, intersection};
use crate::pair::Pair;
use crate::reading::{are_inside, set_of};
use crate::run_lists::can_walk_both;
use crate::writing::{OUT_OF_MEMORY, OUT_OF_RANGE};
use intervallum::ops::{Cardinality, Overlap, Subset};
use intervallum::width::Width;
use std::alloc::{AllocError, Global};

/// What is asked of two lists.
#[derive(Clone, Copy)]
pub enum Asking {
    /// Whether each member of the first is one of the second.
    Within,
    /// Whether some number is a member of both.
    Meets,
    /// Whether the two have the same members.
    Alike,
}

/// Returns 1 for yes, 0 for no, or an error code. `O(n + m)` if both are lists of runs, else
/// `O(n log n + m log m)`.
pub fn ask<R: Pair>(alloc: Global, asking: Asking, a: &[R], b: &[R]) -> i64
    // The result is `out_of_range` exactly when a member is outside the range; else 1 if what is asked holds of the
    // members and 0 if not, or `out_of_memory`.
    ensures { AnswersQuestion R.Bound.whole (Union (Covers (map R.pair a.now)) (Covers (map R.pair b.now)))
        (HoldsOf asking (Covers (map R.pair a.now)) (Covers (map R.pair b.now))) result }
{
    if can_walk_both(a, b) {
        return if holds(asking, a, b) { 1 } else { 0 };
    }
    if !are_inside(a) || !are_inside(b) {
        return OUT_OF_RANGE;
    }
    match asked(alloc, asking, a, b) {
        Ok(true) => 1,
        Ok(false) => 0,
        Err(_) => OUT_OF_MEMORY,
    }
}

/// What is asked of two lists of runs.
fn holds<R: Pair>(asking: Asking, a: &[R], b: &[R]) -> bool
    requires first { IsRunListIn R.Bound.whole (map R.pair a.now) }
    requires second { IsRunListIn R.Bound.whole (map R.pair b.now) }
    requires counted { length a.now + length b.now < 2 ^ 63 }
    ensures { IsTrue result ↔ HoldsOf asking (Covers (map R.pair a.now)) (Covers (map R.pair b.now)) }
{
    match asking {
        Asking::Within => is_within(a, b),
        Asking::Meets => meets(a, b),
        Asking::Alike => is_within(a, b) && is_within(b, a),
    }
}

/// True exactly when the difference of two lists of runs, which is only counted, has no run.
fn is_within<R: Pair>(a: &[R], b: &[R]) -> bool
    requires first { IsRunListIn R.Bound.whole (map R.pair a.now) }
    requires second { IsRunListIn R.Bound.whole (map R.pair b.now) }
    requires counted { length a.now + length b.now < 2 ^ 63 }
    ensures { IsTrue result ↔ IsSubset (Covers (map R.pair a.now)) (Covers (map R.pair b.now)) }
{
    difference(a, b, &mut []) == 0
}

/// True exactly when the intersection of two lists of runs, which is only counted, has a run.
fn meets<R: Pair>(a: &[R], b: &[R]) -> bool
    requires first { IsRunListIn R.Bound.whole (map R.pair a.now) }
    requires second { IsRunListIn R.Bound.whole (map R.pair b.now) }
    requires counted { length a.now + length b.now < 2 ^ 63 }
    ensures { IsTrue result ↔ HasSome (Intersection (Covers (map R.pair a.now)) (Covers (map R.pair b.now))) }
{
    intersection(a, b, &mut []) > 0
}

fn asked<R: Pair>(alloc: Global, asking: Asking, a: &[R], b: &[R]) -> Result<bool, AllocError>
    requires first { IsSubset (Covers (map R.pair a.now)) (IsBetween R.Bound.whole) }
    requires second { IsSubset (Covers (map R.pair b.now)) (IsBetween R.Bound.whole) }
    ensures { IfOk result (λ t. IsTrue t ↔ HoldsOf asking (Covers (map R.pair a.now)) (Covers (map R.pair b.now))) }
{
    let left = set_of(alloc, a)?;
    let right = set_of(alloc, b)?;
    Ok(match asking {
        Asking::Within => left.is_subset(&right),
        Asking::Meets => left.overlap(&right),
        Asking::Alike => left == right,
    })
}

/// Writes the number of members and returns 0, or returns an error code. `O(n log n)` for `n` pairs, or
/// `O(n)` if they ascend.
pub fn count<R: Pair>(alloc: Global, a: &[R], size: &mut <R::Bound as Width>::Output) -> i64
    // The result is `out_of_range` exactly when a member is outside the range; else the number of members is written,
    // and 0 returned, or it is `out_of_memory`. With a code nothing is written.
    ensures { AnswersSize R.Bound.whole (Covers (map R.pair a.now))
        (R.Bound.Output.size size.old) (R.Bound.Output.size size.new) result }
{
    if !are_inside(a) {
        return OUT_OF_RANGE;
    }
    match set_of(alloc, a) {
        Ok(set) => {
            *size = set.size();
            0
        }
        Err(_) => OUT_OF_MEMORY,
    }
}
