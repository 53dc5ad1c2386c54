//! What is made of two run lists by one walk over both, in the caller's buffer.
//!
//! A walk writes the runs of its answer to the start of the buffer, as many as it has room for, and
//! returns the number of all of them. It is linear in the runs of both lists, and does not allocate.
ghost use Rattle.std.specs.Prelude.{◌+◌, ◌^◌, ◌<◌, ◌≤◌, ℤ, List, length, map};
ghost use Rattle.ivl_laws.specs.Sets.{Complement, Intersection, SymmetricDifference, Union, Without};
ghost use Rattle.ivl_laws.specs.Runs.{Covers, IsRunListIn};
ghost use Rattle.ivl_buffers.specs.Merging.{IsLaid};

use crate::pair::Pair;
use ivl_merges::merges;
use ivl_merges::sink::Places;

/// Writes the members of both run lists. `O(n + m)`.
pub fn intersection<R: Pair>(a: &[R], b: &[R], out: &mut [R]) -> usize
    requires first { IsRunListIn R.Bound.whole (map R.pair a.now) }
    requires second { IsRunListIn R.Bound.whole (map R.pair b.now) }
    requires counted { length a.now + length b.now < 2 ^ 63 }
    // The runs of exactly the numbers in both lists are laid in the slice, as many as it has room for, and the number of
    // all is returned, at most as many as the two lists have together.
    ensures runs { (L : List (ℤ × ℤ)) × IsLaid (Intersection (Covers (map R.pair a.now)) (Covers (map R.pair b.now)))
        (map R.pair out.old) (map R.pair out.new) result L }
    ensures at_most { result ≤ length a.now + length b.now }
{
    let mut made = Places::new(out);
    merges::intersection(a, b, &mut made);
    made.count()
}

/// Writes the members of the first run list that are not in the second. `O(n + m)`.
pub fn difference<R: Pair>(a: &[R], b: &[R], out: &mut [R]) -> usize
    requires first { IsRunListIn R.Bound.whole (map R.pair a.now) }
    requires second { IsRunListIn R.Bound.whole (map R.pair b.now) }
    requires counted { length a.now + length b.now < 2 ^ 63 }
    // The runs of exactly the numbers in `a` and not in `b` are laid in the slice, as many as it has room for, and the
    // number of all is returned, at most as many as the two lists have together.
    ensures runs { (L : List (ℤ × ℤ)) × IsLaid (Without (Covers (map R.pair a.now)) (Covers (map R.pair b.now)))
        (map R.pair out.old) (map R.pair out.new) result L }
    ensures at_most { result ≤ length a.now + length b.now }
{
    let mut made = Places::new(out);
    merges::difference(a, b, &mut made);
    made.count()
}

/// Writes the numbers of the range that are in no run of the list. `O(n)`.
pub fn complement<R: Pair>(runs: &[R], out: &mut [R]) -> usize
    requires runs { IsRunListIn R.Bound.whole (map R.pair runs.now) }
    requires counted { length runs.now < 2 ^ 62 }
    // The runs of exactly the numbers of the range that are not in the list are laid in the slice, as many as it has
    // room for, and the number of all is returned, at most one more than the list has.
    ensures runs { (L : List (ℤ × ℤ)) × IsLaid (Complement R.Bound.whole (Covers (map R.pair runs.now))) (map R.pair out.old) (map R.pair out.new) result L }
    ensures at_most { result ≤ length runs.now + 1 }
{
    let mut made = Places::new(out);
    merges::complement(runs, &mut made);
    made.count()
}

/// Writes the members of either run list. `O(n + m)`.
pub fn union<R: Pair>(a: &[R], b: &[R], out: &mut [R]) -> usize
    requires first { IsRunListIn R.Bound.whole (map R.pair a.now) }
    requires second { IsRunListIn R.Bound.whole (map R.pair b.now) }
    requires counted { length a.now + length b.now < 2 ^ 63 }
    // The runs of exactly the numbers in either list are laid in the slice, as many as it has room for, and the number of
    // all is returned, at most as many as the two lists have together.
    ensures runs { (L : List (ℤ × ℤ)) × IsLaid (Union (Covers (map R.pair a.now)) (Covers (map R.pair b.now)))
        (map R.pair out.old) (map R.pair out.new) result L }
    ensures at_most { result ≤ length a.now + length b.now }
{
    let mut made = Places::new(out);
    merges::union(a, b, &mut made);
    made.count()
}

/// Writes the members of exactly one of the two run lists. `O(n + m)`.
pub fn symmetric_difference<R: Pair>(a: &[R], b: &[R], out: &mut [R]) -> usize
    requires first { IsRunListIn R.Bound.whole (map R.pair a.now) }
    requires second { IsRunListIn R.Bound.whole (map R.pair b.now) }
    requires counted { length a.now + length b.now < 2 ^ 63 }
    // The runs of exactly the numbers in either list and not in both are laid in the slice, as many as it has room for,
    // and the number of all is returned, at most as many as the two lists have together.
    ensures runs { (L : List (ℤ × ℤ)) × IsLaid (SymmetricDifference (Covers (map R.pair a.now)) (Covers (map R.pair b.now)))
        (map R.pair out.old) (map R.pair out.new) result L }
    ensures at_most { result ≤ length a.now + length b.now }
{
    let mut made = Places::new(out);
    merges::symmetric_difference(a, b, &mut made);
    made.count()
}
