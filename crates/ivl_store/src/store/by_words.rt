//! Narrowing by a sum where the members of the sets lie close together.
ghost use Rattle.std.specs.Prelude.{◌≡◌, ◌↔◌, ◌^◌, ℕ, ℤ, pos, negsuc, ◌+ℤ◌, ◌≤ℤ◌, IfOk, IsTrue, false};
ghost use Rattle.ivl_laws.specs.Sets.{Differences, HasSome, IsSubset, Sums};
ghost use Rattle.ivl_laws.specs.Runs.{Covers};
ghost use Rattle.ivl_store.specs.NarrowedSets.{IsLeftOf};
ghost use Rattle.ivl_store.specs.Words.{AreSupported, BeginsWithin, HasBit, InWord, IsNear, IsWithin, IsWordOf};

use super::narrowed_sets::{LeftOfThree, narrowed_one_by_one};
use super::spares::Spares;
use super::words::{Words, above, is_below, is_past, set_of_word, supported, word_of, word_within};
use intervallum::interval_set::IntervalSet;
use intervallum::ops::{Bounded, IsEmpty};
use intervallum::width::Width;
use std::alloc::AllocError;

/// How far from 0 a set that is narrowed by a word begins at most.
const FARTHEST: i128 = 1 << 61;

/// Returns what narrowing leaves at x, y and z of a sum: by words where the sums of x and y lie within 64 numbers, and both
/// sets begin not too far from 0, and else for one after another.
#[inline]
pub(super) fn narrowed_by_words<B: Width>(
    x: &IntervalSet<B>,
    y: &IntervalSet<B>,
    z: &IntervalSet<B>,
    spares: &mut Spares<B>,
) -> Result<LeftOfThree<B>, AllocError>
    ensures at_x { IfOk result (λ r. IsLeftOf B.whole x.now (Differences (Covers z.now) (Covers y.now)) r.0) }
    ensures at_y { IfOk result (λ r. IsLeftOf B.whole y.now (Differences (Covers z.now) (Covers x.now)) r.1) }
    ensures at_z { IfOk result (λ r. IsLeftOf B.whole z.now (Sums (Covers x.now) (Covers y.now)) r.2) }
{
    x.in_whole();
    y.in_whole();
    z.in_whole();
    if x.is_empty() || y.is_empty() || z.is_empty() || is_far(x) || is_far(y) {
        return narrowed_one_by_one(x, y, z, spares);
    }
    let x_base = base_of(x);
    let y_base = base_of(y);
    let x_span = span_of(x, x_base);
    let y_span = span_of(y, y_base);
    if 63 < x_span + y_span {
        return narrowed_one_by_one(x, y, z, spares);
    }
    left_by_words(x, y, z, x_base, y_base, x_span <= y_span, spares)
}

/// Whether the least member of a set is far from 0.
fn is_far<B: Width>(set: &IntervalSet<B>) -> bool
    requires some { HasSome (Covers set.now) }
    ensures { result ≡ false → BeginsWithin (Covers set.now) }
{
    set.in_whole();
    let number = set.lower().number();
    number < -FARTHEST || FARTHEST < number
}

/// The least member of a set.
fn base_of<B: Width>(set: &IntervalSet<B>) -> i64
    requires some { HasSome (Covers set.now) }
    requires near { BeginsWithin (Covers set.now) }
    ensures least { (v : ℤ) → Covers set.now v → result ≤ℤ v }
    ensures near { IsWithin result }
{
    set.in_whole();
    set.lower().number() as i64
}

/// How far the greatest member of a set stands above a base.
fn span_of<B: Width>(set: &IntervalSet<B>, base: i64) -> i128
    requires some { HasSome (Covers set.now) }
    requires near { IsWithin base }
    ensures greatest { (v : ℤ) → Covers set.now v → v ≤ℤ (base +ℤ result) }
    ensures near { (negsuc (2 ^ 67) ≤ℤ result) × (result ≤ℤ pos (2 ^ 67)) }
{
    set.in_whole();
    above(set.upper(), base)
}

/// The sum of two bases.
fn sum_of(x_base: i64, y_base: i64) -> i64
    requires x { IsWithin x_base }
    requires y { IsWithin y_base }
    ensures sum { result ≡ x_base +ℤ y_base }
    ensures near { IsNear result }
{
    x_base + y_base
}

/// The word of a set, of its members from a base on.
fn word_of_set<B: Width>(set: &IntervalSet<B>, base: i64) -> u64
    requires some { HasSome (Covers set.now) }
    requires near { IsNear base }
    ensures { IsWordOf result base (Covers set.now) }
{
    set.in_whole();
    if is_below(set.lower(), base) || is_past(set.upper(), base) {
        return word_of(set.iter().as_slice(), base);
    }
    word_of_close_set(set, base)
}

/// The word of a set, all of whose members lie from a base on to 63 above.
fn word_of_close_set<B: Width>(set: &IntervalSet<B>, base: i64) -> u64
    requires near { IsNear base }
    requires first { (v : ℤ) → Covers set.now v → base ≤ℤ v }
    requires last { (v : ℤ) → Covers set.now v → v ≤ℤ (base +ℤ pos 63) }
    ensures { IsWordOf result base (Covers set.now) }
{
    word_within(set.iter().as_slice(), base)
}

/// What narrowing leaves at x, y and z of a sum, where x and y begin at these bases and their sums have at most 64 numbers between the least and the
/// greatest.
fn left_by_words<B: Width>(
    x: &IntervalSet<B>,
    y: &IntervalSet<B>,
    z: &IntervalSet<B>,
    x_base: i64,
    y_base: i64,
    by_x: bool,
    spares: &mut Spares<B>,
) -> Result<LeftOfThree<B>, AllocError>
    requires some_x { HasSome (Covers x.now) }
    requires some_y { HasSome (Covers y.now) }
    requires some_z { HasSome (Covers z.now) }
    requires within_x { IsWithin x_base }
    requires within_y { IsWithin y_base }
    requires least_x { (a : ℤ) → Covers x.now a → x_base ≤ℤ a }
    requires least_y { (b : ℤ) → Covers y.now b → y_base ≤ℤ b }
    requires close { (a b : ℤ) → Covers x.now a → Covers y.now b → (a +ℤ b) ≤ℤ ((x_base +ℤ y_base) +ℤ pos 63) }
    ensures at_x { IfOk result (λ r. IsLeftOf B.whole x.now (Differences (Covers z.now) (Covers y.now)) r.0) }
    ensures at_y { IfOk result (λ r. IsLeftOf B.whole y.now (Differences (Covers z.now) (Covers x.now)) r.1) }
    ensures at_z { IfOk result (λ r. IsLeftOf B.whole z.now (Sums (Covers x.now) (Covers y.now)) r.2) }
{
    let z_base = sum_of(x_base, y_base);
    let xs = word_of_close_set(x, x_base);
    let ys = word_of_close_set(y, y_base);
    let zs = word_of_set(z, z_base);
    let kept = supported_by(xs, ys, zs, by_x);
    let left_of_x = left_of_word(x, x_base, xs, kept.x, spares)?;
    let left_of_y = left_of_word(y, y_base, ys, kept.y, spares)?;
    let left_of_z = left_of_word(z, z_base, zs, kept.z, spares)?;
    Ok((left_of_x, left_of_y, left_of_z))
}

/// What is left of three sets of small numbers of which a sum holds, by a walk over the bits of x or of y.
fn supported_by(x: u64, y: u64, z: u64, by_x: bool) -> Words
    ensures { AreSupported x y z result.x result.y result.z }
{
    if by_x {
        return supported(x, y, z);
    }
    let turned = supported(y, x, z);
    Words {
        x: turned.y,
        y: turned.x,
        z: turned.z,
    }
}

/// Returns the set of the word `left` in place of a set that has the word `had`, or `None` if that is all of it.
#[inline(always)]
fn left_of_word<B: Width>(
    set: &IntervalSet<B>,
    base: i64,
    had: u64,
    left: u64,
    spares: &mut Spares<B>,
) -> Result<Option<IntervalSet<B>>, AllocError>
    requires some { HasSome (Covers set.now) }
    requires near { IsNear base }
    requires had { IsWordOf had base (Covers set.now) }
    requires kept { (p : ℕ) → HasBit left p → HasBit had p }
    ensures { IfOk result (IsLeftOf B.whole set.now (InWord base left)) }
{
    set.in_whole();
    if keeps_all(set, base, had, left) {
        return Ok(None);
    }
    let empty = spares.take(set.allocator());
    Ok(Some(set_of_word(empty, left, base)?))
}

/// Whether the word `left` has all members of a set that has the word `had`.
#[inline(always)]
fn keeps_all<B: Width>(set: &IntervalSet<B>, base: i64, had: u64, left: u64) -> bool
    requires some { HasSome (Covers set.now) }
    requires near { IsNear base }
    requires had { IsWordOf had base (Covers set.now) }
    requires kept { (p : ℕ) → HasBit left p → HasBit had p }
    ensures { IsTrue result ↔ IsSubset (Covers set.now) (InWord base left) }
{
    set.in_whole();
    if left != had || is_below(set.lower(), base) {
        return false;
    }
    if is_past(set.upper(), base) {
        return false;
    }
    true
}
