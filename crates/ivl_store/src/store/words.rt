//! Sums over sets whose members lie close together: bit `p` of a word stands for the number `p` above a base.
ghost use Rattle.std.specs.Prelude.{◌≡◌, ◌≢◌, ◌↔◌, ◌⊎◌, [], ℕ, ◌+◌, ◌<◌, ◌≤◌, ℤ, ◌≤ℤ◌, ◌<ℤ◌, pos, ◌+ℤ◌, ◌-ℤ◌, IfOk, false, true};
ghost use Rattle.ivl_laws.specs.Sets.{IsBetween, IsInRange};
ghost use Rattle.ivl_laws.specs.Runs.{Covers, IsRunListIn, IsRunsOf};
ghost use Rattle.ivl_store.specs.Words.{AreSupported, HasBit, InWord, IsNear, IsWordOf, SupportsAt};

use intervallum::interval::Interval;
use intervallum::interval_set::IntervalSet;
use intervallum::ops::Range;
use intervallum::width::Width;
use std::alloc::AllocError;

/// The words of the sets at x, y and z of a sum.
#[derive(Clone, Copy)]
pub(super) struct Words {
    pub x: u64,
    pub y: u64,
    pub z: u64,
}

/// The word whose bits from one place to another are set.
fn bits_between(low: u32, high: u32) -> u64
    requires in_order { low ≤ high }
    requires fits { high < 64 }
    ensures { (p : ℕ) → HasBit result p ↔ ((low ≤ p) × (p ≤ high)) }
{
    (u64::MAX >> (63 - high)) & (u64::MAX << low)
}

/// The word of one bit.
fn bit(place: u32) -> u64
    requires { place < 64 }
    ensures { (p : ℕ) → HasBit result p ↔ (p ≡ place) }
{
    1 << place
}

/// The word without one of its bits.
fn without_bit(word: u64, place: u32) -> u64
    requires { HasBit word place }
    ensures left { (p : ℕ) → HasBit result p ↔ (HasBit word p × (p ≢ place)) }
    ensures less { result < word }
{
    word & !bit(place)
}

/// The words with what is supported by bit `place` of `x`, where `y` and `z` are the words of the other sets.
fn with_supported(kept: Words, place: u32, y: u64, z: u64) -> Words
    requires { place < 64 }
    ensures at_x { (p : ℕ) → HasBit result.x p ↔ (HasBit kept.x p ⊎ ((p ≡ place) × (q : ℕ) × SupportsAt y z place q)) }
    ensures at_y { (q : ℕ) → HasBit result.y q ↔ (HasBit kept.y q ⊎ SupportsAt y z place q) }
    ensures at_z { (r : ℕ) → HasBit result.z r ↔ (HasBit kept.z r ⊎ ((q : ℕ) × SupportsAt y z place q × (place + q ≡ r))) }
{
    let met = (z >> place) & y;
    let one = if met == 0 { 0 } else { 1 << place };
    Words {
        x: kept.x | one,
        y: kept.y | met,
        z: kept.z | (met << place),
    }
}

/// What is left of three sets of small numbers of which a sum holds.
pub(super) fn supported(x: u64, y: u64, z: u64) -> Words
    ensures { AreSupported x y z result.x result.y result.z }
{
    let mut kept = Words { x: 0, y: 0, z: 0 };
    let mut rest = x;
    'places: while rest != 0 {
        let place = rest.trailing_zeros();
        kept = with_supported(kept, place, y, z);
        rest = without_bit(rest, place);
    }
    kept
}

/// How far a value stands above a base.
pub(super) fn above<B: Width>(value: B, base: i64) -> i128
    requires in_range { IsBetween B.whole (B.value value) }
    requires near { IsNear base }
    ensures { result ≡ B.value value -ℤ base }
{
    value.number() - base as i128
}

/// Whether a value stands below a base.
pub(super) fn is_below<B: Width>(value: B, base: i64) -> bool
    ensures below { result ≡ true → B.value value <ℤ base }
    ensures from { result ≡ false → base ≤ℤ B.value value }
{
    value.number() < base as i128
}

/// Whether a value stands above the places of a word.
pub(super) fn is_past<B: Width>(value: B, base: i64) -> bool
    requires { IsNear base }
    ensures past { result ≡ true → (base +ℤ pos 63) <ℤ B.value value }
    ensures within { result ≡ false → B.value value ≤ℤ (base +ℤ pos 63) }
{
    value.number() > (base + 63) as i128
}

/// The place of a number that has one.
fn place_of(number: i128) -> u32
    requires { (pos 0 ≤ℤ number) × (number ≤ℤ pos 63) }
    ensures { pos result ≡ number }
{
    number as u32
}

/// The first place from a number on.
fn first_place(number: i128) -> u32
    requires { number ≤ℤ pos 63 }
    ensures { ((number <ℤ pos 0) × (result ≡ 0)) ⊎ (pos result ≡ number) }
{
    if number < 0 {
        return 0;
    }
    place_of(number)
}

/// The last place up to a number.
fn last_place(number: i128) -> u32
    requires { pos 0 ≤ℤ number }
    ensures { ((pos 63 <ℤ number) × (result ≡ 63)) ⊎ ((number ≤ℤ pos 63) × (pos result ≡ number)) }
{
    if 63 < number {
        return 63;
    }
    place_of(number)
}

/// The word of the numbers of a run, from a base on.
fn word_of_run<B: Width>(run: Interval<B>, base: i64) -> u64
    requires in_range { IsInRange B.whole run }
    requires in_order { run.0 ≤ℤ run.1 }
    requires near { IsNear base }
    ensures { IsWordOf result base (IsBetween run) }
{
    let low = above(run.lower_bound(), base);
    let high = above(run.upper_bound(), base);
    if high < 0 || 63 < low {
        return 0;
    }
    bits_between(first_place(low), last_place(high))
}

/// The word of the numbers of a run, all of which have a place.
fn word_of_run_within<B: Width>(run: Interval<B>, base: i64) -> u64
    requires in_range { IsInRange B.whole run }
    requires in_order { run.0 ≤ℤ run.1 }
    requires near { IsNear base }
    requires first { base ≤ℤ run.0 }
    requires last { run.1 ≤ℤ (base +ℤ pos 63) }
    ensures { IsWordOf result base (IsBetween run) }
{
    let low = place_of(above(run.lower_bound(), base));
    let high = place_of(above(run.upper_bound(), base));
    bits_between(low, high)
}

/// The word of a set, all of whose members have a place.
pub(super) fn word_within<B: Width>(runs: &[Interval<B>], base: i64) -> u64
    requires runs { IsRunListIn B.whole runs.now }
    requires near { IsNear base }
    requires first { (v : ℤ) → Covers runs.now v → base ≤ℤ v }
    requires last { (v : ℤ) → Covers runs.now v → v ≤ℤ (base +ℤ pos 63) }
    ensures { IsWordOf result base (Covers runs.now) }
{
    let mut word = 0;
    for run in runs {
        word |= word_of_run_within(*run, base);
    }
    word
}

/// The word of a set, of its members from a base on.
pub(super) fn word_of<B: Width>(runs: &[Interval<B>], base: i64) -> u64
    requires runs { IsRunListIn B.whole runs.now }
    requires near { IsNear base }
    ensures { IsWordOf result base (Covers runs.now) }
{
    let mut word = 0;
    for run in runs {
        word |= word_of_run(*run, base);
    }
    word
}

/// The first and the last of some bits that are set, one after another, of which the first is the lowest, and no bit
/// follows the last.
fn first_bits(word: u64) -> (u32, u32)
    requires { word ≢ 0 }
    ensures in_order { result.0 ≤ result.1 }
    ensures fits { result.1 < 64 }
    ensures set { (p : ℕ) → result.0 ≤ p → p ≤ result.1 → HasBit word p }
    ensures lowest { (p : ℕ) → HasBit word p → result.0 ≤ p }
    ensures ends { ¬ (HasBit word (result.1 + 1)) }
{
    if word == u64::MAX {
        return (0, 63);
    }
    let low = word.trailing_zeros();
    let count = (word >> low).trailing_ones();
    (low, low + count - 1)
}

/// The bits of a word above one of its bits.
fn bits_above(word: u64, place: u32) -> u64
    requires fits { place < 64 }
    requires set { HasBit word place }
    ensures left { (p : ℕ) → HasBit result p ↔ (HasBit word p × (place < p)) }
    ensures less { result < word }
{
    word & (!1 << place)
}

/// The set of the numbers of a word, above a base, in the memory of an empty set.
#[inline(always)]
pub(super) fn set_of_word<B: Width>(
    empty: IntervalSet<B>,
    word: u64,
    base: i64,
) -> Result<IntervalSet<B>, AllocError>
    requires empty { empty ≡ [] }
    requires near { IsNear base }
    requires in_range { (p : ℕ) → HasBit word p → IsBetween B.whole (base +ℤ pos p) }
    ensures { IfOk result (λ L. IsRunsOf L (InWord base word)) }
{
    let mut set = empty;
    let mut rest = word;
    'runs: while rest != 0 {
        let (low, high) = first_bits(rest);
        set.push_run(run_of(base, low, high))?;
        rest = bits_above(rest, high);
    }
    set.in_whole();
    Ok(set)
}

/// The run from one place to another above a base.
fn run_of<B: Width>(base: i64, low: u32, high: u32) -> Interval<B>
    requires near { IsNear base }
    requires small { (low ≤ high) × (high < 64) }
    requires first { IsBetween B.whole (base +ℤ pos low) }
    requires last { IsBetween B.whole (base +ℤ pos high) }
    ensures { result ≡ (base +ℤ pos low, base +ℤ pos high) }
{
    Interval::new(value_of(base, low), value_of(base, high))
}

/// The value that stands so far above a base.
fn value_of<B: Width>(base: i64, place: u32) -> B
    requires near { IsNear base }
    requires small { place < 64 }
    requires in_range { IsBetween B.whole (base +ℤ pos place) }
    ensures { B.value result ≡ base +ℤ pos place }
{
    B::from_number((base + place as i64) as i128).unwrap()
}
