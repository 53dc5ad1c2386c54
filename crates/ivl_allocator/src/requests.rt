//! What the words after a command ask for.
ghost use Rattle.std.specs.Prelude.{◌≡◌, ◌<◌, ◌≤◌, ◌==◌, Ok, Err, IfErr, IfOk, pos, slice_index};
ghost use Rattle.ivl_laws.specs.Sets.{IsBetween, IsSubset};
ghost use Rattle.ivl_lines.specs.Words.{words_between};
ghost use Rattle.ivl_allocator.specs.Faults.{told_fault};
ghost use Rattle.ivl_allocator.specs.Requests.{IsTakeWithin, given_of, number_in, placed_by, taken_of};

use crate::faults::Fault;
use intervallum::interval::Interval;
use intervallum::ops::Range;
use ivl_lines::{next_word, number_from, one_word, two_words};

const TAKE: &str = "take COUNT, take COUNT at NUMBER or take COUNT above NUMBER";

const GIVE: &str = "give FIRST LAST";

/// Returns whether the first word of a line begins a comment: with `#`, which is 35.
pub fn is_comment(name: &str) -> bool
    ensures { result ≡ (slice_index name.now 0 == 35) }
{
    name.starts_with('#')
}

/// What `take` asks for: how many numbers in a row, and where.
#[derive(Clone, Copy)]
pub enum Take {
    /// The lowest so many.
    Lowest(u64),
    /// So many from a number on.
    At(u64, u64),
    /// The lowest so many above a number.
    Above(u64, u64),
}

/// Reads the words after `take`: from 1 to `most` numbers, at or above a number from `first` to `last` if there is one.
pub fn taking_from(words: &str, first: u64, last: u64, most: u64) -> Result<Take, Fault<'_>>
    ensures ok { IfOk result (λ take. taken_of first last most (words_between words.entry.now) ≡ Ok take) }
    ensures err { IfErr result (λ fault. taken_of first last most (words_between words.entry.now) ≡ Err (told_fault fault)) }
    ensures within { IfOk result (IsTakeWithin last most) }
{
    let Some((count, rest)) = next_word(words) else {
        return Err(Fault::Form(TAKE));
    };
    let count = number_within(count, 1, most)?;
    match next_word(rest) {
        None => Ok(Take::Lowest(count)),
        Some((how, places)) => place_from(count, how, places, first, last),
    }
}

// Where so many numbers are to be taken, by the word after the count and those after it.
fn place_from<'a>(
    count: u64,
    how: &'a str,
    places: &'a str,
    first: u64,
    last: u64,
) -> Result<Take, Fault<'a>>
    requires { 1 ≤ count }
    ensures ok { IfOk result (λ take. placed_by first last count how.entry.now (words_between places.entry.now) ≡ Ok take) }
    ensures err { IfErr result (λ fault. placed_by first last count how.entry.now (words_between places.entry.now) ≡ Err (told_fault fault)) }
    ensures within { IfOk result (IsTakeWithin last count) }
{
    let Some(place) = one_word(places) else {
        return Err(Fault::Form(TAKE));
    };
    match how {
        "at" => Ok(Take::At(count, number_within(place, first, last)?)),
        "above" => Ok(Take::Above(count, number_within(place, first, last)?)),
        _ => Err(Fault::Form(TAKE)),
    }
}

/// Reads the words after `give`: two numbers in order, from `first` to `last`, which is no more than a set over `u64`
/// can hold.
pub fn given_from(words: &str, first: u64, last: u64) -> Result<Interval<u64>, Fault<'_>>
    requires { last < u64.MAX }
    ensures ok { IfOk result (λ run. given_of first last (words_between words.entry.now) ≡ Ok run) }
    ensures err { IfErr result (λ fault. given_of first last (words_between words.entry.now) ≡ Err (told_fault fault)) }
    ensures within { IfOk result (λ run. IsSubset (IsBetween run) (IsBetween (pos first, pos last))) }
{
    let Some((lower, upper)) = two_words(words) else {
        return Err(Fault::Form(GIVE));
    };
    let lower = number_within(lower, first, last)?;
    let upper = number_within(upper, lower, last)?;
    Ok(Interval::new(lower, upper))
}

/// The number that a word is, from `least` to `most`.
fn number_within(word: &str, least: u64, most: u64) -> Result<u64, Fault<'_>>
    ensures ok { IfOk result (λ number. number_in least most word.entry.now ≡ Ok number) }
    ensures err { IfErr result (λ fault. number_in least most word.entry.now ≡ Err (told_fault fault)) }
    ensures within { IfOk result (λ number. (least ≤ number) × (number ≤ most)) }
{
    let Some(number) = number_from(word) else {
        return Err(Fault::Number(word));
    };
    match u64::try_from(number) {
        Ok(number) if number < least => Err(Fault::Below(word, least)),
        Ok(number) if most < number => Err(Fault::Above(word, most)),
        Ok(number) => Ok(number),
        Err(_) => Err(Fault::Below(word, least)),
    }
}
