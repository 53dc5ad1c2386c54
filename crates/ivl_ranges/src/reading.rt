//! Ranges and lengths, as the words of a line give them.
ghost use Rattle.std.specs.Prelude.{◌≡◌, ◌≢◌, ◌⊎◌, ℤ, List, [], IfErr, IfNone, IfOk, IfSome, IsErrOf};
ghost use Rattle.ivl_lines.specs.Words.{words_between};
ghost use Rattle.ivl_ranges.specs.Ranges.{length_in, AreRanges, IsNoSet, IsRange, IsSetOf};

use crate::reply::Fault;
use intervallum::interval::Interval;
use intervallum::interval_set::{IntervalSet, ToIntervalSet};
use ivl_lines::{next_word, number_from, one_word};
use std::alloc::{AllocError, Global};

/// Returns the set of the numbers of the ranges that the words are. `O(n log n)` for `n` words.
///
/// # Errors
///
/// - [`Fault::Ranges`] if there is no word, or one that is not a range.
/// - [`Fault::Memory`] if an allocation fails.
pub fn set_from(alloc: Global, words: &str) -> Result<IntervalSet<i64>, Fault>
    ensures ok { IfOk result (λ L. IsSetOf (words_between words.now) L) }
    ensures none { IsErrOf result Fault.Ranges → IsNoSet (words_between words.now) }
    ensures memory { IsErrOf result Fault.Memory → words_between words.now ≢ [] }
    ensures no_other { IfErr result (λ fault. (fault ≡ Fault.Ranges) ⊎ (fault ≡ Fault.Memory)) }
{
    if next_word(words).is_none() {
        return Err(Fault::Ranges);
    }
    match ranges_from(alloc, words)? {
        Some(ranges) => Ok(ranges.to_interval_set(alloc)?),
        None => Err(Fault::Ranges),
    }
}

/// The two ends of each range, or `None` if a word is not a range.
fn ranges_from(alloc: Global, words: &str) -> Result<Option<Vec<(i64, i64)>>, AllocError>
    ensures some { IfOk result (λ ranges. IfSome ranges (λ v. AreRanges (words_between words.now) v.items)) }
    ensures none { IfOk result (λ ranges.
        IfNone ranges ((list : List (ℤ × ℤ)) → ¬ (AreRanges (words_between words.now) list))) }
{
    let mut ranges = Vec::new(alloc);
    let mut rest = words;
    'words: while let Some((word, after)) = next_word(rest) {
        let Some(range) = range_from(word) else {
            return Ok(None);
        };
        ranges.push(range)?;
        rest = after;
    }
    Ok(Some(ranges))
}

/// The two ends of a range, which stand around two dots.
fn range_from(word: &str) -> Option<(i64, i64)>
    ensures some { IfSome result (λ range. IsRange word.now range) }
    ensures none { IfNone result ((range : ℤ × ℤ) → ¬ (IsRange word.now range)) }
{
    let (lower, rest) = word.split_once('.')?;
    let upper = rest.strip_prefix('.')?;
    let (lower, upper) = (number_from(lower)?, number_from(upper)?);
    if lower <= upper && Interval::in_range(lower, upper) {
        Some((lower, upper))
    } else {
        None
    }
}

/// Returns the length that the only word is, or `None` if it is not a number from 0 to 4294967295.
/// Does not allocate.
pub fn length_from(words: &str) -> Option<u32>
    ensures { result ≡ length_in (words_between words.now) }
{
    u32::try_from(number_from(one_word(words)?)?).ok()
}
