//! The numbers on a line.
ghost use Rattle.std.specs.Prelude.{◌≡◌, IfOk, option_map};
ghost use Rattle.ivl_lines.specs.Words.{words_between};
ghost use Rattle.ivl_lines.specs.Numbers.{number_of, pair_of, pairs_of};

use crate::words::next_word;
use std::alloc::{AllocError, Global};

/// Parses a number: an optional minus sign and one or more digits. Returns `None` if the word is
/// not a number of `i64`. Linear, does not allocate.
///
/// ```
/// assert_eq!(rt; number_from("-12"), Some(-12));
/// assert_eq!(rt; number_from("+12"), None);
/// ```
pub fn number_from(word: &str) -> Option<i64>
    // The result is the number that the word is, or `None` if it is none of `i64`.
    ensures { result ≡ number_of word.now }
{
    if word.starts_with('+') {
        return None;
    }
    word.parse().ok()
}

/// Parses the words of a text as pairs of numbers. Returns `None` if a word is not a number, or the
/// count of words is odd. Linear; allocates the list of the pairs.
///
/// # Errors
///
/// Fails only if allocation fails.
///
/// ```
/// assert_eq!(rt; pairs_from(alloc, "1 9 20 30")?, Some(vec![in alloc; (1, 9), (20, 30)]?));
/// assert_eq!(rt; pairs_from(alloc, "1 9 20")?, None);
/// ```
pub fn pairs_from(alloc: Global, text: &str) -> Result<Option<Vec<(i64, i64)>>, AllocError>
    // On success, the result is the numbers of the text two by two, or `None` if a word is no number, or their count is
    // odd.
    ensures { IfOk result (λ pairs. option_map (λ v. v.items) pairs
        ≡ pairs_of (words_between text.now)) }
{
    let mut pairs = Vec::new(alloc);
    let mut rest = text;
    while let Some((l, after)) = next_word(rest) {
        let Some((u, after)) = next_word(after) else {
            return Ok(None);
        };
        match pair_from(l, u) {
            Some(pair) => pairs.push(pair)?,
            None => return Ok(None),
        }
        rest = after;
    }
    Ok(Some(pairs))
}

fn pair_from(l: &str, u: &str) -> Option<(i64, i64)>
    ensures { result ≡ pair_of l.now u.now }
{
    Some((number_from(l)?, number_from(u)?))
}
