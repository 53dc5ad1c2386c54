//! The words of a text, separated by spaces.
ghost use Rattle.std.specs.Prelude.{◌≡◌, ◌≢◌, ◌<◌, [], ◌∷◌, length, IfNone, IfSome};
ghost use Rattle.ivl_lines.specs.Words.{words_between};

/// Returns the first word and the text after it, or `None` if there is no word. Linear in what it
/// skips and returns as the word, does not allocate.
///
/// ```
/// assert_eq!(rt; next_word("  sum x  y"), Some(("sum", "x  y")));
/// assert_eq!(rt; next_word("   "), None);
/// ```
pub fn next_word(text: &str) -> Option<(&str, &str)>
    // The result is the first word of the text and a shorter rest with the other words, or `None` if it has no word.
    ensures none { IfNone result (words_between text.entry.now ≡ []) }
    ensures some { IfSome result (λ parts. words_between text.entry.now ≡ parts.0.now ∷ words_between parts.1.now) }
    ensures shorter { IfSome result (λ parts. length parts.1.now < length text.entry.now) }
{
    let mut rest = text;
    while let Some((word, after)) = rest.split_once(' ') {
        if !word.is_empty() {
            return Some((word, after));
        }
        rest = after;
    }
    if rest.is_empty() {
        return None;
    }
    Some((rest, ""))
}

/// Returns the only word of a text, or `None` unless there is exactly one. Linear, does not
/// allocate.
///
/// ```
/// assert_eq!(rt; one_word(" x "), Some("x"));
/// assert_eq!(rt; one_word("x y"), None);
/// ```
pub fn one_word(text: &str) -> Option<&str>
    // The result is the one word of the text, or `None` if it does not have exactly one.
    ensures none { IfNone result (length (words_between text.entry.now) ≢ 1) }
    ensures some { IfSome result (λ a. words_between text.entry.now ≡ a.now ∷ []) }
{
    let (a, rest) = next_word(text)?;
    match next_word(rest) {
        Some(_) => None,
        None => Some(a),
    }
}

/// Returns the two words of a text, or `None` unless there are exactly two. Linear, does not
/// allocate.
///
/// ```
/// assert_eq!(rt; two_words("x y "), Some(("x", "y")));
/// assert_eq!(rt; two_words("x"), None);
/// ```
pub fn two_words(text: &str) -> Option<(&str, &str)>
    // The result is the two words of the text, or `None` if it does not have exactly two.
    ensures none { IfNone result (length (words_between text.entry.now) ≢ 2) }
    ensures some { IfSome result (λ w. words_between text.entry.now ≡ w.0.now ∷ w.1.now ∷ []) }
{
    let (a, rest) = next_word(text)?;
    let b = one_word(rest)?;
    Some((a, b))
}

/// Returns the three words of a text, or `None` unless there are exactly three. Linear, does not
/// allocate.
///
/// ```
/// assert_eq!(rt; three_words("x y z"), Some(("x", "y", "z")));
/// assert_eq!(rt; three_words("x y z w"), None);
/// ```
pub fn three_words(text: &str) -> Option<(&str, &str, &str)>
    // The result is the three words of the text, or `None` if it does not have exactly three.
    ensures none { IfNone result (length (words_between text.entry.now) ≢ 3) }
    ensures some { IfSome result (λ w. words_between text.entry.now ≡ w.0.now ∷ w.1.now ∷ w.2.now ∷ []) }
{
    let (a, rest) = next_word(text)?;
    let (b, c) = two_words(rest)?;
    Some((a, b, c))
}
