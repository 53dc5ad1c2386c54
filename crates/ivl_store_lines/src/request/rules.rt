//! Lines that state a rule between variables.
ghost use Rattle.std.specs.Prelude.{◌≡◌, ◌∷◌, Err, IfErr, IfNone, IfOk, IfSome, IsSome, None, Ok, Some, option_map};
ghost use Rattle.ivl_lines.specs.Numbers.{number_of};
ghost use Rattle.ivl_lines.specs.Words.{words_between};
ghost use Rattle.ivl_store_lines.specs.Faults.{told_of};
ghost use Rattle.ivl_store_lines.specs.Requests.{asked_of};
ghost use Rattle.ivl_store_lines.specs.RuleForms.{begins_as_rule, opposite, relation_of, rule_of, shifted_left, shifted_right};

use crate::fault::Fault;
use crate::relation::Relation;
use crate::request::Request;
use ivl_lines::{next_word, number_from, three_words, two_words};

/// Reads the rule of a line, given its first word and those after it: `x <= y`, `x + 3 <= y` or `x <= y + 3`, by `=`
/// and `!=` too, or `x + y = z`. Returns `None` if the line has no such form. Linear in the line; does not allocate.
///
/// # Errors
///
/// `Number` if what is added is not a number, unless it is a name before `=`. `Range` if it is added after the sign and
/// is the least number of `i64`, whose opposite is none of `i64`.
pub fn rule_from<'a>(x: &'a str, words: &'a str) -> Option<Result<Request<'a>, Fault<'a>>>
    ensures none { IfNone result (rule_of (x.entry.now ∷ words_between words.entry.now) ≡ None) }
    ensures ok { IfSome result (λ read. IfOk read (λ request. rule_of (x.entry.now ∷ words_between words.entry.now) ≡ Some (Ok (asked_of request)))) }
    ensures fault { IfSome result (λ read. IfErr read (λ fault. option_map (λ why. Err why) (told_of fault) ≡ rule_of (x.entry.now ∷ words_between words.entry.now))) }
    ensures told { IfSome result (λ read. IfErr read (λ fault. IsSome (told_of fault))) }
{
    if let Some((sign, y)) = two_words(words) {
        return Some(Ok(Request::Relate(relation_from(sign)?, x, y, 0)));
    }
    let (second, rest) = next_word(words)?;
    let (third, fourth, fifth) = three_words(rest)?;
    if second == "+" {
        Some(from_left(x, third, relation_from(fourth)?, fifth))
    } else if fourth == "+" {
        Some(from_right(x, relation_from(second)?, third, fifth))
    } else {
        None
    }
}

/// Returns true exactly when the words after the first are a sign or `+` and any others. Linear in the first of them.
pub fn begins_rule(words: &str) -> bool
    ensures { result ≡ begins_as_rule (words_between words.now) }
{
    match next_word(words) {
        Some((second, _)) => second == "+" || relation_from(second).is_some(),
        None => false,
    }
}

/// The relation of a sign.
fn relation_from(sign: &str) -> Option<Relation>
    ensures { result ≡ relation_of sign.now }
{
    match sign {
        "=" => Some(Relation::Shifted),
        "<=" => Some(Relation::AtMost),
        "!=" => Some(Relation::Differs),
        _ => None,
    }
}

/// The rule that relates `x + word` to `y`.
fn from_left<'a>(
    x: &'a str,
    word: &'a str,
    relation: Relation,
    y: &'a str,
) -> Result<Request<'a>, Fault<'a>>
    ensures ok { IfOk result (λ request. shifted_left x.entry.now word.entry.now y.entry.now relation (number_of word.entry.now) ≡ Ok (asked_of request)) }
    ensures fault { IfErr result (λ fault. option_map (λ why. Err why) (told_of fault) ≡ Some (shifted_left x.entry.now word.entry.now y.entry.now relation (number_of word.entry.now))) }
    ensures told { IfErr result (λ fault. IsSome (told_of fault)) }
{
    let Some(by) = number_from(word) else {
        return match relation {
            Relation::Shifted => Ok(Request::Sum(x, word, y)),
            Relation::AtMost => Err(Fault::Number(word)),
            Relation::Differs => Err(Fault::Number(word)),
        };
    };
    Ok(Request::Relate(relation, x, y, by))
}

/// The rule that relates `x` to `y + word`.
fn from_right<'a>(
    x: &'a str,
    relation: Relation,
    y: &'a str,
    word: &'a str,
) -> Result<Request<'a>, Fault<'a>>
    ensures ok { IfOk result (λ request. shifted_right x.entry.now y.entry.now word.entry.now relation (number_of word.entry.now) ≡ Ok (asked_of request)) }
    ensures fault { IfErr result (λ fault. option_map (λ why. Err why) (told_of fault) ≡ Some (shifted_right x.entry.now y.entry.now word.entry.now relation (number_of word.entry.now))) }
    ensures told { IfErr result (λ fault. IsSome (told_of fault)) }
{
    let Some(number) = number_from(word) else {
        return Err(Fault::Number(word));
    };
    match opposite_of(number) {
        Some(by) => Ok(Request::Relate(relation, x, y, by)),
        None => Err(Fault::Range),
    }
}

/// The number with its sign turned, or `None` if that is no number of `i64`.
fn opposite_of(number: i64) -> Option<i64>
    ensures { result ≡ opposite number }
{
    number.checked_neg()
}
