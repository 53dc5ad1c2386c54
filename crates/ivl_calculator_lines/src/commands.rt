//! Parses the words of a line as a command.
ghost use Rattle.std.specs.Prelude.{◌≡◌, IfOk, IsSomeAnd, MatchOption, None, OnErr, option_map};
ghost use Rattle.std.specs.List.{list_all};
ghost use Rattle.ivl_calculator_lines.specs.Commands.{action_from, looked_up, commands, register_of, register_alone_of, two_registers_of, three_registers_of, register_and_number_of, two_registers_and_number_of, of_pairs};
ghost use Rattle.ivl_lines.specs.Words.{words_between};
ghost use Rattle.ivl_lines.specs.Numbers.{pairs_of};
ghost use Rattle.ivl_lines.specs.Numbers.{is_in_range};
ghost use Rattle.ivl_calculator_lines.specs.View.{action_over_i64};

use intervallum::interval::Interval;
use intervallum::ops::Range;
use ivl_calculator::Command;
use ivl_lines::{next_word, number_from, one_word, pairs_from, three_words, two_words};
use std::alloc::{AllocError, Global};

/// Returns the command with this name and these words after it, or `None` if that is not a command.
///
/// # Errors
///
/// Fails only if an allocation for the numbers of `set` fails; no other command allocates.
pub fn command_from(
    alloc: Global,
    name: &str,
    words: &str,
) -> Result<Option<Command<i64>>, AllocError>
    ensures ok { IfOk result (λ command. option_map action_over_i64 command
        ≡ action_from name.now (words_between words.now)) }
    ensures set { OnErr result (action_from name.now (words_between words.now) ≡ of_pairs (words_between words.now)) }
{
    match name {
        "set" => set_from(alloc, words),
        _ => Ok(command_by_name(name, words)),
    }
}

// All names but `set`, each with the form of the words after it.
fn command_by_name(name: &str, words: &str) -> Option<Command<i64>>
    ensures { option_map action_over_i64 result ≡ looked_up commands name.now (words_between words.now) }
{
    match name {
        "union" => of_three_registers(words, Command::Union),
        "inter" => of_three_registers(words, Command::Inter),
        "diff" => of_three_registers(words, Command::Diff),
        "sym" => of_three_registers(words, Command::Sym),
        "comp" => of_two_registers(words, Command::Comp),
        "left" => of_two_registers_and_number(words, Command::Left),
        "right" => of_two_registers_and_number(words, Command::Right),
        "sleft" => of_two_registers_and_number(words, Command::StrictLeft),
        "sright" => of_two_registers_and_number(words, Command::StrictRight),
        "plus" => of_three_registers(words, Command::Plus),
        "minus" => of_three_registers(words, Command::Minus),
        "times" => of_three_registers(words, Command::Times),
        "plusv" => of_two_registers_and_number(words, Command::PlusValue),
        "minusv" => of_two_registers_and_number(words, Command::MinusValue),
        "timesv" => of_two_registers_and_number(words, Command::TimesValue),
        "has" => of_register_and_number(words, Command::Has),
        "size" => of_register(words, Command::Size),
        "count" => of_register(words, Command::Count),
        "low" => of_register(words, Command::Low),
        "high" => of_register(words, Command::High),
        "same" => of_two_registers(words, Command::Same),
        "sub" => of_two_registers(words, Command::Sub),
        "meets" => of_two_registers(words, Command::Meets),
        "show" => of_register(words, Command::Show),
        _ => None,
    }
}

// The command that `make` returns for the registers and the number in the words, or `None` if the
// words are not exactly these.
fn of_register<F: FnOnce(usize) -> Command<i64>>(words: &str, make: F) -> Option<Command<i64>>
    requires { F.IsAlwaysCallable make }
    ensures { MatchOption (register_alone_of (words_between words.now)) (result ≡ None)
        (λ x. IsSomeAnd result (F.post make x)) }
{
    let a = one_word(words)?;
    Some(make(register_from(a)?))
}

fn of_two_registers<F: FnOnce(usize, usize) -> Command<i64>>(
    words: &str,
    make: F,
) -> Option<Command<i64>>
    requires { F.IsAlwaysCallable make }
    ensures { MatchOption (two_registers_of (words_between words.now)) (result ≡ None)
        (λ x. IsSomeAnd result (F.post make x.0 x.1)) }
{
    let (a, b) = two_words(words)?;
    Some(make(register_from(a)?, register_from(b)?))
}

fn of_three_registers<F: FnOnce(usize, usize, usize) -> Command<i64>>(
    words: &str,
    make: F,
) -> Option<Command<i64>>
    requires { F.IsAlwaysCallable make }
    ensures { MatchOption (three_registers_of (words_between words.now)) (result ≡ None)
        (λ x. IsSomeAnd result (F.post make x.0 x.1 x.2)) }
{
    let (r, a, b) = three_words(words)?;
    Some(make(register_from(r)?, register_from(a)?, register_from(b)?))
}

fn of_register_and_number<F: FnOnce(usize, i64) -> Command<i64>>(
    words: &str,
    make: F,
) -> Option<Command<i64>>
    requires { F.IsAlwaysCallable make }
    ensures { MatchOption (register_and_number_of (words_between words.now)) (result ≡ None)
        (λ x. IsSomeAnd result (F.post make x.0 x.1)) }
{
    let (a, v) = two_words(words)?;
    Some(make(register_from(a)?, number_from(v)?))
}

fn of_two_registers_and_number<F: FnOnce(usize, usize, i64) -> Command<i64>>(
    words: &str,
    make: F,
) -> Option<Command<i64>>
    requires { F.IsAlwaysCallable make }
    ensures { MatchOption (two_registers_and_number_of (words_between words.now)) (result ≡ None)
        (λ x. IsSomeAnd result (F.post make x.0 x.1 x.2)) }
{
    let (r, a, v) = three_words(words)?;
    Some(make(register_from(r)?, register_from(a)?, number_from(v)?))
}

// `set r l u l u ..`
#[tactic(auto, using(crate::proofs::Pairs::number_pairs_same))]
fn set_from(alloc: Global, words: &str) -> Result<Option<Command<i64>>, AllocError>
    ensures { IfOk result (λ command. option_map action_over_i64 command
        ≡ of_pairs (words_between words.now)) }
{
    let Some((first, rest)) = next_word(words) else {
        return Ok(None);
    };
    let Some(r) = register_from(first) else {
        return Ok(None);
    };
    match pairs_from(alloc, rest)? {
        Some(pairs) => Ok(Some(Command::Set(r, pairs))),
        None => Ok(None),
    }
}

/// Whether all pairs of the words are in range, or `None` if the words are no pairs. Linear, does not
/// allocate.
pub fn pairs_in_range(words: &str) -> Option<bool>
    ensures { result ≡ option_map (λ list. list_all is_in_range list) (pairs_of (words_between words.now)) }
{
    let mut in_range = true;
    let mut rest = words;
    while let Some((l, after)) = next_word(rest) {
        let (u, after) = next_word(after)?;
        let (lower, upper) = (number_from(l)?, number_from(u)?);
        in_range &= pair_in_range(lower, upper);
        rest = after;
    }
    Some(in_range)
}

fn pair_in_range(lower: i64, upper: i64) -> bool
    ensures { result ≡ is_in_range (lower, upper) }
{
    Interval::in_range(lower, upper)
}

/// The register that a word names, or `None` if it is not one letter from a to z.
pub fn register_from(word: &str) -> Option<usize>
    ensures { result ≡ register_of word.now }
{
    match word.as_bytes() {
        [letter @ b'a'..=b'z'] => Some((*letter - b'a') as usize),
        _ => None,
    }
}
