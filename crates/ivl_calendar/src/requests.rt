//! What a line asks for, by the words after its first.
ghost use Rattle.std.specs.Prelude.{◌≡◌, ◌≢◌, ◌<◌, ◌≤ℤ◌, ◌^◌, ◌↔◌, [], ◌∷◌, IfErr, IfNone, IfOk, IfSome, IsTrue, Some, length, option_map, pos};
ghost use Rattle.jiff.specs.Words.{IsEpochDay};
ghost use Rattle.ivl_lines.specs.Words.{words_between};
ghost use Rattle.ivl_lines.specs.Numbers.{number_of};
ghost use Rattle.ivl_calendar.specs.Faults.{IsBookFault, IsCancelFault, IsCountFault, IsFreeFault, IsGapFault, IsPersonFault, IsWhoFault, fault_line};
ghost use Rattle.ivl_calendar.specs.Requests.{AsksForFree, AsksForGap, AsksToBook, AsksToCancel, AsksWho, IsName, IsWho};

use crate::dates::{day_from, days_from};
use crate::faults::Fault;
use intervallum::interval::Interval;
use ivl_lines::{next_word, number_from, three_words, two_words};

const BOOK: &str = "book ROOM FIRST LAST or book ROOM FIRST LAST WHO";

const CANCEL: &str = "cancel ROOM FIRST LAST";

const GAP: &str = "gap ROOM DAYS FIRST LAST";

const FREE: &str = "free FIRST LAST";

const WHO: &str = "who ROOM DATE";

/// The room that is to be booked, the days, and the name of who books, if there is one.
#[derive(Drop)]
pub struct Booking<'a> {
    pub name: &'a str,
    pub days: Interval<i32>,
    pub who: Option<&'a str>,
}

/// The room that is to be freed, and the days.
#[derive(Drop)]
pub struct Cancelling<'a> {
    pub name: &'a str,
    pub days: Interval<i32>,
}

/// The room whose first gap is wanted, how many days it is to have, and the window.
#[derive(Drop)]
pub struct Gap<'a> {
    pub name: &'a str,
    pub count: u32,
    pub window: Interval<i32>,
}

/// Reads the words after `book`: the name of a room, the days, and the name of who books, if there is one.
pub fn booking_from(words: &str) -> Result<Booking<'_>, Fault<'_>>
    ensures ok { IfOk result (λ asked. AsksToBook (words_between words.entry.now) asked.name.now asked.days (option_map (λ it. it.now) asked.who)) }
    ensures err { IfErr result (λ fault. IsBookFault (words_between words.entry.now) (fault_line fault)) }
    ensures order { IfOk result (λ asked. asked.days.0 ≤ℤ asked.days.1) }
    ensures bound { IfOk result (λ asked. IsEpochDay asked.days.0 × IsEpochDay asked.days.1) }
{
    let Some((name, first, last, rest)) = three_and_more(words) else {
        return Err(Fault::Form(BOOK));
    };
    match days_from(first, last) {
        Ok(days) => match who_from(rest) {
            Ok(who) => Ok(Booking { name, days, who }),
            Err(fault) => Err(fault),
        },
        Err(fault) => Err(fault),
    }
}

// The first three words of a text and what follows them, or `None` if there are fewer.
fn three_and_more(words: &str) -> Option<(&str, &str, &str, &str)>
    ensures none { IfNone result (length (words_between words.entry.now) < 3) }
    ensures some { IfSome result (λ w. words_between words.entry.now ≡ w.0.now ∷ w.1.now ∷ w.2.now ∷ words_between w.3.now) }
{
    let (a, rest) = next_word(words)?;
    let (b, rest) = next_word(rest)?;
    let (c, rest) = next_word(rest)?;
    Some((a, b, c, rest))
}

// The name that is the only word of a text, or `Ok(None)` if there is no word.
fn who_from(words: &str) -> Result<Option<&str>, Fault<'_>>
    ensures ok { IfOk result (λ who. IsWho (words_between words.entry.now) (option_map (λ it. it.now) who)) }
    ensures err { IfErr result (λ fault. IsPersonFault (words_between words.entry.now) (fault_line fault)) }
{
    let Some((who, rest)) = next_word(words) else {
        return Ok(None);
    };
    match next_word(rest) {
        Some(_) => Err(Fault::Form(BOOK)),
        None if is_name(who) => Ok(Some(who)),
        None => Err(Fault::Name(who)),
    }
}

// Whether a word may be the name of who books: a date is more likely a word too much, and `free` is what `who` answers.
fn is_name(word: &str) -> bool
    ensures { IsTrue result ↔ IsName word.now }
{
    word != "free" && day_from(word).is_none()
}

/// Reads the words after `cancel`: the name of a room, and the days.
pub fn cancelling_from(words: &str) -> Result<Cancelling<'_>, Fault<'_>>
    ensures ok { IfOk result (λ asked. AsksToCancel (words_between words.entry.now) asked.name.now asked.days) }
    ensures err { IfErr result (λ fault. IsCancelFault (words_between words.entry.now) (fault_line fault)) }
    ensures order { IfOk result (λ asked. asked.days.0 ≤ℤ asked.days.1) }
{
    let Some((name, first, last)) = three_words(words) else {
        return Err(Fault::Form(CANCEL));
    };
    match days_from(first, last) {
        Ok(days) => Ok(Cancelling { name, days }),
        Err(fault) => Err(fault),
    }
}

/// Reads the words after `who`: the name of a room, and the day.
pub fn room_and_day_from(words: &str) -> Result<(&str, i32), Fault<'_>>
    ensures ok { IfOk result (λ asked. AsksWho (words_between words.entry.now) asked.0.now asked.1) }
    ensures err { IfErr result (λ fault. IsWhoFault (words_between words.entry.now) (fault_line fault)) }
{
    let Some((name, word)) = two_words(words) else {
        return Err(Fault::Form(WHO));
    };
    match day_from(word) {
        Some(day) => Ok((name, day)),
        None => Err(Fault::Day(word)),
    }
}

/// Reads the words after `gap`: the name of a room, how many days, and the window.
pub fn gap_from(words: &str) -> Result<Gap<'_>, Fault<'_>>
    ensures ok { IfOk result (λ asked. AsksForGap (words_between words.entry.now) asked.name.now asked.count asked.window) }
    ensures err { IfErr result (λ fault. IsGapFault (words_between words.entry.now) (fault_line fault)) }
    ensures above { IfOk result (λ asked. 0 < asked.count) }
    ensures bound { IfOk result (λ asked. IsEpochDay asked.window.0 × IsEpochDay asked.window.1) }
{
    let Some((name, count, first, last)) = four_words(words) else {
        return Err(Fault::Form(GAP));
    };
    let count = count_from(count)?;
    match days_from(first, last) {
        Ok(window) => Ok(Gap {
            name,
            count,
            window,
        }),
        Err(fault) => Err(fault),
    }
}

// The four words of a text, or `None` unless there are exactly four.
fn four_words(words: &str) -> Option<(&str, &str, &str, &str)>
    ensures none { IfNone result (length (words_between words.entry.now) ≢ 4) }
    ensures some { IfSome result (λ w. words_between words.entry.now ≡ w.0.now ∷ w.1.now ∷ w.2.now ∷ w.3.now ∷ []) }
{
    let (a, rest) = next_word(words)?;
    let (b, c, d) = three_words(rest)?;
    Some((a, b, c, d))
}

/// Reads the words after `free`: the window.
pub fn window_from(words: &str) -> Result<Interval<i32>, Fault<'_>>
    ensures ok { IfOk result (AsksForFree (words_between words.entry.now)) }
    ensures err { IfErr result (λ fault. IsFreeFault (words_between words.entry.now) (fault_line fault)) }
    ensures bound { IfOk result (λ window. IsEpochDay window.0 × IsEpochDay window.1) }
{
    let Some((first, last)) = two_words(words) else {
        return Err(Fault::Form(FREE));
    };
    match days_from(first, last) {
        Ok(window) => Ok(window),
        Err(fault) => Err(fault),
    }
}

// A count of days above 0.
fn count_from(word: &str) -> Result<u32, Fault<'_>>
    ensures value { IfOk result (λ count. number_of word.entry.now ≡ Some (pos count)) }
    ensures above { IfOk result (λ count. 0 < count) }
    ensures below { IfOk result (λ count. count < 2 ^ 32) }
    ensures err { IfErr result (λ fault. IsCountFault word.entry.now (fault_line fault)) }
{
    let Some(number) = number_from(word) else {
        return Err(Fault::Number(word));
    };
    if number < 1 {
        return Err(Fault::Low(word));
    }
    match u32::try_from(number) {
        Ok(count) => Ok(count),
        Err(_) => Err(Fault::High(word)),
    }
}
