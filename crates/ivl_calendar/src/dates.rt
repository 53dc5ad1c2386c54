//! Days as numbers from 1970-01-01, which is day 0, and their texts.
ghost use Rattle.std.specs.Prelude.{◌≡◌, ◌↔◌, ℤ, IfErr, IfNone, IfOk, IfSome, IsSome, IsTrue};
ghost use Rattle.jiff.specs.Words.{date_text, epoch_day, IsEpochDay};
ghost use Rattle.ivl_calendar.specs.Days.{IsDayText, IsWindow};
ghost use Rattle.ivl_calendar.specs.Faults.{IsWindowFault, fault_line};

use crate::faults::Fault;
use intervallum::interval::Interval;
use intervallum::ops::Range;
use jiff::civil::Date;
use jiff_fmt::temporal::DateTimePrinter;

/// Returns the number of a day.
pub fn day_of(date: Date) -> i32
    ensures value { result ≡ epoch_day date }
    ensures bound { IsEpochDay result }
{
    date.to_plain().to_unix_epoch_day()
}

/// Returns the date with this number, or `None` if it is outside the calendar of `jiff`, which spans
/// the years -9999 to 9999.
pub fn date_of(day: i32) -> Option<Date>
    ensures value { IfSome result (λ date. epoch_day date ≡ day) }
    ensures within { IsSome result ↔ IsEpochDay day }
{
    let plain = jiff_core::civil::Date::from_unix_epoch_day(i64::from(day)).ok()?;
    Some(Date::from_plain(plain))
}

/// Returns the number of the day whose date a word is, or `None` if it is not the text of a date. A
/// date with a time, an offset, a zone or a calendar is no date alone.
pub fn day_from(word: &str) -> Option<i32>
    ensures is_text { IfSome result (λ day. IsDayText day word.now) }
    ensures none { IfNone result ((day : ℤ) → ¬ (IsDayText day word.now)) }
    ensures bound { IfSome result IsEpochDay }
{
    let Ok(date) = word.parse::<Date>() else {
        return None;
    };
    if has_text(date, word) {
        Some(day_of(date))
    } else {
        None
    }
}

// Whether a word is the text of a date.
fn has_text(date: Date, word: &str) -> bool
    ensures { IsTrue result ↔ word.now ≡ date_text date }
{
    DateTimePrinter::new().date_text(date.to_plain()).as_str() == word
}

/// Returns the days from one date to another.
///
/// # Errors
///
/// `Day` if a word is not the date of a day, and `Order` if the last day is before the first.
pub fn days_from<'a>(first: &'a str, last: &'a str) -> Result<Interval<i32>, Fault<'a>>
    ensures ok { IfOk result (IsWindow first.entry.now last.entry.now) }
    ensures err { IfErr result (λ fault. IsWindowFault first.entry.now last.entry.now (fault_line fault)) }
    ensures bound { IfOk result (λ window. IsEpochDay window.0 × IsEpochDay window.1) }
{
    let Some(from) = day_from(first) else {
        return Err(Fault::Day(first));
    };
    let Some(to) = day_from(last) else {
        return Err(Fault::Day(last));
    };
    if from <= to {
        Ok(Interval::new(from, to))
    } else {
        Err(Fault::Order(first, last))
    }
}
