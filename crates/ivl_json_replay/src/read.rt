//! Parses operands in the form of the files.

use crate::unanswered::Unanswered;
use intervallum::interval::Interval;
use intervallum::interval_set::{IntervalSet, ToIntervalSet};
use intervallum::ops::{Empty, Range, Whole};
use intervallum::width::Width;
use std::alloc::Global;
use std::str::FromStr;

/// Two numbers with a blank between them, which may cross, `-` for none, or `whole`.
pub fn interval<B: Width + FromStr>(text: &str) -> Option<Interval<B>>
where
    B::Err: Drop,
{
    match text {
        "-" => Some(Interval::empty()),
        "whole" => Some(Interval::whole()),
        _ => interval_between(text),
    }
}

fn interval_between<B: Width + FromStr>(text: &str) -> Option<Interval<B>>
where
    B::Err: Drop,
{
    let (lower, upper) = text.split_once(' ')?;
    let (lower, upper) = (number(lower)?, number(upper)?);
    if Interval::in_range(lower, upper) {
        Some(Interval::new(lower, upper))
    } else {
        None
    }
}

fn number<B: FromStr>(text: &str) -> Option<B>
where
    B::Err: Drop,
{
    text.parse().ok()
}

/// The set of pairs `l u l u ..`, of none, `-`, or what the call `empty` or `whole` makes.
pub fn set<B: Width + FromStr>(alloc: Global, text: &str) -> Result<IntervalSet<B>, Unanswered>
where
    B::Err: Drop,
{
    match text {
        "empty" => Ok(IntervalSet::empty(alloc)),
        "whole" => Ok(IntervalSet::whole(alloc)?),
        _ => set_of_pairs(alloc, text),
    }
}

fn set_of_pairs<B: Width + FromStr>(alloc: Global, text: &str) -> Result<IntervalSet<B>, Unanswered>
where
    B::Err: Drop,
{
    let pairs = pairs::<B>(alloc, text)?;
    if !pairs
        .iter()
        .all(|&(lower, upper)| Interval::in_range(lower, upper))
    {
        return Err(Unanswered::Unknown);
    }
    Ok(pairs.to_interval_set(alloc)?)
}

/// The numbers of a text, two by two; `-` for none.
fn pairs<B: Width + FromStr>(alloc: Global, text: &str) -> Result<Vec<(B, B)>, Unanswered>
where
    B::Err: Drop,
{
    let mut pairs = Vec::new(alloc);
    if text == "-" {
        return Ok(pairs);
    }
    for run in numbers(alloc, text)?.chunks(2) {
        match run {
            [lower, upper] => pairs.push((*lower, *upper))?,
            _ => return Err(Unanswered::Unknown),
        }
    }
    Ok(pairs)
}

/// The numbers of a text, blanks between them.
fn numbers<N: FromStr + Copy>(alloc: Global, text: &str) -> Result<Vec<N>, Unanswered>
where
    N::Err: Drop,
{
    let mut numbers = Vec::new(alloc);
    for word in text.split(' ') {
        numbers.push(number(word).ok_or(Unanswered::Unknown)?)?;
    }
    Ok(numbers)
}
