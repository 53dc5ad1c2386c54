//! The form of intervals and sets in the files.

use intervallum::interval::Interval;
use intervallum::interval_set::IntervalSet;
use intervallum::ops::{Bounded, IsEmpty};
use intervallum::width::Width;
use std::alloc::{AllocError, Global};
use std::fmt::Display;

/// `-` for no member, else the two bounds.
pub fn interval_text<B: Width + Display>(
    alloc: Global,
    interval: &Interval<B>,
) -> Result<String, AllocError> {
    if interval.is_empty() {
        return String::from_str(alloc, "-");
    }
    format!(in alloc; "{} {}", interval.lower(), interval.upper())
}

/// `-` for no member, else the bounds of each run.
pub fn runs_text<B: Width + Display>(
    alloc: Global,
    set: &IntervalSet<B>,
) -> Result<String, AllocError> {
    if set.is_empty() {
        return String::from_str(alloc, "-");
    }
    let mut text = list_text(alloc, set.iter().as_slice())?;
    let _ = text.pop();
    Ok(text)
}

/// The bounds of each interval, and a blank behind each.
fn list_text<B: Width + Display>(
    alloc: Global,
    list: &[Interval<B>],
) -> Result<String, AllocError> {
    let mut text = String::new(alloc);
    for interval in list {
        text.push_str(interval_text(alloc, interval)?.as_str())?;
        text.push(' ')?;
    }
    Ok(text)
}
