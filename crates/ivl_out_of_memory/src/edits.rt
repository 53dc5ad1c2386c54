//! The edits in place that allocate, each on a copy, with the runs that are expected afterwards.

use crate::runs::{FIRST_RUNS, Runs, is_of};
use intervallum::interval::Interval;
use intervallum::interval_set::IntervalSet;
use intervallum::ops::Range;
use std::alloc::{AllocError, Global};

/// The runs of the first operand once it is extended.
const EXTENDED: Runs = &[(1, 6), (9, 10), (13, 14), (20, 20)];

/// Those with a number more, and with an interval more.
const INSERTED: Runs = &[(1, 2), (5, 6), (9, 10), (13, 14), (20, 20)];

const INSERTED_INTERVAL: Runs = &[(1, 2), (5, 6), (9, 10), (13, 14), (20, 30)];

/// Those of the longer copy without a number, and without an interval.
const REMOVED: Runs = &[(1, 2), (5, 6), (9, 10), (13, 14), (16, 20)];

const REMOVED_INTERVAL: Runs = &[(1, 2), (5, 6), (9, 10), (13, 14), (18, 20)];

/// What edits leave that need no memory.
const EDITED: Runs = &[(1, 2), (5, 5)];

/// Whether the edit of this name leaves the right set; none where there is no such edit.
pub fn call(alloc: Global, name: &str, a: &IntervalSet<i32>) -> Option<Result<bool, AllocError>> {
    Some(match name {
        "extend" => is_of(extended(alloc, a), EXTENDED),
        "insert" => is_of(inserted(a), INSERTED),
        "remove" => is_of(removed(a), REMOVED),
        "insert_interval" => is_of(inserted_interval(a), INSERTED_INTERVAL),
        "remove_interval" => is_of(removed_interval(a), REMOVED_INTERVAL),
        "insert_interval_near" => is_of(inserted_near(a), INSERTED_INTERVAL),
        "remove_interval_near" => is_of(removed_near(a), REMOVED_INTERVAL),
        "try_clone_from" => is_of(made_equal(alloc, a), FIRST_RUNS),
        "edit_in_place" => is_of(edited_in_place(a), EDITED),
        _ => return None,
    })
}

/// What an edit left of a copy: an error only where the edit was refused, and left the copy as it was. A set that a
/// refusal had changed is taken for an answer, and differs from the runs.
fn left(
    refusal: Option<AllocError>,
    set: IntervalSet<i32>,
    before: &IntervalSet<i32>,
) -> Result<IntervalSet<i32>, AllocError> {
    match refusal {
        Some(error) if set == *before => Err(error),
        _ => Ok(set),
    }
}

/// A set of one run that becomes the copy of another.
fn made_equal(alloc: Global, a: &IntervalSet<i32>) -> Result<IntervalSet<i32>, AllocError> {
    let before = IntervalSet::new(alloc, 3, 4)?;
    let mut set = before.try_clone()?;
    let refusal = set.try_clone_from(a).err();
    left(refusal, set, &before)
}

/// A copy, extended by two intervals in no order.
fn extended(alloc: Global, a: &IntervalSet<i32>) -> Result<IntervalSet<i32>, AllocError> {
    let more = vec![in alloc; Interval::new(20, 20), Interval::new(3, 4)]?;
    let mut set = a.try_clone()?;
    let refusal = set.extend(more.into_iter()).err();
    left(refusal, set, a)
}

/// A copy with one more number.
fn inserted(a: &IntervalSet<i32>) -> Result<IntervalSet<i32>, AllocError> {
    let mut set = a.try_clone()?;
    let refusal = set.insert(20).err();
    left(refusal, set, a)
}

/// A longer copy without a number in its last run.
fn removed(a: &IntervalSet<i32>) -> Result<IntervalSet<i32>, AllocError> {
    let before = lengthened(a)?;
    let mut set = before.try_clone()?;
    let refusal = set.remove(15).err();
    left(refusal, set, &before)
}

/// A copy with one more interval.
fn inserted_interval(a: &IntervalSet<i32>) -> Result<IntervalSet<i32>, AllocError> {
    let mut set = a.try_clone()?;
    let refusal = set.insert_interval(Interval::new(20, 30)).err();
    left(refusal, set, a)
}

/// A longer copy without an interval in its last run.
fn removed_interval(a: &IntervalSet<i32>) -> Result<IntervalSet<i32>, AllocError> {
    let before = lengthened(a)?;
    let mut set = before.try_clone()?;
    let refusal = set.remove_interval(Interval::new(15, 17)).err();
    left(refusal, set, &before)
}

/// A copy with one more interval, by a search that begins behind its runs.
fn inserted_near(a: &IntervalSet<i32>) -> Result<IntervalSet<i32>, AllocError> {
    let mut set = a.try_clone()?;
    let refusal = set.insert_interval_near(Interval::new(20, 30), 4).err();
    left(refusal, set, a)
}

/// A longer copy without an interval in its last run, by a search that begins with that run.
fn removed_near(a: &IntervalSet<i32>) -> Result<IntervalSet<i32>, AllocError> {
    let before = lengthened(a)?;
    let mut set = before.try_clone()?;
    let refusal = set.remove_interval_near(Interval::new(15, 17), 3).err();
    left(refusal, set, &before)
}

/// A copy whose last run is longer, so that it can be split.
fn lengthened(a: &IntervalSet<i32>) -> Result<IntervalSet<i32>, AllocError> {
    let mut set = a.try_clone()?;
    set.insert_interval(Interval::new(15, 20))?;
    Ok(set)
}

/// A copy after edits that neither add a run nor split one, and that fill it again up to the capacity that `clear` kept.
/// So all that it asks for is the copy.
fn edited_in_place(a: &IntervalSet<i32>) -> Result<IntervalSet<i32>, AllocError> {
    let mut set = a.try_clone()?;
    set.insert(2)?;
    set.insert(3)?;
    set.insert_interval(Interval::new(4, 11))?;
    set.remove(0)?;
    set.remove(1)?;
    set.remove_interval(Interval::new(11, 13))?;
    set.remove_interval(Interval::new(20, 30))?;
    set.extend([Interval::new(3, 9)].iter().copied())?;
    set.pop_first();
    set.pop_last();
    set.clear();
    set.insert(1)?;
    set.insert(5)?;
    set.insert(9)?;
    set.insert(13)?;
    set.insert(2)?;
    set.remove_interval(Interval::new(9, 13))?;
    Ok(set)
}
