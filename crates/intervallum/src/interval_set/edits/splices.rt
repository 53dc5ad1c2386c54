//! Runs put in the place of others, in a vector of runs.
ghost use Rattle.std.specs.Prelude.{◌≡◌, ◌+◌, ◌<◌, ◌≤◌, [], None, Some, IsOk, OnErr, OnOk, length, sum_by};
ghost use Rattle.ivl_laws.specs.Bounds.{width_of};
ghost use Rattle.ivl_places.specs.Edits.{replaced};
ghost use Rattle.ivl_walks.specs.HeldRun.{led_by};

use crate::interval::Interval;
use crate::ops::Cardinality;
use crate::width::{SizeNumber, Width};
use std::alloc::AllocError;

/// How many numbers runs have together.
pub(super) fn total_size<B: Width>(runs: &[Interval<B>]) -> B::Output
    requires { sum_by width_of runs.now ≤ B.Output.greatest }
    ensures { B.Output.size result ≡ sum_by width_of runs.now }
{
    let mut total = <B::Output as SizeNumber>::zero();
    for run in runs {
        total = total.checked_add(run.size()).unwrap();
    }
    total
}

/// Puts at most two runs in the place of those from `start` to before `end`. Fails only if it puts
/// more runs than it removes, and allocation fails; the runs are then unchanged.
pub(super) fn replace_runs<B: Width>(
    runs: &mut Vec<Interval<B>>,
    start: usize,
    end: usize,
    first: Option<Interval<B>>,
    second: Option<Interval<B>>,
) -> Result<(), AllocError>
    requires in_order { start ≤ end }
    requires at_most { end ≤ length runs.old.items }
    requires two { (run : _) → second ≡ Some run → start < end }
    ensures ok { OnOk result (runs.new.items ≡ replaced runs.old.items start end first second) }
    ensures err { OnErr result (runs.new.items ≡ runs.old.items) }
    ensures in_place { second ≡ None → start < end → IsOk result }
    ensures in_place_above { first ≡ None → start < end → IsOk result }
    ensures in_place_of_two { start + 1 < end → IsOk result }
{
    match (first, second) {
        (None, None) => {
            take_out(runs, start, end);
            Ok(())
        }
        (Some(run), None) | (None, Some(run)) => put_one(runs, start, end, run),
        (Some(left), Some(right)) => {
            put_one(runs, start + 1, end, right)?;
            runs[start] = left;
            Ok(())
        }
    }
}

/// Puts one run in the place of those from `start` to before `end`.
fn put_one<B: Width>(
    runs: &mut Vec<Interval<B>>,
    start: usize,
    end: usize,
    run: Interval<B>,
) -> Result<(), AllocError>
    requires in_order { start ≤ end }
    requires at_most { end ≤ length runs.old.items }
    ensures ok { OnOk result (runs.new.items ≡ replaced runs.old.items start end (Some run) None) }
    ensures err { OnErr result (runs.new.items ≡ runs.old.items) }
    ensures in_place { start < end → IsOk result }
{
    if start == end {
        runs.insert(start, run)?;
    } else {
        runs[start] = run;
        take_out(runs, start + 1, end);
    }
    Ok(())
}

/// Takes out the runs from `start` to before `end`.
fn take_out<B: Width>(runs: &mut Vec<Interval<B>>, start: usize, end: usize)
    requires in_order { start ≤ end }
    requires at_most { end ≤ length runs.old.items }
    ensures { runs.new.items ≡ replaced runs.old.items start end None None }
{
    let count = end - start;
    if count == 1 {
        runs.remove(start);
    } else if count > 1 {
        drop(runs.drain(start..end));
    }
}

/// How many numbers a run has; 0 if there is no run.
pub(super) fn size_of<B: Width>(run: Option<Interval<B>>) -> B::Output
    ensures { B.Output.size result ≡ sum_by width_of (led_by run []) }
{
    match run {
        Some(run) => run.size(),
        None => <B::Output as SizeNumber>::zero(),
    }
}

/// A size less some. The difference is a size again.
pub(super) fn shrunk<B: Width>(size: B::Output, less: B::Output) -> B::Output
    requires { B.Output.size less ≤ B.Output.size size }
    ensures { B.Output.size result + B.Output.size less ≡ B.Output.size size }
{
    size.checked_sub(less).unwrap()
}
