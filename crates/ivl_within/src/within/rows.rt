//! The results of runs and the runs of a set that reach a window.
ghost use Rattle.std.specs.Prelude.{◌≡◌, ◌≤ℤ◌, IfOk, OnOk, map, true};
ghost use Rattle.ivl_laws.specs.Sets.{IsBetween, IsSubset, SameMembers, Union};
ghost use Rattle.ivl_laws.specs.Runs.{Covers, IsMaximal, IsRunListIn};
ghost use Rattle.ivl_within.specs.Within.{Clipped, SumsBy, pair_by, reach_back_by, reach_by};

use super::Combined;
use super::pairs::pair_in_window;
use intervallum::interval::Interval;
use intervallum::interval_set::IntervalSet;
use intervallum::ops::Whole;
use intervallum::width::Width;
use std::alloc::AllocError;

/// Adds the results of each run of a list and each run of a set, cut to the window. Stops where one
/// pair makes the whole window. Returns how many runs of the list it took.
pub fn push_rows<B: Width>(
    entries: &mut Vec<Interval<B>>,
    left: &[Interval<B>],
    right: &IntervalSet<B>,
    op: Combined,
    window: Interval<B>,
) -> Result<usize, AllocError>
    requires left { IsMaximal left.now }
    requires right { IsRunListIn B.whole right.now }
    requires window { window.0 ≤ℤ window.1 }
    ensures { OnOk result (SameMembers (Covers entries.new.items) (Union (Covers entries.old.items) (Clipped window (SumsBy op (Covers left.now) (Covers right.now))))) }
{
    let mut taken: usize = 0;
    for run in left {
        taken = taken.saturating_add(1);
        if push_row(entries, *run, right, op, window)? {
            return Ok(taken);
        }
    }
    Ok(taken)
}

/// Adds the results of one run and each run of a set, cut to the window. Makes only those of the runs
/// that reach the window, which it finds by binary search. Stops, with true, where one makes the whole
/// window.
fn push_row<B: Width>(
    entries: &mut Vec<Interval<B>>,
    run: Interval<B>,
    right: &IntervalSet<B>,
    op: Combined,
    window: Interval<B>,
) -> Result<bool, AllocError>
    requires filled { run.0 ≤ℤ run.1 }
    requires window { window.0 ≤ℤ window.1 }
    requires right { IsRunListIn B.whole right.now }
    ensures added { OnOk result (SameMembers (Covers entries.new.items) (Union (Covers entries.old.items) (Clipped window (Covers (map (pair_by op run) right.now))))) }
    ensures whole { IfOk result (λ is_whole. is_whole ≡ true → IsSubset (IsBetween window) (Covers entries.new.items)) }
{
    let met = right.runs_within(&reach(run, op, window));
    for other in met {
        let part = pair_in_window(run, *other, op, window);
        entries.push(part)?;
        if part == window {
            return Ok(true);
        }
    }
    Ok(false)
}

/// The numbers of the range whose result with some number of a run is in the window.
pub fn reach<B: Width>(run: Interval<B>, op: Combined, window: Interval<B>) -> Interval<B>
    requires filled { run.0 ≤ℤ run.1 }
    requires window { window.0 ≤ℤ window.1 }
    ensures { SameMembers (IsBetween result) (Clipped B.whole (IsBetween (reach_by op window run))) }
{
    match op {
        Combined::Sum => pair_in_window(window, run, Combined::Difference, Interval::whole()),
        Combined::Difference => pair_in_window(
            run,
            window,
            Combined::Difference,
            Interval::whole(),
        ),
    }
}

/// The numbers of the range whose result with some number of a run that stands second is in the window.
pub fn reach_back<B: Width>(run: Interval<B>, op: Combined, window: Interval<B>) -> Interval<B>
    requires filled { run.0 ≤ℤ run.1 }
    requires window { window.0 ≤ℤ window.1 }
    ensures { SameMembers (IsBetween result) (Clipped B.whole (IsBetween (reach_back_by op window run))) }
{
    match op {
        Combined::Sum => pair_in_window(window, run, Combined::Difference, Interval::whole()),
        Combined::Difference => pair_in_window(window, run, Combined::Sum, Interval::whole()),
    }
}
