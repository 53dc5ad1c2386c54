//! What the in-place edits of a set mean, as a caller learns it: the members before and after, and
//! that a set is unchanged after an error.
ghost use Rattle.std.specs.Prelude.{◌≡◌, ◌++◌, ◌∷◌, [], ℤ, pos, ◌+ℤ◌, ◌-ℤ◌, ◌≤ℤ◌, ◌<ℤ◌, OnErr, OnOk};
ghost use Rattle.ivl_laws.specs.Sets.{IsBetween, SameMembers, Union, Without};
ghost use Rattle.ivl_laws.specs.Runs.{Covers, IsRunsOf};

use intervallum::interval::Interval;
use intervallum::interval_set::IntervalSet;
use intervallum::width::Width;
use std::alloc::AllocError;

/// Removes the numbers of an interval.
pub fn set_loses_interval<B: Width>(
    set: &mut IntervalSet<B>,
    interval: Interval<B>,
) -> Result<(), AllocError>
    ensures members { OnOk result (IsRunsOf set.new (Without (Covers set.old) (IsBetween interval))) }
    ensures err { OnErr result (set.new ≡ set.old) }
{
    set.remove_interval(interval)
}

/// Adds the numbers of an interval, by a search that begins at any place.
pub fn set_gains_interval_near<B: Width>(
    set: &mut IntervalSet<B>,
    interval: Interval<B>,
    place: usize,
) -> Result<(), AllocError>
    ensures members { OnOk result (IsRunsOf set.new (Union (Covers set.old) (IsBetween interval))) }
    ensures err { OnErr result (set.new ≡ set.old) }
{
    set.insert_interval_near(interval, place)
}

/// Removes the numbers of an interval, by a search that begins at any place.
pub fn set_loses_interval_near<B: Width>(
    set: &mut IntervalSet<B>,
    interval: Interval<B>,
    place: usize,
) -> Result<(), AllocError>
    ensures members { OnOk result (IsRunsOf set.new (Without (Covers set.old) (IsBetween interval))) }
    ensures err { OnErr result (set.new ≡ set.old) }
{
    set.remove_interval_near(interval, place)
}

/// Gains a run behind its members.
pub fn set_gains_run<B: Width>(set: &mut IntervalSet<B>, run: Interval<B>) -> Result<(), AllocError>
    requires filled { run.0 ≤ℤ run.1 }
    requires apart { (v : ℤ) → Covers set.old v → (v +ℤ pos 1) <ℤ run.0 }
    ensures runs { OnOk result (set.new ≡ set.old ++ run ∷ []) }
    ensures err { OnErr result (set.new ≡ set.old) }
{
    set.push_run(run)
}

/// Becomes the copy of another set.
pub fn set_becomes_copy<B: Width>(
    set: &mut IntervalSet<B>,
    other: &IntervalSet<B>,
) -> Result<(), AllocError>
    ensures same { OnOk result (set.new ≡ other.now) }
    ensures err { OnErr result (set.new ≡ set.old) }
{
    set.try_clone_from(other)
}

/// Adds a member again, which cannot fail.
pub fn member_again<B: Width>(set: &mut IntervalSet<B>, value: B)
    requires in_range { IsBetween B.whole (B.value value) }
    requires member { Covers set.old (B.value value) }
    ensures { SameMembers (Covers set.new) (Covers set.old) }
{
    set.insert(value).unwrap();
}

/// Removes a number that is no member, which cannot fail.
pub fn loses_no_member<B: Width>(set: &mut IntervalSet<B>, value: B)
    requires { ¬ (Covers set.old (B.value value)) }
    ensures { SameMembers (Covers set.new) (Covers set.old) }
{
    set.remove(value).unwrap();
}

/// Adds an interval that starts right above a member, which cannot fail.
pub fn joined_in_place<B: Width>(set: &mut IntervalSet<B>, interval: Interval<B>)
    requires { Covers set.old (interval.0 -ℤ pos 1) × (interval.0 ≤ℤ interval.1) }
    ensures { IsRunsOf set.new (Union (Covers set.old) (IsBetween interval)) }
{
    set.insert_interval(interval).unwrap();
}

/// Removes an interval that ends right below a number that is no member, which cannot fail.
pub fn cut_in_place<B: Width>(set: &mut IntervalSet<B>, interval: Interval<B>)
    requires { ¬ (Covers set.old (interval.1 +ℤ pos 1)) × (interval.0 ≤ℤ interval.1) }
    ensures { IsRunsOf set.new (Without (Covers set.old) (IsBetween interval)) }
{
    set.remove_interval(interval).unwrap();
}
