//! What an interval touches in a page: the runs that have a number of it, or one beside it.
ghost use Rattle.std.specs.Prelude.{◌≡◌, ◌↔◌, ◌⊎◌, ◌<◌, pos, ◌+ℤ◌, ◌-ℤ◌, ◌≤ℤ◌, IsTrue, false};
ghost use Rattle.ivl_laws.specs.Sets.{HasNone, HasSome, Intersection, IsBetween};
ghost use Rattle.ivl_laws.specs.Runs.{Covers};
ghost use Rattle.ivl_places.specs.Edits.{widened};
ghost use Rattle.ivl_paged.specs.Pages.{IsReaching};

use crate::page::Page;
use intervallum::interval::Interval;
use intervallum::ops::{Bounded, Range};
use intervallum::width::Width;

/// The number after, or the number itself if it is the greatest of the range.
pub(crate) fn one_above<B: Width>(value: B) -> B
    requires { IsBetween B.whole (B.value value) }
    ensures { (B.value result ≡ B.value value +ℤ pos 1) ⊎ ((B.value result ≡ B.value value) × (B.value value ≡ B.whole.1)) }
{
    match value.checked_add(B::one()) {
        Some(above) => above,
        None => value,
    }
}

/// The number before, or the number itself if it is the least of the range.
pub(crate) fn one_below<B: Width>(value: B) -> B
    requires { IsBetween B.whole (B.value value) }
    ensures { (B.value result ≡ B.value value -ℤ pos 1) ⊎ ((B.value result ≡ B.value value) × (B.value value ≡ B.whole.0)) }
{
    match value.checked_sub(B::one()) {
        Some(below) => below,
        None => value,
    }
}

/// Whether an interval overlaps or touches a run of a page.
pub(crate) fn touches<B: Width>(page: &Page<B>, interval: &Interval<B>) -> bool
    requires { interval.now.0 ≤ℤ interval.now.1 }
    ensures { IsTrue result ↔ HasSome (Intersection (Covers page.now) (IsBetween (widened interval.now))) }
{
    page.set().in_whole();
    interval.in_whole();
    let upper = one_above(interval.upper());
    match page.set().next_from(one_below(interval.lower())) {
        Some(next) => next <= upper,
        None => false,
    }
}

/// The interval, up to the end of the run that has its last number or the one after, if there is one.
pub(crate) fn with_run_above<B: Width>(page: &Page<B>, interval: &Interval<B>) -> Interval<B>
    requires { interval.now.0 ≤ℤ interval.now.1 }
    ensures { IsReaching interval.now (Covers page.now) result }
{
    page.set().in_whole();
    interval.in_whole();
    match page.run_at(one_above(interval.upper())) {
        Some(run) => Interval::new(interval.lower(), run.upper_bound()),
        None => *interval,
    }
}

/// Whether an interval would be a run more in a page, where there are as many runs as a `usize` counts.
pub(crate) fn is_more_uncounted<B: Width>(
    count: usize,
    page: &Page<B>,
    interval: &Interval<B>,
) -> bool
    requires { interval.now.0 ≤ℤ interval.now.1 }
    ensures more { IsTrue result → HasNone (Intersection (Covers page.now) (IsBetween (widened interval.now))) }
    ensures counted { result ≡ false → (count < usize.MAX) ⊎ HasSome (Intersection (Covers page.now) (IsBetween (widened interval.now))) }
{
    count == usize::MAX && !touches(page, interval)
}
