//! Sets whose runs can be read window by window.
ghost use Rattle.std.specs.Prelude.{◌≡◌, ℕ, ◌++◌, ◌≤◌, ℤ, ◌≤ℤ◌, List, OnOk};
ghost use Rattle.ivl_laws.specs.Sets.{Intersection, IsBetween};
ghost use Rattle.ivl_laws.specs.Runs.{Covers, IsRunListIn, IsRunsOf};
ghost use Rattle.ivl_paged.specs.Pages.{StartsUpTo, flattened};

use crate::page::Page;
use crate::page_list::PageList;
use crate::pages::FIRST_RUNS;
use intervallum::interval::Interval;
use intervallum::interval_set::IntervalSet;
use intervallum::ops::{Intersection, Range};
use intervallum::width::Width;
use std::alloc::AllocError;

/// How many pages a window has about: so many that the search for them costs little, and so few that
/// their runs stay in the cache.
const WINDOW_PAGES: usize = 16;

/// How many runs a window has about where they stand in one list.
const WINDOW_RUNS: usize = WINDOW_PAGES * FIRST_RUNS;

/// The end of the next window of pages, which begins with a value.
pub(crate) fn end_of_window<B: Width>(pages: &PageList<B>, lower: B) -> B
    requires runs { IsRunListIn B.whole (flattened pages.now) }
    requires in_range { IsBetween B.whole (B.value lower) }
    ensures in_order { B.value lower ≤ℤ B.value result }
    ensures at_most { B.value result ≤ℤ B.whole.1 }
{
    let next = pages.starts_up_to(lower);
    last_before(pages, next.saturating_add(WINDOW_PAGES), lower)
}

/// Writes the runs of what pages have in a window into a list, in the place of what it has.
pub(crate) fn gather_pages<B: Width>(
    pages: &PageList<B>,
    window: &Interval<B>,
    list: &mut Vec<Interval<B>>,
) -> Result<(), AllocError>
    requires runs { IsRunListIn B.whole (flattened pages.now) }
    requires filled { window.now.0 ≤ℤ window.now.1 }
    ensures { OnOk result (IsRunsOf list.new.items (Intersection (Covers (flattened pages.now)) (IsBetween window.now))) }
{
    let start = pages.starts_up_to(window.lower_bound()).saturating_sub(1);
    let end = pages.starts_up_to(window.upper_bound());
    list.clear();
    for page in &pages.as_slice()[start..end] {
        push_part(list, page, window)?;
    }
    Ok(())
}

/// Puts the runs of what a page has in a window behind those of a list.
fn push_part<B: Width>(
    list: &mut Vec<Interval<B>>,
    page: &Page<B>,
    window: &Interval<B>,
) -> Result<(), AllocError>
    requires { window.now.0 ≤ℤ window.now.1 }
    ensures { OnOk result ((K : List (ℤ × ℤ)) × (list.new.items ≡ list.old.items ++ K) × IsRunsOf K (Intersection (Covers page.now) (IsBetween window.now))) }
{
    if page.lies_within(window) {
        return list.extend_from_slice(page.set().runs());
    }
    // so it is for the first page and the last one at most
    let part = page.set().intersection(window)?;
    list.extend_from_slice(part.runs())
}

/// The last value before page `i`, or the last one of the range if there is no such page. A value up to
/// which no more than `i` pages start comes no later.
fn last_before<B: Width>(pages: &PageList<B>, i: usize, _value: B) -> B
    requires runs { IsRunListIn B.whole (flattened pages.now) }
    requires in_range { IsBetween B.whole (B.value _value) }
    requires starts { (n : ℕ) × (n ≤ i) × StartsUpTo pages.now (B.value _value) n }
    ensures in_order { B.value _value ≤ℤ B.value result }
    ensures at_most { B.value result ≤ℤ B.whole.1 }
{
    if i < pages.len() {
        return pages.head(i).sub_in_range(B::one());
    }
    B::max_value()
}

/// A set whose runs can be read window by window.
pub(crate) trait Parts<B: Width> {
    /// The runs.
    ghost runs: { Self → List (ℤ × ℤ) };

    /// The end of the next window, which begins with a value.
    fn end_from(&self, lower: B) -> B
        requires runs { IsRunListIn B.whole (runs self.now) }
        requires in_range { IsBetween B.whole (B.value lower) }
        ensures in_order { B.value lower ≤ℤ B.value result }
        ensures at_most { B.value result ≤ℤ B.whole.1 };

    /// Writes the runs of what the set has in a window into a list, in the place of what it has.
    fn gather(&self, window: &Interval<B>, list: &mut Vec<Interval<B>>) -> Result<(), AllocError>
        requires runs { IsRunListIn B.whole (runs self.now) }
        requires filled { window.now.0 ≤ℤ window.now.1 }
        ensures { OnOk result (IsRunsOf list.new.items (Intersection (Covers (runs self.now)) (IsBetween window.now))) };
}

impl<B: Width> Parts<B> for IntervalSet<B> {
    ghost runs = { λ L. L };

    fn end_from(&self, lower: B) -> B {
        let rest = self.runs_within(&Interval::new(lower, B::max_value()));
        if rest.len() <= WINDOW_RUNS {
            return B::max_value();
        }
        rest[WINDOW_RUNS].upper_bound().max(lower)
    }

    fn gather(&self, window: &Interval<B>, list: &mut Vec<Interval<B>>) -> Result<(), AllocError> {
        let part = self.intersection(window)?;
        list.clear();
        list.extend_from_slice(part.runs())
    }
}
