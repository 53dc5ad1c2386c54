//! The numbers of the range that are in no page, in pages.
ghost use Rattle.std.specs.Prelude.{◌≡◌, ◌++◌, ◌<◌, ◌≤◌, length, IfOk, OnOk};
ghost use Rattle.ivl_laws.specs.Sets.{Complement, HasNone, IsBetween};
ghost use Rattle.ivl_laws.specs.Runs.{Covers, IsRunListIn, IsRunsOf};
ghost use Rattle.ivl_paged.specs.Gaps.{IsAfter, IsBefore, IsGapPage};
ghost use Rattle.ivl_paged.specs.Pages.{flattened};

use crate::page::Page;
use crate::page_list::PageList;
use crate::pages;
use intervallum::interval::Interval;
use intervallum::interval_set::IntervalSet;
use intervallum::ops::{Complement, Empty, IsEmpty, Range};
use intervallum::width::Width;
use std::alloc::{AllocError, Global};

/// The numbers of the range that are in none of some pages.
pub(crate) fn gaps_of<B: Width>(
    alloc: Global,
    pages: &PageList<B>,
) -> Result<PageList<B>, AllocError>
    requires { IsRunListIn B.whole (flattened pages.now) }
    ensures { IfOk result (λ gaps. IsRunsOf (flattened gaps) (Complement B.whole (Covers (flattened pages.now)))) }
{
    let count = pages.len();
    if count == 0 {
        let whole = IntervalSet::whole(alloc)?;
        return pages::pages_of(alloc, whole.runs());
    }
    gaps_between(alloc, pages)
}

/// The numbers of the range that are in none of some pages, of which there is one at least. The gaps
/// behind the runs of each page are a page, and the first of these has what lies before the first run too.
fn gaps_between<B: Width>(alloc: Global, pages: &PageList<B>) -> Result<PageList<B>, AllocError>
    requires some { 0 < length pages.now }
    requires runs { IsRunListIn B.whole (flattened pages.now) }
    ensures { IfOk result (λ gaps. IsRunsOf (flattened gaps) (Complement B.whole (Covers (flattened pages.now)))) }
{
    let mut gaps = PageList::new(alloc);
    for i in 0..pages.len() {
        let part = gaps_beside(pages, i)?;
        push_some(&mut gaps, part)?;
    }
    Ok(gaps)
}

/// The gaps behind the runs of page `i`, and before them if it is the first.
fn gaps_beside<B: Width>(pages: &PageList<B>, i: usize) -> Result<IntervalSet<B>, AllocError>
    requires runs { IsRunListIn B.whole (flattened pages.now) }
    requires less { i < length pages.now }
    ensures { IfOk result (IsGapPage B.whole pages.now i) }
{
    let mut gaps = pages.page(i).set().complement()?;
    gaps.remove_interval(before(pages, i))?;
    gaps.remove_interval(after(pages, i))?;
    Ok(gaps)
}

/// The numbers up to the least one of page `i`, or none if it is the first.
fn before<B: Width>(pages: &PageList<B>, i: usize) -> Interval<B>
    requires runs { IsRunListIn B.whole (flattened pages.now) }
    requires less { i < length pages.now }
    ensures { IsBefore B.whole pages.now i result }
{
    if i == 0 {
        return Interval::empty();
    }
    Interval::new(B::min_value(), pages.head(i))
}

/// The numbers from the least one of the page behind page `i` on, or none if that is the last.
fn after<B: Width>(pages: &PageList<B>, i: usize) -> Interval<B>
    requires runs { IsRunListIn B.whole (flattened pages.now) }
    requires less { i < length pages.now }
    ensures { IsAfter B.whole pages.now i result }
{
    if pages.len() - 1 <= i {
        return Interval::empty();
    }
    Interval::new(pages.head(i + 1), B::max_value())
}

/// Puts the runs of a set behind those of pages, as a page if there are any.
fn push_some<B: Width>(pages: &mut PageList<B>, set: IntervalSet<B>) -> Result<(), AllocError>
    ensures { OnOk result (flattened pages.new ≡ flattened pages.old ++ set) }
{
    if set.is_empty() {
        return Ok(());
    }
    pages.push(Page::of(set))
}
