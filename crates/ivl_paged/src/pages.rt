//! Searches and edits in a list of pages, which together hold one list of runs.
ghost use Rattle.std.specs.Prelude.{◌≡◌, ◌↔◌, ◌⊎◌, ◌++◌, ◌+◌, ◌<◌, ◌≤◌, ℤ, pos, ◌+ℤ◌, ◌≤ℤ◌, List, [], drop, length, set, take, slice_index_or, IfOk, IsOk, IsTrue, MatchOption, OnErr, OnOk, ⊤};
ghost use Rattle.ivl_laws.specs.Bounds.{width_of};
ghost use Rattle.ivl_laws.specs.Counts.{IsCountOf};
ghost use Rattle.ivl_laws.specs.Families.{set_at};
ghost use Rattle.ivl_laws.specs.Sets.{AtLeast, HasNone, HasSome, Intersection, IsBetween, IsSubset, Only, Union, Without};
ghost use Rattle.ivl_laws.specs.Runs.{Covers, IsMaximal, IsRunListIn, IsRunsOf};
ghost use Rattle.ivl_places.specs.Edits.{widened};
ghost use Rattle.ivl_places.specs.FirstFit.{FitsAt, IsFirstFit};
ghost use Rattle.ivl_places.specs.Neighbours.{IsLeast};
ghost use Rattle.ivl_paged.specs.Pages.{IsInsertSpan, IsPageCut, IsPageSpan, StartsUpTo, flattened};
ghost use Rattle.ivl_paged.specs.Parts.{ArePagesMet, IsBetterOf, IsShortestRun};

use crate::page::Page;
use crate::page_list::PageList;
use crate::touched::{is_more_uncounted, one_above, touches, with_run_above};
use intervallum::interval::Interval;
use intervallum::interval_set::IntervalSet;
use intervallum::ops::{
    Bounded, Cardinality, Contains, IsEmpty, ShrinkLeft, Singleton, StrictShrinkRight, Union,
};
use intervallum::width::{SizeNumber, Width};
use std::alloc::{AllocError, Global};

/// A page that gets so many runs is split, unless there is no memory for it. With 8 in its place, the
/// tests split and join pages at almost every edit.
pub(crate) const MOST_RUNS: usize = 128;

/// How many runs a page has at most that is looked at as one to join, and less than which a copy has no room for more.
const FEW_RUNS: usize = MOST_RUNS / 2;

/// How many runs a page has where a list of runs is put into pages, and at most where two are joined.
pub(crate) const FIRST_RUNS: usize = MOST_RUNS / 4 * 3;

/// The runs of a list in pages that have room for more.
pub(crate) fn pages_of<B: Width>(
    alloc: Global,
    runs: &[Interval<B>],
) -> Result<PageList<B>, AllocError>
    requires { IsMaximal runs.now }
    ensures { IfOk result (λ pages. flattened pages ≡ runs.now) }
{
    let mut pages = PageList::new(alloc);
    push_runs(alloc, &mut pages, runs)?;
    Ok(pages)
}

/// Puts the runs of a list behind those of pages, in pages that have room for more.
pub(crate) fn push_runs<B: Width>(
    alloc: Global,
    pages: &mut PageList<B>,
    runs: &[Interval<B>],
) -> Result<(), AllocError>
    requires { IsMaximal runs.now }
    ensures { OnOk result (flattened pages.new ≡ flattened pages.old ++ runs.now) }
{
    let mut start = 0;
    'parts: while start < runs.len() {
        let end = start.saturating_add(FIRST_RUNS).min(runs.len());
        pages.push(page_of(alloc, &runs[start..end])?)?;
        start = end;
    }
    Ok(())
}

/// The runs of a set that is given away: it is the one page if it has few of them.
pub(crate) fn pages_from<B: Width>(
    alloc: Global,
    set: IntervalSet<B>,
) -> Result<PageList<B>, AllocError>
    requires { IsMaximal set }
    ensures { IfOk result (λ pages. flattened pages ≡ set) }
{
    if set.is_empty() || MOST_RUNS <= set.interval_count() {
        return pages_of(alloc, set.runs());
    }
    let mut pages = PageList::new(alloc);
    pages.push(Page::of(set))?;
    Ok(pages)
}

/// A page of some runs, of which there is one at least, with room for as many as a page has, unless
/// they are few.
fn page_of<B: Width>(alloc: Global, runs: &[Interval<B>]) -> Result<Page<B>, AllocError>
    requires runs { IsMaximal runs.now }
    requires some { 0 < length runs.now }
    ensures { IfOk result (λ L. L ≡ runs.now) }
{
    let is_small = runs.len() < FEW_RUNS;
    let room = if is_small { runs.len() } else { MOST_RUNS };
    let mut list = Vec::with_capacity(alloc, room)?;
    list.extend_from_slice(runs)?;
    Ok(Page::of(IntervalSet::from_runs(list)))
}

/// A copy of a page, with room for as many runs as a page has, unless it has few, so that the first
/// edit of the copy does not move it.
pub(crate) fn copy_of<B: Width>(alloc: Global, page: &Page<B>) -> Result<Page<B>, AllocError>
    ensures { IfOk result (λ L. L ≡ page.now) }
{
    page_of(alloc, page.set().runs())
}

/// Copies of pages, put behind what there is.
fn copies_behind<B: Width>(
    alloc: Global,
    mut copies: PageList<B>,
    pages: &[Page<B>],
) -> Result<PageList<B>, AllocError>
    ensures { IfOk result (λ all. flattened all ≡ flattened copies ++ flattened pages.now) }
{
    for page in pages {
        copies.push(copy_of(alloc, page)?)?;
    }
    Ok(copies)
}

/// The members that are at least `v`, copied page by page.
pub(crate) fn copy_above<B: Width>(
    alloc: Global,
    pages: &PageList<B>,
    v: B,
) -> Result<PageList<B>, AllocError>
    requires { IsMaximal (flattened pages.now) }
    ensures { IfOk result (λ above. IsRunsOf (flattened above) (AtLeast (B.value v) (Covers (flattened pages.now)))) }
{
    let count = pages.starts_up_to(v);
    if count == 0 {
        return copies_behind(alloc, PageList::new(alloc), pages.as_slice());
    }
    let high = pages.page(count - 1).set().shrink_left(v)?;
    let copies = pages_from(alloc, high)?;
    copies_behind(alloc, copies, &pages.as_slice()[count..])
}

/// The least member that is at least `v` in the first `count` pages, which are those that start at
/// `v` or below. Only the last of them can have it.
pub(crate) fn next_within<B: Width>(pages: &[Page<B>], count: usize, v: B) -> Option<B>
    requires runs { IsMaximal (flattened pages.now) }
    requires starts { StartsUpTo pages.now (B.value v) count }
    ensures { MatchOption result
        (HasNone (AtLeast (B.value v) (Covers (flattened (take count pages.now)))))
        (λ x. IsLeast (B.value x) (AtLeast (B.value v) (Covers (flattened (take count pages.now))))) }
{
    if count == 0 {
        return None;
    }
    pages[count - 1].set().next_from(v)
}

/// The lowest `count` consecutive members of the pages from page `place` on.
pub(crate) fn fit_from<B: Width>(
    pages: &PageList<B>,
    place: usize,
    count: B::Output,
) -> Option<Interval<B>>
    requires above_zero { 0 < B.Output.size count }
    requires runs { IsMaximal (flattened pages.now) }
    ensures { MatchOption result
        ((v : ℤ) → ¬ (FitsAt (B.Output.size count) (Covers (flattened (drop place pages.now))) v))
        (IsFirstFit (B.Output.size count) (Covers (flattened (drop place pages.now)))) }
{
    let i = pages.next_with(place, count)?;
    pages.page(i).set().first_fit(count)
}

/// The shortest run that has `count` numbers, the lowest of these, if one has so many. Groups of pages where no
/// run is so long are passed.
pub(crate) fn shortest_run<B: Width>(pages: &PageList<B>, count: B::Output) -> Option<Interval<B>>
    requires above_zero { 0 < B.Output.size count }
    requires runs { IsMaximal (flattened pages.now) }
    ensures { MatchOption result
        ((v : ℤ) → ¬ (FitsAt (B.Output.size count) (Covers (flattened pages.now)) v))
        (IsShortestRun (B.Output.size count) (Covers (flattened pages.now))) }
{
    let mut best = None;
    let mut place = 0;
    'parts: while let Some((start, end)) = pages.next_part(place, count) {
        best = shortest_up_to(best, pages.as_slice(), start, end, count);
        place = end;
    }
    best
}

/// The shortest run of the first `end` pages that has `count` numbers, where that of the first `start` is known.
fn shortest_up_to<B: Width>(
    known: Option<Interval<B>>,
    pages: &[Page<B>],
    start: usize,
    end: usize,
    count: B::Output,
) -> Option<Interval<B>>
    requires above_zero { 0 < B.Output.size count }
    requires runs { IsMaximal (flattened pages.now) }
    requires in_order { start ≤ end }
    requires at_most { end ≤ length pages.now }
    requires known { MatchOption known
        ((v : ℤ) → ¬ (FitsAt (B.Output.size count) (Covers (flattened (take start pages.now))) v))
        (IsShortestRun (B.Output.size count) (Covers (flattened (take start pages.now)))) }
    ensures { MatchOption result
        ((v : ℤ) → ¬ (FitsAt (B.Output.size count) (Covers (flattened (take end pages.now))) v))
        (IsShortestRun (B.Output.size count) (Covers (flattened (take end pages.now)))) }
{
    let mut best = known;
    for i in start..end {
        best = better_of(best, &pages[i], count);
    }
    best
}

/// The shorter of a run and the shortest of a page that has `count` numbers, where there are both.
fn better_of<B: Width>(
    best: Option<Interval<B>>,
    page: &Page<B>,
    count: B::Output,
) -> Option<Interval<B>>
    requires { 0 < B.Output.size count }
    ensures { IsBetterOf (B.Output.size count) best (Covers page.now) result }
{
    if page.longest() < count {
        return best;
    }
    match page.shortest_run(count) {
        Some(run) => {
            if is_shorter(&run, best) {
                Some(run)
            } else {
                best
            }
        }
        None => best,
    }
}

/// Whether a run has fewer numbers than another, if there is one.
fn is_shorter<B: Width>(run: &Interval<B>, best: Option<Interval<B>>) -> bool
    ensures { IsTrue result ↔ MatchOption best ⊤ (λ shortest. width_of run.now < width_of shortest) }
{
    match best {
        Some(shortest) => run.size() < shortest.size(),
        None => true,
    }
}

/// The lowest `count` consecutive members that are at least `v` in the first `place` pages, which
/// are those that start at `v` or below. Only the last of them can have them.
pub(crate) fn fit_within<B: Width>(
    pages: &[Page<B>],
    place: usize,
    v: B,
    count: B::Output,
) -> Option<Interval<B>>
    requires above_zero { 0 < B.Output.size count }
    requires runs { IsMaximal (flattened pages.now) }
    requires starts { StartsUpTo pages.now (B.value v) place }
    ensures { MatchOption result
        ((w : ℤ) → ¬ (FitsAt (B.Output.size count) (AtLeast (B.value v) (Covers (flattened (take place pages.now)))) w))
        (IsFirstFit (B.Output.size count) (AtLeast (B.value v) (Covers (flattened (take place pages.now))))) }
{
    if place == 0 {
        return None;
    }
    pages[place - 1].set().first_fit_from(v, count)
}

/// The places of the pages that a change of the numbers from `lower` to `upper` may touch: the
/// first, and the one after the last. It is one page at least.
fn span<B: Width>(pages: &PageList<B>, lower: B, upper: B) -> (usize, usize)
    requires some { 0 < length pages.now }
    requires runs { IsMaximal (flattened pages.now) }
    requires in_order { B.value lower ≤ℤ B.value upper }
    ensures { IsPageSpan pages.now (B.value lower) (B.value upper) result.0 result.1 }
{
    let start = pages.starts_up_to(lower);
    let end = starts_from(pages, start, upper);
    (start.saturating_sub(1), end.max(1))
}

/// The pages that may have members in an interval. The others have none there.
pub(crate) fn met_by<'a, B: Width>(pages: &'a PageList<B>, interval: &Interval<B>) -> &'a [Page<B>]
    requires { IsMaximal (flattened pages.now) }
    ensures { ArePagesMet pages.now interval.now result.now }
{
    let all = pages.as_slice();
    if all.is_empty() || interval.is_empty() {
        return &all[0..0];
    }
    let (start, end) = span(pages, interval.lower(), interval.upper());
    &all[start..end]
}

/// How many members pages have together in an interval, which is not empty.
pub(crate) fn size_of_parts<B: Width>(pages: &[Page<B>], interval: &Interval<B>) -> B::Output
    requires runs { IsRunListIn B.whole (flattened pages.now) }
    requires filled { interval.now.0 ≤ℤ interval.now.1 }
    ensures { IsCountOf (B.Output.size result) (Intersection (Covers (flattened pages.now)) (IsBetween interval.now)) }
{
    let mut count = <B::Output as SizeNumber>::zero();
    for page in pages {
        count = count.add_in_range(page.size_within(interval));
    }
    count
}

/// How many pages start at a value or below, of which `start` do that start at a lower one. The next
/// page mostly starts above the value, and then no search is needed.
fn starts_from<B: Width>(pages: &PageList<B>, start: usize, value: B) -> usize
    requires runs { IsMaximal (flattened pages.now) }
    requires starts { (u : ℤ) × (u ≤ℤ B.value value) × StartsUpTo pages.now u start }
    ensures { StartsUpTo pages.now (B.value value) result }
{
    if pages.len() <= start {
        return start;
    }
    if value < pages.head(start) {
        return start;
    }
    pages.starts_up_to(value)
}

/// Puts an interval into the first page of a list that has none.
pub(crate) fn push_first<B: Width>(
    alloc: Global,
    pages: &mut PageList<B>,
    interval: Interval<B>,
) -> Result<(), AllocError>
    requires filled { interval.0 ≤ℤ interval.1 }
    requires none { pages.old ≡ [] }
    ensures ok { OnOk result (IsRunsOf (flattened pages.new) (IsBetween interval)) }
    ensures err { OnErr result (flattened pages.new ≡ flattened pages.old) }
{
    let first = IntervalSet::of(alloc, interval)?;
    pages.push(Page::of(first))
}

/// Adds the members of an interval to pages of which there is one at least. Returns true exactly when
/// its first number was a member.
pub(crate) fn insert_interval<B: Width>(
    pages: &mut PageList<B>,
    interval: Interval<B>,
) -> Result<bool, AllocError>
    requires filled { interval.0 ≤ℤ interval.1 }
    requires some { 0 < length pages.old }
    requires runs { IsRunListIn B.whole (flattened pages.old) }
    ensures was_member { IfOk result (λ was_member. IsTrue was_member ↔ Covers (flattened pages.old) interval.0) }
    ensures ok { OnOk result (IsRunsOf (flattened pages.new) (Union (Covers (flattened pages.old)) (IsBetween interval))) }
    ensures err { OnErr result (flattened pages.new ≡ flattened pages.old) }
    ensures in_place { HasSome (Intersection (Covers (flattened pages.old)) (IsBetween (widened interval))) → IsOk result }
{
    interval.in_whole();
    let upper = one_above(interval.upper());
    let (start, end) = span(pages, interval.lower(), upper);
    let was_member = insert_between(pages, start, end, interval)?;
    balance(pages, start);
    Ok(was_member)
}

/// Adds the members of an interval to the pages from `start` to before `end`. Of several, the last one
/// has a number that it overlaps or touches, and nothing is allocated. Returns true exactly when its
/// first number was a member of the first of them.
fn insert_between<B: Width>(
    pages: &mut PageList<B>,
    start: usize,
    end: usize,
    interval: Interval<B>,
) -> Result<bool, AllocError>
    requires filled { interval.0 ≤ℤ interval.1 }
    requires runs { IsRunListIn B.whole (flattened pages.old) }
    requires span { IsInsertSpan B.whole pages.old interval start end }
    ensures ok { OnOk result (IsRunsOf (flattened pages.new) (Union (Covers (flattened pages.old)) (IsBetween interval))) }
    ensures was_member { IfOk result (λ was_member. IsTrue was_member ↔ set_at pages.old start interval.0) }
    ensures err { OnErr result (flattened pages.new ≡ flattened pages.old) }
    ensures in_place { HasSome (Intersection (Covers (flattened pages.old)) (IsBetween (widened interval))) → IsOk result }
{
    if end - start == 1 {
        return insert_into_one(pages, start, interval);
    }
    if touches(pages.page(start), &interval) {
        return Ok(insert_over(pages, start, end, interval));
    }
    // the next page has a member, so it is touched
    pages.head(start + 1);
    insert_over(pages, start + 1, end, interval);
    Ok(false)
}

/// Adds the members of an interval to page `i`. Returns true exactly when its first number was a member.
fn insert_into_one<B: Width>(
    pages: &mut PageList<B>,
    i: usize,
    interval: Interval<B>,
) -> Result<bool, AllocError>
    requires filled { interval.0 ≤ℤ interval.1 }
    requires less { i < length pages.old }
    ensures ok { OnOk result ((L : List (ℤ × ℤ)) × (pages.new ≡ set pages.old i L) × IsRunsOf L (Union (set_at pages.old i) (IsBetween interval))) }
    ensures was_member { IfOk result (λ was_member. IsTrue was_member ↔ set_at pages.old i interval.0) }
    ensures err { OnErr result (pages.new ≡ pages.old) }
    ensures in_place { HasSome (Intersection (set_at pages.old i) (IsBetween (widened interval))) → IsOk result }
{
    // no memory holds more runs than a `usize` counts
    if is_more_uncounted(pages.interval_count(), pages.page(i), &interval) {
        return Err(AllocError);
    }
    pages.insert_into(i, interval)
}

/// Adds the members of an interval to the pages from `start` to before `end`, of which it touches the
/// first and the last. The first gets it, with what it overlaps or touches of the last; the pages between
/// go, and so does the last if nothing is left. Returns true exactly when its first number was a member
/// of the first.
fn insert_over<B: Width>(
    pages: &mut PageList<B>,
    start: usize,
    end: usize,
    interval: Interval<B>,
) -> bool
    requires filled { interval.0 ≤ℤ interval.1 }
    requires runs { IsRunListIn B.whole (flattened pages.old) }
    requires span { IsInsertSpan B.whole pages.old interval start end }
    requires touched { HasSome (Intersection (set_at pages.old start) (IsBetween (widened interval))) }
    ensures runs { IsRunsOf (flattened pages.new) (Union (Covers (flattened pages.old)) (IsBetween interval)) }
    ensures was_member { IsTrue result ↔ set_at pages.old start interval.0 }
{
    if end - start == 1 {
        return insert_into_one(pages, start, interval).unwrap();
    }
    let whole = with_run_above(pages.page(end - 1), &interval);
    remove_from_one(pages, end - 1, whole).unwrap();
    pages.take_out(start + 1, end - 1);
    insert_into_one(pages, start, whole).unwrap()
}

/// Removes the members of an interval from pages of which there is one at least. Returns true exactly
/// when its first number was a member.
pub(crate) fn remove_interval<B: Width>(
    pages: &mut PageList<B>,
    interval: Interval<B>,
) -> Result<bool, AllocError>
    requires filled { interval.0 ≤ℤ interval.1 }
    requires some { 0 < length pages.old }
    requires runs { IsRunListIn B.whole (flattened pages.old) }
    ensures was_member { IfOk result (λ was_member. IsTrue was_member ↔ Covers (flattened pages.old) interval.0) }
    ensures ok { OnOk result (IsRunsOf (flattened pages.new) (Without (Covers (flattened pages.old)) (IsBetween interval))) }
    ensures err { OnErr result (flattened pages.new ≡ flattened pages.old) }
    ensures in_place { ¬ (IsSubset (IsBetween (widened interval)) (Covers (flattened pages.old))) → IsOk result }
{
    let (start, end) = span(pages, interval.lower(), interval.upper());
    let was_member = remove_between(pages, start, end, interval)?;
    balance(pages, start);
    Ok(was_member)
}

/// Removes the members of an interval from the pages from `start` to before `end`. Of several, the
/// first and the last are cut, and those between removed: nothing is allocated. Returns true exactly
/// when its first number was a member of the first of them.
fn remove_between<B: Width>(
    pages: &mut PageList<B>,
    start: usize,
    end: usize,
    interval: Interval<B>,
) -> Result<bool, AllocError>
    requires filled { interval.0 ≤ℤ interval.1 }
    requires runs { IsRunListIn B.whole (flattened pages.old) }
    requires span { IsPageSpan pages.old interval.0 interval.1 start end }
    ensures was_member { IfOk result (λ was_member. IsTrue was_member ↔ set_at pages.old start interval.0) }
    ensures ok { OnOk result (IsRunsOf (flattened pages.new) (Without (Covers (flattened pages.old)) (IsBetween interval))) }
    ensures err { OnErr result (flattened pages.new ≡ flattened pages.old) }
    ensures in_place { ¬ (IsSubset (IsBetween (widened interval)) (Covers (flattened pages.old))) → IsOk result }
{
    if end - start == 1 {
        return remove_from_one(pages, start, interval);
    }
    remove_from_one(pages, end - 1, interval).unwrap();
    pages.take_out(start + 1, end - 1);
    let was_member = remove_from_one(pages, start, interval).unwrap();
    Ok(was_member)
}

/// Removes the members of an interval from page `i`, and the page if it has no others. Returns true
/// exactly when its first number was a member of the page.
fn remove_from_one<B: Width>(
    pages: &mut PageList<B>,
    i: usize,
    interval: Interval<B>,
) -> Result<bool, AllocError>
    requires filled { interval.0 ≤ℤ interval.1 }
    requires less { i < length pages.old }
    ensures ok { OnOk result (IsPageCut pages.old interval i pages.new) }
    ensures was_member { IfOk result (λ was_member. IsTrue was_member ↔ set_at pages.old i interval.0) }
    ensures err { OnErr result (pages.new ≡ pages.old) }
    ensures in_place { ¬ (IsSubset (IsBetween (widened interval)) (set_at pages.old i)) → IsOk result }
{
    let page = pages.page(i);
    if page.lies_within(&interval) {
        let was_member = page.set().contains(&interval.lower());
        pages.remove(i);
        return Ok(was_member);
    }
    pages.remove_from(i, interval)
}

/// Removes and returns the least member of pages of which there is one at least.
pub(crate) fn pop_first<B: Width>(pages: &mut PageList<B>) -> B
    requires some { 0 < length pages.old }
    requires runs { IsRunListIn B.whole (flattened pages.old) }
    ensures least { IsLeast (B.value result) (Covers (flattened pages.old)) }
    ensures rest { IsRunsOf (flattened pages.new) (Without (Covers (flattened pages.old)) (Only (B.value result))) }
{
    let least = pop_from_first(pages);
    balance(pages, 0);
    least
}

/// Removes and returns the least member of the first page, which goes if it has no others.
fn pop_from_first<B: Width>(pages: &mut PageList<B>) -> B
    requires some { 0 < length pages.old }
    requires runs { IsRunListIn B.whole (flattened pages.old) }
    ensures least { IsLeast (B.value result) (set_at pages.old 0) }
    ensures rest { IsPageCut pages.old (B.value result, B.value result) 0 pages.new }
{
    let page = pages.page(0);
    let least = page.head();
    if page.lies_within(&Interval::singleton(least)) {
        pages.remove(0);
        return least;
    }
    pages.pop_from(0)
}

/// Splits page `i` if there is one and it is full, or joins it with a neighbour if both have few
/// runs. If allocation fails, the pages stay as they are.
fn balance<B: Width>(pages: &mut PageList<B>, i: usize)
    requires { IsMaximal (flattened pages.old) }
    ensures { flattened pages.new ≡ flattened pages.old }
{
    if pages.len() <= i {
        return;
    }
    let count = pages.page(i).interval_count();
    if count >= MOST_RUNS {
        // without memory the page grows beyond its measure
        let _split = split(pages, i);
    } else if count <= FEW_RUNS {
        join_neighbours(pages, i);
    }
}

/// Joins page `i` with the one after it, and with the one before it, where both have few runs.
fn join_neighbours<B: Width>(pages: &mut PageList<B>, i: usize)
    requires runs { IsMaximal (flattened pages.old) }
    requires less { i < length pages.old }
    ensures { flattened pages.new ≡ flattened pages.old }
{
    join_if_few(pages, i);
    if i > 0 {
        join_if_few(pages, i - 1);
    }
}

/// Joins page `i` with the one after it, if there is one and both have few runs together.
pub(crate) fn join_if_few<B: Width>(pages: &mut PageList<B>, i: usize)
    requires { IsMaximal (flattened pages.old) }
    ensures { flattened pages.new ≡ flattened pages.old }
{
    if pages.len() < 2 || pages.len() - 2 < i {
        return;
    }
    let here = pages.page(i).interval_count();
    let next = pages.page(i + 1).interval_count();
    if here.saturating_add(next) <= FIRST_RUNS {
        // without memory both pages stay
        let _joined = join(pages, i);
    }
}

/// Puts the runs of page `i` and of the one after it in one page.
fn join<B: Width>(pages: &mut PageList<B>, i: usize) -> Result<(), AllocError>
    requires runs { IsMaximal (flattened pages.old) }
    requires less { i + 1 < length pages.old }
    requires fits { length pages.old < usize.MAX }
    ensures { flattened pages.new ≡ flattened pages.old }
{
    let both = pages.page(i).set().union(pages.page(i + 1).set())?;
    // for the prover: so many runs are counted, and the join makes none
    pages.interval_count();
    pages.replace(i, i + 2, Page::of(both));
    Ok(())
}

/// Splits page `i`, which has two runs at least, in the middle.
fn split<B: Width>(pages: &mut PageList<B>, i: usize) -> Result<(), AllocError>
    requires less { i < length pages.old }
    requires fits { length pages.old < usize.MAX }
    requires runs { 1 < length (slice_index_or pages.old i []) }
    ensures { flattened pages.new ≡ flattened pages.old }
{
    let (low, high) = halves(pages.page(i).set())?;
    pages.split(i, low, high)
}

/// The pages of the first and of the second half of the runs of a set, which has two at least.
fn halves<B: Width>(set: &IntervalSet<B>) -> Result<(Page<B>, Page<B>), AllocError>
    requires { 1 < length set.now }
    ensures { IfOk result (λ h. h.0 ++ h.1 ≡ set.now) }
{
    let runs = set.iter().as_slice();
    let middle = runs[runs.len() / 2].lower();
    let low = set.strict_shrink_right(middle)?;
    let high = set.shrink_left(middle)?;
    Ok((Page::of(low), Page::of(high)))
}
