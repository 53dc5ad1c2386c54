//! The pages of a set, in order, beside a list of their least members, what no run of them exceeds, and the numbers of
//! their members and runs.
ghost use Rattle.std.specs.Prelude.{ℕ, MatchOption, ◌≡◌, ◌==◌, ◌↔◌, ◌⊎◌, ◌+◌, ◌%◌, ◌^◌, ◌++◌, ◌<◌, ◌≤◌, ℤ, ◌≤ℤ◌, List, [], ◌∷◌, drop, length, set, slice_index_or, take, IfOk, IsOk, IsTrue, OnErr, OnOk, false};
ghost use Rattle.ivl_laws.specs.Families.{set_at};
ghost use Rattle.ivl_laws.specs.Sets.{HasSome, Intersection, IsBetween, IsSubset, Only, Union, Without};
ghost use Rattle.ivl_laws.specs.Runs.{Covers, IsMaximal, IsRunsOf};
ghost use Rattle.ivl_places.specs.Edits.{widened};
ghost use Rattle.ivl_places.specs.Neighbours.{IsLeast};
ghost use Rattle.ivl_paged.specs.Longests.{AreBounded, HasLong, IsNextLong, IsNextLongPart};
ghost use Rattle.ivl_paged.specs.Pages.{AreHeads, StartsUpTo, flattened};
ghost use Rattle.ivl_paged.specs.Sizes.{AreSizes, member_total};

use crate::longests::Longests;
use crate::page::Page;
use crate::sizes;
use intervallum::interval::Interval;
use intervallum::width::Width;
use std::alloc::{AllocError, Global};
use std::hint::select_unpredictable;
use std::marker::Model;

/// If of so many pages more than one is gone, the others move to the place of those.
const SHARE: usize = 16;

/// Pages, beside a list of their least members: a search reads it, and no page. The first of both lists may be
/// gone: then they stand there still, so that the others do not move.
#[derive(Drop)]
pub(crate) struct PageList<B: Width> {
    heads: Vec<B>,
    pages: Vec<Page<B>>,
    /// How many of the first pages are gone.
    gone: usize,
    /// What no run of each page exceeds.
    longests: Longests<B>,
    /// How many members each group of pages has, where those that are gone count too.
    sizes: Vec<u128>,
    /// How many runs the pages have together.
    count: usize,
}

impl<B: Width> Model for PageList<B> {
    ghost Value = { List (List (ℤ × ℤ)) };

    ghost view = { λ l. drop l.gone l.pages.items };

    ghost invariant = { λ l. (AreHeads B.value (drop l.gone l.heads.items) (drop l.gone l.pages.items) × (l.count ≡ length (flattened (drop l.gone l.pages.items))))
        × AreBounded l.longests (drop l.gone l.pages.items) × (l.gone ≤ length l.heads.items) × (l.gone ≤ length l.pages.items)
        × AreSizes l.sizes.items l.pages.items };
}

impl<B: Width> PageList<B> {
    /// The list of no pages.
    pub(crate) fn new(alloc: Global) -> Self
        ensures { result ≡ [] }
    {
        PageList {
            heads: Vec::new(alloc),
            pages: Vec::new(alloc),
            gone: 0,
            longests: Longests::new(alloc),
            sizes: Vec::new(alloc),
            count: 0,
        }
    }

    /// The list of no pages, with room for some.
    pub(crate) fn with_capacity(alloc: Global, capacity: usize) -> Result<Self, AllocError>
        ensures { IfOk result (λ l. l ≡ []) }
    {
        Ok(PageList {
            heads: Vec::with_capacity(alloc, capacity)?,
            pages: Vec::with_capacity(alloc, capacity)?,
            gone: 0,
            longests: Longests::new(alloc),
            sizes: Vec::new(alloc),
            count: 0,
        })
    }

    /// How many pages there are.
    pub(crate) fn len(&self) -> usize
        ensures value { result ≡ length self.now }
        ensures fits { length self.now < usize.MAX }
    {
        self.pages.len() - self.gone
    }

    /// Returns true exactly when there is no page.
    pub(crate) fn is_empty(&self) -> bool
        ensures { result ≡ (length self.now == 0) }
    {
        self.len() == 0
    }

    /// How many runs the pages have together.
    pub(crate) fn interval_count(&self) -> usize
        ensures { result ≡ length (flattened self.now) }
    {
        self.count
    }

    /// The pages.
    pub(crate) fn as_slice(&self) -> &[Page<B>]
        ensures value { result.now ≡ self.now }
    {
        rest(&self.pages, self.gone)
    }

    /// Page `i`.
    pub(crate) fn page(&self, i: usize) -> &Page<B>
        requires { i < length self.now }
        ensures { result.now ≡ slice_index_or self.now i result.now }
    {
        &self.pages[self.gone + i]
    }

    /// The only page.
    pub(crate) fn into_only(self) -> Page<B>
        requires { length self ≡ 1 }
        ensures { self ≡ result ∷ [] }
    {
        let PageList {
            heads,
            mut pages,
            gone: _,
            longests,
            sizes,
            count: _,
        } = self;
        drop(heads);
        drop(longests);
        drop(sizes);
        pages.pop().unwrap()
    }

    /// The least member of page `i`.
    pub(crate) fn head(&self, i: usize) -> B
        requires { i < length self.now }
        ensures { IsLeast (B.value result) (set_at self.now i) }
    {
        self.heads[self.gone + i]
    }

    /// How many members the first `i` pages have together, less a multiple of 2 ^ 128. Reads a number for each group
    /// of 64 pages before them, and the pages of one group.
    pub(crate) fn size_before(&self, i: usize) -> u128
        requires { i ≤ length self.now }
        ensures { result ≡ member_total (take i self.now) % 2 ^ 128 }
    {
        let sizes = self.sizes.as_slice();
        let pages = self.pages.as_slice();
        let all = sizes::total_to(sizes, pages, self.gone + i);
        all.wrapping_sub(sizes::total_to(sizes, pages, self.gone))
    }

    /// A page before which there are no more than `count` members, and how many of these are left. Passes groups of
    /// 64 pages while it can.
    pub(crate) fn pass_groups(&self, count: u128) -> (usize, u128)
        requires { member_total self.now < 2 ^ 128 }
        ensures at_most { result.0 ≤ length self.now }
        ensures left { member_total (take result.0 self.now) + result.1 ≡ count }
    {
        let (place, left) = sizes::pass_groups(
            self.sizes.as_slice(),
            self.pages.as_slice(),
            self.gone,
            count,
        );
        (place - self.gone, left)
    }

    /// The first page from page `from` on that has a run of `count` numbers.
    pub(crate) fn next_with(&self, from: usize, count: B::Output) -> Option<usize>
        ensures { MatchOption result
            ((k : ℕ) → from ≤ k → k < length self.now → ¬ (HasLong (B.Output.size count) self.now k))
            (IsNextLong (B.Output.size count) self.now from) }
    {
        let pages = rest(&self.pages, self.gone);
        let mut place = from;
        'groups: while let Some((start, end)) = self.longests.next_with(place, count, pages.len()) {
            if let Some(i) = first_with(&pages[start..end], count) {
                return Some(start + i);
            }
            place = end;
        }
        None
    }

    /// The next pages of one group, from page `from` on, of which one may have a run of `count` numbers.
    pub(crate) fn next_part(&self, from: usize, count: B::Output) -> Option<(usize, usize)>
        ensures { MatchOption result
            ((k : ℕ) → from ≤ k → k < length self.now → ¬ (HasLong (B.Output.size count) self.now k))
            (IsNextLongPart (B.Output.size count) self.now from) }
    {
        let pages = rest(&self.pages, self.gone);
        self.longests.next_with(from, count, pages.len())
    }

    /// How many pages start at a value or below. Binary search.
    pub(crate) fn starts_up_to(&self, value: B) -> usize
        requires { IsMaximal (flattened self.now) }
        ensures { StartsUpTo self.now (B.value value) result }
    {
        let heads = rest(&self.heads, self.gone);
        let mut first = 0;
        let mut left = heads.len();
        let mut last = value;
        'search: while 0 < left {
            let half = left - left / 2;
            left -= half;
            let head = heads[first + half - 1];
            let is_up_to = head <= value;
            first = select_unpredictable(is_up_to, first + half, first);
            last = select_unpredictable(is_up_to, head, last);
        }
        // never so, but asked: where each step chooses two values, the compiler chooses without a jump
        if value < last {
            return 0;
        }
        first
    }

    /// Puts a page behind the others.
    pub(crate) fn push(&mut self, page: Page<B>) -> Result<(), AllocError>
        ensures ok { OnOk result (self.new ≡ self.old ++ page ∷ []) }
        ensures err { OnErr result (self.new ≡ self.old) }
    {
        let head = page.head();
        // no memory holds more runs than a `usize` counts
        let Some(count) = self.count.checked_add(page.interval_count()) else {
            return Err(AllocError);
        };
        self.heads.reserve(1)?;
        self.pages.reserve(1)?;
        sizes::make_room(&mut self.sizes, self.pages.len())?;
        self.longests.push(page.longest())?;
        sizes::change(&mut self.sizes, self.pages.len(), 0, page.member_count());
        self.pages.push_reserved(page);
        self.heads.push_reserved(head);
        self.count = count;
        Ok(())
    }

    /// Puts two pages, which have the runs of page `i`, in its place.
    pub(crate) fn split(&mut self, i: usize, low: Page<B>, high: Page<B>) -> Result<(), AllocError>
        requires less { i < length self.old }
        requires fits { length self.old < usize.MAX }
        requires parts { low ++ high ≡ slice_index_or self.old i [] }
        ensures { flattened self.new ≡ flattened self.old }
    {
        let head = high.head();
        self.heads.reserve(1)?;
        sizes::make_room(&mut self.sizes, self.pages.len())?;
        let place = self.gone + i;
        let next = self.gone + (i + 1);
        self.pages.insert(next, high)?;
        self.heads.insert(next, head).unwrap();
        self.heads[place] = low.head();
        self.pages[place] = low;
        let is_divided = self.longests.widen(i);
        self.longests
            .settle(i, is_divided, rest(&self.pages, self.gone));
        sizes::read_from(&mut self.sizes, self.pages.as_slice(), place);
        Ok(())
    }

    /// Puts one page in the place of those from `start` to before `end`.
    pub(crate) fn replace(&mut self, start: usize, end: usize, page: Page<B>)
        requires in_order { start < end }
        requires at_most { end ≤ length self.old }
        requires fits { length (flattened (take start self.old)) + (length page + length (flattened (drop end self.old))) ≤ usize.MAX }
        ensures { flattened self.new ≡ flattened (take start self.old) ++ (page ++ flattened (drop end self.old)) }
    {
        self.take_out(start + 1, end);
        let place = self.gone + start;
        let others = self.count - self.pages[place].interval_count();
        self.count = others + page.interval_count();
        let before = self.pages[place].longest();
        let after = page.longest();
        let members = self.pages[place].member_count();
        sizes::change(&mut self.sizes, place, members, page.member_count());
        self.heads[place] = page.head();
        self.pages[place] = page;
        self.longests.raise(start, before, after);
    }

    /// Takes out page `i`.
    pub(crate) fn remove(&mut self, i: usize)
        requires { i < length self.old }
        ensures { self.new ≡ take i self.old ++ drop (i + 1) self.old }
    {
        if i == 0 {
            self.remove_first();
            return;
        }
        let place = self.gone + i;
        self.count -= self.pages[place].interval_count();
        self.heads.remove(place);
        self.pages.remove(place);
        self.longests.take_out(i, i + 1);
        self.longests.read_beside(i, rest(&self.pages, self.gone));
        sizes::read_from(&mut self.sizes, self.pages.as_slice(), place);
    }

    /// Takes out the first page.
    fn remove_first(&mut self)
        requires { 0 < length self.old }
        ensures { self.new ≡ drop 1 self.old }
    {
        self.count -= self.pages[self.gone].interval_count();
        self.gone += 1;
        self.longests.take_out(0, 1);
        self.longests.read_beside(0, rest(&self.pages, self.gone));
        self.move_together();
    }

    /// Moves the pages to the place of those that are gone, if these are many.
    fn move_together(&mut self)
        ensures { self.new ≡ self.old }
    {
        if self.gone <= self.pages.len() / SHARE {
            return;
        }
        drop(self.heads.drain(..self.gone));
        drop(self.pages.drain(..self.gone));
        self.gone = 0;
        sizes::read_from(&mut self.sizes, self.pages.as_slice(), 0);
    }

    /// Takes out the pages from `start` to before `end`.
    pub(crate) fn take_out(&mut self, start: usize, end: usize)
        requires in_order { start ≤ end }
        requires at_most { end ≤ length self.old }
        ensures { self.new ≡ take start self.old ++ drop end self.old }
    {
        if start == end {
            return;
        }
        self.count = runs_beside(&rest(&self.pages, self.gone)[start..end], self.count);
        let low = self.gone + start;
        let high = self.gone + end;
        drop(self.heads.drain(low..high));
        drop(self.pages.drain(low..high));
        self.longests.take_out(start, end);
        self.longests
            .read_beside(start, rest(&self.pages, self.gone));
        sizes::read_from(&mut self.sizes, self.pages.as_slice(), low);
    }

    /// Takes out all pages.
    pub(crate) fn clear(&mut self)
        ensures { self.new ≡ [] }
    {
        self.heads.clear();
        self.pages.clear();
        self.gone = 0;
        self.longests.clear();
        self.sizes.clear();
        self.count = 0;
    }

    /// Adds the members of an interval to page `i`. Returns true exactly when its first number was a
    /// member.
    pub(crate) fn insert_into(
        &mut self,
        i: usize,
        interval: Interval<B>,
    ) -> Result<bool, AllocError>
        requires filled { interval.0 ≤ℤ interval.1 }
        requires less { i < length self.old }
        requires room { (length (flattened self.old) < usize.MAX) ⊎ HasSome (Intersection (set_at self.old i) (IsBetween (widened interval))) }
        ensures ok { OnOk result ((L : List (ℤ × ℤ)) × (self.new ≡ set self.old i L) × IsRunsOf L (Union (set_at self.old i) (IsBetween interval))) }
        ensures was_member { IfOk result (λ was_member. IsTrue was_member ↔ set_at self.old i interval.0) }
        ensures err { OnErr result (self.new ≡ self.old) }
        ensures in_place { HasSome (Intersection (set_at self.old i) (IsBetween (widened interval))) → IsOk result }
    {
        let place = self.gone + i;
        let page = &mut self.pages[place];
        let others = self.count - page.interval_count();
        let before = page.longest();
        let members = page.member_count();
        let was_member = page.insert_interval(interval)?;
        let after = page.longest();
        sizes::change(&mut self.sizes, place, members, page.member_count());
        self.heads[place] = page.head();
        self.count = others + page.interval_count();
        self.longests.raise(i, before, after);
        Ok(was_member)
    }

    /// Removes the members of an interval from page `i`, which leaves some. Returns true exactly when
    /// its first number was a member.
    pub(crate) fn remove_from(
        &mut self,
        i: usize,
        interval: Interval<B>,
    ) -> Result<bool, AllocError>
        requires filled { interval.0 ≤ℤ interval.1 }
        requires less { i < length self.old }
        requires some { HasSome (Without (set_at self.old i) (IsBetween interval)) }
        ensures ok { OnOk result ((L : List (ℤ × ℤ)) × (self.new ≡ set self.old i L) × IsRunsOf L (Without (set_at self.old i) (IsBetween interval))) }
        ensures was_member { IfOk result (λ was_member. IsTrue was_member ↔ set_at self.old i interval.0) }
        ensures err { OnErr result (self.new ≡ self.old) }
        ensures in_place { ¬ (IsSubset (IsBetween (widened interval)) (set_at self.old i)) → IsOk result }
    {
        // no memory holds more runs than a `usize` counts
        if is_split_uncounted(self.count, &self.pages[self.gone + i], &interval) {
            return Err(AllocError);
        }
        let place = self.gone + i;
        let page = &mut self.pages[place];
        let others = self.count - page.interval_count();
        let before = page.longest();
        let members = page.member_count();
        let was_member = page.remove_interval(interval)?;
        let after = page.longest();
        sizes::change(&mut self.sizes, place, members, page.member_count());
        self.heads[place] = page.head();
        self.count = others + page.interval_count();
        self.longests
            .lower(i, before, after, rest(&self.pages, self.gone));
        Ok(was_member)
    }

    /// Removes and returns the least member of page `i`, which has another.
    pub(crate) fn pop_from(&mut self, i: usize) -> B
        requires less { i < length self.old }
        requires some { (v : ℤ) → IsLeast v (set_at self.old i) → HasSome (Without (set_at self.old i) (Only v)) }
        ensures least { IsLeast (B.value result) (set_at self.old i) }
        ensures rest { (L : List (ℤ × ℤ)) × (self.new ≡ set self.old i L) × IsRunsOf L (Without (set_at self.old i) (Only (B.value result))) }
    {
        let place = self.gone + i;
        let page = &mut self.pages[place];
        let others = self.count - page.interval_count();
        let before = page.longest();
        let members = page.member_count();
        let least = page.pop_first();
        let after = page.longest();
        sizes::change(&mut self.sizes, place, members, page.member_count());
        self.heads[place] = page.head();
        self.count = others + page.interval_count();
        self.longests
            .lower(i, before, after, rest(&self.pages, self.gone));
        least
    }
}

/// The items of a list without the first `gone`.
fn rest<T>(items: &Vec<T>, gone: usize) -> &[T]
    requires { gone ≤ length items.now.items }
    ensures { result.now ≡ drop gone items.now.items }
{
    &items[gone..]
}

/// Whether an edit would split a run of a page, where there are as many runs as a `usize` counts.
fn is_split_uncounted<B: Width>(count: usize, page: &Page<B>, interval: &Interval<B>) -> bool
    requires { interval.now.0 ≤ℤ interval.now.1 }
    ensures split { IsTrue result → IsSubset (IsBetween (widened interval.now)) (Covers page.now) }
    ensures counted { result ≡ false → (count < usize.MAX) ⊎ (¬ (IsSubset (IsBetween (widened interval.now)) (Covers page.now))) }
{
    count == usize::MAX && page.has_inside(interval)
}

/// How many runs a list of pages has beside those of some of them, of `count` in all.
fn runs_beside<B: Width>(pages: &[Page<B>], count: usize) -> usize
    requires { length (flattened pages.now) ≤ count }
    ensures { result + length (flattened pages.now) ≡ count }
{
    let mut others = count;
    for page in pages {
        others -= page.interval_count();
    }
    others
}

/// The first page that has a run of `count` numbers.
fn first_with<B: Width>(pages: &[Page<B>], count: B::Output) -> Option<usize>
    ensures { MatchOption result
        ((k : ℕ) → k < length pages.now → ¬ (HasLong (B.Output.size count) pages.now k))
        (IsNextLong (B.Output.size count) pages.now 0) }
{
    for i in 0..pages.len() {
        if pages[i].longest() >= count {
            return Some(i);
        }
    }
    None
}
