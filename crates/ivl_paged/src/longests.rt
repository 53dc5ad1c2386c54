//! For each page a number that no run of it exceeds, which is the same for the pages of a group.
ghost use Rattle.std.specs.Prelude.{◌≡◌, ◌⊎◌, ℕ, ◌+◌, ◌<◌, ◌≤◌, List, [], ◌∷◌, ◌++◌, All, IsTrue, drop, false, length, take, slice_index_or, MatchOption, OnErr, OnOk};
ghost use Rattle.ivl_laws.specs.Runs.{Covers};
ghost use Rattle.ivl_paged.specs.Longests.{AreAtMost, AreBounded, HasLong, IsGroup, IsNextPart, NoneLonger, bounds_of, cut, place_count};

use crate::page::Page;
use intervallum::width::{SizeNumber, Width};
use std::alloc::{AllocError, Global};
use std::marker::Model;

/// A group that gets so many pages is divided in two, unless there is no memory for it. With 8 in its place, the
/// tests divide groups at a few hundred runs.
const MOST_PAGES: usize = 128;

/// How many pages a group gets where pages are put behind the others.
const FIRST_PAGES: usize = MOST_PAGES / 2;

/// For each page a number that no run of it exceeds. Pages that stand in a row form a group, and have the same
/// number, so that a search for a long run passes most groups, and looks at the pages of few.
#[derive(Drop)]
pub(crate) struct Longests<B: Width> {
    /// How many pages each group has.
    counts: Vec<usize>,
    /// The number that no run of the group exceeds.
    mosts: Vec<B::Output>,
}

impl<B: Width> Model for Longests<B> {
    ghost Value = { List ℕ };

    ghost view = { λ l. bounds_of B.Output.size l.counts.items l.mosts.items };

    ghost invariant = { λ l. length l.counts.items ≡ length l.mosts.items };
}

impl<B: Width> Longests<B> {
    /// Those of no pages.
    pub(crate) fn new(alloc: Global) -> Self
        ensures { result ≡ [] }
    {
        Longests {
            counts: Vec::new(alloc),
            mosts: Vec::new(alloc),
        }
    }

    /// Takes out all pages.
    pub(crate) fn clear(&mut self)
        ensures { self.new ≡ [] }
    {
        self.counts.clear();
        self.mosts.clear();
    }

    /// Puts a page behind the others, which has no run longer than `most`.
    pub(crate) fn push(&mut self, most: B::Output) -> Result<(), AllocError>
        ensures ok { OnOk result (AreAtMost (self.old ++ B.Output.size most ∷ []) self.new) }
        ensures err { OnErr result (self.new ≡ self.old) }
    {
        let groups = self.counts.len();
        if 0 < groups && self.counts[groups - 1] < FIRST_PAGES {
            self.counts[groups - 1] += 1;
            self.mosts[groups - 1] = greater(self.mosts[groups - 1], most);
            return Ok(());
        }
        self.mosts.reserve(1)?;
        self.counts.push(1)?;
        self.mosts.push_reserved(most);
        Ok(())
    }

    /// Puts a page behind page `i`, which has no run longer than that page may have. Returns true where a group
    /// was divided.
    pub(crate) fn widen(&mut self, i: usize) -> bool
        requires less { i < length self.old }
        requires fits { length self.old < usize.MAX }
        ensures { self.new ≡ take (i + 1) self.old ++ slice_index_or self.old i 0 ∷ drop (i + 1) self.old }
    {
        let (group, _) = find(self.counts.as_slice(), i);
        self.counts[group] += 1;
        // without memory the group grows beyond its measure
        MOST_PAGES <= self.counts[group] && divide(&mut self.counts, &mut self.mosts, group).is_ok()
    }

    /// Takes out the pages from `start` to before `end`.
    pub(crate) fn take_out(&mut self, start: usize, end: usize)
        requires { start ≤ end }
        ensures { self.new ≡ take start self.old ++ drop end self.old }
    {
        take_places(&mut self.counts, start, end);
        remove_empty(&mut self.counts, &mut self.mosts);
    }

    /// Lets page `i`, whose longest run had `before` numbers, have one of `after`.
    pub(crate) fn raise(&mut self, i: usize, before: B::Output, after: B::Output)
        requires less { i < length self.old }
        requires bounded { B.Output.size before ≤ slice_index_or self.old i 0 }
        ensures others { AreAtMost self.old self.new }
        ensures here { B.Output.size after ≤ slice_index_or self.new i 0 }
    {
        if before >= after {
            return;
        }
        let (group, _) = find(self.counts.as_slice(), i);
        self.mosts[group] = greater(self.mosts[group], after);
    }

    /// Reads the group of page `i` anew where its longest run may have been in that page: this had `before` numbers,
    /// and has `after`.
    pub(crate) fn lower(&mut self, i: usize, before: B::Output, after: B::Output, pages: &[Page<B>])
        requires less { i < length self.old }
        requires bounded { AreBounded self.old pages.now }
        ensures { AreBounded self.new pages.now }
    {
        if after >= before {
            return;
        }
        let (group, _) = find(self.counts.as_slice(), i);
        if before >= self.mosts[group] {
            self.read_anew(i, pages);
        }
    }

    /// Reads the groups of page `i` and beside it anew, if a group was divided there.
    pub(crate) fn settle(&mut self, i: usize, is_divided: bool, pages: &[Page<B>])
        requires { AreBounded self.old pages.now }
        ensures { AreBounded self.new pages.now }
    {
        if !is_divided {
            return;
        }
        self.read_anew(i, pages);
        self.read_anew(i.saturating_sub(FIRST_PAGES), pages);
        self.read_anew(i.saturating_add(FIRST_PAGES), pages);
    }

    /// Reads the groups of page `i` and of the page before it anew, beside which pages were taken out.
    pub(crate) fn read_beside(&mut self, i: usize, pages: &[Page<B>])
        requires { AreBounded self.old pages.now }
        ensures { AreBounded self.new pages.now }
    {
        self.read_anew(i, pages);
        if i == 0 {
            return;
        }
        self.read_anew(i - 1, pages);
    }

    /// Makes the number of the group of page `i`, if there is one, what its longest run has.
    fn read_anew(&mut self, i: usize, pages: &[Page<B>])
        requires { AreBounded self.old pages.now }
        ensures { AreBounded self.new pages.now }
    {
        if pages.len() <= i {
            return;
        }
        let (group, left) = find(self.counts.as_slice(), i);
        let behind = &pages[i - left..];
        self.mosts[group] = longest_of(&behind[..self.counts[group]]);
    }

    /// The next pages of one group, from page `from` on, of which one may have a run of `count` numbers. There are
    /// `pages` pages.
    pub(crate) fn next_with(
        &self,
        from: usize,
        count: B::Output,
        pages: usize,
    ) -> Option<(usize, usize)>
        requires { length self.now ≡ pages }
        ensures { MatchOption result
            ((k : ℕ) → from ≤ k → k < length self.now → slice_index_or self.now k 0 < B.Output.size count)
            (IsNextPart self.now from (B.Output.size count)) }
    {
        next_group(
            self.counts.as_slice(),
            self.mosts.as_slice(),
            from,
            count,
            pages,
        )
    }
}

/// The next places of one group, from place `from` on, whose number is `count` or above, of `places` in all.
fn next_group<N: SizeNumber>(
    counts: &[usize],
    mosts: &[N],
    from: usize,
    count: N,
    places: usize,
) -> Option<(usize, usize)>
    requires same { length counts.now ≡ length mosts.now }
    requires all { place_count counts.now ≡ places }
    ensures { MatchOption result
        ((k : ℕ) → from ≤ k → k < length (bounds_of N.size counts.now mosts.now) → slice_index_or (bounds_of N.size counts.now mosts.now) k 0 < N.size count)
        (IsNextPart (bounds_of N.size counts.now mosts.now) from (N.size count)) }
{
    if places <= from {
        return None;
    }
    let mut start = 0;
    for group in 0..counts.len() {
        let end = start + counts[group];
        if may_have(from, end, mosts[group], count) {
            return Some((start.max(from), end));
        }
        start = end;
    }
    None
}

/// Whether places that end after place `from` have a number of `count` or above.
fn may_have<N: SizeNumber>(from: usize, end: usize, most: N, count: N) -> bool
    ensures on { IsTrue result → from < end }
    ensures none { result ≡ false → (end ≤ from) ⊎ (N.size most < N.size count) }
{
    from < end && most >= count
}

/// The group of place `i`, and how many places of it are before.
fn find(counts: &[usize], i: usize) -> (usize, usize)
    requires { i < place_count counts.now }
    ensures { IsGroup counts.now i result.0 result.1 }
{
    let mut group = 0;
    let mut left = i;
    'groups: while counts[group] <= left {
        left -= counts[group];
        group += 1;
    }
    (group, left)
}

/// The greater of two numbers.
fn greater<N: SizeNumber>(x: N, y: N) -> N
    ensures at_least_x { N.size x ≤ N.size result }
    ensures at_least_y { N.size y ≤ N.size result }
    ensures either { (N.size result ≡ N.size x) ⊎ (N.size result ≡ N.size y) }
{
    if x >= y { x } else { y }
}

/// Divides a group in two, whose number stays the same.
fn divide<N: SizeNumber>(
    counts: &mut Vec<usize>,
    mosts: &mut Vec<N>,
    group: usize,
) -> Result<(), AllocError>
    requires less { group < length counts.old.items }
    requires same { length counts.old.items ≡ length mosts.old.items }
    ensures same { length counts.new.items ≡ length mosts.new.items }
    ensures bounds { bounds_of N.size counts.new.items mosts.new.items ≡ bounds_of N.size counts.old.items mosts.old.items }
{
    let count = counts[group];
    let most = mosts[group];
    mosts.reserve(1)?;
    counts.insert(group + 1, count - count / 2)?;
    mosts.insert(group + 1, most).unwrap();
    counts[group] = count / 2;
    Ok(())
}

/// Takes the places from `start` to before `end` out of groups.
fn take_places(counts: &mut Vec<usize>, start: usize, end: usize)
    requires { start ≤ end }
    ensures { counts.new.items ≡ cut start end counts.old.items }
{
    let mut low = start;
    let mut high = end;
    for group in 0..counts.len() {
        let count = counts[group];
        counts[group] = low.min(count) + count.saturating_sub(high);
        low = low.saturating_sub(count);
        high = high.saturating_sub(count);
    }
}

/// Takes out the groups that have no pages.
fn remove_empty<N: SizeNumber>(counts: &mut Vec<usize>, mosts: &mut Vec<N>)
    requires { length counts.old.items ≡ length mosts.old.items }
    ensures same { length counts.new.items ≡ length mosts.new.items }
    ensures bounds { bounds_of N.size counts.new.items mosts.new.items ≡ bounds_of N.size counts.old.items mosts.old.items }
{
    let mut group = 0;
    'groups: while group < counts.len() {
        if counts[group] == 0 {
            counts.remove(group);
            mosts.remove(group);
        } else {
            group += 1;
        }
    }
}

/// How many members the longest run of some pages has: no run exceeds it. 0 if there is no page.
pub(crate) fn longest_of<B: Width>(pages: &[Page<B>]) -> B::Output
    ensures most { All (λ L. NoneLonger (B.Output.size result) (Covers L)) pages.now }
    ensures has { (B.Output.size result ≡ 0) ⊎ ((k : ℕ) × HasLong (B.Output.size result) pages.now k) }
{
    let mut most = <B::Output as SizeNumber>::zero();
    for page in pages {
        most = greater(most, page.longest());
    }
    most
}
