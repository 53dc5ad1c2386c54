//! Operations on two sets, window by window, whose answer stands in pages.
ghost use Rattle.std.specs.Prelude.{◌≡◌, ◌++◌, ◌∷◌, ◌<◌, ℤ, pos, List, IfOk, MatchOption, OnOk, length};
ghost use Rattle.ivl_laws.specs.Sets.{Union};
ghost use Rattle.ivl_laws.specs.Runs.{Covers, IsMaximal, IsRunListIn, IsRunsOf};
ghost use Rattle.ivl_walks.specs.Order.{IsBelow};
ghost use Rattle.ivl_paged.specs.Operations.{KeptBy};
ghost use Rattle.ivl_paged.specs.Pages.{flattened};

use crate::page_list::PageList;
use crate::pages;
use crate::parts::Parts;
use intervallum::interval::Interval;
use intervallum::ops::{Bounded, Range};
use intervallum::width::Width;
use ivl_merges::merges::{difference, intersection, symmetric_difference, union};
use std::alloc::{AllocError, Global};

/// Which members of two sets an operation keeps.
#[derive(Clone, Copy)]
pub(crate) enum Operation {
    /// Those of either.
    Either,
    /// Those of both.
    Both,
    /// Those of the first that the other does not have.
    FirstAlone,
    /// Those of exactly one.
    OneAlone,
}

/// What an operation makes of two sets, in pages.
///
/// A window begins where the last one ended. What both sets have in it is put into two lists,
/// and what the operation makes of these in the window is put behind the pages so far. The runs of a set
/// that lie there are at most those of some pages.
pub(crate) fn combined<B: Width, S: Parts<B>, T: Parts<B>>(
    alloc: Global,
    first: &S,
    second: &T,
    op: Operation,
) -> Result<PageList<B>, AllocError>
    requires first { IsRunListIn B.whole (S.runs first.now) }
    requires second { IsRunListIn B.whole (T.runs second.now) }
    ensures { IfOk result (λ P. IsRunsOf (flattened P) (KeptBy op (Covers (S.runs first.now)) (Covers (T.runs second.now)))) }
{
    let mut pages = PageList::new(alloc);
    let (mut a, mut b) = (Vec::new(alloc), Vec::new(alloc));
    let mut made = Vec::new(alloc);
    let mut lower = B::min_value();
    'windows: loop {
        let upper = first.end_from(lower).min(second.end_from(lower));
        let window = Interval::new(lower, upper);
        first.gather(&window, &mut a)?;
        second.gather(&window, &mut b)?;
        merge(&a, &b, op, &mut made)?;
        put(alloc, &mut pages, &made)?;
        if B::max_value() <= upper {
            return Ok(pages);
        }
        lower = upper.add_in_range(B::one());
    }
}

/// Writes the runs that an operation makes of two lists of runs into a list, in the place of what it has.
fn merge<B: Width>(
    first: &[Interval<B>],
    second: &[Interval<B>],
    op: Operation,
    made: &mut Vec<Interval<B>>,
) -> Result<(), AllocError>
    requires first { IsRunListIn B.whole first.now }
    requires second { IsRunListIn B.whole second.now }
    ensures { OnOk result (IsRunsOf made.new.items (KeptBy op (Covers first.now) (Covers second.now))) }
{
    // no memory holds more runs than a `usize` counts
    let room = first.len().checked_add(second.len()).ok_or(AllocError)?;
    made.clear();
    made.reserve(room)?;
    match op {
        Operation::Either => {
            union(first, second, made);
            Ok(())
        }
        Operation::Both => {
            intersection(first, second, made);
            Ok(())
        }
        Operation::FirstAlone => {
            difference(first, second, made);
            Ok(())
        }
        Operation::OneAlone => {
            symmetric_difference(first, second, made);
            Ok(())
        }
    }
}

/// Puts the runs of a list, which are above those of pages, behind them.
fn put<B: Width>(
    alloc: Global,
    pages: &mut PageList<B>,
    piece: &[Interval<B>],
) -> Result<(), AllocError>
    requires runs { IsRunListIn B.whole (flattened pages.old) }
    requires piece { IsMaximal piece.now }
    requires above { IsBelow (pos 1) (Covers (flattened pages.old)) (Covers piece.now) }
    ensures { OnOk result (IsRunsOf (flattened pages.new) (Union (Covers (flattened pages.old)) (Covers piece.now))) }
{
    let Some(run) = touching_run(pages, piece) else {
        return put_apart(alloc, pages, piece);
    };
    pages::insert_interval(pages, run)?;
    put_apart(alloc, pages, &piece[1..])
}

/// The first run of a list, if no number is missing between it and the last one of pages, which is below
/// it.
fn touching_run<B: Width>(pages: &PageList<B>, piece: &[Interval<B>]) -> Option<Interval<B>>
    requires runs { IsMaximal (flattened pages.now) }
    requires piece { IsMaximal piece.now }
    requires above { IsBelow (pos 1) (Covers (flattened pages.now)) (Covers piece.now) }
    ensures { MatchOption result
        (IsBelow (pos 2) (Covers (flattened pages.now)) (Covers piece.now))
        (λ run. (0 < length pages.now) × ((rest : List (ℤ × ℤ)) × (piece.now ≡ run ∷ rest))) }
{
    let count = pages.len();
    if count == 0 {
        return None;
    }
    let (run, _) = piece.split_first()?;
    let last = pages.page(count - 1).set().upper();
    if last < run.lower().sub_in_range(B::one()) {
        return None;
    }
    Some(*run)
}

/// Puts the runs of a list behind those of pages, between which a number is missing.
fn put_apart<B: Width>(
    alloc: Global,
    pages: &mut PageList<B>,
    piece: &[Interval<B>],
) -> Result<(), AllocError>
    requires { IsMaximal (flattened pages.old ++ piece.now) }
    ensures { OnOk result (flattened pages.new ≡ flattened pages.old ++ piece.now) }
{
    let count = pages.len();
    pages::push_runs(alloc, pages, piece)?;
    pages::join_if_few(pages, count.saturating_sub(1));
    Ok(())
}
