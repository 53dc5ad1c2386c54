//! What the calls of a paged set mean, as a caller learns it; [`run_set`](crate::run_set) has those that both kinds of set have. None of these needs a hand-written proof.
ghost use Rattle.std.specs.Prelude.{◌≡◌, ◌↔◌, ◌⊎◌, ◌≤◌, ◌≤ℤ◌, ℕ, ℤ, pos, ◌+ℤ◌, ◌-ℤ◌, [], ◌∷◌, IfOk, IfSome, IsTrue, MatchOption, OnErr, OnOk, length};
ghost use Rattle.std.specs.List.Retain.{IsFiltered};
ghost use Rattle.ivl_laws.specs.Bounds.{width_of};
ghost use Rattle.ivl_laws.specs.Counts.{IsCountOf, IsIn};
ghost use Rattle.ivl_laws.specs.Sets.{AtLeast, Below, HasNone, HasSome, Intersection, IsBetween, IsSubset, SameMembers, Union, Without};
ghost use Rattle.ivl_laws.specs.Runs.{Covers, IsRunsOf};
ghost use Rattle.ivl_places.specs.FirstFit.{FitsAt, IsFirstFit};
ghost use Rattle.ivl_places.specs.Fits.{IsBestFit};
ghost use Rattle.ivl_places.specs.Members.{IsAscending};
ghost use Rattle.ivl_places.specs.Neighbours.{IsRunWith};
ghost use Rattle.ivl_places.specs.Windows.{OfRunsThatMeet};

use intervallum::interval::Interval;
use intervallum::interval_set::IntervalSet;
use intervallum::ops::{Bounded, Disjoint, Overlap, Subset};
use intervallum::width::{SizeNumber, Width};
use ivl_paged::paged_set::{Members, PagedSet, Runs};
use std::alloc::{AllocError, Global};

/// Removes the numbers of an interval.
pub fn loses_interval<B: Width>(
    set: &mut PagedSet<B>,
    interval: Interval<B>,
) -> Result<(), AllocError>
    ensures members { OnOk result (IsRunsOf set.new (Without (Covers set.old) (IsBetween interval))) }
    ensures err { OnErr result (set.new ≡ set.old) }
{
    set.remove_interval(interval)
}

/// Removes an interval that ends right below a number that is no member, which cannot fail.
pub fn cut_in_place<B: Width>(set: &mut PagedSet<B>, interval: Interval<B>)
    requires { ¬ (Covers set.old (interval.1 +ℤ pos 1)) × (interval.0 ≤ℤ interval.1) }
    ensures { IsRunsOf set.new (Without (Covers set.old) (IsBetween interval)) }
{
    set.remove_interval(interval).unwrap();
}

/// Adds an interval that begins right above a member, which cannot fail.
pub fn grow_in_place<B: Width>(set: &mut PagedSet<B>, interval: Interval<B>)
    requires { Covers set.old (interval.0 -ℤ pos 1) × (interval.0 ≤ℤ interval.1) }
    ensures { IsRunsOf set.new (Union (Covers set.old) (IsBetween interval)) }
{
    set.insert_interval(interval).unwrap();
}

/// Takes the lowest `count` consecutive members, if `count` is tested to be above 0.
pub fn take_if_some<B: Width>(set: &mut PagedSet<B>, count: B::Output) -> Option<Interval<B>>
    ensures fit { MatchOption result
        ((B.Output.size count ≡ 0) ⊎ ((v : ℤ) → ¬ (FitsAt (B.Output.size count) (Covers set.old) v)))
        (IsFirstFit (B.Output.size count) (Covers set.old)) }
    ensures members { MatchOption result
        (set.new ≡ set.old)
        (λ run. IsRunsOf set.new (Without (Covers set.old) (IsBetween run))) }
{
    if count.number() > 0 {
        set.take_first_fit(count)
    } else {
        None
    }
}

/// Returns true exactly when a set is one run.
pub fn is_one_run<B: Width>(set: &PagedSet<B>) -> bool
    ensures { IsTrue result ↔ (length set.now ≡ 1) }
{
    set.interval_count() == 1
}

/// Returns true exactly when two sets have the same members.
pub fn have_same_members<B: Width>(a: &PagedSet<B>, b: &PagedSet<B>) -> bool
    ensures { IsTrue result ↔ SameMembers (Covers a.now) (Covers b.now) }
{
    *a == *b
}

/// Returns the first run of a set, if there is one.
pub fn first_run<B: Width>(set: &PagedSet<B>) -> Option<Interval<B>>
    ensures { MatchOption result (set.now ≡ []) (λ run. HasSome (IsBetween run)) }
{
    set.iter().next()
}

/// Puts the runs of a set into pages and back into one list.
pub fn there_and_back<B: Width>(set: &IntervalSet<B>) -> Result<IntervalSet<B>, AllocError>
    ensures { IfOk result (λ L. L ≡ set.now) }
{
    let paged = PagedSet::of_set(set)?;
    paged.try_clone()?.to_set()
}

/// Returns the set with an interval added, which may be empty.
pub fn with_interval<B: Width>(
    mut set: PagedSet<B>,
    interval: Interval<B>,
) -> Result<PagedSet<B>, AllocError>
    ensures { IfOk result (λ L. IsRunsOf L (Union (Covers set) (IsBetween interval))) }
{
    set.insert_interval(interval)?;
    Ok(set)
}

/// Returns the set of an interval, whether it is empty or not.
pub fn set_of_interval<B: Width>(
    alloc: Global,
    interval: Interval<B>,
) -> Result<PagedSet<B>, AllocError>
    ensures { IfOk result (λ L. IsRunsOf L (IsBetween interval)) }
{
    with_interval(PagedSet::new(alloc), interval)
}

/// Returns the whole range, as one run.
pub fn all_of_range<B: Width>(alloc: Global) -> Result<PagedSet<B>, AllocError>
    ensures { IfOk result (λ L. L ≡ B.whole ∷ []) }
{
    PagedSet::whole(alloc)
}

/// Returns the least and the greatest member of a set that has one.
pub fn both_ends<B: Width>(set: &PagedSet<B>) -> (B, B)
    requires { HasSome (Covers set.now) }
    ensures least { (z : ℤ) → Covers set.now z → B.value result.0 ≤ℤ z }
    ensures greatest { (z : ℤ) → Covers set.now z → z ≤ℤ B.value result.1 }
    ensures members { Covers set.now (B.value result.0) × Covers set.now (B.value result.1) }
{
    (set.lower(), set.upper())
}

/// Returns true exactly when each number of an interval is a member.
pub fn has_each<B: Width>(set: &PagedSet<B>, interval: &Interval<B>) -> bool
    ensures { IsTrue result ↔ IsSubset (IsBetween interval.now) (Covers set.now) }
{
    set.includes(interval)
}

/// Returns true exactly when some number of an interval is a member.
pub fn has_some_of<B: Width>(set: &PagedSet<B>, interval: &Interval<B>) -> bool
    ensures { IsTrue result ↔ HasSome (Intersection (Covers set.now) (IsBetween interval.now)) }
{
    set.overlap(interval)
}

/// Returns true exactly when no number of an interval is a member.
pub fn has_none_of<B: Width>(set: &PagedSet<B>, interval: &Interval<B>) -> bool
    ensures { IsTrue result ↔ HasNone (Intersection (Covers set.now) (IsBetween interval.now)) }
{
    set.is_disjoint(interval)
}

/// Returns true exactly when two sets have a common member.
pub fn have_one_in_common<B: Width>(a: &PagedSet<B>, b: &PagedSet<B>) -> bool
    ensures { IsTrue result ↔ HasSome (Intersection (Covers a.now) (Covers b.now)) }
{
    a.overlap(b)
}

/// Returns true exactly when two sets have no common member.
pub fn have_none_in_common<B: Width>(a: &PagedSet<B>, b: &PagedSet<B>) -> bool
    ensures { IsTrue result ↔ HasNone (Intersection (Covers a.now) (Covers b.now)) }
{
    a.is_disjoint(b)
}

/// Returns true exactly when a set and a list have a common member.
pub fn has_one_of_list<B: Width>(set: &PagedSet<B>, list: &IntervalSet<B>) -> bool
    ensures { IsTrue result ↔ HasSome (Intersection (Covers set.now) (Covers list.now)) }
{
    set.overlap(list)
}

/// Returns true exactly when a set and a list have no common member.
pub fn has_none_of_list<B: Width>(set: &PagedSet<B>, list: &IntervalSet<B>) -> bool
    ensures { IsTrue result ↔ HasNone (Intersection (Covers set.now) (Covers list.now)) }
{
    set.is_disjoint(list)
}

/// Returns true exactly when each member of a set is one of another.
pub fn lies_in<B: Width>(a: &PagedSet<B>, b: &PagedSet<B>) -> bool
    ensures { IsTrue result ↔ IsSubset (Covers a.now) (Covers b.now) }
{
    a.is_subset(b)
}

/// Returns true exactly when each member of a set is one of another, which is asked.
pub fn holds_all_of<B: Width>(a: &PagedSet<B>, b: &PagedSet<B>) -> bool
    ensures { IsTrue result ↔ IsSubset (Covers b.now) (Covers a.now) }
{
    a.is_superset(b)
}

/// Returns true exactly when each member of a set is one of a list.
pub fn lies_in_list<B: Width>(set: &PagedSet<B>, list: &IntervalSet<B>) -> bool
    ensures { IsTrue result ↔ IsSubset (Covers set.now) (Covers list.now) }
{
    set.is_subset_of_list(list)
}

/// Returns true exactly when each member of a list is one of a set.
pub fn holds_all_of_list<B: Width>(set: &PagedSet<B>, list: &IntervalSet<B>) -> bool
    ensures { IsTrue result ↔ IsSubset (Covers list.now) (Covers set.now) }
{
    set.is_superset_of_list(list)
}

/// Returns how many members lie in an interval.
pub fn count_in<B: Width>(set: &PagedSet<B>, interval: &Interval<B>) -> B::Output
    ensures { IsCountOf (B.Output.size result) (Intersection (Covers set.now) (IsBetween interval.now)) }
{
    set.size_within(interval)
}

/// Returns the runs that overlap an interval.
pub fn runs_that_meet<'a, B: Width>(set: &'a PagedSet<B>, interval: &Interval<B>) -> Runs<'a, B>
    ensures { IsRunsOf result (OfRunsThatMeet (IsBetween interval.now) (Covers set.now)) }
{
    set.runs_within(interval)
}

/// Returns the numbers of an interval that are not members.
pub fn free_in<B: Width>(
    set: &PagedSet<B>,
    interval: &Interval<B>,
) -> Result<IntervalSet<B>, AllocError>
    ensures { IfOk result (λ L. IsRunsOf L (Without (IsBetween interval.now) (Covers set.now))) }
{
    set.gaps_within(interval)
}

/// Returns the start of the shortest run with `count` members, if `count` is tested to be above 0.
pub fn tightest_if_some<B: Width>(set: &PagedSet<B>, count: B::Output) -> Option<Interval<B>>
    ensures { MatchOption result
        ((B.Output.size count ≡ 0) ⊎ ((v : ℤ) → ¬ (FitsAt (B.Output.size count) (Covers set.now) v)))
        (IsBestFit (B.Output.size count) (Covers set.now)) }
{
    if count.number() > 0 {
        set.best_fit(count)
    } else {
        None
    }
}

/// Returns the lowest of the longest runs.
pub fn widest<B: Width>(set: &PagedSet<B>) -> Option<Interval<B>>
    ensures run { MatchOption result (set.now ≡ []) (λ run. IsRunWith run.0 (Covers set.now) run) }
    ensures longest { IfSome result (λ run. (n : ℕ) (v : ℤ) → FitsAt n (Covers set.now) v → n ≤ width_of run) }
    ensures lowest { IfSome result (λ run. IsFirstFit (width_of run) (Covers set.now) run) }
{
    set.longest_run()
}

/// Divides a set at a value.
pub fn divided<B: Width>(set: &mut PagedSet<B>, value: B) -> Result<PagedSet<B>, AllocError>
    ensures above { IfOk result (λ L. IsRunsOf L (AtLeast (B.value value) (Covers set.old))) }
    ensures below { OnOk result (IsRunsOf set.new (Below (B.value value) (Covers set.old))) }
    ensures err { OnErr result (set.new ≡ set.old) }
{
    set.split_off(value)
}

/// Returns the members that lie in an interval.
pub fn members_in<'a, B: Width>(set: &'a PagedSet<B>, interval: &Interval<B>) -> Members<'a, B>
    ensures members { SameMembers (Intersection (Covers set.now) (IsBetween interval.now)) (IsIn result) }
    ensures ascending { IsAscending result }
{
    set.members_within(interval)
}

/// Gives a list of runs away for pages, and these for a list.
pub fn given_there_and_back<B: Width>(set: IntervalSet<B>) -> Result<IntervalSet<B>, AllocError>
    ensures { IfOk result (λ L. L ≡ set) }
{
    PagedSet::from_set(set)?.into_set()
}

/// Keeps the runs for whose bounds a test says true.
pub fn kept_by_a_test<B: Width, F: FnMut(B, B) -> bool>(
    set: &mut PagedSet<B>,
    test: F,
) -> Result<(), AllocError>
    requires { F.IsAlwaysCallable test }
    ensures kept { OnOk result (IsFiltered (λ f run b g. F.step f (B.at run.0) (B.at run.1) b g) test set.old set.new) }
    ensures err { OnErr result (set.new ≡ set.old) }
{
    set.retain(test)
}
