//! Callers of the calls on a window, of fits that are taken, of the sizes of two sets, of the
//! operators, and of a set split in two. None of them needs a hand-written proof.
ghost use Rattle.std.specs.Prelude.{◌≡◌, ◌↔◌, ◌⊎◌, ℤ, All, IfOk, IsTrue, MatchOption, OnErr, OnOk};
ghost use Rattle.ivl_laws.specs.Counts.{IsCountOf};
ghost use Rattle.ivl_laws.specs.Sets.{AtLeast, Below, Complement, HasNone, HasSome, Intersection, IsBetween, Only, SymmetricDifference, Union, Without};
ghost use Rattle.ivl_laws.specs.Runs.{Covers, IsRunListIn, IsRunsOf};
ghost use Rattle.ivl_places.specs.Fits.{IsBestFit};
ghost use Rattle.ivl_places.specs.FirstFit.{FitsAt, IsFirstFit};
ghost use Rattle.ivl_places.specs.Windows.{OfRunsThatMeet};

use intervallum::interval::Interval;
use intervallum::interval_set::IntervalSet;
use intervallum::ops::{Disjoint, SymmetricDifference};
use intervallum::width::{SizeNumber, Width};
use std::alloc::AllocError;

/// Returns the whole runs that overlap a window: each of their numbers is in one run with some
/// member of the window, and each run has a number of the window.
pub fn met_by<'a, B: Width>(set: &'a IntervalSet<B>, window: &Interval<B>) -> &'a [Interval<B>]
    ensures members { IsRunsOf result.now (OfRunsThatMeet (IsBetween window.now) (Covers set.now)) }
    ensures overlap { All (λ run. HasSome (Intersection (IsBetween run) (IsBetween window.now))) result.now }
    ensures within { IsRunListIn B.whole result.now }
{
    set.runs_within(window)
}

/// Returns the number of members in a window.
pub fn count_within<B: Width>(set: &IntervalSet<B>, window: &Interval<B>) -> B::Output
    ensures { IsCountOf (B.Output.size result) (Intersection (Covers set.now) (IsBetween window.now)) }
{
    set.size_within(window)
}

/// Removes and returns the lowest `count` consecutive members, if `count` is tested to be above 0:
/// without a room, or for no members, the set is unchanged.
pub fn take_if_some<B: Width>(set: &mut IntervalSet<B>, count: B::Output) -> Option<Interval<B>>
    ensures fit { MatchOption result
        ((B.Output.size count ≡ 0) ⊎ ((v : ℤ) → ¬ (FitsAt (B.Output.size count) (Covers set.old) v)))
        (IsFirstFit (B.Output.size count) (Covers set.old)) }
    ensures members { MatchOption result
        (set.new ≡ set.old)
        (λ run. IsRunsOf set.new (Without (Covers set.old) (IsBetween run))) }
{
    if count.number() > 0 {
        set.take_first_fit(count)
    } else {
        None
    }
}

/// Returns the start of the shortest run that has `count` members, if `count` is tested to be above
/// 0.
pub fn best_if_some<B: Width>(set: &IntervalSet<B>, count: B::Output) -> Option<Interval<B>>
    ensures { MatchOption result
        ((B.Output.size count ≡ 0) ⊎ ((v : ℤ) → ¬ (FitsAt (B.Output.size count) (Covers set.now) v)))
        (IsBestFit (B.Output.size count) (Covers set.now)) }
{
    if count.number() > 0 {
        set.best_fit(count)
    } else {
        None
    }
}

/// Returns the number of members of both sets.
pub fn count_of_both<B: Width>(a: &IntervalSet<B>, b: &IntervalSet<B>) -> B::Output
    ensures { IsCountOf (B.Output.size result) (Intersection (Covers a.now) (Covers b.now)) }
{
    a.intersection_size(b)
}

/// Returns the number of members of either set.
pub fn count_of_either<B: Width>(a: &IntervalSet<B>, b: &IntervalSet<B>) -> B::Output
    ensures { IsCountOf (B.Output.size result) (Union (Covers a.now) (Covers b.now)) }
{
    a.union_size(b)
}

/// Returns the number of members of the first set that are not in the second.
pub fn count_of_first_alone<B: Width>(a: &IntervalSet<B>, b: &IntervalSet<B>) -> B::Output
    ensures { IsCountOf (B.Output.size result) (Without (Covers a.now) (Covers b.now)) }
{
    a.difference_size(b)
}

/// Returns the members of either set, owned.
pub fn either_of_owned<B: Width>(
    a: IntervalSet<B>,
    b: IntervalSet<B>,
) -> Result<IntervalSet<B>, AllocError>
    ensures { IfOk result (λ L. IsRunsOf L (Union (Covers a) (Covers b))) }
{
    a | b
}

/// Returns the members of either set, the first owned and the second lent.
pub fn either_of_owned_and_lent<B: Width>(
    a: IntervalSet<B>,
    b: &IntervalSet<B>,
) -> Result<IntervalSet<B>, AllocError>
    ensures { IfOk result (λ L. IsRunsOf L (Union (Covers a) (Covers b.now))) }
{
    a | b
}

/// Returns the members of either set, the first lent and the second owned.
pub fn either_of_lent_and_owned<B: Width>(
    a: &IntervalSet<B>,
    b: IntervalSet<B>,
) -> Result<IntervalSet<B>, AllocError>
    ensures { IfOk result (λ L. IsRunsOf L (Union (Covers a.now) (Covers b))) }
{
    a | b
}

/// Returns the members of either set, lent.
pub fn either_of_lent<B: Width>(
    a: &IntervalSet<B>,
    b: &IntervalSet<B>,
) -> Result<IntervalSet<B>, AllocError>
    ensures { IfOk result (λ L. IsRunsOf L (Union (Covers a.now) (Covers b.now))) }
{
    a | b
}

/// Returns the members of both sets, owned.
pub fn both_of_owned<B: Width>(
    a: IntervalSet<B>,
    b: IntervalSet<B>,
) -> Result<IntervalSet<B>, AllocError>
    ensures { IfOk result (λ L. IsRunsOf L (Intersection (Covers a) (Covers b))) }
{
    a & b
}

/// Returns the members of both sets, the first owned and the second lent.
pub fn both_of_owned_and_lent<B: Width>(
    a: IntervalSet<B>,
    b: &IntervalSet<B>,
) -> Result<IntervalSet<B>, AllocError>
    ensures { IfOk result (λ L. IsRunsOf L (Intersection (Covers a) (Covers b.now))) }
{
    a & b
}

/// Returns the members of both sets, the first lent and the second owned.
pub fn both_of_lent_and_owned<B: Width>(
    a: &IntervalSet<B>,
    b: IntervalSet<B>,
) -> Result<IntervalSet<B>, AllocError>
    ensures { IfOk result (λ L. IsRunsOf L (Intersection (Covers a.now) (Covers b))) }
{
    a & b
}

/// Returns the members of both sets, lent.
pub fn both_of_lent<B: Width>(
    a: &IntervalSet<B>,
    b: &IntervalSet<B>,
) -> Result<IntervalSet<B>, AllocError>
    ensures { IfOk result (λ L. IsRunsOf L (Intersection (Covers a.now) (Covers b.now))) }
{
    a & b
}

/// Returns the members of exactly one of two sets, owned.
pub fn one_alone_of_owned<B: Width>(
    a: IntervalSet<B>,
    b: IntervalSet<B>,
) -> Result<IntervalSet<B>, AllocError>
    ensures { IfOk result (λ L. IsRunsOf L (SymmetricDifference (Covers a) (Covers b))) }
{
    a ^ b
}

/// Returns the members of exactly one of two sets, the first owned and the second lent.
pub fn one_alone_of_owned_and_lent<B: Width>(
    a: IntervalSet<B>,
    b: &IntervalSet<B>,
) -> Result<IntervalSet<B>, AllocError>
    ensures { IfOk result (λ L. IsRunsOf L (SymmetricDifference (Covers a) (Covers b.now))) }
{
    a ^ b
}

/// Returns the members of exactly one of two sets, the first lent and the second owned.
pub fn one_alone_of_lent_and_owned<B: Width>(
    a: &IntervalSet<B>,
    b: IntervalSet<B>,
) -> Result<IntervalSet<B>, AllocError>
    ensures { IfOk result (λ L. IsRunsOf L (SymmetricDifference (Covers a.now) (Covers b))) }
{
    a ^ b
}

/// Returns the members of exactly one of two sets, lent.
pub fn one_alone_of_lent<B: Width>(
    a: &IntervalSet<B>,
    b: &IntervalSet<B>,
) -> Result<IntervalSet<B>, AllocError>
    ensures { IfOk result (λ L. IsRunsOf L (SymmetricDifference (Covers a.now) (Covers b.now))) }
{
    a ^ b
}

/// Returns the numbers of the range that are not members, of a set that is owned.
pub fn complement_of_owned<B: Width>(a: IntervalSet<B>) -> Result<IntervalSet<B>, AllocError>
    ensures { IfOk result (λ L. IsRunsOf L (Complement B.whole (Covers a))) }
{
    !a
}

/// Returns the numbers of the range that are not members, of a set that is lent.
pub fn complement_of_lent<B: Width>(a: &IntervalSet<B>) -> Result<IntervalSet<B>, AllocError>
    ensures { IfOk result (λ L. IsRunsOf L (Complement B.whole (Covers a.now))) }
{
    !a
}

/// Returns true exactly when no member of an interval is a member.
pub fn has_none_of<B: Width>(set: &IntervalSet<B>, interval: &Interval<B>) -> bool
    ensures { IsTrue result ↔ HasNone (Intersection (Covers set.now) (IsBetween interval.now)) }
{
    set.is_disjoint(interval)
}

/// Returns true exactly when a value is not a member.
pub fn is_not_member<B: Width>(set: &IntervalSet<B>, value: &B) -> bool
    ensures { IsTrue result ↔ HasNone (Intersection (Covers set.now) (Only (B.value value.now))) }
{
    set.is_disjoint(value)
}

/// Returns the numbers of exactly one of a set and an interval.
pub fn one_alone_with_interval<B: Width>(
    set: &IntervalSet<B>,
    interval: &Interval<B>,
) -> Result<IntervalSet<B>, AllocError>
    ensures { IfOk result (λ L. IsRunsOf L (SymmetricDifference (Covers set.now) (IsBetween interval.now))) }
{
    set.symmetric_difference(interval)
}

/// Splits a set in two at a value.
pub fn split_at<B: Width>(set: &mut IntervalSet<B>, v: B) -> Result<IntervalSet<B>, AllocError>
    ensures above { IfOk result (λ L. IsRunsOf L (AtLeast (B.value v) (Covers set.old))) }
    ensures below { OnOk result (IsRunsOf set.new (Below (B.value v) (Covers set.old))) }
    ensures err { OnErr result (set.new ≡ set.old) }
{
    set.split_off(v)
}
