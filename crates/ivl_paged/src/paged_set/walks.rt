//! What two sets of runs have in common, each in pages or in one list.
ghost use Rattle.std.specs.Prelude.{◌≡◌, ◌↔◌, ◌≤ℤ◌, ℤ, List, IsSomeAnd, IsTrue, length};
ghost use Rattle.ivl_laws.specs.Sets.{HasSome, Intersection, IsBetween, IsSubset};
ghost use Rattle.ivl_laws.specs.Runs.{Covers, IsMaximal};
ghost use Rattle.ivl_paged.specs.Walks.{IsReadTo, put_back};

use super::PagedSet;
use super::iter::{Runs, runs_of};
use intervallum::interval::Interval;
use intervallum::interval_set::IntervalSet;
use intervallum::ops::{Overlap, Subset};
use intervallum::width::Width;

/// How many times as many runs a set must have to be searched for each run of the other.
const FAR_MORE: usize = 16;

/// A set whose runs are read in order, or searched for those that an interval meets.
pub(super) trait Walkable<B: Width> {
    /// The runs.
    ghost runs: { Self → List (ℤ × ℤ) };

    /// The runs, from the first.
    fn walk(&self) -> Runs<'_, B>
        ensures all { result ≡ runs self.now }
        ensures maximal { IsMaximal (runs self.now) };

    /// How many runs there are.
    fn run_count(&self) -> usize
        ensures { result ≡ length (runs self.now) };

    /// Returns true exactly when a member lies in the interval.
    fn meets(&self, interval: &Interval<B>) -> bool
        ensures { IsTrue result ↔ HasSome (Intersection (Covers (runs self.now)) (IsBetween interval.now)) };

    /// Returns true exactly when each number of the interval is a member.
    fn has_all(&self, interval: &Interval<B>) -> bool
        ensures { IsTrue result ↔ IsSubset (IsBetween interval.now) (Covers (runs self.now)) };
}

impl<B: Width> Walkable<B> for PagedSet<B> {
    ghost runs = { λ L. L };

    fn walk(&self) -> Runs<'_, B> {
        self.iter()
    }

    fn run_count(&self) -> usize {
        self.interval_count()
    }

    fn meets(&self, interval: &Interval<B>) -> bool {
        self.overlap(interval)
    }

    fn has_all(&self, interval: &Interval<B>) -> bool {
        self.includes(interval)
    }
}

impl<B: Width> Walkable<B> for IntervalSet<B> {
    ghost runs = { λ L. L };

    fn walk(&self) -> Runs<'_, B> {
        self.in_whole();
        runs_of(self.runs())
    }

    fn run_count(&self) -> usize {
        self.interval_count()
    }

    fn meets(&self, interval: &Interval<B>) -> bool {
        self.overlap(interval)
    }

    fn has_all(&self, interval: &Interval<B>) -> bool {
        self.includes(interval)
    }
}

/// Whether two sets have a common member. Reads both, or searches for each run of one in the other if that
/// one has far more.
pub(super) fn have_common<B: Width, S: Walkable<B>, T: Walkable<B>>(a: &S, b: &T) -> bool
    ensures { IsTrue result ↔ HasSome (Intersection (Covers (S.runs a.now)) (Covers (T.runs b.now))) }
{
    if a.run_count() < b.run_count() / FAR_MORE {
        return any_meets(a.walk(), b);
    }
    if b.run_count() < a.run_count() / FAR_MORE {
        return any_meets(b.walk(), a);
    }
    share_a_number(a.walk(), b.walk())
}

/// Whether each member of a set is a member of another. Reads both, or searches for each run in the other
/// if that one has far more.
pub(super) fn is_included<B: Width, S: Walkable<B>, T: Walkable<B>>(a: &S, b: &T) -> bool
    ensures { IsTrue result ↔ IsSubset (Covers (S.runs a.now)) (Covers (T.runs b.now)) }
{
    if a.run_count() < b.run_count() / FAR_MORE {
        return all_are_in(a.walk(), b);
    }
    are_within(a.walk(), b.walk())
}

/// Whether a set has a member in one of some runs.
fn any_meets<B: Width, S: Walkable<B>>(mut few: Runs<'_, B>, many: &S) -> bool
    ensures { IsTrue result ↔ HasSome (Intersection (Covers few.entry) (Covers (S.runs many.now))) }
{
    'runs: while let Some(run) = few.next() {
        if many.meets(&run) {
            return true;
        }
    }
    false
}

/// Whether a set has all numbers of some runs.
fn all_are_in<B: Width, S: Walkable<B>>(mut few: Runs<'_, B>, many: &S) -> bool
    ensures { IsTrue result ↔ IsSubset (Covers few.entry) (Covers (S.runs many.now)) }
{
    'runs: while let Some(run) = few.next() {
        if !many.has_all(&run) {
            return false;
        }
    }
    true
}

/// Whether some number is in runs of both lists.
fn share_a_number<B: Width>(mut a: Runs<'_, B>, mut b: Runs<'_, B>) -> bool
    requires left { IsMaximal a }
    requires right { IsMaximal b }
    ensures { IsTrue result ↔ HasSome (Intersection (Covers a.entry) (Covers b.entry)) }
{
    let mut other = None;
    'runs: while let Some(run) = a.next() {
        let Some(next) = read_to(&mut b, other, run.lower_bound()) else {
            return false;
        };
        if next.lower_bound() <= run.upper_bound() {
            return true;
        }
        other = Some(next);
    }
    false
}

/// Whether each number in runs of one list is in runs of the other.
fn are_within<B: Width>(mut a: Runs<'_, B>, mut b: Runs<'_, B>) -> bool
    requires left { IsMaximal a }
    requires right { IsMaximal b }
    ensures { IsTrue result ↔ IsSubset (Covers a.entry) (Covers b.entry) }
{
    let mut other = None;
    'runs: while let Some(run) = a.next() {
        let Some(next) = read_to(&mut b, other, run.lower_bound()) else {
            return false;
        };
        if !run.is_subset(&next) {
            return false;
        }
        other = Some(next);
    }
    true
}

/// The first run that ends at a value or above: the one in hand, if there is one, or else one of those that
/// are left, of which the runs up to it are taken.
fn read_to<B: Width>(
    left: &mut Runs<'_, B>,
    in_hand: Option<Interval<B>>,
    value: B,
) -> Option<Interval<B>>
    ensures { IsReadTo (B.value value) (put_back in_hand left.old) result left.new }
{
    if ends_from(in_hand, value) {
        return in_hand;
    }
    next_to(left, value)
}

/// Whether there is a run in hand that ends at a value or above.
fn ends_from<B: Width>(in_hand: Option<Interval<B>>, value: B) -> bool
    ensures { IsTrue result ↔ IsSomeAnd in_hand (λ run. B.value value ≤ℤ run.1) }
{
    match in_hand {
        Some(run) => value <= run.upper_bound(),
        None => false,
    }
}

/// The first run of those that are left which ends at a value or above. The runs up to it are taken.
fn next_to<B: Width>(left: &mut Runs<'_, B>, value: B) -> Option<Interval<B>>
    ensures { IsReadTo (B.value value) left.old result left.new }
{
    'runs: while let Some(run) = left.next() {
        if value <= run.upper_bound() {
            return Some(run);
        }
    }
    None
}
