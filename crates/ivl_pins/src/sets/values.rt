//! Operations on a set and a value, and sets from lists by value.
ghost use Rattle.std.specs.Prelude.{◌≡◌, ◌↔◌, [], ◌∷◌, ◌++◌, ◌≤ℤ◌, All, IfOk, IsTrue, MatchOption, Some, codes, map, option_map, string_bytes};
ghost use Rattle.ivl_laws.specs.Sets.{HasNone, HasSome, Held, Intersection, IsBetween, IsInRange, Only, Union, Without};
ghost use Rattle.ivl_laws.specs.Runs.{Covers, IsRunListIn, IsRunsOf};

use intervallum::interval::Interval;
use intervallum::interval_set::{IntervalSet, IntoRuns, ToIntervalSet};
use intervallum::optional::Optional;
use intervallum::width::Width;
use ivl_interval_pins::callers;
use std::alloc::{AllocError, Global};
use std::fmt::Display;

/// Returns true exactly when the number of the value is a member.
pub fn set_overlaps_value<B: Width>(a: &IntervalSet<B>, x: &B) -> bool
    ensures { IsTrue result ↔ Covers a.now (B.value x.now) }
{
    callers::pairs::overlap_by_bound(a, x)
}

/// Returns true exactly when there is a value and it is a member.
pub fn set_overlaps_optional<B: Width>(a: &IntervalSet<B>, o: &Optional<B>) -> bool
    ensures { IsTrue result ↔ HasSome (Intersection (Covers a.now) (Held (option_map B.value o.now))) }
{
    callers::pairs::overlap_by_bound(a, o)
}

/// Returns true exactly when there is no value, or it is not a member.
pub fn set_is_disjoint_from_optional<B: Width>(a: &IntervalSet<B>, o: &Optional<B>) -> bool
    ensures { IsTrue result ↔ HasNone (Intersection (Covers a.now) (Held (option_map B.value o.now))) }
{
    callers::pairs::is_disjoint_by_bound(a, o)
}

/// Returns the value alone if it is a member, else the empty set.
pub fn set_common_with_value<B: Width>(
    a: &IntervalSet<B>,
    x: &B,
) -> Result<IntervalSet<B>, AllocError>
    ensures { IfOk result (λ L. IsRunsOf L (Intersection (Covers a.now) (Only (B.value x.now)))) }
{
    callers::pairs::intersection_by_bound(a, x)
}

/// Returns the members except the value.
pub fn set_without_value<B: Width>(a: &IntervalSet<B>, x: &B) -> Result<IntervalSet<B>, AllocError>
    ensures { IfOk result (λ L. IsRunsOf L (Without (Covers a.now) (Only (B.value x.now)))) }
{
    callers::pairs::difference_by_bound(a, x)
}

/// Returns the members and the value.
pub fn set_with_value<B: Width>(a: &IntervalSet<B>, x: &B) -> Result<IntervalSet<B>, AllocError>
    requires { IsBetween B.whole (B.value x.now) }
    ensures { IfOk result (λ L. IsRunsOf L (Union (Covers a.now) (Only (B.value x.now)))) }
{
    callers::pairs::union_by_bound(a, x)
}

/// Returns the set of the numbers of every pair of a vector.
pub fn set_of_vector<B: Width>(
    alloc: Global,
    pairs: Vec<(B, B)>,
) -> Result<IntervalSet<B>, AllocError>
    requires { All (λ p. IsInRange B.whole (B.value p.0, B.value p.1)) pairs.items }
    ensures { IfOk result (λ L. IsRunsOf L (Covers (map (λ p. (B.value p.0, B.value p.1)) pairs.items))) }
{
    pairs.to_interval_set(alloc)
}

/// Returns the set of the numbers of every pair of an array.
pub fn set_of_array<B: Width, const N: usize>(
    alloc: Global,
    pairs: [(B, B); N],
) -> Result<IntervalSet<B>, AllocError>
    requires { All (λ p. IsInRange B.whole (B.value p.0, B.value p.1)) pairs }
    ensures { IfOk result (λ L. IsRunsOf L (Covers (map (λ p. (B.value p.0, B.value p.1)) pairs))) }
{
    pairs.to_interval_set(alloc)
}

/// Returns the runs of a borrowed set, by a loop over it. They are maximal and in the range.
pub fn runs_by_reference<B: Width>(set: &IntervalSet<B>) -> std::slice::Iter<'_, Interval<B>>
    ensures rest { result.rest.now ≡ set.now }
    ensures runs { IsRunListIn B.whole set.now }
{
    set.into_iter()
}

/// Removes and returns the first of the runs that are left.
pub fn first_run_by_value<B: Width>(runs: &mut IntoRuns<B>) -> Option<Interval<B>>
    ensures { MatchOption result ((runs.old ≡ []) × (runs.new ≡ [])) (λ run. runs.old ≡ run ∷ runs.new) }
{
    runs.next()
}

/// Removes and returns the last of the runs that are left.
pub fn last_run_by_value<B: Width>(runs: &mut IntoRuns<B>) -> Option<Interval<B>>
    ensures { MatchOption result ((runs.old ≡ []) × (runs.new ≡ [])) (λ run. runs.old ≡ runs.new ++ run ∷ []) }
{
    runs.next_back()
}

/// Returns the text of the empty set.
pub fn text_of_no_run<B: Width + Display>(
    alloc: Global,
    set: &IntervalSet<B>,
) -> Result<String, AllocError>
    requires { set.now ≡ [] }
    ensures { IfOk result (λ text. string_bytes text ≡ codes "{}") }
{
    format!(in alloc; "{set}")
}

/// Returns the text of one run, which is that of the interval.
pub fn text_of_one_run<B: Width + Display>(
    alloc: Global,
    set: &IntervalSet<B>,
    run: &Interval<B>,
) -> Result<String, AllocError>
    requires one { set.now ≡ run.now ∷ [] }
    requires in_order { run.now.0 ≤ℤ run.now.1 }
    ensures { (lower : _) (upper : _) → B.output (B.at run.now.0) ≡ Some lower → B.output (B.at run.now.1) ≡ Some upper →
        IfOk result (λ text. string_bytes text ≡ codes "[" ++ lower ++ codes ".." ++ upper ++ codes "]") }
{
    format!(in alloc; "{set}")
}
