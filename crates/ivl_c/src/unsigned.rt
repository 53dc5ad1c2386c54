//! The calls over u64, whose sets range from 0 to `UINT64_MAX - 1`. Written by bindings/calls from signed.rt.
ghost use Rattle.std.specs.Prelude.{◌≡◌, ◌↔◌, false, IsTrue, pos, take};
ghost use Rattle.ivl_laws.specs.Sets.{AtLeast, AtMost, Complement, Differences, HasSome, Intersection, IsBetween, IsSubset, SameMembers, Sums, SymmetricDifference, Union, Without};
ghost use Rattle.ivl_laws.specs.Runs.{Covers, IsMaximal};
ghost use Rattle.ivl_buffers.specs.Answers.{AnswersProducts, AnswersQuestion, AnswersSet, AnswersSize};
ghost use Rattle.ivl_buffers.specs.Beside.{AnswersPrevious, AnswersRun};
ghost use Rattle.ivl_buffers.specs.Lookup.{AnswersFit, AnswersNext};
ghost use Rattle.ivl_buffers.specs.Rank.{AnswersNth, AnswersRank};
ghost use Rattle.ivl_buffers.specs.Lists.{IsInOrder, members_u64, pair_u64, pairs_u64, whole_u64};

use ivl_buffers::comparisons::{Asking, ask, count};
use ivl_buffers::edits::{Editing, edit};
use ivl_buffers::lookup::{first_fit, next_from};
use ivl_buffers::pair::PairU64;
use ivl_buffers::products::products;
use ivl_buffers::rank::{nth, rank};
use ivl_buffers::set_calls::{OfOne, OfTwo, of_one, of_two};
use ivl_buffers::sums::{Adding, of_members};
use ivl_buffers::{beside, reading, sorted_lookup};
use std::alloc::Global;

/// Writes the members of a list as a list of runs. `O(n log n)`.
#[unsafe(no_mangle)]
pub extern "C" fn ivl_normalize_u64(alloc: Global, a: &[PairU64], out: &mut [PairU64]) -> i64
    ensures { AnswersSet whole_u64 (members_u64 a.now) (members_u64 a.now) (pairs_u64 out.old) (pairs_u64 out.new) result }
{
    of_one(alloc, OfOne::Same, a, out)
}

/// Writes the complement within the range. `O(n log n)`; if the list is one of runs, `O(n)`, and does
/// not allocate.
#[unsafe(no_mangle)]
pub extern "C" fn ivl_complement_u64(alloc: Global, a: &[PairU64], out: &mut [PairU64]) -> i64
    ensures { AnswersSet whole_u64 (members_u64 a.now) (Complement whole_u64 (members_u64 a.now)) (pairs_u64 out.old) (pairs_u64 out.new) result }
{
    of_one(alloc, OfOne::Rest, a, out)
}

/// Writes the members of either list. `O(n log n + m log m)`; if both are lists of runs,
/// `O(n + m)`, and does not allocate.
#[unsafe(no_mangle)]
pub extern "C" fn ivl_union_u64(
    alloc: Global,
    a: &[PairU64],
    b: &[PairU64],
    out: &mut [PairU64],
) -> i64
    ensures { AnswersSet whole_u64 (Union (members_u64 a.now) (members_u64 b.now)) (Union (members_u64 a.now) (members_u64 b.now))
        (pairs_u64 out.old) (pairs_u64 out.new) result }
{
    of_two(alloc, OfTwo::Either, a, b, out)
}

/// Writes the members of both lists. `O(n log n + m log m)`; if both are lists of runs, `O(n + m)`,
/// and does not allocate.
#[unsafe(no_mangle)]
pub extern "C" fn ivl_intersection_u64(
    alloc: Global,
    a: &[PairU64],
    b: &[PairU64],
    out: &mut [PairU64],
) -> i64
    ensures { AnswersSet whole_u64 (Union (members_u64 a.now) (members_u64 b.now)) (Intersection (members_u64 a.now) (members_u64 b.now))
        (pairs_u64 out.old) (pairs_u64 out.new) result }
{
    of_two(alloc, OfTwo::Both, a, b, out)
}

/// Writes the members of the first list that are not in the second. `O(n log n + m log m)`; if both
/// are lists of runs, `O(n + m)`, and does not allocate.
#[unsafe(no_mangle)]
pub extern "C" fn ivl_difference_u64(
    alloc: Global,
    a: &[PairU64],
    b: &[PairU64],
    out: &mut [PairU64],
) -> i64
    ensures { AnswersSet whole_u64 (Union (members_u64 a.now) (members_u64 b.now)) (Without (members_u64 a.now) (members_u64 b.now))
        (pairs_u64 out.old) (pairs_u64 out.new) result }
{
    of_two(alloc, OfTwo::FirstAlone, a, b, out)
}

/// Writes the members of exactly one list. `O(n log n + m log m)`.
#[unsafe(no_mangle)]
pub extern "C" fn ivl_symmetric_difference_u64(
    alloc: Global,
    a: &[PairU64],
    b: &[PairU64],
    out: &mut [PairU64],
) -> i64
    ensures { AnswersSet whole_u64 (Union (members_u64 a.now) (members_u64 b.now)) (SymmetricDifference (members_u64 a.now) (members_u64 b.now))
        (pairs_u64 out.old) (pairs_u64 out.new) result }
{
    of_two(alloc, OfTwo::OneAlone, a, b, out)
}

/// Returns 1 if each member of the first list is one of the second, and 0 if not.
/// `O(n log n + m log m)`; if both are lists of runs, `O(n + m)`, and does not allocate.
#[unsafe(no_mangle)]
pub extern "C" fn ivl_is_subset_u64(alloc: Global, a: &[PairU64], b: &[PairU64]) -> i64
    ensures { AnswersQuestion whole_u64 (Union (members_u64 a.now) (members_u64 b.now)) (IsSubset (members_u64 a.now) (members_u64 b.now)) result }
{
    ask(alloc, Asking::Within, a, b)
}

/// Returns 1 if some number is a member of both lists, and 0 if not. `O(n log n + m log m)`; if both
/// are lists of runs, `O(n + m)`, and does not allocate.
#[unsafe(no_mangle)]
pub extern "C" fn ivl_overlap_u64(alloc: Global, a: &[PairU64], b: &[PairU64]) -> i64
    ensures { AnswersQuestion whole_u64 (Union (members_u64 a.now) (members_u64 b.now)) (HasSome (Intersection (members_u64 a.now) (members_u64 b.now))) result }
{
    ask(alloc, Asking::Meets, a, b)
}

/// Returns 1 if the lists have the same members, and 0 if not. `O(n log n + m log m)`; if both are
/// lists of runs, `O(n + m)`, and does not allocate.
#[unsafe(no_mangle)]
pub extern "C" fn ivl_equal_u64(alloc: Global, a: &[PairU64], b: &[PairU64]) -> i64
    ensures { AnswersQuestion whole_u64 (Union (members_u64 a.now) (members_u64 b.now)) (SameMembers (members_u64 a.now) (members_u64 b.now)) result }
{
    ask(alloc, Asking::Alike, a, b)
}

/// Writes the number of members of a list, and returns 0. `O(n log n)`.
#[unsafe(no_mangle)]
pub extern "C" fn ivl_size_u64(alloc: Global, a: &[PairU64], size: &mut u64) -> i64
    ensures { AnswersSize whole_u64 (members_u64 a.now) size.old size.new result }
{
    count(alloc, a, size)
}

/// Returns true exactly when a number is a member of the list. `O(n)`, does not allocate.
#[unsafe(no_mangle)]
pub extern "C" fn ivl_contains_u64(a: &[PairU64], v: u64) -> bool
    ensures { IsTrue result ↔ members_u64 a.now (pos v) }
{
    reading::contains(a, v)
}

/// Returns true exactly when a number is a member of a sorted list. For any other list, returns
/// true only if the number is a member. `O(log n)`, does not allocate.
#[unsafe(no_mangle)]
pub extern "C" fn ivl_contains_sorted_u64(a: &[PairU64], v: u64) -> bool
    ensures member { IsTrue result → members_u64 a.now (pos v) }
    ensures in_order { IsInOrder (pairs_u64 a.now) → (IsTrue result ↔ members_u64 a.now (pos v)) }
{
    sorted_lookup::contains(a, v)
}

/// Writes the sums of a member of each list that are in the range. `O(n m log (n m))`.
#[unsafe(no_mangle)]
pub extern "C" fn ivl_sums_within_u64(
    alloc: Global,
    a: &[PairU64],
    b: &[PairU64],
    out: &mut [PairU64],
) -> i64
    ensures { AnswersSet whole_u64 (Union (members_u64 a.now) (members_u64 b.now))
        (Intersection (Sums (members_u64 a.now) (members_u64 b.now)) (IsBetween whole_u64))
        (pairs_u64 out.old) (pairs_u64 out.new) result }
{
    of_members(alloc, Adding::Sum, a, b, out)
}

/// Writes the differences of a member of `a` and one of `b` that are in the range.
/// `O(n m log (n m))`.
#[unsafe(no_mangle)]
pub extern "C" fn ivl_differences_within_u64(
    alloc: Global,
    a: &[PairU64],
    b: &[PairU64],
    out: &mut [PairU64],
) -> i64
    ensures { AnswersSet whole_u64 (Union (members_u64 a.now) (members_u64 b.now))
        (Intersection (Differences (members_u64 a.now) (members_u64 b.now)) (IsBetween whole_u64))
        (pairs_u64 out.old) (pairs_u64 out.new) result }
{
    of_members(alloc, Adding::Difference, a, b, out)
}

/// Writes, for each pair of runs, the numbers from the least to the greatest product. Returns a
/// code if some product is outside the range. `O(n m log (n m))`.
#[unsafe(no_mangle)]
pub extern "C" fn ivl_products_u64(
    alloc: Global,
    a: &[PairU64],
    b: &[PairU64],
    out: &mut [PairU64],
) -> i64
    ensures { AnswersProducts whole_u64 (members_u64 a.now) (members_u64 b.now) (pairs_u64 out.old) (pairs_u64 out.new) result }
{
    products(alloc, a, b, out)
}

/// Writes the least member that is at least `v`. Returns true exactly when there is one. `O(n)`,
/// does not allocate.
#[unsafe(no_mangle)]
pub extern "C" fn ivl_next_from_u64(a: &[PairU64], v: u64, found: &mut u64) -> bool
    ensures { AnswersNext (pos v) (members_u64 a.now) (pos found.old) (pos found.new) result }
{
    next_from(a, v, found)
}

/// Writes the least member of a sorted list that is at least `v`. Returns true exactly when there
/// is one. For any other list, what is written is a member that is at least `v`. `O(log n)`, does
/// not allocate.
#[unsafe(no_mangle)]
pub extern "C" fn ivl_next_from_sorted_u64(a: &[PairU64], v: u64, found: &mut u64) -> bool
    ensures member { IsTrue result → AtLeast (pos v) (members_u64 a.now) (pos found.new) }
    ensures same { result ≡ false → found.new ≡ found.old }
    ensures in_order { IsInOrder (pairs_u64 a.now) → AnswersNext (pos v) (members_u64 a.now) (pos found.old) (pos found.new) result }
{
    sorted_lookup::next_from(a, v, found)
}

/// Writes the greatest member of a sorted list that is at most `v`. Returns true exactly when there
/// is one. For any other list, what is written is a member that is at most `v`. `O(log n)`, does
/// not allocate.
#[unsafe(no_mangle)]
pub extern "C" fn ivl_previous_to_sorted_u64(a: &[PairU64], v: u64, found: &mut u64) -> bool
    ensures member { IsTrue result → AtMost (pos v) (members_u64 a.now) (pos found.new) }
    ensures same { result ≡ false → found.new ≡ found.old }
    ensures in_order { IsInOrder (pairs_u64 a.now) → AnswersPrevious (pos v) (members_u64 a.now) (pos found.old) (pos found.new) result }
{
    beside::previous_to(a, v, found)
}

/// Writes the run that holds `v` in a list of runs. Returns true exactly when there is one. For a
/// list that is sorted, the same with a pair of the list that holds `v`. For any other list, what
/// is written is a pair of the list that holds `v`. `O(log n)`, does not allocate.
#[unsafe(no_mangle)]
pub extern "C" fn ivl_run_at_sorted_u64(a: &[PairU64], v: u64, found: &mut PairU64) -> bool
    ensures member { IsTrue result → IsBetween (pair_u64 found.new) (pos v) × IsSubset (IsBetween (pair_u64 found.new)) (members_u64 a.now) }
    ensures same { result ≡ false → pair_u64 found.new ≡ pair_u64 found.old }
    ensures in_order { IsInOrder (pairs_u64 a.now) → (IsTrue result ↔ members_u64 a.now (pos v)) }
    ensures run { IsMaximal (pairs_u64 a.now) → AnswersRun (pos v) (members_u64 a.now) (pair_u64 found.old) (pair_u64 found.new) result }
{
    beside::run_at(a, v, found)
}

/// Writes the lowest `count` consecutive members as one run and returns 1, or returns 0 if there
/// are none or `count` is 0. `O(n log n)`.
#[unsafe(no_mangle)]
pub extern "C" fn ivl_first_fit_u64(
    alloc: Global,
    a: &[PairU64],
    count: u64,
    found: &mut PairU64,
) -> i64
    ensures { AnswersFit whole_u64 count (members_u64 a.now) (pair_u64 found.old) (pair_u64 found.new) result }
{
    first_fit(alloc, a, count, found)
}

/// Writes the number of members below `v`, and returns 0. `O(n log n)`.
#[unsafe(no_mangle)]
pub extern "C" fn ivl_rank_u64(alloc: Global, a: &[PairU64], v: u64, found: &mut u64) -> i64
    ensures { AnswersRank whole_u64 (pos v) (members_u64 a.now) found.old found.new result }
{
    rank(alloc, a, v, found)
}

/// Writes the member with exactly `i` members below it and returns 1, or returns 0 if there is none.
/// `O(n log n)`.
#[unsafe(no_mangle)]
pub extern "C" fn ivl_nth_u64(alloc: Global, a: &[PairU64], i: u64, found: &mut u64) -> i64
    ensures { AnswersNth whole_u64 i (members_u64 a.now) (pos found.old) (pos found.new) result }
{
    nth(alloc, a, i, found)
}

/// Adds the numbers from `lower` to `upper` to the first `n` pairs of a buffer, and writes the runs
/// to the same buffer. `O(n log n)`.
#[unsafe(no_mangle)]
pub extern "C" fn ivl_insert_u64(
    alloc: Global,
    runs: &mut [PairU64],
    n: usize,
    lower: u64,
    upper: u64,
) -> i64
    ensures { AnswersSet whole_u64 (Union (Covers (take n (pairs_u64 runs.old))) (IsBetween (pos lower, pos upper)))
        (Union (Covers (take n (pairs_u64 runs.old))) (IsBetween (pos lower, pos upper))) (pairs_u64 runs.old) (pairs_u64 runs.new) result }
{
    edit(alloc, Editing::Insert, runs, n, PairU64 { lower, upper })
}

/// Removes the numbers from `lower` to `upper` from the first `n` pairs of a buffer, and writes the
/// runs to the same buffer. `O(n log n)`.
#[unsafe(no_mangle)]
pub extern "C" fn ivl_remove_u64(
    alloc: Global,
    runs: &mut [PairU64],
    n: usize,
    lower: u64,
    upper: u64,
) -> i64
    ensures { AnswersSet whole_u64 (Union (Covers (take n (pairs_u64 runs.old))) (IsBetween (pos lower, pos upper)))
        (Without (Covers (take n (pairs_u64 runs.old))) (IsBetween (pos lower, pos upper))) (pairs_u64 runs.old) (pairs_u64 runs.new) result }
{
    edit(alloc, Editing::Remove, runs, n, PairU64 { lower, upper })
}
