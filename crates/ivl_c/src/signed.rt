//! The calls over i64, whose sets range from `-INT64_MAX` to `INT64_MAX`.
ghost use Rattle.std.specs.Prelude.{◌≡◌, ◌↔◌, false, IsTrue, take};
ghost use Rattle.ivl_laws.specs.Sets.{AtLeast, AtMost, Complement, Differences, HasSome, Intersection, IsBetween, IsSubset, SameMembers, Sums, SymmetricDifference, Union, Without};
ghost use Rattle.ivl_laws.specs.Runs.{Covers, IsMaximal};
ghost use Rattle.ivl_buffers.specs.Answers.{AnswersProducts, AnswersQuestion, AnswersSet, AnswersSize};
ghost use Rattle.ivl_buffers.specs.Beside.{AnswersPrevious, AnswersRun};
ghost use Rattle.ivl_buffers.specs.Lookup.{AnswersFit, AnswersNext};
ghost use Rattle.ivl_buffers.specs.Rank.{AnswersNth, AnswersRank};
ghost use Rattle.ivl_buffers.specs.Lists.{IsInOrder, members_i64, pair_i64, pairs_i64, whole_i64};

use ivl_buffers::comparisons::{Asking, ask, count};
use ivl_buffers::edits::{Editing, edit};
use ivl_buffers::lookup::{first_fit, next_from};
use ivl_buffers::pair::PairI64;
use ivl_buffers::products::products;
use ivl_buffers::rank::{nth, rank};
use ivl_buffers::set_calls::{OfOne, OfTwo, of_one, of_two};
use ivl_buffers::sums::{Adding, of_members};
use ivl_buffers::{beside, reading, sorted_lookup};
use std::alloc::Global;

/// Writes the members of a list as a list of runs. `O(n log n)`.
#[unsafe(no_mangle)]
pub extern "C" fn ivl_normalize_i64(alloc: Global, a: &[PairI64], out: &mut [PairI64]) -> i64
    ensures { AnswersSet whole_i64 (members_i64 a.now) (members_i64 a.now) (pairs_i64 out.old) (pairs_i64 out.new) result }
{
    of_one(alloc, OfOne::Same, a, out)
}

/// Writes the complement within the range. `O(n log n)`; if the list is one of runs, `O(n)`, and does
/// not allocate.
#[unsafe(no_mangle)]
pub extern "C" fn ivl_complement_i64(alloc: Global, a: &[PairI64], out: &mut [PairI64]) -> i64
    ensures { AnswersSet whole_i64 (members_i64 a.now) (Complement whole_i64 (members_i64 a.now)) (pairs_i64 out.old) (pairs_i64 out.new) result }
{
    of_one(alloc, OfOne::Rest, a, out)
}

/// Writes the members of either list. `O(n log n + m log m)`; if both are lists of runs,
/// `O(n + m)`, and does not allocate.
#[unsafe(no_mangle)]
pub extern "C" fn ivl_union_i64(
    alloc: Global,
    a: &[PairI64],
    b: &[PairI64],
    out: &mut [PairI64],
) -> i64
    ensures { AnswersSet whole_i64 (Union (members_i64 a.now) (members_i64 b.now)) (Union (members_i64 a.now) (members_i64 b.now))
        (pairs_i64 out.old) (pairs_i64 out.new) result }
{
    of_two(alloc, OfTwo::Either, a, b, out)
}

/// Writes the members of both lists. `O(n log n + m log m)`; if both are lists of runs, `O(n + m)`,
/// and does not allocate.
#[unsafe(no_mangle)]
pub extern "C" fn ivl_intersection_i64(
    alloc: Global,
    a: &[PairI64],
    b: &[PairI64],
    out: &mut [PairI64],
) -> i64
    ensures { AnswersSet whole_i64 (Union (members_i64 a.now) (members_i64 b.now)) (Intersection (members_i64 a.now) (members_i64 b.now))
        (pairs_i64 out.old) (pairs_i64 out.new) result }
{
    of_two(alloc, OfTwo::Both, a, b, out)
}

/// Writes the members of the first list that are not in the second. `O(n log n + m log m)`; if both
/// are lists of runs, `O(n + m)`, and does not allocate.
#[unsafe(no_mangle)]
pub extern "C" fn ivl_difference_i64(
    alloc: Global,
    a: &[PairI64],
    b: &[PairI64],
    out: &mut [PairI64],
) -> i64
    ensures { AnswersSet whole_i64 (Union (members_i64 a.now) (members_i64 b.now)) (Without (members_i64 a.now) (members_i64 b.now))
        (pairs_i64 out.old) (pairs_i64 out.new) result }
{
    of_two(alloc, OfTwo::FirstAlone, a, b, out)
}

/// Writes the members of exactly one list. `O(n log n + m log m)`.
#[unsafe(no_mangle)]
pub extern "C" fn ivl_symmetric_difference_i64(
    alloc: Global,
    a: &[PairI64],
    b: &[PairI64],
    out: &mut [PairI64],
) -> i64
    ensures { AnswersSet whole_i64 (Union (members_i64 a.now) (members_i64 b.now)) (SymmetricDifference (members_i64 a.now) (members_i64 b.now))
        (pairs_i64 out.old) (pairs_i64 out.new) result }
{
    of_two(alloc, OfTwo::OneAlone, a, b, out)
}

/// Returns 1 if each member of the first list is one of the second, and 0 if not.
/// `O(n log n + m log m)`; if both are lists of runs, `O(n + m)`, and does not allocate.
#[unsafe(no_mangle)]
pub extern "C" fn ivl_is_subset_i64(alloc: Global, a: &[PairI64], b: &[PairI64]) -> i64
    ensures { AnswersQuestion whole_i64 (Union (members_i64 a.now) (members_i64 b.now)) (IsSubset (members_i64 a.now) (members_i64 b.now)) result }
{
    ask(alloc, Asking::Within, a, b)
}

/// Returns 1 if some number is a member of both lists, and 0 if not. `O(n log n + m log m)`; if both
/// are lists of runs, `O(n + m)`, and does not allocate.
#[unsafe(no_mangle)]
pub extern "C" fn ivl_overlap_i64(alloc: Global, a: &[PairI64], b: &[PairI64]) -> i64
    ensures { AnswersQuestion whole_i64 (Union (members_i64 a.now) (members_i64 b.now)) (HasSome (Intersection (members_i64 a.now) (members_i64 b.now))) result }
{
    ask(alloc, Asking::Meets, a, b)
}

/// Returns 1 if the lists have the same members, and 0 if not. `O(n log n + m log m)`; if both are
/// lists of runs, `O(n + m)`, and does not allocate.
#[unsafe(no_mangle)]
pub extern "C" fn ivl_equal_i64(alloc: Global, a: &[PairI64], b: &[PairI64]) -> i64
    ensures { AnswersQuestion whole_i64 (Union (members_i64 a.now) (members_i64 b.now)) (SameMembers (members_i64 a.now) (members_i64 b.now)) result }
{
    ask(alloc, Asking::Alike, a, b)
}

/// Writes the number of members of a list, and returns 0. `O(n log n)`.
#[unsafe(no_mangle)]
pub extern "C" fn ivl_size_i64(alloc: Global, a: &[PairI64], size: &mut u64) -> i64
    ensures { AnswersSize whole_i64 (members_i64 a.now) size.old size.new result }
{
    count(alloc, a, size)
}

/// Returns true exactly when a number is a member of the list. `O(n)`, does not allocate.
#[unsafe(no_mangle)]
pub extern "C" fn ivl_contains_i64(a: &[PairI64], v: i64) -> bool
    ensures { IsTrue result ↔ members_i64 a.now v }
{
    reading::contains(a, v)
}

/// Returns true exactly when a number is a member of a sorted list. For any other list, returns
/// true only if the number is a member. `O(log n)`, does not allocate.
#[unsafe(no_mangle)]
pub extern "C" fn ivl_contains_sorted_i64(a: &[PairI64], v: i64) -> bool
    ensures member { IsTrue result → members_i64 a.now v }
    ensures in_order { IsInOrder (pairs_i64 a.now) → (IsTrue result ↔ members_i64 a.now v) }
{
    sorted_lookup::contains(a, v)
}

/// Writes the sums of a member of each list that are in the range. `O(n m log (n m))`.
#[unsafe(no_mangle)]
pub extern "C" fn ivl_sums_within_i64(
    alloc: Global,
    a: &[PairI64],
    b: &[PairI64],
    out: &mut [PairI64],
) -> i64
    ensures { AnswersSet whole_i64 (Union (members_i64 a.now) (members_i64 b.now))
        (Intersection (Sums (members_i64 a.now) (members_i64 b.now)) (IsBetween whole_i64))
        (pairs_i64 out.old) (pairs_i64 out.new) result }
{
    of_members(alloc, Adding::Sum, a, b, out)
}

/// Writes the differences of a member of `a` and one of `b` that are in the range.
/// `O(n m log (n m))`.
#[unsafe(no_mangle)]
pub extern "C" fn ivl_differences_within_i64(
    alloc: Global,
    a: &[PairI64],
    b: &[PairI64],
    out: &mut [PairI64],
) -> i64
    ensures { AnswersSet whole_i64 (Union (members_i64 a.now) (members_i64 b.now))
        (Intersection (Differences (members_i64 a.now) (members_i64 b.now)) (IsBetween whole_i64))
        (pairs_i64 out.old) (pairs_i64 out.new) result }
{
    of_members(alloc, Adding::Difference, a, b, out)
}

/// Writes, for each pair of runs, the numbers from the least to the greatest product. Returns a
/// code if some product is outside the range. `O(n m log (n m))`.
#[unsafe(no_mangle)]
pub extern "C" fn ivl_products_i64(
    alloc: Global,
    a: &[PairI64],
    b: &[PairI64],
    out: &mut [PairI64],
) -> i64
    ensures { AnswersProducts whole_i64 (members_i64 a.now) (members_i64 b.now) (pairs_i64 out.old) (pairs_i64 out.new) result }
{
    products(alloc, a, b, out)
}

/// Writes the least member that is at least `v`. Returns true exactly when there is one. `O(n)`,
/// does not allocate.
#[unsafe(no_mangle)]
pub extern "C" fn ivl_next_from_i64(a: &[PairI64], v: i64, found: &mut i64) -> bool
    ensures { AnswersNext v (members_i64 a.now) found.old found.new result }
{
    next_from(a, v, found)
}

/// Writes the least member of a sorted list that is at least `v`. Returns true exactly when there
/// is one. For any other list, what is written is a member that is at least `v`. `O(log n)`, does
/// not allocate.
#[unsafe(no_mangle)]
pub extern "C" fn ivl_next_from_sorted_i64(a: &[PairI64], v: i64, found: &mut i64) -> bool
    ensures member { IsTrue result → AtLeast v (members_i64 a.now) found.new }
    ensures same { result ≡ false → found.new ≡ found.old }
    ensures in_order { IsInOrder (pairs_i64 a.now) → AnswersNext v (members_i64 a.now) found.old found.new result }
{
    sorted_lookup::next_from(a, v, found)
}

/// Writes the greatest member of a sorted list that is at most `v`. Returns true exactly when there
/// is one. For any other list, what is written is a member that is at most `v`. `O(log n)`, does
/// not allocate.
#[unsafe(no_mangle)]
pub extern "C" fn ivl_previous_to_sorted_i64(a: &[PairI64], v: i64, found: &mut i64) -> bool
    ensures member { IsTrue result → AtMost v (members_i64 a.now) found.new }
    ensures same { result ≡ false → found.new ≡ found.old }
    ensures in_order { IsInOrder (pairs_i64 a.now) → AnswersPrevious v (members_i64 a.now) found.old found.new result }
{
    beside::previous_to(a, v, found)
}

/// Writes the run that holds `v` in a list of runs. Returns true exactly when there is one. For a
/// list that is sorted, the same with a pair of the list that holds `v`. For any other list, what
/// is written is a pair of the list that holds `v`. `O(log n)`, does not allocate.
#[unsafe(no_mangle)]
pub extern "C" fn ivl_run_at_sorted_i64(a: &[PairI64], v: i64, found: &mut PairI64) -> bool
    ensures member { IsTrue result → IsBetween (pair_i64 found.new) v × IsSubset (IsBetween (pair_i64 found.new)) (members_i64 a.now) }
    ensures same { result ≡ false → pair_i64 found.new ≡ pair_i64 found.old }
    ensures in_order { IsInOrder (pairs_i64 a.now) → (IsTrue result ↔ members_i64 a.now v) }
    ensures run { IsMaximal (pairs_i64 a.now) → AnswersRun v (members_i64 a.now) (pair_i64 found.old) (pair_i64 found.new) result }
{
    beside::run_at(a, v, found)
}

/// Writes the lowest `count` consecutive members as one run and returns 1, or returns 0 if there
/// are none or `count` is 0. `O(n log n)`.
#[unsafe(no_mangle)]
pub extern "C" fn ivl_first_fit_i64(
    alloc: Global,
    a: &[PairI64],
    count: u64,
    found: &mut PairI64,
) -> i64
    ensures { AnswersFit whole_i64 count (members_i64 a.now) (pair_i64 found.old) (pair_i64 found.new) result }
{
    first_fit(alloc, a, count, found)
}

/// Writes the number of members below `v`, and returns 0. `O(n log n)`.
#[unsafe(no_mangle)]
pub extern "C" fn ivl_rank_i64(alloc: Global, a: &[PairI64], v: i64, found: &mut u64) -> i64
    ensures { AnswersRank whole_i64 v (members_i64 a.now) found.old found.new result }
{
    rank(alloc, a, v, found)
}

/// Writes the member with exactly `i` members below it and returns 1, or returns 0 if there is none.
/// `O(n log n)`.
#[unsafe(no_mangle)]
pub extern "C" fn ivl_nth_i64(alloc: Global, a: &[PairI64], i: u64, found: &mut i64) -> i64
    ensures { AnswersNth whole_i64 i (members_i64 a.now) found.old found.new result }
{
    nth(alloc, a, i, found)
}

/// Adds the numbers from `lower` to `upper` to the first `n` pairs of a buffer, and writes the runs
/// to the same buffer. `O(n log n)`.
#[unsafe(no_mangle)]
pub extern "C" fn ivl_insert_i64(
    alloc: Global,
    runs: &mut [PairI64],
    n: usize,
    lower: i64,
    upper: i64,
) -> i64
    ensures { AnswersSet whole_i64 (Union (Covers (take n (pairs_i64 runs.old))) (IsBetween (lower, upper)))
        (Union (Covers (take n (pairs_i64 runs.old))) (IsBetween (lower, upper))) (pairs_i64 runs.old) (pairs_i64 runs.new) result }
{
    edit(alloc, Editing::Insert, runs, n, PairI64 { lower, upper })
}

/// Removes the numbers from `lower` to `upper` from the first `n` pairs of a buffer, and writes the
/// runs to the same buffer. `O(n log n)`.
#[unsafe(no_mangle)]
pub extern "C" fn ivl_remove_i64(
    alloc: Global,
    runs: &mut [PairI64],
    n: usize,
    lower: i64,
    upper: i64,
) -> i64
    ensures { AnswersSet whole_i64 (Union (Covers (take n (pairs_i64 runs.old))) (IsBetween (lower, upper)))
        (Without (Covers (take n (pairs_i64 runs.old))) (IsBetween (lower, upper))) (pairs_i64 runs.old) (pairs_i64 runs.new) result }
{
    edit(alloc, Editing::Remove, runs, n, PairI64 { lower, upper })
}
