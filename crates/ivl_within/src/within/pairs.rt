//! The results of two runs in a window.
ghost use Rattle.std.specs.Prelude.{◌≡◌, ◌≤ℤ◌, IfSome};
ghost use Rattle.ivl_laws.specs.Sets.{IsBetween, SameMembers};
ghost use Rattle.ivl_within.specs.Within.{Clipped, pair_by};

use super::Combined;
use intervallum::interval::Interval;
use intervallum::ops::{Bounded, Empty, Intersection, Range};
use intervallum::width::Width;

/// Returns the sums, or the differences, of a number of each interval that are in the window.
///
/// The caller must ensure that neither interval nor the window is empty. Check with
/// [`IsEmpty::is_empty`](intervallum::ops::IsEmpty::is_empty). `O(1)`, does not allocate.
///
/// ```
/// let (a, b): (Interval<i16>, Interval<i16>) = (Interval::new(3, 5), Interval::new(10, 20));
/// let sums = pair_in_window(a, b, Combined::Sum, Interval::new(14, 18));
/// assert!(rt; sums == Interval::new(14, 18));
/// ```
pub fn pair_in_window<B: Width>(
    a: Interval<B>,
    b: Interval<B>,
    op: Combined,
    window: Interval<B>,
) -> Interval<B>
    requires left { a.0 ≤ℤ a.1 }
    requires right { b.0 ≤ℤ b.1 }
    requires window { window.0 ≤ℤ window.1 }
    // The members are exactly the sums, or by `op` the differences, of a member of each interval that are in the
    // window.
    ensures { SameMembers (IsBetween result) (Clipped window (IsBetween (pair_by op a b))) }
{
    match pair_of(a, b, op) {
        Some(pair) => pair.intersection(&window),
        None => wide_pair_in_window(a, b, op, window),
    }
}

/// The sums, or the differences, of a number of each interval, if the least and the greatest are in
/// the range.
fn pair_of<B: Width>(a: Interval<B>, b: Interval<B>, op: Combined) -> Option<Interval<B>>
    requires left { a.0 ≤ℤ a.1 }
    requires right { b.0 ≤ℤ b.1 }
    ensures { IfSome result (λ p. p ≡ pair_by op a b) }
{
    let (lower, upper) = match op {
        Combined::Sum => (
            a.lower().checked_add(b.lower())?,
            a.upper().checked_add(b.upper())?,
        ),
        Combined::Difference => (
            a.lower().checked_sub(b.upper())?,
            a.upper().checked_sub(b.lower())?,
        ),
    };
    Some(Interval::new(lower, upper))
}

/// What `pair_in_window` returns where a sum, or a difference, is outside the range.
#[inline(never)]
fn wide_pair_in_window<B: Width>(
    a: Interval<B>,
    b: Interval<B>,
    op: Combined,
    window: Interval<B>,
) -> Interval<B>
    requires left { a.0 ≤ℤ a.1 }
    requires right { b.0 ≤ℤ b.1 }
    requires window { window.0 ≤ℤ window.1 }
    ensures { SameMembers (IsBetween result) (Clipped window (IsBetween (pair_by op a b))) }
{
    let (lower, upper) = (b.lower().number(), b.upper().number());
    match op {
        Combined::Sum => clip(
            a.lower().number() + lower,
            a.upper().number() + upper,
            window,
        ),
        Combined::Difference => clip(
            a.lower().number() - upper,
            a.upper().number() - lower,
            window,
        ),
    }
}

/// The numbers of the window from a lower to an upper one, which may be outside it.
fn clip<B: Width>(lower: i128, upper: i128, window: Interval<B>) -> Interval<B>
    requires { window.0 ≤ℤ window.1 }
    ensures { SameMembers (IsBetween result) (Clipped window (IsBetween (lower, upper))) }
{
    let lower = lower.max(window.lower().number());
    let upper = upper.min(window.upper().number());
    match (B::from_number(lower), B::from_number(upper)) {
        (Some(lower), Some(upper)) => Interval::new(lower, upper),
        _ => Interval::empty(),
    }
}
