//! Pairs of bounds, in whatever form.
ghost use Rattle.std.specs.Prelude.{◌≡◌, ℤ};
ghost use Rattle.ivl_laws.specs.Sets.{IsInRange};

use ivl_interval::interval::Interval;
use ivl_interval::ops::Range;
use ivl_interval::width::Width;

/// A pair of bounds, which stands for the numbers from the lower to the upper one, bounds included; for none if the two cross.
pub trait Pair: Copy {
    /// The type of the bounds.
    type Bound: Width;

    /// The numbers of the bounds.
    ghost pair: { Self → ℤ × ℤ };

    /// Returns the lower bound. `O(1)`.
    fn lower(self) -> Self::Bound
        // The result is the lower bound of the pair.
        ensures { Self.Bound.value result ≡ (pair self).0 };

    /// Returns the upper bound. `O(1)`.
    fn upper(self) -> Self::Bound
        // The result is the upper bound of the pair.
        ensures { Self.Bound.value result ≡ (pair self).1 };

    /// Returns the pair of two bounds, of which the lower is not below the range and the upper not
    /// above it. The two may cross. `O(1)`.
    fn of(lower: Self::Bound, upper: Self::Bound) -> Self
        requires { IsInRange Self.Bound.whole (Self.Bound.value lower, Self.Bound.value upper) }
        // The bounds of the pair are `lower` and `upper`.
        ensures { pair result ≡ (Self.Bound.value lower, Self.Bound.value upper) };
}

impl<B: Width> Pair for Interval<B> {
    type Bound = B;

    ghost pair = { λ p. p };

    fn lower(self) -> B {
        self.lower_bound()
    }

    fn upper(self) -> B {
        self.upper_bound()
    }

    fn of(lower: B, upper: B) -> Interval<B> {
        Interval::new(lower, upper)
    }
}
