//! Sets of integers, as the laws name them.
ghost use Rattle.std.specs.Prelude.{ℤ};

/// A type that stands for a set. A law with type parameters holds for whatever sets these stand for.
pub trait NumberSet {
    ghost members: { ℤ → Type 0 };
}
