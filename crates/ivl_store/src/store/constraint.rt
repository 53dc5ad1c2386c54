//! Constraints between three variables, and the errors of a store.
ghost use Rattle.std.specs.Prelude.{◌≡◌, ◌↔◌, ◌⊎◌, IsTrue};
ghost use Rattle.ivl_store.specs.Solutions.{AreDistinct, Names};
ghost use Rattle.ivl_store.specs.Narrowing.{first_unknown, first_unknown_of as first_unknown_in};

use std::alloc::AllocError;
use thiserror::Error;

/// The constraint that variables `x` and `y` add to variable `z`.
///
/// A variable may be named two or three times. Only [`Store::post_all`](super::Store::post_all)
/// requires three different variables; check with [`distinct`](Constraint::distinct).
#[derive(Clone, Copy, Debug, PartialEq, Eq)]
pub struct Constraint {
    pub x: usize,
    pub y: usize,
    pub z: usize,
}

impl Constraint {
    /// Returns true exactly when `x`, `y` and `z` are three different variables. `O(1)`, does not
    /// allocate.
    ///
    /// ```
    /// assert!(rt; Constraint { x: 0, y: 1, z: 2 }.distinct());
    /// assert!(rt; !Constraint { x: 0, y: 1, z: 0 }.distinct());
    /// ```
    pub fn distinct(&self) -> bool
        // True exactly when `x`, `y` and `z` are three different variables.
        ensures { IsTrue result ↔ AreDistinct self.now }
    {
        self.x != self.y && self.x != self.z && self.y != self.z
    }

    /// Whether `x` stands in a later place too.
    pub(super) fn has_x_later(&self) -> bool
        ensures { IsTrue result ↔ ((self.now.x ≡ self.now.y) ⊎ (self.now.x ≡ self.now.z)) }
    {
        self.x == self.y || self.x == self.z
    }

    /// Whether it names the variable.
    pub(super) fn names(&self, variable: usize) -> bool
        ensures { IsTrue result ↔ Names self.now variable }
    {
        variable == self.x || variable == self.y || variable == self.z
    }

    /// Returns the first of `x`, `y` and `z` that is not below `count`, or `None` if all are. `O(1)`,
    /// does not allocate.
    ///
    /// ```
    /// assert!(rt; Constraint { x: 0, y: 5, z: 7 }.first_unknown(5) == Some(5));
    /// assert!(rt; Constraint { x: 0, y: 1, z: 2 }.first_unknown(3) == None);
    /// ```
    pub fn first_unknown(&self, count: usize) -> Option<usize>
        // The result is the first of `x`, `y` and `z`, in this order, that is not below `count`, or `None` if all are.
        ensures { result ≡ first_unknown count self.now }
    {
        if self.x >= count {
            Some(self.x)
        } else if self.y >= count {
            Some(self.y)
        } else if self.z >= count {
            Some(self.z)
        } else {
            None
        }
    }
}

/// Returns the first index of the constraints that is not below `count`, or `None` if all are.
pub(super) fn first_unknown_of(constraints: &[Constraint], count: usize) -> Option<usize>
    ensures { result ≡ first_unknown_in count constraints.now }
{
    for constraint in constraints {
        if let Some(i) = constraint.first_unknown(count) {
            return Some(i);
        }
    }
    None
}

/// Why a call of a store failed.
#[derive(Clone, Copy, Debug, PartialEq, Eq, Error)]
pub enum StoreFault {
    /// The store has no variable with this index. It is the first such index, constraint by
    /// constraint or post by post, and within a constraint in the order `x`, `y`, `z`. The store is
    /// unchanged.
    #[error("no variable {0}")]
    Variable(usize),
    /// An allocation failed. Each call says what the store is then.
    #[error("memory")]
    Memory,
}

impl From<AllocError> for StoreFault {
    ghost use Rattle.std.specs.Prelude.{◌≡◌};
    ghost use Rattle.ivl_store.specs.declared.store.constraint.StoreFault.TheVariants.{Memory};

    ghost from_gives = { λ _ e. e ≡ Memory };

    fn from(_: AllocError) -> StoreFault {
        StoreFault::Memory
    }
}
