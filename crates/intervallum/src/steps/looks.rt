//! The number of looks that a search has taken, which only contracts see.
ghost use Rattle.std.specs.Prelude.{◌≡◌, ℕ, ◌+◌};
ghost use base.Fml.{ftrue};

use std::marker::Model;

/// A number of looks. Only contracts see it: the type has no bytes, and nothing is counted at run
/// time.
#[derive(Drop)]
pub struct Looks {
    pub ghost count: { ℕ },
}

// It owns nothing, so only the clauses of the two functions below tie `count`.
impl Model for Looks {
    ghost also_owns = { λ _. ftrue };
}

impl Looks {
    /// Returns the count of no looks. `O(1)`. Does not allocate.
    pub fn none() -> Looks
        // No look is counted.
        ensures { result.count ≡ 0 }
    {
        Looks {}
    }

    /// Returns the count of one look more. `O(1)`. Does not allocate.
    pub fn one_more(&self) -> Looks
        // One look more is counted.
        ensures { result.count ≡ self.now.count + 1 }
    {
        Looks {}
    }
}
