//! Which constraints are settled: narrowing by one would change nothing. There is a flag for each.
ghost use Rattle.std.specs.Prelude.{◌≡◌, ◌↔◌, ◌<◌, ◌⊎◌, ℕ, ℤ, List, HoldsAt, IfOk, IsTrue, false, length, replicate, slice_set, true};
ghost use Rattle.ivl_laws.specs.Families.{set_at};
ghost use Rattle.ivl_store.specs.Narrowing.{Narrowed};
ghost use Rattle.ivl_store.specs.Settled.{any_lost, AreCleared, AreLost, AreSettled};
ghost use Rattle.ivl_store.specs.Solutions.{AreDistinct};

use super::Constraint;
use std::alloc::{AllocError, Global};

/// Whether a member was lost at x, at y and at z; a variable that is named twice has its flag at the
/// last of these.
#[derive(Clone, Copy)]
pub struct Lost {
    pub x: bool,
    pub y: bool,
    pub z: bool,
}

impl Lost {
    /// Returns true exactly when a member was lost at one of the three. `O(1)`.
    ///
    /// ```
    /// assert!(rt; Lost { x: false, y: true, z: false }.any());
    /// ```
    pub fn any(self) -> bool
        // True exactly when a member was lost at one of the three.
        ensures { result ≡ any_lost self }
    {
        self.x || self.y || self.z
    }
}

/// Returns so many flags, none of them set.
pub(super) fn none_settled(alloc: Global, count: usize) -> Result<Vec<bool>, AllocError>
    ensures { IfOk result (λ flags. flags.items ≡ replicate count false) }
{
    vec![in alloc; false; count]
}

/// Updates the flags after narrowing by constraint `i`. Constraints that name a variable which lost
/// a member are no longer settled; `i` itself is settled unless a member was lost and it has a
/// variable twice.
pub(super) fn settle_after(
    constraints: &[Constraint],
    i: usize,
    lost: Lost,
    settled: &mut Vec<bool>,
)
    requires in_list { i < length constraints.now }
    requires one_each { length settled.old.items ≡ length constraints.now }
    ensures count { length settled.new.items ≡ length constraints.now }
    ensures alone { any_lost lost ≡ false → settled.new.items ≡ slice_set settled.old.items i true }
    ensures settled { (old new : List (List (ℤ × ℤ))) → HoldsAt (λ c. (j : ℕ) (v : ℤ) → set_at new j v ↔ Narrowed c (set_at old) j v) constraints.now i
        → HoldsAt (λ c. AreLost c lost (set_at old) (set_at new)) constraints.now i
        → AreSettled constraints.now settled.old.items (set_at old) → AreSettled constraints.now settled.new.items (set_at new) }
{
    let c = constraints[i];
    unsettle(lost.x, constraints, c.x, settled);
    unsettle(lost.y, constraints, c.y, settled);
    unsettle(lost.z, constraints, c.z, settled);
    settled[i] = is_settled_after(&c, lost);
}

/// Whether a second narrowing by the constraint would change nothing.
fn is_settled_after(c: &Constraint, lost: Lost) -> bool
    ensures may { IsTrue result → (any_lost lost ≡ false) ⊎ AreDistinct c.now }
    ensures none { any_lost lost ≡ false → result ≡ true }
{
    !lost.any() || c.distinct()
}

/// Clears the flags of the constraints that name the variable, if it has changed.
pub(super) fn unsettle(
    changed: bool,
    constraints: &[Constraint],
    variable: usize,
    settled: &mut Vec<bool>,
)
    requires { length settled.old.items ≡ length constraints.now }
    ensures { AreCleared changed constraints.now variable settled.old.items settled.new.items }
{
    if !changed {
        return;
    }
    for k in 0..constraints.len() {
        if constraints[k].names(variable) {
            settled[k] = false;
        }
    }
}
