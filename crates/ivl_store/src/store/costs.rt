//! What narrowings count for.
ghost use Rattle.std.specs.Prelude.{◌≡◌, ◌<◌, length};
ghost use Rattle.ivl_store.specs.Costs.{cost_of};
ghost use Rattle.ivl_store.specs.Narrowing.{AllPresent};

use super::{Constraint, Store};
use intervallum::width::Width;

impl<B: Width> Store<B> {
    /// What narrowing by a constraint counts for: one, and one more for each 256 pairs of runs of two
    /// of its domains. `O(1)`, does not allocate.
    ///
    /// The caller must ensure that its variables have a domain. Check with
    /// [`Constraint::first_unknown`].
    ///
    /// ```
    /// let domain = IntervalSet::new(alloc, 0, 9)?;
    /// let store: Store<i32> = Store::new(alloc, vec![in alloc; domain.try_clone()?, domain.try_clone()?, domain]?);
    /// assert_eq!(rt; store.cost_of(&Constraint { x: 0, y: 1, z: 2 }), 1);
    /// ```
    pub fn cost_of(&self, c: &Constraint) -> u64
        requires { AllPresent (length self.now) c.now }
        // The result is one, and one more for each 256 pairs of a run of `x` and one of `y`, of `x` and `z`, and of `y`
        // and `z`, of which `u64::MAX` count at most. It is never 0.
        ensures cost { result ≡ cost_of c.now self.now }
        ensures positive { 0 < result }
    {
        let x = self.domains[c.x].interval_count();
        let y = self.domains[c.y].interval_count();
        let z = self.domains[c.z].interval_count();
        let of_x = x.saturating_mul(y).saturating_add(x.saturating_mul(z));
        let pairs = of_x.saturating_add(y.saturating_mul(z));
        (pairs / 256) as u64 + 1
    }
}
