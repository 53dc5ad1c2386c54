//! What the calls of a store mean.
ghost use Rattle.std.specs.Prelude.{◌≡◌, ◌↔◌, ◌<◌, ◌≤◌, ◌+◌, ◌-◌, ◌++◌, ◌∷◌, [], false, true, ℕ, ℤ, List, All, Any, IfOk, IfSome, IsNone, IsTrue, OnErr, OnOk, Some, length, slice_set, take};
ghost use Rattle.ivl_laws.specs.Families.{set_at};
ghost use Rattle.ivl_laws.specs.Sets.{IsBetween};
ghost use Rattle.ivl_store.specs.Costs.{cost_of};
ghost use Rattle.ivl_store.specs.Measure.{total};
ghost use Rattle.ivl_store.specs.Narrowing.{AllPresent, IsFixed};
ghost use Rattle.ivl_store.specs.Posts.{AnswersPosts, IsLeftBy, constraints_of};
ghost use Rattle.ivl_store.specs.Solutions.{AreDistinct, HasSolutionAt, IsCommonSolution, IsGreatestFamily, LostMember, Names};

use intervallum::interval::Interval;
use intervallum::interval_set::IntervalSet;
use intervallum::width::Width;
use ivl_store::store::callers::all_distinct;
use ivl_store::store::{Constraint, Post, Spares, Store, StoreFault};
use std::alloc::{AllocError, Global};

/// Returns a store with these domains, and their number.
pub fn store_of<B: Width>(alloc: Global, domains: Vec<IntervalSet<B>>) -> (Store<B>, usize)
    ensures domains { result.0 ≡ domains.items }
    ensures count { result.1 ≡ length domains.items }
{
    let store = Store::new(alloc, domains);
    let count = store.domains().len();
    (store, count)
}

/// Adds a domain after the others.
pub fn with_one_more<B: Width>(
    store: &mut Store<B>,
    domain: IntervalSet<B>,
) -> Result<usize, AllocError>
    ensures added { IfOk result (λ i. (i ≡ length store.old) × (store.new ≡ store.old ++ domain ∷ [])) }
    ensures err { OnErr result (store.new ≡ store.old) }
{
    store.add_variable(domain)
}

/// Returns whether a domain is empty.
pub fn has_no_point<B: Width>(store: &Store<B>) -> bool
    ensures { IsTrue result ↔ Any (λ L. L ≡ []) store.now }
{
    store.has_empty()
}

/// Takes an interval out of a domain: this keeps its other members, and each other domain keeps all.
pub fn without_interval<B: Width>(
    store: &mut Store<B>,
    variable: usize,
    interval: Interval<B>,
) -> Result<(), AllocError>
    ensures taken { OnOk result ((i : ℕ) (v : ℤ) → set_at store.new i v ↔ (set_at store.old i v × (i ≡ variable → ¬ (IsBetween interval v)))) }
    ensures refused { OnErr result (store.new ≡ store.old) }
{
    store.take_out(variable, interval)
}

/// Narrows by one constraint, and returns whether a member was lost: if it is between three variables,
/// just the numbers of its solutions are left.
pub fn narrowed_once<B: Width>(
    store: &mut Store<B>,
    constraint: &Constraint,
) -> Result<bool, StoreFault>
    ensures solutions { OnOk result (AreDistinct constraint.now → (i : ℕ) → Names constraint.now i → (v : ℤ) → set_at store.new i v ↔ HasSolutionAt constraint.now (set_at store.old) i v) }
    ensures lost { IfOk result (λ b. IsTrue b ↔ LostMember (set_at store.old) (set_at store.new)) }
    ensures refused { OnErr result (store.new ≡ store.old) }
{
    store.narrow(constraint)
}

/// Narrows by a list of constraints for some rounds: no solution is lost; if it ends early, nothing is
/// left to narrow, and if not, each round removed a member.
pub fn narrowed_in_rounds<B: Width>(
    store: &mut Store<B>,
    constraints: &[Constraint],
    rounds: usize,
) -> Result<bool, StoreFault>
    ensures solutions { (point : ℕ → ℤ) → IsCommonSolution constraints.now (set_at store.old) point → IsCommonSolution constraints.now (set_at store.new) point }
    ensures fixed { IfOk result (λ b. b ≡ true → All (IsFixed (set_at store.new)) constraints.now) }
    ensures greatest { IfOk result (λ b. b ≡ true → All AreDistinct constraints.now → IsGreatestFamily constraints.now (set_at store.old) (set_at store.new)) }
    ensures fewer { IfOk result (λ b. b ≡ false → rounds + total B.whole store.new ≤ total B.whole store.old) }
{
    store.propagate(constraints, rounds)
}

/// Posts all, if each constraint is tested to have three different variables: a reply to each post, and
/// the greatest domains that they leave.
pub fn posted_if_distinct<B: Width>(
    store: &mut Store<B>,
    posts: &[Post<B>],
) -> Result<Option<Vec<bool>>, StoreFault>
    ensures replies { IfOk result (λ o. IfSome o (λ replies. AnswersPosts posts.now store.old replies.items × IsLeftBy posts.now (set_at store.old) (set_at store.new))) }
    ensures none { IfOk result (λ o. IsNone o → ¬ (All AreDistinct (constraints_of posts.now)) × (store.new ≡ store.old)) }
{
    if all_distinct(posts) {
        Ok(Some(store.post_all(posts)?))
    } else {
        Ok(None)
    }
}

/// Posts all as [`posted_if_distinct`] does, by the call that tests them itself.
pub fn posted<B: Width>(
    store: &mut Store<B>,
    posts: &[Post<B>],
) -> Result<Option<Vec<bool>>, StoreFault>
    ensures replies { IfOk result (λ o. IfSome o (λ replies. AnswersPosts posts.now store.old replies.items)) }
    ensures none { IfOk result (λ o. IsNone o → ¬ (All AreDistinct (constraints_of posts.now)) × (store.new ≡ store.old)) }
{
    store.try_post_all(posts)
}

/// Takes a set that is not used any more, which has no member then.
pub fn empty_of_spares<B: Width>(spares: &mut Spares<B>, alloc: Global) -> IntervalSet<B>
    ensures { result ≡ [] }
{
    spares.take(alloc)
}

/// Puts a set in place of a domain: with what is returned there again, the store is as before.
pub fn swapped<B: Width>(
    store: &mut Store<B>,
    variable: usize,
    set: IntervalSet<B>,
) -> Option<IntervalSet<B>>
    requires { variable < length store.old }
    ensures { (old : List (ℤ × ℤ)) → result ≡ Some old → slice_set store.new variable old ≡ store.old }
{
    // its runs are in the range
    set.in_whole();
    store.swap(variable, Some(set))
}

/// Drops the last domain and adds a set: it stands in its place then.
pub fn with_last<B: Width>(store: &mut Store<B>, set: IntervalSet<B>) -> Result<(), AllocError>
    ensures replaced { OnOk result (store.new ≡ take (length store.old - 1) store.old ++ set ∷ []) }
    ensures err { OnErr result (store.new ≡ take (length store.old - 1) store.old) }
{
    store.drop_variable();
    store.add_variable(set)?;
    Ok(())
}

/// Puts a set in place of a domain, if there is such a variable.
pub fn with_in_place<B: Width>(store: &mut Store<B>, variable: usize, set: IntervalSet<B>)
    ensures { store.new ≡ slice_set store.old variable set }
{
    store.replace(variable, set);
}

/// What narrowing by a constraint counts for.
pub fn counts_for<B: Width>(store: &Store<B>, constraint: &Constraint) -> u64
    requires { AllPresent (length store.now) constraint.now }
    ensures some { 1 ≤ result }
    ensures cost { result ≡ cost_of constraint.now store.now }
{
    store.cost_of(constraint)
}

/// Makes room for domains, and returns whether there was memory for that. Nothing changes.
pub fn has_room_for_domains<B: Width>(store: &mut Store<B>, variables: usize) -> bool
    ensures { store.new ≡ store.old }
{
    store.reserve(variables).is_ok()
}
