//! Domains that are narrowed by a rule or cut, and what takes that back.
ghost use Rattle.std.specs.Prelude.{◌≡◌, ◌↔◌, ◌⊎◌, ◌<◌, ◌≤◌, ◌+◌, ◌-◌, ◌/◌, ◌^◌, [], ℕ, ℤ, List, All, IfOk, OnErr, OnOk, false, true, length, min, slice_index_or};
ghost use Rattle.std.specs.Vec.{vec_capacity, vec_len};
ghost use Rattle.ivl_laws.specs.Families.{set_at};
ghost use Rattle.ivl_laws.specs.Runs.{IsRunListIn};
ghost use Rattle.ivl_laws.specs.Sets.{IsSubset};
ghost use Rattle.ivl_store.specs.Narrowing.{AllPresent};
ghost use Rattle.ivl_store.specs.Settled.{AreLost, any_lost};
ghost use Rattle.ivl_rules.specs.declared.rules.Rule.{Rule};
ghost use Rattle.ivl_rules.specs.Rules.{AreDifferent, NarrowedBy, places as places_of};
ghost use Rattle.ivl_network.specs.Costs.{cost_of_rule as cost_of};
ghost use Rattle.ivl_network.specs.Families.{ArePresent};
ghost use Rattle.ivl_network.specs.Settled.{AreTold, HasTwo};
ghost use Rattle.ivl_network.specs.Trail.{KeepsPast};

use super::allowed::Allowed;
use super::change::Change;
use super::trail::{replace_logged, take_out_logged};
use intervallum::ops::{Bounded, IsEmpty};
use intervallum::width::Width;
use ivl_rules::rules::Rule;
use ivl_rules::rules::narrowing::{lone_loss, narrowed_at_places_in};
use ivl_store::store::{Constraint, Lost, Spares, Store};
use std::alloc::AllocError;

/// Narrows by a rule at these places, and writes down what takes that back.
pub(super) fn narrow_logged<B: Width>(
    store: &mut Store<B>,
    trail: &mut Vec<Change<B>>,
    places: &mut [usize],
    spares: &mut Spares<B>,
    marks: &[usize],
    rule: &Rule,
    c: &Constraint,
) -> Result<Lost, AllocError>
    requires places { c.now ≡ places_of rule.now }
    requires different { AreDifferent rule.now }
    requires present { ArePresent (length store.old) rule.now }
    requires room { (marks.now ≡ []) ⊎ (vec_len trail.old + 3 ≤ vec_capacity trail.old) }
    ensures refused { OnErr result ((store.new ≡ store.old) × (trail.new.items ≡ trail.old.items)) }
    ensures kept_count { length store.new ≡ length store.old }
    ensures narrowed { OnOk result ((i : ℕ) (v : ℤ) → set_at store.new i v ↔ NarrowedBy rule.now (set_at store.old) i v) }
    ensures lost { IfOk result (λ lost. AreLost (places_of rule.now) lost (set_at store.old) (set_at store.new)) }
    ensures told { IfOk result (λ lost. AreTold (places_of rule.now) lost (set_at store.old) (set_at store.new)) }
    ensures same { IfOk result (λ lost. any_lost lost ≡ false → store.new ≡ store.old) }
    ensures past { OnOk result ((rules : List Rule) → KeepsPast marks.now trail.old.items trail.new.items store.old store.new rules) }
    ensures range { OnOk result (All (IsRunListIn B.whole) store.old) }
{
    if let Some(taken) = lone_loss(store.domains(), rule) {
        take_out_logged(store, trail, places, spares, marks, taken.0, taken.1)?;
        return Ok(Lost {
            x: taken.0 == c.x,
            y: taken.0 == c.y,
            z: false,
        });
    }
    let (x, y, z) = narrowed_at_places_in(store.domains(), rule, spares)?;
    let lost = Lost {
        x: x.is_some(),
        y: y.is_some(),
        z: z.is_some(),
    };
    replace_logged(store, trail, places, spares, marks, c.x, x);
    replace_logged(store, trail, places, spares, marks, c.y, y);
    replace_logged(store, trail, places, spares, marks, c.z, z);
    Ok(lost)
}

/// Keeps the members of one domain that are allowed, and writes down what takes that back. Returns false if all
/// members stay.
pub(super) fn restrict_logged<B: Width, A: Allowed<B>>(
    store: &mut Store<B>,
    trail: &mut Vec<Change<B>>,
    places: &mut [usize],
    spares: &mut Spares<B>,
    marks: &[usize],
    i: usize,
    allowed: &A,
) -> Result<bool, AllocError>
    requires known { i < length store.old }
    requires room { (marks.now ≡ []) ⊎ (vec_len trail.old < vec_capacity trail.old) }
    ensures refused { OnErr result ((store.new ≡ store.old) × (trail.new.items ≡ trail.old.items)) }
    ensures kept_count { length store.new ≡ length store.old }
    ensures cut { OnOk result ((j : ℕ) (v : ℤ) → set_at store.new j v ↔ (set_at store.old j v × (j ≡ i → A.members allowed.now v))) }
    ensures lost { IfOk result (λ lost. lost ≡ false → store.new ≡ store.old) }
    ensures kept { IfOk result (λ lost. IsSubset (set_at store.old i) (A.members allowed.now) → lost ≡ false) }
    ensures past { OnOk result ((rules : List Rule) → KeepsPast marks.now trail.old.items trail.new.items store.old store.new rules) }
{
    let left = allowed.left_of(&store.domains()[i], spares)?;
    let lost = left.is_some();
    replace_logged(store, trail, places, spares, marks, i, left);
    Ok(lost)
}

/// What narrowing by a rule at these places counts for: a sum one, and one more for each 256 pairs of runs of two of its
/// domains; a rule of two variables one, and one more for each 256 runs of its domains.
#[inline]
fn cost_at<B: Width>(store: &Store<B>, c: &Constraint) -> u64
    requires { AllPresent (length store.now) c.now }
    ensures cost { (rule : Rule) → c.now ≡ places_of rule → result ≡ cost_of rule store.now }
    ensures positive { 0 < result }
{
    if c.y == c.z {
        return cost_of_two(store, c.x, c.y);
    }
    store.cost_of(c)
}

/// What narrowing by a rule at these places counts for, if that is counted, and else 0.
#[inline]
pub(super) fn cost_if<B: Width>(is_counted: bool, store: &Store<B>, c: &Constraint) -> u64
    requires { AllPresent (length store.now) c.now }
    ensures cost { is_counted ≡ true → (rule : Rule) → c.now ≡ places_of rule → result ≡ cost_of rule store.now }
    ensures positive { is_counted ≡ true → 0 < result }
    ensures none { is_counted ≡ false → result ≡ 0 }
{
    if is_counted { cost_at(store, c) } else { 0 }
}

fn cost_of_two<B: Width>(store: &Store<B>, x: usize, y: usize) -> u64
    requires { (x < length store.now) × (y < length store.now) }
    ensures { result ≡ min (length (slice_index_or store.now x []) + length (slice_index_or store.now y [])) (2 ^ 64 - 1) / 256 + 1 }
{
    let of_x = store.domains()[x].interval_count();
    let of_y = store.domains()[y].interval_count();
    (of_x.saturating_add(of_y) / 256) as u64 + 1
}

/// Whether the domain of a variable has two members.
pub(super) fn has_two<B: Width>(store: &Store<B>, variable: usize) -> bool
    requires { variable < length store.now }
    ensures { result ≡ true → HasTwo (set_at store.now variable) }
{
    let domain = &store.domains()[variable];
    if domain.is_empty() || domain.lower().number() == domain.upper().number() {
        return false;
    }
    true
}
