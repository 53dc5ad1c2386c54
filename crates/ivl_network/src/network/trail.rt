//! The changes that a network writes down from its first mark on, and how they are taken back.
ghost use Rattle.std.specs.Prelude.{slice_index_or, slice_set, ◌-◌, ◌+◌, ◌++◌, ◌∷◌, ◌≡◌, ◌≢◌, ◌↔◌, ◌<◌, ◌≤◌, ◌⊎◌, [], ℕ, ℤ, IfOk, List, Some, OnErr, OnOk, false, length, take, true};
ghost use Rattle.std.specs.Vec.{vec_capacity, vec_len};
ghost use Rattle.ivl_laws.specs.Families.{set_at};
ghost use Rattle.ivl_laws.specs.Runs.{IsRunListIn};
ghost use Rattle.ivl_laws.specs.Sets.{IsBetween};
ghost use Rattle.ivl_store.specs.NarrowedSets.{narrowed_at};
ghost use Rattle.ivl_rules.specs.declared.rules.Rule.{Rule};
ghost use Rattle.ivl_network.specs.declared.network.change.Change.TheVariants.{Domain};
ghost use Rattle.ivl_network.specs.Network.{IsSoundRules};
ghost use Rattle.ivl_network.specs.Queue.{IsRuleIndex, IsRuleQueue};
ghost use Rattle.ivl_network.specs.Settled.{claimed_flags};
ghost use Rattle.ivl_network.specs.Trail.{ArePresentIn, IsRuleKeptFrom, KeepsPast, KeepsRuleAt, revert_rule, rules_past_at, with_rule_change};

use super::change::Change;
use super::index::Index;
use super::queue::Queue;
use intervallum::interval::Interval;
use intervallum::interval_set::IntervalSet;
use intervallum::ops::Singleton;
use intervallum::width::Width;
use ivl_rules::rules::Rule;
use ivl_store::store::{Spares, Store};
use std::alloc::AllocError;

/// Reserves room for so many changes, if changes are written down.
pub(super) fn reserve_changes<B: Width>(
    trail: &mut Vec<Change<B>>,
    is_kept: bool,
    count: usize,
) -> Result<(), AllocError>
    ensures same { trail.new.items ≡ trail.old.items }
    ensures room { OnOk result (is_kept ≡ true → vec_len trail.new + count ≤ vec_capacity trail.new) }
{
    if is_kept {
        trail.reserve(count)?;
    }
    Ok(())
}

/// Writes a change down, if changes are written down.
pub(super) fn log_change<B: Width>(trail: &mut Vec<Change<B>>, is_kept: bool, change: Change<B>)
    requires { is_kept ≡ true → vec_len trail.old < vec_capacity trail.old }
    ensures { trail.new.items ≡ with_rule_change is_kept trail.old.items change }
{
    if is_kept {
        trail.push_reserved(change);
    }
}

/// Puts what is left in place of a domain, if it lost a member. Writes down the set that stood there, if changes are
/// written down and the trail does not have one of this variable since the last mark.
#[inline(always)]
pub(super) fn replace_logged<B: Width>(
    store: &mut Store<B>,
    trail: &mut Vec<Change<B>>,
    places: &mut [usize],
    spares: &mut Spares<B>,
    marks: &[usize],
    variable: usize,
    left: Option<IntervalSet<B>>,
)
    requires known { variable < length store.old }
    requires range { (s : List (ℤ × ℤ)) → left ≡ Some s → IsRunListIn B.whole s }
    requires room { (marks.now ≡ []) ⊎ (vec_len trail.old < vec_capacity trail.old) }
    ensures put { store.new ≡ narrowed_at store.old variable left }
    ensures past { (rules : List Rule) → KeepsPast marks.now trail.old.items trail.new.items store.old store.new rules }
    ensures count { vec_len trail.new ≤ vec_len trail.old + 1 }
    ensures capacity { vec_capacity trail.new ≡ vec_capacity trail.old }
{
    if let Some(set) = left {
        put_logged(store, trail, places, spares, marks, variable, set);
    }
}

/// Puts a set in place of a domain, and writes that down as [`replace_logged`] does.
#[inline(always)]
fn put_logged<B: Width>(
    store: &mut Store<B>,
    trail: &mut Vec<Change<B>>,
    places: &mut [usize],
    spares: &mut Spares<B>,
    marks: &[usize],
    variable: usize,
    set: IntervalSet<B>,
)
    requires known { variable < length store.old }
    requires range { IsRunListIn B.whole set }
    requires room { (marks.now ≡ []) ⊎ (vec_len trail.old < vec_capacity trail.old) }
    ensures put { store.new ≡ slice_set store.old variable set }
    ensures past { (rules : List Rule) → KeepsPast marks.now trail.old.items trail.new.items store.old store.new rules }
    ensures count { vec_len trail.new ≤ vec_len trail.old + 1 }
    ensures capacity { vec_capacity trail.new ≡ vec_capacity trail.old }
{
    let Some(old) = store.swap(variable, Some(set)) else {
        return;
    };
    if is_unkept(trail, marks, places, variable) {
        write_down(trail, places, variable, old);
    } else {
        spares.keep(old);
    }
}

/// Writes down the domain of a variable that is replaced.
fn write_down<B: Width>(
    trail: &mut Vec<Change<B>>,
    places: &mut [usize],
    variable: usize,
    old: IntervalSet<B>,
)
    requires { vec_len trail.old < vec_capacity trail.old }
    ensures written { trail.new.items ≡ trail.old.items ++ Domain variable old ∷ [] }
    ensures capacity { vec_capacity trail.new ≡ vec_capacity trail.old }
{
    if variable < places.len() {
        places[variable] = trail.len().saturating_add(1);
    }
    trail.push_reserved(Change::Domain(variable, old));
}

/// Takes a number out of a domain. Writes down what stood there, as [`replace_logged`] does.
pub(super) fn take_out_logged<B: Width>(
    store: &mut Store<B>,
    trail: &mut Vec<Change<B>>,
    places: &mut [usize],
    spares: &mut Spares<B>,
    marks: &[usize],
    variable: usize,
    value: B,
) -> Result<(), AllocError>
    requires known { variable < length store.old }
    requires in_range { IsBetween B.whole (B.value value) }
    requires room { (marks.now ≡ []) ⊎ (vec_len trail.old < vec_capacity trail.old) }
    ensures refused { OnErr result ((store.new ≡ store.old) × (trail.new.items ≡ trail.old.items)) }
    ensures taken { OnOk result ((i : ℕ) (v : ℤ) → set_at store.new i v ↔ (set_at store.old i v × (i ≡ variable → v ≢ B.value value))) }
    ensures past { OnOk result ((rules : List Rule) → KeepsPast marks.now trail.old.items trail.new.items store.old store.new rules) }
{
    let single = Interval::singleton(value);
    if !is_unkept(trail, marks, places, variable) {
        return store.take_out(variable, single);
    }
    let old = copy_of(&store.domains()[variable], spares)?;
    store.take_out(variable, single)?;
    write_down(trail, places, variable, old);
    Ok(())
}

/// A copy of a set, in the memory of one that is not used any more, if there is one.
fn copy_of<B: Width>(
    set: &IntervalSet<B>,
    spares: &mut Spares<B>,
) -> Result<IntervalSet<B>, AllocError>
    ensures { IfOk result (λ L. L ≡ set.now) }
{
    let mut copy = spares.take(set.allocator());
    copy.try_clone_from(set)?;
    Ok(copy)
}

/// Whether there is a mark, and the trail does not have a domain of the variable since the last one: a look at where
/// it was kept last.
fn is_unkept<B: Width>(
    trail: &[Change<B>],
    marks: &[usize],
    places: &[usize],
    variable: usize,
) -> bool
    ensures marked { result ≡ true → ¬ (marks.now ≡ []) }
    ensures kept { result ≡ false → (marks.now ≡ []) ⊎ IsRuleKeptFrom (slice_index_or marks.now (length marks.now - 1) 0) trail.now variable }
{
    let count = marks.len();
    if count == 0 {
        return false;
    }
    if variable >= places.len() {
        return true;
    }
    let place = places[variable];
    if place <= marks[count - 1] || place > trail.len() {
        return true;
    }
    !keeps(&trail[place - 1], variable)
}

/// Whether a change has the domain of a variable that was replaced.
fn keeps<B: Width>(change: &Change<B>, variable: usize) -> bool
    ensures { result ≡ true → KeepsRuleAt variable change.now }
{
    match change {
        Change::Domain(i, _) => *i == variable,
        Change::Variable | Change::Require => false,
    }
}

/// Takes back the changes from a place of the trail on, the last one first. Where it does not wake rules, the
/// flags of the queue claim nothing afterwards, and the caller sets them.
pub(super) fn revert_to<B: Width>(
    trail: &mut Vec<Change<B>>,
    start: usize,
    wakes: bool,
    store: &mut Store<B>,
    spares: &mut Spares<B>,
    rules: &mut Vec<Rule>,
    index: &mut Index,
    queue: &mut Queue,
)
    requires in_trail { start ≤ length trail.old.items }
    requires sound { IsSoundRules store.old rules.old.items (claimed_flags wakes queue.old.settled.items) }
    requires index { IsRuleIndex (length store.old) rules.old.items index.old }
    requires queue { IsRuleQueue queue.old }
    requires present { (m : ℕ) → start ≤ m → m ≤ length trail.old.items → ArePresentIn (rules_past_at trail.old.items (record { domains = store.old; rules = rules.old.items }) m) }
    ensures trail { trail.new.items ≡ take start trail.old.items }
    ensures past { record { domains = store.new; rules = rules.new.items } ≡ rules_past_at trail.old.items (record { domains = store.old; rules = rules.old.items }) start }
    ensures sound { IsSoundRules store.new rules.new.items (claimed_flags wakes queue.new.settled.items) }
    ensures index { IsRuleIndex (length store.new) rules.new.items index.new }
    ensures queue { IsRuleQueue queue.new }
{
    while trail.len() > start {
        if let Some(change) = trail.pop() {
            take_back(change, wakes, store, spares, rules, index, queue);
        }
    }
}

/// Takes a change back. Rules that name a variable whose domain is replaced are no longer settled, but
/// for those that take nothing.
fn take_back<B: Width>(
    change: Change<B>,
    wakes: bool,
    store: &mut Store<B>,
    spares: &mut Spares<B>,
    rules: &mut Vec<Rule>,
    index: &mut Index,
    queue: &mut Queue,
)
    requires sound { IsSoundRules store.old rules.old.items (claimed_flags wakes queue.old.settled.items) }
    requires index { IsRuleIndex (length store.old) rules.old.items index.old }
    requires queue { IsRuleQueue queue.old }
    requires present { ArePresentIn (revert_rule change (record { domains = store.old; rules = rules.old.items })) }
    ensures past { record { domains = store.new; rules = rules.new.items } ≡ revert_rule change (record { domains = store.old; rules = rules.old.items }) }
    ensures sound { IsSoundRules store.new rules.new.items (claimed_flags wakes queue.new.settled.items) }
    ensures index { IsRuleIndex (length store.new) rules.new.items index.new }
    ensures queue { IsRuleQueue queue.new }
{
    match change {
        Change::Domain(variable, set) => {
            put_back(store, spares, variable, set);
            queue.wake(wakes, false, false, variable, store, rules, index);
        }
        Change::Variable => {
            store.drop_variable();
            index.pop_variable();
        }
        Change::Require => {
            if let Some(rule) = rules.pop() {
                index.pop_rule(&rule);
                queue.pop();
            }
        }
    }
}

/// Puts a domain back, if there is such a variable.
fn put_back<B: Width>(
    store: &mut Store<B>,
    spares: &mut Spares<B>,
    variable: usize,
    set: IntervalSet<B>,
)
    ensures { store.new ≡ slice_set store.old variable set }
{
    set.in_whole();
    if variable < store.domains().len() {
        if let Some(old) = store.swap(variable, Some(set)) {
            spares.keep(old);
        }
    }
}

/// Whether there is a mark, so that changes are written down.
pub(super) fn is_logging(marks: &[usize]) -> bool
    ensures { result ≡ false → marks.now ≡ [] }
{
    !marks.is_empty()
}

/// Clears the trail if there is no mark.
pub(super) fn clear_unmarked<B: Width>(marks: &[usize], trail: &mut Vec<Change<B>>)
    ensures { (marks.now ≡ []) ⊎ (trail.new.items ≡ trail.old.items) }
{
    if marks.is_empty() {
        trail.clear();
    }
}
