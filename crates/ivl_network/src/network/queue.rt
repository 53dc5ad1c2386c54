//! The rules that have to be looked at again.
ghost use Rattle.std.specs.Prelude.{◌≡◌, ◌+◌, ◌-◌, ◌<◌, ◌∷◌, ◌++◌, [], ℕ, ℤ, All, HoldsAt, IsNone, IsTrue, ◌↔◌, List, MatchOption, OnErr, OnOk, false, true, length, slice_index_or, slice_set, take};
ghost use Rattle.std.specs.Vec.{vec_capacity};
ghost use Rattle.ivl_laws.specs.Families.{set_at};
ghost use Rattle.ivl_laws.specs.Sets.{HasSome};
ghost use Rattle.ivl_network.specs.Queue.{IsLastNamingRule, IsRuleIndex, IsRuleQueue, Removes, unsettled_count};
ghost use Rattle.ivl_store.specs.Narrowing.{AllPresent};
ghost use Rattle.ivl_store.specs.Settled.{AreLost, any_lost};
ghost use Rattle.ivl_rules.specs.Rules.{AreDifferent, NamesOf, NarrowedBy, needs_singles, places as places_of};
ghost use Rattle.ivl_network.specs.Families.{ArePresent};
ghost use Rattle.ivl_network.specs.Settled.{AreClearedListed, AreClearedRules, AreSettledRules, AreSingleBeside, AreTold, IsOneAtMost, KeepsSettled, StaysBeside};

use super::index::Index;
use super::narrowing::has_two;
use intervallum::ops::{IsEmpty, IsSingleton};
use intervallum::width::Width;
use ivl_rules::rules::Rule;
use ivl_rules::rules::narrowing::takes_nothing;
use ivl_store::store::{Constraint, Lost, Store};
use std::alloc::{AllocError, Global};
use std::mem;

/// Whether each rule is settled, so that narrowing by it would change nothing, and a queue of
/// those that are not. The queue goes in rounds: a rule that gets unsettled waits for the next, or,
/// if it is late, for the first round that would be empty.
#[derive(Drop)]
pub(super) struct Queue {
    settled: Vec<bool>,
    round: Vec<usize>,
    later: Vec<usize>,
    late: Vec<usize>,
}

impl Queue {
    pub(super) fn new(alloc: Global) -> Queue
        ensures empty { result.settled.items ≡ [] }
        ensures queue { IsRuleQueue result }
    {
        Queue {
            settled: Vec::new(alloc),
            round: Vec::new(alloc),
            later: Vec::new(alloc),
            late: Vec::new(alloc),
        }
    }

    /// Reserves room for so many more rules.
    pub(super) fn reserve(&mut self, rules: usize) -> Result<(), AllocError>
        requires { IsRuleQueue self.old }
        ensures queue { IsRuleQueue self.new }
        ensures settled { self.new.settled.items ≡ self.old.settled.items }
    {
        let count = self.settled.len();
        self.settled.reserve(rules)?;
        self.round
            .reserve((count - self.round.len()).saturating_add(rules))?;
        self.later
            .reserve((count - self.later.len()).saturating_add(rules))?;
        self.late
            .reserve((count - self.late.len()).saturating_add(rules))?;
        Ok(())
    }

    /// Adds a rule after the others, not settled.
    pub(super) fn push(&mut self) -> Result<(), AllocError>
        requires { IsRuleQueue self.old }
        ensures queue { IsRuleQueue self.new }
        ensures added { OnOk result (self.new.settled.items ≡ self.old.settled.items ++ false ∷ []) }
        ensures refused { OnErr result (self.new.settled.items ≡ self.old.settled.items) }
    {
        let count = self.settled.len();
        self.round.reserve(count - self.round.len() + 1)?;
        self.later.reserve(count - self.later.len() + 1)?;
        self.late.reserve(count - self.late.len() + 1)?;
        self.settled.push(false)?;
        self.later.push_reserved(count);
        Ok(())
    }

    /// Drops the last rule, if there is one.
    pub(super) fn pop(&mut self)
        requires { IsRuleQueue self.old }
        ensures queue { IsRuleQueue self.new }
        ensures left { self.new.settled.items ≡ take (length self.old.settled.items - 1) self.old.settled.items }
    {
        if let Some(is_settled) = self.settled.pop() {
            let k = self.settled.len();
            if !is_settled && !remove(&mut self.later, k) && !remove(&mut self.late, k) {
                remove(&mut self.round, k);
            }
        }
    }

    /// Returns a rule that is not settled, the one that waits longest by rounds, or `None` if all
    /// are. It stays in the queue, as the last of the round.
    pub(super) fn first(&mut self) -> Option<usize>
        requires { IsRuleQueue self.old }
        ensures queue { IsRuleQueue self.new }
        ensures settled { self.new.settled.items ≡ self.old.settled.items }
        ensures none { IsNone result ↔ unsettled_count self.old.settled.items ≡ 0 }
        ensures first { MatchOption result ((k : ℕ) → k < length self.old.settled.items → slice_index_or self.old.settled.items k false ≡ true)
            (λ k. (k < length self.old.settled.items) × (slice_index_or self.old.settled.items k false ≡ false) × (front : List ℕ) × (self.new.round.items ≡ front ++ k ∷ [])) }
    {
        self.turn();
        let count = self.round.len();
        if count == 0 {
            return None;
        }
        Some(self.round[count - 1])
    }

    /// Begins the next round, if this one has ended.
    fn turn(&mut self)
        requires { IsRuleQueue self.old }
        ensures queue { IsRuleQueue self.new }
        ensures settled { self.new.settled.items ≡ self.old.settled.items }
        ensures ended { self.new.round.items ≡ [] → (self.new.later.items ≡ []) × (self.new.late.items ≡ []) }
    {
        if !self.round.is_empty() {
            return;
        }
        mem::swap(&mut self.round, &mut self.later);
        if self.round.is_empty() {
            mem::swap(&mut self.round, &mut self.late);
        }
    }

    /// Whether each rule is settled.
    pub(super) fn is_empty(&self) -> bool
        requires { IsRuleQueue self.now }
        ensures all { result ≡ true → (k : ℕ) → k < length self.now.settled.items → slice_index_or self.now.settled.items k false ≡ true }
        ensures exactly { IsTrue result ↔ unsettled_count self.now.settled.items ≡ 0 }
    {
        self.round.is_empty() && self.later.is_empty() && self.late.is_empty()
    }

    /// Updates the flags after the first rule, at these places, narrowed the store. It is settled then. Others that
    /// name a variable which lost a member are no longer, but for those that take nothing.
    #[inline]
    pub(super) fn settle<B: Width>(
        &mut self,
        i: usize,
        lost: Lost,
        c: &Constraint,
        store: &Store<B>,
        rules: &[Rule],
        index: &Index,
    )
        requires queue { IsRuleQueue self.old }
        requires different { All AreDifferent rules.now }
        requires present { All (ArePresent (length store.now)) rules.now }
        requires index { (count : ℕ) × IsRuleIndex count rules.now index.now }
        requires one_each { length self.old.settled.items ≡ length rules.now }
        requires in_list { i < length rules.now }
        requires places { HoldsAt (λ rule. c.now ≡ places_of rule) rules.now i }
        requires known { AllPresent (length store.now) c.now }
        requires unset { slice_index_or self.old.settled.items i false ≡ false }
        requires first { (front : List ℕ) × (self.old.round.items ≡ front ++ i ∷ []) }
        ensures queue { IsRuleQueue self.new }
        ensures count { length self.new.settled.items ≡ length rules.now }
        ensures alone { any_lost lost ≡ false → self.new.settled.items ≡ slice_set self.old.settled.items i true }
        ensures stays { (old : List (List (ℤ × ℤ))) → HoldsAt (λ c. AreTold (places_of c) lost (set_at old) (set_at store.now)) rules.now i
            → KeepsSettled rules.now (set_at old) (set_at store.now) self.old.settled.items self.new.settled.items }
        ensures settled { (old : List (List (ℤ × ℤ))) → HoldsAt (λ c. (j : ℕ) (v : ℤ) → set_at store.now j v ↔ NarrowedBy c (set_at old) j v) rules.now i
            → HoldsAt (λ c. AreLost (places_of c) lost (set_at old) (set_at store.now)) rules.now i
            → AreSettledRules rules.now self.old.settled.items (set_at old) → AreSettledRules rules.now self.new.settled.items (set_at store.now) }
    {
        let alone = is_one_at_most(lost);
        self.wake(lost.x, true, alone, c.x, store, rules, index);
        self.wake(lost.y, true, alone, c.y, store, rules, index);
        self.wake(lost.z, true, alone, c.z, store, rules, index);
        self.settle_first(i);
    }

    /// Settles all rules, so that none waits, if narrowing by each would change nothing.
    pub(super) fn settle_all(&mut self, are_settled: bool)
        requires { IsRuleQueue self.old }
        ensures queue { IsRuleQueue self.new }
        ensures count { length self.new.settled.items ≡ length self.old.settled.items }
        ensures same { are_settled ≡ false → self.new.settled.items ≡ self.old.settled.items }
        ensures none { are_settled ≡ true → unsettled_count self.new.settled.items ≡ 0 }
    {
        if !are_settled {
            return;
        }
        while let Some(k) = self.first() {
            self.settle_first(k);
        }
    }

    /// Settles the first rule, which leaves the queue.
    fn settle_first(&mut self, k: usize)
        requires queue { IsRuleQueue self.old }
        requires in_list { k < length self.old.settled.items }
        requires unset { slice_index_or self.old.settled.items k false ≡ false }
        requires first { (front : List ℕ) × (self.old.round.items ≡ front ++ k ∷ []) }
        ensures queue { IsRuleQueue self.new }
        ensures settled { self.new.settled.items ≡ slice_set self.old.settled.items k true }
    {
        let _ = self.round.pop();
        self.settled[k] = true;
    }

    /// Clears the flag of a rule that is settled, which then waits for the next round, or if it is late,
    /// until no other does.
    #[inline]
    fn clear(&mut self, k: usize, is_late: bool)
        requires queue { IsRuleQueue self.old }
        requires in_list { k < length self.old.settled.items }
        requires settled { slice_index_or self.old.settled.items k false ≡ true }
        ensures queue { IsRuleQueue self.new }
        ensures settled { self.new.settled.items ≡ slice_set self.old.settled.items k false }
        ensures round { self.new.round.items ≡ self.old.round.items }
    {
        self.settled[k] = false;
        if is_late {
            self.late.push_reserved(k);
        } else {
            self.later.push_reserved(k);
        }
    }

    /// Clears the flags of the rules that name the variable, if it has changed, but for those that take
    /// nothing from the domains of the store: `only_lost` says that the change took members and added none,
    /// and `alone` that no other domain has changed with it.
    #[inline(always)]
    pub(super) fn wake<B: Width>(
        &mut self,
        changed: bool,
        only_lost: bool,
        alone: bool,
        variable: usize,
        store: &Store<B>,
        rules: &[Rule],
        index: &Index,
    )
        requires queue { IsRuleQueue self.old }
        requires variable { only_lost ≡ true → variable < length store.now }
        requires different { All AreDifferent rules.now }
        requires present { All (ArePresent (length store.now)) rules.now }
        requires index { (count : ℕ) × IsRuleIndex count rules.now index.now }
        requires one_each { length self.old.settled.items ≡ length rules.now }
        ensures queue { IsRuleQueue self.new }
        ensures cleared { AreClearedRules changed only_lost alone rules.now variable (set_at store.now) self.old.settled.items self.new.settled.items }
        ensures round { self.new.round.items ≡ self.old.round.items }
    {
        if !changed {
            return;
        }
        self.wake_listed(false, false, variable, store, rules, index);
        if index.last(true, variable) == 0 {
            return;
        }
        if only_lost && has_two(store, variable) {
            return;
        }
        let keeps_one = is_left_alone(only_lost, alone, variable, store);
        self.wake_listed(true, keeps_one, variable, store, rules, index);
    }

    /// Clears the flags of the rules of one list that name the variable, but for those that take nothing
    /// from the domains of the store and, where the variable alone lost members and keeps one, those whose
    /// other variable is a single number.
    #[inline(always)]
    fn wake_listed<B: Width>(
        &mut self,
        singles: bool,
        keeps_one: bool,
        variable: usize,
        store: &Store<B>,
        rules: &[Rule],
        index: &Index,
    )
        requires queue { IsRuleQueue self.old }
        requires different { All AreDifferent rules.now }
        requires present { All (ArePresent (length store.now)) rules.now }
        requires index { (count : ℕ) × IsRuleIndex count rules.now index.now }
        requires one_each { length self.old.settled.items ≡ length rules.now }
        requires kind { keeps_one ≡ true → singles ≡ true }
        ensures queue { IsRuleQueue self.new }
        ensures cleared { AreClearedListed singles rules.now variable (StaysBeside keeps_one variable (set_at store.now)) self.old.settled.items self.new.settled.items }
        ensures round { self.new.round.items ≡ self.old.round.items }
    {
        let last = index.last(singles, variable);
        if last == 0 {
            return;
        }
        // one that alone names the variable has mostly changed it
        if index.before(last) == 0 && !self.settled[last / 4] {
            return;
        }
        self.wake_from(last, singles, keeps_one, variable, store, rules, index);
    }

    /// Clears flags as [`Queue::wake_listed`] does, by a walk from the place of the last rule of the list.
    fn wake_from<B: Width>(
        &mut self,
        last: usize,
        singles: bool,
        keeps_one: bool,
        variable: usize,
        store: &Store<B>,
        rules: &[Rule],
        index: &Index,
    )
        requires queue { IsRuleQueue self.old }
        requires different { All AreDifferent rules.now }
        requires present { All (ArePresent (length store.now)) rules.now }
        requires index { (count : ℕ) × IsRuleIndex count rules.now index.now }
        requires one_each { length self.old.settled.items ≡ length rules.now }
        requires list { IsLastNamingRule singles rules.now variable (length rules.now) last }
        requires kind { keeps_one ≡ true → singles ≡ true }
        ensures queue { IsRuleQueue self.new }
        ensures cleared { AreClearedListed singles rules.now variable (StaysBeside keeps_one variable (set_at store.now)) self.old.settled.items self.new.settled.items }
        ensures round { self.new.round.items ≡ self.old.round.items }
    {
        // for the prover: only rules that need single numbers are asked what one of these forbids
        prove!(!keeps_one || singles);
        let mut place = last;
        while place > 0 {
            let k = place / 4;
            if self.settled[k] && !stays_settled(&rules[k], keeps_one, variable, store) {
                let is_late = !singles && index.has_leaf(k) && has_two(store, variable);
                self.clear(k, is_late);
            }
            place = index.before(place);
        }
    }
}

/// Whether no two of three variables have lost a member.
fn is_one_at_most(lost: Lost) -> bool
    ensures { result ≡ true → IsOneAtMost lost }
{
    if lost.x {
        return !lost.y && !lost.z;
    }
    !lost.y || !lost.z
}

/// Whether a variable alone has changed, only lost members, and keeps one.
fn is_left_alone<B: Width>(only_lost: bool, alone: bool, variable: usize, store: &Store<B>) -> bool
    requires { only_lost ≡ true → variable < length store.now }
    ensures { result ≡ true → (only_lost ≡ true) × (alone ≡ true) × HasSome (set_at store.now variable) }
{
    if !only_lost || !alone {
        return false;
    }
    !store.domains()[variable].is_empty()
}

/// Whether a rule that is settled stays so where a variable that it names has changed: it takes nothing,
/// or the variable alone lost members and keeps one, and the other variable is a single number, so that
/// what this forbids was taken before.
fn stays_settled<B: Width>(rule: &Rule, keeps_one: bool, variable: usize, store: &Store<B>) -> bool
    requires different { AreDifferent rule.now }
    requires present { ArePresent (length store.now) rule.now }
    requires names { NamesOf rule.now variable }
    requires kind { keeps_one ≡ true → needs_singles rule.now ≡ true }
    ensures { result ≡ true → StaysBeside keeps_one variable (set_at store.now) rule.now }
{
    if keeps_one && is_single_beside(rule, variable, store) {
        return true;
    }
    takes_nothing(store.domains(), rule)
}

/// Whether the other variable of a rule that needs single numbers is a single number.
fn is_single_beside<B: Width>(rule: &Rule, variable: usize, store: &Store<B>) -> bool
    requires present { ArePresent (length store.now) rule.now }
    requires names { NamesOf rule.now variable }
    requires kind { needs_singles rule.now ≡ true }
    ensures { result ≡ true → AreSingleBeside rule.now variable (set_at store.now) }
{
    let c = rule.places();
    if c.x == variable {
        store.domains()[c.y].is_singleton()
    } else {
        store.domains()[c.x].is_singleton()
    }
}

/// Removes a number from a list, at the last place where it stands. Returns false, and changes
/// nothing, if it does not stand there.
fn remove(list: &mut Vec<usize>, k: usize) -> bool
    ensures removed { Removes k list.old.items list.new.items result }
    ensures capacity { vec_capacity list.new ≡ vec_capacity list.old }
{
    let mut place = list.len();
    while place > 0 {
        place -= 1;
        if list[place] == k {
            list.swap_remove(place);
            return true;
        }
    }
    false
}
