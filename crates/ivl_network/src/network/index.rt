//! Which rules name each variable.
ghost use Rattle.std.specs.Prelude.{Contains, ◌-◌, ◌≡◌, ◌+◌, ◌<◌, ◌≤◌, ◌∷◌, ◌++◌, [], ℕ, All, IsTrue, List, OnOk, length, map, ◌↔◌, slice_index_or, slice_set, unsigned_abs};
ghost use Rattle.std.specs.Vec.{vec_capacity, vec_len};
ghost use Rattle.ivl_rules.specs.declared.rules.Rule.{Rule};
ghost use Rattle.ivl_store.specs.Narrowing.{AllPresent};
ghost use Rattle.ivl_rules.specs.Rules.{needs_singles};
ghost use Rattle.ivl_network.specs.Families.{ArePresent};
ghost use Rattle.ivl_network.specs.Hashes.{AreHashLists, HasHashRoom};
ghost use Rattle.ivl_network.specs.Queue.{IsLastNamingRule, IsRuleIndex, lasts_of};
ghost use Rattle.ivl_network.specs.RuleHashes.{hash_of_rule, mixed_with};

use super::hashes::Hashes;
use super::narrowing::has_two;
use intervallum::width::Width;
use ivl_rules::rules::Rule;
use ivl_store::store::{Constraint, Store};
use std::alloc::{AllocError, Global};

/// For each variable the rules that name it, as two lists that are linked through the rules, the latest
/// one first: those that need single numbers, and the others. A place tells a rule and which of its
/// variables: rule k has 4 k + 1 for its x, 4 k + 2 for its y and 4 k + 3 for its z, and 0 ends a list.
#[derive(Drop)]
pub(super) struct Index {
    lasts: Vec<usize>,
    single_lasts: Vec<usize>,
    // The place before each. The number at 4 k is not used.
    links: Vec<usize>,
    // For each rule, how many variables it alone names, of those that had several members, `Differs` aside.
    leaves: Vec<u8>,
    // By which a rule is found.
    hashes: Hashes,
}

impl Index {
    pub(super) fn new(alloc: Global) -> Index
        ensures { IsRuleIndex 0 [] result }
    {
        Index {
            lasts: Vec::new(alloc),
            single_lasts: Vec::new(alloc),
            links: Vec::new(alloc),
            leaves: Vec::new(alloc),
            hashes: Hashes::new(alloc),
        }
    }

    /// Reserves room for so many more variables and rules.
    pub(super) fn reserve(&mut self, variables: usize, rules: usize) -> Result<(), AllocError>
        requires { AreHashLists self.old.hashes }
        ensures same { (count : ℕ) (cs : List Rule) → IsRuleIndex count cs self.old → IsRuleIndex count cs self.new }
    {
        self.lasts.reserve(variables)?;
        self.single_lasts.reserve(variables)?;
        self.links.reserve(rules.saturating_mul(4))?;
        self.leaves.reserve(rules)?;
        self.hashes.reserve(rules)?;
        Ok(())
    }

    /// Reserves room for one more variable.
    pub(super) fn reserve_variable(&mut self) -> Result<(), AllocError>
        ensures same { (count : ℕ) (rules : List Rule) → IsRuleIndex count rules self.old → IsRuleIndex count rules self.new }
        ensures room { OnOk result (vec_len self.new.lasts < vec_capacity self.new.lasts) }
        ensures single_room { OnOk result (vec_len self.new.single_lasts < vec_capacity self.new.single_lasts) }
    {
        self.lasts.reserve(1)?;
        self.single_lasts.reserve(1)?;
        Ok(())
    }

    /// Adds a variable that no rule names.
    pub(super) fn push_variable(&mut self)
        requires room { vec_len self.old.lasts < vec_capacity self.old.lasts }
        requires single_room { vec_len self.old.single_lasts < vec_capacity self.old.single_lasts }
        ensures { (count : ℕ) (rules : List Rule) → IsRuleIndex count rules self.old → IsRuleIndex (count + 1) rules self.new }
    {
        self.lasts.push_reserved(0);
        self.single_lasts.push_reserved(0);
    }

    /// Drops the last variable, if there is one, which no rule names.
    pub(super) fn pop_variable(&mut self)
        ensures { (count : ℕ) (rules : List Rule) → IsRuleIndex count rules self.old → All (ArePresent (count - 1)) rules → IsRuleIndex (count - 1) rules self.new }
    {
        let _ = self.lasts.pop();
        let _ = self.single_lasts.pop();
    }

    /// Reserves room for one more rule.
    pub(super) fn reserve_rule(&mut self) -> Result<(), AllocError>
        requires { AreHashLists self.old.hashes }
        ensures same { (count : ℕ) (rules : List Rule) → IsRuleIndex count rules self.old → IsRuleIndex count rules self.new }
        ensures room { OnOk result (vec_len self.new.links + 4 ≤ vec_capacity self.new.links) }
        ensures leaf_room { OnOk result (vec_len self.new.leaves < vec_capacity self.new.leaves) }
        ensures hash_room { OnOk result (HasHashRoom self.new.hashes) }
        ensures lists { AreHashLists self.new.hashes }
    {
        self.links.reserve(4)?;
        self.leaves.reserve(1)?;
        self.hashes.reserve(1)?;
        Ok(())
    }

    /// Counts the leaves of the rule that is added next: its variables with several members that no rule names
    /// so far. A rule that alone named one of its variables has one leaf less.
    pub(super) fn push_leaves<B: Width>(&mut self, rule: &Rule, store: &Store<B>)
        requires room { vec_len self.old.leaves < vec_capacity self.old.leaves }
        ensures same { (count : ℕ) (rules : List Rule) → IsRuleIndex count rules self.old → IsRuleIndex count rules self.new }
        ensures links { self.new.links ≡ self.old.links }
        ensures hashes { self.new.hashes ≡ self.old.hashes }
    {
        if rule.needs_single_numbers() {
            self.leaves.push_reserved(0);
            return;
        }
        let c = rule.places();
        let count = count_leaves(&self.lasts, &c, store);
        self.leaves.push_reserved(count);
        take_leaf(&mut self.leaves, &self.lasts, &self.links, c.x);
        take_leaf(&mut self.leaves, &self.lasts, &self.links, c.y);
        if c.y != c.z {
            take_leaf(&mut self.leaves, &self.lasts, &self.links, c.z);
        }
    }

    /// Whether a rule alone names a variable with several members, `Differs` aside: where it takes one of these, it
    /// wakes no other. That is a guess where rules were dropped.
    #[inline]
    pub(super) fn has_leaf(&self, k: usize) -> bool {
        k < self.leaves.len() && self.leaves[k] > 0
    }

    /// Adds a rule after the others.
    pub(super) fn push_rule(&mut self, rule: &Rule)
        requires room { vec_len self.old.links + 4 ≤ vec_capacity self.old.links }
        requires hash_room { HasHashRoom self.old.hashes }
        requires lists { AreHashLists self.old.hashes }
        requires present { ArePresent (length (lasts_of (needs_singles rule.now) self.old)) rule.now }
        ensures { (count : ℕ) (rules : List Rule) → IsRuleIndex count rules self.old → IsRuleIndex count (rules ++ rule.now ∷ []) self.new }
    {
        self.hashes.push(hash_of(rule));
        let c = rule.places();
        let start = self.links.len();
        if rule.needs_single_numbers() {
            push_places(&mut self.links, &self.single_lasts, &c);
            put_places(&mut self.single_lasts, &c, start + 1, start + 2, start + 3);
        } else {
            push_places(&mut self.links, &self.lasts, &c);
            put_places(&mut self.lasts, &c, start + 1, start + 2, start + 3);
        }
    }

    /// Drops the last rule.
    pub(super) fn pop_rule(&mut self, rule: &Rule)
        requires lists { AreHashLists self.old.hashes }
        requires present { ArePresent (length (lasts_of (needs_singles rule.now) self.old)) rule.now }
        ensures { (count : ℕ) (rules : List Rule) → IsRuleIndex count (rules ++ rule.now ∷ []) self.old → IsRuleIndex count rules self.new }
    {
        let count = self.links.len();
        if count < 4 {
            return;
        }
        let _ = self.leaves.pop();
        self.hashes.pop();
        let start = count - 4;
        let x = self.links[start + 1];
        let y = self.links[start + 2];
        let z = self.links[start + 3];
        self.links.truncate(start);
        let c = rule.places();
        if rule.needs_single_numbers() {
            put_places(&mut self.single_lasts, &c, x, y, z);
        } else {
            put_places(&mut self.lasts, &c, x, y, z);
        }
    }

    /// The place of the last rule that names the variable, among those that need single numbers or
    /// among the others.
    pub(super) fn last(&self, singles: bool, variable: usize) -> usize
        ensures { (count : ℕ) (rules : List Rule) → IsRuleIndex count rules self.now → IsLastNamingRule singles rules variable (length rules) result }
    {
        if singles {
            place_at(&self.single_lasts, variable)
        } else {
            place_at(&self.lasts, variable)
        }
    }

    /// The place before this one in its list.
    #[inline]
    pub(super) fn before(&self, place: usize) -> usize
        requires { place < length self.now.links.items }
        ensures { result ≡ slice_index_or self.now.links.items place 0 }
    {
        self.links[place]
    }

    /// Whether a rule is one of the list: a walk over those in the bucket of its hash.
    pub(super) fn has(&self, rules: &[Rule], rule: &Rule) -> bool
        requires lists { AreHashLists self.now.hashes }
        requires hashes { self.now.hashes.hashes.items ≡ map hash_of_rule rules.now }
        ensures { IsTrue result ↔ Contains rules.now rule.now }
    {
        let mut place = self.hashes.last(hash_of(rule));
        while place > 0 {
            if is_same(&rules[place - 1], rule) {
                return true;
            }
            place = self.hashes.before(place);
        }
        false
    }
}

/// A hash of a rule, from its kind and what it holds.
fn hash_of(rule: &Rule) -> u64
    ensures { result ≡ hash_of_rule rule.now }
{
    match rule {
        Rule::Sum(c) => mixed(mixed(mixed(1, c.x as u64), c.y as u64), c.z as u64),
        Rule::Shifted { x, y, by } => hash_of_two(2, *x, *y, *by),
        Rule::AtMost { x, y, by } => hash_of_two(3, *x, *y, *by),
        Rule::Differs { x, y, by } => hash_of_two(4, *x, *y, *by),
    }
}

fn hash_of_two(kind: u64, x: usize, y: usize, by: i64) -> u64
    ensures { result ≡ mixed_with (mixed_with (mixed_with kind x) y) (unsigned_abs by) }
{
    mixed(mixed(mixed(kind, x as u64), y as u64), by.unsigned_abs())
}

/// A hash with one more number.
fn mixed(hash: u64, word: u64) -> u64
    ensures { result ≡ mixed_with hash word }
{
    hash.wrapping_mul(0x9E37_79B9_7F4A_7C15).wrapping_add(word)
}

/// Adds a 0 and the places that stand at three variables.
fn push_places(links: &mut Vec<usize>, lasts: &[usize], c: &Constraint)
    requires room { vec_len links.old + 4 ≤ vec_capacity links.old }
    requires present { AllPresent (length lasts.now) c.now }
    ensures { links.new.items ≡ links.old.items ++ 0 ∷ slice_index_or lasts.now c.now.x 0 ∷ slice_index_or lasts.now c.now.y 0 ∷ slice_index_or lasts.now c.now.z 0 ∷ [] }
{
    links.push_reserved(0);
    links.push_reserved(lasts[c.x]);
    links.push_reserved(lasts[c.y]);
    links.push_reserved(lasts[c.z]);
}

/// How many variables at these places have several members, and no rule so far. A rule of two variables has its
/// second twice.
fn count_leaves<B: Width>(lasts: &[usize], c: &Constraint, store: &Store<B>) -> u8
    ensures { result ≤ 3 }
{
    let count = leaf_at(lasts, c.x, store) + leaf_at(lasts, c.y, store);
    if c.y == c.z {
        return count;
    }
    count + leaf_at(lasts, c.z, store)
}

/// One for a variable that has several members and that no rule names so far, and else none.
fn leaf_at<B: Width>(lasts: &[usize], variable: usize, store: &Store<B>) -> u8
    ensures { result ≤ 1 }
{
    if place_at(lasts, variable) > 0 || variable >= store.domains().len() {
        return 0;
    }
    if has_two(store, variable) { 1 } else { 0 }
}

/// Counts a leaf less of the rule that alone names a variable so far, if one does.
fn take_leaf(leaves: &mut [u8], lasts: &[usize], links: &[usize], variable: usize) {
    let last = place_at(lasts, variable);
    let k = last / 4;
    if last > 0 && place_at(links, last) == 0 && k < leaves.len() {
        leaves[k] = leaves[k].saturating_sub(1);
    }
}

/// Puts places at three variables, and the last of them where two are one.
fn put_places(lasts: &mut Vec<usize>, c: &Constraint, x: usize, y: usize, z: usize)
    requires { AllPresent (length lasts.old.items) c.now }
    ensures { lasts.new.items ≡ slice_set (slice_set (slice_set lasts.old.items c.now.x x) c.now.y y) c.now.z z }
{
    lasts[c.x] = x;
    lasts[c.y] = y;
    lasts[c.z] = z;
}

/// The place that stands at a variable, or 0 if that is not there.
fn place_at(lasts: &[usize], variable: usize) -> usize
    ensures { result ≡ slice_index_or lasts.now variable 0 }
{
    if variable < lasts.len() {
        lasts[variable]
    } else {
        0
    }
}

/// Whether two rules are the same.
fn is_same(first: &Rule, second: &Rule) -> bool
    ensures { IsTrue result ↔ (first.now ≡ second.now) }
{
    *first == *second
}
