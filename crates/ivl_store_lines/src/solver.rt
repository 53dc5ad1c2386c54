//! The variables by name, their domains, and the rules that hold between them.
ghost use Rattle.std.specs.Prelude.{◌≡◌, ◌∷◌, ◌++◌, ◌↔◌, ◌<◌, ℕ, ℤ, Bool, List, [], Some, All, Any, IfErr, IfOk, IfSome, IsSome, IsTrue, None, Ok, OnErr, OnOk, find, get_or, length, map, option_map, string_bytes};
ghost use Rattle.ivl_laws.specs.Runs.{Covers, IsRunsOf};
ghost use Rattle.ivl_laws.specs.Families.{set_at};
ghost use Rattle.ivl_network.specs.Network.{IsCutAt};
ghost use Rattle.ivl_network.specs.Settled.{KeepsSettled};
ghost use Rattle.ivl_rules.specs.Rules.{AreDifferent};
ghost use Rattle.ivl_lines.specs.Words.{words_between};
ghost use Rattle.ivl_store_lines.specs.Faults.{told_of, unknown};
ghost use Rattle.ivl_store_lines.specs.Required.{each_pair as pairs_of, related};
ghost use Rattle.ivl_store_lines.specs.Requests.{asked_of, cut as cut_of, different as different_of, relate as relate_of, sum as sum_of, var as var_of};
ghost use Rattle.ivl_store_lines.specs.Solving.{Adds, Carries, Cuts, Defines, IsTakenBack, IsUndone, Relates, Requires, Settles, fault_of, unknown_name, variable_named as index_in, variables_named as indexes_in, is_crossed, pairs_fault};

use crate::atomic::{require_atomically, restrict_atomically, settle_atomically};
use crate::different::{each_pair, first_repeated};
use crate::fault::Fault;
use crate::progress::Progress;
use crate::relation::Relation;
use crate::request::Request;
use indexmap::IndexSet;
use intervallum::interval::Interval;
use intervallum::interval_set::{IntervalSet, ToIntervalSet};
use ivl_lines::{next_word, number_from};
use ivl_network::network::Network;
use ivl_rules::rules::Rule;
use ivl_store::store::Constraint;
use std::alloc::{AllocError, Global};
use std::collections::hash_map::RandomState;
use std::marker::Model;

/// The variables by name, their domains, and the rules that hold between them. A contract sees the
/// three lists.
#[derive(Drop)]
pub struct Solver {
    alloc: Global,
    // With random keys, so that nobody can choose names that collide.
    names: IndexSet<String, RandomState>,
    network: Network<i64>,
    limit: u64,
    progress: Progress,
}

impl Model for Solver {
    ghost use Rattle.std.specs.Prelude.{◌≡◌, length, map, string_bytes};
    ghost use Rattle.ivl_store_lines.specs.Solving.{State};

    ghost Value = { State };

    ghost view = { λ s. record { names = map string_bytes s.names.keys; domains = s.network.domains; rules = s.network.rules; settled = s.network.settled; limit = s.limit; progress = s.progress } };

    ghost invariant = { λ s. length s.names.keys ≡ length s.network.domains };
}

impl Solver {
    /// Creates a solver without variables, with a limit of a million. Looks names up by hashes with
    /// these keys. Does not allocate.
    pub fn new(alloc: Global, keys: RandomState) -> Solver
        ensures { result ≡ record { names = []; domains = []; rules = []; settled = []; limit = 1000000; progress = Progress.Complete } }
    {
        Solver {
            alloc,
            names: IndexSet::with_hasher(alloc, keys),
            network: Network::new(alloc),
            limit: 1_000_000,
            progress: Progress::Complete,
        }
    }

    /// Returns the allocator.
    pub fn allocator(&self) -> Global {
        self.alloc
    }

    /// Carries out what a line asks for. A fault changes nothing, but that rules which were not settled all may
    /// have to be looked at anew where an allocation fails.
    pub fn carry_out<'a>(&mut self, request: Request<'a>) -> Result<(), Fault<'a>>
        ensures carried { OnOk result (Carries (asked_of request.entry) self.old self.new) }
        ensures no_fault { OnOk result (fault_of (asked_of request.entry) self.old ≡ None) }
        ensures fault { IfErr result (λ fault. told_of fault ≡ fault_of (asked_of request.entry) self.old) }
        ensures refused { IfErr result (λ fault. IsUndone (told_of fault) self.old self.new) }
    {
        match request {
            Request::Var(name, pairs) => self.define(name, &pairs),
            Request::Cut(name, pairs) => self.cut(name, &pairs),
            Request::Sum(x, y, z) => self.sum(x, y, z),
            Request::Relate(relation, x, y, by) => self.relate(relation, x, y, by),
            Request::Different(names) => self.different(names),
            Request::Limit(limit) => {
                self.limit = limit;
                Ok(())
            }
            Request::GoOn => {
                self.settle()?;
                Ok(())
            }
            Request::Show(None) | Request::Solve(_) | Request::Count => Ok(()),
            Request::Show(Some(name)) | Request::Least(name) | Request::Greatest(name) => {
                self.known(name)?;
                Ok(())
            }
        }
    }

    /// Returns the names, in the order in which they were defined.
    pub fn names(&self) -> &[String]
        ensures { map string_bytes result.now ≡ self.now.names }
    {
        self.names.as_slice()
    }

    /// Returns the domains, in the order of the names.
    pub fn domains(&self) -> &[IntervalSet<i64>]
        ensures { result.now ≡ self.now.domains }
    {
        self.network.domains()
    }

    /// Returns the rules, in the order in which they were first required.
    pub fn rules(&self) -> &[Rule]
        ensures same { result.now ≡ self.now.rules }
        ensures different { All AreDifferent self.now.rules }
    {
        self.network.rules()
    }

    /// Returns the domain of the variable that has this name.
    ///
    /// # Errors
    ///
    /// `Unknown` if no variable has it.
    pub fn domain_named<'a>(&self, name: &'a str) -> Result<&IntervalSet<i64>, Fault<'a>>
        ensures domain { IfOk result (λ domain. (i : ℕ) × (index_in self.now.names name.now ≡ Some i) × (domain.now ≡ get_or self.now.domains i [])) }
        ensures none { IfErr result (λ fault. index_in self.now.names name.now ≡ None) }
        ensures fault { IfErr result (λ fault. told_of fault ≡ Some (unknown name.now)) }
    {
        let index = self.known(name)?;
        Ok(&self.network.domains()[index])
    }

    /// Returns true exactly when some domain is empty. `O(1)`.
    pub fn has_empty(&self) -> bool
        ensures { IsTrue result ↔ Any (λ L. L ≡ []) self.now.domains }
    {
        self.network.has_empty()
    }

    /// Returns what the narrowings of a line may count for. `O(1)`.
    pub fn limit(&self) -> u64
        ensures { result ≡ self.now.limit }
    {
        self.limit
    }

    /// Returns how far the domains are narrowed. `O(1)`.
    pub fn progress(&self) -> Progress
        ensures { result ≡ self.now.progress }
    {
        self.progress
    }

    /// Adds a variable, whose domain is the union of the pairs.
    fn define<'a>(&mut self, name: &'a str, pairs: &[(i64, i64)]) -> Result<(), Fault<'a>>
        ensures ok { OnOk result (Defines name.now pairs.now self.old self.new) }
        ensures no_fault { OnOk result (fault_of (var_of name.now pairs.now) self.old ≡ None) }
        ensures fault { IfErr result (λ fault. told_of fault ≡ fault_of (var_of name.now pairs.now) self.old) }
        ensures refused { IfErr result (λ fault. IsUndone (told_of fault) self.old self.new) }
    {
        if self.index_of(name).is_some() {
            return Err(Fault::Defined(name));
        }
        if number_from(name).is_some() {
            return Err(Fault::Numeral(name));
        }
        let domain = set_of(self.alloc, pairs)?;
        self.add(name, domain)?;
        Ok(())
    }

    /// Adds a variable. If allocation fails, nothing changes.
    fn add(&mut self, name: &str, domain: IntervalSet<i64>) -> Result<(), AllocError>
        requires { index_in self.old.names name.now ≡ None }
        ensures ok { OnOk result (self.new ≡ record { names = self.old.names ++ name.now ∷ []; domains = self.old.domains ++ domain ∷ []; rules = self.old.rules; settled = self.old.settled; limit = self.old.limit; progress = self.old.progress }) }
        ensures err { OnErr result (self.new ≡ self.old) }
    {
        let count = self.names.len();
        self.names.insert(String::from_str(self.alloc, name)?)?;
        match self.network.add_variable(domain) {
            Ok(_) => Ok(()),
            Err(error) => {
                self.names.truncate(count);
                Err(error)
            }
        }
    }

    /// Keeps the members of a domain that are in the union of the pairs.
    fn cut<'a>(&mut self, name: &'a str, pairs: &[(i64, i64)]) -> Result<(), Fault<'a>>
        ensures ok { OnOk result (Cuts name.now pairs.now self.old self.new) }
        ensures no_fault { OnOk result (fault_of (cut_of name.now pairs.now) self.old ≡ None) }
        ensures fault { IfErr result (λ fault. told_of fault ≡ fault_of (cut_of name.now pairs.now) self.old) }
        ensures refused { IfErr result (λ fault. IsUndone (told_of fault) self.old self.new) }
    {
        let variable = self.known(name)?;
        let allowed = set_of(self.alloc, pairs)?;
        self.restrict(variable, &allowed)?;
        Ok(())
    }

    /// Requires that two variables add to a third.
    fn sum<'a>(&mut self, x: &'a str, y: &'a str, z: &'a str) -> Result<(), Fault<'a>>
        ensures ok { OnOk result (Adds x.now y.now z.now self.old self.new) }
        ensures no_fault { OnOk result (fault_of (sum_of x.now y.now z.now) self.old ≡ None) }
        ensures fault { IfErr result (λ fault. told_of fault ≡ fault_of (sum_of x.now y.now z.now) self.old) }
        ensures refused { IfErr result (λ fault. IsUndone (told_of fault) self.old self.new) }
    {
        let sum = Constraint {
            x: self.known(x)?,
            y: self.known(y)?,
            z: self.known(z)?,
        };
        if !sum.distinct() {
            return Err(Fault::Repeated(if sum.x == sum.y { x } else { z }));
        }
        self.require(&[Rule::Sum(sum)])?;
        Ok(())
    }

    /// Requires that a variable, shifted by a number, is so related to another.
    fn relate<'a>(
        &mut self,
        relation: Relation,
        x: &'a str,
        y: &'a str,
        by: i64,
    ) -> Result<(), Fault<'a>>
        ensures ok { OnOk result (Relates relation x.now y.now by self.old self.new) }
        ensures no_fault { OnOk result (fault_of (relate_of relation x.now y.now by) self.old ≡ None) }
        ensures fault { IfErr result (λ fault. told_of fault ≡ fault_of (relate_of relation x.now y.now by) self.old) }
        ensures refused { IfErr result (λ fault. IsUndone (told_of fault) self.old self.new) }
    {
        let first = self.known(x)?;
        let second = self.known(y)?;
        if first == second {
            return Err(Fault::Repeated(x));
        }
        let rule = rule_of(relation, first, second, by);
        self.require(&[rule])?;
        Ok(())
    }

    /// Requires that no two variables have the same number.
    fn different<'a>(&mut self, names: &'a str) -> Result<(), Fault<'a>>
        ensures ok { OnOk result (Requires (pairs_of (indexes_in self.old.names (words_between names.now))) self.old self.new) }
        ensures no_fault { OnOk result (fault_of (different_of (words_between names.now)) self.old ≡ None) }
        ensures fault { IfErr result (λ fault. told_of fault ≡ fault_of (different_of (words_between names.now)) self.old) }
        ensures refused { IfErr result (λ fault. IsUndone (told_of fault) self.old self.new) }
    {
        if let Some(name) = self.first_unknown(names) {
            return Err(Fault::Unknown(name));
        }
        if let Some(name) = first_repeated(names) {
            return Err(Fault::Repeated(name));
        }
        let variables = self.known_among(names)?;
        let rules = each_pair(self.alloc, &variables)?;
        self.require(&rules)?;
        Ok(())
    }

    /// The first of the names that no variable has.
    fn first_unknown<'a>(&self, names: &'a str) -> Option<&'a str>
        ensures { option_map (λ name. name.now) result ≡ unknown_name self.now.names (words_between names.entry.now) }
    {
        let mut rest = names;
        while let Some((name, after)) = next_word(rest) {
            if self.index_of(name).is_none() {
                return Some(name);
            }
            rest = after;
        }
        None
    }

    /// The variables that have these names, in order.
    fn known_among(&self, names: &str) -> Result<Vec<usize>, AllocError>
        ensures { IfOk result (λ variables. variables.items ≡ indexes_in self.now.names (words_between names.entry.now)) }
    {
        let mut variables = Vec::new(self.alloc);
        let mut rest = names;
        while let Some((name, after)) = next_word(rest) {
            if let Some(variable) = self.index_of(name) {
                variables.push(variable)?;
            }
            rest = after;
        }
        Ok(variables)
    }

    /// Returns the variable of a name.
    ///
    /// # Errors
    ///
    /// `Unknown` if no variable has it.
    pub fn known<'a>(&self, name: &'a str) -> Result<usize, Fault<'a>>
        ensures ok { IfOk result (λ i. index_in self.now.names name.now ≡ Some i) }
        ensures present { IfOk result (λ i. i < length self.now.domains) }
        ensures none { IfErr result (λ fault. index_in self.now.names name.now ≡ None) }
        ensures fault { IfErr result (λ fault. told_of fault ≡ Some (unknown name.now)) }
    {
        self.index_of(name).ok_or(Fault::Unknown(name))
    }

    /// The index of the variable that has this name, and so of its domain.
    fn index_of(&self, name: &str) -> Option<usize>
        ensures index { result ≡ index_in self.now.names name.now }
        ensures present { IfSome result (λ i. i < length self.now.domains) }
    {
        self.names.get_index_of(name)
    }

    /// Cuts a domain, and narrows all. If allocation fails, all is taken back.
    fn restrict(&mut self, variable: usize, allowed: &IntervalSet<i64>) -> Result<(), AllocError>
        ensures cut { OnOk result ((cut : List (List (ℤ × ℤ))) × IsCutAt variable (Covers allowed.now) (set_at self.old.domains) (set_at cut)
            × (flags : List Bool) × KeepsSettled self.old.rules (set_at self.old.domains) (set_at cut) self.old.settled flags
            × Settles self.new.limit self.new.rules cut flags self.new.domains self.new.settled self.new.progress) }
        ensures others { (self.new.names ≡ self.old.names) × (self.new.rules ≡ self.old.rules) × (self.new.limit ≡ self.old.limit) }
        ensures err { OnErr result (IsTakenBack self.old self.new) }
    {
        let progress = restrict_atomically(&mut self.network, variable, allowed, self.limit)?;
        self.progress = progress;
        Ok(())
    }

    /// Adds rules, and narrows the domains. If allocation fails, all is taken back.
    fn require(&mut self, rules: &[Rule]) -> Result<(), AllocError>
        requires { All AreDifferent rules.now }
        ensures required { OnOk result (Requires rules.now self.old self.new) }
        ensures err { OnErr result (IsTakenBack self.old self.new) }
    {
        let progress = require_atomically(&mut self.network, rules, self.limit)?;
        self.progress = progress;
        Ok(())
    }

    /// Narrows the domains by the rules, within the limit. If allocation fails, all is
    /// taken back.
    fn settle(&mut self) -> Result<(), AllocError>
        ensures settled { OnOk result (Settles self.new.limit self.new.rules self.old.domains self.old.settled self.new.domains self.new.settled self.new.progress) }
        ensures others { (self.new.names ≡ self.old.names) × (self.new.rules ≡ self.old.rules) × (self.new.limit ≡ self.old.limit) }
        ensures err { OnErr result (IsTakenBack self.old self.new) }
    {
        let progress = settle_atomically(&mut self.network, self.limit)?;
        self.progress = progress;
        Ok(())
    }
}

/// The rule that relates two variables so.
fn rule_of(relation: Relation, x: usize, y: usize, by: i64) -> Rule
    ensures { result ≡ related relation x y by }
{
    match relation {
        Relation::Shifted => Rule::Shifted { x, y, by },
        Relation::AtMost => Rule::AtMost { x, y, by },
        Relation::Differs => Rule::Differs { x, y, by },
    }
}

/// The union of the pairs, in none of which the first bound is above the second.
fn set_of<'a>(alloc: Global, pairs: &[(i64, i64)]) -> Result<IntervalSet<i64>, Fault<'a>>
    ensures union { IfOk result (λ L. IsRunsOf L (Covers pairs.now)) }
    ensures no_fault { OnOk result (pairs_fault pairs.now ≡ None) }
    ensures fault { IfErr result (λ fault. told_of fault ≡ pairs_fault pairs.now) }
{
    if !pairs
        .iter()
        .all(|&(lower, upper)| Interval::in_range(lower, upper))
    {
        return Err(Fault::Range);
    }
    if let Some(pair) = first_crossed(pairs) {
        return Err(Fault::Crossed(pair.0, pair.1));
    }
    Ok(pairs.to_interval_set(alloc)?)
}

/// The first pair whose first bound is above the second.
#[tactic(auto, using(crate::proofs::Ranges::crossed_first, crate::proofs::Ranges::crossed_later))]
fn first_crossed(pairs: &[(i64, i64)]) -> Option<(i64, i64)>
    ensures { result ≡ find is_crossed pairs.entry.now }
{
    let mut rest = pairs;
    while let [pair, others @ ..] = rest {
        if pair.0 > pair.1 {
            return Some(*pair);
        }
        rest = others;
    }
    None
}
