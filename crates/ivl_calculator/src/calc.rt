//! The registers, and what each command does to them.
ghost use Rattle.std.specs.Prelude.{◌≡◌, ◌↔◌, ◌<◌, ℤ, List, [], All, replicate, map, length, slice_index_or, IsSome, IsTrue, IfOk, IfSome, OnErr};
ghost use Rattle.ivl_calculator.specs.Step.{MayStep, Run};
ghost use Rattle.ivl_calculator.specs.View.{action_of, answer_of};

mod queries;
mod writes;

use crate::command::Command;
use crate::reply::Reply;
use intervallum::interval_set::IntervalSet;
use intervallum::sweep::Op;
use intervallum::width::Width;
use std::alloc::{AllocError, Global};
use std::marker::Model;
use writes::{Merge, Part};

/// A fixed number of registers that each hold a set, for commands to read and write.
///
/// Registers are named by their indexes from 0. A contract sees the list of their run lists.
///
/// ```
/// let mut calc: Calc<i64> = Calc::new(alloc, 2)?;
/// assert_eq!(rt; calc.registers(), 2);
/// assert!(rt; calc.get(2).is_none());
/// ```
#[derive(Drop)]
pub struct Calc<B: Width> {
    alloc: Global,
    registers: Vec<IntervalSet<B>>,
}

impl<B: Width> Model for Calc<B> {
    ghost Value = { List (List (ℤ × ℤ)) };

    ghost view = { λ c. c.registers.items };
}

impl<B: Width> Calc<B> {
    /// Creates a calculator with this number of registers, which may be 0. All are empty.
    /// `O(registers)`; allocates the list of the registers.
    ///
    /// # Errors
    ///
    /// Fails only if allocation fails.
    pub fn new(alloc: Global, registers: usize) -> Result<Calc<B>, AllocError>
        // On success, each of so many registers has the empty set.
        ensures { IfOk result (λ c. c ≡ replicate registers []) }
    {
        let mut sets = Vec::with_capacity(alloc, registers)?;
        for _ in 0..registers {
            sets.push(IntervalSet::empty(alloc))?;
        }
        Ok(Calc {
            alloc,
            registers: sets,
        })
    }

    /// Returns the number of registers, which never changes. `O(1)`, does not allocate.
    pub fn registers(&self) -> usize
        // The result is the number of registers.
        ensures { result ≡ length self.now }
    {
        self.registers.len()
    }

    /// Returns the set in a register, or `None` if there is no such register. `O(1)`, does not
    /// allocate.
    pub fn get(&self, register: usize) -> Option<&IntervalSet<B>>
        // The result is the set of the register, or `None` exactly when there is no such register.
        ensures known { IsSome result ↔ (register < length self.now) }
        ensures value { IfSome result (λ set. set.now ≡ slice_index_or self.now register []) }
    {
        self.registers.get(register)
    }

    /// Carries out one command. [`Refusal`](crate::Refusal) lists the reasons for a refusal in
    /// their order; a refused command leaves all registers unchanged.
    ///
    /// `n` and `m` are the numbers of runs of the registers that are read. A command that writes a
    /// register makes the new set first, and then replaces the old one.
    ///
    /// | Command | Cost | Memory |
    /// |---|---|---|
    /// | `Set` of `k` pairs | `O(k log k)` | at most twice `k` runs |
    /// | `Union`, `Inter`, `Diff`, `Sym` | `O(n + m)` | about `n + m` runs at most |
    /// | `Comp` | `O(n)` | `n + 1` runs |
    /// | `Left`, `Right`, `StrictLeft`, `StrictRight`, which keep `k` runs | `O(log n + k)` | `k` runs |
    /// | `Plus`, `Minus`, `Times` | `O(n m log (n m))` | at most twice `n * m` runs |
    /// | `PlusValue`, `MinusValue`, `TimesValue` | `O(n)` | `n` runs |
    /// | `Has` | `O(log n)` | none |
    /// | `Size`, `Count`, `Low`, `High` | `O(1)` | none |
    /// | `Same` | `O(n)`, `O(1)` if the sizes differ | none |
    /// | `Sub` | `O(n log (m / n + 2))` | none |
    /// | `Meets` | `O(n + m)` | none |
    /// | `Show` | `O(n)` | a copy of the runs |
    ///
    /// ```
    /// let mut calc: Calc<i64> = Calc::new(alloc, 4)?;
    /// calc.apply(&Command::Set(2, vec![in alloc; (1, 2)]?));
    /// assert_eq!(rt; calc.apply(&Command::Plus(1, 2, 2)), Reply::Cut(false));
    /// ```
    pub fn apply(&mut self, command: &Command<B>) -> Reply<B>
        // Over plain sets of numbers, the command may get this reply and leave these registers.
        ensures { MayStep B.whole self.old (action_of B.value command.now) (answer_of B.value B.Output.size result) self.new }
    {
        match command {
            Command::Set(r, list) => self.set_at(*r, list),
            Command::Union(r, a, b) => self.merge_at(*r, *a, *b, Merge::Union),
            Command::Inter(r, a, b) => self.merge_at(*r, *a, *b, Merge::Intersection),
            Command::Diff(r, a, b) => self.merge_at(*r, *a, *b, Merge::Difference),
            Command::Sym(r, a, b) => self.merge_at(*r, *a, *b, Merge::SymmetricDifference),
            Command::Comp(r, a) => self.complement_at(*r, *a),
            Command::Left(r, a, v) => self.part_at(*r, *a, *v, Part::AtLeast),
            Command::Right(r, a, v) => self.part_at(*r, *a, *v, Part::AtMost),
            Command::StrictLeft(r, a, v) => self.part_at(*r, *a, *v, Part::Above),
            Command::StrictRight(r, a, v) => self.part_at(*r, *a, *v, Part::Below),
            Command::Plus(r, a, b) => self.plus_at(*r, *a, *b),
            Command::Minus(r, a, b) => self.minus_at(*r, *a, *b),
            Command::Times(r, a, b) => self.times_at(*r, *a, *b),
            Command::PlusValue(r, a, v) => self.value_at(*r, *a, *v, Op::Sum),
            Command::MinusValue(r, a, v) => self.value_at(*r, *a, *v, Op::Difference),
            Command::TimesValue(r, a, v) => self.value_at(*r, *a, *v, Op::Product),
            Command::Has(a, v) => self.has_at(*a, *v),
            Command::Size(a) => self.size_at(*a),
            Command::Count(a) => self.count_at(*a),
            Command::Low(a) => self.low_at(*a),
            Command::High(a) => self.high_at(*a),
            Command::Same(a, b) => self.same_at(*a, *b),
            Command::Sub(a, b) => self.subset_at(*a, *b),
            Command::Meets(a, b) => self.meets_at(*a, *b),
            Command::Show(a) => self.show_at(*a),
        }
    }

    /// Carries out the commands one by one, and returns their replies in order. A command that is
    /// refused, even because an allocation fails, leaves the registers unchanged, and the next one
    /// runs.
    ///
    /// Costs what the commands cost. Reserves one reply per command.
    ///
    /// # Errors
    ///
    /// Fails only if room for the replies cannot be allocated. It is reserved first: after an error
    /// no command has run.
    ///
    /// ```
    /// let mut calc: Calc<i64> = Calc::new(alloc, 2)?;
    /// let set = Command::Set(0, vec![in alloc; (5, 6), (1, 2)]?);
    /// let replies = calc.run(&vec![in alloc; set, Command::Size(0)]?)?;
    /// assert_eq!(rt; replies, vec![in alloc; Reply::Done, Reply::Size(4)]?);
    /// ```
    pub fn run(&mut self, commands: &[Command<B>]) -> Result<Vec<Reply<B>>, AllocError>
        // On success, the commands may, one after another, get these replies and leave these registers; on an error the
        // registers are unchanged.
        ensures ran { IfOk result (λ replies. Run B.whole self.old (map (action_of B.value) commands.now)
            (map (answer_of B.value B.Output.size) replies.items) self.new) }
        ensures refused { OnErr result (self.new ≡ self.old) }
    {
        let mut replies = Vec::with_capacity(self.alloc, commands.len())?;
        for command in commands {
            let reply = self.apply(command);
            replies.push(reply)?;
        }
        Ok(replies)
    }

    /// Returns true exactly when each index has a register.
    fn has_registers<const N: usize>(&self, indexes: [usize; N]) -> bool
        ensures { IsTrue result ↔ All (λ r. r < length self.now) indexes.entry }
    {
        let count = self.registers();
        indexes.iter().all(|&index| index < count)
    }
}
