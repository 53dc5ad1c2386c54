//! The commands that write a register. Each completes the new set before it replaces the old one,
//! so the register may be an operand too, and is unchanged if the command is refused.
ghost use Rattle.std.specs.Prelude.{◌≡◌, ◌↔◌, ◌<◌, All, length, slice_set, IsTrue, IfOk, OnErr};
ghost use Rattle.ivl_images.specs.Sweeps.{ExactResultsBy, ResultsBy};
ghost use Rattle.ivl_laws.specs.Sets.{IsBetween, IsInRange, IsSubset, Only};
ghost use Rattle.ivl_laws.specs.Runs.{Covers, IsRunsOf};
ghost use Rattle.ivl_calculator.specs.Actions.{pairs, complement, plus, minus, times, make, done, cut, refused};
ghost use Rattle.ivl_calculator.specs.declared.reply.Refusal.TheVariants.{Memory};
ghost use Rattle.ivl_calculator.specs.Operations.{MergedBy, PartBy, of_part, of_two, of_value};
ghost use Rattle.ivl_calculator.specs.Step.{MayStep};
ghost use Rattle.ivl_calculator.specs.View.{answer_of, number_pairs};

use super::Calc;
use crate::reply::{Refusal, Reply};
use intervallum::interval::Interval;
use intervallum::interval_set::{IntervalSet, ToIntervalSet};
use intervallum::ops::{
    Complement, Difference, Fits, Intersection, ShrinkLeft, ShrinkRight, StrictShrinkLeft,
    StrictShrinkRight, SymmetricDifference, Union,
};
use intervallum::sweep::Op;
use intervallum::width::Width;
use ivl_within::within::{add_within, sub_within};
use std::alloc::AllocError;

/// What is made of two sets by one walk over both.
#[derive(Clone, Copy)]
pub(super) enum Merge {
    Union,
    Intersection,
    Difference,
    SymmetricDifference,
}

/// Which members of a set are kept, by a value.
#[derive(Clone, Copy)]
pub(super) enum Part {
    AtLeast,
    AtMost,
    Above,
    Below,
}

impl<B: Width> Calc<B> {
    pub(super) fn set_at(&mut self, target: usize, list: &[(B, B)]) -> Reply<B>
        ensures { MayStep B.whole self.old (make target (pairs (number_pairs B.value list.now))) (answer_of B.value B.Output.size result) self.new }
    {
        if !self.has_registers([target]) {
            return Reply::Refused(Refusal::Register);
        }
        if !are_in_range(list) {
            return Reply::Refused(Refusal::Range);
        }
        let made = list.to_interval_set(self.alloc);
        self.put(target, made)
    }

    pub(super) fn merge_at(
        &mut self,
        target: usize,
        left: usize,
        right: usize,
        merge: Merge,
    ) -> Reply<B>
        ensures { MayStep B.whole self.old (make target (of_two merge left right)) (answer_of B.value B.Output.size result) self.new }
    {
        if !self.has_registers([target, left, right]) {
            return Reply::Refused(Refusal::Register);
        }
        let made = merged(&self.registers[left], &self.registers[right], merge);
        self.put(target, made)
    }

    pub(super) fn complement_at(&mut self, target: usize, source: usize) -> Reply<B>
        ensures { MayStep B.whole self.old (make target (complement source)) (answer_of B.value B.Output.size result) self.new }
    {
        if !self.has_registers([target, source]) {
            return Reply::Refused(Refusal::Register);
        }
        let made = self.registers[source].complement();
        self.put(target, made)
    }

    pub(super) fn part_at(&mut self, target: usize, source: usize, value: B, part: Part) -> Reply<B>
        ensures { MayStep B.whole self.old (make target (of_part part source (B.value value))) (answer_of B.value B.Output.size result) self.new }
    {
        if !self.has_registers([target, source]) {
            return Reply::Refused(Refusal::Register);
        }
        let made = part_of(&self.registers[source], value, part);
        self.put(target, made)
    }

    pub(super) fn plus_at(&mut self, target: usize, left: usize, right: usize) -> Reply<B>
        ensures { MayStep B.whole self.old (make target (plus left right)) (answer_of B.value B.Output.size result) self.new }
    {
        if !self.has_registers([target, left, right]) {
            return Reply::Refused(Refusal::Register);
        }
        let made = add_within(&self.registers[left], &self.registers[right]);
        self.put_cut(target, made)
    }

    pub(super) fn minus_at(&mut self, target: usize, left: usize, right: usize) -> Reply<B>
        ensures { MayStep B.whole self.old (make target (minus left right)) (answer_of B.value B.Output.size result) self.new }
    {
        if !self.has_registers([target, left, right]) {
            return Reply::Refused(Refusal::Register);
        }
        let made = sub_within(&self.registers[left], &self.registers[right]);
        self.put_cut(target, made)
    }

    pub(super) fn times_at(&mut self, target: usize, left: usize, right: usize) -> Reply<B>
        ensures { MayStep B.whole self.old (make target (times left right)) (answer_of B.value B.Output.size result) self.new }
    {
        if !self.has_registers([target, left, right]) {
            return Reply::Refused(Refusal::Register);
        }
        let (first, second) = (&self.registers[left], &self.registers[right]);
        if !first.fits_mul(second) {
            return Reply::Refused(Refusal::Fit);
        }
        let made = first * second;
        self.put(target, made)
    }

    pub(super) fn value_at(&mut self, target: usize, source: usize, value: B, op: Op) -> Reply<B>
        ensures { MayStep B.whole self.old (make target (of_value op source (B.value value))) (answer_of B.value B.Output.size result) self.new }
    {
        if !self.has_registers([target, source]) {
            return Reply::Refused(Refusal::Register);
        }
        let set = &self.registers[source];
        if !fits(set, value, op) {
            return Reply::Refused(Refusal::Fit);
        }
        let made = combined(set, value, op);
        self.put(target, made)
    }

    /// Puts a set that was made into a register.
    fn put(&mut self, target: usize, made: Result<IntervalSet<B>, AllocError>) -> Reply<B>
        requires { target < length self.old }
        ensures put { IfOk made (λ L. (answer_of B.value B.Output.size result ≡ done) × (self.new ≡ slice_set self.old target L)) }
        ensures lacked { OnErr made ((answer_of B.value B.Output.size result ≡ refused Memory) × (self.new ≡ self.old)) }
    {
        match made {
            Ok(set) => {
                self.registers[target] = set;
                Reply::Done
            }
            Err(_) => Reply::Refused(Refusal::Memory),
        }
    }

    /// Puts a set that was made into a register, and replies whether it was cut.
    fn put_cut(
        &mut self,
        target: usize,
        made: Result<(IntervalSet<B>, bool), AllocError>,
    ) -> Reply<B>
        requires { target < length self.old }
        ensures put { IfOk made (λ r. (answer_of B.value B.Output.size result ≡ cut r.1) × (self.new ≡ slice_set self.old target r.0)) }
        ensures lacked { OnErr made ((answer_of B.value B.Output.size result ≡ refused Memory) × (self.new ≡ self.old)) }
    {
        match made {
            Ok((set, is_cut)) => {
                self.registers[target] = set;
                Reply::Cut(is_cut)
            }
            Err(_) => Reply::Refused(Refusal::Memory),
        }
    }
}

/// Whether each pair may be the bounds of an interval.
fn are_in_range<B: Width>(list: &[(B, B)]) -> bool
    ensures { IsTrue result ↔ All (IsInRange B.whole) (number_pairs B.value list.now) }
{
    list.iter().all(|&(lb, ub)| Interval::in_range(lb, ub))
}

fn merged<B: Width>(
    a: &IntervalSet<B>,
    b: &IntervalSet<B>,
    merge: Merge,
) -> Result<IntervalSet<B>, AllocError>
    ensures { IfOk result (λ L. IsRunsOf L (MergedBy merge (Covers a.now) (Covers b.now))) }
{
    match merge {
        Merge::Union => a.union(b),
        Merge::Intersection => a.intersection(b),
        Merge::Difference => a.difference(b),
        Merge::SymmetricDifference => a.symmetric_difference(b),
    }
}

fn part_of<B: Width>(
    set: &IntervalSet<B>,
    value: B,
    part: Part,
) -> Result<IntervalSet<B>, AllocError>
    ensures { IfOk result (λ L. IsRunsOf L (PartBy part (B.value value) (Covers set.now))) }
{
    match part {
        Part::AtLeast => set.shrink_left(value),
        Part::AtMost => set.shrink_right(value),
        Part::Above => set.strict_shrink_left(value),
        Part::Below => set.strict_shrink_right(value),
    }
}

/// Whether the results of a set and a value are in the range.
fn fits<B: Width>(set: &IntervalSet<B>, value: B, op: Op) -> bool
    ensures { IsTrue result ↔ IsSubset (ExactResultsBy op (Covers set.now) (Only (B.value value))) (IsBetween B.whole) }
{
    match op {
        Op::Sum => set.fits_add(&value),
        Op::Difference => set.fits_sub(&value),
        Op::Product => set.fits_mul(&value),
    }
}

/// The results of a set and a value.
fn combined<B: Width>(set: &IntervalSet<B>, value: B, op: Op) -> Result<IntervalSet<B>, AllocError>
    requires { IsSubset (ExactResultsBy op (Covers set.now) (Only (B.value value))) (IsBetween B.whole) }
    ensures { IfOk result (λ L. IsRunsOf L (ResultsBy op (Covers set.now) (Only (B.value value)))) }
{
    match op {
        Op::Sum => set + value,
        Op::Difference => set - value,
        Op::Product => set * value,
    }
}
