//! The commands that query registers. None of them writes a register, and only `Show` allocates.
ghost use Rattle.ivl_calculator.specs.Actions.{has, size, count, low, high, same, subset, meets, show, ask};
ghost use Rattle.ivl_calculator.specs.Step.{MayStep};
ghost use Rattle.ivl_calculator.specs.View.{answer_of};

use super::Calc;
use crate::reply::{Refusal, Reply};
use intervallum::ops::{Cardinality, Contains, Overlap, Subset};
use intervallum::width::Width;

impl<B: Width> Calc<B> {
    pub(super) fn has_at(&self, register: usize, item: B) -> Reply<B>
        ensures { MayStep B.whole self.now (ask (has register (B.value item))) (answer_of B.value B.Output.size result) self.now }
    {
        match self.get(register) {
            Some(set) => Reply::Flag(set.contains(&item)),
            None => Reply::Refused(Refusal::Register),
        }
    }

    pub(super) fn size_at(&self, register: usize) -> Reply<B>
        ensures { MayStep B.whole self.now (ask (size register)) (answer_of B.value B.Output.size result) self.now }
    {
        match self.get(register) {
            Some(set) => Reply::Size(set.size()),
            None => Reply::Refused(Refusal::Register),
        }
    }

    pub(super) fn count_at(&self, register: usize) -> Reply<B>
        ensures { MayStep B.whole self.now (ask (count register)) (answer_of B.value B.Output.size result) self.now }
    {
        match self.get(register) {
            Some(set) => Reply::Count(set.interval_count()),
            None => Reply::Refused(Refusal::Register),
        }
    }

    pub(super) fn low_at(&self, register: usize) -> Reply<B>
        ensures { MayStep B.whole self.now (ask (low register)) (answer_of B.value B.Output.size result) self.now }
    {
        match self.get(register) {
            Some(set) => Reply::Value(set.first()),
            None => Reply::Refused(Refusal::Register),
        }
    }

    pub(super) fn high_at(&self, register: usize) -> Reply<B>
        ensures { MayStep B.whole self.now (ask (high register)) (answer_of B.value B.Output.size result) self.now }
    {
        match self.get(register) {
            Some(set) => Reply::Value(set.last()),
            None => Reply::Refused(Refusal::Register),
        }
    }

    pub(super) fn same_at(&self, left: usize, right: usize) -> Reply<B>
        ensures { MayStep B.whole self.now (ask (same left right)) (answer_of B.value B.Output.size result) self.now }
    {
        match (self.get(left), self.get(right)) {
            (Some(first), Some(second)) => Reply::Flag(*first == *second),
            _ => Reply::Refused(Refusal::Register),
        }
    }

    pub(super) fn subset_at(&self, left: usize, right: usize) -> Reply<B>
        ensures { MayStep B.whole self.now (ask (subset left right)) (answer_of B.value B.Output.size result) self.now }
    {
        match (self.get(left), self.get(right)) {
            (Some(first), Some(second)) => Reply::Flag(first.is_subset(second)),
            _ => Reply::Refused(Refusal::Register),
        }
    }

    pub(super) fn meets_at(&self, left: usize, right: usize) -> Reply<B>
        ensures { MayStep B.whole self.now (ask (meets left right)) (answer_of B.value B.Output.size result) self.now }
    {
        match (self.get(left), self.get(right)) {
            (Some(first), Some(second)) => Reply::Flag(first.overlap(second)),
            _ => Reply::Refused(Refusal::Register),
        }
    }

    pub(super) fn show_at(&self, register: usize) -> Reply<B>
        ensures { MayStep B.whole self.now (ask (show register)) (answer_of B.value B.Output.size result) self.now }
    {
        let Some(set) = self.get(register) else {
            return Reply::Refused(Refusal::Register);
        };
        match Vec::from_slice(self.alloc, set.iter().as_slice()) {
            Ok(runs) => Reply::Runs(runs),
            Err(_) => Reply::Refused(Refusal::Memory),
        }
    }
}
