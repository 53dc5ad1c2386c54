//! The values that `i` and `k` may have, the length of the array, and what lines do to them.
ghost use Rattle.std.specs.Prelude.{◌≡◌, []};
ghost use Rattle.ivl_lines.specs.Words.{words_between};
ghost use Rattle.ivl_ranges.specs.Answering.{Checks, Replies, SetsIndex, SetsLength, SetsOffset};

use crate::access::{is_safe, safe_indexes};
use crate::reading::{length_from, set_from};
use crate::reply::{Fault, Reply};
use intervallum::interval_set::IntervalSet;
use intervallum::ops::IsEmpty;
use ivl_lines::next_word;
use std::alloc::Global;
use std::marker::Model;

/// The values that `i` and `k` may have, and the length of the array. A contract sees the lists of
/// the runs of the two sets, and the length.
#[derive(Drop)]
pub struct Access {
    alloc: Global,
    index: IntervalSet<i64>,
    offset: IntervalSet<i64>,
    length: u32,
}

impl Model for Access {
    ghost use Rattle.ivl_ranges.specs.Answering.{State};

    ghost Value = { State };

    ghost view = { λ a. record { index = a.index; offset = a.offset; length = a.length } };
}

impl Access {
    /// Creates an access to an empty array, with no values of `i` and `k`. Does not allocate.
    pub fn new(alloc: Global) -> Access
        // `i` and `k` have no values, and the array is empty.
        ensures { result ≡ record { index = []; offset = []; length = 0 } }
    {
        Access {
            alloc,
            index: IntervalSet::empty(alloc),
            offset: IntervalSet::empty(alloc),
            length: 0,
        }
    }

    /// Carries out a line, given its first word and the text after it. After a fault nothing has
    /// changed.
    ///
    /// # Errors
    ///
    /// See [`Fault`].
    pub fn carry_out(&mut self, name: &str, words: &str) -> Result<Reply, Fault>
        // After `i` or `k` with ranges these are its values, and after `length` with a number this is the length.
        // `check` tells that each `i + k` is an index, or the `i` for which each is. A fault tells why a line is not
        // carried out. What is not named here stays as it is.
        ensures { Replies self.old name.now (words_between words.now) result self.new }
    {
        match name {
            "i" => self.set_index(words),
            "k" => self.set_offset(words),
            "length" => self.set_length(words),
            "check" => self.check(words),
            _ => Err(Fault::Command),
        }
    }

    fn set_index(&mut self, words: &str) -> Result<Reply, Fault>
        ensures { SetsIndex self.old (words_between words.now) result self.new }
    {
        self.index = set_from(self.alloc, words)?;
        Ok(Reply::Done)
    }

    fn set_offset(&mut self, words: &str) -> Result<Reply, Fault>
        ensures { SetsOffset self.old (words_between words.now) result self.new }
    {
        self.offset = set_from(self.alloc, words)?;
        Ok(Reply::Done)
    }

    fn set_length(&mut self, words: &str) -> Result<Reply, Fault>
        ensures { SetsLength self.old (words_between words.now) result self.new }
    {
        let Some(length) = length_from(words) else {
            return Err(Fault::Length);
        };
        self.length = length;
        Ok(Reply::Done)
    }

    fn check(&self, words: &str) -> Result<Reply, Fault>
        ensures { Checks self.now (words_between words.now) result }
    {
        if next_word(words).is_some() {
            return Err(Fault::Check);
        }
        if self.index.is_empty() {
            return Err(Fault::NoIndex);
        }
        if self.offset.is_empty() {
            return Err(Fault::NoOffset);
        }
        if is_safe(&self.index, &self.offset, self.length) {
            return Ok(Reply::Safe);
        }
        Ok(Reply::SafeFor(safe_indexes(&self.index, &self.offset, self.length)?))
    }
}
