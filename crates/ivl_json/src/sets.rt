//! The JSON form of a set.
ghost use Rattle.std.specs.Prelude.{◌≡◌, ◌⊎◌, Ok, Err, IfOk, IfErr};
ghost use Rattle.serde_json.specs.View.{view, items_view};
ghost use Rattle.ivl_laws.specs.Runs.{Covers, IsRunListIn};
ghost use Rattle.ivl_json.specs.SetReading.{SetReads, items_read, set_read};
ghost use Rattle.ivl_json.specs.Writing.{set_json};
ghost use Rattle.ivl_json.specs.OneWay.{set_refused_alone, sets_read_alike};
ghost use Rattle.ivl_json.specs.declared.faults.JsonFault.TheVariants.{Memory};

use crate::faults::JsonFault;
use crate::form::JsonForm;
use crate::intervals::{interval_from, interval_value};
use intervallum::sweep::coalesce;
use intervallum::width::Width;
use intervallum::{Interval, IntervalSet};
use serde_json::Value;
use std::alloc::{AllocError, Global};

impl<B: Width> JsonForm for IntervalSet<B> {
    ghost reads = { λ d L. IsRunListIn B.whole L × SetReads B.whole d (Covers L) };

    ghost faults = { λ d f. (f ≡ Memory) ⊎ (set_read B.whole d ≡ Err f) };

    ghost json = { set_json };

    ghost same = { λ L M. L ≡ M };

    ghost one_way = { sets_read_alike B.whole };

    ghost not_refused = { set_refused_alone B.whole };

    /// Returns `null` if the set is empty, and else the array of the runs, ascending. `O(n)`, with
    /// one allocation for the array and one for each run. Fails only if allocation fails.
    ///
    /// ```
    /// let set: IntervalSet<i32> = [(8, 9), (4, 4)].to_interval_set(alloc)?;
    /// let text = set.to_value(alloc)?.to_string(alloc)?;
    /// assert_eq!(rt; text.as_str(), "[[4,4],[8,9]]");
    /// ```
    fn to_value(&self, alloc: Global) -> Result<Value, AllocError> {
        runs_value(alloc, self.iter().as_slice())
    }

    /// Reads `null` or an array of intervals in any order. `O(k log k)` for `k` items. Reserves `k`
    /// intervals for the list, and as many for the set unless the sorted list is its runs.
    ///
    /// ```
    /// let value = Value::from_str(alloc, "[[1, 2], [3]]")?;
    /// let read = IntervalSet::<i32>::from_value(alloc, &value);
    /// assert_eq!(rt; read.err(), Some(JsonFault::At(1, ItemFault::Length(1))));
    /// ```
    fn from_value(alloc: Global, value: &Value) -> Result<IntervalSet<B>, JsonFault> {
        if value.is_null() {
            return Ok(IntervalSet::empty(alloc));
        }
        let items = value.as_array().ok_or(JsonFault::Shape)?;
        Ok(coalesce(alloc, intervals_from(alloc, items)?)?)
    }
}

/// Writes the runs of a set.
fn runs_value<B: Width>(alloc: Global, runs: &[Interval<B>]) -> Result<Value, AllocError>
    ensures { IfOk result (λ v. view v ≡ set_json runs.now) }
{
    if runs.is_empty() {
        return Ok(Value::from(()));
    }
    let mut items = Vec::with_capacity(alloc, runs.len())?;
    for run in runs {
        items.push(interval_value(alloc, *run)?)?;
    }
    Ok(Value::from(items))
}

/// Reads each item as an interval.
fn intervals_from<B: Width>(alloc: Global, items: &[Value]) -> Result<Vec<Interval<B>>, JsonFault>
    ensures read { IfOk result (λ list. items_read B.whole 0 (items_view items.now) ≡ Ok list.items) }
    ensures fault { IfErr result (λ f. (f ≡ Memory) ⊎ (items_read B.whole 0 (items_view items.now) ≡ Err f)) }
{
    let mut list = Vec::with_capacity(alloc, items.len())?;
    for (place, item) in items.iter().enumerate() {
        let run = interval_from(item).map_err(|fault| JsonFault::At(place, fault))?;
        list.push(run).map_err(|_| JsonFault::Memory)?;
    }
    Ok(list)
}
