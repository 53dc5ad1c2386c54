//! The JSON form of an interval.
ghost use Rattle.std.specs.Prelude.{◌≡◌, Ok, Err, IfOk, IfErr};
ghost use Rattle.serde_json.specs.View.{view, items_view};
ghost use Rattle.ivl_laws.specs.Sets.{IsBetween, SameMembers};
ghost use Rattle.ivl_json.specs.Reading.{Reads, elements_read, interval_read};
ghost use Rattle.ivl_json.specs.Writing.{interval_json};
ghost use Rattle.ivl_json.specs.Faults.{json_fault};
ghost use Rattle.ivl_json.specs.OneWay.{interval_refused_alone, intervals_read_alike};
ghost use Rattle.ivl_json.specs.declared.faults.ItemFault.{ItemFault};

use crate::faults::{ItemFault, JsonFault};
use crate::form::JsonForm;
use crate::numbers::{bound_from, bound_value};
use intervallum::Interval;
use intervallum::ops::{Bounded, IsEmpty, Range};
use intervallum::width::Width;
use serde_json::Value;
use std::alloc::{AllocError, Global};

impl<B: Width> JsonForm for Interval<B> {
    ghost reads = { λ d p. Reads B.whole d (IsBetween p) };

    ghost faults = { λ d f. (k : ItemFault) × (f ≡ json_fault k) × (interval_read B.whole d ≡ Err k) };

    ghost json = { interval_json };

    ghost same = { λ p q. SameMembers (IsBetween p) (IsBetween q) };

    ghost one_way = { intervals_read_alike B.whole };

    ghost not_refused = { interval_refused_alone B.whole };

    /// Returns `null` if the interval is empty, and else the array of the two bounds. `O(1)`, with
    /// at most one allocation. Fails only if allocation fails.
    ///
    /// ```
    /// let none = Interval::<i32>::empty().to_value(alloc)?;
    /// assert_eq!(rt; none.to_string(alloc)?.as_str(), "null");
    /// ```
    fn to_value(&self, alloc: Global) -> Result<Value, AllocError> {
        self.in_whole();
        interval_value(alloc, *self)
    }

    /// Reads `null` or an array of two bounds. `O(1)`, does not allocate, so the fault is never
    /// [`JsonFault::Memory`].
    ///
    /// ```
    /// let value = Value::from_str(alloc, "[10, 20, 30]")?;
    /// let read = Interval::<i32>::from_value(alloc, &value);
    /// assert_eq!(rt; read, Err(JsonFault::Length(3)));
    /// ```
    fn from_value(_alloc: Global, value: &Value) -> Result<Interval<B>, JsonFault> {
        Ok(interval_from(value)?)
    }
}

/// Writes an interval.
pub(crate) fn interval_value<B: Width>(
    alloc: Global,
    interval: Interval<B>,
) -> Result<Value, AllocError>
    ensures { IfOk result (λ v. view v ≡ interval_json interval) }
{
    if interval.is_empty() {
        return Ok(Value::from(()));
    }
    let lower = bound_value(interval.lower());
    let upper = bound_value(interval.upper());
    Ok(Value::from(vec![in alloc; lower, upper]?))
}

/// Reads an interval, with the bounds as they stand, even if they cross.
pub(crate) fn interval_from<B: Width>(value: &Value) -> Result<Interval<B>, ItemFault>
    ensures read { IfOk result (λ p. interval_read B.whole (view value.now) ≡ Ok p) }
    ensures fault { IfErr result (λ f. interval_read B.whole (view value.now) ≡ Err f) }
{
    if value.is_null() {
        return Ok(Interval::new(B::one(), B::zero()));
    }
    let elements = value.as_array().ok_or(ItemFault::Shape)?;
    pair_from(elements)
}

/// Reads the two elements of an interval's array.
fn pair_from<B: Width>(elements: &[Value]) -> Result<Interval<B>, ItemFault>
    ensures read { IfOk result (λ p. elements_read B.whole (items_view elements.now) ≡ Ok p) }
    ensures fault { IfErr result (λ f. elements_read B.whole (items_view elements.now) ≡ Err f) }
{
    let [first, second] = elements else {
        return Err(ItemFault::Length(elements.len()));
    };
    let lower = bound_from(first)?;
    let upper = bound_from(second)?;
    Ok(Interval::new(lower, upper))
}
