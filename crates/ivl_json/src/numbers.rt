//! Bounds as JSON numbers.
ghost use Rattle.std.specs.Prelude.{◌≡◌, Ok, Err, IfOk, IfErr, option_and_then};
ghost use Rattle.serde_json.specs.Find.{as_integer, as_number};
ghost use Rattle.serde_json.specs.View.{view};
ghost use Rattle.ivl_laws.specs.Sets.{IsBetween};
ghost use Rattle.ivl_json.specs.Reading.{bound_read};
ghost use Rattle.ivl_json.specs.Writing.{bound_json};

use crate::faults::ItemFault;
use intervallum::width::Width;
use serde_json::{Number, Value};

/// The whole number of 64 bits that a value holds, if any.
fn whole_number(value: &Value) -> Option<i128>
    ensures { result ≡ option_and_then as_integer (as_number (view value.now)) }
{
    value.as_number()?.as_i128()
}

/// Reads a bound.
pub(crate) fn bound_from<B: Width>(value: &Value) -> Result<B, ItemFault>
    ensures read { IfOk result (λ x. bound_read B.whole (view value.now) ≡ Ok (B.value x)) }
    ensures in_range { IfOk result (λ x. IsBetween B.whole (B.value x)) }
    ensures fault { IfErr result (λ f. bound_read B.whole (view value.now) ≡ Err f) }
{
    let number = whole_number(value).ok_or(ItemFault::Number)?;
    B::from_number(number).ok_or(ItemFault::Range)
}

/// Writes a bound.
pub(crate) fn bound_value<B: Width>(bound: B) -> Value
    requires { IsBetween B.whole (B.value bound) }
    ensures { view result ≡ bound_json (B.value bound) }
{
    Value::from(Number::from_i128(bound.number()).unwrap())
}
