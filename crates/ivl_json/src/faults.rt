//! The errors of reading a JSON value.
use std::alloc::AllocError;
use thiserror::Error;

/// Why a JSON value is not an interval.
///
/// ```
/// assert_eq!(rt; format!(in alloc; "{}", ItemFault::Length(3))?.as_str(), "length 3");
/// ```
#[derive(Clone, Copy, Debug, PartialEq, Eq, Error)]
pub enum ItemFault {
    /// The value is neither null nor an array.
    #[error("shape")]
    Shape,
    /// The array does not have two elements, but this many.
    #[error("length {0}")]
    Length(usize),
    /// An element is not a whole number of 64 bits.
    #[error("number")]
    Number,
    /// A bound is not in the range of its type.
    #[error("range")]
    Range,
}

/// Why `from_value` failed.
///
/// ```
/// let fault = JsonFault::At(2, ItemFault::Range);
/// assert_eq!(rt; format!(in alloc; "{fault}")?.as_str(), "item 2: range");
/// ```
#[derive(Clone, Copy, Debug, PartialEq, Eq, Error)]
pub enum JsonFault {
    /// The value is neither null nor an array.
    #[error("shape")]
    Shape,
    /// The array of an interval does not have two elements, but this many.
    #[error("length {0}")]
    Length(usize),
    /// An element of an interval's array is not a whole number of 64 bits.
    #[error("number")]
    Number,
    /// A bound of an interval is not in the range of its type.
    #[error("range")]
    Range,
    /// An allocation failed. Only a set's `from_value` allocates.
    #[error("memory")]
    Memory,
    /// The item of a set at this index is the first that is not an interval.
    #[error("item {0}: {1}")]
    At(usize, ItemFault),
}

impl From<ItemFault> for JsonFault {
    ghost use Rattle.std.specs.Prelude.{◌≡◌};
    ghost use Rattle.ivl_json.specs.Faults.{json_fault};

    ghost from_gives = { λ fault same. same ≡ json_fault fault };

    /// Returns the same fault, for an interval that is not an item of a set. `O(1)`.
    ///
    /// ```
    /// assert_eq!(rt; JsonFault::from(ItemFault::Length(3)), JsonFault::Length(3));
    /// ```
    fn from(fault: ItemFault) -> JsonFault {
        match fault {
            ItemFault::Shape => JsonFault::Shape,
            ItemFault::Length(count) => JsonFault::Length(count),
            ItemFault::Number => JsonFault::Number,
            ItemFault::Range => JsonFault::Range,
        }
    }
}

impl From<AllocError> for JsonFault {
    ghost use Rattle.std.specs.Prelude.{◌≡◌};
    ghost use Rattle.ivl_json.specs.declared.faults.JsonFault.TheVariants.{Memory};

    ghost from_gives = { λ _ fault. fault ≡ Memory };

    /// Returns [`JsonFault::Memory`]. `O(1)`.
    ///
    /// ```
    /// assert_eq!(rt; JsonFault::from(AllocError), JsonFault::Memory);
    /// ```
    fn from(_error: AllocError) -> JsonFault {
        JsonFault::Memory
    }
}
