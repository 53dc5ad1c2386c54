//! The ranges of the two types of bounds and their sizes in plain numbers, and a text.
ghost use Rattle.std.specs.Prelude.{◌≡◌, negsuc, pos, codes, IfOk, string_bytes};

use crate::bit::Bit;
use crate::narrow::Narrow;
use ivl_interval::interval::Interval;
use ivl_interval::ops::{Cardinality, Whole};
use std::alloc::{AllocError, Global};

/// Returns the range of [`Bit`].
pub fn whole_of_bit() -> Interval<Bit>
    ensures { result ≡ (pos 0, pos 1) }
{
    Interval::whole()
}

/// Returns the size of the range of [`Bit`].
pub fn size_of_bit() -> u8
    ensures { result ≡ 2 }
{
    whole_of_bit().size()
}

/// Returns the range of [`Narrow`].
pub fn whole_of_narrow() -> Interval<Narrow>
    ensures { result ≡ (negsuc 99, pos 100) }
{
    Interval::whole()
}

/// Returns the size of the range of [`Narrow`].
pub fn size_of_narrow() -> u16
    ensures { result ≡ 201 }
{
    whole_of_narrow().size()
}

/// Returns the range of bits, as text.
pub fn text_of_bits(alloc: Global) -> Result<String, AllocError>
    ensures { IfOk result (λ text. string_bytes text ≡ codes "[0..1]") }
{
    let bits = whole_of_bit();
    format!(in alloc; "{bits}")
}
