//! A type of bounds with two values: the shortest possible range.
ghost use Rattle.std.specs.Prelude.{Some, pos, refl};
ghost use Rattle.std.proofs.Common.{rules};

use ivl_interval::width::Width;
use std::fmt;
use std::str::FromStr;

/// A bit. Its range is 0 to 1, and every value is in it.
#[derive(Clone, Copy, PartialEq, Eq, PartialOrd, Ord, Debug)]
pub enum Bit {
    Zero,
    One,
}

impl Width for Bit {
    ghost use Rattle.ivl_vectors.specs.Bits.{bit_number, bit_at, bit_at-number, for_bits};

    type Output = u8;

    ghost value = { bit_number };

    ghost at = { bit_at };

    ghost whole = { (pos 0, pos 1) };

    fn min_value() -> Bit {
        Bit::Zero
    }

    fn max_value() -> Bit {
        Bit::One
    }

    fn number(self) -> i128 {
        match self {
            Bit::Zero => 0,
            Bit::One => 1,
        }
    }

    fn from_number(number: i128) -> Option<Bit> {
        match number {
            0 => Some(Bit::Zero),
            1 => Some(Bit::One),
            _ => None,
        }
    }

    ghost ordered = { record { equal = for_bits _ refl refl refl refl; partial = for_bits _ refl refl refl refl; total = for_bits _ refl refl refl refl } };

    ghost at_value = { bit_at-number };

    ghost range = { Prim.search rules };

    ghost countable = { Prim.search rules };
}

impl fmt::Display for Bit {
    ghost use Rattle.ivl_vectors.specs.Bits.{bit_text};

    ghost output = { λ b. Some (bit_text b) };

    fn fmt<W: fmt::Write>(&self, f: &mut fmt::Formatter<W>) -> fmt::Result {
        match self {
            Bit::Zero => f.write_str("0"),
            Bit::One => f.write_str("1"),
        }
    }
}

/// The error of a text that is neither `0` nor `1`.
#[derive(Clone, Copy)]
pub struct NotABit;

impl FromStr for Bit {
    type Err = NotABit;

    fn from_str(text: &str) -> Result<Bit, NotABit> {
        match text {
            "0" => Ok(Bit::Zero),
            "1" => Ok(Bit::One),
            _ => Err(NotABit),
        }
    }
}
