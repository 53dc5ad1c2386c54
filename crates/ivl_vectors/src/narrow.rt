//! A type of bounds with many values outside its range.
ghost use Rattle.std.specs.Prelude.{negsuc, pos, refl};
ghost use Rattle.std.proofs.Common.{rules};

use ivl_interval::width::Width;
use std::fmt;
use std::num::ParseIntError;
use std::str::FromStr;

/// A number whose range is -100 to 100. Every other `i16` is a value outside the range.
#[derive(Clone, Copy, PartialEq, Eq, PartialOrd, Ord, Debug)]
pub struct Narrow {
    pub value: i16,
}

impl Width for Narrow {
    ghost use Rattle.ivl_vectors.specs.Held.{held_order};

    type Output = u16;

    ghost value = { λ n. n.value };

    ghost at = { λ z. record { value = z } };

    ghost whole = { (negsuc 99, pos 100) };

    fn min_value() -> Narrow {
        Narrow { value: -100 }
    }

    fn max_value() -> Narrow {
        Narrow { value: 100 }
    }

    fn number(self) -> i128 {
        i128::from(self.value)
    }

    fn from_number(number: i128) -> Option<Narrow> {
        if (-100..=100).contains(&number) {
            Some(Narrow {
                value: number as i16,
            })
        } else {
            None
        }
    }

    ghost ordered = { held_order (λ n. n.value) };

    ghost at_value = { λ x. refl };

    ghost range = { Prim.search rules };

    ghost countable = { Prim.search rules };
}

impl fmt::Display for Narrow {
    ghost output = { λ n. ⟦<i16 as std::fmt::Display>⟧.output n.value };

    fn fmt<W: fmt::Write>(&self, f: &mut fmt::Formatter<W>) -> fmt::Result {
        write!(f, "{}", self.value)
    }
}

impl FromStr for Narrow {
    type Err = ParseIntError;

    fn from_str(text: &str) -> Result<Narrow, ParseIntError> {
        Ok(Narrow {
            value: text.parse()?,
        })
    }
}
