//! The numbers of characters: some in plain numbers, and that order and equality of characters are those of their numbers.
ghost use Rattle.std.specs.Prelude.{◌≡◌, ◌<◌, ◌↔◌, pos, Some, IsTrue};
ghost use Rattle.ivl_interval.specs.Characters.{character_number};

use ivl_interval::interval::Interval;
use ivl_interval::ops::{Cardinality, Range};
use ivl_interval::width::characters::{character_of, number_of};

/// Returns the number of the least character, of a letter, of the characters on either side of the surrogates, and of the
/// greatest character.
pub fn numbers() -> (i128, i128, i128, i128, i128)
    ensures least { result.0 ≡ pos 0 }
    ensures letter { result.1 ≡ pos 97 }
    ensures below_the_gap { result.2 ≡ pos 55295 }
    ensures above_the_gap { result.3 ≡ pos 55296 }
    ensures greatest { result.4 ≡ pos 1112063 }
{
    (
        number_of('\0'),
        number_of('a'),
        number_of('\u{d7ff}'),
        number_of('\u{e000}'),
        number_of(char::MAX),
    )
}

/// Returns the size of an interval across the gap.
pub fn size_across_the_gap() -> u32
    ensures { result ≡ 2 }
{
    let (below, above) = (number_of('\u{d7ff}'), number_of('\u{e000}'));
    Interval::new(below as u32, above as u32).size()
}

/// Returns the character again.
pub fn same_character(character: char) -> Option<char>
    ensures { result ≡ Some character }
{
    character_of(number_of(character))
}

/// Returns true exactly when the number of one is less than that of the other.
pub fn character_is_less(a: char, b: char) -> bool
    ensures { IsTrue result ↔ (character_number a < character_number b) }
{
    a < b
}

/// Returns true exactly when the numbers are equal.
pub fn character_is_same(a: char, b: char) -> bool
    ensures { IsTrue result ↔ (character_number a ≡ character_number b) }
{
    a == b
}
