//! The numbers of characters.
//!
//! The number of a character is its index among all characters, in ascending order and from 0. So
//! `'\u{d7ff}'` and `'\u{e000}'`, with the surrogates between them, have consecutive numbers, and a
//! range of characters is an interval of numbers.
//!
//! ```
//! let letters = Interval::new(number_of('a') as u32, number_of('z') as u32);
//! assert!(rt; letters.contains(&(number_of('q') as u32)));
//! assert_eq!(rt; letters.size(), 26);
//! ```
ghost use Rattle.std.specs.Prelude.{◌≡◌, ◌↔◌, pos, IfSome, IsSome};
ghost use Rattle.ivl_laws.specs.Sets.{IsBetween};
ghost use Rattle.ivl_interval.specs.Characters.{character_number};

/// Returns the number of a character: its scalar value, less the 2,048 surrogates if it is above
/// them.
///
/// `O(1)`. Does not allocate.
///
/// ```
/// assert_eq!(rt; number_of('a'), 97);
/// assert_eq!(rt; number_of('\u{e000}') - number_of('\u{d7ff}'), 1);
/// ```
pub fn number_of(character: char) -> i128
    // The result is the index of the character among all characters, from 0 to 0x10f7ff.
    ensures value { result ≡ pos (character_number character) }
    ensures in_range { IsBetween (pos 0, pos 0x10f7ff) result }
{
    let scalar = character as u32;
    if scalar < 0xe000 {
        scalar as i128
    } else {
        (scalar - 0x800) as i128
    }
}

/// Returns the character of a number, or `None` if the number is negative or above that of
/// `char::MAX`, 1,112,063.
///
/// `O(1)`. Does not allocate.
///
/// ```
/// assert_eq!(rt; character_of(97), Some('a'));
/// assert_eq!(rt; character_of(0xd800), Some('\u{e000}'));
/// assert_eq!(rt; character_of(0x110000), None);
/// ```
pub fn character_of(number: i128) -> Option<char>
    // The result is the character at this index among all characters, or `None` exactly when it is not from 0 to
    // 0x10f7ff.
    ensures known { IsSome result ↔ IsBetween (pos 0, pos 0x10f7ff) number }
    ensures same_number { IfSome result (λ c. pos (character_number c) ≡ number) }
{
    match u32::try_from(number) {
        Ok(place) if place < 0xd800 => char::from_u32(place),
        Ok(place) if place <= 0x10f7ff => char::from_u32(place + 0x800),
        _ => None,
    }
}
