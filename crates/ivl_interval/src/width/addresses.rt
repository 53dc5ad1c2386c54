//! The numbers of IPv4 addresses.
//!
//! The number of an address is that of its four bytes, the first the highest. Addresses are ordered
//! by their numbers, so a range of addresses is an interval of numbers.
//!
//! ```
//! let (first, last) = (Ipv4Addr::new(10, 0, 0, 0), Ipv4Addr::new(10, 255, 255, 255));
//! let net = Interval::new(number_of_address(first) as u64, number_of_address(last) as u64);
//! assert_eq!(rt; net.size(), 1 << 24);
//! ```
ghost use Rattle.std.specs.Prelude.{◌≡◌, ◌↔◌, ◌^◌, ◌-◌, pos, IfSome, IsSome};
ghost use Rattle.std.specs.Net.Addr.{ipv4_bits};
ghost use Rattle.ivl_laws.specs.Sets.{IsBetween};

use std::net::Ipv4Addr;

/// Returns the number of an address.
///
/// `O(1)`. Does not allocate.
///
/// ```
/// assert_eq!(rt; number_of_address(Ipv4Addr::new(0, 0, 1, 2)), 258);
/// ```
pub fn number_of_address(address: Ipv4Addr) -> i128
    // The result is the number of the 32 bits of the address, from 0 to 2^32 - 1.
    ensures value { result ≡ pos (ipv4_bits address) }
    ensures in_range { IsBetween (pos 0, pos (2 ^ 32 - 1)) result }
{
    address.to_bits() as i128
}

/// Returns the address of a number, or `None` if the number is not from 0 to 4,294,967,295.
///
/// `O(1)`. Does not allocate.
///
/// ```
/// assert_eq!(rt; address_of(258), Some(Ipv4Addr::new(0, 0, 1, 2)));
/// assert_eq!(rt; address_of(-1), None);
/// ```
pub fn address_of(number: i128) -> Option<Ipv4Addr>
    // The result is the address with this number, or `None` exactly when the number is not from 0 to 2^32 - 1.
    ensures known { IsSome result ↔ IsBetween (pos 0, pos (2 ^ 32 - 1)) number }
    ensures same_number { IfSome result (λ a. pos (ipv4_bits a) ≡ number) }
{
    match u32::try_from(number) {
        Ok(bits) => Some(Ipv4Addr::from_bits(bits)),
        _ => None,
    }
}
