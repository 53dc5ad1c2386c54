//! The numbers of IPv4 addresses: some in plain numbers, and that order and equality of addresses are those of their numbers.
ghost use Rattle.std.specs.Prelude.{◌≡◌, ◌↔◌, pos, IsTrue};
ghost use Rattle.std.specs.Ordering.{nat_cmp};
ghost use Rattle.std.specs.Net.Addr.{ipv4_bits};

use ivl_interval::width::addresses::number_of_address;
use std::cmp::Ordering;
use std::net::Ipv4Addr;

/// Returns the numbers of the least address, of another, and of the greatest.
pub fn numbers_of_addresses() -> (i128, i128, i128)
    ensures least { result.0 ≡ pos 0 }
    ensures local { result.1 ≡ pos 2130706433 }
    ensures greatest { result.2 ≡ pos 4294967295 }
{
    (
        number_of_address(Ipv4Addr::new(0, 0, 0, 0)),
        number_of_address(Ipv4Addr::new(127, 0, 0, 1)),
        number_of_address(Ipv4Addr::new(255, 255, 255, 255)),
    )
}

/// Returns how the number of one compares to that of the other.
pub fn compare_addresses(a: Ipv4Addr, b: Ipv4Addr) -> Ordering
    ensures { result ≡ nat_cmp (ipv4_bits a) (ipv4_bits b) }
{
    a.cmp(&b)
}

/// Returns true exactly when the numbers are equal.
pub fn address_is_same(a: Ipv4Addr, b: Ipv4Addr) -> bool
    ensures { IsTrue result ↔ (ipv4_bits a ≡ ipv4_bits b) }
{
    a == b
}
