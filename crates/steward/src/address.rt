//! Numbers that stand for addresses.

ghost use Rattle.std.specs.Prelude.{◌≡◌};
ghost use Rattle.steward.specs.Addresses.{IsKeyOf};

use std::net::IpAddr;

/// The number of an address: of IPv4 its 32 bits; of IPv6 its first 64 bits, since a host often has
/// all addresses that begin alike (our own choice). An IPv4 address that is mapped into IPv6
/// (`::ffff:192.0.2.1`) counts as the IPv4 address. Only reserved addresses of IPv6 (`::/32`, with the
/// loopback `::1`) have numbers of IPv4 addresses.
pub fn key_of(address: IpAddr) -> u64
    ensures { IsKeyOf result address }
{
    match address.to_canonical() {
        IpAddr::V4(ip) => u64::from(ip.to_bits()),
        IpAddr::V6(ip) => (ip.to_bits() >> 64) as u64,
    }
}
