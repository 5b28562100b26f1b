//! Numbers of texts and of addresses.

use std::net::IpAddr;
use std::test::Fail;
use steward::{Names, key_of};

/// Texts are numbered in the order in which they come, and a text keeps its number.
#[test]
fn a_text_keeps_its_number(rt: HostRuntime) -> Result<(), Fail> {
    let mut names = Names::new(rt.alloc());
    let rows: [(&[u8], u64); 6] = [
        (b"ann/libera", 0),
        (b"ann/oftc", 1),
        (b"ann/libera", 0),
        (b"", 2),
        (b"Ann/libera", 3),
        (b"ann/oftc", 1),
    ];
    for (text, number) in rows {
        assert!(rt; names.number_of(rt.alloc(), text)? == number);
    }
    Ok(())
}

/// An IPv4 address is its 32 bits, also when it is mapped into IPv6; the hosts of an IPv6 network of
/// 64 bits are one address.
#[test]
fn an_address_is_a_number(rt: HostRuntime) -> Result<(), Fail> {
    let rows = [
        (IpAddr::from([192u8, 0, 2, 1]), 0xC000_0201u64),
        (
            IpAddr::from([0u16, 0, 0, 0, 0, 0xffff, 0xc000, 0x0201]),
            0xC000_0201,
        ),
        (
            IpAddr::from([0x2001u16, 0xdb8, 0, 7, 0, 0, 0, 1]),
            0x2001_0db8_0000_0007,
        ),
        (
            IpAddr::from([0x2001u16, 0xdb8, 0, 7, 0xffff, 0, 0, 2]),
            0x2001_0db8_0000_0007,
        ),
        (
            IpAddr::from([0x2001u16, 0xdb8, 0, 8, 0, 0, 0, 1]),
            0x2001_0db8_0000_0008,
        ),
    ];
    for (address, number) in rows {
        assert!(rt; key_of(address) == number);
    }
    Ok(())
}
