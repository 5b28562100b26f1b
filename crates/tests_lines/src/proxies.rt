//! Lines of proxies, by the examples and rules of the PROXY protocol, section 2.1.

use proxy_line::{Origin, ProxyFault, origin_of, read_origin};
use std::alloc::{AllocError, Global};
use std::net::IpAddr;
use std::test::Fail;

const V4: [u8; 4] = [192, 0, 2, 7];

const V6: [u16; 8] = [0x2001, 0xdb8, 0, 0, 0, 0, 0, 7];

#[test]
fn whom_a_line_names(rt: HostRuntime) -> Result<(), Fail> {
    let v4 = Some(Origin::Address(IpAddr::from(V4)));
    let v6 = Some(Origin::Address(IpAddr::from(V6)));
    let rows: [(&[u8], Option<Origin>); 17] = [
        (b"PROXY TCP4 192.0.2.7 198.51.100.1 40004 6668\r\n", v4),
        (b"PROXY TCP4 192.0.2.7 255.255.255.255 65535 0\r\n", v4),
        (b"PROXY TCP6 2001:db8::7 2001:DB8::1 40004 6668\r\n", v6),
        (b"PROXY UNKNOWN\r\n", Some(Origin::Unknown)),
        (
            b"PROXY UNKNOWN ffff::1 ::1 65535 65535\r\n",
            Some(Origin::Unknown),
        ),
        (b"PROXY UNKNOWN and what not\r\n", Some(Origin::Unknown)),
        (b"PROXY TCP4 192.0.2.7 198.51.100.1 40004 6668\n", None),
        (b"PROXY TCP4 192.0.2.7 198.51.100.1 40004 65536\r\n", None),
        (b"PROXY TCP4 192.0.2.7 198.51.100.1 040 6668\r\n", None),
        (b"PROXY TCP4 192.0.2.7 198.51.100.1 40004\r\n", None),
        (b"PROXY TCP4 192.0.2.7 198.51.100.1 40004 6668 1\r\n", None),
        (b"PROXY TCP4 192.0.2.7  198.51.100.1 40004 6668\r\n", None),
        (b"PROXY TCP4 192.0.02.7 198.51.100.1 40004 6668\r\n", None),
        (b"PROXY TCP4 2001:db8::7 2001:db8::1 40004 6668\r\n", None),
        (b"PROXY TCP6 192.0.2.7 198.51.100.1 40004 6668\r\n", None),
        (b"proxy UNKNOWN\r\n", None),
        (b"PROXY UNKNOWNS\r\n", None),
    ];
    for (line, origin) in rows {
        assert!(rt; origin_of(line) == origin);
    }
    Ok(())
}

/// A line of this many bytes that names no client.
fn unknown_of(alloc: Global, length: usize) -> Result<Vec<u8>, AllocError> {
    let mut line = Vec::from_slice(alloc, b"PROXY UNKNOWN ")?;
    for _ in 16..length {
        line.push(b'x')?;
    }
    line.extend_from_slice(b"\r\n")?;
    Ok(line)
}

/// The longest line has 107 bytes. What comes after a line is left.
#[test]
fn what_is_read_of_an_input(rt: HostRuntime) -> Result<(), Fail> {
    let alloc = rt.alloc();
    let mut input: &[u8] = b"PROXY UNKNOWN\r\nPASS x\r\n";
    assert!(rt; read_origin(alloc, &mut input) == Ok(Origin::Unknown));
    assert!(rt; input == b"PASS x\r\n".as_slice());
    let long = unknown_of(alloc, 107)?;
    let mut input = long.as_slice();
    assert!(rt; read_origin(alloc, &mut input) == Ok(Origin::Unknown));
    let too_long = unknown_of(alloc, 108)?;
    let mut input = too_long.as_slice();
    assert!(rt; read_origin(alloc, &mut input) == Err(ProxyFault::TooLong));
    let rows: [(&[u8], ProxyFault); 4] = [
        (b"", ProxyFault::Silent),
        (b"PROXY UNKNOWN", ProxyFault::Cut),
        (b"NICK ann\r\nUSER", ProxyFault::Bad),
        (b"\n", ProxyFault::Bad),
    ];
    for (text, fault) in rows {
        let mut input = text;
        assert!(rt; read_origin(alloc, &mut input) == Err(fault));
    }
    Ok(())
}
