//! A line of a proxy, and the client that it names.

ghost use Rattle.std.specs.Prelude.{◌≡◌, ◌↔◌, ◌==◌, Bool, IfNone, IfSome, IsTrue, false, true};
ghost use Rattle.std.specs.List.{list_any};
ghost use Rattle.std.specs.Net.Addr.{is_ipv4};
ghost use Rattle.std.specs.Net.Grammar.{IsIpText};
ghost use Rattle.std.specs.declared.net.ip_addr.IpAddr.{IpAddr as Ip};
ghost use Rattle.proxy_line.specs.ProxyLine.{AreEnds, IsProxyLine, NamesClient, behind};
ghost use Rattle.proxy_line.specs.ProxyLine.{family_name, word_of};
ghost use Rattle.proxy_line.specs.declared.line.Origin.{Origin as Named};

use crate::port::is_port;
use irc_line::place_of;
use std::net::{IpAddr, Ipv4Addr, Ipv6Addr};

/// How many bytes a line has at most, with CR LF.
pub(crate) const LIMIT: usize = 107;

/// Whose bytes a proxy passes on.
#[derive(Clone, Copy, Debug, PartialEq, Eq)]
pub enum Origin {
    /// Those of the client at this address.
    Address(IpAddr),
    /// The proxy does not say.
    Unknown,
}

/// The text before the first space, or all if there is none; and the text after that space.
fn split_word(text: &[u8]) -> (&[u8], &[u8])
    ensures word { result.0.now ≡ word_of text.now }
    ensures behind { result.1.now ≡ behind text.now }
{
    match place_of(b' ', text) {
        Some(place) => (&text[..place], &text[place + 1..]),
        None => (text, &[]),
    }
}

/// An IPv4 address.
fn v4_of(text: &[u8]) -> Option<IpAddr>
    ensures some { IfSome result (λ a. IsIpText text.now a × (is_ipv4 a ≡ true)) }
    ensures none { IfNone result ((a : Ip) → IsIpText text.now a → is_ipv4 a ≡ true → ⊥) }
{
    match Ipv4Addr::parse_ascii(text) {
        Ok(address) => Some(IpAddr::V4(address)),
        Err(_) => None,
    }
}

/// An IPv6 address.
fn v6_of(text: &[u8]) -> Option<IpAddr>
    ensures some { IfSome result (λ a. IsIpText text.now a × (is_ipv4 a ≡ false)) }
    ensures none { IfNone result ((a : Ip) → IsIpText text.now a → is_ipv4 a ≡ false → ⊥) }
{
    match Ipv6Addr::parse_ascii(text) {
        Ok(address) => Some(IpAddr::V6(address)),
        Err(_) => None,
    }
}

/// An address of this family.
fn address_of(is_v4: bool, text: &[u8]) -> Option<IpAddr>
    ensures some { IfSome result (λ a. IsIpText text.now a × (is_ipv4 a ≡ is_v4)) }
    ensures none { IfNone result ((a : Ip) → IsIpText text.now a → is_ipv4 a ≡ is_v4 → ⊥) }
{
    if is_v4 { v4_of(text) } else { v6_of(text) }
}

/// The client's address in what follows the family.
fn source_of(is_v4: bool, text: &[u8]) -> Option<IpAddr>
    ensures some { IfSome result (AreEnds is_v4 text.now) }
    ensures none { IfNone result ((a : Ip) → AreEnds is_v4 text.now a → ⊥) }
{
    let (source, rest) = split_word(text);
    let (destination, rest) = split_word(rest);
    let (source_port, destination_port) = split_word(rest);
    let address = address_of(is_v4, source)?;
    let _other = address_of(is_v4, destination)?;
    if is_port(source_port) && is_port(destination_port) {
        Some(address)
    } else {
        None
    }
}

/// Whether both texts are the same.
fn is_text(text: &[u8], other: &[u8]) -> bool
    ensures { IsTrue result ↔ (text.now ≡ other.now) }
{
    text == other
}

fn has_lf(text: &[u8]) -> bool
    ensures { result ≡ list_any (λ b. b == 10) text.now }
{
    text.iter().any(|byte| *byte == b'\n')
}

/// Whether a word is the name of IPv4, or of IPv6.
fn family_of(word: &[u8]) -> Option<bool>
    ensures some { IfSome result (λ is_v4. word.now ≡ family_name is_v4) }
    ensures none { IfNone result ((is_v4 : Bool) → word.now ≡ family_name is_v4 → ⊥) }
{
    if is_text(word, b"TCP4") {
        return Some(true);
    }
    if is_text(word, b"TCP6") {
        return Some(false);
    }
    None
}

/// The client that a line names, without its CR LF.
fn named_in(text: &[u8]) -> Option<Origin>
    ensures some { IfSome result (NamesClient text.now) }
    ensures none { IfNone result ((client : Named) → NamesClient text.now client → ⊥) }
{
    let (proxy, rest) = split_word(text);
    let (family, ends) = split_word(rest);
    if !is_text(proxy, b"PROXY") {
        return None;
    }
    if is_text(family, b"UNKNOWN") {
        return Some(Origin::Unknown);
    }
    let is_v4 = family_of(family)?;
    let address = source_of(is_v4, ends)?;
    Some(Origin::Address(address))
}

/// The client that a line names; `None` if it is no line of the PROXY protocol, version 1: at most
/// 107 bytes with CR LF at its end, as
///
/// ```text
/// PROXY TCP4 192.0.2.7 198.51.100.1 40004 6668
/// PROXY TCP6 2001:db8::7 2001:db8::1 40004 6668
/// PROXY UNKNOWN
/// ```
///
/// Addresses are written as in RFC 4291, section 2.2, and IPv4 addresses without zeros in front; a
/// port is a number from 0 to 65535 without zeros in front. What follows `UNKNOWN` and a space
/// does not count.
pub fn origin_of(line: &[u8]) -> Option<Origin>
    ensures some { IfSome result (IsProxyLine line.now) }
    ensures none { IfNone result ((client : Named) → IsProxyLine line.now client → ⊥) }
{
    if line.len() > LIMIT || line.len() < 2 {
        return None;
    }
    let (text, end) = line.split_at(line.len() - 2);
    if !is_text(end, b"\r\n") || has_lf(text) {
        return None;
    }
    named_in(text)
}
