//! Which texts a key allows.

ghost use Rattle.std.specs.Prelude.{◌≡◌};
ghost use Rattle.std.specs.Char.{is_ascii_digit};
ghost use Rattle.std.specs.List.{list_all, list_any};
ghost use Rattle.bnc_config.specs.Allowed.{allows_text};
ghost use Rattle.bnc_config.specs.Text.{bars_name, bars_word, is_address, is_control, is_name};
ghost use Rattle.bnc_config.specs.Text.{is_account_password, is_bracketed, is_channel_key};
ghost use Rattle.bnc_config.specs.Text.{is_colon_and_port, is_ip};
ghost use Rattle.bnc_config.specs.Text.{is_host_and_port, is_ipv6_and_port, is_ipv6_byte};
ghost use Rattle.bnc_config.specs.Text.{is_ipv6_text, is_mechanism, is_path, is_port, is_word};

use crate::Key;
use crate::command::is_sent_at_connect;
use crate::utc_offset::offset_of;
use irc_names::is_nameable;
use std::net::IpAddr;

fn is_control(byte: u8) -> bool
    ensures { result ≡ is_control byte }
{
    matches!(byte, 0..=31 | 127)
}

fn has_control(text: &[u8]) -> bool
    ensures { result ≡ list_any is_control text.now }
{
    text.iter().any(|byte| is_control(*byte))
}

fn has_barred_in_name(text: &[u8]) -> bool
    ensures { result ≡ list_any bars_name text.now }
{
    text.iter().any(|byte| is_control(*byte) || matches!(*byte, b'/' | b'@' | b':' | b' '))
}

fn has_barred_in_word(text: &[u8]) -> bool
    ensures { result ≡ list_any bars_word text.now }
{
    text.iter().any(|byte| is_control(*byte) || *byte == b' ')
}

fn has_digits_only(text: &[u8]) -> bool
    ensures { result ≡ list_all is_ascii_digit text.now }
{
    text.iter().all(|byte| byte.is_ascii_digit())
}

/// Whether the text can name a user or a network: it is not empty and holds no `/`, `@`, `:`, space
/// or control byte, so that a login `user@client/network:password` can be cut.
pub fn is_name(text: &[u8]) -> bool
    ensures { result ≡ is_name text.now }
{
    match text {
        [] => false,
        [_, ..] => !has_barred_in_name(text),
    }
}

/// Whether the text is a word without control bytes: not empty, with no space and no colon in
/// front.
pub fn is_word(text: &[u8]) -> bool
    ensures { result ≡ is_word text.now }
{
    match text {
        [] => false,
        [first, ..] => *first != b':' && !has_barred_in_word(text),
    }
}

/// Whether the text is the mechanism of a login by SASL.
fn is_mechanism(text: &str) -> bool
    ensures { result ≡ is_mechanism text.now }
{
    text == "PLAIN" || text == "EXTERNAL"
}

/// Whether the text can be an account's password: 1 to 300 bytes without NUL.
fn is_account_password(text: &[u8]) -> bool
    ensures { result ≡ is_account_password text.now }
{
    1 <= text.len() && text.len() <= 300 && !text.contains(&0)
}

/// Whether the text can be a channel's key: a word without a comma.
fn is_channel_key(text: &[u8]) -> bool
    ensures { result ≡ is_channel_key text.now }
{
    is_word(text) && !text.contains(&b',')
}

/// Whether the text is an address of IPv4 or IPv6, without a port and without a zone.
fn is_ip(text: &[u8]) -> bool
    ensures { result ≡ is_ip text.now }
{
    match IpAddr::parse_ascii(text) {
        Ok(_) => true,
        Err(_) => false,
    }
}

/// Whether the text can be the path of a file or a folder: it is not empty and holds no control
/// byte.
fn is_path(text: &[u8]) -> bool
    ensures { result ≡ is_path text.now }
{
    match text {
        [] => false,
        [_, ..] => !has_control(text),
    }
}

/// Whether the text is a port, 1 to 65535 in decimal digits; zeros may come in front.
fn is_port(text: &str) -> bool
    ensures { result ≡ is_port text.now }
{
    if !has_digits_only(text.as_bytes()) {
        return false;
    }
    match text.parse::<u16>() {
        Ok(port) => port != 0,
        Err(_) => false,
    }
}

/// Whether the byte can be in the text of an IPv6 address.
fn is_ipv6_byte(byte: u8) -> bool
    ensures { result ≡ is_ipv6_byte byte }
{
    matches!(byte, b'0'..=b'9' | b'a'..=b'f' | b'A'..=b'F' | b':' | b'.')
}

fn has_ipv6_bytes_only(text: &[u8]) -> bool
    ensures { result ≡ list_all is_ipv6_byte text.now }
{
    text.iter().all(|byte| is_ipv6_byte(*byte))
}

/// Whether the text consists of such bytes, one at least.
fn is_ipv6_text(text: &[u8]) -> bool
    ensures { result ≡ is_ipv6_text text.now }
{
    match text {
        [] => false,
        [_, ..] => has_ipv6_bytes_only(text),
    }
}

/// Whether the text is `:PORT`.
fn is_colon_and_port(text: &str) -> bool
    ensures { result ≡ is_colon_and_port text.now }
{
    match text.split_once(':') {
        Some((before, port)) => before.is_empty() && is_port(port),
        None => false,
    }
}

/// Whether the text is `IPV6]:PORT`.
fn is_ipv6_and_port(text: &str) -> bool
    ensures { result ≡ is_ipv6_and_port text.now }
{
    match text.split_once(']') {
        Some((host, rest)) => is_ipv6_text(host.as_bytes()) && is_colon_and_port(rest),
        None => false,
    }
}

/// Whether the text is `[IPV6]:PORT`.
fn is_bracketed(text: &str) -> bool
    ensures { result ≡ is_bracketed text.now }
{
    match text.split_once('[') {
        Some((before, rest)) => before.is_empty() && is_ipv6_and_port(rest),
        None => false,
    }
}

/// Whether the text is `HOST:PORT`, with a host that is not empty and holds no colon.
fn is_host_and_port(text: &str) -> bool
    ensures { result ≡ is_host_and_port text.now }
{
    match text.split_once(':') {
        Some((host, port)) => !host.is_empty() && is_port(port),
        None => false,
    }
}

/// Whether the text is `HOST:PORT`, with a host that is not empty and holds no colon, or
/// `[IPV6]:PORT`, without a zone.
#[tactic(auto, unfolding(crate::specs::Text::is_address))]
pub fn is_address(text: &str) -> bool
    ensures { result ≡ is_address text.now }
{
    is_host_and_port(text) || is_bracketed(text)
}

/// Whether the key allows this text, or a list at the key does.
pub(crate) fn allows(key: Key, text: &str) -> bool
    ensures { result ≡ allows_text key text.now }
{
    match key {
        Key::Listen | Key::ListenProxy | Key::NetworkAddress => is_address(text),
        Key::Kept | Key::Metrics => is_path(text.as_bytes()),
        Key::UserName | Key::NetworkName => is_name(text.as_bytes()),
        Key::Proxies => is_ip(text.as_bytes()),
        Key::MessagesNever => is_word(text.as_bytes()),
        Key::PlaybackTimes => offset_of(text).is_some(),
        Key::NetworkNick | Key::NetworkNicks => is_nameable(text.as_bytes()),
        Key::NetworkUser | Key::NetworkPassword | Key::NetworkJoin | Key::NetworkSaslUser => {
            is_word(text.as_bytes())
        }
        Key::NetworkRealname => !has_control(text.as_bytes()),
        Key::NetworkSasl => is_mechanism(text),
        Key::NetworkSaslPassword => is_account_password(text.as_bytes()),
        Key::NetworkOnConnect => is_sent_at_connect(text.as_bytes()),
        Key::NetworkKeys => is_channel_key(text.as_bytes()),
        _ => false,
    }
}
