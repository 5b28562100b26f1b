//! What comes from outside, as the log shows it.

use client_caps::{Cap, Caps};
use std::fmt;
use std::net::{Ipv4Addr, Ipv6Addr};

/// How many bytes of a text are shown.
const SHOWN: usize = 64;

/// A text of a peer or of the settings: its first 64 bytes, each that is no letter, digit or sign
/// of ASCII as `?`. So it can't look like another line of the log.
#[derive(Clone, Copy)]
pub struct Shown<'a>(pub &'a [u8]);

/// How a byte is shown.
fn sign_of(byte: u8) -> char {
    if byte.is_ascii_graphic() {
        char::from(byte)
    } else {
        '?'
    }
}

impl fmt::Display for Shown<'_> {
    fn fmt<W: fmt::Write>(&self, f: &mut fmt::Formatter<W>) -> fmt::Result {
        for byte in self.0.iter().take(SHOWN) {
            f.write_char(sign_of(*byte))?;
        }
        Ok(())
    }
}

/// How a byte is shown in a text of several words: as it is, a space too.
fn sign_in_words(byte: u8) -> char {
    match byte {
        b' ' => ' ',
        _ => sign_of(byte),
    }
}

/// How many bytes of words are shown.
const WORDS: usize = 256;

/// Words: their first 256 bytes, each that is no letter, digit, sign or space of ASCII as `?`.
#[derive(Clone, Copy)]
pub(crate) struct Words<'a>(pub(crate) &'a [u8]);

impl fmt::Display for Words<'_> {
    fn fmt<W: fmt::Write>(&self, f: &mut fmt::Formatter<W>) -> fmt::Result {
        for byte in self.0.iter().take(WORDS) {
            f.write_char(sign_in_words(*byte))?;
        }
        Ok(())
    }
}

/// The capabilities of a client by their names, as `multi-prefix batch`, or `no capabilities`.
#[derive(Clone, Copy)]
pub struct Held(pub Caps);

impl fmt::Display for Held {
    fn fmt<W: fmt::Write>(&self, f: &mut fmt::Formatter<W>) -> fmt::Result {
        if self.0 == Caps::none() {
            return f.write_str("no capabilities");
        }
        let mut gap = "";
        for cap in Cap::ALL {
            if self.0.holds(cap) {
                f.write_str(gap)?;
                write!(f, "{}", Shown(cap.name()))?;
                gap = " ";
            }
        }
        Ok(())
    }
}

/// An address by its number (`steward::key_of`): an IPv4 address, or the first half of an IPv6
/// address, as `2001:db8::/64`.
#[derive(Clone, Copy)]
pub(crate) struct Origin(pub(crate) u64);

impl fmt::Display for Origin {
    fn fmt<W: fmt::Write>(&self, f: &mut fmt::Formatter<W>) -> fmt::Result {
        match u32::try_from(self.0) {
            Ok(bits) => write!(f, "{}", Ipv4Addr::from_bits(bits)),
            Err(_) => write!(f, "{}/64", Ipv6Addr::from_bits(u128::from(self.0) << 64)),
        }
    }
}

/// What a log line is about: a user's network, and a session's client if it has a name.
#[derive(Clone, Copy)]
pub struct Who<'a> {
    /// The user's name.
    pub user: &'a [u8],
    /// The client's name.
    pub client: Option<&'a [u8]>,
    /// The network's name.
    pub network: &'a [u8],
}

impl fmt::Display for Who<'_> {
    /// As `ann@pc/net`, or `ann/net` without a client.
    fn fmt<W: fmt::Write>(&self, f: &mut fmt::Formatter<W>) -> fmt::Result {
        write!(f, "{}", Shown(self.user))?;
        if let Some(client) = self.client {
            write!(f, "@{}", Shown(client))?;
        }
        write!(f, "/{}", Shown(self.network))
    }
}
