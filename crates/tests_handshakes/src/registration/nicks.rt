//! Registrations whose settings have further nicks, and registrations under one of them.

use super::{answered, registers};
use crate::settings::{network_of, text_with};
use bnc_config::{Config, NetworkConfig};
use irc_names::is_nameable;
use std::alloc::Global;
use std::process::Abort;
use std::test::Fail;
use upstream::{DialFault, Dialled, Duplex, Register, RegisterFault};

/// Settings with a further nick.
const ONE: &str = "nicks = [\"bob\"]\n";

/// Settings with an empty list of them.
const NONE: &str = "nicks = []\n";

/// 437 ERR_UNAVAILRESOURCE and 433 ERR_NICKNAMEINUSE in turn.
const FOUR_TRIES: [(&str, &str); 6] = [
    ("", "CAP LS 302 / NICK ann / USER ann 0 * :Ann A"),
    (":s 437 * ann :unavailable", "NICK ann_"),
    (":s 433 * ann_ :in use", "NICK ann__"),
    (":s 437 * ann__ :unavailable", "NICK ann___"),
    (":s 437 * ann___ :unavailable", "nick in use"),
    (":s 001 ann :hi", ""),
];

/// Without the list of nicks 437 says nothing.
const UNHEARD: [(&str, &str); 3] = [
    (":s 437 * ann :unavailable", ""),
    (":s 433 * ann :in use", "NICK ann_"),
    (":s 001 ann_ :hi", "done: "),
];

#[test]
fn a_nick_that_is_unavailable(rt: HostRuntime) -> Result<(), Fail> {
    registers(&rt, rt.alloc(), ONE, &FOUR_TRIES)?;
    registers(&rt, rt.alloc(), NONE, &FOUR_TRIES)?;
    registers(&rt, rt.alloc(), "", &UNHEARD)
}

/// Under another nick: it has its own tries, and the rest is as under the first.
const UNDER_ANOTHER: [(&str, &str); 5] = [
    ("", "CAP LS 302 / NICK bob / USER ann 0 * :Ann A"),
    (":s CAP * LS :", "CAP END"),
    (":s 437 * bob :unavailable", "NICK bob_"),
    (":s 433 * bob_ :in use", "NICK bob__"),
    (":s 001 bob__ :hi", "done: "),
];

/// Registers under this nick.
fn registers_as(
    rt: &impl Abort,
    alloc: Global,
    network: &NetworkConfig,
    nick: &[u8],
    rows: &[(&str, &str)],
) -> Result<(), Fail> {
    if !is_nameable(nick) {
        return Err("a nick")?;
    }
    let (mut register, first) = Register::start_as(alloc, network, nick)?;
    for (text, want) in rows {
        let found = answered(alloc, &mut register, first.as_slice(), text)?;
        assert!(rt; found.as_slice() == want.as_bytes(), "at {text}");
    }
    Ok(())
}

#[test]
fn under_another_nick(rt: HostRuntime) -> Result<(), Fail> {
    let config = Config::read(rt.alloc(), text_with(rt.alloc(), ONE)?.as_str().as_bytes())?;
    let network = network_of(&config)?;
    registers_as(&rt, rt.alloc(), network, b"bob", &UNDER_ANOTHER)
}

/// What a network sends that has no nick for us.
const NO_NICK: &str = ":s CAP * LS :\r\n:s 437 * bob :unavailable\r\n:s 433 * bob_ :in use\r\n\
    :s 437 * bob__ :unavailable\r\n:s 437 * bob___ :unavailable\r\n:s 001 bob :hi\r\n";

/// What it is sent.
const SENT: &str = "CAP LS 302\r\nNICK bob\r\nUSER ann 0 * :Ann A\r\nCAP END\r\n\
    NICK bob_\r\nNICK bob__\r\nNICK bob___\r\n";

/// Registers under this nick over a stream: what was sent up to the fault that no nick was free.
fn sent_as(alloc: Global, network: &NetworkConfig, nick: &[u8]) -> Result<Vec<u8>, Fail> {
    if !is_nameable(nick) {
        return Err("a nick")?;
    }
    let stream = Duplex {
        reader: NO_NICK.as_bytes(),
        writer: Vec::new(alloc),
    };
    let outcome = match Dialled::new(stream).begin_as(alloc, network, nick) {
        Ok(registering) => registering.finish(alloc),
        Err(refused) => Err(refused),
    };
    match outcome {
        Err((DialFault::Register(RegisterFault::NickInUse), stream)) => Ok(stream.writer),
        _ => Err("no nick in use")?,
    }
}

#[test]
fn no_nick_is_free(rt: HostRuntime) -> Result<(), Fail> {
    let config = Config::read(rt.alloc(), text_with(rt.alloc(), ONE)?.as_str().as_bytes())?;
    let sent = sent_as(rt.alloc(), network_of(&config)?, b"bob")?;
    assert!(rt; sent.as_slice() == SENT.as_bytes());
    Ok(())
}
