//! Registrations and settings that are tried again.

use crate::registration::streams::{INPUT, SENT};
use crate::registration::{CAPABILITIES_OFFERED, step_text};
use crate::settings::{network_of, plain, text_of_all};
use bnc_config::{Config, ConfigFault, NetworkConfig};
use irc_line::Line;
use std::alloc::Global;
use std::process::Abort;
use std::test::Fail;
use test_texts::{again, begins, line, texts_of};
use upstream::{DialFault, Register, Step, Welcomed, register};

/// Begins a registration.
fn start(alloc: Global, network: &NetworkConfig) -> Result<(Register, Vec<Line>), Fail> {
    match Register::start(alloc, network) {
        Ok(started) => Ok(started),
        Err(_) => again(Register::start(alloc, network)),
    }
}

/// Takes a line of a network.
fn step(register: &mut Register, line: &Line) -> Result<Step, Fail> {
    match register.line(line) {
        Ok(step) => Ok(step),
        Err(_) => again(register.line(line)),
    }
}

/// Each line of a registration is answered as without a refusal.
#[test]
fn lines_of_a_registration(rt: HostRuntime) -> Result<(), Fail> {
    let alloc = rt.alloc();
    let config = plain(alloc)?;
    let (mut register, first) = start(alloc, network_of(&config)?)?;
    for (text, want) in CAPABILITIES_OFFERED {
        let found = if text.is_empty() {
            texts_of(alloc, first.as_slice())?
        } else {
            step_text(alloc, &step(&mut register, &line(alloc, text.as_bytes())?)?)?
        };
        assert!(&rt; found.as_slice() == want.as_bytes(), "at {text}");
    }
    Ok(())
}

/// Registers over streams in memory; what comes of it, and what was sent, for which there is room.
fn registers(
    alloc: Global,
    network: &NetworkConfig,
) -> Result<(Result<Welcomed, DialFault>, Vec<u8>), Fail> {
    let mut input = INPUT.as_bytes();
    let mut sent = Vec::with_capacity(alloc, SENT.len())?;
    let done = register(alloc, &mut input, &mut sent, network);
    Ok((done, sent))
}

/// Of a registration that is refused a beginning was sent; the next one is whole.
#[test]
fn a_registration_over_streams(rt: HostRuntime) -> Result<(), Fail> {
    let config = plain(rt.alloc())?;
    let network = network_of(&config)?;
    let (done, sent) = registers(rt.alloc(), network)?;
    if let Err(DialFault::Memory) = &done {
        assert!(&rt; begins(&sent, SENT.as_bytes()));
        let (done, sent) = registers(rt.alloc(), network)?;
        return is_registered(&rt, done, &sent);
    }
    is_registered(&rt, done, &sent)
}

/// All was sent, and the lines from the welcome on were read.
fn is_registered<R: AllocGlobal + Abort>(
    rt: &R,
    done: Result<Welcomed, DialFault>,
    sent: &[u8],
) -> Result<(), Fail> {
    let welcomed = again(done)?;
    assert!(rt; sent == SENT.as_bytes() && welcomed.lines.len() == 2);
    Ok(())
}

/// Settings are read whole, or memory was refused.
#[test]
fn settings_that_are_read(rt: HostRuntime) -> Result<(), Fail> {
    let alloc = rt.alloc();
    let text = text_of_all(alloc)?;
    let text = text.as_str().as_bytes();
    let config = match Config::read(alloc, text) {
        Err(ConfigFault::OutOfMemory) => again(Config::read(alloc, text))?,
        read => again(read)?,
    };
    let network = network_of(&config)?;
    assert!(&rt; network.nick() == b"ann".as_slice() && config.password_matches(b"ann", b"bc"));
    let (_, first) = start(alloc, network)?;
    let want = b"CAP LS 302 / PASS secret / NICK ann / USER ann 0 * :Ann A".as_slice();
    assert!(&rt; texts_of(alloc, first.as_slice())?.as_slice() == want);
    Ok(())
}
