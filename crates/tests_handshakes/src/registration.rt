//! Registrations at networks, line by line.

mod accounts;
mod channels;
mod nicks;
mod servers;
mod states;
pub(crate) mod streams;

use crate::settings::{network_of, plain, text_with};
use bnc_config::{Config, NetworkConfig};
use irc_line::Line;
use std::alloc::Global;
use std::process::Abort;
use std::test::Fail;
use test_texts::{line, texts_of};
use upstream::{Register, Step};

/// A step in words: the lines that are sent, after `done: ` at the welcome, or the fault.
pub(crate) fn step_text(alloc: Global, step: &Step) -> Result<Vec<u8>, Fail> {
    match step {
        Step::Send(lines) => texts_of(alloc, lines.as_slice()),
        Step::Done(lines) => {
            let mut out = Vec::from_slice(alloc, b"done: ")?;
            out.extend_from_slice(texts_of(alloc, lines.as_slice())?.as_slice())?;
            Ok(out)
        }
        Step::Fault(fault) => {
            let text = format!(in alloc; "{fault}")?;
            Ok(Vec::from_slice(alloc, text.as_str().as_bytes())?)
        }
    }
}

/// What is sent first if there is no line, or the answer to a line of the network.
fn answered(
    alloc: Global,
    register: &mut Register,
    first: &[Line],
    text: &str,
) -> Result<Vec<u8>, Fail> {
    if text.is_empty() {
        return texts_of(alloc, first);
    }
    step_text(alloc, &register.line(&line(alloc, text.as_bytes())?)?)
}

/// Registers at a network; a row without a line has what is sent first, each other row a line of the
/// network and its answer.
fn registers_at(
    rt: &impl Abort,
    alloc: Global,
    network: &NetworkConfig,
    rows: &[(&str, &str)],
) -> Result<(), Fail> {
    let (mut register, first) = Register::start(alloc, network)?;
    for (text, want) in rows {
        let found = answered(alloc, &mut register, first.as_slice(), text)?;
        assert!(rt; found.as_slice() == want.as_bytes(), "at {text}");
    }
    Ok(())
}

/// The same at a network with more keys in its settings.
fn registers(
    rt: &impl Abort,
    alloc: Global,
    more: &str,
    rows: &[(&str, &str)],
) -> Result<(), Fail> {
    let config = Config::read(alloc, text_with(alloc, more)?.as_str().as_bytes())?;
    registers_at(rt, alloc, network_of(&config)?, rows)
}

pub(crate) const CAPABILITIES_OFFERED: [(&str, &str); 9] = [
    ("", "CAP LS 302 / NICK ann / USER ann 0 * :Ann A"),
    (":s CAP * LS * :sasl batch", ""),
    (
        ":s CAP * LS :account-notify=1 multi-prefix",
        "CAP REQ :multi-prefix account-notify",
    ),
    (":s CAP * ACK :multi-prefix account-notify", "CAP END"),
    (":s 433 * ann :in use", "NICK ann_"),
    (":s 001 ann_ :hi", "done: "),
    (":s 433 * ann_ :in use", ""),
    ("PING x", ""),
    (":s 001 ann :hi", ""),
];

#[test]
fn capabilities_that_are_offered_are_asked_for(rt: HostRuntime) -> Result<(), Fail> {
    registers(&rt, rt.alloc(), "", &CAPABILITIES_OFFERED)
}

const NAMES_OF_SEVERAL_LISTS_ARE_KEPT: [(&str, &str); 6] = [
    (":s CAP * LS * :server-time away-notify=x", ""),
    (":s CAP * LS * :", ""),
    (":s CAP * LS extended-join :multi-prefix", ""),
    (":s CAP * NEW :multi-prefix", ""),
    (
        ":s cap ann ls :multi-prefixes =multi-prefix extended-join",
        "CAP REQ :extended-join away-notify server-time",
    ),
    (
        ":s CAP * NAK :extended-join away-notify server-time",
        "CAP END",
    ),
];

#[test]
fn names_of_several_lists_are_kept(rt: HostRuntime) -> Result<(), Fail> {
    registers(&rt, rt.alloc(), "", &NAMES_OF_SEVERAL_LISTS_ARE_KEPT)
}

const A_NETWORK_THAT_OFFERS_NOTHING: [(&str, &str); 6] = [
    (":s CAP * LS :", "CAP END"),
    (":s 421 ann CAP :Unknown command", ""),
    ("PING", "PONG"),
    ("PING :a b", "PONG :a b"),
    (":s PING x y", "PONG x y"),
    (":s 001 9 :digits begin nicks", "done: "),
];

const A_NETWORK_THAT_OFFERS_NOTHING_THEN: [(&str, &str); 3] = [
    (":s 001", ""),
    (":s 001 * :no nick", ""),
    (":s 001 ann :hi", "done: "),
];

#[test]
fn a_network_that_offers_nothing(rt: HostRuntime) -> Result<(), Fail> {
    registers(&rt, rt.alloc(), "", &A_NETWORK_THAT_OFFERS_NOTHING)?;
    registers(&rt, rt.alloc(), "", &A_NETWORK_THAT_OFFERS_NOTHING_THEN)
}

const FOUR_NICKS_ARE_TRIED: [(&str, &str); 6] = [
    (":s 433 * ann :in use", "NICK ann_"),
    (":s 433 * ann_ :in use", "NICK ann__"),
    (":s 433 * ann__ :in use", "NICK ann___"),
    (":s 433 * ann___ :in use", "nick in use"),
    (":s 433 * ann___ :in use", ""),
    (":s 001 ann :hi", ""),
];

#[test]
fn four_nicks_are_tried(rt: HostRuntime) -> Result<(), Fail> {
    registers(&rt, rt.alloc(), "", &FOUR_NICKS_ARE_TRIED)
}

const A_NETWORK_THAT_REFUSES: [(&str, &str); 3] = [
    (":s 432 * ann :bad", "bad nick"),
    (":s 464 * :no", "refused"),
    ("ERROR :Closing Link", "refused"),
];

/// Each row holds.
fn check_a_network_that_refuses<R: AllocGlobal + Abort>(
    rt: &R,
    rows: &[(&str, &str)],
) -> Result<(), Fail> {
    for row in rows {
        registers(rt, rt.alloc(), "", &[*row, ("PING x", "")])?;
    }
    Ok(())
}

#[test]
fn a_network_that_refuses(rt: HostRuntime) -> Result<(), Fail> {
    check_a_network_that_refuses(&rt, &A_NETWORK_THAT_REFUSES)
}

/// The answer to a line that comes after 9,999 others.
fn answer_at_last(
    rt: &impl Abort,
    alloc: Global,
    register: &mut Register,
    last: &str,
) -> Result<Vec<u8>, Fail> {
    let notice = line(alloc, b":s NOTICE AUTH :*** Checking Ident")?;
    for _ in 0..9_999 {
        let step = register.line(&notice)?;
        assert!(rt; matches!(&step, Step::Send(lines) if lines.is_empty()));
    }
    step_text(alloc, &register.line(&line(alloc, last.as_bytes())?)?)
}

/// The 10,000th line of a network, and its answer.
fn ends_at(
    rt: &impl Abort,
    alloc: Global,
    network: &NetworkConfig,
    last: &str,
    want: &str,
) -> Result<(), Fail> {
    let (mut register, _first) = Register::start(alloc, network)?;
    let found = answer_at_last(rt, alloc, &mut register, last)?;
    assert!(rt; found.as_slice() == want.as_bytes());
    Ok(())
}

const THE_10000TH_LINE: [(&str, &str); 4] = [
    ("PING x", "no welcome"),
    (":s 433 * ann :in use", "no welcome"),
    (":s 001 ann :hi", "done: "),
    (":s 432 * ann :bad", "bad nick"),
];

#[test]
fn the_10000th_line(rt: HostRuntime) -> Result<(), Fail> {
    let config = plain(rt.alloc())?;
    let network = network_of(&config)?;
    for (last, want) in &THE_10000TH_LINE {
        ends_at(&rt, rt.alloc(), network, last, want)?;
    }
    Ok(())
}
