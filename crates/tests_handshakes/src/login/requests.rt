//! What a client asks during its login, and in its session: capabilities, PING, and what is refused.

use super::logs_in;
use client_caps::{Caps, answer, read_request};
use std::test::Fail;
use test_texts::{OFFER, line, texts_of};

const THE_LAST_REQUEST_FOR_EACH: [(&str, &str); 14] = [
    ("CAP LIST", ":bnc CAP * LIST :"),
    (
        "CAP REQ :multi-prefix batch",
        ":bnc CAP * ACK :multi-prefix batch",
    ),
    ("CAP LIST", ":bnc CAP * LIST :multi-prefix batch"),
    (
        "CAP REQ :-batch away-notify sasl",
        ":bnc CAP * NAK :-batch away-notify sasl",
    ),
    ("CAP LIST", ":bnc CAP * LIST :multi-prefix batch"),
    (
        "CAP REQ :away-notify -multi-prefix",
        ":bnc CAP * ACK :away-notify -multi-prefix",
    ),
    ("cap list", ":bnc CAP * LIST :away-notify batch"),
    ("CAP REQ", ":bnc CAP * ACK :"),
    ("CAP REQ :batch -batch", ":bnc CAP * ACK :batch -batch"),
    ("CAP LIST", ":bnc CAP * LIST away-notify"),
    ("NICK x", ""),
    ("USER ann/net 0 * :A", ""),
    ("PASS bc", ""),
    ("CAP END", "done: ann/net bc away-notify"),
];

#[test]
fn capabilities_are_held_by_the_last_request_for_each(rt: HostRuntime) -> Result<(), Fail> {
    logs_in(&rt, rt.alloc(), &THE_LAST_REQUEST_FOR_EACH)
}

const WHEN_A_NEGOTIATION_IS_OPEN: [(&str, &str); 9] = [
    ("CAP END", ""),
    ("CAP LIST", ":bnc CAP * LIST :"),
    ("CAP REQ :no", ":bnc CAP * NAK no"),
    ("NICK x", ""),
    ("USER ann/net 0 * :A", ""),
    ("PASS bc", ""),
    ("NICK y", ""),
    ("CAP LIST", ":bnc CAP * LIST :"),
    ("CAP end", "done: ann/net bc"),
];

const WHEN_A_NEGOTIATION_IS_OPEN_THEN: [(&str, &str); 7] = [
    ("CAP LS", OFFER),
    ("CAP END", ""),
    ("CAP LS", OFFER),
    ("NICK x", ""),
    ("USER ann/net 0 * :A", ""),
    ("PASS bc", ""),
    ("CAP END", "done: ann/net bc"),
];

#[test]
fn when_a_negotiation_is_open(rt: HostRuntime) -> Result<(), Fail> {
    logs_in(&rt, rt.alloc(), &WHEN_A_NEGOTIATION_IS_OPEN)?;
    logs_in(&rt, rt.alloc(), &WHEN_A_NEGOTIATION_IS_OPEN_THEN)
}

const WHAT_IS_ASKED_BEFORE_A_LOGIN: [(&str, &str); 18] = [
    ("CAP FOO", ":bnc 410 * FOO :Invalid CAP command"),
    ("CAP", ":bnc 410 * * :Invalid CAP command"),
    ("CAP :a b", ":bnc 410 * * :Invalid CAP command"),
    ("CAP ::x", ":bnc 410 * * :Invalid CAP command"),
    ("CAP CLEAR x", ":bnc 410 * CLEAR :Invalid CAP command"),
    ("PING x", ":bnc PONG bnc x"),
    ("ping :a b", ":bnc PONG bnc :a b"),
    ("PING", ":bnc PONG bnc"),
    ("PING :", ":bnc PONG bnc :"),
    (":x PING x y", ":bnc PONG bnc x"),
    ("JOIN #c", ":bnc 451 * :You have not registered"),
    ("PONG x", ":bnc 451 * :You have not registered"),
    ("AUTHENTICATE PLAIN", ":bnc 451 * :You have not registered"),
    ("NICK", ""),
    ("USER", ""),
    ("PASS", ""),
    ("QUIT :bye", "closed: "),
    ("PING x", ""),
];

#[test]
fn what_is_asked_before_a_login(rt: HostRuntime) -> Result<(), Fail> {
    logs_in(&rt, rt.alloc(), &WHAT_IS_ASKED_BEFORE_A_LOGIN)
}

const WHAT_IS_ASKED_IN_A_SESSION: [(&str, &str); 11] = [
    (
        "CAP LS 302",
        ":bnc CAP Me LS :multi-prefix extended-join account-notify away-notify server-time \
         batch",
    ),
    ("CAP LIST", ":bnc CAP Me LIST :away-notify batch"),
    ("CAP REQ batch", ":bnc CAP Me NAK batch"),
    ("CAP REQ", ":bnc CAP Me NAK :"),
    ("CAP END", ""),
    ("CAP FOO", ":bnc 410 Me FOO :Invalid CAP command"),
    ("CAP", ":bnc 410 Me * :Invalid CAP command"),
    ("PING x", ":bnc PONG bnc x"),
    ("PING", ":bnc PONG bnc"),
    ("PRIVMSG #c :hi", ""),
    ("QUIT", ""),
];

#[test]
fn what_is_asked_in_a_session(rt: HostRuntime) -> Result<(), Fail> {
    let alloc = rt.alloc();
    let held = read_request(Caps::none(), b"batch away-notify").ok_or("two names")?;
    for (text, want) in WHAT_IS_ASKED_IN_A_SESSION {
        let found = answer(
            alloc,
            Some(b"Me"),
            held,
            false,
            &line(alloc, text.as_bytes())?,
        )?;
        let mut lines = Vec::new(alloc);
        if let Some(found) = found {
            lines.push(found)?;
        }
        let found = texts_of(alloc, lines.as_slice())?;
        assert!(rt; found.as_slice() == want.as_bytes(), "at {text}");
    }
    Ok(())
}
