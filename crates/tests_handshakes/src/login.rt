//! Logins of clients, line by line: by which lines a login is done, where its user, client, network
//! and password are cut, and after how many lines it ends.

mod requests;
mod words;

use sessions::{Claim, Login, LoginStep};
use std::alloc::Global;
use std::process::Abort;
use std::test::Fail;
use test_stage::claims::push_claim;
use test_texts::{OFFER, line, texts_of};

/// A claim, after `done: `.
fn claimed(alloc: Global, claim: &Claim) -> Result<Vec<u8>, Fail> {
    let mut out = Vec::from_slice(alloc, b"done: ")?;
    push_claim(&mut out, claim)?;
    Ok(out)
}

/// A step in words: the lines that are sent, after `closed: ` if the login is over, or the claim.
pub(crate) fn step_text(alloc: Global, step: &LoginStep) -> Result<Vec<u8>, Fail> {
    match step {
        LoginStep::Send(lines) => texts_of(alloc, lines.as_slice()),
        LoginStep::Done(claim) => claimed(alloc, claim),
        LoginStep::Closed(lines) => {
            let mut out = Vec::from_slice(alloc, b"closed: ")?;
            out.extend_from_slice(texts_of(alloc, lines.as_slice())?.as_slice())?;
            Ok(out)
        }
    }
}

/// Logs in; each row is a line of the client and its answer.
fn logs_in(rt: &impl Abort, alloc: Global, rows: &[(&str, &str)]) -> Result<(), Fail> {
    let mut login = Login::new(alloc);
    for row in rows {
        goes_on(rt, alloc, &mut login, *row)?;
    }
    Ok(())
}

/// A line of the client, and its answer.
fn goes_on(
    rt: &impl Abort,
    alloc: Global,
    login: &mut Login,
    (text, want): (&str, &str),
) -> Result<(), Fail> {
    let step = login.line(&line(alloc, text.as_bytes())?)?;
    let found = step_text(alloc, &step)?;
    assert!(rt; found.as_slice() == want.as_bytes(), "at {text}");
    Ok(())
}

pub(crate) const A_LOGIN_BY_USER_AND_PASS: [(&str, &str); 9] = [
    ("CAP LS 302", OFFER),
    ("NICK x", ""),
    ("USER ann@pc/net 0 * :A", ""),
    ("PASS bc", ""),
    ("CAP REQ batch", ":bnc CAP * ACK batch"),
    ("CAP REQ :batch sasl", ":bnc CAP * NAK :batch sasl"),
    ("CAP END", "done: ann@pc/net bc batch"),
    ("PING x", ""),
    ("QUIT", ""),
];

#[test]
fn a_login_by_user_and_pass(rt: HostRuntime) -> Result<(), Fail> {
    logs_in(&rt, rt.alloc(), &A_LOGIN_BY_USER_AND_PASS)
}

const A_LOGIN_BY_PASS_ALONE: [(&str, &str); 3] = [
    ("PASS ann@pc/net:bc", ""),
    ("NICK x", ""),
    ("USER x 0 * :A", "done: ann@pc/net bc"),
];

const A_LOGIN_BY_PASS_ALONE_THEN: [(&str, &str); 3] = [
    ("USER ann@pc/net", ""),
    ("pass bob/net:b:c", ""),
    ("nick x", "done: bob/net b:c"),
];

#[test]
fn a_login_by_pass_alone(rt: HostRuntime) -> Result<(), Fail> {
    logs_in(&rt, rt.alloc(), &A_LOGIN_BY_PASS_ALONE)?;
    logs_in(&rt, rt.alloc(), &A_LOGIN_BY_PASS_ALONE_THEN)
}

const WHERE_A_LOGIN_IS_CUT: [(&str, &str); 11] = [
    ("PASS ann@pc/net:bc", "done: ann@pc/net bc"),
    ("PASS ann@pc/net/two:bc", "done: ann@pc/net/two bc"),
    ("PASS ann@p@c/n@t:bc", "done: ann@p@c/n@t bc"),
    ("PASS ann/net@x:bc", "done: ann/net@x bc"),
    ("PASS ann@/net:bc", "done: ann/net bc"),
    ("PASS @pc/:", "done: @pc/ "),
    ("PASS ann/net:b:c", "done: ann/net b:c"),
    ("PASS :ann/net:b c", "done: ann/net b c"),
    ("PASS ann:b/c", "closed: :bnc 464 * :Password incorrect"),
    ("PASS ::ann/net", "closed: :bnc 464 * :Password incorrect"),
    ("PASS x", "done: eve/lan x"),
];

/// Each row holds.
fn check_where_a_login_is_cut<R: AllocGlobal + Abort>(
    rt: &R,
    rows: &[(&str, &str)],
) -> Result<(), Fail> {
    for row in rows {
        let (pass, want) = *row;
        let said = [
            ("NICK x", ""),
            ("USER eve/lan 0 * :E", ""),
            (pass, want),
            ("PING x", ""),
        ];
        logs_in(rt, rt.alloc(), &said)?;
    }
    Ok(())
}

#[test]
fn where_a_login_is_cut(rt: HostRuntime) -> Result<(), Fail> {
    check_where_a_login_is_cut(&rt, &WHERE_A_LOGIN_IS_CUT)
}

const A_LOGIN_WITHOUT_A_NETWORK: [(&str, &str); 4] = [
    ("PASS x", ""),
    ("NICK x", ""),
    ("USER ann 0 * :A", "closed: :bnc 464 * :Password incorrect"),
    ("USER ann/net 0 * :A", ""),
];

#[test]
fn a_login_without_a_network(rt: HostRuntime) -> Result<(), Fail> {
    logs_in(&rt, rt.alloc(), &A_LOGIN_WITHOUT_A_NETWORK)
}

const A_LATE_PASSWORD: [(&str, &str); 8] = [
    ("PASS", ""),
    ("NICK x", ""),
    ("USER ann/net 0 * :A", ""),
    ("NICK y", ""),
    ("CAP LS", OFFER),
    ("CAP END", ""),
    ("JOIN #c", ":bnc 451 * :You have not registered"),
    ("PASS bc", "done: ann/net bc"),
];

const A_LATE_PASSWORD_AFTER_CAPS: [(&str, &str); 5] = [
    ("CAP LS 302", OFFER),
    ("USER ann/net 0 * :A", ""),
    ("NICK x", ""),
    ("CAP END", ""),
    ("PASS bc", "done: ann/net bc"),
];

#[test]
fn a_login_waits_for_its_password(rt: HostRuntime) -> Result<(), Fail> {
    logs_in(&rt, rt.alloc(), &A_LATE_PASSWORD)?;
    logs_in(&rt, rt.alloc(), &A_LATE_PASSWORD_AFTER_CAPS)
}

const TWO_HUNDRED_LINES: [(&str, &str); 4] = [
    ("PING x", "closed: "),
    ("NICK x", "closed: "),
    ("PASS ann/net:bc", "done: ann/net bc"),
    ("PASS ann:bc", "closed: :bnc 464 * :Password incorrect"),
];

/// The login ends with this, its 200th line.
fn ends_with(
    rt: &impl Abort,
    alloc: Global,
    login: &mut Login,
    last: (&str, &str),
) -> Result<(), Fail> {
    goes_on(rt, alloc, login, ("USER x 0 * :A", ""))?;
    goes_on(rt, alloc, login, ("NICK x", ""))?;
    for _ in 2..199 {
        goes_on(rt, alloc, login, ("PING x", ":bnc PONG bnc x"))?;
    }
    goes_on(rt, alloc, login, last)?;
    goes_on(rt, alloc, login, ("PING x", ""))
}

#[test]
fn two_hundred_lines(rt: HostRuntime) -> Result<(), Fail> {
    for last in TWO_HUNDRED_LINES {
        ends_with(&rt, rt.alloc(), &mut Login::new(rt.alloc()), last)?;
    }
    Ok(())
}
