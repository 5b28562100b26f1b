//! Logins to an account of a network, line by line.

use sasl::{Login, LoginStep, offers};
use std::alloc::Global;
use std::process::Abort;
use std::test::Fail;
use test_texts::{line, texts_of};

/// A login: an account with its password, its mechanism, and each line of the network with what is
/// sent then, or what it leads to.
type Row<'a> = (
    Option<(&'a str, &'a str)>,
    &'a str,
    &'a [(&'a str, &'a str)],
);

/// Base64 of `\0ann\0secret` is `AGFubgBzZWNyZXQ=` (RFC 4616, RFC 4648).
const LOGINS: &[Row<'static>] = &[
    (
        Some(("ann", "secret")),
        "PLAIN",
        &[
            ("AUTHENTICATE +", ""),
            (":s CAP * ACK :multi-prefix", ""),
            (":s CAP * ACK :multi-prefix sasl", "AUTHENTICATE PLAIN"),
            ("AUTHENTICATE +", "AUTHENTICATE AGFubgBzZWNyZXQ="),
            ("AUTHENTICATE +", ""),
            (":s 900 ann ann!a@h ann :You are now logged in as ann", ""),
            (":s 903 ann :SASL authentication successful", "CAP END"),
        ],
    ),
    (
        None,
        "EXTERNAL",
        &[
            (":s CAP * ACK sasl", "AUTHENTICATE EXTERNAL"),
            ("AUTHENTICATE +", "AUTHENTICATE +"),
            (":s 904 ann :SASL authentication failed", "failed"),
        ],
    ),
    (
        Some(("ann", "secret")),
        "PLAIN",
        &[(":s CAP * NAK :sasl", "failed")],
    ),
];

/// A step in words.
fn step_text(alloc: Global, step: &LoginStep) -> Result<Vec<u8>, Fail> {
    match step {
        LoginStep::Nothing => Ok(Vec::new(alloc)),
        LoginStep::Send(lines) => texts_of(alloc, lines.as_slice()),
        LoginStep::Failed => Ok(Vec::from_slice(alloc, b"failed")?),
    }
}

fn logs_in_so<R: AllocGlobal + Abort>(rt: &R, row: Row<'_>) -> Result<(), Fail> {
    let (account, mechanism, lines) = row;
    let account = match account {
        Some((name, password)) => Some((name.as_bytes(), password.as_bytes())),
        None => None,
    };
    let mut login = Login::start(rt.alloc(), account)?;
    assert!(rt; login.mechanism() == mechanism.as_bytes());
    for (text, wanted) in lines {
        let said = line(rt.alloc(), text.as_bytes())?;
        let step = step_text(rt.alloc(), &login.line(&said)?)?;
        assert!(rt; step.as_slice() == wanted.as_bytes(), "at {text}");
        assert!(rt; Login::is_failure(&said) == (*wanted == "failed"));
    }
    let ends_in = lines.last().ok_or("a line")?.1;
    assert!(rt; login.is_logged_in() == (ends_in == "CAP END"));
    Ok(())
}

#[test]
fn logins(rt: HostRuntime) -> Result<(), Fail> {
    for row in LOGINS {
        logs_in_so(&rt, *row)?;
    }
    Ok(())
}

/// Lists of capabilities, and whether they offer PLAIN (IRCv3 sasl 3.1 and 3.2).
const OFFERS: &[(&str, bool)] = &[
    ("", false),
    ("sasl", true),
    ("batch sasl=EXTERNAL,PLAIN", true),
    ("sasl=EXTERNAL batch", false),
    ("sasl=plain", false),
    ("sasl-x=PLAIN", false),
];

fn are_offers<R: Abort>(rt: &R, rows: &[(&str, bool)]) {
    for (list, wanted) in rows {
        assert!(rt; offers(b"PLAIN", list.as_bytes()) == *wanted, "at {list}");
    }
}

#[test]
fn networks_that_offer_a_login(rt: HostRuntime) -> Result<(), Fail> {
    are_offers(&rt, OFFERS);
    Ok(())
}
