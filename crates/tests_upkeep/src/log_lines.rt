//! The lines of the log.

use client_caps::Caps;
use hub_core::AttachError;
use serving::{
    Cause, Ending, Farewell, LastWords, NetworkEvent, Recalled, SessionEvent, Shown, StrangerEvent,
    Who,
};
use std::alloc::Global;
use std::fmt;
use std::net::SocketAddr;
use std::test::Fail;
use test_stage::peer::same;

/// Fails if an event is not written like this.
fn is_written<E: fmt::Display>(alloc: Global, event: &E, want: &str) -> Result<(), Fail> {
    let text = format!(in alloc; "{event}")?;
    same(alloc, text.as_str().as_bytes(), want)
}

#[test]
fn what_comes_from_outside_is_no_line_of_the_log(rt: HostRuntime) -> Result<(), Fail> {
    let alloc = rt.alloc();
    let shown = Shown(b"a\r\nb c\x1b[0m\xff");
    let who = Who {
        user: b"ann",
        client: Some(b"pc"),
        network: b"net",
    };
    let text = format!(in alloc; "{shown} {who}")?;
    same(alloc, text.as_str().as_bytes(), "a??b?c?[0m? ann@pc/net")
}

#[test]
fn what_the_log_tells(rt: HostRuntime) -> Result<(), Fail> {
    let peer: SocketAddr = "127.0.0.1:5000".parse()?;
    let mut caps = Caps::none();
    caps.multi_prefix = true;
    caps.batch = true;
    let rows = [
        (
            SessionEvent::LoggedIn { peer, caps },
            "logged in from 127.0.0.1:5000, multi-prefix batch",
        ),
        (
            SessionEvent::CapsChanged { caps },
            "changed its capabilities, multi-prefix batch",
        ),
        (
            SessionEvent::NotAttached(AttachError::NotReady),
            "not attached: not ready",
        ),
        (
            SessionEvent::NoSession(Farewell::TooMuch),
            "not attached: too much memory",
        ),
        (
            SessionEvent::Cut { bytes: 9 },
            "session cut: it took too little; 9 bytes written",
        ),
        (
            SessionEvent::Unsaid { lines: 7 },
            "lost 7 lines that the client had not yet said",
        ),
    ];
    for (event, want) in rows {
        is_written(rt.alloc(), &event, want)?;
    }
    let event = StrangerEvent::NoSuchNetwork { peer };
    is_written(
        rt.alloc(),
        &event,
        "login to a network that the user hasn't, from 127.0.0.1:5000",
    )?;
    let event = StrangerEvent::WrongPassword { peer };
    is_written(rt.alloc(), &event, "wrong password from 127.0.0.1:5000")
}

/// Last words of a network.
fn last_words(
    alloc: Global,
    refusal: Option<&[u8]>,
    error: Option<&[u8]>,
) -> Result<LastWords, Fail> {
    let mut words = LastWords {
        refusal: None,
        error: None,
    };
    if let Some(text) = refusal {
        words.refusal = Some(Vec::from_slice(alloc, text)?);
    }
    if let Some(text) = error {
        words.error = Some(Vec::from_slice(alloc, text)?);
    }
    Ok(words)
}

#[test]
fn what_the_log_tells_of_an_end(rt: HostRuntime) -> Result<(), Fail> {
    let alloc = rt.alloc();
    let cause = "closed";
    let said = last_words(alloc, None, Some(b"Closing Link: h (\x1bbye)"))?;
    let ending = Ending::Lost { cause, said };
    let event = NetworkEvent::Ended {
        ending: &ending,
        again: Some(30),
    };
    is_written(
        alloc,
        &event,
        "connection lost: closed; it said: Closing Link: h (?bye); dials again in 30 s",
    )?;
    is_written(
        alloc,
        &NetworkEvent::EndedAlike { count: 1 },
        "last reason repeated once",
    )?;
    is_written(
        alloc,
        &NetworkEvent::EndedAlike { count: 12 },
        "last reason repeated 12 times",
    )?;
    let event = SessionEvent::Ended {
        cause,
        whole: false,
        bytes: 12,
    };
    is_written(
        alloc,
        &event,
        "session ended: closed; cannot write; 12 bytes written",
    )
}

/// What is logged of a network that is begun anew.
#[test]
fn what_the_log_tells_of_a_network_begun_anew(rt: HostRuntime) -> Result<(), Fail> {
    let outgrown = Cause::Outgrown {
        bytes: 8_400_000,
        budget: 8_388_608,
    };
    let rows = [
        (
            (Cause::NoMemory, Recalled::Nothing),
            "out of memory, begun anew: the messages and marks kept are gone",
        ),
        (
            (Cause::NoMemory, Recalled::All),
            "out of memory, begun anew with what its journal holds",
        ),
        (
            (outgrown, Recalled::NoMessages),
            "keeps 8400000 bytes, more than its budget of 8 MiB, begun anew: the messages kept are gone",
        ),
    ];
    for ((cause, recalled), want) in rows {
        let event = NetworkEvent::BegunAnew { cause, recalled };
        is_written(rt.alloc(), &event, want)?;
    }
    Ok(())
}

/// What is logged of these last words of a network.
#[test]
fn a_refusal_and_the_error_after_it(rt: HostRuntime) -> Result<(), Fail> {
    let alloc = rt.alloc();
    let rows: [(Option<&[u8]>, Option<&[u8]>, &str); 7] = [
        (None, None, ""),
        (None, Some(b"Closing link"), "; it said: Closing link"),
        (Some(b"Banned"), None, "; it said: Banned"),
        (
            Some(b"You're banned!"),
            Some(b"Closing link: h (G-lined: spam)"),
            "; it said: You're banned!; then: Closing link: h (G-lined: spam)",
        ),
        (Some(b"Banned"), Some(b"Banned"), "; it said: Banned"),
        (
            Some(b"no open proxies"),
            Some(b"Closing link: h (no open proxies)"),
            "; it said: Closing link: h (no open proxies)",
        ),
        (
            Some(b"Banned: spam"),
            Some(b"spam"),
            "; it said: Banned: spam",
        ),
    ];
    for (refusal, error, want) in rows {
        is_written(alloc, &last_words(alloc, refusal, error)?, want)?;
    }
    Ok(())
}

/// A text of the network that has a password of ours within it is not logged.
#[test]
fn last_words_without_a_password(rt: HostRuntime) -> Result<(), Fail> {
    let alloc = rt.alloc();
    let rows: [(Option<&[u8]>, &str); 5] = [
        (None, "; it said: login as ann s3cret; then: bye"),
        (Some(b""), "; it said: login as ann s3cret; then: bye"),
        (Some(b"other"), "; it said: login as ann s3cret; then: bye"),
        (Some(b"s3cret"), "; it said: bye"),
        (Some(b"bye"), "; it said: login as ann s3cret"),
    ];
    for (secret, want) in rows {
        let words = last_words(alloc, Some(b"login as ann s3cret"), Some(b"bye"))?;
        is_written(alloc, &words.without(secret), want)?;
    }
    Ok(())
}
