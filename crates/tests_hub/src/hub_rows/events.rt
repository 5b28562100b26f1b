//! Events, written as lines of text.
//!
//! `up TEXT` is a line of the network, `piece TEXT` bytes of it without LF, `lost` the loss of the
//! connection. `attach CAPS NAME CAPACITY` attaches a client, with `-` for no capabilities and for
//! no name; `detach ID` detaches a session; `leave ID N` leaves its name at that message, with `-`
//! for no number; `said ID LINE` is a line of its client. `drained ID N` takes packets out of a
//! session's outlet, `sent N` out of the one to the network.

use client_caps::{Caps, Moment, read_request};
use hub_runs::Event;
use irc_support::cut;
use std::alloc::{AllocError, Global};
use std::test::Fail;
use test_texts::line;

/// The number of some digits.
fn number(text: &[u8]) -> Result<u64, Fail> {
    let mut number: u64 = 0;
    for digit in text {
        let value = digit.checked_sub(b'0').ok_or("a digit")?;
        number = number.checked_mul(10).ok_or("64 bits")?;
        number = number.checked_add(value as u64).ok_or("64 bits")?;
    }
    Ok(number)
}

/// A text and its end.
fn bytes(alloc: Global, text: &[u8], end: &[u8]) -> Result<Vec<u8>, AllocError> {
    let mut bytes = Vec::from_slice(alloc, text)?;
    bytes.extend_from_slice(end)?;
    Ok(bytes)
}

/// The capabilities of these names with commas; `-` is none.
fn caps(alloc: Global, text: &[u8]) -> Result<Caps, Fail> {
    if text == b"-".as_slice() {
        return Ok(Caps::none());
    }
    let mut names = Vec::new(alloc);
    for byte in text {
        names.push(if *byte == b',' { b' ' } else { *byte })?;
    }
    Ok(read_request(Caps::none(), &names).ok_or("taken")?)
}

/// `CAPS NAME CAPACITY`; a name `-` is none.
fn attach(alloc: Global, text: &[u8]) -> Result<Event, Fail> {
    let (asked, rest) = cut(b' ', text);
    let (name, capacity) = cut(b' ', rest.unwrap_or(b""));
    let name = if name == b"-".as_slice() {
        None
    } else {
        Some(bytes(alloc, name, b"")?)
    };
    let capacity = number(capacity.unwrap_or(b""))?;
    Ok(Event::Attach(caps(alloc, asked)?, name, capacity as usize))
}

/// The event of a session, by its word and what follows the session's number.
fn event_of_session(alloc: Global, word: &[u8], id: u64, text: &[u8]) -> Result<Event, Fail> {
    if word == b"detach".as_slice() {
        return Ok(Event::Detach(id));
    }
    if word == b"leave".as_slice() && text == b"-".as_slice() {
        return Ok(Event::Leave(id, None));
    }
    if word == b"leave".as_slice() {
        return Ok(Event::Leave(id, Some(number(text)?)));
    }
    if word == b"drained".as_slice() {
        return Ok(Event::Drained(Some(id), number(text)? as usize));
    }
    Ok(Event::Said(id, line(alloc, text)?, Moment(0)))
}

/// The event of a line of text.
fn event(alloc: Global, text: &[u8]) -> Result<Event, Fail> {
    let (word, rest) = cut(b' ', text);
    let rest = rest.unwrap_or(b"");
    if word == b"up".as_slice() {
        return Ok(Event::Up(bytes(alloc, rest, b"\n")?, Moment(0)));
    }
    if word == b"piece".as_slice() {
        return Ok(Event::Up(bytes(alloc, rest, b"")?, Moment(0)));
    }
    if word == b"lost".as_slice() {
        return Ok(Event::Lost(Moment(0)));
    }
    if word == b"attach".as_slice() {
        return attach(alloc, rest);
    }
    if word == b"sent".as_slice() {
        return Ok(Event::Drained(None, number(rest)? as usize));
    }
    let (id, after) = cut(b' ', rest);
    event_of_session(alloc, word, number(id)?, after.unwrap_or(b""))
}

/// A welcome and our own JOIN.
pub(crate) const WELCOME: [&[u8]; 4] = [
    b"up :s 001 Me :hi",
    b"up :s 005 Me PREFIX=(ov)@+ CHANTYPES=# :are supported",
    b"up :s 376 Me :end",
    b"up :Me!m@h JOIN #c",
];

/// The events of a beginning, then those of a script.
pub(crate) fn events_of(
    alloc: Global,
    before: &[&[u8]],
    script: &[&[u8]],
) -> Result<Vec<Event>, Fail> {
    let mut events = Vec::new(alloc);
    for text in before {
        events.push(event(alloc, text)?)?;
    }
    for text in script {
        events.push(event(alloc, text)?)?;
    }
    Ok(events)
}
