//! Replies to events, as lines of text.

use hub_core::{AttachError, HubError, Pumped, Said};
use hub_runs::{Reply, Stop};
use std::test::Fail;

/// Adds the digits of a number.
pub(crate) fn push_number(text: &mut Vec<u8>, number: u64) -> Result<(), Fail> {
    let digits = format!(in *text.allocator(); "{number}")?;
    text.extend_from_slice(digits.as_str().as_bytes())?;
    Ok(())
}

/// Adds a line with CR LF, or lines that have it.
pub(crate) fn push_line(text: &mut Vec<u8>, line: &[u8]) -> Result<(), Fail> {
    text.extend_from_slice(line)?;
    if !line.ends_with(b"\r\n") {
        text.extend_from_slice(b"\r\n")?;
    }
    Ok(())
}

/// Adds a line of a word and a number.
pub(crate) fn push_count(text: &mut Vec<u8>, word: &[u8], number: u64) -> Result<(), Fail> {
    text.extend_from_slice(word)?;
    push_number(text, number)?;
    push_line(text, b"")
}

/// Adds how many sessions were cut by an item, if any was.
fn push_pumped(text: &mut Vec<u8>, pumped: Pumped) -> Result<(), Fail> {
    match pumped {
        Pumped::Nothing => push_line(text, b"nothing"),
        Pumped::Taken { cut } if cut > 0 => push_count(text, b"cut ", cut as u64),
        Pumped::Taken { cut: _ } => Ok(()),
    }
}

/// Why no session was attached.
fn refusal_text(e: AttachError) -> &'static [u8] {
    match e {
        AttachError::NotReady => b"not ready",
        AttachError::Full => b"full",
        AttachError::NamesFull => b"names full",
        AttachError::Spent => b"numbers spent",
        AttachError::OutOfMemory => b"out of memory",
        AttachError::OutletFull => b"outlet full",
    }
}

/// What was done with a line of a session.
fn said_text(said: Said) -> &'static [u8] {
    match said {
        Said::NoSession => b"no session",
        Said::Quit => b"quit",
        Said::Answered => b"answered",
        Said::Cut => b"cut",
        Said::Offline => b"offline",
        Said::Busy => b"busy",
        Said::Forwarded => b"forwarded",
    }
}

/// Why a line of a session was refused.
fn error_text(e: HubError) -> &'static [u8] {
    match e {
        HubError::Spent => b"numbers spent",
        HubError::OutOfMemory => b"out of memory",
    }
}

/// Why a run stopped.
pub(crate) fn stop_text(stop: Stop) -> &'static [u8] {
    match stop {
        Stop::Memory => b"stopped: out of memory",
        Stop::Spent => b"stopped: numbers spent",
        Stop::TooLong => b"stopped: line too long",
    }
}

/// Adds the reply to an event; an item that cut nobody and a detach add nothing.
pub(crate) fn push_reply(text: &mut Vec<u8>, reply: &Reply) -> Result<(), Fail> {
    match reply {
        Reply::Up(all) => {
            for pumped in all {
                push_pumped(text, *pumped)?;
            }
            Ok(())
        }
        Reply::Lost(pumped) => push_pumped(text, *pumped),
        Reply::Attach(Ok(id)) => push_count(text, b"session ", *id),
        Reply::Attach(Err(e)) => push_line(text, refusal_text(*e)),
        Reply::Detach(Ok(())) => Ok(()),
        Reply::Detach(Err(_)) => push_line(text, b"no session"),
        Reply::Said(Ok(said)) => push_line(text, said_text(*said)),
        Reply::Said(Err(e)) => push_line(text, error_text(*e)),
        Reply::Drained(count) => push_count(text, b"drained ", *count as u64),
    }
}
