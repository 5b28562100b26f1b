//! The lines that a login is answered by.

ghost use Rattle.std.specs.Prelude.{◌≡◌, ◌++◌, ◌∷◌, [], IfOk, IsTrue, OnOk};
ghost use Rattle.std.specs.Option.{option_to_list};
ghost use Rattle.irc_line.specs.Writing.{is_writable};
ghost use Rattle.client_caps.specs.Answers.{asked};
ghost use Rattle.sessions.specs.Answers.{is_granted, is_of_login, password_incorrect, reply};
ghost use Rattle.sessions.specs.Answers.{reply_by};

use crate::OutOfMemory;
use client_caps::{Asked, Caps, answer, asked_text, read_request};
use irc_line::Line;
use std::alloc::Global;

/// A reply to one who has no nick yet, as `:bnc 451 * :You have not registered`.
fn reply(alloc: Global, number: &[u8], text: &[u8]) -> Result<Line, OutOfMemory>
    requires { IsTrue (is_writable (reply number.now text.now)) }
    ensures { IfOk result (λ line. line ≡ reply number.now text.now) }
{
    Line::from_parts(alloc, None, Some(b"bnc"), number, &[b"*", text])
}

/// Whether a line is what a login is made of.
fn is_of_login(line: &Line) -> bool
    ensures { result ≡ is_of_login line.now }
{
    line.is(b"NICK") || line.is(b"USER") || line.is(b"PASS")
}

/// Whether the request of a line can be taken whole.
fn is_granted(held: Caps, line: &Line) -> bool
    ensures { result ≡ is_granted held line.now }
{
    read_request(held, asked_text(line)).is_some()
}

/// What a line is answered of a client that holds these capabilities.
fn reply_to(alloc: Global, held: Caps, line: &Line) -> Result<Option<Line>, OutOfMemory>
    ensures { IfOk result (λ answer. answer ≡ reply_by held line.now (asked line.now)) }
{
    match Asked::of(line) {
        Asked::Nothing if is_of_login(line) => Ok(None),
        Asked::Nothing => Ok(Some(reply(alloc, b"451", b"You have not registered")?)),
        _ => answer(alloc, None, held, is_granted(held, line), line),
    }
}

/// Adds a line, if there is one.
fn push_some(lines: &mut Vec<Line>, line: Option<Line>) -> Result<(), OutOfMemory>
    ensures { OnOk result (lines.new.items ≡ lines.old.items ++ option_to_list line) }
{
    if let Some(line) = line {
        lines.push(line)?;
    }
    Ok(())
}

/// What is sent for a line that does not end the login.
pub(crate) fn replies(alloc: Global, held: Caps, line: &Line) -> Result<Vec<Line>, OutOfMemory>
    ensures { IfOk result (λ lines. lines.items
        ≡ option_to_list (reply_by held line.now (asked line.now))) }
{
    let mut lines = Vec::new(alloc);
    push_some(&mut lines, reply_to(alloc, held, line)?)?;
    Ok(lines)
}

/// What is sent if a login names no network.
pub(crate) fn refusal(alloc: Global) -> Result<Vec<Line>, OutOfMemory>
    ensures { IfOk result (λ lines. lines.items ≡ password_incorrect ∷ []) }
{
    let mut lines = Vec::with_capacity(alloc, 1)?;
    lines.push(reply(alloc, b"464", b"Password incorrect")?)?;
    Ok(lines)
}
