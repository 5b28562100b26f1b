//! The response to `AUTHENTICATE +`.

ghost use Rattle.std.specs.Prelude.{◌≡◌, IfOk, IsTrue, option_map, take};
ghost use Rattle.base64.specs.Engines.{standard};
ghost use Rattle.base64.specs.GeneralPurpose.{encode_of};
ghost use Rattle.irc_line.specs.Writing.{is_clean};
ghost use Rattle.sasl.specs.Response.{authenticate, piece_line, response_lines, response_of};

use crate::OutOfMemory;
use base64::engine::general_purpose::STANDARD;
use irc_line::Line;
use std::alloc::Global;

/// How many bytes of the response one line has at most (IRCv3 sasl 3.1).
const PIECE: usize = 400;

/// The base64 of some bytes (RFC 4648, section 4).
fn encoded(alloc: Global, bytes: &[u8]) -> Result<Vec<u8>, OutOfMemory>
    ensures value { IfOk result (λ text. text.items ≡ encode_of standard bytes.now) }
    ensures clean { IfOk result (λ text. IsTrue (is_clean text.items)) }
{
    let text = STANDARD.encode(alloc, bytes)?;
    Vec::from_slice(alloc, text.as_bytes())
}

/// The response in base64, of an account and its password by PLAIN; empty by EXTERNAL.
pub(crate) fn response_of(
    alloc: Global,
    account: Option<(&[u8], &[u8])>,
) -> Result<Vec<u8>, OutOfMemory>
    ensures value { IfOk result (λ text. text.items
        ≡ response_of (option_map (λ login. (login.0.now, login.1.now)) account.entry)) }
    ensures clean { IfOk result (λ text. IsTrue (is_clean text.items)) }
{
    let Some((user, password)) = account else {
        return Ok(Vec::new(alloc));
    };
    let mut message = Vec::with_capacity(alloc, 2)?;
    message.push(0)?;
    message.extend_from_slice(user)?;
    message.push(0)?;
    message.extend_from_slice(password)?;
    encoded(alloc, message.as_slice())
}

/// `AUTHENTICATE param`.
pub(crate) fn authenticate(alloc: Global, param: &[u8]) -> Result<Line, OutOfMemory>
    requires { IsTrue (is_clean param.now) }
    ensures { IfOk result (λ line. line ≡ authenticate param.now) }
{
    Line::from_parts(alloc, None, None, b"AUTHENTICATE", &[param])
}

/// The line of a piece; an empty one is `+`.
fn piece_line(alloc: Global, piece: &[u8]) -> Result<Line, OutOfMemory>
    requires { IsTrue (is_clean piece.now) }
    ensures { IfOk result (λ line. line ≡ piece_line piece.now) }
{
    match piece {
        [] => authenticate(alloc, b"+"),
        [_, ..] => authenticate(alloc, piece),
    }
}

/// The first piece of a text.
fn front(text: &[u8]) -> &[u8]
    ensures { result.now ≡ take 400 text.now }
{
    if text.len() < PIECE {
        text
    } else {
        &text[..PIECE]
    }
}

/// A text in pieces of at most 400 bytes; the last is shorter.
pub(crate) fn response_lines(alloc: Global, text: &[u8]) -> Result<Vec<Line>, OutOfMemory>
    requires { IsTrue (is_clean text.now) }
    ensures { IfOk result (λ lines. lines.items ≡ response_lines text.now) }
{
    let count = text.len() / PIECE + 1;
    let mut lines = Vec::with_capacity(alloc, count)?;
    for place in 0..count {
        let (_, rest) = text.split_at(PIECE * place);
        lines.push(piece_line(alloc, front(rest))?)?;
    }
    Ok(lines)
}
