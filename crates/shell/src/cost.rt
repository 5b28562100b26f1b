//! What a line costs of the pace, and whether it asks for other capabilities.

ghost use Rattle.std.specs.Prelude.{◌≡◌, IfOk, length};
ghost use Rattle.std.specs.List.{list_any};
ghost use Rattle.irc_line.specs.Lines.{lines_of};
ghost use Rattle.shell.specs.Pacing.{cost_of, full_cost, is_request, is_unheard};

use irc_line::{Line, OutOfMemory, lines_in};
use std::alloc::Global;

/// What a line costs at least, in bytes: servers count lines too (RFC 2813, section 5.8).
const LEAST: usize = 30;

/// Whether nobody but us hears a line.
fn is_unheard(line: &Line) -> bool
    ensures { result ≡ is_unheard line.now }
{
    line.is(b"PING") || line.is(b"PONG") || line.is(b"CAP") || line.is(b"QUIT")
}

/// Whether nobody but us hears one of these lines.
fn are_unheard(lines: &[Line]) -> bool
    ensures { result ≡ list_any is_unheard lines.now }
{
    lines.iter().any(|line| is_unheard(line))
}

/// What a line of this many bytes costs if the network hears it: its bytes, and at least 30.
pub fn full_cost(bytes: usize) -> usize
    ensures { result ≡ full_cost bytes }
{
    bytes.max(LEAST)
}

/// Whether a line asks for other capabilities (IRCv3 capability negotiation, CAP REQ).
fn is_request(line: &Line) -> bool
    ensures { result ≡ is_request line.now }
{
    match line.param(0) {
        Some(word) => line.is(b"CAP") && word.eq_ignore_ascii_case(b"REQ"),
        None => false,
    }
}

/// Whether one of these lines does.
fn are_requests(lines: &[Line]) -> bool
    ensures { result ≡ list_any is_request lines.now }
{
    lines.iter().any(|line| is_request(line))
}

/// What a line asks of the pace.
#[derive(Clone, Copy, Debug, PartialEq, Eq)]
pub struct Toll {
    /// What it costs, in bytes.
    pub cost: usize,
    /// Whether it asks for other capabilities.
    pub is_request: bool,
}

/// What these bytes of a line ask: nothing is the cost of a PING, PONG, CAP or QUIT.
pub fn toll_of(alloc: Global, bytes: &[u8]) -> Result<Toll, OutOfMemory>
    ensures cost { IfOk result (λ toll. toll.cost ≡ cost_of bytes.now) }
    ensures request { IfOk result
        (λ toll. toll.is_request ≡ list_any is_request (lines_of bytes.now)) }
{
    let lines = lines_in(alloc, bytes)?;
    let cost = if are_unheard(&lines) {
        0
    } else {
        full_cost(bytes.len())
    };
    Ok(Toll {
        cost,
        is_request: are_requests(&lines),
    })
}
