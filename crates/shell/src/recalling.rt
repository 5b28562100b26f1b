//! What a network said last.

ghost use Rattle.std.specs.Prelude.{◌≡◌, IfOk, None, OnErr, drop, option_and_then, option_map};
ghost use Rattle.std.specs.Prelude.{take};
ghost use Rattle.std.specs.Io.{ReadsAtMost};
ghost use Rattle.std.specs.Io.KnownBytes.{ReadConsumes};
ghost use Rattle.shell.specs.Recalled.{and_then, last_error, no_entry, no_login, no_nick, parting};
ghost use Rattle.shell.specs.Recalled.{refusal_after, refusal_of, refuses};
ghost use Rattle.shell.specs.Readers.{recalled, recalling_input};

use circular_buffer::HeapCircularBuffer;
use irc_line::{Line, OutOfMemory, lines_in};
use sasl::{Login, last_param};
use std::alloc::Global;
use std::io;
use std::io::Read;

/// How many bytes of what was read last are kept.
const KEPT: usize = 1_024;

/// A reader that keeps the last 1,024 bytes of what it read, if there is memory for them.
#[derive(Drop)]
pub struct Recalling<I> {
    pub(crate) input: I,
    last: Option<HeapCircularBuffer<u8>>,
}

/// The text of the last of these lines, if it is an ERROR (RFC 2812, section 3.7.4).
fn last_error(alloc: Global, lines: &[Line]) -> Result<Option<Vec<u8>>, OutOfMemory>
    ensures { IfOk result (λ text. option_map (λ t. t.items) text ≡ last_error lines.now) }
{
    match lines.last() {
        Some(line) if line.is(b"ERROR") => match line.param(0) {
            Some(text) => Ok(Some(Vec::from_slice(alloc, text)?)),
            None => Ok(None),
        },
        _ => Ok(None),
    }
}

/// What the words of a network are about.
#[derive(Clone, Copy)]
enum About {
    /// It does not let us in: 463 ERR_NOPERMFORHOST, 465 ERR_YOUREBANNEDCREEP (RFC 2812, section
    /// 5.2).
    Entry,
    /// It does not log us in to our account.
    Account,
    /// It does not give us a nick: 432 ERR_ERRONEUSNICKNAME, 433 ERR_NICKNAMEINUSE, 437
    /// ERR_UNAVAILRESOURCE.
    Nick,
}

/// Whether a line refuses this.
fn refuses(about: About, line: &Line) -> bool
    ensures { result ≡ refuses about line.now }
{
    match about {
        About::Entry => line.is(b"463") || line.is(b"465"),
        About::Account => Login::is_failure(line),
        About::Nick => line.is(b"432") || line.is(b"433") || line.is(b"437"),
    }
}

/// The last parameter of the last of these lines that refuses this.
fn refusal(alloc: Global, about: About, lines: &[Line]) -> Result<Option<Vec<u8>>, OutOfMemory>
    ensures { IfOk result (λ text. option_map (λ t. t.items) text
        ≡ refusal_after about None lines.now) }
{
    let mut found: Option<&[u8]> = None;
    for line in lines {
        if refuses(about, line) {
            found = Some(last_param(line));
        }
    }
    match found {
        Some(text) => Ok(Some(Vec::from_slice(alloc, text)?)),
        None => Ok(None),
    }
}

/// All of these lines but the first.
fn without_first(lines: &[Line]) -> &[Line]
    ensures { result.now ≡ drop 1 lines.now }
{
    match lines {
        [_, rest @ ..] => rest,
        [] => lines,
    }
}

impl<I: Read> Recalling<I> {
    /// A reader that keeps what it reads from here on.
    pub fn new(alloc: Global, input: I) -> Recalling<I>
        ensures { recalling_input result ≡ input }
    {
        Recalling {
            input,
            last: HeapCircularBuffer::with_capacity(alloc, KEPT).ok(),
        }
    }

    /// What was read last says why the connection ends: the text of the last line, if it is an ERROR, as
    /// `ERROR :Closing Link: h (Ping timeout)`.
    pub fn parting(&self, alloc: Global) -> Result<Option<Vec<u8>>, OutOfMemory>
        ensures { IfOk result (λ text. option_map (λ t. t.items) text
            ≡ option_and_then parting (recalled self.now)) }
    {
        let Some(last) = &self.last else {
            return Ok(None);
        };
        let lines = lines_in(alloc, &last.to_vec(alloc)?)?;
        // the first line may have lost its beginning
        if last.is_full() {
            return last_error(alloc, without_first(&lines));
        }
        last_error(alloc, &lines)
    }

    /// The last parameter of the last line that refuses this, among what was read last.
    fn refusal_of(&self, alloc: Global, about: About) -> Result<Option<Vec<u8>>, OutOfMemory>
        ensures { IfOk result (λ text. option_map (λ t. t.items) text
            ≡ option_and_then (refusal_of about) (recalled self.now)) }
    {
        let Some(last) = &self.last else {
            return Ok(None);
        };
        let lines = lines_in(alloc, &last.to_vec(alloc)?)?;
        // the first line may have lost its beginning
        if last.is_full() {
            return refusal(alloc, about, without_first(&lines));
        }
        refusal(alloc, about, &lines)
    }

    /// What was read last says why the network does not let us in, as the text of
    /// `:s 465 ann :You are banned`.
    pub fn no_entry(&self, alloc: Global) -> Result<Option<Vec<u8>>, OutOfMemory>
        ensures { IfOk result (λ text. option_map (λ t. t.items) text
            ≡ option_and_then no_entry (recalled self.now)) }
    {
        self.refusal_of(alloc, About::Entry)
    }

    /// What was read last says why the network does not log us in to our account, as the text of
    /// `:s 904 ann :SASL authentication failed`.
    pub fn no_login(&self, alloc: Global) -> Result<Option<Vec<u8>>, OutOfMemory>
        ensures { IfOk result (λ text. option_map (λ t. t.items) text
            ≡ option_and_then no_login (recalled self.now)) }
    {
        self.refusal_of(alloc, About::Account)
    }

    /// What was read last says why the network does not give us a nick, as the text of
    /// `:s 433 * ann :Nickname is already in use`.
    pub fn no_nick(&self, alloc: Global) -> Result<Option<Vec<u8>>, OutOfMemory>
        ensures { IfOk result (λ text. option_map (λ t. t.items) text
            ≡ option_and_then no_nick (recalled self.now)) }
    {
        self.refusal_of(alloc, About::Nick)
    }
}

impl<I: Read> Read for Recalling<I> {
    ghost remaining = { λ r. I.remaining (recalling_input r) };

    fn read(&mut self, buf: &mut [u8]) -> io::Result<usize>
        ensures bound { ReadsAtMost result buf.new }
        ensures bytes { ReadConsumes (I.remaining (recalling_input self.old))
            (I.remaining (recalling_input self.new)) result buf.new }
        ensures recalls { IfOk result (λ n. recalled self.new
            ≡ option_map (λ kept. and_then kept (take n buf.new)) (recalled self.old)) }
        ensures err { OnErr result (recalled self.new ≡ recalled self.old) }
    {
        let count = self.input.read(buf)?;
        if let Some(last) = &mut self.last {
            last.extend_from_slice(&buf[..count]);
        }
        Ok(count)
    }
}
