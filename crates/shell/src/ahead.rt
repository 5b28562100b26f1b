//! What was read of a connection and not handed on.

ghost use Rattle.std.specs.Prelude.{◌≡◌, ◌≢◌, ◌==◌, ◌+◌, ◌≤◌, ◌<◌, ◌++◌, [], ℕ, List, min, drop, take, length, true};
ghost use Rattle.std.specs.Prelude.{IfOk, IsOk, OnErr, vec_len, vec_capacity};
ghost use Rattle.std.specs.List.{count_by};
ghost use Rattle.std.specs.Io.{ReadsAtMost};
ghost use Rattle.std.specs.Io.KnownBytes.{Consumes, IsAtEnd, Keeps, prepend_known};
ghost use Rattle.shell.specs.Held.{first_length, line_length};

use irc_line::place_of;
use std::alloc::Global;
use std::io;
use std::io::{ErrorKind, Read};
use std::marker::Model;

/// How many bytes one read asks for.
const PIECE: usize = 1_024;

/// How many bytes there are at most.
const MOST: usize = 65_536;

/// How many bytes a line may have before its LF. More of them without LF are handed on as they are:
/// they end a session.
const LINE: usize = 16_384;

/// What was read of a connection and not handed on, in order: at most 64 KiB.
#[derive(Drop)]
pub(crate) struct Ahead {
    bytes: Vec<u8>,
    // how many of the first of these were handed on
    taken: usize,
}

impl Model for Ahead {
    ghost use Rattle.std.specs.Prelude.{ℕ, List, ◌≤◌, length, drop};

    ghost Value = { List ℕ };

    ghost view = { λ a. drop a.taken a.bytes.items };

    ghost invariant = { λ a. a.taken ≤ length a.bytes.items };
}

/// How many lines end among these bytes.
fn ends_in(bytes: &[u8]) -> u64
    ensures { result ≡ count_by (λ b. b == 10) bytes.now }
{
    bytes.iter().filter(|byte| **byte == b'\n').count() as u64
}

/// Makes room for what one read may bring; whether there is any. Nothing changes in the bytes.
fn make_room(bytes: &mut Vec<u8>) -> bool
    ensures same { bytes.new.items ≡ bytes.old.items }
    ensures room { result ≡ true → vec_len bytes.new + 1024 ≤ vec_capacity bytes.new }
{
    bytes.len() <= MOST - PIECE && bytes.try_reserve(PIECE).is_ok()
}

impl Ahead {
    /// Nothing.
    pub(crate) fn new(alloc: Global) -> Ahead
        ensures { result ≡ [] }
    {
        Ahead {
            bytes: Vec::new(alloc),
            taken: 0,
        }
    }

    /// What is there.
    pub(crate) fn rest(&self) -> &[u8]
        ensures { result.now ≡ self.now }
    {
        &self.bytes[self.taken..]
    }

    /// How many lines are there, each with its LF.
    pub(crate) fn line_count(&self) -> u64
        ensures { result ≡ count_by (λ b. b == 10) self.now }
    {
        ends_in(self.rest())
    }

    /// How many bytes the first line has with its LF; `None` if no LF is there.
    fn first_line(&self) -> Option<usize>
        ensures { result ≡ first_length self.now }
    {
        Some(place_of(b'\n', self.rest())? + 1)
    }

    /// How many bytes the first line has with its LF, or all that is there if no LF is.
    fn line_length(&self) -> usize
        ensures { result ≡ line_length self.now }
    {
        match self.first_line() {
            Some(length) => length,
            None => self.rest().len(),
        }
    }

    /// Frees the room of what was handed on, if that is half of the bytes.
    fn settle(&mut self)
        ensures { self.new ≡ self.old }
    {
        let taken = self.taken;
        if taken < self.bytes.len() / 2 {
            return;
        }
        self.bytes.rotate_left(taken);
        self.bytes.truncate(self.bytes.len() - taken);
        self.taken = 0;
    }

    /// Whether there is room for what one read may bring, and memory for it.
    pub(crate) fn has_room(&mut self) -> bool
        ensures { self.new ≡ self.old }
    {
        self.settle();
        make_room(&mut self.bytes)
    }

    /// Reads once; answers how many bytes came, 0 at the input's end. They come after what was
    /// there. If there is no room for them, nothing is read.
    pub(crate) fn fill<I: Read>(&mut self, input: &mut I) -> io::Result<usize>
        ensures kept { Keeps (prepend_known self.old (I.remaining input.old))
            (prepend_known self.new (I.remaining input.new)) }
        ensures longer { line_length self.old ≤ line_length self.new }
        ensures count { IfOk result (λ n. length self.new ≡ length self.old + n) }
        ensures end { IfOk result (λ n. n ≡ 0 → IsAtEnd (I.remaining input.new)) }
    {
        self.settle();
        if !make_room(&mut self.bytes) {
            return Err(io::Error::from(ErrorKind::OutOfMemory));
        }
        let mut piece = [0u8; PIECE];
        let count = input.read(&mut piece)?;
        self.bytes.extend_from_slice(&piece[..count])?;
        Ok(count)
    }

    /// Whether the first line is there, or more than a line may have.
    fn is_ready(&self) -> bool {
        self.first_line().is_some() || self.rest().len() > LINE
    }

    /// Reads until the first line is there, more than a line may have, or the input's end. Answers
    /// how many bytes that line has, or what else is there; 0 only if nothing is there and the
    /// input has ended.
    pub(crate) fn await_line<I: Read>(&mut self, input: &mut I) -> io::Result<usize>
        ensures kept { Keeps (prepend_known self.old (I.remaining input.old))
            (prepend_known self.new (I.remaining input.new)) }
        ensures longer { line_length self.old ≤ line_length self.new }
        ensures line { IfOk result (λ n. n ≡ line_length self.new) }
        ensures end { IfOk result (λ n. n ≡ 0 → (self.new ≡ []) × IsAtEnd (I.remaining input.new)) }
    {
        if self.rest().is_empty() && self.fill(input)? == 0 {
            return Ok(0);
        }
        for _ in 0..LINE {
            if self.is_ready() || self.fill(input)? == 0 {
                break;
            }
        }
        Ok(self.line_length())
    }

    /// Hands on what came first: at most this many bytes, and no more than there is room for.
    pub(crate) fn give(&mut self, buf: &mut [u8], most: usize) -> io::Result<usize>
        ensures bound { ReadsAtMost result buf.new }
        ensures ok { IsOk result }
        ensures given { IfOk result (λ n. self.old ≡ take n buf.new ++ self.new) }
        ensures rest { IfOk result (λ n. self.new ≡ drop n self.old) }
        ensures count { IfOk result (λ n. n ≡ min (min most (length self.old)) (length buf.old)) }
    {
        let rest = self.rest();
        let mut part = &rest[..most.min(rest.len())];
        let count = part.read(buf)?;
        self.taken += count;
        Ok(count)
    }
}

/// Reads on to the input's end, at most 64 MiB of it; answers how many lines came.
pub fn lines_left<I: Read>(input: &mut I) -> u64
    ensures { (bytes : List ℕ) × Consumes (I.remaining input.old) (I.remaining input.new) bytes
        × (result ≡ count_by (λ b. b == 10) bytes) }
{
    let mut count = 0;
    for _ in 0..MOST {
        let mut piece = [0u8; PIECE];
        match input.read(&mut piece) {
            Ok(0) | Err(_) => return count,
            Ok(length) => count += ends_in(&piece[..length]),
        }
    }
    count
}
