//! A reader that hands on one line at a time.

ghost use Rattle.std.specs.Prelude.{◌≡◌, ◌-◌, ◌≤◌, ◌<◌, [], IfOk, OnOk, take, length};
ghost use Rattle.std.specs.Io.{ReadsAtMost};
ghost use Rattle.std.specs.Io.KnownBytes.{IsAtEnd, Keeps, ReadConsumes, prepend_known};
ghost use Rattle.irc_line.specs.Lines.{HasNoLf};
ghost use Rattle.shell.specs.Held.{line_length};

use crate::ahead::Ahead;
use irc_line::lines_in;
use std::alloc::Global;
use std::io;
use std::io::Read;

/// A reader that hands on one line at a time, and keeps what it has read after that. At the end of
/// its input it hands on what is left there without an LF too. It notes whether a PASS was among
/// the lines.
#[derive(Drop)]
pub struct ByLine<I> {
    alloc: Global,
    input: I,
    ahead: Ahead,
    // how many bytes of a line that was begun are not handed on yet
    left: usize,
    has_pass: bool,
    ghost within: { left ≤ line_length ahead },
}

/// Whether these bytes are a PASS. If there is no memory to read them, they are not taken for one.
fn is_pass(alloc: Global, bytes: &[u8]) -> bool {
    match lines_in(alloc, bytes) {
        Ok(lines) => lines.iter().any(|line| line.is(b"PASS")),
        Err(_) => false,
    }
}

impl<I: Read> ByLine<I> {
    ghost use Rattle.shell.specs.Readers.{by_line_held, by_line_remaining};

    /// The lines of an input.
    pub fn new(alloc: Global, input: I) -> ByLine<I>
        ensures { by_line_remaining I.remaining result ≡ prepend_known [] (I.remaining input) }
    {
        ByLine {
            alloc,
            input,
            ahead: Ahead::new(alloc),
            left: 0,
            has_pass: false,
        }
    }

    /// What is read.
    pub fn input(&self) -> &I {
        &self.input
    }

    /// Whether a PASS was handed on.
    pub fn has_pass(&self) -> bool {
        self.has_pass
    }

    /// Waits for the next line, unless one was begun and is not handed on yet.
    fn begin_line(&mut self) -> io::Result<()>
        ensures kept { Keeps (by_line_remaining I.remaining self.old)
            (by_line_remaining I.remaining self.new) }
        ensures end { OnOk result (self.new.left ≡ 0 →
            (by_line_held self.new ≡ []) × IsAtEnd (I.remaining self.new.input)) }
    {
        if self.left == 0 {
            self.left = self.ahead.await_line(&mut self.input)?;
            self.has_pass |= is_pass(self.alloc, &self.ahead.rest()[..self.left]);
        }
        Ok(())
    }

    /// What is read, and what was read of it and not handed on.
    pub(crate) fn into_parts(self) -> (I, Ahead)
        ensures { prepend_known result.1 (I.remaining result.0) ≡ by_line_remaining I.remaining self }
    {
        (self.input, self.ahead)
    }
}

impl<I: Read> Read for ByLine<I> {
    ghost use Rattle.shell.specs.Readers.{by_line_held, by_line_remaining};

    ghost remaining = { by_line_remaining I.remaining };

    fn read(&mut self, buf: &mut [u8]) -> io::Result<usize>
        ensures bound { ReadsAtMost result buf.new }
        ensures bytes { ReadConsumes (by_line_remaining I.remaining self.old)
            (by_line_remaining I.remaining self.new) result buf.new }
        // no more than one line
        ensures line { IfOk result (λ n. HasNoLf (take (n - 1) buf.new)) }
        // the end comes only after what is held
        ensures end { IfOk result (λ n. n ≡ 0 → 0 < length buf.new → by_line_held self.new ≡ []) }
    {
        self.begin_line()?;
        let count = self.ahead.give(buf, self.left)?;
        self.left -= count;
        Ok(count)
    }
}
