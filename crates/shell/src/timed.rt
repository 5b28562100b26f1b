//! Readers over a connection, with a limit on its silence or on the whole of what is read.

ghost use Rattle.std.specs.Prelude.{◌≡◌, IfOk};
ghost use Rattle.shell.specs.Readers.{patient_input, until_input};

use crate::wire::Wire;
use std::io;
use std::io::{ErrorKind, Read};
use std::rt::Clock;
use std::time::{Duration, Instant};

/// What is done if nothing came for a while.
pub trait OnSilence {
    /// Does it.
    fn silent(&mut self);
}

/// A reader that does something if its input is silent, and fails if it stays so. How long a
/// silence is, is the input's own limit to a read.
#[derive(Drop)]
pub struct Patient<I, S> {
    input: I,
    on_silence: S,
    silences: u32,
}

impl<I: Read, S: OnSilence> Patient<I, S> {
    /// A reader that fails at the last of this many silences in succession, and does something at
    /// each before it.
    pub fn new(input: I, on_silence: S, silences: u32) -> Patient<I, S>
        ensures { patient_input result ≡ input }
    {
        Patient {
            input,
            on_silence,
            silences,
        }
    }
}

/// Whether a read ended since nothing came in time.
pub fn is_silence(error: &io::Error) -> bool {
    error.kind() == ErrorKind::WouldBlock || error.kind() == ErrorKind::TimedOut
}

impl<I: Read, S: OnSilence> Read for Patient<I, S> {
    ghost remaining = { λ r. I.remaining r.input };

    fn read(&mut self, buf: &mut [u8]) -> io::Result<usize> {
        for _ in 1..self.silences {
            match self.input.read(buf) {
                Err(error) if is_silence(&error) => self.on_silence.silent(),
                read => return read,
            }
        }
        self.input.read(buf)
    }
}

/// A reader over a connection that fails from a moment on. It sets the connection's limit to a
/// read, which holds of the connection in every hand.
#[derive(Drop)]
pub struct Until<'a, S, C> {
    input: S,
    clock: &'a C,
    start: Instant,
    limit: Duration,
}

impl<'a, S: Wire, C: Clock> Until<'a, S, C> {
    /// A reader that fails once this time is over, from now on.
    pub fn start(input: S, clock: &'a C, limit: Duration) -> io::Result<Until<'a, S, C>>
    where
        S: Drop,
        ensures { IfOk result (λ r. until_input r ≡ input) }
    {
        let start = Instant::now(clock)?;
        Ok(Until {
            input,
            clock,
            start,
            limit,
        })
    }

    /// Whether this time is over.
    pub fn is_over(&self) -> bool {
        match self.start.elapsed(self.clock) {
            Ok(passed) => passed >= self.limit,
            Err(_) => false,
        }
    }

    /// What is read.
    pub fn into_input(self) -> S
        ensures { result ≡ until_input self.entry }
    {
        self.input
    }
}

impl<S: Wire, C: Clock> Read for Until<'_, S, C> {
    ghost remaining = { λ r. S.remaining r.input };

    fn read(&mut self, buf: &mut [u8]) -> io::Result<usize> {
        let left = self.limit.saturating_sub(self.start.elapsed(self.clock)?);
        if left.is_zero() {
            return Err(io::Error::from(ErrorKind::TimedOut));
        }
        self.input.limit_reads(Some(left))?;
        self.input.read(buf)
    }
}
