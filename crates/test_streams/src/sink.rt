//! `Sink`: a writer that keeps what it takes.

use std::alloc::Global;
use std::io::{self, ErrorKind, Write};

/// A writer that keeps the bytes that it takes.
///
/// A test sets the public fields to what it needs; `new` sets no limit.
#[derive(Drop)]
pub struct Sink {
    /// The bytes that were taken.
    pub bytes: Vec<u8>,
    /// How many bytes a call takes at most.
    pub a_call: usize,
    /// How many bytes are taken in all. After them a call answers that it took none.
    pub in_all: usize,
    /// How many calls of `write` are left; after them each fails with `BrokenPipe`.
    pub good_calls: usize,
    /// How many calls of `flush` are left; after them each fails with `BrokenPipe`.
    pub good_flushes: usize,
}

impl Sink {
    /// One that takes all.
    pub fn new(alloc: Global) -> Sink {
        Sink {
            bytes: Vec::new(alloc),
            a_call: usize::MAX,
            in_all: usize::MAX,
            good_calls: usize::MAX,
            good_flushes: usize::MAX,
        }
    }

    /// One whose first write fails.
    pub fn closed(alloc: Global) -> Sink {
        let mut sink = Sink::new(alloc);
        sink.good_calls = 0;
        sink
    }
}

impl Write for Sink {
    fn write(&mut self, buf: &[u8]) -> io::Result<usize> {
        if self.good_calls == 0 {
            return Err(io::Error::from(ErrorKind::BrokenPipe));
        }
        self.good_calls -= 1;
        let left = self.in_all.saturating_sub(self.bytes.len());
        let count = buf.len().min(self.a_call).min(left);
        match self.bytes.extend_from_slice(&buf[..count]) {
            Ok(()) => Ok(count),
            Err(_) => Err(io::Error::from(ErrorKind::OutOfMemory)),
        }
    }

    fn flush(&mut self) -> io::Result<()> {
        if self.good_flushes == 0 {
            return Err(io::Error::from(ErrorKind::BrokenPipe));
        }
        self.good_flushes -= 1;
        Ok(())
    }
}
