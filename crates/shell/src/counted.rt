//! A writer that counts what it writes.

ghost use Rattle.std.specs.Prelude.{◌≡◌, IfOk};
ghost use Rattle.shell.specs.Readers.{counted_out};

use crate::last_line::ends_within;
use std::alloc::{AllocError, Global};
use std::io;
use std::io::Write;
use std::sync::Arc;
use std::sync::atomic::{AtomicBool, AtomicU64, Ordering};

/// What a writer wrote.
#[derive(Drop)]
struct Total {
    bytes: AtomicU64,
    is_within_line: AtomicBool,
}

/// A writer that counts the bytes that it wrote, and notes whether they end within a line.
#[derive(Drop)]
pub struct Counted<W> {
    out: W,
    total: Arc<Total>,
}

/// How much a writer wrote, wherever that writer is.
#[derive(Drop)]
pub struct Count {
    total: Arc<Total>,
}

impl<W: Write> Counted<W> {
    /// A writer that counts from here on, and its count.
    pub fn new(alloc: Global, out: W) -> Result<(Counted<W>, Count), AllocError>
    where
        W: Drop,
        ensures { IfOk result (λ x. counted_out x.0 ≡ out) }
    {
        let total = Total {
            bytes: AtomicU64::new(0),
            is_within_line: AtomicBool::new(false),
        };
        let total = Arc::new(alloc, total)?;
        let theirs = Arc::try_clone(&total)?;
        Ok((Counted { out, total: theirs }, Count { total }))
    }
}

impl Count {
    /// Begins again.
    pub fn begin(&self) {
        self.total.bytes.store(0, Ordering::SeqCst)
    }

    /// How many bytes were written so far.
    pub fn so_far(&self) -> u64 {
        self.total.bytes.load(Ordering::SeqCst)
    }

    /// Whether what was written ends within a line.
    pub fn is_within_line(&self) -> bool {
        self.total.is_within_line.load(Ordering::SeqCst)
    }
}

impl<W: Write> Write for Counted<W> {
    ghost contents = { λ c. W.contents (counted_out c) };

    fn write(&mut self, buf: &[u8]) -> io::Result<usize> {
        let count = self.out.write(buf)?;
        let is_within = &self.total.is_within_line;
        let before = is_within.load(Ordering::SeqCst);
        is_within.store(ends_within(before, &buf[..count]), Ordering::SeqCst);
        self.total.bytes.fetch_add(count as u64, Ordering::SeqCst);
        Ok(count)
    }

    fn flush(&mut self) -> io::Result<()> {
        self.out.flush()
    }
}
