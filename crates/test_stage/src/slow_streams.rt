//! Writers to clients that read slowly or not at all. Some raise a flag when they are dropped.

use crate::gates::SharedDoor;
use std::alloc::Global;
use std::io::{self, ErrorKind, Write};
use std::sync::Arc;
use std::sync::atomic::{AtomicBool, Ordering};
use std::test::Fail;
use std::thread;
use std::time::{Clock, Duration};

/// A flag that a stream raises when it is dropped.
pub type SharedFlag = Arc<AtomicBool, Global>;

/// A flag that is down.
pub fn flag(alloc: Global) -> Result<SharedFlag, Fail> {
    Ok(Arc::new(alloc, AtomicBool::new(false))?)
}

/// A client that is gone: each write fails.
pub struct Gone {
    pub dropped: SharedFlag,
}

impl Drop for Gone {
    fn drop(self) {
        let Gone { dropped } = self;
        dropped.store(true, Ordering::SeqCst);
        drop(dropped);
    }
}

impl Write for Gone {
    fn write(&mut self, _buf: &[u8]) -> io::Result<usize> {
        Err(io::Error::from(ErrorKind::BrokenPipe))
    }

    fn flush(&mut self) -> io::Result<()> {
        Ok(())
    }
}

/// How many bytes a slow client takes in a call, and how many before its door is opened.
const PART: usize = 1_000;

/// A client that takes 1,000 bytes, and then nothing until a door is opened: until then each write
/// ends after 4 ms. Afterwards it takes at most 1,000 bytes in a call. Each third call is
/// interrupted.
pub struct Slow<R: Clock> {
    pub rt: R,
    pub door: SharedDoor,
    pub dropped: SharedFlag,
    pub bytes: Vec<u8>,
    pub calls: u64,
}

impl<R: Clock + Drop> Drop for Slow<R> {
    fn drop(self) {
        let Slow {
            rt,
            door,
            dropped,
            bytes,
            calls: _,
        } = self;
        dropped.store(true, Ordering::SeqCst);
        drop(dropped);
        drop(door);
        drop(bytes);
        drop(rt);
    }
}

impl<R: Clock> Write for Slow<R> {
    fn write(&mut self, buf: &[u8]) -> io::Result<usize> {
        self.calls = self.calls.wrapping_add(1);
        if self.calls % 3 == 0 {
            return Err(io::Error::from(ErrorKind::Interrupted));
        }
        if self.bytes.len() >= PART && !self.door.is_open() {
            thread::sleep(&self.rt, Duration::from_millis(4));
            return Err(io::Error::from(ErrorKind::WouldBlock));
        }
        let count = buf.len().min(PART);
        match self.bytes.extend_from_slice(&buf[..count]) {
            Ok(()) => Ok(count),
            Err(_) => Err(io::Error::from(ErrorKind::OutOfMemory)),
        }
    }

    fn flush(&mut self) -> io::Result<()> {
        Ok(())
    }
}

/// A client that takes one byte in each call.
#[derive(Drop)]
pub struct Dripping {
    pub calls: u64,
}

impl Write for Dripping {
    fn write(&mut self, buf: &[u8]) -> io::Result<usize> {
        self.calls = self.calls.wrapping_add(1);
        Ok(buf.len().min(1))
    }

    fn flush(&mut self) -> io::Result<()> {
        Ok(())
    }
}
