//! A connection that several threads have.

ghost use Rattle.std.specs.Prelude.{◌≤◌, IfOk, length};

use crate::closing::hang_up;
use shell::{ends_within, is_silence};
use std::alloc::{AllocError, Global};
use std::io;
use std::io::{ErrorKind, Read, Write};
use std::net::{Shutdown, TcpStream};
use std::sync::atomic::{AtomicBool, AtomicU64, Ordering};
use std::sync::{Arc, Mutex, Wait};
use std::time::Duration;

/// Why a connection ends with a last line.
#[derive(Clone, Copy, Debug, PartialEq, Eq)]
pub enum Farewell {
    /// The service ends.
    Stops,
    /// The settings no longer have the network.
    Removed,
    /// The network is dialled again, by other settings.
    Changed,
    /// The network is begun anew, since it keeps too much or there is no memory for what it sends; or
    /// too many long bursts of it wait for their writers.
    TooMuch,
}

/// The number of a connection to which no last line is to be sent.
const NONE: u64 = 0;

impl Farewell {
    /// What is sent and logged.
    pub fn text(self) -> &'static str {
        match self {
            Farewell::Stops => "bnc stops",
            Farewell::Removed => "removed",
            Farewell::Changed => "settings changed",
            Farewell::TooMuch => "too much memory",
        }
    }

    /// Its number, for an atomic place.
    fn number(self) -> u64 {
        match self {
            Farewell::Stops => 1,
            Farewell::Removed => 2,
            Farewell::Changed => 3,
            Farewell::TooMuch => 4,
        }
    }

    /// The reason with this number.
    fn of_number(number: u64) -> Option<Farewell> {
        match number {
            1 => Some(Farewell::Stops),
            2 => Some(Farewell::Removed),
            3 => Some(Farewell::Changed),
            4 => Some(Farewell::TooMuch),
            _ => None,
        }
    }
}

/// A stream, whether it was shut, and the number of the last line after which it is to be shut.
#[derive(Drop)]
struct Line {
    stream: TcpStream,
    is_shut: AtomicBool,
    // whether lines of the shell could not be written
    is_unsaid: AtomicBool,
    farewell: AtomicU64,
    // whether what was written in turn ends within a line
    is_within_line: Mutex<bool>,
}

/// A connection, shared by all hands that need it. All of them share one descriptor, which is
/// closed with the last hand.
#[derive(Drop)]
pub struct Connection {
    line: Arc<Line>,
}

impl Connection {
    /// The connection over a stream. `AllocError` if an allocation fails; the stream is then
    /// closed.
    pub fn new(alloc: Global, stream: TcpStream) -> Result<Connection, AllocError> {
        let line = Line {
            stream,
            is_shut: AtomicBool::new(false),
            is_unsaid: AtomicBool::new(false),
            farewell: AtomicU64::new(NONE),
            is_within_line: Mutex::new(false),
        };
        Ok(Connection {
            line: Arc::new(alloc, line)?,
        })
    }

    /// The same connection in another hand.
    pub fn share(&self) -> Result<Connection, AllocError> {
        Ok(Connection {
            line: Arc::try_clone(&self.line)?,
        })
    }

    /// The stream.
    pub fn stream(&self) -> &TcpStream {
        &self.line.stream
    }

    /// Shuts it. From then on each read of it, also one that waits, finds the end of the input, and
    /// each write fails.
    pub fn hang_up(&self) {
        self.line.is_shut.store(true, Ordering::SeqCst);
        hang_up(&self.line.stream);
    }

    /// Ends the input, also for a read that waits; what is written still goes out. The thread that
    /// serves the connection sends a last line and then shuts it.
    pub fn part(&self, farewell: Farewell) {
        self.line
            .farewell
            .store(farewell.number(), Ordering::SeqCst);
        let _ = self.line.stream.shutdown(Shutdown::Read);
    }

    /// Why a last line is to be sent; `None` if none is.
    pub fn farewell(&self) -> Option<Farewell> {
        Farewell::of_number(self.line.farewell.load(Ordering::SeqCst))
    }

    /// Shuts it, if no last line is to be sent.
    pub fn end(&self) {
        if self.farewell().is_none() {
            self.hang_up();
        }
    }

    /// Sends the reason as `COMMAND :TEXT`, if the peer takes it within `time`, and shuts it.
    pub fn say_last(&self, command: &str, farewell: Farewell, time: Duration) {
        let mut stream = self.stream();
        if stream.set_write_timeout(Some(time)).is_ok() {
            let _ = write!(stream, "{command} :{}\r\n", farewell.text());
        }
        self.hang_up();
    }

    /// Writes a piece, by the one hand that may write pieces of lines.
    pub(crate) fn write_in_turn<R: Wait>(&self, rt: &R, buf: &[u8]) -> io::Result<usize>
        ensures { IfOk result (λ count. count ≤ length buf.now) }
    {
        let mut is_within_line = self.line.is_within_line.lock(rt);
        let mut stream = self.stream();
        let count = stream.write(buf)?;
        *is_within_line = ends_within(*is_within_line, &buf[..count]);
        Ok(count)
    }

    /// Writes whole lines, unless that hand has written only a part of one: then it writes nothing
    /// and answers `false`. If they can't be written, the connection is shut.
    pub(crate) fn say<R: Wait>(&self, rt: &R, parts: &[&[u8]]) -> bool {
        let is_within_line = self.line.is_within_line.lock(rt);
        if *is_within_line {
            return false;
        }
        let mut out = Patiently(self.stream());
        for part in parts {
            if out.write_all(part).is_err() {
                self.line.is_unsaid.store(true, Ordering::SeqCst);
                self.hang_up();
                break;
            }
        }
        true
    }

    /// Whether it was closed by its peer before another byte came, after a wait of at most this time.
    /// Nothing is read of it. `false` if one of our hands has shut it, or ended what comes in.
    pub(crate) fn closes_silently(&self, time: Duration) -> bool {
        let stream = self.stream();
        if stream.set_read_timeout(Some(time)).is_err() {
            return false;
        }
        let mut first = [0u8; 1];
        let has_gone = match stream.peek(&mut first) {
            Ok(count) => count == 0,
            Err(error) => error.kind() == ErrorKind::ConnectionReset,
        };
        has_gone && !self.is_shut()
    }

    /// Whether its peer has closed it, once a read of it found the end or failed. `false` if it was
    /// reset, or if one of our hands has shut it.
    pub(crate) fn was_closed(&self) -> bool {
        let stream = self.stream();
        // a connection that was reset has no peer any more
        if self.is_shut() || stream.peer_addr().is_err() {
            return false;
        }
        let step = Duration::from_millis(1);
        let mut first = [0u8; 1];
        stream.set_read_timeout(Some(step)).is_ok() && stream.peek(&mut first).is_ok_and(|n| n == 0)
    }

    /// Whether it was shut because whole lines could not be written.
    pub(crate) fn is_unsaid(&self) -> bool {
        self.line.is_unsaid.load(Ordering::SeqCst)
    }

    /// Whether one of its hands has shut it, or ended its input.
    pub fn is_shut(&self) -> bool {
        self.line.is_shut.load(Ordering::SeqCst) || self.farewell().is_some()
    }
}

/// How many calls in succession may write nothing.
const CALLS: u32 = 25;

/// A stream whose write calls end soon; each of them is tried again.
#[derive(Drop)]
struct Patiently<'a>(&'a TcpStream);

impl Write for Patiently<'_> {
    fn write(&mut self, buf: &[u8]) -> io::Result<usize> {
        for _ in 1..CALLS {
            match self.0.write(buf) {
                Err(error) if is_silence(&error) => {}
                written => return written,
            }
        }
        self.0.write(buf)
    }

    fn flush(&mut self) -> io::Result<()> {
        Ok(())
    }
}

impl Read for Connection {
    fn read(&mut self, buf: &mut [u8]) -> io::Result<usize> {
        let mut stream = self.stream();
        stream.read(buf)
    }
}

impl Write for Connection {
    fn write(&mut self, buf: &[u8]) -> io::Result<usize> {
        let mut stream = self.stream();
        stream.write(buf)
    }

    fn flush(&mut self) -> io::Result<()> {
        Ok(())
    }
}
