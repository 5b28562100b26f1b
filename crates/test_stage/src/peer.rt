//! `Peer`: the test's end of a connection.

use std::alloc::Global;
use std::io::{Read, Write};
use std::net::{Net, SocketAddr, TcpListener, TcpStream};
use std::test::Fail;
use std::time::Duration;

/// How many seconds a test waits for a byte.
const WAIT: u64 = 10;

/// How many bytes of a connection are read at most.
const MOST: usize = 65_536;

/// How many bytes are read in one call at most, if they are counted.
const PIECE: usize = 16_384;

/// The test's end of a connection.
#[derive(Drop)]
pub struct Peer {
    stream: TcpStream,
}

impl Peer {
    /// The peer at a stream.
    pub fn on(stream: TcpStream) -> Result<Peer, Fail> {
        stream.set_read_timeout(Some(Duration::from_secs(WAIT)))?;
        Ok(Peer { stream })
    }

    /// A connection to an address.
    pub fn dial<R: Net<Listener = TcpListener, Stream = TcpStream>>(
        rt: &R,
        address: SocketAddr,
    ) -> Result<Peer, Fail> {
        Peer::on(TcpStream::connect(rt, address)?)
    }

    /// The next connection that comes.
    pub fn accept(listener: &TcpListener) -> Result<Peer, Fail> {
        let (stream, _) = listener.accept()?;
        Peer::on(stream)
    }

    /// Sends a text.
    pub fn say(&mut self, text: &str) -> Result<(), Fail> {
        Ok(self.stream.write_all(text.as_bytes())?)
    }

    /// Sends a text, and answers whether that could be done: the connection may be closed by now.
    pub fn try_say(&mut self, text: &str) -> bool {
        self.stream.write_all(text.as_bytes()).is_ok()
    }

    /// Reads on until what was read ends with this text, and answers all of it.
    pub fn read_to(&mut self, alloc: Global, end: &str) -> Result<Vec<u8>, Fail> {
        let mut found = Vec::new(alloc);
        for _ in 0..MOST {
            if found.as_slice().ends_with(end.as_bytes()) {
                return Ok(found);
            }
            let mut byte = [0u8; 1];
            if self.stream.read(&mut byte)? == 0 {
                break;
            }
            found.push(byte[0])?;
        }
        unlike(alloc, found.as_slice(), end)?;
        Ok(found)
    }

    /// Reads on until what was read ends with the last line of this text, and fails if it is not
    /// the text.
    pub fn hears(&mut self, alloc: Global, text: &str) -> Result<(), Fail> {
        let found = self.read_to(alloc, last_line(text))?;
        same(alloc, found.as_slice(), text)
    }

    /// Reads this many bytes, or to the connection's end, and answers what came.
    pub fn takes(&mut self, alloc: Global, count: usize) -> Result<Vec<u8>, Fail> {
        let mut found = Vec::new(alloc);
        let mut piece = [0u8; PIECE];
        for _ in 0..u64::MAX {
            let left = count.saturating_sub(found.len()).min(PIECE);
            if left == 0 {
                break;
            }
            let read = self.stream.read(&mut piece[..left])?;
            if read == 0 {
                break;
            }
            found.extend_from_slice(&piece[..read])?;
        }
        Ok(found)
    }

    /// Reads to the connection's end, and answers what came.
    pub fn rest(&mut self, alloc: Global) -> Result<Vec<u8>, Fail> {
        let mut found = Vec::new(alloc);
        for _ in 0..MOST {
            let mut byte = [0u8; 1];
            if self.stream.read(&mut byte)? == 0 {
                break;
            }
            found.push(byte[0])?;
        }
        Ok(found)
    }

    /// Reads to the connection's end, and fails if what was read is not the text.
    pub fn ends_with(&mut self, alloc: Global, text: &str) -> Result<(), Fail> {
        let found = self.rest(alloc)?;
        same(alloc, found.as_slice(), text)
    }
}

/// The last line of a text, with its end.
fn last_line(text: &str) -> &str {
    match text.strip_suffix("\r\n") {
        Some(lines) => match lines.rfind('\n') {
            Some(at) => text.get(at + 1..).unwrap_or(text),
            None => text,
        },
        None => text,
    }
}

/// Fails with what was read and what was wanted.
fn unlike(alloc: Global, found: &[u8], want: &str) -> Result<(), Fail> {
    let found = String::from_utf8_lossy(alloc, found)?;
    Err(Fail::new(format_args!("read {found:?}, wanted {want:?}")))
}

/// Fails if what was read is not the text.
pub fn same(alloc: Global, found: &[u8], want: &str) -> Result<(), Fail> {
    if found == want.as_bytes() {
        return Ok(());
    }
    unlike(alloc, found, want)
}
