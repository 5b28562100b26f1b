//! A connection, as its readers see it.

ghost use Rattle.std.specs.Prelude.{◌≡◌};

use std::io;
use std::io::Read;
use std::time::Duration;

/// A connection that is read: of a program a socket, in a test a stream in memory.
pub trait Wire: Read {
    /// From now on a read fails after this time without a byte. Without a time it waits for as long
    /// as it takes.
    fn limit_reads(&mut self, time: Option<Duration>) -> io::Result<()>
        ensures unread { Self.remaining self.new ≡ Self.remaining self.old };

    /// Whether nobody is to read it any more.
    fn is_shut(&self) -> bool;
}
