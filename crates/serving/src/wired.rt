//! A connection, as the readers of the shell see it.

use crate::connection::Connection;
use shell::Wire;
use std::io;
use std::io::Read;
use std::time::Duration;

/// A connection that is read by one of its hands.
#[derive(Clone, Copy)]
pub(crate) struct Wired<'a>(pub(crate) &'a Connection);

impl Read for Wired<'_> {
    fn read(&mut self, buf: &mut [u8]) -> io::Result<usize> {
        let mut stream = self.0.stream();
        stream.read(buf)
    }
}

impl Wire for Wired<'_> {
    fn limit_reads(&mut self, time: Option<Duration>) -> io::Result<()> {
        self.0.stream().set_read_timeout(time)
    }

    /// Also if it is to end after a last line: nobody is to wait for what its client has not said.
    fn is_shut(&self) -> bool {
        self.0.is_shut() || self.0.farewell().is_some()
    }
}
