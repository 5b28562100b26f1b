//! What is written to a network.

use crate::connection::Connection;
use std::io;
use std::io::Write;
use std::sync::Wait;

/// What its writer writes to a network, whole lines of the shell between.
#[derive(Drop)]
pub(crate) struct NetworkOutput<R: Wait> {
    pub(crate) rt: R,
    pub(crate) connection: Connection,
}

impl<R: Wait> Write for NetworkOutput<R> {
    fn write(&mut self, buf: &[u8]) -> io::Result<usize> {
        self.connection.write_in_turn(&self.rt, buf)
    }

    fn flush(&mut self) -> io::Result<()> {
        Ok(())
    }
}
