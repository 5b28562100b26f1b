//! The end of a connection.

use crate::connection::Connection;
use crate::journals::Journals;
use hub_threads::{Gate, Point};
use std::alloc::AllocError;
use std::net::{Shutdown, TcpStream};
use std::sync::Arc;

/// Shuts a connection. From then on each read of it, also one that waits, finds the end of the
/// input, and each write fails.
pub fn hang_up(stream: &TcpStream) {
    let _ = stream.shutdown(Shutdown::Both);
}

/// The gate of a session. It makes nobody wait. Once the session's writer has ended, it shuts the
/// connection, so that the reader of a session that was cut, or to which nothing can be written,
/// ends too. A writer that was given nothing to write leaves the connection as it is, and so does
/// one after which a last line is to be sent.
#[derive(Drop)]
pub struct HangingUp {
    connection: Connection,
    // what is rung after each write, if anything
    journals: Option<Arc<Journals>>,
    // whether it is rung only while a writer is waited for
    if_awaited: bool,
}

impl HangingUp {
    /// The gate of a writer to this connection.
    pub fn on(connection: Connection) -> HangingUp {
        HangingUp {
            connection,
            journals: None,
            if_awaited: false,
        }
    }

    /// The same gate for the writer to a network that is kept over a restart: what is said there is
    /// kept too.
    pub(crate) fn with_journals(self, journals: Arc<Journals>) -> HangingUp {
        HangingUp {
            journals: Some(journals),
            ..self
        }
    }

    /// The same gate for the writer to a client: how much it has written is kept over a restart,
    /// and may be waited for.
    pub(crate) fn with_journals_that_wait(self, journals: Arc<Journals>) -> HangingUp {
        HangingUp {
            journals: Some(journals),
            if_awaited: true,
            ..self
        }
    }
}

impl Gate for HangingUp {
    fn pass(&self, point: Point) {
        if point == Point::AtEnd {
            self.connection.end();
        }
        if let (Point::AfterWrite, Some(journals)) = (point, &self.journals) {
            if self.if_awaited {
                journals.ring_if_awaited();
            } else {
                journals.ring();
            }
        }
    }
}

impl Clone for HangingUp {
    fn clone(&self) -> Result<HangingUp, AllocError> {
        Ok(HangingUp {
            connection: self.connection.share()?,
            journals: match &self.journals {
                Some(journals) => Some(Arc::try_clone(journals)?),
                None => None,
            },
            if_awaited: self.if_awaited,
        })
    }
}
