//! What the log says of a client's session.

use crate::connection::Farewell;
use crate::shown::Held;
use client_caps::Caps;
use hub_core::AttachError;
use std::fmt;
use std::net::SocketAddr;

/// What the log says of a session. It has no passwords and no messages.
#[derive(Clone, Copy)]
pub enum SessionEvent<'a> {
    /// A client has logged in.
    LoggedIn {
        /// Where it comes from.
        peer: SocketAddr,
        /// Its capabilities.
        caps: Caps,
    },
    /// A client holds other capabilities than before.
    CapsChanged {
        /// Those that it holds now.
        caps: Caps,
    },
    /// A session was not attached.
    NotAttached(AttachError),
    /// A client got this last line before it had a session.
    NoSession(Farewell),
    /// A session was cut by the hub; its writer runs on to its own end.
    Cut {
        /// How many bytes were written to its client so far.
        bytes: u64,
    },
    /// A session has ended.
    Ended {
        /// Why.
        cause: &'a str,
        /// Whether no write failed.
        whole: bool,
        /// How many bytes were written to its client.
        bytes: u64,
    },
    /// A client left that had sent lines which were not yet let in.
    Unsaid {
        /// How many.
        lines: u64,
    },
    /// There was no memory or thread for a session.
    NoMeans,
}

impl fmt::Display for SessionEvent<'_> {
    fn fmt<W: fmt::Write>(&self, f: &mut fmt::Formatter<W>) -> fmt::Result {
        match self {
            SessionEvent::LoggedIn { peer, caps } => {
                write!(f, "logged in from {peer}, {}", Held(*caps))
            }
            SessionEvent::CapsChanged { caps } => {
                write!(f, "changed its capabilities, {}", Held(*caps))
            }
            SessionEvent::NotAttached(error) => write!(f, "not attached: {error}"),
            SessionEvent::NoSession(farewell) => write!(f, "not attached: {}", farewell.text()),
            SessionEvent::Cut { bytes } => {
                write!(f, "session cut: it took too little; {bytes} bytes written")
            }
            SessionEvent::Ended {
                cause,
                whole,
                bytes,
            } => {
                let fault = if *whole { "" } else { "cannot write; " };
                write!(f, "session ended: {cause}; {fault}{bytes} bytes written")
            }
            SessionEvent::Unsaid { lines } => {
                write!(f, "lost {lines} lines that the client had not yet said")
            }
            SessionEvent::NoMeans => f.write_str("out of memory or threads"),
        }
    }
}
