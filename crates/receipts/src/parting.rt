//! How a session is left.

ghost use Rattle.std.specs.Prelude.{◌≡◌};
ghost use Rattle.receipts.specs.Partings.{is_fault, left_by};

use crate::notes::Notes;

/// How a session ended.
#[derive(Clone, Copy, Debug, PartialEq, Eq)]
pub enum End {
    /// Its client said QUIT.
    Quit,
    /// We ended it, and its client was to be sent why.
    Ordered,
    /// The other side closed the connection.
    Closed,
    /// Its client sent too much, or there was no memory for what it sent.
    GivenUp,
    /// A read or a write failed, or nothing was answered for too long.
    Fault,
}

/// A session that ended.
#[derive(Clone, Copy, Debug, PartialEq, Eq)]
pub struct Parting {
    /// How.
    pub end: End,
    /// Whether a proxy had named its client: what comes of the connection is that proxy's word.
    pub is_proxied: bool,
    /// When its client was heard last, if it is one that is heard.
    pub heard: Option<u64>,
    /// How many milliseconds before it was heard a client had surely received what was written.
    pub margin: u64,
}

/// What the client of a session that ended has surely received.
#[derive(Clone, Copy, Debug, PartialEq, Eq)]
pub enum Left {
    /// All messages, as far as anybody knows.
    All,
    /// Those up to the one of this number, if one is known.
    UpTo(Option<u64>),
}

/// Whether a session that ended so may have lost messages that were written to it. Of a client that a
/// proxy had named, only a QUIT, or an end that we ordered, says that it had not vanished before.
pub fn is_fault(end: End, is_proxied: bool) -> bool
    ensures { result ≡ is_fault end is_proxied }
{
    match end {
        End::Quit | End::Ordered => false,
        End::Closed | End::GivenUp => is_proxied,
        End::Fault => true,
    }
}

/// What the client of a session that ended so has surely received, by its notes. If nothing is
/// known of when the client was heard, it counts as one that has received all.
pub fn left_by(parting: Parting, notes: &Notes) -> Left
    ensures { result ≡ left_by parting notes.now.known.items }
{
    match parting.heard {
        Some(heard) if is_fault(parting.end, parting.is_proxied) => {
            Left::UpTo(notes.received_by(heard, parting.margin))
        }
        _ => Left::All,
    }
}
