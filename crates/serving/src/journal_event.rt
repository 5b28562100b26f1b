//! What the log says of a network's journal.

use crate::shown::Words;
use journal_writer::{Found, NoJournal, WriteError};
use std::fmt;

/// What the log says of a network's journal.
#[derive(Drop)]
pub enum JournalEvent<'a> {
    /// It was recalled.
    Recalled(Found),
    /// The network is served without it.
    None {
        /// Why.
        why: &'a NoJournal,
    },
    /// Something was not written.
    NotWritten {
        /// Why not.
        why: &'a WriteError,
    },
    /// All is written again.
    Written,
    /// The network ends, or the service, and not all is written.
    Unwritten,
    /// The network was removed, and its file is still there.
    Stays {
        /// Its path.
        path: &'a str,
    },
}

/// Writes what was recalled.
fn write_found<W: fmt::Write>(f: &mut fmt::Formatter<W>, found: Found) -> fmt::Result {
    let Found {
        messages,
        names,
        damaged,
        damage,
    } = found;
    write!(f, "journal: messages {messages}, client names {names}")?;
    if damaged > 0 {
        write!(
            f,
            "; the last {damaged} bytes are damaged, and were set aside"
        )?;
    }
    match damage {
        Some(damage) => write!(f, ": {damage}"),
        None => Ok(()),
    }
}

impl fmt::Display for JournalEvent<'_> {
    fn fmt<W: fmt::Write>(&self, f: &mut fmt::Formatter<W>) -> fmt::Result {
        match self {
            JournalEvent::Recalled(found) => write_found(f, *found),
            JournalEvent::None { why } => write!(f, "served without a journal: {why}"),
            JournalEvent::NotWritten { why } => {
                write!(f, "journal not written, tries again: {why}")
            }
            JournalEvent::Written => f.write_str("journal written again"),
            JournalEvent::Unwritten => f.write_str("journal not written to its end"),
            JournalEvent::Stays { path } => {
                write!(f, "removed; its journal stays: {}", Words(path.as_bytes()))
            }
        }
    }
}
