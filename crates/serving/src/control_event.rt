//! What the log says of the words that control the program.

use crate::kept::Kept;
use crate::shown::{Shown, Words};
use client_caps::{Moment, time_text};
use hub_core::ForgetFault;
use std::{fmt, io};

/// What the log says of a word, and of what it asks for.
#[derive(Clone, Copy)]
pub enum ControlEvent<'a> {
    /// How a network is.
    Status {
        /// Since when it has let us in; `None` if it has not.
        since: Option<Moment>,
        /// How many clients of it are served.
        sessions: usize,
        /// How many messages are kept; `None` while the network is begun anew.
        kept: Option<Kept>,
    },
    /// The settings were not read again; nothing changed.
    NotReloaded {
        /// Why not.
        why: &'a str,
    },
    /// The settings were read again.
    Reloaded {
        /// How many networks are new.
        begun: usize,
        /// How many are no longer served.
        left: usize,
        /// How many are dialled anew.
        changed: usize,
    },
    /// A setting has changed that takes effect only at a restart.
    NeedsRestart {
        /// Its key.
        key: &'a str,
    },
    /// A client name was forgotten.
    Forgotten {
        /// The name.
        name: &'a [u8],
    },
    /// A client name was not forgotten.
    NotForgotten {
        /// The name.
        name: &'a [u8],
        /// Why not.
        why: ForgetFault,
    },
    /// No network has the names that a word gives.
    NoNetwork {
        /// What follows the word.
        line: &'a [u8],
    },
    /// The figures are to be written, and the settings name no file for them.
    NoMetrics,
    /// The figures were not written.
    MetricsNotWritten {
        /// Why not.
        error: &'a io::Error,
    },
    /// The service ends.
    Stops,
    /// A word that is unknown.
    Ignored {
        /// The word.
        word: &'a [u8],
    },
    /// A line that is too long for a word.
    IgnoredLine {
        /// How many bytes it may have.
        limit: usize,
    },
    /// No further words can be read.
    NoWords,
}

/// Writes how a network is.
fn write_status<W: fmt::Write>(
    f: &mut fmt::Formatter<W>,
    since: Option<Moment>,
    sessions: usize,
    kept: Option<Kept>,
) -> fmt::Result {
    match since {
        Some(since) => write!(f, "online since {}", Shown(&time_text(since)))?,
        None => f.write_str("offline")?,
    }
    write!(f, "; sessions {sessions}")?;
    match kept {
        Some(Kept { messages, bytes }) => write!(f, "; messages {messages}, {bytes} bytes"),
        None => f.write_str("; begun anew"),
    }
}

impl fmt::Display for ControlEvent<'_> {
    fn fmt<W: fmt::Write>(&self, f: &mut fmt::Formatter<W>) -> fmt::Result {
        match self {
            ControlEvent::Status {
                since,
                sessions,
                kept,
            } => write_status(f, *since, *sessions, *kept),
            ControlEvent::NotReloaded { why } => {
                write!(f, "not reloaded: {}", Words(why.as_bytes()))
            }
            ControlEvent::Reloaded {
                begun,
                left,
                changed,
            } => write!(
                f,
                "reloaded: networks new {begun}, removed {left}, dialled anew {changed}"
            ),
            ControlEvent::NeedsRestart { key } => write!(f, "reloaded: {key} needs a restart"),
            ControlEvent::Forgotten { name } => write!(f, "forgot client name {}", Shown(name)),
            ControlEvent::NotForgotten { name, why } => {
                write!(f, "did not forget client name {}: {why}", Shown(name))
            }
            ControlEvent::NoNetwork { line } => {
                write!(f, "control: forget: no such network: {}", Shown(line))
            }
            ControlEvent::NoMetrics => {
                f.write_str("control: metrics: the settings have no key `metrics`")
            }
            ControlEvent::MetricsNotWritten { error } => {
                write!(f, "metrics not written, tries again each minute: {error}")
            }
            ControlEvent::Stops => f.write_str("stops"),
            ControlEvent::Ignored { word } => write!(f, "control: ignored {}", Shown(word)),
            ControlEvent::IgnoredLine { limit } => {
                write!(f, "control: ignored a line of more than {limit} bytes")
            }
            ControlEvent::NoWords => f.write_str("control: cannot read"),
        }
    }
}
