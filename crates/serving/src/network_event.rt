//! What the log says of a network.

use crate::anew::Cause;
use crate::connection::Farewell;
use crate::last_words::LastWords;
use crate::limits::mebibytes;
use crate::shown::{Shown, Words};
use std::{fmt, io};
use upstream::DialFault;

/// How a dial, or the connection that it made, ended.
#[derive(Drop)]
pub enum Ending<'a> {
    /// No connection could be made.
    CannotConnect {
        /// The network's address.
        address: &'a str,
        /// Why not.
        error: io::Error,
    },
    /// The network did not let us in.
    NotRegistered {
        /// Why not.
        fault: DialFault,
        /// What the network said about it.
        said: LastWords,
    },
    /// The network refused the nick that a registration asked for; the next one asks for another.
    NoNick {
        /// The nick, without the `_` that were appended.
        nick: Vec<u8>,
        /// Why not.
        fault: DialFault,
        /// What the network said about it.
        said: LastWords,
    },
    /// The connection was lost.
    Lost {
        /// Why.
        cause: &'static str,
        /// What the network said at the end.
        said: LastWords,
    },
    /// It has ended after a last line.
    Parted(Farewell),
    /// It was given up.
    GivenUp(GivenUp),
}

/// Why a connection was given up.
#[derive(Clone, Copy, Debug, PartialEq, Eq)]
pub enum GivenUp {
    /// The network was begun anew or left, or its settings changed.
    Outdated,
    /// Not all channels could be asked for.
    NotRejoined,
    /// Its time limits could not be set.
    NoLimits,
    /// There was no memory.
    NoMemory,
    /// There was no thread to write with.
    NoWriter,
}

impl GivenUp {
    /// What is logged.
    fn text(self) -> &'static str {
        match self {
            GivenUp::Outdated => "begun anew, or its settings changed",
            GivenUp::NotRejoined => "cannot ask for its channels",
            GivenUp::NoLimits => "cannot set its time limits",
            GivenUp::NoMemory => "out of memory",
            GivenUp::NoWriter => "no thread to write with",
        }
    }
}

/// What a network that is begun anew has of what it kept.
#[derive(Clone, Copy, Debug, PartialEq, Eq)]
pub enum Recalled {
    /// What its journal holds.
    All,
    /// The marks and channels that its journal holds, and no messages.
    NoMessages,
    /// Nothing.
    Nothing,
}

/// What the log says of a network's connections and of its hub. It has no passwords and no messages.
#[derive(Drop)]
pub enum NetworkEvent<'a> {
    /// The network has let us in.
    Connected {
        /// The network's address.
        address: &'a str,
        /// The nick that we have.
        nick: &'a [u8],
    },
    /// A dial, or the connection that it made, has ended.
    Ended {
        /// How.
        ending: &'a Ending<'a>,
        /// The seconds to the next dial; `None` if there is none.
        again: Option<u64>,
    },
    /// This many dials ended like the last one that was logged.
    EndedAlike {
        /// How often.
        count: u64,
    },
    /// There was no memory or thread to serve the network.
    NotServed,
    /// A pump ran out of memory again and again, and goes on.
    PumpWithoutMemory,
    /// The network is begun anew.
    BegunAnew {
        /// Why.
        cause: Cause,
        /// With what.
        recalled: Recalled,
    },
    /// The numbers of messages are used up, so nothing more is taken from the network.
    PumpSpent,
}

impl fmt::Display for Ending<'_> {
    fn fmt<W: fmt::Write>(&self, f: &mut fmt::Formatter<W>) -> fmt::Result {
        match self {
            Ending::CannotConnect { address, error } => {
                write!(
                    f,
                    "cannot connect to {}: {error}",
                    Words(address.as_bytes())
                )
            }
            Ending::NotRegistered { fault, said } => { write!(f, "not registered: {fault}{said}") }
            Ending::NoNick { nick, fault, said } => {
                write!(f, "not registered as {}: {fault}{said}", Shown(nick))
            }
            Ending::Lost { cause, said } => { write!(f, "connection lost: {cause}{said}") }
            Ending::Parted(farewell) => write!(f, "connection ended: {}", farewell.text()),
            Ending::GivenUp(cause) => write!(f, "connection given up: {}", cause.text()),
        }
    }
}

impl fmt::Display for Cause {
    fn fmt<W: fmt::Write>(&self, f: &mut fmt::Formatter<W>) -> fmt::Result {
        match self {
            Cause::Outgrown { bytes, budget } => {
                let budget = mebibytes(*budget);
                write!(
                    f,
                    "keeps {bytes} bytes, more than its budget of {budget} MiB"
                )
            }
            Cause::NoMemory => f.write_str("out of memory"),
        }
    }
}

impl fmt::Display for Recalled {
    fn fmt<W: fmt::Write>(&self, f: &mut fmt::Formatter<W>) -> fmt::Result {
        f.write_str(match self {
            Recalled::All => "begun anew with what its journal holds",
            Recalled::NoMessages => "begun anew: the messages kept are gone",
            Recalled::Nothing => "begun anew: the messages and marks kept are gone",
        })
    }
}

impl fmt::Display for NetworkEvent<'_> {
    fn fmt<W: fmt::Write>(&self, f: &mut fmt::Formatter<W>) -> fmt::Result {
        match self {
            NetworkEvent::Connected { address, nick } => {
                let address = Words(address.as_bytes());
                write!(f, "connected to {address} as {}", Shown(nick))
            }
            NetworkEvent::Ended { ending, again } => {
                write!(f, "{ending}")?;
                match again {
                    Some(seconds) => write!(f, "; dials again in {seconds} s"),
                    None => Ok(()),
                }
            }
            NetworkEvent::EndedAlike { count: 1 } => f.write_str("last reason repeated once"),
            NetworkEvent::EndedAlike { count } => {
                write!(f, "last reason repeated {count} times")
            }
            NetworkEvent::NotServed => {
                f.write_str("not served: out of memory or threads; reload tries again")
            }
            NetworkEvent::PumpWithoutMemory => f.write_str("out of memory, tries again"),
            NetworkEvent::BegunAnew { cause, recalled } => { write!(f, "{cause}, {recalled}") }
            NetworkEvent::PumpSpent => f.write_str("message numbers spent, takes no more"),
        }
    }
}
