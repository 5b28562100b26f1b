//! What the log says of connections whose client has no session.

use crate::shown::Origin;
use std::net::SocketAddr;
use std::{fmt, io};

/// What the log says of a connection that is refused, or of several.
#[derive(Drop)]
pub enum StrangerEvent<'a> {
    /// A client's password was wrong, or there is no such user.
    WrongPassword {
        /// Where it comes from.
        peer: SocketAddr,
    },
    /// A client's password was right, and its user has no such network.
    NoSuchNetwork {
        /// Where it comes from.
        peer: SocketAddr,
    },
    /// A login ended before it was complete.
    NoLogin {
        /// Where it comes from.
        peer: SocketAddr,
        /// Why.
        cause: &'a str,
    },
    /// A connection could not be accepted.
    CannotAccept(io::Error),
    /// A connection was refused, for this reason.
    TurnedAway {
        /// Where it comes from.
        peer: SocketAddr,
        /// Why.
        cause: &'a str,
    },
    /// Connections were refused, and not each had a line.
    Refused {
        /// The number of the address that they came from; `None` for several addresses together.
        from: Option<u64>,
        /// How many.
        count: u64,
    },
}

impl fmt::Display for StrangerEvent<'_> {
    fn fmt<W: fmt::Write>(&self, f: &mut fmt::Formatter<W>) -> fmt::Result {
        match self {
            StrangerEvent::WrongPassword { peer } => write!(f, "wrong password from {peer}"),
            StrangerEvent::NoSuchNetwork { peer } => {
                write!(f, "login to a network that the user hasn't, from {peer}")
            }
            StrangerEvent::NoLogin { peer, cause } => write!(f, "no login from {peer}: {cause}"),
            StrangerEvent::CannotAccept(error) => write!(f, "cannot accept: {error}"),
            StrangerEvent::TurnedAway { peer, cause } => write!(f, "turned {peer} away: {cause}"),
            StrangerEvent::Refused { from, count } => match from {
                Some(from) => {
                    let from = Origin(*from);
                    write!(f, "refused {count} more connections of {from}")
                }
                None => write!(f, "refused {count} more connections of other addresses"),
            },
        }
    }
}
