//! What can happen to a hub.

use client_caps::{Caps, Moment};
use hub_ends::SessionId;
use irc_line::Line;

/// What happens to a hub over ends in memory.
#[derive(Drop)]
pub enum Event {
    /// A piece of what the network sends, however it was cut, and when it came.
    Up(Vec<u8>, Moment),
    /// The connection to the network is lost. A line that is not at its end is dropped.
    Lost(Moment),
    /// A client attaches, with these capabilities and this name or none, to an outlet for this many
    /// packets at a time.
    Attach(Caps, Option<Vec<u8>>, usize),
    /// The session of a number goes.
    Detach(SessionId),
    /// The session of a number goes since its client vanished, which has surely seen the messages up
    /// to a number, if one is known.
    Leave(SessionId, Option<u64>),
    /// The client of a session says a line.
    Said(SessionId, Line, Moment),
    /// Up to this many packets are taken out of the outlet of a session, or with `None` out of the
    /// outlet to the network.
    Drained(Option<SessionId>, usize),
}
