//! What goes through the ring of an outlet.

use hub_ends::SessionId;
use rtrb::Protocol;
use welcome::Packet;

/// A packet, or the end of a session.
#[derive(Drop)]
pub enum Queued {
    /// Lines to be written.
    Lines(Packet),
    /// The session has ended.
    Closing {
        /// Its number.
        id: SessionId,
        /// How many items come before this one, at most 18446744073709551615.
        count: u64,
    },
}

/// The rule of such a ring: a closing item has the count of the items before it.
#[derive(Clone, Copy)]
pub struct Counted;

impl Protocol<Queued> for Counted {
    ghost use Rattle.hub_threads.specs.Queues.{MayFollow};

    ghost allows = { MayFollow };
}
