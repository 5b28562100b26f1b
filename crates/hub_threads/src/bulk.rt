//! Packets of more than 1 MiB, from when they are sent until they are written.

use crate::OutOfMemory;
use crate::bell::SharedBell;
use crate::network::Network;
use hub_ends::SessionId;
use net_view::NetworkView;
use std::sync::Wait;
use welcome::Packet;

/// How many bytes a packet has at most that is not counted.
const MUCH: usize = 1_048_576;

/// Whether a packet has more than 1 MiB.
pub(crate) fn is_bulky(packet: &Packet) -> bool {
    packet.bytes().len() > MUCH
}

/// What tells whether packets of more than 1 MiB wait for the writer of a session. It may outlive the
/// session, whose writer may still write.
#[derive(Drop)]
pub struct Bulk {
    writer: SharedBell,
}

impl Bulk {
    /// What tells it of the writer that this bell wakes.
    pub(crate) fn of(writer: SharedBell) -> Bulk {
        Bulk { writer }
    }

    /// Whether such a packet was sent, and is not written yet; none waits any more once the end is dropped
    /// that the writer takes packets from. It takes no lock and waits for nobody.
    pub fn is_waiting(&self) -> bool {
        self.writer.has_bulk()
    }
}

impl<V: NetworkView + Drop> Network<V> {
    /// What tells whether packets of more than 1 MiB wait for the writer of a session; `None` if the hub
    /// has no such session. `OutOfMemory` if it can't be shared by another hand.
    pub fn bulk_of<R: Wait>(&self, rt: &R, id: SessionId) -> Result<Option<Bulk>, OutOfMemory> {
        let hub = self.lock(rt);
        match hub.outlet(id) {
            Some(outlet) => Ok(Some(outlet.bulk()?)),
            None => Ok(None),
        }
    }
}
