//! Both ends of a ring of packets.

ghost use Rattle.std.specs.Prelude.{◌≡◌, ◌<◌, [], IfOk, None, false};
ghost use Rattle.hub_threads.specs.Rings.{ArePacketEnds, capacity_of, closed_of};
ghost use Rattle.hub_threads.specs.Rings.{end_capacity_of, free_of, items_of, sent_of, told_of};

use crate::OutOfMemory;
use crate::backlog::ROOM;
use crate::bell::{SharedBell, shared_bell};
use crate::outlet_end::OutletEnd;
use crate::outlet_ring::RingOutlet;
use crate::queued::Counted;
use crate::stop_sign::shared_sign;
use receipts::Notes;
use rtrb::RingBuffer;
use std::alloc::Global;
use std::sync::Arc;

/// Both ends of one ring, for this many packets at a time, and 8 KiB of room to write from. The pump
/// that sleeps on `pump` wakes when a packet leaves little room. If it waits for room, it is woken
/// when a packet is taken and no further one is known.
/// `OutOfMemory` if an allocation was refused, and for no other reason.
pub fn outlet(
    alloc: Global,
    capacity: usize,
    pump: SharedBell,
) -> Result<(RingOutlet, OutletEnd), OutOfMemory>
    requires { 0 < capacity }
    ensures outlet { IfOk result (λ r. (sent_of r.0 ≡ []) × (closed_of r.0 ≡ None) ×
        (capacity_of r.0 ≡ capacity) × (free_of r.0 ≡ capacity) × (told_of r.0 ≡ None)) }
    ensures end { IfOk result (λ r. (items_of r.1 ≡ []) × (end_capacity_of r.1 ≡ capacity)) }
    ensures ends { IfOk result (λ r. ArePacketEnds r.0 r.1) }
{
    let writer = shared_bell(alloc)?;
    let theirs = Arc::try_clone(&writer)?;
    let told = Arc::try_clone(&pump)?;
    let sign = shared_sign(alloc)?;
    let buffer = Vec::with_capacity(alloc, ROOM)?;
    let (producer, consumer) = RingBuffer::with_protocol::<Global, Counted>(alloc, capacity)?;
    let outlet = RingOutlet::new(producer, Notes::new(alloc), theirs, told);
    Ok((outlet, OutletEnd::new(consumer, buffer, writer, sign, pump)))
}
