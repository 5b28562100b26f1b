//! Packets to the thread that writes.

ghost use Rattle.std.specs.Prelude.{◌≡◌, None, length};
ghost use Rattle.irc_line.specs.Lines.{counted};
ghost use Rattle.rtrb.specs.Ring.{sent};
ghost use Rattle.hub_threads.specs.Queues.{closed_in};

use crate::OutOfMemory;
use crate::bell::SharedBell;
use crate::bulk::Bulk;
use crate::queued::{Counted, Queued};
use hub_ends::{Outlet, SessionId};
use receipts::{Left, Notes, Parting, Sent, left_by};
use rtrb::{Producer, PushError};
use std::alloc::Global;
use std::sync::{Arc, Mutex, Wait};
use welcome::Packet;

/// The end that a hub sends packets into. Dropping it wakes the writer.
pub struct RingOutlet {
    producer: Producer<Queued, Global, Counted>,
    // how many items were sent, at most the greatest count
    count: u64,
    closed: Option<SessionId>,
    // what its client had been sent at which moment; locked under the lock of the hub alone
    notes: Mutex<Notes>,
    // wakes the thread that has the other end
    writer: SharedBell,
    // tells the pump of the network that there is little room
    pump: SharedBell,
    ghost counts: { count ≡ counted (length (sent producer)) },
    ghost unclosed: { closed ≡ None → closed_in (sent producer) ≡ None },
}

impl Drop for RingOutlet {
    fn drop(self) {
        let RingOutlet {
            producer,
            count: _,
            closed: _,
            notes,
            writer,
            pump,
        } = self;
        drop(producer);
        drop(notes);
        writer.ring();
        drop(writer);
        drop(pump);
    }
}

impl RingOutlet {
    ghost use Rattle.std.specs.Prelude.{◌≡◌, [], None};
    ghost use Rattle.rtrb.specs.Ring.{known_free, producer_capacity, sent};
    ghost use Rattle.hub_threads.specs.Rings.{capacity_of, closed_of, free_of, sent_of, told_of};

    /// The end of a ring into which nothing was sent.
    pub(crate) fn new(
        producer: Producer<Queued, Global, Counted>,
        notes: Notes,
        writer: SharedBell,
        pump: SharedBell,
    ) -> RingOutlet
        requires { sent producer ≡ [] }
        ensures { (sent_of result ≡ []) × (closed_of result ≡ None) × (told_of result ≡ None) ×
            (capacity_of result ≡ producer_capacity producer) ×
            (free_of result ≡ known_free producer) × (result.producer ≡ producer) }
    {
        RingOutlet {
            producer,
            count: 0,
            closed: None,
            notes: Mutex::new(notes),
            writer,
            pump,
        }
    }
}

impl RingOutlet {
    ghost use Rattle.std.specs.Prelude.{false};
    ghost use Rattle.hub_ends.specs.Outlets.{FindsRoom};
    ghost use Rattle.hub_threads.specs.Rings.{StaysOutlet, state_of};

    /// Whether at least half of the slots, and one, are known to be free.
    fn is_roomy(&self) -> bool {
        self.producer.cached_slots() >= self.producer.capacity().div_ceil(2)
    }

    /// Whether fewer slots are known to be free than one, or than a quarter of all: then its session
    /// is nearly full.
    fn is_tight(&self) -> bool {
        self.producer.cached_slots() < (self.producer.capacity() / 4).max(1)
    }

    /// Looks again how many slots are free, if fewer than half are known to be, and tells the pump
    /// if there is little room.
    fn look_for_room(&mut self)
        ensures found { FindsRoom false (state_of self.old) (state_of self.new) }
        ensures ends { StaysOutlet self.old self.new }
    {
        if self.is_roomy() {
            return;
        }
        let _ = self.producer.slots();
        if self.is_tight() {
            self.pump.note_tight();
        }
    }

    /// Wakes the writer if it sleeps, and if more than half of the ring may wait for it. Else
    /// it looks by itself, at the latest when it has rested.
    fn call_writer(&self) {
        if self.writer.is_drowsy() || !self.is_roomy() {
            self.writer.ring();
        }
    }

    /// What changes as soon as the other end is known to have taken an item, and as soon as its
    /// writer has written something.
    pub(crate) fn progress(&self) -> (u64, u64) {
        (self.taken(), self.writer.steps())
    }

    /// Whether its writer needs nothing but a processor: it has begun, and what it writes to took all
    /// of its last call.
    pub(crate) fn needs_processor(&self) -> bool {
        self.writer.is_ready()
    }

    /// Notes what its client has been sent by now, with all messages up to the one of this number. It
    /// is best effort: if an allocation is refused, nothing is noted.
    pub(crate) fn note_sent<R: Wait>(&self, rt: &R, number: u64, now: u64) {
        let sent = Sent {
            number,
            count: self.count,
        };
        let _ = self.notes.lock(rt).note(sent, self.writer.written(), now);
    }

    /// What the client of a session that ended so has surely received.
    pub(crate) fn left_by<R: Wait>(&self, rt: &R, parting: Parting) -> Left {
        left_by(parting, &self.notes.lock(rt))
    }

    /// What tells whether packets of more than 1 MiB wait for its writer.
    pub(crate) fn bulk(&self) -> Result<Bulk, OutOfMemory> {
        Ok(Bulk::of(Arc::try_clone(&self.writer)?))
    }

    /// How many items the other end is known to have taken.
    fn taken(&self) -> u64 {
        let held = self
            .producer
            .capacity()
            .saturating_sub(self.producer.cached_slots());
        self.count.saturating_sub(held as u64)
    }
}

impl RingOutlet {
    ghost use Rattle.std.specs.Prelude.{◌≡◌, ◌<◌, ◌↔◌, IfErr, IsSome, IsTrue, None, OnOk, Some, false};
    ghost use Rattle.std.specs.Prelude.{true};
    ghost use Rattle.hub_ends.specs.Outlets.{FindsRoom, Took};
    ghost use Rattle.hub_threads.specs.Rings.{StaysOutlet, closed_of, free_of, sent_of, state_of};
    ghost use Rattle.hub_threads.specs.Rings.{capacity_of, told_of};

    /// How many more packets there is room for, as far as is known: none once it is closed.
    fn look(&mut self) -> usize
        ensures value { result ≡ free_of self.new }
        ensures found { FindsRoom false (state_of self.old) (state_of self.new) }
        ensures ends { StaysOutlet self.old self.new }
    {
        if self.closed.is_some() {
            return 0;
        }
        if self.is_roomy() {
            return self.producer.cached_slots();
        }
        self.producer.slots()
    }

    /// Whether there is room for a packet: not once it is closed.
    fn has_room(&mut self) -> bool
        ensures value { IsTrue result ↔ (0 < free_of self.new) }
        ensures found { FindsRoom false (state_of self.old) (state_of self.new) }
        ensures ends { StaysOutlet self.old self.new }
    {
        self.closed.is_none() && !self.producer.is_full()
    }

    /// Whether the writer has written all packets that were sent, as it said when it last had
    /// nothing left to write. What it says comes late, but is never more than it has written.
    pub fn is_written(&self) -> bool {
        self.writer.written() == self.count
    }

    /// Sends a packet, or hands it back if no slot is known to be free, or it is closed. It takes
    /// no lock and waits for nobody.
    pub fn send(&mut self, packet: Packet) -> Result<(), Packet>
        ensures taken { OnOk result (Took false (state_of self.old) packet (state_of self.new)) }
        ensures full { IfErr result (λ p. (p ≡ packet) × (state_of self.new ≡ state_of self.old) ×
            (free_of self.old ≡ 0)) }
        ensures ends { StaysOutlet self.old self.new }
    {
        if self.closed.is_some() {
            return Err(packet);
        }
        // before the writer may have it, which counts it down
        self.writer.add_bulk(&packet);
        match self.producer.push(Queued::Lines(packet)) {
            Ok(()) => {
                self.count = self.count.saturating_add(1);
                self.look_for_room();
                self.call_writer();
                Ok(())
            }
            Err(PushError::Full(Queued::Lines(packet))) => {
                self.writer.take_bulk_back(&packet);
                Err(packet)
            }
            Err(PushError::Full(Queued::Closing { .. })) => unreachable!(),
        }
    }

    /// Puts the closing item, with the number of the session, if a slot is known to be free, and
    /// takes no more packets; a second time nothing changes.
    pub fn shut(&mut self, id: SessionId)
        ensures sent { sent_of self.new ≡ sent_of self.old }
        ensures capacity { capacity_of self.new ≡ capacity_of self.old }
        ensures first { closed_of self.old ≡ None → closed_of self.new ≡ Some id }
        ensures again { IsSome (closed_of self.old) → closed_of self.new ≡ closed_of self.old }
        ensures full { free_of self.new ≡ 0 }
        ensures told { 0 < free_of self.old → told_of self.new ≡ Some id }
        ensures ends { StaysOutlet self.old self.new }
    {
        if self.closed.is_some() {
            return;
        }
        self.closed = Some(id);
        let count = self.count;
        match self.producer.push(Queued::Closing { id, count }) {
            Ok(()) => self.count = self.count.saturating_add(1),
            Err(_) => {}
        }
        self.writer.ring();
    }
}

impl Outlet for RingOutlet {
    ghost use Rattle.std.specs.Prelude.{false};
    ghost use Rattle.hub_threads.specs.Rings.{state_of, told_of};

    ghost state = { state_of };

    ghost told = { told_of };

    ghost alone = { false };

    fn capacity(&self) -> usize {
        self.producer.capacity()
    }

    fn free(&mut self) -> usize {
        self.look()
    }

    fn room(&mut self) -> bool {
        self.has_room()
    }

    fn offer(&mut self, packet: Packet) -> Result<(), Packet> {
        self.send(packet)
    }

    fn close(&mut self, id: SessionId) {
        self.shut(id);
    }
}
