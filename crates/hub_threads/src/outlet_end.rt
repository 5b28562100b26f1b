//! Packets taken out by the thread that writes.

ghost use Rattle.std.specs.Prelude.{◌≡◌};
ghost use Rattle.rtrb.specs.Ring.{received};
ghost use Rattle.hub_threads.specs.Queues.{ended_by, is_nil, packets_in};

use crate::OutOfMemory;
use crate::bell::SharedBell;
use crate::queued::{Counted, Queued};
use crate::stop_sign::SharedSign;
use crate::turns::Turns;
use crate::write_call::Call;
use hub_ends::SessionId;
use rtrb::Consumer;
use std::alloc::Global;
use std::mem;
use std::sync::{Arc, Wait};
use welcome::Packet;

/// The end that packets are taken from. Contracts see the list of all items that it ever took, and
/// the packet that is known to come next.
pub struct OutletEnd {
    consumer: Consumer<Queued, Global, Counted>,
    closed: Option<SessionId>,
    // no packet was taken yet
    fresh: bool,
    // how many packets were taken, at most the greatest count
    taken: u64,
    // how many takes in succession gave nothing, at most the greatest count
    misses: u64,
    // the other end was gone and nothing left, or the sign to stop was up, at the last look
    left: bool,
    // room for what is written in one go, empty
    buffer: Vec<u8>,
    // wakes the thread that has this end
    writer: SharedBell,
    // tells it to stop
    sign: SharedSign,
    // wakes the pump, if it waits for room
    pump: SharedBell,
    ghost ended: { received consumer ≡ ended_by (packets_in (received consumer)) closed },
    ghost first: { fresh ≡ is_nil (packets_in (received consumer)) },
}

impl Drop for OutletEnd {
    fn drop(self) {
        let OutletEnd {
            consumer,
            closed: _,
            fresh: _,
            taken: _,
            misses: _,
            left: _,
            buffer,
            writer,
            sign,
            pump,
        } = self;
        drop(consumer);
        drop(buffer);
        writer.set_ready(false);
        writer.clear_bulk();
        drop(writer);
        drop(sign);
        pump.ring();
        drop(pump);
    }
}

impl OutletEnd {
    ghost use Rattle.std.specs.Prelude.{ℕ, ◌≡◌, ◌+◌, ◌++◌, [], IfSome, IsTrue, Some};
    ghost use Rattle.std.specs.Prelude.{cond, false, is_some};
    ghost use Rattle.std.specs.Option.{option_to_list};
    ghost use Rattle.irc_line.specs.Lines.{counted};
    ghost use Rattle.rtrb.specs.Ring.{received};
    ghost use Rattle.hub_threads.specs.Queues.{closed_in, ended_by, is_nil, packets_in};
    ghost use Rattle.hub_threads.specs.Rings.{StaysOutletEnd, items_of, next_of};
    ghost use Rattle.hub_threads.specs.Writes.{IsOver};
    ghost use Rattle.hub_threads.specs.declared.turns.Turns.{Turns};

    /// The end of a ring from which nothing was taken, with room to write from.
    pub(crate) fn new(
        consumer: Consumer<Queued, Global, Counted>,
        buffer: Vec<u8>,
        writer: SharedBell,
        sign: SharedSign,
        pump: SharedBell,
    ) -> OutletEnd
        requires { received consumer ≡ [] }
        ensures items { items_of result ≡ [] }
        ensures ring { result.consumer ≡ consumer }
    {
        OutletEnd {
            consumer,
            closed: None,
            fresh: true,
            taken: 0,
            misses: 0,
            left: false,
            buffer,
            writer,
            sign,
            pump,
        }
    }

    /// Takes a packet; `None` if there is none for now, and for good once the closing item was
    /// taken. It takes no lock and waits for nobody.
    pub fn take(&mut self) -> Option<Packet>
        ensures taken { packets_in (items_of self.new)
            ≡ packets_in (items_of self.old) ++ option_to_list result }
        ensures next { IfSome (next_of self.old) (λ packet. result ≡ Some packet) }
        ensures writer { (self.new.misses ≡ self.old.misses) × (self.new.left ≡ self.old.left) }
        ensures ends { StaysOutletEnd self.old self.new }
    {
        if self.closed.is_some() {
            return None;
        }
        match self.consumer.pop() {
            Ok(Queued::Lines(packet)) => {
                self.fresh = false;
                self.taken = self.taken.saturating_add(1);
                wake(&self.pump, self.consumer.cached_slots());
                Some(packet)
            }
            Ok(Queued::Closing { id, .. }) => {
                self.closed = Some(id);
                None
            }
            Err(_) => None,
        }
    }

    /// The number in the closing item, once that was taken. All that was ever taken is then
    /// packets, and after them that item with their count.
    #[tactic(auto, using(crate::proofs::Lists::closed_is))]
    pub fn closed(&self) -> Option<SessionId>
        ensures value { result ≡ closed_in (items_of self.now) }
        ensures all { items_of self.now ≡ ended_by (packets_in (items_of self.now)) result }
    {
        self.closed
    }

    /// Whether no packet was taken yet.
    pub fn is_fresh(&self) -> bool
        ensures { result ≡ is_nil (packets_in (items_of self.now)) }
    {
        self.fresh
    }

    /// The next packet for the writer: none once it is asked to stop.
    pub(crate) fn next_to_write(&mut self) -> Option<Packet>
        ensures taken { packets_in (items_of self.new)
            ≡ packets_in (items_of self.old) ++ option_to_list result }
        ensures misses { self.new.misses
            ≡ cond (is_some result) 0 (counted (self.old.misses + 1)) }
        ensures left { self.new.left ≡ self.old.left }
    {
        let packet = if self.sign.is_up() { None } else { self.take() };
        self.misses = match &packet {
            Some(_) => 0,
            None => self.misses.saturating_add(1),
        };
        packet
    }

    /// Whether nothing more is to be written: this many takes in succession gave nothing, the
    /// closing item was taken, the other end is gone and nothing is left, or the writer is asked to
    /// stop.
    pub(crate) fn is_over(&mut self, idle: Turns) -> bool
        ensures end { (items_of self.new ≡ items_of self.old)
            × (self.new.misses ≡ self.old.misses) }
        ensures over { IsTrue result → IsOver self.new idle }
    {
        self.looks_left() || idle.are_over(self.misses) || self.closed.is_some()
    }

    /// Whether the other end is gone and nothing is left, or the writer is asked to stop.
    fn looks_left(&mut self) -> bool
        ensures end { (items_of self.new ≡ items_of self.old)
            × (self.new.misses ≡ self.old.misses) }
        ensures left { result ≡ self.new.left }
    {
        self.left = self.sign.is_up() || (self.consumer.is_abandoned() && self.consumer.is_empty());
        self.left
    }

    /// Whether the hub has let this ring go without a closing item, as far as that was looked for.
    pub(crate) fn is_cut(&mut self) -> bool
        ensures { items_of self.new ≡ items_of self.old }
    {
        self.closed.is_none() && self.consumer.is_abandoned()
    }

    /// Reports to the pump, which waits for room, a write call that took something, and whether the
    /// writer is held up by what it writes to.
    pub(crate) fn note_call(&self, call: Call) {
        match call {
            Call::Whole => {
                self.writer.set_ready(true);
                self.writer.step();
            }
            Call::Part => {
                self.writer.set_ready(false);
                self.writer.step();
            }
            Call::Blocked | Call::Failed => self.writer.set_ready(false),
            Call::Interrupted => {}
        }
    }

    /// Reports that a packet of more than 1 MiB is written, if it was in front before a write call and
    /// is no more.
    pub(crate) fn note_bulk(&self, was_in_front: bool, is_in_front: bool) {
        if was_in_front && !is_in_front {
            self.writer.note_bulk_written();
        }
    }

    /// Reports to the pump, which waits for room, whether a writer has begun with this end.
    pub(crate) fn note_begun(&self, has_begun: bool) {
        self.writer.set_ready(has_begun);
    }

    /// Sleeps until a packet may be there. Of those that were taken nothing is left to write.
    pub(crate) fn sleep<R: Wait>(&mut self, rt: &R, idle: Turns)
        ensures { (items_of self.new ≡ items_of self.old) × (self.new.misses ≡ self.old.misses) }
    {
        self.writer.note_written(self.taken);
        self.writer.nod();
        if self.consumer.is_empty() {
            self.writer.wait(rt, idle);
        }
        self.writer.rise();
    }

    /// Rests after a write, so that what comes meanwhile goes in one write: at most this many
    /// microseconds, and until half of the ring waits. Not at all once the closing item was taken. Of
    /// the packets that were taken nothing is left to write.
    pub(crate) fn rest<R: Wait>(&self, rt: &R, micros: u64) {
        self.writer.note_written(self.taken);
        if micros > 0 && self.closed.is_none() {
            self.writer.rest(rt, micros);
        }
    }

    /// The room to write from, for a writer that has looked for nothing yet.
    pub(crate) fn lend_buffer(&mut self) -> Vec<u8>
        ensures end { items_of self.new ≡ items_of self.old }
        ensures writer { (self.new.misses ≡ 0) × (self.new.left ≡ false) }
        ensures buffer { result.items ≡ [] }
    {
        self.misses = 0;
        self.left = false;
        let none = Vec::new(*self.buffer.allocator());
        let mut buffer = mem::replace(&mut self.buffer, none);
        buffer.clear();
        buffer
    }

    /// Takes the room back.
    pub(crate) fn take_back(&mut self, buffer: Vec<u8>)
        ensures end { items_of self.new ≡ items_of self.old }
        ensures over { (idle : Turns) → IsOver self.old idle → IsOver self.new idle }
    {
        self.buffer = buffer;
    }

    /// What tells the writer of this end to stop.
    pub fn stopper(&self) -> Result<Stopper, OutOfMemory> {
        Ok(Stopper {
            writer: Arc::try_clone(&self.writer)?,
            sign: Arc::try_clone(&self.sign)?,
        })
    }

    /// Takes the sign to stop back, so that a writer may go on with this end.
    pub fn go_on(&self) {
        self.sign.take_down();
    }
}

/// Tells the writer of an outlet to stop: it writes what it has taken, and ends.
#[derive(Drop)]
pub struct Stopper {
    writer: SharedBell,
    sign: SharedSign,
}

impl Stopper {
    /// Tells it to stop. It takes no lock and waits for nobody.
    pub fn stop(&self) {
        self.sign.put_up();
        self.writer.ring();
    }
}

/// Wakes the pump, if it waits for room and no packet is known to be left.
fn wake(pump: &SharedBell, left: usize) {
    if left == 0 && pump.awaits_room() {
        pump.ring();
    }
}
