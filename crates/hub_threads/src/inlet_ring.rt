//! Items from the thread that reads.

ghost use Rattle.std.specs.Prelude.{◌≡◌, ◌∷◌, ◌++◌, ◌<◌, [], IfErr, IfOk, IsOk, List, OnOk, length};
ghost use Rattle.hub_ends.specs.Came.{Came, came};
ghost use Rattle.std.specs.Prelude.{MatchOption};
ghost use Rattle.hub_threads.specs.Rings.{AreEnds, StaysEnd, StaysInlet};
ghost use Rattle.hub_threads.specs.Rings.{ahead_of, put_of, slots_of, taken_of};

use crate::OutOfMemory;
use crate::bell::{SharedBell, shared_bell};
use client_caps::Moment;
use hub_ends::Inlet;
use net_view::Item;
use rtrb::{Consumer, Producer, PushError, RingBuffer};
use std::alloc::Global;
use std::sync::{Arc, Wait};

/// The other end of the ring, in which it waits to be emptied by whoever puts.
type Left = Consumer<(Item, Moment)>;

/// The end that items are put into, each with the moment at which it came. Dropping it wakes the
/// pump. Once the other end is dropped nobody takes what is put: this end then takes it out itself,
/// so that whoever puts waits for nobody.
pub struct InletEnd {
    producer: Producer<(Item, Moment)>,
    // brings what the other end took from, once that is dropped
    leavings: Consumer<Left>,
    // what it brought
    left: Option<Left>,
    // wakes the pump
    pump: SharedBell,
    // wakes the thread that has this end
    reader: SharedBell,
}

/// The end that a hub takes items from. Dropping it hands what it took from to the other end, and
/// wakes the thread that has that.
pub struct RingInlet {
    consumer: Consumer<(Item, Moment)>,
    // takes it to the other end, with a slot that stays free till then
    leavings: Producer<Left>,
    // wakes the thread that has the other end
    reader: SharedBell,
}

impl Drop for InletEnd {
    fn drop(self) {
        let InletEnd {
            producer,
            leavings,
            left,
            pump,
            reader,
        } = self;
        drop(producer);
        drop(left);
        drop(leavings);
        pump.ring();
        drop(pump);
        drop(reader);
    }
}

impl Drop for RingInlet {
    fn drop(self) {
        let RingInlet {
            consumer,
            mut leavings,
            reader,
        } = self;
        let _ = leavings.push(consumer);
        drop(leavings);
        reader.ring();
        drop(reader);
    }
}

/// Both ends of one ring, for this many items at a time. Whoever sleeps on `pump` is woken by each
/// item that is put. `OutOfMemory` if an allocation was refused, and for no other reason.
pub fn inlet(
    alloc: Global,
    capacity: usize,
    pump: SharedBell,
) -> Result<(InletEnd, RingInlet), OutOfMemory>
    requires { 0 < capacity }
    ensures put { IfOk result (λ r. (put_of r.0 ≡ []) × (slots_of r.0 ≡ capacity)) }
    ensures taken { IfOk result (λ r. (taken_of r.1 ≡ []) × (ahead_of r.1 ≡ [])) }
    ensures ends { IfOk result (λ r. AreEnds r.0 r.1) }
{
    let reader = shared_bell(alloc)?;
    let theirs = Arc::try_clone(&reader)?;
    let (producer, consumer) = RingBuffer::new(alloc, capacity)?;
    let (leaving, leavings) = RingBuffer::new(alloc, 1)?;
    let end = InletEnd {
        producer,
        leavings,
        left: None,
        pump,
        reader,
    };
    let inlet = RingInlet {
        consumer,
        leavings: leaving,
        reader: theirs,
    };
    Ok((end, inlet))
}

/// Takes out all that there is.
fn empty(left: &mut Left) {
    for _ in 0..left.capacity() {
        if left.pop().is_err() {
            return;
        }
    }
}

impl InletEnd {
    /// Puts an item and wakes the pump, or hands it back if no slot is known to be free. It
    /// takes no lock and waits for nobody.
    pub fn put(&mut self, item: Item, moment: Moment) -> Result<(), (Item, Moment)>
        ensures ok { OnOk result (put_of self.new ≡ put_of self.old ++ came (item, moment) ∷ []) }
        ensures full { IfErr result (λ x. (came x ≡ came (item, moment)) ×
            (put_of self.new ≡ put_of self.old) × (slots_of self.new ≡ 0)) }
        ensures room { 0 < slots_of self.old → IsOk result }
        ensures ends { StaysEnd self.old self.new }
    {
        self.put_unrung(item, moment)?;
        self.pump.ring();
        Ok(())
    }

    /// The same, but the pump sleeps on: who has put all that it has wakes it.
    pub(crate) fn put_unrung(&mut self, item: Item, moment: Moment) -> Result<(), (Item, Moment)>
        ensures ok { OnOk result (put_of self.new ≡ put_of self.old ++ came (item, moment) ∷ []) }
        ensures full { IfErr result (λ x. (came x ≡ came (item, moment)) ×
            (put_of self.new ≡ put_of self.old) × (slots_of self.new ≡ 0)) }
        ensures room { 0 < slots_of self.old → IsOk result }
        ensures ends { StaysEnd self.old self.new }
    {
        match self.producer.push((item, moment)) {
            Ok(()) => Ok(()),
            Err(PushError::Full(pair)) => Err(pair),
        }
    }

    /// Wakes the pump.
    pub(crate) fn wake_pump(&self) {
        self.pump.ring();
    }

    /// Takes out what nobody will take, if the other end was dropped; whether it was.
    fn empty_left(&mut self) -> bool
        ensures { put_of self.new ≡ put_of self.old }
    {
        if let Ok(left) = self.leavings.pop() {
            self.left = Some(left);
        }
        match &mut self.left {
            Some(left) => {
                empty(left);
                true
            }
            None => false,
        }
    }

    /// Wakes the pump, and sleeps until it has taken half of what the ring holds; not at all if
    /// there is room already, or the other end was dropped, which makes room.
    pub(crate) fn wait_for_room<R: Wait>(&mut self, rt: &R)
        ensures { put_of self.new ≡ put_of self.old }
    {
        self.pump.ring();
        self.reader.nod();
        if self.producer.is_full() && !self.empty_left() {
            self.reader.sleep(rt);
        }
        self.reader.rise();
    }
}

impl RingInlet {
    /// Whether at least half of the slots are free.
    fn is_half_empty(&mut self) -> bool
        ensures taken { taken_of self.new ≡ taken_of self.old }
        ensures ends { StaysInlet self.old self.new }
    {
        let half = self.consumer.capacity() / 2;
        self.consumer.cached_slots() <= half && self.consumer.slots() <= half
    }

    /// Takes the next item; `None` if there is none for now. It takes no lock and waits for
    /// nobody.
    pub fn take(&mut self) -> Option<(Item, Moment)>
        ensures item { MatchOption result
            ((taken_of self.new ≡ taken_of self.old) × (ahead_of self.old ≡ []) ×
            (ahead_of self.new ≡ []))
            (λ x. taken_of self.new ≡ taken_of self.old ++ came x ∷ []) }
        ensures ends { StaysInlet self.old self.new }
    {
        match self.consumer.pop() {
            Ok(pair) => {
                let is_half_empty = self.is_half_empty();
                if is_half_empty && self.reader.is_drowsy() {
                    self.reader.ring();
                }
                Some(pair)
            }
            Err(_) => None,
        }
    }
}

impl Inlet for RingInlet {
    ghost use Rattle.std.specs.Prelude.{false};
    ghost use Rattle.hub_threads.specs.Rings.{ahead_of, taken_of};

    ghost taken = { taken_of };

    ghost ahead = { ahead_of };

    ghost alone = { false };

    fn next(&mut self) -> Option<(Item, Moment)> {
        self.take()
    }
}

/// How many items were put and not taken. Both ends are in one thread here.
pub fn waiting(inlet: &mut RingInlet, end: &mut InletEnd) -> usize
    requires { AreEnds end.old inlet.old }
    ensures put { put_of end.new ≡ put_of end.old }
    ensures taken { taken_of inlet.new ≡ taken_of inlet.old }
    ensures waiting { (rest : List Came) × (length rest ≡ result) ×
        (taken_of inlet.new ++ rest ≡ put_of end.new) }
    ensures ends { AreEnds end.new inlet.new }
{
    inlet.consumer.slots_beside(&mut end.producer)
}
