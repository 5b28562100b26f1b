//! What a worker sleeps on.

use crate::OutOfMemory;
use crate::bulk::is_bulky;
use crate::turns::Turns;
use std::alloc::Global;
use std::sync::atomic::{AtomicBool, AtomicU64, Ordering};
use std::sync::{Arc, Wait};
use std::thread::Parker;
use std::time::Duration;
use welcome::Packet;

/// How many milliseconds a nap lasts at most.
const NAP: u64 = 1;

/// What one worker sleeps on, and others wake it by: a ring that comes before it sleeps keeps it
/// awake. One worker at a time sleeps on it.
#[derive(Drop)]
pub struct Bell {
    parker: Parker,
    // the worker is the pump of a network, and waits for room in an outlet
    awaits_room: AtomicBool,
    // the worker is the pump of a network, and one of its outlets was left with little room
    is_tight: AtomicBool,
    // the worker sleeps, or looks for work a last time before it does
    drowsy: AtomicBool,
    // how often the worker has got on
    steps: AtomicU64,
    // the worker is the writer of a session, and needs nothing but a processor
    is_ready: AtomicBool,
    // the worker is the writer of a session: how many packets it has written, when it last had nothing
    // left to write
    written: AtomicU64,
    // the worker is the writer of a session: how many packets of more than 1 MiB wait for it
    bulk: AtomicU64,
}

/// A bell, shared by any number of hands.
pub type SharedBell = Arc<Bell, Global>;

/// A bell that nobody has rung, of a worker that waits for no room.
pub fn shared_bell(alloc: Global) -> Result<SharedBell, OutOfMemory> {
    Ok(Arc::new(
        alloc,
        Bell {
            parker: Parker::new(),
            awaits_room: AtomicBool::new(false),
            is_tight: AtomicBool::new(false),
            drowsy: AtomicBool::new(false),
            steps: AtomicU64::new(0),
            is_ready: AtomicBool::new(false),
            written: AtomicU64::new(0),
            bulk: AtomicU64::new(0),
        },
    )?)
}

impl Bell {
    /// Wakes the worker, or keeps it from sleeping the next time. It takes no lock and waits for
    /// nobody.
    pub fn ring(&self) {
        self.parker.unpark();
    }

    /// Sleeps until it is rung.
    pub(crate) fn sleep<R: Wait>(&self, rt: &R) {
        self.parker.park(rt);
    }

    /// Sleeps until it is rung, at most 1 ms.
    pub(crate) fn nap<R: Wait>(&self, rt: &R) {
        self.parker.park_timeout(rt, Duration::from_millis(NAP));
    }

    /// Sleeps until it is rung: without a limit if the worker's turns have none, else at most 1 ms.
    pub fn wait<R: Wait>(&self, rt: &R, turns: Turns) {
        match turns {
            Turns::Endless => self.sleep(rt),
            Turns::AtMost(_) => self.nap(rt),
        }
    }

    /// Rests until it is rung, at most this many microseconds. A worker that rests looks for work by
    /// itself then.
    pub(crate) fn rest<R: Wait>(&self, rt: &R, micros: u64) {
        self.parker.park_timeout(rt, Duration::from_micros(micros));
    }

    /// The same for a worker that found no work, which says so while it sleeps.
    pub fn doze<R: Wait>(&self, rt: &R, turns: Turns) {
        self.nod();
        self.wait(rt, turns);
        self.rise();
    }

    /// Says that the worker is about to sleep: it looks for work once more, and whoever gives it
    /// work from now on has to ring.
    pub(crate) fn nod(&self) {
        self.drowsy.store(true, Ordering::SeqCst);
    }

    /// Says that the worker is awake: it looks for work by itself before it sleeps again.
    pub(crate) fn rise(&self) {
        self.drowsy.store(false, Ordering::SeqCst);
    }

    /// Whether work that was given is found only by a ring.
    pub(crate) fn is_drowsy(&self) -> bool {
        self.drowsy.load(Ordering::SeqCst)
    }

    /// Counts that the worker has got on.
    pub(crate) fn step(&self) {
        self.steps.fetch_add(1, Ordering::SeqCst);
    }

    /// How often the worker has got on.
    pub(crate) fn steps(&self) -> u64 {
        self.steps.load(Ordering::SeqCst)
    }

    /// Says whether the writer needs nothing but a processor: it has begun, and what it wrote to took
    /// all of its last call.
    pub(crate) fn set_ready(&self, is_ready: bool) {
        self.is_ready.store(is_ready, Ordering::SeqCst);
    }

    /// Whether the writer needs nothing but a processor.
    pub(crate) fn is_ready(&self) -> bool {
        self.is_ready.load(Ordering::SeqCst)
    }

    /// Says that the writer has nothing left to write, of this many packets.
    pub(crate) fn note_written(&self, count: u64) {
        self.written.store(count, Ordering::SeqCst);
    }

    /// How many packets the writer had written when it last had nothing left to write.
    pub(crate) fn written(&self) -> u64 {
        self.written.load(Ordering::SeqCst)
    }

    /// Counts a packet that the writer is about to be sent, if it has more than 1 MiB.
    pub(crate) fn add_bulk(&self, packet: &Packet) {
        if is_bulky(packet) {
            self.bulk.fetch_add(1, Ordering::SeqCst);
        }
    }

    /// Takes that back for a packet that was not sent.
    pub(crate) fn take_bulk_back(&self, packet: &Packet) {
        if is_bulky(packet) {
            self.note_bulk_written();
        }
    }

    /// Says that the writer has written such a packet.
    pub(crate) fn note_bulk_written(&self) {
        self.bulk.fetch_sub(1, Ordering::SeqCst);
    }

    /// Says that the writer writes no more.
    pub(crate) fn clear_bulk(&self) {
        self.bulk.store(0, Ordering::SeqCst);
    }

    /// Whether packets of more than 1 MiB wait for the writer.
    pub(crate) fn has_bulk(&self) -> bool {
        self.bulk.load(Ordering::SeqCst) > 0
    }

    /// Says whether the pump that sleeps on it waits for room in an outlet, so that a writer that
    /// makes room rings it.
    pub(crate) fn set_awaits_room(&self, awaits_room: bool) {
        self.awaits_room.store(awaits_room, Ordering::SeqCst);
    }

    /// Whether the pump that sleeps on it waits for room in an outlet.
    pub(crate) fn awaits_room(&self) -> bool {
        self.awaits_room.load(Ordering::SeqCst)
    }

    /// Says that a packet has left an outlet of the pump that sleeps on it with little room.
    pub(crate) fn note_tight(&self) {
        self.is_tight.store(true, Ordering::SeqCst);
    }

    /// Whether that was said since the last call.
    pub(crate) fn take_tight(&self) -> bool {
        self.is_tight.swap(false, Ordering::SeqCst)
    }
}
