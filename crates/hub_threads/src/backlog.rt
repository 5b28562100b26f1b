//! What a writer has taken and not yet written.

ghost use Rattle.std.specs.Prelude.{ℕ, ◌≡◌, ◌≤◌, ◌+◌, ◌++◌, [], List, IsTrue, None, Some, drop};
ghost use Rattle.std.specs.Prelude.{length, vec_len};
ghost use Rattle.std.specs.Vec.{vec_capacity};
ghost use Rattle.std.specs.Io.KnownBytes.{Appends};
ghost use Rattle.irc_line.specs.Writing.{bytes_of};
ghost use Rattle.hub_threads.specs.Backlogs.{left_in, rest_of};

use crate::front::Front;
use crate::write_call::{Call, write_call};
use std::io::Write;
use welcome::Packet;

/// How many bytes of more than one packet are written in one go at most, while writes take all.
pub(crate) const ROOM: usize = 8_192;

/// How many bytes of packets wait at most after a write that lags.
const LIMIT: usize = 1_048_576;

/// Packets to be written, in the order in which they were taken. While each write takes all that it
/// is given, there is room for 8 KiB, and no memory is taken. After one that did not, there is room
/// for 1 MiB until all is written. A packet with more bytes than there is room for, and with nothing
/// before it, is written from where it is.
#[derive(Drop)]
pub(crate) struct Backlog {
    front: Option<Front>,
    // bytes after the packet in front
    batch: Vec<u8>,
    // the packet after them, for which there is no room
    held: Option<Packet>,
    // a write left something, and not all was written since
    lags: bool,
}

/// Puts bytes that there is room for after those of the batch.
fn append(batch: &mut Vec<u8>, bytes: &[u8])
    requires { vec_len batch.old + length bytes.now ≤ vec_capacity batch.old }
    ensures { batch.new.items ≡ batch.old.items ++ bytes.now }
{
    match batch.extend_from_slice(bytes) {
        Ok(()) => {}
        Err(_) => unreachable!(),
    }
}

/// Removes this many bytes from the front.
fn remove(batch: &mut Vec<u8>, count: usize)
    requires { count ≤ length batch.old.items }
    ensures { batch.new.items ≡ drop count batch.old.items }
{
    batch.rotate_left(count);
    batch.truncate(batch.len() - count);
}

/// Whether there is room for this many bytes after those of the batch; it may take memory for them
/// if the batch may grow.
fn has_room(batch: &mut Vec<u8>, count: usize, may_grow: bool) -> bool
    ensures items { batch.new.items ≡ batch.old.items }
    ensures room { IsTrue result → vec_len batch.new + count ≤ vec_capacity batch.new }
{
    if count <= batch.capacity() - batch.len() {
        return true;
    }
    if !may_grow || batch.len() > LIMIT || count > LIMIT - batch.len() {
        return false;
    }
    batch.try_reserve_exact(LIMIT - batch.len()).is_ok()
}

impl Backlog {
    /// Nothing, with a buffer to write from that is empty.
    pub(crate) fn new(batch: Vec<u8>) -> Backlog
        requires { batch.items ≡ [] }
        ensures { rest_of result ≡ [] }
    {
        Backlog {
            front: None,
            batch,
            held: None,
            lags: false,
        }
    }

    /// The buffer to write from.
    pub(crate) fn into_buffer(self) -> Vec<u8> {
        let Backlog { batch, .. } = self;
        batch
    }

    /// Whether nothing is left to write.
    pub(crate) fn is_empty(&self) -> bool
        ensures { IsTrue result → rest_of self.now ≡ [] }
    {
        self.front.is_none() && self.batch.is_empty() && self.held.is_none()
    }

    /// Whether a packet of more than 1 MiB is being written.
    pub(crate) fn has_bulk(&self) -> bool {
        match &self.front {
            Some(front) => front.is_bulky(),
            None => false,
        }
    }

    /// Moves the packet that is held to where it is written from, if there is room for it. Whether
    /// none is held then.
    pub(crate) fn settle(&mut self) -> bool
        ensures rest { rest_of self.new ≡ rest_of self.old }
        ensures held { IsTrue result → self.new.held ≡ None }
    {
        let Some(packet) = self.held.take() else {
            return true;
        };
        let bytes = packet.bytes();
        let is_first = self.front.is_none() && self.batch.is_empty();
        if is_first && bytes.len() > self.batch.capacity() {
            self.front = Some(Front::new(packet));
            return true;
        }
        if has_room(&mut self.batch, bytes.len(), self.lags) {
            append(&mut self.batch, bytes);
            return true;
        }
        self.held = Some(packet);
        false
    }

    /// Takes a packet, if none is held.
    pub(crate) fn put(&mut self, packet: Packet)
        requires { self.old.held ≡ None }
        ensures { rest_of self.new ≡ rest_of self.old ++ bytes_of packet }
    {
        self.held = Some(packet);
        self.settle();
    }

    /// Writes what comes first, in one call. What it takes is left no more, and nothing else.
    pub(crate) fn write<W: Write>(&mut self, out: &mut W) -> Call
        ensures { (put : List ℕ) × Appends (W.contents out.old) (W.contents out.new) put ×
            (put ++ rest_of self.new ≡ rest_of self.old) }
    {
        let call = match self.front.take() {
            Some(front) => self.write_front(front, out),
            None => self.write_batch(out),
        };
        self.note(call);
        call
    }

    /// Writes the rest of the packet that was in front.
    fn write_front<W: Write>(&mut self, front: Front, out: &mut W) -> Call
        requires { self.old.front ≡ None }
        ensures { (put : List ℕ) × Appends (W.contents out.old) (W.contents out.new) put ×
            (put ++ rest_of self.new ≡ left_in (Some front) ++ rest_of self.old) }
    {
        let (left, call) = front.write(out);
        self.front = left;
        call
    }

    /// Writes bytes of the batch.
    fn write_batch<W: Write>(&mut self, out: &mut W) -> Call
        requires { self.old.front ≡ None }
        ensures { (put : List ℕ) × Appends (W.contents out.old) (W.contents out.new) put ×
            (put ++ rest_of self.new ≡ rest_of self.old) }
    {
        let (count, call) = write_call(out, self.batch.as_slice());
        remove(&mut self.batch, count);
        call
    }

    /// Notes that a call left something; gives memory back if nothing is left.
    fn note(&mut self, call: Call)
        ensures { rest_of self.new ≡ rest_of self.old }
    {
        if call != Call::Whole {
            self.lags = true;
        } else if self.front.is_none() && self.batch.is_empty() {
            self.lags = false;
            self.shrink();
        }
    }

    /// Gives back what an empty batch has of memory over 8 KiB, if there is memory for that.
    fn shrink(&mut self)
        requires { self.old.batch.items ≡ [] }
        ensures { rest_of self.new ≡ rest_of self.old }
    {
        if self.batch.capacity() <= ROOM {
            return;
        }
        if let Ok(batch) = Vec::with_capacity(*self.batch.allocator(), ROOM) {
            self.batch = batch;
        }
    }
}
