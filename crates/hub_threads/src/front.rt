//! A packet that is being written.

ghost use Rattle.std.specs.Prelude.{◌≤◌, length};
ghost use Rattle.irc_line.specs.Writing.{bytes_of};

use crate::bulk::is_bulky;
use crate::write_call::{Call, write_call};
use std::io::Write;
use welcome::Packet;

/// A packet that is being written from where it is.
#[derive(Drop)]
pub(crate) struct Front {
    packet: Packet,
    // how many of its bytes were written
    at: usize,
    ghost within: { at ≤ length (bytes_of packet) },
}

impl Front {
    ghost use Rattle.std.specs.Prelude.{ℕ, ◌≡◌, ◌++◌, List, Some};
    ghost use Rattle.std.specs.Io.KnownBytes.{Appends};
    ghost use Rattle.irc_line.specs.Writing.{bytes_of};
    ghost use Rattle.hub_threads.specs.Backlogs.{left_in};

    /// One with nothing written.
    pub(crate) fn new(packet: Packet) -> Front
        ensures { left_in (Some result) ≡ bytes_of packet }
    {
        Front { packet, at: 0 }
    }

    /// Whether the packet has more than 1 MiB.
    pub(crate) fn is_bulky(&self) -> bool {
        is_bulky(&self.packet)
    }

    /// Writes of what is left, in one call. Answers what is left then, and what became of the call.
    pub(crate) fn write<W: Write>(self, out: &mut W) -> (Option<Front>, Call)
        ensures { (put : List ℕ) × Appends (W.contents out.old) (W.contents out.new) put ×
            (put ++ left_in result.0 ≡ left_in (Some self)) }
    {
        let Front { packet, at } = self;
        let bytes = packet.bytes();
        let (count, call) = write_call(out, &bytes[at..]);
        if count == bytes.len() - at {
            return (None, call);
        }
        let at = at + count;
        (Some(Front { packet, at }), call)
    }
}
