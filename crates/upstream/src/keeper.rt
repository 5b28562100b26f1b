//! Who watches a connection to a network.

ghost use Rattle.std.specs.Prelude.{◌≡◌, ℕ, List};
ghost use Rattle.std.specs.Io.KnownBytes.{Appends};

use irc_line::Line;
use std::io::{Read, Write};
use std::sync::Wait;

/// Who watches a connection to a network: a program's limits and log. `I` reads from the network,
/// `W` writes to it. No lock is held during these calls.
///
/// What [`serve_network`](crate::serve_network) promises holds whatever a keeper does: it can send
/// lines of its own after the registration and give the connection up, and can't take a line from
/// the hub or give it one.
pub trait Keeper<I: Read, W: Write> {
    /// The network took us in; the first of these lines is its welcome. The keeper may send lines
    /// before any of the hub's. From here on the reader reads to the connection's end; it must not
    /// have read anything in this call. If the answer is `false`, the connection is given up.
    fn registered(&mut self, reader: &mut I, writer: &mut W, lines: &[Line]) -> bool
        ensures read { I.remaining reader.new ≡ I.remaining reader.old }
        ensures sent { (bytes : List ℕ) × Appends (W.contents writer.old) (W.contents writer.new)
            bytes };

    /// Asked after each piece that was read, once its lines are in the hub's inlet: whether they were
    /// taken into the hub here, so that its pump may sleep on. If not, the pump is woken.
    fn took_lines<R: Wait>(&self, _rt: &R) -> bool {
        false
    }

    /// There is no thread to write with, so the connection is given up.
    fn no_thread(&mut self);

    /// The reading has ended and the hub has got the loss. The keeper shuts the connection, so that
    /// its writer ends.
    fn ended(&mut self);
}
