//! Packets from a ring to a writer.

ghost use Rattle.std.specs.Prelude.{ℕ, ◌≡◌, ◌∷◌, ◌++◌, [], IfOk, List, MatchOption, length};
ghost use Rattle.std.specs.Io.KnownBytes.{Appends};
ghost use Rattle.irc_line.specs.Line.{Parts};
ghost use Rattle.irc_line.specs.Writing.{bytes_of};
ghost use Rattle.hub_threads.specs.Backlogs.{rest_of};
ghost use Rattle.hub_threads.specs.Queues.{packets_in};
ghost use Rattle.hub_threads.specs.Rings.{items_of};
ghost use Rattle.hub_threads.specs.Writes.{IsOver, IsWritten, KeepsWritten};
ghost use Rattle.hub_threads.specs.declared.turns.Turns.{Turns};

use crate::backlog::Backlog;
use crate::gate::{Gate, Point};
use crate::lull::Lull;
use crate::outlet_end::OutletEnd;
use crate::slowness::Slowness;
use crate::turns::Turns;
use std::io::Write;
use std::sync::Wait;
use thiserror::Error;

/// A write failed, or took no byte, or a flush failed; or nothing was taken for 30 s; or the session
/// was cut, and not all was taken within 30 s.
#[derive(Clone, Copy, Debug, PartialEq, Eq, Error)]
#[error("cannot write")]
pub struct WriteFault;

/// What `write_out` hands back. Its type keeps what was written of the packets that were taken.
#[derive(Drop)]
pub struct Written<W: Write> {
    /// The end that the packets were taken from.
    pub end: OutletEnd,
    /// What they were written to.
    pub out: W,
    /// Whether the packets taken in the call are all that the end ever took.
    pub fresh: bool,
    /// How many bytes were written, at most 18446744073709551615.
    pub outcome: Result<u64, WriteFault>,
    ghost kept: { ∥ KeepsWritten (items_of end) (W.contents out) fresh outcome ∥₁ },
}

/// What is handed back, with the buffer to write from in its place.
fn handed_back<W: Write, G: Gate>(
    end: OutletEnd,
    backlog: Backlog,
    out: W,
    fresh: bool,
    outcome: Result<u64, WriteFault>,
    gate: &G,
) -> Written<W>
    requires { KeepsWritten (items_of end) (W.contents out) fresh outcome }
    ensures parts { (items_of result.end ≡ items_of end) × (result.out ≡ out) ×
        (result.fresh ≡ fresh) × (result.outcome ≡ outcome) }
    ensures over { (idle : Turns) → IsOver end idle → IsOver result.end idle }
{
    let mut end = end;
    end.take_back(backlog.into_buffer());
    end.note_begun(false);
    if !end.is_fresh() {
        gate.pass(Point::AtEnd);
    }
    Written {
        end,
        out,
        fresh,
        outcome,
    }
}

/// Takes the next packet, if there is one, and room for it; answers how many bytes it has.
fn take_packet(end: &mut OutletEnd, backlog: &mut Backlog) -> Option<u64>
    ensures { MatchOption result
        ((packets_in (items_of end.new) ≡ packets_in (items_of end.old)) ×
        (rest_of backlog.new ≡ rest_of backlog.old))
        (λ bytes. (packet : List Parts) ×
        (packets_in (items_of end.new) ≡ packets_in (items_of end.old) ++ packet ∷ []) ×
        (rest_of backlog.new ≡ rest_of backlog.old ++ bytes_of packet) ×
        (bytes ≡ length (bytes_of packet))) }
{
    if !backlog.settle() {
        return None;
    }
    let packet = end.next_to_write()?;
    let bytes = packet.bytes().len() as u64;
    backlog.put(packet);
    Some(bytes)
}

/// Writes what comes first in the backlog, in one call, and flushes if nothing is left. False is a
/// fault. What was written is left no more, and nothing else, whatever it answers.
fn write_once<W: Write, G: Gate>(
    out: &mut W,
    backlog: &mut Backlog,
    end: &mut OutletEnd,
    slowness: &mut Slowness,
    gate: &G,
) -> bool
    ensures wrote { (put : List ℕ) × Appends (W.contents out.old) (W.contents out.new) put ×
        (put ++ rest_of backlog.new ≡ rest_of backlog.old) }
    ensures end { items_of end.new ≡ items_of end.old }
{
    gate.pass(Point::BeforeWrite);
    let had_bulk = backlog.has_bulk();
    let call = backlog.write(out);
    end.note_call(call);
    end.note_bulk(had_bulk, backlog.has_bulk());
    if slowness.is_too_much(call, end.is_cut()) {
        return false;
    }
    if backlog.is_empty() {
        if out.flush().is_err() {
            return false;
        }
        gate.pass(Point::AfterWrite);
    }
    true
}

/// Takes packets and writes them, until the closing item was taken, the other end is gone and
/// nothing is left, a write fails, it has to stop, or that many takes in succession gave nothing.
/// What waits in the ring is written in one go, through the room of 8 KiB that the end has, and
/// then flushed; a packet that is longer is written as it is. So one packet goes out at once.
///
/// A write call that does not take all that it is given, or that takes nothing in its time, is
/// followed by another one; in between it takes what waits in the ring, up to 1 MiB, so a slow
/// reader's ring stays empty meanwhile. If there is no memory for that, it takes the packet later.
/// It gives up if nothing was taken for 30 s, with calls of [`WRITE_CALL`](crate::WRITE_CALL)
/// milliseconds, and for a session that was cut if not all was taken within 30 s. A write that is
/// interrupted is tried again.
///
/// After a write of two packets or more it rests for 1 ms, or up to 4 ms while each write has four or
/// more, so that what comes meanwhile goes out in one write, and after one packet for half as long as
/// before, or not at all; half of a ring of packets ends the rest. If no packet waits it sleeps until it
/// is woken: at most 1 ms a time, unless `idle` is endless.
pub fn write_out<W: Write, G: Gate, R: Wait>(
    rt: &R,
    end: OutletEnd,
    out: W,
    gate: &G,
    idle: Turns,
) -> Written<W>
    ensures written { IsWritten (items_of end) (items_of result.end) (W.contents out)
        (W.contents result.out) result.fresh result.outcome }
    ensures over { IfOk result.outcome (λ count. IsOver result.end idle) }
{
    let fresh = end.is_fresh();
    end.note_begun(true);
    let mut end = end;
    let mut out = out;
    let mut backlog = Backlog::new(end.lend_buffer());
    let mut slowness = Slowness::none();
    let mut lull = Lull::new();
    let mut count = 0u64;
    for _ in rt.forever() {
        match take_packet(&mut end, &mut backlog) {
            Some(bytes) => {
                count = count.saturating_add(bytes);
                lull.count_packet();
            }
            None if !backlog.is_empty() => {
                if !write_once(&mut out, &mut backlog, &mut end, &mut slowness, gate) {
                    return handed_back(end, backlog, out, fresh, Err(WriteFault), gate);
                }
                if backlog.is_empty() {
                    end.rest(rt, lull.after_write());
                }
            }
            None => {
                if end.is_over(idle) {
                    return handed_back(end, backlog, out, fresh, Ok(count), gate);
                }
                end.sleep(rt, idle);
            }
        }
    }
    unreachable!()
}
