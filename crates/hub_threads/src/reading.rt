//! From the bytes of a network to the items of its hub.

ghost use Rattle.std.specs.Prelude.{◌≡◌, ◌++◌, ◌∷◌, []};
ghost use Rattle.net_view.specs.Arrival.{Lost};
ghost use Rattle.hub_ends.specs.Came.{arrivals, came};
ghost use Rattle.hub_threads.specs.Reads.{IsReadIn, received_at, why_of};
ghost use Rattle.hub_threads.specs.Rings.{put_of};

use crate::gate::{Clock, Gate, Point};
use crate::inlet_ring::InletEnd;
use crate::worker::Worker;
use client_caps::Moment;
use irc_line::{InputEnd, Line, LineTaker, ReadPoint, Splitter, read_lines};
use net_view::Item;
use std::alloc::Global;
use std::convert::Infallible;
use std::io::Read;
use std::sync::Wait;

/// How many bytes one read asks for.
const PIECE: usize = 4_096;

/// Why the reading of a network ended.
#[derive(Clone, Copy, Debug, PartialEq, Eq)]
pub enum ReadEnd {
    /// The input ended.
    EndOfInput,
    /// A read failed.
    ReadFault,
    /// More than 16,384 bytes came without LF.
    TooLong,
    /// An allocation was refused.
    OutOfMemory,
    /// There were `irc_line::READ_LIMIT` reads.
    TurnsSpent,
}

/// What `read_in` hands back.
#[derive(Drop)]
pub struct Reading {
    /// The end that the items were put into.
    pub end: InletEnd,
    /// Why it ended.
    pub ended: ReadEnd,
}

/// Puts an item, and sleeps until there is room for it. The pump is woken only if there is none.
fn put_waiting<R: Wait>(rt: &R, end: &mut InletEnd, item: Item, moment: Moment)
    ensures { put_of end.new ≡ put_of end.old ++ came (item, moment) ∷ [] }
{
    let mut pair = (item, moment);
    for _ in rt.forever() {
        match end.put_unrung(pair.0, pair.1) {
            Ok(()) => return,
            Err(back) => {
                pair = back;
                end.wait_for_room(rt);
            }
        }
    }
    unreachable!()
}

/// Puts lines, in order, each with this moment. The pump is woken only if the ring is full; then
/// it sleeps until there is room.
fn put_unrung<R: Wait>(rt: &R, end: &mut InletEnd, lines: Vec<Line>, moment: Moment)
    ensures { put_of end.new ≡ put_of end.old ++ received_at moment.0 lines.items }
{
    for line in lines {
        put_waiting(rt, end, Item::Line(line), moment);
    }
}

/// Puts lines, in order, each with this moment, and wakes the pump. If the ring is full it
/// sleeps until there is room.
pub fn put_lines<R: Wait>(rt: &R, end: &mut InletEnd, lines: Vec<Line>, moment: Moment)
    ensures { put_of end.new ≡ put_of end.old ++ received_at moment.0 lines.items }
{
    put_unrung(rt, end, lines, moment);
    end.wake_pump();
}

impl From<ReadPoint> for Point {
    fn from(point: ReadPoint) -> Point {
        match point {
            ReadPoint::Before => Point::BeforeRead,
            ReadPoint::After => Point::AfterRead,
        }
    }
}

/// Takes lines into a hub beside its pump.
pub trait PumpsBeside {
    /// Asked once lines were put: whether they were taken into the hub here, so that its pump may
    /// sleep on. If not, the pump is woken.
    fn took_lines<R: Wait>(&self, rt: &R) -> bool;
}

/// Leaves all lines to the pump.
struct LeavesLines;

impl PumpsBeside for LeavesLines {
    fn took_lines<R: Wait>(&self, _rt: &R) -> bool {
        false
    }
}

/// What puts the lines of a network into the end of an inlet, each with the moment at which it was
/// read.
#[derive(Drop)]
struct Inflow<'a, G, C, B, R> {
    rt: &'a R,
    end: InletEnd,
    gate: &'a G,
    clock: &'a C,
    beside: &'a B,
}

impl<G: Gate, C: Clock, B: PumpsBeside, R: Wait> LineTaker<Infallible> for Inflow<'_, G, C, B, R> {
    ghost use Rattle.std.specs.Prelude.{◌≡◌, ◌++◌, map};
    ghost use Rattle.net_view.specs.Arrival.{Received};
    ghost use Rattle.hub_ends.specs.Came.{arrivals};
    ghost use Rattle.hub_threads.specs.Rings.{put_of};

    ghost is_after = { λ began lines now.
        arrivals (put_of now.end) ≡ arrivals (put_of began.end) ++ map Received lines };

    ghost ends = { λ began lines never now. ⊥ };

    #[tactic(auto, using(crate::proofs::ReadLemmas::arrived))]
    fn take_lines(&mut self, lines: Vec<Line>) -> Option<Infallible> {
        put_unrung(self.rt, &mut self.end, lines, self.clock.now());
        if !self.beside.took_lines(self.rt) {
            self.end.wake_pump();
        }
        None
    }

    fn pass(&self, point: ReadPoint) {
        self.gate.pass(point.into());
    }
}

/// Why a network is read no further.
fn why(end: InputEnd<Infallible>) -> ReadEnd
    ensures { result ≡ why_of end }
{
    match end {
        InputEnd::EndOfInput => ReadEnd::EndOfInput,
        InputEnd::ReadFault(_) => ReadEnd::ReadFault,
        InputEnd::TooLong => ReadEnd::TooLong,
        InputEnd::OutOfMemory => ReadEnd::OutOfMemory,
        InputEnd::ReadsSpent => ReadEnd::TurnsSpent,
    }
}

/// Puts that the connection is lost, and hands the end back.
fn lost<C: Clock, R: Wait>(rt: &R, end: InletEnd, ended: ReadEnd, clock: &C) -> Reading
    ensures put { arrivals (put_of result.end) ≡ arrivals (put_of end) ++ Lost ∷ [] }
    ensures ended { result.ended ≡ ended }
{
    let mut end = end;
    put_waiting(rt, &mut end, Item::Lost, clock.now());
    end.wake_pump();
    Reading { end, ended }
}

/// Reads a network to its end, by what puts its lines.
fn read_by<I: Read, G: Gate, C: Clock, B: PumpsBeside, R: Wait>(
    alloc: Global,
    reader: &mut I,
    splitter: Splitter,
    inflow: Inflow<'_, G, C, B, R>,
) -> Reading
    ensures { IsReadIn splitter (put_of inflow.entry.end) (put_of result.end)
        (I.remaining reader.old) (I.remaining reader.new) result.ended }
{
    let (rt, clock) = (inflow.rt, inflow.clock);
    let mut inflow = inflow;
    let mut splitter = splitter;
    let Ok(mut buffer) = vec![in alloc; 0; PIECE] else {
        return lost(rt, inflow.end, ReadEnd::OutOfMemory, clock);
    };
    let read = read_lines(alloc, &mut splitter, &mut inflow, reader, &mut buffer);
    lost(rt, inflow.end, why(read), clock)
}

/// Reads a network to its end, and puts its lines into the end of an inlet, in order, after what
/// the splitter holds, each with the moment at which it was read; then one loss. Of a piece that is
/// refused no line is put. If the ring is full it sleeps until there is room.
///
/// It reads at most `irc_line::READ_LIMIT` times. A read that is interrupted is tried again.
pub fn read_in<'a, I: Read, G: Gate, C: Clock, R: Wait>(
    rt: &'a R,
    alloc: Global,
    reader: &mut I,
    splitter: Splitter,
    end: InletEnd,
    gate: &'a G,
    clock: &'a C,
) -> Reading
    ensures { IsReadIn splitter (put_of end) (put_of result.end)
        (I.remaining reader.old) (I.remaining reader.new) result.ended }
{
    let inflow = Inflow {
        rt,
        end,
        gate,
        clock,
        beside: &LeavesLines,
    };
    read_by(alloc, reader, splitter, inflow)
}

/// Reads a network to its end, as [`read_in`] does; after each piece its lines may be taken into the
/// hub by this thread.
pub fn read_beside<I: Read, G: Gate, C: Clock, B: PumpsBeside, R: Wait>(
    worker: &Worker<'_, R, G, C>,
    reader: &mut I,
    splitter: Splitter,
    end: InletEnd,
    beside: &B,
) -> Reading
    ensures { IsReadIn splitter (put_of end) (put_of result.end)
        (I.remaining reader.old) (I.remaining reader.new) result.ended }
{
    let inflow = Inflow {
        rt: &worker.rt,
        end,
        gate: worker.gate,
        clock: worker.clock,
        beside,
    };
    read_by(worker.alloc, reader, splitter, inflow)
}
