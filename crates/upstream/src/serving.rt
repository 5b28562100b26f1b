//! A network, from the first byte of a connection to its end.

ghost use Rattle.std.specs.Prelude.{◌≡◌, ℕ, IfErr, IfOk, IsTrue, List};
ghost use Rattle.irc_names.specs.Nick.{is_nameable};
ghost use Rattle.std.specs.Io.KnownBytes.{Consumes};
ghost use Rattle.hub_threads.specs.Rings.{items_of, put_of};
ghost use Rattle.upstream.specs.Handshake.{IsCauseOf};
ghost use Rattle.upstream.specs.Registration.{asked_as};
ghost use Rattle.upstream.specs.Served.{IsRead, IsRegistered, WasServed};

use crate::dialled::{Dialled, Duplex};
use crate::handshake::{DialFault, Welcomed};
use crate::keeper::Keeper;
use crate::link::Link;
use bnc_config::NetworkConfig;
use hub_threads::{
    Clock, Gate, InletEnd, PumpsBeside, ReadEnd, Reading, Stopper, Worker, WriteFault, Written,
    put_lines, read_beside, spawn_stoppable,
};
use std::alloc::Global;
use std::io::{Read, Write};
use std::marker::PhantomData;
use std::sync::Wait;
use std::thread::Threads;

/// How a connection to a network ended.
#[derive(Debug, Drop)]
pub enum NetworkEnd {
    /// The network did not take us in. The hub got nothing.
    NotRegistered(DialFault),
    /// The keeper gave it up, or there was no thread to write with. The hub got nothing.
    GivenUp,
    /// It was read until this, and the hub got its lines from the welcome on, and then one loss.
    Lost(ReadEnd),
}

/// What a connection to a network hands back.
#[derive(Drop)]
pub struct Served<I, W: Write> {
    /// How it ended.
    pub end: NetworkEnd,
    /// The ends of the hub's rings, for the next connection.
    pub link: Link,
    /// The stream.
    pub stream: Duplex<I, W>,
    /// How many bytes of the hub's packets were written, at most 18446744073709551615.
    pub written: Result<u64, WriteFault>,
}

impl<I, W: Write> Served<I, W> {
    /// A connection that gave the hub nothing.
    fn unread(end: NetworkEnd, link: Link, stream: Duplex<I, W>) -> Served<I, W>
        ensures { (result.end ≡ end) × (result.link ≡ link) × (result.stream ≡ stream) }
    {
        Served {
            end,
            link,
            stream,
            written: Ok(0),
        }
    }
}

/// A connection that ended so: its stream and the ends of the hub's rings, put together again of
/// what its reader and its writer handed back.
fn handed_back<I, W: Write>(
    end: NetworkEnd,
    reader: I,
    inlet: InletEnd,
    written: Written<W>,
    stopper: Stopper,
) -> Served<I, W>
    ensures end { result.end ≡ end }
    ensures inlet { put_of result.link.inlet ≡ put_of inlet }
    ensures outlet { items_of result.link.outlet ≡ items_of written.end }
    ensures stream { (result.stream.reader ≡ reader) × (result.stream.writer ≡ written.out) }
    ensures written { result.written ≡ written.outcome }
{
    let Written {
        end: outlet,
        out: writer,
        outcome,
        ..
    } = written;
    outlet.go_on();
    Served {
        end,
        link: Link {
            inlet,
            outlet,
            stopper,
        },
        stream: Duplex { reader, writer },
        written: outcome,
    }
}

/// Registers at a network under this nick; the stream and what was read from the welcome on.
fn register_over<I: Read, W: Write>(
    alloc: Global,
    stream: Duplex<I, W>,
    network: &NetworkConfig,
    nick: &[u8],
) -> Result<(Duplex<I, W>, Welcomed), (DialFault, Duplex<I, W>)>
    requires { IsTrue (is_nameable nick.now) }
    ensures ok { IfOk result (λ x. IsRegistered (asked_as network.now nick.now)
        (I.remaining stream.reader)
        (I.remaining x.0.reader) (W.contents stream.writer) (W.contents x.0.writer)
        x.1.lines.items x.1.splitter) }
    ensures err { IfErr result (λ x. (bytes : List ℕ)
        × Consumes (I.remaining stream.reader) (I.remaining x.1.reader) bytes
        × IsCauseOf (asked_as network.now nick.now) bytes x.0) }
{
    let registering = Dialled::new(stream).begin_as(alloc, network, nick)?;
    let live = registering.finish(alloc)?;
    Ok(live.into_parts())
}

/// Takes lines into the hub as a keeper does.
#[derive(Drop)]
struct ByKeeper<'a, X, I, W> {
    keeper: &'a X,
    // the ends of the connection that the keeper knows
    kept: PhantomData<(I, W)>,
}

impl<I: Read, W: Write, X: Keeper<I, W>> PumpsBeside for ByKeeper<'_, X, I, W> {
    fn took_lines<R: Wait>(&self, rt: &R) -> bool {
        self.keeper.took_lines(rt)
    }
}

/// Puts the lines from the welcome on, and reads the network to the connection's end.
fn read_to_end<I: Read, W: Write, G: Gate, C: Clock, X: Keeper<I, W>, R: Wait>(
    worker: &Worker<'_, R, G, C>,
    reader: &mut I,
    welcomed: Welcomed,
    inlet: InletEnd,
    stopper: &Stopper,
    keeper: &mut X,
) -> Reading
    ensures { IsRead (put_of inlet) (put_of result.end) welcomed.lines.items welcomed.splitter
        (I.remaining reader.old) (I.remaining reader.new) result.ended }
{
    let Welcomed { splitter, lines } = welcomed;
    let mut inlet = inlet;
    put_lines(&worker.rt, &mut inlet, lines, worker.clock.now());
    let beside = ByKeeper {
        keeper: &*keeper,
        kept: PhantomData::<(I, W)>,
    };
    let reading = read_beside(worker, reader, splitter, inlet, &beside);
    stopper.stop();
    keeper.ended();
    reading
}

/// Serves a connection to a network, from its first byte to its end: registers, puts the lines from
/// the welcome on into the hub's inlet and then all that is read, and at the end one loss; in a
/// thread beside it, writes the hub's packets. The keeper learns each step. Returns once both have
/// ended. The reader passes the worker's gate, and the writer a copy of it.
pub fn serve_network<
    I: Read,
    W: Write + Send + Drop + 'static,
    G: Gate + Clone + Send + Drop + 'static,
    C: Clock,
    X: Keeper<I, W>,
    R: Threads + Wait + Send + Copy + 'static,
>(
    worker: &Worker<'_, R, G, C>,
    stream: Duplex<I, W>,
    network: &NetworkConfig,
    link: Link,
    keeper: &mut X,
) -> Served<I, W>
    ensures { WasServed I.remaining W.contents network.now stream link result }
{
    serve_network_as(worker, stream, network, network.nick(), link, keeper)
}

/// As `serve_network`, with a registration that asks for this nick in place of the settings'.
pub fn serve_network_as<
    I: Read,
    W: Write + Send + Drop + 'static,
    G: Gate + Clone + Send + Drop + 'static,
    C: Clock,
    X: Keeper<I, W>,
    R: Threads + Wait + Send + Copy + 'static,
>(
    worker: &Worker<'_, R, G, C>,
    stream: Duplex<I, W>,
    network: &NetworkConfig,
    nick: &[u8],
    link: Link,
    keeper: &mut X,
) -> Served<I, W>
    requires { IsTrue (is_nameable nick.now) }
    ensures { WasServed I.remaining W.contents (asked_as network.now nick.now) stream link result }
{
    let (stream, welcomed) = match register_over(worker.alloc, stream, network, nick) {
        Ok(registered) => registered,
        Err((fault, stream)) => {
            return Served::unread(NetworkEnd::NotRegistered(fault), link, stream);
        }
    };
    let Duplex { reader, writer } = stream;
    let (mut reader, mut writer) = (reader, writer);
    if !keeper.registered(&mut reader, &mut writer, welcomed.lines.as_slice()) {
        return Served::unread(NetworkEnd::GivenUp, link, Duplex { reader, writer });
    }
    let Ok(gate) = worker.gate.clone() else {
        keeper.no_thread();
        return Served::unread(NetworkEnd::GivenUp, link, Duplex { reader, writer });
    };
    let Link {
        inlet,
        outlet,
        stopper,
    } = link;
    match spawn_stoppable(worker.rt, outlet, writer, gate, &stopper) {
        Ok(handle) => {
            let Reading { end: inlet, ended } = read_to_end(
                worker,
                &mut reader,
                welcomed,
                inlet,
                &stopper,
                keeper,
            );
            let written = handle.join(&worker.rt);
            handed_back(NetworkEnd::Lost(ended), reader, inlet, written, stopper)
        }
        Err(written) => {
            keeper.no_thread();
            handed_back(NetworkEnd::GivenUp, reader, inlet, written, stopper)
        }
    }
}
