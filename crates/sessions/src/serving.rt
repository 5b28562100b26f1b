//! A client, from its first byte to the end of its session.

ghost use Rattle.std.specs.Prelude.{◌≡◌, [], IfOk, None, Some, map};
ghost use Rattle.hub_threads.specs.Rings.{closed_of, items_of, sent_of};
ghost use Rattle.sessions.specs.Claims.{parts_of};
ghost use Rattle.sessions.specs.Leaving.{HasEnded, WasHeard};
ghost use Rattle.sessions.specs.Serving.{IsServed, IsServedBy};

use crate::OutOfMemory;
use crate::arrival::{Ending, LoggedIn, Unread, log_in};
use crate::attending::{Leave, attach_claim};
use crate::claim::Claim;
use crate::fault::LoginFault;
use crate::judge::{Judge, Listed};
use crate::sending::{deny, refuse};
use crate::talk::{Talking, talk};
use crate::watcher::{Refusal, Watcher};
use bnc_config::{Config, Place};
use hub_core::{AttachError, NoSession, Seen};
use hub_ends::SessionId;
use hub_threads::{
    Clock, Ended, Gate, Network, RingOutlet, Turns, Worker, Writer, Written, end_session,
    end_session_at, spawn_writer,
};
use net_view::NetworkView;
use std::alloc::Global;
use std::io::{Read, Write};
use std::sync::Wait;
use std::thread::Threads;
use thiserror::Error;

/// How many packets wait for a client at most.
const PACKETS: usize = 256;

/// Why a client that was let in had no session, or lost it.
#[derive(Clone, Copy, Debug, PartialEq, Eq, Error)]
pub enum ServeFault {
    /// An allocation was refused, or no thread could be started. It was not attached, so it loses no
    /// message.
    #[error("out of memory or threads")]
    OutOfMemory,
    /// It was not attached, and got the reason.
    #[error("{0}")]
    Refused(AttachError),
    /// The hub has the session no more: its outlet was full. Its writer has ended.
    #[error("cut")]
    Cut,
}

impl From<OutOfMemory> for ServeFault {
    ghost use Rattle.std.specs.Prelude.{◌≡◌};
    ghost use Rattle.sessions.specs.declared.serving.ServeFault.TheVariants as fault;

    ghost from_gives = { λ _ made. made ≡ fault.OutOfMemory };

    fn from(_refused: OutOfMemory) -> ServeFault {
        ServeFault::OutOfMemory
    }
}

/// How a client was served.
#[derive(Drop)]
pub enum Served<W: Write> {
    /// It did not log in: it went, could not be read or written to, was closed, or was not let in.
    NoLogin,
    /// It was not attached, and got the reason.
    Refused(AttachError),
    /// The hub has the session no more: its outlet was full. Its writer has ended.
    Cut,
    /// It said QUIT, its input ended or could not be read.
    Ended(Ended<W>),
}

/// Starts the thread that writes to a client. Answers the outlet of 256 packets that it writes from,
/// and the thread.
fn start_writer<
    V: NetworkView + Drop,
    W: Write + Send + Drop + 'static,
    G: Gate + Clone + Send + Drop + 'static,
    C,
    R: Threads + Wait + Send + Copy + 'static,
>(
    worker: &Worker<'_, R, G, C>,
    writer: W,
    network: &Network<V>,
) -> Result<(RingOutlet, Writer<W>), OutOfMemory>
    ensures outlet { IfOk result (λ x. (sent_of x.0 ≡ []) × (closed_of x.0 ≡ None)) }
    ensures writer { IfOk result (λ x. (items_of x.1.promise.0.value ≡ []) ×
        (x.1.promise.1.value ≡ writer)) }
{
    let (outlet, end) = network.outlet(worker.alloc, PACKETS)?;
    let gate = worker.gate.clone()?;
    let handle = spawn_writer(worker.rt, end, writer, gate, Turns::Endless)?;
    Ok((outlet, handle))
}

/// Attaches a client, by its claim; answers its number. The lock is held for that step alone. An
/// outlet that is refused is dropped, so its writer ends.
fn join_in<V: NetworkView + Drop, R: Wait>(
    rt: &R,
    claim: &Claim,
    network: &Network<V>,
    outlet: RingOutlet,
) -> Result<SessionId, AttachError>
    requires { (sent_of outlet ≡ []) × (closed_of outlet ≡ None) }
{
    let mut hub = network.lock(rt);
    let attached = attach_claim(&mut hub, claim, outlet);
    drop(hub);
    match attached {
        Ok(id) => Ok(id),
        Err((error, outlet)) => {
            drop(outlet);
            Err(error)
        }
    }
}

/// Tells a client why it was not attached, once the writer of the outlet that was refused has handed
/// its stream back.
fn turn_away<W: Write + Drop, R: Threads + Wait>(rt: &R, handle: Writer<W>, error: AttachError) {
    let Written { out, .. } = handle.join(rt);
    let mut out = out;
    let _ = refuse(&mut out, error);
}

/// Ends a session; its client has seen this.
fn end_seen<V: NetworkView + Drop, W: Write + Drop, R: Threads + Wait>(
    rt: &R,
    network: &Network<V>,
    id: SessionId,
    seen: Seen,
    handle: Writer<W>,
) -> Result<Ended<W>, NoSession>
    requires { items_of handle.promise.0.value ≡ [] }
    ensures { IfOk result (λ e. HasEnded id e.token e.fresh (items_of e.end)
        (W.contents handle.promise.1.value) (W.contents e.out) e.written) }
{
    match seen {
        Seen::All => end_session(rt, network, id, handle),
        Seen::UpTo(number) => end_session_at(rt, network, id, number, handle),
    }
}

/// Serves a client that was let in: starts a thread that writes to it, attaches it, and says each
/// of its lines to the hub, those that are unread first, until QUIT, the input's end or a fault.
/// Answers why it went, what its writer handed back, and the number of its session. No write is made
/// under the lock. If no
/// thread can be started it is not attached; if it is not attached it gets the reason.
///
/// A line that comes while the network is offline or takes no more, or for which there is no memory
/// or no number, is dropped. More than 16,384 bytes without LF, and memory refused for what was
/// read, end the session like the input's end. It reads at most 1,000,000,000 times. The watcher is
/// called when the client's capabilities change, and says what the client has seen when it has left.
pub fn serve<
    V: NetworkView + Drop,
    N,
    I: Read,
    W: Write + Send + Drop + 'static,
    G: Gate + Clone + Send + Drop + 'static,
    C: Clock,
    X: Watcher<V, N, I>,
    R: Threads + Wait + Send + Copy + 'static,
>(
    worker: &Worker<'_, R, G, C>,
    reader: &mut I,
    writer: W,
    claim: &Claim,
    unread: Unread,
    network: &Network<V>,
    watcher: &mut X,
) -> Result<(Leave, Ended<W>, SessionId), ServeFault>
    ensures heard { IfOk result (λ x. WasHeard unread.splitter unread.lines.items
        (I.remaining reader.old) (I.remaining reader.new) x.0) }
    ensures ended { IfOk result (λ x. HasEnded x.2 x.1.token x.1.fresh (items_of x.1.end)
        (W.contents writer) (W.contents x.1.out) x.1.written) }
    ensures session { IfOk result (λ x. X.session watcher.new ≡ Some x.2) }
{
    let rt = &worker.rt;
    let (outlet, handle) = match start_writer(worker, writer, network) {
        Ok(started) => started,
        Err(refused) => {
            watcher.refused(Refusal::NotAttached(AttachError::OutOfMemory));
            return Err(ServeFault::from(refused));
        }
    };
    let id = match join_in(rt, claim, network, outlet) {
        Ok(id) => id,
        Err(error) => {
            watcher.refused(Refusal::NotAttached(error));
            turn_away(rt, handle, error);
            return Err(ServeFault::Refused(error));
        }
    };
    watcher.attached(id);
    let Worker {
        alloc,
        gate,
        clock,
        ..
    } = worker;
    let mut talking = Talking::new(rt, network, id, *gate, *clock, watcher);
    let leave = talk(*alloc, &mut talking, reader, unread);
    let seen = watcher.ended(leave);
    match end_seen(rt, network, id, seen, handle) {
        Ok(ended) => Ok((leave, ended, id)),
        Err(NoSession) => Err(ServeFault::Cut),
    }
}

/// Lets a client log in, asks a judge whether its claim is right, and serves it. A client that is not
/// let in, for its password or its network, gets `:bnc 464 * :Password incorrect`. The watcher
/// learns each step, and lends the network. The password is dropped once it is let in.
/// `OutOfMemory` also if no thread can be started; then there is no session.
pub fn serve_by<
    V: NetworkView + Drop,
    N,
    I: Read,
    W: Write + Send + Drop + 'static,
    G: Gate + Clone + Send + Drop + 'static,
    C: Clock,
    J: Judge<N>,
    X: Watcher<V, N, I>,
    R: Threads + Wait + Send + Copy + 'static,
>(
    worker: &Worker<'_, R, G, C>,
    reader: &mut I,
    writer: W,
    judge: &J,
    watcher: &mut X,
) -> Result<Served<W>, OutOfMemory>
    ensures { IfOk result (IsServedBy W.contents (X.turns_away watcher.new) (X.session watcher.new)
        (J.lets_in judge.now) (J.denies judge.now) (I.remaining reader.old)
        (I.remaining reader.new) (W.contents writer)) }
{
    let mut writer = writer;
    let LoggedIn { ending, unread } = match log_in(worker.alloc, reader, &mut writer) {
        Ok(login) => login,
        Err(fault) => {
            watcher.refused(Refusal::Login(fault));
            return match fault {
                LoginFault::OutOfMemory => Err(OutOfMemory),
                _ => Ok(Served::NoLogin),
            };
        }
    };
    let Ending::Claims(claim) = ending else {
        watcher.refused(Refusal::Closed);
        return Ok(Served::NoLogin);
    };
    let judged = judge.judge(&claim);
    if !watcher.logged_in(&claim) {
        return Ok(Served::NoLogin);
    }
    let Some(network) = judged else {
        watcher.refused(Refusal::Denied);
        let _ = deny(&mut writer);
        return Ok(Served::NoLogin);
    };
    let network = match watcher.let_in(reader, &claim, network) {
        Ok(network) => network,
        Err(error) => {
            let _ = refuse(&mut writer, error);
            return Ok(Served::Refused(error));
        }
    };
    let mut claim = claim;
    claim.password = Vec::new(worker.alloc);
    match serve(worker, reader, writer, &claim, unread, &network, watcher) {
        Ok((_, ended, _)) => Ok(Served::Ended(ended)),
        Err(ServeFault::Refused(error)) => Ok(Served::Refused(error)),
        Err(ServeFault::Cut) => Ok(Served::Cut),
        Err(ServeFault::OutOfMemory) => Err(OutOfMemory),
    }
}

/// Lets a client log in, asks whether its claim is right and its network among these, and serves
/// it. A client that is not let in, for its password or its network, gets
/// `:bnc 464 * :Password incorrect`; a network whose place is not among these is an unknown one. The
/// watcher learns each step, and lends the network. The password is dropped once it is let in.
/// `OutOfMemory` also if no thread can be started; then there is no session.
pub fn serve_session<
    V: NetworkView + Drop,
    N,
    I: Read,
    W: Write + Send + Drop + 'static,
    G: Gate + Clone + Send + Drop + 'static,
    C: Clock,
    X: Watcher<V, N, I>,
    R: Threads + Wait + Send + Copy + 'static,
>(
    worker: &Worker<'_, R, G, C>,
    reader: &mut I,
    writer: W,
    config: &Config,
    networks: &[(Place, N)],
    watcher: &mut X,
) -> Result<Served<W>, OutOfMemory>
    ensures { IfOk result (IsServed W.contents (X.turns_away watcher.new) (X.session watcher.new)
        config.now (map (λ one. one.0) networks.now) (I.remaining reader.old)
        (I.remaining reader.new) (W.contents writer)) }
{
    let judge = Listed { config, networks };
    serve_by(worker, reader, writer, &judge, watcher)
}
