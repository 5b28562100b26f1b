//! Connections of clients.

use crate::client::{Seat, serve_client};
use crate::connection::{Connection, Farewell};
use crate::host::Host;
use crate::proxies::{Proxies, serve_proxied};
use crate::refusals::{tell_counted, tell_refusal};
use crate::shared::Shared;
use crate::stranger_event::StrangerEvent;
use hub_threads::small_thread;
use std::alloc::{AllocError, Global};
use std::io::Write;
use std::net::{SocketAddr, TcpListener, TcpStream};
use std::rt::Clock;
use std::sync::{Arc, Wait};
use std::thread;
use steward::{Event, key_of};

/// What a log line is about if it is about no network.
const PROGRAM: &str = "bnc";

/// Who connects: clients, or proxies that name them, from these addresses.
#[derive(Clone, Copy)]
enum Door<'a> {
    Clients,
    Proxies(&'a Proxies),
}

/// Tells a client why it is not served, and shuts its connection.
pub(crate) fn turn_away<R: Wait + Clock>(
    rt: &R,
    shared: &Shared,
    connection: &Connection,
    peer: SocketAddr,
    cause: &str,
) {
    let mut stream = connection.stream();
    let _ = stream.set_write_timeout(Some(shared.limits().pause));
    let _ = write!(stream, "ERROR :{cause}\r\n");
    connection.hang_up();
    let event = StrangerEvent::TurnedAway { peer, cause };
    tell_refusal(rt, shared, peer.ip(), &PROGRAM, &event);
}

/// A seat for the client of a connection; `None` if there is none. An address that names no client
/// yet may have all the seats that there are.
pub(crate) fn seat_for<R: Wait + Clock>(
    rt: &R,
    shared: &Shared,
    connection: &Connection,
    peer: SocketAddr,
    is_unnamed: bool,
) -> Result<Option<Seat>, AllocError> {
    let limits = shared.limits();
    let noted = connection.share()?;
    let is_exempt = is_unnamed || limits.exempts_loopback && peer.ip().is_loopback();
    let now = shared.ticks(rt);
    let mut helm = shared.helm().lock(rt);
    let Some((number, is_crowded)) = helm.come(key_of(peer.ip()), is_exempt, noted, now)? else {
        return Ok(None);
    };
    let time = if is_crowded {
        limits.crowded_login
    } else {
        limits.login
    };
    Ok(Some(Seat {
        number,
        time,
        is_proxied: false,
    }))
}

/// Starts the thread that serves a client, whose proxy is to name it first if it is not named yet.
fn spawn_client<R: Host>(
    rt: R,
    alloc: Global,
    shared: &Arc<Shared>,
    seat: Seat,
    connection: &Connection,
    from: (SocketAddr, bool),
) -> Result<(), &'static str> {
    let (Ok(given), Ok(theirs)) = (connection.share(), Arc::try_clone(shared)) else {
        return Err("no memory");
    };
    let (peer, is_unnamed) = from;
    let serving = move || if is_unnamed {
        serve_proxied(rt, alloc, &theirs, seat, &given, peer)
    } else {
        serve_client(rt, alloc, &theirs, seat, &given, peer)
    };
    match small_thread().spawn(&rt, serving) {
        Ok(_) => Ok(()),
        Err(_) => Err("no threads"),
    }
}

/// Serves a client in a thread of its own. If none can be started, the client gets
/// `ERROR :no threads`, and the next one is accepted after a pause.
fn start_client<R: Host>(
    rt: R,
    alloc: Global,
    shared: &Arc<Shared>,
    seat: Seat,
    connection: &Connection,
    from: (SocketAddr, bool),
) {
    if let Err(cause) = spawn_client(rt, alloc, shared, seat, connection, from) {
        let client = seat.number;
        let (peer, _) = from;
        let _ = shared.decide(&rt, Event::Tells { client });
        turn_away(&rt, shared, connection, peer, cause);
        let _ = shared.decide(&rt, Event::Gone { client });
        thread::sleep(&rt, shared.limits().pause);
    }
}

/// The address of a peer. An IPv4 address that is mapped into IPv6 is that IPv4 address.
fn canonical(peer: SocketAddr) -> SocketAddr {
    SocketAddr::new(peer.ip().to_canonical(), peer.port())
}

/// Takes a connection, and serves its client if there is a seat for its login. One to the door of
/// proxies that comes from elsewhere is closed.
fn take_connection<R: Host>(
    rt: R,
    alloc: Global,
    shared: &Arc<Shared>,
    door: Door<'_>,
    stream: TcpStream,
    peer: SocketAddr,
) {
    let is_unnamed = match door {
        Door::Clients => false,
        Door::Proxies(proxies) if proxies.allows(peer.ip()) => true,
        Door::Proxies(_) => {
            let cause = "not among the proxies";
            let event = StrangerEvent::TurnedAway { peer, cause };
            return tell_refusal(&rt, shared, peer.ip(), &PROGRAM, &event);
        }
    };
    let Ok(connection) = Connection::new(alloc, stream) else {
        let cause = "no memory";
        let event = StrangerEvent::TurnedAway { peer, cause };
        return tell_refusal(&rt, shared, peer.ip(), &PROGRAM, &event);
    };
    let cause = match seat_for(&rt, shared, &connection, peer, is_unnamed) {
        Ok(Some(seat)) => {
            let from = (peer, is_unnamed);
            return start_client(rt, alloc, shared, seat, &connection, from);
        }
        Ok(None) if shared.is_stopping(&rt) => Farewell::Stops.text(),
        Ok(None) => "too many connections",
        Err(_) => "no memory",
    };
    turn_away(&rt, shared, &connection, peer, cause)
}

/// Accepts connections to a door.
fn accept_at<R: Host>(
    rt: R,
    alloc: Global,
    listener: &TcpListener,
    shared: &Arc<Shared>,
    door: Door<'_>,
) {
    let mut accepts = 0u64;
    for _ in rt.forever() {
        if shared.limits().accepts.are_over(accepts) || shared.is_stopping(&rt) {
            return;
        }
        accepts = accepts.saturating_add(1);
        match listener.accept() {
            Ok((stream, peer)) => {
                take_connection(rt, alloc, shared, door, stream, canonical(peer))
            }
            Err(_) if shared.is_stopping(&rt) => return,
            Err(error) => {
                let log = shared.log();
                log.tell(&rt, &PROGRAM, &StrangerEvent::CannotAccept(error));
                thread::sleep(&rt, shared.limits().pause);
            }
        }
        tell_counted(&rt, shared);
    }
}

/// Accepts clients, up to the limits, and serves each in a thread of its own. One for
/// whose login there is no seat gets `ERROR :too many connections`. If a connection can't be
/// accepted, as without a free descriptor, it waits a while and goes on. It ends once the service
/// does: a listener that is shut then wakes it.
pub fn accept<R: Host>(rt: R, alloc: Global, listener: &TcpListener, shared: &Arc<Shared>) {
    accept_at(rt, alloc, listener, shared, Door::Clients)
}

/// The same for connections of proxies, each of which names its client in a line first. A connection
/// that is not from one of these addresses is closed, and the log says so; one that names no client
/// too, except if it closes before its first byte.
pub fn accept_proxies<R: Host>(
    rt: R,
    alloc: Global,
    listener: &TcpListener,
    shared: &Arc<Shared>,
    proxies: &Proxies,
) {
    accept_at(rt, alloc, listener, shared, Door::Proxies(proxies))
}
