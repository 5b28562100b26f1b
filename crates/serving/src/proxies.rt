//! Connections through a proxy, which names its client in a line of its own.

use crate::accepting::{seat_for, turn_away};
use crate::client::{Seat, serve_client};
use crate::connection::{Connection, Farewell};
use crate::host::Host;
use crate::refusals::tell_refusal;
use crate::shared::Shared;
use crate::stranger_event::StrangerEvent;
use crate::wired::Wired;
use bnc_config::Text;
use proxy_line::{Origin, ProxyFault, read_origin};
use shell::Until;
use std::alloc::{AllocError, Global};
use std::net::{IpAddr, SocketAddr};
use std::rt::Clock;
use std::sync::Wait;
use std::time::{Duration, Instant};
use steward::Event;

/// The addresses from which proxies may connect.
#[derive(Drop)]
pub struct Proxies {
    // `None`: those of the loopback range
    allowed: Option<Vec<IpAddr>>,
}

impl Proxies {
    /// Those that the settings list; if they list none, the loopback range.
    pub fn of(alloc: Global, listed: Option<&[Text]>) -> Result<Proxies, AllocError> {
        let Some(listed) = listed else {
            return Ok(Proxies { allowed: None });
        };
        let mut allowed = Vec::with_capacity(alloc, listed.len())?;
        for text in listed {
            if let Ok(address) = IpAddr::parse_ascii(text.as_bytes()) {
                allowed.push(address.to_canonical())?;
            }
        }
        Ok(Proxies {
            allowed: Some(allowed),
        })
    }

    /// Whether a proxy may connect from this address.
    pub(crate) fn allows(&self, address: IpAddr) -> bool {
        match &self.allowed {
            Some(allowed) => allowed.iter().any(|one| *one == address),
            None => address.is_loopback(),
        }
    }
}

/// What is logged of a connection that named no client; `None` if nothing is, since it closed before
/// its first byte, as a proxy that only looks whether we are there.
fn cause_of(fault: ProxyFault) -> Option<&'static str> {
    match fault {
        ProxyFault::Silent => None,
        ProxyFault::Cut => Some("gone, or too late, within the PROXY line"),
        ProxyFault::TooLong => Some("PROXY line too long"),
        ProxyFault::Bad => Some("no PROXY line of version 1"),
        ProxyFault::OutOfMemory => Some("out of memory"),
    }
}

/// Reads the line of a proxy, in this time.
fn origin_within<R: Clock>(
    alloc: Global,
    rt: &R,
    connection: &Connection,
    time: Duration,
) -> Result<Origin, ProxyFault> {
    match Until::start(Wired(connection), rt, time) {
        Ok(mut input) => read_origin(alloc, &mut input),
        Err(_) => Err(ProxyFault::Silent),
    }
}

/// What is left of a time that began then.
fn left_of<R: Clock>(rt: &R, start: Option<Instant>, time: Duration) -> Duration {
    let passed = start.and_then(|start| start.elapsed(rt).ok());
    time.saturating_sub(passed.unwrap_or(Duration::ZERO))
}

/// A seat by the address that a proxy named, in place of that of the proxy. If there is none, the
/// client gets that answer.
fn seat_by_name<R: Wait + Clock>(
    rt: &R,
    shared: &Shared,
    connection: &Connection,
    peer: SocketAddr,
) -> Option<Seat> {
    let cause = match seat_for(rt, shared, connection, peer, false) {
        Ok(Some(seat)) => return Some(seat),
        Ok(None) if shared.is_stopping(rt) => Farewell::Stops.text(),
        Ok(None) => "too many connections",
        Err(_) => "no memory",
    };
    turn_away(rt, shared, connection, peer, cause);
    None
}

/// Serves a client that its proxy has named. One that closes before its first byte is not logged: a
/// proxy that only looks whether we are there may send its line too.
fn serve_named<R: Host>(
    rt: R,
    alloc: Global,
    shared: &Shared,
    seat: Seat,
    connection: &Connection,
    peer: SocketAddr,
) {
    let start = Instant::now(&rt).ok();
    if connection.closes_silently(seat.time) {
        connection.hang_up();
        let client = seat.number;
        let _ = shared.decide(&rt, Event::Gone { client });
        return;
    }
    let seat = Seat {
        time: left_of(&rt, start, seat.time),
        is_proxied: true,
        ..seat
    };
    serve_client(rt, alloc, shared, seat, connection, peer)
}

/// Serves a client whose proxy is to name its address first, in the time of its login. Its seat is
/// counted for that address from then on, and the log shows it, with the port of the proxy's own
/// connection.
pub(crate) fn serve_proxied<R: Host>(
    rt: R,
    alloc: Global,
    shared: &Shared,
    seat: Seat,
    connection: &Connection,
    peer: SocketAddr,
) {
    let start = Instant::now(&rt).ok();
    let origin = origin_within(alloc, &rt, connection, seat.time);
    let left = left_of(&rt, start, seat.time);
    if let Ok(Origin::Unknown) = origin {
        let seat = Seat { time: left, ..seat };
        return serve_named(rt, alloc, shared, seat, connection, peer);
    }
    let _ = shared.decide(
        &rt,
        Event::Gone {
            client: seat.number,
        },
    );
    match origin {
        Ok(Origin::Address(ip)) => {
            let peer = SocketAddr::new(ip.to_canonical(), peer.port());
            if let Some(seat) = seat_by_name(&rt, shared, connection, peer) {
                let time = seat.time.min(left);
                serve_named(rt, alloc, shared, Seat { time, ..seat }, connection, peer);
            }
        }
        Ok(Origin::Unknown) => {}
        Err(fault) => {
            connection.hang_up();
            if let Some(cause) = cause_of(fault) {
                let event = StrangerEvent::NoLogin { peer, cause };
                tell_refusal(&rt, shared, peer.ip(), &"bnc", &event);
            }
        }
    }
}
