//! One client, from its connection's beginning to its end.

use crate::client_input::ClientInput;
use crate::clock::SystemClock;
use crate::closing::HangingUp;
use crate::connection::Connection;
use crate::guest::Guest;
use crate::hearing::{Ear, Heard};
use crate::host::Host;
use crate::judging::{Decision, Judging};
use crate::limits::Limits;
use crate::shared::Shared;
use crate::watching::Watching;
use hub_threads::Worker;
use sessions::serve_by;
use shell::Counted;
use std::alloc::Global;
use std::io;
use std::net::{SocketAddr, TcpStream};
use std::sync::Arc;
use std::time::Duration;
use steward::Event;

/// The right to log in.
#[derive(Clone, Copy)]
pub(crate) struct Seat {
    /// The client's number.
    pub(crate) number: u64,
    /// How long the login may take.
    pub(crate) time: Duration,
    /// Whether a proxy named the client.
    pub(crate) is_proxied: bool,
}

/// Sets how the connection is used from its beginning on: no delay, how long a write may take, and
/// how the system watches it.
fn prepare(stream: &TcpStream, limits: &Limits) -> io::Result<()> {
    stream.set_nodelay(true)?;
    stream.set_write_timeout(Some(limits.write))?;
    keep::keep_watch(stream, limits.watch)
}

/// Serves a client to its end. Its login may take this long. An error if that could not begin.
fn serve<R: Host>(guest: Guest<'_, R>, time: Duration) -> io::Result<()> {
    prepare(guest.connection.stream(), &guest.shared.limits())?;
    let journals = Arc::try_clone(guest.shared.journals())?;
    let gate = HangingUp::on(guest.connection.share()?).with_journals_that_wait(journals);
    let (out, count) = Counted::new(guest.alloc, guest.connection.share()?)?;
    let mut input = ClientInput::start(guest.rt, guest.alloc, Heard::new(guest), time)?;
    let judging = Judging::new(guest);
    let mut watching = Watching::start(guest, count);
    let worker = Worker {
        rt: *guest.rt,
        alloc: guest.alloc,
        gate: &gate,
        clock: &SystemClock::of(guest.rt),
    };
    let served = serve_by(&worker, &mut input, out, &judging, &mut watching);
    watching.finish(&input, &served);
    Ok(())
}

/// Serves a client to its end: its login, in the time that it has, the check against the settings,
/// and its session.
pub(crate) fn serve_client<R: Host>(
    rt: R,
    alloc: Global,
    shared: &Shared,
    seat: Seat,
    connection: &Connection,
    peer: SocketAddr,
) {
    let decision = Decision::new();
    let ear = Ear::new();
    let guest = Guest {
        rt: &rt,
        alloc,
        shared,
        number: seat.number,
        connection,
        peer,
        decision: &decision,
        ear: &ear,
        is_proxied: seat.is_proxied,
    };
    let _ = serve(guest, seat.time);
    connection.hang_up();
    let client = seat.number;
    let _ = shared.decide(&rt, Event::Gone { client });
}
