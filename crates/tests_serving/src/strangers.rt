//! Connections that say nothing, and logins beside them.

use std::alloc::Global;
use std::net::{Net, SocketAddr, TcpListener, TcpStream};
use std::rt::Clock;
use std::sync::Wait;
use std::test::Fail;
use std::thread;
use std::time::{Duration, Instant};
use test_bouncer::bouncer::{Bouncer, limits, start};
use test_bouncer::refusal::{SEND_PASS, turned_away};
use test_stage::ann::LOGIN;
use test_stage::peer::Peer;

/// Waits until `count` logins wait, at most some ten seconds.
fn wait_for_logins<R: Clock + Wait>(rt: &R, bouncer: &Bouncer, count: usize) {
    for _ in 0..10_000 {
        if bouncer.shared.logins(rt) == count {
            return;
        }
        thread::sleep(rt, Duration::from_millis(1));
    }
}

/// `count` connections that say nothing; each has a seat before the next comes.
fn silent_ones<R: Clock + Wait + Net<Listener = TcpListener, Stream = TcpStream>>(
    rt: &R,
    alloc: Global,
    bouncer: &Bouncer,
    count: usize,
) -> Result<Vec<Peer>, Fail> {
    let mut silent = Vec::new(alloc);
    for number in 0..count {
        silent.push(Peer::dial(rt, bouncer.address)?)?;
        wait_for_logins(rt, bouncer, number.saturating_add(1));
    }
    Ok(silent)
}

/// All seats are taken by connections that say nothing, and a login gets through; the oldest of
/// them is closed.
fn full_and_in<R: Clock + Wait + Net<Listener = TcpListener, Stream = TcpStream>>(
    rt: &R,
    alloc: Global,
    bouncer: &Bouncer,
) -> Result<(), Fail> {
    let silent = silent_ones(rt, alloc, bouncer, 4)?;
    turned_away(rt, alloc, bouncer.address, LOGIN, "ERROR :not ready\r\n")?;
    for mut oldest in silent.into_iter().take(1) {
        oldest.ends_with(alloc, "")?;
    }
    Ok(())
}

#[test]
fn seats_full_of_silent_connections_leave_room_for_a_login(rt: HostRuntime) -> Result<(), Fail> {
    let alloc = rt.alloc();
    let mut limits = limits(5, 0);
    limits.logins = 4;
    let bouncer = start(rt, alloc, limits)?;
    full_and_in(&rt, alloc, &bouncer)?;
    bouncer.join(&rt);
    Ok(())
}

/// One address has taken its seats, and one more connection from it is refused.
fn third_is_refused<R: Clock + Wait + Net<Listener = TcpListener, Stream = TcpStream>>(
    rt: &R,
    alloc: Global,
    bouncer: &Bouncer,
) -> Result<(), Fail> {
    let silent = silent_ones(rt, alloc, bouncer, 2)?;
    let full = "ERROR :too many connections\r\n";
    turned_away(rt, alloc, bouncer.address, "", full)?;
    drop(silent);
    Ok(())
}

#[test]
fn one_address_has_only_so_many_seats(rt: HostRuntime) -> Result<(), Fail> {
    let alloc = rt.alloc();
    let mut limits = limits(3, 0);
    limits.logins_of_address = 2;
    limits.exempts_loopback = false;
    let bouncer = start(rt, alloc, limits)?;
    third_is_refused(&rt, alloc, &bouncer)?;
    bouncer.join(&rt);
    Ok(())
}

/// How long a connection that says nothing is kept.
fn kept_for<R: Clock + Net<Listener = TcpListener, Stream = TcpStream>>(
    rt: &R,
    alloc: Global,
    address: SocketAddr,
) -> Result<Duration, Fail> {
    let began = Instant::now(rt)?;
    let mut silent = Peer::dial(rt, address)?;
    silent.ends_with(alloc, SEND_PASS)?;
    Ok(began.elapsed(rt)?)
}

/// With half of the seats taken, how long the next connection that says nothing is kept.
fn kept_in_a_crowd<R: Clock + Wait + Net<Listener = TcpListener, Stream = TcpStream>>(
    rt: &R,
    alloc: Global,
    bouncer: &Bouncer,
) -> Result<Duration, Fail> {
    let silent = silent_ones(rt, alloc, bouncer, 2)?;
    let took = kept_for(rt, alloc, bouncer.address)?;
    drop(silent);
    Ok(took)
}

#[test]
fn above_half_of_the_seats_a_login_has_less_time(rt: HostRuntime) -> Result<(), Fail> {
    let alloc = rt.alloc();
    let mut limits = limits(3, 0);
    limits.logins = 4;
    limits.crowded_login = Duration::from_millis(300);
    let bouncer = start(rt, alloc, limits)?;
    let took = kept_in_a_crowd(&rt, alloc, &bouncer)?;
    assert!(rt; took >= Duration::from_millis(200) && took < Duration::from_secs(5));
    bouncer.join(&rt);
    Ok(())
}
