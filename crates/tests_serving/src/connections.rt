//! Connections that are turned away, and those that fall silent.

use keep::{Watch, keep_watch, watch_on};
use serving::Limits;
use std::alloc::Global;
use std::net::{Net, SocketAddr, TcpListener, TcpStream};
use std::rt::Clock;
use std::test::Fail;
use std::time::{Duration, Instant};
use test_bouncer::bouncer::{Bouncer, limits, start};
use test_bouncer::refusal::{SEND_PASS, turned_away};
use test_stage::ann::LOGIN;
use test_stage::peer::Peer;

/// A client says nothing. How long it was kept.
fn silence<R: Clock + Net<Listener = TcpListener, Stream = TcpStream>>(
    rt: &R,
    alloc: Global,
    bouncer: &Bouncer,
) -> Result<Duration, Fail> {
    let began = Instant::now(rt)?;
    let mut silent = Peer::dial(rt, bouncer.address)?;
    silent.ends_with(alloc, SEND_PASS)?;
    Ok(began.elapsed(rt)?)
}

#[test]
fn a_login_has_its_time(rt: HostRuntime) -> Result<(), Fail> {
    let alloc = rt.alloc();
    let mut limits = limits(3, 0);
    limits.login = Duration::from_millis(500);
    let bouncer = start(rt, alloc, limits)?;
    let took = silence(&rt, alloc, &bouncer)?;
    assert!(rt; took >= Duration::from_millis(400));
    let address = bouncer.address;
    turned_away(
        &rt,
        alloc,
        address,
        "NICK x\r\nUSER ann/net 0 * :x\r\n",
        SEND_PASS,
    )?;
    turned_away(&rt, alloc, address, "PASS ann/net:bc\r\nNICK x\r\n", "")?;
    bouncer.join(&rt);
    Ok(())
}

/// Three logins that fail. How long the first one took.
fn wrong_logins<R: Clock + Net<Listener = TcpListener, Stream = TcpStream>>(
    rt: &R,
    alloc: Global,
    address: SocketAddr,
) -> Result<Duration, Fail> {
    let wrong = ":bnc 464 * :Password incorrect\r\n";
    let began = Instant::now(rt)?;
    let says = "PASS ann@pc/net:bd\r\nNICK x\r\nUSER x 0 * :x\r\n";
    turned_away(rt, alloc, address, says, wrong)?;
    let took = began.elapsed(rt)?;
    let says = "PASS ann@pc/other:bc\r\nNICK x\r\nUSER x 0 * :x\r\n";
    turned_away(rt, alloc, address, says, wrong)?;
    turned_away(rt, alloc, address, LOGIN, "ERROR :not ready\r\n")?;
    Ok(took)
}

#[test]
fn a_wrong_password_is_answered_late(rt: HostRuntime) -> Result<(), Fail> {
    let alloc = rt.alloc();
    let mut limits = limits(3, 0);
    limits.wrong_password = Duration::from_millis(300);
    let bouncer = start(rt, alloc, limits)?;
    let took = wrong_logins(&rt, alloc, bouncer.address)?;
    assert!(rt; took >= Duration::from_millis(300));
    bouncer.join(&rt);
    Ok(())
}

/// The network falls silent after registration, is asked, and is left for a new connection.
fn left_and_dialled_again(alloc: Global, bouncer: &Bouncer) -> Result<(), Fail> {
    let mut network = bouncer.registers(alloc)?;
    network.ends_with(alloc, "PING bnc\r\n")?;
    let _again = bouncer.registers(alloc)?;
    Ok(())
}

#[test]
fn a_silent_network_is_asked_and_then_left(rt: HostRuntime) -> Result<(), Fail> {
    let alloc = rt.alloc();
    let mut limits = limits(0, 2);
    limits.silence = Duration::from_millis(200);
    let bouncer = start(rt, alloc, limits)?;
    left_and_dialled_again(alloc, &bouncer)?;
    bouncer.join(&rt);
    Ok(())
}

/// How the system watches a connection before it is asked to watch it so, and after.
fn watches(stream: &TcpStream, how: Watch) -> Result<(Option<Watch>, Option<Watch>), Fail> {
    let before = watch_on(stream)?;
    keep_watch(stream, how)?;
    Ok((before, watch_on(stream)?))
}

#[test]
fn the_system_watches_a_connection_as_it_was_told(rt: HostRuntime) -> Result<(), Fail> {
    let listener = TcpListener::bind(&rt, "127.0.0.1:0")?;
    let stream = TcpStream::connect(&rt, listener.local_addr()?)?;
    let how = Limits::of_program(30).watch;
    let watches = watches(&stream, how)?;
    assert_eq!(rt; watches, (None, Some(how)));
    Ok(())
}
