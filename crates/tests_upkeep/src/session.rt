//! A session served over a socket, from the login to QUIT.

use bnc_config::{Config, Place};
use hub_core::Profile;
use hub_threads::{FreeGate, Network, OutletEnd, PumpEnd, Turns, Worker, pump_loop};
use quick_view::QuickView;
use serving::{Link, SystemClock, network_with_link};
use sessions::{Served, Unwatched, serve_session};
use std::alloc::Global;
use std::net::{Net, TcpListener, TcpStream};
use std::rt::Clock;
use std::sync::{Arc, Wait};
use std::test::Fail;
use std::thread::Threads;
use test_bouncer::host::Host;
use test_stage::ann::{BURST, HEARD, LOGIN, of_ann};
use test_stage::peer::{Peer, same};
use test_stage::settings::settings_of_two;
use test_stage::stage::put;

/// Has the network take what was put.
fn take_all<R: Wait + Clock>(
    rt: &R,
    alloc: Global,
    network: &Network<QuickView>,
) -> Result<(), Fail> {
    match pump_loop(
        rt,
        alloc,
        network,
        &FreeGate,
        &SystemClock::of(rt),
        Turns::AtMost(8),
        0,
    ) {
        PumpEnd::Turns => Ok(()),
        PumpEnd::Memory | PumpEnd::Spent => Err("the pump ended".into()),
    }
}

/// The two ends of a connection.
pub(crate) fn connected<R: Net<Listener = TcpListener, Stream = TcpStream>>(
    rt: &R,
) -> Result<(Peer, TcpStream), Fail> {
    let listener = TcpListener::bind(rt, "127.0.0.1:0")?;
    let client = Peer::dial(rt, listener.local_addr()?)?;
    let (stream, _) = listener.accept()?;
    Ok((client, stream))
}

/// A network that has taken the lines, and its link.
fn network_of_lines<R: Wait + Clock>(
    rt: &R,
    alloc: Global,
) -> Result<(Network<QuickView>, Link), Fail> {
    let (network, mut link) = network_with_link(alloc, 500, 16, Profile::whole(alloc))?;
    put(alloc, &mut link.inlet, &HEARD)?;
    take_all(rt, alloc, &network)?;
    Ok((network, link))
}

/// Serves a session, which ends once all of the burst is written.
fn serve<R: Threads + Wait + Clock + Send + Copy + 'static>(
    rt: R,
    alloc: Global,
    stream: TcpStream,
    config: &Config,
    networks: &[(Place, Arc<Network<QuickView>>)],
) -> Result<(), Fail> {
    let out = stream.try_clone()?;
    let host = rt;
    let clock = SystemClock::of(&host);
    let input = &mut &stream;
    let worker = Worker {
        rt,
        alloc,
        gate: &FreeGate,
        clock: &clock,
    };
    let served = serve_session(&worker, input, out, config, networks, &mut Unwatched::new())?;
    match served {
        Served::Ended(ended) if ended.token && ended.written == Ok(BURST.len() as u64) => Ok(()),
        _ => Err("the session has not ended with all written".into()),
    }
}

/// A client logs in, says something and quits, and gets the burst.
fn say_and_quit<R: Host + Net<Listener = TcpListener, Stream = TcpStream>>(
    rt: R,
    alloc: Global,
    config: &Config,
    networks: &[(Place, Arc<Network<QuickView>>)],
) -> Result<(), Fail> {
    let (mut client, stream) = connected(&rt)?;
    client.say(LOGIN)?;
    client.say("PRIVMSG #c :hi all\r\nQUIT\r\n")?;
    serve(rt, alloc, stream, config, networks)?;
    client.ends_with(alloc, BURST)
}

/// Fails if what went to the network is not what the client said.
fn said(alloc: Global, outlet: &mut OutletEnd) -> Result<(), Fail> {
    let packet = outlet.take().ok_or("nothing went to the network")?;
    same(alloc, packet.bytes(), "PRIVMSG #c :hi all\r\n")?;
    match outlet.take() {
        None => Ok(()),
        Some(_) => Err("more went to the network".into()),
    }
}

#[test]
fn a_client_is_served_from_its_login_to_quit(rt: HostRuntime) -> Result<(), Fail> {
    let alloc = rt.alloc();
    let config = settings_of_two(alloc)?;
    let (network, mut link) = network_of_lines(&rt, alloc)?;
    let networks = of_ann(alloc, network)?;
    say_and_quit(rt, alloc, &config, &networks)?;
    said(alloc, &mut link.outlet)
}
