//! Networks that keep more than their budget, and clients that wait for long bursts.

use crate::control::stands_in;
use bnc_config::Config;
use serving::{Limits, stop};
use std::alloc::Global;
use std::net::{Net, TcpListener, TcpStream};
use std::process::Abort;
use std::rt::Clock;
use std::test::Fail;
use std::thread;
use std::time::{Duration, Instant};
use test_bouncer::bouncer::{Bouncer, limits, register, settle, start_by};
use test_bouncer::host::Host;
use test_bouncer::refusal::turned_away;
use test_bouncer::room::{PHONE, PLAIN, come, enter, leave, let_in};
use test_stage::peer::{Peer, same};
use test_stage::settings::{BC, settings_with};

/// How many long messages a network sends at once.
const AT_ONCE: usize = 20;

/// How often, to a client that reads them: more than 8 MiB in all.
const TIMES: usize = 40;

/// How often, for clients that get them later and do not read: more than a connection holds.
const TIMES_BEFORE: usize = 20;

/// What a client is sent last that gets no session, or loses it, because of what its network keeps.
const TOO_MUCH: &str = "ERROR :too much memory\r\n";

/// The login of a client of the second network.
const PAD: &str = "PASS ann@pad/other:bc\r\nNICK x\r\nUSER x 0 * :x\r\n";

/// The login of a client without a name, which gets all messages that are kept.
const NAMELESS: &str = "PASS ann/net:bc\r\nNICK x\r\nUSER x 0 * :x\r\n";

/// A message of bob's of 16,000 bytes, as the network sends it and a client gets it.
fn long_message(alloc: Global) -> Result<String, Fail> {
    let mut line = String::from_str(alloc, ":bob!b@h PRIVMSG #c :")?;
    for _ in 0..1_600 {
        line.push_str("some words")?;
    }
    line.push_str("\r\n")?;
    Ok(line)
}

/// Settings of two networks, each of which may keep 8 MiB.
fn two_networks(alloc: Global, here: &TcpListener, there: &TcpListener) -> Result<Config, Fail> {
    let networks = [
        ("net", here.local_addr()?, "ann"),
        ("other", there.local_addr()?, "ann"),
    ];
    settings_with(alloc, "history = 1000\nmemory = 8\n", BC, &networks)
}

/// A network sends long messages, which its client takes until it is told that they are too many.
fn flooded(alloc: Global, network: &mut Peer, phone: &mut Peer) -> Result<(), Fail> {
    let line = long_message(alloc)?;
    let length = line.len().saturating_mul(AT_ONCE);
    for _ in 0..TIMES {
        for _ in 0..AT_ONCE {
            // the last ones may find the connection closed
            let _ = network.try_say(line.as_str());
        }
        let came = phone.takes(alloc, length)?;
        if came.as_slice().ends_with(TOO_MUCH.as_bytes()) {
            return Ok(());
        }
        if came.len() < length {
            return Err("the client was not told".into());
        }
    }
    Err("the network goes on".into())
}

/// The bouncer comes to the second network.
fn other_network(alloc: Global, there: &TcpListener) -> Result<Peer, Fail> {
    let mut other = Peer::accept(there)?;
    register(alloc, &mut other)?;
    enter(alloc, &mut other)?;
    Ok(other)
}

/// The client of the second network hears what is said there, and quits.
fn other_goes_on(alloc: Global, other: &mut Peer, pad: &mut Peer) -> Result<(), Fail> {
    other.say(":bob!b@h PRIVMSG #c :one\r\n")?;
    pad.hears(alloc, ":bob!b@h PRIVMSG #c one\r\n")?;
    leave(alloc, pad)
}

/// One of two networks sends too much. Afterwards it is dialled again, and nothing is left of what it
/// sent; the other one goes on.
fn one_floods<R: Net<Listener = TcpListener, Stream = TcpStream>>(
    rt: &R,
    alloc: Global,
    bouncer: &Bouncer,
    there: &TcpListener,
) -> Result<(), Fail> {
    let mut other = other_network(alloc, there)?;
    let mut pad = come(rt, alloc, bouncer, PAD, PLAIN)?;
    let mut network = let_in(alloc, bouncer)?;
    let mut phone = come(rt, alloc, bouncer, PHONE, PLAIN)?;
    flooded(alloc, &mut network, &mut phone)?;
    drop(network);
    let _again = let_in(alloc, bouncer)?;
    let mut phone = come(rt, alloc, bouncer, PHONE, PLAIN)?;
    leave(alloc, &mut phone)?;
    other_goes_on(alloc, &mut other, &mut pad)
}

#[test]
fn a_network_above_its_budget_is_begun_anew(rt: HostRuntime) -> Result<(), Fail> {
    let alloc = rt.alloc();
    let here = TcpListener::bind(&rt, "127.0.0.1:0")?;
    let there = TcpListener::bind(&rt, "127.0.0.1:0")?;
    let config = two_networks(alloc, &here, &there)?;
    let mut limits = limits(3, 2);
    // the other network says nothing meanwhile
    limits.silence = Duration::from_secs(60);
    let bouncer = start_by(rt, alloc, limits, here, config)?;
    one_floods(&rt, alloc, &bouncer, &there)?;
    drop(there);
    let log = bouncer.logged(&rt, alloc)?;
    let log = log.as_slice();
    assert!(rt;
        stands_in(
            log,
            b"more than its budget of 8 MiB, begun anew: the messages and marks"
        )
    );
    assert!(rt; stands_in(log, b"ann@phone/net: session ended: too much memory; "));
    assert!(rt; !stands_in(log, b"ann@pad/other: session ended: too much memory"));
    Ok(())
}

/// A bouncer with these limits, whose network may send many messages before one is forgotten.
fn start_roomy<R: Host + Net<Listener = TcpListener, Stream = TcpStream>>(
    rt: R,
    alloc: Global,
    limits: Limits,
) -> Result<Bouncer, Fail> {
    let mut limits = limits;
    // the network says nothing more while its clients read
    limits.silence = Duration::from_secs(60);
    let network = TcpListener::bind(&rt, "127.0.0.1:0")?;
    let here = ("net", network.local_addr()?, "ann");
    let config = settings_with(alloc, "history = 1000\n", BC, &[here])?;
    start_by(rt, alloc, limits, network, config)
}

/// The network lets the bouncer in, and sends many long messages.
fn loud_network(alloc: Global, bouncer: &Bouncer) -> Result<Peer, Fail> {
    let mut network = let_in(alloc, bouncer)?;
    let line = long_message(alloc)?;
    for _ in 0..TIMES_BEFORE {
        for _ in 0..AT_ONCE {
            network.say(line.as_str())?;
        }
        settle(alloc, &mut network)?;
    }
    Ok(network)
}

/// A client logs in without a name.
fn asks<R: Net<Listener = TcpListener, Stream = TcpStream>>(
    rt: &R,
    bouncer: &Bouncer,
) -> Result<Peer, Fail> {
    let mut client = Peer::dial(rt, bouncer.address)?;
    client.say(NAMELESS)?;
    Ok(client)
}

/// A client that has logged in gets the beginning of its burst, and reads no further.
fn is_greeted(alloc: Global, client: &mut Peer) -> Result<(), Fail> {
    let came = client.takes(alloc, PLAIN.len())?;
    same(alloc, came.as_slice(), PLAIN)
}

/// Four clients whose long bursts wait.
fn four_waiting<R: Net<Listener = TcpListener, Stream = TcpStream>>(
    rt: &R,
    alloc: Global,
    bouncer: &Bouncer,
) -> Result<Vec<Peer>, Fail> {
    let mut clients = Vec::new(alloc);
    for _ in 0..4 {
        let mut client = asks(rt, bouncer)?;
        is_greeted(alloc, &mut client)?;
        clients.push(client)?;
    }
    Ok(clients)
}

/// A client reads the rest of its long burst.
fn reads_on(alloc: Global, client: &mut Peer) -> Result<(), Fail> {
    let length = long_message(alloc)?
        .len()
        .saturating_mul(AT_ONCE * TIMES_BEFORE);
    if client.takes(alloc, length)?.len() == length {
        return Ok(());
    }
    Err("the burst is shorter".into())
}

/// A fifth client gets its burst once that of another is written.
fn fifth_gets_in<R: Net<Listener = TcpListener, Stream = TcpStream>>(
    rt: &R,
    alloc: Global,
    bouncer: &Bouncer,
) -> Result<(), Fail> {
    let _network = loud_network(alloc, bouncer)?;
    let mut clients = four_waiting(rt, alloc, bouncer)?;
    let mut fifth = asks(rt, bouncer)?;
    let first = clients.first_mut().ok_or("no client")?;
    reads_on(alloc, first)?;
    is_greeted(alloc, &mut fifth)
}

#[test]
fn a_fifth_long_burst_comes_once_one_is_written(rt: HostRuntime) -> Result<(), Fail> {
    let alloc = rt.alloc();
    let bouncer = start_roomy(rt, alloc, limits(5, 1))?;
    fifth_gets_in(&rt, alloc, &bouncer)?;
    bouncer.join(&rt);
    Ok(())
}

/// A fifth client is refused, and another one gets in once a client has gone whose burst waited. How
/// long the fifth waited.
fn fifth_is_refused<R: Clock + Net<Listener = TcpListener, Stream = TcpStream>>(
    rt: &R,
    alloc: Global,
    bouncer: &Bouncer,
) -> Result<Duration, Fail> {
    let _network = loud_network(alloc, bouncer)?;
    let mut clients = four_waiting(rt, alloc, bouncer)?;
    let began = Instant::now(rt)?;
    turned_away(rt, alloc, bouncer.address, NAMELESS, TOO_MUCH)?;
    let waited = began.elapsed(rt)?;
    drop(clients.pop());
    let mut sixth = asks(rt, bouncer)?;
    is_greeted(alloc, &mut sixth)?;
    Ok(waited)
}

#[test]
fn a_fifth_long_burst_is_refused_after_its_time(rt: HostRuntime) -> Result<(), Fail> {
    let alloc = rt.alloc();
    let limits = Limits {
        burst_wait: Duration::from_secs(3),
        ..limits(6, 1)
    };
    let bouncer = start_roomy(rt, alloc, limits)?;
    assert!(rt; fifth_is_refused(&rt, alloc, &bouncer)? >= Duration::from_secs(3));
    let log = bouncer.logged(&rt, alloc)?;
    assert!(rt; stands_in(log.as_slice(), b"ann/net: not attached: too much memory\n"));
    Ok(())
}

/// The service ends while a client waits for its burst.
fn stopped_meanwhile<R: Host + Abort + Net<Listener = TcpListener, Stream = TcpStream>>(
    rt: R,
    alloc: Global,
    bouncer: &Bouncer,
) -> Result<(), Fail> {
    let _network = loud_network(alloc, bouncer)?;
    let _clients = four_waiting(&rt, alloc, bouncer)?;
    let mut fifth = asks(&rt, bouncer)?;
    // once it is inside its network
    for _ in 0..10_000 {
        if bouncer.shared.sessions(&rt) == 5 {
            break;
        }
        thread::sleep(&rt, Duration::from_millis(1));
    }
    stop(&rt, alloc, &bouncer.shared);
    fifth.ends_with(alloc, "ERROR :bnc stops\r\n")
}

#[test]
fn a_stop_while_a_client_waits_for_its_burst(rt: HostRuntime) -> Result<(), Fail> {
    let alloc = rt.alloc();
    let limits = Limits {
        stop: Duration::from_secs(1),
        ..limits(5, 1)
    };
    let bouncer = start_roomy(rt, alloc, limits)?;
    stopped_meanwhile(rt, alloc, &bouncer)?;
    bouncer.join(&rt);
    Ok(())
}
