//! `Bouncer`: the bouncer in threads of a test, between the network and the clients of the test.

use crate::host::Host;
use bnc_config::Config;
use hub_threads::Turns;
use keep::Watch;
use serving::{Limits, Shared, accept, start_log, start_networks};
use std::alloc::Global;
use std::net::{Net, SocketAddr, TcpListener, TcpStream};
use std::rt::Clock;
use std::sync::{Arc, Wait};
use std::test::Fail;
use std::thread;
use std::thread::{JoinHandle, Threads};
use std::time::Duration;
use test_stage::peer::Peer;
use test_stage::settings::{BC, settings_of};

/// The bouncer, while it runs.
#[derive(Drop)]
pub struct Bouncer {
    /// Where it dials.
    pub network: TcpListener,
    /// Where clients connect.
    pub address: SocketAddr,
    /// By which the thread that accepts is woken.
    pub door: TcpListener,
    /// What its threads share.
    pub shared: Arc<Shared>,
    threads: Vec<JoinHandle<()>>,
    // none if the test reads the log itself
    log: Option<JoinHandle<()>>,
}

/// Limits for tests: at most this many clients, and this many dials.
pub fn limits(accepts: u64, dials: u64) -> Limits {
    Limits {
        accepts: Turns::AtMost(accepts),
        logins: 8,
        logins_of_address: 4,
        exempts_loopback: true,
        login: Duration::from_secs(10),
        crowded_login: Duration::from_secs(10),
        wrong_password: Duration::from_millis(1),
        late: 8,
        pause: Duration::from_millis(1),
        write: Duration::from_secs(10),
        watch: Watch {
            idle: 60,
            limit: 60_000,
        },
        dials: Turns::AtMost(dials),
        retry: Duration::from_millis(50),
        most: Duration::from_millis(50),
        gap: Duration::ZERO,
        connect: Duration::from_secs(10),
        connect_in_turn: Duration::from_secs(10),
        registration: Duration::from_secs(10),
        silence: Duration::from_secs(10),
        silences: 2,
        sessions: 64,
        burst: 1_000_000,
        pace: 1_000_000,
        stop: Duration::from_secs(5),
        turns: Turns::AtMost(100),
        packets: 256,
        burst_wait: Duration::from_secs(10),
        unwritten: Duration::from_millis(20),
        receipt: Duration::from_secs(5),
    }
}

/// The settings: the user ann with the password `bc`, on the network `net` at this address.
pub fn settings(alloc: Global, address: SocketAddr) -> Result<Config, Fail> {
    settings_of(alloc, BC, &[("net", address, "ann")])
}

/// Starts the threads that serve the networks of these settings. What all threads share, and these.
fn serve_networks<R: Host + Net<Listener = TcpListener, Stream = TcpStream>>(
    rt: R,
    alloc: Global,
    limits: Limits,
    config: Config,
) -> Result<(Arc<Shared>, Vec<JoinHandle<()>>), Fail> {
    let (shared, links) = Shared::new(&rt, alloc, config, limits)?;
    let shared = Arc::new(alloc, shared)?;
    let threads = start_networks(rt, alloc, &shared, links)?;
    Ok((shared, threads))
}

/// Starts the thread that accepts clients, and answers the address to connect to, and the listener's other
/// descriptor.
fn serve_clients<R: Host + Net<Listener = TcpListener, Stream = TcpStream>>(
    rt: R,
    alloc: Global,
    shared: &Arc<Shared>,
    threads: &mut Vec<JoinHandle<()>>,
) -> Result<(SocketAddr, TcpListener), Fail> {
    let clients = TcpListener::bind(&rt, "127.0.0.1:0")?;
    let address = clients.local_addr()?;
    let door = clients.try_clone()?;
    let theirs = Arc::try_clone(shared)?;
    let accepting = thread::spawn(&rt, move || accept(rt, alloc, &clients, &theirs))?;
    threads.push(accepting)?;
    Ok((address, door))
}

/// Starts the bouncer with these limits, and no thread that writes its log.
pub fn start_unlogged<R: Host + Net<Listener = TcpListener, Stream = TcpStream>>(
    rt: R,
    alloc: Global,
    limits: Limits,
) -> Result<Bouncer, Fail> {
    let network = TcpListener::bind(&rt, "127.0.0.1:0")?;
    let config = settings(alloc, network.local_addr()?)?;
    start_by(rt, alloc, limits, network, config)
}

/// The same by these settings, whose first network is at this listener.
pub fn start_by<R: Host + Net<Listener = TcpListener, Stream = TcpStream>>(
    rt: R,
    alloc: Global,
    limits: Limits,
    network: TcpListener,
    config: Config,
) -> Result<Bouncer, Fail> {
    let (shared, mut threads) = serve_networks(rt, alloc, limits, config)?;
    let (address, door) = serve_clients(rt, alloc, &shared, &mut threads)?;
    Ok(Bouncer {
        network,
        address,
        door,
        shared,
        threads,
        log: None,
    })
}

/// Starts the bouncer with these limits.
pub fn start<R: Host + Net<Listener = TcpListener, Stream = TcpStream>>(
    rt: R,
    alloc: Global,
    limits: Limits,
) -> Result<Bouncer, Fail> {
    let mut bouncer = start_unlogged(rt, alloc, limits)?;
    bouncer.log = Some(start_log(rt, &bouncer.shared)?);
    Ok(bouncer)
}

impl Bouncer {
    /// Waits until it has ended.
    pub fn join<R: Threads + Wait>(self, rt: &R) {
        let Bouncer {
            shared,
            threads,
            log,
            ..
        } = self;
        for thread in threads {
            thread.join(rt);
        }
        shared.log().end(rt);
        if let Some(log) = log {
            log.join(rt);
        }
    }

    /// Waits until no client is served, at most some ten seconds. Whether none is.
    pub fn is_left<R: Wait + Clock>(&self, rt: &R) -> bool {
        for _ in 0..10_000 {
            if self.shared.sessions(rt) == 0 {
                return true;
            }
            thread::sleep(rt, Duration::from_millis(1));
        }
        false
    }

    /// Waits until it has ended, and answers its log. For one that has no thread that writes it.
    pub fn logged<R: Threads + Wait + Clock>(self, rt: &R, alloc: Global) -> Result<Vec<u8>, Fail> {
        let shared = Arc::try_clone(&self.shared)?;
        self.join(rt);
        let mut text = Vec::new(alloc);
        shared.log().write_to(rt, &mut text);
        Ok(text)
    }

    /// Accepts the bouncer's next connection, and plays the network in its registration up to the
    /// welcome.
    pub fn registers(&self, alloc: Global) -> Result<Peer, Fail> {
        let mut network = Peer::accept(&self.network)?;
        register(alloc, &mut network)?;
        Ok(network)
    }
}

/// The network's part in a registration up to the welcome.
pub fn register(alloc: Global, network: &mut Peer) -> Result<(), Fail> {
    network.hears(alloc, "CAP LS 302\r\nNICK ann\r\nUSER ann 0 * :Ann A\r\n")?;
    network.say(":s CAP * LS :multi-prefix sasl\r\n")?;
    network.hears(alloc, "CAP REQ multi-prefix\r\n")?;
    network.say(":s CAP * ACK :multi-prefix\r\n")?;
    network.hears(alloc, "CAP END\r\n")?;
    network.say(":s 001 ann :Welcome\r\n:s 005 ann PREFIX=(ov)@+ CHANTYPES=# :are supported\r\n")?;
    network.say(":s 376 ann :End of MOTD\r\n")?;
    network.hears(alloc, "JOIN #c\r\n")
}

/// Waits until the bouncer has taken all that the network sent.
pub fn settle(alloc: Global, network: &mut Peer) -> Result<(), Fail> {
    network.say("PING :all taken\r\n")?;
    network.hears(alloc, "PONG :all taken\r\n")
}
