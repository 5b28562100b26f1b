//! Settings that are read again while the program runs.

use crate::control_event::ControlEvent;
use crate::host::Host;
use crate::plan::Plan;
use crate::shared::Shared;
use crate::starting::start_network;
use crate::station::Begun;
use crate::stopping::REST;
use bnc_config::{Config, MessagesConfig, PlaybackConfig, Text};
use std::alloc::{AllocError, Global};
use std::net::{Net, TcpListener, TcpStream};
use std::rt::Clock;
use std::sync::{Arc, Wait};
use std::thread;
use std::time::Duration;
use steward::{Answer, Event};

/// Why settings were not read again.
#[derive(Debug, Drop)]
pub enum Unread {
    /// They have a fault, or can't be read. Its text may have several lines.
    Fault(String),
    /// An allocation was refused.
    OutOfMemory,
}

/// Where settings are read again.
pub trait Source {
    /// Reads them.
    fn read(&self) -> Result<Config, Unread>;
}

/// Why a file without networks is not put in force by a plain `reload`.
const EMPTY: &str = "the file has no network; `reload empty` leaves all of them";

/// Starts the threads of networks that are new. The log reports one for which there are none; the
/// next reload begins it once more.
fn start_each<R: Host + Net<Listener = TcpListener, Stream = TcpStream>>(
    rt: R,
    alloc: Global,
    shared: &Arc<Shared>,
    begun: Vec<Begun>,
) {
    for one in begun {
        // the threads run on by themselves
        let mut threads = Vec::new(alloc);
        let _ = start_network(rt, alloc, shared, one, &mut threads);
    }
}

/// The same; in a thread of its own if networks are kept, since a disk may take long, or hang.
fn start_all<R: Host + Net<Listener = TcpListener, Stream = TcpStream>>(
    rt: R,
    alloc: Global,
    shared: &Arc<Shared>,
    begun: Vec<Begun>,
) {
    if begun.is_empty() || shared.journals().folder().is_none() {
        return start_each(rt, alloc, shared, begun);
    }
    let Ok(theirs) = Arc::try_clone(shared) else {
        return start_each(rt, alloc, shared, begun);
    };
    let start = move || {
        let begun = begun;
        start_each(rt, alloc, &theirs, begun)
    };
    if let Err(refused) = thread::spawn(&rt, start) {
        let start = refused.value;
        start();
    }
}

/// Gives the orders about one network that are due after a reload; whether it is to be asked again.
fn part<R: Wait + Clock>(rt: &R, shared: &Shared, network: u64) -> bool {
    for _ in rt.forever() {
        match shared.decide(rt, Event::Parts { network }) {
            Answer::Tell { .. } | Answer::Quit { .. } => {}
            answer => return answer == Answer::Wait,
        }
    }
    unreachable!()
}

/// Gives the orders about networks after a reload: of one that is left the clients are disconnected
/// first, within their time, so no client sees itself leave its channels.
fn part_all<R: Wait + Clock>(rt: &R, shared: &Shared, networks: &[u64]) {
    for _ in rt.forever() {
        let mut waits = false;
        for network in networks {
            waits |= part(rt, shared, *network);
        }
        if !waits {
            return;
        }
        thread::sleep(rt, Duration::from_millis(REST));
    }
    unreachable!()
}

/// Whether lists of texts are the same.
fn are_same(one: &[Text], other: &[Text]) -> bool {
    let mut pairs = one.iter().zip(other.iter());
    one.len() == other.len() && pairs.all(|(a, b)| a.as_bytes() == b.as_bytes())
}

/// Whether the addresses of proxies are the same.
fn has_same_proxies(old: &Config, new: &Config) -> bool {
    match (old.proxies(), new.proxies()) {
        (Some(old), Some(new)) => are_same(old, new),
        (None, None) => true,
        _ => false,
    }
}

/// Whether the same is kept.
fn keep_the_same(old: &MessagesConfig, new: &MessagesConfig) -> bool {
    old.ctcp() == new.ctcp()
        && old.server_notices() == new.server_notices()
        && are_same(old.never(), new.never())
        && old.to_self() == new.to_self()
        && old.by_person() == new.by_person()
}

/// Whether it is played back alike.
fn play_alike(old: &PlaybackConfig, new: &PlaybackConfig) -> bool {
    old.private_batches() == new.private_batches()
        && old.times() == new.times()
        && old.visits() == new.visits()
        && old.wait() == new.wait()
}

/// Logs which settings are not those of the start, by which the program goes until it ends.
fn tell_restarts<R: Wait + Clock>(rt: &R, shared: &Shared, new: &Config) {
    let old = shared.first();
    let keys = [
        ("listen", are_same(old.listens(), new.listens())),
        (
            "listen_proxy",
            are_same(old.listen_proxy(), new.listen_proxy()),
        ),
        ("proxies", has_same_proxies(old, new)),
        ("history", old.history() == new.history()),
        ("kept", old.kept() == new.kept()),
        ("memory", old.memory() == new.memory()),
        ("metrics", old.metrics() == new.metrics()),
        ("messages", keep_the_same(old.messages(), new.messages())),
        ("playback", play_alike(old.playback(), new.playback())),
    ];
    for (key, is_same) in &keys {
        if !is_same {
            let event = ControlEvent::NeedsRestart { key: *key };
            shared.log().tell(rt, &"bnc", &event);
        }
    }
}

/// Puts other settings in force. Users and networks are known by their names. New networks are
/// served. Of a network that was removed, each client is sent `ERROR :removed` and the network
/// `QUIT :removed`, after what waits for it. A network whose address, nick, user, realname or password
/// changed is dialled again. All others go on. Once the service ends, nothing changes. `AllocError` if
/// an allocation was refused; then nothing has changed.
pub fn go_by<R: Host + Net<Listener = TcpListener, Stream = TcpStream>>(
    rt: R,
    alloc: Global,
    shared: &Arc<Shared>,
    config: Config,
) -> Result<(), AllocError> {
    let limits = shared.limits();
    let config = Arc::new(alloc, config)?;
    let old = shared.roster(&rt)?;
    let mut helm = shared.helm().lock(&rt);
    let (wanted, next) = (helm.wanted(alloc, &config)?, helm.next_network());
    drop(helm);
    let new = Arc::try_clone(&config)?;
    let mut plan = Plan::new(alloc, &old, new, wanted, next, &limits)?;
    let now = shared.ticks(&rt);
    let mut helm = shared.helm().lock(&rt);
    let networks = helm.networks(alloc)?;
    let went = helm.go_by(&mut plan, &limits, now)?;
    drop(helm);
    let (Some(tally), Plan { begun, .. }) = (went, plan) else {
        return Ok(());
    };
    let event = ControlEvent::Reloaded {
        begun: begun.len(),
        left: tally.left,
        changed: tally.changed,
    };
    start_all(rt, alloc, shared, begun);
    shared.log().tell(&rt, &"bnc", &event);
    tell_restarts(&rt, shared, &config);
    part_all(&rt, shared, networks.as_slice());
    Ok(())
}

/// Logs why the settings were not read again: a fault's lines, each by itself.
fn tell_fault<R: Wait + Clock>(rt: &R, shared: &Shared, fault: &str) {
    for line in fault.lines() {
        let why = line.strip_prefix("bnc: ").unwrap_or(line);
        shared
            .log()
            .tell(rt, &"bnc", &ControlEvent::NotReloaded { why });
    }
}

/// Whether settings have no network.
fn are_empty(config: &Config) -> bool {
    config.users().iter().all(|user| user.networks().is_empty())
}

/// Whether settings would leave all networks that are served.
fn leaves_all<R: Wait>(rt: &R, shared: &Shared, config: &Config) -> Result<bool, AllocError> {
    let roster = shared.roster(rt)?;
    Ok(are_empty(config) && !roster.networks().is_empty())
}

/// Goes by settings that were read; those without a network only if that is asked for, or if none is
/// served.
fn go_by_read<R: Host + Net<Listener = TcpListener, Stream = TcpStream>>(
    rt: R,
    alloc: Global,
    shared: &Arc<Shared>,
    config: Config,
    may_be_empty: bool,
) -> Result<(), AllocError> {
    if !may_be_empty && leaves_all(&rt, shared, &config)? {
        tell_fault(&rt, shared, EMPTY);
        return Ok(());
    }
    go_by(rt, alloc, shared, config)
}

/// Reads the settings again and goes by them. If they have a fault, or no network although that was
/// not asked for, the log says so and nothing changes.
pub(crate) fn reload<S: Source, R: Host + Net<Listener = TcpListener, Stream = TcpStream>>(
    rt: R,
    alloc: Global,
    shared: &Arc<Shared>,
    source: &S,
    may_be_empty: bool,
) {
    let done = match source.read() {
        Ok(config) => go_by_read(rt, alloc, shared, config, may_be_empty),
        Err(Unread::Fault(fault)) => return tell_fault(&rt, shared, fault.as_str()),
        Err(Unread::OutOfMemory) => Err(AllocError),
    };
    if done.is_err() {
        tell_fault(&rt, shared, "out of memory");
    }
}
