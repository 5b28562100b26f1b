//! The threads of the networks, of the log, and the one that accepts clients.

use crate::accepting::{accept, accept_proxies};
use crate::connecting::stay_connected;
use crate::dialling::Dialling;
use crate::host::Host;
use crate::journaling::{keep_journals, recall_network};
use crate::log::StandardError;
use crate::metrics::keep_metrics;
use crate::network_event::NetworkEvent;
use crate::proxies::Proxies;
use crate::publishing::Publish;
use crate::pumping::keep_pumping;
use crate::shared::Shared;
use crate::station::Begun;
use hub_threads::small_thread;
use std::alloc::{AllocError, Global};
use std::net::{Net, TcpListener, TcpStream};
use std::rt::Clock;
use std::sync::{Arc, Wait};
use std::thread::{JoinHandle, Threads};
use steward::Event;

/// Starts the thread that writes the log to standard error, until the log is ended. `AllocError`
/// if an allocation fails or no thread can be started.
pub fn start_log<R: Threads + Wait + Clock + Eprint + Copy + Send + Drop + 'static>(
    rt: R,
    shared: &Arc<Shared>,
) -> Result<JoinHandle<()>, AllocError> {
    let theirs = Arc::try_clone(shared)?;
    let started = small_thread().spawn(&rt, move || {
        theirs.log().write_to(&rt, &mut StandardError(&rt))
    });
    started.or(Err(AllocError))
}

/// Starts the threads of a network: one that pumps, and then one that dials and reads it, which has a
/// writer beside it while a connection is up.
fn start_threads<R: Host + Net<Listener = TcpListener, Stream = TcpStream>>(
    rt: R,
    alloc: Global,
    shared: &Arc<Shared>,
    begun: Begun,
    threads: &mut Vec<JoinHandle<()>>,
) -> Result<(), AllocError> {
    let Begun { station, link } = begun;
    threads.reserve(2)?;
    let (theirs, its) = (Arc::try_clone(shared)?, Arc::try_clone(&station)?);
    let pump = move || keep_pumping(&rt, alloc, &theirs, &its);
    let theirs = Arc::try_clone(shared)?;
    let dial = move || {
        let dialling = Dialling {
            rt: &rt,
            alloc,
            shared: &theirs,
            station: &station,
        };
        stay_connected(&dialling, link)
    };
    let Ok(pump) = small_thread().spawn(&rt, pump) else {
        return Err(AllocError);
    };
    threads.push(pump)?;
    let Ok(reader) = small_thread().spawn(&rt, dial) else {
        return Err(AllocError);
    };
    threads.push(reader)?;
    Ok(())
}

/// Starts the threads of a network. `AllocError` if an allocation fails or a thread can't be
/// started; the network is forgotten then, so that the next reload begins it again.
pub(crate) fn start_network<R: Host + Net<Listener = TcpListener, Stream = TcpStream>>(
    rt: R,
    alloc: Global,
    shared: &Arc<Shared>,
    begun: Begun,
    threads: &mut Vec<JoinHandle<()>>,
) -> Result<(), AllocError> {
    let station = Arc::try_clone(&begun.station)?;
    shared.dials_one_more();
    recall_network(&rt, alloc, shared, &station);
    let started = start_threads(rt, alloc, shared, begun, threads);
    if started.is_err() {
        // another network of its names may have the file
        *station.journal().lock(&rt) = None;
        shared.dials_no_more();
        let network = station.number();
        let _ = shared.decide(&rt, Event::Unstarted { network });
        // the thread that pumps ends, if there is one
        station.slot().close(&rt);
        shared
            .log()
            .tell(&rt, &station.who(), &NetworkEvent::NotServed);
    }
    started
}

/// Starts the threads of each network. `AllocError` if an allocation fails or a thread can't be
/// started; those started before then run on.
pub fn start_networks<R: Host + Net<Listener = TcpListener, Stream = TcpStream>>(
    rt: R,
    alloc: Global,
    shared: &Arc<Shared>,
    begun: Vec<Begun>,
) -> Result<Vec<JoinHandle<()>>, AllocError> {
    let mut threads = Vec::new(alloc);
    for one in begun {
        start_network(rt, alloc, shared, one, &mut threads)?;
    }
    shared.journals().note_begun();
    Ok(threads)
}

/// Starts the thread that writes the journals, if networks are kept. `AllocError` if an allocation
/// fails or no thread can be started.
pub fn start_journals<R: Host>(
    rt: R,
    alloc: Global,
    shared: &Arc<Shared>,
) -> Result<Option<JoinHandle<()>>, AllocError> {
    if shared.journals().folder().is_none() {
        return Ok(None);
    }
    let theirs = Arc::try_clone(shared)?;
    match small_thread().spawn(&rt, move || keep_journals(&rt, alloc, &theirs)) {
        Ok(thread) => Ok(Some(thread)),
        Err(_) => Err(AllocError),
    }
}

/// Starts the thread that writes the figures, if there is a file for them. `AllocError` if an
/// allocation fails or no thread can be started.
pub fn start_metrics<R: Host + Publish>(
    rt: R,
    alloc: Global,
    shared: &Arc<Shared>,
) -> Result<Option<JoinHandle<()>>, AllocError> {
    if shared.metrics().path().is_none() {
        return Ok(None);
    }
    let theirs = Arc::try_clone(shared)?;
    match small_thread().spawn(&rt, move || keep_metrics(&rt, alloc, &theirs)) {
        Ok(thread) => Ok(Some(thread)),
        Err(_) => Err(AllocError),
    }
}

/// Starts the thread that accepts clients. `AllocError` if an allocation fails or no thread can be
/// started.
pub fn start_accepting<R: Host + Net<Listener = TcpListener, Stream = TcpStream>>(
    rt: R,
    alloc: Global,
    shared: &Arc<Shared>,
    listener: TcpListener,
) -> Result<JoinHandle<()>, AllocError> {
    let theirs = Arc::try_clone(shared)?;
    let started = small_thread().spawn(&rt, move || accept(rt, alloc, &listener, &theirs));
    started.or(Err(AllocError))
}

/// Starts the thread that accepts the proxies that may connect. `AllocError` if an allocation fails
/// or no thread can be started.
pub fn start_accepting_proxies<R: Host + Net<Listener = TcpListener, Stream = TcpStream>>(
    rt: R,
    alloc: Global,
    shared: &Arc<Shared>,
    listener: TcpListener,
    proxies: Proxies,
) -> Result<JoinHandle<()>, AllocError> {
    let theirs = Arc::try_clone(shared)?;
    let accepting = move || accept_proxies(rt, alloc, &listener, &theirs, &proxies);
    small_thread().spawn(&rt, accepting).or(Err(AllocError))
}
