//! `bnc serve FILE`: stays on the networks of a settings file, and serves their users' clients.

use crate::control::open_control;
use bnc_config::Config;
use commands::{Fault, settings_text, warn_of_readers};
use serving::{
    Host, Journals, Limits, Proxies, Publish, Shared, Source, Unread, begin_end, obey,
    start_accepting, start_accepting_proxies, start_journals, start_log, start_metrics,
    start_networks, stop,
};
use std::alloc::{AllocError, Global};
use std::fs::File;
use std::io;
use std::net::{Net, SocketAddr, TcpListener, TcpStream};
use std::rt::Files;
use std::sync::Arc;
use std::thread::JoinHandle;

/// The settings of the file at a path.
fn settings_at<R: AllocGlobal + Files>(rt: &R, path: &str) -> Result<Config, Fault> {
    let text = settings_text(rt, path)?;
    match Config::read(rt.alloc(), text.as_slice()) {
        Ok(config) => Ok(config),
        Err(fault) => Err(Fault::of_settings(rt.alloc(), path, text.as_slice(), fault)),
    }
}

/// The settings file at a path, which is read again.
#[derive(Clone, Copy)]
struct SettingsFile<'a, R: AllocGlobal + Files> {
    rt: &'a R,
    path: &'a str,
}

impl<R: AllocGlobal + Files> Source for SettingsFile<'_, R> {
    fn read(&self) -> Result<Config, Unread> {
        match settings_at(self.rt, self.path) {
            Ok(config) => Ok(config),
            Err(fault) => match format!(in self.rt.alloc(); "{fault}") {
                Ok(text) => Err(Unread::Fault(text)),
                Err(_) => Err(Unread::OutOfMemory),
            },
        }
    }
}

/// Where connections come in: a listener, a second descriptor of it that wakes the thread that accepts
/// there, taken while there are some, its address, and whether proxies name their clients there.
#[derive(Drop)]
struct Door {
    listener: TcpListener,
    waker: TcpListener,
    address: SocketAddr,
    is_for_proxies: bool,
}

/// Listens at an address.
fn open_door<R: Net<Listener = TcpListener, Stream = TcpStream>>(
    rt: &R,
    address: &str,
    is_for_proxies: bool,
) -> io::Result<Door> {
    let listener = TcpListener::bind(rt, address)?;
    let address = listener.local_addr()?;
    let waker = listener.try_clone()?;
    Ok(Door {
        listener,
        waker,
        address,
        is_for_proxies,
    })
}

/// Listens where the settings say: first for clients, then for proxies.
fn open_doors<R: Net<Listener = TcpListener, Stream = TcpStream>>(
    rt: &R,
    alloc: Global,
    config: &Config,
) -> Result<Vec<Door>, Fault> {
    let mut doors = Vec::new(alloc);
    for (addresses, is_for_proxies) in [(config.listens(), false), (config.listen_proxy(), true)] {
        for address in addresses {
            let door = match open_door(rt, address.as_str(), is_for_proxies) {
                Ok(door) => door,
                Err(error) => return Err(Fault::of_listening(alloc, address.as_str(), &error)),
            };
            if doors.push(door).is_err() {
                return Err(Fault::OutOfMemory);
            }
        }
    }
    Ok(doors)
}

/// Reads the settings file at a path, and listens where it says.
fn open_file<R: AllocGlobal + Files + Eprint + Net<Listener = TcpListener, Stream = TcpStream>>(
    rt: &R,
    path: &str,
) -> Result<(Config, Vec<Door>), Fault> {
    let config = settings_at(rt, path)?;
    warn_of_readers(rt, path);
    let doors = open_doors(rt, rt.alloc(), &config)?;
    Ok((config, doors))
}

/// The path that a settings file names, if it names one. A path that begins with no slash is taken from
/// the folder of the settings file.
fn path_by(
    alloc: Global,
    settings: &str,
    named: Option<&str>,
) -> Result<Option<String>, AllocError> {
    let Some(named) = named else {
        return Ok(None);
    };
    match settings.rsplit_once('/') {
        Some((folder, _)) if !named.starts_with('/') => {
            Ok(Some(format!(in alloc; "{folder}/{named}")?))
        }
        _ => Ok(Some(String::from_str(alloc, named)?)),
    }
}

/// What all threads share, with the threads of the networks, of their journals, of the log and of the
/// figures.
fn start_all<
    R: Host
        + Publish
        + AllocGlobal
        + Files<File = File>
        + Eprint
        + Net<Listener = TcpListener, Stream = TcpStream>,
>(rt: R, config: Config, path: &str) -> Result<Arc<Shared>, Fault> {
    let alloc = rt.alloc();
    let journals = Journals::new(path_by(alloc, path, config.kept())?);
    let metrics = path_by(alloc, path, config.metrics())?;
    let limits = Limits::of_program(config.retry());
    let (shared, links) = Shared::keeping(&rt, alloc, config, limits, journals)?;
    let Ok(shared) = Arc::new(alloc, shared.with_metrics(metrics)) else {
        return Err(Fault::OutOfMemory);
    };
    let _log = start_log(rt, &shared)?;
    let _threads = start_networks(rt, alloc, &shared, links)?;
    let _journals = start_journals(rt, alloc, &shared)?;
    let _metrics = start_metrics(rt, alloc, &shared)?;
    Ok(shared)
}

/// Obeys the words that come by the FIFO beside the settings file, if there is one; whether one asks
/// to stop.
fn is_asked_to_stop<
    R: Host
        + AllocGlobal
        + Files<File = File>
        + Eprint
        + Net<Listener = TcpListener, Stream = TcpStream>,
>(rt: R, path: &str, shared: &Arc<Shared>) -> bool {
    let Some(mut words) = open_control(&rt, path) else {
        return false;
    };
    let source = SettingsFile { rt: &rt, path };
    obey(rt, rt.alloc(), shared, &mut words, &source)
}

/// Starts the threads that accept connections, one for each door; what wakes them, and they
/// themselves.
fn start_doors<R: Host + AllocGlobal + Net<Listener = TcpListener, Stream = TcpStream>>(
    rt: R,
    shared: &Arc<Shared>,
    doors: Vec<Door>,
) -> Result<(Vec<TcpListener>, Vec<JoinHandle<()>>), Fault> {
    let alloc = rt.alloc();
    let roster = shared.roster(&rt)?;
    let mut wakers = Vec::with_capacity(alloc, doors.len())?;
    let mut threads = Vec::with_capacity(alloc, doors.len())?;
    for door in doors {
        let Door {
            listener,
            waker,
            is_for_proxies,
            ..
        } = door;
        let thread = if is_for_proxies {
            let proxies = Proxies::of(alloc, roster.config().proxies())?;
            start_accepting_proxies(rt, alloc, shared, listener, proxies)?
        } else {
            start_accepting(rt, alloc, shared, listener)?
        };
        if wakers.push(waker).is_err() || threads.push(thread).is_err() {
            return Err(Fault::OutOfMemory);
        }
    }
    Ok((wakers, threads))
}

/// Reads the settings file at a path, listens where it says, prints `listening ADDRESS` for each
/// address, a line each, and serves. It returns before it is killed only for a fault, or when it was
/// asked to stop.
pub fn serve_file<
    R: Host
        + Publish
        + AllocGlobal
        + Files<File = File>
        + Print
        + Eprint
        + Net<Listener = TcpListener, Stream = TcpStream>,
>(rt: R, path: &str) -> Result<(), Fault> {
    if keep::fill_standard(&rt).is_err() {
        return Err(Fault::CannotWrite);
    }
    let (config, doors) = open_file(&rt, path)?;
    let shared = start_all(rt, config, path)?;
    for door in &doors {
        if println!(rt; "listening {}", door.address).is_err() {
            return Err(Fault::CannotWrite);
        }
    }
    let (wakers, accepting) = start_doors(rt, &shared, doors)?;
    if !is_asked_to_stop(rt, path, &shared) {
        for thread in accepting {
            thread.join(&rt);
        }
    }
    for waker in &wakers {
        begin_end(&rt, &shared, waker);
    }
    stop(&rt, rt.alloc(), &shared);
    Ok(())
}
