//! The thread that writes the journals of the networks.

ghost use Rattle.std.specs.Prelude.{IfOk};
ghost use Rattle.journal.specs.Recalls.{CanBegin};

use crate::anew::Cause;
use crate::host::Host;
use crate::journal_event::JournalEvent;
use crate::kept_journal::{AGAIN, KeptJournal};
use crate::link::{Link, network_again};
use crate::looking_again::LookingAgain;
use crate::network_event::{NetworkEvent, Recalled};
use crate::profiles::profile_of;
use crate::shared::Shared;
use crate::station::Station;
use hub_threads::Network;
use journal_writer::{Disk, Due, Found, Journal, NoJournal, OpenError, Opened, WriteError, open};
use quick_view::QuickView;
use std::alloc::{AllocError, Global};
use std::rt::Clock;
use std::sync::{Arc, Wait};
use std::thread;
use std::time::Duration;

/// How often a journal is opened that another holds, and how many milliseconds pass in between: a
/// network that was removed may still hold it, except at the start.
const TRIES: u64 = 20;

const PAUSE: u64 = 50;

/// Logs something about the journal of a network.
fn tell<R: Wait + Clock>(rt: &R, shared: &Shared, station: &Station, event: &JournalEvent) {
    shared.log().tell(rt, &station.who(), event);
}

/// The name of a network's file.
fn file_name(alloc: Global, station: &Station) -> Result<String, AllocError> {
    let who = station.who();
    let mut name = Vec::from_slice(alloc, who.user)?;
    name.push(b'@')?;
    name.extend_from_slice(who.network)?;
    match String::from_utf8(name) {
        Ok(name) => Ok(name),
        // names of settings are texts
        Err(_) => Err(AllocError),
    }
}

/// Opens the journal of a network. If a network of the same names that ends now holds it, it is waited
/// for.
fn open_journal<R: Host>(
    rt: &R,
    alloc: Global,
    shared: &Shared,
    station: &Station,
    folder: &str,
) -> Result<Opened, NoJournal>
    ensures begins { IfOk result (λ o. CanBegin o.past.history) }
{
    let name = file_name(alloc, station)?;
    let capacity = shared.roster(rt)?.config().history();
    let most = if shared.journals().has_begun() {
        TRIES
    } else {
        1
    };
    let mut tries = 0u64;
    for _ in rt.forever() {
        tries = tries.saturating_add(1);
        match open(rt, alloc, folder, name.as_str(), capacity) {
            Err(NoJournal::File(OpenError::Taken)) if tries < most => {
                thread::sleep(rt, Duration::from_millis(PAUSE));
            }
            opened => return opened,
        }
    }
    unreachable!()
}

/// A network that begins with what its journal holds, its link, that journal, and what was found.
fn recalled<R: Host>(
    rt: &R,
    alloc: Global,
    shared: &Shared,
    station: &Station,
    folder: &str,
) -> Result<(Arc<Network<QuickView>>, Link, Journal, Found), NoJournal> {
    let Opened {
        journal,
        past,
        found,
    } = open_journal(rt, alloc, shared, station, folder)?;
    let profile = profile_of(alloc, shared.roster(rt)?.config())?;
    let (network, link) = network_again(alloc, past, shared.limits().packets, profile)?;
    let Ok(network) = Arc::new(alloc, network) else {
        return Err(NoJournal::OutOfMemory);
    };
    // its file changes only here, once all memory is there
    let journal = journal.begin(rt)?;
    Ok((network, link, journal, found))
}

/// Begins a network with what its journal holds, if it is kept; its journal is written from then on. If
/// that can't be, also for lack of memory, the network goes on without it, and the log says why.
pub(crate) fn recall_network<R: Host>(rt: &R, alloc: Global, shared: &Shared, station: &Station) {
    let Some(folder) = shared.journals().folder() else {
        return;
    };
    match recalled(rt, alloc, shared, station, folder) {
        Ok((network, link, journal, found)) => {
            station.slot().clear(rt);
            station.slot().fill(rt, network, link);
            *station.journal().lock(rt) = Some(KeptJournal::new(journal));
            tell(rt, shared, station, &JournalEvent::Recalled(found));
        }
        Err(why) => tell(rt, shared, station, &JournalEvent::None { why: &why }),
    }
}

/// A network that goes on from what its journal holds, with its messages or without.
fn network_from<R: Wait + Clock + Disk>(
    rt: &R,
    alloc: Global,
    shared: &Shared,
    journal: &mut Journal,
    with_messages: bool,
) -> Result<(Network<QuickView>, Link), NoJournal> {
    let roster = shared.roster(rt)?;
    let capacity = roster.config().history();
    let past = journal.again(rt, alloc, capacity, with_messages)?;
    let profile = profile_of(alloc, roster.config())?;
    let network = network_again(alloc, past, shared.limits().packets, profile)?;
    Ok(network)
}

/// A network that is begun anew with what its journal holds; `None` if it has none. One that kept too
/// much has none of its messages, and neither has one that was begun anew within the last ten minutes.
/// If the journal can't be read, also for lack of memory, the network goes on without it, and the log
/// says why.
pub(crate) fn begin_again<R: Wait + Clock + Disk>(
    rt: &R,
    alloc: Global,
    shared: &Shared,
    station: &Station,
    cause: Cause,
) -> Option<(Network<QuickView>, Link)> {
    let mut journal = station.journal().lock(rt);
    let kept = (*journal).as_mut()?;
    let with_messages = cause == Cause::NoMemory && !kept.was_begun_anew(shared.ticks(rt));
    match network_from(rt, alloc, shared, &mut kept.journal, with_messages) {
        Ok(network) => {
            let recalled = if with_messages {
                Recalled::All
            } else {
                Recalled::NoMessages
            };
            let event = NetworkEvent::BegunAnew { cause, recalled };
            shared.log().tell(rt, &station.who(), &event);
            Some(network)
        }
        Err(why) => {
            tell(rt, shared, station, &JournalEvent::None { why: &why });
            *journal = None;
            None
        }
    }
}

/// Writes what is due for a journal; answers whether something was, and whether a session's writer still
/// has something to write.
fn write_due<R: Host>(
    rt: &R,
    alloc: Global,
    journal: &mut Journal,
    network: &Network<QuickView>,
    now: u64,
) -> Result<(bool, bool), WriteError> {
    let taken = {
        let hub = network.lock(rt);
        journal.take(alloc, &*hub, now)
    };
    let (due, is_behind) = taken?;
    let was_due = !matches!(due, Due::Nothing);
    journal.write(rt, alloc, due, now)?;
    Ok((was_due, is_behind))
}

/// Writes what is due for the journal of a network, if it has one. Answers when it is to be looked at
/// again, although nothing rings.
pub(crate) fn write_journal<R: Host>(
    rt: &R,
    alloc: Global,
    shared: &Shared,
    station: &Station,
) -> LookingAgain {
    let mut journal = station.journal().lock(rt);
    let Some(kept) = (*journal).as_mut() else {
        return LookingAgain::if_rung(false);
    };
    let Some(network) = station.slot().network(rt) else {
        return LookingAgain::if_rung(false);
    };
    let now = shared.ticks(rt);
    match write_due(rt, alloc, &mut kept.journal, &network, now) {
        Ok((was_due, is_behind)) => {
            // after a fault the file rests, and nothing is due meanwhile
            let rest = kept.rest(now);
            if !was_due && rest > 0 {
                return LookingAgain::after(rest);
            }
            if kept.note_written() {
                tell(rt, shared, station, &JournalEvent::Written);
            }
            LookingAgain::if_rung(is_behind)
        }
        Err(why) => {
            if kept.note_fault(now) {
                tell(rt, shared, station, &JournalEvent::NotWritten { why: &why });
            }
            LookingAgain::after(AGAIN)
        }
    }
}

/// Writes what is left for a network; the log says so if not all is written then.
fn write_left<R: Host>(rt: &R, alloc: Global, shared: &Shared, station: &Station) {
    let _ = write_journal(rt, alloc, shared, station);
    let mut journal = station.journal().lock(rt);
    if let Some(kept) = (*journal).as_mut() {
        kept.note_done();
        if kept.is_faulty() {
            tell(rt, shared, station, &JournalEvent::Unwritten);
        }
    }
}

/// Writes what is left for a network that ends. Its file stays if the network was removed, and the log
/// says so.
pub(crate) fn write_last<R: Host>(rt: &R, alloc: Global, shared: &Shared, station: &Station) {
    write_left(rt, alloc, shared, station);
    let mut journal = station.journal().lock(rt);
    if let (Some(kept), false) = (&*journal, shared.is_stopping(rt)) {
        let path = kept.journal.path();
        tell(rt, shared, station, &JournalEvent::Stays { path });
    }
    // another network of its names may have the file now
    *journal = None;
}

/// Writes what is due for all journals; answers as `write_journal` does.
fn write_all<R: Host>(rt: &R, alloc: Global, shared: &Shared) -> LookingAgain {
    let Ok(roster) = shared.roster(rt) else {
        return LookingAgain::after(AGAIN);
    };
    let mut again = LookingAgain::if_rung(false);
    for (_, station) in roster.networks() {
        again = again.or(write_journal(rt, alloc, shared, station));
    }
    again
}

/// Writes what is left for all journals, at the end of the service.
fn write_journals<R: Host>(rt: &R, alloc: Global, shared: &Shared) {
    let Ok(roster) = shared.roster(rt) else {
        return;
    };
    for (_, station) in roster.networks() {
        write_left(rt, alloc, shared, station);
    }
}

/// Writes journals whenever something has changed, after a rest by the limits, and what is left once
/// the service ends.
pub(crate) fn keep_journals<R: Host>(rt: &R, alloc: Global, shared: &Shared) {
    let journals = shared.journals();
    let mut time = None;
    for _ in rt.forever() {
        let was_rung = journals.wait(rt, time.map(Duration::from_millis));
        journals.rest(rt, shared.limits().unwritten);
        journals.answer();
        if journals.is_ending() {
            return write_journals(rt, alloc, shared);
        }
        let again = write_all(rt, alloc, shared);
        journals.await_writers(again.is_behind());
        time = again.time(was_rung);
    }
}
