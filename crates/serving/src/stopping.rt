//! The end of the service.

use crate::control_event::ControlEvent;
use crate::host::Host;
use crate::journal_event::JournalEvent;
use crate::log::Log;
use crate::shared::Shared;
use crate::station::Station;
use std::alloc::Global;
use std::net::TcpListener;
use std::rt::Clock;
use std::sync::Wait;
use std::thread;
use std::time::{Duration, Instant};
use steward::{Answer, Event};

/// For how many milliseconds it rests before it looks again whether all is done.
pub(crate) const REST: u64 = 5;

/// Begins the end of the service: no network is dialled any more, and nobody is accepted. That takes
/// no descriptor.
pub fn begin_end<R: Wait + Clock>(rt: &R, shared: &Shared, listener: &TcpListener) {
    shared.begin_stop(rt);
    let _ = keep::shut_listener(listener);
}

/// Gives the orders of the end, one after the other, until none is left or their time is up.
fn give_orders<R: Wait + Clock>(rt: &R, shared: &Shared) {
    for _ in rt.forever() {
        match shared.decide(rt, Event::Ends) {
            Answer::Wait => thread::sleep(rt, Duration::from_millis(REST)),
            Answer::Tell { .. } | Answer::Quit { .. } => {}
            _ => return,
        }
    }
    unreachable!()
}

/// Whether this much time has gone by since a moment.
fn is_past<R: Clock>(rt: &R, start: Instant, time: Duration) -> bool {
    match start.elapsed(rt) {
        Ok(passed) => passed >= time,
        Err(_) => true,
    }
}

/// Whether what is left for a network's journal is still to be written, or is being written.
fn is_unwritten(station: &Station) -> bool {
    match station.journal().try_lock() {
        Some(journal) => match &*journal {
            Some(kept) => !kept.is_done(),
            None => false,
        },
        None => true,
    }
}

/// Waits until what is left for a network's journal is written, or this much time has gone by since
/// a moment; whether it is written.
fn waits_for_journal<R: Wait + Clock>(
    rt: &R,
    station: &Station,
    start: Instant,
    time: Duration,
) -> bool {
    for _ in rt.forever() {
        if !is_unwritten(station) {
            return true;
        }
        if is_past(rt, start, time) {
            return false;
        }
        thread::sleep(rt, Duration::from_millis(REST));
    }
    unreachable!()
}

/// Asks that what is left for the journals is written, and waits for that until this much time has
/// gone by since a moment, because a disk may hang. Each network of which not everything is written
/// then is logged.
fn end_journals<R: Wait + Clock>(rt: &R, shared: &Shared, start: Instant, time: Duration) {
    shared.journals().end();
    let Ok(roster) = shared.roster(rt) else {
        return;
    };
    for (_, station) in roster.networks() {
        if !waits_for_journal(rt, station, start, time) {
            let log = shared.log();
            log.tell(rt, &station.who(), &JournalEvent::Unwritten);
        }
    }
}

/// Waits until the log is written out, or this much time has gone by since a moment.
fn wait_for_log<R: Wait + Clock>(rt: &R, log: &Log, start: Instant, time: Duration) {
    for _ in rt.forever() {
        if is_past(rt, start, time) || log.is_written() {
            return;
        }
        thread::sleep(rt, Duration::from_millis(REST));
    }
    unreachable!()
}

/// Ends the service: each client, also one that logs in, is sent `ERROR :bnc stops` after what
/// waits for it, then each network `QUIT :bnc stops`, and the journals and the log are written out.
/// It takes no longer than the limits say: a client or network that has not taken everything by
/// then gets no more. A journal that is not written a sixteenth of that time before the end is
/// logged.
pub fn stop<R: Host>(rt: &R, _alloc: Global, shared: &Shared) {
    let Ok(start) = Instant::now(rt) else {
        return;
    };
    shared.begin_stop(rt);
    shared.log().tell(rt, &"bnc", &ControlEvent::Stops);
    give_orders(rt, shared);
    let time = shared.limits().stop;
    end_journals(rt, shared, start, time.saturating_sub(time / 16));
    shared.log().end(rt);
    wait_for_log(rt, shared.log(), start, time);
}
