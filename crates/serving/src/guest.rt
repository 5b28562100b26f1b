//! A client, as its own thread knows it: what is asked about it, its last line, and its lines of the
//! log.

use crate::connection::{Connection, Farewell};
use crate::hearing::Ear;
use crate::judging::{Decision, Judged};
use crate::limits::millis;
use crate::refusals::tell_refusal;
use crate::session_event::SessionEvent;
use crate::shared::Shared;
use crate::shown::Who;
use crate::station::Station;
use crate::stranger_event::StrangerEvent;
use hub_threads::WRITE_CALL;
use shell::is_silence;
use std::alloc::Global;
use std::io::Write;
use std::net::SocketAddr;
use std::rt::Clock;
use std::sync::Wait;
use std::time::Duration;
use std::{io, thread};
use steward::{Answer, Event, Verdict};

/// After how many milliseconds a thread that waits looks whether its client is to be sent its last line.
const STEP: u64 = 50;

/// A client, as its own thread knows it.
#[derive(Clone, Copy)]
pub(crate) struct Guest<'a, R> {
    pub(crate) rt: &'a R,
    pub(crate) alloc: Global,
    pub(crate) shared: &'a Shared,
    pub(crate) number: u64,
    pub(crate) connection: &'a Connection,
    pub(crate) peer: SocketAddr,
    /// What is decided about its login.
    pub(crate) decision: &'a Decision,
    /// What hears it in its session.
    pub(crate) ear: &'a Ear,
    /// Whether a proxy named it.
    pub(crate) is_proxied: bool,
}

/// Who writes a client's last line.
#[derive(Clone, Copy, PartialEq, Eq)]
pub(crate) enum LastLine {
    /// Its own thread may write one.
    Own,
    /// It was to be sent this one, and was.
    Said(Farewell),
    /// It was closed without one.
    Closed,
}

/// What came of a login that waited until it may get a long burst.
#[derive(Clone, Copy, PartialEq, Eq)]
pub(crate) enum Turn {
    /// It may get its burst.
    Now,
    /// It waited for too long.
    TooLate,
    /// It is to be sent its last line, or has gone.
    Over,
}

impl<R: Wait + Clock> Guest<'_, R> {
    /// Writes a line of the log about it.
    pub(crate) fn tell(&self, who: Option<Who<'_>>, event: &SessionEvent) {
        let log = self.shared.log();
        match who {
            Some(who) => log.tell(self.rt, &who, event),
            None => log.tell(self.rt, &"bnc", event),
        }
    }

    /// Logs that its login ended before it was complete.
    pub(crate) fn tell_no_login(&self, cause: &str) {
        let peer = self.peer;
        let event = StrangerEvent::NoLogin { peer, cause };
        tell_refusal(self.rt, self.shared, peer.ip(), &"bnc", &event);
    }

    /// Logs that its password was wrong, or that it was right and the user has no such network.
    pub(crate) fn tell_wrong(&self, who: Who<'_>, lacks_network: bool) {
        let peer = self.peer;
        let event = if lacks_network {
            StrangerEvent::NoSuchNetwork { peer }
        } else {
            StrangerEvent::WrongPassword { peer }
        };
        tell_refusal(self.rt, self.shared, peer.ip(), &who, &event);
    }

    /// Asks what becomes of its login. By the settings that were read this often it is right for
    /// this network, or wrong.
    pub(crate) fn judge(&self, station: Option<&Station>, settings: u64) -> Answer {
        let verdict = match station {
            Some(station) => Verdict::Right(station.label()),
            None => Verdict::Wrong,
        };
        let event = Event::Judged {
            client: self.number,
            settings,
            verdict,
        };
        self.shared.decide(self.rt, event)
    }

    /// Asks who writes its last line. One that was ordered is written now. Unless this thread may
    /// write its own, the connection is shut.
    pub(crate) fn last_line(&self) -> LastLine {
        let client = self.number;
        let answer = self.shared.decide(self.rt, Event::Tells { client });
        if answer == (Answer::MayTell { client }) {
            return LastLine::Own;
        }
        match self.connection.farewell() {
            Some(farewell) => {
                let time = self.shared.limits().stop;
                self.connection.say_last("ERROR", farewell, time);
                LastLine::Said(farewell)
            }
            None => {
                self.connection.hang_up();
                LastLine::Closed
            }
        }
    }

    /// Whether its peer has gone, after a wait of 50 ms. Nothing is read from it.
    fn has_gone(&self) -> bool {
        let stream = self.connection.stream();
        let step = Duration::from_millis(STEP);
        if stream.set_read_timeout(Some(step)).is_err() {
            return true;
        }
        let mut first = [0u8; 1];
        match stream.peek(&mut first) {
            Ok(0) => true,
            Ok(_) => {
                thread::sleep(self.rt, step);
                false
            }
            Err(error) => !is_silence(&error),
        }
    }

    /// Waits while its network joins channels; whether it gets its session. It does not if it is to be
    /// sent its last line, or has gone.
    pub(crate) fn waits_for_channels(&self, station: &Station) -> bool {
        if self.shared.wait() == 0 {
            return true;
        }
        let client = self.number;
        for _ in self.rt.forever() {
            let channels = station.channels(self.rt, self.shared.ticks(self.rt));
            let event = Event::Enters { client, channels };
            match self.shared.decide(self.rt, event) {
                Answer::Enter { .. } => return true,
                Answer::Hold { .. } => {}
                _ => return false,
            }
            if self.connection.is_shut() || self.has_gone() {
                return false;
            }
        }
        unreachable!()
    }

    /// Waits until it may get its burst, if that may be a long one: only some of a network wait for
    /// their writers at once. It does not get it if it is to be sent its last line, has gone, or waited
    /// for too long.
    pub(crate) fn waits_for_burst(&self, station: &Station) -> Turn {
        let wait = millis(self.shared.limits().burst_wait);
        let end = self.shared.ticks(self.rt).saturating_add(wait);
        for _ in self.rt.forever() {
            if !station.may_burst_long(self.rt) || station.bursts().enter(self.rt, self.number) {
                return Turn::Now;
            }
            if self.shared.ticks(self.rt) >= end {
                return Turn::TooLate;
            }
            if self.connection.is_shut() || self.has_gone() {
                return Turn::Over;
            }
        }
        unreachable!()
    }

    /// The network that it was let in to, if it was.
    fn station(&self) -> Option<&Station> {
        match self.decision.judged() {
            Some(Judged::LetIn(station)) => Some(station),
            _ => None,
        }
    }

    /// Notes that it has a session: from then on it counts as one that waits for its writer only as long
    /// as its burst does.
    pub(crate) fn note_burst(&self) {
        let (Some(station), Some((network, id))) = (self.station(), self.ear.session()) else {
            return;
        };
        if !station.bursts().has_place(self.rt, self.number) {
            return;
        }
        if let Ok(Some(bulk)) = network.bulk_of(self.rt, id) {
            station.bursts().note(self.rt, self.number, bulk);
        }
    }

    /// Notes that nothing more is written to it.
    pub(crate) fn end_burst(&self) {
        if let Some(station) = self.station() {
            station.bursts().leave(self.rt, self.number);
        }
    }

    /// Writes its last line; a client that has gone does not get it.
    pub(crate) fn say(&self, line: &[u8]) {
        let mut out = self.connection.stream();
        let _ = out.write_all(line);
    }

    /// Waits until a time, or until it is to be sent its last line.
    pub(crate) fn wait_until(&self, time: u64) {
        for _ in self.rt.forever() {
            let now = self.shared.ticks(self.rt);
            if now > time || self.connection.is_shut() {
                return;
            }
            let left = time.saturating_sub(now).saturating_add(1);
            thread::sleep(self.rt, Duration::from_millis(left.min(STEP)));
        }
        unreachable!()
    }

    /// Sets the time limits of its connection in a session.
    pub(crate) fn set_timeouts(&self) -> io::Result<()> {
        let stream = self.connection.stream();
        stream.set_read_timeout(None)?;
        stream.set_write_timeout(Some(Duration::from_millis(WRITE_CALL)))
    }
}
