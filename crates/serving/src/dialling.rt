//! A network, as the thread that dials it knows it: what it asks, and what it is to do.

use crate::clock::SystemClock;
use crate::connection::Connection;
use crate::last_words::THEN;
use crate::network_event::{Ending, NetworkEvent};
use crate::rejoining::all_names;
use crate::roster::Roster;
use crate::shared::Shared;
use crate::station::Station;
use crate::tables::Neighbour;
use bnc_config::NetworkConfig;
use shell::Noted;
use std::alloc::{AllocError, Global};
use std::rt::Clock;
use std::sync::{Arc, Wait};
use std::time::Duration;
use steward::{Answer, Event};

/// How many milliseconds a thread rests that can't dial yet, because its hub has not taken the loss
/// of the last connection, or because another network is to end first. A network that ends wakes
/// it.
const UNREADY: u64 = 100;

/// A network, as the thread that dials it knows it.
#[derive(Clone, Copy)]
pub(crate) struct Dialling<'a, R> {
    pub(crate) rt: &'a R,
    pub(crate) alloc: Global,
    pub(crate) shared: &'a Shared,
    pub(crate) station: &'a Station,
}

/// What the thread does next.
#[derive(Drop)]
pub(crate) enum Next {
    /// It dials, by these settings.
    Dial(Arc<Roster>),
    /// It rests, and asks again.
    Rest(Duration),
    /// It ends.
    End,
}

impl<R: Wait + Clock> Dialling<'_, R> {
    /// Writes a line of the log.
    pub(crate) fn tell(&self, event: &NetworkEvent) {
        let log = self.shared.log();
        log.tell(self.rt, &self.station.who(), event)
    }

    /// Logs how many dials ended like the one that was logged last, if any did.
    fn tell_alike(&self, count: u64) {
        if count > 0 {
            self.tell(&NetworkEvent::EndedAlike { count });
        }
    }

    /// By what an ending is that of the dial before it: its text, without an ERROR after a refusal, in
    /// which some networks name each connection.
    fn reason_of(&self, ending: &Ending<'_>) -> Result<Vec<u8>, AllocError> {
        let text = format!(in self.alloc; "{ending}")?;
        match text.as_str().split_once(THEN) {
            Some((reason, _)) => Vec::from_slice(self.alloc, reason.as_bytes()),
            None => Ok(text.into_bytes()),
        }
    }

    /// Logs how a dial ended. One that ended like the dial before it is only counted.
    pub(crate) fn tell_ending(&self, ending: &Ending<'_>, again: Option<u64>) {
        let Ok(reason) = self.reason_of(ending) else {
            return self.tell(&NetworkEvent::Ended { ending, again });
        };
        let noted = self.station.repeats().lock(self.rt).note(reason);
        if let Noted::New(count) = noted {
            self.tell_alike(count);
            self.tell(&NetworkEvent::Ended { ending, again });
        }
    }

    /// Logs that the network has let us in.
    pub(crate) fn tell_connected(&self, event: &NetworkEvent) {
        let count = self.station.repeats().lock(self.rt).end();
        self.tell_alike(count);
        self.tell(event);
    }

    /// Asks what to do next.
    fn ask(&self) -> Next {
        let now = self.shared.ticks(self.rt);
        let network = self.station.number();
        let mut helm = self.shared.helm().lock(self.rt);
        match helm.step(Event::Asks { network }, now) {
            Answer::Dial { .. } => match Arc::try_clone(helm.roster()) {
                Ok(roster) => Next::Dial(roster),
                Err(_) => {
                    helm.step(Event::Lost { network, chance: 0 }, now);
                    Next::Rest(Duration::from_millis(UNREADY))
                }
            },
            Answer::RestUntil(time) => Next::Rest(Duration::from_millis(time.saturating_sub(now))),
            Answer::Over => Next::End,
            _ => Next::Rest(Duration::from_millis(UNREADY)),
        }
    }

    /// What to do next; a network whose hub is not ready is not dialled.
    pub(crate) fn next(&self) -> Next {
        if self.station.slot().is_ready(self.rt) {
            return self.ask();
        }
        let is_leaving = self
            .shared
            .helm()
            .lock(self.rt)
            .is_leaving(self.station.number());
        if is_leaving {
            return self.ask();
        }
        Next::Rest(Duration::from_millis(UNREADY))
    }

    /// Whether the network is still to be dialled.
    pub(crate) fn is_awaited(&self) -> bool {
        self.shared
            .helm()
            .lock(self.rt)
            .is_awaited(self.station.number())
    }

    /// Notes that a connection is made, by these settings; whether we register.
    pub(crate) fn registers(&self, settings: &NetworkConfig, connection: &Connection) -> bool {
        let address = Vec::from_slice(self.alloc, settings.address().as_bytes());
        let (Ok(noted), Ok(address)) = (connection.share(), address) else {
            return false;
        };
        let now = self.shared.ticks(self.rt);
        let mut helm = self.shared.helm().lock(self.rt);
        helm.connect(self.station.number(), noted, address, now)
    }

    /// The other networks that are connected to the address of these settings.
    pub(crate) fn neighbours(
        &self,
        settings: &NetworkConfig,
    ) -> Result<Vec<Neighbour>, AllocError> {
        let helm = self.shared.helm().lock(self.rt);
        helm.neighbours(
            self.alloc,
            self.station.number(),
            settings.address().as_bytes(),
        )
    }

    /// Notes which channels are to be joined, if logins wait for them. If there is no memory for
    /// that, nobody waits.
    pub(crate) fn await_channels(&self, settings: &NetworkConfig) {
        let wait = self.shared.wait();
        if wait == 0 {
            return;
        }
        let channels = match all_names(self, settings) {
            Ok(channels) => channels,
            Err(_) => Vec::new(self.alloc),
        };
        self.station.joining().lock(self.rt).begin(channels, wait);
    }

    /// Notes that the network has let us in; whether it is served from now on.
    pub(crate) fn is_welcome(&self) -> bool {
        let moment = hub_threads::Clock::now(&SystemClock::of(self.rt));
        let now = self.shared.ticks(self.rt);
        let mut helm = self.shared.helm().lock(self.rt);
        helm.welcome(self.station.number(), moment, now)
    }

    /// Notes that the connection has ended. The seconds to the next dial, if there is one.
    pub(crate) fn lose(&self, chance: u64) -> Option<u64> {
        let network = self.station.number();
        let now = self.shared.ticks(self.rt);
        let mut helm = self.shared.helm().lock(self.rt);
        match helm.step(Event::Lost { network, chance }, now) {
            Answer::EndedUntil { time, .. } if !helm.is_stopping() => {
                Some(time.saturating_sub(now).div_ceil(1_000))
            }
            _ => None,
        }
    }
}
