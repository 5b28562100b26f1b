//! A network that is served, by its names, until the settings no longer have it.

use crate::bursts::Bursts;
use crate::joining::Joining;
use crate::journals::Journals;
use crate::kept_journal::KeptJournal;
use crate::limits::Limits;
use crate::link::{Link, network_with_link};
use crate::profiles::profile_of;
use crate::shown::Who;
use crate::slot::Slot;
use bnc_config::Config;
use quick_view::QuickView;
use shell::{NickTries, Pace, Repeats};
use std::alloc::{AllocError, Global};
use std::sync::{Arc, Mutex, Wait};
use std::thread::Parker;
use std::time::Duration;
use steward::Channels;

/// Above how many bytes that a network keeps a burst of it counts as long: it may have as many.
const LONG: u64 = 1_048_576;

/// A network that is served. It is known by its user's name and its own, and stays the same while
/// its settings change.
#[derive(Drop)]
pub struct Station {
    user: Vec<u8>,
    name: Vec<u8>,
    number: u64,
    // the number of both names
    label: u64,
    slot: Slot<QuickView>,
    // what keeps it over a restart, if it is kept
    journal: Mutex<Option<KeptJournal>>,
    // the channels that are joined after the registration
    joining: Mutex<Joining>,
    // the long bursts that wait for their writers
    bursts: Bursts,
    // at which its clients may speak, all together
    pace: Pace,
    // how the last dial ended, and how often others ended alike after it
    repeats: Mutex<Repeats>,
    // how often in succession the nick of a registration was refused
    nick_tries: Mutex<NickTries>,
    // on which the thread that dials rests
    bed: Parker,
}

/// A network that is served from now on, and its link, for the thread that dials.
#[derive(Drop)]
pub struct Begun {
    pub(crate) station: Arc<Station>,
    pub(crate) link: Link,
}

impl Begun {
    /// A network of this number and these names that has received nothing, by these settings.
    pub(crate) fn new(
        alloc: Global,
        who: Who<'_>,
        numbers: (u64, u64),
        config: &Config,
        limits: &Limits,
        journals: Arc<Journals>,
    ) -> Result<Begun, AllocError> {
        let profile = profile_of(alloc, config)?;
        let history = config.history();
        let (hub, link) = network_with_link(alloc, history, limits.packets, profile)?;
        let (number, label) = numbers;
        let station = Station {
            user: Vec::from_slice(alloc, who.user)?,
            name: Vec::from_slice(alloc, who.network)?,
            number,
            label,
            slot: Slot::new(alloc, hub)?.with_journals(journals),
            journal: Mutex::new(None),
            joining: Mutex::new(Joining::new(alloc)),
            bursts: Bursts::new(alloc)?,
            pace: Pace::new(limits.burst, limits.pace),
            repeats: Mutex::new(Repeats::new()),
            nick_tries: Mutex::new(NickTries::new()),
            bed: Parker::new(),
        };
        Ok(Begun {
            station: Arc::new(alloc, station)?,
            link,
        })
    }
}

impl Station {
    /// Its user's name and its own.
    pub fn who(&self) -> Who<'_> {
        Who {
            user: self.user.as_slice(),
            client: None,
            network: self.name.as_slice(),
        }
    }

    /// Its number, which no other network has or had.
    pub(crate) fn number(&self) -> u64 {
        self.number
    }

    /// The number of both names.
    pub(crate) fn label(&self) -> u64 {
        self.label
    }

    /// The slot of its hub.
    pub fn slot(&self) -> &Slot<QuickView> {
        &self.slot
    }

    /// What keeps it over a restart, if it is kept.
    pub(crate) fn journal(&self) -> &Mutex<Option<KeptJournal>> {
        &self.journal
    }

    /// The channels that are joined after the registration. A thread that holds the hub's lock does
    /// not take this one.
    pub(crate) fn joining(&self) -> &Mutex<Joining> {
        &self.joining
    }

    /// How far their joining is at this time.
    pub(crate) fn channels<R: Wait>(&self, rt: &R, now: u64) -> Channels {
        let mut joining = self.joining.lock(rt);
        if !joining.is_open(now) {
            return joining.channels(now);
        }
        if let Some(network) = self.slot.network(rt) {
            joining.leave_out(network.lock(rt).view());
        }
        joining.channels(now)
    }

    /// Whether it keeps so much that the burst of a client may have more than 1 MiB.
    pub(crate) fn may_burst_long<R: Wait>(&self, rt: &R) -> bool {
        match self.slot.network(rt) {
            Some(network) => network.lock(rt).kept_bytes() > LONG,
            None => false,
        }
    }

    /// Its long bursts that wait for their writers.
    pub(crate) fn bursts(&self) -> &Bursts {
        &self.bursts
    }

    /// At which pace its clients may speak, all together.
    pub(crate) fn pace(&self) -> &Pace {
        &self.pace
    }

    /// How the last dial ended, and how often others ended alike after it.
    pub(crate) fn repeats(&self) -> &Mutex<Repeats> {
        &self.repeats
    }

    /// How often in succession the nick of a registration was refused.
    pub(crate) fn nick_tries(&self) -> &Mutex<NickTries> {
        &self.nick_tries
    }

    /// Rests for this time, or until it is woken.
    pub(crate) fn rest<R: Wait>(&self, rt: &R, time: Duration) {
        self.bed.park_timeout(rt, time);
    }

    /// Wakes the thread that dials, if it rests.
    pub(crate) fn wake(&self) {
        self.bed.unpark();
    }
}
