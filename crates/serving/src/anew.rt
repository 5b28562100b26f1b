//! A network that is begun anew, since it keeps too much or memory ran out for what it sent.

use crate::journaling::begin_again;
use crate::limits::millis;
use crate::link::{Link, network_with_link};
use crate::profiles::profile_of;
use crate::shared::Shared;
use crate::slot::Slot;
use crate::station::Station;
use crate::stopping::REST;
use hub_threads::Network;
use journal_writer::Disk;
use net_view::NetworkView;
use quick_view::QuickView;
use std::alloc::{AllocError, Global};
use std::rt::Clock;
use std::sync::{Arc, Wait};
use std::thread;
use std::time::Duration;
use steward::{Answer, Event};

/// After how many seconds a start that was refused is tried again.
const PAUSE: u64 = 1;

/// Why a network is begun anew.
#[derive(Clone, Copy, Debug, PartialEq, Eq)]
pub enum Cause {
    /// It keeps more bytes than it may.
    Outgrown {
        /// How many it keeps.
        bytes: u64,
        /// How many it may.
        budget: u64,
    },
    /// There was no memory for what it sent, three times in succession.
    NoMemory,
}

impl Cause {
    /// How many bytes it counts as to keep, which are above its budget.
    fn bytes(self) -> u64 {
        match self {
            Cause::Outgrown { bytes, .. } => bytes,
            Cause::NoMemory => u64::MAX,
        }
    }
}

/// What makes a network that has received nothing, with its link.
pub trait Start<V: NetworkView + Drop> {
    /// Makes one. `AllocError` if an allocation fails.
    fn start(&self) -> Result<(Network<V>, Link), AllocError>;
}

/// What makes a network of the program, by the current settings.
#[derive(Clone, Copy)]
pub(crate) struct OfSettings<'a, R: Wait + Clock + Disk> {
    pub(crate) rt: &'a R,
    pub(crate) alloc: Global,
    pub(crate) shared: &'a Shared,
    pub(crate) station: &'a Station,
    pub(crate) cause: Cause,
}

impl<R: Wait + Clock + Disk> Start<QuickView> for OfSettings<'_, R> {
    fn start(&self) -> Result<(Network<QuickView>, Link), AllocError> {
        let OfSettings {
            rt,
            alloc,
            shared,
            station,
            cause,
        } = *self;
        let again = begin_again(rt, alloc, shared, station, cause);
        if let Some(network) = again {
            return Ok(network);
        }
        let roster = shared.roster(rt)?;
        let packets = shared.limits().packets;
        let config = roster.config();
        let profile = profile_of(alloc, config)?;
        network_with_link(alloc, config.history(), packets, profile)
    }
}

/// Makes a network in a place of its own, with its link.
fn started<V: NetworkView + Drop, S: Start<V>>(
    alloc: Global,
    start: &S,
) -> Result<(Arc<Network<V>>, Link), AllocError> {
    let (network, link) = start.start()?;
    Ok((Arc::new(alloc, network)?, link))
}

/// Begins a network anew in its slot. The one that is in it is given up, with all that it kept. A
/// new one takes its place, with its own lock, view and ends; if an allocation for it fails, it is
/// tried again each second. The thread that dials finds its link in the slot.
///
/// The caller no longer holds the network: what its view held is freed once nobody holds it.
pub fn begin_anew<V: NetworkView + Drop, S: Start<V>, R: Wait + Clock>(
    rt: &R,
    alloc: Global,
    slot: &Slot<V>,
    start: &S,
) {
    slot.clear(rt);
    for _ in rt.forever() {
        if let Ok((network, link)) = started(alloc, start) {
            slot.fill(rt, network, link);
            return;
        }
        thread::sleep(rt, Duration::from_secs(PAUSE));
    }
}

/// Has each client of a network sent its last line, and shuts the network's connection, since it keeps
/// this many bytes. Answers whether it is to be begun anew: it is not once the service ends.
fn is_given_up<R: Wait + Clock>(rt: &R, shared: &Shared, network: u64, bytes: u64) -> bool {
    for _ in rt.forever() {
        match shared.decide(rt, Event::Keeps { network, bytes }) {
            Answer::Tell { .. } => {}
            answer => return answer == Answer::BeginAnew { network },
        }
    }
    unreachable!()
}

/// Waits until the clients of a network that were sent their last lines have gone. Those that have not
/// when their time is up are hung up, because they hold what the network kept.
fn see_off<R: Wait + Clock>(rt: &R, shared: &Shared, network: u64) {
    let grace = millis(shared.limits().grace());
    let end = shared.ticks(rt).saturating_add(grace);
    for _ in rt.forever() {
        let helm = shared.helm().lock(rt);
        if !helm.has_parting(network) {
            return;
        }
        if shared.ticks(rt) >= end {
            return helm.shut_parting(network);
        }
        drop(helm);
        thread::sleep(rt, Duration::from_millis(REST));
    }
    unreachable!()
}

/// Begins a network of the program anew, for this cause: each of its clients is sent
/// `ERROR :too much memory`, its connection and theirs are shut, and a new one takes its place. `false`
/// if the service ends.
pub fn begin_network_anew<S: Start<QuickView>, R: Wait + Clock>(
    rt: &R,
    alloc: Global,
    shared: &Shared,
    station: &Station,
    cause: Cause,
    start: &S,
) -> bool {
    // before its connection is given up, so that nobody dials or enters the network that goes
    station.slot().clear(rt);
    let network = station.number();
    if !is_given_up(rt, shared, network, cause.bytes()) {
        return false;
    }
    see_off(rt, shared, network);
    begin_anew(rt, alloc, station.slot(), start);
    true
}
