//! Time for sessions that lag.

use crate::bell::Bell;
use crate::gate::Clock;
use crate::network::Network;
use hub_ends::SessionId;
use net_view::NetworkView;
use std::alloc::Global;
use std::sync::Wait;

/// How many milliseconds sessions that are nearly full are given at most before an item, all
/// together, if their clients hold them up.
const PATIENCE: u64 = 50;

/// The same while the writer of one of them needs nothing but a processor: the machine is
/// overloaded, and the client may well read.
const OVERLOAD: u64 = 5_000;

/// How often it looks at most whether they still are: each writer may wake it, so the time counts
/// by a clock that nobody sets, and this ends the wait if that clock stops.
const LOOKS: u64 = 20_000;

/// How far a writer is: how many items it has taken, and how often it has written.
type Progress = (u64, u64);

/// A session that is nearly full.
#[derive(Clone, Copy)]
struct Lagging {
    id: SessionId,
    progress: Progress,
    // its writer needs nothing but a processor
    needs_processor: bool,
}

/// How many milliseconds these sessions are given at most.
fn time_for(lagging: &[Lagging]) -> u64 {
    if lagging.is_empty() {
        0
    } else if lagging.iter().any(|one| one.needs_processor) {
        OVERLOAD
    } else {
        PATIENCE
    }
}

/// The sessions that no more time is spent on: those that took and wrote nothing while they were
/// given time, each until it does.
#[derive(Drop)]
pub struct Patience {
    alloc: Global,
    // each with how far its writer was
    stalled: Vec<(SessionId, Progress)>,
}

impl Patience {
    /// Patience with everybody.
    pub fn new(alloc: Global) -> Patience {
        Patience {
            alloc,
            stalled: Vec::new(alloc),
        }
    }

    /// Whether it was waited for this session in vain, and it has got no further since.
    fn is_lost_with(&self, id: SessionId, progress: Progress) -> bool {
        self.stalled
            .iter()
            .any(|stalled| stalled.0 == id && stalled.1 == progress)
    }

    /// Gives sessions that the last packets have left nearly full time to take some, outside the
    /// lock: at most 50 ms for all together, or 5 s while the writer of one of them needs nothing but a
    /// processor (what it writes to took all of its last call), and less if none is nearly full
    /// any longer. If no packet has left a session nearly full since the last call, it takes no
    /// lock. It sleeps on `bell`, at most 1 ms a time; if that is the bell of the network's pump, a
    /// writer that has taken all that it knew of wakes it. A session that took and wrote nothing is
    /// not waited for again until it does.
    ///
    /// It is best effort: if an allocation is refused, a session is given no time.
    pub fn give_time<V: NetworkView + Drop, C: Clock, R: Wait>(
        &mut self,
        rt: &R,
        network: &Network<V>,
        bell: &Bell,
        clock: &C,
    ) {
        if !network.bell().take_tight() {
            return;
        }
        let waited = self.lagging(rt, network);
        if waited.is_empty() {
            return;
        }
        bell.set_awaits_room(true);
        let began = clock.ticks();
        for _ in 0..LOOKS {
            bell.nap(rt);
            let left = self.lagging(rt, network);
            if clock.ticks().saturating_sub(began) >= time_for(left.as_slice()) {
                break;
            }
        }
        bell.set_awaits_room(false);
        self.note(rt, network, waited);
    }

    /// The sessions that are nearly full and worth waiting for.
    fn lagging<V: NetworkView + Drop, R: Wait>(
        &self,
        rt: &R,
        network: &Network<V>,
    ) -> Vec<Lagging> {
        let mut found = Vec::new(self.alloc);
        let mut hub = network.lock(rt);
        let Ok(ids) = hub.nearly_full() else {
            return found;
        };
        for id in ids {
            if let Some(outlet) = hub.outlet(id) {
                let one = Lagging {
                    id,
                    progress: outlet.progress(),
                    needs_processor: outlet.needs_processor(),
                };
                if !self.is_lost_with(id, one.progress) && found.push(one).is_err() {
                    break;
                }
            }
        }
        found
    }

    /// Remembers those that got no further, of those waited for and those known before.
    fn note<V: NetworkView + Drop, R: Wait>(
        &mut self,
        rt: &R,
        network: &Network<V>,
        waited: Vec<Lagging>,
    ) {
        let hub = network.lock(rt);
        let mut stalled = Vec::new(self.alloc);
        let waited = waited.iter().map(|one| (one.id, one.progress));
        for (id, progress) in waited.chain(self.stalled.iter().copied()) {
            if let Some(outlet) = hub.outlet(id) {
                if outlet.progress() == progress && stalled.push((id, progress)).is_err() {
                    break;
                }
            }
        }
        self.stalled = stalled;
    }
}
