//! The thread that takes what a network sends into its hub.

use crate::anew::{Cause, OfSettings, begin_network_anew};
use crate::clock::SystemClock;
use crate::host::Host;
use crate::journaling::write_journal;
use crate::network_event::{NetworkEvent, Recalled};
use crate::shared::Shared;
use crate::slot::Slot;
use crate::station::Station;
use crate::weighing::Weighing;
use hub_core::{HubError, Pumped};
use hub_threads::{
    FreeGate, Network, Permission, Permit, PumpEnd, REFUSALS, REFUSED_REST, Turns, pump_loop,
};
use net_view::NetworkView;
use std::alloc::Global;
use std::rt::Clock;
use std::sync::Wait;
use std::thread;
use std::time::{Duration, Instant};
use weights::Weighed;

/// For how many seconds the log says nothing more about a network for which there is no memory.
const QUIET_SECONDS: u64 = 60;

/// How often a pump runs out of memory, with no item taken in between, before its network is
/// begun anew.
const PATIENCE: u32 = 3;

/// Whether it is time to log again that there is no memory, which was last logged at this moment.
fn is_due<R: Clock>(rt: &R, logged: Option<Instant>) -> bool {
    match logged {
        Some(logged) => logged
            .elapsed(rt)
            .is_ok_and(|since| since.as_secs() >= QUIET_SECONDS),
        None => true,
    }
}

/// The pump of the network in a slot. It counts how often it ran out of memory, and looks at times how
/// many bytes its network keeps.
#[derive(Drop)]
pub struct Pump<'a, V: NetworkView + Drop> {
    slot: &'a Slot<V>,
    weighing: Weighing,
    turns: Turns,
    rest: u64,
    // how often it ran out of memory with no item taken in between
    refused: u32,
}

/// This many turns, until the slot is closed or the network keeps too much.
#[derive(Drop)]
struct WhileItMay<'a, V: NetworkView + Drop, R> {
    rt: &'a R,
    slot: &'a Slot<V>,
    network: &'a Network<V>,
    weighing: &'a mut Weighing,
    turns: Turns,
}

impl<V: NetworkView + Weighed + Drop, R: Wait> WhileItMay<'_, V, R> {
    /// Looks how many bytes the network keeps, before the pump sleeps. If they are too many it does not.
    fn look_before_sleep(&mut self) {
        self.weighing.look(self.rt, self.network);
        if !self.weighing.is_over() {
            return;
        }
        if let Ok(bell) = self.network.pump_bell() {
            bell.ring();
        }
    }
}

impl<V: NetworkView + Weighed + Drop, R: Wait> Permit for WhileItMay<'_, V, R> {
    fn may_take(&mut self) -> Permission {
        if self.slot.is_closed() || self.turns.may_take() == Permission::End {
            return Permission::End;
        }
        self.weighing.note_taken(self.slot.taken_beside());
        if self.weighing.is_due() {
            self.weighing.look(self.rt, self.network);
        }
        if self.weighing.is_over() {
            Permission::End
        } else {
            Permission::Take
        }
    }

    fn pumped(&mut self, outcome: Result<Pumped, HubError>) {
        match outcome {
            Ok(Pumped::Taken { .. }) => {
                self.slot.note_change();
                self.weighing.note_taken(1);
            }
            Ok(Pumped::Nothing) => {
                if self.weighing.has_news() {
                    self.look_before_sleep();
                }
            }
            Err(HubError::OutOfMemory | HubError::Spent) => {}
        }
    }

    fn left(&self) -> Turns {
        self.turns
    }
}

impl<'a, V: NetworkView + Weighed + Drop> Pump<'a, V> {
    /// A pump that makes this many turns at a time, and rests for `rest` milliseconds after a
    /// refusal. Its network may keep `budget` bytes.
    pub fn new(slot: &'a Slot<V>, budget: u64, turns: Turns, rest: u64) -> Pump<'a, V> {
        Pump {
            slot,
            weighing: Weighing::new(budget),
            turns,
            rest,
            refused: 0,
        }
    }

    /// Pumps this network, this many times, or until its slot is closed or it keeps too much.
    fn turn<R: Wait + Clock>(
        &mut self,
        rt: &R,
        alloc: Global,
        network: &Network<V>,
        turns: Turns,
    ) -> PumpEnd {
        let permit = WhileItMay {
            rt,
            slot: self.slot,
            network,
            weighing: &mut self.weighing,
            turns,
        };
        let clock = SystemClock::of(rt);
        pump_loop(rt, alloc, network, &FreeGate, &clock, permit, self.rest)
    }

    /// Pumps for its turns, or until there is no memory or no number, or the network keeps too
    /// much. After it ran out of memory, only for the number of turns that may be refused: it runs
    /// out again only if no item was taken.
    pub fn run<R: Wait + Clock>(&mut self, rt: &R, alloc: Global) -> PumpEnd {
        let Some(network) = self.slot.network(rt) else {
            thread::sleep(rt, Duration::from_millis(self.rest));
            return PumpEnd::Turns;
        };
        let turns = if self.refused == 0 {
            self.turns
        } else {
            Turns::AtMost(u64::from(REFUSALS))
        };
        let ended = self.turn(rt, alloc, &network, turns);
        self.refused = match ended {
            PumpEnd::Memory => self.refused.saturating_add(1),
            PumpEnd::Turns | PumpEnd::Spent => 0,
        };
        ended
    }

    /// Why the network is to be begun anew, if it is: it keeps too much, or it ran out of memory
    /// three times in succession, with no item taken in between. All begins anew then.
    pub fn gives_up(&mut self) -> Option<Cause> {
        if let Some(bytes) = self.weighing.take_excess() {
            self.refused = 0;
            let budget = self.weighing.budget();
            return Some(Cause::Outgrown { bytes, budget });
        }
        if self.refused < PATIENCE {
            return None;
        }
        self.refused = 0;
        Some(Cause::NoMemory)
    }
}

/// Logs that there is no memory, if it is time to; answers when it was logged last.
fn tell_memory<R: Wait + Clock>(
    rt: &R,
    shared: &Shared,
    station: &Station,
    logged: Option<Instant>,
) -> Option<Instant> {
    if !is_due(rt, logged) {
        return logged;
    }
    shared
        .log()
        .tell(rt, &station.who(), &NetworkEvent::PumpWithoutMemory);
    Instant::now(rt).ok()
}

/// Begins a network anew for this cause, by the current settings.
fn begin_by_settings<R: Host>(
    rt: &R,
    alloc: Global,
    shared: &Shared,
    station: &Station,
    cause: Cause,
) {
    let start = OfSettings {
        rt,
        alloc,
        shared,
        station,
        cause,
    };
    // what its journal does not hold yet would be lost with it
    let _ = write_journal(rt, alloc, shared, station);
    let is_begun = begin_network_anew(rt, alloc, shared, station, cause, &start);
    // logged now, since a line of the log needs memory too
    let mut journal = station.journal().lock(rt);
    match (*journal).as_mut() {
        // the log has that already
        Some(kept) => kept.note_begun_anew(shared.ticks(rt)),
        None if is_begun => {
            let recalled = Recalled::Nothing;
            let event = NetworkEvent::BegunAnew { cause, recalled };
            shared.log().tell(rt, &station.who(), &event);
        }
        None => {}
    }
}

/// Pumps a network until no network is dialled any more, this one is closed, or its numbers are
/// spent. If there is no memory it goes on, and the log says so at most once a minute; after the
/// third time the network is begun anew, and so is one that keeps too much.
pub(crate) fn keep_pumping<R: Host>(rt: &R, alloc: Global, shared: &Shared, station: &Station) {
    let limits = shared.limits();
    let slot = station.slot();
    let mut pump = Pump::new(slot, shared.budget(), limits.turns, REFUSED_REST);
    let mut logged = None;
    for _ in rt.forever() {
        match pump.run(rt, alloc) {
            PumpEnd::Turns => {}
            PumpEnd::Memory => logged = tell_memory(rt, shared, station, logged),
            PumpEnd::Spent => {
                let log = shared.log();
                return log.tell(rt, &station.who(), &NetworkEvent::PumpSpent);
            }
        }
        if slot.is_closed() {
            return;
        }
        if let Some(cause) = pump.gives_up() {
            begin_by_settings(rt, alloc, shared, station, cause);
        }
        if shared.is_over() {
            return;
        }
    }
}
