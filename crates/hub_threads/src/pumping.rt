//! The thread that takes items into a hub.

ghost use Rattle.std.specs.Prelude.{◌≡◌, ℕ};
ghost use Rattle.hub_threads.specs.Pumping.{end_after, refused_after};

use crate::gate::{Clock, Gate, Point};
use crate::network::Network;
use crate::patience::Patience;
use crate::turns::Turns;
use hub_core::{HubError, Pumped};
use net_view::NetworkView;
use std::alloc::Global;
use std::marker::Model;
use std::sync::Wait;
use std::thread::Parker;
use std::time::Duration;

/// How many milliseconds the pump of the program rests after an allocation was refused, so that
/// it ends for lack of memory after some 10 s.
pub const REFUSED_REST: u64 = 10;

/// How many refusals for memory there may be in succession.
pub const REFUSALS: u32 = 1_000;

/// Why a pump ended.
#[derive(Clone, Copy, Debug, PartialEq, Eq)]
pub enum PumpEnd {
    /// The turns were made.
    Turns,
    /// 1,000 allocations in succession were refused. The item stays held.
    Memory,
    /// There is no number left for a message, which stays held.
    Spent,
}

/// How many allocations were refused in succession, counted up to 1,000: what decides when a
/// loop of pumps ends.
#[derive(Debug, Drop)]
pub struct Refusals {
    count: u32,
}

impl Model for Refusals {
    ghost Value = { ℕ };

    ghost view = { λ refusals. refusals.count };
}

impl Refusals {
    /// No refusal.
    pub fn none() -> Refusals
        ensures { result ≡ 0 }
    {
        Refusals { count: 0 }
    }

    /// Counts what a pump answered, and says whether the loop ends there: with `Spent` at a
    /// message without a number, with `Memory` at the thousandth refusal for memory in succession.
    /// An item, or none, begins the count again.
    pub fn note(&mut self, outcome: Result<Pumped, HubError>) -> Option<PumpEnd>
        ensures count { self.new ≡ refused_after self.old outcome }
        ensures end { result ≡ end_after self.old outcome }
    {
        match outcome {
            Ok(_) => {
                self.count = 0;
                None
            }
            Err(HubError::Spent) => Some(PumpEnd::Spent),
            Err(HubError::OutOfMemory) => {
                self.count = self.count.saturating_add(1).min(REFUSALS);
                if self.count >= REFUSALS {
                    return Some(PumpEnd::Memory);
                }
                None
            }
        }
    }
}

/// What a pump may do next.
#[derive(Clone, Copy, Debug, PartialEq, Eq)]
pub enum Permission {
    /// It may take an item.
    Take,
    /// It rests, as after a refused allocation, which this counts as.
    Rest,
    /// It ends.
    End,
}

/// Decides before each turn of a pump whether it may take an item. A number of turns is one:
/// [`Turns`].
pub trait Permit {
    /// What the pump may do in its next turn.
    fn may_take(&mut self) -> Permission;

    /// Gets what the pump answered, if it might take an item.
    fn pumped(&mut self, _outcome: Result<Pumped, HubError>) {}

    /// How many turns are left, as far as is known. If they are endless, the pump sleeps until it is
    /// woken, else at most 1 ms.
    fn left(&self) -> Turns;
}

impl Permit for Turns {
    fn may_take(&mut self) -> Permission {
        match *self {
            Turns::Endless => Permission::Take,
            Turns::AtMost(0) => Permission::End,
            Turns::AtMost(left) => {
                *self = Turns::AtMost(left - 1);
                Permission::Take
            }
        }
    }

    fn left(&self) -> Turns {
        *self
    }
}

/// Pumps as long as it is permitted, for example this many times. A turn without an item counts, and
/// so does a refused allocation: it rests for this many milliseconds then, and tries the item again.
/// The lock is taken again for each step. Without an item it sleeps until it is woken: at most
/// 1 ms, unless the turns are endless. It ends with `Turns` if it may take no more.
///
/// Before an item, sessions that packets have left nearly full are given time, outside the lock: at
/// most 50 ms for all, or 5 s while the writer of one of them needs nothing but a processor, and none
/// for a session that took nothing the last time. One that is still full is cut.
pub fn pump_loop<V: NetworkView + Drop, G: Gate, C: Clock, P: Permit + Drop, R: Wait>(
    rt: &R,
    alloc: Global,
    network: &Network<V>,
    gate: &G,
    clock: &C,
    permit: P,
    rest: u64,
) -> PumpEnd {
    // nobody rings it, so a rest is not cut short by what comes
    let bed = Parker::new();
    let mut patience = Patience::new(alloc);
    let mut refusals = Refusals::none();
    let mut permit = permit;
    for _ in rt.forever() {
        let outcome = match permit.may_take() {
            Permission::End => return PumpEnd::Turns,
            Permission::Rest => Err(HubError::OutOfMemory),
            Permission::Take => {
                gate.pass(Point::BeforeStep);
                patience.give_time(rt, network, network.bell(), clock);
                let outcome = network.lock(rt).pump();
                gate.pass(Point::AfterStep);
                permit.pumped(outcome);
                outcome
            }
        };
        if let Some(end) = refusals.note(outcome) {
            return end;
        }
        match outcome {
            Ok(Pumped::Nothing) => network.bell().doze(rt, permit.left()),
            Err(_) => bed.park_timeout(rt, Duration::from_millis(rest)),
            Ok(Pumped::Taken { .. }) => {}
        }
    }
    unreachable!()
}
