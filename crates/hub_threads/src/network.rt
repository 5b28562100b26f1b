//! A hub behind one lock.

ghost use Rattle.std.specs.Prelude.{ℕ, ◌≡◌, ◌<◌, [], IfOk, None, false, true};
ghost use Rattle.std.specs.Sync.Mutex.{mutex_guard_value};
ghost use Rattle.history.specs.Messages.{AreKeptBefore, is_capacity};
ghost use Rattle.hub_core.specs.Bounds.{IsBounded};
ghost use Rattle.hub_core.specs.LostChannels.{lost_channels};
ghost use Rattle.hub_core.specs.Online.{is_online};
ghost use Rattle.hub_core.specs.Running.{EachAgrees, IsRunning};
ghost use Rattle.hub_core.specs.States.{heard, view_now};
ghost use Rattle.hub_threads.specs.Rings.{ArePacketEnds, capacity_of, closed_of};
ghost use Rattle.hub_threads.specs.Rings.{end_capacity_of, free_of, items_of, put_of, sent_of};
ghost use Rattle.hub_threads.specs.Rings.{slots_of, told_of};
ghost use Rattle.net_view.specs.View.{empty_view};

use crate::OutOfMemory;
use crate::bell::{Bell, SharedBell, shared_bell};
use crate::inlet_ring::{InletEnd, RingInlet, inlet};
use crate::outlet_end::OutletEnd;
use crate::outlet_pair::outlet;
use crate::outlet_ring::RingOutlet;
use history::CapacityError;
use hub_core::{Hub, Past, Profile, Pumped, Setup};
use hub_ends::SessionId;
use net_view::NetworkView;
use std::alloc::{AllocError, Global};
use std::sync::atomic::AtomicU64;
use std::sync::{Arc, Mutex, MutexGuard, Wait};

/// A hub whose ends are rings.
pub type RingHub<V> = Hub<V, RingInlet, RingOutlet>;

/// A hub behind one lock, and what its pump sleeps on.
#[derive(Drop)]
pub struct Network<V: NetworkView + Drop> {
    hub: Mutex<Hub<V, RingInlet, RingOutlet>>,
    pump: SharedBell,
    // when it was noted last what the sessions were sent
    pub(crate) noted: AtomicU64,
}

/// What a thread did that takes items into a hub while its pump sleeps.
#[derive(Clone, Copy, Debug, PartialEq, Eq)]
pub struct Beside {
    /// How many items it took.
    pub taken: u64,
    /// Whether nothing is left to take. If not, the pump has to be woken.
    pub is_done: bool,
}

/// A network, and the other ends of its rings.
#[derive(Drop)]
pub struct Started<V: NetworkView + Drop> {
    /// The network.
    pub network: Network<V>,
    /// The end that its items are put into.
    pub inlet: InletEnd,
    /// The end that what it sends to the network is taken from.
    pub outlet: OutletEnd,
}

impl<V: NetworkView + Drop> Network<V> {
    /// A network with nothing received: a hub of these parts, whose rings hold this many items and
    /// packets at a time, and wake its own pump. `OutOfMemory` if an allocation was
    /// refused, and for no other cause.
    pub fn start(
        alloc: Global,
        view: V,
        setup: Setup,
        items: usize,
        packets: usize,
    ) -> Result<Started<V>, OutOfMemory>
        requires view { V.view view ≡ empty_view }
        requires history { is_capacity setup.history ≡ true }
        requires items { 0 < items }
        requires packets { 0 < packets }
        ensures inlet { IfOk result (λ s. (put_of s.inlet ≡ []) × (slots_of s.inlet ≡ items)) }
        ensures outlet { IfOk result (λ s. (items_of s.outlet ≡ []) ×
            (end_capacity_of s.outlet ≡ packets)) }
    {
        Network::start_by(alloc, view, setup, items, packets, Profile::whole(alloc))
    }

    /// A network with nothing received, as `start` makes it, whose hub keeps messages and plays
    /// them back by this profile. The hub of `start` keeps each message.
    pub fn start_by(
        alloc: Global,
        view: V,
        setup: Setup,
        items: usize,
        packets: usize,
        profile: Profile,
    ) -> Result<Started<V>, OutOfMemory>
        requires view { V.view view ≡ empty_view }
        requires history { is_capacity setup.history ≡ true }
        requires items { 0 < items }
        requires packets { 0 < packets }
        ensures inlet { IfOk result (λ s. (put_of s.inlet ≡ []) × (slots_of s.inlet ≡ items)) }
        ensures outlet { IfOk result (λ s. (items_of s.outlet ≡ []) ×
            (end_capacity_of s.outlet ≡ packets)) }
    {
        let pump = shared_bell(alloc)?;
        let (end, items) = inlet(alloc, items, Arc::try_clone(&pump)?)?;
        let (upstream, outlet) = outlet(alloc, packets, Arc::try_clone(&pump)?)?;
        match Hub::start_by(alloc, view, items, upstream, setup, profile) {
            Ok(hub) => Ok(Started {
                network: Network::new(hub, pump),
                inlet: end,
                outlet,
            }),
            Err(CapacityError::OutOfMemory) => Err(AllocError),
            Err(CapacityError::BadCapacity) => unreachable!(),
        }
    }

    /// A network with nothing received since: a hub that goes on from what was before, as
    /// `Hub::start_again` has it, with this profile, whose rings hold this many items and packets
    /// at a time, and wake its own pump. `OutOfMemory` if an allocation was refused, and for no
    /// other cause.
    pub fn start_again(
        alloc: Global,
        view: V,
        past: Past,
        first_session: SessionId,
        items: usize,
        packets: usize,
        profile: Profile,
    ) -> Result<Started<V>, OutOfMemory>
        requires view { V.view view ≡ empty_view }
        requires kept { (first : ℕ) × AreKeptBefore first past.history }
        requires items { 0 < items }
        requires packets { 0 < packets }
        ensures inlet { IfOk result (λ s. (put_of s.inlet ≡ []) × (slots_of s.inlet ≡ items)) }
        ensures outlet { IfOk result (λ s. (items_of s.outlet ≡ []) ×
            (end_capacity_of s.outlet ≡ packets)) }
    {
        let pump = shared_bell(alloc)?;
        let (end, items) = inlet(alloc, items, Arc::try_clone(&pump)?)?;
        let (upstream, taken) = outlet(alloc, packets, Arc::try_clone(&pump)?)?;
        let hub = Hub::start_again(alloc, view, items, upstream, past, first_session, profile);
        Ok(Started {
            network: Network::new(hub, pump),
            inlet: end,
            outlet: taken,
        })
    }

    /// The hub behind a lock. `pump` is what its ends wake the pump by: the bell that `inlet` and
    /// `outlet` were given. [`start`](Network::start) makes all of these together.
    pub fn new(hub: Hub<V, RingInlet, RingOutlet>, pump: SharedBell) -> Network<V> {
        Network {
            hub: Mutex::new(hub),
            pump,
            noted: AtomicU64::new(0),
        }
    }

    /// Waits for the lock. Through what it answers, the hub's own calls are made. Whenever the lock
    /// is free, what holds of every hub holds of this one: its view is that of what was taken, and
    /// each session's client knows from its lines what its capabilities let it know of all that came
    /// since it attached or changed them; so these lines agree with the view. The hub has at most 64
    /// sessions and 64 client names, and keeps messages to at most 128 targets.
    pub fn lock<R: Wait>(&self, rt: &R) -> MutexGuard<'_, Hub<V, RingInlet, RingOutlet>>
        ensures running { IsRunning (mutex_guard_value result) (view_now (mutex_guard_value result))
            (is_online (heard (mutex_guard_value result)))
            (lost_channels (heard (mutex_guard_value result))) }
        ensures agree { EachAgrees (view_now (mutex_guard_value result))
            (mutex_guard_value result).sessions }
        ensures bounded { IsBounded (mutex_guard_value result) }
    {
        let hub = self.hub.lock(rt);
        hub.is_running();
        hub
    }

    /// What the pump of this network sleeps on.
    pub(crate) fn bell(&self) -> &Bell {
        &self.pump
    }

    /// Both ends of a ring for a session of this network, for this many packets at a time: its
    /// pump is woken by it when it waits for room. `OutOfMemory` if an allocation was
    /// refused, and for no other cause.
    pub fn outlet(
        &self,
        alloc: Global,
        capacity: usize,
    ) -> Result<(RingOutlet, OutletEnd), OutOfMemory>
        requires { 0 < capacity }
        ensures outlet { IfOk result (λ r. (sent_of r.0 ≡ []) × (closed_of r.0 ≡ None) ×
            (capacity_of r.0 ≡ capacity) × (free_of r.0 ≡ capacity) × (told_of r.0 ≡ None)) }
        ensures end { IfOk result (λ r. (items_of r.1 ≡ []) × (end_capacity_of r.1 ≡ capacity)) }
        ensures ends { IfOk result (λ r. ArePacketEnds r.0 r.1) }
    {
        outlet(alloc, capacity, self.pump_bell()?)
    }

    /// Whether a session is nearly full, of those that packets have left so. The pump, if it looks
    /// next, learns it too.
    fn is_crowded(&self, hub: &mut RingHub<V>) -> bool {
        if !self.pump.take_tight() || hub.nearly_full().is_ok_and(|lagging| lagging.is_empty()) {
            return false;
        }
        self.pump.note_tight();
        true
    }

    /// Takes items into the hub if its pump sleeps, and as long as no session is nearly full: at
    /// most this many. For the thread that has put some, which so spares waking the pump. The lock
    /// is taken again for each item.
    pub fn pump_beside<R: Wait>(&self, rt: &R, most: u64) -> Beside {
        let mut beside = Beside {
            taken: 0,
            is_done: false,
        };
        if !self.pump.is_drowsy() {
            return beside;
        }
        for _ in 0..most {
            let mut hub = self.lock(rt);
            if self.is_crowded(&mut hub) {
                break;
            }
            match hub.pump() {
                Ok(Pumped::Taken { .. }) => beside.taken = beside.taken.saturating_add(1),
                Ok(Pumped::Nothing) => {
                    beside.is_done = true;
                    break;
                }
                Err(_) => break,
            }
        }
        beside
    }

    /// What the pump of this network sleeps on, to make outlets with.
    pub fn pump_bell(&self) -> Result<SharedBell, OutOfMemory> {
        Ok(Arc::try_clone(&self.pump)?)
    }
}
