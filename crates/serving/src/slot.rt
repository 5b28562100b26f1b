//! The slot that holds a network, and that stays when the network is begun anew.

use crate::journals::Journals;
use crate::link::Link;
use hub_threads::Network;
use net_view::NetworkView;
use std::alloc::{AllocError, Global};
use std::mem;
use std::sync::atomic::{AtomicBool, AtomicU64, Ordering};
use std::sync::{Arc, Mutex, Wait};

/// How many items the thread that reads a network takes into the hub itself at most, before the pump
/// looks how much its network keeps.
const BESIDE: u64 = 32;

/// What a slot holds.
#[derive(Drop)]
struct Standing<V: NetworkView + Drop> {
    // none while it is begun anew
    network: Option<Arc<Network<V>>>,
    // the link of a network that was begun anew, until the thread that dials takes it
    link: Option<Link>,
}

/// The slot of a network. The network in it is begun anew if it keeps too much, or if allocations are
/// refused for too long; its link is then that of a network that is gone. A slot is closed once nobody dials its network
/// any more.
#[derive(Drop)]
pub struct Slot<V: NetworkView + Drop> {
    standing: Mutex<Standing<V>>,
    is_closed: AtomicBool,
    // how many items the thread that reads took into the hub itself since the pump was woken for them
    beside: AtomicU64,
    // what is rung if there may be something to write
    journals: Option<Arc<Journals>>,
}

impl<V: NetworkView + Drop> Slot<V> {
    /// A slot that holds this network.
    pub fn new(alloc: Global, network: Network<V>) -> Result<Slot<V>, AllocError> {
        Ok(Slot {
            standing: Mutex::new(Standing {
                network: Some(Arc::new(alloc, network)?),
                link: None,
            }),
            is_closed: AtomicBool::new(false),
            beside: AtomicU64::new(0),
            journals: None,
        })
    }

    /// The same slot, whose network is kept over a restart.
    pub(crate) fn with_journals(self, journals: Arc<Journals>) -> Slot<V> {
        Slot {
            journals: Some(journals),
            ..self
        }
    }

    /// Says that something of the network may have changed that is to be written.
    pub(crate) fn note_change(&self) {
        if let Some(journals) = &self.journals {
            journals.ring();
        }
    }

    /// The network; `None` while it is begun anew, and if the slot is closed.
    pub fn network<R: Wait>(&self, rt: &R) -> Option<Arc<Network<V>>> {
        let standing = self.standing.lock(rt);
        match &standing.network {
            Some(network) => Arc::try_clone(network).ok(),
            None => None,
        }
    }

    /// Takes what the thread that reads has put into the hub, if the pump sleeps; whether nothing
    /// is left, so that it may sleep on. After 32 items the pump is woken. What the sessions were sent
    /// is noted with this moment, at most once in a second.
    pub(crate) fn pump_beside<R: Wait>(&self, rt: &R, now: u64) -> bool {
        let Some(network) = self.network(rt) else {
            return false;
        };
        let most = BESIDE.saturating_sub(self.beside.load(Ordering::SeqCst));
        let beside = network.pump_beside(rt, most);
        network.note_sent(rt, now);
        self.beside.fetch_add(beside.taken, Ordering::SeqCst);
        if beside.taken > 0 {
            self.note_change();
        }
        beside.is_done
    }

    /// How many items the thread that reads took into the hub itself since this was asked last.
    pub(crate) fn taken_beside(&self) -> u64 {
        self.beside.swap(0, Ordering::SeqCst)
    }

    /// The link of the network that it holds: this one, or that of the network begun anew since.
    pub fn link_of_now<R: Wait>(&self, rt: &R, link: Link) -> Link {
        let newer = self.standing.lock(rt).link.take();
        match newer {
            Some(newer) => newer,
            None => link,
        }
    }

    /// Whether it holds a network whose link was taken.
    fn is_linked<R: Wait>(&self, rt: &R) -> bool {
        let standing = self.standing.lock(rt);
        standing.network.is_some() && standing.link.is_none()
    }

    /// Whether the network can be dialled: its link was taken, and its hub has taken the loss of its
    /// last connection.
    pub(crate) fn is_ready<R: Wait>(&self, rt: &R) -> bool {
        let Some(network) = self.network(rt) else {
            return false;
        };
        let is_online = network.lock(rt).is_online();
        !is_online && self.is_linked(rt)
    }

    /// Whether nobody dials its network any more.
    pub(crate) fn is_closed(&self) -> bool {
        self.is_closed.load(Ordering::SeqCst)
    }

    /// Takes the network out for good, and has its pump end. What it held is freed as soon as its
    /// last client has gone.
    pub(crate) fn close<R: Wait>(&self, rt: &R) {
        self.is_closed.store(true, Ordering::SeqCst);
        let gone = self.standing.lock(rt).network.take();
        if let Some(network) = gone {
            if let Ok(bell) = network.pump_bell() {
                bell.ring();
            }
        }
    }

    /// Takes the network out that is to be begun anew.
    pub(crate) fn clear<R: Wait>(&self, rt: &R) {
        let empty = Standing {
            network: None,
            link: None,
        };
        // freed outside the lock
        let gone = mem::replace(&mut *self.standing.lock(rt), empty);
        drop(gone);
    }

    /// Puts a network into the slot that was cleared, with its link.
    pub(crate) fn fill<R: Wait>(&self, rt: &R, network: Arc<Network<V>>, link: Link) {
        let mut standing = self.standing.lock(rt);
        if self.is_closed() {
            return;
        }
        standing.network = Some(network);
        standing.link = Some(link);
    }
}
