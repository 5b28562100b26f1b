//! Whether a network keeps more than it may.

use hub_threads::Network;
use net_view::NetworkView;
use std::sync::Wait;
use weights::Weighed;

/// After how many items a pump looks how many bytes its network keeps.
const ITEMS: u64 = 32;

/// How many bytes a network may keep, and whether it was found to keep more.
#[derive(Drop)]
pub(crate) struct Weighing {
    budget: u64,
    // how many items came since its bytes were looked at
    items: u64,
    // how many bytes it keeps, if it was found to keep too many
    excess: Option<u64>,
}

impl Weighing {
    /// That of a network that may keep this many bytes, and has taken no item yet.
    pub(crate) fn new(budget: u64) -> Weighing {
        Weighing {
            budget,
            items: 0,
            excess: None,
        }
    }

    /// How many bytes the network may keep.
    pub(crate) fn budget(&self) -> u64 {
        self.budget
    }

    /// Notes that this many items were taken.
    pub(crate) fn note_taken(&mut self, items: u64) {
        self.items = self.items.saturating_add(items);
    }

    /// Whether any item came since its bytes were looked at.
    pub(crate) fn has_news(&self) -> bool {
        self.items > 0
    }

    /// Whether its bytes are to be looked at although more items wait.
    pub(crate) fn is_due(&self) -> bool {
        self.items >= ITEMS
    }

    /// Looks how many bytes the network keeps.
    pub(crate) fn look<V: NetworkView + Weighed + Drop, R: Wait>(
        &mut self,
        rt: &R,
        network: &Network<V>,
    ) {
        self.items = 0;
        let bytes = network.lock(rt).kept_bytes();
        if bytes > self.budget {
            self.excess = Some(bytes);
        }
    }

    /// Whether it was found to keep too many.
    pub(crate) fn is_over(&self) -> bool {
        self.excess.is_some()
    }

    /// How many bytes it keeps, if it was found to keep too many since this was asked last.
    pub(crate) fn take_excess(&mut self) -> Option<u64> {
        self.excess.take()
    }
}
