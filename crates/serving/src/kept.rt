//! How much a network keeps.

use history::Entry;
use hub_threads::Network;
use net_view::NetworkView;
use std::alloc::{AllocError, Global};
use std::sync::Wait;

/// How many messages a network keeps, and how many bytes their sources, commands, targets, texts and
/// times have.
#[derive(Clone, Copy, Debug, PartialEq, Eq)]
pub struct Kept {
    /// The messages.
    pub messages: usize,
    /// The bytes.
    pub bytes: usize,
}

/// How many bytes the parts of a message have.
fn size_of(entry: &Entry) -> usize {
    let from = entry.source().len().saturating_add(entry.command().len());
    let to = entry.target().len().saturating_add(entry.text().len());
    from.saturating_add(to).saturating_add(entry.time().len())
}

impl Kept {
    /// What a network keeps. `AllocError` if the count can't be allocated.
    pub fn by<V: NetworkView + Drop, R: Wait>(
        rt: &R,
        alloc: Global,
        network: &Network<V>,
    ) -> Result<Kept, AllocError> {
        let hub = network.lock(rt);
        let Ok(entries) = hub.history().missed(alloc, None) else {
            return Err(AllocError);
        };
        let mut bytes = 0usize;
        for entry in &entries {
            bytes = bytes.saturating_add(size_of(entry));
        }
        let messages = entries.len();
        Ok(Kept { messages, bytes })
    }
}
