//! The ends of a hub's rings that a connection to its network works with.

use hub_threads::{InletEnd, OutletEnd, Stopper};

/// What a network's connections are read into and written from. It stays from one connection to
/// the next.
#[derive(Drop)]
pub struct Link {
    /// Where the network's lines go.
    pub inlet: InletEnd,
    /// Where the packets for the network come from.
    pub outlet: OutletEnd,
    /// Tells the writer of those packets to stop.
    pub stopper: Stopper,
}

impl Link {
    /// Drops the packets that wait for a connection which is lost.
    pub fn drop_unsent(&mut self) {
        for _ in 0..u64::MAX {
            if self.outlet.take().is_none() {
                return;
            }
        }
    }
}
