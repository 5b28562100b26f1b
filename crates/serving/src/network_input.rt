//! What a network sends, over its connection.

use crate::opening::Opened;
use crate::slot::Slot;
use quick_view::QuickView;
use shell::OnSilence;
use std::sync::Wait;

/// What reads a network.
pub(crate) type NetworkInput<'a, R> = shell::NetworkInput<'a, Opened<'a, R>, KeepAlive<'a, R>, R>;

/// Asks a silent network for a sign of life.
#[derive(Drop)]
pub(crate) struct KeepAlive<'a, R: Wait> {
    pub(crate) rt: &'a R,
    pub(crate) slot: &'a Slot<QuickView>,
}

impl<R: Wait> OnSilence for KeepAlive<'_, R> {
    fn silent(&mut self) {
        if let Some(network) = self.slot.network(self.rt) {
            let _ = network.lock(self.rt).keepalive();
        }
    }
}
