//! What a client sends, over its connection, to its network and that network's other clients.

use crate::connection::Connection;
use crate::hearing::Heard;
use hub_ends::Outlet;
use hub_threads::Network;
use quick_view::QuickView;
use shell::{Neighbours, lines_left};
use std::rt::Clock;
use std::sync::atomic::{AtomicBool, Ordering};
use std::sync::{Arc, Wait};

/// What reads a client.
pub(crate) type ClientInput<'a, R> = shell::ClientInput<'a, Heard<'a, R>, Others<'a, R>, R>;

/// A network and its clients, as one of them sees them.
#[derive(Drop)]
pub(crate) struct Others<'a, R: Wait> {
    pub(crate) rt: &'a R,
    pub(crate) network: Arc<Network<QuickView>>,
    /// Whether the client's capabilities were changed, as its watcher notes it.
    pub(crate) changed: Arc<AtomicBool>,
}

impl<R: Wait> Neighbours for Others<'_, R> {
    /// Whether what goes to the network has less than half of its room, or a session of the network
    /// is nearly full. While the network is lost no line goes there, so its room does not count.
    fn is_crowded(&self) -> bool {
        let mut hub = self.network.lock(self.rt);
        let half = hub.upstream_outlet().capacity() / 2;
        if hub.is_online() && hub.upstream_free() < half {
            return true;
        }
        match hub.nearly_full() {
            Ok(sessions) => !sessions.is_empty(),
            Err(_) => false,
        }
    }

    fn take_changed(&self) -> bool {
        self.changed.swap(false, Ordering::SeqCst)
    }
}

/// Shuts a client's connection, and answers how many lines of its session were not handed on.
pub(crate) fn unsaid<R: Wait + Clock>(input: &ClientInput<'_, R>, connection: &Connection) -> u64 {
    connection.hang_up();
    let mut stream = connection.stream();
    input.unsaid().saturating_add(lines_left(&mut stream))
}
