//! What the clients of a network have surely received.

use crate::network::{Network, RingHub};
use hub_core::Seen;
use hub_ends::SessionId;
use net_view::NetworkView;
use receipts::{Left, Parting};
use std::sync::Wait;
use std::sync::atomic::Ordering;

/// How many milliseconds lie between two looks at what the sessions were sent, at least.
const LOOK: u64 = 1_000;

/// What a hub records for a client that has surely received this.
fn seen_by(left: Left) -> Seen {
    match left {
        Left::All => Seen::All,
        Left::UpTo(number) => Seen::UpTo(number),
    }
}

/// Notes what a session has been sent by now, if there was a message.
fn note_session<V: NetworkView + Drop, R: Wait>(rt: &R, hub: &RingHub<V>, id: SessionId, now: u64) {
    if let (Some(outlet), Some(number)) = (hub.outlet(id), hub.history().last_number()) {
        outlet.note_sent(rt, number, now);
    }
}

impl<V: NetworkView + Drop> Network<V> {
    /// Notes what each session has been sent by now, and so how much of it had been written by which
    /// moment. `now` is in milliseconds since any moment that stays the same. Within a second after
    /// the last time it does nothing, and takes no lock. It is best effort: if an allocation is
    /// refused for a session, less is known of it.
    pub fn note_sent<R: Wait>(&self, rt: &R, now: u64) {
        if now.saturating_sub(self.noted.load(Ordering::SeqCst)) < LOOK {
            return;
        }
        self.noted.store(now, Ordering::SeqCst);
        let hub = self.lock(rt);
        for i in 0..usize::MAX {
            let Some((id, _)) = hub.session_at(i) else {
                break;
            };
            note_session(rt, &hub, id, now);
        }
    }

    /// The same of one session, whose client was heard, at any time.
    pub fn note_sent_to<R: Wait>(&self, rt: &R, id: SessionId, now: u64) {
        note_session(rt, &self.lock(rt), id, now);
    }

    /// What the client of a session has seen that ended so, as far as it is sure: all messages, unless
    /// it ended by a fault.
    pub fn left_by<R: Wait>(&self, rt: &R, id: SessionId, parting: Parting) -> Seen {
        let hub = self.lock(rt);
        match hub.outlet(id) {
            Some(outlet) => seen_by(outlet.left_by(rt, parting)),
            None => Seen::All,
        }
    }
}
