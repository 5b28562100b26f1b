//! What a client has seen that left its session.

use crate::connection::Connection;
use crate::guest::Guest;
use crate::limits::millis;
use hub_core::Seen;
use receipts::{End, Parting};
use sessions::Leave;
use std::rt::Clock;
use std::sync::Wait;

/// How a session ended over this connection, for this reason.
fn end_of(connection: &Connection, why: Leave) -> End {
    match why {
        Leave::Quit => End::Quit,
        _ if connection.farewell().is_some() => End::Ordered,
        Leave::EndOfInput | Leave::ReadFault if connection.was_closed() => End::Closed,
        Leave::EndOfInput | Leave::ReadFault => End::Fault,
        Leave::Cut | Leave::TooLong | Leave::OutOfMemory => End::GivenUp,
    }
}

/// What a client has seen whose session ended for this reason, as far as it is sure.
pub(crate) fn seen_by<R: Wait + Clock>(guest: &Guest<'_, R>, why: Leave) -> Seen {
    let Some((network, id)) = guest.ear.session() else {
        return Seen::All;
    };
    let parting = Parting {
        end: end_of(guest.connection, why),
        is_proxied: guest.is_proxied,
        heard: guest.ear.last(),
        margin: millis(guest.shared.limits().receipt),
    };
    network.left_by(guest.rt, id, parting)
}
