//! A client name that a control word asks to forget.

use crate::control_event::ControlEvent;
use crate::shared::Shared;
use crate::station::Station;
use std::rt::Clock;
use std::sync::Wait;

/// What is before the first such byte, and what is after it.
fn cut(text: &[u8], byte: u8) -> Option<(&[u8], &[u8])> {
    let place = text.iter().position(|other| *other == byte)?;
    let (front, rest) = text.split_at(place);
    match rest {
        [_, after @ ..] => Some((front, after)),
        [] => None,
    }
}

/// Whether a network has these names.
fn is_called(station: &Station, user: &[u8], network: &[u8]) -> bool {
    let who = station.who();
    who.user == user && who.network == network
}

/// Forgets a client name of a network, and logs whether that was done.
fn forget_of<R: Wait + Clock>(rt: &R, shared: &Shared, station: &Station, name: &[u8]) {
    let Some(network) = station.slot().network(rt) else {
        return;
    };
    let forgotten = network.lock(rt).forget(name);
    let event = match forgotten {
        Ok(()) => ControlEvent::Forgotten { name },
        Err(why) => ControlEvent::NotForgotten { name, why },
    };
    station.slot().note_change();
    shared.log().tell(rt, &station.who(), &event);
}

/// Forgets the client name of `USER/NETWORK NAME`: the next client of that name gets all messages
/// that are kept. The log says what was done.
pub(crate) fn forget<R: Wait + Clock>(rt: &R, shared: &Shared, line: &[u8]) {
    let Ok(roster) = shared.roster(rt) else {
        return;
    };
    if let Some((user, rest)) = cut(line, b'/') {
        if let Some((network, name)) = cut(rest, b' ') {
            for (_, station) in roster.networks() {
                if is_called(station, user, network) {
                    return forget_of(rt, shared, station, name);
                }
            }
        }
    }
    shared
        .log()
        .tell(rt, &"bnc", &ControlEvent::NoNetwork { line });
}
