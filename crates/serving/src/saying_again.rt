//! What a client asked for over one connection, and is asked for again over the next: AWAY, and the
//! nick that we want.

use crate::dialling::Dialling;
use crate::tables::Neighbour;
use bnc_config::NetworkConfig;
use irc_line::{Line, MakeError};
use irc_names::CaseMapping;
use net_view::NetworkView;
use shell::{Holder, NickNews, Regain};
use std::alloc::{AllocError, Global};
use std::rt::Clock;
use std::sync::Wait;

/// `AWAY :text`; nothing if a text can't be sent so.
fn away_of(alloc: Global, text: &[u8]) -> Result<Vec<u8>, AllocError> {
    let mut bytes = Vec::new(alloc);
    match Line::make(alloc, None, b"AWAY", &[text]) {
        Ok(line) => line.write(&mut bytes)?,
        Err(MakeError::NotALine) => {}
        Err(MakeError::OutOfMemory) => return Err(AllocError),
    }
    Ok(bytes)
}

/// `AWAY :text`, if the settings have it sent again and we were away by that text; else nothing.
pub(crate) fn away_line<R: Wait>(
    dialling: &Dialling<'_, R>,
    settings: &NetworkConfig,
) -> Result<Vec<u8>, AllocError> {
    if !settings.away() {
        return Ok(Vec::new(dialling.alloc));
    }
    let Some(network) = dialling.station.slot().network(dialling.rt) else {
        return Ok(Vec::new(dialling.alloc));
    };
    let hub = network.lock(dialling.rt);
    match hub.away_text() {
        Some(text) => away_of(dialling.alloc, text),
        None => Ok(Vec::new(dialling.alloc)),
    }
}

/// When the wanted nick, which this one of ours has, is asked for after a registration under this nick;
/// `None` if it is the wanted one, or if the settings don't have it asked for.
pub(crate) fn regain_from(
    settings: &NetworkConfig,
    nick: &[u8],
    holder: Holder,
    now: u64,
) -> Option<Regain> {
    settings.nicks()?;
    if CaseMapping::Rfc1459.order(nick, settings.nick()).is_eq() {
        return None;
    }
    Some(Regain::start(holder, now))
}

/// Whether a network has let us in under this nick. A connection that is about to end may have it
/// still once its hub has forgotten under which one it was.
fn has_nick<R: Wait>(rt: &R, one: &Neighbour, nick: &[u8]) -> bool {
    let Some(network) = one.station.slot().network(rt) else {
        return one.leaves;
    };
    let hub = network.lock(rt);
    let mapping = hub.view().support().mapping();
    match hub.view().own() {
        Some(own) => (one.leaves || hub.is_online()) && mapping.order(own, nick).is_eq(),
        None => one.leaves,
    }
}

/// Which other connection of ours to the same address has the wanted nick: one that stays, if there
/// is such a one. If there is no memory to look, one may have it that stays. Without further nicks in
/// the settings it is nobody, since the nick is not asked for again.
pub(crate) fn holder_of_nick<R: Wait + Clock>(
    dialling: &Dialling<'_, R>,
    settings: &NetworkConfig,
) -> Holder {
    if settings.nicks().is_none() {
        return Holder::Nobody;
    }
    let Ok(neighbours) = dialling.neighbours(settings) else {
        return Holder::Stays;
    };
    let mut holder = Holder::Nobody;
    for one in &neighbours {
        if has_nick(dialling.rt, one, settings.nick()) {
            if !one.leaves {
                return Holder::Stays;
            }
            holder = Holder::Leaves;
        }
    }
    holder
}

/// Asks the network for the wanted nick, through the queue of its lines: `Nothing` is known about
/// it then. It does not ask if the nick is ours, or if a client has asked for a nick since the
/// connection began.
pub(crate) fn ask_for_nick<R: Wait>(
    dialling: &Dialling<'_, R>,
    settings: &NetworkConfig,
) -> NickNews {
    let Some(network) = dialling.station.slot().network(dialling.rt) else {
        return NickNews::Nothing;
    };
    let mut hub = network.lock(dialling.rt);
    if hub.is_nick_chosen() {
        return NickNews::Chosen;
    }
    let mapping = hub.view().support().mapping();
    if let Some(own) = hub.view().own() {
        if mapping.order(own, settings.nick()).is_eq() {
            return NickNews::Ours;
        }
    }
    if let Ok(line) = Line::make(dialling.alloc, None, b"NICK", &[settings.nick()]) {
        let _ = hub.ask(&line);
    }
    NickNews::Nothing
}
