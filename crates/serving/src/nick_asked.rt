//! Which nick a registration asks for, if the settings have further ones.

ghost use Rattle.std.specs.Prelude.{IfOk, IsTrue};
ghost use Rattle.irc_names.specs.Nick.{is_nameable};

use crate::dialling::Dialling;
use bnc_config::{NetworkConfig, Text};
use irc_names::is_nameable;
use net_view::NetworkView;
use shell::{NickChoice, cut_nick};
use std::alloc::AllocError;
use std::rt::Clock;
use std::sync::Wait;
use upstream::{DialFault, NetworkEnd, RegisterFault};

/// How many bytes a nick of the network has at most, if it said so the last time that it let us in
/// (`NICKLEN` of 005 RPL_ISUPPORT).
fn longest_nick<R: Wait>(dialling: &Dialling<'_, R>) -> Option<usize> {
    let network = dialling.station.slot().network(dialling.rt)?;
    let hub = network.lock(dialling.rt);
    let support = hub.view().support();
    for place in 0..support.token_count() {
        if let Some((b"NICKLEN", Some(value))) = support.token(place) {
            return str::from_utf8(value).ok()?.parse().ok();
        }
    }
    None
}

/// The nick at this place, or else the wanted one.
fn nick_at<'a>(further: &'a [Text], place: usize, wanted: &'a [u8]) -> &'a [u8]
    requires { IsTrue (is_nameable wanted.now) }
    ensures { IsTrue (is_nameable result.now) }
{
    let Some(nick) = further.get(place) else {
        return wanted;
    };
    let nick = nick.as_bytes();
    if is_nameable(nick) { nick } else { wanted }
}

/// The nick that the next registration asks for: the settings' nick, unless they have further ones
/// and it was refused. `chance` is any number, for a nick that has digits.
pub(crate) fn nick_asked<R: Wait + Clock>(
    dialling: &Dialling<'_, R>,
    settings: &NetworkConfig,
    chance: u64,
) -> Result<Vec<u8>, AllocError>
    ensures { IfOk result (λ nick. IsTrue (is_nameable nick.items)) }
{
    let alloc = dialling.alloc;
    let wanted = settings.nick();
    let Some(further) = settings.nicks() else {
        return Vec::from_slice(alloc, wanted);
    };
    let choice = dialling
        .station
        .nick_tries()
        .lock(dialling.rt)
        .next(further.len());
    match choice {
        NickChoice::Wanted => Vec::from_slice(alloc, wanted),
        NickChoice::Further(place) => Vec::from_slice(alloc, nick_at(further, place, wanted)),
        NickChoice::Cut => cut_nick(alloc, wanted, longest_nick(dialling), chance),
    }
}

/// Whether a registration ended because its nick was refused, and the next one asks for another.
pub(crate) fn is_nick_refused(end: &NetworkEnd, settings: &NetworkConfig) -> bool {
    settings.nicks().is_some()
        && matches!(
            end,
            NetworkEnd::NotRegistered(DialFault::Register(
                RegisterFault::NickInUse | RegisterFault::BadNick,
            ))
        )
}
