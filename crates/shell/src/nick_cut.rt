//! A nick made of the wanted one, for a network that takes neither that nor another of ours.

ghost use Rattle.std.specs.Prelude.{◌≡◌, ◌<◌, ◌≤◌, IfOk, IsTrue, length};
ghost use Rattle.irc_names.specs.Nick.{is_nameable};
ghost use Rattle.shell.specs.NickCut.{begins_at, cut_nick, digits, kept_of, last_begin, room_of};

use std::alloc::{AllocError, Global};

/// Whether a character begins at this place, or the nick ends there: the bytes 128 to 191 go on with
/// a character (RFC 3629, section 3).
fn begins_at(nick: &[u8], place: usize) -> bool
    ensures { result ≡ begins_at nick.now place }
{
    !matches!(nick.get(place), Some(128..=191))
}

/// The last place up to this one at which a character begins; 0 if there is none before it.
fn last_begin(nick: &[u8], place: usize) -> usize
    ensures value { result ≡ last_begin nick.now place }
    ensures within { result ≤ place }
{
    let mut found = place;
    while found > 0 && !begins_at(nick, found) {
        found -= 1;
    }
    found
}

/// How many bytes of the nick have room beside two digits, on a network whose nicks have at most
/// this many bytes; if that is not known, two fewer than it has. At least one.
fn room_of(nick: &[u8], limit: Option<usize>) -> usize
    ensures { result ≡ room_of nick.now limit }
{
    let most = limit.unwrap_or(nick.len()).saturating_sub(2);
    most.min(nick.len()).max(1)
}

/// How many bytes of the nick are kept: the whole characters that have room; all, if its first
/// character has none.
fn kept_of(nick: &[u8], room: usize) -> usize
    requires { room ≤ length nick.now }
    ensures value { result ≡ kept_of nick.now room }
    ensures within { result ≤ length nick.now }
{
    match last_begin(nick, room) {
        0 => nick.len(),
        kept => kept,
    }
}

/// Two decimal digits.
fn digits(chance: u64) -> [u8; 2]
    ensures { result ≡ digits chance }
{
    [b'0' + (chance / 10 % 10) as u8, b'0' + (chance % 10) as u8]
}

/// The nick, cut at a character's beginning, with two digits of a number after it: of `annabelle`
/// on a network whose nicks have 9 bytes at most, `annabel42`.
pub fn cut_nick(
    alloc: Global,
    nick: &[u8],
    limit: Option<usize>,
    chance: u64,
) -> Result<Vec<u8>, AllocError>
    requires { IsTrue (is_nameable nick.now) }
    ensures value { IfOk result (λ cut. cut.items ≡ cut_nick nick.now limit chance) }
    ensures nameable { IfOk result (λ cut. IsTrue (is_nameable cut.items)) }
{
    let room = room_of(nick, limit);
    let mut cut = Vec::from_slice(alloc, &nick[..kept_of(nick, room)])?;
    cut.extend_from_slice(&digits(chance))?;
    Ok(cut)
}
