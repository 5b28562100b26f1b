//! The side of the network: the transcript, looked back through.

use super::{Client, show_member};
use client_caps::Cap;
use irc_line::Line;
use irc_support::{Change, Ranks, Support, changes, names};
use net_view::{Member, NetworkView};
use quick_view::QuickView;
use std::alloc::Global;
use std::test::Fail;
use test_texts::line;
use test_views::{quick_of, show_channel};

/// Whether a line has this command, and this channel at a place.
fn is_of(support: &Support, line: &Line, command: &[u8], (place, channel): (usize, &[u8])) -> bool {
    line.is(command)
        && support
            .mapping()
            .same(line.param(place).unwrap_or(b""), channel)
}

/// Whether a change gives a person a rank.
fn is_gift(support: &Support, change: Change<'_>, nick: &[u8], rank: u8) -> bool {
    change.plus
        && support.rank_of_letter(change.letter) == Some(rank)
        && support.mapping().same(change.param.unwrap_or(b""), nick)
}

/// Whether a line is a MODE that gives a person a rank.
fn gives(support: &Support, line: &Line, channel: &[u8], nick: &[u8], rank: u8) -> bool {
    let mut is_given = false;
    if is_of(support, line, b"MODE", (0, channel)) {
        for change in changes(support, line) {
            is_given = is_given || is_gift(support, change, nick, rank);
        }
    }
    is_given
}

/// Whether a line is a name list with a person.
fn lists(support: &Support, line: &Line, channel: &[u8], nick: &[u8]) -> bool {
    let mut is_listed = false;
    if is_of(support, line, b"353", (2, channel)) {
        for (_, name) in names(support, line) {
            is_listed = is_listed || support.mapping().same(name, nick);
        }
    }
    is_listed
}

/// A person's nick before a line, if the line renamed them.
fn name_before<'a>(support: &Support, line: &'a Line, nick: &[u8]) -> Option<&'a [u8]> {
    if line.is(b"NICK") && support.mapping().same(line.param(0).unwrap_or(b""), nick) {
        return line.source_nick();
    }
    None
}

/// The highest rank of a person on the channel at a place.
fn top_at(view: &QuickView, place: usize, nick: &[u8]) -> Option<u8> {
    for seat in 0..view.member_count(place) {
        if let Some(member) = view.member_at(place, seat) {
            if view.support().mapping().same(member.nick, nick) {
                return member.ranks.top();
            }
        }
    }
    None
}

/// The highest rank of a person on a channel.
fn top_on(view: &QuickView, channel: &[u8], nick: &[u8]) -> Option<u8> {
    for place in 0..view.channel_count() {
        if let Some(found) = view.channel_at(place) {
            if view.support().mapping().same(found.name, channel) {
                return top_at(view, place, nick);
            }
        }
    }
    None
}

/// The highest rank of a person on a channel after these lines.
fn top_after(
    alloc: Global,
    lines: &[&[u8]],
    channel: &[u8],
    nick: &[u8],
) -> Result<Option<u8>, Fail> {
    Ok(top_on(&quick_of(alloc, lines)?, channel, nick))
}

/// Whether a client without multi-prefix knows of a rank that a member holds at the end: a MODE
/// gave it since the client came and since the last name list with the person, or it was the
/// highest at the later of these two.
fn is_known(
    alloc: Global,
    session: &[&[u8]],
    late: usize,
    support: &Support,
    channel: &[u8],
    nick: &[u8],
    rank: u8,
) -> Result<bool, Fail> {
    let mut name = Vec::from_slice(alloc, nick)?;
    for behind in 0..session.len().saturating_sub(late) {
        let (before, _) = session.split_at(session.len() - behind);
        match told_last(alloc, before, support, channel, &name, rank)? {
            Told::Known(known) => return Ok(known),
            Told::Nothing => {}
            Told::Under(earlier) => name = earlier,
        }
    }
    let (before, _) = session.split_at(late.min(session.len()));
    is_top_after(alloc, before, channel, &name, rank)
}

/// What the last of some lines says about a member's rank.
#[derive(Drop)]
enum Told {
    /// Whether the client knows it.
    Known(bool),
    /// That the member had another name before.
    Under(Vec<u8>),
    Nothing,
}

/// Whether this is a member's highest rank after these lines.
fn is_top_after(
    alloc: Global,
    lines: &[&[u8]],
    channel: &[u8],
    nick: &[u8],
    rank: u8,
) -> Result<bool, Fail> {
    Ok(top_after(alloc, lines, channel, nick)? == Some(rank))
}

/// What the last of these lines says.
fn told_last(
    alloc: Global,
    lines: &[&[u8]],
    support: &Support,
    channel: &[u8],
    nick: &[u8],
    rank: u8,
) -> Result<Told, Fail> {
    let line = line(alloc, lines.last().ok_or("a line")?)?;
    if gives(support, &line, channel, nick, rank) {
        return Ok(Told::Known(true));
    }
    if lists(support, &line, channel, nick) {
        return Ok(Told::Known(is_top_after(alloc, lines, channel, nick, rank)?));
    }
    match name_before(support, &line, nick) {
        Some(earlier) => Ok(Told::Under(Vec::from_slice(alloc, earlier)?)),
        None => Ok(Told::Nothing),
    }
}

/// The ranks of a member that the client knows of.
fn known_ranks(
    alloc: Global,
    session: &[&[u8]],
    client: Client,
    support: &Support,
    channel: &[u8],
    member: &Member<'_>,
) -> Result<Ranks, Fail> {
    let mut ranks = member.ranks;
    if client.caps.holds(Cap::MultiPrefix) {
        return Ok(ranks);
    }
    for rank in 0..16 {
        if ranks.has(rank)
            && !is_known(
                alloc,
                session,
                client.late,
                support,
                channel,
                member.nick,
                rank,
            )?
        {
            ranks = ranks.without(rank);
        }
    }
    Ok(ranks)
}

/// Adds what a view of the session says, as far as the client can know it.
fn push_known(
    alloc: Global,
    session: &[&[u8]],
    client: Client,
    view: &QuickView,
    text: &mut Vec<u8>,
) -> Result<(), Fail> {
    let support = view.support();
    text.extend_from_slice(view.own().unwrap_or(b"-"))?;
    for place in 0..view.channel_count() {
        show_channel(view, place, text)?;
        let channel = view.channel_at(place).ok_or("no such channel")?;
        for seat in 0..view.member_count(place) {
            if let Some(member) = view.member_at(place, seat) {
                let ranks = known_ranks(alloc, session, client, support, channel.name, &member)?;
                show_member(view, client.caps, ranks, &member, text)?;
            }
        }
    }
    Ok(())
}

/// What the transcript says, as far as the client can know it.
pub(super) fn defined_text(
    alloc: Global,
    session: &[&[u8]],
    client: Client,
) -> Result<Vec<u8>, Fail> {
    let mut text = Vec::new(alloc);
    push_known(
        alloc,
        session,
        client,
        &quick_of(alloc, session)?,
        &mut text,
    )?;
    Ok(text)
}
