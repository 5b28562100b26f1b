//! Views of transcripts, and what they show, as text.

use irc_support::Ranks;
use net_view::{Item, NetworkView};
use quick_view::QuickView;
use std::alloc::{AllocError, Global};
use std::test::Fail;
use tape_view::TapeView;
use test_texts::line;

/// The item that this text stands for: a line, or a loss.
pub fn item(alloc: Global, text: &[u8]) -> Result<Item, Fail> {
    if text == b"lost".as_slice() {
        return Ok(Item::Lost);
    }
    Ok(Item::Line(line(alloc, text)?))
}

/// Takes these texts into a view.
pub fn take_all<V: NetworkView>(alloc: Global, view: &mut V, texts: &[&[u8]]) -> Result<(), Fail> {
    for text in texts {
        view.take(&item(alloc, text)?)?;
    }
    Ok(())
}

/// The view that searches, after these texts.
pub fn tape_of(alloc: Global, texts: &[&[u8]]) -> Result<TapeView, Fail> {
    let mut view = TapeView::new(alloc)?;
    take_all(alloc, &mut view, texts)?;
    Ok(view)
}

/// The view by tables, after these texts.
pub fn quick_of(alloc: Global, texts: &[&[u8]]) -> Result<QuickView, Fail> {
    let mut view = QuickView::new(alloc)?;
    take_all(alloc, &mut view, texts)?;
    Ok(view)
}

/// A mode with its parameter, after a space if it is not the first.
fn show_mode(
    place: usize,
    (letter, param): (u8, Option<&[u8]>),
    text: &mut Vec<u8>,
) -> Result<(), AllocError> {
    if place > 0 {
        text.push(b' ')?;
    }
    text.push(letter)?;
    text.extend_from_slice(param.unwrap_or(b""))?;
    Ok(())
}

/// The modes of a channel in braces, in order, each with its parameter.
pub fn show_modes<V: NetworkView>(
    view: &V,
    channel: usize,
    text: &mut Vec<u8>,
) -> Result<(), AllocError> {
    if view.mode_at(channel, 0).is_none() {
        return Ok(());
    }
    text.extend_from_slice(b" {")?;
    for place in 0..256 {
        let Some(mode) = view.mode_at(channel, place) else {
            break;
        };
        show_mode(place, mode, text)?;
    }
    text.push(b'}')?;
    Ok(())
}

/// The symbols of a set of ranks, the highest first.
pub fn show_ranks<V: NetworkView>(view: &V, ranks: Ranks, text: &mut Vec<u8>) -> Result<(), Fail> {
    for rank in 0..16 {
        if ranks.has(rank) {
            let symbol = view.support().symbol(rank).ok_or("no such rank")?;
            text.push(symbol)?;
        }
    }
    Ok(())
}

/// A text after a mark, if there is one.
pub fn show_fact(mark: u8, fact: Option<&[u8]>, text: &mut Vec<u8>) -> Result<(), AllocError> {
    if let Some(fact) = fact {
        text.push(mark)?;
        text.extend_from_slice(fact)?;
    }
    Ok(())
}

/// The members of a channel, in order: symbols, nick, an account after `=`, an away text after
/// `~`.
pub fn show_members<V: NetworkView>(
    view: &V,
    channel: usize,
    text: &mut Vec<u8>,
) -> Result<(), Fail> {
    for place in 0..view.member_count(channel) {
        if let Some(member) = view.member_at(channel, place) {
            text.push(b' ')?;
            show_ranks(view, member.ranks, text)?;
            text.extend_from_slice(member.nick)?;
            show_fact(b'=', member.account, text)?;
            show_fact(b'~', member.away, text)?;
        }
    }
    Ok(())
}

/// A channel's name, its modes, and its topic in brackets.
pub fn show_channel<V: NetworkView>(
    view: &V,
    place: usize,
    text: &mut Vec<u8>,
) -> Result<(), Fail> {
    let channel = view.channel_at(place).ok_or("no such channel")?;
    text.extend_from_slice(b" / ")?;
    text.extend_from_slice(channel.name)?;
    show_modes(view, place, text)?;
    if let Some(topic) = channel.topic {
        text.extend_from_slice(b" [")?;
        text.extend_from_slice(topic)?;
        text.push(b']')?;
    }
    Ok(())
}

/// Our nick, then each channel with its modes, its topic in brackets and its members, in order.
pub fn shown<V: NetworkView>(alloc: Global, view: &V) -> Result<Vec<u8>, Fail> {
    let mut text = Vec::new(alloc);
    if let Some(nick) = view.own() {
        text.extend_from_slice(nick)?;
    }
    for place in 0..view.channel_count() {
        show_channel(view, place, &mut text)?;
        show_members(view, place, &mut text)?;
    }
    Ok(text)
}
