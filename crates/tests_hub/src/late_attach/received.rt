//! The side of the client: a hub takes the session, and a view reads what the client was sent.

ghost use Rattle.std.specs.Prelude.{◌≡◌};
ghost use Rattle.net_view.specs.View.{empty_view};

use super::{Client, show_member};
use client_caps::{Cap, Caps, Moment};
use hub_core::Setup;
use hub_ends::MemoryOutlet;
use hub_runs::{Event, Run, run};
use net_view::{Item, NetworkView};
use quick_view::QuickView;
use std::alloc::{AllocError, Global};
use std::test::Fail;
use test_texts::line;
use test_views::show_channel;
use welcome::Packet;

/// A line of the network, as its bytes come.
fn up(alloc: Global, text: &[u8]) -> Result<Event, AllocError> {
    let mut bytes = Vec::from_slice(alloc, text)?;
    bytes.extend_from_slice(b"\r\n")?;
    Ok(Event::Up(bytes, Moment(0)))
}

/// The request by which a client with some capabilities comes to hold others.
fn request(alloc: Global, old: Caps, new: Caps) -> Result<Event, Fail> {
    let mut text = Vec::from_slice(alloc, b"CAP REQ :")?;
    for cap in Cap::ALL {
        if old.holds(cap) != new.holds(cap) {
            if old.holds(cap) {
                text.push(b'-')?;
            }
            text.extend_from_slice(cap.name())?;
            text.push(b' ')?;
        }
    }
    Ok(Event::Said(0, line(alloc, &text)?, Moment(0)))
}

/// The lines of a session, with the client that comes among them; and its request for the last
/// client's capabilities, after the same number of lines as that one.
fn events_of(
    alloc: Global,
    session: &[&[u8]],
    first: Client,
    last: Client,
) -> Result<Vec<Event>, Fail> {
    let mut events = Vec::new(alloc);
    for place in 0..session.len() + 1 {
        if place == first.late {
            events.push(Event::Attach(first.caps, None, 64))?;
        }
        if place == last.late && last.caps != first.caps {
            events.push(request(alloc, first.caps, last.caps)?)?;
        }
        if let Some(text) = session.get(place) {
            events.push(up(alloc, text)?)?;
        }
    }
    Ok(events)
}

/// Adds the lines of a packet.
fn push_packet(alloc: Global, items: &mut Vec<Item>, packet: &Packet) -> Result<(), Fail> {
    for place in 0..packet.line_count() {
        items.push(Item::Line(packet.line(alloc, place)?))?;
    }
    Ok(())
}

/// The lines that an outlet was sent.
fn lines_sent(alloc: Global, outlet: &MemoryOutlet) -> Result<Vec<Item>, Fail> {
    let mut items = Vec::new(alloc);
    for place in 0..outlet.sent_count() {
        push_packet(alloc, &mut items, outlet.sent(place).ok_or("it was sent")?)?;
    }
    Ok(items)
}

/// The lines that the first session of a run was sent.
fn first_sent<V: NetworkView + Drop>(alloc: Global, run: &Run<V>) -> Result<Vec<Item>, Fail> {
    lines_sent(alloc, run.world.hub.outlet(0).ok_or("it is attached")?)
}

/// The lines that the client was sent by a hub over a view to which nothing came.
fn received_by<V: NetworkView + Drop>(
    alloc: Global,
    view: V,
    session: &[&[u8]],
    first: Client,
    last: Client,
) -> Result<Vec<Item>, Fail>
    requires { V.view view ≡ empty_view }
{
    let setup = Setup {
        history: 10,
        first_number: 1,
        first_session: 0,
    };
    let events = events_of(alloc, session, first, last)?;
    let run = run(alloc, view, setup, 8, &events)?;
    first_sent(alloc, &run)
}

/// The lines that the client was sent.
pub(super) fn received(
    alloc: Global,
    session: &[&[u8]],
    client: Client,
) -> Result<Vec<Item>, Fail> {
    let view = QuickView::new(alloc)?;
    received_by(alloc, view, session, client, client)
}

/// The lines that the client was sent which came as the first and then asked for the capabilities
/// of the last, after as many lines of the network.
pub(super) fn received_by_one_that_changed(
    alloc: Global,
    session: &[&[u8]],
    first: Client,
    last: Client,
) -> Result<Vec<Item>, Fail> {
    let view = QuickView::new(alloc)?;
    received_by(alloc, view, session, first, last)
}

/// What the client reads of these lines, by a view to which nothing came.
pub(super) fn read_text<V: NetworkView>(
    alloc: Global,
    received: &[Item],
    caps: Caps,
    view: &mut V,
) -> Result<Vec<u8>, Fail> {
    for item in received {
        view.take(item)?;
    }
    let mut text = Vec::new(alloc);
    text.extend_from_slice(view.own().unwrap_or(b"-"))?;
    for place in 0..view.channel_count() {
        show_channel(&*view, place, &mut text)?;
        for seat in 0..view.member_count(place) {
            if let Some(member) = view.member_at(place, seat) {
                show_member(&*view, caps, member.ranks, &member, &mut text)?;
            }
        }
    }
    Ok(text)
}
