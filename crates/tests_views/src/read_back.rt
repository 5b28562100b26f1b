//! What clients of whole sessions receive, read back by a view: it shows what the network's view
//! shows.

use crate::clients::asked;
use client_caps::{Caps, Moment, image};
use irc_line::Line;
use net_view::{Item, NetworkView};
use quick_view::QuickView;
use std::alloc::Global;
use std::process::Abort;
use std::test::Fail;
use test_texts::line;
use test_views::{INSPIRCD, NGIRCD, item, quick_of, shown};
use welcome::{Packet, state_part};

/// All capabilities.
const ALL: &[u8] = b"multi-prefix extended-join account-notify away-notify server-time batch";

/// Takes the lines of a packet.
fn take_packet<V: NetworkView>(alloc: Global, view: &mut V, packet: &Packet) -> Result<(), Fail> {
    for place in 0..packet.line_count() {
        let line = packet.line(alloc, place)?;
        view.take(&Item::Line(line))?;
    }
    Ok(())
}

/// A client that attaches now: its view, which has taken nothing, takes what it receives.
fn arrive<V: NetworkView, C: NetworkView>(
    alloc: Global,
    view: &V,
    caps: Caps,
    client: &mut C,
) -> Result<(), Fail> {
    if view.ready() {
        let packet = state_part(alloc, view, caps)?;
        take_packet(alloc, client, &packet)?;
    }
    Ok(())
}

/// The settings in force as they came, each with a space after it.
fn settings_shown<V: NetworkView>(alloc: Global, view: &V) -> Result<Vec<u8>, Fail> {
    let mut text = Vec::new(alloc);
    for place in 0..view.support().token_count() {
        let (name, value) = view.support().token(place).ok_or("no such token")?;
        text.extend_from_slice(name)?;
        if let Some(value) = value {
            text.push(b'=')?;
            text.extend_from_slice(value)?;
        }
        text.push(b' ')?;
    }
    Ok(text)
}

/// The settings of two views are the same.
fn have_the_same_settings<R: AllocGlobal + Abort, V: NetworkView, W: NetworkView>(
    rt: &R,
    view: &V,
    other: &W,
) -> Result<(), Fail> {
    assert!(rt; settings_shown(rt.alloc(), view)? == settings_shown(rt.alloc(), other)?);
    Ok(())
}

/// A client that attaches now with all capabilities receives what the view shows.
fn is_told_all<R: AllocGlobal + Abort, V: NetworkView, C: NetworkView>(
    rt: &R,
    view: &V,
    client: &mut C,
) -> Result<(), Fail> {
    arrive(rt.alloc(), view, asked(ALL)?, client)?;
    assert!(rt; shown(rt.alloc(), &*client)? == shown(rt.alloc(), view)?);
    have_the_same_settings(rt, &*client, view)
}

/// The same for a client that is new.
fn tells_a_client<R: AllocGlobal + Abort, V: NetworkView>(rt: &R, view: &V) -> Result<(), Fail> {
    is_told_all(rt, view, &mut QuickView::new(rt.alloc())?)
}

/// The same after each line of a session once the view is ready.
fn check_arrivals<R: AllocGlobal + Abort, V: NetworkView>(
    rt: &R,
    view: &mut V,
    session: &[&[u8]],
) -> Result<(), Fail> {
    for text in session {
        view.take(&item(rt.alloc(), text)?)?;
        if view.ready() {
            tells_a_client(rt, &*view)?;
        }
    }
    Ok(())
}

#[test]
fn clients_that_come_after_each_line_of_ngircd(rt: HostRuntime) -> Result<(), Fail> {
    check_arrivals(&rt, &mut QuickView::new(rt.alloc())?, &NGIRCD)
}

#[test]
fn clients_that_come_after_each_line_of_inspircd(rt: HostRuntime) -> Result<(), Fail> {
    check_arrivals(&rt, &mut QuickView::new(rt.alloc())?, &INSPIRCD)
}

/// The client takes the image of a line, if there is one.
fn tell<V: NetworkView, C: NetworkView>(
    alloc: Global,
    view: &V,
    client: &mut C,
    caps: Caps,
    line: &Line,
) -> Result<(), Fail> {
    match image(alloc, view, caps, line, Moment(0))? {
        Some(image) => Ok(client.take(&Item::Line(image))?),
        None => Ok(()),
    }
}

/// Takes a line, whose image the client is sent before.
fn send<V: NetworkView, C: NetworkView>(
    alloc: Global,
    view: &mut V,
    client: &mut C,
    caps: Caps,
    text: &[u8],
) -> Result<(), Fail> {
    tell(alloc, &*view, client, caps, &line(alloc, text)?)?;
    Ok(view.take(&item(alloc, text)?)?)
}

/// What the view of a client shows that came now, and was then sent these lines.
fn seen_since<V: NetworkView, C: NetworkView>(
    alloc: Global,
    view: &mut V,
    client: &mut C,
    since: &[&[u8]],
    caps: Caps,
) -> Result<Vec<u8>, Fail> {
    arrive(alloc, &*view, caps, client)?;
    for text in since {
        send(alloc, view, client, caps, text)?;
    }
    shown(alloc, &*client)
}

/// Clients that come after the first `late` lines of a session: capabilities, and what they know at
/// its end.
fn check_since<R: AllocGlobal + Abort>(
    rt: &R,
    session: &[&[u8]],
    late: usize,
    rows: &[(&[u8], &[u8])],
) -> Result<(), Fail> {
    let (before, since) = session.split_at(late.min(session.len()));
    for row in rows {
        knows_since(rt, before, since, *row)?;
    }
    Ok(())
}

/// What one of these clients knows.
fn knows_since<R: AllocGlobal + Abort>(
    rt: &R,
    before: &[&[u8]],
    since: &[&[u8]],
    (names, wanted): (&[u8], &[u8]),
) -> Result<(), Fail> {
    let mut view = quick_of(rt.alloc(), before)?;
    let mut client = QuickView::new(rt.alloc())?;
    let text = seen_since(rt.alloc(), &mut view, &mut client, since, asked(names)?)?;
    assert!(rt; text.as_slice() == wanted);
    Ok(())
}

const IN_THE_MIDDLE_OF_NGIRCD: [(&[u8], &[u8]); 2] = [
    // a person shown as an operator alone was voiced too, which such a client can't know
    (
        b"",
        b"anna / #garden {n} [Roses, thyme and sage] anna ~bob %+eve \
        / &local {l12} @anna Dana",
    ),
    (
        ALL,
        b"anna / #garden {n} [Roses, thyme and sage] +anna ~bob %+eve \
        / &local {l12} @anna Dana",
    ),
];

#[test]
fn clients_that_come_in_the_middle_of_ngircd(rt: HostRuntime) -> Result<(), Fail> {
    check_since(&rt, &NGIRCD, 18, &IN_THE_MIDDLE_OF_NGIRCD)
}

const IN_THE_MIDDLE_OF_INSPIRCD: [(&[u8], &[u8]); 3] = [
    (
        b"",
        b"IvyG / #Harbour {f10:5 m n t} [Boats in at dusk] @IvyG !Ruth Uma +Vic \
        / #pier {n t} @IvyG %+Uma",
    ),
    (
        b"multi-prefix away-notify",
        b"IvyG / #Harbour {f10:5 m n t} [Boats in at dusk] @IvyG !~@Ruth Uma \
        +Vic~Asleep until six / #pier {n t} @IvyG %+Uma",
    ),
    (
        ALL,
        b"IvyG / #Harbour {f10:5 m n t} [Boats in at dusk] @IvyG=ivy !~@Ruth Uma=una \
        +Vic=victor~Asleep until six / #pier {n t} @IvyG=ivy %+Uma=una",
    ),
];

#[test]
fn clients_that_come_in_the_middle_of_inspircd(rt: HostRuntime) -> Result<(), Fail> {
    check_since(&rt, &INSPIRCD, 16, &IN_THE_MIDDLE_OF_INSPIRCD)
}
