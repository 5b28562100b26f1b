//! Late attach from both sides: what a client reads from all the lines that it was sent, beside
//! what the whole transcript says, less what a client without a capability can't know.

mod changes;
mod inspircd;
mod known;
mod ngircd;
mod received;
mod rows;

use crate::late_attach::known::defined_text;
use crate::late_attach::received::{read_text, received};
use client_caps::{Cap, Caps, read_request};
use irc_support::Ranks;
use net_view::{Item, Member, NetworkView};
use quick_view::QuickView;
use std::alloc::Global;
use std::process::Abort;
use std::test::Fail;
use tape_view::TapeView;
use test_views::{show_fact, show_ranks};

/// A client: its capabilities, and after how many lines of the network it came.
#[derive(Clone, Copy)]
struct Client {
    caps: Caps,
    late: usize,
}

/// A member with these ranks; the account if the client has both capabilities for it, the away text
/// if it has the one.
fn show_member<V: NetworkView>(
    view: &V,
    caps: Caps,
    ranks: Ranks,
    member: &Member<'_>,
    text: &mut Vec<u8>,
) -> Result<(), Fail> {
    text.push(b' ')?;
    show_ranks(view, ranks, text)?;
    text.extend_from_slice(member.nick)?;
    if caps.holds(Cap::ExtendedJoin) && caps.holds(Cap::AccountNotify) {
        show_fact(b'=', member.account, text)?;
    }
    if caps.holds(Cap::AwayNotify) {
        show_fact(b'~', member.away, text)?;
    }
    Ok(())
}

/// The capabilities whose places are those of the ones in a number written by twos.
fn caps_of(alloc: Global, set: u64) -> Result<Caps, Fail> {
    let mut names = Vec::new(alloc);
    let mut left = set;
    for cap in Cap::ALL {
        if left % 2 == 1 {
            names.extend_from_slice(cap.name())?;
            names.push(b' ')?;
        }
        left /= 2;
    }
    Ok(read_request(Caps::none(), &names).ok_or("taken")?)
}

/// What a client reads by the view that searches.
fn read_by_tape(alloc: Global, lines: &[Item], caps: Caps) -> Result<Vec<u8>, Fail> {
    read_text(alloc, lines, caps, &mut TapeView::new(alloc)?)
}

/// What a client reads by the view of tables.
fn read_by_tables(alloc: Global, lines: &[Item], caps: Caps) -> Result<Vec<u8>, Fail> {
    read_text(alloc, lines, caps, &mut QuickView::new(alloc)?)
}

/// What the client reads is this text, whichever view it reads by.
fn check_read_by_both<R: AllocGlobal + Abort>(
    rt: &R,
    session: &[&[u8]],
    client: Client,
    wanted: &[u8],
) -> Result<(), Fail> {
    let lines = received(rt.alloc(), session, client)?;
    assert!(rt; read_by_tape(rt.alloc(), &lines, client.caps)?.as_slice() == wanted);
    assert!(rt; read_by_tables(rt.alloc(), &lines, client.caps)?.as_slice() == wanted);
    Ok(())
}

/// What the client reads is this text.
fn check_read<R: AllocGlobal + Abort>(
    rt: &R,
    session: &[&[u8]],
    client: Client,
    wanted: &[u8],
) -> Result<(), Fail> {
    let lines = received(rt.alloc(), session, client)?;
    assert!(rt; read_by_tables(rt.alloc(), &lines, client.caps)?.as_slice() == wanted);
    Ok(())
}

/// Both sides for clients with these capabilities, one after each line from which on one may come.
fn check_places<R: AllocGlobal + Abort>(
    rt: &R,
    session: &[&[u8]],
    first: usize,
    caps: Caps,
) -> Result<(), Fail> {
    for late in first..session.len() + 1 {
        let client = Client { caps, late };
        let wanted = defined_text(rt.alloc(), session, client)?;
        check_read(rt, session, client, &wanted)?;
    }
    Ok(())
}

/// The same for eight sets of capabilities, from one on.
fn check_sets<R: AllocGlobal + Abort>(
    rt: &R,
    session: &[&[u8]],
    first: usize,
    from: u64,
) -> Result<(), Fail> {
    for place in 0..8 {
        let caps = caps_of(rt.alloc(), from.saturating_add(place))?;
        check_places(rt, session, first, caps)?;
    }
    Ok(())
}
