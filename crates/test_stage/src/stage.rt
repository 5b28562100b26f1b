//! `Stage`: a network between rings. A test puts lines in, attaches sessions, and takes out what is
//! sent to them.

ghost use Rattle.std.specs.Prelude.{◌≡◌, ◌<◌};
ghost use Rattle.net_view.specs.View.{empty_view};

use client_caps::{Caps, Moment, read_request};
use hub_core::{Pumped, Said, Setup};
use hub_ends::SessionId;
use hub_threads::{InletEnd, Network, OutletEnd, Started};
use irc_line::Line;
use net_view::{Item, NetworkView};
use quick_view::QuickView;
use std::alloc::Global;
use std::sync::Wait;
use std::test::Fail;
use test_texts::{joined, line};

/// A network, the end that its lines are put into, and the end that reads what is sent to it.
#[derive(Drop)]
pub struct Stage<V: NetworkView + Drop> {
    pub network: Network<V>,
    pub end: InletEnd,
    pub upward: OutletEnd,
}

/// A welcome, and a JOIN of ours.
pub const JOINED: [&[u8]; 4] = [
    b":s 001 Me :hi",
    b":s 005 Me PREFIX=(ov)@+ CHANTYPES=# :are supported",
    b":s 376 Me :end",
    b":Me!m@h JOIN #c",
];

/// What a client without capabilities is sent when it attaches after these lines.
pub const BURST: &[u8] = b":bnc 001 Me :Welcome to the bouncer\r\n\
    :bnc 002 Me :Your host is bnc, running version 1\r\n\
    :bnc 003 Me :This server was created for you\r\n\
    :bnc 004 Me bnc 1 i biklmnopstv\r\n\
    :bnc 005 Me PREFIX=(ov)@+ CHANTYPES=# :are supported by this server\r\n\
    :bnc 422 Me :MOTD File is missing\r\n\
    :Me JOIN #c\r\n\
    :bnc 353 Me = #c Me\r\n\
    :bnc 366 Me #c :End of NAMES list\r\n";

/// A network that has received nothing. At most `items` items may wait for its hub.
pub fn empty_stage<V: NetworkView + Drop>(
    alloc: Global,
    view: V,
    first_number: u64,
    items: usize,
) -> Result<Stage<V>, Fail>
    requires view { V.view view ≡ empty_view }
    requires items { 0 < items }
{
    let setup = Setup {
        history: 10,
        first_number,
        first_session: 0,
    };
    let Started {
        network,
        inlet,
        outlet,
    } = Network::start(alloc, view, setup, items, 8)?;
    Ok(Stage {
        network,
        end: inlet,
        upward: outlet,
    })
}

/// The same with the view that the program has.
pub fn quick_stage(alloc: Global, first_number: u64, items: usize) -> Result<Stage<QuickView>, Fail>
    requires { 0 < items }
{
    empty_stage(alloc, QuickView::new(alloc)?, first_number, items)
}

/// Puts lines; it fails if there is no room for one.
pub fn put(alloc: Global, end: &mut InletEnd, texts: &[&[u8]]) -> Result<(), Fail> {
    for text in texts {
        if !has_room(end, line(alloc, text)?) {
            return Err("no room")?;
        }
    }
    Ok(())
}

/// Puts a line, and answers whether there was room for it.
fn has_room(end: &mut InletEnd, line: Line<Global>) -> bool {
    end.put(Item::Line(line), Moment(0)).is_ok()
}

/// Has a client say a line. Answers what the hub made of it.
pub fn say<V: NetworkView + Drop, R: Wait>(
    rt: &R,
    alloc: Global,
    network: &Network<V>,
    id: SessionId,
    text: &[u8],
) -> Result<Said, Fail> {
    let line = line(alloc, text)?;
    let said = network.lock(rt).said(id, &line, Moment(0));
    Ok(said?)
}

/// Has the hub take all items that wait. Answers how many it took, and how many sessions it cut.
pub fn take_all<V: NetworkView + Drop, R: Wait>(
    rt: &R,
    network: &Network<V>,
) -> Result<(u64, usize), Fail> {
    let mut taken: u64 = 0;
    let mut gone: usize = 0;
    for _ in 0..1_000 {
        match network.lock(rt).pump()? {
            Pumped::Nothing => break,
            Pumped::Taken { cut } => {
                taken = taken.saturating_add(1);
                gone = gone.saturating_add(cut);
            }
        }
    }
    Ok((taken, gone))
}

/// A network whose hub has taken these lines.
pub fn stage_after<R: Wait>(
    rt: &R,
    alloc: Global,
    first_number: u64,
    texts: &[&[u8]],
) -> Result<Stage<QuickView>, Fail> {
    let mut stage = quick_stage(alloc, first_number, 64)?;
    put_and_take(rt, alloc, &mut stage, texts)?;
    Ok(stage)
}

/// Puts lines, and has the hub take them.
pub fn put_and_take<V: NetworkView + Drop, R: Wait>(
    rt: &R,
    alloc: Global,
    stage: &mut Stage<V>,
    texts: &[&[u8]],
) -> Result<(u64, usize), Fail> {
    put(alloc, &mut stage.end, texts)?;
    take_all(rt, &stage.network)
}

/// Attaches a client with these capabilities and room for `capacity` packets.
pub fn attach<V: NetworkView + Drop, R: Wait>(
    rt: &R,
    alloc: Global,
    network: &Network<V>,
    names: &[u8],
    capacity: usize,
) -> Result<(SessionId, OutletEnd), Fail>
    requires { 0 < capacity }
{
    let (out, end) = network.outlet(alloc, capacity)?;
    let caps = read_request(Caps::none(), names).ok_or("taken")?;
    match network.lock(rt).attach(caps, None, out) {
        Ok(id) => Ok((id, end)),
        Err(_) => Err("not attached")?,
    }
}

/// The bytes of all packets that wait.
pub fn waiting_text(alloc: Global, end: &mut OutletEnd) -> Result<Vec<u8>, Fail> {
    let mut text = Vec::new(alloc);
    for _ in 0..1_000 {
        let Some(packet) = end.take() else {
            break;
        };
        text.extend_from_slice(packet.bytes())?;
    }
    Ok(text)
}

/// Whether the bytes that wait are these texts, one after another.
pub fn is_sent(alloc: Global, end: &mut OutletEnd, texts: &[&[u8]]) -> Result<bool, Fail> {
    let sent = waiting_text(alloc, end)?;
    is_joined(alloc, &sent, texts)
}

/// Whether a text is these, one after another.
pub fn is_joined(alloc: Global, text: &[u8], parts: &[&[u8]]) -> Result<bool, Fail> {
    Ok(joined(alloc, parts)?.as_slice() == text)
}
