//! Pumps that are made again.

use super::hubs::{QuickHub, hub_after, is_sent, sent_counts};
use crate::hub_rows::BURST;
use client_caps::Moment;
use hub_core::HubError;
use net_view::Item;
use std::process::Abort;
use std::test::Fail;
use test_texts::{again, line};

/// What the network sends to a hub with two sessions, before the connection is lost.
const LINES: [&[u8]; 6] = [
    b":bob!b@h JOIN #c",
    b":s MODE #c +ov bob bob",
    b":bob!b@h PRIVMSG #c :hi all",
    b":s PING x",
    b":bob!b@h TOPIC #c :a b",
    b":Me!m@h JOIN #d",
];

/// What each session is sent of it, after its burst.
const OF_LINES: [&[u8]; 7] = [
    b":bob!b@h JOIN #c",
    b":s MODE #c +ov bob bob",
    b":bob!b@h PRIVMSG #c :hi all",
    b":bob!b@h TOPIC #c :a b",
    b":Me!m@h JOIN #d",
    b":Me PART #c",
    b":Me PART #d",
];

/// The item that waits is taken. A pump that is refused changes nothing, and the item still waits.
fn pumps(rt: &impl Abort, hub: &mut QuickHub) -> Result<(), Fail> {
    let before = sent_counts(hub);
    match hub.pump() {
        Ok(_) => Ok(()),
        Err(error) => {
            assert!(rt; error == HubError::OutOfMemory && sent_counts(hub) == before);
            again(hub.pump())?;
            Ok(())
        }
    }
}

/// A hub takes an item.
pub(super) fn takes(rt: &impl Abort, hub: &mut QuickHub, item: Item) -> Result<(), Fail> {
    hub.put(item, Moment(0))?;
    pumps(rt, hub)
}

/// A hub takes all of these lines and the loss of the connection.
fn takes_all<R: AllocGlobal + Abort>(rt: &R, hub: &mut QuickHub) -> Result<(), Fail> {
    for text in LINES {
        takes(rt, hub, Item::Line(line(rt.alloc(), text)?))?;
    }
    takes(rt, hub, Item::Lost)
}

/// A hub takes them, and sends what it sends without a refusal.
fn takes_and_sends<R: AllocGlobal + Abort>(rt: &R, hub: &mut QuickHub) -> Result<(), Fail> {
    takes_all(rt, hub)?;
    let mut all: Vec<&[u8]> = Vec::new(rt.alloc());
    all.extend_from_slice(&BURST)?;
    all.extend_from_slice(&OF_LINES)?;
    is_sent(rt, hub.outlet(0), &all)?;
    is_sent(rt, hub.outlet(1), &all)?;
    is_sent(rt, Some(hub.upstream_outlet()), &[b"PONG x"])
}

/// A hub with two sessions takes lines and the loss of the connection: each session is sent what it
/// is sent without a refusal.
#[test]
fn items_that_are_taken_by_the_view_by_tables(rt: HostRuntime) -> Result<(), Fail> {
    let script: [&[u8]; 2] = [b"attach - pc 16", b"attach multi-prefix - 16"];
    let mut hub = hub_after(rt.alloc(), &script)?;
    takes_and_sends(&rt, &mut hub)
}
