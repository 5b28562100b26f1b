//! Lines of sessions that are sent again.

use super::hubs::{QuickHub, hub_after, is_sent, sent_counts};
use super::items::takes;
use crate::hub_rows::BURST;
use client_caps::Moment;
use hub_core::{HubError, Said};
use hub_ends::SessionId;
use net_view::Item;
use std::process::Abort;
use std::test::Fail;
use test_texts::{again, line};

/// What the two sessions of a hub say.
const SAID: [(SessionId, &str, Said); 6] = [
    (0, "PRIVMSG #c :hi all", Said::Forwarded),
    (0, "@a=1 :x NOTICE bob m", Said::Forwarded),
    (1, "CAP REQ :multi-prefix batch", Said::Answered),
    (1, "PING x", Said::Answered),
    (0, "WHO #c", Said::Forwarded),
    (1, "QUIT", Said::Quit),
];

/// What the second session is sent of it, after its burst; the first one is sent nothing.
const TO_THE_SECOND: [&[u8]; 6] = [
    b":Me PRIVMSG #c :hi all",
    b":Me NOTICE bob m",
    b":bnc CAP Me ACK :multi-prefix batch",
    b":bnc 353 Me = #c Me",
    b":bnc 366 Me #c :End of NAMES list",
    b":bnc PONG bnc x",
];

/// What the network is sent of it.
const UPWARD: [&[u8]; 3] = [b"PRIVMSG #c :hi all", b"NOTICE bob m", b"WHO #c"];

/// A session says a line. A refusal sends nothing, and changes nobody's capabilities.
fn says<R: AllocGlobal + Abort>(
    rt: &R,
    hub: &mut QuickHub,
    id: SessionId,
    text: &str,
) -> Result<Said, Fail> {
    let line = line(rt.alloc(), text.as_bytes())?;
    let (before, caps) = (sent_counts(hub), hub.caps(id));
    match hub.said(id, &line, Moment(0)) {
        Ok(said) => Ok(said),
        Err(error) => {
            assert!(rt; error == HubError::OutOfMemory);
            assert!(rt; sent_counts(hub) == before && hub.caps(id) == caps);
            again(hub.said(id, &line, Moment(0)))
        }
    }
}

/// Each line is answered as without a refusal.
fn says_all<R: AllocGlobal + Abort>(rt: &R, hub: &mut QuickHub) -> Result<(), Fail> {
    for (id, text, want) in SAID {
        assert!(rt; says(rt, hub, id, text)? == want, "at {text}");
    }
    Ok(())
}

/// Each line is answered, and goes on.
fn says_and_sends<R: AllocGlobal + Abort>(rt: &R, hub: &mut QuickHub) -> Result<(), Fail> {
    says_all(rt, hub)?;
    let mut all: Vec<&[u8]> = Vec::new(rt.alloc());
    all.extend_from_slice(&BURST)?;
    is_sent(rt, hub.outlet(0), &all)?;
    all.extend_from_slice(&TO_THE_SECOND)?;
    is_sent(rt, hub.outlet(1), &all)?;
    is_sent(rt, Some(hub.upstream_outlet()), &UPWARD)
}

/// Each line is answered, and goes on, as without a refusal.
#[test]
fn lines_of_two_sessions(rt: HostRuntime) -> Result<(), Fail> {
    let script: [&[u8]; 2] = [b"attach - - 8", b"attach - - 8"];
    let mut hub = hub_after(rt.alloc(), &script)?;
    says_and_sends(&rt, &mut hub)
}

/// Our own JOIN of a channel comes, and then this is the key of the channel that is known.
fn is_joined_by<R: AllocGlobal + Abort>(
    rt: &R,
    hub: &mut QuickHub,
    text: &[u8],
    name: &[u8],
    wanted: &[u8],
) -> Result<(), Fail> {
    takes(rt, hub, Item::Line(line(rt.alloc(), text)?))?;
    assert!(rt; hub.joined_key(name) == Some(wanted));
    Ok(())
}

/// A session asks for two channels by their keys. A refusal sends nothing, and the key that was asked
/// for before still counts.
fn asks_by_keys<R: AllocGlobal + Abort>(rt: &R, hub: &mut QuickHub) -> Result<Said, Fail> {
    let line = line(rt.alloc(), b"JOIN #k,#l bees,wasps")?;
    let before = sent_counts(hub);
    match hub.said(0, &line, Moment(0)) {
        Ok(said) => Ok(said),
        Err(error) => {
            assert!(rt; error == HubError::OutOfMemory && sent_counts(hub) == before);
            is_joined_by(rt, hub, b":Me!m@h JOIN #k", b"#k", b"ants")?;
            again(hub.said(0, &line, Moment(0)))
        }
    }
}

/// The keys of a JOIN are remembered when it was refused and is said again.
#[test]
fn a_join_by_keys(rt: HostRuntime) -> Result<(), Fail> {
    let script: [&[u8]; 2] = [b"attach - - 8", b"said 0 JOIN #k ants"];
    let mut hub = hub_after(rt.alloc(), &script)?;
    assert!(&rt; asks_by_keys(&rt, &mut hub)? == Said::Forwarded);
    is_joined_by(&rt, &mut hub, b":Me!m@h JOIN #l", b"#l", b"wasps")?;
    is_joined_by(&rt, &mut hub, b":Me!m@h JOIN #k", b"#k", b"bees")
}

/// A key of a channel is expected. A refusal changes nothing: what a client asked by still counts.
fn expects_a_key<R: AllocGlobal + Abort>(rt: &R, hub: &mut QuickHub) -> Result<(), Fail> {
    match hub.expect_key(b"#k", b"wasps") {
        Ok(()) => Ok(()),
        Err(_) => {
            is_joined_by(rt, hub, b":Me!m@h JOIN #k", b"#k", b"ants")?;
            again(hub.expect_key(b"#k", b"wasps"))
        }
    }
}

/// A key that is expected counts as that of a JOIN: it is known once our own JOIN comes, and outlives a
/// loss then; without one it does not.
#[test]
fn a_key_that_is_expected(rt: HostRuntime) -> Result<(), Fail> {
    let script: [&[u8]; 2] = [b"attach - - 8", b"said 0 JOIN #k ants"];
    let mut hub = hub_after(rt.alloc(), &script)?;
    expects_a_key(&rt, &mut hub)?;
    is_joined_by(&rt, &mut hub, b":Me!m@h JOIN #k", b"#k", b"wasps")?;
    takes(&rt, &mut hub, Item::Lost)?;
    assert!(&rt; hub.joined_key(b"#k") == Some(b"wasps"));
    hub.expect_key(b"#l", b"ants")?;
    takes(&rt, &mut hub, Item::Lost)?;
    takes(
        &rt,
        &mut hub,
        Item::Line(line(rt.alloc(), b":s 001 Me :hi")?),
    )?;
    takes(
        &rt,
        &mut hub,
        Item::Line(line(rt.alloc(), b":Me!m@h JOIN #l")?),
    )?;
    assert!(&rt; hub.joined_key(b"#l") == None);
    Ok(())
}
