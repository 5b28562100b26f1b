//! What a hub answers between its steps: room, signs of life, sessions that are nearly full, the
//! channels of a lost connection, and what clients asked for that outlives one.

use crate::hub_rows::SETUP;
use crate::hub_rows::events::{WELCOME, events_of};
use crate::hub_rows::replies::{push_count, push_line};
use hub_core::LostChannel;
use hub_runs::{MemoryHub, run};
use quick_view::QuickView;
use std::alloc::Global;
use std::process::Abort;
use std::test::Fail;

/// How many packets may wait for the network.
const UPSTREAM: usize = 3;

/// Whether a sign of life was asked for.
fn push_life(text: &mut Vec<u8>, is_asked: bool) -> Result<(), Fail> {
    if is_asked {
        return push_line(text, b"life asked");
    }
    push_line(text, b"no life asked")
}

/// A channel of a connection that was lost, with its key.
fn push_channel(text: &mut Vec<u8>, channel: &LostChannel) -> Result<(), Fail> {
    push_line(text, &channel.name)?;
    match &channel.key {
        Some(key) => push_line(text, key),
        None => push_line(text, b"no key"),
    }
}

/// The channels of connections that were lost, each with its key.
fn push_channels(text: &mut Vec<u8>, hub: &MemoryHub<QuickView>) -> Result<(), Fail> {
    for i in 0..hub.lost_channel_count() {
        match hub.lost_channel_at(i) {
            Some(channel) => push_channel(text, channel)?,
            None => push_line(text, b"no channel")?,
        }
    }
    Ok(())
}

/// What the hub answers: the room to the network, whether a sign of life was asked for, the room
/// after that, which sessions are nearly full, and the channels of connections that were lost.
fn push_answers(text: &mut Vec<u8>, hub: &mut MemoryHub<QuickView>) -> Result<(), Fail> {
    push_count(text, b"room ", hub.upstream_free() as u64)?;
    push_life(text, hub.keepalive()?)?;
    push_count(text, b"room ", hub.upstream_free() as u64)?;
    for id in hub.nearly_full()? {
        push_count(text, b"nearly full ", id)?;
    }
    push_channels(text, hub)
}

/// What a hub answers.
fn answers_of(alloc: Global, hub: &mut MemoryHub<QuickView>) -> Result<Vec<u8>, Fail> {
    let mut text = Vec::new(alloc);
    push_answers(&mut text, hub)?;
    Ok(text)
}

/// The answers after a script.
fn asked_after(alloc: Global, script: &[&[u8]]) -> Result<Vec<u8>, Fail> {
    let events = events_of(alloc, &WELCOME, script)?;
    let mut run = run(alloc, QuickView::new(alloc)?, SETUP, UPSTREAM, &events)?;
    answers_of(alloc, &mut run.world.hub)
}

/// The answers after a script are these.
fn check<R: AllocGlobal + Abort>(rt: &R, script: &[&[u8]], wanted: &[u8]) -> Result<(), Fail> {
    assert!(rt; asked_after(rt.alloc(), script)?.as_slice() == wanted);
    Ok(())
}

/// Two sessions with room, and a line on its way to the network.
#[test]
fn online(rt: HostRuntime) -> Result<(), Fail> {
    let script: [&[u8]; 5] = [
        b"attach - pc 4",
        b"attach - phone 8",
        b"up :bob!b@h PRIVMSG #c m1",
        b"up :bob!b@h PRIVMSG #c m2",
        b"said 0 PRIVMSG #c m3",
    ];
    check(&rt, &script, b"room 2\r\nlife asked\r\nroom 1\r\n")
}

/// A session without room, and the network full.
#[test]
fn full(rt: HostRuntime) -> Result<(), Fail> {
    let script: [&[u8]; 7] = [
        b"attach - pc 4",
        b"attach - phone 8",
        b"up :bob!b@h PRIVMSG #c m1",
        b"up :bob!b@h PRIVMSG #c m2",
        b"said 1 PRIVMSG #c m3",
        b"said 1 WHO #c",
        b"said 1 LIST",
    ];
    check(
        &rt,
        &script,
        b"room 0\r\nno life asked\r\nroom 0\r\nnearly full 0\r\n",
    )
}

/// After a loss there are the channels that we were on, with their keys.
#[test]
fn lost(rt: HostRuntime) -> Result<(), Fail> {
    let script: [&[u8]; 4] = [
        b"up :bob!b@h MODE #c +k bees",
        b"up :Me!m@h JOIN #a",
        b"lost",
        b"up :s NOTICE * :looking up your name",
    ];
    check(
        &rt,
        &script,
        b"room 3\r\nno life asked\r\nroom 3\r\n#a\r\nno key\r\n#c\r\nbees\r\n",
    )
}

/// What a hub has to join again.
fn channels_of(alloc: Global, hub: &MemoryHub<QuickView>) -> Result<Vec<u8>, Fail> {
    let mut text = Vec::new(alloc);
    push_channels(&mut text, hub)?;
    Ok(text)
}

/// What is to be joined again after a script.
fn lost_after(alloc: Global, script: &[&[u8]]) -> Result<Vec<u8>, Fail> {
    let events = events_of(alloc, &WELCOME, script)?;
    let run = run(alloc, QuickView::new(alloc)?, SETUP, UPSTREAM, &events)?;
    channels_of(alloc, &run.world.hub)
}

/// A connection was lost while we were on #a and #c, and the network took us in again. Then come
/// these two events.
const AFTER_A_LOSS: [([&[u8]; 2], &[u8]); 10] = [
    ([b"lost", b"lost"], b"#a\r\nno key\r\n#c\r\nbees\r\n"),
    (
        [b"up :bob!b@h JOIN #a", b"up :bob!b@h PART #c"],
        b"#a\r\nno key\r\n#c\r\nbees\r\n",
    ),
    (
        [b"up :Me!m@h JOIN #A", b"up :s NOTICE * hi"],
        b"#c\r\nbees\r\n",
    ),
    (
        [b"up :Me!m@h JOIN #A", b"lost"],
        b"#A\r\nno key\r\n#c\r\nbees\r\n",
    ),
    (
        [b"up :Me!m@h JOIN #c", b"lost"],
        b"#a\r\nno key\r\n#c\r\nno key\r\n",
    ),
    (
        [b"up :Me!m@h JOIN #c", b"up :Me!m@h PART #C"],
        b"#a\r\nno key\r\n",
    ),
    ([b"up :Me!m@h PART #C", b"lost"], b"#a\r\nno key\r\n"),
    ([b"up :bob!b@h KICK #C me", b"lost"], b"#a\r\nno key\r\n"),
    (
        [b"up :Me!m@h NICK You", b"up :You!m@h JOIN #c"],
        b"#a\r\nno key\r\n",
    ),
    ([b"up :Me!m@h QUIT", b"lost"], b""),
];

#[test]
fn lost_again(rt: HostRuntime) -> Result<(), Fail> {
    for (events, wanted) in AFTER_A_LOSS {
        let script: [&[u8]; 6] = [
            b"up :bob!b@h MODE #c +k bees",
            b"up :Me!m@h JOIN #a",
            b"lost",
            b"up :s 001 Me :hi",
            events[0],
            events[1],
        ];
        assert!(rt; lost_after(rt.alloc(), &script)?.as_slice() == wanted);
    }
    Ok(())
}

/// The text by which we are away after a script.
fn away_after(alloc: Global, script: &[&[u8]]) -> Result<Vec<u8>, Fail> {
    let events = events_of(alloc, &WELCOME, script)?;
    let run = run(alloc, QuickView::new(alloc)?, SETUP, UPSTREAM, &events)?;
    let mut text = Vec::new(alloc);
    match run.world.hub.away_text() {
        Some(away) => push_line(&mut text, away)?,
        None => push_line(&mut text, b"here")?,
    }
    Ok(text)
}

const AWAY: &[u8] = b"said 0 AWAY :gone";

const OUT: &[u8] = b"said 0 AWAY :out";

const BACK: &[u8] = b"said 0 AWAY";

const NOW_AWAY: &[u8] = b"up :s 306 Me :You are away";

const NOW_BACK: &[u8] = b"up :s 305 Me :You are back";

const WELCOMED: &[u8] = b"up :s 001 Me :hi";

const ATTACH: &[u8] = b"attach - - 9";

/// What a client says and the network answers, and the text by which we are away then. What the network
/// has not answered does not count; its answers come in the order of what was said, and another text
/// may have been said meanwhile.
const AWAYS: [(&[&[u8]], &[u8]); 12] = [
    (&[ATTACH, AWAY, b"lost", b"lost", WELCOMED], b"here\r\n"),
    (&[ATTACH, AWAY, NOW_AWAY, b"lost", WELCOMED], b"gone\r\n"),
    (&[ATTACH, AWAY, NOW_AWAY, b"lost", NOW_AWAY], b"gone\r\n"),
    (&[ATTACH, AWAY, NOW_AWAY, BACK, NOW_BACK], b"here\r\n"),
    (&[ATTACH, AWAY, NOW_AWAY, BACK, b"lost"], b"gone\r\n"),
    (&[ATTACH, AWAY, NOW_AWAY, OUT, NOW_AWAY], b"out\r\n"),
    (&[ATTACH, AWAY, OUT, NOW_AWAY, NOW_AWAY], b"out\r\n"),
    (&[ATTACH, AWAY, BACK, NOW_AWAY, NOW_BACK], b"here\r\n"),
    (&[ATTACH, BACK, AWAY, NOW_BACK, NOW_AWAY], b"gone\r\n"),
    (&[ATTACH, AWAY, b"lost", WELCOMED, NOW_AWAY], b"here\r\n"),
    (
        &[
            ATTACH,
            b"said 0 away gone",
            NOW_AWAY,
            b"said 0 AWAY :",
            NOW_BACK,
        ],
        b"here\r\n",
    ),
    (
        &[
            ATTACH,
            b"said 0 PRIVMSG AWAY :out",
            NOW_AWAY,
            NOW_AWAY,
            b"lost",
        ],
        b"here\r\n",
    ),
];

#[test]
fn away(rt: HostRuntime) -> Result<(), Fail> {
    for (script, wanted) in AWAYS {
        assert!(rt; away_after(rt.alloc(), script)?.as_slice() == wanted);
    }
    Ok(())
}

/// Whether a client has asked for a nick over this connection: after each of these scripts in turn.
#[test]
fn nick_chosen(rt: HostRuntime) -> Result<(), Fail> {
    const SCRIPTS: [([&[u8]; 3], bool); 4] = [
        ([b"attach - - 9", b"said 0 nick You", b"said 0 LIST"], true),
        ([b"attach - - 9", b"said 0 nick You", b"lost"], false),
        (
            [
                b"attach - - 9",
                b"up :Me!m@h NICK You",
                b"said 0 PRIVMSG NICK :x",
            ],
            false,
        ),
        ([b"lost", WELCOMED, b"attach - - 9"], false),
    ];
    for (script, wanted) in SCRIPTS {
        let events = events_of(rt.alloc(), &WELCOME, &script)?;
        let run = run(
            rt.alloc(),
            QuickView::new(rt.alloc())?,
            SETUP,
            UPSTREAM,
            &events,
        )?;
        assert!(rt; run.world.hub.is_nick_chosen() == wanted);
    }
    Ok(())
}
