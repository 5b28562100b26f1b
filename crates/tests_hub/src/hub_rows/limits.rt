//! Limits: outlets without room, the last numbers, and the greatest number of sessions.

use crate::hub_rows::events::WELCOME;
use crate::hub_rows::replies::{push_count, push_line};
use crate::hub_rows::scripts::{Story, check, check_text};
use crate::hub_rows::{SETUP, STORY};
use hub_core::Setup;
use std::test::Fail;

pub(crate) const A_SESSION_THAT_IS_CUT: [&[u8]; 7] = [
    b"attach - - 2",
    b"attach - - 8",
    b"drained 0 1",
    b"up :bob!b@h PRIVMSG #c m1",
    b"up :bob!b@h PRIVMSG #c m2",
    b"up :bob!b@h PRIVMSG #c m3",
    b"said 0 PING x",
];

pub(crate) const A_SESSION_THAT_IS_CUT_WANTED: [&[u8]; 9] = [
    b"session 0",
    b"session 1",
    b"drained 1",
    b"cut 1",
    b"no session",
    b":bob!b@h PRIVMSG #c m1",
    b":bob!b@h PRIVMSG #c m2",
    b":bob!b@h PRIVMSG #c m3",
    b"packets 1 1 1",
];

/// A session that is not drained is cut at the packet that finds no room, and the other is not.
#[test]
fn a_session_that_is_cut(rt: HostRuntime) -> Result<(), Fail> {
    check(
        &rt,
        STORY,
        &A_SESSION_THAT_IS_CUT,
        &A_SESSION_THAT_IS_CUT_WANTED,
    )
}

const WHAT_HAS_NO_ROOM: [&[u8]; 4] = [
    b"attach - pc 0",
    b"attach - - 8",
    b"said 0 PRIVMSG #c m",
    b"said 0 TIME",
];

const WHAT_HAS_NO_ROOM_WANTED: [&[u8]; 6] = [
    b"outlet full",
    b"session 0",
    b"forwarded",
    b"busy",
    b"packets",
    b"> PRIVMSG #c m",
];

/// A client attaches to an outlet without room; then the network takes no more packets.
#[test]
fn what_has_no_room(rt: HostRuntime) -> Result<(), Fail> {
    let one_place = Story {
        upstream: 1,
        of: 0,
        ..STORY
    };
    check(&rt, one_place, &WHAT_HAS_NO_ROOM, &WHAT_HAS_NO_ROOM_WANTED)
}

const A_SESSION_WITHOUT_A_NUMBER: [&[u8]; 2] = [b"attach - - 8", b"attach - - 8"];

const A_SESSION_WITHOUT_A_NUMBER_WANTED: [&[u8]; 2] = [
    b"session 18446744073709551615",
    b"numbers spent",
];

/// After the last session number no client attaches.
#[test]
fn a_session_without_a_number(rt: HostRuntime) -> Result<(), Fail> {
    let last_session = Story {
        setup: Setup {
            first_session: u64::MAX,
            ..SETUP
        },
        ..STORY
    };
    check(
        &rt,
        last_session,
        &A_SESSION_WITHOUT_A_NUMBER,
        &A_SESSION_WITHOUT_A_NUMBER_WANTED,
    )
}

const A_MESSAGE_WITHOUT_A_NUMBER: [&[u8]; 3] = [
    b"attach - - 8",
    b"up :bob!b@h PRIVMSG #c m1",
    b"up :bob!b@h PRIVMSG #c m2",
];

const A_MESSAGE_WITHOUT_A_NUMBER_WANTED: [&[u8]; 4] = [
    b"session 0",
    b"stopped: numbers spent",
    b":bob!b@h PRIVMSG #c m1",
    b"packets 1",
];

/// After the last message number a run stops at the next message.
#[test]
fn a_message_without_a_number(rt: HostRuntime) -> Result<(), Fail> {
    let last_number = Story {
        setup: Setup {
            first_number: u64::MAX,
            ..SETUP
        },
        of: 0,
        ..STORY
    };
    check(
        &rt,
        last_number,
        &A_MESSAGE_WITHOUT_A_NUMBER,
        &A_MESSAGE_WITHOUT_A_NUMBER_WANTED,
    )
}

/// A network has room for 64 sessions, and for another one when one of them is gone.
#[test]
fn as_many_sessions_as_there_is_room_for(rt: HostRuntime) -> Result<(), Fail> {
    let mut events: Vec<&[u8]> = Vec::new(rt.alloc());
    let mut wanted = Vec::new(rt.alloc());
    for number in 0..64 {
        events.push(b"attach - - 1")?;
        push_count(&mut wanted, b"session ", number)?;
    }
    events.push(b"attach - - 1")?;
    push_line(&mut wanted, b"full")?;
    events.push(b"detach 7")?;
    events.push(b"attach - - 1")?;
    push_count(&mut wanted, b"session ", 64)?;
    push_line(&mut wanted, b"packets")?;
    check_text(&rt, STORY, &WELCOME, &events, &wanted)
}
