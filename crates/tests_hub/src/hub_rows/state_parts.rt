//! State parts that a hub keeps for the clients to come: what a client is sent when it attaches.

use crate::hub_rows::STORY;
use crate::hub_rows::events::WELCOME;
use crate::hub_rows::scripts::{Story, check_client};
use std::process::Abort;
use std::test::Fail;
use test_texts::GREETING;

/// Shown is all that the second session is sent.
const OF_THE_SECOND: Story = Story { from: 0, ..STORY };

/// The burst of a client without capabilities, up to the channel's name list.
const BEFORE_THE_NAMES: [&[u8]; 4] = [
    GREETING,
    b":bnc 005 Me PREFIX=(ov)@+ CHANTYPES=# :are supported by this server",
    b":bnc 422 Me :MOTD File is missing",
    b":Me JOIN #c",
];

/// A client that attaches in a script is sent these lines after those.
fn check<R: AllocGlobal + Abort>(
    rt: &R,
    of: u64,
    script: &[&[u8]],
    answered: &[&[u8]],
    lines: &[&'static [u8]],
) -> Result<(), Fail> {
    let mut sent: Vec<&'static [u8]> = Vec::new(rt.alloc());
    sent.extend_from_slice(&BEFORE_THE_NAMES)?;
    sent.extend_from_slice(lines)?;
    let story = Story {
        of,
        ..OF_THE_SECOND
    };
    check_client(rt, story, &WELCOME, script, answered, &sent, &[])
}

const A_MODE_BETWEEN: [&[u8]; 4] = [
    b"up :s 353 Me = #c :Me @+bob",
    b"attach - - 8",
    b"up :s MODE #c -o bob",
    b"attach - - 8",
];

const TWO_SESSIONS: [&[u8]; 2] = [b"session 0", b"session 1"];

/// After a MODE the next client is sent the new letters.
#[test]
fn a_mode_between(rt: HostRuntime) -> Result<(), Fail> {
    let names: [&'static [u8]; 3] = [
        b":bnc 353 Me = #c :+bob Me",
        b":bnc 366 Me #c :End of NAMES list",
        b"packets 9",
    ];
    check(&rt, 1, &A_MODE_BETWEEN, &TWO_SESSIONS, &names)
}

const NOTHING_BETWEEN: [&[u8]; 4] = [
    b"up :s 353 Me = #c :Me @+bob",
    b"attach - a 8",
    b"up :s PING x",
    b"attach - b 8",
];

/// Without a state line between them two clients with the same capabilities are sent the same.
#[test]
fn nothing_between(rt: HostRuntime) -> Result<(), Fail> {
    let names: [&'static [u8]; 4] = [
        b":bnc 353 Me = #c :@bob Me",
        b":bnc 366 Me #c :End of NAMES list",
        b"packets 9",
        b"> PONG x",
    ];
    check(&rt, 0, &NOTHING_BETWEEN, &TWO_SESSIONS, &names)?;
    check(&rt, 1, &NOTHING_BETWEEN, &TWO_SESSIONS, &names)
}

const A_MESSAGE_MISSED: [&[u8]; 4] = [
    b"attach - pc 8",
    b"detach 0",
    b"up :bob!b@h PRIVMSG #c m1",
    b"attach - pc 8",
];

/// A message that was missed comes after the state part that was kept.
#[test]
fn a_message_missed(rt: HostRuntime) -> Result<(), Fail> {
    let lines: [&'static [u8]; 4] = [
        b":bnc 353 Me = #c Me",
        b":bnc 366 Me #c :End of NAMES list",
        b":bob!b@h PRIVMSG #c m1",
        b"packets 10",
    ];
    check(&rt, 1, &A_MESSAGE_MISSED, &TWO_SESSIONS, &lines)
}

const ANOTHER_SET: [&[u8]; 3] = [
    b"up :s 353 Me = #c :Me @+bob",
    b"attach - - 8",
    b"attach multi-prefix - 8",
];

/// A client with other capabilities is sent a state part of its own.
#[test]
fn another_set(rt: HostRuntime) -> Result<(), Fail> {
    let names: [&'static [u8]; 3] = [
        b":bnc 353 Me = #c :@+bob Me",
        b":bnc 366 Me #c :End of NAMES list",
        b"packets 9",
    ];
    check(&rt, 1, &ANOTHER_SET, &TWO_SESSIONS, &names)
}

const A_LOSS_BETWEEN: [&[u8]; 5] = [
    b"attach - - 8",
    b"lost",
    b"up :s 001 You :hi",
    b"up :s 422 You :none",
    b"attach - - 8",
];

/// After a loss and a new welcome nothing of the old connection is left.
#[test]
fn a_loss_between(rt: HostRuntime) -> Result<(), Fail> {
    let sent: [&'static [u8]; 6] = [
        b":bnc 001 You :Welcome to the bouncer",
        b":bnc 002 You :Your host is bnc, running version 1",
        b":bnc 003 You :This server was created for you",
        b":bnc 004 You bnc 1 i biklmnopstv",
        b":bnc 422 You :MOTD File is missing",
        b"packets 5",
    ];
    check_client(
        &rt,
        OF_THE_SECOND,
        &WELCOME,
        &A_LOSS_BETWEEN,
        &TWO_SESSIONS,
        &sent,
        &[],
    )
}
