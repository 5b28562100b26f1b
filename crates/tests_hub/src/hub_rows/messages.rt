//! Messages: those that a client missed, those of our own clients, and those that come in pieces.

use crate::hub_rows::scripts::{Story, check};
use crate::hub_rows::{BURST, STORY};
use std::test::Fail;
use test_texts::GREETING;

pub(crate) const MESSAGES_THAT_WERE_MISSED: [&[u8]; 9] = [
    b"attach - pc 8",
    b"up :bob!b@h PRIVMSG #c m1",
    b"up :bob!b@h PRIVMSG #c m2",
    b"detach 0",
    b"up :bob!b@h PRIVMSG #c m3",
    b"up :bob!b@h PRIVMSG #c m4",
    b"up :bob!b@h PRIVMSG #c m5",
    b"attach batch pc 8",
    b"up :bob!b@h PRIVMSG #d m6",
];

pub(crate) const MESSAGES_THAT_WERE_MISSED_WANTED: [&[u8]; 15] = [
    b"session 0",
    b"session 1",
    GREETING,
    b":bnc 005 Me PREFIX=(ov)@+ CHANTYPES=# :are supported by this server",
    b":bnc 422 Me :MOTD File is missing",
    b":Me JOIN #c",
    b":bnc 353 Me = #c Me",
    b":bnc 366 Me #c :End of NAMES list",
    b":bnc BATCH +h0 chathistory #c",
    b"@batch=h0 :bob!b@h PRIVMSG #c m3",
    b"@batch=h0 :bob!b@h PRIVMSG #c m4",
    b"@batch=h0 :bob!b@h PRIVMSG #c m5",
    b":bnc BATCH -h0",
    b":bob!b@h PRIVMSG #d m6",
    b"packets 14 1",
];

/// A client that was away for three messages is sent these when it attaches.
#[test]
fn messages_that_were_missed(rt: HostRuntime) -> Result<(), Fail> {
    check(
        &rt,
        Story { from: 0, ..STORY },
        &MESSAGES_THAT_WERE_MISSED,
        &MESSAGES_THAT_WERE_MISSED_WANTED,
    )
}

const NOTHING_WAS_MISSED: [&[u8]; 4] = [
    b"up :bob!b@h PRIVMSG #c m1",
    b"attach batch pc 8",
    b"detach 0",
    b"attach batch pc 8",
];

/// A client that attaches again at once missed nothing.
#[test]
fn nothing_was_missed(rt: HostRuntime) -> Result<(), Fail> {
    let mut wanted: Vec<&[u8]> = Vec::new(rt.alloc());
    wanted.push(b"session 0")?;
    wanted.push(b"session 1")?;
    wanted.extend_from_slice(&BURST)?;
    wanted.push(b"packets 9")?;
    check(
        &rt,
        Story { from: 0, ..STORY },
        &NOTHING_WAS_MISSED,
        &wanted,
    )
}

const A_MESSAGE_SAID: [&[u8]; 4] = [
    b"attach - - 8",
    b"attach - - 8",
    b"said 0 PRIVMSG #c :hi all",
    b"said 0 @a=1 :x NOTICE bob m",
];

const A_MESSAGE_SAID_TO_THE_OTHER: [&[u8]; 9] = [
    b"session 0",
    b"session 1",
    b"forwarded",
    b"forwarded",
    b":Me PRIVMSG #c :hi all",
    b":Me NOTICE bob m",
    b"packets 1 1",
    b"> PRIVMSG #c :hi all",
    b"> NOTICE bob m",
];

const A_MESSAGE_SAID_TO_ITS_SENDER: [&[u8]; 7] = [
    b"session 0",
    b"session 1",
    b"forwarded",
    b"forwarded",
    b"packets",
    b"> PRIVMSG #c :hi all",
    b"> NOTICE bob m",
];

/// A message goes to the network and to the other session, and not back to its sender.
#[test]
fn a_message_said(rt: HostRuntime) -> Result<(), Fail> {
    check(&rt, STORY, &A_MESSAGE_SAID, &A_MESSAGE_SAID_TO_THE_OTHER)?;
    check(
        &rt,
        Story { of: 0, ..STORY },
        &A_MESSAGE_SAID,
        &A_MESSAGE_SAID_TO_ITS_SENDER,
    )
}

const LINES_IN_PIECES: [&[u8]; 5] = [
    b"attach - - 8",
    b"piece :bob!b@h PRIV",
    b"up MSG #c m1",
    b"up :s PING x",
    b"up PING a b",
];

const LINES_IN_PIECES_WANTED: [&[u8]; 5] = [
    b"session 0",
    b":bob!b@h PRIVMSG #c m1",
    b"packets 1",
    b"> PONG x",
    b"> PONG a b",
];

/// Lines come in pieces, and one piece ends in the middle of a line.
#[test]
fn lines_in_pieces(rt: HostRuntime) -> Result<(), Fail> {
    check(
        &rt,
        Story { of: 0, ..STORY },
        &LINES_IN_PIECES,
        &LINES_IN_PIECES_WANTED,
    )
}
