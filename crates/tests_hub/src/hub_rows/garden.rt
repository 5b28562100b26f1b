//! A whole session of a hub, in the words of an ngIRCd server, with three clients of different
//! capabilities that come and go.

use crate::hub_rows::scripts::{Story, check_client};
use crate::hub_rows::{SETUP, STORY};
use hub_core::Setup;
use std::process::Abort;
use std::test::Fail;

/// 500 messages are kept; shown is all that the first session is sent.
const OF_THE_FIRST: Story = Story {
    setup: Setup {
        history: 500,
        ..SETUP
    },
    of: 0,
    from: 0,
    ..STORY
};

/// A welcome, and a channel with its topic and its members.
const GARDEN: [&[u8]; 7] = [
    b"up :irc.example.net 001 ann :Welcome to the Internet Relay Network ann!~ann@client.example",
    b"up :irc.example.net 005 ann CASEMAPPING=ascii PREFIX=(qaohv)~&@%+ CHANTYPES=#&+ \
        CHANMODES=beI,k,l,imMnOPQRstVz :are supported on this server",
    b"up :irc.example.net 376 ann :End of MOTD command",
    b"up :ann!~ann@client.example JOIN :#garden",
    b"up :irc.example.net 332 ann #garden :Roses and thyme",
    b"up :irc.example.net 353 ann = #garden :~bob +eve ann",
    b"up :irc.example.net 366 ann #garden :End of NAMES list",
];

/// A client without capabilities comes and goes; one with four stays; a third comes under the name
/// of the first.
const DAY: [&[u8]; 20] = [
    b"attach - desk 16",
    b"up :bob!~bob@a.example MODE #garden +ov ann ann",
    b"up PING :irc.example.net",
    b"up :dan!~dan@a.example JOIN :#garden",
    b"attach multi-prefix,extended-join,account-notify,away-notify phone 16",
    b"up :bob!~bob@a.example PRIVMSG #garden :Good morning",
    b"said 0 PRIVMSG #garden :Morning, bob",
    b"said 1 TOPIC #garden :Roses, thyme and sage",
    b"up :ann!~ann@client.example TOPIC #garden :Roses, thyme and sage",
    b"detach 0",
    b"up :dan!~dan@a.example NICK :Dana",
    b"up :Dana!~dan@a.example PRIVMSG ann :Still there?",
    b"up @time=2026-11-02T10:20:00.000Z :eve!~eve@b.example PRIVMSG #garden :Anyone for tea?",
    b"attach server-time,batch desk 16",
    b"up :eve!~eve@b.example AWAY :Making tea",
    b"up :bob!~bob@a.example KICK #garden Dana :Enough",
    b"said 2 NOTICE bob :Who was that?",
    b"said 1 PING :are you there",
    b"lost",
    b"said 1 PRIVMSG #garden :Hello?",
];

/// What the events are answered.
const ANSWERED: [&[u8]; 8] = [
    b"session 0",
    b"session 1",
    b"forwarded",
    b"forwarded",
    b"session 2",
    b"forwarded",
    b"answered",
    b"offline",
];

/// The lines that the network is sent.
const UPWARD: [&[u8]; 4] = [
    b"> PONG irc.example.net",
    b"> PRIVMSG #garden :Morning, bob",
    b"> TOPIC #garden :Roses, thyme and sage",
    b"> NOTICE bob :Who was that?",
];

/// One client is sent these lines.
fn is_sent<R: AllocGlobal + Abort>(
    rt: &R,
    of: u64,
    is_gone: bool,
    sent: &[&[u8]],
) -> Result<(), Fail> {
    let story = Story {
        of,
        is_gone,
        ..OF_THE_FIRST
    };
    check_client(rt, story, &GARDEN, &DAY, &ANSWERED, sent, &UPWARD)
}

const A_CLIENT_WITHOUT_CAPABILITIES_SENT: [&[u8]; 15] = [
    b":bnc 001 ann :Welcome to the bouncer",
    b":bnc 002 ann :Your host is bnc, running version 1",
    b":bnc 003 ann :This server was created for you",
    b":bnc 004 ann bnc 1 i biklmnopstv",
    b":bnc 005 ann CASEMAPPING=ascii PREFIX=(qaohv)~&@%+ CHANTYPES=#&+ \
        CHANMODES=beI,k,l,imMnOPQRstVz :are supported by this server",
    b":bnc 422 ann :MOTD File is missing",
    b":ann JOIN #garden",
    b":bnc 332 ann #garden :Roses and thyme",
    b":bnc 353 ann = #garden :ann ~bob +eve",
    b":bnc 366 ann #garden :End of NAMES list",
    b":bob!~bob@a.example MODE #garden +ov ann ann",
    b":dan!~dan@a.example JOIN #garden",
    b":bob!~bob@a.example PRIVMSG #garden :Good morning",
    b":ann!~ann@client.example TOPIC #garden :Roses, thyme and sage",
    b"packets 10 1 1 1 1",
];

#[test]
fn a_client_without_capabilities(rt: HostRuntime) -> Result<(), Fail> {
    is_sent(&rt, 0, true, &A_CLIENT_WITHOUT_CAPABILITIES_SENT)
}

const A_CLIENT_WITH_FOUR_CAPABILITIES_SENT: [&[u8]; 22] = [
    b":bnc 001 ann :Welcome to the bouncer",
    b":bnc 002 ann :Your host is bnc, running version 1",
    b":bnc 003 ann :This server was created for you",
    b":bnc 004 ann bnc 1 i biklmnopstv",
    b":bnc 005 ann CASEMAPPING=ascii PREFIX=(qaohv)~&@%+ CHANTYPES=#&+ \
        CHANMODES=beI,k,l,imMnOPQRstVz :are supported by this server",
    b":bnc 422 ann :MOTD File is missing",
    b":ann JOIN #garden * :",
    b":bnc 332 ann #garden :Roses and thyme",
    b":bnc 353 ann = #garden :@+ann ~bob dan +eve",
    b":bnc 366 ann #garden :End of NAMES list",
    b":bob!~bob@a.example PRIVMSG #garden :Good morning",
    b":ann PRIVMSG #garden :Morning, bob",
    b":ann!~ann@client.example TOPIC #garden :Roses, thyme and sage",
    b":dan!~dan@a.example NICK Dana",
    b":Dana!~dan@a.example PRIVMSG ann :Still there?",
    b":eve!~eve@b.example PRIVMSG #garden :Anyone for tea?",
    b":eve!~eve@b.example AWAY :Making tea",
    b":bob!~bob@a.example KICK #garden Dana Enough",
    b":ann NOTICE bob :Who was that?",
    b":bnc PONG bnc :are you there",
    b":ann PART #garden",
    b"packets 10 1 1 1 1 1 1 1 1 1 1 1",
];

#[test]
fn a_client_with_four_capabilities(rt: HostRuntime) -> Result<(), Fail> {
    is_sent(&rt, 1, false, &A_CLIENT_WITH_FOUR_CAPABILITIES_SENT)
}

const A_CLIENT_THAT_COMES_AGAIN_SENT: [&[u8]; 17] = [
    b":bnc 001 ann :Welcome to the bouncer",
    b":bnc 002 ann :Your host is bnc, running version 1",
    b":bnc 003 ann :This server was created for you",
    b":bnc 004 ann bnc 1 i biklmnopstv",
    b":bnc 005 ann CASEMAPPING=ascii PREFIX=(qaohv)~&@%+ CHANTYPES=#&+ \
        CHANMODES=beI,k,l,imMnOPQRstVz :are supported by this server",
    b":bnc 422 ann :MOTD File is missing",
    b":ann JOIN #garden",
    b":bnc 332 ann #garden :Roses, thyme and sage",
    b":bnc 353 ann = #garden :@ann ~bob Dana +eve",
    b":bnc 366 ann #garden :End of NAMES list",
    b":bnc BATCH +h0 chathistory #garden",
    b"@batch=h0;time=2026-11-02T10:20:00.000Z :eve!~eve@b.example PRIVMSG #garden \
        :Anyone for tea?",
    b":bnc BATCH -h0",
    b"@time=1970-01-01T00:00:00.000Z :Dana!~dan@a.example PRIVMSG ann :Still there?",
    b"@time=1970-01-01T00:00:00.000Z :bob!~bob@a.example KICK #garden Dana Enough",
    b":ann PART #garden",
    b"packets 14 1 1",
];

/// Its playback is what came after the last client of its name had gone.
#[test]
fn a_client_that_comes_again(rt: HostRuntime) -> Result<(), Fail> {
    is_sent(&rt, 2, false, &A_CLIENT_THAT_COMES_AGAIN_SENT)
}
