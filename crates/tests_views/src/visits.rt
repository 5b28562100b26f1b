//! Messages that a client missed of channels that we are not on, between a JOIN and a PART of ours.

use crate::playback::check_played_by;
use std::process::Abort;
use std::test::Fail;
use welcome::{Offset, Playing};

/// What is played of these messages with `visits`, and with `private_batches` if it is set.
fn check_visits<R: AllocGlobal + Abort>(
    rt: &R,
    private_batches: bool,
    texts: &[&[u8]],
    said: &[&[u8]],
    rows: &[(&[u8], &[u8])],
) -> Result<(), Fail> {
    let mut playing = Playing::whole();
    playing.visits = true;
    playing.private_batches = private_batches;
    check_played_by(rt, playing, texts, said, None, rows)
}

/// We are on #c, with an account.
const ON_ONE_CHANNEL: [&[u8]; 2] = [b":s 001 Me :hi", b":Me!m@h JOIN #c acc :me"];

/// The network is away.
const ON_NO_CHANNEL: [&[u8]; 4] = [
    b":s 001 Me :hi",
    b":Me!m@h JOIN #c acc :me",
    b":Me!m@h JOIN #gone",
    b"lost",
];

/// Messages of a channel that we are on, of two others and of a person.
const MESSAGES: [&[u8]; 6] = [
    b":bob!b@h PRIVMSG Me hi",
    b":eve!e@h PRIVMSG #gone lost",
    b":Me PRIVMSG bob :hello yourself",
    b":bob!b@h PRIVMSG #c m1",
    b":al!a@h NOTICE #away :the news",
    b":eve!e@h PRIVMSG #GONE more",
];

/// What is played while two channels have not let us in again.
const WITHOUT_BATCHES: &[u8] = b":bob!b@h PRIVMSG #c m1\r\n\
    :Me JOIN #gone\r\n\
    :eve!e@h PRIVMSG #gone lost\r\n\
    :eve!e@h PRIVMSG #GONE more\r\n\
    :Me PART #gone\r\n\
    :Me JOIN #away\r\n\
    :al!a@h NOTICE #away :the news\r\n\
    :Me PART #away\r\n\
    :bob!b@h PRIVMSG Me hi\r\n\
    :Me PRIVMSG bob :hello yourself\r\n";

/// Capabilities, and what is played of it.
const NOT_LET_IN_AGAIN: [(&[u8], &[u8]); 3] = [
    (b"", WITHOUT_BATCHES),
    (
        b"batch",
        b":bnc BATCH +h0 chathistory #c\r\n\
        @batch=h0 :bob!b@h PRIVMSG #c m1\r\n\
        :bnc BATCH -h0\r\n\
        :Me JOIN #gone\r\n\
        :eve!e@h PRIVMSG #gone lost\r\n\
        :eve!e@h PRIVMSG #GONE more\r\n\
        :Me PART #gone\r\n\
        :Me JOIN #away\r\n\
        :al!a@h NOTICE #away :the news\r\n\
        :Me PART #away\r\n\
        :bob!b@h PRIVMSG Me hi\r\n\
        :Me PRIVMSG bob :hello yourself\r\n",
    ),
    (
        b"extended-join",
        b":bob!b@h PRIVMSG #c m1\r\n\
        :Me JOIN #gone acc :\r\n\
        :eve!e@h PRIVMSG #gone lost\r\n\
        :eve!e@h PRIVMSG #GONE more\r\n\
        :Me PART #gone\r\n\
        :Me JOIN #away acc :\r\n\
        :al!a@h NOTICE #away :the news\r\n\
        :Me PART #away\r\n\
        :bob!b@h PRIVMSG Me hi\r\n\
        :Me PRIVMSG bob :hello yourself\r\n",
    ),
];

/// Two channels have not let us in again: they come before all else that is for no channel.
#[test]
fn two_channels_have_not_let_us_in_again(rt: HostRuntime) -> Result<(), Fail> {
    check_visits(&rt, false, &ON_ONE_CHANNEL, &MESSAGES, &NOT_LET_IN_AGAIN)
}

/// Capabilities, and what is played then with batches for persons and other channels too.
const IN_BATCHES: [(&[u8], &[u8]); 2] = [
    (
        b"batch",
        b":bnc BATCH +h0 chathistory #c\r\n\
        @batch=h0 :bob!b@h PRIVMSG #c m1\r\n\
        :bnc BATCH -h0\r\n\
        :Me JOIN #gone\r\n\
        :bnc BATCH +h1 chathistory #gone\r\n\
        @batch=h1 :eve!e@h PRIVMSG #gone lost\r\n\
        @batch=h1 :eve!e@h PRIVMSG #GONE more\r\n\
        :bnc BATCH -h1\r\n\
        :Me PART #gone\r\n\
        :Me JOIN #away\r\n\
        :bnc BATCH +h2 chathistory #away\r\n\
        @batch=h2 :al!a@h NOTICE #away :the news\r\n\
        :bnc BATCH -h2\r\n\
        :Me PART #away\r\n\
        :bnc BATCH +h3 chathistory bob\r\n\
        @batch=h3 :bob!b@h PRIVMSG Me hi\r\n\
        @batch=h3 :Me PRIVMSG bob :hello yourself\r\n\
        :bnc BATCH -h3\r\n",
    ),
    (b"", WITHOUT_BATCHES),
];

/// The batch of a channel is inside its visit, and persons come last.
#[test]
fn a_batch_stands_inside_a_visit(rt: HostRuntime) -> Result<(), Fail> {
    check_visits(&rt, true, &ON_ONE_CHANNEL, &MESSAGES, &IN_BATCHES)
}

/// Capabilities, and what is played while we are on no channel.
const AWAY: [(&[u8], &[u8]); 2] = [
    (
        b"batch extended-join server-time",
        b":Me JOIN #gone * :\r\n\
        @time=1970-01-01T00:00:01.000Z :eve!e@h PRIVMSG #gone :m 1\r\n\
        :Me PART #gone\r\n\
        :Me JOIN #c * :\r\n\
        @time=1970-01-01T00:00:02.000Z :bob!b@h PRIVMSG #c m2\r\n\
        :Me PART #c\r\n",
    ),
    (
        b"",
        b":Me JOIN #gone\r\n\
        :eve!e@h PRIVMSG #gone :m 1\r\n\
        :Me PART #gone\r\n\
        :Me JOIN #c\r\n\
        :bob!b@h PRIVMSG #c m2\r\n\
        :Me PART #c\r\n",
    ),
];

/// The network is away: nobody is in sight, so no account is known of us.
#[test]
fn the_network_is_away(rt: HostRuntime) -> Result<(), Fail> {
    check_visits(
        &rt,
        false,
        &ON_NO_CHANNEL,
        &[b":eve!e@h PRIVMSG #gone :m 1", b":bob!b@h PRIVMSG #c m2"],
        &AWAY,
    )
}

/// A name list spelled us in other letters, and so do the lines of a visit: else the client would
/// see us spelled anew.
#[test]
fn we_are_spelled_as_the_network_has_it(rt: HostRuntime) -> Result<(), Fail> {
    let wanted: &[u8] = b":ME JOIN #gone\r\n\
        :eve!e@h PRIVMSG #gone lost\r\n\
        :ME PART #gone\r\n";
    check_visits(
        &rt,
        false,
        &[
            b":s 001 Me :hi",
            b":Me!m@h JOIN #c",
            b":s 353 Me = #c :@bob ME zed",
        ],
        &[b":eve!e@h PRIVMSG #gone lost"],
        &[(b"", wanted)],
    )
}

/// Each visit has its own date, and so has what comes after them.
#[test]
fn each_visit_has_its_date(rt: HostRuntime) -> Result<(), Fail> {
    let wanted: &[u8] = b":Me JOIN #gone\r\n\
        :eve!e@h PRIVMSG #gone :[2020-01-01 08:05] m1\r\n\
        :eve!e@h PRIVMSG #gone :[08:07] m3\r\n\
        :Me PART #gone\r\n\
        :bob!b@h PRIVMSG Me :[2020-01-01 08:06] m2\r\n";
    let mut playing = Playing::whole();
    playing.visits = true;
    playing.times = Some(Offset::utc());
    check_played_by(
        &rt,
        playing,
        &[b":s 001 Me :hi", b":Me!m@h JOIN #c"],
        &[
            b"@time=2020-01-01T08:05:00.000Z :eve!e@h PRIVMSG #gone m1",
            b"@time=2020-01-01T08:06:00.000Z :bob!b@h PRIVMSG Me m2",
            b"@time=2020-01-01T08:07:00.000Z :eve!e@h PRIVMSG #gone m3",
        ],
        None,
        &[(b"", wanted)],
    )
}
