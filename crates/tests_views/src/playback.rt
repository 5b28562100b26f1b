//! The messages that a client missed, as it is sent them.

ghost use Rattle.std.specs.List.{AllByRecursion};
ghost use Rattle.history.specs.Entry.{IsWrittenEntry};

use crate::clients::asked;
use crate::said::SaidLines;
use crate::views::{Rows, check_by_tables};
use client_caps::Caps;
use history::Entry;
use net_view::NetworkView;
use std::alloc::Global;
use std::process::Abort;
use std::test::Fail;
use welcome::{Playing, playback, playback_by};

/// What a client with these capabilities is played of these messages, by a profile.
fn played<V: NetworkView>(
    alloc: Global,
    playing: Playing,
    view: &V,
    caps: Caps,
    missed: &[&Entry],
) -> Result<Vec<u8>, Fail>
    requires { AllByRecursion (λ entry. IsWrittenEntry entry.now) missed.now }
{
    let packet = if playing == Playing::whole() {
        playback(alloc, view, caps, missed)?
    } else {
        playback_by(alloc, playing, view, caps, missed)?
    };
    Ok(Vec::from_slice(alloc, packet.bytes())?)
}

/// Messages that were missed; capabilities, and what is played.
#[derive(Clone, Copy)]
struct Playbacks<'a> {
    said: &'a SaidLines,
    playing: Playing,
    mark: Option<u64>,
    rows: &'a [(&'a [u8], &'a [u8])],
}

impl Rows for Playbacks<'_> {
    fn check<R: AllocGlobal + Abort, V: NetworkView>(&self, rt: &R, view: &V) -> Result<(), Fail> {
        let missed = self.said.missed(rt.alloc(), self.mark)?;
        for (names, wanted) in self.rows {
            let text = played(rt.alloc(), self.playing, view, asked(names)?, &missed)?;
            assert!(rt; text.as_slice() == *wanted);
        }
        Ok(())
    }
}

/// What is played of the messages of these lines above a mark, by a profile.
pub(crate) fn check_played_by<R: AllocGlobal + Abort>(
    rt: &R,
    playing: Playing,
    texts: &[&[u8]],
    said: &[&[u8]],
    mark: Option<u64>,
    rows: &[(&[u8], &[u8])],
) -> Result<(), Fail> {
    let said = SaidLines::of(rt.alloc(), said)?;
    let playbacks = Playbacks {
        said: &said,
        playing,
        mark,
        rows,
    };
    check_by_tables(rt, texts, &playbacks)
}

/// What is played of the messages of these lines above a mark.
fn check_played<R: AllocGlobal + Abort>(
    rt: &R,
    texts: &[&[u8]],
    said: &[&[u8]],
    mark: Option<u64>,
    rows: &[(&[u8], &[u8])],
) -> Result<(), Fail> {
    check_played_by(rt, Playing::whole(), texts, said, mark, rows)
}

/// Capabilities, and what is played of messages to two channels, to us and to a third channel.
const OF_TWO_CHANNELS: [(&[u8], &[u8]); 4] = [
    (
        b"",
        b":eve!e@h NOTICE #b m3\r\n\
        :bob!b@h PRIVMSG #C m1\r\n\
        :bob!b@h PRIVMSG #c :m 4\r\n\
        :bob!b@h PRIVMSG Me :hi there\r\n\
        :Me PRIVMSG #gone ::5\r\n",
    ),
    (
        b"batch",
        b":bnc BATCH +h0 chathistory #b\r\n\
        @batch=h0 :eve!e@h NOTICE #b m3\r\n\
        :bnc BATCH -h0\r\n\
        :bnc BATCH +h1 chathistory #c\r\n\
        @batch=h1 :bob!b@h PRIVMSG #C m1\r\n\
        @batch=h1 :bob!b@h PRIVMSG #c :m 4\r\n\
        :bnc BATCH -h1\r\n\
        :bob!b@h PRIVMSG Me :hi there\r\n\
        :Me PRIVMSG #gone ::5\r\n",
    ),
    (
        b"server-time",
        b"@time=1970-01-01T00:00:03.000Z :eve!e@h NOTICE #b m3\r\n\
        @time=1970-01-01T00:00:01.000Z :bob!b@h PRIVMSG #C m1\r\n\
        @time=1970-01-01T00:00:04.000Z :bob!b@h PRIVMSG #c :m 4\r\n\
        @time=1970-01-01T00:00:02.000Z :bob!b@h PRIVMSG Me :hi there\r\n\
        @time=1970-01-01T00:00:05.000Z :Me PRIVMSG #gone ::5\r\n",
    ),
    (
        b"batch server-time",
        b":bnc BATCH +h0 chathistory #b\r\n\
        @batch=h0;time=1970-01-01T00:00:03.000Z :eve!e@h NOTICE #b m3\r\n\
        :bnc BATCH -h0\r\n\
        :bnc BATCH +h1 chathistory #c\r\n\
        @batch=h1;time=1970-01-01T00:00:01.000Z :bob!b@h PRIVMSG #C m1\r\n\
        @batch=h1;time=1970-01-01T00:00:04.000Z :bob!b@h PRIVMSG #c :m 4\r\n\
        :bnc BATCH -h1\r\n\
        @time=1970-01-01T00:00:02.000Z :bob!b@h PRIVMSG Me :hi there\r\n\
        @time=1970-01-01T00:00:05.000Z :Me PRIVMSG #gone ::5\r\n",
    ),
];

const MESSAGES_OF_TWO_CHANNELS_AND_OTHERS_TEXTS: [&[u8]; 5] = [
    b":s 001 Me :hi",
    b":Me!m@h JOIN #c",
    b":Me!m@h JOIN #b",
    b":Me!m@h JOIN #gone",
    b":Me!m@h PART #gone",
];

const MESSAGES_OF_TWO_CHANNELS_AND_OTHERS: [&[u8]; 5] = [
    b":bob!b@h PRIVMSG #C m1",
    b":bob!b@h PRIVMSG Me :hi there",
    b":eve!e@h NOTICE #b m3",
    b":bob!b@h PRIVMSG #c :m 4",
    b":Me PRIVMSG #gone ::5",
];

/// Messages to two channels, to us and to a channel that we left.
#[test]
fn messages_of_two_channels_and_others(rt: HostRuntime) -> Result<(), Fail> {
    check_played(
        &rt,
        &MESSAGES_OF_TWO_CHANNELS_AND_OTHERS_TEXTS,
        &MESSAGES_OF_TWO_CHANNELS_AND_OTHERS,
        None,
        &OF_TWO_CHANNELS,
    )
}

const TWO_CHANNELS: [&[u8]; 3] = [b":s 001 Me :hi", b":Me!m@h JOIN #a", b":Me!m@h JOIN #c"];

const ONE_MESSAGE: [&[u8]; 1] = [b":bob PRIVMSG #c m1"];

/// A channel without messages takes a place all the same, and has no batch.
#[test]
fn a_batch_is_named_after_its_channels_place(rt: HostRuntime) -> Result<(), Fail> {
    let wanted: &[u8] = b":bnc BATCH +h1 chathistory #c\r\n\
        @batch=h1 :bob PRIVMSG #c m1\r\n\
        :bnc BATCH -h1\r\n";
    check_played(
        &rt,
        &TWO_CHANNELS,
        &ONE_MESSAGE,
        None,
        &[(b"batch", wanted)],
    )?;
    check_played(
        &rt,
        &TWO_CHANNELS,
        &ONE_MESSAGE,
        Some(0),
        &[(b"batch", wanted)],
    )?;
    check_played(
        &rt,
        &TWO_CHANNELS,
        &ONE_MESSAGE,
        Some(1),
        &[(b"batch", b"")],
    )
}

const MESSAGES_ABOVE_A_MARK_TEXTS: [&[u8]; 4] = [
    b":bob!b@h PRIVMSG #c m1",
    b":bob!b@h PRIVMSG #c m2",
    b":bob!b@h PRIVMSG Me :hi there",
    b":bob!b@h PRIVMSG #c m3",
];

const MESSAGES_ABOVE_A_MARK: [(&[u8], &[u8]); 2] = [
    (
        b"batch",
        b":bnc BATCH +h0 chathistory #c\r\n\
        @batch=h0 :bob!b@h PRIVMSG #c m2\r\n\
        @batch=h0 :bob!b@h PRIVMSG #c m3\r\n\
        :bnc BATCH -h0\r\n\
        :bob!b@h PRIVMSG Me :hi there\r\n",
    ),
    (
        b"batch server-time",
        b":bnc BATCH +h0 chathistory #c\r\n\
        @batch=h0;time=1970-01-01T00:00:02.000Z :bob!b@h PRIVMSG #c m2\r\n\
        @batch=h0;time=1970-01-01T00:00:04.000Z :bob!b@h PRIVMSG #c m3\r\n\
        :bnc BATCH -h0\r\n\
        @time=1970-01-01T00:00:03.000Z :bob!b@h PRIVMSG Me :hi there\r\n",
    ),
];

/// Those of the last messages that are above the mark, one of them for us.
#[test]
fn messages_above_a_mark(rt: HostRuntime) -> Result<(), Fail> {
    check_played(
        &rt,
        &[b":s 001 Me :hi", b":Me!m@h JOIN #c"],
        &MESSAGES_ABOVE_A_MARK_TEXTS,
        Some(1),
        &MESSAGES_ABOVE_A_MARK,
    )
}

/// A client that missed nothing gets no playback.
#[test]
fn no_message_was_missed(rt: HostRuntime) -> Result<(), Fail> {
    let nothing: [(&[u8], &[u8]); 2] = [(b"", b""), (b"batch server-time", b"")];
    check_played(
        &rt,
        &[b":s 001 Me :hi", b":Me!m@h JOIN #c"],
        &[],
        None,
        &nothing,
    )
}

/// Messages for us, of us, for a channel that we are on, and for one that we are not on.
const MESSAGES_OF_PERSONS: [&[u8]; 8] = [
    b":bob!b@h PRIVMSG Me hi",
    b":eve!e@h PRIVMSG #gone lost",
    b":Me PRIVMSG bob :hello yourself",
    b":bob!b@h PRIVMSG #c m1",
    b":NickServ!s@services NOTICE ME :you are in",
    b":BOB!b@h PRIVMSG me again",
    b":!odd@h NOTICE Me :of no nick",
    b":eve!e@h PRIVMSG #GONE more",
];

/// Capabilities, and what is played of them in batches of persons: what has no name has no batch,
/// and a client without batch is played all of them by time.
const IN_BATCHES_OF_PERSONS: [(&[u8], &[u8]); 2] = [
    (
        b"batch",
        b":bnc BATCH +h0 chathistory #c\r\n\
        @batch=h0 :bob!b@h PRIVMSG #c m1\r\n\
        :bnc BATCH -h0\r\n\
        :bnc BATCH +h1 chathistory #gone\r\n\
        @batch=h1 :eve!e@h PRIVMSG #gone lost\r\n\
        @batch=h1 :eve!e@h PRIVMSG #GONE more\r\n\
        :bnc BATCH -h1\r\n\
        :bnc BATCH +h2 chathistory bob\r\n\
        @batch=h2 :bob!b@h PRIVMSG Me hi\r\n\
        @batch=h2 :Me PRIVMSG bob :hello yourself\r\n\
        @batch=h2 :BOB!b@h PRIVMSG me again\r\n\
        :bnc BATCH -h2\r\n\
        :bnc BATCH +h3 chathistory NickServ\r\n\
        @batch=h3 :NickServ!s@services NOTICE ME :you are in\r\n\
        :bnc BATCH -h3\r\n\
        :!odd@h NOTICE Me :of no nick\r\n",
    ),
    (
        b"",
        b":bob!b@h PRIVMSG #c m1\r\n\
        :bob!b@h PRIVMSG Me hi\r\n\
        :eve!e@h PRIVMSG #gone lost\r\n\
        :Me PRIVMSG bob :hello yourself\r\n\
        :NickServ!s@services NOTICE ME :you are in\r\n\
        :BOB!b@h PRIVMSG me again\r\n\
        :!odd@h NOTICE Me :of no nick\r\n\
        :eve!e@h PRIVMSG #GONE more\r\n",
    ),
];

/// Private messages in batches of their persons.
#[test]
fn messages_in_batches_of_persons(rt: HostRuntime) -> Result<(), Fail> {
    let mut playing = Playing::whole();
    playing.private_batches = true;
    check_played_by(
        &rt,
        playing,
        &[b":s 001 Me :hi", b":Me!m@h JOIN #c"],
        &MESSAGES_OF_PERSONS,
        None,
        &IN_BATCHES_OF_PERSONS,
    )
}
