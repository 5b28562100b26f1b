//! The times in the texts of messages that a client missed.

use crate::playback::check_played_by;
use std::process::Abort;
use std::test::Fail;
use welcome::{Offset, Playing};

/// What is played of the messages of these lines on #c and to us, with times of a zone.
fn check_times<R: AllocGlobal + Abort>(
    rt: &R,
    times: Option<Offset>,
    said: &[&[u8]],
    rows: &[(&[u8], &[u8])],
) -> Result<(), Fail> {
    let mut playing = Playing::whole();
    playing.times = times;
    playing.private_batches = true;
    check_played_by(
        rt,
        playing,
        &[b":s 001 Me :hi", b":Me!m@h JOIN #c"],
        said,
        None,
        rows,
    )
}

/// Messages about midnight one hour east of UTC.
const ABOUT_MIDNIGHT: [&[u8]; 7] = [
    b"@time=2019-12-31T22:59:59.999Z :bob!b@h PRIVMSG #c :the old year",
    b"@time=2019-12-31T23:00:00.000Z :bob!b@h PRIVMSG #c :the new year",
    b"@time=2020-01-01T08:05:00.000Z :bob!b@h PRIVMSG #c morning",
    b"@time=2020-01-01T22:59:00.000Z :bob!b@h PRIVMSG #c evening",
    b"@time=2020-02-28T23:30:00.000Z :bob!b@h PRIVMSG #c :a leap day",
    b"@time=2020-02-29T23:00:00.000Z :bob!b@h PRIVMSG #c March",
    b"@time=2021-02-28T23:00:00.000Z :bob!b@h PRIVMSG #c :no leap day",
];

/// The date steps on at midnight in the zone, and is shown if it differs from the message before.
#[test]
fn the_date_steps_on_at_midnight_in_the_zone(rt: HostRuntime) -> Result<(), Fail> {
    let wanted: &[u8] = b":bob!b@h PRIVMSG #c :[2019-12-31 23:59] the old year\r\n\
        :bob!b@h PRIVMSG #c :[2020-01-01 00:00] the new year\r\n\
        :bob!b@h PRIVMSG #c :[09:05] morning\r\n\
        :bob!b@h PRIVMSG #c :[23:59] evening\r\n\
        :bob!b@h PRIVMSG #c :[2020-02-29 00:30] a leap day\r\n\
        :bob!b@h PRIVMSG #c :[2020-03-01 00:00] March\r\n\
        :bob!b@h PRIVMSG #c :[2021-03-01 00:00] no leap day\r\n";
    check_times(
        &rt,
        Offset::apart(false, 60),
        &ABOUT_MIDNIGHT,
        &[(b"", wanted)],
    )
}

/// Messages at the beginnings of months and years.
const AT_BEGINNINGS: [&[u8]; 9] = [
    b"@time=2020-01-01T13:59:00.000Z :bob!b@h PRIVMSG #c m1",
    b"@time=2020-01-01T14:00:00.000Z :bob!b@h PRIVMSG #c m2",
    b"@time=2020-03-01T00:00:00.000Z :bob!b@h PRIVMSG #c m3",
    b"@time=2019-03-01T00:00:00.000Z :bob!b@h PRIVMSG #c m4",
    b"@time=1900-03-01T00:00:00.000Z :bob!b@h PRIVMSG #c m5",
    b"@time=2000-03-01T00:00:00.000Z :bob!b@h PRIVMSG #c m6",
    b"@time=2020-05-01T00:00:00.000Z :bob!b@h PRIVMSG #c m7",
    b"@time=2020-05-01T13:59:00.000Z :bob!b@h PRIVMSG #c m8",
    b"@time=2020-05-02T13:59:00.000Z :bob!b@h PRIVMSG #c m9",
];

/// Fourteen hours west of UTC it is still the day before: of a month, of a year, a leap day.
#[test]
fn the_date_steps_back_in_the_zone(rt: HostRuntime) -> Result<(), Fail> {
    let wanted: &[u8] = b":bob!b@h PRIVMSG #c :[2019-12-31 23:59] m1\r\n\
        :bob!b@h PRIVMSG #c :[2020-01-01 00:00] m2\r\n\
        :bob!b@h PRIVMSG #c :[2020-02-29 10:00] m3\r\n\
        :bob!b@h PRIVMSG #c :[2019-02-28 10:00] m4\r\n\
        :bob!b@h PRIVMSG #c :[1900-02-28 10:00] m5\r\n\
        :bob!b@h PRIVMSG #c :[2000-02-29 10:00] m6\r\n\
        :bob!b@h PRIVMSG #c :[2020-04-30 10:00] m7\r\n\
        :bob!b@h PRIVMSG #c :[23:59] m8\r\n\
        :bob!b@h PRIVMSG #c :[2020-05-01 23:59] m9\r\n";
    check_times(
        &rt,
        Offset::apart(true, 840),
        &AT_BEGINNINGS,
        &[(b"", wanted)],
    )
}

/// Messages of several groups, CTCP among them.
const OF_SEVERAL_GROUPS: [&[u8]; 9] = [
    b"@time=2020-01-02T03:04:05.678Z :bob!b@h PRIVMSG Me hello",
    b"@time=2020-01-02T03:05:00.000Z :bob!b@h PRIVMSG #c :\x01ACTION waves\x01",
    b"@time=2020-01-02T03:06:00.000Z :bob!b@h PRIVMSG #c :\x01VERSION\x01",
    b"@time=2020-01-02T03:07:00.000Z :bob!b@h PRIVMSG #c :\x01ACTION\x01",
    b"@time=2020-01-02T03:08:00.000Z :bob!b@h PRIVMSG #c :\x01ACTION",
    b"@time=2020-01-02T03:09:00.000Z :bob!b@h PRIVMSG #c :\x01ACTIONS waves\x01",
    b"@time=2020-01-02T03:10:00.000Z :Me PRIVMSG bob :hello yourself",
    b"@time=2020-01-02T03:11:00.000Z :eve!e@h NOTICE Me :",
    b"@time=2020-01-03T00:00:00.000Z :bob!b@h PRIVMSG Me :next day",
];

/// Capabilities, and what is played of them.
const TIMES_OF_GROUPS: [(&[u8], &[u8]); 3] = [
    (
        b"batch",
        b":bnc BATCH +h0 chathistory #c\r\n\
        @batch=h0 :bob!b@h PRIVMSG #c :\x01ACTION [2020-01-02 03:05] waves\x01\r\n\
        @batch=h0 :bob!b@h PRIVMSG #c \x01VERSION\x01\r\n\
        @batch=h0 :bob!b@h PRIVMSG #c :\x01ACTION [03:07] \x01\r\n\
        @batch=h0 :bob!b@h PRIVMSG #c :\x01ACTION [03:08] \r\n\
        @batch=h0 :bob!b@h PRIVMSG #c :\x01ACTIONS waves\x01\r\n\
        :bnc BATCH -h0\r\n\
        :bnc BATCH +h1 chathistory bob\r\n\
        @batch=h1 :bob!b@h PRIVMSG Me :[2020-01-02 03:04] hello\r\n\
        @batch=h1 :Me PRIVMSG bob :[03:10] hello yourself\r\n\
        @batch=h1 :bob!b@h PRIVMSG Me :[2020-01-03 00:00] next day\r\n\
        :bnc BATCH -h1\r\n\
        :bnc BATCH +h2 chathistory eve\r\n\
        @batch=h2 :eve!e@h NOTICE Me :[2020-01-02 03:11] \r\n\
        :bnc BATCH -h2\r\n",
    ),
    (
        b"",
        b":bob!b@h PRIVMSG #c :\x01ACTION [2020-01-02 03:05] waves\x01\r\n\
        :bob!b@h PRIVMSG #c \x01VERSION\x01\r\n\
        :bob!b@h PRIVMSG #c :\x01ACTION [03:07] \x01\r\n\
        :bob!b@h PRIVMSG #c :\x01ACTION [03:08] \r\n\
        :bob!b@h PRIVMSG #c :\x01ACTIONS waves\x01\r\n\
        :bob!b@h PRIVMSG Me :[2020-01-02 03:04] hello\r\n\
        :Me PRIVMSG bob :[03:10] hello yourself\r\n\
        :eve!e@h NOTICE Me :[03:11] \r\n\
        :bob!b@h PRIVMSG Me :[2020-01-03 00:00] next day\r\n",
    ),
    (
        b"server-time",
        b"@time=2020-01-02T03:05:00.000Z :bob!b@h PRIVMSG #c :\x01ACTION waves\x01\r\n\
        @time=2020-01-02T03:06:00.000Z :bob!b@h PRIVMSG #c \x01VERSION\x01\r\n\
        @time=2020-01-02T03:07:00.000Z :bob!b@h PRIVMSG #c \x01ACTION\x01\r\n\
        @time=2020-01-02T03:08:00.000Z :bob!b@h PRIVMSG #c \x01ACTION\r\n\
        @time=2020-01-02T03:09:00.000Z :bob!b@h PRIVMSG #c :\x01ACTIONS waves\x01\r\n\
        @time=2020-01-02T03:04:05.678Z :bob!b@h PRIVMSG Me hello\r\n\
        @time=2020-01-02T03:10:00.000Z :Me PRIVMSG bob :hello yourself\r\n\
        @time=2020-01-02T03:11:00.000Z :eve!e@h NOTICE Me :\r\n\
        @time=2020-01-03T00:00:00.000Z :bob!b@h PRIVMSG Me :next day\r\n",
    ),
];

/// Each group has its own first date. A time comes after the word of an ACTION, in other CTCP
/// nowhere, and in no text with server-time.
#[test]
fn each_group_has_its_own_first_date(rt: HostRuntime) -> Result<(), Fail> {
    check_times(
        &rt,
        Some(Offset::utc()),
        &OF_SEVERAL_GROUPS,
        &TIMES_OF_GROUPS,
    )
}

/// Messages whose times are none, or leave the years of four digits a minute further on.
const WITHOUT_TIMES: [&[u8]; 7] = [
    b"@time=2021-02-29T00:00:00.000Z :bob!b@h PRIVMSG #c m1",
    b"@time=2021-02-28T23:58:60.000Z :bob!b@h PRIVMSG #c m2",
    b"@time=2021-00-28T00:00:00.000Z :bob!b@h PRIVMSG #c m3",
    b"@time=2021-02-28T23:58:00.000Z :bob!b@h PRIVMSG #c m4",
    b"@time=2021-02-28T24:00:00.000Z :bob!b@h PRIVMSG #c m5",
    b"@time=9999-12-31T23:59:00.000Z :bob!b@h PRIVMSG #c m6",
    b"@time=9999-12-31T23:58:00.000Z :bob!b@h PRIVMSG #c m7",
];

/// A text whose time is none stays as it is, and the date comes again after it.
#[test]
fn a_time_that_is_none_is_not_shown(rt: HostRuntime) -> Result<(), Fail> {
    let wanted: &[u8] = b":bob!b@h PRIVMSG #c m1\r\n\
        :bob!b@h PRIVMSG #c :[2021-02-28 23:59] m2\r\n\
        :bob!b@h PRIVMSG #c m3\r\n\
        :bob!b@h PRIVMSG #c :[2021-02-28 23:59] m4\r\n\
        :bob!b@h PRIVMSG #c m5\r\n\
        :bob!b@h PRIVMSG #c m6\r\n\
        :bob!b@h PRIVMSG #c :[9999-12-31 23:59] m7\r\n";
    check_times(
        &rt,
        Offset::apart(false, 1),
        &WITHOUT_TIMES,
        &[(b"", wanted)],
    )?;
    let first: [&[u8]; 1] = [b"@time=0000-01-01T00:00:00.000Z :bob!b@h PRIVMSG #c m1"];
    check_times(
        &rt,
        Offset::apart(true, 1),
        &first,
        &[(b"", b":bob!b@h PRIVMSG #c m1\r\n")],
    )
}
