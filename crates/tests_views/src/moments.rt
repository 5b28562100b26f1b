//! When lines came.

use crate::clients::check_images;
use client_caps::{Moment, time_text};
use std::process::Abort;
use std::test::Fail;

const MOMENTS_AS_TEXTS: [(u64, &[u8]); 13] = [
    (0, b"1970-01-01T00:00:00.000Z"),
    (1, b"1970-01-01T00:00:00.001Z"),
    (86_399_999, b"1970-01-01T23:59:59.999Z"),
    (86_400_000, b"1970-01-02T00:00:00.000Z"),
    (68_169_600_000, b"1972-02-29T00:00:00.000Z"),
    (946_684_799_999, b"1999-12-31T23:59:59.999Z"),
    (951_782_400_007, b"2000-02-29T00:00:00.007Z"),
    (951_868_800_000, b"2000-03-01T00:00:00.000Z"),
    (1_577_934_245_678, b"2020-01-02T03:04:05.678Z"),
    (4_107_542_400_000, b"2100-03-01T00:00:00.000Z"),
    (253_402_300_799_999, b"9999-12-31T23:59:59.999Z"),
    (253_402_300_800_000, b"9999-12-31T23:59:59.999Z"),
    (u64::MAX, b"9999-12-31T23:59:59.999Z"),
];

/// Each row holds.
fn check_moments_as_texts<R: AllocGlobal + Abort>(rt: &R, rows: &[(u64, &[u8])]) {
    for (moment, wanted) in rows {
        assert!(rt; time_text(Moment(*moment)).as_slice() == *wanted);
    }
}

/// Moments, and their texts: the first, days beside leap days, the ends of years, and the last one
/// that has a text of its own.
#[test]
fn moments_as_texts(rt: HostRuntime) {
    check_moments_as_texts(&rt, &MOMENTS_AS_TEXTS);
}

const LINES_WITH_THEIR_TIMES_TEXTS: [&[u8]; 3] = [
    b":s 001 Me :hi",
    b":s 376 Me :end",
    b":Me!m@h JOIN #c",
];

const LINES_WITH_THEIR_TIMES: [(&[u8], &[u8], &[u8]); 3] = [
    (
        b"server-time",
        b"@a=1;time=2020-01-02T03:04:05.678Z;b :bob!b@h PRIVMSG #c hi",
        b"@time=2020-01-02T03:04:05.678Z :bob!b@h PRIVMSG #c hi\r\n",
    ),
    (
        b"server-time",
        b":bob!b@h JOIN #c bobacc :Bob",
        b"@time=1970-01-01T00:00:00.000Z :bob!b@h JOIN #c\r\n",
    ),
    (
        b"server-time",
        b":s 353 Me = #c :@+bob Me",
        b"@time=1970-01-01T00:00:00.000Z :s 353 Me = #c :@bob Me\r\n",
    ),
];

/// Lines, and what a client with server-time alone gets for them at the beginning of 1970, unless
/// they have a time of their own.
#[test]
fn lines_with_their_times(rt: HostRuntime) -> Result<(), Fail> {
    check_images(&rt, &LINES_WITH_THEIR_TIMES_TEXTS, &LINES_WITH_THEIR_TIMES)
}
