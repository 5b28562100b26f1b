//! Lines as RFC 2812, section 2.3.1, and IRCv3 message-tags have them.

mod pieces;

use irc_line::{Line, MakeError, write_line};
use std::alloc::Global;
use std::process::Abort;
use std::test::Fail;
use test_texts::line;

type Texts = &'static [&'static [u8]];

fn written(alloc: Global, line: &Line) -> Result<Vec<u8>, Fail> {
    let mut out = Vec::new(alloc);
    line.write(&mut out)?;
    Ok(out)
}

/// Whether these are the parameters, one after another and by their places.
fn has_params(line: &Line, params: Texts) -> bool {
    let mut left = params;
    for param in line.params() {
        match left {
            [first, more @ ..] if *first == param => left = more,
            _ => return false,
        }
    }
    for place in 0..16 {
        if line.param(place) != params.get(place).copied() {
            return false;
        }
    }
    left.is_empty() && line.param_count() == params.len()
}

/// A text, and the tags, source, command and parameters of its line.
type Parts = (
    &'static [u8],
    Option<&'static [u8]>,
    Option<&'static [u8]>,
    &'static [u8],
    Texts,
);

/// Whether a line has these parts.
fn has_parts(line: &Line, row: &Parts) -> bool {
    let (_, tags, source, command, params) = *row;
    line.tags() == tags
        && line.source() == source
        && line.command() == command
        && has_params(line, params)
}

static TEXTS_AND_THEIR_PARTS: [Parts; 14] = [
    (b"PING", None, None, b"PING", &[]),
    (b"PING x", None, None, b"PING", &[b"x"]),
    (b"001", None, None, b"001", &[]),
    (b":s 001 Me :hi", None, Some(b"s"), b"001", &[b"Me", b"hi"]),
    (b":s 001 Me :", None, Some(b"s"), b"001", &[b"Me", b""]),
    (b"  PING   x  y  ", None, None, b"PING", &[b"x", b"y"]),
    (b"PING  :a  b ", None, None, b"PING", &[b"a  b "]),
    (b"PING ::a", None, None, b"PING", &[b":a"]),
    (b"PING a:b c", None, None, b"PING", &[b"a:b", b"c"]),
    (b"@x=1;y PING z", Some(b"x=1;y"), None, b"PING", &[b"z"]),
    (b"@x  :s  PING", Some(b"x"), Some(b"s"), b"PING", &[]),
    (
        b"  @time=1  :bob!b@h  PrivMsg  #c  :hi",
        Some(b"time=1"),
        Some(b"bob!b@h"),
        b"PrivMsg",
        &[b"#c", b"hi"],
    ),
    (b":@ PING :", None, Some(b"@"), b"PING", &[b""]),
    (
        b"PING \xC3\xA4\x01",
        None,
        None,
        b"PING",
        &[b"\xC3\xA4\x01"],
    ),
];

/// Each row holds.
fn check_texts_and_their_parts<R: AllocGlobal + Abort>(rt: &R, rows: &[Parts]) -> Result<(), Fail> {
    for row in rows {
        assert!(rt; has_parts(&line(rt.alloc(), row.0)?, row));
    }
    Ok(())
}

#[test]
fn texts_and_their_parts(rt: HostRuntime) -> Result<(), Fail> {
    check_texts_and_their_parts(&rt, &TEXTS_AND_THEIR_PARTS)
}

const TEXTS_OUTSIDE_THE_GRAMMAR: [&[u8]; 15] = [
    b"",
    b"   ",
    b"12 x",
    b"1234",
    b"NI1CK x",
    b"PING,x",
    b"PING a\0",
    b"PING a\rb",
    b"PING a\nb",
    b"@a",
    b"@ PING",
    b": PING",
    b":a",
    b"@a :b",
    b"@a @b PING",
];

/// Each row holds.
fn check_texts_outside_the_grammar<R: AllocGlobal + Abort>(
    rt: &R,
    rows: &[&[u8]],
) -> Result<(), Fail> {
    for text in rows {
        assert!(rt; Line::<Global>::read(rt.alloc(), *text)?.is_none());
    }
    Ok(())
}

#[test]
fn texts_outside_the_grammar(rt: HostRuntime) -> Result<(), Fail> {
    check_texts_outside_the_grammar(&rt, &TEXTS_OUTSIDE_THE_GRAMMAR)
}

#[test]
fn commands_in_any_case(rt: HostRuntime) -> Result<(), Fail> {
    let said = line(rt.alloc(), b":bob!b@h PrivMsg #c hi")?;
    assert!(rt; said.is(b"PRIVMSG") && !said.is(b"PRIVMS"));
    Ok(())
}

const NICKS_OF_SOURCES: [(&[u8], Option<&[u8]>); 6] = [
    (b":bob!b@h PING", Some(b"bob")),
    (b":bob@h!b PING", Some(b"bob@h")),
    (b":bob@h PING", Some(b"bob")),
    (b":irc.example PING", Some(b"irc.example")),
    (b":!x PING", Some(b"")),
    (b"PING", None),
];

/// Each line's source has this nick.
fn have_nicks<R: AllocGlobal + Abort>(rt: &R, rows: &[(&[u8], Option<&[u8]>)]) -> Result<(), Fail> {
    for (text, nick) in rows {
        let line = line(rt.alloc(), text)?;
        assert!(rt; line.source_nick() == *nick);
    }
    Ok(())
}

#[test]
fn nicks_of_sources(rt: HostRuntime) -> Result<(), Fail> {
    have_nicks(&rt, &NICKS_OF_SOURCES)
}

const TIME: &[u8] = b"2020-01-02T03:04:05.678Z";

static TIME_TAGS: [(&[u8], Option<&[u8]>); 10] = [
    (b"@time=2020-01-02T03:04:05.678Z PING", Some(TIME)),
    (
        b"@a=1;time=2020-01-02T03:04:05.678Z;time=now PING",
        Some(TIME),
    ),
    (b"@time=now;time=2020-01-02T03:04:05.678Z PING", None),
    (b"@+time=2020-01-02T03:04:05.678Z PING", None),
    (b"@time PING", None),
    (b"@time=2020-01-02T03:04:05.67Z PING", None),
    (b"@time=2020-01-02T03:04:05.678Zx PING", None),
    (b"@time=2020-01-02 PING", None),
    (b"@time=2020-01-02t03:04:05.678Z PING", None),
    (b"PING time=2020-01-02T03:04:05.678Z", None),
];

/// Each row holds.
fn check_time_tags<R: AllocGlobal + Abort>(
    rt: &R,
    rows: &[(&[u8], Option<&[u8]>)],
) -> Result<(), Fail> {
    for row in rows {
        let (text, time) = *row;
        assert!(rt; line(rt.alloc(), text)?.time_tag() == time);
    }
    Ok(())
}

#[test]
fn time_tags(rt: HostRuntime) -> Result<(), Fail> {
    check_time_tags(&rt, &TIME_TAGS)
}

/// A source, a command, parameters, and the text of the line that is made of them.
type Made = (Option<&'static [u8]>, &'static [u8], Texts, &'static [u8]);

/// The text of the line that is made of a row's parts.
fn made(alloc: Global, row: &Made) -> Result<Vec<u8>, Fail> {
    let (source, command, params, _) = *row;
    let line = Line::make(alloc, source, command, params)?;
    written(alloc, &line)
}

static LINES_MADE_AND_WRITTEN: [Made; 7] = [
    (None, b"PING", &[], b"PING\r\n"),
    (
        Some(b"a"),
        b"PRIVMSG",
        &[b"#a", b""],
        b":a PRIVMSG #a :\r\n",
    ),
    (
        Some(b"a!b@c"),
        b"PRIVMSG",
        &[b"#a", b"hi all"],
        b":a!b@c PRIVMSG #a :hi all\r\n",
    ),
    (None, b"PRIVMSG", &[b"#a", b":-)"], b"PRIVMSG #a ::-)\r\n"),
    (None, b"PRIVMSG", &[b"#a", b"hi"], b"PRIVMSG #a hi\r\n"),
    (None, b"PRIVMSG", &[b"#a", b" "], b"PRIVMSG #a : \r\n"),
    (None, b"005", &[b"a:b"], b"005 a:b\r\n"),
];

/// Each row holds.
fn check_lines_made_and_written<R: AllocGlobal + Abort>(rt: &R, rows: &[Made]) -> Result<(), Fail> {
    for row in rows {
        assert!(rt; made(rt.alloc(), row)?.as_slice() == row.3);
    }
    Ok(())
}

#[test]
fn lines_made_and_written(rt: HostRuntime) -> Result<(), Fail> {
    check_lines_made_and_written(&rt, &LINES_MADE_AND_WRITTEN)
}

/// A source, a command and parameters.
type Unmade = (Option<&'static [u8]>, &'static [u8], Texts);

/// Whether a row's parts are refused, since they make no line.
fn is_no_line(alloc: Global, row: &Unmade) -> bool {
    let made = Line::make(alloc, row.0, row.1, row.2);
    matches!(made, Err(MakeError::NotALine))
}

static PARTS_THAT_ARE_NO_LINE: [Unmade; 11] = [
    (None, b"PRIVMSG", &[b"#a b", b"x"]),
    (None, b"PRIVMSG", &[b"", b"x"]),
    (None, b"PRIVMSG", &[b":a", b"x"]),
    (None, b"PRIVMSG", &[b"#a", b"x\n"]),
    (None, b"PRIVMSG", &[b"#a\r", b"x"]),
    (None, b"PRIVMSG", &[b"#a", b"\0"]),
    (None, b"", &[]),
    (None, b"NI1CK", &[]),
    (None, b"1234", &[]),
    (Some(b""), b"PING", &[]),
    (Some(b"a b"), b"PING", &[]),
];

/// Each row is refused.
fn are_no_lines<R: AllocGlobal + Abort>(rt: &R, rows: &[Unmade]) {
    for row in rows {
        assert!(rt; is_no_line(rt.alloc(), row));
    }
}

#[test]
fn parts_that_are_no_line(rt: HostRuntime) {
    are_no_lines(&rt, &PARTS_THAT_ARE_NO_LINE);
}

/// The text of a line of ours whose tags are set to these, if they are any.
fn tagged(alloc: Global, tags: Option<&[u8]>) -> Result<Vec<u8>, Fail> {
    let mut line = line(alloc, b"@a=1 :a PRIVMSG #a :")?;
    line.set_tags(tags)?;
    written(alloc, &line)
}

const TAGS_SET_AND_TAKEN_AWAY: [(Option<&[u8]>, &[u8]); 2] = [
    (Some(b"x=1"), b"@x=1 :a PRIVMSG #a :\r\n"),
    (None, b":a PRIVMSG #a :\r\n"),
];

/// Each row holds.
fn check_tags_set_and_taken_away<R: AllocGlobal + Abort>(
    rt: &R,
    rows: &[(Option<&[u8]>, &[u8])],
) -> Result<(), Fail> {
    for (tags, wanted) in rows {
        assert!(rt; tagged(rt.alloc(), *tags)?.as_slice() == *wanted);
    }
    Ok(())
}

#[test]
fn tags_set_and_taken_away(rt: HostRuntime) -> Result<(), Fail> {
    check_tags_set_and_taken_away(&rt, &TAGS_SET_AND_TAKEN_AWAY)
}

const TAGS_THAT_ARE_REFUSED: [&[u8]; 3] = [b"", b"x 1", b"x\r"];

#[test]
fn tags_that_are_refused_change_nothing(rt: HostRuntime) -> Result<(), Fail> {
    let mut line = line(rt.alloc(), b"@x=1 :a PRIVMSG #a :")?;
    for tags in &TAGS_THAT_ARE_REFUSED {
        assert!(rt; line.set_tags(Some(*tags)) == Err(MakeError::NotALine));
    }
    assert!(rt; line.tags() == Some(b"x=1".as_slice()));
    Ok(())
}

/// Appends a clone of a line.
fn write_clone(line: &Line, out: &mut Vec<u8>) -> Result<(), Fail> {
    Ok(line.clone()?.write(out)?)
}

/// Appends a copy of a line.
fn write_copy(alloc: Global, line: &Line, out: &mut Vec<u8>) -> Result<(), Fail> {
    Ok(line.copy_in(alloc)?.write(out)?)
}

/// A PING, and after it a clone and a copy of a line.
fn behind_a_ping(alloc: Global, line: &Line) -> Result<Vec<u8>, Fail> {
    let mut out = b"PING\r\n".to_vec(alloc)?;
    write_clone(line, &mut out)?;
    write_copy(alloc, line, &mut out)?;
    Ok(out)
}

const COPIES_BEHIND_A_PING: &[u8] = b"PING\r\n:a PRIVMSG #a :\r\n:a PRIVMSG #a :\r\n";

#[test]
fn a_copy_is_written_behind_what_is_there(rt: HostRuntime) -> Result<(), Fail> {
    let line = line(rt.alloc(), b":a PRIVMSG #a :")?;
    assert!(rt; behind_a_ping(rt.alloc(), &line)?.as_slice() == COPIES_BEHIND_A_PING);
    Ok(())
}

#[test]
fn parts_appended_as_a_line(rt: HostRuntime) -> Result<(), Fail> {
    let mut out = Vec::new(rt.alloc());
    write_line(
        Some(b"x=1"),
        Some(b"a"),
        b"PRIVMSG",
        &[b"#a", b""],
        &mut out,
    )?;
    write_line(None, None, b"PING", &[b"b"], &mut out)?;
    assert!(&rt; out.as_slice() == b"@x=1 :a PRIVMSG #a :\r\nPING b\r\n".as_slice());
    Ok(())
}
