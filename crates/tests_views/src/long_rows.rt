//! Name lists and settings that take more than one line, and ranks other than the common two, as
//! clients get them.

use crate::clients::asked;
use crate::views::{Rows, check_by_tables};
use irc_line::Line;
use net_view::NetworkView;
use std::alloc::Global;
use std::process::Abort;
use std::test::Fail;
use welcome::state_part;

/// The lines of this command that a client receives when it attaches.
fn lines_told<V: NetworkView>(
    alloc: Global,
    view: &V,
    names: &[u8],
    command: &[u8],
) -> Result<Vec<u8>, Fail> {
    let caps = asked(names)?;
    let mut out = Vec::new(alloc);
    if view.ready() {
        let packet = state_part(alloc, view, caps)?;
        for place in 0..packet.line_count() {
            let line: Line = packet.line(alloc, place)?;
            if line.is(command) {
                line.write(&mut out)?;
            }
        }
    }
    Ok(out)
}

/// A command; capabilities, and its lines that are sent.
#[derive(Clone, Copy)]
struct Told<'a> {
    command: &'a [u8],
    rows: &'a [(&'a [u8], &'a [u8])],
}

impl Rows for Told<'_> {
    fn check<R: AllocGlobal + Abort, V: NetworkView>(&self, rt: &R, view: &V) -> Result<(), Fail> {
        for (names, wanted) in self.rows {
            let text = lines_told(rt.alloc(), view, names, self.command)?;
            assert!(rt; text.as_slice() == *wanted);
        }
        Ok(())
    }
}

/// The lines of this command that a client gets after these texts.
fn check_lines<R: AllocGlobal + Abort>(
    rt: &R,
    texts: &[&[u8]],
    command: &[u8],
    rows: &[(&[u8], &[u8])],
) -> Result<(), Fail> {
    check_by_tables(rt, texts, &Told { command, rows })
}

/// Adds a byte `count` times.
fn push_times(text: &mut Vec<u8>, byte: u8, count: usize) -> Result<(), Fail> {
    for _ in 0..count {
        text.push(byte)?;
    }
    Ok(())
}

/// Adds our nick and nine more: 362 bytes with the spaces between them.
fn push_ten(text: &mut Vec<u8>) -> Result<(), Fail> {
    text.extend_from_slice(b"Me")?;
    for letter in b'n'..b'w' {
        text.push(b' ')?;
        push_times(text, letter, 39)?;
    }
    Ok(())
}

/// A name list of eleven members, the last with a nick of this length: all between `start`
/// and `end`, and the last after a gap and its symbols.
fn name_list(
    alloc: Global,
    start: &[u8],
    before: (&[u8], &[u8]),
    len: usize,
    end: &[u8],
) -> Result<Vec<u8>, Fail> {
    let mut text = Vec::from_slice(alloc, start)?;
    push_ten(&mut text)?;
    text.extend_from_slice(before.0)?;
    text.extend_from_slice(before.1)?;
    push_times(&mut text, b'w', len)?;
    text.extend_from_slice(end)?;
    Ok(text)
}

/// What a client with these capabilities receives about the members, after a name list.
fn check_names<R: AllocGlobal + Abort>(
    rt: &R,
    told: &[u8],
    names: &[u8],
    wanted: &[u8],
) -> Result<(), Fail> {
    check_lines(
        rt,
        &[b":s 001 Me :hi", b":Me!m@h JOIN #c", told],
        b"353",
        &[(names, wanted)],
    )
}

const NAMES_UP_TO_400_BYTES: [(&[u8], &[u8], &[u8], usize, &[u8]); 6] = [
    (b"", b"", b"", 37, b" "),
    (b"", b"", b"", 38, b"\r\n:bnc 353 Me = #c "),
    (b"multi-prefix", b"@+", b"@+", 35, b" "),
    (b"multi-prefix", b"@+", b"@+", 36, b"\r\n:bnc 353 Me = #c "),
    (b"", b"@+", b"@", 36, b" "),
    (b"", b"@+", b"@", 37, b"\r\n:bnc 353 Me = #c "),
];

/// A 353 of 400 bytes of words is one line, and one of 401 bytes two: capabilities, the last
/// member's symbols, those that are shown, the length of its nick, what comes before it.
#[test]
fn names_up_to_400_bytes(rt: HostRuntime) -> Result<(), Fail> {
    for (names, symbols, shown, len, gap) in &NAMES_UP_TO_400_BYTES {
        let told = name_list(rt.alloc(), b":s 353 Me = #c :", (b" ", symbols), *len, b"")?;
        let start = b":bnc 353 Me = #c :";
        let wanted = name_list(rt.alloc(), start, (gap, shown), *len, b"\r\n")?;
        check_names(&rt, &told, names, &wanted)?;
    }
    Ok(())
}

/// A nick of 450 bytes has a line of its own.
#[test]
fn a_name_longer_than_a_row(rt: HostRuntime) -> Result<(), Fail> {
    let mut told = Vec::from_slice(rt.alloc(), b":s 353 Me = #c :{ ")?;
    push_times(&mut told, b'z', 450)?;
    let mut wanted = Vec::from_slice(rt.alloc(), b":bnc 353 Me = #c Me\r\n:bnc 353 Me = #c ")?;
    push_times(&mut wanted, b'z', 450)?;
    wanted.extend_from_slice(b"\r\n:bnc 353 Me = #c {\r\n")?;
    check_names(&rt, &told, b"", &wanted)
}

/// What a client receives about the settings, after a line of them.
fn check_tokens<R: AllocGlobal + Abort>(rt: &R, told: &[u8], wanted: &[u8]) -> Result<(), Fail> {
    check_lines(
        rt,
        &[b":s 001 Me :hi", told, b":s 422 Me :none"],
        b"005",
        &[(b"", wanted)],
    )
}

const TOKENS_UP_TO_TWELVE: [(&[u8], &[u8]); 2] = [
    (
        b":s 005 Me A B C D E F G H I J K L=1 :are supported",
        b":bnc 005 Me A B C D E F G H I J K L=1 :are supported by this server\r\n",
    ),
    (
        b":s 005 Me A B C D E F G H I J K L M=1 :are supported",
        b":bnc 005 Me A B C D E F G H I J K L :are supported by this server\r\n\
        :bnc 005 Me M=1 :are supported by this server\r\n",
    ),
];

/// Twelve tokens are one line, and thirteen two.
#[test]
fn tokens_up_to_twelve(rt: HostRuntime) -> Result<(), Fail> {
    for (told, wanted) in &TOKENS_UP_TO_TWELVE {
        check_tokens(&rt, told, wanted)?;
    }
    Ok(())
}

/// Four tokens, three of them with 299 bytes and the spaces between them: all after `start`, and
/// the last, of this length, after `gap`.
fn token_list(
    alloc: Global,
    start: &[u8],
    gap: &[u8],
    len: usize,
    end: &[u8],
) -> Result<Vec<u8>, Fail> {
    let mut text = Vec::from_slice(alloc, start)?;
    for letter in b"ABC" {
        text.push(b' ')?;
        text.push(*letter)?;
        text.push(b'=')?;
        push_times(&mut text, b'x', 97)?;
    }
    text.extend_from_slice(gap)?;
    push_times(&mut text, b'D', len)?;
    text.extend_from_slice(end)?;
    Ok(text)
}

/// Four tokens, the last with this length, are sent with this before the last.
fn check_four_tokens<R: AllocGlobal + Abort>(rt: &R, len: usize, gap: &[u8]) -> Result<(), Fail> {
    let told = token_list(rt.alloc(), b":s 005 Me", b" ", len, b" :are supported")?;
    let end = b" :are supported by this server\r\n";
    let wanted = token_list(rt.alloc(), b":bnc 005 Me", gap, len, end)?;
    check_tokens(rt, &told, &wanted)
}

const TOKENS_UP_TO_400_BYTES: [(usize, &[u8]); 3] = [
    (100, b" "),
    (101, b" :are supported by this server\r\n:bnc 005 Me "),
    (450, b" :are supported by this server\r\n:bnc 005 Me "),
];

/// Tokens of 400 bytes are one line, those of 401 bytes two; one that is longer has its own.
#[test]
fn tokens_up_to_400_bytes(rt: HostRuntime) -> Result<(), Fail> {
    for (len, gap) in &TOKENS_UP_TO_400_BYTES {
        check_four_tokens(&rt, *len, gap)?;
    }
    Ok(())
}

const MEMBERS_BY_OTHER_RANKS_TEXTS: [&[u8]; 5] = [
    b":s 001 Me :hi",
    b":s 005 Me PREFIX= :are supported",
    b":Me!m@h JOIN #c",
    b":s 353 Me = #c :Me bob @eve",
    b":s MODE #c +o bob",
];

const MEMBERS_BY_OTHER_RANKS: [(&[u8], &[u8]); 2] = [
    (b"", b":bnc 353 Me = #c :bob Me\r\n"),
    (b"multi-prefix", b":bnc 353 Me = #c :bob Me\r\n"),
];

const MEMBERS_BY_OTHER_RANKS_SAID: [&[u8]; 5] = [
    b":s 001 Me :hi",
    b":s 005 Me PREFIX=(qaohv)~&@%+ :are supported",
    b":Me!m@h JOIN #c",
    b":s 353 Me = #c :Me +%@&~bob %+eve",
    b":s MODE #c -q+v bob Me",
];

const MEMBERS_BY_OTHER_RANKS_THEN: [(&[u8], &[u8]); 2] = [
    (b"", b":bnc 353 Me = #c :&bob %eve +Me\r\n"),
    (b"multi-prefix", b":bnc 353 Me = #c :&@%+bob %+eve +Me\r\n"),
];

/// A network without ranks, and one of five.
#[test]
fn members_by_other_ranks(rt: HostRuntime) -> Result<(), Fail> {
    check_lines(
        &rt,
        &MEMBERS_BY_OTHER_RANKS_TEXTS,
        b"353",
        &MEMBERS_BY_OTHER_RANKS,
    )?;
    check_lines(
        &rt,
        &MEMBERS_BY_OTHER_RANKS_SAID,
        b"353",
        &MEMBERS_BY_OTHER_RANKS_THEN,
    )
}
