//! Sessions whose client vanished: what the next session of the name is sent again.

use crate::hub_rows::events::WELCOME;
use crate::hub_rows::scripts::{Story, check, check_text, text_of};
use crate::hub_rows::{BURST, SETUP, STORY};
use hub_core::Setup;
use std::alloc::Global;
use std::test::Fail;

/// The messages that come, numbered from 1.
const MESSAGES: [&[u8]; 6] = [
    b"up :bob!b@h PRIVMSG #c m1",
    b"up :bob!b@h PRIVMSG #c m2",
    b"up :bob!b@h PRIVMSG #c m3",
    b"up :bob!b@h PRIVMSG #c m4",
    b"up :bob!b@h PRIVMSG #c m5",
    b"up :bob!b@h PRIVMSG #c m6",
];

/// The same as a client is sent them.
const PLAYED: [&[u8]; 6] = [
    b":bob!b@h PRIVMSG #c m1",
    b":bob!b@h PRIVMSG #c m2",
    b":bob!b@h PRIVMSG #c m3",
    b":bob!b@h PRIVMSG #c m4",
    b":bob!b@h PRIVMSG #c m5",
    b":bob!b@h PRIVMSG #c m6",
];

/// A session is detached after some messages, which leaves its name that mark, or none after none.
/// The next one is left after some more. Then one message comes, and the third is first sent this
/// one.
#[derive(Clone, Copy)]
struct Row {
    detached: usize,
    left: usize,
    leave: &'static [u8],
    first: usize,
}

/// The mark becomes the largest of itself and the number, at most the last number.
fn rows() -> [Row; 12] {
    [
        make_row(0, 0, b"leave 1 5", 1),
        make_row(0, 3, b"leave 1 -", 1),
        make_row(0, 3, b"leave 1 0", 1),
        make_row(0, 3, b"leave 1 2", 3),
        make_row(0, 3, b"leave 1 3", 4),
        make_row(0, 3, b"leave 1 9", 4),
        make_row(2, 4, b"leave 1 -", 3),
        make_row(2, 4, b"leave 1 1", 3),
        make_row(2, 4, b"leave 1 2", 3),
        make_row(2, 4, b"leave 1 3", 4),
        make_row(2, 4, b"leave 1 4", 5),
        make_row(2, 4, b"leave 1 9", 5),
    ]
}

fn make_row(detached: usize, left: usize, leave: &'static [u8], first: usize) -> Row {
    Row {
        detached,
        left,
        leave,
        first,
    }
}

/// Shown is all that the third session is sent.
const OF_THE_THIRD: Story = Story {
    setup: Setup {
        history: 8,
        ..SETUP
    },
    of: 2,
    from: 0,
    ..STORY
};

/// Adds the lines after one place, up to another.
fn push_lines(
    lines: &mut Vec<&'static [u8]>,
    all: [&'static [u8]; 6],
    after: usize,
    up_to: usize,
) -> Result<(), Fail> {
    for (place, line) in all.into_iter().enumerate() {
        if place >= after && place < up_to {
            lines.push(line)?;
        }
    }
    Ok(())
}

fn script_of(alloc: Global, row: Row) -> Result<Vec<&'static [u8]>, Fail> {
    let mut script: Vec<&'static [u8]> = Vec::new(alloc);
    script.push(b"attach - pc 16")?;
    push_lines(&mut script, MESSAGES, 0, row.detached)?;
    script.push(b"detach 0")?;
    script.push(b"attach - pc 16")?;
    push_lines(&mut script, MESSAGES, row.detached, row.left)?;
    script.push(row.leave)?;
    push_lines(&mut script, MESSAGES, row.left, row.left.saturating_add(1))?;
    script.push(b"attach - pc 16")?;
    Ok(script)
}

fn wanted_of(alloc: Global, row: Row) -> Result<Vec<u8>, Fail> {
    let mut lines: Vec<&'static [u8]> = Vec::new(alloc);
    lines.push(b"session 0")?;
    lines.push(b"session 1")?;
    lines.push(b"session 2")?;
    lines.extend_from_slice(&BURST)?;
    let before = lines.len();
    let last = row.left.saturating_add(1);
    push_lines(&mut lines, PLAYED, row.first.saturating_sub(1), last)?;
    let played = lines.len().saturating_sub(before);
    let mut text = text_of(alloc, &lines)?;
    let count = format!(in alloc; "packets {}\r\n", played.saturating_add(9))?;
    text.extend_from_slice(count.as_str().as_bytes())?;
    Ok(text)
}

/// The next session of a name is sent each message above the mark that was left, in order, once.
#[test]
fn what_is_sent_again(rt: HostRuntime) -> Result<(), Fail> {
    for row in rows() {
        let script = script_of(rt.alloc(), row)?;
        let wanted = wanted_of(rt.alloc(), row)?;
        check_text(&rt, OF_THE_THIRD, &WELCOME, &script, &wanted)?;
    }
    Ok(())
}

const LEFT_TWICE: [&[u8]; 4] = [
    b"attach - pc 16",
    b"up :bob!b@h PRIVMSG #c m1",
    b"leave 0 1",
    b"leave 0 1",
];

const LEFT_TWICE_WANTED: [&[u8]; 4] = [
    b"session 0",
    b"no session",
    b":bob!b@h PRIVMSG #c m1",
    b"packets 1",
];

/// A session is left once, and its outlet is kept with what it was sent.
#[test]
fn a_session_that_is_left_twice(rt: HostRuntime) -> Result<(), Fail> {
    let gone = Story {
        of: 0,
        is_gone: true,
        ..STORY
    };
    check(&rt, gone, &LEFT_TWICE, &LEFT_TWICE_WANTED)
}
