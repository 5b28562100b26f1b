//! Lines that come in pieces, and what is skipped between them.

use irc_line::{FeedError, LINE_LIMIT, Line, Splitter};
use std::alloc::Global;
use std::process::Abort;
use std::test::Fail;

/// Feeds a piece, and then there are this many lines.
fn has_lines<R: AllocGlobal + Abort>(
    rt: &R,
    splitter: &mut Splitter,
    lines: &mut Vec<Line>,
    piece: &[u8],
    count: usize,
) -> Result<(), Fail> {
    splitter.feed(piece, lines)?;
    assert!(rt; lines.len() == count);
    Ok(())
}

/// Feeds a piece that is refused.
fn is_too_long<R: AllocGlobal + Abort>(
    rt: &R,
    splitter: &mut Splitter,
    lines: &mut Vec<Line>,
    piece: &[u8],
) {
    let count = lines.len();
    let fed = splitter.feed(piece, lines);
    assert!(rt; fed == Err(FeedError::TooLong) && lines.len() == count);
}

/// Two pieces of a line; the first has no end.
fn feed_two<R: AllocGlobal + Abort>(
    rt: &R,
    splitter: &mut Splitter,
    lines: &mut Vec<Line>,
    (piece, rest): (&[u8], &[u8]),
) -> Result<(), Fail> {
    has_lines(rt, splitter, lines, piece, 0)?;
    has_lines(rt, splitter, lines, rest, 1)?;
    assert!(rt; splitter.skipped() == 0 && all_say_hi(lines.as_slice()));
    Ok(())
}

/// Whether each line has `hi` as its second parameter.
fn all_say_hi(lines: &[Line]) -> bool {
    lines
        .iter()
        .all(|line| line.param(1) == Some(b"hi".as_slice()))
}

#[test]
fn a_line_cut_after_each_byte(rt: HostRuntime) -> Result<(), Fail> {
    let text = b":s 001 Me :hi\r\n";
    for at in 1..15 {
        let mut splitter = Splitter::new(rt.alloc());
        let mut lines = Vec::new(rt.alloc());
        feed_two(&rt, &mut splitter, &mut lines, text.split_at(at))?;
    }
    Ok(())
}

const FIVE_THAT_ARE_NO_LINES: &[u8] =
    b"\r\n  \n\n12 x\nNI1CK x\r\nPING \0\nPING\rx\nPING x\r\r\nPING x\nPI";

/// Five texts that are no lines are skipped, and the lines between and after them are read.
fn five_are_skipped<R: AllocGlobal + Abort>(
    rt: &R,
    splitter: &mut Splitter,
    lines: &mut Vec<Line>,
) -> Result<(), Fail> {
    has_lines(rt, splitter, lines, FIVE_THAT_ARE_NO_LINES, 1)?;
    assert!(rt; splitter.skipped() == 5);
    has_lines(rt, splitter, lines, b"NG y\nPING z\n", 3)
}

#[test]
fn what_is_no_line_is_skipped(rt: HostRuntime) -> Result<(), Fail> {
    let mut splitter = Splitter::new(rt.alloc());
    let mut lines = Vec::new(rt.alloc());
    five_are_skipped(&rt, &mut splitter, &mut lines)
}

/// This many letters after `PING ` are a line, and one more is none: what is refused is forgotten.
fn one_above<R: AllocGlobal + Abort>(
    rt: &R,
    splitter: &mut Splitter,
    lines: &mut Vec<Line>,
    most: &[u8],
) -> Result<(), Fail> {
    has_lines(rt, splitter, lines, b"PING ", 0)?;
    has_lines(rt, splitter, lines, most, 0)?;
    is_too_long(rt, splitter, lines, b"x");
    is_too_long(rt, splitter, lines, b"x\nPING\n");
    has_lines(rt, splitter, lines, b"\nPING", 1)
}

#[test]
fn a_line_at_the_limit_and_one_above(rt: HostRuntime) -> Result<(), Fail> {
    let most = vec![in rt.alloc(); b'x'; LINE_LIMIT - 5]?;
    let mut splitter = Splitter::new(rt.alloc());
    let mut lines = Vec::new(rt.alloc());
    one_above(&rt, &mut splitter, &mut lines, &most)
}

/// Three ends of lines, and a line of this many letters.
fn lines_in_a_piece(alloc: Global, count: usize) -> Result<Vec<u8>, Fail> {
    let mut piece = b"\n\n\n".to_vec(alloc)?;
    for _ in 0..count {
        piece.push(b'x')?;
    }
    piece.push(b'\n')?;
    Ok(piece)
}

/// A piece with a line at the limit is read, and one with a longer line is refused.
fn one_within<R: AllocGlobal + Abort>(
    rt: &R,
    splitter: &mut Splitter,
    lines: &mut Vec<Line>,
    (piece, longer): (&[u8], &[u8]),
) -> Result<(), Fail> {
    // the first of the three ends what an earlier piece began
    has_lines(rt, splitter, lines, b"PING", 0)?;
    has_lines(rt, splitter, lines, piece, 2)?;
    is_too_long(rt, splitter, lines, longer);
    Ok(())
}

#[test]
fn a_line_at_the_limit_within_a_piece(rt: HostRuntime) -> Result<(), Fail> {
    let piece = lines_in_a_piece(rt.alloc(), LINE_LIMIT)?;
    let longer = lines_in_a_piece(rt.alloc(), LINE_LIMIT + 1)?;
    let mut splitter = Splitter::new(rt.alloc());
    let mut lines = Vec::new(rt.alloc());
    one_within(&rt, &mut splitter, &mut lines, (&piece, &longer))
}
