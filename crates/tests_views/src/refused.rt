//! Each allocation refused in turn: for n from 1 on, the nth allocation of a call is refused, until
//! the call meets no refusal. After each refusal all is as it was, and in the end the call answers
//! what it answers if there is memory.

mod kept;
mod made;
mod taken;

use crate::refusing::Refusing;
use irc_line::{FeedError, Line, Splitter};
use std::alloc::{AllocError, Allocator, Global};
use std::process::Abort;
use std::test::Fail;

/// More refusals than any call here meets.
const MANY: u64 = 1_000;

type Heap = Refusing<Global>;

/// What lines are, as they are written.
fn lines_text<A: Allocator, B: Allocator>(
    alloc: Global,
    lines: &Vec<Line<A>, B>,
) -> Result<Vec<u8>, AllocError> {
    let mut text = Vec::new(alloc);
    for line in lines {
        line.write(&mut text)?;
    }
    Ok(text)
}

const TRANSCRIPT: &[u8] = b":s 001 Me :hi\r\n\
    :s 005 Me PREFIX=(ov)@+ CHANTYPES=# :are supported\r\n\
    :s 376 Me :end\r\n\
    12 x\r\n\
    :Me!m@h JOIN #c\r\n\
    :s 353 Me = #c :Me @+bob\r\n\
    :bob!b@h NICK rob\r\n\
    :s MODE #c -o rob\r\n";

/// The lines of the transcript, as they are written; one text is none.
const ITS_LINES: &[u8] = b":s 001 Me hi\r\n\
    :s 005 Me PREFIX=(ov)@+ CHANTYPES=# :are supported\r\n\
    :s 376 Me end\r\n\
    :Me!m@h JOIN #c\r\n\
    :s 353 Me = #c :Me @+bob\r\n\
    :bob!b@h NICK rob\r\n\
    :s MODE #c -o rob\r\n";

/// Feeds a piece. If that is refused, nothing has changed, and the piece is fed again.
fn feed<R: AllocGlobal + Abort, A: Allocator + Copy>(
    rt: &R,
    splitter: &mut Splitter<A>,
    piece: &[u8],
    out: &mut Vec<Line<A>, A>,
) -> Result<(), Fail> {
    let skipped = splitter.skipped();
    let before = lines_text(rt.alloc(), out)?;
    match splitter.feed(piece, out) {
        Ok(()) => Ok(()),
        Err(e) => {
            assert!(rt; e == FeedError::OutOfMemory && splitter.skipped() == skipped);
            assert!(rt; lines_text(rt.alloc(), out)? == before);
            Ok(splitter.feed(piece, out)?)
        }
    }
}

/// Feeds the transcript, cut here, and the nth allocation is refused; whether one was.
fn feed_cut<R: AllocGlobal + Abort>(rt: &R, cut: usize, nth: u64) -> Result<bool, Fail> {
    let heap = Heap::none(rt.alloc());
    let mut splitter = Splitter::new(&heap);
    let mut out = Vec::new(&heap);
    let (first, second) = TRANSCRIPT.split_at(cut.min(TRANSCRIPT.len()));
    heap.refuse(nth);
    feed(rt, &mut splitter, first, &mut out)?;
    feed(rt, &mut splitter, second, &mut out)?;
    assert!(rt; lines_text(rt.alloc(), &out)?.as_slice() == ITS_LINES && splitter.skipped() == 1);
    Ok(heap.has_refused())
}

/// A transcript in two pieces, however it is cut; the first of them is empty at first.
#[test]
fn pieces_that_are_fed(rt: HostRuntime) -> Result<(), Fail> {
    for cut in 0..TRANSCRIPT.len() {
        for nth in 1..MANY {
            if !feed_cut(&rt, cut, nth)? {
                break;
            }
            assert!(&rt; nth < 20);
        }
    }
    Ok(())
}
