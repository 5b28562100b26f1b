//! The reader that hands on one line at a time.

use crate::memory::{gives, next};
use shell::{ByLine, lines_left};
use std::alloc::Global;
use std::io::ErrorKind;
use std::test::Fail;
use test_streams::Pieces;

#[test]
fn lines_come_one_by_one_however_they_were_cut(rt: HostRuntime) -> Result<(), Fail> {
    let alloc = rt.alloc();
    let cuts: [&[&[u8]]; 3] = [
        &[b"NICK a\r\nPASS b\r\nhal"],
        &[b"NI", b"CK a\r", b"\nPASS b\r\nhal"],
        &[b"NICK a\r\nPA", b"SS b\r", b"\n", b"h", b"al"],
    ];
    for cut in cuts {
        let mut lines = ByLine::new(alloc, Pieces::new(alloc, cut)?);
        assert!(rt; gives(alloc, &mut lines, b"NICK a\r\n")?);
        assert!(rt; !lines.has_pass());
        assert!(rt; gives(alloc, &mut lines, b"PASS b\r\n")?);
        assert!(rt; lines.has_pass());
        assert!(rt; gives(alloc, &mut lines, b"hal")?);
        assert!(rt; next(alloc, &mut lines)?.is_empty());
        assert!(rt; lines.input().unread(alloc)?.is_empty());
    }
    Ok(())
}

/// The lines of a stream that fails after two pieces, once before its third.
fn failing(alloc: Global) -> Result<ByLine<Pieces>, Fail> {
    let mut pieces = Pieces::new(alloc, &[b"NICK a\r\nUS", b"ER"])?;
    pieces.fault = Some(ErrorKind::TimedOut);
    Ok(ByLine::new(alloc, pieces))
}

#[test]
fn a_line_that_is_there_comes_before_the_fault(rt: HostRuntime) -> Result<(), Fail> {
    let alloc = rt.alloc();
    let mut lines = failing(alloc)?;
    assert!(rt; gives(alloc, &mut lines, b"NICK a\r\n")?);
    for _ in 0..2 {
        match next(alloc, &mut lines) {
            Ok(_) => assert!(rt; false),
            Err(error) => assert!(rt; error.kind() == ErrorKind::TimedOut),
        }
    }
    Ok(())
}

#[test]
fn lines_that_are_left_are_counted(rt: HostRuntime) -> Result<(), Fail> {
    let mut pieces = Pieces::new(rt.alloc(), &[b"a\r\nb", b"\nc\n", b"d"])?;
    assert_eq!(rt; lines_left(&mut pieces), 3);
    Ok(())
}
