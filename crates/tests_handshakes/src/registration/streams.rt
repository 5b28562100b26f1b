//! Registrations over a reader and a writer.

use crate::settings::{network_of, plain};
use irc_line::Line;
use std::alloc::Global;
use std::io::{ErrorKind, Read, Write};
use std::process::Abort;
use std::test::Fail;
use test_streams::{Pieces, Sink};
use upstream::{DialFault, RegisterFault, Welcomed, register};

/// What a network sends, to the middle of a line after the welcome.
pub(crate) const INPUT: &str =
    ":s NOTICE * :hi\r\n:s CAP * LS :server-time\r\n:s CAP * ACK :server-time\r\n\
    :s 001 ann :hi\r\n:s 005 ann PREFIX=(o)@ :are supported\r\n:s 37";

/// What is sent to it.
pub(crate) const SENT: &str =
    "CAP LS 302\r\nNICK ann\r\nUSER ann 0 * :Ann A\r\nCAP REQ server-time\r\nCAP END\r\n";

/// Registers by the plain settings.
fn registers<R: Read, W: Write>(
    alloc: Global,
    reader: &mut R,
    writer: &mut W,
) -> Result<Result<Welcomed, DialFault>, Fail> {
    let config = plain(alloc)?;
    Ok(register(alloc, reader, writer, network_of(&config)?))
}

const IS_WELCOMED_COMMANDS: [&[u8]; 3] = [b"001", b"005", b"376"];

/// How many lines the welcome came with, and the lines after the rest has come.
fn is_welcomed<R: AllocGlobal + Abort>(
    rt: &R,
    welcomed: &mut Welcomed,
    rest: &[u8],
    lines_of_welcome: usize,
) -> Result<(), Fail> {
    assert!(rt; welcomed.lines.len() == lines_of_welcome);
    welcomed.splitter.feed(rest, &mut welcomed.lines)?;
    welcomed
        .splitter
        .feed(b"6 ann :end\r\n", &mut welcomed.lines)?;
    assert!(rt; welcomed.lines.len() == IS_WELCOMED_COMMANDS.len());
    for (line, command) in welcomed.lines.iter().zip(IS_WELCOMED_COMMANDS) {
        let line: &Line = line;
        assert!(rt; line.is(command));
    }
    Ok(())
}

/// Registers by pieces of this size.
fn registers_by<R: AllocGlobal + Abort>(
    rt: &R,
    size: usize,
    lines_of_welcome: usize,
) -> Result<(), Fail> {
    let mut reader = Pieces::new(rt.alloc(), &[INPUT.as_bytes()])?;
    reader.a_call = size;
    let mut sent = Vec::new(rt.alloc());
    let mut welcomed = registers(rt.alloc(), &mut reader, &mut sent)??;
    assert!(rt; sent.as_slice() == SENT.as_bytes());
    is_welcomed(
        rt,
        &mut welcomed,
        &reader.unread(rt.alloc())?,
        lines_of_welcome,
    )
}

#[test]
fn however_the_bytes_are_cut(rt: HostRuntime) -> Result<(), Fail> {
    for (size, lines_of_welcome) in [(1, 1), (2, 1), (7, 1), (4_096, 2)] {
        registers_by(&rt, size, lines_of_welcome)?;
    }
    Ok(())
}

#[test]
fn reads_that_fail(rt: HostRuntime) -> Result<(), Fail> {
    let alloc = rt.alloc();
    for good_calls in 0..12 {
        let mut reader = Pieces::new(alloc, &[INPUT.as_bytes()])?;
        reader.a_call = 7;
        reader.good_calls = good_calls;
        reader.fault = Some(ErrorKind::ConnectionReset);
        let mut sent = Vec::new(alloc);
        let done = registers(alloc, &mut reader, &mut sent)?;
        assert!(rt; matches!(done, Err(DialFault::Read)));
    }
    let mut early = b":s NOTICE * :hi\r\n:s 00".as_slice();
    let done = registers(alloc, &mut early, &mut Vec::new(alloc))?;
    assert!(rt; matches!(done, Err(DialFault::Read)));
    Ok(())
}

/// Registers with this many writes that succeed.
fn registers_with_writes(
    alloc: Global,
    good_calls: usize,
) -> Result<Result<Welcomed, DialFault>, Fail> {
    let mut writer = Sink::new(alloc);
    writer.good_calls = good_calls;
    registers(alloc, &mut INPUT.as_bytes(), &mut writer)
}

#[test]
fn writes_that_fail(rt: HostRuntime) -> Result<(), Fail> {
    for good_calls in 0..3 {
        let done = registers_with_writes(rt.alloc(), good_calls)?;
        assert!(rt; matches!(done, Err(DialFault::Write)));
    }
    assert!(rt; registers_with_writes(rt.alloc(), 3)?.is_ok());
    Ok(())
}

#[test]
fn lines_that_are_too_long_and_faults(rt: HostRuntime) -> Result<(), Fail> {
    let alloc = rt.alloc();
    let long = vec![in alloc; b'x'; 16_385]?;
    let done = registers(alloc, &mut long.as_slice(), &mut Vec::new(alloc))?;
    assert!(rt; matches!(done, Err(DialFault::TooLong)));
    let mut refused = b":s 464 * :no\r\n:s 001 ann :hi\r\n".as_slice();
    let done = registers(alloc, &mut refused, &mut Vec::new(alloc))?;
    assert!(rt; matches!(done, Err(DialFault::Register(RegisterFault::Refused))));
    Ok(())
}
