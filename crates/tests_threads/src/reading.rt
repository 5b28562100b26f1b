//! The reading of a network: pieces of bytes become items.

use hub_ends::Inlet;
use hub_threads::{FreeGate, InletEnd, ReadEnd, RingInlet, inlet, read_in, shared_bell};
use irc_line::Splitter;
use net_view::Item;
use std::alloc::Global;
use std::io::ErrorKind;
use std::process::Abort;
use std::sync::Wait;
use std::test::Fail;
use test_stage::gates::Still;
use test_streams::Pieces;

fn ended_text(ended: ReadEnd) -> &'static [u8] {
    match ended {
        ReadEnd::EndOfInput => b"end of input\r\n",
        ReadEnd::ReadFault => b"read fault\r\n",
        ReadEnd::TooLong => b"line too long\r\n",
        ReadEnd::OutOfMemory => b"out of memory\r\n",
        ReadEnd::TurnsSpent => b"turns spent\r\n",
    }
}

/// Both ends of a ring.
fn ring(alloc: Global) -> Result<(InletEnd, RingInlet), Fail> {
    Ok(inlet(alloc, 8, shared_bell(alloc)?)?)
}

/// All items that wait.
fn items_text(alloc: Global, inlet: &mut RingInlet) -> Result<Vec<u8>, Fail> {
    let mut text = Vec::new(alloc);
    for _ in 0..100 {
        match inlet.next() {
            Some((Item::Line(line), _)) => line.write(&mut text)?,
            Some((Item::Lost, _)) => text.extend_from_slice(b"lost\r\n")?,
            None => break,
        }
    }
    Ok(text)
}

/// The items that come of this reader, and why the reading ended.
fn read_text<R: Wait>(rt: &R, alloc: Global, reader: &mut Pieces) -> Result<Vec<u8>, Fail> {
    let (end, mut inlet) = ring(alloc)?;
    let splitter = Splitter::new(alloc);
    let reading = read_in(rt, alloc, reader, splitter, end, &FreeGate, &Still);
    let mut text = items_text(alloc, &mut inlet)?;
    text.extend_from_slice(ended_text(reading.ended))?;
    Ok(text)
}

/// Fails if this is not what comes of these pieces.
fn check<R: AllocGlobal + Wait + Abort>(
    rt: &R,
    pieces: &[&[u8]],
    fault: Option<ErrorKind>,
    wanted: &[u8],
) -> Result<(), Fail> {
    let mut reader = Pieces::new(rt.alloc(), pieces)?;
    reader.fault = fault;
    let text = read_text(rt, rt.alloc(), &mut reader)?;
    assert!(rt; text.as_slice() == wanted);
    Ok(())
}

/// A welcome, and the beginning of a JOIN.
const BEGUN: [&[u8]; 2] = [b":s 001 Me :hi\r\n", b":Me!m@h JOI"];

#[test]
fn a_read_that_fails(rt: HostRuntime) -> Result<(), Fail> {
    check(
        &rt,
        &BEGUN,
        Some(ErrorKind::ConnectionReset),
        b":s 001 Me hi\r\nlost\r\nread fault\r\n",
    )
}

#[test]
fn an_input_that_ends(rt: HostRuntime) -> Result<(), Fail> {
    check(
        &rt,
        &BEGUN,
        None,
        b":s 001 Me hi\r\nlost\r\nend of input\r\n",
    )
}

/// No line is put of the piece in which a line grows too long.
#[test]
fn a_line_that_is_too_long(rt: HostRuntime) -> Result<(), Fail> {
    let long = vec![in rt.alloc(); b'x'; 16_385]?;
    let [welcome, begun] = BEGUN;
    check(
        &rt,
        &[welcome, begun, &long],
        None,
        b":s 001 Me hi\r\nlost\r\nline too long\r\n",
    )
}

/// However the bytes are cut, they give the same lines; what is no line is passed over.
#[test]
fn lines_in_pieces(rt: HostRuntime) -> Result<(), Fail> {
    check(
        &rt,
        &[
            b":s PI",
            b"NG x\r",
            b"\n:s 376 Me :e",
            b"nd\n\n\r\n12 x\n:s PING y\n",
        ],
        None,
        b":s PING x\r\n:s 376 Me end\r\n:s PING y\r\nlost\r\nend of input\r\n",
    )
}

/// The same of single bytes; a line without its end is dropped.
#[test]
fn a_byte_is_read_at_a_time(rt: HostRuntime) -> Result<(), Fail> {
    let alloc = rt.alloc();
    let said: [&[u8]; 1] = [b":s 001 Me :hi\r\n\r\n12 x\n:s PING y\n:Me!m@h JOI"];
    let mut reader = Pieces::new(alloc, &said)?;
    reader.a_call = 1;
    let wanted = b":s 001 Me hi\r\n:s PING y\r\nlost\r\nend of input\r\n".as_slice();
    assert!(&rt; read_text(&rt, alloc, &mut reader)?.as_slice() == wanted);
    Ok(())
}
