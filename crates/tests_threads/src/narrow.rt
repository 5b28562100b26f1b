//! Writers that take no more bytes, or can't be flushed.

use hub_threads::{FreeGate, Turns, WriteFault, spawn_writer};
use sessions::{LoginFault, Served, log_in};
use std::alloc::Global;
use std::test::Fail;
use test_stage::ann::{self, LOGIN, is_cut, many_questions, serves_over};
use test_stage::stage::{BURST, JOINED, attach, stage_after};
use test_streams::Sink;

/// A write that takes no byte has failed: the writer ends, and a beginning of the burst was
/// written.
#[test]
fn no_byte_is_taken(rt: HostRuntime) -> Result<(), Fail> {
    let alloc = rt.alloc();
    let stage = stage_after(&rt, alloc, 1, &JOINED)?;
    let (_, end) = attach(&rt, alloc, &stage.network, b"", 8)?;
    let mut out = Sink::new(alloc);
    out.in_all = 100;
    let writer = spawn_writer(rt, end, out, FreeGate, Turns::Endless)?;
    let written = writer.join(&rt);
    assert!(&rt; written.outcome == Err(WriteFault));
    assert!(&rt; written.out.bytes.as_slice() == &BURST[..100]);
    Ok(())
}

/// A writer that takes all bytes, and can be flushed this many times.
fn unflushed(alloc: Global, good_flushes: usize) -> Sink {
    let mut out = Sink::new(alloc);
    out.good_flushes = good_flushes;
    out
}

/// A flush that fails counts as a write that failed, even if all bytes were taken.
#[test]
fn a_session_that_is_not_flushed(rt: HostRuntime) -> Result<(), Fail> {
    let alloc = rt.alloc();
    let stage = stage_after(&rt, alloc, 1, &JOINED)?;
    let (_, end) = attach(&rt, alloc, &stage.network, b"", 8)?;
    let writer = spawn_writer(rt, end, unflushed(alloc, 0), FreeGate, Turns::Endless)?;
    let written = writer.join(&rt);
    assert!(&rt; written.outcome == Err(WriteFault));
    assert!(&rt; written.out.bytes.as_slice() == BURST);
    Ok(())
}

/// A question, and then a login.
const ASKS: &[u8] = b"CAP LIST\r\nPING x\r\nCAP END\r\nPASS ann@pc/net:bc\r\nNICK x\r\n\
    USER x 0 * :A\r\n";

/// A login ends at the answer that can't be flushed: what comes after it is not answered.
#[test]
fn a_login_that_is_not_flushed(rt: HostRuntime) -> Result<(), Fail> {
    let mut out = unflushed(rt.alloc(), 0);
    let mut said = ASKS;
    match log_in(rt.alloc(), &mut said, &mut out) {
        Err(fault) => assert!(&rt; fault == LoginFault::Write),
        Ok(_) => return Err("it has logged in")?,
    }
    assert!(&rt; out.bytes.as_slice() == b":bnc CAP * LIST :\r\n".as_slice());
    Ok(())
}

/// A client whose writer can't be flushed in its login gets no session. If it can't be flushed
/// later, the session ends with the fault of its writer.
#[test]
fn a_client_that_is_not_flushed(rt: HostRuntime) -> Result<(), Fail> {
    let alloc = rt.alloc();
    let out = unflushed(alloc, 0);
    assert!(&rt; matches!(serves_over(rt, alloc, out, ASKS)?, Served::NoLogin));
    let quits = format!(in alloc; "{LOGIN}QUIT\r\n")?;
    // each line of the login is followed by a flush, except its last one
    let out = unflushed(alloc, 2);
    match serves_over(rt, alloc, out, quits.as_str().as_bytes())? {
        Served::Ended(ended) => {
            assert!(&rt; ended.written == Err(WriteFault));
            assert!(&rt; ended.out.bytes.as_slice() == ann::BURST.as_bytes());
        }
        _ => return Err("it has no session")?,
    }
    Ok(())
}

/// A session whose client takes no byte is cut when its outlet is full, and ends so.
#[test]
fn who_takes_no_byte_is_cut(rt: HostRuntime) -> Result<(), Fail> {
    let said = many_questions(rt.alloc())?;
    let mut out = Sink::new(rt.alloc());
    out.in_all = 0;
    assert!(rt; is_cut(rt, rt.alloc(), out, said.as_slice())?);
    Ok(())
}
