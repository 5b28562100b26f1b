//! How a session ends, and what its writer says of it.

use hub_threads::{
    Ended, FreeGate, Network, Turns, WriteFault, end_session, end_session_at, spawn_writer,
};
use net_view::NetworkView;
use std::alloc::Global;
use std::sync::Wait;
use std::test::Fail;
use std::thread::Threads;
use test_stage::stage::{attach, is_joined, stage_after};
use test_streams::Sink;
use test_texts::{GREETING, begins};

/// A welcome without settings, on no channel.
const READY: [&[u8]; 2] = [b":s 001 Me :hi", b":s 422 Me :none"];

/// The burst of a client that attaches after these lines: 201 bytes.
const BURST: [&[u8]; 2] = [GREETING, b":bnc 422 Me :MOTD File is missing\r\n"];

/// A session that is written to this writer, and ends.
fn ended<R: Threads + Wait + Send + Copy + 'static>(
    rt: R,
    alloc: Global,
    out: Sink,
) -> Result<Ended<Sink>, Fail> {
    let stage = stage_after(&rt, alloc, 1, &READY)?;
    ended_on(rt, alloc, &stage.network, out)
}

/// A session of this network that is written to this writer, and ends.
fn ended_on<V: NetworkView + Drop, R: Threads + Wait + Send + Copy + 'static>(
    rt: R,
    alloc: Global,
    network: &Network<V>,
    out: Sink,
) -> Result<Ended<Sink>, Fail> {
    let (id, end) = attach(&rt, alloc, network, b"", 8)?;
    let writer = spawn_writer(rt, end, out, FreeGate, Turns::Endless)?;
    match end_session(&rt, network, id, writer) {
        Ok(ended) => Ok(ended),
        Err(_) => Err("no session")?,
    }
}

#[test]
fn all_is_written(rt: HostRuntime) -> Result<(), Fail> {
    let ended = ended(rt, rt.alloc(), Sink::new(rt.alloc()))?;
    assert!(&rt; ended.token);
    assert!(&rt; ended.written == Ok(201));
    assert!(&rt; is_joined(rt.alloc(), &ended.out.bytes, &BURST)?);
    Ok(())
}

#[test]
fn a_byte_is_taken_at_a_time(rt: HostRuntime) -> Result<(), Fail> {
    let mut out = Sink::new(rt.alloc());
    out.a_call = 1;
    let ended = ended(rt, rt.alloc(), out)?;
    assert!(&rt; ended.token);
    assert!(&rt; ended.written == Ok(201));
    assert!(&rt; is_joined(rt.alloc(), &ended.out.bytes, &BURST)?);
    Ok(())
}

/// Whether the closing item was seen by then depends on which thread was first.
#[test]
fn a_writer_fails_after_100_bytes(rt: HostRuntime) -> Result<(), Fail> {
    let mut out = Sink::new(rt.alloc());
    out.a_call = 50;
    out.good_calls = 2;
    let ended = ended(rt, rt.alloc(), out)?;
    assert!(&rt; ended.written == Err(WriteFault));
    assert!(&rt; ended.out.bytes.len() == 100 && begins(&ended.out.bytes, GREETING));
    Ok(())
}

/// Ends a session that is not there. Whether that is refused.
fn is_refused<R: Threads + Wait + Send + Copy + 'static>(
    rt: R,
    alloc: Global,
) -> Result<bool, Fail> {
    let stage = stage_after(&rt, alloc, 1, &READY)?;
    is_refused_by(rt, alloc, &stage.network)
}

/// The same at this network.
fn is_refused_by<V: NetworkView + Drop, R: Threads + Wait + Send + Copy + 'static>(
    rt: R,
    alloc: Global,
    network: &Network<V>,
) -> Result<bool, Fail> {
    let (_, end) = attach(&rt, alloc, network, b"", 8)?;
    let writer = spawn_writer(rt, end, Sink::new(alloc), FreeGate, Turns::AtMost(1))?;
    Ok(end_session(&rt, network, 99, writer).is_err())
}

#[test]
fn no_such_session(rt: HostRuntime) -> Result<(), Fail> {
    assert!(&rt; is_refused(rt, rt.alloc())?);
    Ok(())
}

/// A session of this network that is written to, and whose client vanishes.
fn left_on<V: NetworkView + Drop, R: Threads + Wait + Send + Copy + 'static>(
    rt: R,
    alloc: Global,
    network: &Network<V>,
) -> Result<Ended<Sink>, Fail> {
    let (id, end) = attach(&rt, alloc, network, b"", 8)?;
    let writer = spawn_writer(rt, end, Sink::new(alloc), FreeGate, Turns::Endless)?;
    match end_session_at(&rt, network, id, None, writer) {
        Ok(ended) => Ok(ended),
        Err(_) => Err("no session")?,
    }
}

#[test]
fn all_is_written_to_a_client_that_vanished(rt: HostRuntime) -> Result<(), Fail> {
    let stage = stage_after(&rt, rt.alloc(), 1, &READY)?;
    let ended = left_on(rt, rt.alloc(), &stage.network)?;
    assert!(&rt; ended.token);
    assert!(&rt; ended.written == Ok(201));
    assert!(&rt; is_joined(rt.alloc(), &ended.out.bytes, &BURST)?);
    Ok(())
}
