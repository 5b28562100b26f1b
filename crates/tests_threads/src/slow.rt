//! Clients that read slowly, or not at all.

use hub_core::Said;
use hub_ends::{Outlet, SessionId};
use hub_threads::{
    FreeGate, PumpEnd, RingOutlet, Turns, end_session, outlet, pump_loop, shared_bell, spawn_writer,
};
use irc_line::Line;
use net_view::NetworkView;
use std::alloc::Global;
use std::process::Abort;
use std::sync::atomic::Ordering;
use std::sync::{Arc, Wait};
use std::test::Fail;
use std::thread;
use std::time::{Clock, Duration};
use test_stage::ann::{is_cut, many_questions};
use test_stage::gates::{Dragging, shut_door};
use test_stage::slow_streams::{Dripping, Gone, Slow, flag};
use test_stage::stage::{BURST, JOINED, Stage, attach, put, say, stage_after};
use test_streams::Sink;
use test_texts::line;
use welcome::Packet;

/// A session whose client is gone is cut, and what its writer held is dropped by then.
#[test]
fn a_session_that_is_cut_gives_its_stream_back(rt: HostRuntime) -> Result<(), Fail> {
    let dropped = flag(rt.alloc())?;
    let said = many_questions(rt.alloc())?;
    let out = Gone {
        dropped: Arc::try_clone(&dropped)?,
    };
    assert!(rt; is_cut(rt, rt.alloc(), out, said.as_slice())?);
    assert!(rt; dropped.load(Ordering::SeqCst));
    Ok(())
}

/// A line with this number.
fn numbered(alloc: Global, number: u64) -> Result<Line, Fail> {
    let text = format!(in alloc; ":bob!b@h PRIVMSG #c :message {number}")?;
    line(alloc, text.as_str().as_bytes())
}

/// The packet of `count` lines, numbered from 0: for 2,000, more bytes than one call writes.
fn long_packet(alloc: Global, count: u64) -> Result<Packet, Fail> {
    let mut lines = Vec::new(alloc);
    for number in 0..count {
        lines.push(numbered(alloc, number)?)?;
    }
    Ok(Packet::all(alloc, lines.as_slice())?)
}

/// Offers a packet until there is room for it. Whether it was taken.
fn is_offered<R: Clock>(rt: &R, outlet: &mut RingOutlet, packet: Packet) -> bool {
    let mut packet = packet;
    for _ in 0..2_000 {
        match outlet.offer(packet) {
            Ok(()) => return true,
            Err(back) => packet = back,
        }
        thread::sleep(rt, Duration::from_millis(1));
    }
    false
}

/// Offers the packets of these lines, one by one.
fn offer_lines<R: Clock>(
    rt: &R,
    alloc: Global,
    outlet: &mut RingOutlet,
    from: u64,
    to: u64,
) -> Result<(), Fail> {
    for number in from..to {
        let packet = Packet::one(alloc, &numbered(alloc, number)?)?;
        if !is_offered(rt, outlet, packet) {
            return Err("no room")?;
        }
    }
    Ok(())
}

/// A client takes 1,000 bytes of a burst of 80 KB, and nothing more while 1,000 lines come, four
/// times as many as wait in its ring; then it reads on, slowly. It gets everything, in order.
#[test]
fn who_reads_slowly_gets_all(rt: HostRuntime) -> Result<(), Fail> {
    let alloc = rt.alloc();
    let door = shut_door(alloc)?;
    let (mut outlet, end) = outlet(alloc, 256, shared_bell(alloc)?)?;
    let slow = Slow {
        rt,
        door: Arc::try_clone(&door)?,
        dropped: flag(alloc)?,
        bytes: Vec::new(alloc),
        calls: 0,
    };
    let writer = spawn_writer(rt, end, slow, FreeGate, Turns::Endless)?;
    assert!(rt; is_offered(&rt, &mut outlet, long_packet(alloc, 2_000)?));
    offer_lines(&rt, alloc, &mut outlet, 2_000, 3_000)?;
    door.let_go();
    drop(outlet);
    let written = writer.join(&rt);
    let all = long_packet(alloc, 3_000)?;
    assert!(rt; written.outcome == Ok(all.bytes().len() as u64));
    assert!(rt; written.out.bytes.as_slice() == all.bytes());
    Ok(())
}

/// A message of some 16 KB, as the network sends it.
fn long_message(alloc: Global) -> Result<Vec<u8>, Fail> {
    let mut text = Vec::from_slice(alloc, b":bob!b@h PRIVMSG #c :a long one: ")?;
    for _ in 0..1_000 {
        text.extend_from_slice(b"0123456789abcdef")?;
    }
    Ok(text)
}

/// Puts this message `times` times, and has a pump take it each time.
fn flood<V: NetworkView + Drop, R: AllocGlobal + Wait + Abort>(
    rt: &R,
    stage: &mut Stage<V>,
    text: &[u8],
    times: u64,
) -> Result<(), Fail> {
    let clock = Dragging::new();
    for _ in 0..times {
        put(rt.alloc(), &mut stage.end, &[text])?;
        let ended = pump_loop(
            rt,
            rt.alloc(),
            &stage.network,
            &FreeGate,
            &clock,
            Turns::AtMost(1),
            0,
        );
        assert!(rt; ended == PumpEnd::Turns);
    }
    Ok(())
}

/// What the hub says to a question of a session.
fn asked<V: NetworkView + Drop, R: AllocGlobal + Wait>(
    rt: &R,
    stage: &Stage<V>,
    id: SessionId,
) -> Result<Said, Fail> {
    say(rt, rt.alloc(), &stage.network, id, b"PING x")
}

/// A client stops reading. While its queue fills, which takes more than its ring, it has a session;
/// then it is cut, what its writer held is dropped, and another client has got everything.
#[test]
fn who_stops_is_cut_and_another_is_not(rt: HostRuntime) -> Result<(), Fail> {
    let alloc = rt.alloc();
    let mut stage = stage_after(&rt, alloc, 1, &JOINED)?;
    let dropped = flag(alloc)?;
    let (id, end) = attach(&rt, alloc, &stage.network, b"", 8)?;
    let slow = Slow {
        rt,
        door: shut_door(alloc)?,
        dropped: Arc::try_clone(&dropped)?,
        bytes: Vec::new(alloc),
        calls: 0,
    };
    let writer = spawn_writer(rt, end, slow, FreeGate, Turns::Endless)?;
    let (other, end) = attach(&rt, alloc, &stage.network, b"", 256)?;
    let others = spawn_writer(rt, end, Sink::new(alloc), FreeGate, Turns::Endless)?;
    let text = long_message(alloc)?;
    flood(&rt, &mut stage, &text, 40)?;
    assert!(rt; asked(&rt, &stage, id)? == Said::Answered);
    flood(&rt, &mut stage, &text, 40)?;
    assert!(rt; asked(&rt, &stage, id)? == Said::NoSession);
    assert!(rt; end_session(&rt, &stage.network, id, writer).is_err());
    assert!(rt; dropped.load(Ordering::SeqCst));
    let lines = text.len().saturating_add(2).saturating_mul(80);
    let length = lines.saturating_add(BURST.len());
    match end_session(&rt, &stage.network, other, others) {
        Ok(ended) => {
            assert!(rt; ended.token);
            assert_eq!(rt; ended.out.bytes.len(), length);
        }
        Err(_) => assert!(rt; false),
    }
    Ok(())
}

/// A client takes one byte in each call. Once its session is cut, its writer gives up after 750
/// further calls, which are 30 s for a client that lets each call wait.
#[test]
fn who_is_cut_has_thirty_seconds_left(rt: HostRuntime) -> Result<(), Fail> {
    let alloc = rt.alloc();
    let (mut outlet, end) = outlet(alloc, 8, shared_bell(alloc)?)?;
    assert!(rt; is_offered(&rt, &mut outlet, long_packet(alloc, 2_000)?));
    drop(outlet);
    let writer = spawn_writer(rt, end, Dripping { calls: 0 }, FreeGate, Turns::Endless)?;
    let written = writer.join(&rt);
    assert!(rt; written.outcome.is_err());
    assert_eq!(rt; written.out.calls, 750);
    Ok(())
}
