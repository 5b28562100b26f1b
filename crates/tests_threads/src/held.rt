//! Writers that are held, and writers that are stopped.

ghost use Rattle.std.specs.Prelude.{◌<◌};

use hub_core::Said;
use hub_ends::SessionId;
use hub_threads::{
    FreeGate, Network, OutletEnd, PumpEnd, Stopper, Turns, Writer, Written, end_session, pump_loop,
    spawn_writer,
};
use net_view::NetworkView;
use std::alloc::Global;
use std::process::Abort;
use std::sync::{Arc, Wait};
use std::test::Fail;
use std::thread::{self, JoinHandle, Threads};
use std::time::{Clock, Duration};
use test_stage::gates::{Door, Held, SharedDoor, Stepping, shut_door};
use test_stage::stage::{
    BURST, JOINED, Stage, attach, is_joined, is_sent, put, put_and_take, say, stage_after,
};
use test_streams::Sink;

/// A session with room for `capacity` packets, whose writer is held before its first write.
fn held<V: NetworkView + Drop, R: Threads + Wait + Clock + Send + Copy + Drop + 'static>(
    rt: R,
    alloc: Global,
    network: &Network<V>,
    capacity: usize,
    door: &SharedDoor,
) -> Result<(SessionId, Writer<Sink>), Fail>
    requires { 0 < capacity }
{
    let (id, end) = attach(&rt, alloc, network, b"", capacity)?;
    let gate = Held {
        rt,
        door: Arc::try_clone(door)?,
    };
    let writer = spawn_writer(rt, end, Sink::new(alloc), gate, Turns::Endless)?;
    if !door.is_reached(&rt) {
        return Err("the writer writes")?;
    }
    Ok((id, writer))
}

/// Ends a session, and answers its bytes, all of which were written.
fn bytes_at_end<V: NetworkView + Drop, R: Threads + Wait>(
    rt: &R,
    network: &Network<V>,
    id: SessionId,
    writer: Writer<Sink>,
) -> Result<Vec<u8>, Fail> {
    match end_session(rt, network, id, writer) {
        Ok(ended) if ended.token => Ok(ended.out.bytes),
        Ok(_) => Err("not all was written")?,
        Err(_) => Err("no session")?,
    }
}

/// The bytes of a session that comes and goes.
fn bytes_of_another<V: NetworkView + Drop, R: Threads + Wait + Send + Copy + 'static>(
    rt: R,
    alloc: Global,
    network: &Network<V>,
) -> Result<Vec<u8>, Fail> {
    let (id, end) = attach(&rt, alloc, network, b"", 8)?;
    let writer = spawn_writer(rt, end, Sink::new(alloc), FreeGate, Turns::Endless)?;
    bytes_at_end(&rt, network, id, writer)
}

/// While the writer of one session is held, another one attaches, and its burst is written.
#[test]
fn writers_do_not_wait_for_one_another(rt: HostRuntime) -> Result<(), Fail> {
    let stage = stage_after(&rt, rt.alloc(), 1, &JOINED)?;
    another_goes_on(rt, &stage.network)
}

/// The writer of one session is held, and that of another one writes.
fn another_goes_on<V: NetworkView + Drop, R>(rt: R, network: &Network<V>) -> Result<(), Fail>
where
    R: AllocGlobal + Threads + Wait + Clock + Abort + Send + Copy + Drop + 'static,
{
    let door = shut_door(rt.alloc())?;
    another_goes_on_at(rt, network, &door)
}

/// The writer of one session is held at this door, and that of another one writes.
fn another_goes_on_at<V: NetworkView + Drop, R>(
    rt: R,
    network: &Network<V>,
    door: &SharedDoor,
) -> Result<(), Fail>
where
    R: AllocGlobal + Threads + Wait + Clock + Abort + Send + Copy + Drop + 'static,
{
    let (id, writer) = held(rt, rt.alloc(), network, 8, door)?;
    another_is_written(rt, network)?;
    assert!(&rt; !door.was_forced());
    door.let_go();
    let bytes = bytes_at_end(&rt, network, id, writer)?;
    assert!(&rt; bytes.as_slice() == BURST);
    assert!(&rt; !door.was_forced());
    Ok(())
}

/// A session comes and goes, and its burst is written.
fn another_is_written<
    V: NetworkView + Drop,
    R: AllocGlobal + Threads + Wait + Abort + Send + Copy + 'static,
>(rt: R, network: &Network<V>) -> Result<(), Fail> {
    let bytes = bytes_of_another(rt, rt.alloc(), network)?;
    assert!(&rt; bytes.as_slice() == BURST);
    Ok(())
}

const MESSAGES: [&[u8]; 3] = [
    b":bob!b@h PRIVMSG #c m1",
    b":bob!b@h PRIVMSG #c m2",
    b":bob!b@h PRIVMSG #c m3",
];

/// Three messages, and how many sessions are cut at each.
const CUT_AT_EACH: [(&[u8], usize); 3] = [
    (b":bob!b@h PRIVMSG #c m1", 0),
    (b":bob!b@h PRIVMSG #c m2", 0),
    (b":bob!b@h PRIVMSG #c m3", 1),
];

/// Puts each message, and fails if not that many sessions are cut at it.
fn are_cut_at_each<V: NetworkView + Drop, R: AllocGlobal + Wait + Abort>(
    rt: &R,
    stage: &mut Stage<V>,
    rows: &[(&[u8], usize)],
) -> Result<(), Fail> {
    for (text, count) in rows {
        let (_, cut) = put_and_take(rt, rt.alloc(), stage, &[*text])?;
        assert!(rt; cut == *count);
    }
    Ok(())
}

/// Whether a session has ended.
fn is_gone<V: NetworkView + Drop, R: Wait>(
    rt: &R,
    alloc: Global,
    network: &Network<V>,
    id: SessionId,
) -> Result<bool, Fail> {
    Ok(say(rt, alloc, network, id, b"PING x")? == Said::NoSession)
}

/// A session whose writer is held is cut at the message that finds no room; another one is not.
#[test]
fn a_session_that_is_cut(rt: HostRuntime) -> Result<(), Fail> {
    let mut stage = stage_after(&rt, rt.alloc(), 1, &JOINED)?;
    held_and_cut(rt, &mut stage)
}

/// A session whose writer is held is cut, and its writer still writes what was sent.
fn held_and_cut<V: NetworkView + Drop, R>(rt: R, stage: &mut Stage<V>) -> Result<(), Fail>
where
    R: AllocGlobal + Threads + Wait + Clock + Abort + Send + Copy + Drop + 'static,
{
    let door = shut_door(rt.alloc())?;
    held_and_cut_at(rt, stage, &door)
}

/// A session whose writer is held at this door is cut, and its writer still writes what was sent.
fn held_and_cut_at<V: NetworkView + Drop, R>(
    rt: R,
    stage: &mut Stage<V>,
    door: &SharedDoor,
) -> Result<(), Fail>
where
    R: AllocGlobal + Threads + Wait + Clock + Abort + Send + Copy + Drop + 'static,
{
    let (id, writer) = held(rt, rt.alloc(), &stage.network, 2, door)?;
    only_this_is_cut(&rt, stage, id)?;
    door.let_go();
    let written = writer.join(&rt);
    assert!(&rt; is_joined(rt.alloc(), &written.out.bytes, &[BURST, TWO])?);
    assert!(&rt; written.end.closed().is_none());
    assert!(&rt; !door.was_forced());
    Ok(())
}

/// The third message cuts this session, which has room for two packets, and not another one.
fn only_this_is_cut<V: NetworkView + Drop, R: AllocGlobal + Wait + Abort>(
    rt: &R,
    stage: &mut Stage<V>,
    id: SessionId,
) -> Result<(), Fail> {
    let (_, mut other) = attach(rt, rt.alloc(), &stage.network, b"", 8)?;
    are_cut_at_each(rt, stage, &CUT_AT_EACH)?;
    assert!(rt; is_gone(rt, rt.alloc(), &stage.network, id)?);
    assert!(rt; is_sent(rt.alloc(), &mut other, &[BURST, THREE])?);
    Ok(())
}

const TWO: &[u8] = b":bob!b@h PRIVMSG #c m1\r\n:bob!b@h PRIVMSG #c m2\r\n";

const THREE: &[u8] =
    b":bob!b@h PRIVMSG #c m1\r\n:bob!b@h PRIVMSG #c m2\r\n:bob!b@h PRIVMSG #c m3\r\n";

/// Starts a writer of an end. Its stopper, and the writer.
fn started<R: Threads + Wait + Send + Copy + 'static>(
    rt: R,
    alloc: Global,
    end: OutletEnd,
) -> Result<(Stopper, Writer<Sink>), Fail> {
    let stopper = end.stopper()?;
    let writer = spawn_writer(rt, end, Sink::new(alloc), FreeGate, Turns::Endless)?;
    Ok((stopper, writer))
}

/// Stops a writer, which may have taken the burst by then, and has another one go on with its end. All
/// that both wrote.
fn bytes_of_two<V: NetworkView + Drop, R: Threads + Wait + Send + Copy + 'static>(
    rt: R,
    alloc: Global,
    stage: &mut Stage<V>,
) -> Result<Vec<u8>, Fail> {
    let (id, end) = attach(&rt, alloc, &stage.network, b"", 8)?;
    let (stopper, writer) = started(rt, alloc, end)?;
    stopper.stop();
    let Written { end, out, .. } = writer.join(&rt);
    put_and_take(&rt, alloc, stage, &MESSAGES)?;
    end.go_on();
    let writer = spawn_writer(rt, end, out, FreeGate, Turns::Endless)?;
    match end_session(&rt, &stage.network, id, writer) {
        Ok(ended) if ended.end.closed() == Some(id) => Ok(ended.out.bytes),
        Ok(_) => Err("not all was taken")?,
        Err(_) => Err("no session")?,
    }
}

#[test]
fn a_writer_that_is_told_to_stop(rt: HostRuntime) -> Result<(), Fail> {
    let mut stage = stage_after(&rt, rt.alloc(), 1, &JOINED)?;
    two_write_all(rt, &mut stage)
}

/// What both writers write is all that was sent.
fn two_write_all<V: NetworkView + Drop, R>(rt: R, stage: &mut Stage<V>) -> Result<(), Fail>
where
    R: AllocGlobal + Threads + Wait + Abort + Send + Copy + 'static,
{
    let bytes = bytes_of_two(rt, rt.alloc(), stage)?;
    assert!(&rt; is_joined(rt.alloc(), &bytes, &[BURST, THREE])?);
    Ok(())
}

const MESSAGE: &[u8] = b":bob!b@h PRIVMSG #c m";

/// Twice the number that the ring of the session holds.
const SIXTEEN_MESSAGES: [&[u8]; 16] = [MESSAGE; 16];

/// Opens a door after a second.
fn open_later<R: Clock>(rt: &R, door: &Door) {
    thread::sleep(rt, Duration::from_secs(1));
    door.let_go();
}

/// A thread that opens a door after a second.
fn opener<R: Threads + Clock + Send + Copy + Drop + 'static>(
    rt: R,
    door: &SharedDoor,
) -> Result<JoinHandle<()>, Fail> {
    let door = Arc::try_clone(door)?;
    Ok(thread::spawn(&rt, move || open_later(&rt, &door))?)
}

/// The writer of a session gets no processor for a second, while more comes than its ring holds: the
/// session is not cut, and is sent everything.
#[test]
fn a_writer_that_gets_no_processor(rt: HostRuntime) -> Result<(), Fail> {
    let mut stage = stage_after(&rt, rt.alloc(), 1, &JOINED)?;
    nothing_is_lost(rt, &mut stage)
}

/// A session whose writer is held for a second is sent everything.
fn nothing_is_lost<V: NetworkView + Drop, R>(rt: R, stage: &mut Stage<V>) -> Result<(), Fail>
where
    R: AllocGlobal + Threads + Wait + Clock + Abort + Send + Copy + Drop + 'static,
{
    let door = shut_door(rt.alloc())?;
    nothing_is_lost_at(rt, stage, &door)
}

/// A session whose writer is held at this door for a second is sent everything.
fn nothing_is_lost_at<V: NetworkView + Drop, R>(
    rt: R,
    stage: &mut Stage<V>,
    door: &SharedDoor,
) -> Result<(), Fail>
where
    R: AllocGlobal + Threads + Wait + Clock + Abort + Send + Copy + Drop + 'static,
{
    let (id, writer) = held(rt, rt.alloc(), &stage.network, 8, door)?;
    let opening = opener(rt, door)?;
    put(rt.alloc(), &mut stage.end, &SIXTEEN_MESSAGES)?;
    let ended = pump_loop(
        &rt,
        rt.alloc(),
        &stage.network,
        &FreeGate,
        &Stepping::new(),
        Turns::AtMost(16),
        0,
    );
    assert!(&rt; ended == PumpEnd::Turns);
    opening.join(&rt);
    let bytes = bytes_at_end(&rt, &stage.network, id, writer)?;
    assert!(&rt; bytes.len() == BURST.len() + 16 * (MESSAGE.len() + 2));
    assert!(&rt; !door.was_forced());
    Ok(())
}
