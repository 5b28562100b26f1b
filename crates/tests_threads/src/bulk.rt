//! Packets of more than 1 MiB that wait for a writer.

use hub_ends::SessionId;
use hub_threads::{Bulk, FreeGate, OutletEnd, Turns, write_out};
use quick_view::QuickView;
use std::alloc::Global;
use std::sync::Wait;
use std::test::Fail;
use test_stage::stage::{JOINED, Stage, attach, put, put_and_take, quick_stage, take_all};
use test_streams::Sink;

/// How many messages the hub of these tests keeps of each channel.
const OF_EACH: usize = 10;

/// A text of 15,000 bytes.
fn long_text(alloc: Global) -> Result<String, Fail> {
    let mut text = String::new(alloc);
    for _ in 0..1_500 {
        text.push_str("ten bytes.")?;
    }
    Ok(text)
}

/// A network that keeps ten long messages of each of so many channels.
fn loud_stage<R: Wait>(rt: &R, alloc: Global, channels: usize) -> Result<Stage<QuickView>, Fail> {
    let mut stage = quick_stage(alloc, 1, 128)?;
    put_and_take(rt, alloc, &mut stage, &JOINED)?;
    let text = long_text(alloc)?;
    for channel in 0..channels {
        let line = format!(in alloc; ":bob!b@h PRIVMSG #{channel} :{text}")?;
        for _ in 0..OF_EACH {
            put(alloc, &mut stage.end, &[line.as_str().as_bytes()])?;
        }
    }
    take_all(rt, &stage.network)?;
    Ok(stage)
}

/// A session that gets what such a network keeps, the end that it is taken from, and what tells whether
/// it waits.
fn greeted<R: Wait>(
    rt: &R,
    alloc: Global,
    stage: &Stage<QuickView>,
) -> Result<(SessionId, OutletEnd, Bulk), Fail> {
    let (id, end) = attach(rt, alloc, &stage.network, b"", 8)?;
    let bulk = stage.network.bulk_of(rt, id)?.ok_or("no session")?;
    Ok((id, end, bulk))
}

/// 80 messages have more than 1 MiB, and wait until they are written.
#[test]
fn a_long_burst_waits_until_it_is_written(rt: HostRuntime) -> Result<(), Fail> {
    let alloc = rt.alloc();
    let stage = loud_stage(&rt, alloc, 8)?;
    let (_, end, bulk) = greeted(&rt, alloc, &stage)?;
    assert!(rt; bulk.is_waiting());
    let written = write_out(&rt, end, Vec::new(alloc), &FreeGate, Turns::AtMost(3));
    assert!(rt; matches!(written.outcome, Ok(bytes) if bytes > 1_048_576));
    assert!(rt; !bulk.is_waiting());
    Ok(())
}

/// 60 messages have less.
#[test]
fn a_burst_that_is_not_long(rt: HostRuntime) -> Result<(), Fail> {
    let stage = loud_stage(&rt, rt.alloc(), 6)?;
    let (_, _end, bulk) = greeted(&rt, rt.alloc(), &stage)?;
    assert!(rt; !bulk.is_waiting());
    Ok(())
}

/// A burst that can't be written waits until its packet is dropped, also after its session was ended.
#[test]
fn a_long_burst_that_cannot_be_written(rt: HostRuntime) -> Result<(), Fail> {
    let alloc = rt.alloc();
    let stage = loud_stage(&rt, alloc, 8)?;
    let (id, end, bulk) = greeted(&rt, alloc, &stage)?;
    stage.network.lock(&rt).detach(id)?;
    assert!(rt; stage.network.bulk_of(&rt, id)?.is_none());
    assert!(rt; bulk.is_waiting());
    let written = write_out(&rt, end, Sink::closed(alloc), &FreeGate, Turns::AtMost(3));
    assert!(rt; written.outcome.is_err());
    drop(written);
    assert!(rt; !bulk.is_waiting());
    Ok(())
}
