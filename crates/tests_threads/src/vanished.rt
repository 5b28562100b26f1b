//! A client that vanished: what its network has noted of its session, and what its name is left at.

use client_caps::Caps;
use hub_core::Seen;
use hub_ends::SessionId;
use hub_threads::{FreeGate, Network, Turns, Writer, end_session, end_session_at, spawn_writer};
use net_view::NetworkView;
use quick_view::QuickView;
use receipts::{End, Parting};
use std::alloc::Global;
use std::rt::Clock;
use std::sync::Wait;
use std::test::Fail;
use std::thread;
use std::thread::Threads;
use std::time::Duration;
use test_stage::stage::{JOINED, Stage, put_and_take, stage_after};
use test_streams::Sink;

/// The name of the client.
const PHONE: &[u8] = b"phone";

/// Attaches the client, and has what it is sent written.
fn come<V: NetworkView + Drop, R: Threads + Wait + Send + Copy + 'static>(
    rt: R,
    alloc: Global,
    network: &Network<V>,
) -> Result<(SessionId, Writer<Sink>), Fail> {
    let (out, end) = network.outlet(alloc, 8)?;
    let attached = network.lock(&rt).attach(Caps::none(), Some(PHONE), out);
    let Ok(id) = attached else {
        return Err("not attached")?;
    };
    let writer = spawn_writer(rt, end, Sink::new(alloc), FreeGate, Turns::Endless)?;
    Ok((id, writer))
}

/// Whether the writer of the session has written all, for which it is waited.
fn has_written<V: NetworkView + Drop, R: Wait + Clock>(
    rt: &R,
    network: &Network<V>,
    id: SessionId,
) -> bool {
    for _ in 0..10_000 {
        let hub = network.lock(rt);
        let is_written = hub.outlet(id).is_some_and(|outlet| outlet.is_written());
        drop(hub);
        if is_written {
            return true;
        }
        thread::sleep(rt, Duration::from_millis(1));
    }
    false
}

/// Somebody says something, and it is written to the client.
fn talk<R: AllocGlobal + Wait + Clock>(
    rt: &R,
    stage: &mut Stage<QuickView>,
    id: SessionId,
) -> Result<bool, Fail> {
    put_and_take(rt, rt.alloc(), stage, &[b":bob!b@h PRIVMSG #c :hi"])?;
    Ok(has_written(rt, &stage.network, id))
}

/// How the session ends whose client was heard at this moment.
fn parting(end: End, heard: u64) -> Parting {
    Parting {
        end,
        is_proxied: false,
        heard: Some(heard),
        margin: 5_000,
    }
}

/// Messages 1 and 2 are written by the moments 1,000 and 3,000. A client that was heard 5 s after the
/// first and not after the second is left at the first.
#[test]
fn a_client_that_vanished_is_left_at_what_it_received(rt: HostRuntime) -> Result<(), Fail> {
    let mut stage = stage_after(&rt, rt.alloc(), 1, &JOINED)?;
    let (id, writer) = come(rt, rt.alloc(), &stage.network)?;
    assert!(rt; talk(&rt, &mut stage, id)?);
    stage.network.note_sent(&rt, 1_000);
    assert!(rt; talk(&rt, &mut stage, id)?);
    // within a second nothing is noted
    stage.network.note_sent(&rt, 1_999);
    stage.network.note_sent_to(&rt, id, 3_000);
    let Stage { network, .. } = stage;
    assert!(rt; network.left_by(&rt, id, parting(End::Closed, 6_000)) == Seen::All);
    assert!(rt; network.left_by(&rt, id, parting(End::Fault, 5_999)) == Seen::UpTo(None));
    assert!(rt; network.left_by(&rt, id, parting(End::Fault, 8_000)) == Seen::UpTo(Some(2)));
    let seen = network.left_by(&rt, id, parting(End::Fault, 6_000));
    assert!(rt; seen == Seen::UpTo(Some(1)));
    assert!(rt; end_session_at(&rt, &network, id, Some(1), writer).is_ok());
    assert!(rt; network.lock(&rt).marks().mark(PHONE) == Some(1));
    Ok(())
}

/// A packet that is not written is not received, however long ago it was sent. A session that is not
/// there has seen all.
#[test]
fn a_packet_that_waits_is_not_received(rt: HostRuntime) -> Result<(), Fail> {
    let mut stage = stage_after(&rt, rt.alloc(), 1, &JOINED)?;
    let (out, end) = stage.network.outlet(rt.alloc(), 8)?;
    let attached = stage
        .network
        .lock(&rt)
        .attach(Caps::none(), Some(PHONE), out);
    let Ok(id) = attached else {
        return Err("not attached")?;
    };
    put_and_take(&rt, rt.alloc(), &mut stage, &[b":bob!b@h PRIVMSG #c :hi"])?;
    let network = &stage.network;
    network.note_sent(&rt, 1_000);
    network.note_sent(&rt, 2_000);
    assert!(rt; network.left_by(&rt, id, parting(End::Fault, 90_000)) == Seen::UpTo(None));
    assert!(rt; network.left_by(&rt, 99, parting(End::Fault, 90_000)) == Seen::All);
    let writer = spawn_writer(rt, end, Sink::new(rt.alloc()), FreeGate, Turns::Endless)?;
    assert!(rt; end_session(&rt, network, id, writer).is_ok());
    Ok(())
}
