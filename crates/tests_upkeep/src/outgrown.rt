//! Networks that keep more than they may.

use hub_threads::{OutletEnd, PumpEnd, Turns};
use quick_view::QuickView;
use serving::{Cause, Pump, Slot};
use std::alloc::Global;
use std::rt::Clock;
use std::sync::Wait;
use std::test::Fail;
use test_stage::stage::{
    BURST, JOINED, Stage, attach, put, put_and_take, quick_stage, waiting_text,
};

const MESSAGE: &[u8] = b":bob!b@h PRIVMSG #c m";

/// A network in its slot, to which `messages` messages came at once, and the end of a session that
/// gets them.
fn network_that_heard<R: Wait>(
    rt: &R,
    alloc: Global,
    messages: usize,
) -> Result<(Slot<QuickView>, OutletEnd), Fail> {
    let mut stage = quick_stage(alloc, 1, 128)?;
    put_and_take(rt, alloc, &mut stage, &JOINED)?;
    let (_, session) = attach(rt, alloc, &stage.network, b"", 256)?;
    for _ in 0..messages {
        put(alloc, &mut stage.end, &[MESSAGE])?;
    }
    let Stage { network, .. } = stage;
    Ok((Slot::new(alloc, network)?, session))
}

/// How many messages wait for a session after its burst.
fn messages_in(alloc: Global, session: &mut OutletEnd) -> Result<usize, Fail> {
    let length = waiting_text(alloc, session)?.len();
    Ok(length.saturating_sub(BURST.len()) / (MESSAGE.len() + 2))
}

/// How many of the messages a pump takes in these turns whose network may keep this many bytes, and
/// whether the network is to be begun anew then for what it keeps.
fn takes<R: AllocGlobal + Wait + Clock>(
    rt: &R,
    messages: usize,
    turns: u64,
    budget: u64,
) -> Result<(usize, bool), Fail> {
    let (slot, mut session) = network_that_heard(rt, rt.alloc(), messages)?;
    let mut pump = Pump::new(&slot, budget, Turns::AtMost(turns), 0);
    if pump.run(rt, rt.alloc()) != PumpEnd::Turns {
        return Err("the pump ended".into());
    }
    let is_outgrown = match pump.gives_up() {
        Some(Cause::Outgrown { bytes, budget: may }) => bytes > may && may == budget,
        Some(Cause::NoMemory) | None => false,
    };
    if pump.gives_up().is_some() {
        return Err("the network is begun anew twice".into());
    }
    Ok((messages_in(rt.alloc(), &mut session)?, is_outgrown))
}

/// A network within its budget goes on.
#[test]
fn a_network_that_keeps_no_more_than_it_may(rt: HostRuntime) -> Result<(), Fail> {
    assert!(rt; takes(&rt, 100, 110, u64::MAX)? == (100, false));
    Ok(())
}

/// What it keeps is looked at after 32 items, and when none is left: not for each one.
#[test]
fn a_network_that_keeps_more_than_it_may(rt: HostRuntime) -> Result<(), Fail> {
    assert!(rt; takes(&rt, 100, 110, 0)? == (32, true));
    assert!(rt; takes(&rt, 5, 110, 0)? == (5, true));
    assert!(rt; takes(&rt, 31, 31, 0)? == (31, false));
    Ok(())
}
