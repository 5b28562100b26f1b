//! The loop of a pump: items go to the sessions, slow ones are given time, and items that find no
//! memory are held.

use hub_core::Said;
use hub_ends::SessionId;
use hub_threads::{
    FreeGate, Network, OutletEnd, Patience, PumpEnd, SharedBell, Turns, pump_loop, shared_bell,
};
use net_view::NetworkView;
use quick_view::QuickView;
use std::alloc::Global;
use std::process::Abort;
use std::sync::Wait;
use std::test::Fail;
use std::time::{Duration, Instant};
use test_stage::gates::{Stepping, Steps, Still};
use test_stage::refusing::Refusing;
use test_stage::stage::{
    BURST, JOINED, Stage, attach, empty_stage, is_sent, put, quick_stage, say, stage_after,
    waiting_text,
};

/// Pumps for `turns` turns, with a clock that stands still and a gate that holds no worker.
fn pump<V: NetworkView + Drop, R: Wait>(
    rt: &R,
    alloc: Global,
    network: &Network<V>,
    turns: u64,
) -> PumpEnd {
    pump_loop(
        rt,
        alloc,
        network,
        &FreeGate,
        &Still,
        Turns::AtMost(turns),
        0,
    )
}

/// Each item is sent to each session, and the turns go on while nothing comes.
#[test]
fn items_go_to_the_sessions(rt: HostRuntime) -> Result<(), Fail> {
    let mut stage = quick_stage(rt.alloc(), 1, 64)?;
    items_go(&rt, &mut stage)
}

/// A session attaches after a JOIN of ours, and two items go.
fn items_go<V: NetworkView + Drop, R: AllocGlobal + Wait + Abort>(
    rt: &R,
    stage: &mut Stage<V>,
) -> Result<(), Fail> {
    put_and_pump(rt, stage, &JOINED, 4)?;
    let (_, mut end) = attach(rt, rt.alloc(), &stage.network, b"", 8)?;
    two_items_go(rt, stage, &mut end)
}

const A_MESSAGE_AND_A_PING: [&[u8]; 2] = [b":bob!b@h PRIVMSG #c m1", b":s PING x"];

const THE_MESSAGE_IS_SENT: [&[u8]; 2] = [BURST, b":bob!b@h PRIVMSG #c m1\r\n"];

const THE_PING_IS_ANSWERED: [&[u8]; 1] = [b"PONG x\r\n"];

/// Puts lines, and pumps for `turns` turns. Turns beyond the number of lines find nothing.
fn put_and_pump<V: NetworkView + Drop, R: AllocGlobal + Wait + Abort>(
    rt: &R,
    stage: &mut Stage<V>,
    texts: &[&[u8]],
    turns: u64,
) -> Result<(), Fail> {
    put(rt.alloc(), &mut stage.end, texts)?;
    assert!(rt; pump(rt, rt.alloc(), &stage.network, turns) == PumpEnd::Turns);
    Ok(())
}

/// A message goes to the session, and a PING is answered.
fn two_items_go<V: NetworkView + Drop, R: AllocGlobal + Wait + Abort>(
    rt: &R,
    stage: &mut Stage<V>,
    end: &mut OutletEnd,
) -> Result<(), Fail> {
    put_and_pump(rt, stage, &A_MESSAGE_AND_A_PING, 10)?;
    assert!(rt; is_sent(rt.alloc(), end, &THE_MESSAGE_IS_SENT)?);
    assert!(rt; is_sent(rt.alloc(), &mut stage.upward, &THE_PING_IS_ANSWERED)?);
    Ok(())
}

/// A message goes to the network and to the other session.
#[test]
fn a_message_said(rt: HostRuntime) -> Result<(), Fail> {
    let mut stage = stage_after(&rt, rt.alloc(), 1, &JOINED)?;
    one_of_two_speaks(&rt, &mut stage)
}

/// Two sessions attach, and the first one says something.
fn one_of_two_speaks<V: NetworkView + Drop, R: AllocGlobal + Wait + Abort>(
    rt: &R,
    stage: &mut Stage<V>,
) -> Result<(), Fail> {
    let (id, mut first) = attach(rt, rt.alloc(), &stage.network, b"", 8)?;
    let (_, mut second) = attach(rt, rt.alloc(), &stage.network, b"", 8)?;
    a_message_goes(rt, stage, id, &mut first, &mut second)
}

const THE_BURST_ALONE: [&[u8]; 1] = [BURST];

const WHAT_THE_OTHER_IS_SENT: [&[u8]; 2] = [BURST, b":Me PRIVMSG #c :hi all\r\n"];

const WHAT_GOES_UP: [&[u8]; 1] = [b"PRIVMSG #c :hi all\r\n"];

/// What the first session says goes to the second one and to the network.
fn a_message_goes<V: NetworkView + Drop, R: AllocGlobal + Wait + Abort>(
    rt: &R,
    stage: &mut Stage<V>,
    id: SessionId,
    first: &mut OutletEnd,
    second: &mut OutletEnd,
) -> Result<(), Fail> {
    let said = say(rt, rt.alloc(), &stage.network, id, b"PRIVMSG #c :hi all")?;
    assert!(rt; said == Said::Forwarded);
    assert!(rt; is_sent(rt.alloc(), first, &THE_BURST_ALONE)?);
    assert!(rt; is_sent(rt.alloc(), second, &WHAT_THE_OTHER_IS_SENT)?);
    assert!(rt; is_sent(rt.alloc(), &mut stage.upward, &WHAT_GOES_UP)?);
    Ok(())
}

const MESSAGE: &[u8] = b":bob!b@h PRIVMSG #c m";

const ONE_MESSAGE: [&[u8]; 1] = [MESSAGE];

const THREE_MESSAGES: [&[u8]; 3] = [MESSAGE; 3];

/// Puts `count` messages.
fn put_messages<V: NetworkView + Drop>(
    alloc: Global,
    stage: &mut Stage<V>,
    count: usize,
) -> Result<(), Fail> {
    for _ in 0..count {
        put(alloc, &mut stage.end, &ONE_MESSAGE)?;
    }
    Ok(())
}

/// A session that takes nothing is given 50 ms before the first item that finds it nearly full, and
/// no time before later ones. It is cut when it is full, and the other one is not.
#[test]
fn a_session_that_stands_still(rt: HostRuntime) -> Result<(), Fail> {
    let mut stage = stage_after(&rt, rt.alloc(), 1, &JOINED)?;
    who_stands_still_is_cut(&rt, &mut stage)
}

/// Of two sessions, the one that stands still is given time once, and is cut.
fn who_stands_still_is_cut<V: NetworkView + Drop, R: AllocGlobal + Wait + Abort>(
    rt: &R,
    stage: &mut Stage<V>,
) -> Result<(), Fail> {
    let (still, _end) = attach(rt, rt.alloc(), &stage.network, b"", 12)?;
    let (_, mut other) = attach(rt, rt.alloc(), &stage.network, b"", 64)?;
    time_is_given_once(rt, stage)?;
    let said = say(rt, rt.alloc(), &stage.network, still, b"PING x")?;
    assert!(rt; said == Said::NoSession);
    let length = waiting_text(rt.alloc(), &mut other)?.len();
    assert!(rt; length == BURST.len() + 12 * (MESSAGE.len() + 2));
    Ok(())
}

/// Puts and pumps twelve messages while a session with room for twelve packets stands still.
fn time_is_given_once<V: NetworkView + Drop, R: AllocGlobal + Wait + Abort>(
    rt: &R,
    stage: &mut Stage<V>,
) -> Result<(), Fail> {
    // after these it has room for two packets of twelve
    put_messages(rt.alloc(), stage, 9)?;
    let clock = Stepping::new();
    let ended = pump_loop(
        rt,
        rt.alloc(),
        &stage.network,
        &FreeGate,
        &clock,
        Turns::AtMost(9),
        0,
    );
    assert!(rt; ended == PumpEnd::Turns && clock.looks() == 0);
    put_messages(rt.alloc(), stage, 3)?;
    let ended = pump_loop(
        rt,
        rt.alloc(),
        &stage.network,
        &FreeGate,
        &clock,
        Turns::AtMost(3),
        0,
    );
    assert!(rt; ended == PumpEnd::Turns && clock.looks() == 51);
    Ok(())
}

/// A session that takes a packet is given time again.
#[test]
fn a_session_that_reads_again(rt: HostRuntime) -> Result<(), Fail> {
    let mut stage = stage_after(&rt, rt.alloc(), 1, &JOINED)?;
    who_reads_is_given_time(&rt, &mut stage)
}

/// A session attaches with room for four packets, and is given time twice.
fn who_reads_is_given_time<V: NetworkView + Drop, R: AllocGlobal + Wait + Abort>(
    rt: &R,
    stage: &mut Stage<V>,
) -> Result<(), Fail> {
    let (_, mut end) = attach(rt, rt.alloc(), &stage.network, b"", 4)?;
    let bell = shared_bell(rt.alloc())?;
    let mut patience = Patience::new(rt.alloc());
    time_is_given_again(rt, stage, &mut end, &bell, &mut patience)
}

/// A session with room for four packets is given time, takes a packet, and is given time again.
fn time_is_given_again<V: NetworkView + Drop, R: AllocGlobal + Wait + Abort>(
    rt: &R,
    stage: &mut Stage<V>,
    end: &mut OutletEnd,
    bell: &SharedBell,
    patience: &mut Patience,
) -> Result<(), Fail> {
    let clock = Stepping::new();
    put_and_pump(rt, stage, &THREE_MESSAGES, 3)?;
    patience.give_time(rt, &stage.network, bell, &clock);
    assert!(rt; clock.looks() == 51);
    patience.give_time(rt, &stage.network, bell, &clock);
    assert!(rt; clock.looks() == 51);
    assert!(rt; end.take().is_some());
    put_and_pump(rt, stage, &ONE_MESSAGE, 1)?;
    patience.give_time(rt, &stage.network, bell, &clock);
    assert!(rt; clock.looks() == 102);
    Ok(())
}

/// A network whose view finds no memory for this many topics.
fn refusing_stage(alloc: Global, times: u64) -> Result<Stage<Refusing<QuickView>>, Fail> {
    let view = Refusing {
        view: QuickView::new(alloc)?,
        times,
    };
    empty_stage(alloc, view, 1, 64)
}

const TOPIC: [&[u8]; 1] = [b":s TOPIC #c x"];

const THE_TOPIC_IS_SENT: [&[u8]; 1] = [b":s TOPIC #c x\r\n"];

/// A line that finds no memory is held, and is sent once it is taken.
#[test]
fn a_line_that_is_refused_three_times(rt: HostRuntime) -> Result<(), Fail> {
    let mut stage = refusing_stage(rt.alloc(), 3)?;
    refused_three_times(&rt, &mut stage)
}

/// A session attaches, and a topic is refused three times.
fn refused_three_times<V: NetworkView + Drop, R: AllocGlobal + Wait + Abort>(
    rt: &R,
    stage: &mut Stage<V>,
) -> Result<(), Fail> {
    put_and_pump(rt, stage, &JOINED, 4)?;
    let (_, mut end) = attach(rt, rt.alloc(), &stage.network, b"", 8)?;
    put_and_pump(rt, stage, &TOPIC, 3)?;
    the_topic_is_sent_late(rt, &stage.network, &mut end, 3)
}

/// The held topic was not sent to a session, and is sent within `turns` turns.
fn the_topic_is_sent_late<V: NetworkView + Drop, R: AllocGlobal + Wait + Abort>(
    rt: &R,
    network: &Network<V>,
    end: &mut OutletEnd,
    turns: u64,
) -> Result<(), Fail> {
    assert!(rt; is_sent(rt.alloc(), end, &THE_BURST_ALONE)?);
    assert!(rt; pump(rt, rt.alloc(), network, turns) == PumpEnd::Turns);
    assert!(rt; is_sent(rt.alloc(), end, &THE_TOPIC_IS_SENT)?);
    Ok(())
}

/// After 1,000 refusals the pump ends; the line stays held, and another pump sends it.
#[test]
fn a_line_that_is_refused_on_and_on(rt: HostRuntime) -> Result<(), Fail> {
    let mut stage = refusing_stage(rt.alloc(), 1_001)?;
    refused_on_and_on(&rt, &mut stage)
}

/// A session attaches, and a pump ends at a topic that is refused 1,000 times.
fn refused_on_and_on<V: NetworkView + Drop, R: AllocGlobal + Wait + Abort>(
    rt: &R,
    stage: &mut Stage<V>,
) -> Result<(), Fail> {
    put_and_pump(rt, stage, &JOINED, 4)?;
    let (_, mut end) = attach(rt, rt.alloc(), &stage.network, b"", 8)?;
    put(rt.alloc(), &mut stage.end, &TOPIC)?;
    let gate = Steps::new();
    let ended = pump_loop(
        rt,
        rt.alloc(),
        &stage.network,
        &gate,
        &Still,
        Turns::AtMost(5_000),
        0,
    );
    assert!(rt; ended == PumpEnd::Memory && gate.count() == 1_000);
    the_topic_is_sent_late(rt, &stage.network, &mut end, 2)
}

/// A view that finds no memory on and on: the pump rests after each refusal, here for 1 ms, and
/// ends after 1,000.
#[test]
fn a_pump_rests_after_each_refusal(rt: HostRuntime) -> Result<(), Fail> {
    let mut stage = refusing_stage(rt.alloc(), u64::MAX)?;
    put_and_pump(&rt, &mut stage, &JOINED, 4)?;
    put(rt.alloc(), &mut stage.end, &TOPIC)?;
    let began = Instant::now(&rt)?;
    let ended = pump_loop(
        &rt,
        rt.alloc(),
        &stage.network,
        &FreeGate,
        &Still,
        Turns::Endless,
        1,
    );
    assert!(rt; ended == PumpEnd::Memory);
    assert!(rt; began.elapsed(&rt)? >= Duration::from_millis(900));
    Ok(())
}

/// The pump ends at the first message for which no number is left.
#[test]
fn numbers_that_are_spent(rt: HostRuntime) -> Result<(), Fail> {
    let mut stage = stage_after(&rt, rt.alloc(), u64::MAX, &JOINED)?;
    no_number_is_left(&rt, &mut stage)
}

/// Two messages wait, and a number is left for the first one alone.
fn no_number_is_left<V: NetworkView + Drop, R: AllocGlobal + Wait + Abort>(
    rt: &R,
    stage: &mut Stage<V>,
) -> Result<(), Fail> {
    put_messages(rt.alloc(), stage, 2)?;
    let gate = Steps::new();
    let ended = pump_loop(
        rt,
        rt.alloc(),
        &stage.network,
        &gate,
        &Still,
        Turns::AtMost(5_000),
        0,
    );
    assert!(rt; ended == PumpEnd::Spent && gate.count() == 2);
    assert!(rt; pump(rt, rt.alloc(), &stage.network, 9) == PumpEnd::Spent);
    Ok(())
}
