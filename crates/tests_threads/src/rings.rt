//! Rings of one place, and threads that sleep until they are woken.

use hub_threads::{
    FreeGate, InletEnd, Network, OutletEnd, PumpEnd, ReadEnd, Reading, Turns, pump_loop, read_in,
};
use irc_line::Splitter;
use net_view::NetworkView;
use quick_view::QuickView;
use std::alloc::Global;
use std::process::Abort;
use std::sync::{Arc, Wait};
use std::test::Fail;
use std::thread;
use std::thread::{JoinHandle, Threads};
use std::time::{Clock, Duration};
use test_stage::gates::Still;
use test_stage::stage::{
    BURST, JOINED, Stage, attach, is_sent, put, put_and_take, quick_stage, stage_after, take_all,
};
use test_streams::Pieces;
use test_texts::joined;

/// An outlet of one place: the burst has to be taken before there is room for a message.
#[test]
fn packets_that_wait(rt: HostRuntime) -> Result<(), Fail> {
    let mut stage = stage_after(&rt, rt.alloc(), 1, &JOINED)?;
    two_wait(&rt, &mut stage)
}

/// Two sessions attach with room for one packet, and one of them is cut.
fn two_wait<V: NetworkView + Drop, R: AllocGlobal + Wait + Abort>(
    rt: &R,
    stage: &mut Stage<V>,
) -> Result<(), Fail> {
    let (_, mut reads) = attach(rt, rt.alloc(), &stage.network, b"", 1)?;
    let (_, mut stands) = attach(rt, rt.alloc(), &stage.network, b"", 1)?;
    one_is_cut(rt, stage, &mut reads, &mut stands)
}

const THE_BURST_ALONE: [&[u8]; 1] = [BURST];

const ONE_MESSAGE: [&[u8]; 1] = [b":bob!b@h PRIVMSG #c m1"];

const THE_MESSAGE_IS_SENT: [&[u8]; 1] = [b":bob!b@h PRIVMSG #c m1\r\n"];

/// Of two sessions with room for one packet, the one that takes its burst is not cut.
fn one_is_cut<V: NetworkView + Drop, R: AllocGlobal + Wait + Abort>(
    rt: &R,
    stage: &mut Stage<V>,
    reads: &mut OutletEnd,
    stands: &mut OutletEnd,
) -> Result<(), Fail> {
    assert!(rt; is_sent(rt.alloc(), reads, &THE_BURST_ALONE)?);
    let taken = put_and_take(rt, rt.alloc(), stage, &ONE_MESSAGE)?;
    assert!(rt; taken == (1, 1));
    assert!(rt; is_sent(rt.alloc(), reads, &THE_MESSAGE_IS_SENT)?);
    assert!(rt; is_sent(rt.alloc(), stands, &THE_BURST_ALONE)?);
    Ok(())
}

/// A network with room for one item at a time, which took a welcome and a JOIN of ours.
fn narrow_stage<R: Wait>(rt: &R, alloc: Global) -> Result<Stage<QuickView>, Fail> {
    let mut stage = quick_stage(alloc, 1, 1)?;
    take_one_by_one(rt, alloc, &mut stage, &JOINED)?;
    Ok(stage)
}

/// Has a hub take these lines, one at a time.
fn take_one_by_one<V: NetworkView + Drop, R: Wait>(
    rt: &R,
    alloc: Global,
    stage: &mut Stage<V>,
    texts: &[&[u8]],
) -> Result<(), Fail> {
    for text in texts {
        put_and_take(rt, alloc, stage, &[*text])?;
    }
    Ok(())
}

/// A thread that reads this text into a network.
fn reader<R: Threads + Wait + Send + Copy + 'static>(
    rt: R,
    alloc: Global,
    end: InletEnd,
    text: &[u8],
) -> Result<JoinHandle<Reading>, Fail> {
    let pieces = Pieces::new(alloc, &[text])?;
    let handle = thread::spawn(&rt, move || {
        let mut pieces = pieces;
        let splitter = Splitter::new(alloc);
        read_in(&rt, alloc, &mut pieces, splitter, end, &FreeGate, &Still)
    })?;
    Ok(handle)
}

/// Has the hub take `count` items, which another thread puts.
fn take_so_many<V: NetworkView + Drop, R: Wait + Clock>(
    rt: &R,
    network: &Network<V>,
    count: u64,
) -> Result<(), Fail> {
    let mut taken: u64 = 0;
    for _ in 0..10_000 {
        taken = taken.saturating_add(take_all(rt, network)?.0);
        if taken >= count {
            return Ok(());
        }
        thread::sleep(rt, Duration::from_millis(1));
    }
    Err("nothing comes")?
}

const MESSAGE: &[u8] = b":bob!b@h PRIVMSG #c m\r\n";

/// A thread that reads waits for room with each of its lines, and none is lost.
#[test]
fn a_thread_that_reads(rt: HostRuntime) -> Result<(), Fail> {
    let Stage { network, end, .. } = narrow_stage(&rt, rt.alloc())?;
    a_text_goes_through(rt, &network, end)
}

const TWENTY_MESSAGES: [&[u8]; 20] = [MESSAGE; 20];

/// A text of 20 lines is read into a network by a thread, and all of it is sent to a session.
fn a_text_goes_through<V: NetworkView + Drop, R>(
    rt: R,
    network: &Network<V>,
    end: InletEnd,
) -> Result<(), Fail>
where
    R: AllocGlobal + Threads + Wait + Clock + Abort + Send + Copy + 'static,
{
    let text = joined(rt.alloc(), &TWENTY_MESSAGES)?;
    let (_, mut out) = attach(&rt, rt.alloc(), network, b"", 64)?;
    read_and_taken(rt, rt.alloc(), end, &text, network)?;
    assert!(&rt; is_sent(rt.alloc(), &mut out, &[BURST, &text, b":Me PART #c\r\n"])?);
    Ok(())
}

/// A thread reads this text of 20 lines into a network, which takes them and the end.
fn read_and_taken<V: NetworkView + Drop, R: Threads + Wait + Clock + Send + Copy + 'static>(
    rt: R,
    alloc: Global,
    end: InletEnd,
    text: &[u8],
    network: &Network<V>,
) -> Result<(), Fail> {
    let reading = reader(rt, alloc, end, text)?;
    take_so_many(&rt, network, 21)?;
    reading.join(&rt);
    Ok(())
}

/// A thread that waits for room ends when the hub is gone that was to take its lines.
#[test]
fn a_thread_that_reads_for_a_hub_that_is_gone(rt: HostRuntime) -> Result<(), Fail> {
    let Stage { network, end, .. } = narrow_stage(&rt, rt.alloc())?;
    let text = joined(rt.alloc(), &TWENTY_MESSAGES)?;
    let reading = reader(rt, rt.alloc(), end, &text)?;
    // it sleeps by then, since there is room for one line
    thread::sleep(&rt, Duration::from_millis(100));
    drop(network);
    assert!(rt; reading.join(&rt).ended == ReadEnd::EndOfInput);
    Ok(())
}

/// A thread that pumps without an end to its turns.
fn pump<R: Threads + Wait + Send + Copy + 'static>(
    rt: R,
    alloc: Global,
    network: &Arc<Network<QuickView>, Global>,
) -> Result<JoinHandle<PumpEnd>, Fail> {
    let network = Arc::try_clone(network)?;
    Ok(thread::spawn(&rt, move || pumped(&rt, alloc, &network))?)
}

/// Pumps without an end to its turns.
fn pumped<V: NetworkView + Drop, R: Wait>(rt: &R, alloc: Global, network: &Network<V>) -> PumpEnd {
    pump_loop(rt, alloc, network, &FreeGate, &Still, Turns::Endless, 0)
}

/// Whether the hub knows of a channel.
fn has_a_channel<V: NetworkView + Drop, R: Wait>(rt: &R, network: &Network<V>) -> bool {
    network.lock(rt).view().channel_count() == 1
}

/// Waits until the hub knows of a channel.
fn wait_for_a_channel<V: NetworkView + Drop, R: Wait + Clock>(
    rt: &R,
    network: &Network<V>,
) -> Result<(), Fail> {
    for _ in 0..10_000 {
        if has_a_channel(rt, network) {
            return Ok(());
        }
        thread::sleep(rt, Duration::from_millis(1));
    }
    Err("nothing comes")?
}

/// A pump that sleeps is woken by each item: here until there is no number for a message.
#[test]
fn a_thread_that_pumps(rt: HostRuntime) -> Result<(), Fail> {
    let Stage { network, end, .. } = quick_stage(rt.alloc(), u64::MAX, 8)?;
    let network = Arc::new(rt.alloc(), network)?;
    two_wake_the_pump(rt, &network, end)
}

const THE_FIRST_IS_SENT: [&[u8]; 2] = [BURST, MESSAGE];

/// A pump ends at the second of two messages, and the first one is sent to a session.
fn two_wake_the_pump<R: AllocGlobal + Threads + Wait + Clock + Abort + Send + Copy + 'static>(
    rt: R,
    network: &Arc<Network<QuickView>, Global>,
    mut end: InletEnd,
) -> Result<(), Fail> {
    let pump = pump(rt, rt.alloc(), network)?;
    let mut out = attached_while_pumped(&rt, rt.alloc(), network, &mut end)?;
    assert!(&rt; pump.join(&rt) == PumpEnd::Spent);
    assert!(&rt; is_sent(rt.alloc(), &mut out, &THE_FIRST_IS_SENT)?);
    Ok(())
}

const TWO_MESSAGES: [&[u8]; 2] = [b":bob!b@h PRIVMSG #c m", b":eve!b@h PRIVMSG #c m"];

/// Attaches a client once we are in a channel, and then puts two messages.
fn attached_while_pumped<V: NetworkView + Drop, R: Wait + Clock>(
    rt: &R,
    alloc: Global,
    network: &Network<V>,
    end: &mut InletEnd,
) -> Result<OutletEnd, Fail> {
    put(alloc, end, &JOINED)?;
    wait_for_a_channel(rt, network)?;
    let (_, out) = attach(rt, alloc, network, b"", 8)?;
    put(alloc, end, &TWO_MESSAGES)?;
    Ok(out)
}
