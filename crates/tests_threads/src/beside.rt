//! A thread that reads a network, and has the hub take lines itself while the pump sleeps.

use hub_threads::{
    Beside, FreeGate, Network, PumpsBeside, ReadEnd, SharedBell, Turns, Worker, read_beside,
};
use irc_line::Splitter;
use quick_view::QuickView;
use std::alloc::Global;
use std::process::Abort;
use std::sync::Wait;
use std::sync::atomic::{AtomicU64, Ordering};
use std::test::Fail;
use std::thread;
use std::thread::{JoinHandle, Threads};
use std::time::{Clock, Duration};
use test_stage::gates::Still;
use test_stage::stage::{JOINED, Stage, put, quick_stage};
use test_streams::Pieces;

/// What comes of it while the pump is awake.
const NOTHING: Beside = Beside {
    taken: 0,
    is_done: false,
};

/// A thread that sleeps as a pump does when it has found nothing.
fn sleeper<R: Threads + Wait + Send + Copy + 'static>(
    rt: R,
    bell: SharedBell,
) -> Result<JoinHandle<()>, Fail> {
    Ok(thread::spawn(&rt, move || bell.doze(&rt, Turns::Endless))?)
}

/// Takes at most `most` items once the pump sleeps.
fn beside_a_sleeper<R: Wait + Clock>(rt: &R, network: &Network<QuickView>, most: u64) -> Beside {
    for _ in 0..10_000 {
        let beside = network.pump_beside(rt, most);
        if beside != NOTHING {
            return beside;
        }
        thread::sleep(rt, Duration::from_millis(1));
    }
    NOTHING
}

/// Four lines wait. None is taken while the pump is awake. While it sleeps, the number that the
/// call asks for is taken, and then the rest.
#[test]
fn lines_are_taken_beside_a_pump_that_sleeps(rt: HostRuntime) -> Result<(), Fail> {
    let Stage {
        network,
        mut end,
        ..
    } = quick_stage(rt.alloc(), 1, 8)?;
    put(rt.alloc(), &mut end, &JOINED)?;
    assert!(&rt; network.pump_beside(&rt, 8) == NOTHING);
    let bell = network.pump_bell()?;
    // the lines have rung it
    bell.doze(&rt, Turns::Endless);
    let sleeper = sleeper(rt, network.pump_bell()?)?;
    let first = beside_a_sleeper(&rt, &network, 3);
    let rest = network.pump_beside(&rt, 8);
    bell.ring();
    sleeper.join(&rt);
    assert!(&rt;
        first
            == Beside {
                taken: 3,
                is_done: false
            }
    );
    assert!(&rt;
        rest == Beside {
            taken: 1,
            is_done: true
        }
    );
    Ok(())
}

/// Counts how often it is asked to take lines, and takes none.
#[derive(Drop)]
struct Asked(AtomicU64);

impl PumpsBeside for Asked {
    fn took_lines<R: Wait>(&self, _rt: &R) -> bool {
        self.0.fetch_add(1, Ordering::SeqCst);
        false
    }
}

/// How often it is asked while these pieces are read.
fn times_asked<R: Wait + Copy>(rt: R, alloc: Global, pieces: &[&[u8]]) -> Result<u64, Fail> {
    let Stage { end, .. } = quick_stage(alloc, 1, 8)?;
    let asked = Asked(AtomicU64::new(0));
    let mut reader = Pieces::new(alloc, pieces)?;
    let worker = Worker {
        rt,
        alloc,
        gate: &FreeGate,
        clock: &Still,
    };
    let reading = read_beside(&worker, &mut reader, Splitter::new(alloc), end, &asked);
    match reading.ended {
        ReadEnd::EndOfInput => Ok(asked.0.load(Ordering::SeqCst)),
        _ => Err("not read to its end")?,
    }
}

/// It is asked once for each piece that is read.
#[test]
fn a_reader_offers_each_piece_to_what_pumps_beside(rt: HostRuntime) -> Result<(), Fail> {
    let pieces: [&[u8]; 2] = [b":s 001 Me :hi\r\n:s 002 Me :a\r\n", b"PING :x\r\n"];
    assert!(rt; times_asked(rt, rt.alloc(), &pieces)? == 2);
    Ok(())
}
