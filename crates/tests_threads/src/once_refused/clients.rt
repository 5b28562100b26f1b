//! Clients that are served over streams in memory.

use bnc_config::{Config, Place};
use hub_core::AttachError;
use hub_threads::{FreeGate, Network, OutletEnd, Worker};
use quick_view::QuickView;
use sessions::{OutOfMemory, Served, Unwatched, serve_session};
use std::alloc::Global;
use std::process::Abort;
use std::sync::{Arc, Wait};
use std::test::Fail;
use std::thread::Threads;
use test_stage::ann::{BURST, HEARD, network_of, of_ann};
use test_stage::gates::Still;
use test_stage::pages::{Page, Scribe, page};
use test_stage::settings::settings_of_two;
use test_stage::stage::{is_joined, is_sent};
use test_streams::Pieces;
use test_texts::{OFFER, begins, joined};

/// What the client says, read by read: it asks for capabilities and logs in; then it says a line
/// for the network, asks something, and quits.
const SAID: [&[u8]; 3] = [
    b"CAP LS\r\nCAP END\r\n",
    b"PASS ann@pc/net:bc\r\nNICK x\r\nUSER x 0 * :A\r\n",
    b"PRIVMSG #c :hi all\r\nPING x\r\nQUIT\r\n",
];

/// All that is written to it: the answers to `CAP LS` and to its login, and to its PING.
fn written(alloc: Global) -> Result<Vec<u8>, Fail> {
    Ok(joined(
        alloc,
        &[
            OFFER.as_bytes(),
            b"\r\n",
            BURST.as_bytes(),
            b":bnc PONG bnc x\r\n",
        ],
    )?)
}

/// Serves it, and writes to an empty page.
fn serves<R: Threads + Wait + Send + Copy + Drop + 'static>(
    rt: R,
    alloc: Global,
    config: &Config,
    networks: &[(Place, Arc<Network<QuickView>>)],
    page: &Page,
) -> Result<Result<Served<Scribe<R>>, OutOfMemory>, Fail> {
    page.lock(&rt).clear();
    let out = Scribe {
        rt,
        page: Arc::try_clone(page)?,
    };
    let mut said = Pieces::new(alloc, &SAID)?;
    let worker = Worker {
        rt,
        alloc,
        gate: &FreeGate,
        clock: &Still,
    };
    Ok(serve_session(
        &worker,
        &mut said,
        out,
        config,
        networks,
        &mut Unwatched::new(),
    ))
}

/// Fails if a client for which memory was refused was sent anything else than a beginning of what
/// it is sent otherwise, or the answer to its `CAP LS` and that there is no memory for its session.
fn is_partly_served<R: AllocGlobal + Wait + Abort>(
    rt: &R,
    served: &Result<Served<Scribe<R>>, OutOfMemory>,
    page: &Page,
    all: &[u8],
) -> Result<(), Fail> {
    let written = page.lock(rt);
    if let Ok(Served::Refused(error)) = served {
        let wanted: [&[u8]; 2] = [OFFER.as_bytes(), b"\r\nERROR :no memory\r\n"];
        assert!(rt; *error == AttachError::OutOfMemory);
        assert!(rt; is_joined(rt.alloc(), &written, &wanted)?);
        return Ok(());
    }
    assert!(rt; begins(&written, all));
    Ok(())
}

/// Whether the session has ended with all written, and its line went to the network once.
fn is_served<R: Wait + Abort>(
    rt: &R,
    alloc: Global,
    served: &Result<Served<Scribe<R>>, OutOfMemory>,
    page: &Page,
    all: &[u8],
    upward: &mut OutletEnd,
) -> Result<bool, Fail> {
    let is_whole = match served {
        Ok(Served::Ended(ended)) => ended.token && ended.written.is_ok(),
        Ok(_) | Err(_) => false,
    };
    let is_sent = is_sent(alloc, upward, &[b"PRIVMSG #c :hi all\r\n"])?;
    Ok(is_whole && is_sent && page.lock(rt).as_slice() == all)
}

/// A client for which memory was refused leaves no session, and the next one of its name is served
/// as in a plain run.
#[test]
fn a_client_from_its_login_to_quit(rt: HostRuntime) -> Result<(), Fail> {
    let alloc = rt.alloc();
    let config = settings_of_two(alloc)?;
    let (network, mut upward) = network_of(&rt, alloc, &HEARD)?;
    let networks = of_ann(alloc, network)?;
    let (all, page) = (written(alloc)?, page(alloc)?);
    let all = all.as_slice();
    let served = serves(rt, alloc, &config, &networks, &page)?;
    {
        let hub = networks[0].1.lock(&rt);
        assert!(&rt; hub.outlet(0).is_none() && hub.outlet(1).is_none());
    }
    if is_served(&rt, alloc, &served, &page, all, &mut upward)? {
        return Ok(());
    }
    is_partly_served(&rt, &served, &page, all)?;
    let served = serves(rt, alloc, &config, &networks, &page)?;
    assert!(&rt; is_served(&rt, alloc, &served, &page, all, &mut upward)?);
    Ok(())
}
