//! Ann's network and her sessions, served over streams in memory.

use crate::gates::Still;
use crate::settings::settings_of_two;
use crate::stage::{Stage, stage_after};
use bnc_config::Place;
use hub_threads::{FreeGate, Network, OutletEnd, Worker};
use quick_view::QuickView;
use sessions::{Served, Unwatched, serve_session};
use std::alloc::Global;
use std::io::Write;
use std::sync::{Arc, Wait};
use std::test::Fail;
use std::thread::Threads;

/// What the network sent.
pub const HEARD: [&[u8]; 8] = [
    b":s 001 Me :hi",
    b":s 005 Me PREFIX=(ov)@+ CHANTYPES=# :are supported",
    b":s 376 Me :end",
    b":Me!m@h JOIN #c",
    b":s 332 Me #c :Hello all",
    b":s 324 Me #c +kl key 9",
    b":s 353 Me = #c :Me @+bob +eve",
    b":s 366 Me #c :End",
];

/// Ann's login from her computer.
pub const LOGIN: &str = "PASS ann@pc/net:bc\r\nNICK x\r\nUSER x 0 * :A\r\n";

/// What a client without capabilities is sent when it attaches after these lines.
pub const BURST: &str = ":bnc 001 Me :Welcome to the bouncer\r\n\
    :bnc 002 Me :Your host is bnc, running version 1\r\n\
    :bnc 003 Me :This server was created for you\r\n\
    :bnc 004 Me bnc 1 i biklmnopstv\r\n\
    :bnc 005 Me PREFIX=(ov)@+ CHANTYPES=# :are supported by this server\r\n\
    :bnc 422 Me :MOTD File is missing\r\n:Me JOIN #c\r\n:bnc 332 Me #c :Hello all\r\n\
    :bnc 324 Me #c +kl key 9\r\n:bnc 353 Me = #c :@bob +eve Me\r\n\
    :bnc 366 Me #c :End of NAMES list\r\n";

/// A network whose hub has taken these lines, and the end that reads what is sent to it.
pub fn network_of<R: Wait>(
    rt: &R,
    alloc: Global,
    heard: &[&[u8]],
) -> Result<(Network<QuickView>, OutletEnd), Fail> {
    let Stage {
        network,
        upward,
        ..
    } = stage_after(rt, alloc, 1, heard)?;
    Ok((network, upward))
}

/// A network at the place of ann's network `net` in the settings of two.
pub fn of_ann(
    alloc: Global,
    network: Network<QuickView>,
) -> Result<[(Place, Arc<Network<QuickView>>); 1], Fail> {
    let place = Place {
        user: 1,
        network: 0,
    };
    Ok([(place, Arc::new(alloc, network)?)])
}

/// Serves a client that says this over this writer, at ann's network.
pub fn serves_over<W: Write + Send + Drop + 'static, R: Threads + Wait + Send + Copy + 'static>(
    rt: R,
    alloc: Global,
    out: W,
    mut said: &[u8],
) -> Result<Served<W>, Fail> {
    let config = settings_of_two(alloc)?;
    let (network, _sent) = network_of(&rt, alloc, &HEARD)?;
    let networks = of_ann(alloc, network)?;
    let worker = Worker {
        rt,
        alloc,
        gate: &FreeGate,
        clock: &Still,
    };
    Ok(serve_session(
        &worker,
        &mut said,
        out,
        &config,
        &networks,
        &mut Unwatched::new(),
    )?)
}

/// Serves a client that says this over this writer. Whether its session was cut.
pub fn is_cut<W: Write + Send + Drop + 'static, R: Threads + Wait + Send + Copy + 'static>(
    rt: R,
    alloc: Global,
    out: W,
    said: &[u8],
) -> Result<bool, Fail> {
    match serves_over(rt, alloc, out, said)? {
        Served::Cut => Ok(true),
        _ => Ok(false),
    }
}

/// A login, and then more questions than may wait for a client and than its writer takes at once.
pub fn many_questions(alloc: Global) -> Result<Vec<u8>, Fail> {
    let mut said = Vec::from_slice(alloc, LOGIN.as_bytes())?;
    for _ in 0..1_000 {
        said.extend_from_slice(b"PING x\r\n")?;
    }
    said.extend_from_slice(b"QUIT\r\n")?;
    Ok(said)
}
