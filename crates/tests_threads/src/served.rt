//! Clients over streams in memory, from the login to the end of the session.

use bnc_config::{Config, Place};
use hub_threads::{FreeGate, Network, OutletEnd, Worker};
use quick_view::QuickView;
use sessions::{Served, Unwatched, serve_session};
use std::alloc::Global;
use std::process::Abort;
use std::sync::{Arc, Wait};
use std::test::Fail;
use std::thread::Threads;
use test_stage::ann::{BURST, HEARD, LOGIN, is_cut, many_questions, network_of, of_ann};
use test_stage::gates::Still;
use test_stage::settings::settings_of_two;
use test_stage::slow_streams::{Gone, flag};

/// How a client was served, in words, and what it was sent in its session.
fn outcome_text(alloc: Global, served: &Served<Vec<u8>>) -> Result<Vec<u8>, Fail> {
    let text = match served {
        Served::NoLogin => format!(in alloc; "no login")?,
        Served::Refused(error) => format!(in alloc; "refused: {error}")?,
        Served::Cut => format!(in alloc; "cut")?,
        Served::Ended(ended) => format!(in alloc; "ended, {} ", ended.token)?,
    };
    let mut out = Vec::from_slice(alloc, text.as_str().as_bytes())?;
    if let Served::Ended(ended) = served {
        out.extend_from_slice(ended.out.as_slice())?;
    }
    Ok(out)
}

/// Serves a client that says this on these networks. How it was served, and then what was sent to
/// the network.
fn served_text<R: Threads + Wait + Send + Copy + 'static>(
    rt: R,
    alloc: Global,
    config: &Config,
    networks: &[(Place, Arc<Network<QuickView>>)],
    sent: &mut OutletEnd,
    mut said: &[u8],
) -> Result<Vec<u8>, Fail> {
    let writer = Vec::new(alloc);
    let worker = Worker {
        rt,
        alloc,
        gate: &FreeGate,
        clock: &Still,
    };
    let served = serve_session(
        &worker,
        &mut said,
        writer,
        config,
        networks,
        &mut Unwatched::new(),
    )?;
    let mut out = outcome_text(alloc, &served)?;
    push_sent(sent, &mut out)?;
    Ok(out)
}

/// Adds what waits at an end: at most eight packets.
fn push_sent(end: &mut OutletEnd, text: &mut Vec<u8>) -> Result<(), Fail> {
    for _ in 0..8 {
        if let Some(packet) = end.take() {
            text.extend_from_slice(packet.bytes())?;
        }
    }
    Ok(())
}

/// Serves a client that says this on a network that heard that. How it was served, and then what
/// was sent to the network.
fn serves<R: Threads + Wait + Send + Copy + 'static>(
    rt: R,
    alloc: Global,
    heard: &[&[u8]],
    said: &[u8],
) -> Result<Vec<u8>, Fail> {
    let config = settings_of_two(alloc)?;
    let (network, mut sent) = network_of(&rt, alloc, heard)?;
    let networks = of_ann(alloc, network)?;
    served_text(rt, alloc, &config, &networks, &mut sent, said)
}

/// Fails if a client that says this, after some login, is not served so.
fn is_served<R: Threads + Wait + Abort + Send + Copy + 'static>(
    rt: R,
    alloc: Global,
    heard: &[&[u8]],
    said: (&str, &str),
    want: (&str, &str, &str),
) -> Result<(), Fail> {
    let said = format!(in alloc; "{}{}", said.0, said.1)?;
    let want = format!(in alloc; "{}{}{}", want.0, want.1, want.2)?;
    let found = serves(rt, alloc, heard, said.as_str().as_bytes())?;
    assert!(rt; found.as_slice() == want.as_str().as_bytes(), "{said}");
    Ok(())
}

#[test]
fn a_session_speaks_to_its_network(rt: HostRuntime) -> Result<(), Fail> {
    let said = "PRIVMSG #c :hi all\r\nQUIT\r\nPRIVMSG #c :unsaid\r\n";
    let sent = "PRIVMSG #c :hi all\r\n";
    is_served(
        rt,
        rt.alloc(),
        &HEARD,
        (LOGIN, said),
        ("ended, true ", BURST, sent),
    )
}

#[test]
fn an_input_that_ends_ends_the_session(rt: HostRuntime) -> Result<(), Fail> {
    is_served(
        rt,
        rt.alloc(),
        &HEARD,
        (LOGIN, "QUI"),
        ("ended, true ", BURST, ""),
    )
}

#[test]
fn nobody_is_let_in_without_right(rt: HostRuntime) -> Result<(), Fail> {
    let alloc = rt.alloc();
    let rest = "NICK x\r\nUSER x 0 * :A\r\nPRIVMSG #c :hi\r\nQUIT\r\n";
    let none = ("no login", "", "");
    is_served(rt, alloc, &HEARD, ("PASS ann@pc/net:bd\r\n", rest), none)?;
    is_served(rt, alloc, &HEARD, ("PASS eve@pc/net:bc\r\n", rest), none)?;
    is_served(rt, alloc, &HEARD, ("PASS ann@pc/other:bc\r\n", rest), none)?;
    is_served(rt, alloc, &HEARD, ("PASS ann@pc/none:bc\r\n", rest), none)?;
    is_served(rt, alloc, &HEARD, ("PASS bob/net:abc\r\n", rest), none)?;
    is_served(rt, alloc, &HEARD, ("QUIT\r\n", LOGIN), none)?;
    is_served(
        rt,
        alloc,
        &HEARD,
        ("PASS ann@pc/net:bc\r\nNICK x\r\n", ""),
        none,
    )
}

#[test]
fn a_network_that_is_not_ready(rt: HostRuntime) -> Result<(), Fail> {
    let refused = ("refused: not ready", "", "");
    is_served(
        rt,
        rt.alloc(),
        &[b":s 001 Me :hi"],
        (LOGIN, "PRIVMSG #c :hi\r\n"),
        refused,
    )
}

#[test]
fn a_session_that_takes_nothing_is_cut(rt: HostRuntime) -> Result<(), Fail> {
    let out = Gone {
        dropped: flag(rt.alloc())?,
    };
    let said = many_questions(rt.alloc())?;
    assert!(rt; is_cut(rt, rt.alloc(), out, said.as_slice())?);
    Ok(())
}

/// What a client is sent when its capabilities change.
#[test]
fn capabilities_that_change(rt: HostRuntime) -> Result<(), Fail> {
    let said = "CAP REQ batch\r\nCAP REQ batch\r\nCAP REQ sasl\r\nCAP LIST\r\nQUIT\r\n";
    let sent = ":bnc CAP Me ACK batch\r\n\
        :bnc 353 Me = #c :@bob +eve Me\r\n:bnc 366 Me #c :End of NAMES list\r\n\
        :bnc CAP Me ACK batch\r\n:bnc CAP Me NAK sasl\r\n:bnc CAP Me LIST batch\r\n";
    let want = ("ended, true ", BURST, sent);
    is_served(rt, rt.alloc(), &HEARD, (LOGIN, said), want)
}
