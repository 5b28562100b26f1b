//! Connections of a proxy: those that only look whether the bouncer is there, and a login that is cut.

use crate::control::untimed;
use serving::{Proxies, Shared, accept_proxies};
use std::alloc::Global;
use std::net::{Net, Shutdown, SocketAddr, TcpListener, TcpStream};
use std::sync::Arc;
use std::test::Fail;
use std::thread;
use test_bouncer::bouncer::{limits, settings};
use test_bouncer::host::Host;
use test_stage::peer::{Peer, same};

/// What a proxy sends before it closes, and what is logged of it.
static ROWS: [(&str, &str); 4] = [
    ("", ""),
    ("PROXY UNKNOWN\r\n", ""),
    ("PROXY TCP4 192.0.2.7 192.0.2.1 4 6\r\n", ""),
    (
        "PROXY TCP4 192.0.2.7 192.0.2.1 4 6\r\nN",
        "bnc: no login from 192.0.2.7:PORT: gone, or too late\n",
    ),
];

/// A proxy says this and closes, and is closed without an answer. The port that it came from.
fn says_and_goes<R: Net<Listener = TcpListener, Stream = TcpStream>>(
    rt: &R,
    alloc: Global,
    address: SocketAddr,
    text: &str,
) -> Result<u16, Fail> {
    let stream = TcpStream::connect(rt, address)?;
    let port = stream.local_addr()?.port();
    let mut proxy = Peer::on(stream.try_clone()?)?;
    proxy.say(text)?;
    stream.shutdown(Shutdown::Write)?;
    proxy.ends_with(alloc, "")?;
    Ok(port)
}

/// A proxy says and goes for each row, and the log has what the rows say.
fn rows_hold<R: Host + Net<Listener = TcpListener, Stream = TcpStream>>(
    rt: R,
    alloc: Global,
    shared: &Arc<Shared>,
) -> Result<(), Fail> {
    let door = TcpListener::bind(&rt, "127.0.0.1:0")?;
    let address = door.local_addr()?;
    let theirs = Arc::try_clone(shared)?;
    let proxies = Proxies::of(alloc, None)?;
    let accepting = thread::spawn(
        &rt,
        move || accept_proxies(rt, alloc, &door, &theirs, &proxies),
    )?;
    let mut want = String::new(alloc);
    for (text, log) in ROWS {
        let port = says_and_goes(&rt, alloc, address, text)?;
        let port = format!(in alloc; "{port}")?;
        want.push_str(log.replace(alloc, "PORT", port.as_str())?.as_str())?;
    }
    accepting.join(&rt);
    shared.log().end(&rt);
    let mut log = Vec::new(alloc);
    shared.log().write_to(&rt, &mut log);
    same(
        alloc,
        untimed(alloc, log.as_slice())?.as_slice(),
        want.as_str(),
    )
}

#[test]
fn a_proxy_that_only_looks_is_not_logged(rt: HostRuntime) -> Result<(), Fail> {
    let alloc = rt.alloc();
    let settings = settings(alloc, "127.0.0.1:1".parse()?)?;
    let (shared, _begun) = Shared::new(&rt, alloc, settings, limits(4, 0))?;
    rows_hold(rt, alloc, &Arc::new(alloc, shared)?)
}
