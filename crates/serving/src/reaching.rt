//! The addresses of a network, dialled in turn.

use crate::dialling::Dialling;
use std::io;
use std::net::{Net, SocketAddr, TcpListener, TcpStream, ToSocketAddrs};
use std::rt::Clock;
use std::sync::Wait;
use std::time::Duration;

/// A connection to one address of a network, which has this long to answer.
fn connect_to<R: Wait + Clock + Net<Listener = TcpListener, Stream = TcpStream>>(
    rt: &R,
    address: &SocketAddr,
    time: Duration,
    write: Duration,
) -> io::Result<TcpStream> {
    let stream = TcpStream::connect_timeout(rt, address, time)?;
    stream.set_nodelay(true)?;
    stream.set_write_timeout(Some(write))?;
    Ok(stream)
}

/// A connection to an address, `HOST:PORT` or `[IPV6]:PORT`: each address of the host is tried in
/// turn, while the network is to be dialled. The last of them has longer to answer than those before
/// it.
pub(crate) fn connect<R: Wait + Clock + Net<Listener = TcpListener, Stream = TcpStream>>(
    dialling: &Dialling<'_, R>,
    address: &str,
) -> io::Result<TcpStream> {
    let limits = dialling.shared.limits();
    let mut next = None;
    for found in address.to_socket_addrs(dialling.rt)? {
        let Some(earlier) = next.replace(found) else {
            continue;
        };
        if !dialling.is_awaited() {
            return Err(io::Error::from(io::ErrorKind::NotFound));
        }
        if let Ok(stream) = connect_to(
            dialling.rt,
            &earlier,
            limits.connect_in_turn,
            limits.write,
        ) {
            return Ok(stream);
        }
    }
    match next {
        Some(last) if dialling.is_awaited() => {
            connect_to(dialling.rt, &last, limits.connect, limits.write)
        }
        _ => Err(io::Error::from(io::ErrorKind::NotFound)),
    }
}
