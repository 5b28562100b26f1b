//! Clients that are turned away.

use std::alloc::Global;
use std::net::{Net, SocketAddr, TcpListener, TcpStream};
use std::test::Fail;
use test_stage::peer::Peer;

/// A client connects and says this, and is turned away with this answer.
pub fn turned_away<R: Net<Listener = TcpListener, Stream = TcpStream>>(
    rt: &R,
    alloc: Global,
    address: SocketAddr,
    says: &str,
    answer: &str,
) -> Result<(), Fail> {
    let mut client = Peer::dial(rt, address)?;
    client.say(says)?;
    client.ends_with(alloc, answer)
}

/// What a client gets when its time is up, if it has sent no PASS.
pub const SEND_PASS: &str = "ERROR :send PASS user@client/network:password\r\n";
