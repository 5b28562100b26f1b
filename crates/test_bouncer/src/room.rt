//! A channel with bob, and two clients who come to it.

use crate::bouncer::{Bouncer, settle};
use std::alloc::Global;
use std::net::{Net, TcpListener, TcpStream};
use std::test::Fail;
use test_stage::peer::Peer;

/// The burst of a client without capabilities.
pub const PLAIN: &str = ":bnc 001 ann :Welcome to the bouncer\r\n\
    :bnc 002 ann :Your host is bnc, running version 1\r\n\
    :bnc 003 ann :This server was created for you\r\n\
    :bnc 004 ann bnc 1 i biklmnopstv\r\n\
    :bnc 005 ann PREFIX=(ov)@+ CHANTYPES=# :are supported by this server\r\n\
    :bnc 422 ann :MOTD File is missing\r\n\
    :ann JOIN #c\r\n\
    :bnc 353 ann = #c :ann @bob\r\n\
    :bnc 366 ann #c :End of NAMES list\r\n";

/// What a client gets that asks for multi-prefix.
pub const WITH_ALL_SYMBOLS: &str = ":bnc CAP * ACK multi-prefix\r\n\
    :bnc 001 ann :Welcome to the bouncer\r\n\
    :bnc 002 ann :Your host is bnc, running version 1\r\n\
    :bnc 003 ann :This server was created for you\r\n\
    :bnc 004 ann bnc 1 i biklmnopstv\r\n\
    :bnc 005 ann PREFIX=(ov)@+ CHANTYPES=# :are supported by this server\r\n\
    :bnc 422 ann :MOTD File is missing\r\n\
    :ann JOIN #c\r\n\
    :bnc 353 ann = #c :ann @+bob\r\n\
    :bnc 366 ann #c :End of NAMES list\r\n";

/// The login of one client of ann, without capabilities.
pub const PHONE: &str = "PASS ann@phone/net:bc\r\nNICK x\r\nUSER x 0 * :x\r\n";

/// The login of another, which asks for multi-prefix.
pub const DESK: &str = "CAP REQ :multi-prefix\r\nPASS ann@desk/net:bc\r\nNICK x\r\n\
    USER x 0 * :x\r\nCAP END\r\n";

/// The network and two clients.
#[derive(Drop)]
pub struct Room {
    pub network: Peer,
    pub phone: Peer,
    pub desk: Peer,
}

/// The bouncer joins a channel with bob, and has taken it.
pub fn enter(alloc: Global, network: &mut Peer) -> Result<(), Fail> {
    network.say(":ann!a@h JOIN #c\r\n:s 353 ann = #c :ann @+bob\r\n:s 366 ann #c :End\r\n")?;
    settle(alloc, network)
}

/// The network lets the bouncer in, to a channel with bob.
pub fn let_in(alloc: Global, bouncer: &Bouncer) -> Result<Peer, Fail> {
    let mut network = bouncer.registers(alloc)?;
    enter(alloc, &mut network)?;
    Ok(network)
}

/// A client connects, logs in, and gets this burst.
pub fn come<R: Net<Listener = TcpListener, Stream = TcpStream>>(
    rt: &R,
    alloc: Global,
    bouncer: &Bouncer,
    login: &str,
    greeting: &str,
) -> Result<Peer, Fail> {
    let mut client = Peer::dial(rt, bouncer.address)?;
    greeted(alloc, &mut client, login, greeting)?;
    Ok(client)
}

/// A client logs in and gets this burst.
fn greeted(alloc: Global, client: &mut Peer, login: &str, greeting: &str) -> Result<(), Fail> {
    client.say(login)?;
    client.hears(alloc, greeting)
}

/// The network lets the bouncer in, and two clients come.
pub fn gather<R: Net<Listener = TcpListener, Stream = TcpStream>>(
    rt: &R,
    alloc: Global,
    bouncer: &Bouncer,
) -> Result<Room, Fail> {
    let network = let_in(alloc, bouncer)?;
    let phone = come(rt, alloc, bouncer, PHONE, PLAIN)?;
    let desk = come(rt, alloc, bouncer, DESK, WITH_ALL_SYMBOLS)?;
    Ok(Room {
        network,
        phone,
        desk,
    })
}

/// A client quits, and the bouncer has seen it.
pub fn leave(alloc: Global, client: &mut Peer) -> Result<(), Fail> {
    client.say("QUIT :bye\r\n")?;
    client.ends_with(alloc, "")
}
