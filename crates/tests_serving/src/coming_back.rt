//! Two clients, one of which leaves and comes back, and connections that are lost.

use std::alloc::Global;
use std::net::{Net, TcpListener, TcpStream};
use std::test::Fail;
use test_bouncer::bouncer::{Bouncer, limits, settle, start};
use test_bouncer::room::{
    DESK, PHONE, PLAIN, WITH_ALL_SYMBOLS, come, enter, gather, leave, let_in,
};
use test_stage::peer::Peer;

/// What bob says while the phone is away.
const MISSED: &str = ":bob!b@h PRIVMSG #c two\r\n:bob!b@h NOTICE #c three\r\n";

/// What the desk hears when the connection is made anew.
const ANEW: &str = ":s 001 ann Welcome\r\n\
    :s 005 ann PREFIX=(ov)@+ CHANTYPES=# :are supported\r\n\
    :s 376 ann :End of MOTD\r\n:ann!a@h JOIN #c\r\n:s 353 ann = #c :ann @+bob\r\n\
    :s 366 ann #c End\r\n";

/// Two clients hear what the network says, and what one says goes to the network and to the other.
/// Then one quits, and the other hears more.
fn talk(alloc: Global, network: &mut Peer, one: &mut Peer, two: &mut Peer) -> Result<(), Fail> {
    network.say(":bob!b@h PRIVMSG #c :one\r\n")?;
    one.hears(alloc, ":bob!b@h PRIVMSG #c one\r\n")?;
    two.hears(alloc, ":bob!b@h PRIVMSG #c one\r\n")?;
    one.say("PRIVMSG #c :hi all\r\n")?;
    network.hears(alloc, "PRIVMSG #c :hi all\r\n")?;
    two.hears(alloc, ":ann PRIVMSG #c :hi all\r\n")?;
    leave(alloc, one)?;
    network.say(":bob!b@h PRIVMSG #c :two\r\n:bob!b@h NOTICE #c three\r\n")?;
    two.hears(alloc, MISSED)
}

/// A client hears what it missed, and quits.
fn catch_up(alloc: Global, client: &mut Peer) -> Result<(), Fail> {
    client.hears(alloc, MISSED)?;
    leave(alloc, client)
}

/// The phone quits, and comes back.
fn go_and_come_back<R: Net<Listener = TcpListener, Stream = TcpStream>>(
    rt: &R,
    alloc: Global,
    bouncer: &Bouncer,
) -> Result<(), Fail> {
    let mut room = gather(rt, alloc, bouncer)?;
    talk(alloc, &mut room.network, &mut room.phone, &mut room.desk)?;
    room.phone = come(rt, alloc, bouncer, PHONE, PLAIN)?;
    catch_up(alloc, &mut room.phone)?;
    leave(alloc, &mut room.desk)
}

#[test]
fn a_client_that_comes_back_hears_what_it_missed(rt: HostRuntime) -> Result<(), Fail> {
    let alloc = rt.alloc();
    let bouncer = start(rt, alloc, limits(3, 1))?;
    go_and_come_back(&rt, alloc, &bouncer)?;
    bouncer.join(&rt);
    Ok(())
}

/// A client joins a channel with a key, and the connection is lost in the middle of a line.
fn join_and_lose(alloc: Global, network: Peer, desk: &mut Peer) -> Result<(), Fail> {
    let mut network = network;
    join(alloc, &mut network, desk)
}

/// A client joins a channel with a key, and the network begins a line.
fn join(alloc: Global, network: &mut Peer, desk: &mut Peer) -> Result<(), Fail> {
    desk.say("JOIN #d key\r\n")?;
    network.hears(alloc, "JOIN #d key\r\n")?;
    network.say(":ann!a@h JOIN #d\r\n:s MODE #d +k key\r\n:bob!b@h PRIV")?;
    desk.hears(alloc, ":ann!a@h JOIN #d\r\n:s MODE #d +k key\r\n")
}

/// The bouncer joins the channel with a key again, and the client hears all of it.
fn join_again(alloc: Global, network: &mut Peer, desk: &mut Peer) -> Result<(), Fail> {
    network.hears(alloc, "JOIN #d key\r\n")?;
    enter(alloc, network)?;
    desk.hears(alloc, ANEW)?;
    leave(alloc, desk)
}

/// The client hears of the end, and the connection is made anew.
fn made_anew(alloc: Global, bouncer: &Bouncer, desk: &mut Peer) -> Result<(), Fail> {
    desk.hears(alloc, ":ann PART #c\r\n:ann PART #d\r\n")?;
    let mut network = bouncer.registers(alloc)?;
    join_again(alloc, &mut network, desk)
}

#[test]
fn a_connection_lost_in_mid_line_is_made_anew(rt: HostRuntime) -> Result<(), Fail> {
    let alloc = rt.alloc();
    let bouncer = start(rt, alloc, limits(1, 2))?;
    lose_and_dial_again(&rt, alloc, &bouncer)?;
    bouncer.join(&rt);
    Ok(())
}

/// A connection is lost while a client is there, and is made anew.
fn lose_and_dial_again<R: Net<Listener = TcpListener, Stream = TcpStream>>(
    rt: &R,
    alloc: Global,
    bouncer: &Bouncer,
) -> Result<(), Fail> {
    let network = let_in(alloc, bouncer)?;
    let mut desk = come(rt, alloc, bouncer, DESK, WITH_ALL_SYMBOLS)?;
    join_and_lose(alloc, network, &mut desk)?;
    made_anew(alloc, bouncer, &mut desk)
}

/// The bouncer is on #c and on two more channels, one of which has a key, and the connection is
/// lost.
fn lose_three_channels(alloc: Global, bouncer: &Bouncer) -> Result<(), Fail> {
    let mut network = let_in(alloc, bouncer)?;
    network.say(":ann!a@h JOIN #d\r\n:ann!a@h JOIN #e\r\n:s MODE #e +k key\r\n")?;
    settle(alloc, &mut network)
}

/// The bouncer asks for the two channels that its settings don't name, and the connection is lost.
fn ask_in_vain(alloc: Global, bouncer: &Bouncer) -> Result<(), Fail> {
    let mut network = bouncer.registers(alloc)?;
    network.hears(alloc, "JOIN #e,#d key\r\n")
}

/// The bouncer asks for the two channels and gets into one of them, and the connection is lost.
fn ask_in_half_vain(alloc: Global, bouncer: &Bouncer) -> Result<(), Fail> {
    let mut network = bouncer.registers(alloc)?;
    network.hears(alloc, "JOIN #e,#d key\r\n")?;
    network.say(":ann!a@h JOIN #e\r\n:ann!a@h PART #e\r\n")?;
    settle(alloc, &mut network)
}

/// Connections are lost in succession: one is closed at once, two before all channels are joined.
fn lose_in_succession(alloc: Global, bouncer: &Bouncer) -> Result<(), Fail> {
    lose_three_channels(alloc, bouncer)?;
    Peer::accept(&bouncer.network)?;
    ask_in_vain(alloc, bouncer)?;
    ask_in_half_vain(alloc, bouncer)?;
    let mut network = bouncer.registers(alloc)?;
    network.hears(alloc, "JOIN #d\r\n")
}

#[test]
fn channels_come_back_after_losses_in_succession(rt: HostRuntime) -> Result<(), Fail> {
    let alloc = rt.alloc();
    let bouncer = start(rt, alloc, limits(0, 5))?;
    lose_in_succession(alloc, &bouncer)?;
    bouncer.join(&rt);
    Ok(())
}
