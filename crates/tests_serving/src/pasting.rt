//! A client that sends a lot at once.

use std::alloc::Global;
use std::net::{Net, TcpListener, TcpStream};
use std::test::Fail;
use test_bouncer::bouncer::{Bouncer, limits, start};
use test_bouncer::room::{Room, gather, leave};

/// How many lines are sent at once: more than may wait for the network or for a session.
const LINES: u32 = 600;

/// The lines, each after this text.
fn lines(alloc: Global, source: &str) -> Result<String, Fail> {
    let mut text = String::new(alloc);
    for number in 0..LINES {
        let line = format!(in alloc; "{source}PRIVMSG #c :line {number}\r\n")?;
        text.push_str(line.as_str())?;
    }
    Ok(text)
}

/// One client says the lines, and the network and the other client hear them.
fn paste(alloc: Global, room: &mut Room, said: &str, heard: &str) -> Result<(), Fail> {
    room.phone.say(said)?;
    room.network.hears(alloc, said)?;
    room.desk.hears(alloc, heard)?;
    leave(alloc, &mut room.phone)?;
    leave(alloc, &mut room.desk)
}

/// Two clients come, and one says the lines.
fn come_and_paste<R: Net<Listener = TcpListener, Stream = TcpStream>>(
    rt: &R,
    alloc: Global,
    bouncer: &Bouncer,
) -> Result<(), Fail> {
    let said = lines(alloc, "")?;
    let heard = lines(alloc, ":ann ")?;
    let mut room = gather(rt, alloc, bouncer)?;
    paste(alloc, &mut room, said.as_str(), heard.as_str())
}

#[test]
fn what_is_pasted_goes_whole_to_the_network_and_to_the_others(rt: HostRuntime) -> Result<(), Fail> {
    let alloc = rt.alloc();
    let bouncer = start(rt, alloc, limits(2, 1))?;
    come_and_paste(&rt, alloc, &bouncer)?;
    bouncer.join(&rt);
    Ok(())
}
