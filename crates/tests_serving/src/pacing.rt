//! The pace at which the clients of a network may speak.

use serving::Limits;
use std::alloc::Global;
use std::net::{Net, TcpListener, TcpStream};
use std::rt::Clock;
use std::sync::Wait;
use std::test::Fail;
use std::time::{Duration, Instant};
use test_bouncer::bouncer::{Bouncer, limits, start, start_unlogged};
use test_bouncer::room::{PHONE, PLAIN, Room, come, gather, leave, let_in};
use test_stage::peer::Peer;

/// How many lines are sent at once.
const LINES: u32 = 40;

/// Limits for `accepts` clients, which may say `burst` bytes at once, and `pace` bytes a second.
fn paced(accepts: u64, burst: u64, pace: u64) -> Limits {
    let mut limits = limits(accepts, 1);
    limits.burst = burst;
    limits.pace = pace;
    limits
}

/// The lines, each after `source`, with `middle` in their middle. By themselves they have 830
/// bytes.
fn lines(alloc: Global, source: &str, middle: &str) -> Result<String, Fail> {
    let mut text = String::new(alloc);
    for number in 0..LINES {
        let line = format!(in alloc; "{source}PRIVMSG #c :line {number}\r\n")?;
        text.push_str(line.as_str())?;
        if number == LINES / 2 {
            text.push_str(middle)?;
        }
    }
    Ok(text)
}

/// The lines are sent, with a PING in their middle.
fn say_lines(alloc: Global, peer: &mut Peer) -> Result<(), Fail> {
    let said = lines(alloc, "", "PING :half\r\n")?;
    peer.say(said.as_str())
}

/// The lines are heard, each after this text.
fn hears_lines(alloc: Global, peer: &mut Peer, source: &str) -> Result<(), Fail> {
    let wanted = lines(alloc, source, "")?;
    peer.hears(alloc, wanted.as_str())
}

/// One client says lines at once, with a PING among them. The network and the other client hear the
/// lines in order, and the PING is answered. How long it took until its answer, and until the last
/// line was heard.
fn timed<R: Clock>(rt: &R, alloc: Global, room: &mut Room) -> Result<(Duration, Duration), Fail> {
    let began = Instant::now(rt)?;
    say_lines(alloc, &mut room.phone)?;
    room.phone.hears(alloc, ":bnc PONG bnc half\r\n")?;
    let half = began.elapsed(rt)?;
    hears_lines(alloc, &mut room.network, "")?;
    let whole = began.elapsed(rt)?;
    hears_lines(alloc, &mut room.desk, ":ann ")?;
    leave(alloc, &mut room.phone)?;
    leave(alloc, &mut room.desk)?;
    Ok((half, whole))
}

/// Two clients come, and one says lines at once.
fn come_and_say<R: Clock + Net<Listener = TcpListener, Stream = TcpStream>>(
    rt: &R,
    alloc: Global,
    bouncer: &Bouncer,
) -> Result<(Duration, Duration), Fail> {
    let mut room = gather(rt, alloc, bouncer)?;
    timed(rt, alloc, &mut room)
}

/// 830 bytes with 200 at once and 1,000 a second take 0.63 seconds, and the 431 bytes of the 21
/// lines before the PING, which keeps its place, 0.23.
#[test]
fn what_is_said_at_once_comes_in_order_at_the_pace(rt: HostRuntime) -> Result<(), Fail> {
    let alloc = rt.alloc();
    let bouncer = start(rt, alloc, paced(2, 200, 1_000))?;
    let (half, whole) = come_and_say(&rt, alloc, &bouncer)?;
    assert!(rt; half >= Duration::from_millis(220));
    assert!(rt; whole >= Duration::from_millis(620) && whole < Duration::from_secs(8));
    bouncer.join(&rt);
    Ok(())
}

/// One client says all that may be said at once, and then another says the same. How long it took
/// until both were heard.
fn both_say<R: Clock + Net<Listener = TcpListener, Stream = TcpStream>>(
    rt: &R,
    alloc: Global,
    bouncer: &Bouncer,
) -> Result<Duration, Fail> {
    let mut room = gather(rt, alloc, bouncer)?;
    let began = Instant::now(rt)?;
    room.phone.say("PRIVMSG #c :to all\r\n")?;
    room.network.hears(alloc, "PRIVMSG #c :to all\r\n")?;
    room.desk.say("PRIVMSG #c :me too\r\n")?;
    room.network.hears(alloc, "PRIVMSG #c :me too\r\n")?;
    let took = began.elapsed(rt)?;
    room.phone.hears(alloc, ":ann PRIVMSG #c :me too\r\n")?;
    room.desk.hears(alloc, ":ann PRIVMSG #c :to all\r\n")?;
    leave(alloc, &mut room.phone)?;
    leave(alloc, &mut room.desk)?;
    Ok(took)
}

/// 40 bytes with 20 at once and 40 a second take half a second.
#[test]
fn all_clients_of_a_network_have_one_pace(rt: HostRuntime) -> Result<(), Fail> {
    let alloc = rt.alloc();
    let bouncer = start(rt, alloc, paced(2, 20, 40))?;
    let took = both_say(&rt, alloc, &bouncer)?;
    assert!(rt; took >= Duration::from_millis(500) && took < Duration::from_secs(8));
    bouncer.join(&rt);
    Ok(())
}

/// A client asks a question with this number.
fn ask(alloc: Global, phone: &mut Peer, number: u32) -> Result<(), Fail> {
    let question = format!(in alloc; "ping :{number}\r\n")?;
    phone.say(question.as_str())
}

/// A client asks a hundred times; the answers.
fn ask_often(alloc: Global, phone: &mut Peer) -> Result<String, Fail> {
    let mut answers = String::new(alloc);
    for number in 0..100 {
        ask(alloc, phone, number)?;
        answers.push_str(format!(in alloc; ":bnc PONG bnc {number}\r\n")?.as_str())?;
    }
    Ok(answers)
}

/// A client comes, asks, says one thing and quits: 20 bytes count.
fn ask_and_quit<R: Net<Listener = TcpListener, Stream = TcpStream>>(
    rt: &R,
    alloc: Global,
    bouncer: &Bouncer,
) -> Result<(), Fail> {
    let mut network = let_in(alloc, bouncer)?;
    let mut phone = come(rt, alloc, bouncer, PHONE, PLAIN)?;
    asks_and_quits(alloc, &mut network, &mut phone)
}

/// A client asks a hundred times, says one thing and quits.
fn asks_and_quits(alloc: Global, network: &mut Peer, phone: &mut Peer) -> Result<(), Fail> {
    let mut answers = ask_often(alloc, phone)?;
    phone.say("PRIVMSG #c :hi all\r\n@a=b :x PING y\r\nPONG z\r\nCAP LIST\r\nQUIT :bye\r\n")?;
    network.hears(alloc, "PRIVMSG #c :hi all\r\n")?;
    answers.push_str(":bnc PONG bnc y\r\n:bnc CAP ann LIST :\r\n")?;
    phone.ends_with(alloc, answers.as_str())
}

#[test]
fn what_the_network_does_not_hear_counts_nothing(rt: HostRuntime) -> Result<(), Fail> {
    let alloc = rt.alloc();
    let bouncer = start(rt, alloc, paced(1, 20, 1))?;
    ask_and_quit(&rt, alloc, &bouncer)?;
    bouncer.join(&rt);
    Ok(())
}

/// A client says four lines with its login; the pace lets one through, and the client leaves.
/// Whether the network heard that one, and no session is left.
fn say_and_go<R: Clock + Wait + Net<Listener = TcpListener, Stream = TcpStream>>(
    rt: &R,
    alloc: Global,
    bouncer: &Bouncer,
) -> Result<bool, Fail> {
    let mut network = let_in(alloc, bouncer)?;
    let said =
        "PRIVMSG #c :the 1\r\nPRIVMSG #c :the 2\r\nPRIVMSG #c :the 3\r\nPRIVMSG #c :the 4\r\n";
    let text = format!(in alloc; "{PHONE}{said}")?;
    let phone = come(rt, alloc, bouncer, text.as_str(), PLAIN)?;
    network.hears(alloc, "PRIVMSG #c :the 1\r\n")?;
    drop(phone);
    Ok(bouncer.is_left(rt))
}

#[test]
fn what_is_not_said_when_a_client_goes_is_lost_and_told(rt: HostRuntime) -> Result<(), Fail> {
    let alloc = rt.alloc();
    let bouncer = start_unlogged(rt, alloc, paced(1, 20, 1))?;
    assert!(rt; say_and_go(&rt, alloc, &bouncer)?);
    let log = bouncer.logged(&rt, alloc)?;
    let log = String::from_utf8_lossy(alloc, log.as_slice())?;
    let lost = "ann@phone/net: lost 3 lines that the client had not yet said\n";
    assert!(rt; log.contains(lost), "{log}");
    Ok(())
}
