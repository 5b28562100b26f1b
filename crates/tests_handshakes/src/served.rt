//! A connection to a network that is served under another nick than that of the settings, over a stream
//! in memory.

use crate::settings::{network_of, text_with};
use bnc_config::{Config, NetworkConfig};
use hub_threads::{FreeGate, ReadEnd, Worker};
use irc_line::Line;
use irc_names::is_nameable;
use std::alloc::Global;
use std::process::Abort;
use std::sync::Wait;
use std::test::Fail;
use std::thread::Threads;
use test_stage::gates::Still;
use test_stage::stage::{Stage, quick_stage, take_all};
use test_streams::{Pieces, Sink};
use upstream::{Duplex, Keeper, Link, NetworkEnd, Served, serve_network_as};

/// What the network sends: the nick is in use, and then we are let in, and join a channel.
const INPUT: &str = ":s CAP * LS :\r\n:s 433 * bob :in use\r\n:s 001 bob_ :hi\r\n\
    :s 005 bob_ CHANTYPES=# :are supported\r\n:bob_!b@h JOIN #c\r\n";

/// What it is sent.
const SENT: &str = "CAP LS 302\r\nNICK bob\r\nUSER ann 0 * :Ann A\r\nCAP END\r\nNICK bob_\r\n\
    JOIN #c\r\n";

/// Leaves a connection as it is, and sees how many lines the welcome came with, and the end.
#[derive(Drop)]
struct Onlooker {
    welcome: usize,
    has_ended: bool,
}

impl Keeper<Pieces, Sink> for Onlooker {
    fn registered(&mut self, _reader: &mut Pieces, _writer: &mut Sink, lines: &[Line]) -> bool {
        self.welcome = lines.len();
        true
    }

    fn no_thread(&mut self) {}

    fn ended(&mut self) {
        self.has_ended = true;
    }
}

/// Serves a connection under this nick to the end of its input. What it hands back.
fn serves_as<R: Threads + Wait + Send + Copy + 'static>(
    rt: R,
    alloc: Global,
    nick: &[u8],
    link: Link,
    keeper: &mut Onlooker,
) -> Result<Served<Pieces, Sink>, Fail> {
    let text = text_with(alloc, "join = [\"#c\"]\n")?;
    let config = Config::read(alloc, text.as_str().as_bytes())?;
    let stream = Duplex {
        reader: Pieces::of_lines(alloc, INPUT.as_bytes())?,
        writer: Sink::new(alloc),
    };
    let worker = Worker {
        rt,
        alloc,
        gate: &FreeGate,
        clock: &Still,
    };
    if !is_nameable(nick) {
        return Err("a nick")?;
    }
    Ok(serve_network_as(&worker, stream, network_of(&config)?, nick, link, keeper))
}

/// The registration asks for the nick that it is given; the hub gets the lines from the welcome on, by
/// which the JOIN of `bob_` is ours, and then the loss.
#[test]
fn a_network_under_another_nick(rt: HostRuntime) -> Result<(), Fail> {
    let alloc = rt.alloc();
    let Stage {
        network,
        end,
        upward,
    } = quick_stage(alloc, 1, 8)?;
    let link = Link {
        inlet: end,
        stopper: upward.stopper()?,
        outlet: upward,
    };
    let mut keeper = Onlooker {
        welcome: 0,
        has_ended: false,
    };
    let served = serves_as(rt, alloc, b"bob", link, &mut keeper)?;
    assert!(rt; matches!(served.end, NetworkEnd::Lost(ReadEnd::EndOfInput)));
    assert!(rt; served.stream.writer.bytes.as_slice() == SENT.as_bytes());
    assert!(rt; keeper.welcome == 1 && keeper.has_ended);
    assert!(rt; take_all(&rt, &network)? == (4, 0));
    let hub = network.lock(&rt);
    let lost = hub.lost_channel_at(0).ok_or("we were on no channel")?;
    assert!(rt; lost.name.as_slice() == b"#c".as_slice());
    Ok(())
}
