//! Registrations by the states of a connection.

use crate::settings::{network_of, plain};
use bnc_config::NetworkConfig;
use std::alloc::Global;
use std::process::Abort;
use std::test::Fail;
use upstream::{DialFault, Dialled, Duplex, Live, RegisterFault, Welcomed};

/// What is left of the input, and what was sent.
type Stream<'a> = Duplex<&'a [u8], Vec<u8>>;

/// What comes of a registration.
type Outcome<'a> = Result<Live<&'a [u8], Vec<u8>>, (DialFault, Stream<'a>)>;

/// Registers at a network that sends this, up to the welcome.
fn lives_at<'a>(alloc: Global, network: &NetworkConfig, input: &'a str) -> Outcome<'a> {
    let stream = Duplex {
        reader: input.as_bytes(),
        writer: Vec::new(alloc),
    };
    match Dialled::new(stream).begin(alloc, network) {
        Ok(registering) => registering.finish(alloc),
        Err(refused) => Err(refused),
    }
}

/// The same by the plain settings.
fn lives<'a>(alloc: Global, input: &'a str) -> Result<Outcome<'a>, Fail> {
    let config = plain(alloc)?;
    Ok(lives_at(alloc, network_of(&config)?, input))
}

/// What a network sends, to the middle of a line after the welcome.
const INPUT: &str = ":s CAP * LS * :sasl batch\r\n:s CAP * LS :account-notify=1 multi-prefix\r\n\
    :s CAP * ACK :multi-prefix account-notify\r\n:s 433 * ann :in use\r\n:s 001 ann_ :hi\r\n\
    :s 376 ann_ :end\r\n:s 4";

/// What it is sent.
const SENT: &str = "CAP LS 302\r\nNICK ann\r\nUSER ann 0 * :Ann A\r\n\
    CAP REQ :multi-prefix account-notify\r\nCAP END\r\nNICK ann_\r\n";

const GOES_ON_COMMANDS: [&[u8]; 3] = [b"001", b"376", b"422"];

/// The lines that came with the welcome, and the one that is ended then.
fn goes_on<R: AllocGlobal + Abort>(rt: &R, welcomed: Welcomed) -> Result<(), Fail> {
    let mut welcomed = welcomed;
    welcomed
        .splitter
        .feed(b"22 ann_ :x\r\n", &mut welcomed.lines)?;
    assert!(rt; welcomed.lines.len() == GOES_ON_COMMANDS.len());
    for (line, command) in welcomed.lines.iter().zip(GOES_ON_COMMANDS) {
        assert!(rt; line.is(command));
    }
    Ok(())
}

#[test]
fn from_the_first_line_to_the_welcome(rt: HostRuntime) -> Result<(), Fail> {
    let Ok(live) = lives(rt.alloc(), INPUT)? else {
        assert!(rt; false, "welcomed");
        return Ok(());
    };
    let (stream, welcomed) = live.into_parts();
    assert!(rt; stream.writer.as_slice() == SENT.as_bytes());
    assert!(rt; stream.reader.is_empty());
    goes_on(&rt, welcomed)
}

/// A word for what came of a registration.
fn word(outcome: &Outcome<'_>) -> &'static str {
    match outcome {
        Ok(_) => "live",
        Err((DialFault::Register(RegisterFault::BadNick), _)) => "bad nick",
        Err((DialFault::Read, _)) => "read",
        Err(_) => "another fault",
    }
}

/// Whether the stream was handed back, and this was sent over it.
fn has_sent(outcome: &Outcome<'_>, sent: &str) -> bool {
    match outcome {
        Ok(_) => false,
        Err((_, stream)) => stream.writer.as_slice() == sent.as_bytes(),
    }
}

#[test]
fn a_bad_nick_hands_the_stream_back(rt: HostRuntime) -> Result<(), Fail> {
    let outcome = lives(rt.alloc(), ":s 432 * ann :bad\r\n")?;
    assert!(rt; word(&outcome) == "bad nick");
    assert!(rt;
        has_sent(
            &outcome,
            "CAP LS 302\r\nNICK ann\r\nUSER ann 0 * :Ann A\r\n"
        )
    );
    Ok(())
}

#[test]
fn an_input_that_ends_hands_the_stream_back(rt: HostRuntime) -> Result<(), Fail> {
    let outcome = lives(rt.alloc(), ":s CAP * LS :\r\n:s 00")?;
    assert!(rt; word(&outcome) == "read");
    let sent = "CAP LS 302\r\nNICK ann\r\nUSER ann 0 * :Ann A\r\nCAP END\r\n";
    assert!(rt; has_sent(&outcome, sent));
    Ok(())
}
