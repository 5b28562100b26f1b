//! Registrations whose reader or writer fails at one of its calls.

use crate::settings::{network_of, plain};
use bnc_config::NetworkConfig;
use std::alloc::Global;
use std::io::ErrorKind;
use std::process::Abort;
use std::test::Fail;
use test_streams::{Pieces, Sink};
use upstream::{DialFault, Dialled, Duplex, Registering};

/// What the network sends: five lines.
const INPUT: &str = ":s CAP * LS * :sasl batch\r\n:s CAP * LS :account-notify=1 multi-prefix\r\n\
    :s CAP * ACK :multi-prefix account-notify\r\n:s 433 * ann :in use\r\n:s 001 ann_ :hi\r\n";

/// What is sent before a line has come.
const FIRST: &str = "CAP LS 302\r\nNICK ann\r\nUSER ann 0 * :Ann A\r\n";

/// A word for a fault.
fn word(fault: &DialFault) -> &'static str {
    match fault {
        DialFault::Memory => "memory",
        DialFault::Read => "read",
        DialFault::Write => "write",
        DialFault::TooLong => "too long",
        DialFault::Register(_) => "register",
    }
}

/// How many lines end in a text, as a digit.
fn lines_in(text: &[u8]) -> u8 {
    let mut count: usize = 0;
    for byte in text {
        if *byte == b'\n' {
            count = count.saturating_add(1);
        }
    }
    b"0123456789".get(count).copied().unwrap_or(b'?')
}

/// A stream that is handed back, in words: how many lines are left to read, and what was sent.
fn stream_text(alloc: Global, word: &str, stream: &Duplex<Pieces, Sink>) -> Result<Vec<u8>, Fail> {
    let mut out = Vec::from_slice(alloc, word.as_bytes())?;
    out.push(b' ')?;
    out.push(lines_in(&stream.reader.unread(alloc)?))?;
    out.push(b' ')?;
    out.extend_from_slice(stream.writer.bytes.as_slice())?;
    Ok(out)
}

/// What a registration that has begun comes to.
fn finishes(alloc: Global, registering: Registering<Pieces, Sink>) -> Result<Vec<u8>, Fail> {
    match registering.finish(alloc) {
        Ok(live) => stream_text(alloc, "live", &live.into_parts().0),
        Err((fault, stream)) => stream_text(alloc, word(&fault), &stream),
    }
}

/// How many calls of a stream succeed.
#[derive(Clone, Copy)]
struct GoodCalls {
    reads: usize,
    writes: usize,
    flushes: usize,
}

/// A stream whose reader gives a line a call; both ends fail after their good calls.
fn stream_with(alloc: Global, good: GoodCalls) -> Result<Duplex<Pieces, Sink>, Fail> {
    let mut reader = Pieces::of_lines(alloc, INPUT.as_bytes())?;
    reader.good_calls = good.reads;
    reader.fault = Some(ErrorKind::ConnectionReset);
    let mut writer = Sink::new(alloc);
    writer.good_calls = good.writes;
    writer.good_flushes = good.flushes;
    Ok(Duplex { reader, writer })
}

/// Registers at a network over such a stream.
fn dials(alloc: Global, network: &NetworkConfig, good: GoodCalls) -> Result<Vec<u8>, Fail> {
    match Dialled::new(stream_with(alloc, good)?).begin(alloc, network) {
        Ok(registering) => finishes(alloc, registering),
        Err((fault, stream)) => stream_text(alloc, word(&fault), &stream),
    }
}

/// A registration comes to these words, and has sent these lines.
fn comes_to(
    rt: &impl Abort,
    alloc: Global,
    good: GoodCalls,
    words: &str,
    sent: &str,
) -> Result<(), Fail> {
    let want = format!(in alloc; "{words} {sent}")?;
    let config = plain(alloc)?;
    let found = dials(alloc, network_of(&config)?, good)?;
    assert!(rt; found.as_slice() == want.as_str().as_bytes(), "{words}");
    Ok(())
}

/// What is sent for the first two lines.
const ASKED: &str =
    "CAP LS 302\r\nNICK ann\r\nUSER ann 0 * :Ann A\r\nCAP REQ :multi-prefix account-notify\r\n";

/// What is sent for the first three lines.
const NEGOTIATED: &str =
    "CAP LS 302\r\nNICK ann\r\nUSER ann 0 * :Ann A\r\nCAP REQ :multi-prefix account-notify\r\n\
     CAP END\r\n";

/// What is sent for the first four lines.
const RENAMED: &str =
    "CAP LS 302\r\nNICK ann\r\nUSER ann 0 * :Ann A\r\nCAP REQ :multi-prefix account-notify\r\n\
     CAP END\r\nNICK ann_\r\n";

/// Reads that succeed; the word, how many lines are left, and what was sent.
const READS: [(usize, &str, &str); 6] = [
    (0, "read 5", FIRST),
    (1, "read 4", FIRST),
    (2, "read 3", ASKED),
    (3, "read 2", NEGOTIATED),
    (4, "read 1", RENAMED),
    (5, "live 0", RENAMED),
];

#[test]
fn a_reader_that_fails_at_each_of_its_calls(rt: HostRuntime) -> Result<(), Fail> {
    for (reads, words, sent) in &READS {
        let good = GoodCalls {
            reads: *reads,
            writes: 100,
            flushes: 100,
        };
        comes_to(&rt, rt.alloc(), good, words, sent)?;
    }
    Ok(())
}

/// Writes and flushes that succeed; the word, how many lines are left, and what was sent. After the
/// welcome nothing is sent, but the writer is flushed.
const WRITES: [(usize, usize, &str, &str); 10] = [
    (0, 0, "write 5", ""),
    (1, 0, "write 5", FIRST),
    (1, 1, "write 3", FIRST),
    (2, 1, "write 3", ASKED),
    (2, 2, "write 2", ASKED),
    (3, 2, "write 2", NEGOTIATED),
    (3, 3, "write 1", NEGOTIATED),
    (4, 3, "write 1", RENAMED),
    (4, 4, "write 0", RENAMED),
    (4, 5, "live 0", RENAMED),
];

#[test]
fn a_writer_that_fails_at_each_of_its_calls(rt: HostRuntime) -> Result<(), Fail> {
    for (writes, flushes, words, sent) in &WRITES {
        let good = GoodCalls {
            reads: 100,
            writes: *writes,
            flushes: *flushes,
        };
        comes_to(&rt, rt.alloc(), good, words, sent)?;
    }
    Ok(())
}
