//! Inputs that come in pieces or fail, outputs that take a part or nothing, and the texts of faults.

use bnc_config::ConfigFault;
use client_caps::Caps;
use commands::{Fault, run_attach, run_attach_profiled, run_check, run_view};
use std::alloc::Global;
use std::io::{ErrorKind, Read, Write};
use std::process::Abort;
use std::test::Fail;
use test_streams::{Pieces, Sink};
use test_texts::{GREETING, begins, joined};

const WELCOME: &[u8] = b":s 001 Me :hi\r\n";

const JOINED: &[u8] = b":s 001 Me :hi\r\n:Me!m@h JOIN #c\r\n:bob!b@h JOIN #c\r\n";

const REPORT: &[u8] = b"nick Me\nchannel #c\nmember bob\nmember Me\n";

/// The end of the burst of `JOINED`, for a client without capabilities.
const CHANNEL: &[u8] = b":bnc 422 Me :MOTD File is missing\r\n:Me JOIN #c\r\n\
    :bnc 353 Me = #c :bob Me\r\n:bnc 366 Me #c :End of NAMES list\r\n";

/// A command that reads what a network sent.
#[derive(Clone, Copy)]
enum Reading {
    View,
    Attach,
    Profiled,
}

/// Runs a command; a client that attaches has no capabilities.
fn run<I: Read, O: Write>(
    alloc: Global,
    command: Reading,
    input: &mut I,
    output: &mut O,
) -> Result<(), Fault> {
    match command {
        Reading::View => run_view(alloc, input, output),
        Reading::Attach => run_attach(alloc, input, output, Caps::none(), 1),
        Reading::Profiled => run_attach_profiled(alloc, b"", input, output, Caps::none(), 1),
    }
}

/// The report of an input.
fn report_of(alloc: Global, input: &mut Pieces) -> Result<Vec<u8>, Fault> {
    let mut output = Sink::new(alloc);
    run_view(alloc, input, &mut output)?;
    Ok(output.bytes)
}

#[test]
fn an_input_in_two_pieces(rt: HostRuntime) -> Result<(), Fail> {
    for at in 1..15 {
        let (before, since) = WELCOME.split_at(at);
        let mut input = Pieces::new(rt.alloc(), &[before, since])?;
        assert!(rt; report_of(rt.alloc(), &mut input)?.as_slice() == b"nick Me\n".as_slice());
    }
    Ok(())
}

/// A text that comes 3,000 times: more than two reads ask for.
const SAID: &[u8] = b":bob!b@h PRIVMSG #c :some words that say nothing of the network\r\n";

#[test]
fn lines_across_the_reads_of_a_long_input(rt: HostRuntime) -> Result<(), Fail> {
    let mut text = Vec::from_slice(rt.alloc(), WELCOME)?;
    for _ in 0..3_000 {
        text.extend_from_slice(SAID)?;
    }
    text.extend_from_slice(b":Me!m@h JOIN #c\r\n")?;
    let mut input = Pieces::new(rt.alloc(), &[text.as_slice()])?;
    let report = report_of(rt.alloc(), &mut input)?;
    assert!(rt; report.as_slice() == b"nick Me\nchannel #c\nmember Me\n".as_slice());
    Ok(())
}

/// A command whose input fails after each number of bytes writes nothing.
fn check_failing_reads<R: AllocGlobal + Abort>(rt: &R, command: Reading) -> Result<(), Fail> {
    for good_calls in 0..=JOINED.len() {
        let mut input = Pieces::new(rt.alloc(), &[JOINED])?;
        input.a_call = 1;
        input.good_calls = good_calls;
        input.fault = Some(ErrorKind::ConnectionReset);
        let mut output = Sink::new(rt.alloc());
        let done = run(rt.alloc(), command, &mut input, &mut output);
        assert!(rt; matches!(done, Err(Fault::CannotRead)) && output.bytes.is_empty());
    }
    Ok(())
}

#[test]
fn a_read_that_fails(rt: HostRuntime) -> Result<(), Fail> {
    check_failing_reads(&rt, Reading::View)?;
    check_failing_reads(&rt, Reading::Attach)?;
    check_failing_reads(&rt, Reading::Profiled)
}

/// How many bytes an output takes a call and in all, and how many calls are good.
const OUTPUTS: [(usize, usize, usize); 5] = [
    (1, 0, 100),
    (1, 10, 100),
    (0, 100, 100),
    (100, 100, 0),
    (3, 100, 5),
];

/// An output that takes not all of what the command writes is a fault, and has a beginning of it.
fn check_failing_writes<R: AllocGlobal + Abort>(
    rt: &R,
    (command, whole): (Reading, &[u8]),
    rows: &[(usize, usize, usize)],
) -> Result<(), Fail> {
    for (a_call, in_all, good_calls) in rows {
        let mut output = Sink::new(rt.alloc());
        output.a_call = *a_call;
        output.in_all = *in_all;
        output.good_calls = *good_calls;
        let done = run(rt.alloc(), command, &mut &JOINED[..], &mut output);
        assert!(rt; matches!(done, Err(Fault::CannotWrite)));
        assert!(rt; begins(output.bytes.as_slice(), whole));
    }
    Ok(())
}

/// An output that takes three bytes a call gets all of it.
fn check_slow_writes<R: AllocGlobal + Abort>(
    rt: &R,
    (command, whole): (Reading, &[u8]),
) -> Result<(), Fail> {
    let mut output = Sink::new(rt.alloc());
    output.a_call = 3;
    run(rt.alloc(), command, &mut &JOINED[..], &mut output)?;
    assert!(rt; output.bytes.as_slice() == whole);
    Ok(())
}

#[test]
fn a_report_that_is_not_taken(rt: HostRuntime) -> Result<(), Fail> {
    check_failing_writes(&rt, (Reading::View, REPORT), &OUTPUTS)?;
    check_slow_writes(&rt, (Reading::View, REPORT))
}

#[test]
fn a_burst_that_is_not_taken(rt: HostRuntime) -> Result<(), Fail> {
    let burst = joined(rt.alloc(), &[GREETING, CHANNEL])?;
    check_failing_writes(&rt, (Reading::Attach, burst.as_slice()), &OUTPUTS)?;
    check_slow_writes(&rt, (Reading::Attach, burst.as_slice()))?;
    check_failing_writes(&rt, (Reading::Profiled, burst.as_slice()), &OUTPUTS)?;
    check_slow_writes(&rt, (Reading::Profiled, burst.as_slice()))
}

/// A fault of a profile comes before the input is read.
#[test]
fn a_fault_of_a_profile_before_the_input_is_read(rt: HostRuntime) -> Result<(), Fail> {
    let mut input = Pieces::new(rt.alloc(), &[JOINED])?;
    input.fault = Some(ErrorKind::ConnectionReset);
    let mut output = Sink::new(rt.alloc());
    let text = b"[messages]\nctcp = 1".as_slice();
    let done = run_attach_profiled(rt.alloc(), text, &mut input, &mut output, Caps::none(), 1);
    assert!(rt; matches!(done, Err(Fault::Settings(_))) && output.bytes.is_empty());
    Ok(())
}

/// A fault of the settings comes before the output is tried.
#[test]
fn a_count_of_users_that_is_not_taken(rt: HostRuntime) {
    let mut output = Sink::closed(rt.alloc());
    let done = run_check(rt.alloc(), b"listen = \"h:1\"", &mut output);
    assert!(rt; matches!(done, Err(Fault::CannotWrite)));
    let done = run_check(rt.alloc(), b"", &mut output);
    assert!(rt; matches!(done, Err(Fault::Settings(_))));
}

/// Faults that no input and no file makes.
#[test]
fn texts_of_faults(rt: HostRuntime) -> Result<(), Fail> {
    let rows = [
        (Fault::CannotListen, "cannot listen"),
        (Fault::CannotRead, "cannot read"),
        (Fault::CannotWrite, "cannot write"),
        (Fault::OutOfMemory, "out of memory"),
        (Fault::Settings(ConfigFault::OutOfMemory), "out of memory"),
    ];
    for (fault, want) in rows {
        let text = format!(in rt.alloc(); "{fault}")?;
        assert_eq!(rt; text.as_str(), want);
    }
    Ok(())
}
