//! A network's reader, from its registration on.

use crate::memory::{Memory, gives, next};
use shell::{NetworkInput, OnSilence, Patient, Recalling, Until, is_silence};
use std::io;
use std::io::ErrorKind;
use std::test::Fail;
use std::time::Duration;
use test_streams::Pieces;

/// Counts silences.
#[derive(Drop)]
struct Silences {
    count: u32,
}

impl OnSilence for Silences {
    fn silent(&mut self) {
        self.count = self.count.saturating_add(1);
    }
}

/// Whether this is a silence.
fn is_silent(answer: io::Result<Vec<u8>>) -> bool {
    match answer {
        Ok(_) => false,
        Err(error) => is_silence(&error),
    }
}

#[test]
fn a_network_is_read_on_after_its_welcome_and_its_last_words_are_kept(
    rt: HostRuntime,
) -> Result<(), Fail> {
    let alloc = rt.alloc();
    let texts: [&[u8]; 3] = [b":s 001 a :hi\r\n", b":s 376 a :end\r\n", b"ERROR :bye\r\n"];
    let wire = Memory::new(alloc, &texts)?;
    let input = NetworkInput::start(&rt, wire, Duration::from_secs(60))?;
    let mut input = Recalling::new(alloc, input);
    assert!(rt; gives(alloc, &mut input, texts[0])?);
    assert!(rt; input.parting(alloc)?.is_none());
    input.begin_live(Duration::from_secs(1), 2, Silences { count: 0 })?;
    assert!(rt; gives(alloc, &mut input, texts[1])?);
    assert!(rt; gives(alloc, &mut input, texts[2])?);
    assert!(rt; next(alloc, &mut input)?.is_empty());
    assert!(rt; input.parting(alloc)?.as_deref() == Some(b"bye"));
    Ok(())
}

#[test]
fn a_reader_fails_at_the_last_silence_in_succession(rt: HostRuntime) -> Result<(), Fail> {
    let alloc = rt.alloc();
    let mut pieces = Pieces::new(alloc, &[b"a"])?;
    pieces.fault = Some(ErrorKind::WouldBlock);
    let mut patient = Patient::new(pieces, Silences { count: 0 }, 3);
    assert!(rt; gives(alloc, &mut patient, b"a")?);
    assert!(rt; is_silent(next(alloc, &mut patient)));
    Ok(())
}

#[test]
fn a_reader_fails_when_its_time_is_up(rt: HostRuntime) -> Result<(), Fail> {
    let alloc = rt.alloc();
    let mut until = Until::start(Memory::new(alloc, &[b"a"])?, &rt, Duration::ZERO)?;
    assert!(rt; until.is_over());
    assert!(rt; is_silent(next(alloc, &mut until)));
    let mut input = until.into_input();
    assert!(rt; gives(alloc, &mut input, b"a")?);
    Ok(())
}
