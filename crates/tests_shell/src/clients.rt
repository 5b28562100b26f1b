//! A client's reader, from the login on into the session.

use crate::memory::{Idle, Memory, gives, next};
use shell::{ClientInput, Pace};
use std::alloc::Global;
use std::io::ErrorKind;
use std::test::Fail;
use std::time::Duration;

/// What a client says at once: two lines of its login and two of its session.
const SAID: &[u8] = b"NICK a\r\nPASS b\r\nPING x\r\nPRIVMSG #c :hi all of you, good evening\r\n";

#[test]
fn what_was_read_ahead_in_the_login_is_read_in_the_session(rt: HostRuntime) -> Result<(), Fail> {
    let alloc = rt.alloc();
    let pace = Pace::new(1_500, 100);
    let wire = Memory::new(alloc, &[SAID, b"QUIT\r\n"])?;
    let mut input = ClientInput::start(&rt, alloc, wire, Duration::from_secs(60))?;
    assert!(rt; gives(alloc, &mut input, b"NICK a\r\n")?);
    assert!(rt; gives(alloc, &mut input, b"PASS b\r\n")?);
    assert!(rt; !input.lacks_pass());
    input.begin_session(Idle, &pace);
    assert_eq!(rt; input.unsaid(), 2);
    assert!(rt; gives(alloc, &mut input, b"PING x\r\n")?);
    let message = b"PRIVMSG #c :hi all of you, good evening\r\n";
    assert!(rt; gives(alloc, &mut input, message)?);
    assert!(rt; gives(alloc, &mut input, b"QUIT\r\n")?);
    assert!(rt; next(alloc, &mut input)?.is_empty());
    Ok(())
}

/// A client of this login time whose time is up, and that said only its nick.
#[test]
fn a_login_ends_with_its_time(rt: HostRuntime) -> Result<(), Fail> {
    let alloc = rt.alloc();
    let wire = Memory::new(alloc, &[b"NICK a\r\n"])?;
    let mut input: ClientInput<Memory, Idle, HostRuntime> = ClientInput::start(
        &rt,
        alloc,
        wire,
        Duration::ZERO,
    )?;
    match next(alloc, &mut input) {
        Ok(_) => assert!(rt; false),
        Err(error) => assert!(rt; error.kind() == ErrorKind::TimedOut),
    }
    assert!(rt; input.lacks_pass());
    Ok(())
}

/// What a session reads after `spent` bytes were said, of a client that has gone.
fn gone(alloc: Global) -> Result<Memory, Fail> {
    let mut wire = Memory::new(alloc, &[b"JOIN #c\r\nJOIN #d\r\n"])?;
    wire.is_shut = true;
    Ok(wire)
}

#[test]
fn a_line_that_waits_when_its_client_goes_is_no_end(rt: HostRuntime) -> Result<(), Fail> {
    let alloc = rt.alloc();
    let pace = Pace::new(1, 1);
    let mut input = ClientInput::start(&rt, alloc, gone(alloc)?, Duration::from_secs(60))?;
    input.begin_session(Idle, &pace);
    assert!(rt; gives(alloc, &mut input, b"JOIN #c\r\n")?);
    match next(alloc, &mut input) {
        Ok(_) => assert!(rt; false),
        Err(error) => assert!(rt; error.kind() == ErrorKind::ConnectionAborted),
    }
    assert_eq!(rt; input.unsaid(), 1);
    Ok(())
}
