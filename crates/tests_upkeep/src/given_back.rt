//! Descriptors and threads are given back once sessions have ended, and a network has 64 sessions
//! at most.

use crate::session::connected;
use std::alloc::Global;
use std::fs::{Files, read_dir};
use std::io::{self, ErrorKind, Write};
use std::net::{Net, TcpListener, TcpStream};
use std::process::Abort;
use std::rt::Clock;
use std::test::Fail;
use std::thread;
use std::time::Duration;
use test_bouncer::bouncer::{Bouncer, limits, start};
use test_bouncer::host::Host;
use test_bouncer::room::{PHONE, PLAIN, come, leave, let_in};
use test_stage::ann::{is_cut, many_questions};
use test_stage::peer::Peer;

/// How often a session is cut.
const CUTS: u32 = 5;

/// How many descriptors and how many threads the process has.
#[derive(Drop, PartialEq, Eq)]
struct InUse {
    descriptors: usize,
    threads: usize,
}

/// What the process has.
fn in_use<R: Files + Alloc + Clone + Drop>(rt: &R) -> Result<InUse, Fail> {
    Ok(InUse {
        descriptors: count_in(rt, "/proc/self/fd")?,
        threads: count_in(rt, "/proc/self/task")?,
    })
}

/// How many names a folder has.
fn count_in<R: Files + Alloc + Clone + Drop>(rt: &R, folder: &str) -> Result<usize, Fail> {
    let mut count = 0usize;
    for entry in read_dir(rt, folder)? {
        drop(entry?);
        count = count.saturating_add(1);
    }
    Ok(count)
}

/// Waits until the process has as much as before, at most some ten seconds. Whether it has. A
/// thread that was joined may still be seen for a moment.
fn is_given_back<R: Files + Alloc + Clock + Clone + Drop>(
    rt: &R,
    before: &InUse,
) -> Result<bool, Fail> {
    for _ in 0..1_000 {
        if in_use(rt)? == *before {
            return Ok(true);
        }
        thread::sleep(rt, Duration::from_millis(10));
    }
    Ok(false)
}

/// A writer that owns a connection and writes nothing to it.
#[derive(Drop)]
struct Broken {
    _stream: TcpStream,
}

impl Write for Broken {
    fn write(&mut self, _buf: &[u8]) -> io::Result<usize> {
        Err(io::Error::from(ErrorKind::BrokenPipe))
    }

    fn flush(&mut self) -> io::Result<()> {
        Ok(())
    }
}

/// A session whose client can't be written to is cut, and its client sees the connection's end.
fn cut_one<R: Host + Abort + Net<Listener = TcpListener, Stream = TcpStream>>(
    rt: R,
    alloc: Global,
) -> Result<(), Fail> {
    let (mut client, stream) = connected(&rt)?;
    let said = many_questions(alloc)?;
    let out = Broken { _stream: stream };
    assert!(rt; is_cut(rt, alloc, out, said.as_slice())?);
    client.ends_with(alloc, "")
}

#[test]
fn sessions_that_are_cut_give_all_back(rt: HostRuntime) -> Result<(), Fail> {
    let before = in_use(&rt)?;
    for _ in 0..CUTS {
        cut_one(rt, rt.alloc())?;
    }
    assert!(rt; is_given_back(&rt, &before)?);
    Ok(())
}

/// The most clients that a network may have come, and one more, and all leave.
fn one_too_many<R: Net<Listener = TcpListener, Stream = TcpStream>>(
    rt: &R,
    alloc: Global,
    bouncer: &Bouncer,
) -> Result<(), Fail> {
    let mut clients = Vec::new(alloc);
    for _ in 0..64 {
        clients.push(come(rt, alloc, bouncer, PHONE, PLAIN)?)?;
    }
    let mut late = Peer::dial(rt, bouncer.address)?;
    late.say(PHONE)?;
    late.ends_with(alloc, "ERROR :too many sessions\r\n")?;
    for client in &mut clients {
        leave(alloc, client)?;
    }
    Ok(())
}

/// Clients come and go twice. Whether the process has as much as before after each time.
fn come_and_go<
    R: Clock + Files + Alloc + Clone + Drop + Net<Listener = TcpListener, Stream = TcpStream>,
>(rt: &R, alloc: Global, bouncer: &Bouncer) -> Result<bool, Fail> {
    let _network = let_in(alloc, bouncer)?;
    let before = in_use(rt)?;
    one_too_many(rt, alloc, bouncer)?;
    let once = is_given_back(rt, &before)?;
    one_too_many(rt, alloc, bouncer)?;
    Ok(once && is_given_back(rt, &before)?)
}

#[test]
fn the_sixty_fifth_session_is_refused(rt: HostRuntime) -> Result<(), Fail> {
    let alloc = rt.alloc();
    let bouncer = start(rt, alloc, limits(131, 1))?;
    assert!(rt; come_and_go(&rt, alloc, &bouncer)?);
    // the last connection to be accepted: until it comes, the thread that accepts is there
    drop(Peer::dial(&rt, bouncer.address)?);
    bouncer.join(&rt);
    Ok(())
}
