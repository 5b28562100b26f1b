//! The thread that writes the log, while its reader stands still.

use serving::Log;
use std::alloc::Global;
use std::io::Write;
use std::rt::Clock;
use std::sync::atomic::{AtomicBool, Ordering};
use std::sync::{Arc, Wait};
use std::test::Fail;
use std::thread::Threads;
use std::time::Duration;
use std::{io, thread};

/// How many milliseconds a test waits for another thread, at most.
const WAIT: u32 = 10_000;

/// More lines than may wait.
const LINES: u32 = 1_124;

/// A reader of the log that stands still, and goes on.
#[derive(Drop)]
struct Reader {
    // the first line has come
    has_begun: AtomicBool,
    goes_on: AtomicBool,
}

/// A writer to that reader: its first write ends once the reader goes on.
#[derive(Drop)]
struct Standing<R: Clock> {
    rt: R,
    reader: Arc<Reader>,
    found: Vec<u8>,
}

/// Waits until a flag is up.
fn wait_for<R: Clock>(rt: &R, flag: &AtomicBool) {
    for _ in 0..WAIT {
        if flag.load(Ordering::SeqCst) {
            return;
        }
        thread::sleep(rt, Duration::from_millis(1));
    }
}

impl<R: Clock> Write for Standing<R> {
    fn write(&mut self, buf: &[u8]) -> io::Result<usize> {
        self.reader.has_begun.store(true, Ordering::SeqCst);
        wait_for(&self.rt, &self.reader.goes_on);
        if self.found.extend_from_slice(buf).is_err() {
            return Err(io::Error::from(io::ErrorKind::OutOfMemory));
        }
        Ok(buf.len())
    }

    fn flush(&mut self) -> io::Result<()> {
        Ok(())
    }
}

/// Logs more lines than may wait while the log's reader stands still, and answers what it reads
/// once it goes on.
fn read_late<R: Threads + Wait + Clock + Copy + Send + Drop + 'static>(
    rt: R,
    alloc: Global,
) -> Result<Vec<u8>, Fail> {
    let log = Arc::new(alloc, Log::new(alloc)?)?;
    let reader = Reader {
        has_begun: AtomicBool::new(false),
        goes_on: AtomicBool::new(false),
    };
    let reader = Arc::new(alloc, reader)?;
    let (theirs, slow) = (Arc::try_clone(&log)?, Arc::try_clone(&reader)?);
    let writer = thread::spawn(&rt, move || {
        let mut out = Standing {
            rt,
            reader: slow,
            found: Vec::new(alloc),
        };
        theirs.write_to(&rt, &mut out);
        let Standing { found, .. } = out;
        found
    })?;
    log.tell(&rt, &"bnc", &"first");
    wait_for(&rt, &reader.has_begun);
    for number in 0..LINES {
        log.tell(&rt, &"bnc", &number);
    }
    reader.goes_on.store(true, Ordering::SeqCst);
    log.end(&rt);
    Ok(writer.join(&rt))
}

#[test]
fn lines_are_lost_and_counted_while_nobody_reads_the_log(rt: HostRuntime) -> Result<(), Fail> {
    let text = read_late(rt, rt.alloc())?;
    let lines = text.iter().filter(|byte| **byte == b'\n').count();
    // the first, those that may wait, and how many were lost
    assert_eq!(rt; lines, 1_026);
    assert!(rt;
        text.as_slice()
            .ends_with(b"Z bnc: 100 lines of the log were lost\n")
    );
    Ok(())
}
